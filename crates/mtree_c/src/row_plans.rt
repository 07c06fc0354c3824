// Hands over what a load or inserts of rows would do to a file.
ghost use Rattle.std.specs.Prelude.{◌≡◌, ◌⊎◌, IfOk, IfErr};
ghost use Rattle.metric_laws.specs.Rows.{rows_of};
ghost use Rattle.session_run.specs.GivenRows.{inserts_of, load_of, tags_if};
ghost use Rattle.mtree_c.specs.Handed.{HandsPlan};
ghost use Rattle.mtree_c.specs.Sessions.{AreRows, IsAsked};

use crate::plans::{NO_PLAN, PlanSizes, asked_plan};
use crate::{MEMORY, NO_ROWS};
use plan_disk::Step;
use session_run::{GivenRows, RowsToInsert, RowsToLoad};
use std::alloc::Global;

// Copies the rows. Gives the status where they are no rows, or where memory ran out.
fn given_rows(
    alloc: Global,
    rows: &[u32],
    width: usize,
    count: usize,
    tagged: bool,
    tags: &[u64],
) -> Result<GivenRows, u8>
    ensures are { IfOk result (λ given. AreRows width count tagged rows.now tags.now) }
    ensures rows { IfOk result (λ given. given.rows ≡ record { dimension = width; points = rows_of width count rows.now }) }
    ensures tags { IfOk result (λ given. given.tags ≡ tags_if tagged tags.now) }
    ensures no_rows { IfErr result (λ status. ((status ≡ 2) × (¬ AreRows width count tagged rows.now tags.now))
        ⊎ ((status ≡ 8) × AreRows width count tagged rows.now tags.now)) }
{
    let is_whole = count.checked_mul(width) == Some(rows.len());
    if !is_whole || count >= 1 << 32 || (tagged && tags.len() != count) {
        return Err(NO_ROWS);
    }
    match GivenRows::new(alloc, rows, width, count, tagged, tags) {
        Ok(given) => Ok(given),
        Err(_) => Err(MEMORY),
    }
}

/// Does what `mtree_session_plan` does for a load of all rows into an index that is empty. `count` rows of `width` numbers stand one after
/// another in `rows`. Where they are `tagged`, row i has the tag i of `tags`, else its id. The reply is that of `tload`, or of `load`. A
/// row of another number of coordinates than the index has is refused. Status 2: these are no such rows.
/// Arguments: `rows`, `width`, `count`, `tagged` and `tags` are the rows, and `steps`, `written`, `text`, `log` and `sizes` are the
/// caller's own buffers.
#[unsafe(no_mangle)]
pub extern "C" fn mtree_load_plan(
    alloc: Global,
    file: &[u8],
    rows: &[u32],
    width: usize,
    count: usize,
    tagged: bool,
    tags: &[u64],
    steps: &mut [Step],
    written: &mut [u8],
    text: &mut [u8],
    log: &mut [u8],
    sizes: &mut PlanSizes,
) -> u8
    ensures plan { AreRows width count tagged rows.now tags.now →
        HandsPlan (IsAsked (load_of (record { dimension = width; points = rows_of width count rows.now })
        (tags_if tagged tags.now)) file.now)
        steps.old steps.new written.old written.new text.old text.new log.old log.new sizes.new result }
    ensures no_rows { ¬ AreRows width count tagged rows.now tags.now →
        (result ≡ 2) × (steps.new ≡ steps.old) × (written.new ≡ written.old) × (text.new ≡ text.old) × (log.new ≡ log.old) }
{
    *sizes = NO_PLAN;
    match given_rows(alloc, rows, width, count, tagged, tags) {
        Ok(given) => asked_plan(
            alloc,
            file,
            RowsToLoad(given),
            steps,
            written,
            text,
            log,
            sizes,
        ),
        Err(status) => status,
    }
}

/// Does what `mtree_session_plan` does for an insert of each row, in order. All else is as in `mtree_load_plan`, with the replies of
/// `tinsert`, or of `insert`.
/// Arguments: `rows`, `width`, `count`, `tagged` and `tags` are the rows, and `steps`, `written`, `text`, `log` and `sizes` are the
/// caller's own buffers.
#[unsafe(no_mangle)]
pub extern "C" fn mtree_insert_plan(
    alloc: Global,
    file: &[u8],
    rows: &[u32],
    width: usize,
    count: usize,
    tagged: bool,
    tags: &[u64],
    steps: &mut [Step],
    written: &mut [u8],
    text: &mut [u8],
    log: &mut [u8],
    sizes: &mut PlanSizes,
) -> u8
    ensures plan { AreRows width count tagged rows.now tags.now →
        HandsPlan (IsAsked (inserts_of (record { dimension = width; points = rows_of width count rows.now })
        (tags_if tagged tags.now)) file.now)
        steps.old steps.new written.old written.new text.old text.new log.old log.new sizes.new result }
    ensures no_rows { ¬ AreRows width count tagged rows.now tags.now →
        (result ≡ 2) × (steps.new ≡ steps.old) × (written.new ≡ written.old) × (text.new ≡ text.old) × (log.new ≡ log.old) }
{
    *sizes = NO_PLAN;
    match given_rows(alloc, rows, width, count, tagged, tags) {
        Ok(given) => asked_plan(
            alloc,
            file,
            RowsToInsert(given),
            steps,
            written,
            text,
            log,
            sizes,
        ),
        Err(status) => status,
    }
}
