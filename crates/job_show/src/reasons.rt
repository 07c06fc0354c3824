// The reason of a mark, in words.
ghost use Rattle.std.specs.Prelude.{◌≡◌, ◌++◌, OnOk, decimal};
ghost use Rattle.job_show.specs.Reasons.{gap_text, radius_or_zero, reach_text, reason_text, sign, skip_text, test_text};

use fault_lines::push_numbered;
use log_model::Mark;
use metric_laws::{centre_test, parent_test};
use std::alloc::AllocError;

/// What a distance is compared with.
#[derive(Clone, Copy)]
pub struct Reach {
    /// The radius that prunes.
    pub rho: u64,
    /// The covering radius of a subtree. An object has none.
    pub radius: Option<u64>,
}

/// Returns the covering radius, or 0 where there is none.
pub fn radius_or_zero(radius: Option<u64>) -> u64
    ensures { result ≡ radius_or_zero radius }
{
    match radius {
        None => 0,
        Some(radius) => radius,
    }
}

/// Appends whether a distance is greater.
pub fn push_sign(exceeds: bool, out: &mut Vec<u8>) -> Result<(), AllocError>
    ensures { OnOk result (out.new.items ≡ out.old.items ++ sign exceeds) }
{
    if exceeds {
        out.extend_from_slice(b" > ")
    } else {
        out.extend_from_slice(b" <= ")
    }
}

// Appends what a distance is compared with.
fn push_reach(reach: Reach, out: &mut Vec<u8>) -> Result<(), AllocError>
    ensures { OnOk result (out.new.items ≡ out.old.items ++ reach_text reach) }
{
    push_numbered(b"", reach.rho, out)?;
    match reach.radius {
        None => Ok(()),
        Some(radius) => push_numbered(b" + ", radius, out),
    }
}

// Appends the centre test of an entry after `word`.
fn push_centre_test(
    word: &[u8],
    dist: u64,
    reach: Reach,
    out: &mut Vec<u8>,
) -> Result<(), AllocError>
    ensures { OnOk result (out.new.items ≡ out.old.items ++ (word.now ++ test_text (decimal dist) dist reach)) }
{
    let radius = radius_or_zero(reach.radius);
    push_numbered(word, dist, out)?;
    push_sign(centre_test(dist, reach.rho, radius), out)?;
    push_reach(reach, out)
}

/// Appends the difference of a distance from above and a stored distance.
pub fn push_gap(above: u64, stored: u64, out: &mut Vec<u8>) -> Result<(), AllocError>
    ensures { OnOk result (out.new.items ≡ out.old.items ++ gap_text above stored) }
{
    push_numbered(b"|", above, out)?;
    push_numbered(b" - ", stored, out)?;
    out.extend_from_slice(b"|")
}

// Appends the parent test of an entry. There is none in the root.
fn push_parent_test(
    above: Option<u64>,
    stored: u64,
    reach: Reach,
    out: &mut Vec<u8>,
) -> Result<(), AllocError>
    ensures { OnOk result (out.new.items ≡ out.old.items ++ skip_text above stored reach) }
{
    match above {
        None => out.extend_from_slice(b"skip"),
        Some(above) => {
            let radius = radius_or_zero(reach.radius);
            out.extend_from_slice(b"skip ")?;
            push_gap(above, stored, out)?;
            push_sign(parent_test(above, stored, reach.rho, radius), out)?;
            push_reach(reach, out)
        }
    }
}

/// Appends the mark of an entry with the numbers of its test. `above` is the distance of the query from the routing point above, and
/// `stored` the entry's stored distance from it. `dist` is the distance of the query from the entry; no skipped entry shows it.
pub fn push_reason(
    above: Option<u64>,
    stored: u64,
    dist: u64,
    reach: Reach,
    mark: Mark,
    out: &mut Vec<u8>,
) -> Result<(), AllocError>
    ensures { OnOk result (out.new.items ≡ out.old.items ++ reason_text above stored dist reach mark) }
{
    match mark {
        Mark::Skip => push_parent_test(above, stored, reach, out),
        Mark::Far => push_centre_test(b"far ", dist, reach, out),
        Mark::Near => push_centre_test(b"near ", dist, reach, out),
    }
}
