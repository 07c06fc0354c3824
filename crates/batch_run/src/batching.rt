//! A batch of commands on an image.

ghost use Rattle.std.specs.Prelude.{◌≡◌, ◌≤◌, ◌<◌, ◌^◌, All, length, slice_index_or, true, IfOk};
ghost use Rattle.std.specs.List.{AllZip};
ghost use Rattle.rows_text.specs.declared.command.Command.{Command};
ghost use Rattle.rows_text.specs.Readable.{IsReadable};
ghost use Rattle.page_store.specs.Images.{bytes_in};
ghost use Rattle.image_answers.specs.Outcomes.{ArePagesOf, IsGivenOf, IsOutcomeOf};

use crate::dealing::share_evenly;
use image_answers::{Outcome, cached_pages, nearest_on, range_on};
use metric_laws::Metric;
use page_cache::{KEPT_NODES, Mapped};
use page_store::{Image, ImagePages};
use rows_text::{Command, Refusal, Reply};
use std::alloc::{AllocError, Global};
use std::thread::Threads;
use tree_shape::Live;

/// Returns the outcome of `command` on the file in memory with `pages` and the live slot `live`. Where `tags` is false, hits have no
/// tags.
pub fn outcome_of<M: Metric>(
    alloc: Global,
    pages: &mut Mapped<ImagePages<'_>>,
    metric: M,
    live: &Live,
    command: &Command,
    tags: bool,
) -> Result<Outcome, AllocError>
    requires few { live.now.pages ≤ 2 ^ 24 }
    requires pages { ArePagesOf (M.space metric) live.now (bytes_in pages.old.inner.image) pages.old }
    requires readable { IsReadable (M.space metric).dimension command.now }
    ensures given { IfOk result (IsGivenOf tags (M.space metric) live.now (bytes_in pages.old.inner.image) command.now) }
    ensures whole { tags ≡ true → IfOk result (IsOutcomeOf (M.space metric) live.now (bytes_in pages.old.inner.image) command.now) }
    ensures same { ArePagesOf (M.space metric) live.now (bytes_in pages.old.inner.image) pages.new }
{
    match command {
        Command::Range { r, q } => range_on(alloc, pages, metric, live, q, *r, tags),
        Command::Nearest { k, q } => nearest_on(alloc, pages, metric, live, q, *k, tags),
        Command::Count => Ok(Outcome::plain(Reply::Count(live.count))),
        Command::Bad(why) => Ok(Outcome::refused(*why)),
        Command::Insert(_)
        | Command::TagInsert { .. }
        | Command::Load(_)
        | Command::TagLoad { .. }
        | Command::Cursor(_)
        | Command::Next { .. }
        | Command::Close(_) => Ok(Outcome::refused(Refusal::ReadOnly)),
    }
}

// Returns the outcome of `command` on the file with the bytes `image`.
fn outcome_on<M: Metric>(
    alloc: Global,
    image: &[u8],
    metric: M,
    live: &Live,
    command: &Command,
) -> Result<Outcome, AllocError>
    requires pages { live.now.pages ≤ 2 ^ 24 }
    requires readable { IsReadable (M.space metric).dimension command.now }
    ensures { IfOk result (IsOutcomeOf (M.space metric) live.now image.now command.now) }
{
    let mut pages = cached_pages(alloc, Image::Whole(image), metric, live, KEPT_NODES)?;
    outcome_of(alloc, &mut pages, metric, live, command, true)
}

/// Returns the outcome of each of `commands`, in order, on the file with the bytes `image` and the live slot `live`. The result is the
/// same for every number of workers, 1 to 64, which share the commands evenly. No command changes anything: one that would, and
/// each on a cursor, is refused as read-only.
///
/// On a sound image each reply is that of a plain list of the image's objects, and each log the least one. On any image a
/// search that meets a damaged page is `Damaged`, and the commands after it are answered all the same.
/// Arguments: `rt` and `workers` are the threads, `image`, `metric` and `live` the opened file, and `commands` the work.
pub fn batch<R: Threads + Sync, M: Metric>(
    rt: &R,
    alloc: Global,
    image: &[u8],
    metric: M,
    live: &Live,
    commands: &[Command],
    workers: usize,
) -> Result<Vec<Outcome>, AllocError>
    requires pages { live.now.pages ≤ 2 ^ 24 }
    requires readable { All (IsReadable (M.space metric).dimension) commands.now }
    requires few { length commands.now < 2 ^ 32 }
    requires some_workers { 1 ≤ workers }
    requires few_workers { workers ≤ 64 }
    ensures { IfOk result (λ outcomes. AllZip (IsOutcomeOf (M.space metric) live.now image.now) commands.now outcomes.items) }
{
    let work = |i: usize| -> Result<Outcome, AllocError>
        requires { (live.now.pages ≤ 2 ^ 24) × All (IsReadable (M.space metric).dimension) commands.now × (i < length commands.now) }
        ensures { (c : Command) → IfOk result (IsOutcomeOf (M.space metric) live.entry.now image.entry.now
            (slice_index_or commands.entry.now i c)) }
    { outcome_on(alloc, image, metric, live, &commands[i]) };
    share_evenly(rt, alloc, commands.len(), workers, &work)
}
