// The job `batch`: a script on an index that is read into memory.
ghost use Rattle.std.specs.Prelude.{◌≡◌, ◌⊎◌, ◌≤◌, ◌^◌, codes, length};
ghost use Rattle.std.specs.Io.KnownBytes.{IsAtEnd};
ghost use Rattle.outside_io.specs.Causes.{Rose};
ghost use Rattle.outside_io.specs.Sinks.{Tells};
ghost use Rattle.tree_shape.specs.Tree.{IsSoundTree};
ghost use Rattle.node_page.specs.Heads.{IsValidHead};
ghost use Rattle.page_store.specs.Files.{nodes_in};
ghost use Rattle.page_store.specs.Images.{bytes_in};
ghost use Rattle.answer_texts.specs.Asked.{held_in};
ghost use Rattle.job_files.specs.Spaces.{space_of};
ghost use Rattle.batch_run.specs.Jobs.Batches.{HasFinished, HasOpened, IsBatchStatus, IsTooLong, RunsBatch, RunsOn};
ghost use Rattle.batch_run.specs.Jobs.Putting.{HasEnded};

use crate::dealing::Deal;
use crate::jobs::preparing::{in_turn, prepare_all};
use crate::jobs::putting::put_all;
use crate::jobs::stop::BatchStop;
use crate::laws::images_hold_the_file;
use crate::{ImageFault, read_parts};
use disk_model::SharedDisk;
use job_files::{
    FAULT_DISK, FAULT_LONG, FAULT_MEMORY, MOST_INPUT, end_at_page, end_unread, end_with,
    open_index, space_of,
};
use metric_laws::Metric;
use node_page::Head;
use node_page::laws::{fault_is_not_open, one_live_slot};
use outside_io::{Sink, Source, Status, read_all};
use page_store::Image;
use rows_text::read_script;
use std::alloc::Global;
use std::thread::Threads;
use tree_shape::Live;

// Ends a batch that stopped for the reason `why`.
fn end_stopped<K: Sink>(alloc: Global, why: BatchStop, out: &mut K) -> Status
    ensures ended { HasEnded why (K.state out.old) (K.state out.new) result.0 }
    ensures later { (K.state out.old).faults ≤ (K.state out.new).faults }
{
    match why {
        BatchStop::Sink => Status(4),
        BatchStop::Damaged(fault) => end_at_page(alloc, fault, out),
    }
}

// The task of a batch on an index.
#[derive(Clone, Copy)]
struct Task<'a> {
    // The bytes of the script.
    bytes: &'a [u8],
    // Whether a hit is written with its tag.
    show_tags: bool,
    // The most threads.
    workers: usize,
}

// Runs a task on an image of the index.
// Clauses: what is asked of the caller (`head`, `pages`, `some`, `many`, `few`); what the batch does (`runs`); the cause of each status
// (`finished`); faults of the devices (`later`, `log_later`).
// Arguments: `rt` has the threads, `image`, `head` and `live` are the opened file, `task` says what is asked, and `out` and `log_out` are
// written.
fn run_on_image<R: Threads + Sync, K: Sink, T: Sink>(
    rt: &R,
    alloc: Global,
    image: Image<'_>,
    head: &Head,
    live: &Live,
    task: &Task<'_>,
    out: &mut K,
    log_out: &mut T,
) -> Status
    requires head { IsValidHead head.now }
    requires pages { live.now.pages ≤ 2 ^ 24 }
    requires some { 1 ≤ task.now.workers }
    requires many { task.now.workers ≤ 64 }
    requires few { length task.now.bytes.now ≤ 2 ^ 26 }
    ensures runs { IsSoundTree (space_of head.now) (nodes_in head.now.dim live.now (bytes_in image.entry)) live.now →
        RunsOn task.now.show_tags task.now.bytes.now (space_of head.now) (held_in head.now.dim live.now (bytes_in image.entry))
        (K.state out.old) (K.state out.new) (T.state log_out.old) (T.state log_out.new) result.0 }
    ensures finished { HasFinished (space_of head.now) live.now (bytes_in image.entry) (K.state out.old) (K.state out.new)
        (T.state log_out.old) (T.state log_out.new) result.0 }
    ensures later { (K.state out.old).faults ≤ (K.state out.new).faults }
    ensures log_later { (T.state log_out.old).faults ≤ (T.state log_out.new).faults }
{
    let space = space_of(head);
    let Ok(commands) = read_script(alloc, task.bytes, space.dimension()) else {
        return end_with(out, FAULT_MEMORY, 8);
    };
    let deal = Deal::of(commands.len(), task.workers);
    let Ok(piles) = prepare_all(
        rt,
        alloc,
        image,
        space,
        live,
        &commands,
        task.show_tags,
        &deal,
    ) else {
        return end_with(out, FAULT_MEMORY, 8);
    };
    let Ok(prepared) = in_turn(alloc, &deal, commands.len(), &piles) else {
        return end_with(out, FAULT_MEMORY, 8);
    };
    match put_all(&prepared, out, log_out) {
        Ok(()) => Status(0),
        Err(why) => end_stopped(alloc, why, out),
    }
}

// Ends a batch whose index was not read into memory.
fn end_without_image<K: Sink>(fault: ImageFault, out: &mut K) -> Status
    ensures long { result.0 ≡ 7 → (fault ≡ ImageFault.TooLong) × Tells (K.state out.old) (K.state out.new) (codes "fault long\n") }
    ensures disk { result.0 ≡ 5 → (fault ≡ ImageFault.Disk) × Tells (K.state out.old) (K.state out.new) (codes "fault disk\n") }
    ensures memory { result.0 ≡ 8 → Tells (K.state out.old) (K.state out.new) (codes "fault memory\n") }
    ensures statuses { (result.0 ≡ 5) ⊎ ((result.0 ≡ 7) ⊎ (result.0 ≡ 8)) }
    ensures later { (K.state out.old).faults ≤ (K.state out.new).faults }
{
    match fault {
        ImageFault::TooLong => end_with(out, FAULT_LONG, 7),
        ImageFault::Disk => end_with(out, FAULT_DISK, 5),
        ImageFault::Memory => end_with(out, FAULT_MEMORY, 8),
    }
}

// Opens the index, reads it into memory, and runs a task on it.
fn run_on_index<R: Threads + Sync, D: SharedDisk, K: Sink, T: Sink>(
    rt: &R,
    alloc: Global,
    index: &mut D,
    task: &Task<'_>,
    out: &mut K,
    log_out: &mut T,
) -> Status
    requires some { 1 ≤ task.now.workers }
    requires many { task.now.workers ≤ 64 }
    requires few { length task.now.bytes.now ≤ 2 ^ 26 }
    ensures opened { HasOpened task.now.show_tags task.now.bytes.now (D.state index.old) (D.state index.new) (K.state out.old)
        (K.state out.new) (T.state log_out.old) (T.state log_out.new) result.0 }
    ensures later { (K.state out.old).faults ≤ (K.state out.new).faults }
    ensures log_later { (T.state log_out.old).faults ≤ (T.state log_out.new).faults }
{
    fault_is_not_open();
    one_live_slot();
    images_hold_the_file();
    let (head, live) = match open_index(index, out) {
        Ok(opened) => opened,
        Err(status) => return status,
    };
    let parts = match read_parts(rt, alloc, index, live.pages, task.workers) {
        Ok(parts) => parts,
        Err(fault) => return end_without_image(fault, out),
    };
    let image = Image::InParts(&parts);
    run_on_image(rt, alloc, image, &head, &live, task, out, log_out)
}

/// Runs the script of `input` on the index, which is read into memory and not changed, by `workers` threads, 1 to 64. Each reply
/// is written to `out`, and before it the log of a query to `log_out`, all in the order of the commands. A command that would
/// change something, or use a cursor, is refused as read-only.
///
/// Status 3: the input could not be read; 4: a reply or a log could not be written; 5: the disk failed; 6: the file is no index
/// of version 2; 7: the input is longer than 2 ^ 26 bytes, or the index has more than 262144 pages; 8: out of memory; 9: a
/// search met a damaged page of a file that is not sound.
/// Clauses: what is asked of the caller (`some`, `many`); what the batch does (`runs`); what is taken of the input (`long`, `end`); which
/// statuses come (`statuses`); the cause of an error (`input`, `output`); faults of the devices (`counts`).
/// Arguments: `rt` and `workers` are the threads, `index` is the file, `input` and `show_tags` say what is asked, and `out` and `log_out`
/// are written.
pub fn run_batch<R: Threads + Sync, D: SharedDisk, S: Source, K: Sink, T: Sink>(
    rt: &R,
    alloc: Global,
    index: &mut D,
    workers: usize,
    show_tags: bool,
    input: &mut S,
    out: &mut K,
    log_out: &mut T,
) -> Status
    requires some { 1 ≤ workers }
    requires many { workers ≤ 64 }
    ensures runs { RunsBatch show_tags (S.left input.old) (D.state index.old) (D.state index.new) (K.state out.old)
        (K.state out.new) (T.state log_out.old) (T.state log_out.new) result.0 }
    ensures statuses { IsBatchStatus result.0 }
    // A failed read or write is told only where the object's count of faults rose.
    ensures input { result.0 ≡ 3 → Rose (S.faults input.old) (S.faults input.new) }
    ensures output { result.0 ≡ 4 → Rose (K.state out.old).faults (K.state out.new).faults
        ⊎ Rose (T.state log_out.old).faults (T.state log_out.new).faults }
    ensures long { IsTooLong (S.left input.old) (S.left input.new) (D.state index.old) result.0 }
    // A batch that is done has taken all input.
    ensures end { result.0 ≡ 0 → IsAtEnd (S.left input.new) }
    ensures counts { (S.faults input.old ≤ S.faults input.new) × ((K.state out.old).faults ≤ (K.state out.new).faults)
        × ((T.state log_out.old).faults ≤ (T.state log_out.new).faults) }
{
    match read_all(alloc, input, MOST_INPUT) {
        Ok(bytes) => {
            let task = Task {
                bytes: &bytes,
                show_tags,
                workers,
            };
            run_on_index(rt, alloc, index, &task, out, log_out)
        }
        Err(why) => end_unread(why, out),
    }
}
