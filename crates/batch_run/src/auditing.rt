//! The audit of a file by several threads.

ghost use Rattle.std.specs.Prelude.{◌≡◌, ◌≤◌, ◌<◌, ◌+◌, ◌^◌, length, slice_index_or, IsTrue, IfOk, IfErr, IfSome};
ghost use Rattle.tree_shape.specs.declared.entry.InnerEntry.{InnerEntry as TheEntry};
ghost use Rattle.tree_shape.specs.Entries.{inner_of};
ghost use Rattle.tree_shape.specs.Fill.{IsFilled, root_least};
ghost use Rattle.batch_run.specs.Audits.{AreNumbersOf, AreNumbersOn, AreTried, IsFaultOf, IsPartOf};

use crate::gathering::all_done;
use disk_model::SharedDisk;
use image_answers::pages_of;
use metric_laws::{Meter, Metric};
use page_store::{DiskPages, Image, PageFault, Pages};
use par_work::share;
use slice_disk::SliceDisk;
use std::alloc::{AllocError, Global};
use std::thread::Threads;
use tree_audit::laws::parts_make_the_whole;
use tree_audit::{AuditFault, Audited, Part, audit, audit_part, join_parts};
use tree_shape::{InnerEntries, InnerRef, Live, Node, fill};

// Audits the entry of the root at `place` and the subtree below it, through a reader of its own, as if nothing was met
// before. Where the disk gives no reader, fails as if the disk failed.
fn part_of<D: SharedDisk, M: Metric>(
    alloc: Global,
    disk: &D,
    metric: M,
    live: &Live,
    place: usize,
    entry: InnerRef,
) -> Result<Part, AuditFault>
    requires pages { live.now.pages ≤ 2 ^ 24 }
    requires above { 1 ≤ live.now.height }
    requires place { place < 2 ^ 32 }
    ensures { IfOk result (IsPartOf (M.space metric) live.now (D.state disk.now) place (inner_of entry.entry)) }
{
    let Some(mut reader) = disk.reader(alloc) else {
        return Err(AuditFault::Page(PageFault::Disk));
    };
    let dim = metric.dimension() as u8;
    let mut pages = DiskPages::new(&mut reader, dim, live.pages);
    let mut ruler = Meter::new(metric);
    audit_part(
        alloc,
        &mut pages,
        &mut ruler,
        dim,
        live,
        place as u32,
        entry,
    )
}

// Audits each entry of the root by itself. The entries are cut in order into pieces of `ceil(e / workers)`.
// Arguments: `rt` and `workers` are the threads, `disk`, `metric` and `live` the file, and `entries` its parts.
fn try_parts<R: Threads + Sync, D: SharedDisk, M: Metric>(
    rt: &R,
    alloc: Global,
    disk: &D,
    metric: M,
    live: &Live,
    entries: &InnerEntries,
    workers: usize,
) -> Result<Vec<Result<Part, AuditFault>>, AllocError>
    requires pages { live.now.pages ≤ 2 ^ 24 }
    requires above { 1 ≤ live.now.height }
    requires entries { length entries.now < 2 ^ 32 }
    requires some_workers { 1 ≤ workers }
    requires few_workers { workers ≤ 64 }
    ensures { IfOk result (λ parts. AreTried (M.space metric) live.now (D.state disk.now) 0 entries.now parts.items) }
{
    let work = |i: usize| -> Result<Part, AuditFault>
        requires { (live.now.pages ≤ 2 ^ 24) × (1 ≤ live.now.height) × (length entries.now < 2 ^ 32) × (i < length entries.now) }
        ensures { (e : TheEntry) → IfOk result (IsPartOf (M.space metric) live.entry.now (D.state disk.entry.now) i
            (slice_index_or entries.entry.now i e)) }
    { part_of(alloc, disk, metric, live, i, entries.at(i)) };
    share(rt, alloc, entries.len(), workers, &work)
}

// Returns whether an inner node of level `level` with `count` entries may be the root.
fn is_root(live: &Live, dim: u8, level: u8, count: usize) -> bool
    requires some { 1 ≤ dim }
    requires few { dim ≤ 64 }
    ensures above { IsTrue result → 1 ≤ live.now.height }
    ensures level { IsTrue result → level ≡ live.now.height }
    ensures filled { IsTrue result → IsFilled dim (root_least live.now.height) count }
{
    live.height >= 1 && u32::from(level) == live.height && count >= 2 && count <= fill(dim).most
}

/// Returns the numbers of a tree that its parts show to be sound, audited apart from one another by `workers` threads. Returns
/// `None` where a part has a fault or couldn't be read, two parts have something in common, or the root is no inner node; then
/// the audit of the whole tree tells more.
///
/// Each worker audits the subtrees of some entries of the root that stand side by side, through readers of its own. Then one
/// thread compares what they met.
pub fn sound_by_parts<R: Threads + Sync, D: SharedDisk, M: Metric>(
    rt: &R,
    alloc: Global,
    disk: &D,
    metric: M,
    live: &Live,
    workers: usize,
) -> Result<Option<Audited>, AllocError>
    requires pages { live.now.pages ≤ 2 ^ 24 }
    requires some_workers { 1 ≤ workers }
    requires few_workers { workers ≤ 64 }
    ensures { IfOk result (λ shown. IfSome shown (AreNumbersOn (M.space metric) live.now (D.state disk.now))) }
{
    parts_make_the_whole();
    let Some(mut reader) = disk.reader(alloc) else {
        return Ok(None);
    };
    let dim = metric.dimension() as u8;
    let mut pages = DiskPages::new(&mut reader, dim, live.pages);
    let node = match pages.node(alloc, live.root, None) {
        Ok(node) => node,
        Err(_) => return Ok(None),
    };
    let (level, entries) = match node.as_ref() {
        Node::Leaf(_) => return Ok(None),
        Node::Inner { level, entries } => (*level, entries),
    };
    if !is_root(live, dim, level, entries.len()) {
        return Ok(None);
    }
    let tried = try_parts(rt, alloc, disk, metric, live, entries, workers)?;
    match all_done(alloc, tried)? {
        Some(parts) => join_parts(alloc, live, &parts),
        None => Ok(None),
    }
}

/// Audits the live tree in the file with the bytes `image`, whose points have `dim` coordinates: returns its numbers, or its
/// first fault in the order of `audit`. The result is the same for every number of workers, 1 to 64.
///
/// Where its parts do not show the tree to be sound, one worker audits it whole and names the fault.
/// Arguments: `rt` and `workers` are the threads, and `image`, `metric`, `dim` and `live` the opened file.
pub fn audit_image<R: Threads + Sync, M: Metric>(
    rt: &R,
    alloc: Global,
    image: &[u8],
    metric: M,
    dim: u8,
    live: &Live,
    workers: usize,
) -> Result<Audited, AuditFault>
    requires dim { (M.space metric).dimension ≡ dim }
    requires pages { live.now.pages ≤ 2 ^ 24 }
    requires some_workers { 1 ≤ workers }
    requires few_workers { workers ≤ 64 }
    ensures ok { IfOk result (AreNumbersOf (M.space metric) live.now image.now) }
    ensures err { IfErr result (IsFaultOf (M.space metric) live.now image.now) }
{
    if workers > 1 {
        let disk = SliceDisk::new(image);
        match sound_by_parts(rt, alloc, &disk, metric, live, workers) {
            Ok(Some(audited)) => return Ok(audited),
            Ok(None) => {}
            Err(_) => return Err(AuditFault::Memory),
        }
    }
    let mut pages = pages_of(Image::Whole(image), metric, live);
    let mut ruler = Meter::new(metric);
    audit(alloc, &mut pages, &mut ruler, dim, live)
}
