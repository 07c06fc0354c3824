// The job `dump`.
ghost use Rattle.std.specs.Prelude.{◌≡◌, ◌⊎◌, ◌≤◌, ◌^◌, IfOk, IfErr, OnOk, codes};
ghost use Rattle.outside_io.specs.Causes.{Rose};
ghost use Rattle.outside_io.specs.Sinks.{Tells};
ghost use Rattle.disk_model.specs.Disk.{IsUnchanged};
ghost use Rattle.node_page.specs.Heads.{IsValidHead};
ghost use Rattle.job_dump.specs.Causes.{HasStop, IsPassing, PutsScript};
ghost use Rattle.job_dump.specs.Jobs.{Dumps, IsDumpStatus, fault_text, opened_shelf};

use crate::fault::{DumpFault, DumpStop};
use crate::writing::dump_pages;
use disk_model::Disk;
use fault_lines::push_numbered;
use job_files::{FAULT_MEMORY, end_at_page, end_with, open_index};
use node_page::Head;
use node_page::laws::{fault_is_not_open, one_live_slot};
use outside_io::{Sink, Status};
use page_cache::laws::empty_cache_agrees;
use page_cache::{Cached, KEPT_NODES, Kept};
use page_store::{DiskPages, PageFault};
use std::alloc::{AllocError, Global};
use tree_shape::Live;

// Writes the objects of an opened file of version 2.
fn dump_opened<D: Disk, K: Sink>(
    alloc: Global,
    disk: &mut D,
    head: &Head,
    live: &Live,
    out: &mut K,
) -> Result<(), DumpStop>
    requires head { IsValidHead head.now }
    requires pages { live.now.pages ≤ 2 ^ 24 }
    ensures same { IsUnchanged (D.state disk.old) (D.state disk.new) }
    ensures done { OnOk result (PutsScript (opened_shelf head.now live.now (D.state disk.old)) live.now
        (K.state out.old).written (K.state out.new).written) }
    ensures stop { IfErr result (HasStop live.now (opened_shelf head.now live.now (D.state disk.old))
        (opened_shelf head.now live.now (D.state disk.new)) (K.state out.old) (K.state out.new)) }
    ensures later { (K.state out.old).faults ≤ (K.state out.new).faults }
{
    empty_cache_agrees();
    let kept = Kept::new(alloc, KEPT_NODES)?;
    let pages = DiskPages::new(disk, head.dim, live.pages);
    let mut pages = Cached::from_parts(pages, kept);
    let dumped = dump_pages(alloc, &mut pages, live, out);
    let _disk = pages.into_inner().disk;
    dumped
}

// Returns the line of a tree with an object out of place.
fn id_text(alloc: Global, id: u32) -> Result<Vec<u8>, AllocError>
    ensures { IfOk result (λ text. text.items ≡ fault_text (DumpFault.Id id)) }
{
    let mut text = Vec::new(alloc);
    push_numbered(b"fault damaged id ", u64::from(id), &mut text)?;
    text.extend_from_slice(b"\n")?;
    Ok(text)
}

// Ends a job whose objects can't be told: with status 5 where the disk failed, 8 when memory ran out, and else with status 9.
fn end_at_fault<K: Sink>(alloc: Global, fault: DumpFault, out: &mut K) -> Status
    ensures disk { result.0 ≡ 5 → (fault ≡ DumpFault.Page PageFault.Disk)
        × Tells (K.state out.old) (K.state out.new) (codes "fault disk\n") }
    ensures memory { result.0 ≡ 8 → Tells (K.state out.old) (K.state out.new) (codes "fault memory\n") }
    ensures damaged { result.0 ≡ 9 → (IsPassing fault → ⊥) × Tells (K.state out.old) (K.state out.new) (fault_text fault) }
    ensures statuses { (result.0 ≡ 5) ⊎ ((result.0 ≡ 8) ⊎ (result.0 ≡ 9)) }
    ensures later { (K.state out.old).faults ≤ (K.state out.new).faults }
{
    match fault {
        DumpFault::Page(fault) => end_at_page(alloc, fault, out),
        DumpFault::Id(id) => match id_text(alloc, id) {
            Ok(text) => end_with(out, text.as_slice(), 9),
            Err(_) => end_with(out, FAULT_MEMORY, 8),
        },
    }
}

/// Writes the objects of an index as a script that makes them again: `tload,N` and a line for each object in order of id, its tag
/// first. An index without objects gives an empty script. Status 4: the script could not be written; 5: the disk failed; 6: the file is
/// no index of version 2; 8: out of memory; 9: a page of a file that is not sound gave no node, or an object's id is not there once.
/// Status 9 comes also where a page holds other bytes when it is read again. Nothing is changed.
///
/// Memory is taken for a number an object and a few pages.
pub fn dump_index<D: Disk, K: Sink>(alloc: Global, disk: &mut D, out: &mut K) -> Status
    ensures dumps { Dumps (D.state disk.old) (D.state disk.new) (K.state out.old) (K.state out.new) result.0 }
    ensures statuses { IsDumpStatus result.0 }
    ensures later { (K.state out.old).faults ≤ (K.state out.new).faults }
    ensures rose { result.0 ≡ 4 → Rose (K.state out.old).faults (K.state out.new).faults }
{
    fault_is_not_open();
    one_live_slot();
    let (head, live) = match open_index(disk, out) {
        Ok(opened) => opened,
        Err(status) => return status,
    };
    match dump_opened(alloc, disk, &head, &live, out) {
        Ok(()) => Status(0),
        Err(DumpStop::Sink) => Status(4),
        Err(DumpStop::Fault(fault)) => end_at_fault(alloc, fault, out),
    }
}
