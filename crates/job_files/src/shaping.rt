// The job `shape`.
ghost use Rattle.std.specs.Prelude.{◌≡◌, ◌⊎◌, ◌≤◌, ◌^◌, length, IsTrue, IfOk, IfErr, codes};
ghost use Rattle.std.specs.Io.KnownBytes.{Appends};
ghost use Rattle.outside_io.specs.Bytes.{AppendsPrefix};
ghost use Rattle.outside_io.specs.Causes.{Rose};
ghost use Rattle.outside_io.specs.Sinks.{Tells};
ghost use Rattle.disk_model.specs.Disk.{IsUnchanged};
ghost use Rattle.node_page.specs.Heads.{IsValidHead};
ghost use Rattle.page_store.specs.Shelf.{IsPassing};
ghost use Rattle.tree_outline.specs.Shapes.{IsCounted};
ghost use Rattle.job_files.specs.Lines.{damaged_text, shape_text};
ghost use Rattle.job_files.specs.Shapes.{AreLinesOf, HasStop, IsShapeStatus, Shapes};

use crate::jobs::open_index;
use crate::lines::{FAULT_DISK, FAULT_MEMORY, damaged_text, end_with, put_line};
use crate::shape_lines::shape_text;
use disk_model::Disk;
use node_page::Head;
use node_page::laws::{fault_is_not_open, one_live_slot};
use outside_io::{Sink, Status};
use page_store::{DiskPages, PageFault};
use std::alloc::Global;
use tree_outline::{Shape, shape_of};
use tree_shape::Live;

/// Returns the shape of an opened file of version 2.
pub fn shape_opened<D: Disk>(
    alloc: Global,
    disk: &mut D,
    head: &Head,
    live: &Live,
) -> Result<Shape, PageFault>
    requires head { IsValidHead head.now }
    requires pages { live.now.pages ≤ 2 ^ 24 }
    ensures same { IsUnchanged (D.state disk.old) (D.state disk.new) }
    ensures counted { IfOk result (IsCounted live.now) }
    ensures lines { IfOk result (λ shape. IsTrue (D.state disk.old).is_known →
        AreLinesOf head.now live.now (D.state disk.old).bytes shape.lines) }
    ensures stop { IfErr result (HasStop head.now live.now (D.state disk.old) (D.state disk.new).faults) }
    ensures later { (D.state disk.old).faults ≤ (D.state disk.new).faults }
{
    let mut pages = DiskPages::new(disk, head.dim, live.pages);
    shape_of(alloc, &mut pages, live)
}

// Writes the lines of a tree and ends.
fn end_shaped<K: Sink>(alloc: Global, shape: &Shape, out: &mut K) -> Status
    requires { shape.now.nodes ≡ length shape.now.lines }
    ensures done { result.0 ≡ 0 → Appends (K.state out.old).written (K.state out.new).written
        (shape_text shape.now.height shape.now.objects shape.now.lines) }
    ensures part { result.0 ≡ 4 → AppendsPrefix (K.state out.old).written (K.state out.new).written
        (shape_text shape.now.height shape.now.objects shape.now.lines) }
    ensures memory { result.0 ≡ 8 → Tells (K.state out.old) (K.state out.new) (codes "fault memory\n") }
    ensures statuses { (result.0 ≡ 0) ⊎ ((result.0 ≡ 4) ⊎ (result.0 ≡ 8)) }
    ensures later { (K.state out.old).faults ≤ (K.state out.new).faults }
    ensures rose { result.0 ≡ 4 → Rose (K.state out.old).faults (K.state out.new).faults }
{
    match shape_text(alloc, shape) {
        Ok(text) => put_line(out, &text, 0),
        Err(_) => end_with(out, FAULT_MEMORY, 8),
    }
}

/// Ends a job that met a page without a node: with status 5 where the disk failed, 8 when memory ran out, and else with
/// status 9 and the page's fault.
pub fn end_at_page<K: Sink>(alloc: Global, fault: PageFault, out: &mut K) -> Status
    ensures disk { result.0 ≡ 5 → (fault ≡ PageFault.Disk) × Tells (K.state out.old) (K.state out.new) (codes "fault disk\n") }
    ensures memory { result.0 ≡ 8 → Tells (K.state out.old) (K.state out.new) (codes "fault memory\n") }
    ensures damaged { result.0 ≡ 9 → (IsPassing fault → ⊥) × Tells (K.state out.old) (K.state out.new) (damaged_text fault) }
    ensures statuses { (result.0 ≡ 5) ⊎ ((result.0 ≡ 8) ⊎ (result.0 ≡ 9)) }
    ensures later { (K.state out.old).faults ≤ (K.state out.new).faults }
{
    match fault {
        PageFault::Disk => end_with(out, FAULT_DISK, 5),
        PageFault::Memory => end_with(out, FAULT_MEMORY, 8),
        fault => match damaged_text(alloc, fault) {
            Ok(text) => end_with(out, &text, 9),
            Err(_) => end_with(out, FAULT_MEMORY, 8),
        },
    }
}

/// Walks the tree of an index, and writes its height, the numbers of its objects and nodes, and a line for each node in
/// pre-order: its level, the number of its entries, and the centre and the radius of its region, which the root has not.
/// Status 4: the lines could not be written; 5: the disk failed; 6: the file is no index of version 2; 8: out of memory; 9: a
/// page of a file that is not sound gave no node, or was named once too often. Nothing is changed.
pub fn shape_index<D: Disk, K: Sink>(alloc: Global, disk: &mut D, out: &mut K) -> Status
    ensures shapes { Shapes (D.state disk.old) (D.state disk.new) (K.state out.old) (K.state out.new) result.0 }
    ensures statuses { IsShapeStatus result.0 }
    ensures later { (K.state out.old).faults ≤ (K.state out.new).faults }
    ensures rose { result.0 ≡ 4 → Rose (K.state out.old).faults (K.state out.new).faults }
{
    fault_is_not_open();
    one_live_slot();
    let (head, live) = match open_index(disk, out) {
        Ok(opened) => opened,
        Err(status) => return status,
    };
    match shape_opened(alloc, disk, &head, &live) {
        Ok(shape) => end_shaped(alloc, &shape, out),
        Err(fault) => end_at_page(alloc, fault, out),
    }
}
