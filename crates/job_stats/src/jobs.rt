// The job `stats`.
ghost use Rattle.std.specs.Prelude.{◌≡◌, ◌⊎◌, ◌≤◌, length, codes, IfOk};
ghost use Rattle.std.specs.Io.KnownBytes.{Appends};
ghost use Rattle.outside_io.specs.Bytes.{AppendsPrefix};
ghost use Rattle.outside_io.specs.Causes.{Rose};
ghost use Rattle.outside_io.specs.Sinks.{Tells};
ghost use Rattle.job_files.specs.Shapes.{IsShapeStatus};
ghost use Rattle.job_stats.specs.Jobs.{Stats, TellsTree};

use crate::lines::stats_text;
use crate::numbers::levels_of;
use disk_model::Disk;
use job_files::{FAULT_MEMORY, end_at_page, end_with, open_index, put_line, shape_opened};
use node_page::Head;
use node_page::laws::{fault_is_not_open, one_live_slot};
use outside_io::{Sink, Status};
use std::alloc::{AllocError, Global};
use tree_outline::Shape;
use tree_shape::Live;

// Returns the text on a tree whose nodes are those of `shape`.
fn text_of(alloc: Global, head: &Head, live: &Live, shape: &Shape) -> Result<Vec<u8>, AllocError>
    requires { shape.now.nodes ≡ length shape.now.lines }
    ensures { IfOk result (λ text. TellsTree head.now live.now shape.now.lines (λ told. text.items ≡ told)) }
{
    let levels = levels_of(alloc, shape.lines.as_slice(), live.height)?;
    stats_text(alloc, head, live, shape.nodes, levels.as_slice())
}

// Writes the text on a tree whose nodes are those of `shape`, and ends.
fn end_told<K: Sink>(alloc: Global, head: &Head, live: &Live, shape: &Shape, out: &mut K) -> Status
    requires { shape.now.nodes ≡ length shape.now.lines }
    ensures done { result.0 ≡ 0 →
        TellsTree head.now live.now shape.now.lines (Appends (K.state out.old).written (K.state out.new).written) }
    ensures part { result.0 ≡ 4 →
        TellsTree head.now live.now shape.now.lines (AppendsPrefix (K.state out.old).written (K.state out.new).written) }
    ensures memory { result.0 ≡ 8 → Tells (K.state out.old) (K.state out.new) (codes "fault memory\n") }
    ensures statuses { (result.0 ≡ 0) ⊎ ((result.0 ≡ 4) ⊎ (result.0 ≡ 8)) }
    ensures later { (K.state out.old).faults ≤ (K.state out.new).faults }
    ensures rose { result.0 ≡ 4 → Rose (K.state out.old).faults (K.state out.new).faults }
{
    match text_of(alloc, head, live, shape) {
        Ok(text) => put_line(out, &text, 0),
        Err(_) => end_with(out, FAULT_MEMORY, 8),
    }
}

/// Writes what is known of an index without its objects, a line for each: metric, dimension, policies and limit in the words of `create`,
/// generation, numbers of objects, height, nodes and pages, the free pages, the bytes; and a line for each level from the root down: its
/// number of nodes, and of their entries and of the radii of their regions the least, the middle and the greatest. The statuses are those
/// of `shape`. Nothing is changed.
pub fn stats_index<D: Disk, K: Sink>(alloc: Global, disk: &mut D, out: &mut K) -> Status
    ensures stats { Stats (D.state disk.old) (D.state disk.new) (K.state out.old) (K.state out.new) result.0 }
    ensures statuses { IsShapeStatus result.0 }
    ensures later { (K.state out.old).faults ≤ (K.state out.new).faults }
    ensures rose { result.0 ≡ 4 → Rose (K.state out.old).faults (K.state out.new).faults }
{
    fault_is_not_open();
    one_live_slot();
    let (head, live) = match open_index(disk, out) {
        Ok(opened) => opened,
        Err(status) => return status,
    };
    match shape_opened(alloc, disk, &head, &live) {
        Ok(shape) => end_told(alloc, &head, &live, &shape, out),
        Err(fault) => end_at_page(alloc, fault, out),
    }
}
