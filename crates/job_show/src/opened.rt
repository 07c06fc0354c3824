// Shows the logs of an opened index.
ghost use Rattle.std.specs.Prelude.{◌≡◌, ◌⊎◌, ◌≤◌, ◌^◌, IsTrue, IfOk, IsErrOf};
ghost use Rattle.outside_io.specs.Causes.{Rose};
ghost use Rattle.disk_model.specs.Disk.{IsUnchanged};
ghost use Rattle.node_page.specs.Heads.{IsValidHead};
ghost use Rattle.page_store.specs.Shelf.{HoldsSame};
ghost use Rattle.prune_log.specs.Reading.{log_at, frames_at};
ghost use Rattle.job_files.specs.Spaces.{space_of};
ghost use Rattle.job_files.specs.Logs.Files.{read_of};
ghost use Rattle.job_files.specs.Logs.Jobs.{Puts, stop_of};
ghost use Rattle.job_show.specs.Jobs.{AreNodes, showing};

use crate::Marks;
use crate::frames::show_bytes;
use crate::stops::stop_at;
use crate::view::View;
use disk_model::Disk;
use job_files::logs::LogStop;
use job_files::space_of;
use node_page::Head;
use outside_io::{Sink, Status};
use page_cache::laws::empty_cache_agrees;
use page_cache::{Cached, KEPT_NODES, Kept};
use page_store::laws::tour_has_one_course;
use page_store::{DiskPages, Pages};
use page_tour::count_nodes;
use std::alloc::Global;
use tree_shape::Live;

// The bytes of the logs, and how they are shown.
#[derive(Clone, Copy)]
pub struct Request<'a> {
    // What is shown of the marks.
    pub marks: Marks,
    // The number of the tree's nodes, or `None` where the tree can't be walked.
    pub nodes: Option<u32>,
    // The bytes of the logs.
    pub bytes: &'a [u8],
}

// Returns the number of the tree's nodes, or `None` where its walk stops at damage.
fn nodes_in<P: Pages>(alloc: Global, pages: &mut P, live: &Live) -> Result<Option<u32>, LogStop>
    ensures keeps { P.keeps pages.old pages.new }
    ensures later { (P.shelf pages.old).faults ≤ (P.shelf pages.new).faults }
    ensures nodes { IfOk result (λ nodes. IsTrue (P.shelf pages.old).is_known → AreNodes (P.shelf pages.old).read live.now nodes) }
    ensures disk { IsErrOf result LogStop.Disk → Rose (P.shelf pages.old).faults (P.shelf pages.new).faults }
    ensures not_sink { IsErrOf result LogStop.Sink → ⊥ }
{
    tour_has_one_course();
    match count_nodes(alloc, pages, live) {
        Ok(count) => Ok(Some(count)),
        Err(fault) => {
            stop_at(fault)?;
            Ok(None)
        }
    }
}

/// Returns the number of an opened file's nodes, or `None` where the tree can't be walked.
pub fn count_opened<D: Disk>(
    alloc: Global,
    index: &mut D,
    opened: &(Head, Live),
) -> Result<Option<u32>, LogStop>
    requires head { IsValidHead opened.now.0 }
    requires pages { opened.now.1.pages ≤ 2 ^ 24 }
    ensures same { IsUnchanged (D.state index.old) (D.state index.new) }
    ensures nodes { IfOk result (λ nodes. IsTrue (D.state index.old).is_known →
        AreNodes (read_of (D.state index.old).bytes opened.now.0 opened.now.1) opened.now.1 nodes) }
    ensures later { (D.state index.old).faults ≤ (D.state index.new).faults }
    ensures disk { IsErrOf result LogStop.Disk → Rose (D.state index.old).faults (D.state index.new).faults }
    ensures not_sink { IsErrOf result LogStop.Sink → ⊥ }
{
    let (head, live) = opened;
    let mut pages = DiskPages::new(index, head.dim, live.pages);
    nodes_in(alloc, &mut pages, live)
}

// Writes what is shown of the logs of an opened file.
// Clauses: what is asked of the caller (`head`, `pages`); the answer (`status`); which statuses come (`statuses`); what is written
// (`puts`); what stays (`same`); the cause of an error (`output`, `disk`); faults of the devices (`later`).
pub fn show_opened<D: Disk, K: Sink>(
    alloc: Global,
    request: &Request<'_>,
    index: &mut D,
    opened: &(Head, Live),
    out: &mut K,
) -> Result<Status, LogStop>
    requires head { IsValidHead opened.now.0 }
    requires pages { opened.now.1.pages ≤ 2 ^ 24 }
    ensures same { IsUnchanged (D.state index.old) (D.state index.new) }
    ensures puts { IsTrue (D.state index.old).is_known →
        Puts (showing request.now.marks (space_of opened.now.0) (read_of (D.state index.old).bytes opened.now.0 opened.now.1)
        opened.now.1 request.now.nodes (frames_at log_at request.now.bytes.now)).texts
        (K.state out.old).written (K.state out.new).written (stop_of result) }
    ensures status { IfOk result (λ status. IsTrue (D.state index.old).is_known →
        status.0 ≡ (showing request.now.marks (space_of opened.now.0) (read_of (D.state index.old).bytes opened.now.0 opened.now.1)
        opened.now.1 request.now.nodes (frames_at log_at request.now.bytes.now)).status) }
    ensures statuses { IfOk result (λ status. (status.0 ≡ 0) ⊎ (status.0 ≡ 1)) }
    ensures later { (K.state out.old).faults ≤ (K.state out.new).faults }
    ensures output { IsErrOf result LogStop.Sink → Rose (K.state out.old).faults (K.state out.new).faults }
    ensures disk { IsErrOf result LogStop.Disk → Rose (D.state index.old).faults (D.state index.new).faults }
{
    empty_cache_agrees();
    let (head, live) = opened;
    let view = View {
        marks: request.marks,
        space: space_of(head),
        live: *live,
        nodes: request.nodes,
    };
    let Ok(kept) = Kept::new(alloc, KEPT_NODES) else {
        return Err(LogStop::Memory);
    };
    let pages = DiskPages::new(index, head.dim, live.pages);
    let mut pages = Cached::from_parts(pages, kept);
    let shown = show_bytes(alloc, &view, &mut pages, request.bytes, out);
    let _index = pages.into_inner().disk;
    shown
}
