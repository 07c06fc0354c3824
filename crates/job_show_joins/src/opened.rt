// Shows the logs of the joins of two opened indexes.
ghost use Rattle.std.specs.Prelude.{◌≡◌, ◌⊎◌, ◌≤◌, true, IsTrue, IfOk, IsErrOf};
ghost use Rattle.outside_io.specs.Causes.{Rose};
ghost use Rattle.disk_model.specs.Disk.{IsUnchanged};
ghost use Rattle.job_files.specs.Logs.Jobs.{Puts, stop_of};
ghost use Rattle.job_join.specs.Trees.{is_one_space, read_of, tree_of};
ghost use Rattle.job_join.specs.Jobs.{AreValid, EitherRose};
ghost use Rattle.job_show.specs.Jobs.{AreNodes};
ghost use Rattle.job_show_joins.specs.Jobs.{said_on, showing_trees};

use crate::frames::show_bytes;
use crate::view::JoinView;
use disk_model::Disk;
use job_files::logs::{LogStop, put};
use job_files::space_of;
use job_join::{REJECTED_SPACES, Trees};
use job_show::{Marks, count_opened};
use outside_io::{Sink, Status};
use page_cache::laws::empty_cache_agrees;
use page_cache::{Cached, KEPT_NODES, Kept};
use page_store::DiskPages;
use std::alloc::Global;

// The bytes of the logs, and how they are shown.
#[derive(Clone, Copy)]
pub struct Request<'a> {
    // What is shown of the marks.
    pub marks: Marks,
    // The numbers of the two trees' nodes, or `None` where a tree can't be walked.
    pub nodes: (Option<u32>, Option<u32>),
    // The bytes of the logs.
    pub bytes: &'a [u8],
}

// Returns the numbers of the nodes of two opened files, or `None` where a tree can't be walked. Counts none where the spaces differ.
// Clauses: what is asked of the caller (the one without a name); the answer (`nodes`, `other_nodes`); what stays (`same`, `other_same`);
// the cause of an error (`disk`, `not_sink`); faults of the devices (`later`, `other_later`).
pub fn count_both<D: Disk, E: Disk>(
    alloc: Global,
    index: &mut D,
    other: &mut E,
    trees: &Trees,
) -> Result<(Option<u32>, Option<u32>), LogStop>
    requires { AreValid trees.now }
    ensures same { IsUnchanged (D.state index.old) (D.state index.new) }
    ensures other_same { IsUnchanged (E.state other.old) (E.state other.new) }
    ensures nodes { IfOk result (λ nodes. IsTrue (D.state index.old).is_known → is_one_space trees.now.left.0 trees.now.right.0 ≡ true →
        AreNodes (read_of (tree_of (D.state index.old) trees.now.left)) trees.now.left.1 nodes.0) }
    ensures other_nodes { IfOk result (λ nodes. IsTrue (E.state other.old).is_known → is_one_space trees.now.left.0 trees.now.right.0 ≡
        true →
        AreNodes (read_of (tree_of (E.state other.old) trees.now.right)) trees.now.right.1 nodes.1) }
    ensures later { (D.state index.old).faults ≤ (D.state index.new).faults }
    ensures other_later { (E.state other.old).faults ≤ (E.state other.new).faults }
    ensures disk { IsErrOf result LogStop.Disk → EitherRose (D.state index.old) (D.state index.new)
        (E.state other.old) (E.state other.new) }
    ensures not_sink { IsErrOf result LogStop.Sink → ⊥ }
{
    if !trees.have_one_space() {
        return Ok((None, None));
    }
    let left = count_opened(alloc, index, &trees.left)?;
    let right = count_opened(alloc, other, &trees.right)?;
    Ok((left, right))
}

// Writes what is shown of the logs of two opened files of one space.
// Clauses: what is asked of the caller (`valid`, `one_space`); the answer (`status`); which statuses come (`statuses`); what is written
// (`puts`); what stays (`same`, `other_same`); the cause of an error (`output`, `disk`); faults of the devices (`later`).
fn show_opened<D: Disk, E: Disk, K: Sink>(
    alloc: Global,
    request: &Request<'_>,
    index: &mut D,
    other: &mut E,
    trees: &Trees,
    out: &mut K,
) -> Result<Status, LogStop>
    requires valid { AreValid trees.now }
    requires one_space { is_one_space trees.now.left.0 trees.now.right.0 ≡ true }
    ensures same { IsUnchanged (D.state index.old) (D.state index.new) }
    ensures other_same { IsUnchanged (E.state other.old) (E.state other.new) }
    ensures puts { IsTrue (D.state index.old).is_known → IsTrue (E.state other.old).is_known →
        Puts (showing_trees request.now.marks (tree_of (D.state index.old) trees.now.left) (tree_of (E.state other.old) trees.now.right)
        request.now.nodes request.now.bytes.now).texts
        (K.state out.old).written (K.state out.new).written (stop_of result) }
    ensures status { IfOk result (λ status. IsTrue (D.state index.old).is_known → IsTrue (E.state other.old).is_known →
        status.0 ≡ (showing_trees request.now.marks (tree_of (D.state index.old) trees.now.left)
        (tree_of (E.state other.old) trees.now.right) request.now.nodes request.now.bytes.now).status) }
    ensures statuses { IfOk result (λ status. (status.0 ≡ 0) ⊎ (status.0 ≡ 1)) }
    ensures later { (K.state out.old).faults ≤ (K.state out.new).faults }
    ensures output { IsErrOf result LogStop.Sink → Rose (K.state out.old).faults (K.state out.new).faults }
    ensures disk { IsErrOf result LogStop.Disk → EitherRose (D.state index.old) (D.state index.new)
        (E.state other.old) (E.state other.new) }
{
    empty_cache_agrees();
    let (left, right) = (&trees.left, &trees.right);
    let view = JoinView {
        alloc,
        marks: request.marks,
        space: space_of(&left.0),
        left: left.1,
        right: right.1,
        nodes: request.nodes,
    };
    let (Ok(left_kept), Ok(right_kept)) = (
        Kept::new(alloc, KEPT_NODES),
        Kept::new(alloc, KEPT_NODES),
    ) else {
        return Err(LogStop::Memory);
    };
    let left_pages = DiskPages::new(index, left.0.dim, left.1.pages);
    let right_pages = DiskPages::new(other, right.0.dim, right.1.pages);
    let mut left_pages = Cached::from_parts(left_pages, left_kept);
    let mut right_pages = Cached::from_parts(right_pages, right_kept);
    let shown = show_bytes(&view, &mut left_pages, &mut right_pages, request.bytes, out);
    let _index = left_pages.into_inner().disk;
    let _other = right_pages.into_inner().disk;
    shown
}

// Writes what is shown of the logs of joins of two opened files.
// Clauses: what is asked of the caller (the one without a name); the answer (`status`); which statuses come (`statuses`); what is written
// (`puts`); what stays (`same`, `other_same`); the cause of an error (`output`, `disk`); faults of the devices (`later`).
pub fn show_trees<D: Disk, E: Disk, K: Sink>(
    alloc: Global,
    request: &Request<'_>,
    index: &mut D,
    other: &mut E,
    trees: &Trees,
    out: &mut K,
) -> Result<Status, LogStop>
    requires { AreValid trees.now }
    ensures same { IsUnchanged (D.state index.old) (D.state index.new) }
    ensures other_same { IsUnchanged (E.state other.old) (E.state other.new) }
    ensures puts { IsTrue (D.state index.old).is_known → IsTrue (E.state other.old).is_known →
        Puts (said_on request.now.marks (tree_of (D.state index.old) trees.now.left) (tree_of (E.state other.old) trees.now.right)
        request.now.nodes request.now.bytes.now).texts
        (K.state out.old).written (K.state out.new).written (stop_of result) }
    ensures status { IfOk result (λ status. IsTrue (D.state index.old).is_known → IsTrue (E.state other.old).is_known →
        status.0 ≡ (said_on request.now.marks (tree_of (D.state index.old) trees.now.left)
        (tree_of (E.state other.old) trees.now.right) request.now.nodes request.now.bytes.now).status) }
    ensures statuses { IfOk result (λ status. (status.0 ≡ 0) ⊎ (status.0 ≡ 1)) }
    ensures later { (K.state out.old).faults ≤ (K.state out.new).faults }
    ensures output { IsErrOf result LogStop.Sink → Rose (K.state out.old).faults (K.state out.new).faults }
    ensures disk { IsErrOf result LogStop.Disk → EitherRose (D.state index.old) (D.state index.new)
        (E.state other.old) (E.state other.new) }
{
    if !trees.have_one_space() {
        put(out, REJECTED_SPACES)?;
        return Ok(Status(1));
    }
    show_opened(alloc, request, index, other, trees, out)
}
