// Reports on two opened indexes and on the logs of their join.
ghost use Rattle.std.specs.Prelude.{◌≡◌, ◌⊎◌, ◌≤◌, true, IsTrue, IfOk, IsErrOf};
ghost use Rattle.outside_io.specs.Causes.{Rose};
ghost use Rattle.disk_model.specs.Disk.{IsUnchanged};
ghost use Rattle.job_files.specs.Logs.Jobs.{Puts, stop_of};
ghost use Rattle.job_join.specs.Trees.{tree_of, is_one_space, said_of, said_of_files, said_of_logs};
ghost use Rattle.job_join.specs.Jobs.{AreValid, EitherRose};

use crate::checker::JoinChecker;
use disk_model::Disk;
use job_files::logs::{LogStop, Report, judge_bytes, put, put_audit};
use job_files::space_of;
use node_page::Head;
use outside_io::{Sink, Status};
use page_cache::laws::empty_cache_agrees;
use page_cache::{Cached, KEPT_NODES, Kept};
use page_store::DiskPages;
use std::alloc::Global;
use tree_shape::Live;

/// The line for two files of different spaces.
pub const REJECTED_SPACES: &[u8] = b"rejected spaces\n";

/// The heads and the live slots of two opened indexes.
#[derive(Clone, Copy)]
pub struct Trees {
    /// The head and the live slot of the index.
    pub left: (Head, Live),
    /// The head and the live slot of the other index.
    pub right: (Head, Live),
}

impl Trees {
    /// Returns whether both have the same space.
    pub fn have_one_space(&self) -> bool
        ensures { result ≡ is_one_space self.now.left.0 self.now.right.0 }
    {
        let (left, right) = (&self.left.0, &self.right.0);
        left.kind == right.kind && left.dim == right.dim
    }
}

/// The bytes of the logs to judge, and what is said of an accepted log.
#[derive(Clone, Copy)]
pub struct Request<'a> {
    /// What is said of an accepted log.
    pub report: Report,
    /// The bytes of the logs.
    pub bytes: &'a [u8],
}

// Says what there is to say about the logs of two opened files of one space.
// Clauses: what is asked of the caller (`valid`, `one_space`); the answer (`status`); which statuses come (`statuses`); what is written
// (`puts`); what stays (`same`, `other_same`); the cause of an error (`output`, `disk`); faults of the devices (`later`).
fn judge_opened<D: Disk, E: Disk, K: Sink>(
    alloc: Global,
    request: &Request<'_>,
    index: &mut D,
    other: &mut E,
    trees: &Trees,
    out: &mut K,
) -> Result<Status, LogStop>
    requires valid { AreValid trees.now }
    requires one_space { is_one_space trees.now.left.0 trees.now.right.0 ≡ true }
    ensures same { IsUnchanged (D.state index.old) (D.state index.new) }
    ensures other_same { IsUnchanged (E.state other.old) (E.state other.new) }
    ensures puts { IsTrue (D.state index.old).is_known → IsTrue (E.state other.old).is_known →
        Puts (said_of_logs request.now.report
        (tree_of (D.state index.old) trees.now.left) (tree_of (E.state other.old) trees.now.right) request.now.bytes.now).texts
        (K.state out.old).written (K.state out.new).written (stop_of result) }
    ensures status { IfOk result (λ status. IsTrue (D.state index.old).is_known → IsTrue (E.state other.old).is_known →
        status.0 ≡ (said_of_logs request.now.report
        (tree_of (D.state index.old) trees.now.left) (tree_of (E.state other.old) trees.now.right) request.now.bytes.now).status) }
    ensures statuses { IfOk result (λ status. (status.0 ≡ 0) ⊎ (status.0 ≡ 1)) }
    ensures later { (K.state out.old).faults ≤ (K.state out.new).faults }
    ensures output { IsErrOf result LogStop.Sink → Rose (K.state out.old).faults (K.state out.new).faults }
    ensures disk { IsErrOf result LogStop.Disk → EitherRose (D.state index.old) (D.state index.new)
        (E.state other.old) (E.state other.new) }
{
    empty_cache_agrees();
    let (left, right) = (&trees.left, &trees.right);
    let space = space_of(&left.0);
    let (Ok(left_kept), Ok(right_kept)) = (
        Kept::new(alloc, KEPT_NODES),
        Kept::new(alloc, KEPT_NODES),
    ) else {
        return Err(LogStop::Memory);
    };
    let left_pages = DiskPages::new(index, left.0.dim, left.1.pages);
    let right_pages = DiskPages::new(other, right.0.dim, right.1.pages);
    let mut left_pages = Cached::from_parts(left_pages, left_kept);
    let mut right_pages = Cached::from_parts(right_pages, right_kept);
    let mut checker = JoinChecker {
        space,
        left: left.1,
        right: right.1,
        left_pages: &mut left_pages,
        right_pages: &mut right_pages,
    };
    let judged = judge_bytes(alloc, request.report, &mut checker, request.bytes, out);
    let _index = left_pages.into_inner().disk;
    let _other = right_pages.into_inner().disk;
    judged
}

// Audits two opened files of one space, the left one first, and writes the result. Where both are sound, it also says what there is
// to say about their logs.
// Clauses: what is asked of the caller (`valid`, `one_space`); the answer (`status`); which statuses come (`statuses`); what is written
// (`puts`); what stays (`same`, `other_same`); the cause of an error (`output`, `disk`); faults of the devices (`later`).
fn check_opened<D: Disk, E: Disk, K: Sink>(
    alloc: Global,
    index: &mut D,
    other: &mut E,
    trees: &Trees,
    bytes: &[u8],
    out: &mut K,
) -> Result<Status, LogStop>
    requires valid { AreValid trees.now }
    requires one_space { is_one_space trees.now.left.0 trees.now.right.0 ≡ true }
    ensures same { IsUnchanged (D.state index.old) (D.state index.new) }
    ensures other_same { IsUnchanged (E.state other.old) (E.state other.new) }
    ensures puts { IsTrue (D.state index.old).is_known → IsTrue (E.state other.old).is_known →
        Puts (said_of_files Report.Answers
        (tree_of (D.state index.old) trees.now.left) (tree_of (E.state other.old) trees.now.right) bytes.now).texts
        (K.state out.old).written (K.state out.new).written (stop_of result) }
    ensures status { IfOk result (λ status. IsTrue (D.state index.old).is_known → IsTrue (E.state other.old).is_known →
        status.0 ≡ (said_of_files Report.Answers
        (tree_of (D.state index.old) trees.now.left) (tree_of (E.state other.old) trees.now.right) bytes.now).status) }
    ensures statuses { IfOk result (λ status. (status.0 ≡ 0) ⊎ (status.0 ≡ 1)) }
    ensures later { (K.state out.old).faults ≤ (K.state out.new).faults }
    ensures output { IsErrOf result LogStop.Sink → Rose (K.state out.old).faults (K.state out.new).faults }
    ensures disk { IsErrOf result LogStop.Disk → EitherRose (D.state index.old) (D.state index.new)
        (E.state other.old) (E.state other.new) }
{
    let sound = put_audit(alloc, b"file", index, &trees.left, out)?;
    if !sound {
        return Ok(Status(1));
    }
    let other_sound = put_audit(alloc, b"other", other, &trees.right, out)?;
    if !other_sound {
        return Ok(Status(1));
    }
    let report = Report::Answers;
    let request = Request { report, bytes };
    judge_opened(alloc, &request, index, other, trees, out)
}

/// Says what there is to say about two opened files and the logs of their join.
/// Clauses: what is asked of the caller (the one without a name); the answer (`status`); which statuses come (`statuses`); what is written
/// (`puts`); what stays (`same`, `other_same`); the cause of an error (`output`, `disk`); faults of the devices (`later`).
pub fn report_on<D: Disk, E: Disk, K: Sink>(
    alloc: Global,
    request: &Request<'_>,
    index: &mut D,
    other: &mut E,
    trees: &Trees,
    out: &mut K,
) -> Result<Status, LogStop>
    requires { AreValid trees.now }
    ensures same { IsUnchanged (D.state index.old) (D.state index.new) }
    ensures other_same { IsUnchanged (E.state other.old) (E.state other.new) }
    ensures puts { IsTrue (D.state index.old).is_known → IsTrue (E.state other.old).is_known →
        Puts (said_of request.now.report
        (tree_of (D.state index.old) trees.now.left) (tree_of (E.state other.old) trees.now.right) request.now.bytes.now).texts
        (K.state out.old).written (K.state out.new).written (stop_of result) }
    ensures status { IfOk result (λ status. IsTrue (D.state index.old).is_known → IsTrue (E.state other.old).is_known →
        status.0 ≡ (said_of request.now.report
        (tree_of (D.state index.old) trees.now.left) (tree_of (E.state other.old) trees.now.right) request.now.bytes.now).status) }
    ensures statuses { IfOk result (λ status. (status.0 ≡ 0) ⊎ (status.0 ≡ 1)) }
    ensures later { (K.state out.old).faults ≤ (K.state out.new).faults }
    ensures output { IsErrOf result LogStop.Sink → Rose (K.state out.old).faults (K.state out.new).faults }
    ensures disk { IsErrOf result LogStop.Disk → EitherRose (D.state index.old) (D.state index.new)
        (E.state other.old) (E.state other.new) }
{
    if !trees.have_one_space() {
        put(out, REJECTED_SPACES)?;
        return Ok(Status(1));
    }
    match request.report {
        Report::Verdicts => judge_opened(alloc, request, index, other, trees, out),
        Report::Answers => check_opened(alloc, index, other, trees, request.bytes, out),
    }
}
