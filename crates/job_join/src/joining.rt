// Joins two opened indexes, and writes the result.
ghost use Rattle.std.specs.Prelude.{◌≡◌, ◌≢◌, ◌⊎◌, ◌≤◌, true, IsTrue, IfOk, IfErr, codes};
ghost use Rattle.std.specs.Io.KnownBytes.{Appends};
ghost use Rattle.outside_io.specs.Bytes.{AppendsPrefix};
ghost use Rattle.outside_io.specs.Causes.{Rose};
ghost use Rattle.outside_io.specs.Sinks.{Tells};
ghost use Rattle.disk_model.specs.Disk.{IsUnchanged};
ghost use Rattle.log_model.specs.Grammar.{IsValidJoinLog};
ghost use Rattle.prune_log.specs.Spelling.{join_log_bytes, frame_bytes};
ghost use Rattle.job_files.specs.Lines.{damaged_text};
ghost use Rattle.job_join.specs.Lines.{pairs_text};
ghost use Rattle.job_join.specs.Trees.{tree_of, is_one_space};
ghost use Rattle.job_join.specs.Jobs.{AreValid, IsJoinOf, HasRefusal, EndsRefused, PutsJoin, CutsJoin};

use crate::lines::push_pairs;
use crate::opened::Trees;
use disk_model::Disk;
use job_files::{FAULT_DISK, FAULT_MEMORY, damaged_text, end_with, put_line, space_of};
use log_model::Joined;
use metric_join::{JoinFault, join};
use metric_laws::Meter;
use outside_io::{Sink, Status};
use page_cache::laws::empty_cache_agrees;
use page_cache::{Cached, KEPT_NODES, Kept};
use page_store::{DiskPages, PageFault};
use prune_log::{encode_join_log, frame};
use std::alloc::{AllocError, Global};

/// Returns the join of two opened files of one space.
pub fn join_opened<D: Disk, E: Disk>(
    alloc: Global,
    index: &mut D,
    other: &mut E,
    trees: &Trees,
    radius: u64,
) -> Result<Joined, JoinFault>
    requires valid { AreValid trees.now }
    requires one_space { is_one_space trees.now.left.0 trees.now.right.0 ≡ true }
    ensures same { IsUnchanged (D.state index.old) (D.state index.new) }
    ensures other_same { IsUnchanged (E.state other.old) (E.state other.new) }
    ensures pairs { IfOk result (λ joined. joined.pairs ≡ joined.log.answers) }
    ensures valid { IfOk result (λ joined. IsValidJoinLog joined.log) }
    ensures joined { IfOk result (λ joined. IsTrue (D.state index.old).is_known → IsTrue (E.state other.old).is_known →
        IsJoinOf radius joined.log (tree_of (D.state index.old) trees.now.left) (tree_of (E.state other.old) trees.now.right)) }
    ensures refused { IfErr result (HasRefusal trees.now (D.state index.old) (D.state index.new).faults
        (E.state other.old) (E.state other.new).faults) }
{
    empty_cache_agrees();
    let (left, right) = (&trees.left, &trees.right);
    let mut ruler = Meter::new(space_of(&left.0));
    let left_kept = Kept::new(alloc, KEPT_NODES)?;
    let right_kept = Kept::new(alloc, KEPT_NODES)?;
    let left_pages = DiskPages::new(index, left.0.dim, left.1.pages);
    let right_pages = DiskPages::new(other, right.0.dim, right.1.pages);
    let mut left_pages = Cached::from_parts(left_pages, left_kept);
    let mut right_pages = Cached::from_parts(right_pages, right_kept);
    let joined = join(
        alloc,
        &mut left_pages,
        &mut right_pages,
        &mut ruler,
        &left.1,
        &right.1,
        radius,
    );
    let _index = left_pages.into_inner().disk;
    let _other = right_pages.into_inner().disk;
    joined
}

// Returns the lines of a join's pairs, and the frame of its log.
fn joined_texts(alloc: Global, joined: Joined) -> Result<(Vec<u8>, Vec<u8>), AllocError>
    requires { IsValidJoinLog joined.log }
    ensures lines { IfOk result (λ texts. texts.0.items ≡ pairs_text joined.pairs) }
    ensures framed { IfOk result (λ texts. texts.1.items ≡ frame_bytes (join_log_bytes joined.log)) }
{
    let mut lines = Vec::new(alloc);
    push_pairs(joined.pairs, &mut lines)?;
    let bytes = encode_join_log(alloc, &joined.log)?;
    let mut framed = Vec::new(alloc);
    frame(&bytes, &mut framed)?;
    Ok((lines, framed))
}

/// Ends a join that is done: puts the frame of its log, and then the lines of its pairs.
/// Clauses: what is asked of the caller (`valid`, `pairs`); what is written (`done`, `cut`, `memory`); what stays (`kept`); which statuses
/// come (`statuses`); the cause of an error (`output`); faults of the devices (`later`, `log_later`).
pub fn end_joined<K: Sink, T: Sink>(
    alloc: Global,
    joined: Joined,
    out: &mut K,
    log_out: &mut T,
) -> Status
    requires valid { IsValidJoinLog joined.log }
    requires pairs { joined.pairs ≡ joined.log.answers }
    ensures done { result.0 ≡ 0 → PutsJoin joined.log (K.state out.old) (K.state out.new) (T.state log_out.old) (T.state log_out.new) }
    ensures cut { result.0 ≡ 4 → CutsJoin joined.log (K.state out.old) (K.state out.new) (T.state log_out.old) (T.state log_out.new) }
    ensures memory { result.0 ≡ 8 → Tells (K.state out.old) (K.state out.new) (codes "fault memory\n") }
    ensures statuses { (result.0 ≡ 0) ⊎ ((result.0 ≡ 4) ⊎ (result.0 ≡ 8)) }
    ensures output { result.0 ≡ 4 → Rose (K.state out.old).faults (K.state out.new).faults
        ⊎ Rose (T.state log_out.old).faults (T.state log_out.new).faults }
    ensures kept { result.0 ≡ 8 → log_out.new ≡ log_out.old }
    ensures later { (K.state out.old).faults ≤ (K.state out.new).faults }
    ensures log_later { (T.state log_out.old).faults ≤ (T.state log_out.new).faults }
{
    let Ok((lines, framed)) = joined_texts(alloc, joined) else {
        return end_with(out, FAULT_MEMORY, 8);
    };
    match log_out.put(&framed) {
        Ok(()) => put_line(out, &lines, 0),
        Err(_) => Status(4),
    }
}

// Ends a join that met a page without a node.
fn end_damaged<K: Sink>(alloc: Global, fault: PageFault, out: &mut K) -> Status
    ensures damaged { result.0 ≡ 9 → Tells (K.state out.old) (K.state out.new) (damaged_text fault) }
    ensures memory { result.0 ≡ 8 → Tells (K.state out.old) (K.state out.new) (codes "fault memory\n") }
    ensures statuses { (result.0 ≡ 8) ⊎ (result.0 ≡ 9) }
    ensures later { (K.state out.old).faults ≤ (K.state out.new).faults }
{
    match damaged_text(alloc, fault) {
        Ok(text) => end_with(out, &text, 9),
        Err(_) => end_with(out, FAULT_MEMORY, 8),
    }
}

/// Ends a refused join.
pub fn end_refused<K: Sink>(alloc: Global, fault: JoinFault, out: &mut K) -> Status
    ensures ends { EndsRefused fault (K.state out.old) (K.state out.new) result.0 }
    ensures later { (K.state out.old).faults ≤ (K.state out.new).faults }
{
    match fault {
        JoinFault::Memory => end_with(out, FAULT_MEMORY, 8),
        JoinFault::Left(PageFault::Disk) | JoinFault::Right(PageFault::Disk) => {
            end_with(out, FAULT_DISK, 5)
        }
        JoinFault::Left(fault) | JoinFault::Right(fault) => end_damaged(alloc, fault, out),
    }
}
