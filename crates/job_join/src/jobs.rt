// Does the jobs on two files, from their devices to their statuses.
ghost use Rattle.std.specs.Prelude.{◌≡◌, ◌≢◌, ◌⊎◌, ◌≤◌, IsTrue, IfOk, IfErr, OnOk, OnErr};
ghost use Rattle.outside_io.specs.Causes.{Rose};
ghost use Rattle.disk_model.specs.Disk.{IsUnchanged};
ghost use Rattle.job_join.specs.Trees.{Tree, tree_of, IsOpened};
ghost use Rattle.job_files.specs.Logs.Jobs.{IsJudgeStatus, IsLogStatus};
ghost use Rattle.job_join.specs.Jobs.{AreValid, Refuses, Judges, JudgesLogs, Joins, IsJoinStatus};
ghost use Rattle.job_join.specs.Laws.{FaultlessIsComplete};

use crate::joining::{end_joined, end_refused, join_opened};
use crate::laws::faultless_is_complete;
use crate::opened::{REJECTED_SPACES, Request, Trees, report_on};
use disk_model::Disk;
use job_files::logs::{Report, end_stopped, read_logs};
use job_files::{open_index, put_line};
use outside_io::{Sink, Source, Status};
use std::alloc::Global;

/// Opens two indexes of version 2. Otherwise it writes why the first file that is no index is none, and returns the status.
/// Clauses: the answer (`opens`, `other_opens`, `valid`); what stays (`same`, `other_same`, `silent`); the cause of an error (`refuses`);
/// faults of the devices (`later`, `other_later`, `written_later`).
pub fn open_both<D: Disk, E: Disk, K: Sink>(
    index: &mut D,
    other: &mut E,
    out: &mut K,
) -> Result<Trees, Status>
    ensures same { IsUnchanged (D.state index.old) (D.state index.new) }
    ensures other_same { IsUnchanged (E.state other.old) (E.state other.new) }
    ensures opens { IfOk result (λ trees. IsTrue (D.state index.old).is_known → IsOpened (tree_of (D.state index.old) trees.left)) }
    ensures other_opens { IfOk result (λ trees. IsTrue (E.state other.old).is_known → IsOpened (tree_of (E.state other.old) trees.right)) }
    ensures valid { IfOk result AreValid }
    ensures silent { OnOk result (out.new ≡ out.old) }
    ensures refuses { IfErr result (λ status.
        Refuses (D.state index.old) (D.state index.new) (E.state other.old) (E.state other.new) (K.state out.old)
        (K.state out.new) status.0) }
    ensures later { (D.state index.old).faults ≤ (D.state index.new).faults }
    ensures other_later { (E.state other.old).faults ≤ (E.state other.new).faults }
    ensures written_later { (K.state out.old).faults ≤ (K.state out.new).faults }
{
    let left = open_index(index, out)?;
    let right = open_index(other, out)?;
    Ok(Trees { left, right })
}

// Says what there is to say about two indexes and the bytes of their logs.
fn judge_indexes<D: Disk, E: Disk, K: Sink>(
    alloc: Global,
    report: Report,
    index: &mut D,
    other: &mut E,
    bytes: &[u8],
    out: &mut K,
) -> Status
    ensures judges { Judges report (D.state index.old) (D.state index.new) (E.state other.old) (E.state other.new) bytes.now
        (K.state out.old) (K.state out.new) result.0 }
    ensures statuses { IsJudgeStatus result.0 }
    ensures output { result.0 ≡ 4 → Rose (K.state out.old).faults (K.state out.new).faults }
    ensures later { (K.state out.old).faults ≤ (K.state out.new).faults }
{
    let trees = match open_both(index, other, out) {
        Ok(trees) => trees,
        Err(status) => return status,
    };
    let request = Request { report, bytes };
    match report_on(alloc, &request, index, other, &trees, out) {
        Ok(status) => status,
        Err(why) => end_stopped(why, out),
    }
}

// Reads the logs, and says what there is to say about both indexes and the logs.
fn judge_logs<D: Disk, E: Disk, S: Source, K: Sink>(
    alloc: Global,
    report: Report,
    index: &mut D,
    other: &mut E,
    log_in: &mut S,
    out: &mut K,
) -> Status
    ensures judges { JudgesLogs report (D.state index.old) (D.state index.new) (E.state other.old) (E.state other.new)
        (S.left log_in.old) (S.left log_in.new) (K.state out.old) (K.state out.new) result.0 }
    ensures statuses { IsLogStatus result.0 }
    ensures input { result.0 ≡ 3 → Rose (S.faults log_in.old) (S.faults log_in.new) }
    ensures output { result.0 ≡ 4 → Rose (K.state out.old).faults (K.state out.new).faults }
    ensures counts { (S.faults log_in.old ≤ S.faults log_in.new) × ((K.state out.old).faults ≤ (K.state out.new).faults) }
{
    match read_logs(alloc, log_in, out) {
        Ok(bytes) => judge_indexes(alloc, report, index, other, &bytes, out),
        Err(status) => status,
    }
}

/// Judges the join logs of `log_in` by two indexes, `index` on the left. Writes a line for each log as soon as it is judged: that it
/// is accepted, or its first fault. The files are not audited. Where their spaces differ it writes `rejected spaces` and nothing
/// more. Status 1: a log is rejected, the bytes are no join logs, or the spaces differ; 3: the logs could not be read; 4: a line
/// could not be written; 5: a disk failed; 6: a file is no index of version 2; 7: there are more than 2^30 bytes of logs; 8: memory
/// ran out. Changes nothing.
pub fn verify_join_logs<D: Disk, E: Disk, S: Source, K: Sink>(
    alloc: Global,
    index: &mut D,
    other: &mut E,
    log_in: &mut S,
    out: &mut K,
) -> Status
    ensures judges { JudgesLogs Report.Verdicts (D.state index.old) (D.state index.new) (E.state other.old) (E.state other.new)
        (S.left log_in.old) (S.left log_in.new) (K.state out.old) (K.state out.new) result.0 }
    ensures statuses { IsLogStatus result.0 }
    ensures input { result.0 ≡ 3 → Rose (S.faults log_in.old) (S.faults log_in.new) }
    ensures output { result.0 ≡ 4 → Rose (K.state out.old).faults (K.state out.new).faults }
    ensures counts { (S.faults log_in.old ≤ S.faults log_in.new) × ((K.state out.old).faults ≤ (K.state out.new).faults) }
{
    judge_logs(alloc, Report::Verdicts, index, other, log_in, out)
}

/// Audits two indexes, `index` first, and where both are sound judges the join logs of `log_in` by them. For each log it writes that
/// it is complete, with its radius and its answers, or its first fault. Status 1 comes also where a file is not sound; the other
/// statuses are those of [`verify_join_logs`]. Changes nothing.
pub fn check_join_logs<D: Disk, E: Disk, S: Source, K: Sink>(
    alloc: Global,
    index: &mut D,
    other: &mut E,
    log_in: &mut S,
    out: &mut K,
) -> Status
    ensures judges { JudgesLogs Report.Answers (D.state index.old) (D.state index.new) (E.state other.old) (E.state other.new)
        (S.left log_in.old) (S.left log_in.new) (K.state out.old) (K.state out.new) result.0 }
    // A log reported as complete is sound on two sound files, and its answers are the pairs of the double loop.
    ensures complete { (left right : Tree) → IsOpened left → IsOpened right → FaultlessIsComplete left right }
    ensures statuses { IsLogStatus result.0 }
    ensures input { result.0 ≡ 3 → Rose (S.faults log_in.old) (S.faults log_in.new) }
    ensures output { result.0 ≡ 4 → Rose (K.state out.old).faults (K.state out.new).faults }
    ensures counts { (S.faults log_in.old ≤ S.faults log_in.new) × ((K.state out.old).faults ≤ (K.state out.new).faults) }
{
    faultless_is_complete();
    judge_logs(alloc, Report::Answers, index, other, log_in, out)
}

/// Joins two indexes of one space, `index` on the left. Puts one frame of the join's log to `log_out`, and then `pairs N` and each
/// pair of objects within the radius to `out`, by the left id, then by the right id. Status 1: the spaces differ, and the line is
/// `rejected spaces`; 4: the frame or the lines could not be written; 5: a disk failed; 6: a file is no index of version 2; 8:
/// memory ran out; 9: a page of a file that is not sound gave no node, or was named once too often. Except at status 0 and 4 nothing
/// is put to `log_out`. Changes neither file.
pub fn join_indexes<D: Disk, E: Disk, K: Sink, T: Sink>(
    alloc: Global,
    index: &mut D,
    other: &mut E,
    radius: u64,
    out: &mut K,
    log_out: &mut T,
) -> Status
    ensures joins { Joins radius (D.state index.old) (D.state index.new) (E.state other.old) (E.state other.new) (K.state out.old)
        (K.state out.new) (T.state log_out.old) (T.state log_out.new) result.0 }
    ensures statuses { IsJoinStatus result.0 }
    ensures output { result.0 ≡ 4 → Rose (K.state out.old).faults (K.state out.new).faults
        ⊎ Rose (T.state log_out.old).faults (T.state log_out.new).faults }
    ensures kept { result.0 ≢ 0 → result.0 ≢ 4 → log_out.new ≡ log_out.old }
    ensures counts { ((K.state out.old).faults ≤ (K.state out.new).faults) × ((T.state log_out.old).faults ≤ (T.state log_out.new).faults) }
{
    let trees = match open_both(index, other, out) {
        Ok(trees) => trees,
        Err(status) => return status,
    };
    if !trees.have_one_space() {
        return put_line(out, REJECTED_SPACES, 1);
    }
    match join_opened(alloc, index, other, &trees, radius) {
        Ok(joined) => end_joined(alloc, joined, out, log_out),
        Err(fault) => end_refused(alloc, fault, out),
    }
}
