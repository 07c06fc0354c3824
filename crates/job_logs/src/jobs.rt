// Does the jobs on logs, from their devices to their statuses.
ghost use Rattle.std.specs.Prelude.{◌≡◌, ◌≤◌};
ghost use Rattle.outside_io.specs.Causes.{Rose};
ghost use Rattle.job_files.specs.Logs.Jobs.{IsJudgeStatus, IsLogStatus};
ghost use Rattle.job_logs.specs.Jobs.{Judges, JudgesLogs};
ghost use Rattle.job_logs.specs.Laws.{FaultlessIsComplete};

use crate::laws::faultless_is_complete;
use crate::opened::report_on;
use disk_model::Disk;
use job_files::logs::{Report, end_stopped, read_logs};
use job_files::open_index;
use outside_io::{Sink, Source, Status};
use std::alloc::Global;

// Says what there is to say about an index and the bytes of its logs.
fn judge_index<D: Disk, K: Sink>(
    alloc: Global,
    report: Report,
    index: &mut D,
    bytes: &[u8],
    out: &mut K,
) -> Status
    ensures judges { Judges report (D.state index.old) (D.state index.new) bytes.now (K.state out.old) (K.state out.new) result.0 }
    ensures statuses { IsJudgeStatus result.0 }
    ensures output { result.0 ≡ 4 → Rose (K.state out.old).faults (K.state out.new).faults }
    ensures later { (K.state out.old).faults ≤ (K.state out.new).faults }
{
    let opened = match open_index(index, out) {
        Ok(opened) => opened,
        Err(status) => return status,
    };
    match report_on(alloc, report, index, &opened, bytes, out) {
        Ok(status) => status,
        Err(why) => end_stopped(why, out),
    }
}

// Reads the logs, and says what there is to say about the index and the logs.
fn judge_logs<D: Disk, S: Source, K: Sink>(
    alloc: Global,
    report: Report,
    index: &mut D,
    log_in: &mut S,
    out: &mut K,
) -> Status
    ensures judges { JudgesLogs report (D.state index.old) (D.state index.new) (S.left log_in.old) (S.left log_in.new)
        (K.state out.old) (K.state out.new) result.0 }
    ensures statuses { IsLogStatus result.0 }
    ensures input { result.0 ≡ 3 → Rose (S.faults log_in.old) (S.faults log_in.new) }
    ensures output { result.0 ≡ 4 → Rose (K.state out.old).faults (K.state out.new).faults }
    ensures counts { (S.faults log_in.old ≤ S.faults log_in.new) × ((K.state out.old).faults ≤ (K.state out.new).faults) }
{
    match read_logs(alloc, log_in, out) {
        Ok(bytes) => judge_index(alloc, report, index, &bytes, out),
        Err(status) => status,
    }
}

/// Judges the logs of `log_in` by the index, and writes a line for each log: that it is accepted, or its first fault. The file is
/// not audited. Status 1: a log is rejected, or the bytes are no logs; 3: they could not be read; 4: a line could not be written; 5:
/// the disk failed; 6: the file is no index of version 2; 7: there are more than 2^30 bytes of logs; 8: memory ran out. Changes
/// nothing.
pub fn verify_logs<D: Disk, S: Source, K: Sink>(
    alloc: Global,
    index: &mut D,
    log_in: &mut S,
    out: &mut K,
) -> Status
    ensures judges { JudgesLogs Report.Verdicts (D.state index.old) (D.state index.new) (S.left log_in.old) (S.left log_in.new)
        (K.state out.old) (K.state out.new) result.0 }
    ensures statuses { IsLogStatus result.0 }
    ensures input { result.0 ≡ 3 → Rose (S.faults log_in.old) (S.faults log_in.new) }
    ensures output { result.0 ≡ 4 → Rose (K.state out.old).faults (K.state out.new).faults }
    ensures counts { (S.faults log_in.old ≤ S.faults log_in.new) × ((K.state out.old).faults ≤ (K.state out.new).faults) }
{
    judge_logs(alloc, Report::Verdicts, index, log_in, out)
}

/// Audits the index, and where it is sound judges the logs of `log_in` by it. For each log it writes that it is complete, with its
/// query and its answers, or its first fault. Status 1 comes also where the file is not sound; the other statuses are those of
/// [`verify_logs`]. Changes nothing.
pub fn check_logs<D: Disk, S: Source, K: Sink>(
    alloc: Global,
    index: &mut D,
    log_in: &mut S,
    out: &mut K,
) -> Status
    ensures judges { JudgesLogs Report.Answers (D.state index.old) (D.state index.new) (S.left log_in.old) (S.left log_in.new)
        (K.state out.old) (K.state out.new) result.0 }
    // A log reported as complete is sound on a sound file, and its answers are those of the plain scan.
    ensures complete { FaultlessIsComplete (D.state index.old).bytes }
    ensures statuses { IsLogStatus result.0 }
    ensures input { result.0 ≡ 3 → Rose (S.faults log_in.old) (S.faults log_in.new) }
    ensures output { result.0 ≡ 4 → Rose (K.state out.old).faults (K.state out.new).faults }
    ensures counts { (S.faults log_in.old ≤ S.faults log_in.new) × ((K.state out.old).faults ≤ (K.state out.new).faults) }
{
    faultless_is_complete();
    judge_logs(alloc, Report::Answers, index, log_in, out)
}
