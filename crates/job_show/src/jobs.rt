// The job `show`, from its devices to its status.
ghost use Rattle.std.specs.Prelude.{◌≡◌, ◌≤◌};
ghost use Rattle.outside_io.specs.Causes.{Rose};
ghost use Rattle.job_files.specs.Logs.Jobs.{IsJudgeStatus, IsLogStatus};
ghost use Rattle.job_show.specs.Jobs.{ShowsBytes, ShowsLogs};

use crate::Marks;
use crate::opened::{Request, count_opened, show_opened};
use disk_model::Disk;
use job_files::logs::{end_stopped, read_logs};
use job_files::open_index;
use outside_io::{Sink, Source, Status};
use std::alloc::Global;

// Writes what is shown of the bytes of logs of an index.
fn show_index<D: Disk, K: Sink>(
    alloc: Global,
    marks: Marks,
    index: &mut D,
    bytes: &[u8],
    out: &mut K,
) -> Status
    ensures shows { ShowsBytes marks (D.state index.old) (D.state index.new) bytes.now (K.state out.old) (K.state out.new) result.0 }
    ensures statuses { IsJudgeStatus result.0 }
    ensures output { result.0 ≡ 4 → Rose (K.state out.old).faults (K.state out.new).faults }
    ensures later { (K.state out.old).faults ≤ (K.state out.new).faults }
{
    let opened = match open_index(index, out) {
        Ok(opened) => opened,
        Err(status) => return status,
    };
    let nodes = match count_opened(alloc, index, &opened) {
        Ok(nodes) => nodes,
        Err(why) => return end_stopped(why, out),
    };
    let request = Request {
        marks,
        nodes,
        bytes,
    };
    match show_opened(alloc, &request, index, &opened, out) {
        Ok(status) => status,
        Err(why) => end_stopped(why, out),
    }
}

/// Shows the logs of `log_in`, each as a walk of the index: whether it is accepted, or its first fault; its query and its answers; and
/// then each opened node, in pre-order and indented by its depth, with a line for each entry: its place, the child's page or the
/// object's id, and its mark with the numbers of its test (VLDB 1997, section 3.2). A log that is rejected is shown as far as its
/// records lead. With [`Marks::Count`] it writes a line of numbers for each log instead. Status 1: a log is rejected, or the bytes are no
/// logs; 3: they could not be read; 4: a line could not be written; 5: the disk failed; 6: the file is no index of version 2; 7: there
/// are more than 2^30 bytes of logs; 8: memory ran out. Changes nothing.
pub fn show_logs<D: Disk, S: Source, K: Sink>(
    alloc: Global,
    marks: Marks,
    index: &mut D,
    log_in: &mut S,
    out: &mut K,
) -> Status
    ensures shows { ShowsLogs marks (D.state index.old) (D.state index.new) (S.left log_in.old) (S.left log_in.new)
        (K.state out.old) (K.state out.new) result.0 }
    ensures statuses { IsLogStatus result.0 }
    ensures input { result.0 ≡ 3 → Rose (S.faults log_in.old) (S.faults log_in.new) }
    ensures output { result.0 ≡ 4 → Rose (K.state out.old).faults (K.state out.new).faults }
    ensures counts { (S.faults log_in.old ≤ S.faults log_in.new) × ((K.state out.old).faults ≤ (K.state out.new).faults) }
{
    match read_logs(alloc, log_in, out) {
        Ok(bytes) => show_index(alloc, marks, index, &bytes, out),
        Err(status) => status,
    }
}
