// The job `show` with two files, from its devices to its status.
ghost use Rattle.std.specs.Prelude.{◌≡◌, ◌≤◌};
ghost use Rattle.outside_io.specs.Causes.{Rose};
ghost use Rattle.job_files.specs.Logs.Jobs.{IsJudgeStatus, IsLogStatus};
ghost use Rattle.job_show_joins.specs.Jobs.{ShowsBytes, ShowsLogs};

use crate::opened::{Request, count_both, show_trees};
use disk_model::Disk;
use job_files::logs::{end_stopped, read_logs};
use job_join::open_both;
use job_show::Marks;
use outside_io::{Sink, Source, Status};
use std::alloc::Global;

// Writes what is shown of the bytes of logs of two indexes.
fn show_indexes<D: Disk, E: Disk, K: Sink>(
    alloc: Global,
    marks: Marks,
    index: &mut D,
    other: &mut E,
    bytes: &[u8],
    out: &mut K,
) -> Status
    ensures shows { ShowsBytes marks (D.state index.old) (D.state index.new) (E.state other.old) (E.state other.new) bytes.now
        (K.state out.old) (K.state out.new) result.0 }
    ensures statuses { IsJudgeStatus result.0 }
    ensures output { result.0 ≡ 4 → Rose (K.state out.old).faults (K.state out.new).faults }
    ensures later { (K.state out.old).faults ≤ (K.state out.new).faults }
{
    let trees = match open_both(index, other, out) {
        Ok(trees) => trees,
        Err(status) => return status,
    };
    let nodes = match count_both(alloc, index, other, &trees) {
        Ok(nodes) => nodes,
        Err(why) => return end_stopped(why, out),
    };
    let request = Request {
        marks,
        nodes,
        bytes,
    };
    match show_trees(alloc, &request, index, other, &trees, out) {
        Ok(status) => status,
        Err(why) => end_stopped(why, out),
    }
}

/// Shows the logs of `log_in`, which are of joins of the index with the other one: for each its verdict, its radius and its answers, and
/// then each opened node with the item beside it, in the order of the walk and indented by its depth, with a line for each entry. Status
/// 1 comes also where the two have different spaces. All else is as in [`job_show::show_logs`].
pub fn show_join_logs<D: Disk, E: Disk, S: Source, K: Sink>(
    alloc: Global,
    marks: Marks,
    index: &mut D,
    other: &mut E,
    log_in: &mut S,
    out: &mut K,
) -> Status
    ensures shows { ShowsLogs marks (D.state index.old) (D.state index.new) (E.state other.old) (E.state other.new)
        (S.left log_in.old) (S.left log_in.new) (K.state out.old) (K.state out.new) result.0 }
    ensures statuses { IsLogStatus result.0 }
    ensures input { result.0 ≡ 3 → Rose (S.faults log_in.old) (S.faults log_in.new) }
    ensures output { result.0 ≡ 4 → Rose (K.state out.old).faults (K.state out.new).faults }
    ensures counts { (S.faults log_in.old ≤ S.faults log_in.new) × ((K.state out.old).faults ≤ (K.state out.new).faults) }
{
    match read_logs(alloc, log_in, out) {
        Ok(bytes) => show_indexes(alloc, marks, index, other, &bytes, out),
        Err(status) => status,
    }
}
