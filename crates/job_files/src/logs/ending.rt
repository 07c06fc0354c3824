// How a job begins and ends.
ghost use Rattle.std.specs.Prelude.{◌≡◌, ◌≤◌, IfOk, IfErr, OnOk};
ghost use Rattle.outside_io.specs.Causes.{Rose};
ghost use Rattle.job_files.specs.Logs.Jobs.{EndsUnread, Stops, TakesLogs};

use crate::logs::stop::LogStop;
use crate::{FAULT_DISK, FAULT_MEMORY, MOST_LOGS, end_unread, end_with};
use outside_io::{Sink, Source, Status, read_all};
use std::alloc::Global;

/// Reads the bytes of logs. Otherwise writes why there are none, and returns the status: 3 where they could not be read, 7 where
/// there are more than 2^30, and 8 when memory runs out.
pub fn read_logs<S: Source, K: Sink>(
    alloc: Global,
    log_in: &mut S,
    out: &mut K,
) -> Result<Vec<u8>, Status>
    ensures takes { IfOk result (λ bytes. TakesLogs (S.left log_in.old) (S.left log_in.new) bytes.items) }
    ensures silent { OnOk result (out.new ≡ out.old) }
    ensures unread { IfErr result (λ status.
        EndsUnread (S.left log_in.old) (S.left log_in.new) (K.state out.old) (K.state out.new) status.0) }
    ensures input { IfErr result (λ status. status.0 ≡ 3 → Rose (S.faults log_in.old) (S.faults log_in.new)) }
    ensures later { S.faults log_in.old ≤ S.faults log_in.new }
    ensures written_later { (K.state out.old).faults ≤ (K.state out.new).faults }
{
    match read_all(alloc, log_in, MOST_LOGS) {
        Ok(bytes) => Ok(bytes),
        Err(why) => Err(end_unread(why, out)),
    }
}

/// Ends a job that stopped for the reason `why`.
pub fn end_stopped<K: Sink>(why: LogStop, out: &mut K) -> Status
    ensures ends { Stops why (K.state out.old) (K.state out.new) result.0 }
    ensures later { (K.state out.old).faults ≤ (K.state out.new).faults }
{
    match why {
        LogStop::Sink => Status(4),
        LogStop::Disk => end_with(out, FAULT_DISK, 5),
        LogStop::Memory => end_with(out, FAULT_MEMORY, 8),
    }
}
