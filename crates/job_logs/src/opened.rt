// Reports on an opened index and on its logs.
ghost use Rattle.std.specs.Prelude.{◌≡◌, ◌⊎◌, ◌≤◌, ◌+◌, ◌^◌, max, IsTrue, IfOk, IsErrOf};
ghost use Rattle.outside_io.specs.Causes.{Rose};
ghost use Rattle.disk_model.specs.Disk.{IsUnchanged};
ghost use Rattle.node_page.specs.Heads.{IsValidHead};
ghost use Rattle.prune_log.specs.Reading.{log_at, frames_at};
ghost use Rattle.job_files.specs.Logs.Files.{fault_of};
ghost use Rattle.job_files.specs.Logs.Jobs.{Puts, stop_of};
ghost use Rattle.job_files.specs.Logs.JobReports.{on_logs};
ghost use Rattle.job_logs.specs.Lines.{log_words, saying};
ghost use Rattle.job_logs.specs.Jobs.{judge_of, most_reads, records_in};

use crate::checker::LogChecker;
use disk_model::Disk;
use job_files::logs::{LogStop, Report, judge_bytes, put_audit};
use job_files::space_of;
use node_page::Head;
use outside_io::{Sink, Status};
use page_cache::laws::empty_cache_agrees;
use page_cache::{Cached, KEPT_NODES, Kept};
use page_store::DiskPages;
use std::alloc::Global;
use tree_shape::Live;

// Says what there is to say about the logs of an opened file.
// Clauses: what is asked of the caller (`head`, `pages`); the answer (`status`); which statuses come (`statuses`); what is written
// (`puts`); what stays (`same`); the cost (`reads`); the cause of an error (`output`, `disk`); faults of the devices (`later`).
fn judge_opened<D: Disk, K: Sink>(
    alloc: Global,
    report: Report,
    index: &mut D,
    opened: &(Head, Live),
    bytes: &[u8],
    out: &mut K,
) -> Result<Status, LogStop>
    requires head { IsValidHead opened.now.0 }
    requires pages { opened.now.1.pages ≤ 2 ^ 24 }
    ensures same { IsUnchanged (D.state index.old) (D.state index.new) }
    ensures puts { IsTrue (D.state index.old).is_known →
        Puts (on_logs log_words report (judge_of (D.state index.old).bytes opened.now.0 opened.now.1) (frames_at log_at bytes.now)).texts
        (K.state out.old).written (K.state out.new).written (stop_of result) }
    ensures status { IfOk result (λ status. IsTrue (D.state index.old).is_known →
        status.0 ≡ (on_logs log_words report (judge_of (D.state index.old).bytes opened.now.0 opened.now.1)
        (frames_at log_at bytes.now)).status) }
    ensures statuses { IfOk result (λ status. (status.0 ≡ 0) ⊎ (status.0 ≡ 1)) }
    ensures reads { (D.state index.new).reads ≤ (D.state index.old).reads + records_in bytes.now }
    ensures later { (K.state out.old).faults ≤ (K.state out.new).faults }
    ensures output { IsErrOf result LogStop.Sink → Rose (K.state out.old).faults (K.state out.new).faults }
    ensures disk { IsErrOf result LogStop.Disk → Rose (D.state index.old).faults (D.state index.new).faults }
{
    empty_cache_agrees();
    let (head, live) = opened;
    let space = space_of(head);
    let Ok(kept) = Kept::new(alloc, KEPT_NODES) else {
        return Err(LogStop::Memory);
    };
    let pages = DiskPages::new(index, head.dim, live.pages);
    let mut pages = Cached::from_parts(pages, kept);
    let mut checker = LogChecker {
        space,
        live: *live,
        pages: &mut pages,
    };
    let judged = judge_bytes(alloc, report, &mut checker, bytes, out);
    let _index = pages.into_inner().disk;
    judged
}

// Audits an opened file and writes the result. Where it is sound, it also says what there is to say about its logs.
// Clauses: what is asked of the caller (`head`, `pages`); the answer (`status`); which statuses come (`statuses`); what is written
// (`puts`); what stays (`same`); the cost (`reads`); the cause of an error (`output`, `disk`); faults of the devices (`later`).
fn check_opened<D: Disk, K: Sink>(
    alloc: Global,
    index: &mut D,
    opened: &(Head, Live),
    bytes: &[u8],
    out: &mut K,
) -> Result<Status, LogStop>
    requires head { IsValidHead opened.now.0 }
    requires pages { opened.now.1.pages ≤ 2 ^ 24 }
    ensures same { IsUnchanged (D.state index.old) (D.state index.new) }
    ensures puts { IsTrue (D.state index.old).is_known →
        Puts (saying Report.Answers (fault_of (D.state index.old).bytes opened.now.0 opened.now.1)
        (judge_of (D.state index.old).bytes opened.now.0 opened.now.1) (frames_at log_at bytes.now)).texts
        (K.state out.old).written (K.state out.new).written (stop_of result) }
    ensures status { IfOk result (λ status. IsTrue (D.state index.old).is_known →
        status.0 ≡ (saying Report.Answers (fault_of (D.state index.old).bytes opened.now.0 opened.now.1)
        (judge_of (D.state index.old).bytes opened.now.0 opened.now.1) (frames_at log_at bytes.now)).status) }
    ensures statuses { IfOk result (λ status. (status.0 ≡ 0) ⊎ (status.0 ≡ 1)) }
    ensures reads { (D.state index.new).reads ≤ (D.state index.old).reads + (max 1 opened.now.1.pages + records_in bytes.now) }
    ensures later { (K.state out.old).faults ≤ (K.state out.new).faults }
    ensures output { IsErrOf result LogStop.Sink → Rose (K.state out.old).faults (K.state out.new).faults }
    ensures disk { IsErrOf result LogStop.Disk → Rose (D.state index.old).faults (D.state index.new).faults }
{
    let sound = put_audit(alloc, b"file", index, opened, out)?;
    if !sound {
        return Ok(Status(1));
    }
    judge_opened(alloc, Report::Answers, index, opened, bytes, out)
}

/// Says what there is to say about an opened file and its logs, and returns the status.
/// Clauses: what is asked of the caller (`head`, `pages`); the answer (`status`); which statuses come (`statuses`); what is written
/// (`puts`); what stays (`same`); the cost (`reads`); the cause of an error (`output`, `disk`); faults of the devices (`later`).
pub fn report_on<D: Disk, K: Sink>(
    alloc: Global,
    report: Report,
    index: &mut D,
    opened: &(Head, Live),
    bytes: &[u8],
    out: &mut K,
) -> Result<Status, LogStop>
    requires head { IsValidHead opened.now.0 }
    requires pages { opened.now.1.pages ≤ 2 ^ 24 }
    ensures same { IsUnchanged (D.state index.old) (D.state index.new) }
    ensures puts { IsTrue (D.state index.old).is_known →
        Puts (saying report (fault_of (D.state index.old).bytes opened.now.0 opened.now.1)
        (judge_of (D.state index.old).bytes opened.now.0 opened.now.1) (frames_at log_at bytes.now)).texts
        (K.state out.old).written (K.state out.new).written (stop_of result) }
    ensures status { IfOk result (λ status. IsTrue (D.state index.old).is_known →
        status.0 ≡ (saying report (fault_of (D.state index.old).bytes opened.now.0 opened.now.1)
        (judge_of (D.state index.old).bytes opened.now.0 opened.now.1) (frames_at log_at bytes.now)).status) }
    ensures statuses { IfOk result (λ status. (status.0 ≡ 0) ⊎ (status.0 ≡ 1)) }
    ensures reads { (D.state index.new).reads ≤ (D.state index.old).reads + most_reads report bytes.now (max 1 opened.now.1.pages) }
    ensures later { (K.state out.old).faults ≤ (K.state out.new).faults }
    ensures output { IsErrOf result LogStop.Sink → Rose (K.state out.old).faults (K.state out.new).faults }
    ensures disk { IsErrOf result LogStop.Disk → Rose (D.state index.old).faults (D.state index.new).faults }
{
    match report {
        Report::Verdicts => judge_opened(alloc, report, index, opened, bytes, out),
        Report::Answers => check_opened(alloc, index, opened, bytes, out),
    }
}
