// The audit of a file before its logs are judged.
ghost use Rattle.std.specs.Prelude.{◌≡◌, ◌≤◌, ◌+◌, ◌^◌, ◌∷◌, [], max, IsTrue, IfOk, IsErrOf};
ghost use Rattle.std.specs.Option.{is_none};
ghost use Rattle.outside_io.specs.Causes.{Rose};
ghost use Rattle.disk_model.specs.Disk.{IsUnchanged};
ghost use Rattle.node_page.specs.Heads.{IsValidHead};
ghost use Rattle.job_files.specs.Logs.Files.{fault_of};
ghost use Rattle.job_files.specs.Logs.Jobs.{Puts, stop_of};
ghost use Rattle.job_files.specs.Logs.JobReports.{file_text};

use crate::audit_opened;
use crate::logs::putting::{file_text, put};
use crate::logs::stop::LogStop;
use disk_model::Disk;
use node_page::Head;
use outside_io::Sink;
use page_store::PageFault;
use std::alloc::Global;
use tree_audit::AuditFault;
use tree_shape::Live;

// Returns the first fault of an opened file, if it has one.
fn audit_file<D: Disk>(
    alloc: Global,
    disk: &mut D,
    opened: &(Head, Live),
) -> Result<Option<AuditFault>, LogStop>
    requires head { IsValidHead opened.now.0 }
    requires pages { opened.now.1.pages ≤ 2 ^ 24 }
    ensures same { IsUnchanged (D.state disk.old) (D.state disk.new) }
    ensures told { IfOk result (λ found. IsTrue (D.state disk.old).is_known →
        fault_of (D.state disk.old).bytes opened.now.0 opened.now.1 ≡ found) }
    ensures disk { IsErrOf result LogStop.Disk → Rose (D.state disk.old).faults (D.state disk.new).faults }
    ensures not_sink { IsErrOf result LogStop.Sink → ⊥ }
    ensures later { (D.state disk.old).faults ≤ (D.state disk.new).faults }
    ensures reads { (D.state disk.new).reads ≤ (D.state disk.old).reads + max 1 opened.now.1.pages }
{
    match audit_opened(alloc, disk, &opened.0, &opened.1) {
        Ok(_) => Ok(None),
        Err(AuditFault::Memory) => Err(LogStop::Memory),
        Err(AuditFault::Page(PageFault::Disk)) => Err(LogStop::Disk),
        Err(why) => Ok(Some(why)),
    }
}

/// Audits an opened file and puts the line on it under `name`. Returns whether it has no fault.
/// Clauses: what is asked of the caller (`head`, `pages`); the answer (`sound`); what is written (`puts`); what stays (`same`); the cost
/// (`reads`); the cause of an error (`output`, `disk`); faults of the devices (`later`, `written_later`).
pub fn put_audit<D: Disk, K: Sink>(
    alloc: Global,
    name: &[u8],
    disk: &mut D,
    opened: &(Head, Live),
    out: &mut K,
) -> Result<bool, LogStop>
    requires head { IsValidHead opened.now.0 }
    requires pages { opened.now.1.pages ≤ 2 ^ 24 }
    ensures same { IsUnchanged (D.state disk.old) (D.state disk.new) }
    ensures puts { IsTrue (D.state disk.old).is_known →
        Puts (file_text name.now (fault_of (D.state disk.old).bytes opened.now.0 opened.now.1) ∷ [])
        (K.state out.old).written (K.state out.new).written (stop_of result) }
    ensures sound { IfOk result (λ sound. IsTrue (D.state disk.old).is_known →
        sound ≡ is_none (fault_of (D.state disk.old).bytes opened.now.0 opened.now.1)) }
    ensures later { (D.state disk.old).faults ≤ (D.state disk.new).faults }
    ensures reads { (D.state disk.new).reads ≤ (D.state disk.old).reads + max 1 opened.now.1.pages }
    ensures written_later { (K.state out.old).faults ≤ (K.state out.new).faults }
    ensures output { IsErrOf result LogStop.Sink → Rose (K.state out.old).faults (K.state out.new).faults }
    ensures disk { IsErrOf result LogStop.Disk → Rose (D.state disk.old).faults (D.state disk.new).faults }
{
    let fault = audit_file(alloc, disk, opened)?;
    let text = file_text(alloc, name, fault)?;
    put(out, &text)?;
    Ok(fault.is_none())
}
