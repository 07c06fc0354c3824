// The job `audit` by several threads.
ghost use Rattle.std.specs.Prelude.{◌≡◌, ◌≤◌, ◌^◌, None, length, IsTrue, IfOk, IfErr};
ghost use Rattle.outside_io.specs.Causes.{Rose};
ghost use Rattle.disk_model.specs.Disk.{IsUnchanged};
ghost use Rattle.job_files.specs.Spaces.{space_of};
ghost use Rattle.tree_shape.specs.Tree.{pages_at};
ghost use Rattle.node_page.specs.Heads.{IsValidHead};
ghost use Rattle.page_store.specs.Reading.{reading, nodes_of};
ghost use Rattle.tree_audit.specs.Audited.{audit_fault};
ghost use Rattle.job_files.specs.Jobs.{Audits, HasFault, IsAuditStatus};

use crate::sound_by_parts;
use disk_model::SharedDisk;
use job_files::{MOST_WHOLE_PAGES, audit_opened, end_rejected, end_sound, open_index, space_of};
use node_page::Head;
use outside_io::{Sink, Status};
use std::alloc::Global;
use std::thread::Threads;
use tree_audit::{AuditFault, Audited};
use tree_shape::Live;

// Audits an opened file of version 2: by several threads, where they find no fault.
// Clauses: what is asked of the caller (`head`, `pages`, `some`, `many`); the answer (`ok`, `objects`, `nodes`); what stays (`same`); the
// cause of an error (`err`); faults of the devices (`later`).
fn audit_by<R: Threads + Sync, D: SharedDisk>(
    rt: &R,
    alloc: Global,
    disk: &mut D,
    head: &Head,
    live: &Live,
    workers: usize,
) -> Result<Audited, AuditFault>
    requires head { IsValidHead head.now }
    requires pages { live.now.pages ≤ 2 ^ 24 }
    requires some { 1 ≤ workers }
    requires many { workers ≤ 64 }
    ensures same { IsUnchanged (D.state disk.old) (D.state disk.new) }
    ensures ok { IfOk result (λ a. IsTrue (D.state disk.old).is_known
        → audit_fault (space_of head.now) (reading head.now.dim live.now.pages (D.state disk.old).bytes) live.now ≡ None) }
    ensures objects { IfOk result (λ a. a.objects ≡ live.now.count) }
    ensures nodes { IfOk result (λ a. IsTrue (D.state disk.old).is_known
        → a.nodes ≡ length (pages_at (nodes_of (reading head.now.dim live.now.pages (D.state disk.old).bytes))
        live.now.height live.now.root)) }
    ensures err { IfErr result (HasFault (D.state disk.old) (D.state disk.new).faults
        (audit_fault (space_of head.now) (reading head.now.dim live.now.pages (D.state disk.old).bytes) live.now)) }
    ensures later { (D.state disk.old).faults ≤ (D.state disk.new).faults }
{
    if workers > 1 && live.pages <= MOST_WHOLE_PAGES {
        match sound_by_parts(rt, alloc, disk, space_of(head), live, workers) {
            Ok(Some(audited)) => return Ok(audited),
            Ok(None) => {}
            Err(_) => return Err(AuditFault::Memory),
        }
    }
    audit_opened(alloc, disk, head, live)
}

/// Audits an index as `audit_index` does, with the same lines and statuses, by `workers` threads, 1 to 64. Where there are
/// several, each reads its part of the file by itself. One thread does the work where the file has more than 262144 pages, and
/// where the parts show a fault; then it names the first fault.
pub fn audit_index_by<R: Threads + Sync, D: SharedDisk, K: Sink>(
    rt: &R,
    alloc: Global,
    index: &mut D,
    workers: usize,
    out: &mut K,
) -> Status
    requires some { 1 ≤ workers }
    requires many { workers ≤ 64 }
    ensures audits { Audits (D.state index.old) (D.state index.new) (K.state out.old) (K.state out.new) result.0 }
    ensures statuses { IsAuditStatus result.0 }
    ensures later { (K.state out.old).faults ≤ (K.state out.new).faults }
    ensures rose { result.0 ≡ 4 → Rose (K.state out.old).faults (K.state out.new).faults }
{
    let (head, live) = match open_index(index, out) {
        Ok(opened) => opened,
        Err(status) => return status,
    };
    match audit_by(rt, alloc, index, &head, &live, workers) {
        Ok(audited) => end_sound(alloc, &audited, out),
        Err(fault) => end_rejected(alloc, fault, out),
    }
}
