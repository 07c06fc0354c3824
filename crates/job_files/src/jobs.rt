// The jobs on files.
ghost use Rattle.std.specs.Prelude.{◌≡◌, ◌≢◌, ◌⊎◌, ◌+◌, ◌≤◌, ◌^◌, ℕ, List, None, length, max, IsTrue, IfOk, IfErr, OnOk, codes};
ghost use Rattle.disk_model.specs.Disk.{IsUnchanged};
ghost use Rattle.job_files.specs.Spaces.{space_of};
ghost use Rattle.tree_shape.specs.Tree.{pages_at};
ghost use Rattle.page_store.specs.Reading.{reading, nodes_of};
ghost use Rattle.tree_audit.specs.Audited.{audit_fault};
ghost use Rattle.std.specs.Io.KnownBytes.{Appends};
ghost use Rattle.outside_io.specs.Bytes.{AppendsPrefix};
ghost use Rattle.outside_io.specs.Causes.{Rose};
ghost use Rattle.outside_io.specs.Sinks.{Tells};
ghost use Rattle.node_page.specs.Heads.{IsValidHead};
ghost use Rattle.node_page.specs.Opening.{IsValidLive, OpensTo};
ghost use Rattle.job_files.specs.Jobs.{Creates, Refuses, Audits, HasFault, IsPassing, IsAuditStatus};
ghost use Rattle.job_files.specs.Reads.{ReadsOnce, each_page};
ghost use Rattle.job_files.specs.Lines.{unopened_text, rejected_text, sound_text};
ghost use Rattle.metric_mix.specs.MixKinds.{mix_kind, mix_dim};

use crate::lines::{
    FAULT_DISK, FAULT_MEMORY, FAULT_NOT_EMPTY, FAULT_VERSION, end_with, put_line, rejected_text,
    sound_text,
};
use disk_model::Disk;
use metric_laws::Meter;
use metric_mix::MixSpace;
use node_page::{Head, HeadFault};
use outside_io::{Sink, Status};
use page_store::{DiskPages, PageFault};
use shadow_root::{CreateFault, OpenFault, create, open};
use std::alloc::Global;
use tree_audit::{AuditFault, Audited, audit};
use tree_shape::Live;

/// Makes an empty index in an empty file, and writes `created`. Status 4: the line could not be written; 5: the disk
/// failed; 6: the file holds something, and is left as it is.
pub fn create_index<D: Disk, K: Sink>(disk: &mut D, head: &Head, out: &mut K) -> Status
    requires valid { IsValidHead head.now }
    requires version { head.now.version ≡ 2 }
    ensures creates { Creates head.now (D.state disk.old) (D.state disk.new) (K.state out.old) (K.state out.new) result.0 }
    ensures statuses { (result.0 ≡ 0) ⊎ ((result.0 ≡ 4) ⊎ ((result.0 ≡ 5) ⊎ (result.0 ≡ 6))) }
    ensures later { (K.state out.old).faults ≤ (K.state out.new).faults }
    ensures rose { result.0 ≡ 4 → Rose (K.state out.old).faults (K.state out.new).faults }
{
    match create(disk, head) {
        Ok(_) => put_line(out, b"created\n", 0),
        Err(CreateFault::NotEmpty) => end_with(out, FAULT_NOT_EMPTY, 6),
        Err(CreateFault::Disk) => end_with(out, FAULT_DISK, 5),
    }
}

// Returns the line of a file that is not opened.
fn unopened_line(fault: OpenFault) -> &'static [u8]
    ensures { result.now ≡ unopened_text fault }
{
    match fault {
        OpenFault::Disk => FAULT_DISK,
        OpenFault::Short => b"fault notindex short\n",
        OpenFault::Head(HeadFault::Magic) => b"fault notindex magic\n",
        OpenFault::Head(HeadFault::Version) => FAULT_VERSION,
        OpenFault::Head(HeadFault::Space) => b"fault notindex space\n",
        OpenFault::Head(HeadFault::Policy) => b"fault notindex policy\n",
        OpenFault::Head(HeadFault::Limit) => b"fault notindex limit\n",
        OpenFault::Head(HeadFault::Tail) => b"fault notindex tail\n",
        OpenFault::Unfinished => b"fault notindex unfinished\n",
        OpenFault::TwoRoots => b"fault notindex tworoots\n",
        OpenFault::Slot => b"fault notindex slot\n",
    }
}

/// Returns the space of `head`.
pub fn space_of(head: &Head) -> MixSpace
    requires { IsValidHead head.now }
    ensures kind { mix_kind result ≡ head.now.kind }
    ensures dim { mix_dim result ≡ head.now.dim }
{
    match MixSpace::new(head.kind, head.dim) {
        Ok(space) => space,
        Err(_) => unreachable!(),
    }
}

/// Audits the tree of an opened file of version 2. `AuditFault::Page` with `PageFault::Disk` comes where the disk failed.
/// Clauses: what is asked of the caller (`head`, `pages`); the answer (`ok`, `objects`, `nodes`); what stays (`same`); the cost (`reads`);
/// the cause of an error (`err`); faults of the devices (`later`, `no_fault`).
pub fn audit_opened<D: Disk>(
    alloc: Global,
    disk: &mut D,
    head: &Head,
    live: &Live,
) -> Result<Audited, AuditFault>
    requires head { IsValidHead head.now }
    requires pages { live.now.pages ≤ 2 ^ 24 }
    ensures same { IsUnchanged (D.state disk.old) (D.state disk.new) }
    ensures ok { IfOk result (λ a. IsTrue (D.state disk.old).is_known
        → audit_fault (space_of head.now) (reading head.now.dim live.now.pages (D.state disk.old).bytes) live.now ≡ None) }
    ensures objects { IfOk result (λ a. a.objects ≡ live.now.count) }
    ensures nodes { IfOk result (λ a. IsTrue (D.state disk.old).is_known
        → a.nodes ≡ length (pages_at (nodes_of (reading head.now.dim live.now.pages (D.state disk.old).bytes))
        live.now.height live.now.root)) }
    ensures err { IfErr result (HasFault (D.state disk.old) (D.state disk.new).faults
        (audit_fault (space_of head.now) (reading head.now.dim live.now.pages (D.state disk.old).bytes) live.now)) }
    ensures later { (D.state disk.old).faults ≤ (D.state disk.new).faults }
    ensures no_fault { OnOk result ((D.state disk.new).faults ≡ (D.state disk.old).faults) }
    // Whatever the result, each page is read once at the most.
    ensures reads { (D.state disk.new).reads ≤ (D.state disk.old).reads + max 1 live.now.pages }
{
    let mut pages = DiskPages::new(disk, head.dim, live.pages);
    let mut ruler = Meter::new(space_of(head));
    audit(alloc, &mut pages, &mut ruler, head.dim, live)
}

/// Ends an audit with the line of `fault`: status 1 where the index is rejected, 5 or 8 where the audit could not go on.
pub fn end_rejected<K: Sink>(alloc: Global, fault: AuditFault, out: &mut K) -> Status
    ensures rejected { result.0 ≡ 1 → Appends (K.state out.old).written (K.state out.new).written (rejected_text fault) }
    ensures part { result.0 ≡ 4 → AppendsPrefix (K.state out.old).written (K.state out.new).written (rejected_text fault) }
    ensures kind { (result.0 ≡ 1) ⊎ (result.0 ≡ 4) → IsPassing fault → ⊥ }
    ensures disk { result.0 ≡ 5 → (fault ≡ AuditFault.Page PageFault.Disk)
        × Tells (K.state out.old) (K.state out.new) (codes "fault disk\n") }
    ensures memory { result.0 ≡ 8 → Tells (K.state out.old) (K.state out.new) (codes "fault memory\n") }
    ensures statuses { (result.0 ≡ 1) ⊎ ((result.0 ≡ 4) ⊎ ((result.0 ≡ 5) ⊎ (result.0 ≡ 8))) }
    ensures later { (K.state out.old).faults ≤ (K.state out.new).faults }
    ensures rose { result.0 ≡ 4 → Rose (K.state out.old).faults (K.state out.new).faults }
{
    match fault {
        AuditFault::Page(PageFault::Disk) => end_with(out, FAULT_DISK, 5),
        AuditFault::Memory => end_with(out, FAULT_MEMORY, 8),
        fault => match rejected_text(alloc, fault) {
            Ok(text) => put_line(out, &text, 1),
            Err(_) => end_with(out, FAULT_MEMORY, 8),
        },
    }
}

/// Ends with the line of a file that is not opened: status 5 where the disk failed, and else 6.
pub fn end_unopened<K: Sink>(fault: OpenFault, out: &mut K) -> Status
    ensures disk { result.0 ≡ 5 → fault ≡ OpenFault.Disk }
    ensures index { result.0 ≡ 6 → fault ≢ OpenFault.Disk }
    ensures line { Tells (K.state out.old) (K.state out.new) (unopened_text fault) }
    ensures statuses { (result.0 ≡ 5) ⊎ (result.0 ≡ 6) }
    ensures later { (K.state out.old).faults ≤ (K.state out.new).faults }
{
    let line = unopened_line(fault);
    if fault == OpenFault::Disk {
        return end_with(out, line, 5);
    }
    end_with(out, line, 6)
}

/// Ends an audit of a sound index.
pub fn end_sound<K: Sink>(alloc: Global, audited: &Audited, out: &mut K) -> Status
    ensures sound { result.0 ≡ 0 → Appends (K.state out.old).written (K.state out.new).written
        (sound_text audited.now.objects audited.now.nodes) }
    ensures part { result.0 ≡ 4 → AppendsPrefix (K.state out.old).written (K.state out.new).written
        (sound_text audited.now.objects audited.now.nodes) }
    ensures memory { result.0 ≡ 8 → Tells (K.state out.old) (K.state out.new) (codes "fault memory\n") }
    ensures statuses { (result.0 ≡ 0) ⊎ ((result.0 ≡ 4) ⊎ (result.0 ≡ 8)) }
    ensures later { (K.state out.old).faults ≤ (K.state out.new).faults }
    ensures rose { result.0 ≡ 4 → Rose (K.state out.old).faults (K.state out.new).faults }
{
    match sound_text(alloc, audited) {
        Ok(text) => put_line(out, &text, 0),
        Err(_) => end_with(out, FAULT_MEMORY, 8),
    }
}

/// Opens an index of version 2. Otherwise writes why the file is none, and returns the status: 5 where the disk failed, and 6
/// where the file is no index of version 2. Nothing is changed.
/// Clauses: the answer (`opens`, `version`, `head`, `side`, `live`, `some`, `pages`, `height`); what stays (`same`, `silent`); the cost
/// (`reads`); the cause of an error (`refuses`); faults of the devices (`later`, `no_fault`, `written_later`).
pub fn open_index<D: Disk, K: Sink>(disk: &mut D, out: &mut K) -> Result<(Head, Live), Status>
    ensures same { IsUnchanged (D.state disk.old) (D.state disk.new) }
    ensures opens { IfOk result (λ opened. IsTrue (D.state disk.old).is_known → OpensTo (D.state disk.old).bytes opened.0 opened.1) }
    ensures version { IfOk result (λ opened. opened.0.version ≡ 2) }
    // The head and the live slot are valid also where the disk does not tell its bytes.
    ensures head { IfOk result (λ opened. IsValidHead opened.0) }
    ensures side { IfOk result (λ opened. opened.1.side ≤ 1) }
    ensures live { IfOk result (λ opened. (size : ℕ) × IsValidLive opened.0.limit size opened.1) }
    ensures some { IfOk result (λ opened. 4 ≤ opened.1.pages) }
    ensures pages { IfOk result (λ opened. opened.1.pages ≤ 2 ^ 24) }
    ensures height { IfOk result (λ opened. opened.1.height ≤ 14) }
    ensures silent { OnOk result (out.new ≡ out.old) }
    ensures refuses { IfErr result (λ status. Refuses (D.state disk.old) (D.state disk.new) (K.state out.old) (K.state out.new) status.0) }
    ensures reads { (D.state disk.new).reads ≤ (D.state disk.old).reads + 3 }
    ensures later { (D.state disk.old).faults ≤ (D.state disk.new).faults }
    ensures no_fault { OnOk result ((D.state disk.new).faults ≡ (D.state disk.old).faults) }
    ensures written_later { (K.state out.old).faults ≤ (K.state out.new).faults }
{
    match open(disk) {
        Ok((head, live)) => {
            if head.version != 2 {
                return Err(end_with(out, FAULT_VERSION, 6));
            }
            Ok((head, live))
        }
        Err(fault) => Err(end_unopened(fault, out)),
    }
}

/// Audits an index, and writes `sound` with the numbers of its objects and nodes, or `rejected` with its first fault and
/// status 1. Status 4: the lines could not be written; 5: the disk failed; 6: the file is no index of version 2; 8: out of
/// memory. Nothing is changed.
pub fn audit_index<D: Disk, K: Sink>(alloc: Global, disk: &mut D, out: &mut K) -> Status
    ensures audits { Audits (D.state disk.old) (D.state disk.new) (K.state out.old) (K.state out.new) result.0 }
    ensures statuses { IsAuditStatus result.0 }
    ensures reads { ReadsOnce each_page (D.state disk.old) (D.state disk.new) }
    ensures later { (K.state out.old).faults ≤ (K.state out.new).faults }
    ensures rose { result.0 ≡ 4 → Rose (K.state out.old).faults (K.state out.new).faults }
{
    let (head, live) = match open_index(disk, out) {
        Ok(opened) => opened,
        Err(status) => return status,
    };
    match audit_opened(alloc, disk, &head, &live) {
        Ok(audited) => end_sound(alloc, &audited, out),
        Err(fault) => end_rejected(alloc, fault, out),
    }
}
