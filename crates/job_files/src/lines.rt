ghost use Rattle.std.specs.Prelude.{◌≡◌, ◌≢◌, ◌⊎◌, ◌++◌, ◌≤◌, OnOk, IfOk, codes};
ghost use Rattle.std.specs.Io.KnownBytes.{Appends};
ghost use Rattle.outside_io.specs.Bytes.{AppendsPrefix};
ghost use Rattle.outside_io.specs.Causes.{Rose};
ghost use Rattle.outside_io.specs.Sinks.{Tells};
ghost use Rattle.job_files.specs.Lines.{audit_fault_text, damaged_text, sound_text, rejected_text};

use fault_lines::{push_numbered, push_page_fault};
use outside_io::{ReadAll, Sink, Status};
use page_store::PageFault;
use std::alloc::{AllocError, Global};
use tree_audit::{AuditFault, Audited};

/// The line of an input that could not be read.
pub const FAULT_INPUT: &[u8] = b"fault input\n";

/// The line of an input, or an index, that is too long.
pub const FAULT_LONG: &[u8] = b"fault long\n";

/// The line when memory runs out.
pub const FAULT_MEMORY: &[u8] = b"fault memory\n";

/// The line of a disk that failed.
pub const FAULT_DISK: &[u8] = b"fault disk\n";

/// The line of a file of another version.
pub const FAULT_VERSION: &[u8] = b"fault notindex version\n";

/// The line of a file that is to be made anew but is not empty.
pub const FAULT_NOT_EMPTY: &[u8] = b"fault notindex notempty\n";

/// Writes `line` and ends with `status`. Only where the output fails the line is cut short.
pub fn end_with<K: Sink>(out: &mut K, line: &[u8], status: u8) -> Status
    ensures status { result.0 ≡ status }
    ensures line { Tells (K.state out.old) (K.state out.new) line.now }
    ensures later { (K.state out.old).faults ≤ (K.state out.new).faults }
{
    let _ = out.put(line);
    Status(status)
}

/// Ends a job whose input was not read for the reason `why`: status 3 where it could not be read, 7 where it is too long, and 8 where
/// memory ran out.
pub fn end_unread<K: Sink>(why: ReadAll, out: &mut K) -> Status
    ensures input { result.0 ≡ 3 → (why ≡ ReadAll.Fault) × Tells (K.state out.old) (K.state out.new) (codes "fault input\n") }
    ensures long { result.0 ≡ 7 → (why ≡ ReadAll.TooLong) × Tells (K.state out.old) (K.state out.new) (codes "fault long\n") }
    ensures memory { result.0 ≡ 8 → (why ≡ ReadAll.Memory) × Tells (K.state out.old) (K.state out.new) (codes "fault memory\n") }
    ensures statuses { (result.0 ≡ 3) ⊎ ((result.0 ≡ 7) ⊎ (result.0 ≡ 8)) }
    ensures later { (K.state out.old).faults ≤ (K.state out.new).faults }
{
    match why {
        ReadAll::Fault => end_with(out, FAULT_INPUT, 3),
        ReadAll::TooLong => end_with(out, FAULT_LONG, 7),
        ReadAll::Memory => end_with(out, FAULT_MEMORY, 8),
    }
}

/// Puts `line`, and ends with `status`, or with status 4 where it can't be written.
pub fn put_line<K: Sink>(out: &mut K, line: &[u8], status: u8) -> Status
    requires { status ≢ 4 }
    ensures statuses { (result.0 ≡ status) ⊎ (result.0 ≡ 4) }
    ensures done { result.0 ≡ status → Appends (K.state out.old).written (K.state out.new).written line.now }
    ensures part { result.0 ≡ 4 → AppendsPrefix (K.state out.old).written (K.state out.new).written line.now }
    ensures later { (K.state out.old).faults ≤ (K.state out.new).faults }
    ensures rose { result.0 ≡ 4 → Rose (K.state out.old).faults (K.state out.new).faults }
{
    match out.put(line) {
        Ok(()) => Status(status),
        Err(_) => Status(4),
    }
}

/// Returns the line of a file with a page that gave no node.
pub fn damaged_text(alloc: Global, fault: PageFault) -> Result<Vec<u8>, AllocError>
    ensures { IfOk result (λ text. text.items ≡ damaged_text fault) }
{
    let mut text = Vec::new(alloc);
    text.extend_from_slice(b"fault damaged ")?;
    push_page_fault(fault, &mut text)?;
    text.extend_from_slice(b"\n")?;
    Ok(text)
}

fn push_audit_fault(fault: AuditFault, out: &mut Vec<u8>) -> Result<(), AllocError>
    ensures { OnOk result (out.new.items ≡ out.old.items ++ audit_fault_text fault) }
{
    match fault {
        AuditFault::Page(fault) => {
            out.extend_from_slice(b"page ")?;
            push_page_fault(fault, out)
        }
        AuditFault::Fill(page) => push_numbered(b"fill ", u64::from(page), out),
        AuditFault::Twice(page) => push_numbered(b"twice ", u64::from(page), out),
        AuditFault::Unfit(page, place) => {
            push_numbered(b"unfit ", u64::from(page), out)?;
            push_numbered(b" ", u64::from(place), out)
        }
        AuditFault::ParentDistance(page, place) => {
            push_numbered(b"parentdistance ", u64::from(page), out)?;
            push_numbered(b" ", u64::from(place), out)
        }
        AuditFault::Radius(page, place, id) => {
            push_numbered(b"radius ", u64::from(page), out)?;
            push_numbered(b" ", u64::from(place), out)?;
            push_numbered(b" ", u64::from(id), out)
        }
        AuditFault::Id(id) => push_numbered(b"id ", u64::from(id), out),
        AuditFault::Count { slot, found } => {
            push_numbered(b"count ", u64::from(slot), out)?;
            push_numbered(b" ", u64::from(found), out)
        }
        AuditFault::Memory => out.extend_from_slice(b"memory"),
    }
}

/// Returns the line of an index that is not sound.
pub fn rejected_text(alloc: Global, fault: AuditFault) -> Result<Vec<u8>, AllocError>
    ensures { IfOk result (λ text. text.items ≡ rejected_text fault) }
{
    let mut text = Vec::new(alloc);
    text.extend_from_slice(b"rejected ")?;
    push_audit_fault(fault, &mut text)?;
    text.extend_from_slice(b"\n")?;
    Ok(text)
}

/// Returns the lines of a sound index.
pub fn sound_text(alloc: Global, audited: &Audited) -> Result<Vec<u8>, AllocError>
    ensures { IfOk result (λ text. text.items ≡ sound_text audited.now.objects audited.now.nodes) }
{
    let mut text = Vec::new(alloc);
    text.extend_from_slice(b"sound\n")?;
    push_numbered(b"objects ", u64::from(audited.objects), &mut text)?;
    push_numbered(b"\nnodes ", u64::from(audited.nodes), &mut text)?;
    text.extend_from_slice(b"\n")?;
    Ok(text)
}
