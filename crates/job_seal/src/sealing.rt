// Does the job `seal`.
ghost use Rattle.std.specs.Prelude.{◌≡◌, ◌⊎◌, ◌≤◌, IfOk, codes};
ghost use Rattle.std.specs.Io.KnownBytes.{Appends};
ghost use Rattle.outside_io.specs.Bytes.{AppendsPrefix};
ghost use Rattle.outside_io.specs.Causes.{Rose};
ghost use Rattle.outside_io.specs.Sinks.{Tells};
ghost use Rattle.job_seal.specs.Seals.{EndsSealed, IsSealStatus, Seals, sealed_text};

use crate::opening::open_small;
use disk_model::Disk;
use job_files::{FAULT_DISK, FAULT_MEMORY, audit_opened, end_rejected, end_with, put_line};
use outside_io::{Sink, Status};
use seal_log::{SealFault, seal};
use std::alloc::{AllocError, Global};

// Returns the line of a sealed file.
fn sealed_text(alloc: Global, root: &[u8; 32]) -> Result<Vec<u8>, AllocError>
    ensures { IfOk result (λ text. text.items ≡ sealed_text root.now) }
{
    let digits = hex::encode(alloc, root)?;
    let mut text = Vec::new(alloc);
    text.extend_from_slice(b"sealed ")?;
    text.extend_from_slice(digits.as_bytes())?;
    text.push(b'\n')?;
    Ok(text)
}

// Ends the job with the line of the root digest `root`.
fn end_sealed<K: Sink>(alloc: Global, root: &[u8; 32], out: &mut K) -> Status
    ensures sealed { result.0 ≡ 0 → Appends (K.state out.old).written (K.state out.new).written (sealed_text root.now) }
    ensures part { result.0 ≡ 4 → AppendsPrefix (K.state out.old).written (K.state out.new).written (sealed_text root.now) }
    ensures memory { result.0 ≡ 8 → Tells (K.state out.old) (K.state out.new) (codes "fault memory\n") }
    ensures statuses { (result.0 ≡ 0) ⊎ ((result.0 ≡ 4) ⊎ (result.0 ≡ 8)) }
    ensures later { (K.state out.old).faults ≤ (K.state out.new).faults }
    ensures rose { result.0 ≡ 4 → Rose (K.state out.old).faults (K.state out.new).faults }
{
    match sealed_text(alloc, root) {
        Ok(text) => put_line(out, &text, 0),
        Err(_) => end_with(out, FAULT_MEMORY, 8),
    }
}

// Seals a sound index, and ends the job with its line.
fn seal_sound<D: Disk, K: Sink>(alloc: Global, index: &mut D, pages: u32, out: &mut K) -> Status
    requires some { 4 ≤ pages }
    requires few { pages ≤ 262144 }
    ensures ends { EndsSealed (D.state index.old) (D.state index.new) pages (K.state out.old) (K.state out.new) result.0 }
    ensures later { (D.state index.old).faults ≤ (D.state index.new).faults }
    ensures written_later { (K.state out.old).faults ≤ (K.state out.new).faults }
    ensures rose { result.0 ≡ 4 → Rose (K.state out.old).faults (K.state out.new).faults }
{
    match seal(alloc, index, pages) {
        Ok(tree) => end_sealed(alloc, &tree.root(), out),
        Err(SealFault::Disk) => end_with(out, FAULT_DISK, 5),
        Err(SealFault::Memory) => end_with(out, FAULT_MEMORY, 8),
    }
}

/// Audits an index of at most 262144 pages, and writes `sealed` with its root digest in 64 hexadecimal digits, or `rejected` with
/// its first fault and status 1. Status 4: the line could not be written; 5: the disk failed; 6: the file is no index of version 2;
/// 7: it has more pages; 8: memory ran out. Changes nothing.
pub fn seal_index<D: Disk, K: Sink>(alloc: Global, index: &mut D, out: &mut K) -> Status
    ensures seals { Seals (D.state index.old) (D.state index.new) (K.state out.old) (K.state out.new) result.0 }
    ensures statuses { IsSealStatus result.0 }
    ensures later { (K.state out.old).faults ≤ (K.state out.new).faults }
    ensures rose { result.0 ≡ 4 → Rose (K.state out.old).faults (K.state out.new).faults }
{
    let (head, live) = match open_small(index, out) {
        Ok(opened) => opened,
        Err(status) => return status,
    };
    match audit_opened(alloc, index, &head, &live) {
        Ok(_) => seal_sound(alloc, index, live.pages, out),
        Err(fault) => end_rejected(alloc, fault, out),
    }
}
