// A new file: its head, two slots and an empty leaf.
ghost use Rattle.std.specs.Prelude.{◌≡◌, ◌≢◌, ◌+◌, ◌*◌, ◌^◌, ◌<◌, ◌≤◌, false, max, ℕ, length, slice_index, IsTrue, OnOk, IfOk, IfErr};
ghost use Rattle.outside_io.specs.Causes.{HasCause};
ghost use Rattle.disk_model.specs.Disk.{LeavesOnly};
ghost use Rattle.node_page.specs.Heads.{IsValidHead};
ghost use Rattle.node_page.specs.Opening.{page_of};
ghost use Rattle.shadow_root.specs.Making.{first_live, IsBare, IsMade, HasCreateCause};

use crate::CreateFault;
use crate::committing::{OPEN, slot_of, write_through};
use disk_model::{Disk, Failed};
use node_page::{Head, Slot, clear, encode_head, encode_slot};
use tree_shape::{Live, PAGE};

/// The live tree of a new file: an empty leaf on page 3.
const FIRST: Live = Live {
    side: 0,
    generation: 1,
    root: 3,
    height: 0,
    count: 0,
    pages: 4,
};

// Writes a whole page.
fn write_page<D: Disk>(disk: &mut D, number: u32, page: &[u8; 4096]) -> Result<(), Failed>
    requires { number < 2 ^ 24 }
    ensures page { OnOk result (IsTrue (D.state disk.old).is_known → page_of (D.state disk.new).bytes number ≡ page.now) }
    ensures others { OnOk result (IsTrue (D.state disk.old).is_known → (q : ℕ) → q ≢ number →
        page_of (D.state disk.new).bytes q ≡ page_of (D.state disk.old).bytes q) }
    ensures size { OnOk result (IsTrue (D.state disk.old).is_known →
        length (D.state disk.new).bytes ≡ max (length (D.state disk.old).bytes) (4096 * number + 4096)) }
    ensures is_known { (D.state disk.new).is_known ≡ (D.state disk.old).is_known }
    ensures reads { (D.state disk.new).reads ≡ (D.state disk.old).reads }
    ensures cause { HasCause (D.state disk.old).faults (D.state disk.new).faults result }
{
    disk.write_at(PAGE * u64::from(number), page)
}

// Writes the head, a closed slot, a slot of zeros and a page of zeros, which is an empty leaf.
// Clauses: what is left on the disk (`head`, `slot`, `other`, `leaf`, `size`); what a crash may leave (`only`); what stays (`is_known`);
// the cost (`reads`); the cause of an error (`cause`).
fn lay_out<D: Disk>(
    disk: &mut D,
    head: &[u8; 4096],
    slot: &[u8; 4096],
    zeros: &[u8; 4096],
) -> Result<(), Failed>
    ensures head { OnOk result (IsTrue (D.state disk.old).is_known → page_of (D.state disk.new).bytes 0 ≡ head.now) }
    ensures slot { OnOk result (IsTrue (D.state disk.old).is_known → page_of (D.state disk.new).bytes 1 ≡ slot.now) }
    ensures other { OnOk result (IsTrue (D.state disk.old).is_known → page_of (D.state disk.new).bytes 2 ≡ zeros.now) }
    ensures leaf { OnOk result (IsTrue (D.state disk.old).is_known → page_of (D.state disk.new).bytes 3 ≡ zeros.now) }
    ensures size { OnOk result (IsTrue (D.state disk.old).is_known →
        length (D.state disk.new).bytes ≡ max (length (D.state disk.old).bytes) 16384) }
    ensures only { OnOk result (LeavesOnly (D.state disk.new) (D.state disk.new).bytes) }
    ensures is_known { (D.state disk.new).is_known ≡ (D.state disk.old).is_known }
    ensures reads { (D.state disk.new).reads ≡ (D.state disk.old).reads }
    ensures cause { HasCause (D.state disk.old).faults (D.state disk.new).faults result }
{
    write_page(disk, 0, head)?;
    write_page(disk, 1, slot)?;
    write_page(disk, 2, zeros)?;
    write_page(disk, 3, zeros)?;
    disk.sync()
}

// Writes the head and the closed slot of a new file, and its empty leaf; then opens the gate.
fn make<D: Disk>(disk: &mut D, head: &Head) -> Result<(), Failed>
    requires valid { IsValidHead head.now }
    requires version { head.now.version ≡ 2 }
    ensures made { OnOk result (IsTrue (D.state disk.old).is_known → IsMade head.now (D.state disk.new).bytes) }
    ensures bare { OnOk result (IsTrue (D.state disk.old).is_known → length (D.state disk.old).bytes ≡ 0 →
        IsBare (D.state disk.new).bytes) }
    ensures only { OnOk result (LeavesOnly (D.state disk.new) (D.state disk.new).bytes) }
    ensures is_known { (D.state disk.new).is_known ≡ (D.state disk.old).is_known }
    ensures reads { (D.state disk.new).reads ≡ (D.state disk.old).reads }
    ensures cause { HasCause (D.state disk.old).faults (D.state disk.new).faults result }
{
    let mut first = [0; 4096];
    encode_head(head, &mut first);
    let mut slot = [0; 4096];
    encode_slot(&closed_slot(), &mut slot);
    let mut zeros = [0; 4096];
    clear(&mut zeros);
    lay_out(disk, &first, &slot, &zeros)?;
    write_through(disk, PAGE, &[OPEN])
}

// Returns the slot of a new file before its gate is opened.
fn closed_slot() -> Slot
    ensures { result ≡ record { gate = false; generation = 1; root = 3; height = 0; count = 0; pages = 4 } }
{
    Slot {
        gate: false,
        ..slot_of(&FIRST)
    }
}

/// Makes an empty index in an empty file, and returns its live tree. `NotEmpty` comes exactly where the file's size isn't 0;
/// the file is then left as it is. `Disk` comes only where the disk failed, and then nothing is known of the file. The head's
/// fields are valid and its version is 2.
/// Clauses: what is asked of the caller (`valid`, `version`); the answer (`live`); when it succeeds (`empty`); what is left on the disk
/// (`made`, `bare`); what a crash may leave (`only`); what stays (`is_known`); the cost (`reads`); the cause of an error (`fault`); faults
/// of the devices (`later`, `no_fault`).
pub fn create<D: Disk>(disk: &mut D, head: &Head) -> Result<Live, CreateFault>
    requires valid { IsValidHead head.now }
    requires version { head.now.version ≡ 2 }
    ensures live { IfOk result (λ live. live ≡ first_live) }
    // The file was empty, and is a sound empty index now.
    ensures empty { OnOk result (IsTrue (D.state disk.old).is_known → length (D.state disk.old).bytes ≡ 0) }
    ensures made { OnOk result (IsTrue (D.state disk.old).is_known → IsMade head.now (D.state disk.new).bytes) }
    ensures bare { OnOk result (IsTrue (D.state disk.old).is_known → IsBare (D.state disk.new).bytes) }
    // A crash from now on leaves the new file.
    ensures only { OnOk result (LeavesOnly (D.state disk.new) (D.state disk.new).bytes) }
    ensures fault { IfErr result (HasCreateCause (D.state disk.old) (D.state disk.new)) }
    ensures is_known { (D.state disk.new).is_known ≡ (D.state disk.old).is_known }
    ensures reads { (D.state disk.new).reads ≡ (D.state disk.old).reads }
    ensures later { (D.state disk.old).faults ≤ (D.state disk.new).faults }
    ensures no_fault { OnOk result ((D.state disk.new).faults ≡ (D.state disk.old).faults) }
{
    let size = match disk.size() {
        Ok(size) => size,
        Err(_) => return Err(CreateFault::Disk),
    };
    if size != 0 {
        return Err(CreateFault::NotEmpty);
    }
    if make(disk, head).is_err() {
        return Err(CreateFault::Disk);
    }
    Ok(FIRST)
}
