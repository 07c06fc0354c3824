// A commit in three steps, each ended by a sync: write the new nodes, and close the other slot's gate; write the other slot's body;
// open that slot's gate.
ghost use Rattle.std.specs.Prelude.{◌≡◌, ◌≢◌, ◌+◌, ◌*◌, ◌-◌, ◌^◌, ◌<◌, ◌≤◌, ℕ, length, slice_index, IsTrue, OnOk};
ghost use Rattle.outside_io.specs.Causes.{HasCause};
ghost use Rattle.disk_model.specs.Disk.{LeavesOnly, EachImage, Torn, Written};
ghost use Rattle.node_page.specs.Nodes.{IsValidNode};
ghost use Rattle.node_page.specs.Opening.{slot_of_live};
ghost use Rattle.page_store.specs.declared.staging.StagedNode.{StagedNode};
ghost use Rattle.shadow_root.specs.Live.{IsSuccessor};
ghost use Rattle.shadow_root.specs.Commit.{IsStagedAs, IsInPlace, HasNext, IsBeforeOrAfter, IsStagedFor, IsReady, IsRewritten, IsFromRewritten, IsFromClosed, IsKept, IsStaged};

use disk_model::{Disk, Failed};
use node_page::{Slot, encode_node, encode_slot};
use page_store::Staged;
use tree_shape::{Live, PAGE};

/// The byte of an open gate. Every other byte is a closed one.
pub const OPEN: u8 = 0xa5;

// Writes each staged node to its page.
// Clauses: what is asked of the caller (`some`, `few`, `below`, `valid`); what is left on the disk (`bytes`, `in_place`, `long`); what a
// crash may leave (`images`); what stays (`is_known`); the cost (`reads`); the cause of an error (`cause`).
fn write_nodes<D: Disk>(disk: &mut D, dim: u8, staged: &Staged) -> Result<(), Failed>
    requires some { 1 ≤ dim }
    requires few { dim ≤ 64 }
    requires below { (k : ℕ) (s : StagedNode) → IsStagedAs staged.now k s → s.page < 2 ^ 24 }
    requires valid { (k : ℕ) (s : StagedNode) → IsStagedAs staged.now k s → IsValidNode dim s.node }
    ensures images { EachImage (D.state disk.old) (D.state disk.new) (IsFromRewritten staged.now (D.state disk.old)) }
    ensures bytes { IsTrue (D.state disk.old).is_known → IsRewritten staged.now (D.state disk.old).bytes (D.state disk.new).bytes }
    ensures in_place { OnOk result (IsTrue (D.state disk.old).is_known → IsInPlace dim staged.now (D.state disk.new).bytes) }
    ensures long { OnOk result (IsTrue (D.state disk.old).is_known
        → (k : ℕ) (s : StagedNode) → IsStagedAs staged.now k s → 4096 * s.page + 4096 ≤ length (D.state disk.new).bytes) }
    ensures is_known { (D.state disk.new).is_known ≡ (D.state disk.old).is_known }
    ensures reads { (D.state disk.new).reads ≡ (D.state disk.old).reads }
    ensures cause { HasCause (D.state disk.old).faults (D.state disk.new).faults result }
{
    let mut page = [0; 4096];
    for i in 0..staged.len() {
        let new = staged.at(i);
        encode_node(&new.node, dim, &mut page);
        disk.write_at(PAGE * u64::from(new.page), &page)?;
    }
    Ok(())
}

// Closes a gate that reads open. One that reads closed is not written again.
fn close_gate<D: Disk>(disk: &mut D, gate: u64) -> Result<(), Failed>
    requires { gate < 2 ^ 37 }
    ensures images { EachImage (D.state disk.old) (D.state disk.new) (IsFromClosed gate (D.state disk.old)) }
    ensures bytes { IsTrue (D.state disk.old).is_known → Torn gate 1 (D.state disk.old).bytes (D.state disk.new).bytes }
    ensures closed { OnOk result (IsTrue (D.state disk.old).is_known → slice_index (D.state disk.new).bytes gate ≢ 165) }
    ensures is_known { (D.state disk.new).is_known ≡ (D.state disk.old).is_known }
    ensures reads { (D.state disk.new).reads ≤ (D.state disk.old).reads + 1 }
    ensures cause { HasCause (D.state disk.old).faults (D.state disk.new).faults result }
{
    let mut byte = [0];
    disk.read_at(gate, &mut byte)?;
    if byte[0] != OPEN {
        return Ok(());
    }
    disk.write_at(gate, &[0])
}

// Writes the nodes beside the live tree and closes the other gate, all of it on the disk.
// Clauses: what is asked of the caller (`some`, `few`, `successor`, `staged`, `ready`); what is left on the disk (`staged`); what a crash
// may leave (`images`, `only`); what stays (`is_known`); the cost (`reads`); the cause of an error (`cause`).
fn stage<D: Disk>(
    disk: &mut D,
    dim: u8,
    live: &Live,
    next: &Live,
    staged: &Staged,
) -> Result<(), Failed>
    requires some { 1 ≤ dim }
    requires few { dim ≤ 64 }
    requires successor { IsSuccessor live.now next.now }
    requires staged { IsStagedFor dim live.now next.now staged.now }
    requires ready { IsTrue (D.state disk.old).is_known → IsReady dim live.now next.now staged.now (D.state disk.old) }
    ensures images { IsTrue (D.state disk.old).is_known → EachImage (D.state disk.old) (D.state disk.new)
        (IsKept dim live.now staged.now (D.state disk.old)) }
    ensures only { OnOk result (LeavesOnly (D.state disk.new) (D.state disk.new).bytes) }
    ensures staged { OnOk result (IsTrue (D.state disk.old).is_known
        → IsStaged dim live.now next.now staged.now (D.state disk.old) (D.state disk.new).bytes) }
    ensures is_known { (D.state disk.new).is_known ≡ (D.state disk.old).is_known }
    ensures reads { (D.state disk.new).reads ≤ (D.state disk.old).reads + 1 }
    ensures cause { HasCause (D.state disk.old).faults (D.state disk.new).faults result }
{
    let _ = live;
    write_nodes(disk, dim, staged)?;
    close_gate(disk, gate_of(next))?;
    disk.sync()
}

// Returns the place of the gate of the slot of `live`.
pub fn gate_of(live: &Live) -> u64
    requires { live.now.side ≤ 1 }
    ensures { result ≡ 4096 * (1 + live.now.side) }
{
    PAGE * (1 + u64::from(live.side))
}

// Makes the slot of a live tree.
pub fn slot_of(live: &Live) -> Slot
    ensures { result ≡ slot_of_live live.now }
{
    Slot {
        gate: true,
        generation: live.generation,
        root: live.root,
        height: live.height,
        count: live.count,
        pages: live.pages,
    }
}

// Writes `bytes` at `at`, and syncs before it returns `Ok`.
pub fn write_through<D: Disk>(disk: &mut D, at: u64, bytes: &[u8]) -> Result<(), Failed>
    requires range { at + length bytes.now ≤ 2 ^ 37 }
    requires only { LeavesOnly (D.state disk.old) (D.state disk.old).bytes }
    ensures images { EachImage (D.state disk.old) (D.state disk.new) (Torn at (length bytes.now) (D.state disk.old).bytes) }
    ensures only { OnOk result (LeavesOnly (D.state disk.new) (D.state disk.new).bytes) }
    ensures written { OnOk result (IsTrue (D.state disk.old).is_known →
        Written at bytes.now (D.state disk.old).bytes (D.state disk.new).bytes) }
    ensures is_known { (D.state disk.new).is_known ≡ (D.state disk.old).is_known }
    ensures reads { (D.state disk.new).reads ≡ (D.state disk.old).reads }
    ensures cause { HasCause (D.state disk.old).faults (D.state disk.new).faults result }
{
    disk.write_at(at, bytes)?;
    disk.sync()
}

/// Makes `next` the live tree of a file of version 2 over points of `dim` coordinates. Its new nodes are staged beside the live
/// tree `live`. The opening of one gate byte changes the live slot: a crash at any moment leaves the one tree or the other.
/// `Failed` comes only where the disk failed; then the file has to be opened anew.
/// Clauses: what is asked of the caller (`some`, `few`, `successor`, `staged`, `ready`); what is left on the disk (`done`); what a crash
/// may leave (`any_moment`, `only`); what stays (`is_known`); the cost (`reads`); the cause of an error (`cause`).
pub fn commit<D: Disk>(
    disk: &mut D,
    dim: u8,
    live: &Live,
    next: &Live,
    staged: &Staged,
) -> Result<(), Failed>
    requires some { 1 ≤ dim }
    requires few { dim ≤ 64 }
    requires successor { IsSuccessor live.now next.now }
    requires staged { IsStagedFor dim live.now next.now staged.now }
    requires ready { IsTrue (D.state disk.old).is_known → IsReady dim live.now next.now staged.now (D.state disk.old) }

    // At every moment since the call began each image has what stood before, or what stands after.
    ensures any_moment { IsTrue (D.state disk.old).is_known
        → EachImage (D.state disk.old) (D.state disk.new) (IsBeforeOrAfter dim live.now next.now staged.now (D.state disk.old)) }
    // After `Ok` a crash leaves what a read gives, and that has the next tree.
    ensures only { OnOk result (LeavesOnly (D.state disk.new) (D.state disk.new).bytes) }
    ensures done { OnOk result (IsTrue (D.state disk.old).is_known → HasNext dim next.now staged.now (D.state disk.new).bytes) }

    ensures is_known { (D.state disk.new).is_known ≡ (D.state disk.old).is_known }
    ensures reads { (D.state disk.new).reads ≤ (D.state disk.old).reads + 1 }
    ensures cause { HasCause (D.state disk.old).faults (D.state disk.new).faults result }
{
    let mut page = [0; 4096];
    encode_slot(&slot_of(next), &mut page);
    stage(disk, dim, live, next, staged)?;
    write_through(disk, gate_of(next) + 1, &page[1..])?;
    write_through(disk, gate_of(next), &[OPEN])
}
