// Which of the two slots is live.
ghost use Rattle.std.specs.Prelude.{◌≡◌, ◌+◌, ◌≤◌, ◌==◌, ◌&&◌, ℕ, List, false, length, IsTrue, OnOk, IfOk, IfErr, Ok};
ghost use Rattle.disk_model.specs.Disk.{IsUnchanged};
ghost use Rattle.node_page.specs.Bytes.{number_at};
ghost use Rattle.node_page.specs.Heads.{IsValidHead, SpellsHead};
ghost use Rattle.node_page.specs.Slots.{SpellsSlot, slot_of};
ghost use Rattle.node_page.specs.Opening.{page_of, IsValidLive, OpensTo, is_valid_live, is_clear, live_at, slot_fault};
ghost use Rattle.node_page.specs.declared.slot.Slot.{Slot};
ghost use Rattle.tree_shape.specs.declared.live.Live.{Live as TheLive};
ghost use Rattle.shadow_root.specs.Opening.{HasOpenCause, told_as, side_of, number_of, HasSlots, IsLiveSlot, LeadsTo, IsSlotFault, IsOf, HasSlotCause, HasHeadCause};

use crate::OpenFault;
use disk_model::Disk;
use node_page::{Gate, Head, decode_head, decode_slot, is_valid_live, live_at, read_gate};
use page_store::read_page;
use tree_shape::Live;

/// The size of the head and the two slots, in bytes.
const LEAST_SIZE: u64 = 12_288;

// The side of a slot.
enum Side {
    First,
    Second,
}

// Returns the side of the live slot.
fn live_side(first: &Gate, second: &Gate) -> Result<Side, OpenFault>
    ensures { result ≡ side_of first.now.open second.now.open first.now.generation second.now.generation }
{
    if !first.open && !second.open {
        return Err(OpenFault::Unfinished);
    }
    if first.open && second.open && first.generation == second.generation {
        return Err(OpenFault::TwoRoots);
    }
    if first.open && (!second.open || second.generation < first.generation) {
        return Ok(Side::First);
    }
    Ok(Side::Second)
}

// Reads the live tree of the slot on `page`, which is open.
fn live_in(page: &[u8; 4096], side: u8, limit: u32, size: u64) -> Result<Live, OpenFault>
    ensures spelled { IfOk result (λ live. (slot : Slot) × SpellsSlot page.now slot × (live ≡ live_at side slot)) }
    ensures valid { IfOk result (IsValidLive limit size) }
    ensures only { (slot : Slot) → SpellsSlot page.now slot → IsValidLive limit size (live_at side slot) → result ≡ Ok (live_at side slot) }
    ensures fault { IfErr result (λ fault. (fault ≡ OpenFault.Slot)
        × ((is_clear page.now && is_valid_live limit size (live_at side (slot_of page.now))) ≡ false)) }
{
    let slot = match decode_slot(page) {
        Some(slot) => slot,
        None => return Err(OpenFault::Slot),
    };
    let live = live_at(side, &slot);
    if !is_valid_live(limit, size, &live) {
        return Err(OpenFault::Slot);
    }
    Ok(live)
}

/// Returns the live tree of a file of `size` bytes with the slots `first` and `second`, whose head has the limit `limit`. The refusals
/// are `Unfinished`, `TwoRoots` and `Slot`, the first one in this order.
pub fn live_of(
    first: &[u8; 4096],
    second: &[u8; 4096],
    limit: u32,
    size: u64,
) -> Result<Live, OpenFault>
    ensures live { IfOk result (IsLiveSlot first.now second.now limit size) }
    ensures only { (live : TheLive) → IsLiveSlot first.now second.now limit size live → result ≡ Ok live }
    ensures valid { IfOk result (IsValidLive limit size) }
    ensures side { IfOk result (λ live. live.side ≤ 1) }
    ensures ok { IfOk result (λ live. (file : List ℕ) → HasSlots first.now second.now limit size file → LeadsTo limit size live file) }
    ensures kind { IfErr result IsSlotFault }
    ensures fault { IfErr result (λ fault. (file : List ℕ) → HasSlots first.now second.now limit size file →
        slot_fault file ≡ told_as fault) }
{
    match live_side(&read_gate(first), &read_gate(second)) {
        Err(fault) => Err(fault),
        Ok(Side::First) => live_in(first, 0, limit, size),
        Ok(Side::Second) => live_in(second, 1, limit, size),
    }
}

// Reads the live tree of a file of `size` bytes whose head has the limit `limit`.
fn read_live<D: Disk>(disk: &mut D, limit: u32, size: u64) -> Result<Live, OpenFault>
    ensures valid { IfOk result (IsValidLive limit size) }
    ensures side { IfOk result (λ live. live.side ≤ 1) }
    ensures ok { IfOk result (λ live. IsTrue (D.state disk.old).is_known → IsOf limit size (D.state disk.old).bytes →
        LeadsTo limit size live (D.state disk.old).bytes) }
    ensures fault { IfErr result (HasSlotCause limit size (D.state disk.old) (D.state disk.new)) }
    ensures same { IsUnchanged (D.state disk.old) (D.state disk.new) }
    ensures reads { (D.state disk.new).reads ≤ (D.state disk.old).reads + 2 }
    ensures later { (D.state disk.old).faults ≤ (D.state disk.new).faults }
    ensures no_fault { OnOk result ((D.state disk.new).faults ≡ (D.state disk.old).faults) }
{
    let mut first = [0; 4096];
    if read_page(disk, 1, &mut first).is_err() {
        return Err(OpenFault::Disk);
    }
    let mut second = [0; 4096];
    if read_page(disk, 2, &mut second).is_err() {
        return Err(OpenFault::Disk);
    }
    live_of(&first, &second, limit, size)
}

// Reads the head of a file.
fn read_head<D: Disk>(disk: &mut D) -> Result<Head, OpenFault>
    ensures valid { IfOk result IsValidHead }
    ensures ok { IfOk result (λ head. IsTrue (D.state disk.old).is_known → SpellsHead (page_of (D.state disk.old).bytes 0) head) }
    ensures fault { IfErr result (HasHeadCause (D.state disk.old) (D.state disk.new)) }
    ensures same { IsUnchanged (D.state disk.old) (D.state disk.new) }
    ensures reads { (D.state disk.new).reads ≤ (D.state disk.old).reads + 1 }
    ensures later { (D.state disk.old).faults ≤ (D.state disk.new).faults }
    ensures no_fault { OnOk result ((D.state disk.new).faults ≡ (D.state disk.old).faults) }
{
    let mut page = [0; 4096];
    if read_page(disk, 0, &mut page).is_err() {
        return Err(OpenFault::Disk);
    }
    match decode_head(&page) {
        Ok(head) => Ok(head),
        Err(fault) => Err(OpenFault::Head(fault)),
    }
}

/// Reads the head of an index file and its live tree. Returns the first fault in the order of `OpenFault`; `Disk` comes only
/// where the disk failed. The head may be of version 1 or 2. Nothing is written, and at most three pages are read.
pub fn open<D: Disk>(disk: &mut D) -> Result<(Head, Live), OpenFault>
    ensures ok { IfOk result (λ opened. IsTrue (D.state disk.old).is_known → OpensTo (D.state disk.old).bytes opened.0 opened.1) }
    // The head is valid also where the disk does not tell its bytes.
    ensures head { IfOk result (λ opened. IsValidHead opened.0) }
    ensures live { IfOk result (λ opened. (opened.1.side ≤ 1) × ((size : ℕ) × IsValidLive opened.0.limit size opened.1)) }
    ensures fault { IfErr result (HasOpenCause (D.state disk.old) (D.state disk.new)) }
    ensures same { IsUnchanged (D.state disk.old) (D.state disk.new) }
    ensures reads { (D.state disk.new).reads ≤ (D.state disk.old).reads + 3 }
    ensures later { (D.state disk.old).faults ≤ (D.state disk.new).faults }
    ensures no_fault { OnOk result ((D.state disk.new).faults ≡ (D.state disk.old).faults) }
{
    let size = match disk.size() {
        Ok(size) => size,
        Err(_) => return Err(OpenFault::Disk),
    };
    if size < LEAST_SIZE {
        return Err(OpenFault::Short);
    }
    let head = match read_head(disk) {
        Ok(head) => head,
        Err(fault) => return Err(fault),
    };
    match read_live(disk, head.limit, size) {
        Ok(live) => Ok((head, live)),
        Err(fault) => Err(fault),
    }
}
