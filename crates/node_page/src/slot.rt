ghost use Rattle.std.specs.Prelude.{◌≡◌, ◌↔◌, ◌&&◌, ◌==◌, if◌then◌else◌, IfSome, IsNone, IsTrue, Some, false, slice_index};
ghost use Rattle.node_page.specs.Bytes.{are_zero, number_at};
ghost use Rattle.node_page.specs.Slots.{SpellsSlot, HasSlotRest, slot_of};

use crate::bytes::{are_zero, clear, get_u32, get_u64, put_u8, put_u32, put_u64};

/// One of the two pages that say which tree is live.
#[derive(Clone, Copy, PartialEq, Eq)]
pub struct Slot {
    /// Whether the slot counts.
    pub gate: bool,
    /// The number of commits that made the tree.
    pub generation: u64,
    /// The root's page.
    pub root: u32,
    /// The root's level.
    pub height: u32,
    /// The number of objects.
    pub count: u32,
    /// The number of pages of the file that count.
    pub pages: u32,
}

/// The gate's byte of a slot that counts. Every other byte is a closed gate.
const OPEN: u8 = 0xa5;

// Returns the byte of a gate.
fn gate_byte(gate: bool) -> u8
    ensures { result ≡ (if gate then 165 else 0) }
{
    if gate { OPEN } else { 0 }
}

/// Writes a slot into its page. A closed gate is written as 0.
pub fn encode_slot(slot: &Slot, page: &mut [u8; 4096])
    ensures spells { SpellsSlot page.new slot.now }
    ensures closed { slot.now.gate ≡ false → slice_index page.new 0 ≡ 0 }
{
    clear(page);
    put_u8(page, 0, gate_byte(slot.gate));
    put_u64(page, 8, slot.generation);
    put_u32(page, 16, slot.root);
    put_u32(page, 20, slot.height);
    put_u32(page, 24, slot.count);
    put_u32(page, 28, slot.pages);
}

// Reads the fields of a slot.
#[tactic(auto, unfolding(crate::specs::Slots::slot_of))]
fn fields_of(page: &[u8; 4096]) -> Slot
    ensures { result ≡ slot_of page.now }
{
    Slot {
        gate: page[0] == OPEN,
        generation: get_u64(page, 8),
        root: get_u32(page, 16),
        height: get_u32(page, 20),
        count: get_u32(page, 24),
        pages: get_u32(page, 28),
    }
}

// Returns whether each byte that no field takes is 0.
fn is_clear(page: &[u8; 4096]) -> bool
    ensures { result ≡ (are_zero 1 7 page.now && are_zero 32 4064 page.now) }
{
    are_zero(page, 1, 8) && are_zero(page, 32, 4096)
}

/// Reads a slot from its page. Returns none exactly where a byte that no field takes is not 0.
pub fn decode_slot(page: &[u8; 4096]) -> Option<Slot>
    // The page spells the slot that is read.
    ensures some { IfSome result (λ slot. SpellsSlot page.now slot) }
    // A slot that the page spells is read.
    ensures only { (slot : Slot) → SpellsSlot page.now slot → result ≡ Some slot }
    ensures none { IsNone result ↔ (HasSlotRest page.now → ⊥) }
{
    if !is_clear(page) {
        return None;
    }
    Some(fields_of(page))
}

/// The part of a slot that tells which of the two is live.
#[derive(Clone, Copy, PartialEq, Eq)]
pub struct Gate {
    /// Whether the slot counts.
    pub open: bool,
    /// The number of commits that made its tree.
    pub generation: u64,
}

/// Reads the gate and the generation of a slot, whatever stands in the rest of its page.
pub fn read_gate(page: &[u8; 4096]) -> Gate
    ensures open { result.open ≡ (slice_index page.now 0 == 165) }
    ensures generation { result.generation ≡ number_at 8 8 page.now }
{
    Gate {
        open: page[0] == OPEN,
        generation: get_u64(page, 8),
    }
}
