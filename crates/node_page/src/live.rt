// The live tree that a slot tells of.
ghost use Rattle.std.specs.Prelude.{◌≡◌, ◌↔◌, IsTrue};
ghost use Rattle.node_page.specs.Opening.{IsValidLive, is_valid_live, live_at};

use crate::slot::Slot;
use tree_shape::{LAST_GENERATION, Live, MOST_PAGES};

/// Makes the live tree of a slot on `side`, 0 or 1.
pub fn live_at(side: u8, slot: &Slot) -> Live
    ensures { result ≡ live_at side slot.now }
{
    Live {
        side,
        generation: slot.generation,
        root: slot.root,
        height: slot.height,
        count: slot.count,
        pages: slot.pages,
    }
}

/// Returns whether `live` keeps the bounds of a file of `size` bytes whose head has the limit `limit`.
#[tactic(auto, unfolding(crate::specs::Opening::is_valid_live), using(crate::proofs::Opened::valid_by_test, crate::proofs::Opened::test_by_valid))]
pub fn is_valid_live(limit: u32, size: u64, live: &Live) -> bool
    ensures value { result ≡ is_valid_live limit size live.now }
    ensures bounds { IsTrue result ↔ IsValidLive limit size live.now }
{
    live.generation >= 1
        && live.generation <= LAST_GENERATION
        && live.root >= 3
        && live.root < live.pages
        && live.height <= 14
        && live.count <= limit
        && live.pages >= 4
        && live.pages <= MOST_PAGES
        && u64::from(live.pages) * 4096 <= size
}
