// The head and the live slot of a carried file.
ghost use Rattle.std.specs.Prelude.{◌≡◌, Some, IfSome, IfOk, IfErr, IsNone};
ghost use Rattle.tree_shape.specs.declared.live.Live.{Live as TheLive};
ghost use Rattle.node_page.specs.Heads.{SpellsHead, head_fault, head_of};
ghost use Rattle.seal_log.specs.Judged.{after_head};
ghost use Rattle.seal_log.specs.Opened.{IsLiveOf};

use crate::ProofFault;
use node_page::{Head, HeadFault, decode_head};
use tree_shape::Live;

// Reads the head on page 0, which has to be of version 2.
pub fn read_head(page: &[u8; 4096]) -> Result<Head, ProofFault>
    ensures spells { IfOk result (SpellsHead page.now) }
    ensures version { IfOk result (λ head. head.version ≡ 2) }
    ensures fault { IfErr result (λ fault. after_head (head_fault page.now) (head_of page.now) ≡ Some fault) }
{
    let head = match decode_head(page) {
        Ok(head) => head,
        Err(fault) => return Err(ProofFault::Head(fault)),
    };
    if head.version != 2 {
        return Err(ProofFault::Head(HeadFault::Version));
    }
    Ok(head)
}

// Returns the live slot of a file of `pages` pages with the slots `first` and `second`, whose head has the limit `limit`. It counts all
// of them.
pub fn live_of(first: &[u8; 4096], second: &[u8; 4096], limit: u32, pages: u32) -> Option<Live>
    ensures some { IfSome result (IsLiveOf first.now second.now limit pages) }
    ensures none { IsNone result → (live : TheLive) → IsLiveOf first.now second.now limit pages live → ⊥ }
{
    let live = match shadow_root::live_of(first, second, limit, 4096 * u64::from(pages)) {
        Ok(live) => live,
        Err(_) => return None,
    };
    if live.pages != pages {
        return None;
    }
    Some(live)
}
