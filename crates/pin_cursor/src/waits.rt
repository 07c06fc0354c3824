ghost use Rattle.std.specs.Prelude.{◌≡◌, ◌↔◌, IsTrue, [], ◌∷◌, IfOk, IfSome, IfNone, IsPermutation};
ghost use Rattle.pin_cursor.specs.Order.{IsReach, IsBeyond, AllBeyond, IsFirst};

use crate::trial::Trial;
use crate::waiting::{Candidate, Subtree};
use std::alloc::AllocError;

/// The subtrees that are not opened yet during a step, the nearest first.
pub type Subtrees = Trial<Subtree>;

/// The objects that were met and are not given yet during a step, the nearest first.
pub type Candidates = Trial<Candidate>;

// Returns whether a distance is beyond the reach. Without a reach nothing is beyond it.
fn is_beyond(reach: Option<u64>, low: u64) -> bool
    ensures { IsTrue result ↔ IsBeyond reach low }
{
    match reach {
        Some(reach) => low > reach,
        None => false,
    }
}

/// Takes the nearest of `subtrees`, unless each is further than `reach`. A subtree exactly at `reach` is taken: it may hold an
/// object with a lower id.
pub fn take_within(
    subtrees: &mut Subtrees,
    reach: Option<u64>,
) -> Result<Option<Subtree>, AllocError>
    ensures handed { subtrees.new.handed ≡ subtrees.old.handed }
    ensures some { IfOk result (λ taken. IfSome taken (λ x. IsPermutation subtrees.old.waits (x ∷ subtrees.new.waits))) }
    ensures within { IfOk result (λ taken. IfSome taken (λ x. IsBeyond reach x.low → ⊥)) }
    ensures none { IfOk result (λ taken. IfNone taken (AllBeyond reach subtrees.old.waits)) }
    ensures same { IfOk result (λ taken. IfNone taken (subtrees.new.waits ≡ subtrees.old.waits)) }
{
    let Some(first) = subtrees.first() else {
        return Ok(None);
    };
    if is_beyond(reach, first.low) {
        return Ok(None);
    }
    subtrees.take_first()
}

/// Returns the distance of the nearest of `candidates`, if there is one.
pub fn reach_of(candidates: &Candidates) -> Option<u64>
    ensures { IsReach candidates.now.waits result }
{
    match candidates.first() {
        Some(first) => Some(first.dist),
        None => None,
    }
}

/// Takes the nearest of `candidates`; of equally near ones, the one with the lowest id.
pub fn take_nearest(candidates: &mut Candidates) -> Result<Option<Candidate>, AllocError>
    ensures handed { candidates.new.handed ≡ candidates.old.handed }
    ensures some { IfOk result (λ taken. IfSome taken (λ x. IsPermutation candidates.old.waits (x ∷ candidates.new.waits))) }
    ensures first { IfOk result (λ taken. IfSome taken (λ x. IsFirst x candidates.old.waits)) }
    ensures none { IfOk result (λ taken. IfNone taken (candidates.old.waits ≡ [])) }
    ensures same { IfOk result (λ taken. IfNone taken (candidates.new.waits ≡ candidates.old.waits)) }
{
    candidates.take_first()
}
