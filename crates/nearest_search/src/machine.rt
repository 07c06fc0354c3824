ghost use Rattle.std.specs.Prelude.{◌≡◌, ◌≤◌, [], ◌∷◌, IfOk};
ghost use Rattle.std.specs.BinaryHeap.{heap_items};
ghost use Rattle.nearest_search.specs.Machine.{pending_root};

use crate::frontier::Frontier;
use crate::kept::Kept;
use crate::kth::Best;
use crate::pending::Pending;
use std::alloc::{AllocError, Global};

/// The subtrees that have room at once: in many searches no more wait.
const SOME_WAITING: usize = 1024;

/// The state of a search between two steps.
#[derive(Drop)]
pub struct Machine {
    /// The subtrees that are not opened yet.
    pub frontier: Frontier,
    /// The least distances so far.
    pub best: Best,
    /// What was seen of the opened pages.
    pub kept: Kept,
}

// Returns a frontier that holds only the root.
fn waiting_root(alloc: Global, root: u32) -> Result<Frontier, AllocError>
    ensures { IfOk result (λ f. f ≡ pending_root root ∷ []) }
{
    let mut frontier = Frontier::with_capacity(alloc, SOME_WAITING)?;
    frontier.add(Pending {
        low: 0,
        page: root,
        above: None,
    })?;
    Ok(frontier)
}

impl Machine {
    /// Begins a search for the `k` nearest objects, with only the root to open.
    pub fn begin(alloc: Global, k: u64, root: u32) -> Result<Self, AllocError>
        requires { 1 ≤ k }
        ensures queue { IfOk result (λ m. m.frontier ≡ pending_root root ∷ []) }
        ensures count { IfOk result (λ m. m.best.k ≡ k) }
        ensures best { IfOk result (λ m. heap_items m.best.heap ≡ []) }
        ensures kept { IfOk result (λ m. m.kept.spans.entries ≡ []) }
    {
        let frontier = waiting_root(alloc, root)?;
        Ok(Machine {
            frontier,
            best: Best::new(alloc, k)?,
            kept: Kept::new(alloc)?,
        })
    }
}
