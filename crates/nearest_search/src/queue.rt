//! A queue that gives the least first.

ghost use Rattle.std.specs.Prelude.{◌≡◌, List, [], ◌∷◌, map, IfOk, IfSome, IfNone, OnOk, IsPermutation};
ghost use Rattle.std.specs.BinaryHeap.{heap_items, IsHeap};
ghost use Rattle.nearest_search.specs.Least.{IsLeast};

use std::alloc::{AllocError, Global};
use std::cmp::Reverse;
use std::collections::BinaryHeap;
use std::marker::Model;

/// What waits, the least first.
#[derive(Drop)]
pub struct MinQueue<T: Ord> {
    heap: BinaryHeap<Reverse<T>>,
}

impl<T: Ord> Model for MinQueue<T> {
    ghost Value = { List T };

    ghost view = { λ q. map (λ r. r.0) (heap_items q.heap) };

    ghost invariant = { λ q. IsHeap (λ x y. T.cmp y.0 x.0) (heap_items q.heap) };
}

impl<T: Ord + Drop> MinQueue<T> {
    /// Makes an empty queue with room for `count`.
    pub fn with_capacity(alloc: Global, count: usize) -> Result<Self, AllocError>
        ensures { IfOk result (λ queue. queue ≡ []) }
    {
        let heap = BinaryHeap::with_capacity(alloc, count)?;
        Ok(MinQueue { heap })
    }

    /// Adds `x`.
    pub fn add(&mut self, x: T) -> Result<(), AllocError>
        ensures { OnOk result (IsPermutation (x ∷ self.old) self.new) }
    {
        self.heap.push(Reverse(x))?;
        Ok(())
    }

    /// Returns the least, if there is one.
    pub fn first(&self) -> Option<&T>
        ensures some { IfSome result (λ x. IsLeast T.cmp x.now self.now) }
        ensures none { IfNone result (self.now ≡ []) }
    {
        match self.heap.peek() {
            Some(Reverse(first)) => Some(first),
            None => None,
        }
    }

    /// Takes the least, if there is one.
    pub fn take_first(&mut self) -> Option<T>
        ensures some { IfSome result (λ x. IsPermutation self.old (x ∷ self.new)) }
        ensures first { IfSome result (λ x. IsLeast T.cmp x self.old) }
        ensures none { IfNone result (self.old ≡ []) }
        ensures same { IfNone result (self.new ≡ self.old) }
    {
        let Some(Reverse(first)) = self.heap.pop() else {
            return None;
        };
        Some(first)
    }
}
