//! A line of what waits.

ghost use Rattle.std.specs.Prelude.{◌≡◌, ◌+◌, ◌-◌, ◌^◌, ◌<◌, ◌≤◌, [], ◌∷◌, ◌++◌, length, map, drop};
ghost use Rattle.std.specs.Prelude.{IfSome, IfNone, OnErr, OnOk, OnSome};
ghost use Rattle.std.specs.declared.cmp.Ordering.TheVariants.{Equal};
ghost use Rattle.std.specs.BinaryHeap.{heap_items, heap_len, heap_capacity, IsHeap};
ghost use Rattle.pin_cursor.specs.Lines.{Lined, IsAscending, line_of};

use std::alloc::{AllocError, Global};
use std::cmp::Reverse;
use std::collections::BinaryHeap;
use std::marker::Model;
use std::mem;

/// A type whose order tells values apart that are not equal.
pub trait TellsApart: Ord {
    ghost ties_equal: { (x y : Self) → Self.cmp x y ≡ Equal → x ≡ y };
}

/// What waits, the least first.
#[derive(Drop)]
pub struct Line<T: TellsApart> {
    heap: BinaryHeap<Reverse<T>>,
}

impl<T: TellsApart> Model for Line<T> {
    ghost Value = { Lined T };

    ghost view = { λ l. record {
      items = line_of T.cmp (map (λ r. r.0) (heap_items l.heap));
      room = heap_capacity l.heap - heap_len l.heap;
    } };

    ghost invariant = { λ l. IsHeap (λ x y. T.cmp y.0 x.0) (heap_items l.heap) };
}

impl<T: TellsApart + Drop> Line<T> {
    /// Makes an empty line.
    pub fn new(alloc: Global) -> Self
        ensures { result.items ≡ [] }
    {
        Line {
            heap: BinaryHeap::new(alloc),
        }
    }

    /// Returns the number of those that wait.
    pub fn len(&self) -> usize
        ensures count { result ≡ length self.now.items }
        ensures small { result < 2 ^ 63 }
    {
        self.heap.as_slice().len()
    }

    /// Returns the least, if there is one.
    pub fn first(&self) -> Option<&T>
        ensures some { IfSome result (λ x. self.now.items ≡ x.now ∷ drop 1 self.now.items) }
        ensures none { IfNone result (self.now.items ≡ []) }
        ensures ascends { IsAscending T.cmp self.now.items }
    {
        match self.heap.peek() {
            Some(Reverse(first)) => Some(first),
            None => None,
        }
    }

    /// Adds `x`.
    pub fn add(&mut self, x: T) -> Result<(), AllocError>
        ensures added { OnOk result (self.new.items ≡ line_of T.cmp (x ∷ self.old.items)) }
        ensures same { OnErr result (self.new.items ≡ self.old.items) }
    {
        self.heap.push(Reverse(x))?;
        Ok(())
    }

    /// Takes the least, if there is one.
    pub fn take_first(&mut self) -> Option<T>
        ensures some { IfSome result (λ x. self.old.items ≡ x ∷ self.new.items) }
        ensures none { IfNone result (self.old.items ≡ []) }
        ensures same { IfNone result (self.new ≡ self.old) }
        ensures room { OnSome result (self.new.room ≡ self.old.room + 1) }
    {
        let Some(Reverse(first)) = self.heap.pop() else {
            return None;
        };
        Some(first)
    }

    /// Takes all that waits.
    pub fn take_all(&mut self, alloc: Global) -> Self
        ensures all { result ≡ self.old }
        ensures ascends { IsAscending T.cmp result.items }
        ensures none { self.new.items ≡ [] }
    {
        Line {
            heap: mem::replace(&mut self.heap, BinaryHeap::new(alloc)),
        }
    }

    /// Makes room for `more`.
    pub fn reserve(&mut self, more: usize) -> Result<(), AllocError>
        ensures items { self.new.items ≡ self.old.items }
        ensures room { OnOk result (more ≤ self.new.room) }
        ensures kept { self.old.room ≤ self.new.room }
    {
        self.heap.reserve(more)
    }

    /// Adds all that waits in `other`. There is room for them.
    pub fn join(&mut self, mut other: Self)
        requires { length other.items ≤ self.old.room }
        ensures { self.new.items ≡ line_of T.cmp (self.old.items ++ other.items) }
    {
        match self.heap.append(&mut other.heap) {
            Ok(()) => {}
            Err(_) => unreachable!(),
        }
    }
}
