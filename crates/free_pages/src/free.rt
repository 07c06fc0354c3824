ghost use Rattle.std.specs.Prelude.{◌≡◌, ◌≤◌, ◌<◌, ◌+◌, [], ◌∷◌, ◌++◌, ◌==◌, max, take, length, IsTrue, IsOk, IfOk, IfErr, OnOk, OnErr, IfNone, IfSome};
ghost use Rattle.metric_laws.specs.Lists.{IsIn};
ghost use Rattle.metric_laws.specs.Space.{Space};
ghost use Rattle.tree_shape.specs.Tree.{IsSoundTree};
ghost use Rattle.page_store.specs.Numbers.{AreNumbers};
ghost use Rattle.page_store.specs.Placing.{live_pages};
ghost use Rattle.page_store.specs.Reading.{nodes_of};
ghost use Rattle.page_store.specs.Shelf.{HoldsSame, IsPassing};
ghost use Rattle.free_pages.specs.Commits.{after_commit};
ghost use Rattle.free_pages.specs.Free.{AreOutsideTree, IsFresh};
ghost use Rattle.free_pages.specs.Keeping.{IsKept, is_kept, with_free, with_left, with_pins, without_pin};
ghost use Rattle.free_pages.specs.Walk.{IsWalkFault, outside_pages, tree_walk};

use crate::Held;
use crate::queues::{
    is_below, is_free, is_held, least_pin, put_free, put_held, release, take_out, unopened,
};
use crate::walking::walk_tree;
use page_store::{PageFault, Pages};
use std::alloc::{AllocError, Global};
use std::collections::VecDeque;
use std::marker::Model;
use tree_shape::Live;

/// The pages of a file that its live tree doesn't need. New nodes get the least free pages. A page that a commit to a
/// generation left is held while a generation below is pinned, and is free otherwise.
#[derive(Drop)]
pub struct Free {
    // In ascending order, so that the least is in front, and pages go in at the nearer end.
    free: VecDeque<u32>,
    // In ascending order of the pages.
    held: VecDeque<Held>,
    // In the order of pinning.
    pins: Vec<u64>,
    // The number of pages that can still be given back or left: the held pages have room for that many more, and the free pages for
    // these and all held ones.
    spare: usize,
    // The greatest generation that `leave` named, 0 at first.
    newest: u64,
}

impl Model for Free {
    ghost use Rattle.std.specs.VecDeque.{deque_capacity};
    ghost use Rattle.free_pages.specs.Keeping.{FreePages};
    ghost use Rattle.free_pages.specs.Stored.{IsStored};

    ghost Value = { FreePages };

    ghost view = { λ f. record { free = f.free.items; pins = f.pins.items; held = f.held.items; spare = f.spare; newest = f.newest } };

    ghost invariant = { λ f. IsStored (record {
      free = f.free.items;
      pins = f.pins.items;
      held = f.held.items;
      spare = f.spare;
      newest = f.newest;
    }) (deque_capacity f.free) (deque_capacity f.held) };
}

impl Free {
    /// Returns the pages of a file from 3 up that no child numbers lead to from the root of its live tree. The tree is walked in
    /// pre-order, as deep as child numbers lead, whatever the height and the levels say. Each of its pages is asked for once and
    /// checked when the walk reaches it. A page that the walk opened before is `Repeats`, unasked; one that holds no node is `Bad`;
    /// and one below 3 or not below the number of pages is `Outside`. None of these comes on a sound tree. `Disk` comes where the
    /// disk failed. The walk takes a byte for each page of the file, and each free page takes 4.
    /// Clauses: what is asked of the caller (`pages`); the answer (`outside`, `sound`, `numbers`, `fresh`, `kept`); what stays (`same`,
    /// `keeps`); the cost (`asked`, `reads`); the cause of an error (`err`, `passing`); faults of the devices (`no_fault`).
    pub fn of<P: Pages>(alloc: Global, pages: &mut P, live: &Live) -> Result<Self, PageFault>
        requires pages { live.now.pages ≡ (P.shelf pages.old).pages }
        ensures same { HoldsSame (P.shelf pages.old) (P.shelf pages.new) }
        ensures keeps { P.keeps pages.old pages.new }
        ensures no_fault { OnOk result ((P.shelf pages.new).faults ≡ (P.shelf pages.old).faults) }
        ensures outside { IfOk result (λ f. IsTrue (P.shelf pages.old).is_known →
            AreOutsideTree live.now (P.shelf pages.old) (P.shelf pages.new) f.free) }
        ensures sound { IfOk result (λ f. (s : Space) → IsTrue (P.shelf pages.old).is_known →
            IsSoundTree s (nodes_of (P.shelf pages.old).read) live.now →
            f.free ≡ outside_pages live.now.pages (live_pages (nodes_of (P.shelf pages.old).read) live.now)) }
        ensures numbers { IfOk result (λ f. AreNumbers live.now.pages f.free) }
        ensures fresh { IfOk result IsFresh }
        ensures kept { IfOk result IsKept }
        ensures err { IfErr result (IsWalkFault (P.shelf pages.old) (P.shelf pages.new) (tree_walk (P.shelf pages.old).read live.now)) }
        ensures passing { IfErr result (λ fault. (s : Space) → IsTrue (P.shelf pages.old).is_known →
            IsSoundTree s (nodes_of (P.shelf pages.old).read) live.now → IsPassing fault) }
        ensures asked { 1 ≤ live.now.pages → (P.shelf pages.new).asked ≤ (P.shelf pages.old).asked + live.now.pages }
        ensures reads { 1 ≤ live.now.pages → (P.shelf pages.new).reads ≤ (P.shelf pages.old).reads + live.now.pages }
    {
        let walk = walk_tree(alloc, pages, live)?;
        let free = unopened(alloc, walk.opened.as_slice(), walk.count)?;
        Ok(Free {
            free,
            held: VecDeque::new(alloc),
            pins: Vec::new(alloc),
            spare: 0,
            newest: 0,
        })
    }

    /// Takes the least free page, which is free no longer, or returns `None` where no page is free.
    pub fn take(&mut self) -> Option<u32>
        ensures none { IfNone result ((self.old.free ≡ []) × (self.new ≡ self.old)) }
        ensures least { IfSome result (λ page. self.old.free ≡ page ∷ self.new.free) }
        ensures rest { self.new ≡ record self.old { free = self.new.free } }
        ensures kept { IsKept self.new }
    {
        self.free.pop_front()
    }

    // States that free and held pages are in order and apart, and that each held page is held by a pin.
    fn are_kept(&self)
        ensures { IsKept self.now }
    {
        let _free = &self.free;
    }

    /// Returns the number of free pages.
    pub fn len(&self) -> usize
        ensures { result ≡ length self.now.free }
    {
        self.free.len()
    }

    /// Returns whether no page is free.
    pub fn is_empty(&self) -> bool
        ensures { result ≡ (length self.now.free == 0) }
    {
        self.free.is_empty()
    }

    /// Returns the `n` least free pages in ascending order, or all where there are fewer. They stay free.
    pub fn least(&self, alloc: Global, n: usize) -> Result<Vec<u32>, AllocError>
        ensures pages { IfOk result (λ pages. pages.items ≡ take n self.now.free) }
        // Free and held pages are in order and apart, and each held page is held by a pin.
        ensures kept { IsKept self.now }
    {
        let count = n.min(self.free.len());
        let mut least = Vec::with_capacity(alloc, count)?;
        for place in 0..count {
            least.push(self.free[place])?;
        }
        Ok(least)
    }

    /// Makes room for `n` pages, so that as many can be given back or left without more memory.
    pub fn reserve(&mut self, n: usize) -> Result<(), AllocError>
        ensures ok { OnOk result (self.new ≡ record self.old { spare = max self.old.spare n }) }
        ensures err { OnErr result (self.new ≡ self.old) }
        ensures enough { n ≤ self.old.spare → IsOk result }
        ensures kept { IsKept self.new }
    {
        if n <= self.spare {
            return Ok(());
        }
        // Each held page may become free, so it has room among the free ones too.
        self.held.reserve(n)?;
        self.free.reserve(self.held.len() + n)?;
        self.spare = n;
        Ok(())
    }

    // Returns whether `page` is free or held.
    fn has(&self, page: u32) -> bool
        ensures is { result ≡ is_kept self.now page }
        ensures kept { IsKept self.now }
    {
        is_free(&self.free, page) || is_held(&self.held, page)
    }

    /// Makes `page` free. A page that is free or held already stays so. Where room is spare it does not run out of memory.
    pub fn give_back(&mut self, page: u32) -> Result<(), AllocError>
        ensures ok { OnOk result (self.new ≡ with_free self.old page) }
        ensures others { self.new ≡ record self.old { free = self.new.free; spare = self.new.spare } }
        ensures err { OnErr result (self.new ≡ self.old) }
        ensures room { 1 ≤ self.old.spare → IsOk result }
        ensures spare { self.old.spare ≤ self.new.spare + 1 }
        ensures kept { IsKept self.new }
    {
        if self.has(page) {
            return Ok(());
        }
        self.reserve(1)?;
        put_free(&mut self.free, page);
        self.spare -= 1;
        Ok(())
    }

    /// Pins `generation` once more: pages that later commits leave are held until it is unpinned as often. No earlier
    /// `leave` named a later generation.
    pub fn pin(&mut self, generation: u64) -> Result<(), AllocError>
        requires { self.old.newest ≤ generation }
        ensures ok { OnOk result (self.new ≡ record self.old { pins = self.old.pins ++ generation ∷ [] }) }
        ensures err { OnErr result (self.new ≡ self.old) }
        ensures kept { IsKept self.new }
    {
        self.pins.push(generation)?;
        Ok(())
    }

    /// Takes back one pin of `generation`. The held pages with no pin left below them become free.
    pub fn unpin(&mut self, generation: u64)
        requires { IsIn generation self.old.pins }
        ensures pins { self.new ≡ with_pins self.old (without_pin generation self.old.pins) }
        ensures kept { IsKept self.new }
    {
        take_out(&mut self.pins, generation);
        let least = least_pin(self.pins.as_slice());
        release(&mut self.free, &mut self.held, least);
    }

    /// Leaves `page` after a commit to `generation`: it is held while a generation below is pinned, and free otherwise.
    /// A page that is free or held already stays so.
    pub fn leave(&mut self, page: u32, generation: u64)
        requires { 1 ≤ self.old.spare }
        ensures left { self.new ≡ with_left self.old page generation }
        ensures others { self.new ≡ record self.old {
          free = self.new.free;
          held = self.new.held;
          spare = self.new.spare;
          newest = max self.old.newest generation;
        } }
        ensures spare { self.old.spare ≤ self.new.spare + 1 }
        ensures kept { IsKept self.new }
    {
        self.newest = self.newest.max(generation);
        if self.has(page) {
            return;
        }
        self.spare -= 1;
        if is_below(least_pin(self.pins.as_slice()), generation) {
            put_held(&mut self.held, Held { page, generation });
        } else {
            put_free(&mut self.free, page);
        }
    }

    /// Settles the list after a commit to `generation`, which gave the first `used` free pages to new nodes and left the pages
    /// `left`: each of them is held while a generation below is pinned, and free otherwise.
    pub fn settle(&mut self, used: usize, left: &[u32], generation: u64)
        requires used { used ≤ length self.old.free }
        requires room { length left.now ≤ self.old.spare }
        ensures settled { self.new ≡ after_commit used left.now generation self.old }
        ensures kept { IsKept self.new }
    {
        'uses: for _ in 0..used {
            let _page = self.take();
        }
        'leaves: for page in left {
            self.leave(*page, generation);
        }
        self.are_kept();
    }
}
