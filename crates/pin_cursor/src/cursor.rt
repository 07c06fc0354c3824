ghost use Rattle.std.specs.Prelude.{◌≡◌, ◌+◌, ◌-◌, ◌*◌, ◌≤◌, IsTrue, IfOk, IfErr, OnErr, OnOk, length};
ghost use Rattle.metric_laws.specs.Space.{Space, IsSpace};
ghost use Rattle.metric_laws.specs.Lists.{IsIn};
ghost use Rattle.tree_shape.specs.Tree.{Nodes, IsSoundTree};
ghost use Rattle.page_store.specs.Reading.{nodes_of};
ghost use Rattle.page_store.specs.Shelf.{HoldsSame, IsPassing};
ghost use Rattle.metric_laws.specs.Counts.{CountsUpTo, count_up};
ghost use Rattle.pin_cursor.specs.Cursor.{OpenCursor, begun, IsCursorOn, IsWalked, HoldsTree};
ghost use Rattle.pin_cursor.specs.Steps.{HasStepCause, HasGiven, IsAccounted, IsReachedFrom, GivesNext};

use crate::line::Line;
use crate::stepping::{Goal, advance};
use crate::waiting::{Candidate, Subtree};
use crate::walk::Walk;
use metric_laws::{Listed, Point, Ruler};
use page_store::{PageFault, Pages};
use scan_model::Hit;
use std::alloc::{AllocError, Global};
use std::marker::Model;
use tree_shape::Live;

/// A cursor over the tree of one live slot. It gives the objects by their distance from a point, then by id, some at a time.
#[derive(Drop)]
pub struct Cursor {
    live: Live,
    point: Point,
    given: u64,
    opened: u32,
    subtrees: Line<Subtree>,
    candidates: Line<Candidate>,
}

impl Model for Cursor {
    ghost Value = { OpenCursor };

    ghost view = { λ c. record {
      live = c.live;
      point = c.point;
      given = c.given;
      opened = c.opened;
      subtrees = c.subtrees.items;
      candidates = c.candidates.items;
    } };

    // Only opened nodes are counted, and each of them has at most 32 objects.
    ghost invariant = { λ c. (c.opened ≤ c.live.pages) × (c.given + length c.candidates.items ≤ 32 * c.opened) };
}

/// The result of a step.
#[derive(Drop)]
pub struct Stepped {
    /// The next hits, by distance, then by id.
    pub hits: Listed<Hit>,
    /// The tag of each hit's object.
    pub tags: Listed<u64>,
}

impl Cursor {
    /// Opens a cursor before the first object. Only its root waits.
    pub fn open(alloc: Global, live: Live, q: Point) -> Result<Self, AllocError>
        ensures begun { IfOk result (λ c. c ≡ begun live q) }
        ensures starts { IfOk result (λ c. (s : Space) (nodes : Nodes) → IsSpace s → IsSoundTree s nodes live →
            IsTrue (s.is_point q) → IsCursorOn s nodes c) }
    {
        let mut subtrees = Line::new(alloc);
        subtrees.add(Subtree {
            low: 0,
            page: live.root,
        })?;
        Ok(Cursor {
            live,
            point: q,
            given: 0,
            opened: 0,
            subtrees,
            candidates: Line::new(alloc),
        })
    }

    /// Returns the live slot whose tree the cursor goes through.
    pub fn live(&self) -> Live
        ensures { result ≡ self.now.live }
    {
        self.live
    }

    /// Returns the point that distances are measured from.
    pub fn point(&self) -> &[u32]
        ensures { result.now ≡ self.now.point }
    {
        self.point.as_slice()
    }

    /// Returns the number of hits that the cursor has given.
    pub fn given(&self) -> u64
        ensures { result ≡ self.now.given }
    {
        self.given
    }

    /// Returns the next `n` hits, or all that are left. After a refusal the cursor is as before.
    ///
    /// A page that holds no node is `Bad`. A page below 3 or not below the number of pages is `Outside`. A page is `Repeats` where
    /// this step and the earlier successful ones opened as many nodes as the file has pages, and this page is to be opened too. None
    /// of these comes on a sound tree. `Disk` comes where the disk failed, and `Memory` where memory ran out.
    /// Clauses: what is asked of the caller (`point`, `some`); the answer (`few`, `each`, `gives`, `ends`); what changes (`given`,
    /// `accounted`, `reached`, `walks`); what stays (`metric`, `same`, `keeps`, `live`, `point`); the cost (`opened`, `work`, `asked`,
    /// `reads`); what an error leaves (`unchanged`); the cause of an error (`cause`, `sound`); faults of the devices (`no_fault`).
    pub fn step<P: Pages, R: Ruler>(
        &mut self,
        alloc: Global,
        pages: &mut P,
        ruler: &mut R,
        n: u64,
    ) -> Result<Stepped, PageFault>
        requires point { IsTrue ((R.M.space (R.metric ruler.old)).is_point self.old.point) }
        requires some { 1 ≤ n }
        ensures metric { R.metric ruler.new ≡ R.metric ruler.old }
        ensures same { HoldsSame (P.shelf pages.old) (P.shelf pages.new) }
        ensures no_fault { OnOk result ((P.shelf pages.new).faults ≡ (P.shelf pages.old).faults) }
        ensures keeps { P.keeps pages.old pages.new }
        ensures live { self.new.live ≡ self.old.live }
        ensures point { self.new.point ≡ self.old.point }
        ensures given { IfOk result (λ stepped. self.new.given ≡ self.old.given + length stepped.hits) }
        ensures few { IfOk result (λ stepped. length stepped.hits ≤ n) }
        ensures each { IfOk result (λ stepped. length stepped.tags ≡ length stepped.hits) }
        ensures unchanged { OnErr result (self.new ≡ self.old) }
        // On the tree of a sound file that the pages still hold, the hits are the scan's next hits, with their tags.
        ensures gives { IfOk result (λ stepped. (nodes : Nodes) → IsTrue (P.shelf pages.old).is_known →
            IsSoundTree (R.M.space (R.metric ruler.old)) nodes self.old.live → HoldsTree nodes self.old.live (P.shelf pages.old) →
            IsCursorOn (R.M.space (R.metric ruler.old)) nodes self.old →
            GivesNext (R.M.space (R.metric ruler.old)) nodes self.old self.new n stepped.hits stepped.tags) }
        ensures sound { IfErr result (λ fault. (nodes : Nodes) → IsTrue (P.shelf pages.old).is_known →
            IsSoundTree (R.M.space (R.metric ruler.old)) nodes self.old.live → HoldsTree nodes self.old.live (P.shelf pages.old) →
            IsCursorOn (R.M.space (R.metric ruler.old)) nodes self.old → IsPassing fault) }
        ensures cause { IfErr result (HasStepCause self.old (P.shelf pages.old) (P.shelf pages.new)) }
        // On any tree it gives as many hits as are wanted, or all; and what was opened, met and given adds up.
        ensures ends { IfOk result (λ stepped. HasGiven n stepped.hits self.new.candidates self.new.subtrees) }
        ensures accounted { IfOk result (λ stepped. IsTrue (P.shelf pages.old).is_known →
            IsAccounted (R.M.space (R.metric ruler.old)) (nodes_of (P.shelf pages.old).read) self.old self.new stepped.hits
            stepped.tags) }
        // What waits is reached from what waited.
        ensures reached { IfOk result (λ _. IsTrue (P.shelf pages.old).is_known → (x : Subtree) → IsIn x self.new.subtrees →
            IsReachedFrom (nodes_of (P.shelf pages.old).read) self.old x.page) }
        // A cursor that is a walk by child numbers stays one.
        ensures walks { IfOk result (λ _. IsTrue (P.shelf pages.old).is_known →
            IsWalked (nodes_of (P.shelf pages.old).read) self.old → IsWalked (nodes_of (P.shelf pages.old).read) self.new) }
        // Each opened node is asked for once. Over all successful steps at most as many are opened as the file has pages.
        ensures opened { IfOk result (λ _. (self.old.opened ≤ self.new.opened) × (self.new.opened ≤ self.old.live.pages)) }
        ensures work { IfOk result (λ _.
            (P.shelf pages.new).asked ≡ count_up (P.shelf pages.old).asked (self.new.opened - self.old.opened)) }
        ensures asked { CountsUpTo (P.shelf pages.old).asked (P.shelf pages.new).asked (self.old.live.pages - self.old.opened) }
        ensures reads { (P.shelf pages.new).reads ≤ (P.shelf pages.old).reads + (self.old.live.pages - self.old.opened) }
    {
        let mut walk = Walk::begin(
            alloc,
            &mut self.subtrees,
            &mut self.candidates,
            self.opened,
            self.given,
        );
        let goal = Goal {
            q: self.point.as_slice(),
            n,
        };
        match advance(alloc, pages, ruler, &self.live, goal, &mut walk) {
            Ok(()) => Ok(self.settle(walk)),
            Err(fault) => {
                self.restore(walk);
                Err(fault)
            }
        }
    }

    // Takes over the state of a finished step, and returns what it gives.
    fn settle(&mut self, walk: Walk) -> Stepped
        requires few { walk.opened ≤ self.old.live.pages }
        requires room { walk.given + length walk.candidates.waits ≤ 32 * walk.opened }
        ensures after { self.new ≡ record {
          live = self.old.live;
          point = self.old.point;
          given = walk.given;
          opened = walk.opened;
          subtrees = walk.subtrees.waits;
          candidates = walk.candidates.waits;
        } }
        ensures hits { result.hits ≡ walk.hits.items }
        ensures tags { result.tags ≡ walk.tags.items }
    {
        self.subtrees = walk.subtrees.keep();
        self.candidates = walk.candidates.keep();
        self.opened = walk.opened;
        self.given = walk.given;
        Stepped {
            hits: Listed::new(walk.hits),
            tags: Listed::new(walk.tags),
        }
    }

    // Takes back what waited before a step that was refused.
    fn restore(&mut self, walk: Walk)
        requires { self.old.given + length walk.candidates.handed ≤ 32 * self.old.opened }
        ensures { self.new ≡ record {
          live = self.old.live;
          point = self.old.point;
          given = self.old.given;
          opened = self.old.opened;
          subtrees = walk.subtrees.handed;
          candidates = walk.candidates.handed;
        } }
    {
        self.subtrees = walk.subtrees.undo();
        self.candidates = walk.candidates.undo();
    }
}
