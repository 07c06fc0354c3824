//! Opens subtrees and gives candidates, the nearest first.

ghost use Rattle.std.specs.Prelude.{◌≡◌, ◌+◌, ◌-◌, ◌*◌, ◌≤◌, [], length, IfOk, IfErr, OnOk, IsTrue};
ghost use Rattle.tree_shape.specs.Tree.{Nodes, IsSoundTree};
ghost use Rattle.page_store.specs.Shelf.{HoldsSame, IsPassing};
ghost use Rattle.metric_laws.specs.Counts.{CountsUpTo};
ghost use Rattle.pin_cursor.specs.Cursor.{OpenCursor, IsCursorOn, HoldsTree};
ghost use Rattle.pin_cursor.specs.Steps.{HasStepCause, IsUnderWay, HasGiven, stage};

use crate::opening::open_page;
use crate::waits::{reach_of, take_nearest, take_within};
use crate::walk::Walk;
use metric_laws::Ruler;
use page_store::{PageFault, Pages};
use std::alloc::Global;
use tree_shape::Live;

/// The goal of a step.
#[derive(Clone, Copy)]
pub struct Goal<'a> {
    /// The cursor's point.
    pub q: &'a [u32],
    /// The number of hits that are wanted.
    pub n: u64,
}

/// Gives the next hits: as many as are wanted, or all that are left. A subtree is opened before a candidate at the same distance as
/// the subtree's lower bound is given, since it may hold an object with a lower id (VLDB 1997, section 3.2).
/// Clauses: what is asked of the caller (`point`, `hits`, `tags`, `few`, `room`); what changes (`way`, `ends`); what stays (`metric`,
/// `same`, `keeps`, `subtrees`, `candidates`); the cost (`asked`, `reads`); the cause of an error (`cause`, `sound`); faults of the
/// devices (`no_fault`).
pub fn advance<P: Pages, R: Ruler>(
    alloc: Global,
    pages: &mut P,
    ruler: &mut R,
    live: &Live,
    goal: Goal,
    walk: &mut Walk,
) -> Result<(), PageFault>
    requires point { IsTrue ((R.M.space (R.metric ruler.old)).is_point goal.q.now) }
    requires hits { walk.old.hits.items ≡ [] }
    requires tags { walk.old.tags.items ≡ [] }
    requires few { walk.old.opened ≤ live.now.pages }
    requires room { walk.old.given + length walk.old.candidates.waits ≤ 32 * walk.old.opened }
    ensures metric { R.metric ruler.new ≡ R.metric ruler.old }
    ensures same { HoldsSame (P.shelf pages.old) (P.shelf pages.new) }
    ensures no_fault { OnOk result ((P.shelf pages.new).faults ≡ (P.shelf pages.old).faults) }
    ensures keeps { P.keeps pages.old pages.new }
    ensures way { IfOk result (λ _. IsUnderWay (R.M.space (R.metric ruler.old)) (P.shelf pages.old) (P.shelf pages.new)
        (stage live.now goal.entry.q.now walk.old.given walk.old.opened walk.old.subtrees.waits walk.old.candidates.waits)
        (stage live.now goal.entry.q.now walk.new.given walk.new.opened walk.new.subtrees.waits walk.new.candidates.waits)
        walk.new.hits.items walk.new.tags.items) }
    ensures subtrees { walk.new.subtrees.handed ≡ walk.old.subtrees.handed }
    ensures candidates { walk.new.candidates.handed ≡ walk.old.candidates.handed }
    ensures ends { IfOk result (λ _. HasGiven goal.entry.n walk.new.hits.items walk.new.candidates.waits walk.new.subtrees.waits) }
    ensures asked { CountsUpTo (P.shelf pages.old).asked (P.shelf pages.new).asked (live.now.pages - walk.old.opened) }
    ensures reads { (P.shelf pages.new).reads ≤ (P.shelf pages.old).reads + (live.now.pages - walk.old.opened) }
    ensures cause { IfErr result (HasStepCause
        (stage live.now goal.entry.q.now walk.old.given walk.old.opened walk.old.subtrees.waits walk.old.candidates.waits)
        (P.shelf pages.old) (P.shelf pages.new)) }
    ensures sound { IfErr result (λ fault. (nodes : Nodes) → IsTrue (P.shelf pages.old).is_known →
        IsSoundTree (R.M.space (R.metric ruler.old)) nodes live.now → HoldsTree nodes live.now (P.shelf pages.old) →
        IsCursorOn (R.M.space (R.metric ruler.old)) nodes
        (stage live.now goal.entry.q.now walk.old.given walk.old.opened walk.old.subtrees.waits walk.old.candidates.waits) →
        IsPassing fault) }
{
    while (walk.hits.len() as u64) < goal.n {
        let spent = walk.opened == live.pages;
        let reach = reach_of(&walk.candidates);
        if let Some(next) = take_within(&mut walk.subtrees, reach)? {
            if spent {
                return Err(PageFault::Repeats(next.page));
            }
            open_page(alloc, pages, ruler, goal.q, next.page, walk)?;
            walk.opened += 1;
        } else {
            let Some(next) = take_nearest(&mut walk.candidates)? else {
                return Ok(());
            };
            walk.give(next)?;
        }
    }
    Ok(())
}
