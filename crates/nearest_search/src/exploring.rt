//! Opens subtrees by least possible distance.

ghost use Rattle.std.specs.Prelude.{◌≡◌, ◌+◌, ◌≤◌, [], ◌∷◌, IsTrue, IfOk, IfErr, OnOk};
ghost use Rattle.std.specs.BinaryHeap.{heap_items};
ghost use Rattle.tree_shape.specs.Tree.{IsSoundTree};
ghost use Rattle.page_store.specs.Reading.{nodes_of};
ghost use Rattle.page_store.specs.Shelf.{HoldsSame, IsPassing};
ghost use Rattle.metric_laws.specs.Counts.{CountsUpTo};
ghost use Rattle.nearest_search.specs.Machine.{pending_root};
ghost use Rattle.nearest_search.specs.Keeping.{SpansFit, kept_seen};
ghost use Rattle.nearest_search.specs.Searched.{IsExplored, IsFrugal, HasNearestCause};

use crate::machine::Machine;
use crate::opening::open_page;
use log_model::Probe;
use metric_laws::Ruler;
use page_store::{PageFault, Pages};
use std::alloc::Global;
use tree_shape::Live;

/// The result of an exploration.
#[derive(Clone, Copy)]
pub struct Explored {
    /// The final radius: nothing that is not opened is nearer.
    pub rho: u64,
    /// How many pages were opened.
    pub opened: u32,
}

/// Opens subtrees by least possible distance until none is within the radius of the k least distances (VLDB 1997,
/// section 3.2).
/// Clauses: what is asked of the caller (`point`, `queue`, `best`, `kept`); the answer and the new state (`ok`, `fits`); what stays
/// (`metric`, `same`, `keeps`); the cost (`asked`, `reads`, `measured`); the cause of an error (`cause`, `sound`); faults of the devices
/// (`no_fault`).
pub fn explore<P: Pages, R: Ruler>(
    alloc: Global,
    pages: &mut P,
    ruler: &mut R,
    q: &[u32],
    live: &Live,
    machine: &mut Machine,
) -> Result<Explored, PageFault>
    requires point { IsTrue ((R.M.space (R.metric ruler.old)).is_point q.now) }
    requires queue { machine.old.frontier ≡ pending_root live.now.root ∷ [] }
    requires best { heap_items machine.old.best.heap ≡ [] }
    requires kept { machine.old.kept.spans.entries ≡ [] }
    ensures metric { R.metric ruler.new ≡ R.metric ruler.old }
    ensures same { HoldsSame (P.shelf pages.old) (P.shelf pages.new) }
    ensures no_fault { OnOk result ((P.shelf pages.new).faults ≡ (P.shelf pages.old).faults) }
    ensures keeps { P.keeps pages.old pages.new }
    ensures ok { IfOk result (λ e. IsExplored (R.M.space (R.metric ruler.old)) (P.shelf pages.old)
        (P.shelf pages.new) live.now q.now machine.old.best.k
        (record {
          queue = machine.new.frontier;
          best = heap_items machine.new.best.heap;
          kept = kept_seen machine.new.kept;
          used = R.used ruler.new;
        }) e.rho e.opened
        (R.used ruler.old)) }
    ensures fits { OnOk result (SpansFit machine.new.kept) }
    ensures cause { IfErr result (HasNearestCause live.now (P.shelf pages.old) (P.shelf pages.new)) }
    ensures asked { CountsUpTo (P.shelf pages.old).asked (P.shelf pages.new).asked live.now.pages }
    ensures reads { (P.shelf pages.new).reads ≤ (P.shelf pages.old).reads + live.now.pages }
    ensures measured { IsFrugal live.now.pages (P.shelf pages.old).asked (R.used ruler.old) (P.shelf pages.new).asked (R.used ruler.new) }
    ensures sound { IfErr result (λ fault. IsTrue (P.shelf pages.old).is_known →
        IsSoundTree (R.M.space (R.metric ruler.old)) (nodes_of (P.shelf pages.old).read) live.now → IsPassing fault) }
{
    let mut opened = 0u32;
    loop {
        let rho = machine.best.radius();
        let Some(next) = machine.frontier.take_next(rho) else {
            return Ok(Explored { rho, opened });
        };
        if opened == live.pages {
            return Err(PageFault::Repeats(next.page));
        }
        match open_page(alloc, pages, ruler, Probe { q, rho }, next, machine) {
            Ok(()) => {}
            Err(fault) => return Err(fault),
        }
        opened += 1;
    }
}
