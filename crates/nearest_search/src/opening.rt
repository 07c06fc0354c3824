//! Opens a page.

ghost use Rattle.std.specs.Prelude.{◌≡◌, ◌+◌, ◌≤◌, ◌++◌, length, IfOk, IfErr, OnOk, IsPermutation};
ghost use Rattle.std.specs.BinaryHeap.{heap_items};
ghost use Rattle.metric_laws.specs.Counts.{next_count};
ghost use Rattle.page_store.specs.Shelf.{HoldsSame, HasPageCause};
ghost use Rattle.log_model.specs.Counts.{entry_count};
ghost use Rattle.log_model.specs.Walk.{search_at};
ghost use Rattle.nearest_search.specs.Machine.{dists_of, pendings_of};
ghost use Rattle.nearest_search.specs.Opened.{leaf_dists, inner_pendings, Takes, Sees, IsOpened};
ghost use Rattle.nearest_search.specs.Seeing.{objects_seen, subtrees_seen};
ghost use Rattle.nearest_search.specs.Keeping.{SpansFit, blocks_of, kept_seen};

use crate::frontier::Frontier;
use crate::kept::{Span, Turn};
use crate::kth::Best;
use crate::machine::Machine;
use crate::pending::Pending;
use crate::seen::{Sight, skip_of};
use log_model::{Probe, entry_count, next_object, next_subtree};
use metric_laws::Ruler;
use page_store::{PageFault, Pages};
use std::alloc::{AllocError, Global};
use tree_shape::{InnerEntries, LeafEntries, Node};

/// Takes in the distances of a leaf's objects.
pub fn note_leaf<R: Ruler>(
    ruler: &mut R,
    probe: Probe,
    above: Option<u64>,
    entries: &LeafEntries,
    best: &mut Best,
    seen: &mut Vec<Sight>,
) -> Result<(), AllocError>
    requires few { length entries.now ≤ 32 }
    ensures metric { R.metric ruler.new ≡ R.metric ruler.old }
    ensures used { R.used ruler.new ≤ R.used ruler.old + length entries.now }
    ensures count { best.new.k ≡ best.old.k }
    ensures noted { OnOk result (Takes best.old.k (heap_items best.old.heap) (heap_items best.new.heap)
        (leaf_dists (search_at (R.M.space (R.metric ruler.old)) probe.entry.q.now probe.entry.rho) above entries.now)) }
    ensures seen { OnOk result (seen.new.items ≡ seen.old.items
        ++ objects_seen (search_at (R.M.space (R.metric ruler.old)) probe.entry.q.now probe.entry.rho) above 0 entries.now) }
{
    let objects = entries.seen();
    let mut at = next_object(above, probe.rho, &objects, 0);
    while at < objects.len() {
        let entry = objects.at(at);
        let skip = skip_of(above, entry.parent, 0);
        let dist = ruler.dist(entry.point, probe.q);
        seen.push(Sight {
            place: at as u32,
            name: entry.id,
            skip,
            far: dist,
            dist,
            tag: entry.tag,
        })?;
        if dist <= probe.rho {
            best.keep(dist)?;
        }
        at = next_object(above, probe.rho, &objects, at + 1);
    }
    Ok(())
}

/// Queues the subtrees of an inner node.
pub fn queue_inner<R: Ruler>(
    ruler: &mut R,
    probe: Probe,
    above: Option<u64>,
    entries: &InnerEntries,
    frontier: &mut Frontier,
    seen: &mut Vec<Sight>,
) -> Result<(), AllocError>
    requires few { length entries.now ≤ 32 }
    ensures metric { R.metric ruler.new ≡ R.metric ruler.old }
    ensures used { R.used ruler.new ≤ R.used ruler.old + length entries.now }
    ensures queued { OnOk result
        (IsPermutation (inner_pendings (search_at (R.M.space (R.metric ruler.old)) probe.entry.q.now probe.entry.rho) above
        entries.now ++ frontier.old) frontier.new) }
    ensures seen { OnOk result (seen.new.items ≡ seen.old.items
        ++ subtrees_seen (search_at (R.M.space (R.metric ruler.old)) probe.entry.q.now probe.entry.rho) above 0 entries.now) }
{
    let subtrees = entries.seen();
    let mut at = next_subtree(above, probe.rho, &subtrees, 0);
    while at < subtrees.len() {
        let entry = subtrees.at(at);
        let skip = skip_of(above, entry.parent, entry.radius);
        let dist = ruler.dist(entry.point, probe.q);
        let far = dist.saturating_sub(entry.radius);
        seen.push(Sight {
            place: at as u32,
            name: entry.child,
            skip,
            far,
            dist,
            tag: 0,
        })?;
        if far <= probe.rho {
            frontier.add(Pending {
                low: far,
                page: entry.child,
                above: Some(dist),
            })?;
        }
        at = next_subtree(above, probe.rho, &subtrees, at + 1);
    }
    Ok(())
}

// Takes in the node of a page that was opened below a routing point at the distance `above`. Returns where the sights of its entries
// stand.
fn see_node<R: Ruler>(
    alloc: Global,
    ruler: &mut R,
    probe: Probe,
    above: Option<u64>,
    node: &Node,
    machine: &mut Machine,
) -> Result<Span, AllocError>
    requires few { entry_count node.now ≤ 32 }
    ensures metric { R.metric ruler.new ≡ R.metric ruler.old }
    ensures used { R.used ruler.new ≤ R.used ruler.old + entry_count node.now }
    ensures count { machine.new.best.k ≡ machine.old.best.k }
    ensures spans { machine.new.kept.spans ≡ machine.old.kept.spans }
    ensures pushed { OnOk result (IsPermutation
        (pendings_of (search_at (R.M.space (R.metric ruler.old)) probe.entry.q.now probe.entry.rho) above node.now
        ++ machine.old.frontier) machine.new.frontier) }
    ensures noted { OnOk result (Takes machine.old.best.k (heap_items machine.old.best.heap) (heap_items machine.new.best.heap)
        (dists_of (search_at (R.M.space (R.metric ruler.old)) probe.entry.q.now probe.entry.rho) above node.now)) }
    ensures seen { IfOk result (Sees (R.M.space (R.metric ruler.old)) probe.entry.q.now probe.entry.rho above node.now
        (blocks_of machine.old.kept) (blocks_of machine.new.kept)) }
{
    let kept = &mut machine.kept;
    let count = entry_count(node);
    let block = kept.make_room(alloc, count)?;
    let from = kept.last.len();
    match node {
        Node::Leaf(entries) => {
            note_leaf(
                ruler,
                probe,
                above,
                entries,
                &mut machine.best,
                &mut kept.last,
            )?;
            Ok(Span {
                block,
                from,
                to: kept.last.len(),
                count,
                is_leaf: true,
            })
        }
        Node::Inner { entries, .. } => {
            queue_inner(
                ruler,
                probe,
                above,
                entries,
                &mut machine.frontier,
                &mut kept.last,
            )?;
            Ok(Span {
                block,
                from,
                to: kept.last.len(),
                count,
                is_leaf: false,
            })
        }
    }
}

/// Opens the page of a subtree at a radius, and keeps what was seen of its entries.
/// Clauses: what is asked of the caller, and holds again (`fits`); what changes (`opened`); what stays (`metric`, `same`, `keeps`,
/// `count`); the cost (`used`, `asked`, `reads`); the cause of an error (`cause`); faults of the devices (`no_fault`).
pub fn open_page<P: Pages, R: Ruler>(
    alloc: Global,
    pages: &mut P,
    ruler: &mut R,
    probe: Probe,
    next: Pending,
    machine: &mut Machine,
) -> Result<(), PageFault>
    requires fits { SpansFit machine.old.kept }
    ensures fits { OnOk result (SpansFit machine.new.kept) }
    ensures metric { R.metric ruler.new ≡ R.metric ruler.old }
    ensures used { R.used ruler.new ≤ R.used ruler.old + 32 }
    ensures same { HoldsSame (P.shelf pages.old) (P.shelf pages.new) }
    ensures no_fault { OnOk result ((P.shelf pages.new).faults ≡ (P.shelf pages.old).faults) }
    ensures keeps { P.keeps pages.old pages.new }
    ensures asked { (P.shelf pages.new).asked ≡ next_count (P.shelf pages.old).asked }
    ensures reads { (P.shelf pages.new).reads ≤ (P.shelf pages.old).reads + 1 }
    ensures count { machine.new.best.k ≡ machine.old.best.k }
    ensures opened { OnOk result (IsOpened (search_at (R.M.space (R.metric ruler.old)) probe.entry.q.now probe.entry.rho)
        (P.shelf pages.old) machine.old.best.k next
        (record {
          queue = machine.old.frontier;
          best = heap_items machine.old.best.heap;
          kept = kept_seen machine.old.kept;
          used = R.used ruler.old;
        })
        (record {
          queue = machine.new.frontier;
          best = heap_items machine.new.best.heap;
          kept = kept_seen machine.new.kept;
          used = R.used ruler.new;
        })) }
    ensures cause { IfErr result (HasPageCause (P.shelf pages.old) (P.shelf pages.new) next.page) }
{
    let node = pages.node(alloc, next.page, None)?;
    let span = see_node(alloc, ruler, probe, next.above, node.as_ref(), machine)?;
    let turn = Turn {
        page: next.page,
        above: next.above,
    };
    Ok(machine.kept.put(turn, span)?)
}
