//! Opens a page for a cursor.

ghost use Rattle.std.specs.Prelude.{◌≡◌, ◌+◌, ◌≤◌, ◌++◌, map, IfErr, OnOk, IsPermutation};
ghost use Rattle.metric_laws.specs.Counts.{next_count};
ghost use Rattle.page_store.specs.Shelf.{HoldsSame, HasPageCause};
ghost use Rattle.pin_cursor.specs.Cursor.{candidate_of, subtree_of};
ghost use Rattle.pin_cursor.specs.Steps.{IsOpened};

use crate::waiting::{Candidate, Subtree};
use crate::waits::{Candidates, Subtrees};
use crate::walk::Walk;
use metric_laws::Ruler;
use page_store::{PageFault, Pages};
use std::alloc::{AllocError, Global};
use tree_shape::{InnerEntries, LeafEntries, Node};

/// Adds a leaf's objects to the candidates.
pub fn meet_objects<R: Ruler>(
    ruler: &mut R,
    q: &[u32],
    entries: &LeafEntries,
    candidates: &mut Candidates,
) -> Result<(), AllocError>
    ensures metric { R.metric ruler.new ≡ R.metric ruler.old }
    ensures met { OnOk result (IsPermutation
        (map (candidate_of (R.M.space (R.metric ruler.old)) q.now) entries.now ++ candidates.old.waits) candidates.new.waits) }
    ensures handed { candidates.new.handed ≡ candidates.old.handed }
{
    let view = entries.seen();
    for index in 0..view.len() {
        let entry = view.at(index);
        let dist = ruler.dist(entry.point, q);
        candidates.add(Candidate {
            dist,
            id: entry.id,
            tag: entry.tag,
        })?;
    }
    Ok(())
}

/// Adds an inner node's subtrees to the waiting ones.
pub fn queue_subtrees<R: Ruler>(
    ruler: &mut R,
    q: &[u32],
    entries: &InnerEntries,
    subtrees: &mut Subtrees,
) -> Result<(), AllocError>
    ensures metric { R.metric ruler.new ≡ R.metric ruler.old }
    ensures queued { OnOk result (IsPermutation
        (map (subtree_of (R.M.space (R.metric ruler.old)) q.now) entries.now ++ subtrees.old.waits) subtrees.new.waits) }
    ensures handed { subtrees.new.handed ≡ subtrees.old.handed }
{
    let view = entries.seen();
    for index in 0..view.len() {
        let entry = view.at(index);
        let dist = ruler.dist(entry.point, q);
        subtrees.add(Subtree {
            low: dist.saturating_sub(entry.radius),
            page: entry.child,
        })?;
    }
    Ok(())
}

/// Opens a page: the objects or subtrees of its node wait from now on.
/// Clauses: what changes (`node`); what stays (`metric`, `same`, `keeps`, `opened`, `given`, `hits`, `tags`, `subtrees`,
/// `candidates`); the cost (`asked`, `reads`); the cause of an error (`cause`); faults of the devices (`no_fault`).
pub fn open_page<P: Pages, R: Ruler>(
    alloc: Global,
    pages: &mut P,
    ruler: &mut R,
    q: &[u32],
    page: u32,
    walk: &mut Walk,
) -> Result<(), PageFault>
    ensures metric { R.metric ruler.new ≡ R.metric ruler.old }
    ensures same { HoldsSame (P.shelf pages.old) (P.shelf pages.new) }
    ensures no_fault { OnOk result ((P.shelf pages.new).faults ≡ (P.shelf pages.old).faults) }
    ensures keeps { P.keeps pages.old pages.new }
    ensures asked { (P.shelf pages.new).asked ≡ next_count (P.shelf pages.old).asked }
    ensures reads { (P.shelf pages.new).reads ≤ (P.shelf pages.old).reads + 1 }
    ensures opened { walk.new.opened ≡ walk.old.opened }
    ensures given { walk.new.given ≡ walk.old.given }
    ensures hits { walk.new.hits ≡ walk.old.hits }
    ensures tags { walk.new.tags ≡ walk.old.tags }
    ensures node { OnOk result (IsOpened (R.M.space (R.metric ruler.old)) q.now (P.shelf pages.old) page walk.old.candidates.waits
        walk.new.candidates.waits walk.old.subtrees.waits walk.new.subtrees.waits) }
    ensures subtrees { walk.new.subtrees.handed ≡ walk.old.subtrees.handed }
    ensures candidates { walk.new.candidates.handed ≡ walk.old.candidates.handed }
    ensures cause { IfErr result (HasPageCause (P.shelf pages.old) (P.shelf pages.new) page) }
{
    let node = pages.node(alloc, page, None)?;
    match node.as_ref() {
        Node::Leaf(entries) => {
            meet_objects(ruler, q, entries, &mut walk.candidates)?;
        }
        Node::Inner { entries, .. } => {
            queue_subtrees(ruler, q, entries, &mut walk.subtrees)?;
        }
    }
    Ok(())
}
