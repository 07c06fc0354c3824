ghost use Rattle.std.specs.Prelude.{◌≡◌, ◌<◌, ◌^◌, length, IsTrue, IfOk, IfErr, OnOk};
ghost use Rattle.scan_model.specs.Join.{join_pairs};
ghost use Rattle.tree_shape.specs.Tree.{IsSoundTree, points_by_id};
ghost use Rattle.page_store.specs.Reading.{nodes_of};
ghost use Rattle.page_store.specs.Shelf.{HoldsSame};
ghost use Rattle.log_model.specs.InOrder.{in_order, pair_before};
ghost use Rattle.metric_join.specs.Joined.{IsJoined, HasJoinCause, IsPassing};

use crate::JoinFault;
use crate::faults::fault_of;
use crate::touring::tour;
use crate::walking::{JoinWalk, walk_pairs};
use log_model::{JoinLog, Joined, put_pairs_in_order};
use metric_laws::{Listed, Ruler};
use page_store::Pages;
use std::alloc::{AllocError, Global};
use tree_shape::Live;

// Makes the answer of a whole walk.
fn joined_of(
    alloc: Global,
    ll: &Live,
    lr: &Live,
    r: u64,
    walk: JoinWalk,
) -> Result<Joined, AllocError>
    ensures left { IfOk result (λ joined. joined.log.left ≡ (ll.now.generation, ll.now.root)) }
    ensures right { IfOk result (λ joined. joined.log.right ≡ (lr.now.generation, lr.now.root)) }
    ensures radius { IfOk result (λ joined. joined.log.r ≡ r) }
    ensures records { IfOk result (λ joined. joined.log.records ≡ walk.records.items) }
    ensures answers { IfOk result (λ joined. joined.log.answers ≡ in_order pair_before walk.hits.items) }
    ensures pairs { IfOk result (λ joined. joined.pairs ≡ joined.log.answers) }
    ensures few { IfOk result (λ joined. (length joined.log.answers < 2 ^ 64) × (length joined.log.records < 2 ^ 64)) }
{
    let mut answers = walk.hits;
    put_pairs_in_order(&mut answers);
    let pairs = answers.iter().copied().collect(alloc)?;
    Ok(Joined {
        pairs: Listed::new(pairs),
        log: JoinLog {
            left: (ll.generation, ll.root),
            right: (lr.generation, lr.root),
            r,
            answers: Listed::new(answers),
            records: Listed::new(walk.records),
        },
    })
}

/// Finds every pair of a left and a right object within `r` of each other, by the left id, then by the right, and the log that
/// shows it. Each tree is walked once by child numbers, the left one first. Then the walk of pairs begins with the two roots. Of
/// two items the one of greater rank is opened, the left one at a tie. Each of its entries is skipped where stored distances rule
/// it out, left out where its own distance does, and else paired with the other item. The rank of a root is its height plus 1,
/// that of another node the level that its parent states, and that of an object 0. The tests are those of a query (VLDB 1997,
/// section 3.2), with the other item's centre as the query's point and its radius added.
///
/// `Left` and `Right` hold why a page of that side gave no node. A page that holds no node is `Bad`. A page below 3 or not below
/// the number of pages is `Outside`. One page more is `Repeats` where the first walk of a tree has opened as many nodes as the
/// live slot counts pages, or where a path of the walk of pairs has gone through as many. None of these comes on sound trees.
/// `Disk` comes where that side's disk failed.
/// Clauses: the answer (`scanned`); the answer and its cost (`joined`); what stays (`metric`, `left_same`, `left_keeps`, `right_same`,
/// `right_keeps`); the cause of an error (`cause`, `sound`); faults of the devices (`left_no_fault`, `right_no_fault`).
/// Arguments: `left` and `right` are the pages of the two trees, `ll` and `lr` their live slots, and `ruler` measures for both.
pub fn join<P: Pages, Q: Pages, R: Ruler>(
    alloc: Global,
    left: &mut P,
    right: &mut Q,
    ruler: &mut R,
    ll: &Live,
    lr: &Live,
    r: u64,
) -> Result<Joined, JoinFault>
    ensures metric { R.metric ruler.new ≡ R.metric ruler.old }
    ensures left_same { HoldsSame (P.shelf left.old) (P.shelf left.new) }
    ensures left_keeps { P.keeps left.old left.new }
    ensures left_no_fault { OnOk result ((P.shelf left.new).faults ≡ (P.shelf left.old).faults) }
    ensures right_same { HoldsSame (Q.shelf right.old) (Q.shelf right.new) }
    ensures right_keeps { Q.keeps right.old right.new }
    ensures right_no_fault { OnOk result ((Q.shelf right.new).faults ≡ (Q.shelf right.old).faults) }

    ensures joined { IfOk result (IsJoined (R.M.space (R.metric ruler.old)) ll.now lr.now r (P.shelf left.old) (P.shelf left.new)
        (Q.shelf right.old) (Q.shelf right.new) (R.used ruler.old) (R.used ruler.new)) }
    // On two sound trees the pairs are those of the double loop over the points.
    ensures scanned { IfOk result (λ joined. IsTrue (P.shelf left.old).is_known → IsTrue (Q.shelf right.old).is_known →
        IsSoundTree (R.M.space (R.metric ruler.old)) (nodes_of (P.shelf left.old).read) ll.now →
        IsSoundTree (R.M.space (R.metric ruler.old)) (nodes_of (Q.shelf right.old).read) lr.now →
        joined.pairs ≡ join_pairs (R.M.space (R.metric ruler.old)) (points_by_id (nodes_of (P.shelf left.old).read) ll.now)
        (points_by_id (nodes_of (Q.shelf right.old).read) lr.now) r) }

    ensures cause { IfErr result (HasJoinCause ll.now lr.now (P.shelf left.old) (P.shelf left.new) (Q.shelf right.old)
        (Q.shelf right.new)) }
    ensures sound { IfErr result (λ fault. IsTrue (P.shelf left.old).is_known → IsTrue (Q.shelf right.old).is_known →
        IsSoundTree (R.M.space (R.metric ruler.old)) (nodes_of (P.shelf left.old).read) ll.now →
        IsSoundTree (R.M.space (R.metric ruler.old)) (nodes_of (Q.shelf right.old).read) lr.now →
        IsPassing fault) }
{
    if let Err(fault) = tour(alloc, left, ll) {
        return Err(fault_of(false, fault));
    }
    if let Err(fault) = tour(alloc, right, lr) {
        return Err(fault_of(true, fault));
    }
    let begun = JoinWalk::begin(alloc, ll, lr, r)?;
    let walk = walk_pairs(alloc, left, right, ruler, begun)?;
    let joined = joined_of(alloc, ll, lr, r, walk)?;
    Ok(joined)
}
