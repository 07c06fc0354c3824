ghost use Rattle.std.specs.Prelude.{◌≡◌, length, None, Some, IsTrue, IfOk, IfErr, OnOk};
ghost use Rattle.page_store.specs.Reading.{nodes_of};
ghost use Rattle.page_store.specs.Shelf.{HoldsSame};
ghost use Rattle.metric_laws.specs.Counts.{CountsUpTo};
ghost use Rattle.log_model.specs.Counts.{join_measured};
ghost use Rattle.log_model.specs.Grammar.{IsValidJoinLog};
ghost use Rattle.log_model.specs.SoundJoin.{IsSoundJoinLog};
ghost use Rattle.log_verify.specs.JoinJudged.{join_fault};
ghost use Rattle.log_verify.specs.Causes.{HasJoinCause, IsJoinPassing, AskBothUpTo};

use crate::join_walking::{JoinWalk, walk_records};
use crate::judging::{compare_pairs, names};
use crate::{Accepted, JoinVerdict};
use log_model::{JoinLog, put_pairs_in_order};
use metric_laws::{BOUND, Ruler};
use page_store::Pages;
use std::alloc::Global;
use tree_shape::Live;

/// Accepts a join's log exactly where it is sound on the two live trees, whatever the pages hold. A sound log names the live
/// generations and roots. The walk from the pair of roots takes all its records, and each record has one allowed mark for each entry
/// of its page. Its answers are those that the records name, in order.
///
/// Otherwise it returns the first fault: the left state; the right state; then record by record the side and page, the number of
/// marks and the marks; then a record that is left over; then the first answer that differs.
///
/// It asks for at most one page for each record, of either side, and computes at most one distance for each mark that isn't Skip.
/// Clauses: what is asked of the caller (`valid`); the answer (`records`, `faultless`, `sound`); what stays (`metric`, `left_same`,
/// `left_keeps`, `right_same`, `right_keeps`); the cost (`few_asked`, `few_counted`); the cause of an error (`cause`, `complete`); faults
/// of the devices (`left_no_fault`, `right_no_fault`).
/// Arguments: `left` and `right` are the pages of the two trees, `ll` and `lr` their live slots, and `ruler` measures for both.
pub fn verify_join<P: Pages, Q: Pages, R: Ruler>(
    alloc: Global,
    left: &mut P,
    right: &mut Q,
    ruler: &mut R,
    ll: &Live,
    lr: &Live,
    log: &JoinLog,
) -> Result<Accepted, JoinVerdict>
    requires valid { IsValidJoinLog log.now }
    ensures metric { R.metric ruler.new ≡ R.metric ruler.old }
    ensures left_same { HoldsSame (P.shelf left.old) (P.shelf left.new) }
    ensures left_keeps { P.keeps left.old left.new }
    ensures left_no_fault { OnOk result ((P.shelf left.new).faults ≡ (P.shelf left.old).faults) }
    ensures right_same { HoldsSame (Q.shelf right.old) (Q.shelf right.new) }
    ensures right_keeps { Q.keeps right.old right.new }
    ensures right_no_fault { OnOk result ((Q.shelf right.new).faults ≡ (Q.shelf right.old).faults) }

    ensures records { IfOk result (λ accepted. accepted.records ≡ length log.now.records) }
    ensures faultless { OnOk result (IsTrue (P.shelf left.old).is_known → IsTrue (Q.shelf right.old).is_known →
        join_fault (R.M.space (R.metric ruler.old)) (P.shelf left.old).read (Q.shelf right.old).read ll.now lr.now log.now ≡ None) }
    ensures sound { OnOk result (IsTrue (P.shelf left.old).is_known → IsTrue (Q.shelf right.old).is_known →
        IsSoundJoinLog (R.M.space (R.metric ruler.old)) (nodes_of (P.shelf left.old).read) (nodes_of (Q.shelf right.old).read)
        ll.now lr.now log.now) }
    // The verdict is the first fault.
    ensures cause { IfErr result (λ v. HasJoinCause (P.shelf left.old) (P.shelf left.new) (Q.shelf right.old) (Q.shelf right.new) v
        (join_fault (R.M.space (R.metric ruler.old)) (P.shelf left.old).read (Q.shelf right.old).read ll.now lr.now log.now ≡ Some v)) }
    // A sound log is accepted, unless a disk fails or memory runs out.
    ensures complete { IfErr result (λ v. IsTrue (P.shelf left.old).is_known → IsTrue (Q.shelf right.old).is_known →
        IsSoundJoinLog (R.M.space (R.metric ruler.old)) (nodes_of (P.shelf left.old).read)
        (nodes_of (Q.shelf right.old).read) ll.now lr.now log.now → IsJoinPassing v) }

    // The cost.
    ensures few_asked { AskBothUpTo (P.shelf left.old) (P.shelf left.new) (Q.shelf right.old) (Q.shelf right.new) (length log.now.records) }
    ensures few_counted { CountsUpTo (R.used ruler.old) (R.used ruler.new) (join_measured log.now.records) }
{
    if !names(log.left, ll) {
        return Err(JoinVerdict::OtherState {
            right: false,
            named: log.left,
            live: (ll.generation, ll.root),
        });
    }
    if !names(log.right, lr) {
        return Err(JoinVerdict::OtherState {
            right: true,
            named: log.right,
            live: (lr.generation, lr.root),
        });
    }
    let begun = JoinWalk::begin(alloc, ll, lr, log.r.min(BOUND))?;
    let records = log.records.as_slice();
    let mut hits = walk_records(alloc, left, right, ruler, begun, records)?;
    put_pairs_in_order(&mut hits);
    match compare_pairs(log.answers.as_slice(), hits.as_slice()) {
        None => Ok(Accepted {
            records: records.len() as u64,
        }),
        Some(verdict) => Err(verdict),
    }
}
