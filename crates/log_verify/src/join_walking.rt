// Walks along the records of a join's log, one after the other.
ghost use Rattle.std.specs.Prelude.{◌≡◌, ◌+◌, ◌≤◌, ◌<◌, ◌^◌, ◌-◌, [], ◌∷◌, List, length, reverse, IsTrue, Ok, Err, IfOk, IfErr, OnOk};
ghost use Rattle.page_store.specs.Shelf.{HoldsSame};
ghost use Rattle.metric_laws.specs.Counts.{next_count, CountsUpTo};
ghost use Rattle.log_model.specs.declared.marks.JoinRecord.{JoinRecord};
ghost use Rattle.log_model.specs.Counts.{entry_count, measured_by, join_measured};
ghost use Rattle.log_model.specs.JoinWalk.{opens_right, opened, page_of};
ghost use Rattle.log_model.specs.SoundJoin.{root_pair};
ghost use Rattle.log_model.specs.JoinSteps.{search_within};
ghost use Rattle.log_verify.specs.JoinJudged.{is_of, read_of, join_walked};
ghost use Rattle.log_verify.specs.Causes.{IsNodeFault, verdict_of, IsJoinPageVerdict, HasJoinCause, AskBothUpTo};

use crate::JoinVerdict;
use crate::join_checking::check_node;
use crate::walking::put_on_top;
use log_model::{JoinNeed, JoinProbe, JoinRecord, Matches, entry_count};
use metric_laws::Ruler;
use page_store::{PageFault, Pages, SharedNode};
use scan_model::Pair;
use std::alloc::{AllocError, Global};
use tree_shape::Live;

/// A walk from the pair of roots, in progress.
#[derive(Drop)]
pub struct JoinWalk {
    /// The radius that prunes.
    pub rho: u64,
    /// The number of records taken so far.
    pub taken: u64,
    /// The answers that these records name, and room for the pairs that one node needs.
    pub named: Matches,
    /// The pairs that are needed, the next one last.
    pub stack: Vec<JoinNeed>,
}

impl JoinWalk {
    /// Makes a walk that needs the pair of roots.
    pub fn begin(alloc: Global, left: &Live, right: &Live, rho: u64) -> Result<Self, AllocError>
        ensures rho { IfOk result (λ walk. walk.rho ≡ rho) }
        ensures taken { IfOk result (λ walk. walk.taken ≡ 0) }
        ensures hits { IfOk result (λ walk. walk.named.hits.items ≡ []) }
        ensures stack { IfOk result (λ walk. walk.stack.items ≡ root_pair left.now right.now ∷ []) }
    {
        let roots = JoinNeed::of_roots(left, right);
        let mut stack = Vec::new(alloc);
        stack.push(roots)?;
        Ok(JoinWalk {
            rho,
            taken: 0,
            named: Matches {
                hits: Vec::new(alloc),
                needs: Vec::new(alloc),
            },
            stack,
        })
    }
}

// Returns whether a record names the side and the page of the opened item.
fn is_of(need: &JoinNeed, told: &JoinRecord) -> bool
    ensures { result ≡ is_of need.now told.now }
{
    told.right == need.opens_right() && told.page == need.opened().page()
}

// Returns the node on page `page` of one side.
fn node_at<P: Pages>(alloc: Global, pages: &mut P, page: u32) -> Result<SharedNode, PageFault>
    ensures same { HoldsSame (P.shelf pages.old) (P.shelf pages.new) }
    ensures keeps { P.keeps pages.old pages.new }
    ensures no_fault { OnOk result ((P.shelf pages.new).faults ≡ (P.shelf pages.old).faults) }
    ensures few { IfOk result (λ node. entry_count node < 2 ^ 32) }
    ensures told { IfOk result (λ node. IsTrue (P.shelf pages.old).is_known → (P.shelf pages.old).read page ≡ Ok node) }
    ensures cause { IfErr result (λ fault. IsNodeFault (P.shelf pages.old) (P.shelf pages.new) page fault) }
    ensures asked { (P.shelf pages.new).asked ≡ next_count (P.shelf pages.old).asked }
    ensures reads { (P.shelf pages.new).reads ≤ (P.shelf pages.old).reads + 1 }
{
    pages.node(alloc, page, None)
}

// Returns the verdict for a side's page that gave no node.
fn verdict_of(right: bool, fault: PageFault) -> JoinVerdict
    ensures { result ≡ verdict_of right fault }
{
    match fault {
        PageFault::Memory => JoinVerdict::Memory,
        fault => JoinVerdict::Page { right, fault },
    }
}

// Returns the node of the opened item.
// Clauses: the answer (`few`, `told`); what stays (`left_same`, `left_keeps`, `right_same`, `right_keeps`); the cost (`few_asked`); the
// cause of an error (`cause`); faults of the devices (`left_no_fault`, `right_no_fault`).
#[tactic(auto, using(crate::proofs::Counting::ask_left, crate::proofs::Counting::ask_right))]
fn opened_node<P: Pages, Q: Pages>(
    alloc: Global,
    left: &mut P,
    right: &mut Q,
    need: &JoinNeed,
) -> Result<SharedNode, JoinVerdict>
    ensures left_same { HoldsSame (P.shelf left.old) (P.shelf left.new) }
    ensures left_keeps { P.keeps left.old left.new }
    ensures left_no_fault { OnOk result ((P.shelf left.new).faults ≡ (P.shelf left.old).faults) }
    ensures right_same { HoldsSame (Q.shelf right.old) (Q.shelf right.new) }
    ensures right_keeps { Q.keeps right.old right.new }
    ensures right_no_fault { OnOk result ((Q.shelf right.new).faults ≡ (Q.shelf right.old).faults) }
    ensures few { IfOk result (λ node. entry_count node < 2 ^ 32) }
    ensures told { IfOk result (λ node. IsTrue (P.shelf left.old).is_known → IsTrue (Q.shelf right.old).is_known →
        read_of (P.shelf left.old).read (Q.shelf right.old).read (opens_right need.now) (page_of (opened need.now)) ≡ Ok node) }
    ensures cause { IfErr result (λ v.
        IsJoinPageVerdict (P.shelf left.old) (P.shelf left.new) (Q.shelf right.old) (Q.shelf right.new) need.now v) }
    ensures few_asked { AskBothUpTo (P.shelf left.old) (P.shelf left.new) (Q.shelf right.old) (Q.shelf right.new) 1 }
{
    let page = need.opened().page();
    if need.opens_right() {
        match node_at(alloc, right, page) {
            Ok(node) => Ok(node),
            Err(fault) => Err(verdict_of(true, fault)),
        }
    } else {
        match node_at(alloc, left, page) {
            Ok(node) => Ok(node),
            Err(fault) => Err(verdict_of(false, fault)),
        }
    }
}

// Takes the next record. It has to name the side and the page of the opened item of the next needed pair, and to have one allowed
// mark for each entry of that page's node.
// Clauses: what is asked of the caller (the one without a name); what changes (`taken`, `ok`); what stays (`metric`, `rho`, `left_same`,
// `left_keeps`, `right_same`, `right_keeps`); the cost (`few_asked`, `few_counted`); the cause of an error (`cause`); faults of the devices
// (`left_no_fault`, `right_no_fault`).
fn take_record<P: Pages, Q: Pages, R: Ruler>(
    alloc: Global,
    left: &mut P,
    right: &mut Q,
    ruler: &mut R,
    told: &JoinRecord,
    walk: &mut JoinWalk,
) -> Result<(), JoinVerdict>
    requires { walk.old.taken < 2 ^ 64 - 1 }
    ensures metric { R.metric ruler.new ≡ R.metric ruler.old }
    ensures left_same { HoldsSame (P.shelf left.old) (P.shelf left.new) }
    ensures left_keeps { P.keeps left.old left.new }
    ensures left_no_fault { OnOk result ((P.shelf left.new).faults ≡ (P.shelf left.old).faults) }
    ensures right_same { HoldsSame (Q.shelf right.old) (Q.shelf right.new) }
    ensures right_keeps { Q.keeps right.old right.new }
    ensures right_no_fault { OnOk result ((Q.shelf right.new).faults ≡ (Q.shelf right.old).faults) }
    ensures rho { walk.new.rho ≡ walk.old.rho }
    ensures taken { OnOk result (walk.new.taken ≡ walk.old.taken + 1) }
    ensures ok { OnOk result (IsTrue (P.shelf left.old).is_known → IsTrue (Q.shelf right.old).is_known → (rs : List JoinRecord) →
        join_walked (search_within (R.M.space (R.metric ruler.old)) walk.old.rho) (P.shelf left.old).read
        (Q.shelf right.old).read walk.old.named.hits.items (reverse walk.old.stack.items) (told.now ∷ rs) walk.old.taken
        ≡ join_walked (search_within (R.M.space (R.metric ruler.old)) walk.old.rho) (P.shelf left.old).read
        (Q.shelf right.old).read walk.new.named.hits.items (reverse walk.new.stack.items) rs walk.new.taken) }
    ensures cause { IfErr result (λ v. HasJoinCause (P.shelf left.old) (P.shelf left.new) (Q.shelf right.old) (Q.shelf right.new) v
        ((rs : List JoinRecord) → join_walked (search_within (R.M.space (R.metric ruler.old)) walk.old.rho) (P.shelf left.old).read
        (Q.shelf right.old).read walk.old.named.hits.items (reverse walk.old.stack.items) (told.now ∷ rs) walk.old.taken
        ≡ Err v)) }
    ensures few_asked { AskBothUpTo (P.shelf left.old) (P.shelf left.new) (Q.shelf right.old) (Q.shelf right.new) 1 }
    ensures few_counted { CountsUpTo (R.used ruler.old) (R.used ruler.new) (measured_by told.now.marks) }
{
    let Some(need) = walk.stack.pop() else {
        return Err(JoinVerdict::LeftOver(walk.taken));
    };
    if !is_of(&need, told) {
        return Err(JoinVerdict::WrongPage(walk.taken));
    }
    let node = opened_node(alloc, left, right, &need)?;
    let marks = told.marks.as_slice();
    if marks.len() != entry_count(node.as_ref()) {
        return Err(JoinVerdict::WrongCount(walk.taken));
    }
    let probe = JoinProbe::new(alloc, &need, &node, walk.rho);
    walk.named.needs.clear();
    match check_node(ruler, &probe, marks, &mut walk.named)? {
        None => {
            put_on_top(&mut walk.stack, &mut walk.named.needs)?;
            walk.taken += 1;
            Ok(())
        }
        Some(entry) => Err(JoinVerdict::WrongMark(walk.taken, entry)),
    }
}

/// Walks along all the records, and returns the answers that they name.
/// Clauses: what is asked of the caller (`start`, `few`); the answer (`ok`); what stays (`metric`, `left_same`, `left_keeps`, `right_same`,
/// `right_keeps`); the cost (`few_asked`, `few_counted`); the cause of an error (`cause`); faults of the devices (`left_no_fault`,
/// `right_no_fault`).
pub fn walk_records<P: Pages, Q: Pages, R: Ruler>(
    alloc: Global,
    left: &mut P,
    right: &mut Q,
    ruler: &mut R,
    begun: JoinWalk,
    records: &[JoinRecord],
) -> Result<Vec<Pair>, JoinVerdict>
    requires start { begun.taken ≡ 0 }
    requires few { length records.now < 2 ^ 64 }
    ensures metric { R.metric ruler.new ≡ R.metric ruler.old }
    ensures left_same { HoldsSame (P.shelf left.old) (P.shelf left.new) }
    ensures left_keeps { P.keeps left.old left.new }
    ensures left_no_fault { OnOk result ((P.shelf left.new).faults ≡ (P.shelf left.old).faults) }
    ensures right_same { HoldsSame (Q.shelf right.old) (Q.shelf right.new) }
    ensures right_keeps { Q.keeps right.old right.new }
    ensures right_no_fault { OnOk result ((Q.shelf right.new).faults ≡ (Q.shelf right.old).faults) }
    ensures ok { IfOk result (λ hits. IsTrue (P.shelf left.old).is_known → IsTrue (Q.shelf right.old).is_known →
        join_walked (search_within (R.M.space (R.metric ruler.old)) begun.rho) (P.shelf left.old).read
        (Q.shelf right.old).read begun.named.hits.items (reverse begun.stack.items) records.now 0 ≡ Ok hits.items) }
    ensures cause { IfErr result (λ v. HasJoinCause (P.shelf left.old) (P.shelf left.new) (Q.shelf right.old) (Q.shelf right.new) v
        (join_walked (search_within (R.M.space (R.metric ruler.old)) begun.rho) (P.shelf left.old).read
        (Q.shelf right.old).read begun.named.hits.items (reverse begun.stack.items) records.now 0 ≡ Err v)) }
    ensures few_asked { AskBothUpTo (P.shelf left.old) (P.shelf left.new) (Q.shelf right.old) (Q.shelf right.new) (length records.now) }
    ensures few_counted { CountsUpTo (R.used ruler.old) (R.used ruler.new) (join_measured records.now) }
{
    let mut walk = begun;
    for told in records {
        take_record(alloc, left, right, ruler, told, &mut walk)?;
    }
    if !walk.stack.is_empty() {
        return Err(JoinVerdict::WrongPage(walk.taken));
    }
    Ok(walk.named.hits)
}
