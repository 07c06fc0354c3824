// Walks along the records of a join's log, as far as they lead, and shows each node.
ghost use Rattle.std.specs.Prelude.{◌≡◌, ◌⊎◌, ◌+◌, ◌-◌, ◌<◌, ◌≤◌, ◌^◌, ℕ, List, [], ◌∷◌, length, reverse};
ghost use Rattle.std.specs.Prelude.{IsTrue, IfOk, IfSome, IsErrOf, OnOk};
ghost use Rattle.std.specs.List.{AllByRecursion};
ghost use Rattle.outside_io.specs.Causes.{Rose};
ghost use Rattle.page_store.specs.Shelf.{HoldsSame};
ghost use Rattle.log_model.specs.declared.marks.JoinRecord.{JoinRecord};
ghost use Rattle.log_model.specs.Counts.{entry_count};
ghost use Rattle.log_model.specs.SoundJoin.{root_pair};
ghost use Rattle.log_verify.specs.JoinJudged.{is_of};
ghost use Rattle.job_show.specs.Walks.{node_marked, none_counted, with_marks};
ghost use Rattle.job_show.specs.Steps.{AreSmall};
ghost use Rattle.job_show_joins.specs.Walks.{coming_at, node_told, shown};
ghost use Rattle.job_join.specs.Both.{HoldBoth, OneRose};
ghost use Rattle.job_show_joins.specs.Steps.{AreUpTo, search_by, shown_then, walk_shown};

use crate::PairComing;
use crate::entries::{PairGauge, PairSearch};
use crate::nodes::show_node;
use crate::shown::PairWalk;
use job_files::logs::LogStop;
use job_show::{Counts, stop_at};
use log_model::{JoinNeed, JoinRecord, Mark, Matches, entry_count};
use page_store::{Pages, SharedNode};
use std::alloc::{AllocError, Global};
use tree_shape::Live;

impl PairWalk {
    /// Makes a walk that has shown nothing, and has the pairs of `stack` to open, the next one last.
    pub fn begin(alloc: Global, stack: Vec<PairComing>) -> Self
        ensures lines { result.lines.items ≡ [] }
        ensures counts { result.counts ≡ none_counted }
        ensures measured { result.measured ≡ 0 }
        ensures stack { result.stack ≡ stack }
    {
        PairWalk {
            lines: Vec::new(alloc),
            counts: Counts {
                opened: 0,
                skips: 0,
                fars: 0,
                nears: 0,
            },
            measured: 0,
            stack,
            named: Matches {
                hits: Vec::new(alloc),
                needs: Vec::new(alloc),
            },
        }
    }

    /// Makes a walk that has the pair of roots to open.
    pub fn begin_at(alloc: Global, left: &Live, right: &Live) -> Result<Self, AllocError>
        ensures lines { IfOk result (λ walk. walk.lines.items ≡ []) }
        ensures counts { IfOk result (λ walk. walk.counts ≡ none_counted) }
        ensures measured { IfOk result (λ walk. walk.measured ≡ 0) }
        ensures stack { IfOk result (λ walk. walk.stack.items ≡ coming_at 0 (root_pair left.now right.now) ∷ []) }
    {
        let need = JoinNeed::of_roots(left, right);
        let mut stack = Vec::new(alloc);
        stack.push(PairComing { need, depth: 0 })?;
        Ok(PairWalk::begin(alloc, stack))
    }
}

// Returns whether a record names the side and the page of the opened item.
fn is_of(need: &JoinNeed, told: &JoinRecord) -> bool
    ensures { result ≡ is_of need.now told.now }
{
    told.right == need.opens_right() && told.page == need.opened().page()
}

// Returns the node on a page of one side, where there is one mark for each of its entries.
fn node_marked<P: Pages>(
    alloc: Global,
    pages: &mut P,
    page: u32,
    marks: &[Mark],
) -> Result<Option<SharedNode>, LogStop>
    ensures same { HoldsSame (P.shelf pages.old) (P.shelf pages.new) }
    ensures keeps { P.keeps pages.old pages.new }
    ensures node { IfOk result (λ found. IsTrue (P.shelf pages.old).is_known → found ≡
        node_marked marks.now ((P.shelf pages.old).read page)) }
    ensures long { IfOk result (λ found. IfSome found (λ node. length marks.now ≡ entry_count node)) }
    ensures disk { IsErrOf result LogStop.Disk → Rose (P.shelf pages.old).faults (P.shelf pages.new).faults }
    ensures not_sink { IsErrOf result LogStop.Sink → ⊥ }
{
    let shared = match pages.node(alloc, page, None) {
        Ok(shared) => shared,
        Err(fault) => {
            stop_at(fault)?;
            return Ok(None);
        }
    };
    if marks.len() != entry_count(shared.as_ref()) {
        return Ok(None);
    }
    Ok(Some(shared))
}

// Returns the node of the opened item, where the record `told` names its side and its page and has one mark for each of its entries.
fn node_told<P: Pages, Q: Pages>(
    alloc: Global,
    left: &mut P,
    right: &mut Q,
    need: &JoinNeed,
    told: &JoinRecord,
) -> Result<Option<SharedNode>, LogStop>
    ensures same { HoldBoth (P.shelf left.old) (P.shelf left.new) (Q.shelf right.old) (Q.shelf right.new) }
    ensures left_keeps { P.keeps left.old left.new }
    ensures right_keeps { Q.keeps right.old right.new }
    ensures node { IfOk result (λ found. IsTrue (P.shelf left.old).is_known → IsTrue (Q.shelf right.old).is_known →
        found ≡ node_told (P.shelf left.old).read (Q.shelf right.old).read need.now told.now) }
    ensures long { IfOk result (λ found. IfSome found (λ node. length told.now.marks ≡ entry_count node)) }
    ensures disk { IsErrOf result LogStop.Disk → OneRose (P.shelf left.old) (P.shelf left.new) (Q.shelf right.old) (Q.shelf right.new) }
    ensures not_sink { IsErrOf result LogStop.Sink → ⊥ }
{
    if !is_of(need, told) {
        return Ok(None);
    }
    let page = need.opened().page();
    let marks = told.marks.as_slice();
    if need.opens_right() {
        node_marked(alloc, right, page, marks)
    } else {
        node_marked(alloc, left, page, marks)
    }
}

// Shows the next record. A record that does not lead on ends the walk.
// Clauses: what is asked of the caller (`deep`, `short`, `small`, `room`); what changes (`shown`, `depths`, `counts`, `measured`); what
// stays (`same`, `left_keeps`, `right_keeps`); the cause of an error (`disk`, `not_sink`).
fn show_record<P: Pages, Q: Pages>(
    search: PairSearch,
    left: &mut P,
    right: &mut Q,
    told: &JoinRecord,
    walk: &mut PairWalk,
) -> Result<(), LogStop>
    requires deep { AreUpTo (2 ^ 32 - 2) (reverse walk.old.stack.items) }
    requires short { length told.now.marks ≤ 32 }
    requires small { AreSmall (with_marks told.now.marks walk.old.counts) }
    requires room { walk.old.measured + 64 < 2 ^ 64 }
    ensures same { HoldBoth (P.shelf left.old) (P.shelf left.new) (Q.shelf right.old) (Q.shelf right.new) }
    ensures left_keeps { P.keeps left.old left.new }
    ensures right_keeps { Q.keeps right.old right.new }
    ensures shown { OnOk result (IsTrue (P.shelf left.old).is_known → IsTrue (Q.shelf right.old).is_known → (rs : List JoinRecord) →
        shown_then walk.old (shown (search_by search) (P.shelf left.old).read (Q.shelf right.old).read
        (reverse walk.old.stack.items) (told.now ∷ rs))
        ≡ shown_then walk.new (shown (search_by search) (P.shelf left.old).read (Q.shelf right.old).read
        (reverse walk.new.stack.items) rs)) }
    ensures depths { OnOk result ((depth : ℕ) → AreUpTo depth (reverse walk.old.stack.items) →
        AreUpTo (depth + 1) (reverse walk.new.stack.items)) }
    ensures counts { OnOk result ((walk.new.counts ≡ walk.old.counts) ⊎ (walk.new.counts ≡ with_marks told.now.marks walk.old.counts)) }
    ensures measured { OnOk result (walk.new.measured ≤ walk.old.measured + 64) }
    ensures disk { IsErrOf result LogStop.Disk → OneRose (P.shelf left.old) (P.shelf left.new) (Q.shelf right.old) (Q.shelf right.new) }
    ensures not_sink { IsErrOf result LogStop.Sink → ⊥ }
{
    let Some(coming) = walk.stack.pop() else {
        return Ok(());
    };
    let Some(node) = node_told(search.alloc, left, right, &coming.need, told)? else {
        walk.stack.clear();
        return Ok(());
    };
    let gauge = PairGauge {
        search,
        coming: &coming,
        node: &node,
    };
    show_node(gauge, told.marks.as_slice(), walk)?;
    Ok(())
}

// Shows the records of a walk that has begun, as far as they lead.
// Clauses: what is asked of the caller (`few`, `marks`, `lines`, `counts`, `measured`, `deep`); the answer (`shown`); what stays (`same`,
// `left_keeps`, `right_keeps`); the cause of an error (`disk`, `not_sink`).
pub fn show_records<P: Pages, Q: Pages>(
    search: PairSearch,
    left: &mut P,
    right: &mut Q,
    begun: PairWalk,
    records: &[JoinRecord],
) -> Result<PairWalk, LogStop>
    requires few { length records.now < 2 ^ 32 }
    requires marks { AllByRecursion (λ r. length r.marks ≤ 32) records.now }
    requires lines { begun.lines.items ≡ [] }
    requires counts { begun.counts ≡ none_counted }
    requires measured { begun.measured ≡ 0 }
    requires deep { AreUpTo 0 (reverse begun.stack.items) }
    ensures same { HoldBoth (P.shelf left.old) (P.shelf left.new) (Q.shelf right.old) (Q.shelf right.new) }
    ensures left_keeps { P.keeps left.old left.new }
    ensures right_keeps { Q.keeps right.old right.new }
    ensures shown { IfOk result (λ walk. IsTrue (P.shelf left.old).is_known → IsTrue (Q.shelf right.old).is_known →
        walk_shown walk ≡ shown (search_by search) (P.shelf left.old).read (Q.shelf right.old).read
        (reverse begun.stack.items) records.now) }
    ensures disk { IsErrOf result LogStop.Disk → OneRose (P.shelf left.old) (P.shelf left.new) (Q.shelf right.old) (Q.shelf right.new) }
    ensures not_sink { IsErrOf result LogStop.Sink → ⊥ }
{
    let mut walk = begun;
    for told in records {
        show_record(search, left, right, told, &mut walk)?;
    }
    Ok(walk)
}
