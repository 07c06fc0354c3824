// Walks along the records of a log, one after the other.
ghost use Rattle.std.specs.Prelude.{◌≡◌, ◌++◌, ◌+◌, ◌≤◌, ◌<◌, ◌^◌, [], ◌∷◌, List, length, reverse, IsTrue, Ok, Err, IfOk, IfErr, IfNone, OnOk};
ghost use Rattle.metric_laws.specs.Counts.{next_count, count_up, CountsUpTo};
ghost use Rattle.page_store.specs.Shelf.{HoldsSame};
ghost use Rattle.log_model.specs.declared.marks.Record.{Record};
ghost use Rattle.log_model.specs.Counts.{entry_count, measured_by, measured};
ghost use Rattle.log_model.specs.Walk.{search_at, root_need};
ghost use Rattle.log_verify.specs.Judged.{first_wrong_in, walked};
ghost use Rattle.log_verify.specs.Causes.{HasCause, IsPageVerdict};
ghost use Rattle.log_verify.specs.Steps.{NamesNode};

use crate::Verdict;
use crate::checking::{check_inner, check_leaf};
use log_model::{Mark, Need, Probe, Record, entry_count};
use metric_laws::Ruler;
use page_store::{PageFault, Pages, SharedNode};
use scan_model::Hit;
use std::alloc::{AllocError, Global};
use tree_shape::Node;

/// A walk from the root, in progress.
#[derive(Drop)]
pub struct Walk {
    /// The number of records taken so far.
    pub taken: u64,
    /// The hits that these records name.
    pub hits: Vec<Hit>,
    /// The pages that are needed, the next one last.
    pub stack: Vec<Need>,
    /// Room for the pages that one node needs.
    pub needs: Vec<Need>,
}

impl Walk {
    // Makes a walk that needs only the root.
    fn begin(alloc: Global, root: u32) -> Result<Self, AllocError>
        ensures taken { IfOk result (λ walk. walk.taken ≡ 0) }
        ensures hits { IfOk result (λ walk. walk.hits.items ≡ []) }
        ensures stack { IfOk result (λ walk. walk.stack.items ≡ root_need root ∷ []) }
    {
        let stack = vec![in alloc;
            Need {
                page: root,
                above: None
            },
        ]?;
        Ok(Walk {
            taken: 0,
            hits: Vec::new(alloc),
            stack,
            needs: Vec::new(alloc),
        })
    }
}

// Puts the needs on the stack, so that the first of them is on top.
pub fn put_on_top<T: Drop>(stack: &mut Vec<T>, needs: &mut Vec<T>) -> Result<(), AllocError>
    ensures { OnOk result (reverse stack.new.items ≡ needs.old.items ++ reverse stack.old.items) }
{
    while let Some(need) = needs.pop() {
        stack.push(need)?;
    }
    Ok(())
}

// Returns the node of a page that the walk needs.
fn node_at<P: Pages>(alloc: Global, pages: &mut P, page: u32) -> Result<SharedNode, Verdict>
    ensures same { HoldsSame (P.shelf pages.old) (P.shelf pages.new) }
    ensures keeps { P.keeps pages.old pages.new }
    ensures no_fault { OnOk result ((P.shelf pages.new).faults ≡ (P.shelf pages.old).faults) }
    ensures asked { (P.shelf pages.new).asked ≡ next_count (P.shelf pages.old).asked }
    ensures reads { (P.shelf pages.new).reads ≤ (P.shelf pages.old).reads + 1 }
    ensures few { IfOk result (λ node. entry_count node < 2 ^ 32) }
    ensures told { IfOk result (λ node. IsTrue (P.shelf pages.old).is_known → (P.shelf pages.old).read page ≡ Ok node) }
    ensures cause { IfErr result (λ v. IsPageVerdict (P.shelf pages.old) (P.shelf pages.new) page v) }
{
    match pages.node(alloc, page, None) {
        Ok(node) => Ok(node),
        Err(PageFault::Memory) => Err(Verdict::Memory),
        Err(fault) => Err(Verdict::Page(fault)),
    }
}

// Returns the first entry of a node whose mark is not allowed. Where there is none, adds the hits and the pages that the marks name.
fn check_node<R: Ruler>(
    ruler: &mut R,
    probe: Probe,
    above: Option<u64>,
    node: &Node,
    marks: &[Mark],
    walk: &mut Walk,
) -> Result<Option<u32>, AllocError>
    requires long { length marks.now ≡ entry_count node.now }
    requires few { entry_count node.now < 2 ^ 32 }
    ensures metric { R.metric ruler.new ≡ R.metric ruler.old }
    ensures taken { walk.new.taken ≡ walk.old.taken }
    ensures wrong { IfOk result (λ w.
        w ≡ first_wrong_in (search_at (R.M.space (R.metric ruler.old)) probe.entry.q.now probe.entry.rho) above node.now
        marks.now) }
    ensures named { IfOk result (λ w.
        IfNone w (NamesNode (search_at (R.M.space (R.metric ruler.old)) probe.entry.q.now probe.entry.rho) node.now marks.now
        walk.old walk.new)) }
    ensures counted { IfOk result (λ w. IfNone w (R.used ruler.new ≡ count_up (R.used ruler.old) (measured_by marks.now))) }
    ensures few_counted { CountsUpTo (R.used ruler.old) (R.used ruler.new) (measured_by marks.now) }
{
    match node {
        Node::Leaf(entries) => check_leaf(ruler, probe, above, entries, marks, &mut walk.hits),
        Node::Inner { entries, .. } => {
            walk.needs.clear();
            let wrong = check_inner(ruler, probe, above, entries, marks, &mut walk.needs)?;
            put_on_top(&mut walk.stack, &mut walk.needs)?;
            Ok(wrong)
        }
    }
}

// Takes the next record. It has to name the next needed page, and to have one allowed mark for each entry of that page's node.
// Clauses: what is asked of the caller (the one without a name); what changes (`taken`, `ok`); what stays (`metric`, `same`, `keeps`); the
// cost (`asked`, `few_asked`, `reads`, `counted`, `few_counted`); the cause of an error (`cause`); faults of the devices (`no_fault`).
fn take_record<P: Pages, R: Ruler>(
    alloc: Global,
    pages: &mut P,
    ruler: &mut R,
    probe: Probe,
    told: &Record,
    walk: &mut Walk,
) -> Result<(), Verdict>
    requires { walk.old.taken < 2 ^ 32 }
    ensures metric { R.metric ruler.new ≡ R.metric ruler.old }
    ensures same { HoldsSame (P.shelf pages.old) (P.shelf pages.new) }
    ensures keeps { P.keeps pages.old pages.new }
    ensures no_fault { OnOk result ((P.shelf pages.new).faults ≡ (P.shelf pages.old).faults) }
    ensures asked { OnOk result ((P.shelf pages.new).asked ≡ next_count (P.shelf pages.old).asked) }
    ensures few_asked { CountsUpTo (P.shelf pages.old).asked (P.shelf pages.new).asked 1 }
    ensures reads { (P.shelf pages.new).reads ≤ (P.shelf pages.old).reads + 1 }
    ensures counted { OnOk result (R.used ruler.new ≡ count_up (R.used ruler.old) (measured_by told.now.marks)) }
    ensures few_counted { CountsUpTo (R.used ruler.old) (R.used ruler.new) (measured_by told.now.marks) }
    ensures taken { OnOk result (walk.new.taken ≡ walk.old.taken + 1) }
    ensures ok { OnOk result (IsTrue (P.shelf pages.old).is_known → (rs : List Record) →
        walked (search_at (R.M.space (R.metric ruler.old)) probe.entry.q.now probe.entry.rho)
        (P.shelf pages.old).read walk.old.hits.items (reverse walk.old.stack.items) (told.now ∷ rs) walk.old.taken
        ≡ walked (search_at (R.M.space (R.metric ruler.old)) probe.entry.q.now probe.entry.rho)
        (P.shelf pages.old).read walk.new.hits.items (reverse walk.new.stack.items) rs walk.new.taken) }
    ensures cause { IfErr result (λ v. HasCause (P.shelf pages.old) (P.shelf pages.new) v ((rs : List Record) →
        walked (search_at (R.M.space (R.metric ruler.old)) probe.entry.q.now probe.entry.rho)
        (P.shelf pages.old).read walk.old.hits.items (reverse walk.old.stack.items) (told.now ∷ rs) walk.old.taken
        ≡ Err v)) }
{
    let Some(need) = walk.stack.pop() else {
        return Err(Verdict::LeftOver(walk.taken));
    };
    if told.page != need.page {
        return Err(Verdict::WrongPage(walk.taken));
    }
    let shared = node_at(alloc, pages, need.page)?;
    let node = shared.as_ref();
    let marks = told.marks.as_slice();
    if marks.len() != entry_count(node) {
        return Err(Verdict::WrongCount(walk.taken));
    }
    match check_node(ruler, probe, need.above, node, marks, walk)? {
        None => {
            walk.taken += 1;
            Ok(())
        }
        Some(entry) => Err(Verdict::WrongMark(walk.taken, entry)),
    }
}

/// Walks from the root along all the records, and returns the hits that they name.
/// Clauses: what is asked of the caller (the one without a name); the answer (`ok`); what stays (`metric`, `same`, `keeps`); the cost
/// (`asked`, `few_asked`, `reads`, `counted`, `few_counted`); the cause of an error (`cause`); faults of the devices (`no_fault`).
pub fn walk_records<P: Pages, R: Ruler>(
    alloc: Global,
    pages: &mut P,
    ruler: &mut R,
    probe: Probe,
    root: u32,
    records: &[Record],
) -> Result<Vec<Hit>, Verdict>
    requires { length records.now < 2 ^ 32 }
    ensures metric { R.metric ruler.new ≡ R.metric ruler.old }
    ensures same { HoldsSame (P.shelf pages.old) (P.shelf pages.new) }
    ensures keeps { P.keeps pages.old pages.new }
    ensures no_fault { OnOk result ((P.shelf pages.new).faults ≡ (P.shelf pages.old).faults) }
    ensures asked { OnOk result ((P.shelf pages.new).asked ≡ count_up (P.shelf pages.old).asked (length records.now)) }
    ensures few_asked { CountsUpTo (P.shelf pages.old).asked (P.shelf pages.new).asked (length records.now) }
    ensures reads { (P.shelf pages.new).reads ≤ (P.shelf pages.old).reads + length records.now }
    ensures counted { OnOk result (R.used ruler.new ≡ count_up (R.used ruler.old) (measured records.now)) }
    ensures few_counted { CountsUpTo (R.used ruler.old) (R.used ruler.new) (measured records.now) }
    ensures ok { IfOk result (λ hits. IsTrue (P.shelf pages.old).is_known →
        walked (search_at (R.M.space (R.metric ruler.old)) probe.entry.q.now probe.entry.rho) (P.shelf pages.old).read []
        (root_need root ∷ []) records.now 0 ≡ Ok hits.items) }
    ensures cause { IfErr result (λ v. HasCause (P.shelf pages.old) (P.shelf pages.new) v
        (walked (search_at (R.M.space (R.metric ruler.old)) probe.entry.q.now probe.entry.rho) (P.shelf pages.old).read []
        (root_need root ∷ []) records.now 0 ≡ Err v)) }
{
    let mut walk = Walk::begin(alloc, root)?;
    for told in records {
        take_record(alloc, pages, ruler, probe, told, &mut walk)?;
    }
    if !walk.stack.is_empty() {
        return Err(Verdict::WrongPage(walk.taken));
    }
    Ok(walk.hits)
}
