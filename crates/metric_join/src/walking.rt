// The walk of pairs.
ghost use Rattle.std.specs.Prelude.{◌≡◌, ◌++◌, ◌+◌, ◌<◌, ◌≤◌, ℕ, [], ◌∷◌, map, reverse, min, IfOk, IfErr, OnOk};
ghost use Rattle.metric_laws.specs.Space.{bound};
ghost use Rattle.tree_shape.specs.declared.live.Live.{Live};
ghost use Rattle.metric_laws.specs.Counts.{next_count};
ghost use Rattle.page_store.specs.Shelf.{Shelf, HoldsSame, IsNodeOf};
ghost use Rattle.log_model.specs.SoundJoin.{root_pair};
ghost use Rattle.log_model.specs.JoinSteps.{search_within};
ghost use Rattle.metric_join.specs.Steps.{following, record_for, weight, weight_of, HasStop, HasStopped, HasWalkCause, IsOpened, IsUnderWay};

use crate::JoinFault;
use crate::faults::fault_of;
use crate::opening::{Opening, open_node};
use log_model::{JoinNeed, JoinProbe, JoinRecord, NodeMarks};
use metric_laws::{BOUND, Ruler};
use page_store::{PageFault, Pages, SharedNode};
use scan_model::Pair;
use std::alloc::{AllocError, Global};
use std::mem;
use tree_shape::Live;

/// A pair that is still to be opened.
#[derive(Drop)]
pub struct Waiting {
    /// The pair.
    pub need: JoinNeed,
    /// How many more nodes of the left tree one path may go through.
    pub left_room: u32,
    /// How many more nodes of the right tree one path may go through.
    pub right_room: u32,
}

/// An empty list of pairs, whose memory the next opening reuses.
#[derive(Drop)]
pub struct Spare {
    list: Vec<JoinNeed>,
    ghost empty: { list.items ≡ [] },
}

impl Spare {
    fn of(list: Vec<JoinNeed>) -> Self
        requires { list.items ≡ [] }
    {
        Spare { list }
    }

    fn into_list(self) -> Vec<JoinNeed>
        ensures { result.items ≡ [] }
    {
        self.list
    }
}

/// A walk from the pair of roots, under way.
#[derive(Drop)]
pub struct JoinWalk {
    /// The radius that prunes.
    pub rho: u64,
    /// The opened nodes, in the order of the walk.
    pub records: Vec<JoinRecord>,
    /// The pairs of objects that are marked Near, in the order of the walk.
    pub hits: Vec<Pair>,
    /// The waiting pairs, the next one last.
    pub stack: Vec<Waiting>,
    /// The list of the pair that was opened last.
    pub spare: Spare,
}

impl JoinWalk {
    /// Begins a walk with the pair of roots.
    pub fn begin(alloc: Global, left: &Live, right: &Live, r: u64) -> Result<Self, AllocError>
        ensures rho { IfOk result (λ walk. walk.rho ≡ min r bound) }
        ensures records { IfOk result (λ walk. walk.records.items ≡ []) }
        ensures hits { IfOk result (λ walk. walk.hits.items ≡ []) }
        ensures stack { IfOk result (λ walk.
            walk.stack.items ≡ (record {
              need = root_pair left.now right.now;
              left_room = left.now.pages;
              right_room = right.now.pages;
            }) ∷ []) }
    {
        let roots = Waiting {
            need: JoinNeed::of_roots(left, right),
            left_room: left.pages,
            right_room: right.pages,
        };
        let mut stack = Vec::new(alloc);
        stack.push(roots)?;
        Ok(JoinWalk {
            rho: r.min(BOUND),
            records: Vec::new(alloc),
            hits: Vec::new(alloc),
            stack,
            spare: Spare::of(Vec::new(alloc)),
        })
    }

    // Takes in what the opening of a pair made: its record, its answers, and the pairs that it needs, which come next.
    fn take(&mut self, alloc: Global, waiting: &Waiting, opening: Opening) -> Result<(), AllocError>
        ensures rho { self.new.rho ≡ self.old.rho }
        ensures records { OnOk result (self.new.records.items ≡ self.old.records.items ++ record_for waiting.now opening.marks.items ∷ []) }
        ensures hits { OnOk result (self.new.hits.items ≡ self.old.hits.items ++ opening.matches.hits.items) }
        ensures stack { OnOk result (reverse self.new.stack.items ≡
            map (following waiting.now) opening.matches.needs.items ++ reverse self.old.stack.items) }
    {
        self.records.push(JoinRecord {
            right: waiting.need.opens_right(),
            page: waiting.need.opened().page(),
            marks: NodeMarks::from_slice(alloc, opening.marks.as_slice())?,
        })?;
        let mut matches = opening.matches;
        self.hits.append(&mut matches.hits)?;
        self.spare = Spare::of(put_on_top(&mut self.stack, waiting, matches.needs)?);
        Ok(())
    }
}

// Makes a waiting pair of a need of an opened pair, with the room that is left on each side.
fn follow(waiting: &Waiting, need: JoinNeed) -> Waiting
    ensures { result ≡ following waiting.now need }
{
    if waiting.need.opens_right() {
        Waiting {
            need,
            left_room: waiting.left_room,
            right_room: waiting.right_room.saturating_sub(1),
        }
    } else {
        Waiting {
            need,
            left_room: waiting.left_room.saturating_sub(1),
            right_room: waiting.right_room,
        }
    }
}

// Pushes the needs of an opened pair on the stack, so that the first of them is on top, and returns their list, emptied.
fn put_on_top(
    stack: &mut Vec<Waiting>,
    waiting: &Waiting,
    needs: Vec<JoinNeed>,
) -> Result<Vec<JoinNeed>, AllocError>
    ensures stack { OnOk result (reverse stack.new.items ≡ map (following waiting.now) needs.items ++ reverse stack.old.items) }
    ensures empty { IfOk result (λ list. list.items ≡ []) }
{
    let mut left = needs;
    while let Some(need) = left.pop() {
        stack.push(follow(waiting, need))?;
    }
    Ok(left)
}

// Reads the node of a page of one side, where its path has room left.
fn node_at<P: Pages>(
    alloc: Global,
    pages: &mut P,
    page: u32,
    room: u32,
) -> Result<SharedNode, PageFault>
    ensures same { HoldsSame (P.shelf pages.old) (P.shelf pages.new) }
    ensures keeps { P.keeps pages.old pages.new }
    ensures ok { IfOk result (IsNodeOf (P.shelf pages.old) page) }
    ensures no_fault { OnOk result ((P.shelf pages.new).faults ≡ (P.shelf pages.old).faults) }
    ensures asked { OnOk result ((P.shelf pages.new).asked ≡ next_count (P.shelf pages.old).asked) }
    ensures room { OnOk result (1 ≤ room) }
    ensures cause { IfErr result (HasStop room (P.shelf pages.old) (P.shelf pages.new) page) }
{
    if room == 0 {
        return Err(PageFault::Repeats(page));
    }
    pages.node(alloc, page, None)
}

// Reads the node of the opened item.
fn opened_node<P: Pages, Q: Pages>(
    alloc: Global,
    left: &mut P,
    right: &mut Q,
    waiting: &Waiting,
) -> Result<SharedNode, JoinFault>
    ensures left_same { HoldsSame (P.shelf left.old) (P.shelf left.new) }
    ensures left_keeps { P.keeps left.old left.new }
    ensures left_no_fault { OnOk result ((P.shelf left.new).faults ≡ (P.shelf left.old).faults) }
    ensures right_same { HoldsSame (Q.shelf right.old) (Q.shelf right.new) }
    ensures right_keeps { Q.keeps right.old right.new }
    ensures right_no_fault { OnOk result ((Q.shelf right.new).faults ≡ (Q.shelf right.old).faults) }
    ensures ok { IfOk result (IsOpened (P.shelf left.old) (P.shelf left.new) (Q.shelf right.old) (Q.shelf right.new) waiting.now) }
    ensures cause { IfErr result (HasStopped (P.shelf left.old) (P.shelf left.new) (Q.shelf right.old) (Q.shelf right.new) waiting.now) }
{
    let page = waiting.need.opened().page();
    if waiting.need.opens_right() {
        match node_at(alloc, right, page, waiting.right_room) {
            Ok(node) => Ok(node),
            Err(fault) => Err(fault_of(true, fault)),
        }
    } else {
        match node_at(alloc, left, page, waiting.left_room) {
            Ok(node) => Ok(node),
            Err(fault) => Err(fault_of(false, fault)),
        }
    }
}

// Opens the item of greater rank of a needed pair.
// Clauses: what changes (`on`, `lighter`); what stays (`metric`, `rho`, `left_same`, `left_keeps`, `right_same`, `right_keeps`); the cause
// of an error (`cause`); faults of the devices (`left_no_fault`, `right_no_fault`).
fn open_pair<P: Pages, Q: Pages, R: Ruler>(
    alloc: Global,
    left: &mut P,
    right: &mut Q,
    ruler: &mut R,
    waiting: Waiting,
    walk: &mut JoinWalk,
) -> Result<(), JoinFault>
    ensures metric { R.metric ruler.new ≡ R.metric ruler.old }
    ensures left_same { HoldsSame (P.shelf left.old) (P.shelf left.new) }
    ensures left_keeps { P.keeps left.old left.new }
    ensures left_no_fault { OnOk result ((P.shelf left.new).faults ≡ (P.shelf left.old).faults) }
    ensures right_same { HoldsSame (Q.shelf right.old) (Q.shelf right.new) }
    ensures right_keeps { Q.keeps right.old right.new }
    ensures right_no_fault { OnOk result ((Q.shelf right.new).faults ≡ (Q.shelf right.old).faults) }
    ensures rho { walk.new.rho ≡ walk.old.rho }
    ensures on { OnOk result ((l r : Live) (left1 right1 : Shelf) (used1 : ℕ) →
        IsUnderWay (search_within (R.M.space (R.metric ruler.old)) walk.old.rho) l r left1 (P.shelf left.old) right1
        (Q.shelf right.old) used1 (R.used ruler.old)
        walk.old.records.items walk.old.hits.items (waiting ∷ reverse walk.old.stack.items) →
        IsUnderWay (search_within (R.M.space (R.metric ruler.old)) walk.old.rho) l r left1 (P.shelf left.new) right1
        (Q.shelf right.new) used1 (R.used ruler.new)
        walk.new.records.items walk.new.hits.items (reverse walk.new.stack.items)) }
    ensures lighter { OnOk result (weight (reverse walk.new.stack.items) < weight_of waiting + weight (reverse walk.old.stack.items)) }
    ensures cause { IfErr result (HasStopped (P.shelf left.old) (P.shelf left.new) (Q.shelf right.old) (Q.shelf right.new) waiting) }
{
    let node = opened_node(alloc, left, right, &waiting)?;
    let probe = JoinProbe::new(alloc, &waiting.need, &node, walk.rho);
    let needs = mem::replace(&mut walk.spare, Spare::of(Vec::new(alloc))).into_list();
    let opening = open_node(ruler, &probe, needs)?;
    walk.take(alloc, &waiting, opening)?;
    Ok(())
}

/// Walks on until no pair waits, or a page gives no node.
/// Clauses: the answer (`ok`); what stays (`metric`, `left_same`, `left_keeps`, `right_same`, `right_keeps`); the cause of an error
/// (`cause`); faults of the devices (`left_no_fault`, `right_no_fault`).
pub fn walk_pairs<P: Pages, Q: Pages, R: Ruler>(
    alloc: Global,
    left: &mut P,
    right: &mut Q,
    ruler: &mut R,
    begun: JoinWalk,
) -> Result<JoinWalk, JoinFault>
    ensures metric { R.metric ruler.new ≡ R.metric ruler.old }
    ensures left_same { HoldsSame (P.shelf left.old) (P.shelf left.new) }
    ensures left_keeps { P.keeps left.old left.new }
    ensures left_no_fault { OnOk result ((P.shelf left.new).faults ≡ (P.shelf left.old).faults) }
    ensures right_same { HoldsSame (Q.shelf right.old) (Q.shelf right.new) }
    ensures right_keeps { Q.keeps right.old right.new }
    ensures right_no_fault { OnOk result ((Q.shelf right.new).faults ≡ (Q.shelf right.old).faults) }
    ensures ok { IfOk result (λ walk. (l r : Live) →
        IsUnderWay (search_within (R.M.space (R.metric ruler.old)) begun.rho) l r (P.shelf left.old) (P.shelf left.old)
        (Q.shelf right.old) (Q.shelf right.old) (R.used ruler.old) (R.used ruler.old)
        begun.records.items begun.hits.items (reverse begun.stack.items) →
        IsUnderWay (search_within (R.M.space (R.metric ruler.old)) begun.rho) l r (P.shelf left.old) (P.shelf left.new)
        (Q.shelf right.old) (Q.shelf right.new) (R.used ruler.old) (R.used ruler.new)
        walk.records.items walk.hits.items []) }
    ensures cause { IfErr result (λ fault. (l r : Live) →
        IsUnderWay (search_within (R.M.space (R.metric ruler.old)) begun.rho) l r (P.shelf left.old) (P.shelf left.old)
        (Q.shelf right.old) (Q.shelf right.old) (R.used ruler.old) (R.used ruler.old)
        begun.records.items begun.hits.items (reverse begun.stack.items) →
        HasWalkCause l r (P.shelf left.old) (P.shelf left.new) (Q.shelf right.old) (Q.shelf right.new) fault) }
{
    let mut walk = begun;
    while let Some(waiting) = walk.stack.pop() {
        open_pair(alloc, left, right, ruler, waiting, &mut walk)?;
    }
    Ok(walk)
}
