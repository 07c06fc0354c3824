ghost use Rattle.std.specs.Prelude.{◌≡◌, ◌+◌, ◌*◌, ◌≤◌, ◌<◌, ◌^◌, ◌++◌, ◌∷◌, [], length, IfOk, IfErr, OnOk};
ghost use Rattle.std.specs.List.{AllByRecursion};
ghost use Rattle.metric_laws.specs.Space.{bound};
ghost use Rattle.tree_shape.specs.Tree.{parent_distance};
ghost use Rattle.tree_shape.specs.declared.entry.Node.TheVariants.{Leaf, Inner};
ghost use Rattle.insert_path.specs.Walk.{walk_fault, inner_ball};
ghost use Rattle.insert_path.specs.Causes.{HasAsked, HasWalkCause};
ghost use Rattle.insert_path.specs.Descent.{plan_of, above_of, leaf_ball, leaf_with, inner_with, new_entry, entry_of, regrown, IsNear, IsSmall, IsStaged, Descends};
ghost use Rattle.page_store.specs.Numbers.{number_at};
ghost use Rattle.page_store.specs.Shelf.{HoldsSame, HasPageCause};

use crate::choice::choose;
use crate::grew::{Grew, Stem};
use crate::staging::stage;
use crate::task::{Spot, Task, Written};
use metric_laws::{Point, Ruler};
use page_store::{PageFault, Pages, own_node};
use std::alloc::{AllocError, Global};
use tree_shape::{InnerEntry, LeafEntry, Node};

// Returns the parent distance of `p`.
fn parent_of<R: Ruler>(ruler: &mut R, spot: &Spot<'_>, p: &[u32]) -> u64
    ensures metric { R.metric ruler.new ≡ R.metric ruler.old }
    ensures dist { result ≡ parent_distance (R.M.space (R.metric ruler.old)) (above_of spot.now.root spot.now.above.now) p.now }
    ensures within { result ≤ bound }
{
    if spot.root {
        0
    } else {
        ruler.dist(p, spot.above)
    }
}

// Makes the entry of a new page.
fn entry_from<R: Ruler>(ruler: &mut R, spot: &Spot<'_>, stem: Stem) -> InnerEntry
    ensures metric { R.metric ruler.new ≡ R.metric ruler.old }
    ensures within { result.parent ≤ bound }
    ensures entry { result ≡ entry_of (parent_distance (R.M.space (R.metric ruler.old)) (above_of spot.now.root spot.now.above.now)) stem }
{
    let parent = parent_of(ruler, spot, stem.point.as_slice());
    InnerEntry {
        child: stem.page,
        radius: stem.radius,
        parent,
        point: stem.point,
    }
}

// Puts what a child has grown to into its node.
#[tactic(auto, using(crate::proofs::Back::regrown_one, crate::proofs::Back::regrown_two, crate::proofs::Back::all_set))]
fn regrow<R: Ruler>(
    ruler: &mut R,
    task: &Task<'_>,
    spot: &Spot<'_>,
    place: usize,
    grew: Grew,
    entries: &mut Vec<InnerEntry>,
) -> Result<(), AllocError>
    requires place { place < length entries.old.items }
    requires near { AllByRecursion IsNear entries.old.items }
    requires small { IsSmall grew }
    ensures metric { R.metric ruler.new ≡ R.metric ruler.old }
    ensures near { OnOk result (AllByRecursion IsNear entries.new.items) }
    ensures entries { OnOk result (entries.new.items ≡ regrown ((R.M.space (R.metric ruler.old)).dist task.now.object.point.now)
        (parent_distance (R.M.space (R.metric ruler.old)) (above_of spot.now.root spot.now.above.now)) place grew
        entries.old.items) }
{
    match grew {
        Grew::One(page) => {
            let dist = ruler.dist(task.object.point, entries[place].point.as_slice());
            let entry = &mut entries[place];
            entry.child = page;
            entry.radius = entry.radius.max(dist);
        }
        Grew::Two(first, second) => {
            entries[place] = entry_from(ruler, spot, first);
            let last = entry_from(ruler, spot, second);
            entries.push(last)?;
        }
    }
    Ok(())
}

// Adds the object to a leaf, and stages the leaf.
#[tactic(auto, using(crate::proofs::Back::leaf_radii))]
fn at_leaf<R: Ruler>(
    alloc: Global,
    ruler: &mut R,
    task: &Task<'_>,
    spot: &Spot<'_>,
    mut entries: Vec<LeafEntry>,
    nodes: &mut Vec<Node>,
) -> Result<Grew, AllocError>
    requires first { task.now.numbering.first ≤ 2 ^ 24 }
    requires few { length nodes.old.items + 2 < 2 ^ 10 }
    requires some { 1 ≤ task.now.bounds.least }
    requires room { 2 * task.now.bounds.least ≤ task.now.bounds.most }
    ensures metric { R.metric ruler.new ≡ R.metric ruler.old }
    ensures count { OnOk result (length nodes.new.items ≤ length nodes.old.items + 2) }
    ensures within { parent_distance (R.M.space (R.metric ruler.old)) (above_of spot.now.root spot.now.above.now)
        task.now.object.point.now ≤ bound }
    ensures staged { IfOk result (λ g. let P = plan_of (R.M.space (R.metric ruler.old)) task.now.policy task.now.bounds
        (number_at task.now.numbering.numbers.now task.now.numbering.first)
        (record { id = task.now.object.id; tag = task.now.object.tag; point = task.now.object.point.now }) in IsStaged P leaf_ball
        leaf_with Leaf (entries.items ++ new_entry P (above_of spot.now.root spot.now.above.now) ∷ []) nodes.old.items
        nodes.new.items g) }
{
    let parent = parent_of(ruler, spot, task.object.point);
    let point = Point::new(alloc, task.object.point)?;
    entries.push(LeafEntry {
        id: task.object.id,
        tag: task.object.tag,
        parent,
        point,
    })?;
    let grew = stage(alloc, ruler, task, 0, entries, nodes)?;
    Ok(grew)
}

// The entries of a node, and what the subtree at a place has grown to.
struct Regrowth {
    entries: Vec<InnerEntry>,
    place: usize,
    grew: Grew,
}

// Puts what a subtree has grown to into its node, and stages the node.
// Clauses: what is asked of the caller (`first`, `few`, `some`, `room`, `place`, `near`, `small`); the answer (`staged`, `near`); what
// stays (`metric`); how many nodes are added (`count`).
fn back_at<R: Ruler>(
    alloc: Global,
    ruler: &mut R,
    task: &Task<'_>,
    spot: &Spot<'_>,
    regrowth: Regrowth,
    nodes: &mut Vec<Node>,
) -> Result<Grew, AllocError>
    requires first { task.now.numbering.first ≤ 2 ^ 24 }
    requires few { length nodes.old.items + 2 < 2 ^ 10 }
    requires some { 1 ≤ task.now.bounds.least }
    requires room { 2 * task.now.bounds.least ≤ task.now.bounds.most }
    requires place { regrowth.place < length regrowth.entries.items }
    requires near { AllByRecursion IsNear regrowth.entries.items }
    requires small { IsSmall regrowth.grew }
    ensures metric { R.metric ruler.new ≡ R.metric ruler.old }
    ensures count { OnOk result (length nodes.new.items ≤ length nodes.old.items + 2) }
    ensures near { OnOk result
        (AllByRecursion IsNear (regrown ((R.M.space (R.metric ruler.old)).dist task.now.object.point.now)
        (parent_distance (R.M.space (R.metric ruler.old)) (above_of spot.now.root spot.now.above.now)) regrowth.place regrowth.grew
        regrowth.entries.items)) }
    ensures staged { IfOk result (λ g. let P = plan_of (R.M.space (R.metric ruler.old)) task.now.policy task.now.bounds
        (number_at task.now.numbering.numbers.now task.now.numbering.first)
        (record { id = task.now.object.id; tag = task.now.object.tag; point = task.now.object.point.now }) in IsStaged P inner_ball
        inner_with (Inner spot.now.level)
        (regrown (P.space.dist P.object.point) (parent_distance P.space (above_of spot.now.root spot.now.above.now)) regrowth.place
        regrowth.grew regrowth.entries.items) nodes.old.items nodes.new.items g) }
{
    let Regrowth {
        mut entries,
        place,
        grew,
    } = regrowth;
    regrow(ruler, task, spot, place, grew, &mut entries)?;
    let grew = stage(alloc, ruler, task, spot.level, entries, nodes)?;
    Ok(grew)
}

// Inserts the object below a page, and returns what the page's node has grown to.
// Clauses: what is asked of the caller (`first`, `few`, `some`, `room`); the answer (`descends`); what stays (`metric`, `keeps`); what
// stays, and the cost (`asked`); how many nodes are added (`count`); the cause of an error (`cause`); faults of the devices (`no_fault`).
pub fn descend<P: Pages, R: Ruler>(
    alloc: Global,
    pages: &mut P,
    ruler: &mut R,
    task: &Task<'_>,
    spot: &Spot<'_>,
    written: &mut Written,
) -> Result<Grew, PageFault>
    requires first { task.now.numbering.first ≤ 2 ^ 24 }
    requires few { length written.old.nodes.items + 2 * (spot.now.level + 1) < 2 ^ 10 }
    requires some { 1 ≤ task.now.bounds.least }
    requires room { 2 * task.now.bounds.least ≤ task.now.bounds.most }
    ensures metric { R.metric ruler.new ≡ R.metric ruler.old }
    ensures asked { HasAsked (spot.now.level + 1) (P.shelf pages.old) (P.shelf pages.new) }
    ensures keeps { P.keeps pages.old pages.new }
    ensures no_fault { OnOk result ((P.shelf pages.new).faults ≡ (P.shelf pages.old).faults) }
    ensures count { OnOk result (length written.new.nodes.items ≤ length written.old.nodes.items + 2 * (spot.now.level + 1)) }
    ensures descends { IfOk result (λ g.
        Descends (plan_of (R.M.space (R.metric ruler.old)) task.now.policy task.now.bounds
        (number_at task.now.numbering.numbers.now task.now.numbering.first)
        (record { id = task.now.object.id; tag = task.now.object.tag; point = task.now.object.point.now }))
        (P.shelf pages.old) spot.now.level spot.now.page (above_of spot.now.root spot.now.above.now) written.old.left.items
        written.old.nodes.items written.new.left.items written.new.nodes.items g) }
    ensures cause { IfErr result (HasWalkCause (P.shelf pages.old) (P.shelf pages.new)
        (walk_fault (R.M.space (R.metric ruler.old)) (P.shelf pages.old).read task.now.object.point.now spot.now.level
        spot.now.page)) }
{
    let node = own_node(alloc, pages, spot.page)?;
    if written.left.push(spot.page).is_err() {
        return Err(PageFault::Memory);
    }
    match node {
        Node::Leaf(entries) => {
            if spot.level != 0 {
                return Err(PageFault::Level(spot.page));
            }
            let entries = entries.into_vec(alloc)?;
            Ok(at_leaf(alloc, ruler, task, spot, entries, &mut written.nodes)?)
        }
        Node::Inner { level, entries } => {
            if level != spot.level {
                return Err(PageFault::Level(spot.page));
            }
            let entries = entries.into_vec(alloc)?;
            let place = choose(ruler, &entries, task.object.point);
            let child = &entries[place];
            let below = Spot {
                level: spot.level - 1,
                page: child.child,
                root: false,
                above: child.point.as_slice(),
            };
            let grew = descend(alloc, pages, ruler, task, &below, written)?;
            let regrowth = Regrowth {
                entries,
                place,
                grew,
            };
            Ok(back_at(alloc, ruler, task, spot, regrowth, &mut written.nodes)?)
        }
    }
}
