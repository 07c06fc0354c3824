ghost use Rattle.std.specs.Prelude.{◌≡◌, ℕ, ◌+◌, ◌*◌, ◌≤◌, ◌<◌, ◌^◌, ◌++◌, ◌∷◌, [], List, length, IfOk, OnOk};
ghost use Rattle.std.specs.List.{AllByRecursion};
ghost use Rattle.metric_laws.specs.Space.{bound};
ghost use Rattle.tree_shape.specs.declared.entry.Node.{Node};
ghost use Rattle.tree_shape.specs.declared.entry.Node.TheVariants.{Leaf, Inner};
ghost use Rattle.insert_path.specs.Descent.{plan_of, stem_of, IsStaged};
ghost use Rattle.page_store.specs.Numbers.{number_at};

use crate::grew::{Grew, Stem};
use crate::task::Task;
use metric_laws::Ruler;
use promote_split::{Entry, Half, Halves, split};
use std::alloc::{AllocError, Global};
use tree_shape::{InnerEntries, InnerEntry, LeafEntries, LeafEntry, Node};

/// An entry that makes nodes.
pub trait NodeEntry: Entry {
    /// The node at a level with the given entries.
    ghost make: { ℕ → List Self → Node };

    /// Makes the node at `level` with `entries`.
    fn node(level: u8, entries: Vec<Self>) -> Node
        ensures { result ≡ make level entries.items };
}

impl NodeEntry for LeafEntry {
    ghost make = { λ level es. Leaf es };

    fn node(_level: u8, entries: Vec<LeafEntry>) -> Node
        ensures { result ≡ Leaf entries.items }
    {
        Node::Leaf(LeafEntries::new(entries))
    }
}

impl NodeEntry for InnerEntry {
    ghost make = { λ level es. Inner level es };

    fn node(level: u8, entries: Vec<InnerEntry>) -> Node
        ensures { result ≡ Inner level entries.items }
    {
        Node::Inner {
            level,
            entries: InnerEntries::new(entries),
        }
    }
}

// Stages `node` after the others, and returns its page.
pub fn stage_node(task: &Task<'_>, node: Node, nodes: &mut Vec<Node>) -> Result<u32, AllocError>
    requires first { task.now.numbering.first ≤ 2 ^ 24 }
    requires few { length nodes.old.items < 2 ^ 10 }
    ensures page { IfOk result (λ p. p ≡ number_at task.now.numbering.numbers.now task.now.numbering.first (length nodes.old.items)) }
    ensures staged { OnOk result (nodes.new.items ≡ nodes.old.items ++ node ∷ []) }
    ensures count { OnOk result (length nodes.new.items ≡ length nodes.old.items + 1) }
{
    let page = task.numbering.page_at(nodes.len());
    nodes.push(node)?;
    Ok(page)
}

// Stages a half, and returns its page, routing point and covering radius.
fn stage_half<E: NodeEntry>(
    task: &Task<'_>,
    level: u8,
    half: Half<E>,
    nodes: &mut Vec<Node>,
) -> Result<Stem, AllocError>
    requires first { task.now.numbering.first ≤ 2 ^ 24 }
    requires few { length nodes.old.items < 2 ^ 10 }
    ensures stem { IfOk result (λ s.
        s ≡ stem_of (number_at task.now.numbering.numbers.now task.now.numbering.first (length nodes.old.items)) half) }
    ensures staged { OnOk result (nodes.new.items ≡ nodes.old.items ++ E.make level half.entries ∷ []) }
    ensures count { OnOk result (length nodes.new.items ≡ length nodes.old.items + 1) }
{
    let Half {
        point,
        radius,
        entries,
    } = half;
    let page = stage_node(task, E::node(level, entries.into_vec()), nodes)?;
    Ok(Stem {
        page,
        point,
        radius,
    })
}

// Stages two halves, the first before the second.
fn stage_halves<E: NodeEntry>(
    task: &Task<'_>,
    level: u8,
    halves: Halves<E>,
    nodes: &mut Vec<Node>,
) -> Result<Grew, AllocError>
    requires first { task.now.numbering.first ≤ 2 ^ 24 }
    requires few { length nodes.old.items + 2 < 2 ^ 10 }
    ensures grew { IfOk result (λ g.
        g ≡ Grew.Two (stem_of (number_at task.now.numbering.numbers.now task.now.numbering.first (length nodes.old.items))
        halves.first) (stem_of (number_at task.now.numbering.numbers.now task.now.numbering.first (length nodes.old.items + 1))
        halves.second)) }
    ensures staged { OnOk result (nodes.new.items ≡
        nodes.old.items ++ E.make level halves.first.entries ∷ E.make level halves.second.entries ∷ []) }
    ensures count { OnOk result (length nodes.new.items ≡ length nodes.old.items + 2) }
{
    let Halves { first, second } = halves;
    let first = stage_half(task, level, first, nodes)?;
    let second = stage_half(task, level, second, nodes)?;
    Ok(Grew::Two(first, second))
}

// Stages a node with one entry too many, in halves.
// Clauses: what is asked of the caller (`first`, `few`, `some`, `room`, `many`, `radii`); the answer (`staged`); what stays (`metric`); how
// many nodes are added (`count`).
fn stage_split<R: Ruler, E: NodeEntry>(
    alloc: Global,
    ruler: &mut R,
    task: &Task<'_>,
    level: u8,
    entries: Vec<E>,
    nodes: &mut Vec<Node>,
) -> Result<Grew, AllocError>
    requires first { task.now.numbering.first ≤ 2 ^ 24 }
    requires few { length nodes.old.items + 2 < 2 ^ 10 }
    requires some { 1 ≤ task.now.bounds.least }
    requires room { 2 * task.now.bounds.least ≤ length entries.items }
    requires many { task.now.bounds.most < length entries.items }
    requires radii { AllByRecursion (λ e. (E.ball e).1 ≤ bound) entries.items }
    ensures metric { R.metric ruler.new ≡ R.metric ruler.old }
    ensures count { OnOk result (length nodes.new.items ≡ length nodes.old.items + 2) }
    ensures staged { IfOk result (λ g.
        IsStaged (plan_of (R.M.space (R.metric ruler.old)) task.now.policy task.now.bounds
        (number_at task.now.numbering.numbers.now task.now.numbering.first)
        (record { id = task.now.object.id; tag = task.now.object.tag; point = task.now.object.point.now })) E.ball E.with_parent
        (E.make level) entries.items nodes.old.items nodes.new.items g) }
{
    let halves = split(alloc, ruler, entries, task.policy, task.bounds.least)?;
    let grew = stage_halves(task, level, halves, nodes)?;
    Ok(grew)
}

// Stages a node that may have one entry too many, whole or in halves.
pub fn stage<R: Ruler, E: NodeEntry>(
    alloc: Global,
    ruler: &mut R,
    task: &Task<'_>,
    level: u8,
    entries: Vec<E>,
    nodes: &mut Vec<Node>,
) -> Result<Grew, AllocError>
    requires first { task.now.numbering.first ≤ 2 ^ 24 }
    requires few { length nodes.old.items + 2 < 2 ^ 10 }
    requires some { 1 ≤ task.now.bounds.least }
    requires room { 2 * task.now.bounds.least ≤ task.now.bounds.most }
    requires radii { AllByRecursion (λ e. (E.ball e).1 ≤ bound) entries.items }
    ensures metric { R.metric ruler.new ≡ R.metric ruler.old }
    ensures count { OnOk result (length nodes.new.items ≤ length nodes.old.items + 2) }
    ensures staged { IfOk result (λ g.
        IsStaged (plan_of (R.M.space (R.metric ruler.old)) task.now.policy task.now.bounds
        (number_at task.now.numbering.numbers.now task.now.numbering.first)
        (record { id = task.now.object.id; tag = task.now.object.tag; point = task.now.object.point.now })) E.ball E.with_parent
        (E.make level) entries.items nodes.old.items nodes.new.items g) }
{
    if entries.len() > task.bounds.most {
        let grew = stage_split(alloc, ruler, task, level, entries, nodes)?;
        return Ok(grew);
    }
    let page = stage_node(task, E::node(level, entries), nodes)?;
    Ok(Grew::One(page))
}
