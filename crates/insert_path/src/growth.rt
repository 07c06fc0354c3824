ghost use Rattle.std.specs.Prelude.{◌≡◌, ◌+◌, ◌-◌, ◌*◌, ◌≤◌, ◌<◌, ◌^◌, ◌++◌, ◌∷◌, [], length, IfOk, IfErr, OnOk, None};
ghost use Rattle.insert_path.specs.Descent.{plan_of, rules_of, root_entry, Roots, Walks};
ghost use Rattle.insert_path.specs.Causes.{HasAsked, HasTreeCause};
ghost use Rattle.insert_path.specs.Placing.{place_fault};
ghost use Rattle.insert_path.specs.Roots.{HasRootCause};
ghost use Rattle.page_store.specs.Numbers.{number_at};

use crate::PlaceFault;
use crate::descent::descend;
use crate::faults::fault_of;
use crate::grew::{Grew, Stem};
use crate::staging::stage_node;
use crate::task::{Spot, Task, Written};
use metric_laws::Ruler;
use page_store::{NewTree, PageFault, Pages};
use std::alloc::{AllocError, Global};
use tree_shape::{InnerEntries, InnerEntry, Live, Node};

// Makes the entry of a half in a new root.
fn entry_in_root(stem: Stem) -> InnerEntry
    ensures { result ≡ root_entry stem }
{
    InnerEntry {
        child: stem.page,
        radius: stem.radius,
        parent: 0,
        point: stem.point,
    }
}

// Makes the two entries of a new root.
fn root_entries(alloc: Global, first: Stem, second: Stem) -> Result<InnerEntries, AllocError>
    ensures { IfOk result (λ es. es ≡ root_entry first ∷ root_entry second ∷ []) }
{
    let mut entries = Vec::with_capacity(alloc, 2)?;
    entries.push(entry_in_root(first))?;
    entries.push(entry_in_root(second))?;
    Ok(InnerEntries::new(entries))
}

// Stages a new root above two halves, and returns its page.
fn stage_root(
    alloc: Global,
    task: &Task<'_>,
    level: u8,
    halves: (Stem, Stem),
    nodes: &mut Vec<Node>,
) -> Result<u32, AllocError>
    requires first { task.now.numbering.first ≤ 2 ^ 24 }
    requires few { length nodes.old.items < 2 ^ 10 }
    ensures page { IfOk result (λ p. p ≡ number_at task.now.numbering.numbers.now task.now.numbering.first (length nodes.old.items)) }
    ensures staged { OnOk result (nodes.new.items ≡
        nodes.old.items ++ Node.Inner level (root_entry halves.0 ∷ root_entry halves.1 ∷ []) ∷ []) }
    ensures count { OnOk result (length nodes.new.items ≡ length nodes.old.items + 1) }
{
    let entries = root_entries(alloc, halves.0, halves.1)?;
    let page = stage_node(task, Node::Inner { level, entries }, nodes)?;
    Ok(page)
}

// Returns the root after a descent: where the old root has grown to two halves, stages a new one.
fn grow_root(
    alloc: Global,
    task: &Task<'_>,
    live: &Live,
    grew: Grew,
    written: Written,
) -> Result<NewTree, PlaceFault>
    requires height { live.now.height ≤ 14 }
    requires first { task.now.numbering.first ≤ 2 ^ 24 }
    requires few { length written.nodes.items < 2 ^ 9 }
    ensures roots { IfOk result (λ grown.
        Roots (number_at task.now.numbering.numbers.now task.now.numbering.first) live.now.height grew written.nodes.items
        grown.nodes.items grown.root grown.height) }
    ensures left { IfOk result (λ grown. grown.left.items ≡ written.left.items) }
    ensures added { IfOk result (λ grown. grown.added ≡ 1) }
    ensures count { IfOk result (λ grown. length grown.nodes.items ≤ length written.nodes.items + 1) }
    ensures cause { IfErr result (HasRootCause live.now grew) }
{
    let Written { mut nodes, left } = written;
    match grew {
        Grew::One(root) => Ok(NewTree {
            nodes,
            root,
            height: live.height,
            added: 1,
            left,
        }),
        Grew::Two(first, second) => {
            if live.height == 14 {
                return Err(PlaceFault::Page(PageFault::Level(live.root)));
            }
            let level = live.height as u8 + 1;
            let root = stage_root(alloc, task, level, (first, second), &mut nodes)?;
            Ok(NewTree {
                nodes,
                root,
                height: live.height + 1,
                added: 1,
                left,
            })
        }
    }
}

// Walks down from the live root, and makes the new tree.
// Clauses: what is asked of the caller (`height`, `first`, `some`, `room`); the answer (`walks`, `added`); what stays (`metric`, `keeps`);
// what stays, and the cost (`asked`); how many nodes are new (`count`); the cause of an error (`cause`); faults of the devices
// (`no_fault`).
pub fn grow<P: Pages, R: Ruler>(
    alloc: Global,
    pages: &mut P,
    ruler: &mut R,
    task: &Task<'_>,
    live: &Live,
) -> Result<NewTree, PlaceFault>
    requires height { live.now.height ≤ 14 }
    requires first { task.now.numbering.first ≤ 2 ^ 24 }
    requires some { 1 ≤ task.now.bounds.least }
    requires room { 2 * task.now.bounds.least ≤ task.now.bounds.most }
    ensures metric { R.metric ruler.new ≡ R.metric ruler.old }
    ensures asked { HasAsked (live.now.height + 1) (P.shelf pages.old) (P.shelf pages.new) }
    ensures keeps { P.keeps pages.old pages.new }
    ensures no_fault { OnOk result ((P.shelf pages.new).faults ≡ (P.shelf pages.old).faults) }
    ensures count { IfOk result (λ grown. length grown.nodes.items < 2 ^ 9) }
    ensures added { IfOk result (λ grown. grown.added ≡ 1) }
    ensures walks { IfOk result (λ grown.
        Walks (plan_of (R.M.space (R.metric ruler.old)) task.now.policy task.now.bounds
        (number_at task.now.numbering.numbers.now task.now.numbering.first)
        (record { id = task.now.object.id; tag = task.now.object.tag; point = task.now.object.point.now }))
        (P.shelf pages.old) live.now grown.left.items grown.nodes.items grown.root grown.height) }
    ensures cause { IfErr result (HasTreeCause (P.shelf pages.old) (P.shelf pages.new)
        (let Q = plan_of (R.M.space (R.metric ruler.old)) task.now.policy task.now.bounds
        (number_at task.now.numbering.numbers.now task.now.numbering.first)
        (record { id = task.now.object.id; tag = task.now.object.tag; point = task.now.object.point.now }) in
        place_fault Q.space (rules_of Q) (P.shelf pages.old).read live.now Q.object)) }
{
    let mut written = Written {
        nodes: Vec::new(alloc),
        left: Vec::new(alloc),
    };
    let spot = Spot {
        level: live.height as u8,
        page: live.root,
        root: true,
        above: &[],
    };
    match descend(alloc, pages, ruler, task, &spot, &mut written) {
        Ok(grew) => {
            let grown = grow_root(alloc, task, live, grew, written)?;
            Ok(grown)
        }
        Err(fault) => Err(fault_of(fault)),
    }
}
