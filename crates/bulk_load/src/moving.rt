//! Nodes that were numbered by themselves, put among others.

ghost use Rattle.std.specs.Prelude.{◌≡◌, ◌+◌, ◌-◌, ◌≤◌, ◌<◌, ◌^◌, ◌++◌, map, length, IfOk, OnOk};
ghost use Rattle.std.specs.List.{AllByRecursion};
ghost use Rattle.page_store.specs.Numbers.{number_at};
ghost use Rattle.bulk_load.specs.Apart.{entry_to, node_to, AreChildrenBelow};

use page_store::Numbering;
use std::alloc::{AllocError, Global};
use tree_shape::{InnerEntries, InnerEntry, Node};

// Gives the child of `entry` its page, where the children's numbers begin at place `first` of all nodes.
fn move_child(numbering: &Numbering<'_>, first: usize, entry: &mut InnerEntry)
    requires pages { numbering.now.first ≤ 2 ^ 24 }
    requires child { first + entry.old.child ≤ 2 ^ 26 }
    ensures { entry.new ≡ entry_to (λ i. number_at numbering.now.numbers.now numbering.now.first (first + i)) entry.old }
{
    entry.child = numbering.page_at(first + entry.child as usize);
}

// Gives the children of `entries` their pages, where the children's numbers begin at place `first` of all nodes.
fn move_children(numbering: &Numbering<'_>, first: usize, entries: &mut [InnerEntry])
    requires pages { numbering.now.first ≤ 2 ^ 24 }
    requires children { AllByRecursion (λ e. first + e.child ≤ 2 ^ 26) entries.old }
    ensures { entries.new ≡ map (entry_to (λ i. number_at numbering.now.numbers.now numbering.now.first (first + i))) entries.old }
{
    for entry in entries.iter_mut() {
        move_child(numbering, first, entry);
    }
}

// Returns `node` with its children's pages, where the children's numbers begin at place `first` of all nodes.
fn moved(
    alloc: Global,
    numbering: &Numbering<'_>,
    first: usize,
    many: usize,
    node: Node,
) -> Result<Node, AllocError>
    requires pages { numbering.now.first ≤ 2 ^ 24 }
    requires few { first + many ≤ 2 ^ 26 }
    requires children { AreChildrenBelow many node }
    ensures { IfOk result (λ moved. moved ≡
        node_to (λ i. number_at numbering.now.numbers.now numbering.now.first (first + i)) node) }
{
    match node {
        Node::Leaf(entries) => Ok(Node::Leaf(entries)),
        Node::Inner { level, entries } => {
            let mut entries = entries.into_vec(alloc)?;
            move_children(numbering, first, entries.as_mut_slice());
            Ok(Node::Inner {
                level,
                entries: InnerEntries::new(entries),
            })
        }
    }
}

/// Appends the nodes `below`, numbered from 0, to `nodes`, gives each child its page, and returns the page of the last node.
pub fn add_nodes(
    alloc: Global,
    numbering: &Numbering<'_>,
    below: Vec<Node>,
    nodes: &mut Vec<Node>,
) -> Result<u32, AllocError>
    requires pages { numbering.now.first ≤ 2 ^ 24 }
    requires few { length nodes.old.items + length below.items ≤ 2 ^ 26 }
    requires children { AllByRecursion (AreChildrenBelow (length below.items)) below.items }
    ensures page { IfOk result (λ page. page ≡ number_at numbering.now.numbers.now numbering.now.first
        (length nodes.old.items + length below.items - 1)) }
    ensures nodes { OnOk result (nodes.new.items ≡ nodes.old.items
        ++ map (node_to (λ i. number_at numbering.now.numbers.now numbering.now.first (length nodes.old.items + i))) below.items) }
{
    let first = nodes.len();
    let many = below.len();
    for node in below {
        nodes.push(moved(alloc, numbering, first, many, node)?)?;
    }
    Ok(numbering.page_at((first + many).saturating_sub(1)))
}
