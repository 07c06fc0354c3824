// Where each object of a tree stands.
ghost use Rattle.std.specs.Prelude.{◌≡◌, ◌≢◌, ℕ, ◌⊎◌, ◌++◌, ◌≤◌, ◌<◌, ◌/◌, ◌%◌, ◌^◌, List, Some, IsTrue, IfOk, IfErr, IfSome, IfNone, OnOk, length, slice_index, slice_set, false};
ghost use Rattle.tree_shape.specs.declared.entry.LeafEntry.{LeafEntry as TheEntry};
ghost use Rattle.tree_shape.specs.Tree.{Nodes, leaf_entries};
ghost use Rattle.page_store.specs.Reading.{nodes_of};
ghost use Rattle.page_store.specs.Shelf.{HoldsSame};
ghost use Rattle.job_dump.specs.Causes.{HasCause};
ghost use Rattle.job_dump.specs.Places.{ArePlaces, IsNoted, Notes};
ghost use Rattle.job_dump.specs.Rows.{due, times_among};

use crate::fault::DumpFault;
use page_store::Pages;
use page_store::laws::sound_trees_are_toured;
use page_tour::Tour;
use std::alloc::Global;
use std::marker::Model;
use tree_shape::{LeafEntries, Live, Node};

// The most entries of a node. A place is the number of a leaf's page times this, plus the number of the entry. No leaf stands on
// page 0, so no place is 0.
const MOST: u32 = 32;

/// The place of each object of a tree. Contracts see the places, by id.
#[derive(Drop)]
pub struct Places {
    numbers: Vec<u32>,
}

impl Model for Places {
    ghost use Rattle.std.specs.Prelude.{ℕ, List};

    ghost Value = { List ℕ };

    ghost view = { λ p. p.numbers.items };
}

impl Places {
    /// Returns the page and the number of the entry that hold the object `id`.
    pub fn of(&self, id: u32) -> (u32, usize)
        requires { id < length self.now }
        ensures page { result.0 ≡ slice_index self.now id / 32 }
        ensures number { result.1 ≡ slice_index self.now id % 32 }
    {
        let place = self.numbers[id as usize];
        (place / MOST, (place % MOST) as usize)
    }
}

// Notes the place of an object. Returns false where the id is too great, or was met before.
fn note(numbers: &mut [u32], id: u32, place: u32) -> bool
    ensures noted { IsTrue result → (id < length numbers.old) × (slice_index numbers.old id ≡ 0)
        × (numbers.new ≡ slice_set numbers.old id place) }
    ensures wrong { result ≡ false → (length numbers.old ≤ id) ⊎ (slice_index numbers.old id ≢ 0) }
{
    let id = id as usize;
    if id >= numbers.len() || numbers[id] != 0 {
        return false;
    }
    numbers[id] = place;
    true
}

// Notes the places of a leaf's objects. Returns the first id that is too great, or was met before.
fn note_leaf(numbers: &mut [u32], page: u32, entries: &LeafEntries) -> Result<(), u32>
    requires low { 1 ≤ page }
    requires high { page < 2 ^ 24 }
    requires few { length entries.now ≤ 32 }
    ensures noted { OnOk result ((nodes : Nodes) (met : List TheEntry) → leaf_entries (nodes page) ≡ entries.now →
        Notes nodes numbers.old met → Notes nodes numbers.new (met ++ entries.now)) }
    ensures wrong { IfErr result (λ id. (nodes : Nodes) (met : List TheEntry) → leaf_entries (nodes page) ≡ entries.now →
        Notes nodes numbers.old met → due (length numbers.old) id < times_among (met ++ entries.now) id) }
{
    for number in 0..entries.len() {
        let entry = entries.at(number);
        if !note(numbers, entry.id, page * MOST + number as u32) {
            return Err(entry.id);
        }
    }
    Ok(())
}

// Notes the places of a node's objects; an inner node has none.
fn note_node(numbers: &mut [u32], page: u32, node: &Node) -> Result<(), u32>
    requires low { 1 ≤ page }
    requires high { page < 2 ^ 24 }
    requires few { length (leaf_entries (Some node.now)) ≤ 32 }
    ensures noted { OnOk result ((nodes : Nodes) (met : List TheEntry) → nodes page ≡ Some node.now →
        Notes nodes numbers.old met → Notes nodes numbers.new (met ++ leaf_entries (Some node.now))) }
    ensures wrong { IfErr result (λ id. (nodes : Nodes) (met : List TheEntry) → nodes page ≡ Some node.now →
        Notes nodes numbers.old met → due (length numbers.old) id < times_among (met ++ leaf_entries (Some node.now)) id) }
{
    match node {
        Node::Leaf(entries) => note_leaf(numbers, page, entries),
        Node::Inner { .. } => Ok(()),
    }
}

// Returns the least id whose object was not met.
fn missing(numbers: &[u32]) -> Option<u32>
    requires { length numbers.now < 2 ^ 32 }
    ensures some { IfSome result (λ id. (id < length numbers.now) × (slice_index numbers.now id ≡ 0)) }
    ensures none { IfNone result ((id : ℕ) → id < length numbers.now → slice_index numbers.now id ≢ 0) }
{
    for (id, place) in numbers.iter().enumerate() {
        if *place == 0 {
            return Some(id as u32);
        }
    }
    None
}

// Walks the live tree and notes the place of each object.
fn note_tree<P: Pages>(
    alloc: Global,
    pages: &mut P,
    live: &Live,
    numbers: &mut [u32],
) -> Result<(), DumpFault>
    requires pages { (P.shelf pages.old).pages ≤ 2 ^ 24 }
    requires long { length numbers.old ≡ live.now.count }
    requires none { (id : ℕ) → slice_index numbers.old id ≡ 0 }
    ensures same { HoldsSame (P.shelf pages.old) (P.shelf pages.new) }
    ensures keeps { P.keeps pages.old pages.new }
    ensures noted { OnOk result (IsTrue (P.shelf pages.old).is_known → IsNoted (nodes_of (P.shelf pages.old).read) live.now numbers.new) }
    ensures cause { IfErr result (HasCause live.now (P.shelf pages.old) (P.shelf pages.new)) }
{
    sound_trees_are_toured();
    let mut tour = Tour::begin(alloc, live)?;
    loop {
        match tour.next(alloc, pages) {
            Ok(Some((page, node))) => match note_node(numbers, page, node.as_ref()) {
                Ok(()) => {}
                Err(id) => return Err(DumpFault::Id(id)),
            },
            Ok(None) => return Ok(()),
            Err(fault) => return Err(DumpFault::Page(fault)),
        }
    }
}

/// Walks the live tree and returns the place of each object.
pub fn places_of<P: Pages>(alloc: Global, pages: &mut P, live: &Live) -> Result<Places, DumpFault>
    requires pages { (P.shelf pages.old).pages ≤ 2 ^ 24 }
    ensures same { HoldsSame (P.shelf pages.old) (P.shelf pages.new) }
    ensures keeps { P.keeps pages.old pages.new }
    ensures long { IfOk result (λ places. length places ≡ live.now.count) }
    ensures places { IfOk result (λ places. IsTrue (P.shelf pages.old).is_known →
        ArePlaces (nodes_of (P.shelf pages.old).read) live.now places) }
    ensures cause { IfErr result (HasCause live.now (P.shelf pages.old) (P.shelf pages.new)) }
{
    sound_trees_are_toured();
    let mut numbers = vec![in alloc; 0u32; live.count as usize]?;
    note_tree(alloc, pages, live, numbers.as_mut_slice())?;
    match missing(numbers.as_slice()) {
        None => Ok(Places { numbers }),
        Some(id) => Err(DumpFault::Id(id)),
    }
}
