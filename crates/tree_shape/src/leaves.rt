//! The objects of a leaf.

ghost use Rattle.std.specs.Prelude.{◌≡◌, ◌+◌, ◌<◌, ◌≤◌, IfOk, length, slice_index_or};
ghost use Rattle.tree_shape.specs.Flat.{leaf_from, start_of};
ghost use Rattle.tree_shape.specs.Entries.{flat_leaves, leaf_of};

use crate::copying::{TryClone, copies_of};
use crate::flat::{BEFORE, FlatEntries, FlatView, fields_at, start_of};
use crate::{LeafEntry, LeafRef};
use metric_laws::Point;
use std::alloc::{AllocError, Global};
use std::marker::Model;
use std::sync::ArcSlice;

// Where the objects stand.
#[derive(Drop)]
enum HeldLeaves {
    // In one list of numbers, as they were read.
    Flat(FlatEntries),
    // Each by itself, as they were made.
    Apart(Vec<LeafEntry>),
}

/// The objects of a leaf. Contracts see the list of them.
#[derive(Drop)]
pub struct LeafEntries {
    held: HeldLeaves,
}

impl Model for LeafEntries {
    ghost use Rattle.std.specs.Prelude.{List};
    ghost use Rattle.tree_shape.specs.declared.entry.LeafEntry.{LeafEntry as TheEntry};
    ghost use Rattle.tree_shape.specs.Entries.{leaves_in};

    ghost Value = { List TheEntry };

    ghost view = { λ l. leaves_in l.held };
}

// Where the objects are seen.
#[derive(Clone, Copy)]
enum SeenLeaves<'a> {
    // In one list of numbers.
    Flat(FlatView<'a>),
    // Each by itself.
    Apart(&'a Vec<LeafEntry>),
}

/// The objects of a leaf, where they stand. Contracts see the list of them.
// A loop over entries holds it by value: so the compiler keeps it in registers, where it would read `LeafEntries` again for each entry.
#[derive(Drop)]
pub struct LeafView<'a> {
    seen: SeenLeaves<'a>,
}

impl<'a> Model for LeafView<'a> {
    ghost use Rattle.std.specs.Prelude.{List};
    ghost use Rattle.tree_shape.specs.declared.entry.LeafEntry.{LeafEntry as TheEntry};
    ghost use Rattle.tree_shape.specs.Entries.{leaves_seen};

    ghost Value = { List TheEntry };

    ghost view = { λ v. leaves_seen v.seen };
}

// Returns object `index` of the objects that `numbers` spell.
#[inline(always)]
fn leaf_at(numbers: &[u32], dim: u8, index: usize) -> LeafRef<'_>
    requires { start_of dim (index + 1) ≤ length numbers.now }
    ensures { leaf_of result ≡ leaf_from dim numbers.now (start_of dim index) }
{
    let fields = fields_at(numbers, dim, index);
    LeafRef {
        id: fields.name,
        tag: fields.wide,
        parent: fields.parent,
        point: fields.point,
    }
}

// Takes the objects out of one list of numbers. Their points stay parts of it.
fn into_leaves(alloc: Global, flat: FlatEntries) -> Result<Vec<LeafEntry>, AllocError>
    ensures { IfOk result (λ entries. entries.items ≡ flat_leaves flat) }
{
    let numbers = ArcSlice::from_vec(flat.numbers)?;
    let mut entries = Vec::with_capacity(alloc, flat.count)?;
    for index in 0..flat.count {
        let seen = leaf_at(numbers.as_slice(), flat.dim, index);
        let start = start_of(flat.dim, index) + BEFORE;
        entries.push(LeafEntry {
            id: seen.id,
            tag: seen.tag,
            parent: seen.parent,
            point: Point::part_of(&numbers, start, usize::from(flat.dim))?,
        })?;
    }
    Ok(entries)
}

impl LeafEntries {
    /// Makes a leaf's objects of `entries`.
    pub fn new(entries: Vec<LeafEntry>) -> Self
        ensures { result ≡ entries.items }
    {
        LeafEntries {
            held: HeldLeaves::Apart(entries),
        }
    }

    /// Makes a leaf's objects of the numbers that spell them.
    pub fn flat(entries: FlatEntries) -> Self
        ensures { result ≡ flat_leaves entries }
    {
        LeafEntries {
            held: HeldLeaves::Flat(entries),
        }
    }

    /// Returns the objects where they stand.
    #[inline(always)]
    pub fn seen(&self) -> LeafView<'_>
        ensures { result ≡ self.now }
    {
        let seen = match &self.held {
            HeldLeaves::Flat(flat) => SeenLeaves::Flat(flat.seen()),
            HeldLeaves::Apart(entries) => SeenLeaves::Apart(entries),
        };
        LeafView { seen }
    }

    /// Returns the number of objects.
    #[inline(always)]
    pub fn len(&self) -> usize
        ensures { result ≡ length self.now }
    {
        self.seen().len()
    }

    /// Returns object `index`.
    // The loops over entries are in other crates, and most of them look at two fields.
    #[inline(always)]
    pub fn at(&self, index: usize) -> LeafRef<'_>
        requires { index < length self.now }
        ensures { leaf_of result ≡ slice_index_or self.now index (leaf_of result) }
    {
        self.seen().at(index)
    }

    /// Takes the objects out, each by itself.
    pub fn into_vec(self, alloc: Global) -> Result<Vec<LeafEntry>, AllocError>
        ensures { IfOk result (λ entries. entries.items ≡ self) }
    {
        match self.held {
            HeldLeaves::Flat(flat) => into_leaves(alloc, flat),
            HeldLeaves::Apart(entries) => Ok(entries),
        }
    }

    // Returns the list of numbers, where the objects stand in one.
    pub(crate) fn into_numbers(self) -> Option<Vec<u32>> {
        match self.held {
            HeldLeaves::Flat(flat) => Some(flat.into_numbers()),
            HeldLeaves::Apart(_) => None,
        }
    }
}

impl<'a> LeafView<'a> {
    /// Returns the number of objects.
    #[inline(always)]
    pub fn len(&self) -> usize
        ensures { result ≡ length self.now }
    {
        match self.seen {
            SeenLeaves::Flat(flat) => flat.count,
            SeenLeaves::Apart(entries) => entries.len(),
        }
    }

    /// Returns object `index`.
    #[inline(always)]
    pub fn at(&self, index: usize) -> LeafRef<'a>
        requires { index < length self.now }
        ensures { leaf_of result ≡ slice_index_or self.now index (leaf_of result) }
    {
        match self.seen {
            SeenLeaves::Flat(flat) => leaf_at(flat.numbers, flat.dim, index),
            SeenLeaves::Apart(entries) => entries[index].as_ref(),
        }
    }
}

impl TryClone for LeafEntries {
    fn try_clone(&self, alloc: Global) -> Result<Self, AllocError> {
        match &self.held {
            HeldLeaves::Flat(flat) => Ok(LeafEntries::flat(flat.try_clone(alloc)?)),
            HeldLeaves::Apart(entries) => Ok(LeafEntries::new(copies_of(
                alloc,
                entries.as_slice(),
            )?)),
        }
    }
}
