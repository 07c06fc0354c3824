//! The subtrees of an inner node.

ghost use Rattle.std.specs.Prelude.{◌≡◌, ◌+◌, ◌<◌, ◌≤◌, IfOk, length, slice_index_or};
ghost use Rattle.tree_shape.specs.Flat.{inner_from, start_of};
ghost use Rattle.tree_shape.specs.Entries.{flat_inners, inner_of};

use crate::copying::{TryClone, copies_of};
use crate::flat::{BEFORE, FlatEntries, FlatView, fields_at, start_of};
use crate::{InnerEntry, InnerRef};
use metric_laws::Point;
use std::alloc::{AllocError, Global};
use std::marker::Model;
use std::sync::ArcSlice;

// Where the subtrees stand.
#[derive(Drop)]
enum HeldInners {
    // In one list of numbers, as they were read.
    Flat(FlatEntries),
    // Each by itself, as they were made.
    Apart(Vec<InnerEntry>),
}

/// The subtrees of an inner node. Contracts see the list of them.
#[derive(Drop)]
pub struct InnerEntries {
    held: HeldInners,
}

impl Model for InnerEntries {
    ghost use Rattle.std.specs.Prelude.{List};
    ghost use Rattle.tree_shape.specs.declared.entry.InnerEntry.{InnerEntry as TheEntry};
    ghost use Rattle.tree_shape.specs.Entries.{inners_in};

    ghost Value = { List TheEntry };

    ghost view = { λ l. inners_in l.held };
}

// Where the subtrees are seen.
#[derive(Clone, Copy)]
enum SeenInners<'a> {
    // In one list of numbers.
    Flat(FlatView<'a>),
    // Each by itself.
    Apart(&'a Vec<InnerEntry>),
}

/// The subtrees of an inner node, where they stand. Contracts see the list of them.
// A loop over entries holds it by value: so the compiler keeps it in registers, where it would read `InnerEntries` again for each entry.
#[derive(Drop)]
pub struct InnerView<'a> {
    seen: SeenInners<'a>,
}

impl<'a> Model for InnerView<'a> {
    ghost use Rattle.std.specs.Prelude.{List};
    ghost use Rattle.tree_shape.specs.declared.entry.InnerEntry.{InnerEntry as TheEntry};
    ghost use Rattle.tree_shape.specs.Entries.{inners_seen};

    ghost Value = { List TheEntry };

    ghost view = { λ v. inners_seen v.seen };
}

// Returns subtree `index` of the subtrees that `numbers` spell.
#[inline(always)]
fn inner_at(numbers: &[u32], dim: u8, index: usize) -> InnerRef<'_>
    requires { start_of dim (index + 1) ≤ length numbers.now }
    ensures { inner_of result ≡ inner_from dim numbers.now (start_of dim index) }
{
    let fields = fields_at(numbers, dim, index);
    InnerRef {
        child: fields.name,
        radius: fields.wide,
        parent: fields.parent,
        point: fields.point,
    }
}

// Takes the subtrees out of one list of numbers. Their points stay parts of it.
fn into_inners(alloc: Global, flat: FlatEntries) -> Result<Vec<InnerEntry>, AllocError>
    ensures { IfOk result (λ entries. entries.items ≡ flat_inners flat) }
{
    let numbers = ArcSlice::from_vec(flat.numbers)?;
    let mut entries = Vec::with_capacity(alloc, flat.count)?;
    for index in 0..flat.count {
        let seen = inner_at(numbers.as_slice(), flat.dim, index);
        let start = start_of(flat.dim, index) + BEFORE;
        entries.push(InnerEntry {
            child: seen.child,
            radius: seen.radius,
            parent: seen.parent,
            point: Point::part_of(&numbers, start, usize::from(flat.dim))?,
        })?;
    }
    Ok(entries)
}

impl InnerEntries {
    /// Makes an inner node's subtrees of `entries`.
    pub fn new(entries: Vec<InnerEntry>) -> Self
        ensures { result ≡ entries.items }
    {
        InnerEntries {
            held: HeldInners::Apart(entries),
        }
    }

    /// Makes an inner node's subtrees of the numbers that spell them.
    pub fn flat(entries: FlatEntries) -> Self
        ensures { result ≡ flat_inners entries }
    {
        InnerEntries {
            held: HeldInners::Flat(entries),
        }
    }

    /// Returns the subtrees where they stand.
    #[inline(always)]
    pub fn seen(&self) -> InnerView<'_>
        ensures { result ≡ self.now }
    {
        let seen = match &self.held {
            HeldInners::Flat(flat) => SeenInners::Flat(flat.seen()),
            HeldInners::Apart(entries) => SeenInners::Apart(entries),
        };
        InnerView { seen }
    }

    /// Returns the number of subtrees.
    #[inline(always)]
    pub fn len(&self) -> usize
        ensures { result ≡ length self.now }
    {
        self.seen().len()
    }

    /// Returns subtree `index`.
    // The loops over entries are in other crates, and most of them look at two fields.
    #[inline(always)]
    pub fn at(&self, index: usize) -> InnerRef<'_>
        requires { index < length self.now }
        ensures { inner_of result ≡ slice_index_or self.now index (inner_of result) }
    {
        self.seen().at(index)
    }

    /// Takes the subtrees out, each by itself.
    pub fn into_vec(self, alloc: Global) -> Result<Vec<InnerEntry>, AllocError>
        ensures { IfOk result (λ entries. entries.items ≡ self) }
    {
        match self.held {
            HeldInners::Flat(flat) => into_inners(alloc, flat),
            HeldInners::Apart(entries) => Ok(entries),
        }
    }

    // Returns the list of numbers, where the subtrees stand in one.
    pub(crate) fn into_numbers(self) -> Option<Vec<u32>> {
        match self.held {
            HeldInners::Flat(flat) => Some(flat.into_numbers()),
            HeldInners::Apart(_) => None,
        }
    }
}

impl<'a> InnerView<'a> {
    /// Returns the number of subtrees.
    #[inline(always)]
    pub fn len(&self) -> usize
        ensures { result ≡ length self.now }
    {
        match self.seen {
            SeenInners::Flat(flat) => flat.count,
            SeenInners::Apart(entries) => entries.len(),
        }
    }

    /// Returns subtree `index`.
    #[inline(always)]
    pub fn at(&self, index: usize) -> InnerRef<'a>
        requires { index < length self.now }
        ensures { inner_of result ≡ slice_index_or self.now index (inner_of result) }
    {
        match self.seen {
            SeenInners::Flat(flat) => inner_at(flat.numbers, flat.dim, index),
            SeenInners::Apart(entries) => entries[index].as_ref(),
        }
    }
}

impl TryClone for InnerEntries {
    fn try_clone(&self, alloc: Global) -> Result<Self, AllocError> {
        match &self.held {
            HeldInners::Flat(flat) => Ok(InnerEntries::flat(flat.try_clone(alloc)?)),
            HeldInners::Apart(entries) => Ok(InnerEntries::new(copies_of(
                alloc,
                entries.as_slice(),
            )?)),
        }
    }
}
