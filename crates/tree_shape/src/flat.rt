//! The entries of a node as one list of numbers.

ghost use Rattle.std.specs.Prelude.{◌≡◌, ◌+◌, ◌*◌, ◌<◌, ◌≤◌, ◌^◌, IfOk, length, take, drop, slice_index};
ghost use Rattle.tree_shape.specs.Flat.{start_of, wide};

use std::alloc::{AllocError, Global};

/// The entries of a node as one list of numbers of four bytes, in the order of the page. An entry is 5 numbers and its coordinates:
/// its name, the two halves of its tag or its radius, and the two halves of its parent distance. Of two halves the higher comes first.
#[derive(Drop)]
pub struct FlatEntries {
    pub(crate) numbers: Vec<u32>,
    // The number of a point's coordinates.
    pub(crate) dim: u8,
    // The number of entries.
    pub(crate) count: usize,
    ghost whole: { length numbers.items ≡ (5 + dim) * count },
}

/// The entries of a node as one list of numbers, where they stand.
#[derive(Clone, Copy)]
pub(crate) struct FlatView<'a> {
    pub numbers: &'a [u32],
    // The number of a point's coordinates.
    pub dim: u8,
    // The number of entries.
    pub count: usize,
    ghost whole: { length numbers.now ≡ (5 + dim) * count },
}

/// The fields of an entry.
#[derive(Clone, Copy)]
pub(crate) struct Fields<'a> {
    /// The id of an object, or the page of a child.
    pub name: u32,
    /// The tag of an object, or the radius of a subtree.
    pub wide: u64,
    /// The parent distance.
    pub parent: u64,
    /// The coordinates.
    pub point: &'a [u32],
}

/// The numbers of an entry before its coordinates.
pub(crate) const BEFORE: usize = 5;

impl FlatEntries {
    /// Returns how many numbers an entry over points of `dim` coordinates is.
    pub fn width(dim: u8) -> usize
        ensures { result ≡ 5 + dim }
    {
        BEFORE + usize::from(dim)
    }

    /// Makes the `count` entries over points of `dim` coordinates that `numbers` spell.
    pub fn new(numbers: Vec<u32>, dim: u8, count: usize) -> Self
        requires { length numbers.items ≡ (5 + dim) * count }
        ensures numbers { result.numbers ≡ numbers }
        ensures dim { result.dim ≡ dim }
        ensures count { result.count ≡ count }
    {
        FlatEntries {
            numbers,
            dim,
            count,
        }
    }

    /// Returns the entries where they stand.
    #[inline(always)]
    pub(crate) fn seen(&self) -> FlatView<'_>
        ensures numbers { result.numbers.now ≡ self.now.numbers.items }
        ensures dim { result.dim ≡ self.now.dim }
        ensures count { result.count ≡ self.now.count }
    {
        FlatView {
            numbers: self.numbers.as_slice(),
            dim: self.dim,
            count: self.count,
        }
    }

    /// Returns the list of numbers.
    pub(crate) fn into_numbers(self) -> Vec<u32>
        ensures { result ≡ self.numbers }
    {
        self.numbers
    }

    /// Copies the entries.
    pub(crate) fn try_clone(&self, alloc: Global) -> Result<Self, AllocError>
        ensures numbers { IfOk result (λ copy. copy.numbers.items ≡ self.now.numbers.items) }
        ensures dim { IfOk result (λ copy. copy.dim ≡ self.now.dim) }
        ensures count { IfOk result (λ copy. copy.count ≡ self.now.count) }
    {
        let numbers = self.numbers.as_slice().to_vec(alloc)?;
        Ok(FlatEntries {
            numbers,
            dim: self.dim,
            count: self.count,
        })
    }
}

// Returns the number of eight bytes with these halves.
#[inline(always)]
fn wide(high: u32, low: u32) -> u64
    ensures { result ≡ high * 2 ^ 32 + low }
{
    u64::from(high) * (1 << 32) + u64::from(low)
}

/// Returns the place of the first number of entry `index`.
#[inline(always)]
pub(crate) fn start_of(dim: u8, index: usize) -> usize
    requires { start_of dim (index + 1) < 2 ^ 64 }
    ensures { result ≡ start_of dim index }
{
    FlatEntries::width(dim) * index
}

/// Returns the fields of entry `index` over points of `dim` coordinates.
#[inline(always)]
pub(crate) fn fields_at(numbers: &[u32], dim: u8, index: usize) -> Fields<'_>
    requires { start_of dim (index + 1) ≤ length numbers.now }
    ensures name { result.name ≡ slice_index numbers.now (start_of dim index) }
    ensures wide { result.wide ≡ wide numbers.now (start_of dim index + 1) }
    ensures parent { result.parent ≡ wide numbers.now (start_of dim index + 3) }
    ensures point { result.point.now ≡ take dim (drop (start_of dim index + 5) numbers.now) }
{
    let start = start_of(dim, index);
    let entry = &numbers[start..start + FlatEntries::width(dim)];
    let (before, point) = entry.split_at(BEFORE);
    Fields {
        name: before[0],
        wide: wide(before[1], before[2]),
        parent: wide(before[3], before[4]),
        point,
    }
}
