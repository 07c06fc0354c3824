ghost use Rattle.std.specs.Prelude.{◌≡◌, ◌≤◌, ◌+◌, List, ℕ, length, take, drop, IfOk};
ghost use Rattle.std.specs.Arc.{arc_slice_items};

use smallvec::SmallVec;
use std::alloc::{AllocError, Global};
use std::marker::Model;
use std::sync::ArcSlice;

// A part of a list of numbers that several points share.
#[derive(Drop)]
struct Part {
    numbers: ArcSlice<u32>,
    start: usize,
    len: usize,
    ghost within: { start + len ≤ length (arc_slice_items numbers) },
}

// Where the coordinates of a point stand.
#[derive(Drop)]
enum Place {
    // In the value itself, up to 16 of them, or else in memory of the point's own.
    Own(SmallVec<u32, 16>),
    // In numbers that other points share.
    Shared(Part),
}

/// One list of coordinates. Up to 16 of them stand in the value itself. Points that are taken out of one node are parts of one list of
/// numbers, which they share, so none of them takes memory of its own.
#[derive(Drop)]
pub struct Point {
    place: Place,
}

impl Model for Point {
    ghost use Rattle.std.specs.Prelude.{List, ℕ};
    ghost use Rattle.metric_laws.specs.Points.{coordinates_in};

    ghost Value = { List ℕ };

    ghost view = { λ p. coordinates_in p.place };
}

impl Point {
    /// Makes a point of a copy of `coordinates`.
    // A call would pass the coordinates through memory twice.
    #[inline(always)]
    pub fn new(alloc: Global, coordinates: &[u32]) -> Result<Self, AllocError>
        ensures { IfOk result (λ p. p ≡ coordinates.now) }
    {
        let coordinates = SmallVec::from_slice(alloc, coordinates)?;
        Ok(Point {
            place: Place::Own(coordinates),
        })
    }

    /// Makes a point of the `len` numbers from `start` on, which it shares with `numbers`.
    pub fn part_of(numbers: &ArcSlice<u32>, start: usize, len: usize) -> Result<Self, AllocError>
        requires { start + len ≤ length (arc_slice_items numbers.now) }
        ensures { IfOk result (λ p. p ≡ take len (drop start (arc_slice_items numbers.now))) }
    {
        let numbers = numbers.clone()?;
        Ok(Point {
            place: Place::Shared(Part {
                numbers,
                start,
                len,
            }),
        })
    }

    /// Makes the same point once more. It shares what this one shares.
    pub fn share(&self, alloc: Global) -> Result<Self, AllocError>
        ensures { IfOk result (λ p. p ≡ self.now) }
    {
        match &self.place {
            Place::Own(coordinates) => Point::new(alloc, coordinates.as_slice()),
            Place::Shared(part) => Point::part_of(&part.numbers, part.start, part.len),
        }
    }

    /// Returns the coordinates.
    pub fn as_slice(&self) -> &[u32]
        ensures { result.now ≡ self.now }
    {
        match &self.place {
            Place::Own(coordinates) => coordinates.as_slice(),
            Place::Shared(part) => &part.numbers.as_slice()[part.start..part.start + part.len],
        }
    }
}
