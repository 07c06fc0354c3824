ghost use Rattle.std.specs.Prelude.{◌≡◌, ◌≤◌, ◌/◌, ◌%◌};

use crate::{Joined, Joining};
use vector_kinds::{Hamming, L1};

/// Points of two halves: L1 measures the first half, and Hamming the second. The number of coordinates is even.
#[derive(Clone, Copy, PartialEq, Eq)]
pub struct Halves {
    pub dim: u8,
    ghost some: { 1 ≤ dim },
    ghost few: { dim ≤ 64 },
    ghost even: { dim % 2 ≡ 0 },
}

impl Halves {
    /// Returns the halves of `dim` coordinates.
    pub fn new(dim: u8) -> Self
        requires some { 1 ≤ dim }
        requires few { dim ≤ 64 }
        requires even { dim % 2 ≡ 0 }
        ensures { result.dim ≡ dim }
    {
        Halves { dim }
    }

    /// Returns the metric that joins the distances of the halves.
    pub fn joined(self, joining: Joining) -> Joined<L1, Hamming>
        ensures first { result.first.dim ≡ self.dim / 2 }
        ensures second { result.second.dim ≡ self.dim / 2 }
        ensures joining { result.joining ≡ joining }
    {
        let half = self.dim / 2;
        Joined::new(L1::new(half), Hamming::new(half), joining)
    }
}
