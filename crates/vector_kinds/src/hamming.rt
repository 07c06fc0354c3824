ghost use Rattle.std.specs.Prelude.{◌≡◌, ◌≤◌};
ghost use Rattle.vector_kinds.specs.Vectors.{vector_space};
ghost use Rattle.vector_kinds.specs.VectorLaws.{hamming_axioms};

use crate::differences;
use metric_laws::{BOUND, Metric};

/// Counts the places that differ (R. W. Hamming, 1950).
#[derive(Clone, Copy, PartialEq, Eq)]
pub struct Hamming {
    pub dim: u8,
    ghost some: { 1 ≤ dim },
    ghost few: { dim ≤ 64 },
}

impl Hamming {
    /// Makes the metric on points of `dim` coordinates.
    pub fn new(dim: u8) -> Self
        requires some { 1 ≤ dim }
        requires few { dim ≤ 64 }
        ensures { result.dim ≡ dim }
    {
        Hamming { dim }
    }
}

impl Metric for Hamming {
    ghost space = { λ m. vector_space 1 m.dim };

    ghost axioms = { λ m. hamming_axioms m.dim m.some m.few };

    fn dimension(&self) -> usize {
        usize::from(self.dim)
    }

    fn is_point(&self, p: &[u32]) -> bool {
        differences::has_places(p, self.dim)
    }

    fn dist(&self, a: &[u32], b: &[u32]) -> u64 {
        if a.len() <= differences::LONGEST {
            u64::from(differences::count(a, b))
        } else {
            differences::long_count(a, b).min(BOUND)
        }
    }
}
