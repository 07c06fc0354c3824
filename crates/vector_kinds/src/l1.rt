ghost use Rattle.std.specs.Prelude.{◌≡◌, ◌≤◌};
ghost use Rattle.vector_kinds.specs.Vectors.{vector_space};
ghost use Rattle.vector_kinds.specs.VectorLaws.{l1_axioms};

use crate::differences;
use metric_laws::{BOUND, Metric};

/// Adds the differences of the coordinates.
#[derive(Clone, Copy, PartialEq, Eq)]
pub struct L1 {
    pub dim: u8,
    ghost some: { 1 ≤ dim },
    ghost few: { dim ≤ 64 },
}

impl L1 {
    /// Makes the metric on points of `dim` coordinates.
    pub fn new(dim: u8) -> Self
        requires some { 1 ≤ dim }
        requires few { dim ≤ 64 }
        ensures { result.dim ≡ dim }
    {
        L1 { dim }
    }
}

impl Metric for L1 {
    ghost space = { λ m. vector_space 2 m.dim };

    ghost axioms = { λ m. l1_axioms m.dim m.some m.few };

    fn dimension(&self) -> usize {
        usize::from(self.dim)
    }

    fn is_point(&self, p: &[u32]) -> bool {
        differences::has_places(p, self.dim)
    }

    // Inside a choice of metrics a call would pass its arguments on.
    #[inline(always)]
    fn dist(&self, a: &[u32], b: &[u32]) -> u64 {
        if a.len() <= differences::LONGEST {
            differences::sum(a, b).min(BOUND)
        } else {
            differences::saturating_sum(a, b).min(BOUND)
        }
    }
}
