ghost use Rattle.std.specs.Prelude.{◌≡◌, ◌≤◌};
ghost use Rattle.vector_kinds.specs.Vectors.{vector_space};
ghost use Rattle.vector_kinds.specs.VectorLaws.{max_axioms};

use crate::differences;
use metric_laws::Metric;

/// Takes the greatest difference of two coordinates.
#[derive(Clone, Copy, PartialEq, Eq)]
pub struct Max {
    pub dim: u8,
    ghost some: { 1 ≤ dim },
    ghost few: { dim ≤ 64 },
}

impl Max {
    /// Makes the metric on points of `dim` coordinates.
    pub fn new(dim: u8) -> Self
        requires some { 1 ≤ dim }
        requires few { dim ≤ 64 }
        ensures { result.dim ≡ dim }
    {
        Max { dim }
    }
}

impl Metric for Max {
    ghost space = { λ m. vector_space 3 m.dim };

    ghost axioms = { λ m. max_axioms m.dim m.some m.few };

    fn dimension(&self) -> usize {
        usize::from(self.dim)
    }

    fn is_point(&self, p: &[u32]) -> bool {
        differences::has_places(p, self.dim)
    }

    fn dist(&self, a: &[u32], b: &[u32]) -> u64 {
        u64::from(differences::greatest(a, b))
    }
}
