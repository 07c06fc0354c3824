ghost use Rattle.std.specs.Prelude.{◌≡◌, ◌≤◌};
ghost use Rattle.metric_mix.specs.Sets.{hausdorff_space};
ghost use Rattle.metric_mix.specs.HausdorffLaws.{hausdorff_axioms};

use crate::sets;
use metric_laws::Metric;
use vector_kinds::L1;

/// Takes the greatest distance from a number of either set to the nearest number of the other (F. Hausdorff, 1914).
/// A set of 1 to `dim` numbers is spelled in strictly ascending order, the greatest repeated to `dim` places.
#[derive(Clone, Copy, PartialEq, Eq)]
pub struct Hausdorff {
    pub dim: u8,
    ghost some: { 1 ≤ dim },
    ghost few: { dim ≤ 64 },
}

impl Hausdorff {
    /// Returns the metric on sets of at most `dim` numbers.
    pub fn new(dim: u8) -> Self
        requires some { 1 ≤ dim }
        requires few { dim ≤ 64 }
        ensures { result.dim ≡ dim }
    {
        Hausdorff { dim }
    }
}

impl Metric for Hausdorff {
    ghost space = { λ m. hausdorff_space m.dim };

    ghost axioms = { λ m. hausdorff_axioms m.dim m.some m.few };

    fn dimension(&self) -> usize {
        usize::from(self.dim)
    }

    fn is_point(&self, p: &[u32]) -> bool {
        L1::new(self.dim).is_point(p) && sets::is_spelled(p)
    }

    #[inline(never)]
    fn dist(&self, a: &[u32], b: &[u32]) -> u64 {
        u64::from(sets::farthest(a, b).max(sets::farthest(b, a)))
    }
}
