ghost use Rattle.std.specs.Prelude.{◌≡◌, ◌≤◌};
ghost use Rattle.metric_mix.specs.Permutations.{kendall_space};
ghost use Rattle.metric_mix.specs.KendallLaws.{kendall_axioms};

use crate::{joined, permutations};
use metric_laws::Metric;

/// Counts the pairs of places that two permutations order differently (M. G. Kendall, 1938).
#[derive(Clone, Copy, PartialEq, Eq)]
pub struct Kendall {
    pub dim: u8,
    ghost some: { 1 ≤ dim },
    ghost few: { dim ≤ 64 },
}

impl Kendall {
    /// Returns the metric on permutations of the numbers 0 to `dim - 1`.
    pub fn new(dim: u8) -> Self
        requires some { 1 ≤ dim }
        requires few { dim ≤ 64 }
        ensures { result.dim ≡ dim }
    {
        Kendall { dim }
    }
}

impl Metric for Kendall {
    ghost space = { λ m. kendall_space m.dim };

    ghost axioms = { λ m. kendall_axioms m.dim m.some m.few };

    fn dimension(&self) -> usize {
        usize::from(self.dim)
    }

    fn is_point(&self, p: &[u32]) -> bool {
        p.len() == usize::from(self.dim) && permutations::hold_below(p, self.dim)
    }

    #[inline(never)]
    fn dist(&self, a: &[u32], b: &[u32]) -> u64 {
        let (a, _) = joined::parts(a, usize::from(self.dim));
        let (b, _) = joined::parts(b, usize::from(self.dim));
        permutations::discordant(a, b)
    }
}
