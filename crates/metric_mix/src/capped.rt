ghost use Rattle.std.specs.Prelude.{◌≡◌, ⊤, ◌≤◌};
ghost use Rattle.metric_laws.specs.Space.{bound};
ghost use Rattle.metric_mix.specs.Composed.{capped_space};
ghost use Rattle.metric_mix.specs.ComposedLaws.{capped_axioms};

use metric_laws::Metric;
use std::alloc::AllocError;

/// A metric whose distances are cut off at `most`.
pub struct Capped<M: Metric> {
    pub metric: M,
    pub most: u64,
    ghost some: { 1 ≤ most },
    ghost low: { most ≤ bound },
}

impl<M: Metric> Capped<M> {
    /// Returns the metric with each distance above `most`, 1 to `BOUND`, replaced by `most`.
    pub fn new(metric: M, most: u64) -> Self
        requires some { 1 ≤ most }
        requires low { most ≤ bound }
        ensures metric { result.metric ≡ metric }
        ensures most { result.most ≡ most }
    {
        Capped { metric, most }
    }
}

impl<M: Metric> Clone for Capped<M> {
    ghost is_clone = { λ x y. y ≡ x };

    ghost is_infallible = { λ _. ⊤ };

    fn clone(&self) -> Result<Self, AllocError> {
        Ok(*self)
    }
}

impl<M: Metric> Copy for Capped<M> {}

impl<M: Metric> Metric for Capped<M> {
    ghost space = { λ m. capped_space (M.space m.metric) m.most };

    ghost axioms = { λ m. capped_axioms (M.space m.metric) m.most (M.axioms m.metric) m.some m.low };

    fn dimension(&self) -> usize {
        self.metric.dimension()
    }

    fn is_point(&self, p: &[u32]) -> bool {
        self.metric.is_point(p)
    }

    fn dist(&self, a: &[u32], b: &[u32]) -> u64 {
        self.metric.dist(a, b).min(self.most)
    }
}
