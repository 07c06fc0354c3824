ghost use Rattle.std.specs.Prelude.{◌≡◌, ◌≤◌, ℕ};
ghost use Rattle.metric_laws.specs.Counts.{next_count};
ghost use Rattle.metric_laws.specs.Space.{IsSpace};

use crate::{BOUND, Metric};

/// Measures distances and counts them. Searches, splits, auditors and verifiers have no other way to a distance.
pub trait Ruler {
    type M: Metric;

    /// The metric that measures.
    ghost metric: { Self → Self.M };

    /// The number of distances so far. It stands still at the end of 64 bits.
    ghost used: { Self → ℕ };

    /// Returns whether `p` is a point of the metric's space.
    fn is_point(&self, p: &[u32]) -> bool
        ensures { result ≡ (Self.M.space (metric self.now)).is_point p.now };

    /// Returns the distance of `a` and `b`, and counts one more.
    fn dist(&mut self, a: &[u32], b: &[u32]) -> u64
        ensures value { result ≡ (Self.M.space (metric self.old)).dist a.now b.now }
        ensures bounded { result ≤ BOUND }
        ensures counted { used self.new ≡ next_count (used self.old) }
        ensures same { metric self.new ≡ metric self.old };

    /// The axioms of a metric space, which the metric proves.
    ghost axioms: { (r : Self) → IsSpace (Self.M.space (metric r)) };
}

/// A metric with a count of the distances that it computed.
#[derive(Clone, Copy)]
pub struct Meter<M: Metric> {
    metric: M,
    used: u64,
}

impl<M: Metric> Meter<M> {
    /// Makes a meter that has computed no distance.
    pub fn new(metric: M) -> Self
        ensures metric { result.metric ≡ metric }
        ensures used { result.used ≡ 0 }
    {
        Meter { metric, used: 0 }
    }

    /// Returns how many distances were computed, at most the greatest `u64`.
    pub fn used(&self) -> u64
        ensures { result ≡ self.now.used }
    {
        self.used
    }
}

impl<M: Metric> Ruler for Meter<M> {
    type M = M;

    ghost metric = { λ m. m.metric };

    ghost used = { λ m. m.used };

    fn is_point(&self, p: &[u32]) -> bool {
        self.metric.is_point(p)
    }

    fn dist(&mut self, a: &[u32], b: &[u32]) -> u64 {
        self.used = self.used.saturating_add(1);
        self.metric.dist(a, b)
    }

    ghost axioms = { λ m. M.axioms m.metric };
}
