//! Points that are two points, one after the other, and the metrics on them.

ghost use Rattle.std.specs.Prelude.{◌≡◌, ⊤, ◌+◌, ◌≤◌, take, drop};
ghost use Rattle.metric_mix.specs.Composed.{joined_dist, joined_space};
ghost use Rattle.metric_mix.specs.ComposedLaws.{joined_axioms};

use metric_laws::{BOUND, Metric, cap};
use std::alloc::AllocError;

/// How the distances of two metrics become one.
#[derive(Clone, Copy, PartialEq, Eq)]
pub enum Joining {
    /// Their sum, at most the greatest distance.
    Sum,
    /// The greater of both.
    Most,
}

impl Joining {
    // Returns the distance that these two become.
    fn of(self, first: u64, second: u64) -> u64
        requires first { first ≤ BOUND }
        requires second { second ≤ BOUND }
        ensures { result ≡ joined_dist self first second }
    {
        match self {
            Joining::Sum => cap(first, second),
            Joining::Most => first.max(second),
        }
    }
}

/// A metric on points of `first` followed by points of `second`, whose distances are joined.
pub struct Joined<A: Metric, B: Metric> {
    pub first: A,
    pub second: B,
    pub joining: Joining,
    ghost few: { (A.space first).dimension + (B.space second).dimension ≤ 64 },
}

/// Returns the first `dimension` coordinates, and the rest.
pub fn parts(p: &[u32], dimension: usize) -> (&[u32], &[u32])
    ensures front { result.0.now ≡ take dimension p.now }
    ensures back { result.1.now ≡ drop dimension p.now }
{
    p.split_at(dimension.min(p.len()))
}

impl<A: Metric, B: Metric> Joined<A, B> {
    /// Returns the metric that joins the distances of `first` and `second`, which have at most 64 coordinates together.
    pub fn new(first: A, second: B, joining: Joining) -> Self
        requires { (A.space first).dimension + (B.space second).dimension ≤ 64 }
        ensures first { result.first ≡ first }
        ensures second { result.second ≡ second }
        ensures joining { result.joining ≡ joining }
    {
        Joined {
            first,
            second,
            joining,
        }
    }
}

impl<A: Metric, B: Metric> Clone for Joined<A, B> {
    ghost is_clone = { λ x y. y ≡ x };

    ghost is_infallible = { λ _. ⊤ };

    fn clone(&self) -> Result<Self, AllocError> {
        Ok(*self)
    }
}

impl<A: Metric, B: Metric> Copy for Joined<A, B> {}

impl<A: Metric, B: Metric> Metric for Joined<A, B> {
    ghost space = { λ m. joined_space m.joining (A.space m.first) (B.space m.second) };

    ghost axioms = { λ m. joined_axioms m.joining (A.space m.first) (B.space m.second) (A.axioms m.first) (B.axioms m.second) m.few };

    fn dimension(&self) -> usize {
        self.first.dimension() + self.second.dimension()
    }

    fn is_point(&self, p: &[u32]) -> bool {
        let (front, back) = parts(p, self.first.dimension());
        self.first.is_point(front) && self.second.is_point(back)
    }

    #[inline(never)]
    fn dist(&self, a: &[u32], b: &[u32]) -> u64 {
        let (a_front, a_back) = parts(a, self.first.dimension());
        let (b_front, b_back) = parts(b, self.first.dimension());
        let front = self.first.dist(a_front, b_front);
        let back = self.second.dist(a_back, b_back);
        self.joining.of(front, back)
    }
}
