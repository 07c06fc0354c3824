ghost use Rattle.std.specs.Prelude.{◌≡◌};
ghost use Rattle.vector_kinds.specs.Vectors.{vector_space};
ghost use Rattle.vector_kinds.specs.VectorLaws.{l1_axioms};

use crate::Seen;
use metric_laws::Metric;
use vector_kinds::L1;

/// L1's distances, and two different points that have to meet. Where exactly one of them is an argument of a distance, that point is
/// noted and waits for the other.
#[derive(Clone, Copy)]
pub struct Meeting<'a> {
    /// The metric that gives the distances.
    pub plain: L1,
    /// The point of the first event.
    pub first: &'a [u32],
    /// The point of the second event.
    pub second: &'a [u32],
    /// Where the two events are noted.
    pub seen: &'a Seen,
}

impl<'a> Meeting<'a> {
    /// Makes a metric of one coordinate under which no points have to meet.
    pub fn of_none(seen: &'a Seen) -> Self
        ensures { result.plain.dim ≡ 1 }
    {
        Meeting {
            plain: L1::new(1),
            first: &[],
            second: &[],
            seen,
        }
    }

    fn see(&self, a: &[u32], b: &[u32]) {
        let first = a == self.first || b == self.first;
        let second = a == self.second || b == self.second;
        if first != second {
            self.seen.note(first);
        }
    }
}

impl Metric for Meeting<'_> {
    ghost space = { λ m. vector_space 2 m.plain.dim };

    ghost axioms = { λ m. l1_axioms m.plain.dim m.plain.some m.plain.few };

    fn dimension(&self) -> usize {
        self.plain.dimension()
    }

    fn is_point(&self, p: &[u32]) -> bool {
        self.plain.is_point(p)
    }

    fn dist(&self, a: &[u32], b: &[u32]) -> u64 {
        self.see(a, b);
        self.plain.dist(a, b)
    }
}
