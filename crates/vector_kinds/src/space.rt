ghost use Rattle.std.specs.Prelude.{◌≡◌, ◌≤◌, ◌<◌, ◌↔◌, ◌⊎◌, IfOk, IsErrOf, IsOk};

use crate::{Hamming, L1, Max, differences};
use metric_laws::Metric;
use thiserror::Error;

/// Why there is no space of a kind and a dimension.
#[derive(Clone, Copy, Debug, PartialEq, Eq, Error)]
pub enum SpaceFault {
    /// No space has this kind.
    #[error("there is no metric of this kind")]
    Kind,
    /// The kind has no space of this dimension.
    #[error("the dimension is out of the metric's range")]
    Dim,
}

/// One of the three metrics, chosen when the program runs.
#[derive(Clone, Copy, PartialEq, Eq)]
pub enum Space {
    Hamming(Hamming),
    L1(L1),
    Max(Max),
}

impl Space {
    ghost use Rattle.vector_kinds.specs.Kinds.{kind_of, dim_of};

    /// Makes the space of `kind`, 1 Hamming, 2 L1 or 3 the maximum, over points of `dim` coordinates, 1 to 64.
    pub fn new(kind: u8, dim: u8) -> Result<Self, SpaceFault>
        ensures kind { IfOk result (λ s. kind_of s ≡ kind) }
        ensures dim { IfOk result (λ s. dim_of s ≡ dim) }

        ensures ok { IsOk result ↔ ((1 ≤ kind) × (kind ≤ 3) × (1 ≤ dim) × (dim ≤ 64)) }

        // The kind is checked first.
        ensures no_kind { IsErrOf result SpaceFault.Kind ↔ ((kind < 1) ⊎ (3 < kind)) }
        ensures no_dim { IsErrOf result SpaceFault.Dim ↔ ((1 ≤ kind) × (kind ≤ 3) × ((dim < 1) ⊎ (64 < dim))) }
    {
        if kind == 0 || kind > 3 {
            return Err(SpaceFault::Kind);
        }
        if dim == 0 || dim > 64 {
            return Err(SpaceFault::Dim);
        }
        Ok(match kind {
            1 => Space::Hamming(Hamming::new(dim)),
            2 => Space::L1(L1::new(dim)),
            _ => Space::Max(Max::new(dim)),
        })
    }

    /// Returns the number of the metric, 1 to 3.
    pub fn kind(&self) -> u8
        ensures value { result ≡ kind_of self.now }
        ensures some { 1 ≤ result }
        ensures few { result ≤ 3 }
    {
        match self {
            Space::Hamming(_) => 1,
            Space::L1(_) => 2,
            Space::Max(_) => 3,
        }
    }

    /// Returns the number of coordinates of a point.
    pub fn dim(&self) -> u8
        ensures value { result ≡ dim_of self.now }
        ensures some { 1 ≤ result }
        ensures few { result ≤ 64 }
    {
        match self {
            Space::Hamming(metric) => metric.dim,
            Space::L1(metric) => metric.dim,
            Space::Max(metric) => metric.dim,
        }
    }
}

impl Metric for Space {
    ghost use Rattle.vector_kinds.specs.Vectors.{vector_space};
    ghost use Rattle.vector_kinds.specs.Kinds.{kind_of, dim_of};
    ghost use Rattle.vector_kinds.specs.KindLaws.{kind_axioms};

    ghost space = { λ s. vector_space (kind_of s) (dim_of s) };

    ghost axioms = { kind_axioms };

    fn dimension(&self) -> usize {
        usize::from(self.dim())
    }

    fn is_point(&self, p: &[u32]) -> bool {
        differences::has_places(p, self.dim())
    }

    fn dist(&self, a: &[u32], b: &[u32]) -> u64 {
        match self {
            Space::Hamming(metric) => metric.dist(a, b),
            Space::L1(metric) => metric.dist(a, b),
            Space::Max(metric) => metric.dist(a, b),
        }
    }
}
