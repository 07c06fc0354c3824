ghost use Rattle.std.specs.Prelude.{◌≡◌, ◌≤◌, ◌<◌, ◌↔◌, ◌⊎◌, false, IfOk, IsErrOf, IsOk, IsTrue};
ghost use Rattle.metric_mix.specs.MixSpaces.{is_valid, mix_name};

use crate::{Capped, Halves, Hausdorff, Joining, Kendall};
use metric_laws::{BOUND, Metric};
use vector_kinds::{Hamming, L1, Max, Space, SpaceFault};

/// The greatest distance of an `l1cap` space.
const MOST: u64 = 65535;

/// One of eight metrics, chosen when the program runs.
#[derive(Clone, Copy, PartialEq, Eq)]
pub enum MixSpace {
    /// `hamming`, `l1` and `max`.
    Plain(Space),
    /// `kendall`
    Kendall(Kendall),
    /// `hausdorff`
    Hausdorff(Hausdorff),
    /// `mixsum`: the sum of L1 of the first half and Hamming of the second.
    MixSum(Halves),
    /// `mixmax`: the greater of L1 of the first half and Hamming of the second.
    MixMax(Halves),
    /// `l1cap`: L1 with distances cut off at 65535.
    L1Cap(L1),
}

/// Returns whether the kind has a space of dimension `dim`.
fn has_dimension(kind: u8, dim: u8) -> bool
    ensures { result ≡ is_valid kind dim }
{
    let halves = kind == 6 || kind == 7;
    1 <= dim && dim <= 64 && (!halves || dim % 2 == 0)
}

impl MixSpace {
    ghost use Rattle.metric_mix.specs.MixKinds.{mix_kind, mix_dim};
    ghost use Rattle.metric_mix.specs.MixSpaces.{mix_space};

    /// Returns the space of a kind and a dimension. The kind is 1 to 8, in the order above, and the dimension 1 to 64, even for 6
    /// and 7.
    pub fn new(kind: u8, dim: u8) -> Result<Self, SpaceFault>
        ensures kind { IfOk result (λ s. mix_kind s ≡ kind) }
        ensures dim { IfOk result (λ s. mix_dim s ≡ dim) }

        ensures ok { IsOk result ↔ ((1 ≤ kind) × (kind ≤ 8) × IsTrue (is_valid kind dim)) }

        // The kind is checked first.
        ensures no_kind { IsErrOf result SpaceFault.Kind ↔ ((kind < 1) ⊎ (8 < kind)) }
        ensures no_dim { IsErrOf result SpaceFault.Dim ↔ ((1 ≤ kind) × (kind ≤ 8) × (is_valid kind dim ≡ false)) }
    {
        if kind == 0 || kind > 8 {
            return Err(SpaceFault::Kind);
        }
        if !has_dimension(kind, dim) {
            return Err(SpaceFault::Dim);
        }
        Ok(match kind {
            1 => MixSpace::Plain(Space::Hamming(Hamming::new(dim))),
            2 => MixSpace::Plain(Space::L1(L1::new(dim))),
            3 => MixSpace::Plain(Space::Max(Max::new(dim))),
            4 => MixSpace::Kendall(Kendall::new(dim)),
            5 => MixSpace::Hausdorff(Hausdorff::new(dim)),
            6 => MixSpace::MixSum(Halves::new(dim)),
            7 => MixSpace::MixMax(Halves::new(dim)),
            _ => MixSpace::L1Cap(L1::new(dim)),
        })
    }

    /// Returns the number of the metric, 1 to 8.
    #[tactic(auto, using(crate::specs::MixKindLaws::mix_low))]
    pub fn kind(&self) -> u8
        ensures value { result ≡ mix_kind self.now }
        ensures some { 1 ≤ result }
        ensures few { result ≤ 8 }
    {
        match self {
            MixSpace::Plain(space) => space.kind(),
            MixSpace::Kendall(_) => 4,
            MixSpace::Hausdorff(_) => 5,
            MixSpace::MixSum(_) => 6,
            MixSpace::MixMax(_) => 7,
            MixSpace::L1Cap(_) => 8,
        }
    }

    /// Returns the number of coordinates of a point.
    #[tactic(auto, using(crate::specs::MixKindLaws::mix_valid))]
    pub fn dim(&self) -> u8
        ensures value { result ≡ mix_dim self.now }
        ensures valid { IsTrue (is_valid (mix_kind self.now) result) }
    {
        match self {
            MixSpace::Plain(space) => space.dim(),
            MixSpace::Kendall(metric) => metric.dim,
            MixSpace::Hausdorff(metric) => metric.dim,
            MixSpace::MixSum(halves) => halves.dim,
            MixSpace::MixMax(halves) => halves.dim,
            MixSpace::L1Cap(metric) => metric.dim,
        }
    }

    /// Returns the metric's name.
    pub fn name(&self) -> &'static str
        ensures { result.now ≡ mix_name (mix_kind self.now) }
    {
        match self {
            MixSpace::Plain(Space::Hamming(_)) => "hamming",
            MixSpace::Plain(Space::L1(_)) => "l1",
            MixSpace::Plain(Space::Max(_)) => "max",
            MixSpace::Kendall(_) => "kendall",
            MixSpace::Hausdorff(_) => "hausdorff",
            MixSpace::MixSum(_) => "mixsum",
            MixSpace::MixMax(_) => "mixmax",
            MixSpace::L1Cap(_) => "l1cap",
        }
    }

    // Returns the distance by any of the metrics.
    // It stands apart, so that a plain metric pays nothing for the composed ones.
    #[inline(never)]
    fn any_dist(&self, a: &[u32], b: &[u32]) -> u64
        ensures value { result ≡ (mix_space (mix_kind self.now) (mix_dim self.now)).dist a.now b.now }
        ensures bounded { result ≤ BOUND }
    {
        match self {
            MixSpace::Plain(space) => space.dist(a, b),
            MixSpace::Kendall(metric) => metric.dist(a, b),
            MixSpace::Hausdorff(metric) => metric.dist(a, b),
            MixSpace::MixSum(halves) => halves.joined(Joining::Sum).dist(a, b),
            MixSpace::MixMax(halves) => halves.joined(Joining::Most).dist(a, b),
            MixSpace::L1Cap(metric) => Capped::new(*metric, MOST).dist(a, b),
        }
    }
}

impl Metric for MixSpace {
    ghost use Rattle.metric_mix.specs.MixSpaces.{mix_space};
    ghost use Rattle.metric_mix.specs.MixKinds.{mix_kind, mix_dim};
    ghost use Rattle.metric_mix.specs.MixKindLaws.{mix_axioms};

    ghost space = { λ s. mix_space (mix_kind s) (mix_dim s) };

    ghost axioms = { mix_axioms };

    fn dimension(&self) -> usize {
        usize::from(self.dim())
    }

    fn is_point(&self, p: &[u32]) -> bool {
        match self {
            MixSpace::Plain(space) => space.is_point(p),
            MixSpace::Kendall(metric) => metric.is_point(p),
            MixSpace::Hausdorff(metric) => metric.is_point(p),
            MixSpace::MixSum(halves) => halves.joined(Joining::Sum).is_point(p),
            MixSpace::MixMax(halves) => halves.joined(Joining::Most).is_point(p),
            MixSpace::L1Cap(metric) => metric.is_point(p),
        }
    }

    fn dist(&self, a: &[u32], b: &[u32]) -> u64 {
        if let MixSpace::Plain(space) = self {
            return space.dist(a, b);
        }
        self.any_dist(a, b)
    }
}
