ghost use Rattle.std.specs.Prelude.{◌≡◌};
ghost use Rattle.job_words.specs.Names.{kind_of, metric_named, promote_named, promote_number, split_named, split_number};

/// The metrics, in the order of their kinds.
#[derive(Clone, Copy, PartialEq, Eq)]
pub enum MetricName {
    Hamming,
    L1,
    Max,
    Kendall,
    Hausdorff,
    MixSum,
    MixMax,
    L1Cap,
}

/// The promotion policies: m_RAD and mM_RAD of VLDB 1997.
#[derive(Clone, Copy, PartialEq, Eq)]
pub enum Promote {
    Mrad,
    Mmrad,
}

/// The partition policies of VLDB 1997.
#[derive(Clone, Copy, PartialEq, Eq)]
pub enum Split {
    Hyperplane,
    Balanced,
}

/// A space: its metric, and its dimension from 1 to 64, even where the metric halves its points.
#[derive(Clone, Copy, PartialEq, Eq)]
pub struct SpaceName {
    pub metric: MetricName,
    pub dim: u8,
}

/// How a full node is split.
#[derive(Clone, Copy, PartialEq, Eq)]
pub struct PolicyNames {
    pub promote: Promote,
    pub split: Split,
}

impl MetricName {
    /// Returns the kind, from 1 to 8, that stands for the metric in files.
    pub fn kind(self) -> u8
        ensures { result ≡ kind_of self }
    {
        match self {
            MetricName::Hamming => 1,
            MetricName::L1 => 2,
            MetricName::Max => 3,
            MetricName::Kendall => 4,
            MetricName::Hausdorff => 5,
            MetricName::MixSum => 6,
            MetricName::MixMax => 7,
            MetricName::L1Cap => 8,
        }
    }
}

impl Promote {
    /// Returns the number, 1 or 2, that stands for the policy in files.
    pub fn number(self) -> u8
        ensures { result ≡ promote_number self }
    {
        match self {
            Promote::Mrad => 1,
            Promote::Mmrad => 2,
        }
    }
}

impl Split {
    /// Returns the number, 1 or 2, that stands for the policy in files.
    pub fn number(self) -> u8
        ensures { result ≡ split_number self }
    {
        match self {
            Split::Hyperplane => 1,
            Split::Balanced => 2,
        }
    }
}

/// Returns the metric of a name.
pub fn metric_named(text: &str) -> Option<MetricName>
    ensures { result ≡ metric_named text.now }
{
    match text {
        "hamming" => Some(MetricName::Hamming),
        "l1" => Some(MetricName::L1),
        "max" => Some(MetricName::Max),
        "kendall" => Some(MetricName::Kendall),
        "hausdorff" => Some(MetricName::Hausdorff),
        "mixsum" => Some(MetricName::MixSum),
        "mixmax" => Some(MetricName::MixMax),
        "l1cap" => Some(MetricName::L1Cap),
        _ => None,
    }
}

/// Returns the promotion policy of a name.
pub fn promote_named(text: &str) -> Option<Promote>
    ensures { result ≡ promote_named text.now }
{
    match text {
        "mrad" => Some(Promote::Mrad),
        "mmrad" => Some(Promote::Mmrad),
        _ => None,
    }
}

/// Returns the partition policy of a name.
pub fn split_named(text: &str) -> Option<Split>
    ensures { result ≡ split_named text.now }
{
    match text {
        "hyperplane" => Some(Split::Hyperplane),
        "balanced" => Some(Split::Balanced),
        _ => None,
    }
}
