use job_show::Counts;
use log_model::{JoinNeed, Matches};

/// A pair that a walk has still to open.
#[derive(Drop)]
pub struct PairComing {
    /// The pair.
    pub need: JoinNeed,
    /// How many steps the pair lies below the pair of roots.
    pub depth: u32,
}

/// A walk along the records of a join's log, in progress.
#[derive(Drop)]
pub struct PairWalk {
    /// The lines so far.
    pub lines: Vec<u8>,
    /// The counts so far.
    pub counts: Counts,
    /// The number of distances so far.
    pub measured: u64,
    /// The pairs that are still to come, the next one last.
    pub stack: Vec<PairComing>,
    /// Room for the pairs that one node needs.
    pub named: Matches,
}
