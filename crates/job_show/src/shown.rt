use log_model::Need;

/// A page that a walk has still to open.
#[derive(Clone, Copy)]
pub struct Coming {
    /// The page, and the distance of the query from the routing point above.
    pub need: Need,
    /// How many steps the page lies below the root.
    pub depth: u32,
}

/// What a walk has shown.
#[derive(Clone, Copy)]
pub struct Counts {
    /// The number of opened nodes.
    pub opened: u64,
    /// How many entries were skipped by the parent test.
    pub skips: u64,
    /// How many entries were ruled out by the centre test.
    pub fars: u64,
    /// How many entries were not ruled out.
    pub nears: u64,
}

/// A walk along the records of a log, in progress.
#[derive(Drop)]
pub struct Walk {
    /// The lines so far.
    pub lines: Vec<u8>,
    /// The counts so far.
    pub counts: Counts,
    /// The pages that are still to come, the next one last.
    pub stack: Vec<Coming>,
    /// Room for the pages that one node needs.
    pub needs: Vec<Coming>,
}
