/// A subtree that is not opened yet. Those that may hold the nearest objects come first (VLDB 1997, section 3.2), then those of
/// lower pages.
#[derive(Clone, Copy, PartialEq, Eq, PartialOrd, Ord)]
pub struct Pending {
    /// No object below the page is nearer to the query than this.
    pub low: u64,
    /// The page.
    pub page: u32,
    /// The distance from the query's point to the routing point above. None stands above the root.
    pub above: Option<u64>,
}
