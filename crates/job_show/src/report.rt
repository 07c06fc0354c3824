/// What is shown of the marks of a log.
#[derive(Clone, Copy, PartialEq, Eq)]
pub enum Marks {
    /// Each mark with its reason, below the node that it stands in.
    Each,
    /// How often each mark stands in a frame, as a table.
    Count,
}
