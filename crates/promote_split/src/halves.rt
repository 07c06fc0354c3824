use crate::Entry;
use metric_laws::{Listed, Point};

/// One half of a node that was split.
#[derive(Drop)]
pub struct Half<E: Entry> {
    /// The promoted entry's point, the half's routing point.
    pub point: Point,
    /// The half's covering radius.
    pub radius: u64,
    /// The entries in their old order, each with its distance to the half's point.
    pub entries: Listed<E>,
}

/// The two halves of a node.
#[derive(Drop)]
pub struct Halves<E: Entry> {
    /// The half of the first promoted entry.
    pub first: Half<E>,
    /// The half of the second promoted entry.
    pub second: Half<E>,
}
