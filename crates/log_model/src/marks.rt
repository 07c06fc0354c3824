use crate::NodeMarks;

/// What a search decided about an entry of a node.
// The default is what an unused place of `NodeMarks` holds.
#[derive(Clone, Copy, Default, PartialEq, Eq)]
pub enum Mark {
    /// Ruled out by the parent test, from stored distances to the routing object above (VLDB 1997, section 3.2).
    #[default]
    Skip,
    /// Ruled out by the centre test, from the computed distance to the entry.
    Far,
    /// Not ruled out: an answer in a leaf, or a subtree that is searched in an inner node.
    Near,
}

/// The decisions on one node.
#[derive(Drop)]
pub struct Record {
    /// The node's page.
    pub page: u32,
    /// One mark for each entry, in the node's order.
    pub marks: NodeMarks,
}

/// The decisions of a join on one node of either tree.
#[derive(Drop)]
pub struct JoinRecord {
    /// Whether the node stands in the right tree.
    pub right: bool,
    /// The node's page.
    pub page: u32,
    /// One mark for each entry, in the node's order.
    pub marks: NodeMarks,
}

/// A page that a walk still has to open.
#[derive(Clone, Copy, PartialEq, Eq)]
pub struct Need {
    /// The page.
    pub page: u32,
    /// The distance from the query's point to the routing object above the page's node. The root has none.
    pub above: Option<u64>,
}
