use page_store::Numbering;
use promote_split::Policy;
use tree_shape::{Bounds, Node};

/// The object to insert.
#[derive(Clone, Copy)]
pub struct NewObject<'a> {
    pub id: u32,
    pub tag: u64,
    pub point: &'a [u32],
}

/// The parameters of an insertion.
#[derive(Clone, Copy)]
pub struct Task<'a> {
    /// How nodes are split.
    pub policy: Policy,
    /// How many entries a node may have.
    pub bounds: Bounds,
    /// Which pages new nodes get.
    pub numbering: Numbering<'a>,
    /// The new object.
    pub object: NewObject<'a>,
}

/// Where a descent stands.
#[derive(Clone, Copy)]
pub struct Spot<'a> {
    /// The level that the page's node should have.
    pub level: u8,
    pub page: u32,
    /// Whether the page is the root's.
    pub root: bool,
    /// The routing point above, unless the page is the root's.
    pub above: &'a [u32],
}

/// What a descent has written so far.
#[derive(Drop)]
pub struct Written {
    /// The new nodes.
    pub nodes: Vec<Node>,
    /// The pages that were read, which the new tree leaves.
    pub left: Vec<u32>,
}
