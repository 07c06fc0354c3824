use crate::{InnerEntries, LeafEntries};
use metric_laws::Point;

/// An object in a leaf (VLDB 1997, section 3.1).
#[derive(Drop)]
pub struct LeafEntry {
    /// The object's place in the order of acceptance, from 0.
    pub id: u32,
    /// What the caller calls the object. No step of the tree looks at it.
    pub tag: u64,
    /// The distance to the routing point above, and 0 in the root.
    pub parent: u64,
    /// The object's coordinates.
    pub point: Point,
}

/// A subtree in an inner node (VLDB 1997, section 3.1).
#[derive(Drop)]
pub struct InnerEntry {
    /// The page of the subtree's node.
    pub child: u32,
    /// The covering radius: every object of the subtree lies within it of the point.
    pub radius: u64,
    /// The distance to the routing point above, and 0 in the root.
    pub parent: u64,
    /// The routing point.
    pub point: Point,
}

/// A page of the tree.
#[derive(Drop)]
pub enum Node {
    /// A node of level 0.
    Leaf(LeafEntries),
    /// A node of level 1 to 14.
    Inner { level: u8, entries: InnerEntries },
}

impl Node {
    /// Returns the list of numbers in which the entries stand, where the node was read from a page. Another node can be read into its
    /// memory.
    pub fn into_numbers(self) -> Option<Vec<u32>> {
        match self {
            Node::Leaf(entries) => entries.into_numbers(),
            Node::Inner { entries, .. } => entries.into_numbers(),
        }
    }
}
