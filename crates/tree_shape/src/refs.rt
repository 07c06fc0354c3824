//! Entries whose coordinates stand elsewhere.

ghost use Rattle.std.specs.Prelude.{◌≡◌};
ghost use Rattle.tree_shape.specs.Entries.{leaf_of, inner_of};

use crate::{InnerEntry, LeafEntry};

/// An object in a leaf, seen where it stands (VLDB 1997, section 3.1).
#[derive(Clone, Copy)]
pub struct LeafRef<'a> {
    /// The object's place in the order of acceptance, from 0.
    pub id: u32,
    /// What the caller calls the object.
    pub tag: u64,
    /// The distance to the routing point above, and 0 in the root.
    pub parent: u64,
    /// The object's coordinates.
    pub point: &'a [u32],
}

/// A subtree in an inner node, seen where it stands (VLDB 1997, section 3.1).
#[derive(Clone, Copy)]
pub struct InnerRef<'a> {
    /// The page of the subtree's node.
    pub child: u32,
    /// The covering radius: every object of the subtree lies within it of the point.
    pub radius: u64,
    /// The distance to the routing point above, and 0 in the root.
    pub parent: u64,
    /// The coordinates of the routing point.
    pub point: &'a [u32],
}

impl LeafEntry {
    /// Returns the object as it is seen.
    pub fn as_ref(&self) -> LeafRef<'_>
        ensures { leaf_of result ≡ self.now }
    {
        LeafRef {
            id: self.id,
            tag: self.tag,
            parent: self.parent,
            point: self.point.as_slice(),
        }
    }
}

impl InnerEntry {
    /// Returns the subtree as it is seen.
    pub fn as_ref(&self) -> InnerRef<'_>
        ensures { inner_of result ≡ self.now }
    {
        InnerRef {
            child: self.child,
            radius: self.radius,
            parent: self.parent,
            point: self.point.as_slice(),
        }
    }
}
