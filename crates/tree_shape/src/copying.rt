//! Copies of a node.

ghost use Rattle.std.specs.Prelude.{◌≡◌, IfOk};

use crate::{InnerEntry, LeafEntry, Node};
use std::alloc::{AllocError, Global};

/// A value that can be copied, unless memory runs out.
pub trait TryClone: Drop {
    /// Copies the value.
    fn try_clone(&self, alloc: Global) -> Result<Self, AllocError>
        ensures { IfOk result (λ copy. copy ≡ self.now) };
}

impl TryClone for LeafEntry {
    fn try_clone(&self, alloc: Global) -> Result<Self, AllocError> {
        Ok(LeafEntry {
            id: self.id,
            tag: self.tag,
            parent: self.parent,
            point: self.point.share(alloc)?,
        })
    }
}

impl TryClone for InnerEntry {
    fn try_clone(&self, alloc: Global) -> Result<Self, AllocError> {
        Ok(InnerEntry {
            child: self.child,
            radius: self.radius,
            parent: self.parent,
            point: self.point.share(alloc)?,
        })
    }
}

// Copies the values.
pub(crate) fn copies_of<T: TryClone>(alloc: Global, items: &[T]) -> Result<Vec<T>, AllocError>
    ensures { IfOk result (λ copies. copies.items ≡ items.now) }
{
    let mut copies = Vec::with_capacity(alloc, items.len())?;
    for item in items {
        copies.push(item.try_clone(alloc)?)?;
    }
    Ok(copies)
}

impl TryClone for Node {
    fn try_clone(&self, alloc: Global) -> Result<Self, AllocError> {
        match self {
            Node::Leaf(entries) => Ok(Node::Leaf(entries.try_clone(alloc)?)),
            Node::Inner { level, entries } => Ok(Node::Inner {
                level: *level,
                entries: entries.try_clone(alloc)?,
            }),
        }
    }
}
