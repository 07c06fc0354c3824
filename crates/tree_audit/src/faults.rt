ghost use Rattle.std.specs.Prelude.{◌≡◌};
ghost use Rattle.tree_audit.specs.declared.faults.AuditFault.TheVariants.{Memory};

use page_store::PageFault;
use std::alloc::AllocError;
use thiserror::Error;

/// Why a tree is not sound. Entries are named by their page and their place in its node, from 0.
#[derive(Clone, Copy, Debug, PartialEq, Eq, Error)]
pub enum AuditFault {
    /// A page gave no node: the disk failed, the page's bytes are no node, or it lies outside the file.
    #[error("{0}")]
    Page(PageFault),
    /// The node on this page has another level than its depth asks, or too few or too many entries.
    #[error("the node on page {0} has a wrong level or number of entries")]
    Fill(u32),
    /// The walk reached this page before.
    #[error("page {0} is reached twice")]
    Twice(u32),
    /// The point of this entry is not in the space.
    #[error("entry {1} of page {0} has no point of the space")]
    Unfit(u32, u32),
    /// The distance that this entry stores is not the one to the routing point above.
    #[error("entry {1} of page {0} stores a wrong distance")]
    ParentDistance(u32, u32),
    /// The radius of this routing entry leaves out the object with this id.
    #[error("the radius of entry {1} of page {0} leaves out object {2}")]
    Radius(u32, u32, u32),
    /// An object has an id that was met before or is not below the slot's count.
    #[error("the id {0} is out of range or there twice")]
    Id(u32),
    /// The tree has another number of objects than the slot tells.
    #[error("the slot tells {slot} objects, and the tree has {found}")]
    Count {
        /// What the slot tells.
        slot: u32,
        /// How many the tree has.
        found: u32,
    },
    /// Memory ran out for the audit.
    #[error("out of memory")]
    Memory,
}

impl From<AllocError> for AuditFault {
    ghost from_gives = { λ _ e. e ≡ Memory };

    fn from(_error: AllocError) -> AuditFault {
        AuditFault::Memory
    }
}
