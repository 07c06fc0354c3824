ghost use Rattle.std.specs.Prelude.{◌≡◌, ◌+◌, ◌≤◌, IfOk, IfErr, OnOk, Err, IsTrue, false};
ghost use Rattle.metric_laws.specs.Counts.{next_count};
ghost use Rattle.page_store.specs.Reading.{is_within};
ghost use Rattle.page_store.specs.Shelf.{Shelf, HoldsSame, IsNodeOf, HasPageCause};
ghost use Rattle.page_store.specs.declared.pages.PageFault.TheVariants.{Memory, Outside};

use crate::SharedNode;
use node_page::NodeFault;
use std::alloc::{AllocError, Global};
use thiserror::Error;
use tree_shape::Node;

/// Why a page gave no node, or why a walk over pages stopped.
#[derive(Clone, Copy, Debug, PartialEq, Eq, Error)]
pub enum PageFault {
    /// The disk failed.
    #[error("a page could not be read")]
    Disk,
    /// The bytes of this page are no node.
    #[error("page {0} holds no node")]
    Bad(u32, NodeFault),
    /// This page is below 3, or not below the live slot's number of pages.
    #[error("page {0} is none of the file's")]
    Outside(u32),
    /// Memory ran out.
    #[error("out of memory")]
    Memory,
    /// A walk opened as many nodes as there are pages, and named this page too. A request for one page never fails so.
    #[error("page {0} is reached twice")]
    Repeats(u32),
    /// A descent met this page at a level other than its depth requires. A request for one page never fails so.
    #[error("page {0} stands at another level")]
    Level(u32),
}

impl From<AllocError> for PageFault {
    ghost from_gives = { λ _ fault. fault ≡ Memory };

    fn from(_error: AllocError) -> PageFault {
        PageFault::Memory
    }
}

/// Pages that give their nodes one at a time, and count the requests. Searches, walks, auditors and verifiers reach pages only
/// through this trait.
pub trait Pages {
    /// What the pages hold, and how often they were asked.
    ghost shelf: { Self → Shelf };

    /// What every call keeps. It tells the owner of a disk what the pages did to the disk.
    ghost keeps: { Self → Self → Type 0 };

    /// Returns the node of page `page`. It may go into the memory of `spare`, whose contents do not matter. `Outside` comes before the
    /// other refusals, and without a read. `Repeats` and `Level` never come.
    /// Clauses: the answer (`ok`); what stays (`same`, `keeps`); the cost (`asked`, `reads`, `unread`); the cause of an error (`cause`,
    /// `outside`); faults of the devices (`no_fault`).
    fn node(
        &mut self,
        alloc: Global,
        page: u32,
        spare: Option<Vec<u32>>,
    ) -> Result<SharedNode, PageFault>
        ensures ok { IfOk result (IsNodeOf (shelf self.old) page) }
        ensures cause { IfErr result (HasPageCause (shelf self.old) (shelf self.new) page) }
        ensures no_fault { OnOk result ((shelf self.new).faults ≡ (shelf self.old).faults) }
        ensures outside { is_within (shelf self.old).pages page ≡ false → result ≡ Err (Outside page) }
        ensures unread { is_within (shelf self.old).pages page ≡ false → (shelf self.new).reads ≡ (shelf self.old).reads }
        ensures same { HoldsSame (shelf self.old) (shelf self.new) }
        ensures asked { (shelf self.new).asked ≡ next_count (shelf self.old).asked }
        ensures reads { (shelf self.new).reads ≤ (shelf self.old).reads + 1 }
        ensures keeps { keeps self.old self.new };

    /// A call that does nothing keeps it.
    ghost keeps_none: { (p : Self) → keeps p p };

    /// Two calls in a row keep it, if each call does.
    ghost keeps_both: { (p q r : Self) → keeps p q → keeps q r → keeps p r };
}

/// Returns the node of page `page` as a value that the caller may change. It is copied only where another holder has it too.
pub fn own_node<P: Pages>(alloc: Global, pages: &mut P, page: u32) -> Result<Node, PageFault>
    ensures ok { IfOk result (IsNodeOf (P.shelf pages.old) page) }
    ensures cause { IfErr result (HasPageCause (P.shelf pages.old) (P.shelf pages.new) page) }
    ensures no_fault { OnOk result ((P.shelf pages.new).faults ≡ (P.shelf pages.old).faults) }
    ensures same { HoldsSame (P.shelf pages.old) (P.shelf pages.new) }
    ensures asked { (P.shelf pages.new).asked ≡ next_count (P.shelf pages.old).asked }
    ensures reads { (P.shelf pages.new).reads ≤ (P.shelf pages.old).reads + 1 }
    ensures keeps { P.keeps pages.old pages.new }
{
    let shared = pages.node(alloc, page, None)?;
    Ok(shared.into_value(alloc)?)
}
