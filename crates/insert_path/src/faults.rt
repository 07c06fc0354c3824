ghost use Rattle.std.specs.Prelude.{◌≡◌};
ghost use Rattle.insert_path.specs.Causes.{fault_of};
ghost use Rattle.insert_path.specs.declared.faults.PlaceFault.TheVariants.{Memory};

use page_store::PageFault;
use std::alloc::AllocError;
use thiserror::Error;

/// Why an object could not be inserted. The faults are tried in the order `Full`, `Worn`, `Page`, `NoRoom`. `Memory` may come
/// before any but the first two.
#[derive(Clone, Copy, Debug, PartialEq, Eq, Error)]
pub enum PlaceFault {
    /// A page of the walk gave no node, or stands at a level that its depth does not ask for; or the root, which is named,
    /// would have to be split at height 14. It is never `PageFault::Memory`.
    #[error("{0}")]
    Page(PageFault),
    /// The index has as many objects as its head allows.
    #[error("the index is full")]
    Full,
    /// The new nodes need `needed` pages besides the file's `pages`, more than a file may have.
    #[error("no room for {needed} pages after {pages}")]
    NoRoom { pages: u32, needed: u32 },
    /// There is no further generation.
    #[error("the index is worn")]
    Worn,
    /// Memory ran out.
    #[error("out of memory")]
    Memory,
}

impl From<AllocError> for PlaceFault {
    ghost from_gives = { λ _ e. e ≡ Memory };

    fn from(_error: AllocError) -> PlaceFault {
        PlaceFault::Memory
    }
}

/// Maps the fault of a walk to that of the insertion.
pub fn fault_of(fault: PageFault) -> PlaceFault
    ensures { result ≡ fault_of fault }
{
    match fault {
        PageFault::Memory => PlaceFault::Memory,
        fault => PlaceFault::Page(fault),
    }
}
