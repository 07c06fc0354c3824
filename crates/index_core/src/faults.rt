ghost use Rattle.std.specs.Prelude.{◌≡◌, MatchResult, Ok, Err};
ghost use Rattle.index_core.specs.Causes.{place_fault, read_fault};
ghost use Rattle.index_core.specs.declared.faults.IndexFault.TheVariants.{Memory};

use insert_path::PlaceFault;
use page_store::PageFault;
use std::alloc::AllocError;
use thiserror::Error;

/// Why a call of an opened index was refused.
#[derive(Clone, Copy, Debug, PartialEq, Eq, Error)]
pub enum IndexFault {
    /// A page could not be read.
    #[error("the disk failed")]
    Disk,
    /// The file is no sound index: a page holds no node, lies outside the file, or is reached twice, or an insertion met a page
    /// at another level than its depth asks for.
    #[error("a damaged index: {0}")]
    Damaged(PageFault),
    /// The index has as many objects as its head allows, or would have more.
    #[error("the index is full")]
    Full,
    /// A load found objects.
    #[error("the index has objects")]
    NotEmpty,
    /// The new nodes need `needed` pages more than the file's `pages`, and a file may not have that many.
    #[error("{needed} pages more than {pages} are too many")]
    NoRoom { pages: u32, needed: u32 },
    /// There is no further generation.
    #[error("no further commit can be numbered")]
    Worn,
    /// A commit failed before: the file has to be opened anew.
    #[error("a commit failed before")]
    Stopped,
    /// Memory ran out.
    #[error("out of memory")]
    Memory,
    /// The disk failed in the commit: the file has the tree before or the one after, and has to be opened anew.
    #[error("the commit failed")]
    Commit,
}

impl From<AllocError> for IndexFault {
    ghost from_gives = { λ _ e. e ≡ Memory };

    fn from(_error: AllocError) -> IndexFault {
        IndexFault::Memory
    }
}

// Maps a walk's fault to the index's.
pub(crate) fn read_fault(fault: PageFault) -> IndexFault
    ensures { result ≡ read_fault fault }
{
    match fault {
        PageFault::Disk => IndexFault::Disk,
        PageFault::Memory => IndexFault::Memory,
        fault => IndexFault::Damaged(fault),
    }
}

// Maps an insertion's fault to the index's.
pub(crate) fn place_fault(fault: PlaceFault) -> IndexFault
    ensures { result ≡ place_fault fault }
{
    match fault {
        PlaceFault::Page(fault) => read_fault(fault),
        PlaceFault::Full => IndexFault::Full,
        PlaceFault::NoRoom { pages, needed } => IndexFault::NoRoom { pages, needed },
        PlaceFault::Worn => IndexFault::Worn,
        PlaceFault::Memory => IndexFault::Memory,
    }
}

// Maps a walk's answer to the index's: keeps `Ok`, and maps the fault.
pub(crate) fn answer_of<T>(answer: Result<T, PageFault>) -> Result<T, IndexFault>
    ensures { MatchResult answer (λ value. result ≡ Ok value) (λ fault. result ≡ Err (read_fault fault)) }
{
    match answer {
        Ok(value) => Ok(value),
        Err(fault) => Err(read_fault(fault)),
    }
}
