ghost use Rattle.std.specs.Prelude.{◌≡◌};
ghost use Rattle.page_store.specs.declared.pages.PageFault.TheVariants as page;
ghost use Rattle.job_dump.specs.declared.fault.DumpFault.TheVariants as dump;
ghost use Rattle.job_dump.specs.declared.fault.DumpStop.TheVariants as stop;

use outside_io::Failed;
use page_store::PageFault;
use std::alloc::AllocError;
use thiserror::Error;

/// Why the objects of a tree can't be told.
#[derive(Clone, Copy, Debug, PartialEq, Eq, Error)]
pub enum DumpFault {
    /// A page gave no node, or the walk of the tree named more pages than there are.
    #[error("{0}")]
    Page(PageFault),
    /// Two objects have this id, an object has it though it is not below the number of objects, or no object has it. Or its object was
    /// not there when its page was read again.
    #[error("object {0} is not there once")]
    Id(u32),
}

impl From<AllocError> for DumpFault {
    ghost from_gives = { λ _ e. e ≡ dump.Page page.Memory };

    fn from(_error: AllocError) -> DumpFault {
        DumpFault::Page(PageFault::Memory)
    }
}

impl From<PageFault> for DumpFault {
    ghost from_gives = { λ fault e. e ≡ dump.Page fault };

    fn from(fault: PageFault) -> DumpFault {
        DumpFault::Page(fault)
    }
}

/// Why a script was not written whole.
#[derive(Clone, Copy)]
pub enum DumpStop {
    /// The objects can't be told.
    Fault(DumpFault),
    /// The output failed.
    Sink,
}

impl From<AllocError> for DumpStop {
    ghost from_gives = { λ _ e. e ≡ stop.Fault (dump.Page page.Memory) };

    fn from(error: AllocError) -> DumpStop {
        DumpStop::Fault(DumpFault::from(error))
    }
}

impl From<DumpFault> for DumpStop {
    ghost from_gives = { λ fault e. e ≡ stop.Fault fault };

    fn from(fault: DumpFault) -> DumpStop {
        DumpStop::Fault(fault)
    }
}

impl From<Failed> for DumpStop {
    ghost from_gives = { λ _ e. e ≡ stop.Sink };

    fn from(_failed: Failed) -> DumpStop {
        DumpStop::Sink
    }
}
