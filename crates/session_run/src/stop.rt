ghost use Rattle.std.specs.Prelude.{◌≡◌};
ghost use Rattle.session_run.specs.declared.stop.SessionStop.TheVariants as stop;
ghost use Rattle.session_run.specs.Steps.{stop_of_page};

use outside_io::Failed;
use page_store::PageFault;
use std::alloc::AllocError;

/// Why a session ended before its script did.
#[derive(Clone, Copy, PartialEq, Eq)]
pub enum SessionStop {
    /// Memory ran out.
    Memory,

    /// A reply or a log could not be written.
    Sink,

    /// The disk failed.
    Disk,

    /// A page of the index is damaged: it holds no node, lies outside the file, is reached twice, or stands at another level than
    /// its depth asks for. A sound index never gives this.
    Damaged(PageFault),
}

impl From<AllocError> for SessionStop {
    ghost from_gives = { λ _ e. e ≡ stop.Memory };

    fn from(_error: AllocError) -> SessionStop {
        SessionStop::Memory
    }
}

impl From<Failed> for SessionStop {
    ghost from_gives = { λ _ e. e ≡ stop.Sink };

    fn from(_failed: Failed) -> SessionStop {
        SessionStop::Sink
    }
}

impl From<PageFault> for SessionStop {
    ghost from_gives = { λ fault e. e ≡ stop_of_page fault };

    fn from(fault: PageFault) -> SessionStop {
        match fault {
            PageFault::Disk => SessionStop::Disk,
            PageFault::Memory => SessionStop::Memory,
            damage => SessionStop::Damaged(damage),
        }
    }
}
