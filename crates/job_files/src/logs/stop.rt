// Why a job stopped before its end.
ghost use Rattle.std.specs.Prelude.{◌≡◌};
ghost use Rattle.job_files.specs.declared.logs.stop.LogStop.TheVariants as stop;

use outside_io::Failed;
use std::alloc::AllocError;
use thiserror::Error;

/// Why a job stopped before its end.
#[derive(Clone, Copy, Debug, PartialEq, Eq, Error)]
pub enum LogStop {
    /// A text could not be put.
    #[error("the output failed")]
    Sink,
    /// A page could not be read.
    #[error("the disk failed")]
    Disk,
    /// Memory ran out.
    #[error("out of memory")]
    Memory,
}

impl From<AllocError> for LogStop {
    ghost from_gives = { λ _ e. e ≡ stop.Memory };

    fn from(_error: AllocError) -> LogStop {
        LogStop::Memory
    }
}

impl From<Failed> for LogStop {
    ghost from_gives = { λ _ e. e ≡ stop.Sink };

    fn from(_failed: Failed) -> LogStop {
        LogStop::Sink
    }
}
