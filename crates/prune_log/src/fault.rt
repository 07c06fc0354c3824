ghost use Rattle.std.specs.Prelude.{◌≡◌};
ghost use Rattle.prune_log.specs.declared.fault.LogFault.TheVariants.{Memory};

use std::alloc::{AllocError, AllocFailed};
use thiserror::Error;

/// Why bytes are no log: the first fault from left to right.
#[derive(Clone, Copy, Debug, PartialEq, Eq, Error)]
pub enum LogFault {
    /// The log does not begin with the letters `MTLG`.
    #[error("not a log")]
    Magic,
    /// The version is not 1.
    #[error("a log of another version")]
    Version,
    /// The log is of another kind, its point has no coordinate or more than 64, or k is 0.
    #[error("a log of another kind")]
    Kind,
    /// A field's bytes are not all there.
    #[error("a log that is cut")]
    Cut,
    /// There are more marks than a node may have entries, or the byte of a mark or a side is invalid.
    #[error("a log with a mark that is none")]
    Mark,
    /// An answer does not stand behind the one before it.
    #[error("a log whose answers are not in order")]
    Order,
    /// Bytes are left behind the last record.
    #[error("a log with more in it than its fields")]
    Tail,
    /// Memory ran out.
    #[error("out of memory")]
    Memory,
}

impl From<AllocError> for LogFault {
    ghost from_gives = { λ _ e. e ≡ Memory };

    fn from(_error: AllocError) -> LogFault {
        LogFault::Memory
    }
}

impl<T: Drop> From<AllocFailed<T>> for LogFault {
    ghost from_gives = { λ _ e. e ≡ Memory };

    fn from(_error: AllocFailed<T>) -> LogFault {
        LogFault::Memory
    }
}
