ghost use Rattle.std.specs.Prelude.{◌≡◌};
ghost use Rattle.seal_log.specs.declared.faults.SealFault.TheVariants.{Memory as SealMemory};
ghost use Rattle.seal_log.specs.declared.faults.ProofFault.TheVariants.{Memory as ProofMemory};

use log_verify::Verdict;
use node_page::HeadFault;
use prune_log::LogFault;
use std::alloc::{AllocError, AllocFailed};
use thiserror::Error;

/// Why sealing a file or carrying a log failed.
#[derive(Clone, Copy, Debug, PartialEq, Eq, Error)]
pub enum SealFault {
    /// The disk failed.
    #[error("a page could not be read")]
    Disk,
    /// Memory ran out.
    #[error("out of memory")]
    Memory,
}

impl From<AllocError> for SealFault {
    ghost from_gives = { λ _ e. e ≡ SealMemory };

    fn from(_error: AllocError) -> SealFault {
        SealFault::Memory
    }
}

impl<T: Drop> From<AllocFailed<T>> for SealFault {
    ghost from_gives = { λ _ e. e ≡ SealMemory };

    fn from(_error: AllocFailed<T>) -> SealFault {
        SealFault::Memory
    }
}

/// Why a carried log is not accepted: its first fault. The first five are met while reading from left to right. The others are
/// tried in their order.
#[derive(Clone, Copy, Debug, PartialEq, Eq, Error)]
pub enum ProofFault {
    /// The bytes do not begin with the letters `MTPF`.
    #[error("not a carried log")]
    Magic,
    /// The version is not 1.
    #[error("a carried log of another version")]
    Version,
    /// A field's bytes are not all there.
    #[error("a carried log that is cut")]
    Cut,
    /// There are fewer than three pages, the first three are not pages 0, 1 and 2, a page does not stand behind the one before it,
    /// or a page is past the end of the file.
    #[error("a carried log whose pages are not in order")]
    Order,
    /// Bytes are left behind the log.
    #[error("a carried log with more in it than its fields")]
    Tail,
    /// The path of this page has the wrong number of digests, or does not lead to the root.
    #[error("the path of page {0} does not lead to the root")]
    Path(u32),
    /// Page 0 is no head of version 2.
    #[error("the head: {0}")]
    Head(HeadFault),
    /// Pages 1 and 2 give no live slot that counts the file's pages.
    #[error("no live slot")]
    Slot,
    /// The log's bytes are no log.
    #[error("the log: {0}")]
    Log(LogFault),
    /// The page of this record, counted from 0, is not carried.
    #[error("the page of record {0} is not carried")]
    Missing(u64),
    /// The log is not sound on the carried pages.
    #[error("the log is not sound: {0}")]
    Verdict(Verdict),
    /// Memory ran out.
    #[error("out of memory")]
    Memory,
}

impl From<AllocError> for ProofFault {
    ghost from_gives = { λ _ e. e ≡ ProofMemory };

    fn from(_error: AllocError) -> ProofFault {
        ProofFault::Memory
    }
}
