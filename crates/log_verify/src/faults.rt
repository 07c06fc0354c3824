ghost use Rattle.std.specs.Prelude.{◌≡◌};
ghost use Rattle.log_verify.specs.declared.faults.Verdict.TheVariants.{Memory};
ghost use Rattle.log_verify.specs.declared.faults.JoinVerdict.TheVariants.{Memory as JoinMemory};

use page_store::PageFault;
use std::alloc::AllocError;
use thiserror::Error;

/// The verifier's result for a log that it accepts.
#[derive(Clone, Copy, PartialEq, Eq)]
pub struct Accepted {
    /// The number of records.
    pub records: u64,
}

/// Why a log is not accepted: its first fault. Records, entries and answers are counted from 0.
#[derive(Clone, Copy, Debug, PartialEq, Eq, Error)]
pub enum Verdict {
    /// The log names another generation or another root than the live slot.
    #[error("a log of another state")]
    OtherState { named: (u64, u32), live: (u64, u32) },
    /// The query's point is not one of the metric's space.
    #[error("a log of a point that does not fit")]
    Point,
    /// A page that the walk needs gave no node. It is never `PageFault::Memory`.
    #[error("a page of the walk: {0}")]
    Page(PageFault),
    /// This record names another page than the walk needs, or the walk needs a page and no record is left.
    #[error("record {0} is of another page")]
    WrongPage(u64),
    /// This record has another number of marks than its node has entries.
    #[error("record {0} has another number of marks")]
    WrongCount(u64),
    /// In this record the mark of this entry is not allowed.
    #[error("record {0} has a mark that is not allowed at entry {1}")]
    WrongMark(u64, u32),
    /// This answer is not the one that the records name.
    #[error("answer {0} is another")]
    WrongAnswer(u64),
    /// The walk needs no page for this record.
    #[error("record {0} is left over")]
    LeftOver(u64),
    /// Memory ran out.
    #[error("out of memory")]
    Memory,
}

impl From<AllocError> for Verdict {
    ghost from_gives = { λ _ e. e ≡ Memory };

    fn from(_error: AllocError) -> Verdict {
        Verdict::Memory
    }
}

/// Why a join's log is not accepted: its first fault. Records, entries and answers are counted from 0.
#[derive(Clone, Copy, Debug, PartialEq, Eq, Error)]
pub enum JoinVerdict {
    /// The log names another generation or another root than the live slot of this side.
    #[error("a log of another state")]
    OtherState {
        right: bool,
        named: (u64, u32),
        live: (u64, u32),
    },
    /// A page of this side that the walk needs gave no node. It is never `PageFault::Memory`.
    #[error("a page of the walk: {fault}")]
    Page {
        right: bool,
        fault: PageFault,
    },
    /// This record names another side or page than the walk needs, or the walk needs a page and no record is left.
    #[error("record {0} is of another page")]
    WrongPage(u64),
    /// This record has another number of marks than its node has entries.
    #[error("record {0} has another number of marks")]
    WrongCount(u64),
    /// In this record the mark of this entry is not allowed.
    #[error("record {0} has a mark that is not allowed at entry {1}")]
    WrongMark(u64, u32),
    /// This answer is not the one that the records name.
    #[error("answer {0} is another")]
    WrongAnswer(u64),
    /// The walk needs no page for this record.
    #[error("record {0} is left over")]
    LeftOver(u64),
    /// Memory ran out.
    #[error("out of memory")]
    Memory,
}

impl From<AllocError> for JoinVerdict {
    ghost from_gives = { λ _ e. e ≡ JoinMemory };

    fn from(_error: AllocError) -> JoinVerdict {
        JoinVerdict::Memory
    }
}
