use node_page::HeadFault;
use thiserror::Error;

/// Why a file was not opened, in the order in which the faults are tried.
#[derive(Clone, Copy, Debug, PartialEq, Eq, Error)]
pub enum OpenFault {
    /// The disk failed.
    #[error("the file could not be read")]
    Disk,
    /// The file is shorter than the head and the two slots, 12288 bytes.
    #[error("shorter than any index file")]
    Short,
    /// The first page holds no head.
    #[error("no index file: {0}")]
    Head(HeadFault),
    /// Neither gate is open: the making of the file was not finished.
    #[error("an unfinished index file")]
    Unfinished,
    /// Both gates are open with one generation.
    #[error("an index file with two roots")]
    TwoRoots,
    /// The live slot has other bytes than its fields, or does not keep its bounds.
    #[error("an index file whose live slot is out of range")]
    Slot,
}

/// Why a file was not made.
#[derive(Clone, Copy, Debug, PartialEq, Eq, Error)]
pub enum CreateFault {
    /// The file is not empty.
    #[error("the file is not empty")]
    NotEmpty,
    /// The disk failed.
    #[error("the file could not be written")]
    Disk,
}
