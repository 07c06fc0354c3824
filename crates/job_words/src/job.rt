use crate::names::{PolicyNames, SpaceName};
use thiserror::Error;

/// The job of the words: a variant for each row of the table of commands. It has the values of the words, and default values for
/// words that are not given. `Name` is the type of a file's name.
#[derive(Clone, Copy, PartialEq, Eq)]
pub enum Job<Name> {
    /// `scan`: a script on a plain list of at most `limit` objects.
    Scan {
        space: SpaceName,
        limit: u32,
        show_tags: bool,
    },
    /// `create`: an empty index for at most `limit` objects.
    Create {
        index: Name,
        space: SpaceName,
        policies: PolicyNames,
        limit: u32,
    },
    /// `session`: a script on the index.
    Session {
        index: Name,
        log: Option<Name>,
        workers: usize,
        show_tags: bool,
    },
    /// `shape`: the tree of the index.
    Shape {
        index: Name,
    },
    /// `stats`: what is known of the index without its objects.
    Stats {
        index: Name,
    },
    /// `dump`: the objects of the index, as a script.
    Dump {
        index: Name,
    },
    /// `show`: the walk that each log tells of, or where `counts_only` is true how often each mark stands in it. Where `other` is given,
    /// the logs are those of a join with it.
    Show {
        index: Name,
        log: Name,
        other: Option<Name>,
        counts_only: bool,
    },
    /// `audit`: whether the index is sound.
    Audit {
        index: Name,
        workers: usize,
    },
    /// `verify`: the verdict on each log, by the pages of the index, or of both indexes where `other` is given.
    Verify {
        index: Name,
        log: Name,
        other: Option<Name>,
    },
    /// `check`: whether the index is sound, and whether each log's answers are complete.
    Check {
        index: Name,
        log: Name,
        other: Option<Name>,
    },
    /// `join`: the pairs of two indexes that lie within the radius.
    Join {
        index: Name,
        other: Name,
        radius: u64,
        log: Option<Name>,
    },
    /// `gen`: an index of `count` generated objects.
    Gen {
        index: Name,
        space: SpaceName,
        count: u32,
        seed: u32,
        policies: PolicyNames,
        workers: usize,
    },
    /// `migrate`: an index made from the older file `other`.
    Migrate {
        index: Name,
        other: Name,
    },
    /// `batch`: a script of queries on an index that is read into memory.
    Batch {
        index: Name,
        workers: usize,
        log: Option<Name>,
        show_tags: bool,
    },
    /// `seal`: the root digest of the index.
    Seal {
        index: Name,
    },
    /// `proof` with INDEX: the logs of `log`, carried with their pages into `proof`.
    Carry {
        index: Name,
        log: Name,
        proof: Name,
    },
    /// `proof` without INDEX: the carried logs of `log`, against a root digest.
    Prove {
        log: Name,
        root: [u8; 32],
    },
}

/// Why the words have no job.
#[derive(Clone, Copy, Debug, PartialEq, Eq, Error)]
pub enum JobFault {
    /// The words are no job.
    #[error("usage: mtree COMMAND INDEX [options]")]
    Usage,
    /// Memory ran out.
    #[error("out of memory")]
    Memory,
}
