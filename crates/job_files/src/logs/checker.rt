ghost use Rattle.std.specs.Prelude.{◌≡◌, ◌≤◌, ◌+◌, ◌++◌, ℕ, List, Option, Result, All, IfOk, IsErrOf, OnOk};
ghost use Rattle.prune_log.specs.Reading.{Gives};
ghost use Rattle.prune_log.specs.declared.fault.LogFault.{LogFault};
ghost use Rattle.job_files.specs.Logs.JobReports.{Words};

use crate::logs::stop::LogStop;
use prune_log::LogFault;
use std::alloc::{AllocError, Global};

/// Judges logs of one kind by the pages of files.
pub trait Checker {
    /// A log.
    type Log: Drop;
    /// The first fault of a log.
    type Verdict: Copy;

    /// What is written of the logs.
    ghost words: { Words Self.Log Self.Verdict };

    /// Which logs can be judged.
    ghost is_valid: { Self.Log → Type 0 };

    /// The logs that bytes spell, or the first fault of the bytes.
    ghost reads: { List ℕ → Result (List Self.Log) LogFault };

    /// The pages tell what they hold.
    ghost is_known: { Self → Type 0 };

    /// The first fault of each log, if it has one.
    ghost judges: { Self → Self.Log → Option Self.Verdict };

    /// How often the disks of the pages were read.
    ghost read_count: { Self → ℕ };

    /// The most reads of those disks that judging a log takes.
    ghost most_reads: { Self.Log → ℕ };

    /// What every call keeps. It tells the lender of the pages what happened to them.
    ghost keeps: { Self → Self → Type 0 };

    /// A disk failed between one state and a later one.
    ghost failed: { Self → Self → Type 0 };

    /// Reads the logs of the frames in `bytes`.
    fn read_frames(alloc: Global, bytes: &[u8]) -> Result<Vec<Self::Log>, LogFault>
        ensures gives { Gives (λ logs. logs.items) result (reads bytes.now) }
        ensures valid { IfOk result (λ logs. All is_valid logs.items) };

    /// Appends the verdict `why`.
    fn push_verdict(why: Self::Verdict, out: &mut Vec<u8>) -> Result<(), AllocError>
        ensures { OnOk result (out.new.items ≡ out.old.items ++ words.verdict why) };

    /// Appends the query and the answers of `log`.
    fn push_answers(alloc: Global, log: Self::Log, out: &mut Vec<u8>) -> Result<(), AllocError>
        ensures { OnOk result (out.new.items ≡ out.old.items ++ words.answers log) };

    /// Returns the first fault of `log`, if it has one.
    fn judge(&mut self, alloc: Global, log: &Self::Log) -> Result<Option<Self::Verdict>, LogStop>
        requires { is_valid log.now }
        ensures told { IfOk result (λ found. is_known self.old → judges self.old log.now ≡ found) }
        ensures is_known { is_known self.old → is_known self.new }
        ensures judges { judges self.new ≡ judges self.old }
        ensures keeps { keeps self.old self.new }
        ensures few { read_count self.new ≤ read_count self.old + most_reads log.now }
        ensures disk { IsErrOf result LogStop.Disk → failed self.old self.new }
        ensures not_sink { IsErrOf result LogStop.Sink → ⊥ };

    /// Shows that no call keeps everything.
    ghost keeps_none: { (c : Self) → keeps c c };

    /// Shows that what two calls in a row keep is kept by both.
    ghost keeps_both: { (c d e : Self) → keeps c d → keeps d e → keeps c e };

    /// Shows that a disk that failed late failed since the start.
    ghost failed_since: { (c d e : Self) → keeps c d → failed d e → failed c e };
}
