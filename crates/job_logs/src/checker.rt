use job_files::logs::{Checker, LogStop, first_fault, push_answers, push_verdict};
use log_model::Log;
use log_verify::Verdict;
use metric_mix::MixSpace;
use page_store::Pages;
use prune_log::{LogFault, decode_frames};
use std::alloc::{AllocError, Global};
use tree_shape::Live;

/// Judges query logs by the pages of a tree.
#[derive(Drop)]
pub struct LogChecker<'a, P: Pages> {
    /// The tree's space.
    pub space: MixSpace,
    /// The live tree.
    pub live: Live,
    /// The pages.
    pub pages: &'a mut P,
}

impl<P: Pages> Checker for LogChecker<'_, P> {
    type Log = Log;

    type Verdict = Verdict;

    ghost use Rattle.std.specs.Prelude.{IsTrue, ◌≡◌, ◌≤◌, length};
    ghost use Rattle.outside_io.specs.Causes.{Rose};
    ghost use Rattle.metric_mix.specs.MixSpaces.{mix_space};
    ghost use Rattle.metric_mix.specs.MixKinds.{mix_kind, mix_dim};
    ghost use Rattle.log_verify.specs.Judged.{log_fault};
    ghost use Rattle.log_model.specs.Grammar.{IsValidLog};
    ghost use Rattle.prune_log.specs.Reading.{log_at, frames_at};
    ghost use Rattle.job_logs.specs.Lines.{log_words};

    ghost words = { log_words };

    ghost is_valid = { IsValidLog };

    ghost reads = { frames_at log_at };

    ghost is_known = { λ c. IsTrue (P.shelf c.pages.now).is_known };

    ghost judges = { λ c. log_fault (mix_space (mix_kind c.space) (mix_dim c.space)) (P.shelf c.pages.now).read c.live };

    ghost read_count = { λ c. (P.shelf c.pages.now).reads };

    // Each record is judged by one page.
    ghost most_reads = { λ log. length log.records };

    ghost keeps = { λ c d. (d.pages.ghost_name ≡ c.pages.ghost_name)
        × ((P.shelf c.pages.now).faults ≤ (P.shelf d.pages.now).faults) × P.keeps c.pages.now d.pages.now };

    ghost failed = { λ c d. Rose (P.shelf c.pages.now).faults (P.shelf d.pages.now).faults };

    ghost use Rattle.std.proofs.Common.{◌∙◌, refl};
    ghost use Rattle.std.proofs.Math.Nat.{le_refl, le_trans};
    ghost use Rattle.outside_io.proofs.Published.{rose_before};

    ghost keeps_none = { λ c. (refl, le_refl (P.shelf c.pages.now).faults, P.keeps_none c.pages.now) };

    ghost keeps_both = { λ c d e first second. (
      second.0 ∙ first.0,
      le_trans first.1 second.1,
      P.keeps_both c.pages.now d.pages.now e.pages.now first.2 second.2,
    ) };

    ghost failed_since = { λ c d e first late.
        rose_before (P.shelf c.pages.now).faults (P.shelf d.pages.now).faults (P.shelf e.pages.now).faults first.1 late };

    fn read_frames(alloc: Global, bytes: &[u8]) -> Result<Vec<Log>, LogFault> {
        decode_frames(alloc, bytes)
    }

    fn push_verdict(why: Verdict, out: &mut Vec<u8>) -> Result<(), AllocError> {
        push_verdict(why, out)
    }

    fn push_answers(alloc: Global, log: Log, out: &mut Vec<u8>) -> Result<(), AllocError> {
        let hits = log.answers;
        push_answers(alloc, &log.query, hits, out)
    }

    fn judge(&mut self, alloc: Global, log: &Log) -> Result<Option<Verdict>, LogStop> {
        first_fault(alloc, self.space, self.pages, &self.live, log)
    }
}
