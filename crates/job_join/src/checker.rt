use crate::faults::first_join_fault;
use crate::lines::{push_answers, push_verdict};
use job_files::logs::{Checker, LogStop};
use log_model::JoinLog;
use log_verify::JoinVerdict;
use metric_mix::MixSpace;
use page_store::Pages;
use prune_log::{LogFault, decode_join_frames};
use std::alloc::{AllocError, Global};
use tree_shape::Live;

/// Judges joins' logs by the pages of two trees.
#[derive(Drop)]
pub struct JoinChecker<'a, 'b, P: Pages, Q: Pages> {
    /// The space of both trees.
    pub space: MixSpace,
    /// The left live tree.
    pub left: Live,
    /// The right live tree.
    pub right: Live,
    /// The pages of the left tree.
    pub left_pages: &'a mut P,
    /// The pages of the right tree.
    pub right_pages: &'b mut Q,
}

impl<P: Pages, Q: Pages> Checker for JoinChecker<'_, '_, P, Q> {
    type Log = JoinLog;

    type Verdict = JoinVerdict;

    ghost use Rattle.std.specs.Prelude.{IsTrue, ◌≡◌, ◌≤◌, ◌⊎◌, ◌+◌, length};
    ghost use Rattle.outside_io.specs.Causes.{Rose};
    ghost use Rattle.metric_mix.specs.MixSpaces.{mix_space};
    ghost use Rattle.metric_mix.specs.MixKinds.{mix_kind, mix_dim};
    ghost use Rattle.log_model.specs.Grammar.{IsValidJoinLog};
    ghost use Rattle.prune_log.specs.Reading.{join_log_at, frames_at};
    ghost use Rattle.job_join.specs.Lines.{join_words};
    ghost use Rattle.job_join.specs.Trees.{judge_by};

    ghost words = { join_words };

    ghost is_valid = { IsValidJoinLog };

    ghost reads = { frames_at join_log_at };

    ghost is_known = { λ c. IsTrue (P.shelf c.left_pages.now).is_known × IsTrue (Q.shelf c.right_pages.now).is_known };

    ghost judges = { λ c.
        judge_by (mix_space (mix_kind c.space) (mix_dim c.space)) (P.shelf c.left_pages.now) (Q.shelf c.right_pages.now) c.left c.right };

    // The reads of both sides together.
    ghost read_count = { λ c. (P.shelf c.left_pages.now).reads + (Q.shelf c.right_pages.now).reads };

    // Each record is judged by one page of one side.
    ghost most_reads = { λ log. length log.records };

    // The pages of both sides are kept.
    ghost keeps = { λ c d.
        (d.left_pages.ghost_name ≡ c.left_pages.ghost_name)
        × ((P.shelf c.left_pages.now).faults ≤ (P.shelf d.left_pages.now).faults) × P.keeps c.left_pages.now d.left_pages.now
        × (d.right_pages.ghost_name ≡ c.right_pages.ghost_name)
        × ((Q.shelf c.right_pages.now).faults ≤ (Q.shelf d.right_pages.now).faults) × Q.keeps c.right_pages.now d.right_pages.now };

    ghost failed = { λ c d. Rose (P.shelf c.left_pages.now).faults (P.shelf d.left_pages.now).faults
        ⊎ Rose (Q.shelf c.right_pages.now).faults (Q.shelf d.right_pages.now).faults };

    ghost use Rattle.std.proofs.Common.{◌∙◌, ⊎_elim, inl, inr, refl};
    ghost use Rattle.std.proofs.Math.Nat.{le_refl, le_trans};
    ghost use Rattle.outside_io.proofs.Published.{rose_before};

    ghost keeps_none = { λ c. (
      refl,
      le_refl (P.shelf c.left_pages.now).faults,
      P.keeps_none c.left_pages.now,
      refl,
      le_refl (Q.shelf c.right_pages.now).faults,
      Q.keeps_none c.right_pages.now,
    ) };

    ghost keeps_both = { λ c d e first second. (
      second.0 ∙ first.0,
      le_trans first.1 second.1,
      P.keeps_both c.left_pages.now d.left_pages.now e.left_pages.now first.2 second.2,
      second.3 ∙ first.3,
      le_trans first.4 second.4,
      Q.keeps_both c.right_pages.now d.right_pages.now e.right_pages.now first.5 second.5,
    ) };

    ghost failed_since = { λ c d e first late. ⊎_elim
        (λ rose. inl (rose_before (P.shelf c.left_pages.now).faults (P.shelf d.left_pages.now).faults
        (P.shelf e.left_pages.now).faults first.1 rose))
        (λ rose. inr (rose_before (Q.shelf c.right_pages.now).faults (Q.shelf d.right_pages.now).faults
        (Q.shelf e.right_pages.now).faults first.4 rose))
        late };

    fn read_frames(alloc: Global, bytes: &[u8]) -> Result<Vec<JoinLog>, LogFault> {
        decode_join_frames(alloc, bytes)
    }

    fn push_verdict(why: JoinVerdict, out: &mut Vec<u8>) -> Result<(), AllocError> {
        push_verdict(why, out)
    }

    fn push_answers(_alloc: Global, log: JoinLog, out: &mut Vec<u8>) -> Result<(), AllocError> {
        push_answers(log, out)
    }

    fn judge(&mut self, alloc: Global, log: &JoinLog) -> Result<Option<JoinVerdict>, LogStop> {
        first_join_fault(
            alloc,
            self.space,
            self.left_pages,
            self.right_pages,
            &self.left,
            &self.right,
            log,
        )
    }
}
