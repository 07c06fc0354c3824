// The first fault of a join's log.
ghost use Rattle.std.specs.Prelude.{◌≡◌, ◌≤◌, ◌+◌, length, IsTrue, IfOk, IsErrOf};
ghost use Rattle.log_model.specs.Grammar.{IsValidJoinLog};
ghost use Rattle.log_verify.specs.JoinJudged.{join_fault};
ghost use Rattle.job_join.specs.Both.{HoldBoth, OneRose};

use job_files::logs::LogStop;
use log_model::JoinLog;
use log_verify::{JoinVerdict, verify_join};
use metric_laws::{Meter, Metric};
use page_store::{PageFault, Pages};
use std::alloc::Global;
use tree_shape::Live;

/// Returns the first fault of `log`, a join's, over the trees of `left` and `right` in their pages, if it has one. Where a disk fails
/// or memory runs out, nothing is said of the log.
/// Clauses: what is asked of the caller (the one without a name); the answer (`told`); what stays (`same`, `left_keeps`, `right_keeps`);
/// the cost (`reads`); the cause of an error (`disk`, `not_sink`).
/// Arguments: `left_pages` with `left`, and `right_pages` with `right`, are the two trees.
pub fn first_join_fault<M: Metric, P: Pages, Q: Pages>(
    alloc: Global,
    metric: M,
    left_pages: &mut P,
    right_pages: &mut Q,
    left: &Live,
    right: &Live,
    log: &JoinLog,
) -> Result<Option<JoinVerdict>, LogStop>
    requires { IsValidJoinLog log.now }
    ensures same { HoldBoth (P.shelf left_pages.old) (P.shelf left_pages.new) (Q.shelf right_pages.old) (Q.shelf right_pages.new) }
    ensures left_keeps { P.keeps left_pages.old left_pages.new }
    ensures right_keeps { Q.keeps right_pages.old right_pages.new }
    ensures told { IfOk result (λ found. IsTrue (P.shelf left_pages.old).is_known → IsTrue (Q.shelf right_pages.old).is_known →
        join_fault (M.space metric) (P.shelf left_pages.old).read (Q.shelf right_pages.old).read left.now right.now log.now ≡ found) }
    ensures reads { (P.shelf left_pages.new).reads + (Q.shelf right_pages.new).reads ≤
        (P.shelf left_pages.old).reads + (Q.shelf right_pages.old).reads + length log.now.records }
    ensures disk { IsErrOf result LogStop.Disk →
        OneRose (P.shelf left_pages.old) (P.shelf left_pages.new) (Q.shelf right_pages.old) (Q.shelf right_pages.new) }
    ensures not_sink { IsErrOf result LogStop.Sink → ⊥ }
{
    let mut ruler = Meter::new(metric);
    match verify_join(alloc, left_pages, right_pages, &mut ruler, left, right, log) {
        Ok(_) => Ok(None),
        Err(JoinVerdict::Memory) => Err(LogStop::Memory),
        Err(
            JoinVerdict::Page {
                fault: PageFault::Disk,
                ..
            },
        ) => Err(LogStop::Disk),
        Err(why) => Ok(Some(why)),
    }
}
