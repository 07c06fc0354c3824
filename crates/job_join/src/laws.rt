//! What the jobs' verdicts mean.

ghost use Rattle.job_join.specs.Trees.{Tree, IsOpened};
ghost use Rattle.job_join.specs.Laws.{FaultlessIsComplete};

use job_files::laws::heads_have_spaces;
use log_model::laws::sound_join_logs_are_complete;
use log_verify::laws::join_faults_are_unsoundness;
use tree_audit::laws::audit_faults_are_unsoundness;

/// A file has no fault exactly where it is sound. On two sound files of one space a join's log has no fault exactly where it is
/// sound, and then its answers are the pairs of the double loop.
pub fn faultless_is_complete()
    ensures { (left right : Tree) → IsOpened left → IsOpened right → FaultlessIsComplete left right }
{
    heads_have_spaces();
    audit_faults_are_unsoundness();
    join_faults_are_unsoundness();
    sound_join_logs_are_complete();
}
