//! What the jobs' verdicts mean.

ghost use Rattle.std.specs.Prelude.{ℕ, List};
ghost use Rattle.job_logs.specs.Laws.{FaultlessIsComplete};

use job_files::laws::heads_have_spaces;
use log_model::laws::sound_logs_are_complete;
use log_verify::laws::faults_are_unsoundness;
use tree_audit::laws::audit_faults_are_unsoundness;

/// A file has no fault exactly where it is sound. On a sound file a log has no fault exactly where it is sound, and then its answers
/// are those of the plain scan.
pub fn faultless_is_complete()
    ensures { (file : List ℕ) → FaultlessIsComplete file }
{
    heads_have_spaces();
    audit_faults_are_unsoundness();
    faults_are_unsoundness();
    sound_logs_are_complete();
}
