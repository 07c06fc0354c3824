//! What a proved frame means.

ghost use Rattle.job_seal.specs.Laws.{AcceptedShow};

use job_files::laws::heads_have_spaces;
use seal_log::laws::accepted_logs_show_answers;

/// An accepted carried log names the plain scan's answers of each file that is sound in the space of its head and has the root
/// digest. Or else two different byte strings with one SHA-256 digest are found.
pub fn accepted_show()
    ensures { AcceptedShow }
{
    heads_have_spaces();
    accepted_logs_show_answers();
}
