//! What a head says of its space.

ghost use Rattle.job_files.specs.Laws.{HeadsHaveSpaces};

use metric_mix::laws::mix_spaces_are_spaces;

/// States that the space of a head is a metric space.
pub fn heads_have_spaces()
    ensures { HeadsHaveSpaces }
{
    mix_spaces_are_spaces();
}
