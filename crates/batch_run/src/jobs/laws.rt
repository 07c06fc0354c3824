//! What the turns of a batch are.

ghost use Rattle.batch_run.specs.Jobs.Laws.{TurnsAreOneRun};

/// States that the replies of a batch's turns are those of one run of their commands on a plain list.
pub fn turns_are_one_run()
    ensures { TurnsAreOneRun }
{}
