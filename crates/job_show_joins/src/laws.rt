//! Laws of what is shown.

ghost use Rattle.job_show_joins.specs.Laws.{AllowedPairMarksHold, SoundJoinLogsAreShownWhole};

/// Where a mark of a join is allowed, the test that its reason shows comes out as the mark says.
pub fn allowed_pair_marks_hold()
    ensures { AllowedPairMarksHold }
{}

/// All of a sound join log is shown.
pub fn sound_join_logs_are_shown_whole()
    ensures { SoundJoinLogsAreShownWhole }
{}
