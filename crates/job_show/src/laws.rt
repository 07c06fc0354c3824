//! Laws of what is shown.

ghost use Rattle.job_show.specs.Laws.{AllowedMarksHold, SoundLogsAreShownWhole};

/// Where a mark is allowed, the test that its reason shows comes out as the mark says.
pub fn allowed_marks_hold()
    ensures { AllowedMarksHold }
{}

/// All of a sound log is shown.
pub fn sound_logs_are_shown_whole()
    ensures { SoundLogsAreShownWhole }
{}
