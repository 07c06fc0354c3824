//! Laws of sessions.

ghost use Rattle.session_run.specs.Laws.{TurnsAreTheirMeaning};

/// States that, where the file stands in no command's way, the replies of a session and the objects after it are those of a plain list.
pub fn turns_are_their_meaning()
    ensures { TurnsAreTheirMeaning }
{}
