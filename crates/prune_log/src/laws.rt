//! Laws of the spellings of logs.

ghost use Rattle.prune_log.specs.Laws.{FaultIsNoLog, FaultIsNoJoinLog, FramesAreRead, JoinFramesAreRead, OneLog, OneJoinLog};

/// Bytes have no fault exactly where they spell some log.
pub fn fault_is_no_log()
    ensures { FaultIsNoLog }
{}

/// Bytes have no fault exactly where they spell some join's log.
pub fn fault_is_no_join_log()
    ensures { FaultIsNoJoinLog }
{}

/// Bytes spell at most one log.
pub fn one_log()
    ensures { OneLog }
{}

/// Bytes spell at most one join's log.
pub fn one_join_log()
    ensures { OneJoinLog }
{}

/// Bytes are read as logs exactly where they are frames of them.
pub fn frames_are_read()
    ensures { FramesAreRead }
{}

/// Bytes are read as joins' logs exactly where they are frames of them.
pub fn join_frames_are_read()
    ensures { JoinFramesAreRead }
{}
