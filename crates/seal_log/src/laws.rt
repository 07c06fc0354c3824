//! The laws of carried logs.

ghost use Rattle.seal_log.specs.Laws.{AcceptedLogsShowAnswers, FaultIsNoCarriedLog, CarriedLogsAreAccepted};

/// Bytes have no fault under a root digest exactly where they spell a carried log whose paths lead to it.
pub fn fault_is_no_carried_log()
    ensures { FaultIsNoCarriedLog }
{}

/// The carried log of a sound log over a sound file is accepted under the file's root digest, with that log.
pub fn carried_logs_are_accepted()
    ensures { CarriedLogsAreAccepted }
{}

/// States what an accepted carried log shows in a metric space.
pub fn accepted_logs_show_answers()
    ensures { AcceptedLogsShowAnswers }
{}
