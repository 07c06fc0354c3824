//! The laws of verdicts.

ghost use Rattle.log_verify.specs.Laws.{FaultsAreUnsoundness, JoinFaultsAreUnsoundness};

/// A log has no fault exactly where it is sound, whatever the pages hold.
pub fn faults_are_unsoundness()
    ensures { FaultsAreUnsoundness }
{}

/// A join's log has no fault exactly where it is sound, whatever the pages hold.
pub fn join_faults_are_unsoundness()
    ensures { JoinFaultsAreUnsoundness }
{}
