//! What an audit's answer means.

ghost use Rattle.tree_audit.specs.Laws.{AuditFaultsAreUnsoundness};
ghost use Rattle.tree_audit.specs.Parts.{PartsMakeTheWhole};

/// States that a tree has no fault exactly where it is sound.
pub fn audit_faults_are_unsoundness()
    ensures { AuditFaultsAreUnsoundness }
{}

/// States that a tree has no fault, if the entries of its root were each audited by themselves, without a fault, and have nothing in
/// common.
pub fn parts_make_the_whole()
    ensures { PartsMakeTheWhole }
{}
