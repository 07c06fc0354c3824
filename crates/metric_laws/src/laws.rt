//! What the tests rule out, from the axioms of a metric space alone.

ghost use Rattle.metric_laws.specs.Pruning.{CentreRulesOut, ParentRulesOut, PairRulesOut};

/// Where the centre test passes, no point of the sphere is an answer.
pub fn centre_test_rules_out()
    ensures { CentreRulesOut }
{}

/// Where the parent test passes, no point of the sphere is an answer.
pub fn parent_test_rules_out()
    ensures { ParentRulesOut }
{}

/// Where the pair test passes, no two points of the spheres are an answer.
pub fn pair_test_rules_out()
    ensures { PairRulesOut }
{}
