//! Laws of the eight spaces, by kind and dimension.

ghost use Rattle.metric_mix.specs.MixSpaces.{MixSpacesAreSpaces, VectorsFit};

/// Each valid kind and dimension has a metric space.
#[tactic(auto, using(crate::specs::MixLaws::valid_axioms))]
pub fn mix_spaces_are_spaces()
    ensures { MixSpacesAreSpaces }
{}

/// Except for permutations and sets, each list of `dim` coordinates is a point.
#[tactic(auto, using(crate::specs::MixLaws::vectors_fit))]
pub fn vectors_fit()
    ensures { VectorsFit }
{}
