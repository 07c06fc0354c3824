//! What the plain answers are, stated without a way to compute them.

ghost use Rattle.scan_model.specs.Laws.{RangeAnswersAreAll, NearestAnswersAreNearest, JoinAnswersAreAll};

/// States that the answers of a range query are the objects within the radius, each once, by distance and then by id.
pub fn range_answers_are_all()
    ensures { RangeAnswersAreAll }
{}

/// States that the answers of a query for the k nearest are k objects, or all where there are fewer, by distance and then by id,
/// and that each object that is left out comes after all of them.
pub fn nearest_answers_are_nearest()
    ensures { NearestAnswersAreNearest }
{}

/// States that the answers of a join are the pairs within the radius, each once, by the left id and then by the right.
pub fn join_answers_are_all()
    ensures { JoinAnswersAreAll }
{}
