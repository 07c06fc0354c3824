//! A law of range searches: the result is the only one.

ghost use Rattle.range_search.specs.Laws.{WalkHasOneCourse};

/// A search over pages that tell what they hold has only one result: the whole walk; or the first page that it meets without a node;
/// or the page that it needs after it has opened as many as there are.
pub fn walk_has_one_course()
    ensures { WalkHasOneCourse }
{}
