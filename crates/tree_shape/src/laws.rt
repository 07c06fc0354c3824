//! Laws of trees.

ghost use Rattle.tree_shape.specs.Laws.{HeightIsSmall, ObjectsFit, SameSubtree};
ghost use Rattle.tree_shape.specs.Plain.{SameObjects};
ghost use Rattle.tree_shape.specs.Sound.{SoundWithoutPages};

/// States that each object of a sound tree is a point of the space.
pub fn objects_fit()
    ensures { ObjectsFit }
{}

/// States that a subtree depends on its own pages alone: files that hold the same nodes there have the same subtree, and it is as
/// sound in one as in the other.
pub fn same_subtree()
    ensures { SameSubtree }
{}

/// States that a sound tree of a height above 0 has at least `2 * 3^height` objects, so a tree of at most `2^24` objects is at most
/// 14 high.
pub fn height_is_small()
    ensures { HeightIsSmall }
{}

/// States that the plain tree that is read from a page has the objects below the page.
pub fn same_objects()
    ensures { SameObjects }
{}

/// States that a tree that is sound on its pages is sound without them.
pub fn sound_without_pages()
    ensures { SoundWithoutPages }
{}
