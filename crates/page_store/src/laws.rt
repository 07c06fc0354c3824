//! Laws of trees on pages.

ghost use Rattle.page_store.specs.Laws.{NewTreesStand, PlacementsAreNew, SoundTreesAreToured, SoundTreesAreWhole, TourHasOneCourse, TreesGoOn, TreesStandOnPages};

/// A sound tree is whole: it has exactly the pages that are reached, each once.
pub fn sound_trees_are_whole()
    ensures { SoundTreesAreWhole }
{}

/// A whole tree stands on its pages. Where a tree stands on pages, each reached page is one of them.
pub fn trees_stand_on_pages()
    ensures { TreesStandOnPages }
{}

/// A placement has new pages, where the live tree stands on none of the numbers that were given.
pub fn placements_are_new()
    ensures { PlacementsAreNew }
{}

/// Where new nodes replace the left nodes, the next tree stands on the old pages except the left ones, and on the new pages.
pub fn trees_go_on()
    ensures { TreesGoOn }
{}

/// Where the new nodes stand by themselves, the next tree stands on the new pages.
pub fn new_trees_stand()
    ensures { NewTreesStand }
{}

/// The walk by child numbers has one course, where the tree's pages tell what they hold: it is whole, or it meets a page that holds
/// no node, or it names one more page after it has opened as many as there are. At most one of these happens, with only one page.
pub fn tour_has_one_course()
    ensures { TourHasOneCourse }
{}

/// The walk by child numbers of a sound tree is whole, so it meets no damaged page.
pub fn sound_trees_are_toured()
    ensures { SoundTreesAreToured }
{}
