//! Laws of walks and of free pages.

ghost use Rattle.free_pages.specs.Commits.{CommitsKeepBeside, CommitsKeepOutside, CommitsKeepWithin, FreePagesAreNumbers, PinsGuard, PlacementsExchange};
ghost use Rattle.free_pages.specs.Laws.{HeldWhilePinned, LeastAreNumbers, LeavingKeepsPages, OutsideIsOutside, PinsKeepPages, SoundTreesAreWalked, WalksAreTours, WholeTreesAreWalked};

/// States that the walk of a sound tree opens its pages in pre-order.
pub fn sound_trees_are_walked()
    ensures { SoundTreesAreWalked }
{}

/// States that the first of ascending pages that may hold nodes can be handed in for new nodes.
pub fn least_are_numbers()
    ensures { LeastAreNumbers }
{}

/// States that the walk ends where each page that is reached holds a node and is named once.
pub fn whole_trees_are_walked()
    ensures { WholeTreesAreWalked }
{}

/// States that the walk is the walk by child numbers: where it ends, that walk is whole; where it stops, that walk names the page.
pub fn walks_are_tours()
    ensures { WalksAreTours }
{}

/// States that the pages outside a tree are those that may hold nodes and are not in the tree.
pub fn outside_is_outside()
    ensures { OutsideIsOutside }
{}

/// States that a page that is given back or left is free or held from then on, and that nothing changes for other pages.
pub fn leaving_keeps_pages()
    ensures { LeavingKeepsPages }
{}

/// States that an unpin leaves the same pages free or held, and frees those with no pin left below them.
pub fn pins_keep_pages()
    ensures { PinsKeepPages }
{}

/// States that a page that is left is held while a generation below is pinned, and that no held page is free.
pub fn held_while_pinned()
    ensures { HeldWhilePinned }
{}

/// States that the first of the free pages can be handed in for new nodes.
pub fn free_pages_are_numbers()
    ensures { FreePagesAreNumbers }
{}

/// States that what is placed on the first free pages uses exactly these, and each page from the file's end on.
pub fn placements_exchange()
    ensures { PlacementsExchange }
{}

/// States that after a commit free and held pages may still hold nodes.
pub fn commits_keep_within()
    ensures { CommitsKeepWithin }
{}

/// States that a commit keeps free and held pages beside the tree.
pub fn commits_keep_beside()
    ensures { CommitsKeepBeside }
{}

/// States that, where free and held pages are exactly those outside the tree, they are so after a commit.
pub fn commits_keep_outside()
    ensures { CommitsKeepOutside }
{}

/// States that a pin guards the pages of its tree from commits to later generations.
pub fn pins_guard()
    ensures { PinsGuard }
{}
