//! Laws of commits.

ghost use Rattle.shadow_root.specs.Placements.{CommitsKeepHead, CommitsKeepLists, InPlaceIsWritten, NewIsBeside, PlacementsCanFollow};

/// States that the live slot of what an insertion or a bulk load places can follow the live one, and that its nodes are staged for it.
pub fn placements_can_follow()
    ensures { PlacementsCanFollow }
{}

/// States that staged pages on which the live tree doesn't stand are beside it, as a commit asks.
pub fn new_is_beside()
    ensures { NewIsBeside }
{}

/// States that, in a file with the staged nodes in place and the other pages as they were, the nodes are written over the old file.
pub fn in_place_is_written()
    ensures { InPlaceIsWritten }
{}

/// States that a commit keeps the file's head.
pub fn commits_keep_head()
    ensures { CommitsKeepHead }
{}

/// States that, at any moment of a commit on a sound file, each file that a crash leaves is sound, with the old points and tags or with
/// the new ones.
pub fn commits_keep_lists()
    ensures { CommitsKeepLists }
{}
