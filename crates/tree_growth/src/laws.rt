//! Laws of trees that grow.

ghost use Rattle.tree_growth.specs.Bulk.{LoadKeepsObjects};
ghost use Rattle.tree_growth.specs.Groups.{GroupsAreSized};
ghost use Rattle.tree_growth.specs.Insertion.{InsertionAddsOne};
ghost use Rattle.tree_growth.specs.Nearest.{ObjectsTakeNearest, SeedsStay};
ghost use Rattle.tree_growth.specs.Sound.{InsertionKeepsSound, LoadIsSound, SoundHasEntries};
ghost use Rattle.tree_growth.specs.Splits.{ChosenIsPlace, PartitionIsFair, PromotedIsPair, RowHasDistances};

/// An insertion adds its object and loses none.
pub fn insertion_adds_one()
    ensures { InsertionAddsOne }
{}

/// A bulk load keeps its objects.
pub fn load_keeps_objects()
    ensures { LoadKeepsObjects }
{}

/// Each group of a bulk load has as many objects as its subtree needs, and no more than it has room for.
pub fn groups_are_sized()
    ensures { GroupsAreSized }
{}

/// A bulk load puts each object into the group of the nearest seed that has room at its turn.
pub fn objects_take_nearest()
    ensures { ObjectsTakeNearest }
{}

/// A seed of a bulk load stays in its own group.
pub fn seeds_stay()
    ensures { SeedsStay }
{}

/// Each inner node of a sound tree has an entry.
pub fn sound_has_entries()
    ensures { SoundHasEntries }
{}

/// An insertion keeps a tree sound: its fill, its points and its covering radii.
pub fn insertion_keeps_sound()
    ensures { InsertionKeepsSound }
{}

/// A bulk load makes a sound tree.
pub fn load_is_sound()
    ensures { LoadIsSound }
{}

/// The choice is an entry of the node.
pub fn chosen_is_place()
    ensures { ChosenIsPlace }
{}

/// Two entries are promoted, the first below the second.
pub fn promoted_is_pair()
    ensures { PromotedIsPair }
{}

/// Each entry is in one of the two groups of a partition, and each group has its least number of entries.
pub fn partition_is_fair()
    ensures { PartitionIsFair }
{}

/// A row of a node's table has the distances to one entry.
pub fn row_has_distances()
    ensures { RowHasDistances }
{}
