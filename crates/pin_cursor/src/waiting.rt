ghost use Rattle.std.proofs.Common.{rules};

use crate::line::TellsApart;

/// A subtree that is not opened yet. Subtrees are ordered by their lower bound of the distance, then by page.
#[derive(Clone, Copy, PartialEq, Eq, PartialOrd, Ord)]
pub struct Subtree {
    /// A lower bound of the distance of the objects below the page from the cursor's point.
    pub low: u64,
    /// The subtree's page.
    pub page: u32,
}

/// An object that was met and is not given yet. Candidates are ordered by distance, then by id.
#[derive(Clone, Copy, PartialEq, Eq, PartialOrd, Ord)]
pub struct Candidate {
    /// The object's distance from the cursor's point.
    pub dist: u64,
    /// The object's id: its place in the order of acceptance.
    pub id: u32,
    /// The caller's tag of the object.
    pub tag: u64,
}

impl TellsApart for Subtree {
    ghost ties_equal = { Prim.search rules };
}

impl TellsApart for Candidate {
    ghost ties_equal = { Prim.search rules };
}
