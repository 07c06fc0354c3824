use metric_laws::Listed;

/// The group of an entry while a node is split (VLDB 1997, section 4.2).
#[derive(Clone, Copy, PartialEq, Eq)]
pub enum Side {
    /// The group of the first promoted point.
    First,
    /// The group of the second promoted point.
    Second,
    /// Neither group yet.
    Open,
}

/// An entry of an inner node as a new point sees it (VLDB 1997, section 3.3).
#[derive(Clone, Copy, PartialEq, Eq)]
pub struct Aim {
    /// The entry's place in its node, from 0.
    pub place: usize,
    /// The entry's covering radius.
    pub radius: u64,
    /// The distance from the new point to the routing point.
    pub dist: u64,
}

/// An object's group while a bulk load divides a set, by this project's own procedure.
#[derive(Clone, Copy, PartialEq, Eq)]
pub struct Member {
    /// The group's number, from 0.
    pub group: u32,
    /// Whether the object is the group's seed, which stays in its group.
    pub is_seed: bool,
}

/// A group of a bulk load, by the places of its objects.
#[derive(Drop)]
pub struct Group {
    /// The seed's place. The seed's point is the routing point.
    pub seed: u32,
    /// The places of all its objects, including the seed's.
    pub members: Listed<u32>,
}
