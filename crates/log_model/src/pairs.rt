use crate::Item;

/// A pair of items whose objects a join still has to compare.
#[derive(Drop)]
pub struct JoinNeed {
    /// The item of the left tree.
    pub left: Item,
    /// The item of the right tree.
    pub right: Item,
    /// The distance of their centres, where both have one.
    pub apart: Option<u64>,
}
