/// An entry of a node.
#[derive(Clone, Copy)]
pub struct Entry {
    /// The object's id, or the child's page.
    pub id: u32,
    /// The object's tag, or the covering radius.
    pub tag: u64,
    /// The parent distance.
    pub parent: u64,
    /// The coordinate of the point.
    pub point: u32,
}
