use scan_model::Hit;

/// A hit, and what the caller calls its object.
#[derive(Clone, Copy)]
pub struct TaggedHit {
    /// The hit.
    pub hit: Hit,
    /// The object's tag.
    pub tag: u64,
}
