/// A write or a sync that a disk was asked for.
#[repr(C)]
#[derive(Clone, Copy, PartialEq, Eq)]
pub struct Step {
    /// The place where a write begins. A sync has 0.
    pub at: u64,
    /// The number of bytes of a write. A sync has 0.
    pub size: u64,
    /// Whether it is a sync.
    pub is_sync: bool,
}
