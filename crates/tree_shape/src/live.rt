/// The live tree of a file, as its live slot describes it.
#[derive(Clone, Copy, PartialEq, Eq)]
pub struct Live {
    /// The side of the slot, 0 or 1.
    pub side: u8,
    /// The number of commits that made the tree, from 1.
    pub generation: u64,
    /// The root's page.
    pub root: u32,
    /// The root's level, at most 14.
    pub height: u32,
    /// The number of objects.
    pub count: u32,
    /// The number of pages of the file that count. Nodes stand below it.
    pub pages: u32,
}

/// The greatest generation.
pub const LAST_GENERATION: u64 = (1 << 48) - 1;

/// The most pages of a file: 64 GiB.
pub const MOST_PAGES: u32 = 1 << 24;

/// The bytes of a page.
pub const PAGE: u64 = 4096;
