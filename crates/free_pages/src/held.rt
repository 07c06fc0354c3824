/// A page that is held back.
#[derive(Clone, Copy)]
pub struct Held {
    /// The page.
    pub page: u32,
    /// The generation of the commit that left it.
    pub generation: u64,
}
