ghost use Rattle.std.specs.Prelude.{◌≡◌};
ghost use Rattle.node_page.specs.Opening.{page_of};
ghost use Rattle.page_store.specs.Images.{bytes_in};

use crate::parts::Parts;

/// The bytes of a file in memory.
#[derive(Clone, Copy)]
pub enum Image<'a> {
    /// All bytes together.
    Whole(&'a [u8]),
    /// The bytes in parts.
    InParts(&'a Parts),
}

impl<'a> Image<'a> {
    // Returns bytes that hold page `page`, and the page's number within them.
    pub(crate) fn place(self, page: u32) -> (&'a [u8], u32)
        ensures { page_of result.0.now result.1 ≡ page_of (bytes_in self.entry) page }
    {
        match self {
            Image::Whole(bytes) => (bytes, page),
            Image::InParts(parts) => parts.place(page),
        }
    }
}
