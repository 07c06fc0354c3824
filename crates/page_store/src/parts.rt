ghost use Rattle.std.specs.Prelude.{◌≡◌, ◌≤◌};
ghost use Rattle.std.specs.List.{concat};
ghost use Rattle.node_page.specs.Opening.{page_of};
ghost use Rattle.page_store.specs.Parts.{AreParts};

use metric_laws::Listed;
use std::marker::Model;

/// The bytes of a file in parts. All parts have the same number of pages, but the last may have fewer. So several threads can read a
/// file, each thread one part.
#[derive(Drop)]
pub struct Parts {
    parts: Vec<Listed<u8>>,
    // The number of a part's pages of 4096 bytes.
    pages: u32,
}

impl Model for Parts {
    ghost use Rattle.std.specs.Prelude.{ℕ, ◌≤◌, List};
    ghost use Rattle.std.specs.List.{concat};
    ghost use Rattle.page_store.specs.Parts.{AreParts};

    ghost Value = { List ℕ };

    ghost view = { λ p. concat p.parts.items };

    ghost invariant = { λ p. (1 ≤ p.pages) × AreParts p.pages p.parts.items };
}

impl Parts {
    /// Makes a file of the parts `parts`, of `pages` pages each.
    pub fn new(parts: Vec<Listed<u8>>, pages: u32) -> Self
        requires some { 1 ≤ pages }
        requires are { AreParts pages parts.items }
        ensures { result ≡ concat parts.items }
    {
        Parts { parts, pages }
    }

    // Returns the part that holds page `page`, and the page's number within that part.
    pub(crate) fn place(&self, page: u32) -> (&[u8], u32)
        ensures { page_of result.0.now result.1 ≡ page_of self.now page }
    {
        let part = (page / self.pages) as usize;
        if part < self.parts.len() {
            (self.parts[part].as_slice(), page % self.pages)
        } else {
            (&[], page)
        }
    }
}
