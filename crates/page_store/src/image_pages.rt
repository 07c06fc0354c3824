ghost use Rattle.std.specs.Prelude.{◌≡◌, ◌≤◌, ◌^◌};
ghost use Rattle.page_store.specs.Images.{bytes_in};

use crate::image::Image;
use crate::reading::{is_within, node_on, node_on_cut, whole_page};
use crate::{PageFault, Pages, SharedNode};
use node_page::Version;
use std::alloc::Global;

/// The pages of a file of version 2 whose bytes are in memory. They are the pages of a disk with these bytes.
#[derive(Drop)]
pub struct ImagePages<'a> {
    /// The file.
    pub image: Image<'a>,
    /// The number of a point's coordinates.
    pub dim: u8,
    /// The number of pages: nodes stand on pages from 3 up and below this number.
    pub pages: u32,
    /// The number of requests for a node. The count stops at the greatest `u64`.
    pub asked: u64,
    ghost some: { 1 ≤ dim },
    ghost few: { dim ≤ 64 },
    ghost small: { pages ≤ 2 ^ 24 },
}

impl<'a> ImagePages<'a> {
    /// Returns the pages of the file `bytes`, with none asked for yet.
    pub fn new(bytes: &'a [u8], dim: u8, pages: u32) -> Self
        requires some { 1 ≤ dim }
        requires few { dim ≤ 64 }
        requires small { pages ≤ 2 ^ 24 }
        ensures bytes { bytes_in result.image ≡ bytes.now }
        ensures dim { result.dim ≡ dim }
        ensures pages { result.pages ≡ pages }
        ensures asked { result.asked ≡ 0 }
    {
        ImagePages::of(Image::Whole(bytes), dim, pages)
    }

    /// Returns the pages of a file that may be in parts, with none asked for yet.
    pub fn of(image: Image<'a>, dim: u8, pages: u32) -> Self
        requires some { 1 ≤ dim }
        requires few { dim ≤ 64 }
        requires small { pages ≤ 2 ^ 24 }
        ensures image { result.image ≡ image.entry }
        ensures dim { result.dim ≡ dim }
        ensures pages { result.pages ≡ pages }
        ensures asked { result.asked ≡ 0 }
    {
        ImagePages {
            image,
            dim,
            pages,
            asked: 0,
        }
    }
}

impl Pages for ImagePages<'_> {
    ghost use Rattle.std.specs.Prelude.{◌≡◌, true};
    ghost use Rattle.page_store.specs.Images.{bytes_in};
    ghost use Rattle.page_store.specs.Shelves.{image_shelf};

    ghost shelf = { λ p. image_shelf p.dim p.pages (bytes_in p.image) p.asked };

    ghost keeps = { λ p q. bytes_in q.image ≡ bytes_in p.image };

    ghost use Rattle.std.specs.Prelude.{refl};
    ghost use Rattle.std.proofs.Common.{◌∙◌};

    ghost keeps_none = { λ p. refl };

    ghost keeps_both = { λ p q r first second. second ∙ first };

    fn node(
        &mut self,
        alloc: Global,
        page: u32,
        spare: Option<Vec<u32>>,
    ) -> Result<SharedNode, PageFault> {
        self.asked = self.asked.saturating_add(1);
        if !is_within(self.pages, page) {
            return Err(PageFault::Outside(page));
        }
        let (file, place) = self.image.place(page);
        if let Some(bytes) = whole_page(file, place) {
            return node_on(alloc, page, bytes, self.dim, Version::Second, spare);
        }
        node_on_cut(alloc, file, place, page, self.dim)
    }
}
