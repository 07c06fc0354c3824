ghost use Rattle.std.specs.Prelude.{◌≡◌, ◌≤◌, ◌^◌, IsTrue};
ghost use Rattle.disk_model.specs.Disk.{IsUnchanged};
ghost use Rattle.node_page.specs.declared.node.Version.TheVariants.{Second};
ghost use Rattle.page_store.specs.Reading.{reading};

use crate::reading::{is_within, node_on, read_page};
use crate::{PageFault, Pages, SharedNode};
use disk_model::Disk;
use node_page::Version;
use std::alloc::Global;

/// The pages of a file on a disk.
#[derive(Drop)]
pub struct DiskPages<'a, D: Disk> {
    /// The disk.
    pub disk: &'a mut D,
    /// The number of a point's coordinates.
    pub dim: u8,
    /// The number of pages: nodes stand on pages from 3 up and below this number.
    pub pages: u32,
    /// The number of requests for a node. The count stops at the greatest `u64`.
    pub asked: u64,
    /// The version of the file.
    pub version: Version,
    // The page that was read last.
    bytes: [u8; 4096],
    ghost some: { 1 ≤ dim },
    ghost few: { dim ≤ 64 },
    ghost small: { pages ≤ 2 ^ 24 },
}

impl<'a, D: Disk> DiskPages<'a, D> {
    /// Returns the pages of a file of version 2, with none asked for yet.
    /// Clauses: what is asked of the caller (`some`, `few`, `small`); the disk behind the answer (`same_reference`, `same`); the fields of
    /// the answer (`dim`, `pages`, `asked`, `version`).
    pub fn new(disk: &'a mut D, dim: u8, pages: u32) -> Self
        requires some { 1 ≤ dim }
        requires few { dim ≤ 64 }
        requires small { pages ≤ 2 ^ 24 }
        ensures same_reference { result.disk.ghost_name ≡ disk.entry.ghost_name }
        ensures same { result.disk.now ≡ disk.old }
        ensures dim { result.dim ≡ dim }
        ensures pages { result.pages ≡ pages }
        ensures asked { result.asked ≡ 0 }
        ensures version { result.version ≡ Second }
    {
        DiskPages::of_version(disk, dim, pages, Version::Second)
    }

    /// Returns the pages of a file of `version`, with none asked for yet.
    /// Clauses: what is asked of the caller (`some`, `few`, `small`); the disk behind the answer (`same_reference`, `same`); the fields of
    /// the answer (`dim`, `pages`, `asked`, `version`).
    pub fn of_version(disk: &'a mut D, dim: u8, pages: u32, version: Version) -> Self
        requires some { 1 ≤ dim }
        requires few { dim ≤ 64 }
        requires small { pages ≤ 2 ^ 24 }
        ensures same_reference { result.disk.ghost_name ≡ disk.entry.ghost_name }
        ensures same { result.disk.now ≡ disk.old }
        ensures dim { result.dim ≡ dim }
        ensures pages { result.pages ≡ pages }
        ensures asked { result.asked ≡ 0 }
        ensures version { result.version ≡ version }
    {
        DiskPages {
            disk,
            dim,
            pages,
            asked: 0,
            version,
            bytes: [0; 4096],
        }
    }
}

impl<D: Disk> Pages for DiskPages<'_, D> {
    ghost use Rattle.std.specs.Prelude.{◌≡◌};
    ghost use Rattle.disk_model.specs.Disk.{IsUnchanged};
    ghost use Rattle.page_store.specs.Shelves.{disk_shelf};

    ghost shelf = { λ p. disk_shelf p.version p.dim p.pages (D.state p.disk.now) p.asked };

    ghost keeps = { λ p q. (q.disk.ghost_name ≡ p.disk.ghost_name) × IsUnchanged (D.state p.disk.now) (D.state q.disk.now) };

    ghost use Rattle.std.specs.Prelude.{refl};
    ghost use Rattle.std.proofs.Common.{◌∙◌};
    ghost use Rattle.disk_model.specs.Moments.{then_unchanged};
    ghost use Rattle.page_store.specs.Kept.{unchanged_by_none};

    ghost keeps_none = { λ p. (refl, unchanged_by_none (D.state p.disk.now)) };

    ghost keeps_both = { λ p q r first second.
        (second.0 ∙ first.0, then_unchanged (D.state p.disk.now) (D.state q.disk.now) (D.state r.disk.now) first.1 second.1) };

    fn node(
        &mut self,
        alloc: Global,
        page: u32,
        spare: Option<Vec<u32>>,
    ) -> Result<SharedNode, PageFault> {
        self.asked = self.asked.saturating_add(1);
        if !is_within(self.pages, page) {
            return Err(PageFault::Outside(page));
        }
        if read_page(self.disk, page, &mut self.bytes).is_err() {
            return Err(PageFault::Disk);
        }
        node_on(alloc, page, &self.bytes, self.dim, self.version, spare)
    }
}
