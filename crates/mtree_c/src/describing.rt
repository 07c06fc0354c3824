// Says what a file is, and what its tree looks like.
ghost use Rattle.std.specs.Prelude.{◌≡◌};
ghost use Rattle.mtree_c.specs.Answers.{Describes};
ghost use Rattle.mtree_c.specs.Rooms.{HandsText};
ghost use Rattle.mtree_c.specs.Texts.{IsDumpText, IsSealText, IsShapeText, IsStatsText};

use crate::answering::open_file;
use crate::rooms::hand_text;
use caller_ends::Gathered;
use job_dump::dump_index;
use job_files::shape_index;
use job_seal::seal_index;
use job_stats::stats_index;
use slice_disk::SliceDisk;
use std::alloc::Global;

/// What the head and the live slot of an index file say.
#[repr(C)]
#[derive(Clone, Copy, PartialEq, Eq)]
pub struct Description {
    /// The metric: 1 hamming, 2 l1, 3 max, 4 kendall, 5 hausdorff, 6 mixsum, 7 mixmax, 8 l1cap.
    pub kind: u8,
    /// The number of coordinates of a point, 1 to 64.
    pub dim: u8,
    /// The promotion: 1 m_RAD, 2 mM_RAD (VLDB 1997, section 4).
    pub promote: u8,
    /// The partition: 1 generalized hyperplane, 2 balanced (VLDB 1997, section 4).
    pub split: u8,
    /// The greatest number of objects.
    pub limit: u32,
    /// The number of commits that made the tree, from 1.
    pub generation: u64,
    /// The root's page.
    pub root: u32,
    /// The root's level.
    pub height: u32,
    /// The number of objects.
    pub count: u32,
    /// The number of pages of the file that count.
    pub pages: u32,
}

/// Says what the bytes of an index file are. Status 0: `description` is filled; 6: they are no index of version 2, and `description` is
/// left as it is.
#[unsafe(no_mangle)]
pub extern "C" fn mtree_describe(alloc: Global, file: &[u8], description: &mut Description) -> u8
    ensures { Describes file.now description.old description.new result }
{
    let (head, live) = match open_file(alloc, file) {
        Ok(opened) => opened,
        Err(status) => return status,
    };
    *description = Description {
        kind: head.kind,
        dim: head.dim,
        promote: head.promote,
        split: head.split,
        limit: head.limit,
        generation: live.generation,
        root: live.root,
        height: live.height,
        count: live.count,
        pages: live.pages,
    };
    0
}

/// Walks the tree of an index file. The lines at the front of `text`, of `size` bytes, are those of the program's `shape`, and so is the
/// status: 0 done; 4 `text` has no room for `size` bytes, and is left as it is; 6 the bytes are no index of version 2; 8 out of memory,
/// with nothing said; 9 a page gave no node.
#[unsafe(no_mangle)]
pub extern "C" fn mtree_shape(alloc: Global, file: &[u8], text: &mut [u8], size: &mut usize) -> u8
    ensures { HandsText (IsShapeText file.now) text.old text.new size.new result }
{
    let mut out = Gathered::new(alloc);
    let mut disk = SliceDisk::new(file);
    let status = shape_index(alloc, &mut disk, &mut out);
    hand_text(status, &out, text, size)
}

/// Tells what is known of an index file without its objects. The lines at the front of `text`, of `size` bytes, are those of the program's
/// `stats`, and the statuses are those of [`mtree_shape`].
#[unsafe(no_mangle)]
pub extern "C" fn mtree_stats(alloc: Global, file: &[u8], text: &mut [u8], size: &mut usize) -> u8
    ensures { HandsText (IsStatsText file.now) text.old text.new size.new result }
{
    let mut out = Gathered::new(alloc);
    let mut disk = SliceDisk::new(file);
    let status = stats_index(alloc, &mut disk, &mut out);
    hand_text(status, &out, text, size)
}

/// Gives the objects of an index file as a script that makes them again. The lines at the front of `text`, of `size` bytes, are those of
/// the program's `dump`, and so is the status: 0 done; 4, 6 and 8 as in [`mtree_shape`]; 9 a page gave no node, or an object's id is not
/// there once.
#[unsafe(no_mangle)]
pub extern "C" fn mtree_dump(alloc: Global, file: &[u8], text: &mut [u8], size: &mut usize) -> u8
    ensures { HandsText (IsDumpText file.now) text.old text.new size.new result }
{
    let mut out = Gathered::new(alloc);
    let mut disk = SliceDisk::new(file);
    let status = dump_index(alloc, &mut disk, &mut out);
    hand_text(status, &out, text, size)
}

/// Audits the bytes of an index file, and gives their root digest. The line at the front of `text`, of `size` bytes, is that of the
/// program's `seal`, and so is the status: 0 sealed; 1 the file has a fault, which the line names; 4, 6 and 8 as in [`mtree_shape`]; 7 it
/// has more than 262144 pages.
#[unsafe(no_mangle)]
pub extern "C" fn mtree_seal(alloc: Global, file: &[u8], text: &mut [u8], size: &mut usize) -> u8
    ensures { HandsText (IsSealText file.now) text.old text.new size.new result }
{
    let mut out = Gathered::new(alloc);
    let mut disk = SliceDisk::new(file);
    let status = seal_index(alloc, &mut disk, &mut out);
    hand_text(status, &out, text, size)
}
