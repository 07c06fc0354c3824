//! Files in memory.

ghost use Rattle.std.specs.Prelude.{◌≡◌, ◌≤◌, ◌+◌, ◌*◌, ◌<◌, ◌^◌, Err, length, IsTrue, IfOk, IfErr, IfSome, OnOk};
ghost use Rattle.disk_model.specs.Disk.{IsUnchanged};
ghost use Rattle.batch_run.specs.declared.images.ImageFault.TheVariants as fault;
ghost use Rattle.batch_run.specs.Images.{HasBytes, IsImageOf, IsPartRead, HasImageCause};

use crate::gathering::all_done;
use disk_model::{Disk, SharedDisk};
use job_files::MOST_WHOLE_PAGES;
use metric_laws::Listed;
use outside_io::Failed;
use page_store::Parts;
use std::alloc::{AllocError, Global};
use std::thread::{self, Threads};
use thiserror::Error;
use tree_shape::PAGE;

/// Why a file was not read into memory.
#[derive(Clone, Copy, Debug, PartialEq, Eq, Error)]
pub enum ImageFault {
    /// The disk failed.
    #[error("the file could not be read")]
    Disk,
    /// There are more than `MOST_WHOLE_PAGES` pages.
    #[error("the file has too many pages")]
    TooLong,
    /// Memory ran out for the bytes.
    #[error("out of memory")]
    Memory,
}

impl From<AllocError> for ImageFault {
    ghost from_gives = { λ _ e. e ≡ fault.Memory };

    fn from(_error: AllocError) -> ImageFault {
        ImageFault::Memory
    }
}

impl From<Failed> for ImageFault {
    ghost from_gives = { λ _ e. e ≡ fault.Disk };

    fn from(_failed: Failed) -> ImageFault {
        ImageFault::Disk
    }
}

/// Reads the first `pages` pages of a file, of 4096 bytes each, in one read. Where the file ends before, the bytes past its end
/// are 0. `TooLong` comes before all else and touches nothing; `Disk` comes where the disk failed.
/// Clauses: the answer (`image`, `size`); when it succeeds (`few`); what stays (`same`); the cost (`reads`); the cause of an error (`long`,
/// `cause`); faults of the devices (`done`, `later`).
pub fn read_image<D: Disk>(alloc: Global, disk: &mut D, pages: u32) -> Result<Vec<u8>, ImageFault>
    ensures image { IfOk result (λ image. IsTrue (D.state disk.old).is_known → IsImageOf pages (D.state disk.old).bytes image.items) }
    // The size holds also where the disk does not tell its bytes.
    ensures size { IfOk result (λ image. length image.items ≡ pages * 4096) }
    ensures few { IfOk result (λ _. pages ≤ 262144) }
    ensures cause { IfErr result (HasImageCause pages (D.state disk.old).faults (D.state disk.new).faults) }
    ensures long { 262144 < pages → (result ≡ Err ImageFault.TooLong) × (disk.new ≡ disk.old) }
    ensures same { IsUnchanged (D.state disk.old) (D.state disk.new) }
    ensures reads { (D.state disk.new).reads ≤ (D.state disk.old).reads + 1 }
    ensures done { OnOk result ((D.state disk.new).faults ≡ (D.state disk.old).faults) }
    ensures later { (D.state disk.old).faults ≤ (D.state disk.new).faults }
{
    if pages > MOST_WHOLE_PAGES {
        return Err(ImageFault::TooLong);
    }
    let mut image = vec![in alloc; 0u8; pages as usize * 4096]?;
    disk.read_at(0, image.as_mut_slice())?;
    Ok(image)
}

// Reads `pages` pages from page `from` on, through a reader of its own.
fn read_part<D: SharedDisk>(
    alloc: Global,
    disk: &D,
    from: u32,
    pages: u32,
) -> Result<Listed<u8>, ImageFault>
    requires { from + pages ≤ 262144 }
    ensures size { IfOk result (λ part. length part ≡ 4096 * pages) }
    ensures bytes { IfOk result (λ part. IsTrue (D.state disk.now).is_known → HasBytes (D.state disk.now).bytes from part) }
{
    let Some(mut reader) = disk.reader(alloc) else {
        return Err(ImageFault::Disk);
    };
    let mut part = vec![in alloc; 0u8; pages as usize * 4096]?;
    reader.read_at(PAGE * u64::from(from), part.as_mut_slice())?;
    Ok(Listed::new(part))
}

// Reads a file in parts of `part_pages` pages by `workers` threads. Returns `None` where one of them was not read.
fn parts_by<R: Threads + Sync, D: SharedDisk>(
    rt: &R,
    alloc: Global,
    disk: &D,
    pages: u32,
    part_pages: u32,
    workers: usize,
) -> Result<Option<Parts>, AllocError>
    requires pages { pages ≤ 262144 }
    requires some_pages { 1 ≤ part_pages }
    requires some_workers { 1 ≤ workers }
    requires few_workers { workers ≤ 64 }
    ensures image { IfOk result (λ found. IfSome found (λ parts. IsTrue (D.state disk.now).is_known →
        IsImageOf pages (D.state disk.now).bytes parts)) }
    ensures size { IfOk result (λ found. IfSome found (λ parts. length parts ≡ pages * 4096)) }
{
    let count = pages.div_ceil(part_pages) as usize;
    // Each worker fills a place that is made here. Lists made by workers would be freed here, and this thread would take their
    // memory again: then it and a later worker would wait for one heap.
    let mut tried = Vec::with_capacity(alloc, count)?;
    for _part in 0..count {
        tried.push(Err(ImageFault::Disk))?;
    }
    let read = |part: usize, place: &mut Result<Listed<u8>, ImageFault>|
        requires { (pages ≤ 262144) × (part < 2 ^ 32) × (part * part_pages < pages) }
        ensures { IfOk place.exit.now (IsPartRead (D.state disk.entry.now) part_pages pages (part * part_pages)) }
    {
        let from = part as u32 * part_pages;
        *place = read_part(alloc, disk, from, part_pages.min(pages - from));
    };
    thread::for_each_mut(rt, tried.as_mut_slice(), workers, &read);
    match all_done(alloc, tried)? {
        Some(parts) => Ok(Some(Parts::new(parts, part_pages))),
        None => Ok(None),
    }
}

// Makes a file of `pages` pages in one part.
fn one_part(alloc: Global, bytes: Vec<u8>, pages: u32) -> Result<Parts, AllocError>
    requires { length bytes.items ≤ 4096 * pages }
    ensures { IfOk result (λ parts. parts ≡ bytes.items) }
{
    let mut parts = Vec::with_capacity(alloc, 1)?;
    parts.push(Listed::new(bytes))?;
    Ok(Parts::new(parts, pages.max(1)))
}

/// Reads the same bytes by `workers` threads, 1 to 64. Each reads a part through a reader of its own. Where one of them
/// could not read its part, and where there is one thread, the file is read as `read_image` reads it.
/// Clauses: what is asked of the caller (`some_workers`, `few_workers`); the answer (`image`, `size`); when it succeeds (`few`); what stays
/// (`same`); the cost (`reads`); the cause of an error (`long`, `cause`); faults of the devices (`done`, `later`).
pub fn read_parts<R: Threads + Sync, D: SharedDisk>(
    rt: &R,
    alloc: Global,
    disk: &mut D,
    pages: u32,
    workers: usize,
) -> Result<Parts, ImageFault>
    requires some_workers { 1 ≤ workers }
    requires few_workers { workers ≤ 64 }
    ensures image { IfOk result (λ parts. IsTrue (D.state disk.old).is_known → IsImageOf pages (D.state disk.old).bytes parts) }
    // The size holds also where the disk does not tell its bytes.
    ensures size { IfOk result (λ parts. length parts ≡ pages * 4096) }
    ensures few { IfOk result (λ _. pages ≤ 262144) }
    ensures cause { IfErr result (HasImageCause pages (D.state disk.old).faults (D.state disk.new).faults) }
    ensures long { 262144 < pages → (result ≡ Err ImageFault.TooLong) × (disk.new ≡ disk.old) }
    ensures same { IsUnchanged (D.state disk.old) (D.state disk.new) }
    ensures reads { (D.state disk.new).reads ≤ (D.state disk.old).reads + 1 }
    ensures done { OnOk result ((D.state disk.new).faults ≡ (D.state disk.old).faults) }
    ensures later { (D.state disk.old).faults ≤ (D.state disk.new).faults }
{
    if pages > MOST_WHOLE_PAGES {
        return Err(ImageFault::TooLong);
    }
    if workers > 1 {
        let part_pages = pages.div_ceil(workers as u32).max(1);
        if let Some(parts) = parts_by(rt, alloc, disk, pages, part_pages, workers)? {
            return Ok(parts);
        }
    }
    let image = read_image(alloc, disk, pages)?;
    Ok(one_part(alloc, image, pages)?)
}
