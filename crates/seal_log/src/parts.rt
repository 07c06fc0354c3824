// What stands before the log of a carried log.
ghost use Rattle.std.specs.Prelude.{◌≡◌, None};
ghost use Rattle.prune_log.specs.Reading.{Gives, front_at, many, always};
ghost use Rattle.seal_log.specs.Spelling.{is_behind, may_follow};
ghost use Rattle.seal_log.specs.Reading.{opening_at, path_at, place_at, page_at, pages_at, count_at, parts_at, carried_at};

use metric_laws::Listed;
use prune_log::LogFault;
use prune_log::fields::{byte_at, front_at, u32_at, u64_at};
use std::alloc::Global;

/// The letters `MTPF` as a number, the first letter highest.
pub const MAGIC: u32 = 0x4d54_5046;

/// The version that is read and written.
pub const VERSION: u8 = 1;

/// The least number of carried pages: the head and the two slots.
const LEAST_PAGES: u32 = 3;

/// A carried page with the path of its digest.
#[derive(Drop)]
pub struct CarriedPage {
    /// The page's number.
    pub page: u32,
    /// The page's bytes.
    pub bytes: Listed<u8>,
    /// The partner of the page's digest, then the partner of each digest above it, from the bottom up.
    pub path: Listed<[u8; 32]>,
}

/// What stands before the log.
#[derive(Drop)]
pub struct Parts {
    /// The number of the file's pages.
    pub pages: u32,
    /// The pages that are carried.
    pub carried: Listed<CarriedPage>,
}

// Reads the letters and the version, and returns the bytes behind them.
#[tactic(auto, unfolding(crate::specs::Reading::opening_at))]
fn opening_at(bytes: &[u8]) -> Result<&[u8], LogFault>
    ensures { Gives (λ x. x.now) result (opening_at bytes.now) }
{
    let (letters, rest) = u32_at(bytes)?;
    if letters != MAGIC {
        return Err(LogFault::Magic);
    }
    let (version, rest) = byte_at(rest)?;
    if version != VERSION {
        return Err(LogFault::Version);
    }
    Ok(rest)
}

// Reads a digest.
fn digest_at(bytes: &[u8]) -> Result<([u8; 32], &[u8]), LogFault>
    ensures { Gives (λ x. (x.0, x.1.now)) result (front_at 32 bytes.now) }
{
    let (front, rest) = front_at(bytes, 32)?;
    let mut digest = [0; 32];
    digest.copy_from_slice(front);
    Ok((digest, rest))
}

// Reads `count` digests.
fn digests_at(alloc: Global, count: u8, bytes: &[u8]) -> Result<(Vec<[u8; 32]>, &[u8]), LogFault>
    ensures { Gives (λ x. (x.0.items, x.1.now)) result (many (front_at 32) always count None bytes.now) }
{
    let mut digests = Vec::new(alloc);
    let mut rest = bytes;
    for _ in 0..count {
        let (digest, behind) = digest_at(rest)?;
        digests.push(digest)?;
        rest = behind;
    }
    Ok((digests, rest))
}

// Reads a number of digests from one byte, then the digests.
#[tactic(auto, unfolding(crate::specs::Reading::path_at))]
fn path_at(alloc: Global, bytes: &[u8]) -> Result<(Listed<[u8; 32]>, &[u8]), LogFault>
    ensures { Gives (λ x. (x.0, x.1.now)) result (path_at bytes.now) }
{
    let (count, rest) = byte_at(bytes)?;
    let (digests, rest) = digests_at(alloc, count, rest)?;
    Ok((Listed::new(digests), rest))
}

// Returns whether page `page` may stand behind page `last`.
fn is_behind(last: Option<u32>, page: u32) -> bool
    ensures { result ≡ is_behind last page }
{
    match last {
        None => page == 0,
        Some(last) => {
            if last < 2 {
                page == last + 1
            } else {
                last < page
            }
        }
    }
}

// Reads the number of a page, which has to be one that may stand behind `last`.
#[tactic(auto, unfolding(crate::specs::Reading::place_at))]
fn place_at(pages: u32, last: Option<u32>, bytes: &[u8]) -> Result<(u32, &[u8]), LogFault>
    ensures { Gives (λ x. (x.0, x.1.now)) result (place_at pages last bytes.now) }
{
    let (page, rest) = u32_at(bytes)?;
    if page >= pages || !is_behind(last, page) {
        return Err(LogFault::Order);
    }
    Ok((page, rest))
}

// Reads a page: its number, its bytes and its path.
#[tactic(auto, unfolding(crate::specs::Reading::page_at))]
fn page_at(
    alloc: Global,
    pages: u32,
    last: Option<u32>,
    bytes: &[u8],
) -> Result<(CarriedPage, &[u8]), LogFault>
    ensures { Gives (λ x. (x.0, x.1.now)) result (page_at pages last bytes.now) }
{
    let (page, rest) = place_at(pages, last, bytes)?;
    let (body, rest) = front_at(rest, 4096)?;
    let (path, rest) = path_at(alloc, rest)?;
    let bytes = Listed::new(Vec::from_slice(alloc, body)?);
    Ok((CarriedPage { page, bytes, path }, rest))
}

// Reads the given number of pages.
fn pages_at(
    alloc: Global,
    pages: u32,
    count: u32,
    bytes: &[u8],
) -> Result<(Vec<CarriedPage>, &[u8]), LogFault>
    ensures { Gives (λ x. (x.0.items, x.1.now)) result (pages_at pages count None bytes.now) }
{
    let mut carried = Vec::new(alloc);
    let mut last = None;
    let mut rest = bytes;
    for _ in 0..count {
        let (page, behind) = page_at(alloc, pages, last, rest)?;
        last = Some(page.page);
        carried.push(page)?;
        rest = behind;
    }
    Ok((carried, rest))
}

// Reads the number of the carried pages, at least three.
#[tactic(auto, unfolding(crate::specs::Reading::count_at))]
fn count_at(bytes: &[u8]) -> Result<(u32, &[u8]), LogFault>
    ensures { Gives (λ x. (x.0, x.1.now)) result (count_at bytes.now) }
{
    let (count, rest) = u32_at(bytes)?;
    if count < LEAST_PAGES {
        return Err(LogFault::Order);
    }
    Ok((count, rest))
}

// Reads what stands before the log, and returns the bytes behind it too.
#[tactic(auto, unfolding(crate::specs::Reading::parts_at))]
fn parts_at(alloc: Global, bytes: &[u8]) -> Result<(Parts, &[u8]), LogFault>
    ensures { Gives (λ x. (x.0, x.1.now)) result (parts_at bytes.now) }
{
    let rest = opening_at(bytes)?;
    let (pages, rest) = u32_at(rest)?;
    let (count, rest) = count_at(rest)?;
    let (carried, rest) = pages_at(alloc, pages, count, rest)?;
    let carried = Listed::new(carried);
    Ok((Parts { pages, carried }, rest))
}

// Reads what stands before the log, and returns it with the log's bytes. Together they take all of `bytes`.
#[tactic(auto, unfolding(crate::specs::Reading::carried_at))]
pub fn carried_at(alloc: Global, bytes: &[u8]) -> Result<(Parts, &[u8]), LogFault>
    ensures { Gives (λ x. (x.0, x.1.now)) result (carried_at bytes.now) }
{
    let (parts, rest) = parts_at(alloc, bytes)?;
    let (size, rest) = u64_at(rest)?;
    let (log, rest) = front_at(rest, size)?;
    if !rest.is_empty() {
        return Err(LogFault::Tail);
    }
    Ok((parts, log))
}
