ghost use Rattle.std.specs.Prelude.{◌≡◌, ◌≤◌, ℕ, false, IsTrue, Contains};
ghost use Rattle.disk_model.specs.Disk.{IsUnchanged};
ghost use Rattle.page_store.specs.Shelf.{Shelf, HoldsSame};
ghost use Rattle.node_page.specs.declared.node.Version.TheVariants.{Second};
ghost use Rattle.page_store.specs.Shelves.{disk_shelf};
ghost use Rattle.page_cache.specs.Keeping.{Agrees};
ghost use Rattle.page_cache.specs.Laws.{GrowsTo};

use disk_model::{Disk, MemoryDisk};
use page_cache::{Cached, Kept, Mapped, laws};
use page_store::{DiskPages, PageFault, Pages};
use small_trees::{pad, two_leaves};
use std::alloc::{AllocError, Global};
use std::process::Abort;
use std::test::Fail;
use tree_shape::Node;

// Ends a test in which `is_so` is false.
pub(crate) fn holds(rt: &impl Abort, is_so: bool) {
    assert!(rt; is_so);
}

// Makes a disk of `bytes` whose calls numbered in `fails` fail.
fn disk_with(alloc: Global, bytes: Vec<u8>, fails: &[u64]) -> Result<MemoryDisk, AllocError> {
    let room = bytes.len() as u64;
    MemoryDisk::new(alloc, bytes, room, 100, fails.to_vec(alloc)?, None)
}

// Makes a disk of the two leaves and their root whose calls numbered in `fails` fail.
fn disk_of(alloc: Global, fails: &[u64]) -> Result<MemoryDisk, AllocError> {
    disk_with(alloc, two_leaves(alloc, Vec::new(alloc), 4)?, fails)
}

// Does the same, and ends the test where memory is lacking.
fn disk(rt: &(impl AllocGlobal + Abort), fails: &[u64]) -> MemoryDisk {
    disk_of(rt.alloc(), fails).expect(rt, "memory")
}

// Is what a node shows of itself: its level, and the sum of its ids or of its children's pages.
type Shown = (u8, u32);

const LEFT: Shown = (0, 120);

const RIGHT: Shown = (0, 408);

const ROOT: Shown = (1, 7);

// Is what a page of zeros shows.
const EMPTY: Shown = (0, 0);

// Gives what a node shows.
fn shown(node: &Node) -> Shown {
    let mut sum = 0u32;
    match node {
        Node::Leaf(entries) => {
            for index in 0..entries.len() {
                sum = sum.wrapping_add(entries.at(index).id);
            }
            (0, sum)
        }
        Node::Inner { level, entries } => {
            for index in 0..entries.len() {
                sum = sum.wrapping_add(entries.at(index).child);
            }
            (*level, sum)
        }
    }
}

// Gives what the node of `page` shows.
fn ask<P: Pages>(alloc: Global, pages: &mut P, page: u32) -> Result<Shown, PageFault>
    ensures same { HoldsSame (P.shelf pages.old) (P.shelf pages.new) }
    ensures keeps { P.keeps pages.old pages.new }
{
    let node = pages.node(alloc, page, None)?;
    Ok(shown(node.as_ref()))
}

// Gives what `page` is to answer, where its disk doesn't fail.
fn expected(page: u32) -> Result<Shown, PageFault> {
    match page {
        3 => Ok(LEFT),
        4 => Ok(RIGHT),
        5 => Ok(ROOT),
        _ => Err(PageFault::Outside(page)),
    }
}

// Asks for the pages in `wanted` in turn, and checks their answers.
fn check_pages<P: Pages>(rt: &(impl AllocGlobal + Abort), pages: &mut P, wanted: &[u32]) {
    for page in wanted {
        holds(rt, ask(rt.alloc(), pages, *page) == expected(*page));
    }
}

// Asks a cache of at most `most` nodes for the pages in `wanted` in turn.
fn check_cached<D: Disk>(rt: &(impl AllocGlobal + Abort), disk: &mut D, most: usize, wanted: &[u32])
    requires { 1 ≤ most }
{
    let pages = DiskPages::new(disk, 1, 6);
    let mut pages = Cached::new(rt.alloc(), pages, most).expect(rt, "memory");
    check_pages(rt, &mut pages, wanted);
}

// Checks that such a cache makes `calls` calls of the disk.
fn check_calls(rt: &(impl AllocGlobal + Abort), most: usize, wanted: &[u32], calls: u64)
    requires { 1 ≤ most }
{
    let mut disk = disk(rt, &[]);
    check_cached(rt, &mut disk, most, wanted);
    holds(rt, disk.moments() == calls);
}

#[test]
fn a_kept_page_is_not_read_again(rt: HostRuntime) {
    check_calls(&rt, 256, &[5, 3, 5, 3], 2);
    check_calls(&rt, 256, &[5, 2, 6, 3, 5, 2, 6, 3], 2);
    check_calls(&rt, 1, &[5, 5, 3, 3, 5], 3);
    // Keeps the page that was used last, and not the one that came last.
    check_calls(&rt, 2, &[3, 4, 3, 5, 3, 4], 4);
}

// Asks pages behind `lines` lines for the pages in `wanted` in turn.
fn check_mapped<D: Disk>(
    rt: &(impl AllocGlobal + Abort),
    disk: &mut D,
    lines: usize,
    wanted: &[u32],
)
    requires { 1 ≤ lines }
{
    let pages = DiskPages::new(disk, 1, 6);
    let mut pages = Mapped::new(rt.alloc(), pages, lines).expect(rt, "memory");
    check_pages(rt, &mut pages, wanted);
}

// Checks that they make `calls` calls of the disk.
fn check_mapped_calls(rt: &(impl AllocGlobal + Abort), lines: usize, wanted: &[u32], calls: u64)
    requires { 1 ≤ lines }
{
    let mut disk = disk(rt, &[]);
    check_mapped(rt, &mut disk, lines, wanted);
    holds(rt, disk.moments() == calls);
}

#[test]
fn a_page_is_not_read_again_while_its_line_holds_it(rt: HostRuntime) {
    check_mapped_calls(&rt, 6, &[5, 3, 4, 5, 3, 4], 3);
    check_mapped_calls(&rt, 6, &[5, 2, 6, 3, 5, 2, 6, 3], 2);
    check_mapped_calls(&rt, 1, &[5, 5, 3, 3, 5], 3);
    // Pages 3 and 5 share a line, and page 4 has the other.
    check_mapped_calls(&rt, 2, &[3, 4, 3, 5, 4, 3], 4);
}

// Makes a disk of eight pages.
fn eight_pages(alloc: Global) -> Result<MemoryDisk, AllocError> {
    let mut bytes = two_leaves(alloc, Vec::new(alloc), 4)?;
    pad(&mut bytes, 8 * 4096)?;
    disk_with(alloc, bytes, &[])
}

// Lists the last pages of that disk, and what they show.
const EIGHT: [(u32, Shown); 5] = [(3, LEFT), (4, RIGHT), (5, ROOT), (6, EMPTY), (7, EMPTY)];

// Asks for pages, and checks what they show.
fn check_shown<P: Pages>(rt: &(impl AllocGlobal + Abort), pages: &mut P, cases: &[(u32, Shown)]) {
    for (page, node) in cases {
        holds(rt, ask(rt.alloc(), pages, *page) == Ok(*node));
    }
}

// Asks a cache twice for the last pages of that disk, and counts what it keeps.
fn keep_eight<D: Disk>(rt: &(impl AllocGlobal + Abort), disk: &mut D) -> usize {
    let pages = DiskPages::new(disk, 1, 8);
    let mut pages = Cached::new(rt.alloc(), pages, 5).expect(rt, "memory");
    check_shown(rt, &mut pages, &EIGHT);
    check_shown(rt, &mut pages, &EIGHT);
    let (_, kept) = pages.into_parts();
    kept.len()
}

#[test]
fn all_pages_are_kept_where_there_is_room(rt: HostRuntime) {
    let mut disk = eight_pages(rt.alloc()).expect(&rt, "memory");
    let kept = keep_eight(&rt, &mut disk);
    holds(&rt, (disk.moments(), kept) == (5, 5));
}

// Forgets a page of a cache, asks for it again, and counts what is kept.
fn forget_one<D: Disk>(rt: &(impl AllocGlobal + Abort), disk: &mut D) -> usize {
    let pages = DiskPages::new(disk, 1, 6);
    let mut pages = Cached::new(rt.alloc(), pages, 9).expect(rt, "memory");
    check_pages(rt, &mut pages, &[5, 3, 4]);
    pages.forget(3);
    pages.forget(3);
    check_pages(rt, &mut pages, &[5, 3, 4]);
    let (_, kept) = pages.into_parts();
    kept.len()
}

#[test]
fn a_page_that_is_forgotten_is_read_again(rt: HostRuntime) {
    let mut disk = disk(&rt, &[]);
    let kept = forget_one(&rt, &mut disk);
    holds(&rt, (disk.moments(), kept) == (4, 3));
}

// Asks a cache of one node on a disk whose second call fails.
fn check_refusal<P: Pages>(rt: &(impl AllocGlobal + Abort), pages: &mut P) {
    let alloc = rt.alloc();
    holds(rt, ask(alloc, pages, 3) == Ok(LEFT));
    holds(rt, ask(alloc, pages, 4) == Err(PageFault::Disk));
    holds(rt, ask(alloc, pages, 3) == Ok(LEFT));
    holds(rt, ask(alloc, pages, 4) == Ok(RIGHT));
}

// Checks it of a cache of what was used last, and of one line.
fn check_refusals<D: Disk>(rt: &(impl AllocGlobal + Abort), first: &mut D, second: &mut D) {
    let alloc = rt.alloc();
    let mut cached = Cached::new(alloc, DiskPages::new(first, 1, 6), 1).expect(rt, "memory");
    check_refusal(rt, &mut cached);
    let mut mapped = Mapped::new(alloc, DiskPages::new(second, 1, 6), 1).expect(rt, "memory");
    check_refusal(rt, &mut mapped);
}

#[test]
fn a_refusal_keeps_what_is_kept(rt: HostRuntime) {
    let mut first = disk(&rt, &[1]);
    let mut second = disk(&rt, &[1]);
    check_refusals(&rt, &mut first, &mut second);
    holds(&rt, (first.moments(), second.moments()) == (3, 3));
}

// Lends a cache to the pages of a disk for one ask.
fn look<D: Disk>(
    alloc: Global,
    disk: &mut D,
    kept: Kept,
    page: u32,
) -> (Result<Shown, PageFault>, Kept)
    requires { Agrees kept (disk_shelf Second 1 6 (D.state disk.old) 0) }
    ensures same { IsUnchanged (D.state disk.old) (D.state disk.new) }
    ensures agrees { Agrees result.1 (disk_shelf Second 1 6 (D.state disk.new) 0) }
{
    laws::agreement_lasts();
    let mut pages = Cached::from_parts(DiskPages::new(disk, 1, 6), kept);
    let answer = ask(alloc, &mut pages, page);
    let (inner, kept) = pages.into_parts();
    let _disk = inner.disk;
    (answer, kept)
}

// Forgets the pages in `written`, which are written anew next. What is left agrees with the pages then, where the others
// hold what they held.
fn forget_each(kept: &mut Kept, written: &[u32])
    ensures { (old new : Shelf) → GrowsTo old new → Agrees kept.old old
        → (IsTrue new.is_known → (page : ℕ) → ¬ Contains written.now page → new.read page ≡ old.read page) → Agrees kept.new new }
{
    laws::agreement_lasts();
    laws::forgetting_keeps_agreement();
    for page in written {
        kept.forget(*page);
    }
}

#[test]
fn a_cache_is_lent(rt: HostRuntime) -> Result<(), Fail> {
    laws::empty_cache_agrees();
    laws::forgetting_keeps_agreement();
    let alloc = rt.alloc();
    let mut disk = disk_of(alloc, &[])?;
    let mut kept = Kept::new(alloc, 2)?;
    assert!(rt; kept.is_empty() == true);
    for (page, calls) in [(5, 1), (3, 2), (5, 2), (3, 2)] {
        let (answer, next) = look(alloc, &mut disk, kept, page);
        assert!(rt; (answer, disk.moments()) == (expected(page), calls));
        kept = next;
    }
    forget_each(&mut kept, &[2, 5]);
    let (answer, kept) = look(alloc, &mut disk, kept, 3);
    assert!(rt; (answer, disk.moments()) == (Ok(LEFT), 2));
    let (answer, _) = look(alloc, &mut disk, kept, 5);
    assert!(rt; (answer, disk.moments()) == (Ok(ROOT), 3));
    Ok(())
}
