ghost use Rattle.std.specs.Prelude.{◌≡◌, ◌≤◌, ◌^◌, [], max, IfOk};

use crate::caches::holds;
use disk_model::{Disk, MemoryDisk};
use free_pages::{Free, laws};
use node_page::NodeFault;
use page_store::{DiskPages, ImagePages, PageFault};
use std::alloc::{AllocError, Global};
use std::process::Abort;
use tree_shape::Live;

// Describes a live tree of height 1 below a root on page 5, in a file of nine pages.
const LIVE: Live = Live {
    side: 1,
    generation: 2,
    root: 5,
    height: 1,
    count: 0,
    pages: 9,
};

// Sets the byte at `at` of a file.
fn put(bytes: &mut [u8], at: usize, byte: u8) {
    if at < bytes.len() {
        bytes[at] = byte;
    }
}

// Puts an inner node of one coordinate that names the pages in `children`.
fn put_inner(bytes: &mut [u8], page: u8, level: u8, children: &[u8]) {
    let start = usize::from(page) * 4096;
    put(bytes, start, level);
    for place in 0..children.len().min(100) {
        put(bytes, start + 3, place as u8 + 1);
        put(bytes, start + 16 + 24 * place + 3, children[place]);
    }
}

// Gives a file of nine pages. Its root on page 5 names the pages in `children`. Page 8 is no node, and the others are empty
// leaves.
fn file(rt: &(impl AllocGlobal + Abort), children: &[u8]) -> Vec<u8> {
    let mut bytes = vec![in rt.alloc(); 0u8; 36864].expect(rt, "memory");
    put(&mut bytes, 32768, 15);
    put_inner(&mut bytes, 5, 1, children);
    bytes
}

// Finds the free pages of a file.
fn free_of(alloc: Global, bytes: &[u8], live: &Live) -> Result<Free, PageFault>
    requires { live.now.pages ≤ 2 ^ 24 }
    ensures pins { IfOk result (λ f. f.pins ≡ []) }
    ensures newest { IfOk result (λ f. f.newest ≡ 0) }
{
    let mut pages = ImagePages::new(bytes, 1, live.pages);
    Free::of(alloc, &mut pages, live)
}

// Finds the free pages of a file whose root names the pages in `children`.
fn free_below(rt: &(impl AllocGlobal + Abort), children: &[u8]) -> Free
    ensures pins { result.pins ≡ [] }
    ensures newest { result.newest ≡ 0 }
{
    let bytes = file(rt, children);
    free_of(rt.alloc(), &bytes, &LIVE).expect(rt, "a walk")
}

// Says why the walk of a file is refused.
fn fault_of(alloc: Global, bytes: &[u8]) -> Option<PageFault> {
    free_of(alloc, bytes, &LIVE).err()
}

// Says whether `pages` are the first `count` pages that are free.
fn are_least(rt: &(impl AllocGlobal + Abort), free: &Free, count: usize, pages: &[u32]) -> bool {
    let least = free.least(rt.alloc(), count).expect(rt, "memory");
    least.as_slice() == pages
}

// Checks that exactly these pages are free.
fn check(rt: &(impl AllocGlobal + Abort), free: &Free, pages: &[u32]) {
    holds(rt, are_least(rt, free, 100, pages));
    holds(rt, free.len() == pages.len());
    holds(rt, free.is_empty() == pages.is_empty());
}

// Finds the free pages of the file whose root names 3 and 7, and counts the pages that are asked for.
fn free_asked(rt: &(impl AllocGlobal + Abort)) -> (Free, u64) {
    let bytes = file(rt, &[3, 7]);
    let mut pages = ImagePages::new(&bytes, 1, 9);
    let free = Free::of(rt.alloc(), &mut pages, &LIVE).expect(rt, "a walk");
    (free, pages.asked)
}

// Takes the page `page`, which is the first that is free.
fn check_take(rt: &impl Abort, free: &mut Free, page: Option<u32>) {
    holds(rt, free.take() == page);
}

#[test]
fn pages_outside_the_tree(rt: HostRuntime) {
    let (mut free, asked) = free_asked(&rt);
    holds(&rt, asked == 3);
    check(&rt, &free, &[4, 6, 8]);
    holds(&rt, are_least(&rt, &free, 2, &[4, 6]));
    check_take(&rt, &mut free, Some(4));
    check_take(&rt, &mut free, Some(6));
    check(&rt, &free, &[8]);
    check_take(&rt, &mut free, Some(8));
    check_take(&rt, &mut free, None);
    check(&rt, &free, &[]);
    laws::sound_trees_are_walked();
    laws::least_are_numbers();
    laws::whole_trees_are_walked();
    laws::walks_are_tours();
    laws::outside_is_outside();
    laws::leaving_keeps_pages();
    laws::pins_keep_pages();
    laws::held_while_pinned();
}

// Checks the free pages of a file with this live tree.
fn check_free(rt: &(impl AllocGlobal + Abort), bytes: &[u8], live: &Live, pages: &[u32])
    requires { live.now.pages ≤ 2 ^ 24 }
{
    let free = free_of(rt.alloc(), bytes, live).expect(rt, "a walk");
    check(rt, &free, pages);
}

#[test]
fn a_sound_file_of_one_leaf(rt: HostRuntime) {
    let bytes = file(&rt, &[]);
    let leaf = Live {
        root: 4,
        height: 0,
        pages: 5,
        ..LIVE
    };
    check_free(&rt, &bytes, &leaf, &[3]);
}

// Goes by child numbers, and not by the height.
#[test]
fn a_tree_that_is_deeper_than_its_height(rt: HostRuntime) {
    let mut bytes = file(&rt, &[6]);
    put_inner(&mut bytes, 6, 1, &[3]);
    let flat = Live { height: 0, ..LIVE };
    check_free(&rt, &bytes, &flat, &[4, 7, 8]);
}

// Checks the first fault in pre-order of a file whose root names the pages in `children`.
fn check_fault(rt: &(impl AllocGlobal + Abort), children: &[u8], fault: PageFault) {
    let bytes = file(rt, children);
    holds(rt, fault_of(rt.alloc(), &bytes) == Some(fault));
}

#[test]
fn faults_of_the_walk(rt: HostRuntime) {
    check_fault(&rt, &[3, 3], PageFault::Repeats(3));
    check_fault(&rt, &[5], PageFault::Repeats(5));
    check_fault(&rt, &[3, 4, 3, 2], PageFault::Repeats(3));
    check_fault(&rt, &[3, 2, 3], PageFault::Outside(2));
    check_fault(&rt, &[9], PageFault::Outside(9));
    check_fault(&rt, &[8, 2], PageFault::Bad(8, NodeFault::Kind));
    check_fault(&rt, &[0, 8], PageFault::Outside(0));
}

// Meets the children of the first child before the second child.
#[test]
fn the_walk_goes_down_first(rt: HostRuntime) {
    let mut bytes = file(&rt, &[6, 7, 2]);
    put_inner(&mut bytes, 6, 1, &[7, 4]);
    let repeats = Some(PageFault::Repeats(7));
    holds(&rt, fault_of(rt.alloc(), &bytes) == repeats);
    put_inner(&mut bytes, 6, 1, &[3, 8]);
    let bad = Some(PageFault::Bad(8, NodeFault::Kind));
    holds(&rt, fault_of(rt.alloc(), &bytes) == bad);
}

// Makes a disk of `bytes` that all calls from `stop` on fail.
fn disk_of(alloc: Global, bytes: Vec<u8>, stop: u64) -> Result<MemoryDisk, AllocError> {
    let room = bytes.len() as u64;
    MemoryDisk::new(alloc, bytes, room, 100, Vec::new(alloc), Some(stop))
}

// Says why the walk of a file on a disk is refused.
fn fault_on<D: Disk>(alloc: Global, disk: &mut D) -> Option<PageFault> {
    let mut pages = DiskPages::new(disk, 1, 9);
    Free::of(alloc, &mut pages, &LIVE).err()
}

// Checks the walk of a file on a disk that all calls from `stop` on fail.
fn check_stop(rt: &(impl AllocGlobal + Abort), stop: u64, fault: Option<PageFault>) {
    let mut disk = disk_of(rt.alloc(), file(rt, &[3, 7]), stop).expect(rt, "memory");
    holds(rt, fault_on(rt.alloc(), &mut disk) == fault);
}

#[test]
fn a_read_that_fails(rt: HostRuntime) {
    check_stop(&rt, 0, Some(PageFault::Disk));
    check_stop(&rt, 2, Some(PageFault::Disk));
    check_stop(&rt, 3, None);
}

// Gives back each of `pages`.
fn give_back(rt: &impl Abort, free: &mut Free, pages: &[u32]) {
    for page in pages {
        free.give_back(*page).expect(rt, "memory");
    }
}

#[test]
fn pages_that_are_given_back(rt: HostRuntime) {
    let mut free = free_below(&rt, &[3, 4, 7]);
    check(&rt, &free, &[6, 8]);
    give_back(&rt, &mut free, &[7, 40, 6, 3, 7]);
    check(&rt, &free, &[3, 6, 7, 8, 40]);
    check_take(&rt, &mut free, Some(3));
    free.reserve(2).expect(&rt, "memory");
    give_back(&rt, &mut free, &[41, 5]);
    check(&rt, &free, &[5, 6, 7, 8, 40, 41]);
}

// Leaves a page after a commit to `generation`.
fn leave(rt: &impl Abort, free: &mut Free, page: u32, generation: u64)
    ensures pins { free.new.pins ≡ free.old.pins }
    ensures newest { free.new.newest ≤ max free.old.newest generation }
{
    free.reserve(1).expect(rt, "memory");
    free.leave(page, generation);
}

#[test]
fn pages_that_pins_hold(rt: HostRuntime) {
    let mut free = free_below(&rt, &[3, 4, 6, 7]);
    free.pin(5).expect(&rt, "memory");
    // Holds the page that a pin below the generation keeps, and not that of the generation itself.
    leave(&rt, &mut free, 20, 6);
    leave(&rt, &mut free, 21, 5);
    check(&rt, &free, &[8, 21]);
    free.pin(6).expect(&rt, "memory");
    leave(&rt, &mut free, 23, 7);
    leave(&rt, &mut free, 22, 7);
    // Leaves what is held or free as it is.
    leave(&rt, &mut free, 20, 9);
    leave(&rt, &mut free, 8, 9);
    free.give_back(22).expect(&rt, "memory");
    check(&rt, &free, &[8, 21]);
    free.unpin(5);
    check(&rt, &free, &[8, 20, 21]);
    free.unpin(6);
    check(&rt, &free, &[8, 20, 21, 22, 23]);
}

#[test]
fn a_generation_that_is_pinned_twice(rt: HostRuntime) {
    let mut free = free_below(&rt, &[3, 4, 6, 7]);
    free.pin(7).expect(&rt, "memory");
    free.pin(7).expect(&rt, "memory");
    leave(&rt, &mut free, 3, 8);
    free.unpin(7);
    check(&rt, &free, &[8]);
    free.unpin(7);
    check(&rt, &free, &[3, 8]);
}
