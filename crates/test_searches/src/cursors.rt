use crate::given::{holds, leaves, torn_leaves};
use metric_laws::{Meter, Point, Ruler};
use node_page::NodeFault;
use page_store::{ImagePages, PageFault};
use pin_cursor::{Cursor, Stepped};
use scan_model::Hit;
use std::alloc::{AllocError, Global};
use std::process::Abort;
use tree_shape::Live;
use vector_kinds::L1;

// Describes the live tree of the numbers 0 to 32.
const LIVE: Live = Live {
    side: 0,
    generation: 1,
    root: 5,
    height: 1,
    count: 33,
    pages: 6,
};

// Opens a cursor at the number `q`.
fn try_cursor(alloc: Global, q: u32) -> Result<Cursor, AllocError> {
    Cursor::open(alloc, LIVE, Point::new(alloc, &[q])?)
}

// Does the same, and ends the test where memory is lacking.
fn cursor_at(rt: &(impl AllocGlobal + Abort), q: u32) -> Cursor {
    try_cursor(rt.alloc(), q).expect(rt, "memory")
}

// Takes the next `n` hits, and counts the pages asked for.
fn take(
    rt: &(impl AllocGlobal + Abort),
    bytes: &[u8],
    cursor: &mut Cursor,
    n: u64,
) -> (Result<Stepped, PageFault>, u64) {
    let mut pages = ImagePages::new(bytes, 1, 6);
    let mut ruler = Meter::new(L1::new(1));
    assert!(rt; ruler.is_point(cursor.point()));
    assert!(rt; n >= 1);
    let stepped = cursor.step(rt.alloc(), &mut pages, &mut ruler, n);
    (stepped, pages.asked)
}

// Takes the next `n` hits, where no step is refused.
fn given(rt: &(impl AllocGlobal + Abort), bytes: &[u8], cursor: &mut Cursor, n: u64) -> Stepped {
    let (stepped, _) = take(rt, bytes, cursor, n);
    stepped.expect(rt, "a step")
}

// Lists the numbers 0 to 32 by their distance from 16, then by number.
const FROM_SIXTEEN: [u32; 33] = [
    16, 15, 17, 14, 18, 13, 19, 12, 20, 11, 21, 10, 22, 9, 23, 8, 24, 7, 25, 6, 26, 5, 27, 4, 28,
    3, 29, 2, 30, 1, 31, 0, 32,
];

// Says whether `hits` have these ids and lie at their distances from 16.
fn are_from_sixteen(hits: &[Hit], ids: &[u32]) -> bool {
    let mut is_so = hits.len() == ids.len();
    for (hit, id) in hits.iter().zip(ids) {
        is_so = is_so && hit.id == *id && hit.dist == u64::from(id.abs_diff(16));
    }
    is_so
}

// Takes all hits of a cursor at 16, in 35 steps of `n` hits.
fn all_in_steps(
    rt: &(impl AllocGlobal + Abort),
    bytes: &[u8],
    cursor: &mut Cursor,
    n: u64,
) -> Vec<Hit> {
    let mut hits: Vec<Hit> = Vec::new(rt.alloc());
    for _ in 0..35 {
        let stepped = given(rt, bytes, cursor, n);
        hits.extend_from_slice(stepped.hits.as_slice())
            .expect(rt, "memory");
    }
    hits
}

// Checks that steps of `n` hits give all objects in order.
fn check_steps(rt: &(impl AllocGlobal + Abort), bytes: &[u8], n: u64) {
    let mut cursor = cursor_at(rt, 16);
    let hits = all_in_steps(rt, bytes, &mut cursor, n);
    holds(rt, are_from_sixteen(hits.as_slice(), &FROM_SIXTEEN));
    holds(rt, cursor.given() == 33);
}

#[test]
fn all_objects_come_in_order_in_steps_of_any_length(rt: HostRuntime) {
    let bytes = leaves(&rt, 4);
    for n in [1, 2, 5, 33, 100] {
        check_steps(&rt, &bytes, n);
    }
}

#[test]
fn each_hit_has_its_tag(rt: HostRuntime) {
    let bytes = leaves(&rt, 4);
    let mut cursor = cursor_at(&rt, 0);
    let stepped = given(&rt, &bytes, &mut cursor, 4);
    holds(
        &rt,
        stepped.tags.as_slice() == [100, 101, 102, 103].as_slice(),
    );
    holds(&rt, cursor.live() == LIVE);
}

// Checks how many hits the first step at `q` gives, and how many pages it asks for.
fn check_first(rt: &(impl AllocGlobal + Abort), bytes: &[u8], q: u32, n: u64, asked: u64) {
    let mut cursor = cursor_at(rt, q);
    let (stepped, count) = take(rt, bytes, &mut cursor, n);
    holds(rt, stepped.is_ok());
    holds(rt, (cursor.given(), count) == (n, asked));
}

#[test]
fn a_leaf_is_read_when_it_may_hold_the_next(rt: HostRuntime) {
    let bytes = leaves(&rt, 4);
    check_first(&rt, &bytes, 3, 4, 2);
    check_first(&rt, &bytes, 16, 1, 2);
    check_first(&rt, &bytes, 16, 2, 3);
    check_first(&rt, &bytes, 30, 3, 2);
    check_first(&rt, &bytes, 0, 33, 3);
}

// Says whether `hits` have these ids.
fn have_ids(hits: &[Hit], ids: &[u32]) -> bool {
    let mut is_so = hits.len() == ids.len();
    for (hit, id) in hits.iter().zip(ids) {
        is_so = is_so && hit.id == *id;
    }
    is_so
}

// Checks that the next hits of a cursor have these ids.
fn check_ids(rt: &(impl AllocGlobal + Abort), bytes: &[u8], cursor: &mut Cursor, ids: &[u32]) {
    let stepped = given(rt, bytes, cursor, ids.len() as u64);
    holds(rt, have_ids(stepped.hits.as_slice(), ids));
}

// Says why a step of `n` hits is refused.
fn step_fault(
    rt: &(impl AllocGlobal + Abort),
    bytes: &[u8],
    cursor: &mut Cursor,
    n: u64,
) -> Option<PageFault> {
    let (stepped, _) = take(rt, bytes, cursor, n);
    stepped.err()
}

// Damages the leaf of page 4 before the second step, which the third step finds whole.
#[test]
fn a_step_that_is_refused_leaves_the_cursor(rt: HostRuntime) {
    let good = leaves(&rt, 4);
    let torn = torn_leaves(&rt, 4 * 4096, 99);
    let mut cursor = cursor_at(&rt, 0);
    check_ids(&rt, &torn, &mut cursor, &[0, 1, 2]);
    let refused = step_fault(&rt, &torn, &mut cursor, 20);
    holds(&rt, refused == Some(PageFault::Bad(4, NodeFault::Kind)));
    holds(&rt, cursor.given() == 3);
    check_ids(&rt, &good, &mut cursor, &[3, 4]);
}

// Says why a step is refused where a root's second child is the page `second`.
fn refusal(rt: &(impl AllocGlobal + Abort), second: u32) -> Option<PageFault> {
    let bytes = leaves(rt, second);
    let mut cursor = cursor_at(rt, 0);
    step_fault(rt, &bytes, &mut cursor, 200)
}

#[test]
fn a_step_is_refused_where_it_meets_a_fault(rt: HostRuntime) {
    holds(&rt, refusal(&rt, 4) == None);
    holds(&rt, refusal(&rt, 9) == Some(PageFault::Outside(9)));
    holds(&rt, refusal(&rt, 5) == Some(PageFault::Repeats(5)));
}
