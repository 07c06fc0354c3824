use crate::given::{holds, leaves, live, six};
use log_model::{Found, Mark};
use metric_laws::Meter;
use page_store::{ImagePages, PageFault};
use range_search::{laws, range};
use scan_model::Hit;
use std::process::Abort;
use tree_shape::Live;
use vector_kinds::L1;

// Asks for what lies within `r` of the number `q`, and counts the pages asked for and the distances computed.
fn ask(
    rt: &(impl AllocGlobal + Abort),
    bytes: &[u8],
    live: &Live,
    q: u32,
    r: u64,
) -> (Result<Found, PageFault>, u64, u64) {
    let mut pages = ImagePages::new(bytes, 1, live.pages.min(100));
    let mut ruler = Meter::new(L1::new(1));
    assert!(rt; metric_laws::Ruler::is_point(&ruler, &[q]));
    assert!(rt; live.pages <= 100);
    let found = range(rt.alloc(), &mut pages, &mut ruler, live, &[q], r);
    (found, pages.asked, ruler.used())
}

// Does so among the numbers 0 to 32, where nothing is refused.
fn find(rt: &(impl AllocGlobal + Abort), q: u32, r: u64) -> (Found, u64, u64) {
    let bytes = leaves(rt, 4);
    let (found, asked, used) = ask(rt, &bytes, &live(5, 6), q, r);
    (found.expect(rt, "found"), asked, used)
}

// Counts the marks of one kind.
fn count_in(marks: &[Mark], mark: Mark) -> usize {
    let mut count = 0usize;
    for one in marks {
        if *one == mark {
            count = count.saturating_add(1);
        }
    }
    count
}

// Counts the marks of one kind in the record at `record`.
fn count(found: &Found, record: usize, mark: Mark) -> usize {
    match found.log.records.as_slice().get(record) {
        Some(record) => count_in(record.marks.as_slice(), mark),
        None => 0,
    }
}

// Lists what lies within 2 of 0.
const NEAR: [Hit; 3] = [
    Hit { id: 0, dist: 0 },
    Hit { id: 1, dist: 1 },
    Hit { id: 2, dist: 2 },
];

#[test]
fn the_numbers_within_two_of_nought(rt: HostRuntime) {
    let (found, asked, used) = find(&rt, 0, 2);
    holds(&rt, (asked, used) == (2, 9));
    holds(&rt, found.hits.as_slice() == NEAR.as_slice());
    holds(&rt, count(&found, 0, Mark::Near) == 1);
    holds(&rt, count(&found, 0, Mark::Far) == 1);
    holds(&rt, count(&found, 1, Mark::Near) == 3);
    holds(&rt, count(&found, 1, Mark::Skip) == 9);
    holds(&rt, count(&found, 1, Mark::Far) == 4);
}

// Lists what lies within 2 of 17.
const AROUND: [Hit; 5] = [
    Hit { id: 17, dist: 0 },
    Hit { id: 16, dist: 1 },
    Hit { id: 18, dist: 1 },
    Hit { id: 15, dist: 2 },
    Hit { id: 19, dist: 2 },
];

#[test]
fn a_sphere_that_is_just_reached_is_opened(rt: HostRuntime) {
    let (found, asked, _) = find(&rt, 17, 2);
    holds(&rt, found.hits.as_slice() == AROUND.as_slice());
    holds(&rt, asked == 3);
}

// Says why a query at 0 is refused where the root names the page `child` six times.
fn refusal(rt: &(impl AllocGlobal + Abort), child: u32) -> Option<PageFault> {
    let bytes = six(rt, child);
    let (found, _, _) = ask(rt, &bytes, &live(3, 5), 0, 0);
    found.err()
}

#[test]
fn a_walk_is_refused_where_it_meets_a_fault(rt: HostRuntime) {
    laws::walk_has_one_course();
    holds(&rt, refusal(&rt, 4) == Some(PageFault::Repeats(4)));
    holds(&rt, refusal(&rt, 9) == Some(PageFault::Outside(9)));
}
