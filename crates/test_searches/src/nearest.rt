use crate::given::{holds, leaves, live, six};
use log_model::Found;
use metric_laws::Meter;
use nearest_search::nearest;
use page_store::{ImagePages, PageFault};
use scan_model::Hit;
use std::process::Abort;
use tree_shape::Live;
use vector_kinds::L1;

// Asks for the `k` objects nearest to the number `q`, and counts the pages asked for.
fn ask(
    rt: &(impl AllocGlobal + Abort),
    bytes: &[u8],
    live: &Live,
    q: u32,
    k: u64,
) -> (Result<Found, PageFault>, u64) {
    let mut pages = ImagePages::new(bytes, 1, live.pages.min(100));
    let mut ruler = Meter::new(L1::new(1));
    assert!(rt; metric_laws::Ruler::is_point(&ruler, &[q]));
    assert!(rt; live.pages <= 100);
    assert!(rt; k >= 1);
    let found = nearest(rt.alloc(), &mut pages, &mut ruler, live, &[q], k);
    (found, pages.asked)
}

// Does so among the numbers 0 to 32, where nothing is refused.
fn find(rt: &(impl AllocGlobal + Abort), q: u32, k: u64) -> (Found, u64) {
    let bytes = leaves(rt, 4);
    let (found, asked) = ask(rt, &bytes, &live(5, 6), q, k);
    (found.expect(rt, "found"), asked)
}

// Lists the two numbers nearest to 16.
const TIED: [Hit; 2] = [Hit { id: 16, dist: 0 }, Hit { id: 15, dist: 1 }];

#[test]
fn of_equal_distances_the_lower_id_comes_first(rt: HostRuntime) {
    let (found, asked) = find(&rt, 16, 2);
    holds(&rt, found.hits.as_slice() == TIED.as_slice());
    holds(&rt, found.log.records.as_slice().len() == 3);
    holds(&rt, asked == 3);
}

// Says whether `hits` are as far from 0 as their ids.
fn are_at_ids(hits: &[Hit]) -> bool {
    let mut is_so = true;
    for hit in hits {
        is_so = is_so && u64::from(hit.id) == hit.dist;
    }
    is_so
}

#[test]
fn all_objects_where_more_are_asked_for(rt: HostRuntime) {
    let (found, asked) = find(&rt, 0, 50);
    holds(&rt, found.hits.as_slice().len() == 33);
    holds(&rt, are_at_ids(found.hits.as_slice()));
    holds(&rt, asked == 3);
}

#[test]
fn a_leaf_that_is_too_far_is_not_read(rt: HostRuntime) {
    let (found, asked) = find(&rt, 3, 4);
    holds(&rt, found.hits.as_slice().len() == 4);
    holds(&rt, asked == 2);
}

// Says why a query at 0 is refused where the root names the page `child` six times.
fn refusal(rt: &(impl AllocGlobal + Abort), child: u32) -> Option<PageFault> {
    let bytes = six(rt, child);
    let (found, _) = ask(rt, &bytes, &live(3, 5), 0, 40);
    found.err()
}

#[test]
fn a_search_is_refused_where_it_meets_a_fault(rt: HostRuntime) {
    holds(&rt, refusal(&rt, 4) == Some(PageFault::Repeats(4)));
    holds(&rt, refusal(&rt, 9) == Some(PageFault::Outside(9)));
}
