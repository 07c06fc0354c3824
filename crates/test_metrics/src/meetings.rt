use meeting::{Meeting, Seen};
use metric_laws::Metric;
use vector_kinds::L1;

// The distance through the bound.
fn distance<M: Metric>(metric: M, a: &[u32], b: &[u32]) -> u64 {
    metric.dist(a, b)
}

#[test]
fn distances_are_those_of_l1(rt: HostRuntime) {
    let seen = Seen::new();
    let metric = Meeting {
        plain: L1::new(2),
        first: &[1, 2],
        second: &[3, 4],
        seen: &seen,
    };
    assert!(rt; metric.dimension() == 2);
    assert!(rt; (metric.is_point(&[9, 9]), metric.is_point(&[9])) == (true, false));
    assert!(rt; distance(metric, &[1, 2], &[3, 4]) == 4);
    assert!(rt; distance(metric, &[0, 9], &[5, 7]) == 7);
    assert!(rt; !seen.met());
}

#[test]
fn one_point_waits_in_vain_once(rt: HostRuntime) {
    let seen = Seen::new();
    let metric = Meeting {
        plain: L1::new(1),
        first: &[1],
        second: &[32],
        seen: &seen,
    };
    assert!(rt; distance(metric, &[1], &[0]) == 1);
    assert!(rt; distance(metric, &[0], &[32]) == 32);
    assert!(rt; distance(metric, &[1], &[5]) == 4);
    assert!(rt; !seen.met());
}
