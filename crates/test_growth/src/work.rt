ghost use Rattle.std.specs.Prelude.{◌≡◌, ◌≤◌, ◌*◌, ◌^◌, length, IfOk};

use meeting::{Meeting, Seen};
use metric_laws::Rows;
use par_work::{Job, fork, rows, share};
use std::alloc::{AllocError, Global};
use std::process::Abort;
use std::thread::Threads;
use vector_kinds::L1;

// Ends a test in which `is_so` is false.
pub(crate) fn holds(rt: &impl Abort, is_so: bool) {
    assert!(rt; is_so);
}

// Lists numbers of workers: one, some, and more than there are places.
const WORKERS: [usize; 4] = [1, 2, 3, 64];

// Gives the numbers below `count` as points.
fn line(alloc: Global, count: u32) -> Result<Rows, AllocError>
    ensures { IfOk result (λ points. length points.points ≡ count) }
{
    let mut points = Rows::new(alloc, 1);
    for x in 0..count {
        points.push(&[x])?;
    }
    Ok(points)
}

// Says whether `found` are the distances of the numbers 0 to 32 from 0 and from 32, in turn.
fn are_rows(found: &[u64]) -> bool {
    let mut is_so = found.len() == 66;
    for (i, dist) in found.iter().enumerate() {
        let x = i as u64 / 2;
        let other = 32u64.saturating_sub(x);
        is_so = is_so && *dist == if i % 2 == 0 { x } else { other };
    }
    is_so
}

// Checks the distances of the numbers 0 to 32 from 0 and from 32, and those of no point from none.
fn check_rows<R: AllocGlobal + Abort + Threads + Sync>(rt: &R, workers: usize)
    requires some { 1 ≤ workers }
    requires few { workers ≤ 64 }
{
    let alloc = rt.alloc();
    let points = line(alloc, 33).expect(rt, "memory");
    let found = rows(rt, alloc, L1::new(1), &points, &[0, 32], workers).expect(rt, "memory");
    holds(rt, are_rows(found.as_slice()));
    let none = Rows::new(alloc, 1);
    let found = rows(rt, alloc, L1::new(1), &none, &[], workers).expect(rt, "memory");
    holds(rt, found.len() == 0);
}

#[test]
fn rows_are_the_double_loop_for_any_workers(rt: HostRuntime) {
    for workers in WORKERS {
        check_rows(&rt, workers);
    }
}

// Answers twice the place.
#[derive(Drop)]
struct Twice;

impl Job for Twice {
    type Out = usize;

    ghost places = { λ job. 2 ^ 32 };

    ghost answers = { λ job i x. x ≡ 2 * i };

    fn piece(&self, i: usize) -> usize {
        2 * i
    }
}

// Says whether `found` are the `count` first multiples of a step.
fn are_multiples(found: &[usize], count: usize, step: usize) -> bool {
    let mut is_so = found.len() == count;
    for (i, x) in found.iter().enumerate() {
        is_so = is_so && *x == i.saturating_mul(step);
    }
    is_so
}

// Checks the answers of `count` places by `workers` workers.
fn check_places<R: AllocGlobal + Abort + Threads + Sync>(rt: &R, count: usize, workers: usize)
    requires places { count ≤ 33 }
    requires some { 1 ≤ workers }
    requires few { workers ≤ 64 }
{
    let found = fork(rt, rt.alloc(), &Twice, count, workers).expect(rt, "memory");
    holds(rt, are_multiples(found.as_slice(), count, 2));
    let places = share(rt, rt.alloc(), count, workers, &|i| i).expect(rt, "memory");
    holds(rt, are_multiples(places.as_slice(), count, 1));
}

#[test]
fn places_are_answered_in_order_for_any_workers(rt: HostRuntime) {
    for workers in WORKERS {
        check_places(&rt, 0, workers);
        check_places(&rt, 1, workers);
        check_places(&rt, 33, workers);
    }
}

// Says whether two workers met over the numbers 0 to 32.
fn has_met<R: AllocGlobal + Abort + Threads + Sync>(rt: &R, workers: usize) -> bool
    requires some { 1 ≤ workers }
    requires few { workers ≤ 64 }
{
    let points = line(rt.alloc(), 33).expect(rt, "memory");
    let seen = Seen::new();
    let metric = Meeting {
        plain: L1::new(1),
        first: &[1],
        second: &[32],
        seen: &seen,
    };
    let _found = rows(rt, rt.alloc(), metric, &points, &[0], workers).expect(rt, "memory");
    seen.met()
}

#[test]
fn two_workers_of_rows_meet(rt: HostRuntime) {
    holds(&rt, has_met(&rt, 2));
    holds(&rt, !has_met(&rt, 1));
}

// Has two places that wait for one another.
#[derive(Drop)]
struct Pair<'a> {
    seen: &'a Seen,
}

impl Job for Pair<'_> {
    type Out = usize;

    ghost places = { λ job. 2 };

    ghost answers = { λ job i x. x ≡ i };

    fn piece(&self, i: usize) -> usize {
        self.seen.note(i == 0);
        i
    }
}

#[test]
fn two_workers_of_fork_meet(rt: HostRuntime) {
    let seen = Seen::new();
    let found = fork(&rt, rt.alloc(), &Pair { seen: &seen }, 2, 2).expect(&rt, "memory");
    holds(&rt, found.as_slice() == [0, 1].as_slice());
    holds(&rt, seen.met());
}
