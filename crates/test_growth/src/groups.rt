ghost use Rattle.std.specs.Prelude.{◌≡◌, ◌≤◌, ◌<◌, ◌^◌, ℕ, Bool, true, false, IfOk, IsTrue, All, length, slice_index};
ghost use Rattle.vector_kinds.specs.Vectors.{vector_space};

use crate::work::holds;
use bulk_load::groups;
use meeting::{Meeting, Seen, Threaded};
use metric_laws::Rows;
use std::alloc::{AllocError, Global};
use std::process::Abort;
use std::thread::Threads;
use tree_growth::Group;
use tree_shape::fill;

// Gives `count` points of one coordinate, each `step` above the one before, and their places.
pub fn line(alloc: Global, count: u32, step: u32) -> Result<(Rows, Vec<u32>), AllocError>
    requires count { count ≤ 1024 }
    requires step { step ≤ 1 }
    ensures points { IfOk result (λ r. length r.0.points ≡ count) }
    ensures fit { IfOk result (λ r. All (λ p. IsTrue ((vector_space 2 1).is_point p)) r.0.points) }
    ensures set { IfOk result (λ r. length r.1.items ≡ count) }
    ensures places { IfOk result (λ r. (k : ℕ) → k < count → slice_index r.1.items k ≡ k) }
{
    let mut points = Rows::new(alloc, 1);
    let mut set = Vec::new(alloc);
    for i in 0..count {
        points.push(&[i * step])?;
        set.push(i)?;
    }
    Ok((points, set))
}

// Gives the groups that a line's points make at level 1.
fn parted<R: AllocGlobal + Abort + Threads + Sync>(
    rt: &R,
    count: u32,
    step: u32,
    root: bool,
    workers: usize,
) -> Vec<Group>
    requires few { count ≤ 1024 }
    requires root { root ≡ true → 33 ≤ count }
    requires below { root ≡ false → 36 ≤ count }
    requires step { step ≤ 1 }
    requires some_workers { 1 ≤ workers }
    requires few_workers { workers ≤ 64 }
{
    let (points, set) = line(rt.alloc(), count, step).expect(rt, "memory");
    let seen = Seen::new();
    groups(
        &Threaded::new(rt),
        rt.alloc(),
        Meeting::of_none(&seen),
        workers,
        &points,
        set.as_slice(),
        1,
        root,
        &fill(1),
    )
    .expect(rt, "memory")
}

// Says whether groups have these seeds and members.
fn are_groups(found: &[Group], wanted: &[(u32, &[u32])]) -> bool {
    let mut is_so = found.len() == wanted.len();
    for (group, (seed, members)) in found.iter().zip(wanted) {
        is_so = is_so && group.seed == *seed && group.members.as_slice() == *members;
    }
    is_so
}

// Checks the groups that a line's points make, by one worker and by several.
fn check<R: AllocGlobal + Abort + Threads + Sync>(
    rt: &R,
    count: u32,
    step: u32,
    root: bool,
    wanted: &[(u32, &[u32])],
)
    requires few { count ≤ 1024 }
    requires root { root ≡ true → 33 ≤ count }
    requires below { root ≡ false → 36 ≤ count }
    requires step { step ≤ 1 }
{
    for workers in [1usize, 2, 64] {
        let found = parted(rt, count, step, root, workers);
        holds(rt, are_groups(found.as_slice(), wanted));
    }
}

// Gives the group of 0, which had five objects, the object 5. The objects 4 and 12 are as near to the next seed.
const NEAREST: [(u32, &[u32]); 4] = [
    (0, &[0, 1, 2, 3, 4, 5]),
    (8, &[6, 7, 8, 9, 10, 11, 12]),
    (16, &[13, 14, 15, 16, 17, 18, 19, 20]),
    (24, &[21, 22, 23, 24, 25, 26, 27, 28, 29, 30, 31, 32]),
];

#[test]
fn a_small_group_receives_its_nearest(rt: HostRuntime) {
    check(&rt, 33, 1, true, &NEAREST);
}

// Takes objects from the last group, which alone has more than six.
const LEAST: [(u32, &[u32]); 6] = [
    (0, &[0, 1, 2, 3, 28, 29]),
    (6, &[4, 5, 6, 7, 8, 9]),
    (12, &[10, 11, 12, 13, 14, 15]),
    (18, &[16, 17, 18, 19, 20, 21]),
    (24, &[22, 23, 24, 25, 26, 27]),
    (30, &[30, 31, 32, 33, 34, 35]),
];

#[test]
fn a_small_group_leaves_groups_of_the_least_alone(rt: HostRuntime) {
    check(&rt, 36, 1, false, &LEAST);
}

// Gives all but the seeds to the first group, which gives each other group five, lowest first.
const EQUAL: [(u32, &[u32]); 4] = [
    (
        0,
        &[0, 18, 19, 20, 21, 22, 23, 25, 26, 27, 28, 29, 30, 31, 32],
    ),
    (8, &[1, 2, 3, 4, 5, 8]),
    (16, &[6, 7, 9, 10, 11, 16]),
    (24, &[12, 13, 14, 15, 17, 24]),
];

#[test]
fn equal_points_go_by_their_places(rt: HostRuntime) {
    check(&rt, 33, 0, true, &EQUAL);
}
