use crate::log_tests::{HEAD, blank, place};
use crate::runs::{check_both, disk, with_logs};
use std::process::Abort;
use std::thread::Threads;

// Puts the head and the live slot of an index over points of one coordinate: its root, its height, and its numbers of
// objects and of pages.
fn put_front(file: &mut [u8], root: u8, height: u8, count: u8, pages: u8) {
    place(file, 0, &HEAD);
    place(file, 11, &[1]);
    place(file, 4096, &[0xa5]);
    place(file, 4096 + 15, &[1]);
    place(file, 4096 + 19, &[root]);
    place(file, 4096 + 23, &[height]);
    place(file, 4096 + 27, &[count]);
    place(file, 4096 + 31, &[pages]);
}

// Puts an entry on a page: its id or child, its radius, its distance to the routing point above it, and its point.
fn put_entry(file: &mut [u8], page: usize, place_on: usize, [id, radius, parent, point]: [u8; 4]) {
    let at = page
        .saturating_mul(4096)
        .saturating_add(place_on.saturating_mul(24));
    place(file, at.saturating_add(19), &[id]);
    place(file, at.saturating_add(27), &[radius]);
    place(file, at.saturating_add(35), &[parent]);
    place(file, at.saturating_add(39), &[point]);
}

// Gives an index with these objects in one leaf.
fn one_leaf(rt: &(impl AllocGlobal + Abort), points: &[u8]) -> Vec<u8> {
    let mut file = blank(rt, 4);
    let count = points.len().min(32);
    put_front(&mut file, 3, 0, count as u8, 4);
    place(&mut file, 3 * 4096 + 3, &[count as u8]);
    for i in 0..count {
        put_entry(&mut file, 3, i, [i as u8, 0, 0, points[i]]);
    }
    file
}

// Puts a leaf of `count` numbers from `first` on, below the routing point `centre`.
fn put_leaf(file: &mut [u8], page: usize, first: u8, count: u8, centre: u8) {
    let at = page.saturating_mul(4096);
    place(file, at.saturating_add(3), &[count]);
    for i in 0..count {
        let id = first.saturating_add(i);
        put_entry(file, page, usize::from(i), [id, 0, id.abs_diff(centre), id]);
    }
}

// Gives an index with the numbers 0 to 32 in two leaves.
fn two_leaves(rt: &(impl AllocGlobal + Abort)) -> Vec<u8> {
    let mut file = blank(rt, 6);
    put_front(&mut file, 5, 1, 33, 6);
    put_leaf(&mut file, 3, 0, 16, 7);
    put_leaf(&mut file, 4, 16, 17, 24);
    place(&mut file, 5 * 4096, &[1, 0, 0, 2]);
    put_entry(&mut file, 5, 0, [3, 8, 0, 7]);
    put_entry(&mut file, 5, 1, [4, 8, 0, 24]);
    file
}

// Is two files.
#[derive(Clone, Copy)]
struct Files<'a> {
    index: &'a [u8],
    other: &'a [u8],
}

// Runs a command on two files and on logs, and gives what it put to the log's output.
fn logs_of<R: AllocGlobal + Abort + Threads + Sync>(
    rt: &R,
    command: &str,
    files: &Files<'_>,
    logs: &[u8],
    ended: (u8, &str),
) -> Vec<u8> {
    let mut index = disk(rt, files.index, None);
    let mut other = disk(rt, files.other, None);
    let given = with_logs(command, logs);
    check_both(rt, &given, &mut index, &mut other, ended)
}

// Runs a command on two files and on logs, and checks how it ends.
fn check<R: AllocGlobal + Abort + Threads + Sync>(
    rt: &R,
    command: &str,
    files: &Files<'_>,
    logs: &[u8],
    ended: (u8, &str),
) {
    let _logs = logs_of(rt, command, files, logs, ended);
}

const VERIFY: &str = "verify a.mt --other b.mt --log c.log";

const CHECK: &str = "check a.mt --other b.mt --log c.log";

// Checks a join of two files, and its log.
fn check_join<R: AllocGlobal + Abort + Threads + Sync>(rt: &R, files: &Files<'_>) {
    let pairs = (0, "pairs 2\n1 0 1\n2 1 0\n");
    let join = "join a.mt --other b.mt --radius 1";
    let logged = "join a.mt --other b.mt --radius 1 --log c.log";
    let log = logs_of(rt, logged, files, &[], pairs);
    check(rt, join, files, &[], pairs);
    let accepted = (0, "frame 0 accepted\nlog accepted, file not audited\n");
    check(rt, VERIFY, files, &log, accepted);
    let complete =
        "file sound\nother sound\nframe 0 complete\njoin,1\npairs 2\n1 0 1\n2 1 0\nlog complete\n";
    check(rt, CHECK, files, &log, (0, complete));
}

#[test]
fn a_join_and_its_log(rt: HostRuntime) {
    let index = one_leaf(&rt, &[0, 5, 9]);
    let other = one_leaf(&rt, &[4, 9]);
    let files = Files {
        index: &index,
        other: &other,
    };
    check_join(&rt, &files);
}

// Gives an index over points of two coordinates.
fn other_space(rt: &(impl AllocGlobal + Abort)) -> Vec<u8> {
    let mut file = one_leaf(rt, &[4, 9]);
    place(&mut file, 11, &[2]);
    file
}

#[test]
fn files_of_different_spaces(rt: HostRuntime) {
    let index = one_leaf(&rt, &[0, 5, 9]);
    let other = other_space(&rt);
    let files = Files {
        index: &index,
        other: &other,
    };
    let spaces = (1, "rejected spaces\n");
    let join = "join a.mt --other b.mt --radius 1";
    check(&rt, join, &files, &[], spaces);
    check(&rt, VERIFY, &files, &[], spaces);
    check(&rt, CHECK, &files, &[], spaces);
}

// Checks a join of a tree of height 1 with one of height 0, and its log.
fn check_heights<R: AllocGlobal + Abort + Threads + Sync>(rt: &R, files: &Files<'_>) {
    let join = "join a.mt --other b.mt --radius 8 --log c.log";
    let log = logs_of(rt, join, files, &[], (0, "pairs 1\n32 0 8\n"));
    let complete =
        "file sound\nother sound\nframe 0 complete\njoin,8\npairs 1\n32 0 8\nlog complete\n";
    check(rt, CHECK, files, &log, (0, complete));
}

#[test]
fn a_join_of_two_heights(rt: HostRuntime) {
    let index = two_leaves(&rt);
    let other = one_leaf(&rt, &[40]);
    let files = Files {
        index: &index,
        other: &other,
    };
    check_heights(&rt, &files);
}
