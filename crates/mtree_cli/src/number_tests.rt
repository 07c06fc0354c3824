use crate::log_tests::{HEAD, blank, check_given, place};
use crate::runs::{disk, with_logs};
use std::alloc::{AllocError, Global};
use std::process::Abort;
use std::thread::Threads;

const SKIP: u8 = 0;

const FAR: u8 = 1;

const NEAR: u8 = 2;

// Places a leaf of the numbers from the first of `numbers` up to the second, below a routing point.
fn place_leaf(file: &mut [u8], page: u8, numbers: (u8, u8), routing: u8) {
    let (first, end) = numbers;
    let start = usize::from(page) * 4096;
    place(file, start + 3, &[end.saturating_sub(first)]);
    for number in first..end {
        let at = start + 16 + usize::from(number.saturating_sub(first)) * 24;
        place(file, at + 3, &[number]);
        place(file, at + 11, &[number]);
        place(file, at + 19, &[number.abs_diff(routing)]);
        place(file, at + 23, &[number]);
    }
}

// Gives the index of the numbers 0 to 32 under L1 as inserts make it. The root on page 6 has the routing points 7 and 24.
// Below 7 the numbers up to 15 lie on page 4, within `radius`. Below 24 the others lie on page 5, within 8.
fn index_of_numbers(rt: &(impl AllocGlobal + Abort), generation: u8, radius: u8) -> Vec<u8> {
    let mut file = blank(rt, 7);
    place(&mut file, 0, &HEAD);
    place(&mut file, 11, &[1]);
    place(&mut file, 8192, &[0xa5]);
    place(&mut file, 8192 + 15, &[generation]);
    place(
        &mut file,
        8192 + 19,
        &[6, 0, 0, 0, 1, 0, 0, 0, 33, 0, 0, 0, 7],
    );
    place_leaf(&mut file, 4, (0, 16), 7);
    place_leaf(&mut file, 5, (16, 33), 24);
    let root = 6 * 4096;
    place(&mut file, root, &[1, 0, 0, 2]);
    place(&mut file, root + 19, &[4]);
    place(&mut file, root + 27, &[radius]);
    place(&mut file, root + 39, &[7]);
    place(&mut file, root + 43, &[5]);
    place(&mut file, root + 51, &[8]);
    place(&mut file, root + 63, &[24]);
    file
}

// Describes a record: a page, and its marks with how often each comes.
type Record = (u8, &'static [(u8, u8)]);

// Counts the marks of a record.
fn count_of(record: &Record) -> u8 {
    let mut count = 0u8;
    for (_, times) in record.1 {
        count = count.saturating_add(*times);
    }
    count
}

// Adds a record to a log.
fn push_record(log: &mut Vec<u8>, record: &Record) -> Result<(), AllocError> {
    log.extend_from_slice(&[0, 0, 0, record.0, count_of(record)])?;
    for (mark, times) in record.1 {
        for _ in 0..*times {
            log.push(*mark)?;
        }
    }
    Ok(())
}

// Gives the log of the range of 2 about `x`. It has three answers.
fn log_of(
    alloc: Global,
    x: u8,
    answers: &[u8; 3],
    records: &[Record],
) -> Result<Vec<u8>, AllocError> {
    let mut log = Vec::new(alloc);
    log.extend_from_slice(b"MTLG\x01\x01\0\0\0\0\0\0\0\x22\0\0\0\x06\0\0\0\0\0\0\0\x02\x01\0\0\0")?;
    log.extend_from_slice(&[x, 0, 0, 0, 3])?;
    for answer in answers {
        log.extend_from_slice(&[0, 0, 0, *answer, 0, 0, 0, 0, 0, 0, 0, answer.abs_diff(x)])?;
    }
    log.extend_from_slice(&[0, 0, 0, records.len().min(255) as u8])?;
    for record in records {
        push_record(&mut log, record)?;
    }
    Ok(log)
}

// Gives the frame of a log.
fn framed(rt: &(impl AllocGlobal + Abort), log: &[u8]) -> Vec<u8> {
    let mut frame = Vec::new(rt.alloc());
    frame
        .extend_from_slice(&[0, 0, 0, 0, 0, 0, 0, log.len().min(255) as u8])
        .expect(rt, "memory");
    frame.extend_from_slice(log).expect(rt, "memory");
    frame
}

// Gives the frame of the log of the range of 2 about `x`, with these answers and records.
fn frame_of(
    rt: &(impl AllocGlobal + Abort),
    x: u8,
    answers: &[u8; 3],
    records: &[Record],
) -> Vec<u8> {
    let log = log_of(rt.alloc(), x, answers, records).expect(rt, "memory");
    framed(rt, &log)
}

// Runs a command on the index of numbers and on a frame.
fn check<R: AllocGlobal + Abort + Threads + Sync>(
    rt: &R,
    command: &str,
    file: (u8, u8),
    frame: &[u8],
    ended: (u8, &str),
) {
    let (generation, radius) = file;
    let bytes = index_of_numbers(rt, generation, radius);
    let mut index = disk(rt, &bytes, None);
    check_given(rt, &with_logs(command, frame), &mut index, ended);
}

// Runs a command on the index of numbers and on the frame of a range of 2 about 0.
fn check_about_zero<R: AllocGlobal + Abort + Threads + Sync>(
    rt: &R,
    command: &str,
    generation: u8,
    records: &[Record],
    ended: (u8, &str),
) {
    let frame = frame_of(rt, 0, &[0, 1, 2], records);
    check(rt, command, (generation, 8), &frame, ended);
}

const AUDIT: &str = "audit a.mt";

const SHAPE: &str = "shape a.mt";

const VERIFY: &str = "verify a.mt --log a.log";

const CHECK: &str = "check a.mt --log a.log";

const ACCEPTED: (u8, &str) = (0, "frame 0 accepted\nlog accepted, file not audited\n");

// Have the least marks of the range of 2 about 0.
const ROOT: Record = (6, &[(NEAR, 1), (FAR, 1)]);

const LEAF: Record = (4, &[(NEAR, 3), (SKIP, 9), (FAR, 4)]);

const LEAST: [Record; 2] = [ROOT, LEAF];

// Marks an object Far that could be skipped.
const FARTHER: [Record; 2] = [ROOT, (4, &[(NEAR, 3), (FAR, 1), (SKIP, 8), (FAR, 4)])];

// Opens the second leaf too.
const WIDE: [Record; 3] = [(6, &[(NEAR, 2)]), LEAF, (5, &[(FAR, 17)])];

// Marks an object Far that is near.
const WRONG: [Record; 2] = [ROOT, (4, &[(NEAR, 2), (FAR, 1), (SKIP, 9), (FAR, 4)])];

#[test]
fn wider_logs_and_wrong_marks(rt: HostRuntime) {
    let complete = (
        0,
        "file sound\nframe 0 complete\nrange,2,0\nhits 3\n0 0\n1 1\n2 2\nlog complete\n",
    );
    check_about_zero(&rt, CHECK, 34, &LEAST, complete);
    check_about_zero(&rt, VERIFY, 34, &FARTHER, ACCEPTED);
    check_about_zero(&rt, VERIFY, 34, &WIDE, ACCEPTED);
    let rejected = (1, "frame 0 rejected wrongmark 1 2\nlog rejected\n");
    check_about_zero(&rt, VERIFY, 34, &WRONG, rejected);
}

// Needs only the second leaf for the range of 2 about 32.
const LAST: [Record; 2] = [
    (6, &[(FAR, 1), (NEAR, 1)]),
    (5, &[(FAR, 3), (SKIP, 11), (NEAR, 3)]),
];

// Checks the index in which the first leaf's radius is too small, and the log of the range of 2 about 32 on it.
fn check_small<R: AllocGlobal + Abort + Threads + Sync>(rt: &R) {
    let frame = frame_of(rt, 32, &[32, 31, 30], &LAST);
    let small = (1, "rejected radius 6 0 15\n");
    check(rt, AUDIT, (34, 7), &[], small);
    check(rt, VERIFY, (34, 7), &frame, ACCEPTED);
    let small = (1, "file rejected radius 6 0 15\n");
    check(rt, CHECK, (34, 7), &frame, small);
}

#[test]
fn a_later_state_and_a_radius_too_small(rt: HostRuntime) {
    let sound = (0, "sound\nobjects 33\nnodes 3\n");
    check(&rt, AUDIT, (34, 8), &[], sound);
    let shape = "height 1\nobjects 33\nnodes 3\n1 2 - -\n0 16 7 8\n0 17 24 8\n";
    check(&rt, SHAPE, (34, 8), &[], (0, shape));
    let other = (1, "frame 0 rejected otherstate 34 6 35 6\nlog rejected\n");
    check_about_zero(&rt, VERIFY, 35, &LEAST, other);
    check_small(&rt);
}
