use crate::runs::{Given, check_run, disk, with_input, with_logs};
use disk_model::{MemoryDisk, SharedDisk};
use std::alloc::{AllocError, Global};
use std::process::Abort;
use std::thread::Threads;

// Runs words on one index, and checks how they end.
pub fn check_given<R: AllocGlobal + Abort + Threads + Sync, D: SharedDisk>(
    rt: &R,
    given: &Given<'_>,
    index: &mut D,
    ended: (u8, &str),
) {
    let _logs = check_run(rt, given, index, ended);
}

// Runs words that are given an input.
pub fn check_words<R: AllocGlobal + Abort + Threads + Sync, D: SharedDisk>(
    rt: &R,
    words: &str,
    input: &str,
    index: &mut D,
    ended: (u8, &str),
) {
    check_given(rt, &with_input(words, input), index, ended);
}

// Are the fields of the pages of a small index: an insert of (3, 4) into an empty one under L1.
pub const HEAD: [u8; 20] = *b"MTREEIDX\0\x02\x02\x02\x02\x01\0\0\x01\0\0\0";

const FIRST: [u8; 32] = [
    0xa5, 0, 0, 0, 0, 0, 0, 0, 0, 0, 0, 0, 0, 0, 0, 1, 0, 0, 0, 3, 0, 0, 0, 0, 0, 0, 0, 0, 0, 0, 0,
    4,
];

const SECOND: [u8; 32] = [
    0xa5, 0, 0, 0, 0, 0, 0, 0, 0, 0, 0, 0, 0, 0, 0, 2, 0, 0, 0, 4, 0, 0, 0, 0, 0, 0, 0, 1, 0, 0, 0,
    5,
];

const LEAF: [u8; 44] = [
    0, 0, 0, 1, 0, 0, 0, 0, 0, 0, 0, 0, 0, 0, 0, 0, 0, 0, 0, 0, 0, 0, 0, 0, 0, 0, 0, 0, 0, 0, 0, 0,
    0, 0, 0, 0, 0, 0, 0, 3, 0, 0, 0, 4,
];

// Is the frame of the log of `range,7,0,0` on it.
const FRAME: [u8; 69] = [
    0, 0, 0, 0, 0, 0, 0, 61, 0x4d, 0x54, 0x4c, 0x47, 1, 1, 0, 0, 0, 0, 0, 0, 0, 2, 0, 0, 0, 4, 0,
    0, 0, 0, 0, 0, 0, 7, 2, 0, 0, 0, 0, 0, 0, 0, 0, 0, 0, 0, 1, 0, 0, 0, 0, 0, 0, 0, 0, 0, 0, 0, 7,
    0, 0, 0, 1, 0, 0, 0, 4, 1, 2,
];

// Puts `bytes` into a file.
pub fn place(file: &mut [u8], at: usize, bytes: &[u8]) {
    for i in 0..bytes.len() {
        if let Some(byte) = file.get_mut(at.saturating_add(i)) {
            *byte = bytes[i];
        }
    }
}

// Gives `pages` pages of zeros, at most 7.
pub fn blank(rt: &(impl AllocGlobal + Abort), pages: usize) -> Vec<u8> {
    vec![in rt.alloc(); 0u8; pages.min(7) * 4096].expect(rt, "memory")
}

// Gives the small index.
pub fn small_index(rt: &(impl AllocGlobal + Abort)) -> Vec<u8> {
    let mut file = blank(rt, 5);
    place(&mut file, 0, &HEAD);
    place(&mut file, 4096, &FIRST);
    place(&mut file, 8192, &SECOND);
    place(&mut file, 16384, &LEAF);
    file
}

// Describes a run on the small index and on `frames` frames of its log. The last frame has `size` bytes. Bytes of the index
// and of the last log are changed at their places. The disk fails from one call on, and one call of the logs and of out
// fails. The run ends with a status, and writes `output`.
#[derive(Clone, Copy)]
struct Case<'a> {
    command: &'a str,
    frames: usize,
    size: usize,
    file_change: Option<(usize, u8)>,
    log_change: &'a [(usize, u8)],
    disk_stop: Option<u64>,
    log_fails: Option<u64>,
    out_fails: Option<u64>,
    status: u8,
    output: &'a str,
}

// Accepts a log.
const VERIFY: Case<'static> = Case {
    command: "verify a.mt --log a.log",
    frames: 1,
    size: 69,
    file_change: None,
    log_change: &[],
    disk_stop: None,
    log_fails: None,
    out_fails: None,
    status: 0,
    output: "frame 0 accepted\nlog accepted, file not audited\n",
};

// Finds a log complete.
const CHECK: Case<'static> = Case {
    command: "check a.mt --log a.log",
    output: "file sound\nframe 0 complete\nrange,7,0,0\nhits 1\n0 7\nlog complete\n",
    ..VERIFY
};

// Tells the shape of the index, which takes no logs.
const SHAPE: Case<'static> = Case {
    command: "shape a.mt",
    output: "height 0\nobjects 1\nnodes 1\n0 1 - -\n",
    ..VERIFY
};

// Makes the index of a case.
fn index_of(rt: &(impl AllocGlobal + Abort), case: &Case<'_>) -> MemoryDisk {
    let mut file = small_index(rt);
    if let Some((at, byte)) = case.file_change {
        place(&mut file, at, &[byte]);
    }
    disk(rt, &file, case.disk_stop)
}

// Changes bytes of the last log, which begins at `last`.
fn change(logs: &mut [u8], last: usize, changes: &[(usize, u8)]) {
    for (at, byte) in changes {
        if *at < 61 {
            place(logs, last.saturating_add(8 + *at), &[*byte]);
        }
    }
}

// Gives the logs of a case.
fn try_logs(alloc: Global, case: &Case<'_>) -> Result<Vec<u8>, AllocError> {
    let mut logs = Vec::new(alloc);
    let mut last = 0;
    for _ in 0..case.frames {
        last = logs.len();
        logs.extend_from_slice(&FRAME)?;
    }
    change(&mut logs, last, case.log_change);
    logs.truncate(last.saturating_add(case.size));
    Ok(logs)
}

// Runs a case.
fn check<R: AllocGlobal + Abort + Threads + Sync>(rt: &R, case: &Case<'_>) {
    let logs = try_logs(rt.alloc(), case).expect(rt, "memory");
    let given = Given {
        logs_fail: case.log_fails,
        out_fails: case.out_fails,
        ..with_logs(case.command, &logs)
    };
    let mut index = index_of(rt, case);
    check_given(rt, &given, &mut index, (case.status, case.output));
}

const DAMAGED_SHAPE: Case<'static> = Case {
    file_change: Some((16384, 15)),
    status: 9,
    output: "fault damaged bad 4 kind\n",
    ..SHAPE
};

const NO_DISK: Case<'static> = Case {
    disk_stop: Some(0),
    status: 5,
    output: "fault disk\n",
    ..SHAPE
};

const NO_OUT: Case<'static> = Case {
    out_fails: Some(0),
    status: 4,
    output: "",
    ..SHAPE
};

#[test]
fn the_shape_of_an_index(rt: HostRuntime) {
    check(&rt, &SHAPE);
    check(&rt, &DAMAGED_SHAPE);
    check(&rt, &NO_DISK);
    check(&rt, &NO_OUT);
}

// Tells the numbers of the index.
const STATS: Case<'static> = Case {
    command: "stats a.mt",
    output: concat!(
        "metric l1\ndim 2\npromote mmrad\nsplit hyperplane\nmax 16777216\ngeneration 2\nobjects 1\nheight 0\n",
        "nodes 1\npages 5\nfree 1\nbytes 20480\nlevel 0 nodes 1 entries 1 1 1 radius -\n",
    ),
    ..VERIFY
};

// Gives the index as a script.
const DUMP: Case<'static> = Case {
    command: "dump a.mt",
    output: "tload,1\n0,3,4\n",
    ..VERIFY
};

// Has an object with an id that is not below the number of objects.
const WRONG_ID: Case<'static> = Case {
    file_change: Some((16384 + 19, 7)),
    status: 9,
    output: "fault damaged id 7\n",
    ..DUMP
};

// Shows a log.
const SHOW: Case<'static> = Case {
    command: "show a.mt --log a.log",
    output: concat!(
        "frame 0 accepted\nrange,7,0,0\nhits 1\n0 7\nnode 4 level 0\n  0 object 0 near 7 <= 7\n",
        "opened 1 of 1 nodes, 1 distances\nlog accepted, file not audited\n",
    ),
    ..VERIFY
};

// Shows the wrong mark of a log that is rejected.
const SHOW_WRONG: Case<'static> = Case {
    log_change: &[(60, 1)],
    status: 1,
    output: concat!(
        "frame 0 rejected wrongmark 0 0\nrange,7,0,0\nhits 1\n0 7\nnode 4 level 0\n  0 object 0 far 7 <= 7\n",
        "opened 1 of 1 nodes, 1 distances\nlog rejected\n",
    ),
    ..SHOW
};

// Counts the marks of a log.
const COUNT: Case<'static> = Case {
    command: "show a.mt --log a.log --marks count",
    output: concat!(
        "frame opened nodes skip far near distances verdict\n0 1 1 0 0 1 1 accepted\n",
        "log accepted, file not audited\n",
    ),
    ..SHOW
};

#[test]
fn the_contents_of_an_index(rt: HostRuntime) {
    check(&rt, &STATS);
    check(&rt, &DUMP);
    check(&rt, &WRONG_ID);
}

#[test]
fn the_walks_of_logs(rt: HostRuntime) {
    check(&rt, &SHOW);
    check(&rt, &SHOW_WRONG);
    check(&rt, &COUNT);
}

const NO_FRAMES: Case<'static> = Case {
    frames: 0,
    size: 0,
    output: "log accepted, file not audited\n",
    ..VERIFY
};

const NO_FRAMES_CHECKED: Case<'static> = Case {
    frames: 0,
    size: 0,
    output: "file sound\nlog complete\n",
    ..CHECK
};

// Checks the log of `nearest,1,0,0`.
const NEAREST: Case<'static> = Case {
    log_change: &[(5, 2), (25, 1)],
    output: "file sound\nframe 0 complete\nnearest,1,0,0\nhits 1\n0 7\nlog complete\n",
    ..CHECK
};

#[test]
fn logs_that_are_accepted(rt: HostRuntime) {
    check(&rt, &VERIFY);
    check(&rt, &CHECK);
    check(&rt, &NO_FRAMES);
    check(&rt, &NO_FRAMES_CHECKED);
    check(&rt, &NEAREST);
}

// Describes a byte of the log that is changed, and the lines of `verify` and of `check`.
type Rejected = (&'static [(usize, u8)], &'static str, &'static str);

const REJECTED: [Rejected; 7] = [
    (
        &[(35, 255)],
        "log rejected cut\n",
        "file sound\nlog rejected cut\n",
    ),
    (
        &[(60, 3)],
        "log rejected mark\n",
        "file sound\nlog rejected mark\n",
    ),
    (
        &[(59, 0)],
        "log rejected tail\n",
        "file sound\nlog rejected tail\n",
    ),
    (
        &[(60, 1)],
        "frame 0 rejected wrongmark 0 0\nlog rejected\n",
        "file sound\nframe 0 rejected wrongmark 0 0\nlog rejected\n",
    ),
    (
        &[(50, 8)],
        "frame 0 rejected wronganswer 0\nlog rejected\n",
        "file sound\nframe 0 rejected wronganswer 0\nlog rejected\n",
    ),
    (
        &[(17, 3)],
        "frame 0 rejected otherstate 2 3 2 4\nlog rejected\n",
        "file sound\nframe 0 rejected otherstate 2 3 2 4\nlog rejected\n",
    ),
    (
        &[(58, 3)],
        "frame 0 rejected wrongpage 0\nlog rejected\n",
        "file sound\nframe 0 rejected wrongpage 0\nlog rejected\n",
    ),
];

// Checks that a log is rejected in which a byte is changed.
fn check_rejected<R: AllocGlobal + Abort + Threads + Sync>(rt: &R, rejected: &Rejected) {
    let (log_change, verified, checked) = *rejected;
    let verify = Case {
        log_change,
        status: 1,
        output: verified,
        ..VERIFY
    };
    check(rt, &verify);
    let checking = Case {
        log_change,
        status: 1,
        output: checked,
        ..CHECK
    };
    check(rt, &checking);
}

#[test]
fn logs_that_are_rejected(rt: HostRuntime) {
    for rejected in &REJECTED {
        check_rejected(&rt, rejected);
    }
}

const CUT: Case<'static> = Case {
    size: 68,
    status: 1,
    output: "log rejected cut\n",
    ..VERIFY
};

const SECOND_FRAME: Case<'static> = Case {
    frames: 2,
    log_change: &[(60, 1)],
    status: 1,
    output: "frame 0 accepted\nframe 1 rejected wrongmark 0 0\nlog rejected\n",
    ..VERIFY
};

#[test]
fn a_cut_file_of_logs_and_a_second_frame(rt: HostRuntime) {
    check(&rt, &CUT);
    check(&rt, &SECOND_FRAME);
}

// Checks what `verify` and `check` say of the index in which the byte at `at` is `byte`.
fn check_file<R: AllocGlobal + Abort + Threads + Sync>(
    rt: &R,
    at: usize,
    byte: u8,
    verified: (u8, &str),
    checked: (u8, &str),
) {
    let verify = Case {
        file_change: Some((at, byte)),
        status: verified.0,
        output: verified.1,
        ..VERIFY
    };
    check(rt, &verify);
    let checking = Case {
        file_change: Some((at, byte)),
        status: checked.0,
        output: checked.1,
        ..CHECK
    };
    check(rt, &checking);
}

// Rejects an index that is not sound, one that lost its root's page, and one of version 1.
#[test]
fn files_that_are_rejected(rt: HostRuntime) {
    let unsound = (1, "file rejected count 2 1\n");
    check_file(&rt, 8219, 2, (0, VERIFY.output), unsound);
    let lost = (1, "frame 0 rejected page bad 4 kind\nlog rejected\n");
    let page = (1, "file rejected page bad 4 kind\n");
    check_file(&rt, 16384, 15, lost, page);
    let version = (6, "fault notindex version\n");
    check_file(&rt, 9, 1, version, version);
}

// Describes the call from which the disk fails, the calls of the logs and of out that fail, the status, and what is
// written.
type Failing = (Option<u64>, Option<u64>, Option<u64>, u8, &'static str);

const FAILING: [Failing; 8] = [
    (None, Some(0), None, 3, "fault input\n"),
    (None, Some(1), None, 3, "fault input\n"),
    (Some(0), Some(2), None, 3, "fault input\n"),
    (None, None, Some(0), 4, ""),
    (None, None, Some(1), 4, "file sound\n"),
    (Some(0), None, None, 5, "fault disk\n"),
    (Some(4), None, None, 5, "fault disk\n"),
    (Some(5), None, None, 5, "file sound\nfault disk\n"),
];

// Checks a log on devices that fail.
fn check_failing<R: AllocGlobal + Abort + Threads + Sync>(rt: &R, failing: &Failing) {
    let (disk_stop, log_fails, out_fails, status, output) = *failing;
    let case = Case {
        disk_stop,
        log_fails,
        out_fails,
        status,
        output,
        ..CHECK
    };
    check(rt, &case);
}

#[test]
fn devices_that_fail(rt: HostRuntime) {
    for failing in &FAILING {
        check_failing(&rt, failing);
    }
}
