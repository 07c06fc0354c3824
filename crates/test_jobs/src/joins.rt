use crate::files::{calls, disk_of, holds, place, sink_of};
use disk_model::{Disk, MemoryDisk};
use job_join::{check_join_logs, join_indexes, verify_join_logs};
use outside_io::{MemorySource, Sink, Source, Status};
use std::alloc::Global;
use std::process::Abort;

// Are the head of an index of points of one coordinate under L1, and its live slot but for the number of objects.
const HEAD: [u8; 20] = *b"MTREEIDX\0\x02\x02\x01\x02\x01\0\0\x01\0\0\0";

const SLOT: [u8; 32] = [
    0xa5, 0, 0, 0, 0, 0, 0, 0, 0, 0, 0, 0, 0, 0, 0, 1, 0, 0, 0, 3, 0, 0, 0, 0, 0, 0, 0, 0, 0, 0, 0,
    4,
];

// Is the frame of the least log of the join of {0, 5, 9} and {4, 9} within 1.
const FRAME: [u8; 127] = [
    0, 0, 0, 0, 0, 0, 0, 119, b'M', b'T', b'L', b'G', 1, 3, // the kind
    0, 0, 0, 0, 0, 0, 0, 1, 0, 0, 0, 3, // the left tree
    0, 0, 0, 0, 0, 0, 0, 1, 0, 0, 0, 3, // the right tree
    0, 0, 0, 0, 0, 0, 0, 1, // the radius
    0, 0, 0, 0, 0, 0, 0, 2, // the answers
    0, 0, 0, 1, 0, 0, 0, 0, 0, 0, 0, 0, 0, 0, 0, 1, //
    0, 0, 0, 2, 0, 0, 0, 1, 0, 0, 0, 0, 0, 0, 0, 0, //
    0, 0, 0, 0, 0, 0, 0, 4, // the records
    0, 0, 0, 0, 3, 3, 2, 2, 2, //
    1, 0, 0, 0, 3, 2, 1, 1, //
    1, 0, 0, 0, 3, 2, 2, 1, //
    1, 0, 0, 0, 3, 2, 1, 2,
];

// Gives an index with these objects in one leaf.
fn index_of(rt: &(impl AllocGlobal + Abort), points: &[u8]) -> Vec<u8> {
    let mut file = vec![in rt.alloc(); 0u8; 16384].expect(rt, "memory");
    let count = points.len().min(32);
    place(&mut file, 0, &HEAD);
    place(&mut file, 4096, &SLOT);
    place(&mut file, 4096 + 27, &[count as u8]);
    place(&mut file, 3 * 4096 + 3, &[count as u8]);
    for i in 0..count {
        let at = (3usize * 4096 + 16).saturating_add(i.saturating_mul(24));
        place(&mut file, at.saturating_add(3), &[i as u8]);
        place(&mut file, at.saturating_add(23), &[points[i]]);
    }
    file
}

// Is the job that is run.
#[derive(Clone, Copy)]
enum Job {
    Join,
    Verify,
    Check,
}

// Describes a run. A byte is changed in the index, in the other index or in the log, at its place. Each disk fails from one
// call on, and one call of the logs, of out and of the log's output fails. The run ends with a status, and writes `output`
// and the first `framed` bytes of the frame.
#[derive(Clone, Copy)]
struct Case<'a> {
    job: Job,
    index_change: Option<(usize, u8)>,
    other_change: Option<(usize, u8)>,
    log_change: Option<(usize, u8)>,
    index_stop: Option<u64>,
    other_stop: Option<u64>,
    log_in_fails: Option<u64>,
    out_fails: Option<u64>,
    log_out_fails: Option<u64>,
    status: u8,
    output: &'a str,
    framed: usize,
}

const JOIN: Case<'static> = Case {
    job: Job::Join,
    index_change: None,
    other_change: None,
    log_change: None,
    index_stop: None,
    other_stop: None,
    log_in_fails: None,
    out_fails: None,
    log_out_fails: None,
    status: 0,
    output: "pairs 2\n1 0 1\n2 1 0\n",
    framed: 127,
};

const VERIFY: Case<'static> = Case {
    job: Job::Verify,
    output: "frame 0 accepted\nlog accepted, file not audited\n",
    framed: 0,
    ..JOIN
};

const CHECK: Case<'static> = Case {
    job: Job::Check,
    output: "file sound\nother sound\nframe 0 complete\njoin,1\npairs 2\n1 0 1\n2 1 0\nlog complete\n",
    ..VERIFY
};

// Makes a disk that holds an index of these objects in which a byte is changed. All calls from `stop` on fail.
fn changed(
    rt: &(impl AllocGlobal + Abort),
    points: &[u8],
    change: Option<(usize, u8)>,
    stop: Option<u64>,
) -> MemoryDisk {
    let mut file = index_of(rt, points);
    if let Some((at, byte)) = change {
        place(&mut file, at, &[byte]);
    }
    disk_of(rt, &file, stop)
}

// Makes the source of the log of a case.
fn log_of(rt: &(impl AllocGlobal + Abort), case: &Case<'_>) -> MemorySource {
    let mut log = FRAME.to_vec(rt.alloc()).expect(rt, "memory");
    if let Some((at, byte)) = case.log_change {
        place(&mut log, at.saturating_add(8), &[byte]);
    }
    MemorySource::new(log, 50, calls(rt, case.log_in_fails))
}

// Gives the first `count` bytes of the frame.
fn frame_to(count: usize) -> &'static [u8] {
    FRAME.get(..count).unwrap_or(&FRAME)
}

// Runs a job.
fn run<D: Disk, E: Disk, S: Source, K: Sink, T: Sink>(
    alloc: Global,
    job: Job,
    (index, other): (&mut D, &mut E),
    log_in: &mut S,
    out: &mut K,
    log_out: &mut T,
) -> Status {
    match job {
        Job::Join => join_indexes(alloc, index, other, 1, out, log_out),
        Job::Verify => verify_join_logs(alloc, index, other, log_in, out),
        Job::Check => check_join_logs(alloc, index, other, log_in, out),
    }
}

// Runs a case.
fn check(rt: &(impl AllocGlobal + Abort), case: &Case<'_>) {
    let mut index = changed(rt, &[0, 5, 9], case.index_change, case.index_stop);
    let mut other = changed(rt, &[4, 9], case.other_change, case.other_stop);
    let mut log_in = log_of(rt, case);
    let mut out = sink_of(rt, case.out_fails);
    let mut log_out = sink_of(rt, case.log_out_fails);
    let status = run(
        rt.alloc(),
        case.job,
        (&mut index, &mut other),
        &mut log_in,
        &mut out,
        &mut log_out,
    );
    assert!(rt; out.written() == case.output.as_bytes(), "{}", case.output);
    holds(rt, status == Status(case.status));
    holds(rt, log_out.written() == frame_to(case.framed));
}

#[test]
fn a_join_and_its_log(rt: HostRuntime) {
    check(&rt, &JOIN);
    check(&rt, &VERIFY);
    check(&rt, &CHECK);
}

// Changes a case: the other index has points of two coordinates.
fn check_spaces(rt: &(impl AllocGlobal + Abort), case: &Case<'_>) {
    let spaces = Case {
        other_change: Some((11, 2)),
        status: 1,
        output: "rejected spaces\n",
        framed: 0,
        ..*case
    };
    check(rt, &spaces);
}

#[test]
fn files_of_different_spaces(rt: HostRuntime) {
    check_spaces(&rt, &JOIN);
    check_spaces(&rt, &VERIFY);
    check_spaces(&rt, &CHECK);
}

// Changes a case: one or both of the files are no index.
fn check_no_index(rt: &(impl AllocGlobal + Abort), case: &Case<'_>) {
    let other = Case {
        other_change: Some((9, 1)),
        status: 6,
        output: "fault notindex version\n",
        framed: 0,
        ..*case
    };
    check(rt, &other);
    let both = Case {
        index_change: Some((0, 0)),
        output: "fault notindex magic\n",
        ..other
    };
    check(rt, &both);
}

#[test]
fn files_of_no_index(rt: HostRuntime) {
    check_no_index(&rt, &JOIN);
    check_no_index(&rt, &VERIFY);
    check_no_index(&rt, &CHECK);
}

// Changes a byte of the log.
fn check_log(rt: &(impl AllocGlobal + Abort), change: (usize, u8), output: &str) {
    let case = Case {
        log_change: Some(change),
        status: 1,
        output,
        ..VERIFY
    };
    check(rt, &case);
}

#[test]
fn logs_that_are_rejected(rt: HostRuntime) {
    let left = "frame 0 rejected otherstate left 2 3 1 3\nlog rejected\n";
    let right = "frame 0 rejected otherstate right 1 4 1 3\nlog rejected\n";
    let answer = "frame 0 rejected wronganswer 0\nlog rejected\n";
    let page = "frame 0 rejected wrongpage 1\nlog rejected\n";
    let mark = "frame 0 rejected wrongmark 2 0\nlog rejected\n";
    check_log(&rt, (0, 0), "log rejected magic\n");
    check_log(&rt, (5, 1), "log rejected kind\n");
    check_log(&rt, (13, 2), left);
    check_log(&rt, (29, 4), right);
    check_log(&rt, (61, 0), answer);
    check_log(&rt, (95, 0), page);
    check_log(&rt, (109, 1), mark);
}

// Makes page 3 no node.
const BAD: Option<(usize, u8)> = Some((3 * 4096, 15));

const DAMAGED: [Case<'static>; 5] = [
    Case {
        index_change: BAD,
        status: 9,
        output: "fault damaged bad 3 kind\n",
        framed: 0,
        ..JOIN
    },
    Case {
        other_change: BAD,
        status: 9,
        output: "fault damaged bad 3 kind\n",
        framed: 0,
        ..JOIN
    },
    Case {
        other_change: BAD,
        status: 1,
        output: "frame 0 rejected page right bad 3 kind\nlog rejected\n",
        ..VERIFY
    },
    Case {
        index_change: BAD,
        status: 1,
        output: "file rejected page bad 3 kind\n",
        ..CHECK
    },
    Case {
        other_change: BAD,
        status: 1,
        output: "file sound\nother rejected page bad 3 kind\n",
        ..CHECK
    },
];

// Runs each case.
fn check_all(rt: &(impl AllocGlobal + Abort), cases: &[Case<'_>]) {
    for case in cases {
        check(rt, case);
    }
}

#[test]
fn a_page_that_holds_no_node(rt: HostRuntime) {
    check_all(&rt, &DAMAGED);
}

// Changes a case: one of the disks fails from the call `stop` on. Writes `output` where that is the other index's.
fn check_stop(rt: &(impl AllocGlobal + Abort), case: &Case<'_>, stop: u64, output: &str) {
    let index = Case {
        index_stop: Some(stop),
        status: 5,
        output: "fault disk\n",
        framed: 0,
        ..*case
    };
    check(rt, &index);
    let other = Case {
        other_stop: Some(stop),
        status: 5,
        output,
        framed: 0,
        ..*case
    };
    check(rt, &other);
}

// Takes four calls to open a file.
#[test]
fn disks_that_fail(rt: HostRuntime) {
    let fault = "fault disk\n";
    check_stop(&rt, &JOIN, 0, fault);
    check_stop(&rt, &JOIN, 4, fault);
    check_stop(&rt, &VERIFY, 0, fault);
    check_stop(&rt, &VERIFY, 4, fault);
    check_stop(&rt, &CHECK, 0, fault);
    // Tells that the index is sound before the other file is audited.
    check_stop(&rt, &CHECK, 4, "file sound\nfault disk\n");
}

const FAILING: [Case<'static>; 6] = [
    Case {
        out_fails: Some(0),
        status: 4,
        output: "",
        ..JOIN
    },
    Case {
        log_out_fails: Some(0),
        status: 4,
        output: "",
        framed: 0,
        ..JOIN
    },
    Case {
        out_fails: Some(0),
        status: 4,
        output: "",
        ..VERIFY
    },
    Case {
        out_fails: Some(1),
        status: 4,
        output: "frame 0 accepted\n",
        ..VERIFY
    },
    Case {
        out_fails: Some(2),
        status: 4,
        output: "file sound\nother sound\n",
        ..CHECK
    },
    Case {
        log_in_fails: Some(1),
        status: 3,
        output: "fault input\n",
        ..CHECK
    },
];

#[test]
fn sinks_and_a_source_that_fail(rt: HostRuntime) {
    check_all(&rt, &FAILING);
}
