ghost use Rattle.std.specs.Prelude.{◌≡◌, ◌≤◌};
ghost use Rattle.node_page.specs.Heads.{IsValidHead};

use crate::batches::{holds, put, put_entry, put_line, put_sixfold};
use batch_run::jobs::laws::turns_are_one_run;
use batch_run::jobs::{audit_index_by, run_batch};
use disk_model::{Disk, MemoryDisk};
use job_files::create_index;
use node_page::Head;
use outside_io::{MemorySink, MemorySource, Sink, Status};
use prune_log::decode_frames;
use std::alloc::{AllocError, Global};
use std::process::Abort;
use std::thread::Threads;

// Gives the head of an index of points of one coordinate under L1.
#[tactic(auto, unfolding(node_page::specs::Heads::is_version, node_page::specs::Heads::is_space, node_page::specs::Heads::is_policy, node_page::specs::Heads::is_limit))]
fn head() -> Head
    ensures valid { IsValidHead result }
    ensures version { result.version ≡ 2 }
{
    Head {
        version: 2,
        kind: 2,
        dim: 1,
        promote: 2,
        split: 1,
        limit: 1000,
    }
}

// Lists the call that fails, if one does.
fn failing(alloc: Global, call: Option<u64>) -> Result<Vec<u64>, AllocError> {
    let mut calls = Vec::new(alloc);
    if let Some(call) = call {
        calls.push(call)?;
    }
    Ok(calls)
}

// Makes a disk of `bytes` whose call `fails` fails, if any.
fn try_disk(alloc: Global, bytes: &[u8], fails: Option<u64>) -> Result<MemoryDisk, AllocError> {
    let bytes = bytes.to_vec(alloc)?;
    let room = (bytes.len() as u64).max(1 << 16);
    MemoryDisk::new(alloc, bytes, room, 1 << 20, failing(alloc, fails)?, None)
}

// Does the same, and ends the test where memory is lacking.
fn disk_of(rt: &(impl AllocGlobal + Abort), bytes: &[u8], fails: Option<u64>) -> MemoryDisk {
    try_disk(rt.alloc(), bytes, fails).expect(rt, "memory")
}

// Makes a sink whose call `fails` fails, if any.
fn sink_of(rt: &(impl AllocGlobal + Abort), fails: Option<u64>) -> MemorySink {
    let calls = failing(rt.alloc(), fails).expect(rt, "memory");
    MemorySink::new(rt.alloc(), 10_000, calls).expect(rt, "memory")
}

// Makes a source of a script whose call `fails` fails, if any.
fn source_of(rt: &(impl AllocGlobal + Abort), script: &str, fails: Option<u64>) -> MemorySource {
    let calls = failing(rt.alloc(), fails).expect(rt, "memory");
    let bytes = script.as_bytes().to_vec(rt.alloc()).expect(rt, "memory");
    MemorySource::new(bytes, 7, calls)
}

// Makes an empty index.
fn make<D: Disk, K: Sink>(disk: &mut D, out: &mut K) -> Status {
    create_index(disk, &head(), out)
}

// Gives the bytes of an empty index.
fn empty(rt: &(impl AllocGlobal + Abort)) -> Vec<u8> {
    let mut disk = disk_of(rt, &[], None);
    let mut out = sink_of(rt, None);
    holds(rt, make(&mut disk, &mut out) == Status(0));
    disk.bytes().to_vec(rt.alloc()).expect(rt, "memory")
}

// Gives an empty index with pages to spare and these fields in its live slot: the root, the height, the count and the
// pages.
fn index_of(rt: &(impl AllocGlobal + Abort), fields: [u8; 4]) -> Vec<u8> {
    let mut bytes = empty(rt);
    bytes.extend_from_slice(&[0; 12288]).expect(rt, "memory");
    put(&mut bytes, 4096 + 19, fields[0]);
    put(&mut bytes, 4096 + 23, fields[1]);
    put(&mut bytes, 4096 + 27, fields[2]);
    put(&mut bytes, 4096 + 31, fields[3]);
    bytes
}

// Gives the index of the points 0 to 32.
fn line(rt: &(impl AllocGlobal + Abort)) -> Vec<u8> {
    let mut bytes = index_of(rt, [6, 1, 33, 7]);
    put_line(&mut bytes);
    bytes
}

// Gives an index whose root on page 3 has six entries to page 4, which holds six objects, all at 0.
fn sixfold(rt: &(impl AllocGlobal + Abort)) -> Vec<u8> {
    let mut bytes = index_of(rt, [3, 1, 36, 5]);
    put_sixfold(&mut bytes);
    bytes
}

// Gives an index whose root on page 4 is a leaf with the object 0 at 4, and in which the byte at `at` of the file is `byte`.
fn single(rt: &(impl AllocGlobal + Abort), at: usize, byte: u8) -> Vec<u8> {
    let mut bytes = index_of(rt, [4, 0, 1, 5]);
    put(&mut bytes, 16387, 1);
    put_entry(&mut bytes, 4, 0, [0, 0, 0, 4]);
    put(&mut bytes, at, byte);
    bytes
}

// Has the numbers of the calls that fail, if any do.
#[derive(Clone, Copy)]
struct FailingCalls {
    input: Option<u64>,
    disk: Option<u64>,
    out: Option<u64>,
    log_out: Option<u64>,
}

const NOTHING_FAILS: FailingCalls = FailingCalls {
    input: None,
    disk: None,
    out: None,
    log_out: None,
};

// Counts the logs in these frames.
fn count_logs(rt: &(impl AllocGlobal + Abort), frames: &[u8]) -> usize {
    let logs = decode_frames(rt.alloc(), frames).expect(rt, "frames");
    logs.len()
}

// Runs a script on an index by `workers` workers, and checks the status, the lines, and the number of logs.
// Arguments: `workers`, `bytes`, `script` and `fails` make the run, and `status` and `said` are what it has to come to.
fn check_by<R: AllocGlobal + Threads + Sync + Abort>(
    rt: &R,
    workers: usize,
    bytes: &[u8],
    script: &str,
    fails: &FailingCalls,
    status: u8,
    said: (&str, usize),
)
    requires some { 1 ≤ workers }
    requires few { workers ≤ 64 }
{
    let mut disk = disk_of(rt, bytes, fails.disk);
    let mut input = source_of(rt, script, fails.input);
    let mut out = sink_of(rt, fails.out);
    let mut log_out = sink_of(rt, fails.log_out);
    let ended = run_batch(
        rt,
        rt.alloc(),
        &mut disk,
        workers,
        true,
        &mut input,
        &mut out,
        &mut log_out,
    );
    holds(rt, ended == Status(status));
    holds(rt, out.written() == said.0.as_bytes());
    holds(rt, count_logs(rt, log_out.written()) == said.1);
    holds(rt, disk.bytes() == bytes);
}

// Runs a script by each number of workers.
fn check<R: AllocGlobal + Threads + Sync + Abort>(
    rt: &R,
    bytes: &[u8],
    script: &str,
    fails: &FailingCalls,
    status: u8,
    said: (&str, usize),
) {
    check_by(rt, 1, bytes, script, fails, status, said);
    check_by(rt, 2, bytes, script, fails, status, said);
    check_by(rt, 64, bytes, script, fails, status, said);
}

#[test]
fn a_batch_on_an_index(rt: HostRuntime) {
    turns_are_one_run();
    let bytes = line(&rt);
    let script = "range,2,0\ncount\ninsert,5\nnearest,1,33\n";
    let wanted = "hits 3\n0 0 0\n1 1 1\n2 2 2\ncount 33\nrefused readonly\nhits 1\n32 32 1\n";
    check(&rt, &bytes, script, &NOTHING_FAILS, 0, (wanted, 2));
    check(&rt, &bytes, "", &NOTHING_FAILS, 0, ("", 0));
}

const INPUT_FAILS: FailingCalls = FailingCalls {
    input: Some(1),
    ..NOTHING_FAILS
};

const DISK_FAILS: FailingCalls = FailingCalls {
    disk: Some(4),
    ..NOTHING_FAILS
};

const OUT_FAILS: FailingCalls = FailingCalls {
    out: Some(1),
    ..NOTHING_FAILS
};

const LOG_OUT_FAILS: FailingCalls = FailingCalls {
    log_out: Some(0),
    ..NOTHING_FAILS
};

#[test]
fn what_fails_ends_a_batch(rt: HostRuntime) {
    let bytes = line(&rt);
    let script = "count\nrange,0,3\ncount\n";
    check(&rt, &bytes, script, &INPUT_FAILS, 3, ("fault input\n", 0));
    let fault = ("fault disk\n", 0);
    check_by(&rt, 1, &bytes, script, &DISK_FAILS, 5, fault);
    // Lets the readers count their calls by themselves.
    let answered = ("count 33\nhits 1\n3 3 0\ncount 33\n", 1);
    check_by(&rt, 2, &bytes, script, &DISK_FAILS, 0, answered);
    check(&rt, &bytes, script, &OUT_FAILS, 4, ("count 33\n", 1));
    check(&rt, &bytes, script, &LOG_OUT_FAILS, 4, ("count 33\n", 0));
}

// Describes a batch with a query, and an audit, of an index with one object in which a byte is changed.
#[derive(Clone, Copy)]
struct Damaged {
    at: usize,
    byte: u8,
    status: u8,
    said: &'static str,
    audit: u8,
    audited: &'static str,
}

const DAMAGED: [Damaged; 7] = [
    Damaged {
        at: 16384,
        byte: 15,
        status: 9,
        said: "count 1\nfault damaged bad 4 kind\n",
        audit: 1,
        audited: "rejected page bad 4 kind\n",
    },
    Damaged {
        at: 16387,
        byte: 33,
        status: 9,
        said: "count 1\nfault damaged bad 4 count\n",
        audit: 1,
        audited: "rejected page bad 4 count\n",
    },
    Damaged {
        at: 16384 + 4095,
        byte: 1,
        status: 9,
        said: "count 1\nfault damaged bad 4 tail\n",
        audit: 1,
        audited: "rejected page bad 4 tail\n",
    },
    Damaged {
        at: 16384 + 19,
        byte: 5,
        status: 0,
        said: "count 1\nhits 1\n5 0 4\ncount 1\n",
        audit: 1,
        audited: "rejected id 5\n",
    },
    Damaged {
        at: 4096 + 23,
        byte: 1,
        status: 0,
        said: "count 1\nhits 1\n0 0 4\ncount 1\n",
        audit: 1,
        audited: "rejected fill 4\n",
    },
    Damaged {
        at: 4096 + 19,
        byte: 5,
        status: 6,
        said: "fault notindex slot\n",
        audit: 6,
        audited: "fault notindex slot\n",
    },
    Damaged {
        at: 9,
        byte: 3,
        status: 6,
        said: "fault notindex version\n",
        audit: 6,
        audited: "fault notindex version\n",
    },
];

// Audits an index by `workers` workers.
fn check_audit_by<R: AllocGlobal + Threads + Sync + Abort>(
    rt: &R,
    bytes: &[u8],
    workers: usize,
    fails: Option<u64>,
    ended: (u8, &str),
)
    requires some { 1 ≤ workers }
    requires few { workers ≤ 64 }
{
    let mut disk = disk_of(rt, bytes, fails);
    let mut out = sink_of(rt, None);
    let status = audit_index_by(rt, rt.alloc(), &mut disk, workers, &mut out);
    holds(rt, status == Status(ended.0));
    holds(rt, out.written() == ended.1.as_bytes());
}

// Audits an index by each number of workers.
fn check_audit<R: AllocGlobal + Threads + Sync + Abort>(rt: &R, bytes: &[u8], ended: (u8, &str)) {
    check_audit_by(rt, bytes, 1, None, ended);
    check_audit_by(rt, bytes, 2, None, ended);
    check_audit_by(rt, bytes, 64, None, ended);
}

// Runs a batch on an index in which a byte is changed, and audits it.
fn check_damaged<R: AllocGlobal + Threads + Sync + Abort>(rt: &R, case: &Damaged) {
    let bytes = single(rt, case.at, case.byte);
    let logs = if case.status == 0 { 1 } else { 0 };
    check(
        rt,
        &bytes,
        "count\nrange,7,0\ncount\n",
        &NOTHING_FAILS,
        case.status,
        (case.said, logs),
    );
    check_audit(rt, &bytes, (case.audit, case.audited));
}

#[test]
fn damaged_indexes(rt: HostRuntime) {
    for case in &DAMAGED {
        check_damaged(&rt, case);
    }
}

#[test]
fn audits_of_trees(rt: HostRuntime) {
    let bytes = line(&rt);
    let sound = (0, "sound\nobjects 33\nnodes 3\n");
    check_audit(&rt, &bytes, sound);
    // Fails the fifth call of a disk, which one worker makes, and no reader of several.
    check_audit_by(&rt, &bytes, 1, Some(4), (5, "fault disk\n"));
    check_audit_by(&rt, &bytes, 2, Some(4), sound);
    check_audit_by(&rt, &bytes, 64, Some(4), sound);
    let bytes = sixfold(&rt);
    check_audit(&rt, &bytes, (1, "rejected twice 4\n"));
    let repeats = ("fault damaged repeats 4\n", 0);
    check(&rt, &bytes, "range,0,0\n", &NOTHING_FAILS, 9, repeats);
}
