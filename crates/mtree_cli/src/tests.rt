use crate::files::run_on_files;
use crate::log_tests::{check_given, check_words};
use crate::request::Request;
use crate::runs::{Given, Ran, disk, run_on, with_input, words};
use disk_model::SharedDisk;
use named_files::HostFolder;
use outside_io::{MemorySink, MemorySource, Status};
use std::fs;
use std::process::Abort;
use std::thread::Threads;

const USAGE: &str = "usage: mtree COMMAND INDEX [options]\n";

// Describes a scan that ends well: its words, its script and its replies.
type Scan = (&'static str, &'static str, &'static str);

// Runs words on an empty index, by pieces of `piece` bytes.
fn run_scan<R: AllocGlobal + Abort + Threads + Sync>(
    rt: &R,
    given: &Given<'_>,
    piece: usize,
) -> Ran {
    let mut index = disk(rt, &[], None);
    let mut other = disk(rt, &[], None);
    run_on(rt, given, piece.max(1), &mut index, &mut other)
}

// Checks a scan, whose input is given by pieces of `piece` bytes.
fn check_scan<R: AllocGlobal + Abort + Threads + Sync>(rt: &R, scan: &Scan, piece: usize) {
    let (words, input, output) = *scan;
    let ran = run_scan(rt, &with_input(words, input), piece);
    let is_so = ran.status == Status(0) && ran.out.as_slice() == output.as_bytes();
    assert!(rt; is_so, "{}", output);
}

// Checks scans, by bytes and by pages.
fn check_scans<R: AllocGlobal + Abort + Threads + Sync>(rt: &R, scans: &[Scan]) {
    for scan in scans {
        check_scan(rt, scan, 1);
        check_scan(rt, scan, 4096);
    }
}

// Lists scans of points and queries.
const POINTS: [Scan; 8] = [
    (
        "scan --metric l1 --dim 2",
        "insert,0,0\ninsert,3,4\nrange,7,0,0\n",
        "id 0\nid 1\nhits 2\n0 0\n1 7\n",
    ),
    ("scan --metric l1 --dim 2", "", ""),
    (
        "scan --metric l1 --dim 2",
        "insert,1\n",
        "refused dimension\n",
    ),
    (
        "scan --metric l1 --dim 2",
        "insert,1,0\ninsert,0,1\nnearest,1,0,0\n",
        "id 0\nid 1\nhits 1\n0 1\n",
    ),
    (
        "scan --metric l1 --dim 2",
        "insert,0,0\ninsert,3,4\nrange,18446744073709551615,0,0\nrange,18446744073709551616,0,0\n",
        "id 0\nid 1\nhits 2\n0 0\n1 7\nrefused number\n",
    ),
    (
        "scan --metric l1 --dim 2",
        "\u{feff}insert,\" 3 \",4\r\nload,2\r\n1,2\r\n3\r\ninsert,1\r\nrange,x,0,0\r\nhello\r\nload,3\r\n1,2\r\n3,4\r\n",
        "id 0\nrefused row 1\nrefused dimension\nrefused number\nrefused command\nrefused short\n",
    ),
    (
        "scan --dim=3 --metric=l1",
        "load,4\n255,0,0\n250,10,5\n0,0,255\n128,128,128\nnearest,2,252,9,6\nrange,400,252,9,6\ncount\n",
        "loaded 4\nhits 2\n1 4\n0 18\nhits 3\n1 4\n0 18\n3 365\ncount 4\n",
    ),
    (
        "scan --metric l1 --dim 1 --max 3",
        "insert,1\ninsert,1\ninsert,1\ninsert,1\nload,1\n4\n",
        "id 0\nid 1\nid 2\nrefused full\nrefused notempty\n",
    ),
];

#[test]
fn points_and_queries(rt: HostRuntime) {
    check_scans(&rt, &POINTS);
}

// Lists scans with tags and cursors.
const TAGS: [Scan; 5] = [
    (
        "scan --metric l1 --dim 1",
        "tinsert,900,5\ninsert,7\nrange,10,5\n",
        "id 0\nid 1\nhits 2\n0 0\n1 2\n",
    ),
    (
        "scan --metric l1 --dim 1 --tags show",
        "tinsert,900,5\ninsert,7\nrange,10,5\n",
        "id 0\nid 1\nhits 2\n0 900 0\n1 1 2\n",
    ),
    (
        "scan --metric l1 --dim 1",
        "tload,2\n7,1\nx,2\ntload,1\n9,4\nnearest,5,4\n",
        "refused row 1\nloaded 1\nhits 1\n0 0\n",
    ),
    (
        "scan --metric l1 --dim 1",
        "insert,0\ninsert,10\ncursor,0\nnext,0,1\ninsert,1\nnext,0,5\nnext,0,1\nclose,0\nclose,0\ncursor,3\n",
        "id 0\nid 1\ncursor 0\nnext 1\n0 0\nid 2\nnext 1\n1 10\nnext 0\nclosed 0\nrefused nocursor\ncursor 1\n",
    ),
    (
        "scan --metric l1 --dim 1",
        "cursor,0\ncursor,0\ncursor,0\ncursor,0\ncursor,0\ncursor,0\ncursor,0\ncursor,0\ncursor,0\ncursor,0\ncursor,0\ncursor,0\ncursor,0\ncursor,0\ncursor,0\ncursor,0\ncursor,0\nclose,3\ncursor,0\n",
        "cursor 0\ncursor 1\ncursor 2\ncursor 3\ncursor 4\ncursor 5\ncursor 6\ncursor 7\ncursor 8\ncursor 9\ncursor 10\ncursor 11\ncursor 12\ncursor 13\ncursor 14\ncursor 15\nrefused cursors\nclosed 3\ncursor 16\n",
    ),
];

#[test]
fn tags_and_cursors(rt: HostRuntime) {
    check_scans(&rt, &TAGS);
}

// Lists scans under composed metrics.
const COMPOSED: [Scan; 3] = [
    (
        "scan --metric kendall --dim 3",
        "insert,0,1,2\ninsert,2,1,0\ninsert,0,0,1\nrange,1,1,0,2\ncount\n",
        "id 0\nid 1\nrefused unfit\nhits 1\n0 1\ncount 2\n",
    ),
    (
        "scan --metric hausdorff --dim 3",
        "insert,0,10,10\ninsert,0,0,10\nrange,6,0,4,4\n",
        "id 0\nrefused unfit\nhits 1\n0 6\n",
    ),
    (
        "scan --metric mixsum --dim 4",
        "insert,1,2,7,7\nrange,9,3,2,7,8\n",
        "id 0\nhits 1\n0 3\n",
    ),
];

#[test]
fn composed_metrics(rt: HostRuntime) {
    check_scans(&rt, &COMPOSED);
}

// Lists words that ask for no scan.
const NO_SCANS: [&str; 10] = [
    "scan --metric l2 --dim 2",
    "scan --metric l1 --dim 65",
    "scan --metric mixmax --dim 3",
    "scan --metric l1 --dim 2 --radius 1",
    "shape",
    "audit a.mt --radius 1",
    "create a.mt --metric l1",
    "verify a.mt --other b.mt",
    "join a.mt --other b.mt",
    "check a.mt",
];

// Checks that words ask for no scan.
fn check_usage<R: AllocGlobal + Abort + Threads + Sync>(rt: &R, words: &str) {
    let mut index = disk(rt, &[], None);
    check_words(rt, words, "insert,1,2\n", &mut index, (2, USAGE));
}

#[test]
fn words_without_a_scan(rt: HostRuntime) {
    for words in &NO_SCANS {
        check_usage(&rt, words);
    }
}

const CREATE: &str = "create a.mt --metric l1 --dim 2";

// Checks an index that is made: its shape, its audit, and that it is not made again.
fn check_made<R: AllocGlobal + Abort + Threads + Sync, D: SharedDisk>(rt: &R, index: &mut D) {
    let shape = (0, "height 0\nobjects 0\nnodes 1\n0 0 - -\n");
    check_words(rt, "shape a.mt", "", index, (6, "fault notindex short\n"));
    check_words(rt, "audit a.mt", "", index, (6, "fault notindex short\n"));
    check_words(rt, CREATE, "", index, (0, "created\n"));
    check_words(
        rt,
        "audit a.mt",
        "",
        index,
        (0, "sound\nobjects 0\nnodes 1\n"),
    );
    check_words(rt, "shape a.mt", "", index, shape);
    check_words(rt, CREATE, "", index, (6, "fault notindex notempty\n"));
}

#[test]
fn create_audit_and_shape(rt: HostRuntime) {
    check_made(&rt, &mut disk(&rt, &[], None));
}

// Lists commands on real files, one after another, and their statuses.
const ON_FILES: [(&str, u8); 14] = [
    ("audit a.mt", 10),
    ("gen a.mt --metric kendall --dim 2 --count 5", 2),
    ("audit a.mt", 10),
    ("gen a.mt --metric l1 --dim 2 --count 5 --seed 1", 0),
    ("gen a.mt --metric l1 --dim 2 --count 5 --seed 1", 6),
    ("create a.mt --metric l1 --dim 2", 6),
    ("audit a.mt", 0),
    ("migrate a.mt --other a.mt", 10),
    ("migrate b.mt --other missing.mt", 10),
    ("check a.mt --log missing.log", 10),
    ("join a.mt --other a.mt --radius 0 --log a.mt", 10),
    ("join a.mt --other a.mt --radius 0 --log a.log", 0),
    ("check a.mt --other a.mt --log a.log", 0),
    ("audit a.mt", 0),
];

// Runs a command on real files, and gives its status and whether it is refused.
fn run_command<R: AllocGlobal + Abort + Threads + Sync>(
    rt: &R,
    folder: HostFolder<'_>,
    line: &str,
) -> (Status, bool) {
    let words = words(rt, line);
    let request = Request::read(rt.alloc(), &words);
    let mut input = MemorySource::new(Vec::new(rt.alloc()), 1, Vec::new(rt.alloc()));
    let mut out = MemorySink::new(rt.alloc(), 1000, Vec::new(rt.alloc())).expect(rt, "memory");
    let ended = run_on_files(rt, rt.alloc(), &request, folder, &mut input, &mut out);
    (ended.status, ended.refusal.is_some())
}

// Checks the status of a command on real files, and that it is refused with status 10 alone.
fn check_command<R: AllocGlobal + Abort + Threads + Sync>(
    rt: &R,
    folder: HostFolder<'_>,
    line: &str,
    status: u8,
) {
    let ended = run_command(rt, folder, line);
    assert!(rt; ended == (Status(status), status == 10), "{}", line);
}

#[test]
fn named_files(rt: HostRuntime) {
    for (line, status) in &ON_FILES {
        check_command(&rt, HostFolder::new(&rt), line, *status);
    }
    fs::remove_file(&rt, "a.mt").expect(&rt, "removed");
    fs::remove_file(&rt, "a.log").expect(&rt, "removed");
}

// Checks a scan where the call `input_fails` of the input and the call `out_fails` of the output fail.
fn check_fault<R: AllocGlobal + Abort + Threads + Sync>(
    rt: &R,
    input_fails: Option<u64>,
    out_fails: Option<u64>,
    ended: (u8, &str),
) {
    let failing = Given {
        input_fails,
        out_fails,
        ..with_input("scan --metric l1 --dim 2", "insert,7,7\ninsert,8,8\n")
    };
    let mut index = disk(rt, &[], None);
    check_given(rt, &failing, &mut index, ended);
}

#[test]
fn faults(rt: HostRuntime) {
    check_fault(&rt, Some(0), None, (3, "fault input\n"));
    check_fault(&rt, Some(1), None, (3, "fault input\n"));
    check_fault(&rt, None, Some(0), (4, ""));
    check_fault(&rt, None, Some(1), (4, "id 0\n"));
}

// Runs a scan on an input of one byte too many.
fn run_long<R: AllocGlobal + Abort + Threads + Sync>(rt: &R) -> Ran {
    let bytes = vec![in rt.alloc(); b'x'; 67108865].expect(rt, "memory");
    let long = Given {
        input: &bytes,
        ..with_input("scan --metric l1 --dim 2", "")
    };
    run_scan(rt, &long, 1 << 20)
}

#[test]
fn an_input_of_one_byte_too_many(rt: HostRuntime) {
    let ran = run_long(&rt);
    assert!(rt; ran.status == Status(7));
    assert!(rt; ran.out.as_slice() == b"fault long\n".as_slice());
    scan_model::laws::range_answers_are_all();
    scan_model::laws::join_answers_are_all();
    rows_text::laws::run_is_its_steps();
}
