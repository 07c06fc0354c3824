use crate::log_tests::{HEAD, blank, check_given, check_words, place, small_index};
use crate::runs::{Given, Ran, check_run, disk, run_on, with_input, with_logs};
use disk_model::{MemoryDisk, SharedDisk};
use outside_io::Status;
use std::alloc::{AllocError, Global};
use std::process::Abort;
use std::thread::Threads;

// Make an index of numbers.
const CREATE: &str = "create a.mt --metric l1 --dim 1";

const PLANE: &str = "create a.mt --metric l1 --dim 2";

const SESSION: &str = "session a.mt --workers 2";

const LOGGED: &str = "session a.mt --log a.log";

const CHECK: &str = "check a.mt --log a.log";

// Describes a session on a new index: the words that make it, those of the session, its script and its replies.
type Session = (&'static str, &'static str, &'static str, &'static str);

const SESSIONS: [Session; 7] = [
    (CREATE, SESSION, "nearest,1,5\n", "hits 0\n"),
    (
        PLANE,
        SESSION,
        "insert,1,0\ninsert,0,1\nnearest,1,0,0\nnearest,0,0,0\ncount\n",
        "id 0\nid 1\nhits 1\n0 1\nrefused count\ncount 2\n",
    ),
    (
        "create a.mt --metric l1 --dim 1 --max 3",
        SESSION,
        "insert,1\ninsert,1\ninsert,1\ninsert,1\nload,1\n4\n",
        "id 0\nid 1\nid 2\nrefused full\nrefused notempty\n",
    ),
    (
        "create a.mt --metric l1 --dim 3",
        SESSION,
        "load,4\n255,0,0\n250,10,5\n0,0,255\n128,128,128\nnearest,2,252,9,6\nrange,400,252,9,6\n",
        "loaded 4\nhits 2\n1 4\n0 18\nhits 3\n1 4\n0 18\n3 365\n",
    ),
    (
        CREATE,
        "session a.mt --tags show",
        "tinsert,900,5\ninsert,7\nrange,10,5\ntload,2\n7,1\nx,2\n",
        "id 0\nid 1\nhits 2\n0 900 0\n1 1 2\nrefused row 1\n",
    ),
    (
        CREATE,
        SESSION,
        "insert,0\ninsert,10\ncursor,0\nnext,0,1\ninsert,1\nnext,0,5\nnext,0,1\nclose,0\nclose,0\n",
        "id 0\nid 1\ncursor 0\nnext 1\n0 0\nid 2\nnext 1\n1 10\nnext 0\nclosed 0\nrefused nocursor\n",
    ),
    (
        "create a.mt --metric kendall --dim 3",
        SESSION,
        "insert,0,1,2\ninsert,2,1,0\ninsert,0,0,1\nrange,1,1,0,2\n",
        "id 0\nid 1\nrefused unfit\nhits 1\n0 1\n",
    ),
];

// Checks a session on a new index.
fn check_session<R: AllocGlobal + Abort + Threads + Sync>(rt: &R, session: &Session) {
    let (create, words, script, replies) = *session;
    let mut index = disk(rt, &[], None);
    check_words(rt, create, "", &mut index, (0, "created\n"));
    check_words(rt, words, script, &mut index, (0, replies));
}

#[test]
fn sessions(rt: HostRuntime) {
    for session in &SESSIONS {
        check_session(&rt, session);
    }
}

// Checks that a session's log shows its answers, and that the index goes on in a second session.
fn check_log<R: AllocGlobal + Abort + Threads + Sync, D: SharedDisk>(rt: &R, index: &mut D) {
    check_words(rt, CREATE, "", index, (0, "created\n"));
    let script = "insert,4\ninsert,9\nrange,3,6\n";
    let replies = "id 0\nid 1\nhits 2\n0 2\n1 3\n";
    let logs = check_run(rt, &with_input(LOGGED, script), index, (0, replies));
    let checked = "file sound\nframe 0 complete\nrange,3,6\nhits 2\n0 2\n1 3\nlog complete\n";
    check_given(rt, &with_logs(CHECK, &logs), index, (0, checked));
    let counted = (0, "id 2\ncount 3\n");
    check_words(rt, LOGGED, "insert,5\ncount\n", index, counted);
    let shape = (0, "height 0\nobjects 3\nnodes 1\n0 3 - -\n");
    check_words(rt, "shape a.mt", "", index, shape);
}

#[test]
fn a_log_of_a_session(rt: HostRuntime) {
    check_log(&rt, &mut disk(&rt, &[], None));
}

// Adds a line for each number below `count`, which stands between two texts.
fn push_lines(
    alloc: Global,
    text: &mut String,
    before: &str,
    count: u32,
    after: &str,
) -> Result<(), AllocError> {
    for i in 0..count {
        let line = format!(in alloc; "{before}{i}{after}\n")?;
        text.push_str(line.as_str())?;
    }
    Ok(())
}

// Gives the text `first`, and below it a line for each number below `count`, which stands between two texts.
fn lines(
    rt: &(impl AllocGlobal + Abort),
    first: &str,
    before: &str,
    count: u32,
    after: &str,
) -> String {
    let mut text = String::from_str(rt.alloc(), first).expect(rt, "memory");
    push_lines(rt.alloc(), &mut text, before, count, after).expect(rt, "memory");
    text
}

// Gives the hits of the numbers below `count` from the point 0, and behind them `last`.
fn hits(rt: &(impl AllocGlobal + Abort), count: u32, last: &str) -> String {
    let mut text = format!(in rt.alloc(); "hits {count}\n").expect(rt, "memory");
    for i in 0..count {
        let line = format!(in rt.alloc(); "{i} {i}\n").expect(rt, "memory");
        text.push_str(line.as_str()).expect(rt, "memory");
    }
    text.push_str(last).expect(rt, "memory");
    text
}

// Inserts the numbers below `count` into a new index.
fn insert_all<R: AllocGlobal + Abort + Threads + Sync, D: SharedDisk>(
    rt: &R,
    index: &mut D,
    count: u32,
) {
    let script = lines(rt, "", "insert,", count, "");
    let replies = lines(rt, "", "id ", count, "");
    check_words(rt, CREATE, "", index, (0, "created\n"));
    check_words(
        rt,
        "session a.mt",
        script.as_str(),
        index,
        (0, replies.as_str()),
    );
}

// Asks for the first three of the index of numbers, and gives the log that shows them.
fn check_range<R: AllocGlobal + Abort + Threads + Sync, D: SharedDisk>(
    rt: &R,
    index: &mut D,
) -> Vec<u8> {
    let three = "hits 3\n0 0\n1 1\n2 2\n";
    let checked = "file sound\nframe 0 complete\nrange,2,0\nhits 3\n0 0\n1 1\n2 2\nlog complete\n";
    let logs = check_run(rt, &with_input(LOGGED, "range,2,0\n"), index, (0, three));
    check_given(rt, &with_logs(CHECK, &logs), index, (0, checked));
    logs
}

// Asks for all of the index of 33 numbers, and for none.
fn check_nearest<R: AllocGlobal + Abort + Threads + Sync, D: SharedDisk>(rt: &R, index: &mut D) {
    let replies = hits(rt, 33, "refused count\n");
    check_words(
        rt,
        "session a.mt",
        "nearest,50,0\nnearest,0,0\n",
        index,
        (0, replies.as_str()),
    );
}

// Splits a leaf by the 33rd insert, and searches its tree. After a later insert, which uses free pages again, a log is
// refused.
fn check_split<R: AllocGlobal + Abort + Threads + Sync, D: SharedDisk>(rt: &R, index: &mut D) {
    insert_all(rt, index, 33);
    let shape = "height 1\nobjects 33\nnodes 3\n1 2 - -\n0 16 7 8\n0 17 24 8\n";
    check_words(rt, "shape a.mt", "", index, (0, shape));
    let sound = (0, "sound\nobjects 33\nnodes 3\n");
    check_words(rt, "audit a.mt", "", index, sound);
    check_nearest(rt, index);
    let logs = check_range(rt, index);
    check_words(rt, "session a.mt", "insert,33\n", index, (0, "id 33\n"));
    let refused = "frame 0 rejected otherstate 34 6 35 7\nlog rejected\n";
    let verify = with_logs("verify a.mt --log a.log", &logs);
    check_given(rt, &verify, index, (1, refused));
}

#[test]
fn a_leaf_is_split(rt: HostRuntime) {
    check_split(&rt, &mut disk(&rt, &[], None));
}

// Checks the replies to a script on a new index of numbers, and the shape of the index then.
fn check_shape<R: AllocGlobal + Abort + Threads + Sync>(
    rt: &R,
    script: &str,
    replies: &str,
    shape: &str,
) {
    let mut index = disk(rt, &[], None);
    check_words(rt, CREATE, "", &mut index, (0, "created\n"));
    check_words(rt, "session a.mt", script, &mut index, (0, replies));
    check_words(rt, "shape a.mt", "", &mut index, (0, shape));
}

// Loads 33 objects at once.
fn check_load<R: AllocGlobal + Abort + Threads + Sync>(rt: &R) {
    let rows = lines(rt, "load,33\n", "", 33, "");
    let shape = "height 1\nobjects 33\nnodes 5\n1 4 - -\n0 6 0 5\n0 7 8 4\n0 8 16 4\n0 12 24 8\n";
    check_shape(rt, rows.as_str(), "loaded 33\n", shape);
}

// Gives 40 inserts of the number 5, and a query for all of them.
fn equal_inserts(rt: &(impl AllocGlobal + Abort)) -> String {
    let mut text = String::new(rt.alloc());
    for _ in 0..40 {
        text.push_str("insert,5\n").expect(rt, "memory");
    }
    text.push_str("nearest,40,5\n").expect(rt, "memory");
    text
}

// Gives the replies to them.
fn equal_replies(rt: &(impl AllocGlobal + Abort)) -> String {
    let mut text = lines(rt, "", "id ", 40, "");
    let found = lines(rt, "hits 40\n", "", 40, " 0");
    text.push_str(found.as_str()).expect(rt, "memory");
    text
}

// Inserts 40 objects that are all the same.
fn check_equal<R: AllocGlobal + Abort + Threads + Sync>(rt: &R) {
    let script = equal_inserts(rt);
    let replies = equal_replies(rt);
    let shape = "height 1\nobjects 40\nnodes 4\n1 3 - -\n0 28 5 0\n0 6 5 0\n0 6 5 0\n";
    check_shape(rt, script.as_str(), replies.as_str(), shape);
}

#[test]
fn a_load_and_equal_points(rt: HostRuntime) {
    check_load(&rt);
    check_equal(&rt);
}

// Describes a file in which a byte is changed: the place and the byte, and a session's script, its status and what it
// writes.
type Hostile = (usize, u8, &'static str, u8, &'static str);

const HOSTILE: [Hostile; 11] = [
    (16384, 15, "range,7,0,0\n", 9, "fault damaged bad 4 kind\n"),
    (16387, 33, "range,7,0,0\n", 9, "fault damaged bad 4 count\n"),
    (
        16412,
        1,
        "range,7,0,0\n",
        9,
        "fault damaged bad 4 distance\n",
    ),
    (20479, 1, "range,7,0,0\n", 9, "fault damaged bad 4 tail\n"),
    (16419, 1, "range,7,0,0\n", 0, "hits 1\n0 7\n"),
    (16403, 5, "range,7,0,0\n", 0, "hits 1\n5 7\n"),
    (8215, 1, "range,7,0,0\n", 0, "hits 1\n0 7\n"),
    (
        8215,
        1,
        "count\ninsert,0,0\n",
        9,
        "count 1\nfault damaged level 4\n",
    ),
    (8211, 5, "range,7,0,0\n", 6, "fault notindex slot\n"),
    (8192, 0, "range,7,0,0\n", 0, "hits 0\n"),
    (9, 3, "range,7,0,0\n", 6, "fault notindex version\n"),
];

// Makes the small index in which the byte at `at` is `byte`.
fn changed(rt: &(impl AllocGlobal + Abort), at: usize, byte: u8) -> MemoryDisk {
    let mut file = small_index(rt);
    place(&mut file, at, &[byte]);
    disk(rt, &file, None)
}

// Makes the small index without its last page.
fn cut(rt: &(impl AllocGlobal + Abort)) -> MemoryDisk {
    let mut file = small_index(rt);
    file.truncate(16384);
    disk(rt, &file, None)
}

// Checks a session on a file that is not sound.
fn check_hostile<R: AllocGlobal + Abort + Threads + Sync>(rt: &R, hostile: &Hostile) {
    let (at, byte, script, status, output) = *hostile;
    let mut index = changed(rt, at, byte);
    check_words(rt, "session a.mt", script, &mut index, (status, output));
}

#[test]
fn hostile_files(rt: HostRuntime) {
    for hostile in &HOSTILE {
        check_hostile(&rt, hostile);
    }
    let slot = (6, "fault notindex slot\n");
    check_words(&rt, "session a.mt", "range,7,0,0\n", &mut cut(&rt), slot);
}

// Gives an index of numbers whose root on page 3 has six entries, each at 0 and with the child `child`. Page 4 is a leaf
// of six zeros.
fn repeating(rt: &(impl AllocGlobal + Abort), child: u8) -> Vec<u8> {
    let mut file = blank(rt, 5);
    place(&mut file, 0, &HEAD);
    place(&mut file, 11, &[1]);
    place(&mut file, 8192, &[0xa5]);
    place(
        &mut file,
        8207,
        &[2, 0, 0, 0, 3, 0, 0, 0, 1, 0, 0, 0, 36, 0, 0, 0, 5],
    );
    place(&mut file, 12288, &[1, 0, 0, 6]);
    place(&mut file, 16384, &[0, 0, 0, 6]);
    for i in 0..6u8 {
        let entry = 24 * usize::from(i);
        place(&mut file, 12288 + 19 + entry, &[child]);
        place(&mut file, 16384 + 19 + entry, &[i]);
    }
    file
}

// Checks a session that reaches a page more than once.
fn check_repeats<R: AllocGlobal + Abort + Threads + Sync>(
    rt: &R,
    child: u8,
    script: &str,
    output: &str,
) {
    let file = repeating(rt, child);
    let mut index = disk(rt, &file, None);
    check_words(rt, "session a.mt", script, &mut index, (9, output));
}

#[test]
fn pages_that_repeat(rt: HostRuntime) {
    let four = "fault damaged repeats 4\n";
    check_repeats(&rt, 4, "range,0,0\n", four);
    let counted = "count 36\nfault damaged repeats 4\n";
    check_repeats(&rt, 4, "count\ninsert,0\n", counted);
    check_repeats(&rt, 3, "range,0,0\n", "fault damaged repeats 3\n");
}

// Checks a session whose input or output fails, and the count of objects after it.
fn check_devices<R: AllocGlobal + Abort + Threads + Sync>(
    rt: &R,
    fails: (Option<u64>, Option<u64>),
    ended: (u8, &str),
    count: &str,
) {
    let mut index = disk(rt, &[], None);
    check_words(rt, CREATE, "", &mut index, (0, "created\n"));
    let failing = Given {
        input_fails: fails.0,
        out_fails: fails.1,
        ..with_input("session a.mt", "insert,7\n")
    };
    check_given(rt, &failing, &mut index, ended);
    check_words(rt, "session a.mt", "count\n", &mut index, (0, count));
}

// Finds no object where the input failed, and where the output failed the object whose reply could not be put.
#[test]
fn devices_of_a_session_fail(rt: HostRuntime) {
    check_devices(&rt, (Some(0), None), (3, "fault input\n"), "count 0\n");
    check_devices(&rt, (None, Some(0)), (4, ""), "count 1\n");
}

// Makes the file of the numbers 0 to 30.
fn numbers<R: AllocGlobal + Abort + Threads + Sync>(rt: &R) -> MemoryDisk {
    let mut index = disk(rt, &[], None);
    insert_all(rt, &mut index, 31);
    index
}

// Runs a session, and gives its status and what it wrote.
fn run_session<R: AllocGlobal + Abort + Threads + Sync, D: SharedDisk>(
    rt: &R,
    index: &mut D,
    script: &str,
) -> Ran {
    let mut other = disk(rt, &[], None);
    let given = with_input("session a.mt", script);
    run_on(rt, &given, 100, index, &mut other)
}

// Counts the inserts of 31 and 32 that a session acknowledged.
fn acknowledged(ran: &Ran) -> Option<u32> {
    let written = ran.out.as_slice();
    if ran.status == Status(0) && written == b"id 31\nid 32\n".as_slice() {
        Some(2)
    } else if ran.status == Status(5) && written == b"fault disk\n".as_slice() {
        Some(0)
    } else if ran.status == Status(5) && written == b"id 31\nfault disk\n".as_slice() {
        Some(1)
    } else {
        None
    }
}

// Inserts 31 and 32 on a disk that stops, and counts the inserts that are acknowledged. The second splits the leaf.
fn insert_two<R: AllocGlobal + Abort + Threads + Sync, D: SharedDisk>(
    rt: &R,
    index: &mut D,
) -> u32 {
    let ran = run_session(rt, index, "insert,31\ninsert,32\n");
    acknowledged(&ran).expect(rt, "an end")
}

// Lists what counts of 31 to 34 objects write.
const COUNTS: [&str; 4] = ["count 31\n", "count 32\n", "count 33\n", "count 34\n"];

// Says whether a session counted 31 objects and `more` more, or one more than that.
fn has_counted(ran: &Ran, more: usize) -> bool {
    let written = ran.out.as_slice();
    let mut is_so = false;
    for (i, count) in COUNTS.iter().enumerate() {
        is_so = is_so || (more <= i && i <= more.saturating_add(1) && written == count.as_bytes());
    }
    is_so && ran.status == Status(0)
}

// Checks that a file is sound and has 31 objects and `more` more, or one more than that.
fn check_left<R: AllocGlobal + Abort + Threads + Sync>(rt: &R, file: &[u8], more: usize) {
    let mut index = disk(rt, file, None);
    let ran = run_session(rt, &mut index, "count\n");
    assert!(rt; has_counted(&ran, more));
}

// Gives a file that a crash after the last call leaves.
fn left_by(rt: &(impl AllocGlobal + Abort), index: &MemoryDisk, pick: u64) -> Vec<u8> {
    index
        .image(rt.alloc(), index.moments(), pick)
        .expect(rt, "memory")
}

// Checks what a disk that stops at the call `stop` leaves: the objects that were acknowledged, or one more. Counts those
// that were.
fn check_stop<R: AllocGlobal + Abort + Threads + Sync>(rt: &R, file: &[u8], stop: u64) -> u32 {
    let mut index = disk(rt, file, Some(stop));
    let count = insert_two(rt, &mut index);
    for pick in [0, 1, 165, 255] {
        let image = left_by(rt, &index, pick);
        check_left(rt, &image, count as usize);
    }
    count
}

#[test]
fn a_session_is_stopped(rt: HostRuntime) {
    let numbers = numbers(&rt);
    let mut count = 0;
    for stop in 0..40 {
        count = check_stop(&rt, numbers.bytes(), stop);
    }
    assert!(rt; count == 2);
}
