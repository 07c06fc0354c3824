ghost use Rattle.std.specs.Prelude.{◌≡◌, ◌≤◌, ◌^◌, false, None, IfOk};
ghost use Rattle.node_page.specs.Heads.{IsValidHead};
ghost use Rattle.index_core.specs.Index.{MayGoOn};

use bulk_load::Alone;
use disk_model::{Disk, MemoryDisk};
use index_core::Index;
use metric_laws::Metric;
use node_page::Head;
use outside_io::{MemorySink, Sink};
use page_store::PageFault;
use prune_log::decode_frames;
use rows_text::read_script;
use session_run::laws::turns_are_their_meaning;
use session_run::{Ended, SessionStop, session};
use shadow_root::{OpenFault, create};
use std::alloc::{AllocError, Global};
use std::process::Abort;
use vector_kinds::L1;

// Ends a test in which `is_so` is false.
fn holds(rt: &impl Abort, is_so: bool) {
    assert!(rt; is_so);
}

// Is a disk whose bytes and images a test sees.
trait Watched {
    // Gives what a read gives.
    fn file(&self) -> &[u8];

    // Gives a file that a crash after the last call may leave.
    fn left(&self, alloc: Global, pick: u64) -> Result<Vec<u8>, AllocError>;
}

impl Watched for MemoryDisk {
    fn file(&self) -> &[u8] {
        self.bytes()
    }

    fn left(&self, alloc: Global, pick: u64) -> Result<Vec<u8>, AllocError> {
        self.image(alloc, self.moments(), pick)
    }
}

// Gives a head of at most a thousand points of one coordinate under L1.
#[tactic(auto, unfolding(node_page::specs::Heads::is_version, node_page::specs::Heads::is_space, node_page::specs::Heads::is_policy, node_page::specs::Heads::is_limit))]
fn head() -> Head
    ensures valid { IsValidHead result }
    ensures version { result.version ≡ 2 }
{
    Head {
        version: 2,
        kind: 2,
        dim: 1,
        promote: 2,
        split: 1,
        limit: 1_000,
    }
}

// Makes a disk of `bytes` with room for sixteen pages. All calls from `stop` on fail.
fn try_disk(alloc: Global, bytes: Vec<u8>, stop: Option<u64>) -> Result<MemoryDisk, AllocError> {
    let room = (bytes.len() as u64).max(1 << 16);
    MemoryDisk::new(alloc, bytes, room, 1 << 22, Vec::new(alloc), stop)
}

// Does the same, and ends the test where memory is lacking.
fn disk_of(rt: &(impl AllocGlobal + Abort), bytes: Vec<u8>, stop: Option<u64>) -> MemoryDisk {
    try_disk(rt.alloc(), bytes, stop).expect(rt, "memory")
}

// Copies the bytes of a disk.
fn copied<D: Watched>(rt: &(impl AllocGlobal + Abort), disk: &D) -> Vec<u8> {
    disk.file().to_vec(rt.alloc()).expect(rt, "memory")
}

// Makes an index that has no objects.
fn make_on<D: Disk>(rt: &impl Abort, disk: &mut D) {
    create(disk, &head()).expect(rt, "made");
}

// Makes the disk of an index that has no objects. All calls from `stop` on fail.
fn empty_disk(rt: &(impl AllocGlobal + Abort), stop: Option<u64>) -> MemoryDisk {
    let mut disk = disk_of(rt, Vec::new(rt.alloc()), None);
    make_on(rt, &mut disk);
    disk_of(rt, copied(rt, &disk), stop)
}

// Makes a sink whose puts numbered in `fails` fail.
fn try_sink(alloc: Global, fails: &[u64]) -> Result<MemorySink, AllocError> {
    MemorySink::new(alloc, 1 << 12, fails.to_vec(alloc)?)
}

// Does the same, and ends the test where memory is lacking.
fn sink_of(rt: &(impl AllocGlobal + Abort), fails: &[u64]) -> MemorySink {
    try_sink(rt.alloc(), fails).expect(rt, "memory")
}

// Opens a file of points of one coordinate for writing.
fn open_on<D: Disk>(disk: &mut D) -> Result<Index<L1>, OpenFault>
    ensures stands { IfOk result (λ index. MayGoOn index (D.state disk.new)) }
    ensures going { IfOk result (λ index. index.stopped ≡ false) }
{
    Index::open_write(disk, L1::new(1))
}

// Does the same, and ends the test where the file is refused.
fn opened<D: Disk>(rt: &impl Abort, disk: &mut D) -> Index<L1>
    ensures stands { MayGoOn result (D.state disk.new) }
    ensures going { result.stopped ≡ false }
{
    open_on(disk).expect(rt, "opened")
}

// Counts the objects of the index on a disk.
fn count_on<D: Disk>(rt: &impl Abort, disk: &mut D) -> u32 {
    let index = opened(rt, disk);
    index.count()
}

// Does the commands of a script on an index.
// Arguments: `index` and `disk` are the index and its file, `script` and `show` say what is asked, and `out` and `log_out` are written.
fn run_on<R: AllocGlobal + Abort, M: Metric, D: Disk, K: Sink, T: Sink>(
    rt: &R,
    index: &mut Index<M>,
    disk: &mut D,
    script: &[u8],
    show: bool,
    out: &mut K,
    log_out: &mut T,
) -> Ended
    requires going { index.old.stopped ≡ false }
    requires stands { MayGoOn index.old (D.state disk.old) }
    ensures stands { MayGoOn index.new (D.state disk.new) }
    ensures going { result.stopped ≡ None → index.new.stopped ≡ false }
{
    let alloc = rt.alloc();
    let dimension = index.metric().dimension();
    assert!(rt; dimension == 1 && script.len() < 1_000);
    let commands = read_script(alloc, script, dimension).expect(rt, "memory");
    session(&Alone, alloc, index, disk, &commands, show, out, log_out)
}

// Opens the index on a disk, and does the commands of a script on it.
fn run<R: AllocGlobal + Abort, D: Disk, K: Sink, T: Sink>(
    rt: &R,
    disk: &mut D,
    script: &[u8],
    show: bool,
    out: &mut K,
    log_out: &mut T,
) -> Ended {
    let mut index = opened(rt, disk);
    run_on(rt, &mut index, disk, script, show, out, log_out)
}

// Counts the logs in these frames.
fn count_logs(rt: &(impl AllocGlobal + Abort), frames: &[u8]) -> usize {
    let logs = decode_frames(rt.alloc(), frames).expect(rt, "frames");
    logs.len()
}

// Describes a script that is done whole: whether its replies show tags, the replies, and its numbers of commands and logs.
#[derive(Clone, Copy)]
struct Whole<'a> {
    script: &'a [u8],
    show: bool,
    replies: &'a str,
    commands: u64,
    logs: usize,
}

// Checks that all commands of a script are done, with the replies and the logs of a case.
fn check_whole<R: AllocGlobal + Abort, D: Disk>(rt: &R, disk: &mut D, case: &Whole<'_>) {
    let mut out = sink_of(rt, &[]);
    let mut log_out = sink_of(rt, &[]);
    let ended = run(rt, disk, case.script, case.show, &mut out, &mut log_out);
    holds(
        rt,
        (ended.acknowledged, ended.stopped) == (case.commands, None),
    );
    holds(rt, out.written() == case.replies.as_bytes());
    holds(rt, count_logs(rt, log_out.written()) == case.logs);
}

// Gives the objects that were there when a cursor was opened. Opens sixteen cursors at most, and uses no number again.
const WHOLE: [Whole<'static>; 7] = [
    Whole {
        script: b"insert,0\ninsert,10\ncursor,0\nnext,0,1\ninsert,1\nnext,0,5\nnext,0,1\nclose,0\nclose,0\n",
        show: false,
        replies: "id 0\nid 1\ncursor 0\nnext 1\n0 0\nid 2\nnext 1\n1 10\nnext 0\nclosed 0\nrefused nocursor\n",
        commands: 9,
        logs: 0,
    },
    Whole {
        script: b"tinsert,9,5\ncursor,0\ncursor,1\ncursor,2\ncursor,3\ncursor,4\ncursor,5\ncursor,6\ncursor,7\ncursor,8\ncursor,9\ncursor,10\ncursor,11\ncursor,12\ncursor,13\ncursor,14\ncursor,15\ncursor,16\nclose,3\ncursor,3\nnext,3,1\nnext,16,2\nnext,99,1\nclose,99\n",
        show: true,
        replies: "id 0\ncursor 0\ncursor 1\ncursor 2\ncursor 3\ncursor 4\ncursor 5\ncursor 6\ncursor 7\ncursor 8\ncursor 9\ncursor 10\ncursor 11\ncursor 12\ncursor 13\ncursor 14\ncursor 15\nrefused cursors\nclosed 3\ncursor 16\nrefused nocursor\nnext 1\n0 9 2\nrefused nocursor\nrefused nocursor\n",
        commands: 24,
        logs: 0,
    },
    Whole {
        script: b"insert,7\ninsert,3\ninsert,12\nrange,4,5\nnearest,2,6\ncount\ninsert,x\nload,1\n5\n",
        show: false,
        replies: "id 0\nid 1\nid 2\nhits 2\n0 2\n1 2\nhits 2\n0 1\n1 3\ncount 3\nrefused number\nrefused notempty\n",
        commands: 8,
        logs: 2,
    },
    Whole {
        script: b"tload,3\n700,7\n701,3\n702,12\ncursor,5\nnext,0,2\nnext,0,5\nnext,0,1\nclose,0\nnext,0,1\ncursor,0\n",
        show: true,
        replies: "loaded 3\ncursor 0\nnext 2\n0 700 2\n1 701 2\nnext 1\n2 702 7\nnext 0\nclosed 0\nrefused nocursor\ncursor 1\n",
        commands: 8,
        logs: 0,
    },
    Whole {
        script: b"tinsert,900,5\ninsert,7\nrange,10,5\n",
        show: true,
        replies: "id 0\nid 1\nhits 2\n0 900 0\n1 1 2\n",
        commands: 3,
        logs: 1,
    },
    Whole {
        script: b"tinsert,900,5\ninsert,7\nrange,10,5\n",
        show: false,
        replies: "id 0\nid 1\nhits 2\n0 0\n1 2\n",
        commands: 3,
        logs: 1,
    },
    Whole {
        script: b"nearest,1,5\nload,2\n1\n4\n",
        show: false,
        replies: "hits 0\nloaded 2\n",
        commands: 2,
        logs: 1,
    },
];

#[test]
fn sessions_are_answered(rt: HostRuntime) {
    turns_are_their_meaning();
    for case in &WHOLE {
        let mut disk = empty_disk(&rt, None);
        check_whole(&rt, &mut disk, case);
    }
}

// Reads or writes by each command, and makes a log by each second one.
const MIXED: &[u8] = b"insert,7\nrange,2,6\ninsert,9\nnearest,1,0\n";

// Describes a session of the mixed commands in which puts of the replies and of the logs fail. Says how many commands are
// acknowledged, what is replied, how many logs are written, and how many objects there are then.
#[derive(Clone, Copy)]
struct Broken {
    fails: &'static [u64],
    log_fails: &'static [u64],
    acknowledged: u64,
    replies: &'static str,
    logs: usize,
    count: u32,
}

const BROKEN: [Broken; 6] = [
    Broken {
        fails: &[0],
        log_fails: &[],
        acknowledged: 0,
        replies: "",
        logs: 0,
        count: 1,
    },
    Broken {
        fails: &[1],
        log_fails: &[],
        acknowledged: 1,
        replies: "id 0\n",
        logs: 1,
        count: 1,
    },
    Broken {
        fails: &[2],
        log_fails: &[],
        acknowledged: 2,
        replies: "id 0\nhits 1\n0 1\n",
        logs: 1,
        count: 2,
    },
    Broken {
        fails: &[3],
        log_fails: &[],
        acknowledged: 3,
        replies: "id 0\nhits 1\n0 1\nid 1\n",
        logs: 2,
        count: 2,
    },
    Broken {
        fails: &[],
        log_fails: &[0],
        acknowledged: 1,
        replies: "id 0\n",
        logs: 0,
        count: 1,
    },
    Broken {
        fails: &[],
        log_fails: &[1],
        acknowledged: 3,
        replies: "id 0\nhits 1\n0 1\nid 1\n",
        logs: 1,
        count: 2,
    },
];

// Checks that a session of the mixed commands ends where a put fails.
fn check_broken<R: AllocGlobal + Abort, D: Disk>(rt: &R, disk: &mut D, case: &Broken) {
    let mut out = sink_of(rt, case.fails);
    let mut log_out = sink_of(rt, case.log_fails);
    let ended = run(rt, disk, MIXED, false, &mut out, &mut log_out);
    holds(
        rt,
        (ended.acknowledged, ended.stopped) == (case.acknowledged, Some(SessionStop::Sink)),
    );
    holds(rt, out.written() == case.replies.as_bytes());
    holds(rt, count_logs(rt, log_out.written()) == case.logs);
    holds(rt, count_on(rt, disk) == case.count);
}

#[test]
fn a_session_ends_at_a_put_that_fails(rt: HostRuntime) {
    for case in &BROKEN {
        let mut disk = empty_disk(&rt, None);
        check_broken(&rt, &mut disk, case);
    }
}

// Opens a cursor that stays open while objects are inserted.
const STOPPED: &[u8] = b"insert,7\ninsert,3\ncursor,0\ninsert,12\nnext,0,9\ninsert,1\n";

// Lists what is written by the number of commands that are acknowledged, and how many objects there are then.
const WRITTEN: [(&str, u64); 7] = [
    ("", 0),
    ("id 0\n", 1),
    ("id 0\nid 1\n", 2),
    ("id 0\nid 1\ncursor 0\n", 2),
    ("id 0\nid 1\ncursor 0\nid 2\n", 3),
    ("id 0\nid 1\ncursor 0\nid 2\nnext 2\n1 3\n0 7\n", 3),
    ("id 0\nid 1\ncursor 0\nid 2\nnext 2\n1 3\n0 7\nid 3\n", 4),
];

// Gives what is written once `commands` commands are acknowledged, and the number of objects then.
fn written_after(commands: u64) -> (&'static str, u64) {
    match WRITTEN.get(commands as usize) {
        Some(written) => *written,
        None => ("more replies than commands", 0),
    }
}

// Says where the script ends once `commands` commands are acknowledged.
fn stop_after(commands: u64) -> Option<SessionStop> {
    if commands == 6 {
        None
    } else {
        Some(SessionStop::Disk)
    }
}

// Runs the script on a disk that stops, and counts the objects that are acknowledged.
fn run_stopped<R: AllocGlobal + Abort, D: Disk>(rt: &R, disk: &mut D) -> u64 {
    let mut out = sink_of(rt, &[]);
    let mut log_out = sink_of(rt, &[]);
    let ended = run(rt, disk, STOPPED, false, &mut out, &mut log_out);
    holds(rt, ended.stopped == stop_after(ended.acknowledged));
    let (replies, objects) = written_after(ended.acknowledged);
    holds(rt, out.written() == replies.as_bytes());
    objects
}

// Inserts one object more into an index of `count` objects.
fn check_more<R: AllocGlobal + Abort, D: Disk>(rt: &R, disk: &mut D, count: u64) {
    let more = count.saturating_add(1);
    let replies = format!(in rt.alloc(); "id {count}\ncount {more}\n").expect(rt, "memory");
    let case = Whole {
        script: b"insert,5\ncount\n",
        show: false,
        replies: replies.as_str(),
        commands: 2,
        logs: 0,
    };
    check_whole(rt, disk, &case);
}

// Checks that what a crash left is opened, has `objects` objects or one more, and goes on.
fn check_goes_on<R: AllocGlobal + Abort, D: Disk>(rt: &R, disk: &mut D, objects: u64) {
    let count = u64::from(count_on(rt, disk));
    holds(rt, count == objects || count == objects.saturating_add(1));
    check_more(rt, disk, count);
}

// Checks what a crash after the last call of a disk leaves.
fn check_left<R: AllocGlobal + Abort, D: Watched>(rt: &R, disk: &D, pick: u64, objects: u64) {
    let image = disk.left(rt.alloc(), pick).expect(rt, "memory");
    let mut again = disk_of(rt, image, None);
    check_goes_on(rt, &mut again, objects);
}

// Runs the script on a disk that stops at the call `stop`, checks what that leaves, and counts the objects that are
// acknowledged.
fn check_stop<R: AllocGlobal + Abort>(rt: &R, stop: u64) -> u64 {
    let mut disk = empty_disk(rt, Some(stop));
    let objects = run_stopped(rt, &mut disk);
    for pick in [0, 1, 165] {
        check_left(rt, &disk, pick, objects);
    }
    objects
}

#[test]
fn a_session_is_stopped_at_each_call_of_its_disk(rt: HostRuntime) {
    let mut objects = 0;
    for stop in 5..60 {
        objects = check_stop(&rt, stop);
    }
    holds(&rt, objects == 4);
}

// Describes the scripts of two sessions on an index, and where the root stands after them.
type Rooted = (&'static [u8], &'static [u8], u32);

// Holds the pages of a cursor's tree until the cursor is closed, or its session is done.
const ROOTS: [Rooted; 6] = [
    (b"insert,0\n", b"", 4),
    (b"insert,0\ninsert,10\n", b"", 3),
    (b"insert,0\ninsert,10\ncursor,0\ninsert,1\n", b"", 4),
    (
        b"insert,0\ninsert,10\ncursor,0\ninsert,1\ninsert,2\n",
        b"",
        5,
    ),
    (
        b"insert,0\ninsert,10\ncursor,0\ninsert,1\ninsert,2\nclose,0\ninsert,3\n",
        b"",
        3,
    ),
    (
        b"insert,0\ninsert,10\ncursor,0\ninsert,1\ninsert,2\n",
        b"insert,3\n",
        3,
    ),
];

// Gives the page of the root after two scripts.
fn root_after<R: AllocGlobal + Abort, D: Disk>(
    rt: &R,
    disk: &mut D,
    script: &[u8],
    more: &[u8],
) -> u32 {
    let mut out = sink_of(rt, &[]);
    let mut log_out = sink_of(rt, &[]);
    let mut index = opened(rt, disk);
    let ended = run_on(rt, &mut index, disk, script, false, &mut out, &mut log_out);
    if ended.stopped.is_none() {
        run_on(rt, &mut index, disk, more, false, &mut out, &mut log_out);
    }
    index.live().root
}

// Checks the page of the root after two scripts.
fn check_root<R: AllocGlobal + Abort>(rt: &R, case: &Rooted) {
    let (script, more, root) = *case;
    let mut disk = empty_disk(rt, None);
    holds(rt, root_after(rt, &mut disk, script, more) == root);
}

#[test]
fn a_cursor_holds_the_pages_of_its_tree(rt: HostRuntime) {
    for case in &ROOTS {
        check_root(&rt, case);
    }
}

const ONE: Whole<'static> = Whole {
    script: b"insert,7\n",
    show: false,
    replies: "id 0\n",
    commands: 1,
    logs: 0,
};

// Gives the bytes of an index of one object in which one byte of its root's page is changed.
fn damaged_file<R: AllocGlobal + Abort>(rt: &R) -> Vec<u8> {
    let mut disk = empty_disk(rt, None);
    check_whole(rt, &mut disk, &ONE);
    let mut bytes = copied(rt, &disk);
    let at = 4 * 4096 + 1;
    if at < bytes.len() {
        bytes[at] = 1;
    }
    bytes
}

// Says whether a session stopped since page 4 holds no node.
fn is_bad(stopped: &Option<SessionStop>) -> bool {
    matches!(stopped, Some(SessionStop::Damaged(PageFault::Bad(4, _))))
}

// Checks that a session ends at the first command that comes to the page.
fn check_damaged<R: AllocGlobal + Abort, D: Disk>(rt: &R, disk: &mut D) {
    let mut out = sink_of(rt, &[]);
    let mut log_out = sink_of(rt, &[]);
    let script = b"count\nhello\nrange,0,7\ncount\n";
    let ended = run(rt, disk, script, false, &mut out, &mut log_out);
    holds(rt, is_bad(&ended.stopped));
    holds(rt, ended.acknowledged == 2);
    holds(
        rt,
        out.written() == b"count 1\nrefused command\n".as_slice(),
    );
    holds(rt, log_out.written().is_empty());
}

#[test]
fn a_session_ends_at_a_damaged_page(rt: HostRuntime) {
    let mut disk = disk_of(&rt, damaged_file(&rt), None);
    check_damaged(&rt, &mut disk);
}
