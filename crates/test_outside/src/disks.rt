ghost use Rattle.std.specs.Prelude.{◌≤◌, length};

use disk_model::{
    Disk, Failed, FileDisk, FileProperty, MemoryDisk, SharedDisk, images_mix, looks_join,
    opening_then_stretch, read_may_be_left, stretch_goes_on, stretches_join, written_is_torn,
};
use std::alloc::{AllocError, Global};
use std::fs::{self, File, OpenOptions};
use std::process::Abort;

// Is a call of a disk.
pub(crate) enum Call {
    Size,
    Read,
    Sync,
    Write(u64, &'static [u8]),
}

use Call::{Read, Size, Sync, Write};

// Is a run of a disk in memory that holds 1, 2, 3, has room for 8 bytes and a record of 20 units.
struct Run {
    fails: &'static [u64],
    stop: Option<u64>,
    calls: &'static [Call],
    answers: &'static [bool],
    bytes: &'static [u8],
    // Has a moment, a pick and the image.
    images: &'static [(u64, u64, &'static [u8])],
}

const RUNS: [Run; 9] = [
    // Shows each pick.
    Run {
        fails: &[],
        stop: None,
        calls: &[Write(1, &[9, 8, 7]), Sync, Size],
        answers: &[true, true, true],
        bytes: &[1, 9, 8, 7],
        images: &[
            (0, 0, &[1, 2, 3]),
            (0, 1, &[1, 9, 8, 7]),
            (0, 2, &[1, 2, 2, 2]),
            (0, 255, &[1, 255, 255, 255]),
            (0, 256, &[1, 0, 0, 0]),
            (1, 0, &[1, 2, 3]),
            (1, 5, &[1, 5, 5, 5]),
            (2, 0, &[1, 9, 8, 7]),
            (3, 5, &[1, 9, 8, 7]),
        ],
    },
    // Leaves the range of a failed write open, and what a read gives as it was.
    Run {
        fails: &[0],
        stop: None,
        calls: &[Write(1, &[9]), Read],
        answers: &[false, true],
        bytes: &[1, 2, 3],
        images: &[(2, 0, &[1, 2, 3]), (2, 1, &[1, 9, 3]), (2, 5, &[1, 5, 3])],
    },
    // Fails a write past the room, whose end counts among the sizes.
    Run {
        fails: &[],
        stop: None,
        calls: &[Write(7, &[9, 9]), Write(7, &[4])],
        answers: &[false, true],
        bytes: &[1, 2, 3, 0, 0, 0, 0, 4],
        images: &[
            (0, 1, &[1, 2, 3, 0, 0, 0, 0, 9, 9]),
            (2, 1, &[1, 2, 3, 0, 0, 0, 0, 4, 9]),
        ],
    },
    // Fills a gap with 0.
    Run {
        fails: &[],
        stop: None,
        calls: &[Write(5, &[9])],
        answers: &[true],
        bytes: &[1, 2, 3, 0, 0, 9],
        images: &[
            (1, 0, &[1, 2, 3]),
            (1, 1, &[1, 2, 3, 0, 0, 9]),
            (1, 4, &[1, 2, 3, 4, 4, 4]),
        ],
    },
    // Closes nothing by a sync that failed.
    Run {
        fails: &[1],
        stop: None,
        calls: &[Write(0, &[9]), Sync],
        answers: &[true, false],
        bytes: &[9, 2, 3],
        images: &[(2, 0, &[1, 2, 3]), (2, 1, &[9, 2, 3]), (2, 5, &[5, 2, 3])],
    },
    // Records no call that has too few units left, and still a shorter one.
    Run {
        fails: &[],
        stop: None,
        calls: &[
            Write(0, &[9, 9, 9, 9, 9, 9, 9, 9]),
            Sync,
            Write(0, &[7, 7, 7, 7, 7, 7, 7, 7]),
            Write(0, &[5]),
            Sync,
            Read,
        ],
        answers: &[true, true, true, false, true, false],
        bytes: &[7, 7, 7, 7, 7, 7, 7, 7],
        images: &[
            (3, 0, &[9, 9, 9, 9, 9, 9, 9, 9]),
            (3, 1, &[7, 7, 7, 7, 7, 7, 7, 7]),
            (6, 0, &[7, 7, 7, 7, 7, 7, 7, 7]),
        ],
    },
    // Stops at each call.
    Run {
        fails: &[],
        stop: Some(0),
        calls: &[Write(0, &[9]), Sync, Write(1, &[8]), Sync],
        answers: &[false, false, false, false],
        bytes: &[1, 2, 3],
        images: &[(4, 0, &[1, 2, 3]), (4, 5, &[5, 5, 3])],
    },
    Run {
        fails: &[],
        stop: Some(1),
        calls: &[Write(0, &[9]), Sync, Write(1, &[8]), Sync],
        answers: &[true, false, false, false],
        bytes: &[9, 2, 3],
        images: &[(4, 0, &[1, 2, 3]), (4, 5, &[5, 5, 3])],
    },
    Run {
        fails: &[],
        stop: Some(3),
        calls: &[Write(0, &[9]), Sync, Write(1, &[8]), Sync],
        answers: &[true, true, true, false],
        bytes: &[9, 8, 3],
        images: &[(4, 0, &[9, 2, 3]), (4, 5, &[9, 5, 3])],
    },
];

// Ends a test in which `is_so` is false.
pub(crate) fn holds(rt: &impl Abort, is_so: bool) {
    assert!(rt; is_so);
}

// Makes a call, and says whether it answered `Ok`.
pub(crate) fn make<D: Disk>(rt: &impl Abort, disk: &mut D, call: &Call) -> bool {
    match call {
        Size => disk.size().is_ok(),
        Read => disk.read_at(0, &mut [0; 2]).is_ok(),
        Sync => disk.sync().is_ok(),
        Write(at, bytes) => {
            assert!(rt; *at < 10_000 && bytes.len() < 100);
            disk.write_at(*at, bytes).is_ok()
        }
    }
}

// Makes the calls of a run, and compares their answers.
fn play<D: Disk>(rt: &impl Abort, disk: &mut D, run: &Run) {
    for (call, want) in run.calls.iter().zip(run.answers) {
        holds(rt, make(rt, disk, call) == *want);
    }
}

// Compares an image of a disk.
fn check_image(
    rt: &(impl AllocGlobal + Abort),
    disk: &MemoryDisk,
    moment: u64,
    pick: u64,
    want: &[u8],
) {
    assert!(rt; moment <= disk.moments());
    let image = disk.image(rt.alloc(), moment, pick).expect(rt, "memory");
    assert!(rt; image.as_slice() == want, "at {moment}, pick {pick}");
}

// Makes a disk that holds 1, 2, 3. The calls numbered in `fails` fail, and all from `stop` on.
fn try_disk(alloc: Global, fails: &[u64], stop: Option<u64>) -> Result<MemoryDisk, AllocError> {
    let first = [1, 2, 3].to_vec(alloc)?;
    MemoryDisk::new(alloc, first, 8, 20, fails.to_vec(alloc)?, stop)
}

// Does the same, and ends the test where memory is lacking.
fn disk_of(rt: &(impl AllocGlobal + Abort), fails: &[u64], stop: Option<u64>) -> MemoryDisk {
    try_disk(rt.alloc(), fails, stop).expect(rt, "memory")
}

// Checks a run.
fn check(rt: &(impl AllocGlobal + Abort), run: &Run) {
    let mut disk = disk_of(rt, run.fails, run.stop);
    play(rt, &mut disk, run);
    holds(rt, disk.moments() == run.calls.len() as u64);
    holds(rt, disk.bytes() == run.bytes);
    for (moment, pick, want) in run.images {
        check_image(rt, &disk, *moment, *pick, want);
    }
}

#[test]
fn a_disk_in_memory_shows_what_a_crash_may_leave(rt: HostRuntime) {
    for run in &RUNS {
        check(&rt, run);
    }
}

// Reads four bytes from `at` on.
fn four_at<D: Disk>(rt: &impl Abort, disk: &mut D, at: u64) -> [u8; 4]
    requires { at ≤ 100 }
{
    let mut buf = [9; 4];
    disk.read_at(at, &mut buf).expect(rt, "read");
    buf
}

// Reads three bytes from 1 on.
fn three_from_one<D: Disk>(rt: &impl Abort, disk: &mut D) -> [u8; 3] {
    let mut buf = [9; 3];
    disk.read_at(1, &mut buf).expect(rt, "read");
    buf
}

// Writes bytes from `at` on, and says whether they are written.
fn is_written<D: Disk>(disk: &mut D, at: u64, bytes: &[u8]) -> bool
    requires at { at ≤ 100 }
    requires few { length bytes.now ≤ 100 }
{
    disk.write_at(at, bytes).is_ok()
}

#[test]
fn a_read_past_the_end_gives_0(rt: HostRuntime) {
    let mut disk = disk_of(&rt, &[], None);
    holds(&rt, four_at(&rt, &mut disk, 2) == [3, 0, 0, 0]);
    holds(&rt, disk.size() == Ok(3));
}

// Reads, writes and syncs a disk that is empty.
fn check_empty<D: Disk>(rt: &impl Abort, disk: &mut D) {
    holds(rt, four_at(rt, disk, 2) == [0, 0, 0, 0]);
    holds(rt, is_written(disk, 3, &[7, 8]));
    holds(rt, disk.sync() == Ok(()));
    holds(rt, disk.size() == Ok(5));
}

// Reads that disk again where it may not be written.
fn check_again<D: Disk>(rt: &impl Abort, disk: &mut D) {
    holds(rt, four_at(rt, disk, 2) == [0, 7, 8, 0]);
    holds(rt, !is_written(disk, 0, &[1]));
}

#[test]
fn a_real_file_is_read_written_and_opened_again(rt: HostRuntime) {
    let path = "disk_of_a_test";
    let mut options = OpenOptions::new();
    let file = options
        .read(true)
        .write(true)
        .create(true)
        .truncate(true)
        .open(&rt, path)
        .expect(&rt, "made");
    check_empty(&rt, &mut FileDisk::new(file));
    let again = File::open(&rt, path).expect(&rt, "opened");
    check_again(&rt, &mut FileDisk::new(again));
    fs::remove_file(&rt, path).expect(&rt, "removed");
}

// Reads by a reader on a disk that fails at its call 2, and then by the disk itself.
fn check_reader<D: Disk, E: Disk>(rt: &impl Abort, disk: &mut D, reader: &mut E) {
    holds(rt, three_from_one(rt, reader) == [2, 7, 0]);
    holds(rt, reader.size() == Ok(3));
    holds(rt, reader.size().is_err());
    holds(rt, disk.size() == Ok(3));
    holds(rt, disk.size().is_err());
}

// Reads what was written by a reader of a disk in memory, which fails by the disk's own list of calls.
#[test]
fn a_reader_reads_the_memory_as_it_is(rt: HostRuntime) {
    let mut disk = disk_of(&rt, &[2], None);
    holds(&rt, is_written(&mut disk, 2, &[7]));
    let mut reader = disk.reader(rt.alloc()).expect(&rt, "a reader");
    check_reader(&rt, &mut disk, &mut reader);
}

#[test]
fn a_reader_reads_the_file_as_it_is(rt: HostRuntime) {
    let path = "disk_of_a_reader";
    fs::write(&rt, path, &[4, 5, 6]).expect(&rt, "written");
    let file = FileDisk::new(File::open(&rt, path).expect(&rt, "opened"));
    let mut reader = file.reader(rt.alloc()).expect(&rt, "a reader");
    holds(&rt, three_from_one(&rt, &mut reader) == [5, 6, 0]);
    fs::remove_file(&rt, path).expect(&rt, "removed");
}

// Fails to sync a disk over the null device, which the system refuses. So a sync of a real file asks the system.
#[test]
fn a_sync_of_a_file_asks_the_system(rt: HostRuntime) {
    let mut disk = FileDisk::new(File::open(&rt, "/dev/null").expect(&rt, "opened"));
    holds(&rt, disk.size() == Ok(0));
    holds(&rt, disk.sync() == Err(Failed));
}

// Is what every file has.
pub(crate) struct Any;

impl FileProperty for Any {
    ghost holds = { λ file. Unit {0} };
}

#[test]
fn the_laws_speak_of_a_disk_in_memory(rt: HostRuntime) {
    let disk = disk_of(&rt, &[], None);
    images_mix(&disk);
    read_may_be_left(&disk);
    written_is_torn();
    looks_join(&disk, &disk, &disk);
    stretches_join::<MemoryDisk, Any>(&disk, &disk, &disk);
    stretch_goes_on::<MemoryDisk, Any>(&disk, &disk, &disk);
    opening_then_stretch::<MemoryDisk, Any>(&disk, &disk, &disk);
}
