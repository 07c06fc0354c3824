use crate::carried::{ROOT, holds, part, put, small_file, small_log};
use disk_model::{Disk, MemoryDisk};
use job_seal::{carry_logs, prove_logs, seal_index};
use outside_io::{MemorySink, MemorySource, Sink, Source, Status};
use prune_log::{encode_log, frame};
use std::alloc::{AllocError, Global};
use std::process::Abort;

// Gives a frame of these bytes.
fn framed(rt: &(impl AllocGlobal + Abort), bytes: &[u8]) -> Vec<u8> {
    let mut out = Vec::new(rt.alloc());
    frame(bytes, &mut out).expect(rt, "memory");
    out
}

// Gives the small log as a frame.
fn small_frame(rt: &(impl AllocGlobal + Abort)) -> Vec<u8> {
    let log = small_log(rt);
    let bytes = encode_log(rt.alloc(), &log).expect(rt, "memory");
    framed(rt, &bytes)
}

// Gives two frames of the small log, one after the other.
fn two_frames(rt: &(impl AllocGlobal + Abort)) -> Vec<u8> {
    let mut bytes = small_frame(rt);
    let again = small_frame(rt);
    bytes.extend_from_slice(&again).expect(rt, "memory");
    bytes
}

// Makes a disk with a file.
fn try_disk(alloc: Global, file: Vec<u8>) -> Result<MemoryDisk, AllocError> {
    let room = file.len() as u64;
    MemoryDisk::new(alloc, file, room, 1000, Vec::new(alloc), None)
}

// Does the same, and ends the test where memory is lacking.
fn disk_of(rt: &(impl AllocGlobal + Abort), file: Vec<u8>) -> MemoryDisk {
    try_disk(rt.alloc(), file).expect(rt, "memory")
}

// Makes a sink with room for `room` bytes, whose first call fails or none.
fn sink_of(rt: &(impl AllocGlobal + Abort), room: usize, fails: bool) -> MemorySink {
    let mut calls = Vec::new(rt.alloc());
    if fails {
        calls.push(0).expect(rt, "memory");
    }
    MemorySink::new(rt.alloc(), room, calls).expect(rt, "memory")
}

// Makes a source of these bytes.
fn source_of(rt: &impl AllocGlobal, bytes: Vec<u8>) -> MemorySource {
    MemorySource::new(bytes, 1000, Vec::new(rt.alloc()))
}

// Makes a source of a copy of these bytes.
fn copy_of(rt: &(impl AllocGlobal + Abort), bytes: &[u8]) -> MemorySource {
    source_of(rt, bytes.to_vec(rt.alloc()).expect(rt, "memory"))
}

// Proves carried logs.
fn prove<S: Source, K: Sink>(
    alloc: Global,
    log_in: &mut S,
    root: &[u8; 32],
    out: &mut K,
) -> Status {
    prove_logs(alloc, log_in, root, out)
}

// Carries logs.
fn carry<D: Disk, S: Source, K: Sink, L: Sink>(
    alloc: Global,
    disk: &mut D,
    log_in: &mut S,
    out: &mut K,
    log_out: &mut L,
) -> Status {
    carry_logs(alloc, disk, log_in, out, log_out)
}

// Seals an index.
fn seal<D: Disk, K: Sink>(alloc: Global, disk: &mut D, out: &mut K) -> Status {
    seal_index(alloc, disk, out)
}

// Proves carried logs, and gives the status and what is written.
fn proved(
    rt: &(impl AllocGlobal + Abort),
    mut log_in: MemorySource,
    root: &[u8; 32],
) -> (Status, MemorySink) {
    let mut out = sink_of(rt, 1000, false);
    let status = prove(rt.alloc(), &mut log_in, root, &mut out);
    (status, out)
}

// Proves carried logs, and checks what is written.
fn check_proved(rt: &(impl AllocGlobal + Abort), bytes: &[u8], root: &[u8; 32], ended: (u8, &str)) {
    let (status, out) = proved(rt, copy_of(rt, bytes), root);
    holds(rt, out.written() == ended.1.as_bytes());
    holds(rt, status == Status(ended.0));
}

// Gives the frame of the carried log that is written for the small log.
fn carried(rt: &(impl AllocGlobal + Abort)) -> Vec<u8> {
    let mut disk = disk_of(rt, small_file(rt));
    let mut log_in = source_of(rt, small_frame(rt));
    let mut out = sink_of(rt, 1000, false);
    let mut log_out = sink_of(rt, 20000, false);
    let _status = carry(rt.alloc(), &mut disk, &mut log_in, &mut out, &mut log_out);
    log_out.written().to_vec(rt.alloc()).expect(rt, "memory")
}

// Seals a file, and gives the status and what is written.
fn sealed(rt: &(impl AllocGlobal + Abort), file: Vec<u8>, fails: bool) -> (Status, MemorySink) {
    let mut disk = disk_of(rt, file);
    let mut out = sink_of(rt, 1000, fails);
    let status = seal(rt.alloc(), &mut disk, &mut out);
    (status, out)
}

const SEALED: &[u8] = b"sealed 96faee49896294ab7b68c03e936284bfed837cd7a85819d3f573c3a6c6649e7a\n";

#[test]
fn a_sound_file_is_sealed(rt: HostRuntime) {
    let (status, out) = sealed(&rt, small_file(&rt), false);
    holds(&rt, status == Status(0));
    holds(&rt, out.written() == SEALED);
    let (status, _) = sealed(&rt, small_file(&rt), true);
    holds(&rt, status == Status(4));
}

// Gives the small file without the object on its page 4.
fn empty_leaf(rt: &(impl AllocGlobal + Abort)) -> Vec<u8> {
    let mut file = small_file(rt);
    put(&mut file, 16387, &[0]);
    file
}

#[test]
fn a_file_with_a_fault_is_not_sealed(rt: HostRuntime) {
    let (status, out) = sealed(&rt, empty_leaf(&rt), false);
    holds(&rt, status == Status(1));
    holds(&rt, out.written().starts_with(b"rejected "));
    let zeros = vec![in rt.alloc(); 0; 20480].expect(&rt, "memory");
    let (status, _) = sealed(&rt, zeros, false);
    holds(&rt, status == Status(6));
}

// Gives two frames of the small log. The second names another generation.
fn other_frames(rt: &(impl AllocGlobal + Abort)) -> Vec<u8> {
    let mut bytes = two_frames(rt);
    let half = bytes.len() / 2;
    put(&mut bytes, half + 21, &[9]);
    bytes
}

// Carries logs to an output with room, and checks how that ends.
fn check_carried<D: Disk, L: Sink>(
    rt: &(impl AllocGlobal + Abort),
    disk: &mut D,
    logs: &[u8],
    log_out: &mut L,
    ended: (u8, &str),
) {
    let mut log_in = copy_of(rt, logs);
    let mut out = sink_of(rt, 1000, false);
    let status = carry(rt.alloc(), disk, &mut log_in, &mut out, log_out);
    holds(rt, status == Status(ended.0));
    holds(rt, out.written() == ended.1.as_bytes());
}

#[test]
fn logs_are_carried(rt: HostRuntime) {
    let mut disk = disk_of(&rt, small_file(&rt));
    let mut log_out = sink_of(&rt, 20000, false);
    let second = "frame 0 carried\nframe 1 rejected otherstate 9 4 2 4\nlog rejected\n";
    let logs = other_frames(&rt);
    check_carried(&rt, &mut disk, &logs, &mut log_out, (1, second));
    holds(&rt, log_out.written().len() == 16814);
    let cut = (1, "log rejected cut\n");
    check_carried(&rt, &mut disk, b"MTLG", &mut log_out, cut);
}

#[test]
fn carried_logs_are_proved_without_the_file(rt: HostRuntime) {
    let bytes = carried(&rt);
    let lines = "frame 0 proved\nrange,7,0,0\nhits 1\n0 7\nlog proved\n";
    check_proved(&rt, &bytes, &ROOT, (0, lines));
    check_proved(&rt, &[], &ROOT, (0, "log proved\n"));
}

// Checks that a carried log is rejected in which the byte at `at` is `byte`.
fn check_rejected(rt: &(impl AllocGlobal + Abort), bytes: &[u8], at: usize, byte: u8, lines: &str) {
    let mut changed = bytes.to_vec(rt.alloc()).expect(rt, "memory");
    put(&mut changed, at, &[byte]);
    check_proved(rt, &changed, &ROOT, (1, lines));
}

#[test]
fn changed_carried_logs_are_rejected(rt: HostRuntime) {
    let bytes = carried(&rt);
    let path = "frame 0 rejected path 0\nlog rejected\n";
    let mut other = ROOT;
    other[0] = 0;
    check_proved(&rt, &bytes, &other, (1, path));
    let cut = part(&bytes, 0, 16813);
    check_proved(&rt, cut, &ROOT, (1, "log rejected cut\n"));
    // Changes letters, the version, a byte of page 4, and one of the log.
    let magic = "frame 0 rejected magic\nlog rejected\n";
    check_rejected(&rt, &bytes, 8, 0, magic);
    let version = "frame 0 rejected version\nlog rejected\n";
    check_rejected(&rt, &bytes, 12, 2, version);
    check_rejected(&rt, &bytes, 16, 6, path);
    let four = "frame 0 rejected path 4\nlog rejected\n";
    check_rejected(&rt, &bytes, 13000, 1, four);
    let mark = "frame 0 rejected log mark\nlog rejected\n";
    check_rejected(&rt, &bytes, 16813, 9, mark);
}

// Says whether bytes are rejected under the small file's root digest, or proved with the answers of the small log.
fn shows_no_others(rt: &(impl AllocGlobal + Abort), bytes: &[u8]) -> bool {
    let (status, out) = proved(rt, copy_of(rt, bytes), &ROOT);
    let shows = out.written().ends_with(b"\nhits 1\n0 7\nlog proved\n");
    status == Status(1) || (status == Status(0) && shows)
}

// Changes a bit of the byte at `at`, and puts it back.
fn check_bit(rt: &(impl AllocGlobal + Abort), bytes: &mut [u8], at: usize, byte: u8) {
    put(bytes, at, &[byte ^ 1]);
    assert!(rt; shows_no_others(rt, bytes), "at {at}");
    put(bytes, at, &[byte]);
}

#[test]
fn no_carried_log_with_a_changed_byte_shows_other_answers(rt: HostRuntime) {
    let bytes = carried(&rt);
    let mut other = bytes.as_slice().to_vec(rt.alloc()).expect(&rt, "memory");
    for (at, byte) in bytes.iter().enumerate() {
        check_bit(&rt, &mut other, at, *byte);
    }
}

// Gives the status of a frame of these bytes.
fn status_of(rt: &(impl AllocGlobal + Abort), bytes: &[u8]) -> Status {
    let (status, _) = proved(rt, source_of(rt, framed(rt, bytes)), &ROOT);
    status
}

// Says whether bytes are rejected since they are cut.
fn is_cut(rt: &(impl AllocGlobal + Abort), bytes: &[u8]) -> bool {
    let (_, out) = proved(rt, copy_of(rt, bytes), &ROOT);
    out.written() == b"log rejected cut\n".as_slice()
}

#[test]
fn no_carried_log_that_is_cut_is_accepted(rt: HostRuntime) {
    let bytes = carried(&rt);
    let body = part(&bytes, 8, bytes.len());
    for size in 0..body.len() {
        let status = status_of(&rt, part(body, 0, size));
        assert!(rt; status == Status(1), "a frame of {size} bytes");
    }
    for size in 1..bytes.len() {
        assert!(rt; is_cut(&rt, part(&bytes, 0, size)), "{size} bytes");
    }
}

// Proves two frames where the calls numbered in `fails` fail. The second announces more bytes than follow.
fn check_two(rt: &(impl AllocGlobal + Abort), fails: &[u64], ended: (u8, &str)) {
    let mut bytes = carried(rt);
    bytes.extend_from_slice(&[0xff; 20]).expect(rt, "memory");
    let fails = fails.to_vec(rt.alloc()).expect(rt, "memory");
    let (status, out) = proved(rt, MemorySource::new(bytes, 1000, fails), &ROOT);
    holds(rt, out.written() == ended.1.as_bytes());
    holds(rt, status == Status(ended.0));
}

#[test]
fn frames_are_shown_as_they_come(rt: HostRuntime) {
    // Announces more bytes than any memory has.
    let cut = "frame 0 proved\nrange,7,0,0\nhits 1\n0 7\nlog rejected cut\n";
    check_two(&rt, &[], (1, cut));
    // Takes a call for the length of the first frame and 17 for its bytes.
    let fault = "frame 0 proved\nrange,7,0,0\nhits 1\n0 7\nfault input\n";
    check_two(&rt, &[17], (3, "fault input\n"));
    check_two(&rt, &[18], (3, fault));
    check_two(&rt, &[19], (3, fault));
}

// Carries two frames where there is room for `frames` bytes of frames and for `lines` bytes of lines.
fn check_room(
    rt: &(impl AllocGlobal + Abort),
    frames: usize,
    lines: usize,
    framed: usize,
    ended: (u8, &str),
) {
    let mut disk = disk_of(rt, small_file(rt));
    let mut log_in = source_of(rt, two_frames(rt));
    let mut out = sink_of(rt, lines, false);
    let mut log_out = sink_of(rt, frames, false);
    let status = carry(rt.alloc(), &mut disk, &mut log_in, &mut out, &mut log_out);
    holds(rt, out.written() == ended.1.as_bytes());
    holds(rt, log_out.written().len() == framed);
    holds(rt, status == Status(ended.0));
}

// Writes frames of 16814 bytes and lines of 16. There is room for one frame, or for both and one line, or for all.
#[test]
fn a_line_stands_behind_its_frame(rt: HostRuntime) {
    let one = (4, "frame 0 carried\n");
    check_room(&rt, 33627, 1000, 16814, one);
    check_room(&rt, 33628, 31, 33628, one);
    let both = (0, "frame 0 carried\nframe 1 carried\nlog carried\n");
    check_room(&rt, 33628, 44, 33628, both);
}
