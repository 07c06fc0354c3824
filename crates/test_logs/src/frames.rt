use crate::models::holds;
use prune_log::{
    LogFault, decode_frames, decode_join_frames, decode_join_log, decode_log, encode_join_log,
    encode_log, frame,
};
use std::process::Abort;

// Is the log of the range query of radius 7 about (0, 0) on a small index, whose one object is 7 away. It has generation 2,
// root 4, one answer and one record with the mark Near.
const LOG: [u8; 61] = [
    0x4d, 0x54, 0x4c, 0x47, 1, 1, 0, 0, 0, 0, 0, 0, 0, 2, 0, 0, 0, 4, 0, 0, 0, 0, 0, 0, 0, 7, 2, 0,
    0, 0, 0, 0, 0, 0, 0, 0, 0, 0, 1, 0, 0, 0, 0, 0, 0, 0, 0, 0, 0, 0, 7, 0, 0, 0, 1, 0, 0, 0, 4, 1,
    2,
];

// Reads the small log, checks its fields, and writes it again.
fn written_again(rt: &(impl AllocGlobal + Abort)) -> Vec<u8> {
    let log = decode_log(rt.alloc(), &LOG).expect(rt, "a log");
    let answers = log.answers.as_slice().len();
    holds(rt, (log.generation, log.root, answers) == (2, 4, 1));
    encode_log(rt.alloc(), &log).expect(rt, "memory")
}

#[test]
fn the_log_of_a_small_index_is_read_and_written(rt: HostRuntime) {
    let bytes = written_again(&rt);
    holds(&rt, bytes.as_slice() == LOG.as_slice());
}

// Says why bytes are no log.
fn fault_of(rt: &impl AllocGlobal, bytes: &[u8]) -> Option<LogFault> {
    decode_log(rt.alloc(), bytes).err()
}

// Gives the small log with a byte more.
fn too_long(rt: &(impl AllocGlobal + Abort)) -> Vec<u8> {
    let mut bytes = LOG.to_vec(rt.alloc()).expect(rt, "memory");
    bytes.push(0).expect(rt, "memory");
    bytes
}

#[test]
fn a_log_that_is_cut_or_too_long(rt: HostRuntime) {
    for size in 0..LOG.len() {
        assert!(rt;
            fault_of(&rt, &LOG[..size]) == Some(LogFault::Cut),
            "{size}"
        );
    }
    let long = too_long(&rt);
    holds(&rt, fault_of(&rt, &long) == Some(LogFault::Tail));
}

// Sets the byte at `at` of bytes.
fn put(bytes: &mut [u8], at: usize, byte: u8) {
    if at < bytes.len() {
        bytes[at] = byte;
    }
}

// Checks the first fault of the small log in which the byte at `at` is `byte`.
fn check_fault(rt: &(impl AllocGlobal + Abort), at: usize, byte: u8, fault: LogFault) {
    let mut bytes = LOG;
    put(&mut bytes, at, byte);
    assert!(rt; fault_of(rt, &bytes) == Some(fault), "{at}");
}

// Changes logs in one byte. A count of answers of more than 2^31 asks for no room.
#[test]
fn a_log_is_refused_for_its_first_fault(rt: HostRuntime) {
    check_fault(&rt, 0, b'm', LogFault::Magic);
    check_fault(&rt, 4, 2, LogFault::Version);
    check_fault(&rt, 5, 3, LogFault::Kind);
    check_fault(&rt, 26, 0, LogFault::Kind);
    check_fault(&rt, 35, 255, LogFault::Cut);
    check_fault(&rt, 59, 33, LogFault::Mark);
    check_fault(&rt, 60, 3, LogFault::Mark);
    check_fault(&rt, 59, 0, LogFault::Tail);
}

// Gives the frame of the small log.
fn framed(rt: &(impl AllocGlobal + Abort)) -> Vec<u8> {
    let mut bytes = Vec::new(rt.alloc());
    frame(&LOG, &mut bytes).expect(rt, "memory");
    bytes
}

// Counts the logs of frames.
fn count_of(rt: &(impl AllocGlobal + Abort), bytes: &[u8]) -> usize {
    decode_frames(rt.alloc(), bytes).expect(rt, "frames").len()
}

// Says why bytes are no frames of logs.
fn frames_fault(rt: &impl AllocGlobal, bytes: &[u8]) -> Option<LogFault> {
    decode_frames(rt.alloc(), bytes).err()
}

// Says why bytes are no frames of logs of joins.
fn join_frames_fault(rt: &impl AllocGlobal, bytes: &[u8]) -> Option<LogFault> {
    decode_join_frames(rt.alloc(), bytes).err()
}

// Gives all bytes but the last.
fn cut(bytes: &[u8]) -> &[u8] {
    match bytes.split_last() {
        Some((_, front)) => front,
        None => bytes,
    }
}

#[test]
fn a_frame_is_a_length_and_a_log(rt: HostRuntime) {
    holds(&rt, count_of(&rt, &[]) == 0);
    let frame = framed(&rt);
    let bytes = frame.as_slice();
    assert!(rt; bytes.len() == 69);
    holds(&rt, &bytes[..8] == [0u8, 0, 0, 0, 0, 0, 0, 61].as_slice());
    holds(&rt, count_of(&rt, bytes) == 1);
    holds(&rt, frames_fault(&rt, cut(bytes)) == Some(LogFault::Cut));
    holds(&rt, join_frames_fault(&rt, bytes) == Some(LogFault::Kind));
}

// Is the log of a join with the answers (1, 0, 1) and (2, 1, 0), and with no record.
const JOIN: [u8; 86] = [
    0x4d, 0x54, 0x4c, 0x47, 1, 3, 0, 0, 0, 0, 0, 0, 0, 2, 0, 0, 0, 4, 0, 0, 0, 0, 0, 0, 0, 3, 0, 0,
    0, 5, 0, 0, 0, 0, 0, 0, 0, 1, 0, 0, 0, 0, 0, 0, 0, 2, 0, 0, 0, 1, 0, 0, 0, 0, 0, 0, 0, 0, 0, 0,
    0, 1, 0, 0, 0, 2, 0, 0, 0, 1, 0, 0, 0, 0, 0, 0, 0, 0, 0, 0, 0, 0, 0, 0, 0, 0,
];

// Reads the log of a join, checks its right tree, and writes it again.
fn join_written_again(rt: &(impl AllocGlobal + Abort)) -> Vec<u8> {
    let log = decode_join_log(rt.alloc(), &JOIN).expect(rt, "a log");
    holds(rt, log.right == (3, 5));
    encode_join_log(rt.alloc(), &log).expect(rt, "memory")
}

// Says why bytes are no log of a join.
fn join_fault(rt: &impl AllocGlobal, bytes: &[u8]) -> Option<LogFault> {
    decode_join_log(rt.alloc(), bytes).err()
}

#[test]
fn the_log_of_a_join_is_read_and_written(rt: HostRuntime) {
    let bytes = join_written_again(&rt);
    holds(&rt, bytes.as_slice() == JOIN.as_slice());
    let mut order = JOIN;
    put(&mut order, 65, 1);
    put(&mut order, 69, 0);
    put(&mut order, 77, 1);
    holds(&rt, join_fault(&rt, &order) == Some(LogFault::Order));
    holds(&rt, join_fault(&rt, &LOG) == Some(LogFault::Kind));
}
