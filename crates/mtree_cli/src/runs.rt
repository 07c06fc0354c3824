//! Runs of the program's words on devices in memory, for the tests.

ghost use Rattle.std.specs.Prelude.{◌≤◌};

use crate::program::run;
use crate::request::Request;
use disk_model::{MemoryDisk, SharedDisk};
use outside_io::{MemorySink, MemorySource, Status};
use std::alloc::{AllocError, Global};
use std::process::Abort;
use std::thread::Threads;

// The input of a run besides its indexes, and the call of its input, of its logs and of its output that fails.
#[derive(Clone, Copy)]
pub struct Given<'a> {
    pub words: &'a str,
    pub input: &'a [u8],
    pub logs: &'a [u8],
    pub input_fails: Option<u64>,
    pub logs_fail: Option<u64>,
    pub out_fails: Option<u64>,
}

// The result of a run: its status, and what is on its outputs.
#[derive(Drop)]
pub struct Ran {
    pub status: Status,
    pub out: Vec<u8>,
    pub log: Vec<u8>,
}

// Returns a run of `words` on the input `input`, on devices that never fail.
pub fn with_input<'a>(words: &'a str, input: &'a str) -> Given<'a> {
    Given {
        words,
        input: input.as_bytes(),
        logs: &[],
        input_fails: None,
        logs_fail: None,
        out_fails: None,
    }
}

// Returns a run of `words` on the logs `logs`.
pub fn with_logs<'a>(words: &'a str, logs: &'a [u8]) -> Given<'a> {
    Given {
        logs,
        ..with_input(words, "")
    }
}

// Makes a disk that holds `bytes`, and from the call `stop` on fails.
pub fn disk(rt: &(impl AllocGlobal + Abort), bytes: &[u8], stop: Option<u64>) -> MemoryDisk {
    let bytes = copied(rt, bytes);
    let room = (bytes.len() as u64).max(65536);
    let fails = Vec::new(rt.alloc());
    MemoryDisk::new(rt.alloc(), bytes, room, 1_000_000, fails, stop).expect(rt, "memory")
}

// Copies bytes.
fn copied(rt: &(impl AllocGlobal + Abort), bytes: &[u8]) -> Vec<u8> {
    bytes.to_vec(rt.alloc()).expect(rt, "memory")
}

// Splits a line into words at its spaces.
fn split(alloc: Global, line: &str) -> Result<Vec<String>, AllocError> {
    let mut words = Vec::new(alloc);
    for word in line.split(' ') {
        words.push(String::from_str(alloc, word)?)?;
    }
    Ok(words)
}

// Splits a line into words at its spaces.
pub fn words(rt: &(impl AllocGlobal + Abort), line: &str) -> Vec<String> {
    split(rt.alloc(), line).expect(rt, "memory")
}

// Lists the calls that fail: none or one.
fn fails(rt: &(impl AllocGlobal + Abort), call: Option<u64>) -> Vec<u64> {
    let mut fails = Vec::new(rt.alloc());
    if let Some(call) = call {
        fails.push(call).expect(rt, "memory");
    }
    fails
}

// Makes a source that gives at most `piece` bytes at once. Its call `fail` fails.
fn source(
    rt: &(impl AllocGlobal + Abort),
    bytes: &[u8],
    piece: usize,
    fail: Option<u64>,
) -> MemorySource
    requires { 1 ≤ piece }
{
    MemorySource::new(copied(rt, bytes), piece, fails(rt, fail))
}

// Makes a sink with room for `room` bytes. Its put `fail` fails.
fn sink(rt: &(impl AllocGlobal + Abort), room: usize, fail: Option<u64>) -> MemorySink {
    MemorySink::new(rt.alloc(), room, fails(rt, fail)).expect(rt, "memory")
}

// Runs words on two indexes, with sources that give at most `piece` bytes at once.
pub fn run_on<R: AllocGlobal + Abort + Threads + Sync, D: SharedDisk>(
    rt: &R,
    given: &Given<'_>,
    piece: usize,
    index: &mut D,
    other: &mut MemoryDisk,
) -> Ran
    requires { 1 ≤ piece }
{
    let words = words(rt, given.words);
    let mut input = source(rt, given.input, piece, given.input_fails);
    let mut log_in = source(rt, given.logs, piece, given.logs_fail);
    let mut out = sink(rt, 1000, given.out_fails);
    let mut log_out = sink(rt, 10000, None);
    let status = run(
        rt,
        rt.alloc(),
        &Request::read(rt.alloc(), &words),
        index,
        other,
        &mut input,
        &mut log_in,
        &mut out,
        &mut log_out,
    );
    Ran {
        status,
        out: copied(rt, out.written()),
        log: copied(rt, log_out.written()),
    }
}

// Runs words on two indexes, checks the status and what is written, and gives what is put to the log's output.
pub fn check_both<R: AllocGlobal + Abort + Threads + Sync, D: SharedDisk>(
    rt: &R,
    given: &Given<'_>,
    index: &mut D,
    other: &mut MemoryDisk,
    (status, output): (u8, &str),
) -> Vec<u8> {
    let ran = run_on(rt, given, 50, index, other);
    assert!(rt; ran.out.as_slice() == output.as_bytes(), "{}", output);
    assert!(rt; ran.status == Status(status), "{}", output);
    ran.log
}

// Runs words on one index, checks the status and what is written, and gives what is put to the log's output.
pub fn check_run<R: AllocGlobal + Abort + Threads + Sync, D: SharedDisk>(
    rt: &R,
    given: &Given<'_>,
    index: &mut D,
    ended: (u8, &str),
) -> Vec<u8> {
    let mut other = disk(rt, &[], None);
    check_both(rt, given, index, &mut other, ended)
}
