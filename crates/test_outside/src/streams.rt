ghost use Rattle.std.specs.Prelude.{◌≤◌};

use crate::disks::holds;
use outside_io::{
    Failed, MemorySink, MemorySource, ReadAll, Sink, Source, StdSink, StdSource, read_all,
};
use std::io::{self, Read, Write};
use std::process::Abort;

// Takes one byte at a time, and nothing once its room is full.
#[derive(Drop)]
struct Narrow {
    bytes: Vec<u8>,
    room: usize,
}

impl Write for Narrow {
    fn write(&mut self, buf: &[u8]) -> io::Result<usize> {
        if buf.is_empty() || self.bytes.len() == self.room {
            return Ok(0);
        }
        match self.bytes.push(buf[0]) {
            Ok(()) => Ok(1),
            Err(_) => Ok(0),
        }
    }

    fn flush(&mut self) -> io::Result<()> {
        Ok(())
    }
}

// Puts bytes through the bound.
fn put_by<K: Sink>(sink: &mut K, bytes: &[u8]) -> Result<(), Failed> {
    sink.put(bytes)
}

// Takes bytes through the bound.
fn take_by<S: Source>(source: &mut S, buf: &mut [u8]) -> Result<usize, Failed> {
    if buf.is_empty() {
        return Ok(0);
    }
    source.take(buf)
}

// Makes a sink over such a writer, which has room for 7 bytes.
fn narrow_sink(rt: &impl AllocGlobal) -> StdSink<Narrow> {
    StdSink::new(Narrow {
        bytes: Vec::new(rt.alloc()),
        room: 7,
    })
}

#[test]
fn a_sink_writes_all_to_a_writer_that_takes_one_byte_at_a_time(rt: HostRuntime) {
    let mut sink = narrow_sink(&rt);
    holds(&rt, put_by(&mut sink, b"three") == Ok(()));
    // Takes a write that takes nothing as a fault.
    holds(&rt, put_by(&mut sink, b"four") == Err(Failed));
    let written = sink.into_inner();
    holds(&rt, written.bytes.as_slice() == b"threefo".as_slice());
}

// Takes four bytes, and gives how many came and what stands then.
fn four_by<S: Source>(source: &mut S) -> (Result<usize, Failed>, [u8; 4]) {
    let mut buf = [0u8; 4];
    let taken = take_by(source, &mut buf);
    (taken, buf)
}

// Says whether six bytes at most are left, and are these.
fn has_rest<S: Source>(rt: &impl AllocGlobal, source: &mut S, wanted: &[u8]) -> bool {
    match read_all(rt.alloc(), source, 6) {
        Ok(rest) => rest.as_slice() == wanted,
        Err(_) => false,
    }
}

#[test]
fn a_source_reads_a_reader_to_its_end(rt: HostRuntime) {
    let text: &[u8] = b"some bytes";
    let mut source = StdSource::new(text);
    holds(&rt, four_by(&mut source) == (Ok(4), *b"some"));
    holds(&rt, has_rest(&rt, &mut source, b" bytes"));
    holds(&rt, four_by(&mut source) == (Ok(0), [0; 4]));
}

// Makes `count` bytes in memory that are given by pieces of `piece` bytes. The call `fails` fails.
fn source_of(
    rt: &(impl AllocGlobal + Abort),
    count: usize,
    piece: usize,
    fails: Option<u64>,
) -> MemorySource
    requires { 1 ≤ piece }
{
    let mut calls = Vec::new(rt.alloc());
    if let Some(call) = fails {
        calls.push(call).expect(rt, "memory");
    }
    let bytes = vec![in rt.alloc(); b'x'; count].expect(rt, "memory");
    MemorySource::new(bytes, piece, calls)
}

// Reads a source to its end where it has at most `most` bytes, and counts them.
fn count_of<S: Source>(rt: &impl AllocGlobal, source: &mut S, most: u64) -> Result<usize, ReadAll> {
    match read_all(rt.alloc(), source, most) {
        Ok(bytes) => Ok(bytes.len()),
        Err(fault) => Err(fault),
    }
}

// Reads such bytes, and checks the answer.
fn check_piece(rt: &(impl AllocGlobal + Abort), case: &Case, piece: usize)
    requires { 1 ≤ piece }
{
    let (count, fails, most, answer) = *case;
    let mut source = source_of(rt, count, piece, fails);
    holds(rt, count_of(rt, &mut source, most) == answer);
}

// Describes a read: the number of bytes, the call that fails, the most bytes, and the answer.
type Case = (usize, Option<u64>, u64, Result<usize, ReadAll>);

const CASES: [Case; 6] = [
    (0, None, 0, Ok(0)),
    (5, None, 5, Ok(5)),
    (6, None, 5, Err(ReadAll::TooLong)),
    (1, None, 0, Err(ReadAll::TooLong)),
    (5, Some(0), 5, Err(ReadAll::Fault)),
    (5, Some(1), 5, Err(ReadAll::Fault)),
];

// Reads bytes in memory whole, or refuses them.
#[test]
fn all_bytes_are_read_or_the_cause_is_named(rt: HostRuntime) {
    for case in &CASES {
        check_piece(&rt, case, 1);
        check_piece(&rt, case, 3);
        check_piece(&rt, case, 4096);
    }
}

// Makes a sink with room for four bytes whose call 1 fails.
fn failing_sink(rt: &(impl AllocGlobal + Abort)) -> MemorySink {
    let fails = vec![in rt.alloc(); 1u64; 1].expect(rt, "memory");
    MemorySink::new(rt.alloc(), 4, fails).expect(rt, "memory")
}

#[test]
fn a_sink_in_memory_fails_by_its_list_and_room(rt: HostRuntime) {
    let mut sink = failing_sink(&rt);
    holds(&rt, put_by(&mut sink, b"ab") == Ok(()));
    holds(&rt, put_by(&mut sink, b"c") == Err(Failed));
    holds(&rt, put_by(&mut sink, b"cde") == Err(Failed));
    holds(&rt, put_by(&mut sink, b"cd") == Ok(()));
    holds(&rt, put_by(&mut sink, b"") == Ok(()));
    holds(&rt, sink.written() == b"abcd".as_slice());
}
