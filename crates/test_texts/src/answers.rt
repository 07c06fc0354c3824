ghost use Rattle.std.specs.Prelude.{MatchOption};
ghost use Rattle.log_model.specs.Grammar.{IsValidLog};

use answer_texts::{Texts, texts_of};
use log_model::Log;
use metric_laws::Listed;
use outside_io::{MemorySink, Sink};
use prune_log::decode_log;
use rows_text::Reply;
use scan_model::Hit;
use std::alloc::Global;
use std::process::Abort;

// Is the frame of a log with no answer and no record, of the range query of radius 7 about (0) on root 4 of generation 2.
const FRAME: [u8; 47] = [
    0, 0, 0, 0, 0, 0, 0, 39, 0x4d, 0x54, 0x4c, 0x47, 1, 1, 0, 0, 0, 0, 0, 0, 0, 2, 0, 0, 0, 4, 0,
    0, 0, 0, 0, 0, 0, 7, 1, 0, 0, 0, 0, 0, 0, 0, 0, 0, 0, 0, 0,
];

// Gives the log of that frame, or none.
fn log_of(alloc: Global, logged: bool) -> Option<Log>
    ensures { MatchOption result (Unit {0}) IsValidLog }
{
    if !logged {
        return None;
    }
    decode_log(alloc, FRAME.get(8..).unwrap_or(&[])).ok()
}

// Describes what is put of a hit, and what stands on the outputs then: a text, and the first bytes of the frame.
#[derive(Clone, Copy)]
struct Case<'a> {
    name: &'a str,
    logged: bool,
    show: bool,
    out_fails: bool,
    log_fails: bool,
    done: bool,
    text: &'a str,
    framed: usize,
}

// Puts a reply alone.
const BARE: Case<'static> = Case {
    name: "a reply",
    logged: false,
    show: false,
    out_fails: false,
    log_fails: false,
    done: true,
    text: "hits 1\n5 2\n",
    framed: 0,
};

const TAGGED: Case<'static> = Case {
    name: "a reply with tags",
    show: true,
    text: "hits 1\n5 9 2\n",
    ..BARE
};

const LOGGED: Case<'static> = Case {
    name: "a reply and its log",
    logged: true,
    framed: 47,
    ..BARE
};

const NO_LOG: Case<'static> = Case {
    name: "no log, so nothing is put for one",
    log_fails: true,
    ..BARE
};

const LOG_FAILS: Case<'static> = Case {
    name: "a log that can't be put, so no reply is",
    logged: true,
    log_fails: true,
    done: false,
    text: "",
    ..BARE
};

const REPLY_FAILS: Case<'static> = Case {
    name: "a reply that can't be put, behind its log",
    logged: true,
    out_fails: true,
    done: false,
    text: "",
    framed: 47,
    ..BARE
};

// Makes a sink that fails at its first call, or at none.
fn sink(rt: &(impl AllocGlobal + Abort), fails: bool) -> MemorySink {
    let mut calls = Vec::new(rt.alloc());
    if fails {
        calls.push(0).expect(rt, "memory");
    }
    MemorySink::new(rt.alloc(), 100, calls).expect(rt, "memory")
}

// Gives the texts of a hit and its tag.
fn texts(rt: &(impl AllocGlobal + Abort), logged: bool, show: bool) -> Texts {
    let hits = Listed::new(vec![in rt.alloc(); Hit { id: 5, dist: 2 }; 1].expect(rt, "memory"));
    let tags = Listed::new(vec![in rt.alloc(); 9u64; 1].expect(rt, "memory"));
    assert!(rt; tags.as_slice().len() == hits.as_slice().len());
    let log = log_of(rt.alloc(), logged);
    texts_of(rt.alloc(), &Reply::Hits { hits, tags }, &log, show).expect(rt, "memory")
}

// Puts texts, and says whether they are put.
fn is_put<K: Sink>(texts: &Texts, out: &mut K, log_out: &mut K) -> bool {
    texts.put(out, log_out).is_ok()
}

// Gives the first `count` bytes of the frame.
fn frame_to(count: usize) -> &'static [u8] {
    FRAME.get(..count).unwrap_or(&FRAME)
}

// Puts what a case asks for, and checks what stands on the outputs.
fn check(rt: &(impl AllocGlobal + Abort), case: &Case<'_>) {
    let texts = texts(rt, case.logged, case.show);
    let mut out = sink(rt, case.out_fails);
    let mut log_out = sink(rt, case.log_fails);
    let done = is_put(&texts, &mut out, &mut log_out);
    let is_so = done == case.done
        && out.written() == case.text.as_bytes()
        && log_out.written() == frame_to(case.framed);
    assert!(rt; is_so, "{}", case.name);
}

#[test]
fn a_log_is_put_before_its_reply(rt: HostRuntime) {
    check(&rt, &BARE);
    check(&rt, &TAGGED);
    check(&rt, &LOGGED);
    check(&rt, &NO_LOG);
    check(&rt, &LOG_FAILS);
    check(&rt, &REPLY_FAILS);
}
