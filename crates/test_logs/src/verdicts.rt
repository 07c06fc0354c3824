ghost use Rattle.log_model.specs.Grammar.{IsValidLog, IsValidJoinLog};

use crate::models::holds;
use log_model::{JoinLog, JoinRecord, Log, Mark, NodeMarks, Record};
use log_verify::{Accepted, JoinVerdict, Verdict, verify, verify_join};
use metric_laws::{Listed, Meter, Point};
use page_store::{ImagePages, PageFault};
use scan_model::{Hit, Pair, Query};
use std::alloc::Global;
use std::process::Abort;
use tree_shape::Live;
use vector_kinds::L1;

// Describes the live tree of a small index, whose root on page 4 is a leaf with the object 0 at (3, 4).
const LIVE: Live = Live {
    side: 1,
    generation: 2,
    root: 4,
    height: 0,
    count: 1,
    pages: 5,
};

// Sets the byte at `at` of a file.
fn put(bytes: &mut [u8], at: usize, byte: u8) {
    if at < bytes.len() {
        bytes[at] = byte;
    }
}

// Gives a file of five pages with that leaf, whose level is `level`. Nothing else in it is looked at.
fn file(rt: &(impl AllocGlobal + Abort), level: u8) -> Vec<u8> {
    let mut bytes = vec![in rt.alloc(); 0u8; 20480].expect(rt, "memory");
    put(&mut bytes, 16384, level);
    put(&mut bytes, 16387, 1);
    put(&mut bytes, 16423, 3);
    put(&mut bytes, 16427, 4);
    bytes
}

// Gives the log of the query for all objects within 7 of (0, 0), with one record and one answer.
fn log(rt: &(impl AllocGlobal + Abort), generation: u64, page: u32, mark: Mark, dist: u64) -> Log
    ensures { IsValidLog result }
{
    let alloc = rt.alloc();
    let marks = NodeMarks::from_slice(alloc, &[mark]).expect(rt, "memory");
    let q = Point::new(alloc, &[0, 0]).expect(rt, "memory");
    let answers = vec![in alloc; Hit { id: 0, dist }].expect(rt, "memory");
    let records = vec![in alloc; Record { page, marks }].expect(rt, "memory");
    Log {
        generation,
        root: 4,
        query: Query::Range { q, r: 7 },
        answers: Listed::new(answers),
        records: Listed::new(records),
    }
}

// Verifies a log on a file, and counts the pages asked for and the distances computed.
fn verdict_on(alloc: Global, bytes: &[u8], log: &Log) -> (Result<Accepted, Verdict>, u64, u64)
    requires { IsValidLog log.now }
{
    let mut pages = ImagePages::new(bytes, 2, 5);
    let mut ruler = Meter::new(L1::new(2));
    let verdict = verify(alloc, &mut pages, &mut ruler, &LIVE, log);
    (verdict, pages.asked, ruler.used())
}

#[test]
fn a_sound_log_is_accepted_at_one_page_and_one_distance(rt: HostRuntime) {
    let bytes = file(&rt, 0);
    let sound = log(&rt, 2, 4, Mark::Near, 7);
    let (verdict, asked, used) = verdict_on(rt.alloc(), &bytes, &sound);
    holds(&rt, verdict == Ok(Accepted { records: 1 }));
    holds(&rt, (asked, used) == (1, 1));
}

// Checks why a log of `generation` is refused, whose record is of `page` and has the mark `mark`.
fn check_fault(
    rt: &(impl AllocGlobal + Abort),
    generation: u64,
    page: u32,
    mark: Mark,
    fault: Verdict,
) {
    let bytes = file(rt, 0);
    let log = log(rt, generation, page, mark, 8);
    let (verdict, _, _) = verdict_on(rt.alloc(), &bytes, &log);
    holds(rt, verdict == Err(fault));
}

#[test]
fn a_log_is_refused_for_its_first_fault(rt: HostRuntime) {
    let other = Verdict::OtherState {
        named: (3, 4),
        live: (2, 4),
    };
    check_fault(&rt, 3, 3, Mark::Skip, other);
    check_fault(&rt, 2, 3, Mark::Skip, Verdict::WrongPage(0));
    check_fault(&rt, 2, 4, Mark::Skip, Verdict::WrongMark(0, 0));
    check_fault(&rt, 2, 4, Mark::Far, Verdict::WrongMark(0, 0));
    check_fault(&rt, 2, 4, Mark::Near, Verdict::WrongAnswer(0));
}

// Gives page 4 a level that no node has.
#[test]
fn a_page_that_holds_no_node_is_named(rt: HostRuntime) {
    let bytes = file(&rt, 15);
    let sound = log(&rt, 2, 4, Mark::Near, 7);
    let (verdict, _, _) = verdict_on(rt.alloc(), &bytes, &sound);
    let fault = PageFault::Bad(4, node_page::NodeFault::Kind);
    holds(&rt, verdict == Err(Verdict::Page(fault)));
}

// Gives the log of the join of the small index with itself within 0. The left root is opened first, and then the right
// root against the object.
fn join_log(rt: &(impl AllocGlobal + Abort), right: (u64, u32), mark: Mark) -> JoinLog
    ensures { IsValidJoinLog result }
{
    let alloc = rt.alloc();
    let answer = Pair {
        left: 0,
        right: 0,
        dist: 0,
    };
    let first = JoinRecord {
        right: false,
        page: 4,
        marks: NodeMarks::from_slice(alloc, &[Mark::Near]).expect(rt, "memory"),
    };
    let second = JoinRecord {
        right: true,
        page: 4,
        marks: NodeMarks::from_slice(alloc, &[mark]).expect(rt, "memory"),
    };
    JoinLog {
        left: (2, 4),
        right,
        r: 0,
        answers: Listed::new(vec![in alloc; answer].expect(rt, "memory")),
        records: Listed::new(vec![in alloc; first, second].expect(rt, "memory")),
    }
}

// Verifies the log of a join of a file with itself.
fn join_verdict(alloc: Global, bytes: &[u8], log: &JoinLog) -> Result<Accepted, JoinVerdict>
    requires { IsValidJoinLog log.now }
{
    let mut left = ImagePages::new(bytes, 2, 5);
    let mut right = ImagePages::new(bytes, 2, 5);
    let mut ruler = Meter::new(L1::new(2));
    verify_join(alloc, &mut left, &mut right, &mut ruler, &LIVE, &LIVE, log)
}

// Checks the verdict on a log of a join that names this right tree, and whose last mark is `mark`.
fn check_join(
    rt: &(impl AllocGlobal + Abort),
    right: (u64, u32),
    mark: Mark,
    verdict: &Result<Accepted, JoinVerdict>,
) {
    let bytes = file(rt, 0);
    let log = join_log(rt, right, mark);
    let found = join_verdict(rt.alloc(), &bytes, &log);
    holds(rt, found == *verdict);
}

#[test]
fn a_join_with_itself(rt: HostRuntime) {
    let other = JoinVerdict::OtherState {
        right: true,
        named: (3, 4),
        live: (2, 4),
    };
    let accepted = Ok(Accepted { records: 2 });
    let mark = Err(JoinVerdict::WrongMark(1, 0));
    check_join(&rt, (2, 4), Mark::Near, &accepted);
    check_join(&rt, (2, 4), Mark::Far, &mark);
    check_join(&rt, (3, 4), Mark::Near, &Err(other));
}
