// What is said of a log: why it is rejected, its query and its answers; and of bytes that are no logs.
ghost use Rattle.std.specs.Prelude.{◌≡◌, ◌++◌, OnOk};
ghost use Rattle.job_files.specs.Logs.Lines.{answers_text, frame, log_fault_name, state_text, undecoded_text, verdict_text};

use fault_lines::{push_numbered, push_page_fault};
use log_verify::Verdict;
use metric_laws::Listed;
use prune_log::LogFault;
use rows_text::{Reply, query_text, reply_text};
use scan_model::{Hit, Query};
use std::alloc::{AllocError, Global};

/// Appends a word, a generation and a root.
pub fn push_state(word: &[u8], state: (u64, u32), out: &mut Vec<u8>) -> Result<(), AllocError>
    ensures { OnOk result (out.new.items ≡ out.old.items ++ state_text word.now state) }
{
    push_numbered(word, state.0, out)?;
    push_numbered(b" ", u64::from(state.1), out)
}

/// Appends why a log is rejected.
pub fn push_verdict(why: Verdict, out: &mut Vec<u8>) -> Result<(), AllocError>
    ensures { OnOk result (out.new.items ≡ out.old.items ++ verdict_text why) }
{
    match why {
        Verdict::OtherState { named, live } => {
            push_state(b"otherstate ", named, out)?;
            push_state(b" ", live, out)
        }
        Verdict::Point => out.extend_from_slice(b"point"),
        Verdict::Page(fault) => {
            out.extend_from_slice(b"page ")?;
            push_page_fault(fault, out)
        }
        Verdict::WrongPage(record) => push_numbered(b"wrongpage ", record, out),
        Verdict::WrongCount(record) => push_numbered(b"wrongcount ", record, out),
        Verdict::WrongMark(record, entry) => {
            push_numbered(b"wrongmark ", record, out)?;
            push_numbered(b" ", u64::from(entry), out)
        }
        Verdict::WrongAnswer(answer) => push_numbered(b"wronganswer ", answer, out),
        Verdict::LeftOver(record) => push_numbered(b"leftover ", record, out),
        Verdict::Memory => out.extend_from_slice(b"memory"),
    }
}

/// Appends the number of a frame.
pub fn push_frame(number: u64, out: &mut Vec<u8>) -> Result<(), AllocError>
    ensures { OnOk result (out.new.items ≡ out.old.items ++ frame number) }
{
    push_numbered(b"frame ", number, out)
}

/// Appends the line of a query, and the lines of its answers as those of a search.
pub fn push_answers(
    alloc: Global,
    query: &Query,
    hits: Listed<Hit>,
    out: &mut Vec<u8>,
) -> Result<(), AllocError>
    ensures { OnOk result (out.new.items ≡ out.old.items ++ answers_text query.now hits) }
{
    query_text(query, out)?;
    let reply = Reply::Hits {
        hits,
        tags: Listed::new(Vec::new(alloc)),
    };
    reply_text(&reply, false, out)
}

/// Returns the word for why bytes are no log.
pub fn log_fault_name(fault: LogFault) -> &'static [u8]
    ensures { result.now ≡ log_fault_name fault }
{
    match fault {
        LogFault::Magic => b"magic",
        LogFault::Version => b"version",
        LogFault::Kind => b"kind",
        LogFault::Cut => b"cut",
        LogFault::Mark => b"mark",
        LogFault::Order => b"order",
        LogFault::Tail => b"tail",
        LogFault::Memory => b"memory",
    }
}

/// Returns the line of bytes that are no logs.
pub fn undecoded_text(fault: LogFault) -> &'static [u8]
    ensures { result.now ≡ undecoded_text fault }
{
    match fault {
        LogFault::Magic => b"log rejected magic\n",
        LogFault::Version => b"log rejected version\n",
        LogFault::Kind => b"log rejected kind\n",
        LogFault::Cut => b"log rejected cut\n",
        LogFault::Mark => b"log rejected mark\n",
        LogFault::Order => b"log rejected order\n",
        LogFault::Tail => b"log rejected tail\n",
        LogFault::Memory => b"log rejected memory\n",
    }
}
