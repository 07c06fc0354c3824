// The words about the logs of joins.
ghost use Rattle.std.specs.Prelude.{◌≡◌, ◌++◌, OnOk};
ghost use Rattle.job_join.specs.Lines.{join_words, pairs_text, side_name, verdict_text};

use fault_lines::{push_numbered, push_page_fault};
use job_files::logs::push_state;
use log_model::JoinLog;
use log_verify::JoinVerdict;
use metric_laws::Listed;
use rows_text::{Reply, reply_text};
use scan_model::Pair;
use std::alloc::AllocError;

/// Appends the lines of a join's pairs.
pub fn push_pairs(pairs: Listed<Pair>, out: &mut Vec<u8>) -> Result<(), AllocError>
    ensures { OnOk result (out.new.items ≡ out.old.items ++ pairs_text pairs) }
{
    reply_text(&Reply::Pairs(pairs), false, out)
}

/// Returns the word for a side.
pub fn side_name(right: bool) -> &'static [u8]
    ensures { result.now ≡ side_name right }
{
    if right { b"right" } else { b"left" }
}

/// Appends why a log is rejected.
pub fn push_verdict(why: JoinVerdict, out: &mut Vec<u8>) -> Result<(), AllocError>
    ensures { OnOk result (out.new.items ≡ out.old.items ++ verdict_text why) }
{
    match why {
        JoinVerdict::OtherState { right, named, live } => {
            out.extend_from_slice(b"otherstate ")?;
            out.extend_from_slice(side_name(right))?;
            push_state(b" ", named, out)?;
            push_state(b" ", live, out)
        }
        JoinVerdict::Page { right, fault } => {
            out.extend_from_slice(b"page ")?;
            out.extend_from_slice(side_name(right))?;
            out.extend_from_slice(b" ")?;
            push_page_fault(fault, out)
        }
        JoinVerdict::WrongPage(record) => push_numbered(b"wrongpage ", record, out),
        JoinVerdict::WrongCount(record) => push_numbered(b"wrongcount ", record, out),
        JoinVerdict::WrongMark(record, entry) => {
            push_numbered(b"wrongmark ", record, out)?;
            push_numbered(b" ", u64::from(entry), out)
        }
        JoinVerdict::WrongAnswer(answer) => push_numbered(b"wronganswer ", answer, out),
        JoinVerdict::LeftOver(record) => push_numbered(b"leftover ", record, out),
        JoinVerdict::Memory => out.extend_from_slice(b"memory"),
    }
}

/// Appends the radius of a join and the lines of its answers.
pub fn push_answers(log: JoinLog, out: &mut Vec<u8>) -> Result<(), AllocError>
    ensures { OnOk result (out.new.items ≡ out.old.items ++ join_words.answers log) }
{
    push_numbered(b"join,", log.r, out)?;
    out.extend_from_slice(b"\n")?;
    push_pairs(log.answers, out)
}
