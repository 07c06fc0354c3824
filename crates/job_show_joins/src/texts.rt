// The text on a join's log.
ghost use Rattle.std.specs.Prelude.{◌≡◌, ◌++◌, IfOk, OnOk, decimal};
ghost use Rattle.fault_lines.specs.Lines.{numbered};
ghost use Rattle.rows_text.specs.Texts.{space};
ghost use Rattle.job_files.specs.Lines.{or_dash};
ghost use Rattle.job_show_joins.specs.Frames.{count_line, frame_head, frame_words, opened_line, verdict_words};
ghost use Rattle.job_show_joins.specs.Steps.{walk_shown};

use crate::shown::PairWalk;
use crate::view::JoinView;
use fault_lines::push_numbered;
use job_files::logs::push_frame;
use job_join::{push_answers, push_verdict};
use job_show::{Marks, push_nodes};
use log_model::JoinLog;
use log_verify::JoinVerdict;
use std::alloc::AllocError;

// Appends that a log is accepted, or why it is rejected.
fn push_judged(fault: Option<JoinVerdict>, out: &mut Vec<u8>) -> Result<(), AllocError>
    ensures { OnOk result (out.new.items ≡ out.old.items ++ verdict_words fault) }
{
    match fault {
        None => out.extend_from_slice(b" accepted"),
        Some(why) => {
            out.extend_from_slice(b" rejected ")?;
            push_verdict(why, out)
        }
    }
}

// Appends the numbers of the nodes of two trees after `before`, with `between` between them.
fn push_sizes(
    before: &[u8],
    nodes: (Option<u32>, Option<u32>),
    between: &[u8],
    out: &mut Vec<u8>,
) -> Result<(), AllocError>
    ensures { OnOk result (out.new.items ≡ out.old.items ++
        (before.now ++ or_dash decimal nodes.0 ++ between.now ++ or_dash decimal nodes.1)) }
{
    out.extend_from_slice(before)?;
    push_nodes(nodes.0, out)?;
    out.extend_from_slice(between)?;
    push_nodes(nodes.1, out)
}

// Appends a number between two words.
fn push_between(before: &[u8], n: u64, after: &[u8], out: &mut Vec<u8>) -> Result<(), AllocError>
    ensures { OnOk result (out.new.items ≡ out.old.items ++ (numbered before.now n ++ after.now)) }
{
    push_numbered(before, n, out)?;
    out.extend_from_slice(after)
}

// Appends how often each mark stands in a walk, and how many distances it took.
fn push_marks(walk: &PairWalk, out: &mut Vec<u8>) -> Result<(), AllocError>
    ensures { OnOk result (out.new.items ≡ out.old.items ++ (numbered space walk.now.counts.skips ++ numbered space walk.now.counts.fars
        ++ numbered space walk.now.counts.nears ++ numbered space walk.now.measured)) }
{
    push_numbered(b" ", walk.counts.skips, out)?;
    push_numbered(b" ", walk.counts.fars, out)?;
    push_numbered(b" ", walk.counts.nears, out)?;
    push_numbered(b" ", walk.measured, out)
}

// Appends how many nodes a walk opened, how many there are, and how many distances it took.
fn push_opened(
    nodes: (Option<u32>, Option<u32>),
    walk: &PairWalk,
    out: &mut Vec<u8>,
) -> Result<(), AllocError>
    ensures { OnOk result (out.new.items ≡ out.old.items ++ opened_line nodes (walk_shown walk.now)) }
{
    push_numbered(b"opened ", walk.counts.opened, out)?;
    push_sizes(b" nodes of trees with ", nodes, b" and ", out)?;
    push_between(b", ", walk.measured, b" distances\n", out)
}

// Appends the line of counts of the log of frame `frame`.
fn push_counts(
    frame: u64,
    nodes: (Option<u32>, Option<u32>),
    walk: &PairWalk,
    fault: Option<JoinVerdict>,
    out: &mut Vec<u8>,
) -> Result<(), AllocError>
    ensures { OnOk result (out.new.items ≡ out.old.items ++ count_line frame nodes (walk_shown walk.now) fault) }
{
    push_numbered(b"", frame, out)?;
    push_numbered(b" ", walk.counts.opened, out)?;
    push_sizes(b" ", nodes, b" ", out)?;
    push_marks(walk, out)?;
    push_judged(fault, out)?;
    out.extend_from_slice(b"\n")
}

// Appends the head of a frame's text: whether its log is accepted, and its radius and answers.
fn push_head(
    frame: u64,
    log: JoinLog,
    fault: Option<JoinVerdict>,
    out: &mut Vec<u8>,
) -> Result<(), AllocError>
    ensures { OnOk result (out.new.items ≡ out.old.items ++ frame_head frame log fault) }
{
    push_frame(frame, out)?;
    push_judged(fault, out)?;
    out.extend_from_slice(b"\n")?;
    push_answers(log, out)
}

// Makes the text on the log of frame `frame` with its first fault, or with none, and with what is shown of its walk.
pub fn frame_text(
    view: &JoinView,
    frame: u64,
    log: JoinLog,
    fault: Option<JoinVerdict>,
    walk: &PairWalk,
) -> Result<Vec<u8>, AllocError>
    ensures { IfOk result (λ text. text.items ≡ frame_words view.now.marks view.now.nodes frame log fault (walk_shown walk.now)) }
{
    let mut text = Vec::new(view.alloc);
    match view.marks {
        Marks::Each => {
            push_head(frame, log, fault, &mut text)?;
            text.extend_from_slice(walk.lines.as_slice())?;
            push_opened(view.nodes, walk, &mut text)?;
        }
        Marks::Count => push_counts(frame, view.nodes, walk, fault, &mut text)?,
    }
    Ok(text)
}
