// The text on a log.
ghost use Rattle.std.specs.Prelude.{◌≡◌, ◌<◌, ◌+◌, ◌^◌, ◌++◌, IfOk, OnOk, decimal};
ghost use Rattle.job_files.specs.Lines.{or_dash};
ghost use Rattle.job_show.specs.Frames.{count_line, frame_head, frame_words, opened_line, verdict_words};

use crate::shown::Walk;
use crate::view::View;
use crate::{Counts, Marks};
use fault_lines::push_numbered;
use job_files::logs::{push_answers, push_frame, push_verdict};
use log_model::Log;
use log_verify::Verdict;
use std::alloc::{AllocError, Global};

// Appends that a log is accepted, or why it is rejected.
fn push_judged(fault: Option<Verdict>, out: &mut Vec<u8>) -> Result<(), AllocError>
    ensures { OnOk result (out.new.items ≡ out.old.items ++ verdict_words fault) }
{
    match fault {
        None => out.extend_from_slice(b" accepted"),
        Some(why) => {
            out.extend_from_slice(b" rejected ")?;
            push_verdict(why, out)
        }
    }
}

/// Appends the number of a tree's nodes, or a dash where there is none.
pub fn push_nodes(nodes: Option<u32>, out: &mut Vec<u8>) -> Result<(), AllocError>
    ensures { OnOk result (out.new.items ≡ out.old.items ++ or_dash decimal nodes) }
{
    match nodes {
        None => out.extend_from_slice(b"-"),
        Some(nodes) => push_numbered(b"", u64::from(nodes), out),
    }
}

// Appends how many nodes a walk opened, and how many distances it took.
fn push_opened(nodes: Option<u32>, counts: Counts, out: &mut Vec<u8>) -> Result<(), AllocError>
    requires { counts.fars + counts.nears < 2 ^ 64 }
    ensures { OnOk result (out.new.items ≡ out.old.items ++ opened_line nodes counts) }
{
    push_numbered(b"opened ", counts.opened, out)?;
    out.extend_from_slice(b" of ")?;
    push_nodes(nodes, out)?;
    push_numbered(b" nodes, ", counts.fars + counts.nears, out)?;
    out.extend_from_slice(b" distances\n")
}

// Appends the line of counts of the log of frame `frame`.
fn push_counts(
    frame: u64,
    nodes: Option<u32>,
    counts: Counts,
    fault: Option<Verdict>,
    out: &mut Vec<u8>,
) -> Result<(), AllocError>
    requires { counts.fars + counts.nears < 2 ^ 64 }
    ensures { OnOk result (out.new.items ≡ out.old.items ++ count_line frame nodes counts fault) }
{
    push_numbered(b"", frame, out)?;
    push_numbered(b" ", counts.opened, out)?;
    out.extend_from_slice(b" ")?;
    push_nodes(nodes, out)?;
    push_numbered(b" ", counts.skips, out)?;
    push_numbered(b" ", counts.fars, out)?;
    push_numbered(b" ", counts.nears, out)?;
    push_numbered(b" ", counts.fars + counts.nears, out)?;
    push_judged(fault, out)?;
    out.extend_from_slice(b"\n")
}

// Appends the head of a frame's text: whether its log is accepted, and its query and answers.
fn push_head(
    alloc: Global,
    frame: u64,
    log: Log,
    fault: Option<Verdict>,
    out: &mut Vec<u8>,
) -> Result<(), AllocError>
    ensures { OnOk result (out.new.items ≡ out.old.items ++ frame_head frame log fault) }
{
    push_frame(frame, out)?;
    push_judged(fault, out)?;
    out.extend_from_slice(b"\n")?;
    let hits = log.answers;
    push_answers(alloc, &log.query, hits, out)
}

// Makes the text on the log of frame `frame` with its first fault, or with none, and with what is shown of its walk.
pub fn frame_text(
    alloc: Global,
    view: &View,
    frame: u64,
    log: Log,
    fault: Option<Verdict>,
    walk: &Walk,
) -> Result<Vec<u8>, AllocError>
    requires { walk.now.counts.fars + walk.now.counts.nears < 2 ^ 64 }
    ensures { IfOk result (λ text. text.items ≡ frame_words view.now.marks view.now.nodes frame log fault
        (record { lines = walk.now.lines.items; counts = walk.now.counts })) }
{
    let mut text = Vec::new(alloc);
    match view.marks {
        Marks::Each => {
            push_head(alloc, frame, log, fault, &mut text)?;
            text.extend_from_slice(walk.lines.as_slice())?;
            push_opened(view.nodes, walk.counts, &mut text)?;
        }
        Marks::Count => push_counts(frame, view.nodes, walk.counts, fault, &mut text)?,
    }
    Ok(text)
}
