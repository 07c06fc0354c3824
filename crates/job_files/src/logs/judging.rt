// The judging of logs, frame by frame.
ghost use Rattle.std.specs.Prelude.{◌≡◌, ◌⊎◌, ◌≤◌, ◌+◌, ◌∷◌, [], sum_by, All, IfOk, IsErrOf};
ghost use Rattle.std.specs.Option.{is_none};
ghost use Rattle.outside_io.specs.Causes.{Rose};
ghost use Rattle.job_files.specs.Reads.{reads_of};
ghost use Rattle.job_files.specs.Logs.Jobs.{Puts, stop_of};
ghost use Rattle.job_files.specs.Logs.JobReports.{are_sound, frame_text, frame_texts, on_logs};

use crate::logs::lines::{push_frame, undecoded_text};
use crate::logs::putting::{end_text, put};
use crate::logs::stop::LogStop;
use crate::logs::{Checker, Report};
use outside_io::{Sink, Status};
use prune_log::LogFault;
use std::alloc::{AllocError, Global};

// Makes the text on the log of frame `frame` with its first fault, or with none.
fn frame_text<C: Checker>(
    alloc: Global,
    report: Report,
    frame: u64,
    log: C::Log,
    fault: Option<C::Verdict>,
) -> Result<Vec<u8>, AllocError>
    ensures { IfOk result (λ text. text.items ≡ frame_text C.words report frame log fault) }
{
    let mut text = Vec::new(alloc);
    push_frame(frame, &mut text)?;
    match (fault, report) {
        (Some(why), _) => {
            text.extend_from_slice(b" rejected ")?;
            C::push_verdict(why, &mut text)?;
            text.extend_from_slice(b"\n")?;
        }
        (None, Report::Verdicts) => text.extend_from_slice(b" accepted\n")?,
        (None, Report::Answers) => {
            text.extend_from_slice(b" complete\n")?;
            C::push_answers(alloc, log, &mut text)?;
        }
    }
    Ok(text)
}

// Judges the log of frame `frame` and puts its text. Returns whether it has no fault.
// Clauses: what is asked of the caller (the one without a name); the answer (`sound`); what is written (`puts`); what stays (`is_known`,
// `judges`, `keeps`); the cost (`few`); the cause of an error (`output`, `disk`); faults of the devices (`later`).
fn judge_frame<C: Checker, K: Sink>(
    alloc: Global,
    report: Report,
    checker: &mut C,
    frame: u64,
    log: C::Log,
    out: &mut K,
) -> Result<bool, LogStop>
    requires { C.is_valid log }
    ensures puts { C.is_known checker.old → Puts (frame_text C.words report frame log (C.judges checker.old log) ∷ [])
        (K.state out.old).written (K.state out.new).written (stop_of result) }
    ensures sound { IfOk result (λ sound. C.is_known checker.old → sound ≡ is_none (C.judges checker.old log)) }
    ensures is_known { C.is_known checker.old → C.is_known checker.new }
    ensures judges { C.judges checker.new ≡ C.judges checker.old }
    ensures keeps { C.keeps checker.old checker.new }
    ensures few { C.read_count checker.new ≤ C.read_count checker.old + C.most_reads log }
    ensures later { (K.state out.old).faults ≤ (K.state out.new).faults }
    ensures output { IsErrOf result LogStop.Sink → Rose (K.state out.old).faults (K.state out.new).faults }
    ensures disk { IsErrOf result LogStop.Disk → C.failed checker.old checker.new }
{
    let fault = checker.judge(alloc, &log)?;
    let text = frame_text::<C>(alloc, report, frame, log, fault)?;
    put(out, &text)?;
    Ok(fault.is_none())
}

// Judges the logs of all frames and puts their texts. Returns whether none has a fault.
fn judge_frames<C: Checker, K: Sink>(
    alloc: Global,
    report: Report,
    checker: &mut C,
    logs: Vec<C::Log>,
    out: &mut K,
) -> Result<bool, LogStop>
    requires { All C.is_valid logs.items }
    ensures puts { C.is_known checker.old → Puts (frame_texts C.words report (C.judges checker.old) 0 logs.items)
        (K.state out.old).written (K.state out.new).written (stop_of result) }
    ensures sound { IfOk result (λ sound. C.is_known checker.old → sound ≡ are_sound (C.judges checker.old) logs.items) }
    ensures keeps { C.keeps checker.old checker.new }
    ensures few { C.read_count checker.new ≤ C.read_count checker.old + sum_by C.most_reads logs.items }
    ensures later { (K.state out.old).faults ≤ (K.state out.new).faults }
    ensures output { IsErrOf result LogStop.Sink → Rose (K.state out.old).faults (K.state out.new).faults }
    ensures disk { IsErrOf result LogStop.Disk → C.failed checker.old checker.new }
{
    let mut frame = 0;
    let mut sound = true;
    for log in logs {
        let is_sound = judge_frame(alloc, report, checker, frame, log, out)?;
        sound &= is_sound;
        frame += 1;
    }
    Ok(sound)
}

/// Judges the logs that `bytes` spell, puts the text on each as soon as it is judged, and returns the status.
pub fn judge_bytes<C: Checker, K: Sink>(
    alloc: Global,
    report: Report,
    checker: &mut C,
    bytes: &[u8],
    out: &mut K,
) -> Result<Status, LogStop>
    ensures puts { C.is_known checker.old → Puts (on_logs C.words report (C.judges checker.old) (C.reads bytes.now)).texts
        (K.state out.old).written (K.state out.new).written (stop_of result) }
    ensures status { IfOk result (λ status. C.is_known checker.old →
        status.0 ≡ (on_logs C.words report (C.judges checker.old) (C.reads bytes.now)).status) }
    ensures statuses { IfOk result (λ status. (status.0 ≡ 0) ⊎ (status.0 ≡ 1)) }
    ensures keeps { C.keeps checker.old checker.new }
    ensures few { C.read_count checker.new ≤ C.read_count checker.old + reads_of C.most_reads (C.reads bytes.now) }
    ensures later { (K.state out.old).faults ≤ (K.state out.new).faults }
    ensures output { IsErrOf result LogStop.Sink → Rose (K.state out.old).faults (K.state out.new).faults }
    ensures disk { IsErrOf result LogStop.Disk → C.failed checker.old checker.new }
{
    let logs = match C::read_frames(alloc, bytes) {
        Ok(logs) => logs,
        Err(LogFault::Memory) => return Err(LogStop::Memory),
        Err(fault) => {
            put(out, undecoded_text(fault))?;
            return Ok(Status(1));
        }
    };
    let sound = judge_frames(alloc, report, checker, logs, out)?;
    put(out, end_text(report, sound))?;
    Ok(Status(u8::from(!sound)))
}
