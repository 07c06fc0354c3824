// Does the job `proof` on carried logs.
ghost use Rattle.std.specs.Prelude.{◌≡◌, ◌⊎◌, ◌≤◌, if◌then◌else◌, IfOk, IfErr, IsErrOf};
ghost use Rattle.std.specs.Io.KnownBytes.{Appends};
ghost use Rattle.outside_io.specs.Bytes.{AppendsPrefix};
ghost use Rattle.outside_io.specs.Causes.{Rose};
ghost use Rattle.seal_log.specs.Judged.{CarriedLog};
ghost use Rattle.job_seal.specs.Proofs.{HasEnded, HasFault, HasStopped, IsAccepted, IsProofStatus, ProvesLogs, PutsFrame, StopsFrame, TellsFrame};
ghost use Rattle.job_seal.specs.Laws.{AcceptedShow};

use crate::laws::accepted_show;
use crate::proof_lines::{end_text, proved_text, rejected_text};
use crate::stop::ProofStop;
use crate::taking::{Next, next_frame};
use job_files::{FAULT_INPUT, FAULT_LONG, FAULT_MEMORY, MOST_LOGS, end_with, space_of};
use outside_io::{Sink, Source, Status};
use seal_log::{ProofFault, Proved, read_proof, verify_carried};
use std::alloc::Global;

// Returns what a carried log shows under a root digest, or its first fault.
fn judge(alloc: Global, root: &[u8; 32], body: &[u8]) -> Result<Proved, ProofFault>
    ensures accepted { IfOk result (λ proved. (c : CarriedLog) × IsAccepted root.now body.now c × (proved.query ≡ c.log.query)
        × (proved.answers ≡ c.log.answers)) }
    ensures fault { IfErr result (λ why. (why ≡ ProofFault.Memory) ⊎ HasFault root.now body.now why) }
{
    let carried = read_proof(alloc, body, root)?;
    let metric = space_of(&carried.head());
    verify_carried(alloc, &carried, metric)
}

// Returns the text about a frame, and whether the frame is accepted.
fn frame_text(
    alloc: Global,
    root: &[u8; 32],
    frame: u64,
    body: &[u8],
) -> Result<(Vec<u8>, bool), ProofStop>
    ensures text { IfOk result (λ x. TellsFrame root.now frame body.now x.0.items x.1) }
    ensures memory { IfErr result (λ why. why ≡ ProofStop.Memory) }
{
    match judge(alloc, root, body) {
        Ok(proved) => Ok((proved_text(alloc, frame, proved)?, true)),
        Err(ProofFault::Memory) => Err(ProofStop::Memory),
        Err(why) => Ok((rejected_text(alloc, frame, why)?, false)),
    }
}

// Puts the text about a frame. Returns whether the frame is accepted.
fn judge_frame<K: Sink>(
    alloc: Global,
    root: &[u8; 32],
    frame: u64,
    body: &[u8],
    out: &mut K,
) -> Result<bool, ProofStop>
    ensures puts { IfOk result (λ accepted. PutsFrame root.now frame body.now accepted
        (K.state out.old).written (K.state out.new).written) }
    ensures stops { IfErr result (λ why. StopsFrame root.now frame body.now why (K.state out.old).written (K.state out.new).written) }
    ensures later { (K.state out.old).faults ≤ (K.state out.new).faults }
    ensures output { IsErrOf result ProofStop.Sink → Rose (K.state out.old).faults (K.state out.new).faults }
{
    let (text, accepted) = frame_text(alloc, root, frame, body)?;
    match out.put(&text) {
        Ok(()) => Ok(accepted),
        Err(_) => Err(ProofStop::Sink),
    }
}

// Returns the status for input whose frames are all whole.
fn end_status(accepted: bool) -> u8
    ensures { result ≡ (if accepted then 0 else 1) }
{
    u8::from(!accepted)
}

// Puts the last line. Returns the status.
fn put_end<K: Sink>(line: &[u8], status: u8, out: &mut K) -> Result<Status, ProofStop>
    ensures ends { IfOk result (λ ended. (ended.0 ≡ status) × Appends (K.state out.old).written (K.state out.new).written line.now) }
    ensures stops { IfErr result (λ why. (why ≡ ProofStop.Sink)
        × AppendsPrefix (K.state out.old).written (K.state out.new).written line.now) }
    ensures later { (K.state out.old).faults ≤ (K.state out.new).faults }
    ensures output { IsErrOf result ProofStop.Sink → Rose (K.state out.old).faults (K.state out.new).faults }
{
    match out.put(line) {
        Ok(()) => Ok(Status(status)),
        Err(_) => Err(ProofStop::Sink),
    }
}

// Takes frames one after another, judges each, and puts its text before it takes the next one. Puts the last line at the end.
// Returns the status.
fn judge_frames<S: Source, K: Sink>(
    alloc: Global,
    log_in: &mut S,
    root: &[u8; 32],
    out: &mut K,
) -> Result<Status, ProofStop>
    ensures ended { IfOk result (λ status. HasEnded root.now (S.left log_in.old) (S.left log_in.new) (K.state out.old).written
        (K.state out.new).written status.0) }
    ensures stopped { IfErr result (HasStopped root.now (S.left log_in.old) (S.left log_in.new)
        (K.state out.old).written (K.state out.new).written) }
    ensures statuses { IfOk result (λ status. (status.0 ≡ 0) ⊎ (status.0 ≡ 1)) }
    ensures input_later { S.faults log_in.old ≤ S.faults log_in.new }
    ensures later { (K.state out.old).faults ≤ (K.state out.new).faults }
    ensures input { IsErrOf result ProofStop.Input → Rose (S.faults log_in.old) (S.faults log_in.new) }
    ensures output { IsErrOf result ProofStop.Sink → Rose (K.state out.old).faults (K.state out.new).faults }
{
    let mut room = MOST_LOGS;
    let mut frame = 0;
    let mut accepted = true;
    'frames: loop {
        let body = match next_frame(alloc, log_in, room)? {
            Next::Frame(body) => body,
            Next::End => return put_end(end_text(accepted), end_status(accepted), out),
            Next::Cut => return put_end(b"log rejected cut\n", 1, out),
        };
        let is_accepted = judge_frame(alloc, root, frame, &body, out)?;
        accepted &= is_accepted;
        frame += 1;
        room -= 8 + body.len() as u64;
    }
}

/// Judges the carried logs of `log_in` under a root digest, without the file. For each it writes that it is proved, with its query
/// and its answers, or its first fault, before it reads the next one. It holds one frame at a time, and of that frame no more than
/// the bytes that came. Status 1: a carried log is rejected, or the last frame is not whole; 3: they could not be read; 4: a line
/// could not be written; 7: there are more than 2^30 bytes; 8: memory ran out.
pub fn prove_logs<S: Source, K: Sink>(
    alloc: Global,
    log_in: &mut S,
    root: &[u8; 32],
    out: &mut K,
) -> Status
    ensures proves { ProvesLogs root.now (S.left log_in.old) (S.left log_in.new) (K.state out.old) (K.state out.new) result.0 }
    // A frame reported as proved has an accepted carried log, and this is what such a log shows.
    ensures shows { AcceptedShow }
    ensures statuses { IsProofStatus result.0 }
    ensures input { result.0 ≡ 3 → Rose (S.faults log_in.old) (S.faults log_in.new) }
    ensures output { result.0 ≡ 4 → Rose (K.state out.old).faults (K.state out.new).faults }
    ensures counts { (S.faults log_in.old ≤ S.faults log_in.new) × ((K.state out.old).faults ≤ (K.state out.new).faults) }
{
    accepted_show();
    match judge_frames(alloc, log_in, root, out) {
        Ok(status) => status,
        Err(ProofStop::Sink) => Status(4),
        Err(ProofStop::Input) => end_with(out, FAULT_INPUT, 3),
        Err(ProofStop::Long) => end_with(out, FAULT_LONG, 7),
        Err(ProofStop::Memory) => end_with(out, FAULT_MEMORY, 8),
    }
}
