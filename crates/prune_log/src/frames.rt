// Frames: logs one after the other, each preceded by its length.
ghost use Rattle.std.specs.Prelude.{◌≡◌, ◌++◌, ◌⊎◌, ◌<◌, ◌^◌, ℕ, List, length, All, OnOk, OnErr, IfOk, IfErr, MatchResult, Result, Some};
ghost use Rattle.log_model.specs.Grammar.{IsValidLog, IsValidJoinLog};
ghost use Rattle.log_model.specs.declared.logs.Log.{Log};
ghost use Rattle.log_model.specs.declared.logs.JoinLog.{JoinLog};
ghost use Rattle.prune_log.specs.declared.fault.LogFault.{LogFault};
ghost use Rattle.prune_log.specs.Ranges.{LogInRange, JoinLogInRange};
ghost use Rattle.prune_log.specs.Spelling.{log_bytes, join_log_bytes, frame_bytes, frames_bytes};
ghost use Rattle.prune_log.specs.Reading.{Gives, whole, log_at, join_log_at, frame_at, frames_at, frames_fault, join_frames_fault};

use crate::fault::LogFault;
use crate::fields::{put_u64, u64_at};
use crate::join_log::whole_join_log;
use crate::query_log::whole_log;
use log_model::{JoinLog, Log};
use std::alloc::{AllocError, Global};

/// A log that is read from frames.
pub trait Framed: Drop {
    /// The log at the front of bytes and the bytes behind it, or the first fault.
    ghost reads: { List ℕ → Result (Self × List ℕ) LogFault };

    /// Reads a log that takes all of `bytes`.
    fn read_whole(alloc: Global, bytes: &[u8]) -> Result<Self, LogFault>
        ensures { Gives (λ log. log) result (whole reads bytes.now) };
}

impl Framed for Log {
    ghost reads = { log_at };

    fn read_whole(alloc: Global, bytes: &[u8]) -> Result<Log, LogFault> {
        whole_log(alloc, bytes)
    }
}

impl Framed for JoinLog {
    ghost reads = { join_log_at };

    fn read_whole(alloc: Global, bytes: &[u8]) -> Result<JoinLog, LogFault> {
        whole_join_log(alloc, bytes)
    }
}

// Reads the log of the first frame, and returns the bytes behind it too.
#[tactic(auto, unfolding(crate::specs::Reading::frame_at))]
fn frame_at<L: Framed>(alloc: Global, bytes: &[u8]) -> Result<(L, &[u8]), LogFault>
    ensures gives { Gives (λ x. (x.0, x.1.now)) result (frame_at L.reads bytes.now) }
    ensures shorter { IfOk result (λ x. length x.1.now < length bytes.now) }
{
    let (size, rest) = u64_at(bytes)?;
    if size > rest.len() as u64 {
        return Err(LogFault::Cut);
    }
    let (body, rest) = rest.split_at(size as usize);
    let log = L::read_whole(alloc, body)?;
    Ok((log, rest))
}

// Reads the logs of all frames.
fn frames<L: Framed>(alloc: Global, bytes: &[u8]) -> Result<Vec<L>, LogFault>
    ensures gives { Gives (λ logs. logs.items) result (frames_at L.reads bytes.now) }
    ensures short { length bytes.now < 2 ^ 64 }
{
    let mut logs = Vec::new(alloc);
    let mut rest = bytes;
    while !rest.is_empty() {
        let (log, behind) = frame_at(alloc, rest)?;
        logs.push(log)?;
        rest = behind;
    }
    Ok(logs)
}

/// Appends a frame of `bytes`: their length, and the bytes.
pub fn frame(bytes: &[u8], out: &mut Vec<u8>) -> Result<(), AllocError>
    ensures ok { OnOk result (out.new.items ≡ out.old.items ++ frame_bytes bytes.now) }
    ensures err { OnErr result (out.new.items ≡ out.old.items) }
{
    let before = out.len();
    put_u64(out, bytes.len() as u64)?;
    if let Err(error) = out.extend_from_slice(bytes) {
        out.truncate(before);
        return Err(error);
    }
    Ok(())
}

/// Reads the logs of frames, or returns the first fault from left to right, of a frame or of its log. Empty bytes have no frames.
pub fn decode_frames(alloc: Global, bytes: &[u8]) -> Result<Vec<Log>, LogFault>
    // The result is what reading from left to right gives.
    ensures gives { Gives (λ logs. logs.items) result (frames_at log_at bytes.now) }
    // The bytes spell what is read.
    ensures ok { IfOk result (λ logs. frames_bytes log_bytes logs.items ≡ bytes.now) }
    // What is read can be written again.
    ensures valid { IfOk result (λ logs. All IsValidLog logs.items) }
    ensures in_range { IfOk result (λ logs. All LogInRange logs.items) }
    // Bytes that spell valid logs are read as these logs, unless memory runs out.
    ensures only { (logs : List Log) → All IsValidLog logs → All LogInRange logs → frames_bytes log_bytes logs ≡ bytes.now →
        MatchResult result (λ read. read.items ≡ logs) (λ fault. fault ≡ LogFault.Memory) }
    ensures fault { IfErr result (λ fault. (fault ≡ LogFault.Memory) ⊎ (frames_fault bytes.now ≡ Some fault)) }
{
    frames(alloc, bytes)
}

/// Reads the joins' logs of frames, or returns the first fault from left to right, of a frame or of its log. Empty bytes have no
/// frames.
pub fn decode_join_frames(alloc: Global, bytes: &[u8]) -> Result<Vec<JoinLog>, LogFault>
    // The result is what reading from left to right gives.
    ensures gives { Gives (λ logs. logs.items) result (frames_at join_log_at bytes.now) }
    // The bytes spell what is read.
    ensures ok { IfOk result (λ logs. frames_bytes join_log_bytes logs.items ≡ bytes.now) }
    // What is read can be written again.
    ensures valid { IfOk result (λ logs. All IsValidJoinLog logs.items) }
    ensures in_range { IfOk result (λ logs. All JoinLogInRange logs.items) }
    // Bytes that spell valid logs are read as these logs, unless memory runs out.
    ensures only { (logs : List JoinLog) → All IsValidJoinLog logs → All JoinLogInRange logs →
        frames_bytes join_log_bytes logs ≡ bytes.now →
        MatchResult result (λ read. read.items ≡ logs) (λ fault. fault ≡ LogFault.Memory) }
    ensures fault { IfErr result (λ fault. (fault ≡ LogFault.Memory) ⊎ (join_frames_fault bytes.now ≡ Some fault)) }
{
    frames(alloc, bytes)
}
