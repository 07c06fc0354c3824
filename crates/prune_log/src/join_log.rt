// Reads and writes the log of a join.
ghost use Rattle.std.specs.Prelude.{◌≡◌, ◌++◌, ◌⊎◌, OnOk, IfOk, IfErr, Ok, Err, Some};
ghost use Rattle.log_model.specs.Grammar.{IsValidJoinLog};
ghost use Rattle.log_model.specs.declared.logs.JoinLog.{JoinLog};
ghost use Rattle.prune_log.specs.Ranges.{JoinLogInRange};
ghost use Rattle.prune_log.specs.Spelling.{join_opening_bytes, join_log_bytes};
ghost use Rattle.prune_log.specs.Reading.{Gives, join_opening_at, trees_at, join_log_at, whole, join_log_fault};

use crate::fault::LogFault;
use crate::fields::{byte_at, put_u64, u64_at};
use crate::pieces::{long_list_at, put_long_list};
use crate::query_log::{opening_at, put_opening, put_tree, tree_at};
use log_model::JoinLog;
use std::alloc::{AllocError, Global};

/// The kind of a join's log.
const JOIN: u8 = 3;

/// A tree: its generation and the page of its root.
type Tree = (u64, u32);

// Reads the letters, the version and the kind, and returns the bytes behind them.
#[tactic(auto, unfolding(crate::specs::Reading::join_opening_at))]
fn join_opening_at(bytes: &[u8]) -> Result<&[u8], LogFault>
    ensures { Gives (λ x. x.now) result (join_opening_at bytes.now) }
{
    let rest = opening_at(bytes)?;
    let (kind, rest) = byte_at(rest)?;
    if kind != JOIN {
        return Err(LogFault::Kind);
    }
    Ok(rest)
}

// Reads the left tree and the right tree.
#[tactic(auto, unfolding(crate::specs::Reading::trees_at))]
fn trees_at(bytes: &[u8]) -> Result<((Tree, Tree), &[u8]), LogFault>
    ensures { Gives (λ x. (x.0, x.1.now)) result (trees_at bytes.now) }
{
    let (left, rest) = tree_at(bytes)?;
    let (right, rest) = tree_at(rest)?;
    Ok(((left, right), rest))
}

// Reads a join's log, and returns the bytes behind it too.
#[tactic(auto, unfolding(crate::specs::Reading::join_log_at))]
fn join_log_at(alloc: Global, bytes: &[u8]) -> Result<(JoinLog, &[u8]), LogFault>
    ensures { Gives (λ x. (x.0, x.1.now)) result (join_log_at bytes.now) }
{
    let rest = join_opening_at(bytes)?;
    let ((left, right), rest) = trees_at(rest)?;
    let (r, rest) = u64_at(rest)?;
    let (answers, rest) = long_list_at(alloc, rest)?;
    let (records, rest) = long_list_at(alloc, rest)?;
    let log = JoinLog {
        left,
        right,
        r,
        answers,
        records,
    };
    Ok((log, rest))
}

// Reads a join's log that takes all of `bytes`.
pub fn whole_join_log(alloc: Global, bytes: &[u8]) -> Result<JoinLog, LogFault>
    ensures { Gives (λ log. log) result (whole join_log_at bytes.now) }
{
    let (log, rest) = join_log_at(alloc, bytes)?;
    if !rest.is_empty() {
        return Err(LogFault::Tail);
    }
    Ok(log)
}

/// Reads the join's log that the bytes spell, or returns the first fault from left to right. It asks for no more memory than the
/// bytes that are left can fill.
pub fn decode_join_log(alloc: Global, bytes: &[u8]) -> Result<JoinLog, LogFault>
    // The bytes spell what is read.
    ensures ok { IfOk result (λ log. join_log_bytes log ≡ bytes.now) }
    // What is read can be written again.
    ensures valid { IfOk result (λ log. IsValidJoinLog log) }
    ensures in_range { IfOk result (λ log. JoinLogInRange log) }
    // Bytes that spell a valid log are read as this log, unless memory runs out.
    ensures only { (log : JoinLog) → IsValidJoinLog log → JoinLogInRange log → join_log_bytes log ≡ bytes.now → (result ≡ Ok log)
        ⊎ (result ≡ Err LogFault.Memory) }
    ensures fault { IfErr result (λ fault. (fault ≡ LogFault.Memory) ⊎ (join_log_fault bytes.now ≡ Some fault)) }
{
    whole_join_log(alloc, bytes)
}

// Appends the letters, the version and the kind.
fn put_join_opening(out: &mut Vec<u8>) -> Result<(), AllocError>
    ensures { OnOk result (out.new.items ≡ out.old.items ++ join_opening_bytes) }
{
    put_opening(out)?;
    out.push(JOIN)?;
    Ok(())
}

/// Returns the one spelling of a join's log.
pub fn encode_join_log(alloc: Global, log: &JoinLog) -> Result<Vec<u8>, AllocError>
    requires { IsValidJoinLog log.now }
    ensures { IfOk result (λ bytes. bytes.items ≡ join_log_bytes log.now) }
{
    let mut out = Vec::new(alloc);
    put_join_opening(&mut out)?;
    put_tree(&mut out, log.left.0, log.left.1)?;
    put_tree(&mut out, log.right.0, log.right.1)?;
    put_u64(&mut out, log.r)?;
    put_long_list(&mut out, log.answers.as_slice())?;
    put_long_list(&mut out, log.records.as_slice())?;
    Ok(out)
}
