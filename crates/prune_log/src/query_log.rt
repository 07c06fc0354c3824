// Reads and writes the log of a query.
ghost use Rattle.std.specs.Prelude.{◌≡◌, ◌++◌, ◌⊎◌, ◌≤◌, length, OnOk, IfOk, IfErr, Ok, Err, Some};
ghost use Rattle.byteorder.specs.Endian.{big_bytes};
ghost use Rattle.log_model.specs.Grammar.{IsValidLog, IsValidQuery};
ghost use Rattle.log_model.specs.declared.logs.Log.{Log};
ghost use Rattle.prune_log.specs.Ranges.{LogInRange};
ghost use Rattle.prune_log.specs.Spelling.{opening_bytes, tree_bytes, kind_bytes, query_bytes, log_bytes, listed, coordinate_bytes};
ghost use Rattle.prune_log.specs.Reading.{Gives, opening_at, tree_at, kind_at, point_at, is_amount, query_of, query_at, log_at, whole, log_fault};

use crate::fault::LogFault;
use crate::fields::{byte_at, put_u32, put_u64, u32_at, u64_at};
use crate::pieces::{put_all, put_short_list, read_all, short_list_at};
use log_model::Log;
use metric_laws::Point;
use scan_model::Query;
use std::alloc::{AllocError, Global};

/// The letters `MTLG` as a number, the first letter highest.
const MAGIC: u32 = 0x4d54_4c47;

/// The version of the format.
const VERSION: u8 = 1;

/// The greatest number of a point's coordinates.
const COORDINATES: u8 = 64;

/// The most bytes of a record: its page, the number of its marks, and 32 marks.
const RECORD_ROOM: usize = 37;

/// The kind of a query.
#[derive(Clone, Copy)]
pub enum Asked {
    /// A range query: the objects within a radius.
    Range,
    /// A k-NN query: the k nearest objects.
    Nearest,
}

// Reads the letters and the version, and returns the bytes behind them.
#[tactic(auto, unfolding(crate::specs::Reading::opening_at))]
pub fn opening_at(bytes: &[u8]) -> Result<&[u8], LogFault>
    ensures { Gives (λ x. x.now) result (opening_at bytes.now) }
{
    let (letters, rest) = u32_at(bytes)?;
    if letters != MAGIC {
        return Err(LogFault::Magic);
    }
    let (version, rest) = byte_at(rest)?;
    if version != VERSION {
        return Err(LogFault::Version);
    }
    Ok(rest)
}

// Reads the kind of a query.
#[tactic(auto, unfolding(crate::specs::Reading::kind_at))]
fn kind_at(bytes: &[u8]) -> Result<(Asked, &[u8]), LogFault>
    ensures { Gives (λ x. (x.0, x.1.now)) result (kind_at bytes.now) }
{
    let (kind, rest) = byte_at(bytes)?;
    match kind {
        1 => Ok((Asked::Range, rest)),
        2 => Ok((Asked::Nearest, rest)),
        _ => Err(LogFault::Kind),
    }
}

// Reads the generation of a tree and the page of its root.
#[tactic(auto, unfolding(crate::specs::Reading::tree_at))]
pub fn tree_at(bytes: &[u8]) -> Result<((u64, u32), &[u8]), LogFault>
    ensures { Gives (λ x. (x.0, x.1.now)) result (tree_at bytes.now) }
{
    let (generation, rest) = u64_at(bytes)?;
    let (root, rest) = u32_at(rest)?;
    Ok(((generation, root), rest))
}

// Reads a point.
#[tactic(auto, unfolding(crate::specs::Reading::point_at))]
fn point_at(alloc: Global, bytes: &[u8]) -> Result<(Point, &[u8]), LogFault>
    ensures { Gives (λ x. (x.0, x.1.now)) result (point_at bytes.now) }
{
    let (dim, rest) = byte_at(bytes)?;
    if dim < 1 || dim > COORDINATES {
        return Err(LogFault::Kind);
    }
    let (coordinates, rest) = read_all::<u32>(alloc, u64::from(dim), rest)?;
    let point = Point::new(alloc, coordinates.as_slice())?;
    Ok((point, rest))
}

// Returns the query of the kind `asked` with this amount and point.
fn query_of(asked: Asked, amount: u64, point: Point) -> Query
    ensures { result ≡ query_of asked amount point }
{
    match asked {
        Asked::Range => Query::Range {
            q: point,
            r: amount,
        },
        Asked::Nearest => Query::Nearest {
            q: point,
            k: amount,
        },
    }
}

// Returns whether `amount` is allowed for this kind: k is at least 1.
fn is_amount(asked: Asked, amount: u64) -> bool
    ensures { result ≡ is_amount asked amount }
{
    match asked {
        Asked::Range => true,
        Asked::Nearest => amount > 0,
    }
}

// Reads the radius or k of a query, and its point.
#[tactic(auto, unfolding(crate::specs::Reading::query_at))]
fn query_at(alloc: Global, asked: Asked, bytes: &[u8]) -> Result<(Query, &[u8]), LogFault>
    ensures { Gives (λ x. (x.0, x.1.now)) result (query_at asked bytes.now) }
{
    let (amount, rest) = u64_at(bytes)?;
    if !is_amount(asked, amount) {
        return Err(LogFault::Kind);
    }
    let (point, rest) = point_at(alloc, rest)?;
    Ok((query_of(asked, amount, point), rest))
}

// Reads a log, and returns the bytes behind it too.
#[tactic(auto, unfolding(crate::specs::Reading::log_at))]
fn log_at(alloc: Global, bytes: &[u8]) -> Result<(Log, &[u8]), LogFault>
    ensures { Gives (λ x. (x.0, x.1.now)) result (log_at bytes.now) }
{
    let rest = opening_at(bytes)?;
    let (asked, rest) = kind_at(rest)?;
    let ((generation, root), rest) = tree_at(rest)?;
    let (query, rest) = query_at(alloc, asked, rest)?;
    let (answers, rest) = short_list_at(alloc, rest)?;
    let (records, rest) = short_list_at(alloc, rest)?;
    let log = Log {
        generation,
        root,
        query,
        answers,
        records,
    };
    Ok((log, rest))
}

// Reads a log that takes all of `bytes`.
pub fn whole_log(alloc: Global, bytes: &[u8]) -> Result<Log, LogFault>
    ensures { Gives (λ log. log) result (whole log_at bytes.now) }
{
    let (log, rest) = log_at(alloc, bytes)?;
    if !rest.is_empty() {
        return Err(LogFault::Tail);
    }
    Ok(log)
}

/// Reads the log that the bytes spell, or returns the first fault from left to right. It asks for no more memory than the bytes that
/// are left can fill.
pub fn decode_log(alloc: Global, bytes: &[u8]) -> Result<Log, LogFault>
    // The bytes spell what is read.
    ensures ok { IfOk result (λ log. log_bytes log ≡ bytes.now) }
    // What is read can be written again.
    ensures valid { IfOk result (λ log. IsValidLog log) }
    ensures in_range { IfOk result (λ log. LogInRange log) }
    // Bytes that spell a valid log are read as this log, unless memory runs out.
    ensures only { (log : Log) → IsValidLog log → LogInRange log → log_bytes log ≡ bytes.now →
        (result ≡ Ok log) ⊎ (result ≡ Err LogFault.Memory) }
    ensures fault { IfErr result (λ fault. (fault ≡ LogFault.Memory) ⊎ (log_fault bytes.now ≡ Some fault)) }
{
    whole_log(alloc, bytes)
}

// Appends the letters and the version.
pub fn put_opening(out: &mut Vec<u8>) -> Result<(), AllocError>
    ensures { OnOk result (out.new.items ≡ out.old.items ++ opening_bytes) }
{
    put_u32(out, MAGIC)?;
    out.push(VERSION)?;
    Ok(())
}

// Appends the generation of a tree and the page of its root.
pub fn put_tree(out: &mut Vec<u8>, generation: u64, root: u32) -> Result<(), AllocError>
    ensures { OnOk result (out.new.items ≡ out.old.items ++ tree_bytes generation root) }
{
    put_u64(out, generation)?;
    put_u32(out, root)
}

// Appends the kind of a query.
fn put_kind(out: &mut Vec<u8>, query: &Query) -> Result<(), AllocError>
    ensures { OnOk result (out.new.items ≡ out.old.items ++ kind_bytes query.now) }
{
    let kind = match query {
        Query::Range { .. } => 1,
        Query::Nearest { .. } => 2,
    };
    out.push(kind)?;
    Ok(())
}

// Appends a number and a point.
fn put_asked(out: &mut Vec<u8>, amount: u64, point: &[u32]) -> Result<(), AllocError>
    requires { length point.now ≤ 64 }
    ensures { OnOk result (out.new.items ≡ out.old.items ++ (big_bytes 8 amount ++ listed 1 coordinate_bytes point.now)) }
{
    put_u64(out, amount)?;
    out.push(point.len() as u8)?;
    put_all(out, point)
}

// Appends the radius or k of a query, and its point.
fn put_query(out: &mut Vec<u8>, query: &Query) -> Result<(), AllocError>
    requires { IsValidQuery query.now }
    ensures { OnOk result (out.new.items ≡ out.old.items ++ query_bytes query.now) }
{
    match query {
        Query::Range { q, r } => put_asked(out, *r, q.as_slice()),
        Query::Nearest { q, k } => put_asked(out, *k, q.as_slice()),
    }
}

/// Returns the one spelling of a log.
pub fn encode_log(alloc: Global, log: &Log) -> Result<Vec<u8>, AllocError>
    requires { IsValidLog log.now }
    ensures { IfOk result (λ bytes. bytes.items ≡ log_bytes log.now) }
{
    let room = log.records.as_slice().len().saturating_mul(RECORD_ROOM);
    let mut out = Vec::with_capacity(alloc, room)?;
    put_opening(&mut out)?;
    put_kind(&mut out, &log.query)?;
    put_tree(&mut out, log.generation, log.root)?;
    put_query(&mut out, &log.query)?;
    put_short_list(&mut out, log.answers.as_slice())?;
    put_short_list(&mut out, log.records.as_slice())?;
    Ok(out)
}
