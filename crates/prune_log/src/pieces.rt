// The items that a log lists, and lists of them.
ghost use Rattle.std.specs.Prelude.{◌≡◌, ◌++◌, [], ◌∷◌, ℕ, List, take, Bool, true, OnOk, Result, Option, None, ◌≤◌, ◌<◌, ◌^◌, length};
ghost use Rattle.std.specs.Option.{option_copied};
ghost use Rattle.std.specs.List.{flat_map, AllByRecursion};
ghost use Rattle.prune_log.specs.declared.fault.LogFault.{LogFault};
ghost use Rattle.prune_log.specs.Spelling.{coordinate_bytes, hit_bytes, pair_bytes, mark_bytes, record_bytes, join_record_bytes, side_bytes, listed};
ghost use Rattle.prune_log.specs.Reading.{Gives, number_at, next_at, many, always, hit_at, hit_follows, pair_at, pair_follows, mark_at, marks_at, record_at, side_at, join_record_at, listed_at};

use crate::fault::LogFault;
use crate::fields::{byte_at, put_u32, put_u64, u32_at, u64_at};
use log_model::{JoinRecord, Mark, NodeMarks, Record};
use metric_laws::Listed;
use scan_model::{Hit, Pair};
use std::alloc::{AllocError, Global};

/// The greatest number of a node's entries.
const ENTRIES: u8 = 32;

/// An item that a log lists.
pub trait Piece: Drop {
    /// Which pieces can be written.
    ghost can_put: { Self → Type 0 };

    /// The piece's spelling.
    ghost spelled: { Self → List ℕ };

    /// The piece at the front of bytes and the bytes behind it, or the first fault.
    ghost reads: { List ℕ → Result (Self × List ℕ) LogFault };

    /// Whether a piece may stand behind another.
    ghost follows: { Self → Self → Bool };

    /// Appends the piece.
    fn put(&self, out: &mut Vec<u8>) -> Result<(), AllocError>
        requires { can_put self.now }
        ensures { OnOk result (out.new.items ≡ out.old.items ++ spelled self.now) };

    /// Reads the piece at the front.
    fn read(alloc: Global, bytes: &[u8]) -> Result<(Self, &[u8]), LogFault>
        ensures { Gives (λ x. (x.0, x.1.now)) result (reads bytes.now) };

    /// Returns whether the piece may stand behind `last`.
    fn is_behind(&self, last: &Self) -> bool
        ensures { result ≡ follows last.now self.now };
}

impl Piece for u32 {
    ghost can_put = { λ _. Unit {0} };

    ghost spelled = { coordinate_bytes };

    ghost reads = { number_at 4 };

    ghost follows = { always };

    fn put(&self, out: &mut Vec<u8>) -> Result<(), AllocError> {
        put_u32(out, *self)
    }

    fn read(_alloc: Global, bytes: &[u8]) -> Result<(u32, &[u8]), LogFault> {
        u32_at(bytes)
    }

    fn is_behind(&self, _last: &u32) -> bool {
        true
    }
}

impl Piece for Hit {
    ghost can_put = { λ _. Unit {0} };

    ghost spelled = { hit_bytes };

    ghost reads = { hit_at };

    ghost follows = { hit_follows };

    fn put(&self, out: &mut Vec<u8>) -> Result<(), AllocError> {
        put_u32(out, self.id)?;
        put_u64(out, self.dist)
    }

    #[tactic(auto, unfolding(crate::specs::Reading::hit_at))]
    fn read(_alloc: Global, bytes: &[u8]) -> Result<(Hit, &[u8]), LogFault> {
        let (id, rest) = u32_at(bytes)?;
        let (dist, rest) = u64_at(rest)?;
        Ok((Hit { id, dist }, rest))
    }

    fn is_behind(&self, last: &Hit) -> bool {
        last.dist < self.dist || (last.dist == self.dist && last.id < self.id)
    }
}

// Returns the byte of a mark.
fn mark_byte(mark: Mark) -> u8
    ensures { mark_bytes mark ≡ result ∷ [] }
{
    match mark {
        Mark::Skip => 0,
        Mark::Far => 1,
        Mark::Near => 2,
    }
}

impl Piece for Mark {
    ghost can_put = { λ _. Unit {0} };

    ghost spelled = { mark_bytes };

    ghost reads = { mark_at };

    ghost follows = { always };

    fn put(&self, out: &mut Vec<u8>) -> Result<(), AllocError> {
        out.push(mark_byte(*self))?;
        Ok(())
    }

    #[tactic(auto, unfolding(crate::specs::Reading::mark_at))]
    fn read(_alloc: Global, bytes: &[u8]) -> Result<(Mark, &[u8]), LogFault> {
        let (byte, rest) = byte_at(bytes)?;
        match byte {
            0 => Ok((Mark::Skip, rest)),
            1 => Ok((Mark::Far, rest)),
            2 => Ok((Mark::Near, rest)),
            _ => Err(LogFault::Mark),
        }
    }

    fn is_behind(&self, _last: &Mark) -> bool {
        true
    }
}

impl Piece for Pair {
    ghost can_put = { λ _. Unit {0} };

    ghost spelled = { pair_bytes };

    ghost reads = { pair_at };

    ghost follows = { pair_follows };

    fn put(&self, out: &mut Vec<u8>) -> Result<(), AllocError> {
        put_u32(out, self.left)?;
        put_u32(out, self.right)?;
        put_u64(out, self.dist)
    }

    #[tactic(auto, unfolding(crate::specs::Reading::pair_at))]
    fn read(_alloc: Global, bytes: &[u8]) -> Result<(Pair, &[u8]), LogFault> {
        let (left, rest) = u32_at(bytes)?;
        let (right, rest) = u32_at(rest)?;
        let (dist, rest) = u64_at(rest)?;
        Ok((Pair { left, right, dist }, rest))
    }

    fn is_behind(&self, last: &Pair) -> bool {
        last.left < self.left
            || (last.left == self.left
                && (last.right < self.right || (last.right == self.right && last.dist < self.dist)))
    }
}

// Reads the marks of a node, at most as many as a node may have entries.
#[tactic(auto, unfolding(crate::specs::Reading::marks_at))]
fn marks_at(alloc: Global, bytes: &[u8]) -> Result<(NodeMarks, &[u8]), LogFault>
    ensures { Gives (λ x. (x.0, x.1.now)) result (marks_at bytes.now) }
{
    let (count, rest) = byte_at(bytes)?;
    if count > ENTRIES {
        return Err(LogFault::Mark);
    }
    let (marks, rest) = read_all(alloc, u64::from(count), rest)?;
    Ok((NodeMarks::from_slice(alloc, marks.as_slice())?, rest))
}

// Returns the bytes of a node's marks at the front of an array.
fn marks_in_bytes(marks: &[Mark]) -> [u8; ENTRIES as usize]
    requires { length marks.now ≤ 32 }
    ensures { take (length marks.now) result ≡ flat_map mark_bytes marks.now }
{
    let mut bytes = [0u8; ENTRIES as usize];
    for place in 0..marks.len() {
        bytes[place] = mark_byte(marks[place]);
    }
    bytes
}

// Appends the marks of a node, all at once, since they are most of a log.
fn put_marks(out: &mut Vec<u8>, marks: &[Mark]) -> Result<(), AllocError>
    requires { length marks.now ≤ 32 }
    ensures { OnOk result (out.new.items ≡ out.old.items ++ listed 1 mark_bytes marks.now) }
{
    let bytes = marks_in_bytes(marks);
    out.push(marks.len() as u8)?;
    out.extend_from_slice(&bytes[..marks.len()])?;
    Ok(())
}

impl Piece for Record {
    ghost can_put = { λ r. length r.marks ≤ 32 };

    ghost spelled = { record_bytes };

    ghost reads = { record_at };

    ghost follows = { always };

    fn put(&self, out: &mut Vec<u8>) -> Result<(), AllocError> {
        put_u32(out, self.page)?;
        put_marks(out, self.marks.as_slice())
    }

    #[tactic(auto, unfolding(crate::specs::Reading::record_at))]
    fn read(alloc: Global, bytes: &[u8]) -> Result<(Record, &[u8]), LogFault> {
        let (page, rest) = u32_at(bytes)?;
        let (marks, rest) = marks_at(alloc, rest)?;
        Ok((Record { page, marks }, rest))
    }

    fn is_behind(&self, _last: &Record) -> bool {
        true
    }
}

// Reads a side: true is the right one.
#[tactic(auto, unfolding(crate::specs::Reading::side_at))]
fn side_at(bytes: &[u8]) -> Result<(bool, &[u8]), LogFault>
    ensures { Gives (λ x. (x.0, x.1.now)) result (side_at bytes.now) }
{
    let (side, rest) = byte_at(bytes)?;
    match side {
        0 => Ok((false, rest)),
        1 => Ok((true, rest)),
        _ => Err(LogFault::Mark),
    }
}

impl Piece for JoinRecord {
    ghost can_put = { λ r. length r.marks ≤ 32 };

    ghost spelled = { join_record_bytes };

    ghost reads = { join_record_at };

    ghost follows = { always };

    fn put(&self, out: &mut Vec<u8>) -> Result<(), AllocError> {
        out.push(u8::from(self.right))?;
        put_u32(out, self.page)?;
        put_marks(out, self.marks.as_slice())
    }

    #[tactic(auto, unfolding(crate::specs::Reading::join_record_at))]
    fn read(alloc: Global, bytes: &[u8]) -> Result<(JoinRecord, &[u8]), LogFault> {
        let (right, rest) = side_at(bytes)?;
        let (page, rest) = u32_at(rest)?;
        let (marks, rest) = marks_at(alloc, rest)?;
        Ok((JoinRecord { right, page, marks }, rest))
    }

    fn is_behind(&self, _last: &JoinRecord) -> bool {
        true
    }
}

// Reads the next piece of a list, which has to be one that may stand behind `last`.
fn next_at<'a, P: Piece>(
    alloc: Global,
    last: Option<&P>,
    bytes: &'a [u8],
) -> Result<(P, &'a [u8]), LogFault>
    ensures { Gives (λ x. (x.0, x.1.now)) result (next_at P.reads P.follows (option_copied last.entry) bytes.now) }
{
    let (piece, rest) = P::read(alloc, bytes)?;
    if let Some(last) = last
        && !piece.is_behind(last)
    {
        return Err(LogFault::Order);
    }
    Ok((piece, rest))
}

// Reads `count` pieces. Room is reserved for at most as many as a node has entries; a greater count is not trusted before its bytes
// are read.
pub fn read_all<P: Piece>(
    alloc: Global,
    count: u64,
    bytes: &[u8],
) -> Result<(Vec<P>, &[u8]), LogFault>
    ensures { Gives (λ x. (x.0.items, x.1.now)) result (many P.reads P.follows count None bytes.now) }
{
    let mut pieces = Vec::with_capacity(alloc, count.min(u64::from(ENTRIES)) as usize)?;
    let mut rest = bytes;
    for _ in 0..count {
        let (piece, after) = next_at(alloc, pieces.last(), rest)?;
        pieces.push(piece)?;
        rest = after;
    }
    Ok((pieces, rest))
}

// Appends pieces.
pub fn put_all<P: Piece>(out: &mut Vec<u8>, pieces: &[P]) -> Result<(), AllocError>
    requires { AllByRecursion P.can_put pieces.now }
    ensures { OnOk result (out.new.items ≡ out.old.items ++ flat_map P.spelled pieces.now) }
{
    for piece in pieces {
        piece.put(out)?;
    }
    Ok(())
}

// Reads a count in four bytes, and that number of pieces.
#[tactic(auto, unfolding(crate::specs::Reading::listed_at))]
pub fn short_list_at<P: Piece>(alloc: Global, bytes: &[u8]) -> Result<(Listed<P>, &[u8]), LogFault>
    ensures { Gives (λ x. (x.0, x.1.now)) result (listed_at 4 P.reads P.follows bytes.now) }
{
    let (count, rest) = u32_at(bytes)?;
    let (pieces, rest) = read_all(alloc, u64::from(count), rest)?;
    Ok((Listed::new(pieces), rest))
}

// Reads a count in eight bytes, and that number of pieces.
#[tactic(auto, unfolding(crate::specs::Reading::listed_at))]
pub fn long_list_at<P: Piece>(alloc: Global, bytes: &[u8]) -> Result<(Listed<P>, &[u8]), LogFault>
    ensures { Gives (λ x. (x.0, x.1.now)) result (listed_at 8 P.reads P.follows bytes.now) }
{
    let (count, rest) = u64_at(bytes)?;
    let (pieces, rest) = read_all(alloc, count, rest)?;
    Ok((Listed::new(pieces), rest))
}

// Appends the number of pieces in four bytes, and the pieces.
pub fn put_short_list<P: Piece>(out: &mut Vec<u8>, pieces: &[P]) -> Result<(), AllocError>
    requires few { length pieces.now < 2 ^ 32 }
    requires each { AllByRecursion P.can_put pieces.now }
    ensures { OnOk result (out.new.items ≡ out.old.items ++ listed 4 P.spelled pieces.now) }
{
    put_u32(out, pieces.len() as u32)?;
    put_all(out, pieces)
}

// Appends the number of pieces in eight bytes, and the pieces.
pub fn put_long_list<P: Piece>(out: &mut Vec<u8>, pieces: &[P]) -> Result<(), AllocError>
    requires { AllByRecursion P.can_put pieces.now }
    ensures { OnOk result (out.new.items ≡ out.old.items ++ listed 8 P.spelled pieces.now) }
{
    put_u64(out, pieces.len() as u64)?;
    put_all(out, pieces)
}
