ghost use Rattle.std.specs.Prelude.{◌≡◌, ◌≤◌, drop, IfOk};
ghost use Rattle.rows_text.specs.Records.{fields_in};
ghost use Rattle.rows_text.specs.Script.{close_of, count_of, cursor_of, insert_of, nearest_of, next_of, range_of, single_of, tag_insert_of};

use crate::field::field;
use crate::numbers::{coordinate, number};
use crate::points::point_from;
use crate::{Command, Refusal};
use csv::ByteRecord;
use std::alloc::{AllocError, Global};

fn read_insert(alloc: Global, dimension: usize, row: &ByteRecord) -> Result<Command, AllocError>
    requires some { 1 ≤ dimension }
    requires few { dimension ≤ 64 }
    ensures { IfOk result (λ command. command ≡ insert_of dimension (drop 1 (fields_in row.now))) }
{
    if row.len() != dimension + 1 {
        return Ok(Command::Bad(Refusal::Dimension));
    }
    Ok(match point_from(alloc, row, 1)? {
        Some(p) => Command::Insert(p),
        None => Command::Bad(Refusal::Number),
    })
}

fn read_range(alloc: Global, dimension: usize, row: &ByteRecord) -> Result<Command, AllocError>
    requires { dimension ≤ 64 }
    ensures { IfOk result (λ command. command ≡ range_of dimension (drop 1 (fields_in row.now))) }
{
    if row.len() != dimension + 2 {
        return Ok(Command::Bad(Refusal::Dimension));
    }
    let Some(r) = number(field(row, 1)) else {
        return Ok(Command::Bad(Refusal::Number));
    };
    Ok(match point_from(alloc, row, 2)? {
        Some(q) => Command::Range { r, q },
        None => Command::Bad(Refusal::Number),
    })
}

fn read_nearest(alloc: Global, dimension: usize, row: &ByteRecord) -> Result<Command, AllocError>
    requires { dimension ≤ 64 }
    ensures { IfOk result (λ command. command ≡ nearest_of dimension (drop 1 (fields_in row.now))) }
{
    if row.len() != dimension + 2 {
        return Ok(Command::Bad(Refusal::Dimension));
    }
    let Some(k) = number(field(row, 1)) else {
        return Ok(Command::Bad(Refusal::Number));
    };
    Ok(match point_from(alloc, row, 2)? {
        Some(_) if k == 0 => Command::Bad(Refusal::Count),
        Some(q) => Command::Nearest { k, q },
        None => Command::Bad(Refusal::Number),
    })
}

fn read_tag_insert(alloc: Global, dimension: usize, row: &ByteRecord) -> Result<Command, AllocError>
    requires { dimension ≤ 64 }
    ensures { IfOk result (λ command. command ≡ tag_insert_of dimension (drop 1 (fields_in row.now))) }
{
    if row.len() != dimension + 2 {
        return Ok(Command::Bad(Refusal::Dimension));
    }
    let Some(tag) = number(field(row, 1)) else {
        return Ok(Command::Bad(Refusal::Number));
    };
    Ok(match point_from(alloc, row, 2)? {
        Some(p) => Command::TagInsert { tag, p },
        None => Command::Bad(Refusal::Number),
    })
}

fn read_cursor(alloc: Global, dimension: usize, row: &ByteRecord) -> Result<Command, AllocError>
    requires some { 1 ≤ dimension }
    requires few { dimension ≤ 64 }
    ensures { IfOk result (λ command. command ≡ cursor_of dimension (drop 1 (fields_in row.now))) }
{
    if row.len() != dimension + 1 {
        return Ok(Command::Bad(Refusal::Dimension));
    }
    Ok(match point_from(alloc, row, 1)? {
        Some(q) => Command::Cursor(q),
        None => Command::Bad(Refusal::Number),
    })
}

fn read_next(row: &ByteRecord) -> Command
    ensures { result ≡ next_of (drop 1 (fields_in row.now)) }
{
    if row.len() != 3 {
        return Command::Bad(Refusal::Command);
    }
    match (coordinate(field(row, 1)), number(field(row, 2))) {
        (Some(_), Some(0)) => Command::Bad(Refusal::Count),
        (Some(cursor), Some(n)) => Command::Next { cursor, n },
        _ => Command::Bad(Refusal::Number),
    }
}

fn read_close(row: &ByteRecord) -> Command
    ensures { result ≡ close_of (drop 1 (fields_in row.now)) }
{
    if row.len() != 2 {
        return Command::Bad(Refusal::Command);
    }
    match coordinate(field(row, 1)) {
        Some(cursor) => Command::Close(cursor),
        None => Command::Bad(Refusal::Number),
    }
}

fn read_count(row: &ByteRecord) -> Command
    ensures { result ≡ count_of (drop 1 (fields_in row.now)) }
{
    if row.len() > 1 {
        return Command::Bad(Refusal::Command);
    }
    Command::Count
}

/// Reads the command of a single record.
pub fn read_single(alloc: Global, dimension: usize, row: &ByteRecord) -> Result<Command, AllocError>
    requires some { 1 ≤ dimension }
    requires few { dimension ≤ 64 }
    ensures { IfOk result (λ command. command ≡ single_of dimension (fields_in row.now)) }
{
    let name = field(row, 0);
    if name == b"insert".as_slice() {
        return read_insert(alloc, dimension, row);
    }
    if name == b"range".as_slice() {
        return read_range(alloc, dimension, row);
    }
    if name == b"nearest".as_slice() {
        return read_nearest(alloc, dimension, row);
    }
    if name == b"tinsert".as_slice() {
        return read_tag_insert(alloc, dimension, row);
    }
    if name == b"cursor".as_slice() {
        return read_cursor(alloc, dimension, row);
    }
    if name == b"next".as_slice() {
        return Ok(read_next(row));
    }
    if name == b"close".as_slice() {
        return Ok(read_close(row));
    }
    if name == b"count".as_slice() {
        return Ok(read_count(row));
    }
    Ok(Command::Bad(Refusal::Command))
}
