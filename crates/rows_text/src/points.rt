ghost use Rattle.std.specs.Prelude.{◌≡◌, drop, option_map, IfOk};
ghost use Rattle.rows_text.specs.Numbers.{coordinates};
ghost use Rattle.rows_text.specs.Records.{fields_in};

use crate::field::field;
use crate::numbers::coordinate;
use csv::ByteRecord;
use metric_laws::Point;
use std::alloc::{AllocError, Global};

/// Reads the coordinates that the fields from place `start` on spell.
pub fn coordinates_from(
    alloc: Global,
    row: &ByteRecord,
    start: usize,
) -> Result<Option<Vec<u32>>, AllocError>
    ensures { IfOk result (λ found. option_map (λ v. v.items) found ≡ coordinates (drop start (fields_in row.now))) }
{
    let mut found = Vec::with_capacity(alloc, row.len().saturating_sub(start))?;
    for i in start..row.len() {
        let Some(x) = coordinate(field(row, i)) else {
            return Ok(None);
        };
        found.push(x)?;
    }
    Ok(Some(found))
}

/// Reads the point that the fields from place `start` on spell.
pub fn point_from(
    alloc: Global,
    row: &ByteRecord,
    start: usize,
) -> Result<Option<Point>, AllocError>
    ensures { IfOk result (λ p. p ≡ coordinates (drop start (fields_in row.now))) }
{
    let Some(found) = coordinates_from(alloc, row, start)? else {
        return Ok(None);
    };
    Ok(Some(Point::new(alloc, found.as_slice())?))
}
