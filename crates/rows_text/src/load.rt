ghost use Rattle.std.specs.Prelude.{◌≡◌};

use crate::field::field;
use crate::numbers::number;
use crate::points::coordinates_from;
use crate::{Command, Refusal};
use csv::ByteRecord;
use metric_laws::{Listed, Rows};
use std::alloc::{AllocError, Global};

/// A load whose rows are being read.
#[derive(Drop)]
pub struct OpenLoad {
    /// The number of coordinates of a point.
    dimension: usize,
    /// Whether a tag stands before each point.
    tagged: bool,
    /// How many rows are still to come.
    left: u64,
    /// The number of the first record that is no row.
    bad: Option<u32>,
    tags: Vec<u64>,
    rows: Rows,
    ghost as_long: { rows.dimension ≡ dimension },
}

impl OpenLoad {
    ghost use Rattle.std.specs.Prelude.{◌<◌, ◌==◌, [], IfOk, OnOk};
    ghost use Rattle.rows_text.specs.Records.{fields_in};
    ghost use Rattle.rows_text.specs.Script.{row_of, tag_row_of};
    ghost use Rattle.rows_text.specs.Reading.{AddsPoint, AddsRow, AddsTagged, IsNewLoad, IsSameLoad, TakesRecord, load_end};

    /// Begins a load of `n` rows.
    pub fn new(alloc: Global, dimension: usize, tagged: bool, n: u64) -> OpenLoad
        ensures { IsNewLoad dimension tagged n result }
    {
        OpenLoad {
            dimension,
            tagged,
            left: n,
            bad: None,
            tags: Vec::new(alloc),
            rows: Rows::new(alloc, dimension),
        }
    }

    /// Returns whether all rows are read.
    pub fn is_full(&self) -> bool
        ensures { result ≡ (self.now.left == 0) }
    {
        self.left == 0
    }

    // Adds the point of `row`, if it is one. Returns whether it is.
    fn push_point(&mut self, alloc: Global, row: &ByteRecord) -> Result<bool, AllocError>
        ensures adds { IfOk result (AddsPoint (row_of self.old.dimension (fields_in row.now)) self.old.tags.items self.old.rows self.new) }
        ensures same { IsSameLoad self.old self.new }
    {
        if row.len() != self.dimension {
            return Ok(false);
        }
        let Some(point) = coordinates_from(alloc, row, 0)? else {
            return Ok(false);
        };
        self.rows.push(point.as_slice())?;
        Ok(true)
    }

    // Adds the tag and the point of `row`, if it has both. Returns whether it does.
    fn push_tagged(&mut self, alloc: Global, row: &ByteRecord) -> Result<bool, AllocError>
        ensures adds { IfOk result (AddsTagged (tag_row_of self.old.dimension
            (fields_in row.now)) self.old.tags.items self.old.rows self.new) }
        ensures same { IsSameLoad self.old self.new }
    {
        if row.len() == 0 || row.len() - 1 != self.dimension {
            return Ok(false);
        }
        let Some(tag) = number(field(row, 0)) else {
            return Ok(false);
        };
        let Some(point) = coordinates_from(alloc, row, 1)? else {
            return Ok(false);
        };
        self.rows.push(point.as_slice())?;
        self.tags.push(tag)?;
        Ok(true)
    }

    // Adds the row of `row`, if it is one. Returns whether it is.
    fn push(&mut self, alloc: Global, row: &ByteRecord) -> Result<bool, AllocError>
        ensures adds { IfOk result (AddsRow self.old self.new (fields_in row.now)) }
        ensures same { IsSameLoad self.old self.new }
    {
        if self.tagged {
            self.push_tagged(alloc, row)
        } else {
            self.push_point(alloc, row)
        }
    }

    /// Reads one record.
    pub fn take(&mut self, alloc: Global, row: &ByteRecord) -> Result<(), AllocError>
        requires { 0 < self.old.left }
        ensures { OnOk result (TakesRecord self.old self.new (fields_in row.now)) }
    {
        self.left -= 1;
        if self.bad.is_some() {
            return Ok(());
        }
        let place = self.rows.len();
        if !self.push(alloc, row)? {
            // A number of rows above 32 bits doesn't fit the memory either.
            self.bad = Some(u32::try_from(place).map_err(|_| AllocError)?);
        }
        Ok(())
    }

    /// Returns the command, where no further record follows.
    pub fn end(self) -> Command
        ensures { result ≡ load_end self [] }
    {
        if self.left > 0 {
            return Command::Bad(Refusal::Short);
        }
        if let Some(place) = self.bad {
            return Command::Bad(Refusal::Row(place));
        }
        if self.tagged {
            return Command::TagLoad {
                tags: Listed::new(self.tags),
                rows: self.rows,
            };
        }
        Command::Load(self.rows)
    }
}
