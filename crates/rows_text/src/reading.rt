ghost use Rattle.std.specs.Prelude.{◌≡◌, ◌≤◌, ◌<◌, ◌++◌, [], ◌∷◌, None, List, drop, IfOk, OnOk};
ghost use Rattle.rows_text.specs.Records.{Fields, fields_in};
ghost use Rattle.rows_text.specs.Script.{commands_after};
ghost use Rattle.rows_text.specs.Reading.{GoesOn, IsNewReading, Reads, commands_with, load_records, started};

use crate::field::field;
use crate::load::OpenLoad;
use crate::numbers::number;
use crate::single::read_single;
use crate::state::{Reading, Start};
use crate::{Command, Refusal};
use csv::ByteRecord;
use std::alloc::{AllocError, Global};

// Returns what `load,n` or `tload,n` starts.
fn read_load(alloc: Global, dimension: usize, tagged: bool, row: &ByteRecord) -> Start
    ensures { (after : List Fields)
        → started dimension result after ≡ load_records dimension tagged (drop 1 (fields_in row.now)) after }
{
    if row.len() != 2 {
        return Start::Single(Command::Bad(Refusal::Command));
    }
    let Some(n) = number(field(row, 1)) else {
        return Start::Single(Command::Bad(Refusal::Number));
    };
    if n == 0 {
        return Start::Single(Command::Bad(Refusal::Count));
    }
    Start::Load(OpenLoad::new(alloc, dimension, tagged, n))
}

// Returns what a record starts.
fn read_start(alloc: Global, dimension: usize, row: &ByteRecord) -> Result<Start, AllocError>
    requires some { 1 ≤ dimension }
    requires few { dimension ≤ 64 }
    ensures { IfOk result (λ start. (after : List Fields)
        → started dimension start after ≡ commands_after dimension 0 (fields_in row.now ∷ after)) }
{
    let name = field(row, 0);
    if name == b"load".as_slice() {
        return Ok(read_load(alloc, dimension, false, row));
    }
    if name == b"tload".as_slice() {
        return Ok(read_load(alloc, dimension, true, row));
    }
    Ok(Start::Single(read_single(alloc, dimension, row)?))
}

impl Reading {
    /// Begins a script of points with `dimension` coordinates.
    pub fn new(alloc: Global, dimension: usize) -> Reading
        requires some { 1 ≤ dimension }
        requires few { dimension ≤ 64 }
        ensures { IsNewReading dimension result }
    {
        Reading {
            dimension,
            commands: Vec::new(alloc),
            load: None,
        }
    }

    // Reads a record where no load is open.
    fn begin(&mut self, alloc: Global, row: &ByteRecord) -> Result<(), AllocError>
        requires { self.old.load ≡ None }
        ensures { OnOk result (Reads self.old self.new (fields_in row.now)) }
    {
        match read_start(alloc, self.dimension, row)? {
            Start::Single(command) => self.commands.push(command)?,
            Start::Load(load) => self.load = Some(load),
        }
        Ok(())
    }

    // Reads a record of a load.
    fn go_on(&mut self, alloc: Global, load: OpenLoad, row: &ByteRecord) -> Result<(), AllocError>
        requires { 0 < load.left }
        ensures { OnOk result (GoesOn load self.old self.new (fields_in row.now)) }
    {
        let mut load = load;
        load.take(alloc, row)?;
        self.load = Some(load);
        Ok(())
    }

    /// Reads a record.
    pub fn take(&mut self, alloc: Global, row: &ByteRecord) -> Result<(), AllocError>
        ensures { OnOk result (Reads self.old self.new (fields_in row.now)) }
    {
        if let Some(load) = self.load.take() {
            if !load.is_full() {
                return self.go_on(alloc, load, row);
            }
            self.commands.push(load.end())?;
        }
        self.begin(alloc, row)
    }

    /// Returns the commands, where no further record follows.
    pub fn finish(self) -> Result<Vec<Command>, AllocError>
        ensures { IfOk result (λ commands. commands.items ≡ commands_with self []) }
    {
        let Reading { commands, load, .. } = self;
        let mut commands = commands;
        if let Some(load) = load {
            commands.push(load.end())?;
        }
        Ok(commands)
    }
}
