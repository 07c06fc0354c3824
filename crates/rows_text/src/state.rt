ghost use Rattle.std.specs.Prelude.{◌≤◌};

use crate::Command;
use crate::load::OpenLoad;

/// What a record of a script starts.
#[derive(Drop)]
pub enum Start {
    /// A command by itself.
    Single(Command),
    /// A load, whose rows follow.
    Load(OpenLoad),
}

/// A script that is being read.
#[derive(Drop)]
pub struct Reading {
    /// The number of coordinates of a point.
    pub dimension: usize,
    /// The commands so far.
    pub commands: Vec<Command>,
    /// The load whose rows are being read. It is ended by the first record after its rows.
    pub load: Option<OpenLoad>,
    ghost some_coordinates: { 1 ≤ dimension },
    ghost few_coordinates: { dimension ≤ 64 },
}
