ghost use Rattle.std.specs.Prelude.{◌≡◌, ◌≤◌, ◌<◌, ◌^◌, length, All, IfOk};
ghost use Rattle.rows_text.specs.Readable.{IsReadable};
ghost use Rattle.rows_text.specs.Script.{script};

use crate::Command;
use crate::state::Reading;
use csv::{ErrorKind, ReaderBuilder};
use std::alloc::{AllocError, Global};

// Reads the commands of a script over points of `dimension` coordinates.
fn read_commands(alloc: Global, bytes: &[u8], dimension: usize) -> Result<Vec<Command>, AllocError>
    requires some { 1 ≤ dimension }
    requires few { dimension ≤ 64 }
    ensures { IfOk result (λ commands. commands.items ≡ script dimension bytes.now) }
{
    let reader = ReaderBuilder::new()
        .has_headers(false)
        .flexible(true)
        .from_reader(alloc, bytes);
    let mut reading = Reading::new(alloc, dimension);
    for row in reader.into_byte_records() {
        match row {
            Ok(row) => reading.take(alloc, &row)?,
            Err(error) => match error.kind() {
                // A slice gives no reading error, but no clause says so.
                ErrorKind::OutOfMemory | ErrorKind::Io(_) => return Err(AllocError),
                _ => unreachable!(),
            },
        }
    }
    reading.finish()
}

/// Reads the commands of a script over points of `dimension` coordinates. Only this number of the space matters here: whether a
/// point is in the space is checked when its command is executed.
///
/// The records are those of `csv` with commas, double quotes, no header and any number of fields, after one byte
/// order mark, which is dropped. They are read one at a time, and a load's rows go straight into its table.
pub fn read_script(
    alloc: Global,
    bytes: &[u8],
    dimension: usize,
) -> Result<Vec<Command>, AllocError>
    requires some_coordinates { 1 ≤ dimension }
    requires few_coordinates { dimension ≤ 64 }
    requires few_bytes { length bytes.now < 2 ^ 32 }
    ensures script { IfOk result (λ commands. commands.items ≡ script dimension bytes.now) }
    ensures readable { IfOk result (λ commands. All (IsReadable dimension) commands.items) }
    ensures few { IfOk result (λ commands. length commands.items < 2 ^ 32) }
{
    read_commands(alloc, bytes, dimension)
}
