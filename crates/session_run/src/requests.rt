//! What a session is asked: a script, or rows.

ghost use Rattle.std.specs.Prelude.{◌≡◌, ◌≤◌, ◌<◌, ◌^◌, ℕ, List, All, length, IfOk};
ghost use Rattle.rows_text.specs.declared.command.Command.{Command as Asked};
ghost use Rattle.rows_text.specs.Readable.{IsReadable};
ghost use Rattle.session_run.specs.Job.{asked_by};

use rows_text::{Command, read_script};
use std::alloc::{AllocError, Global};

/// What a session is asked. Its commands are known once the number of coordinates of a point is.
pub trait Requests: Drop {
    /// The commands for points of a number of coordinates.
    ghost commands: { Self → ℕ → List Asked };

    /// Returns the commands for points of `dimension` coordinates.
    fn read(self, alloc: Global, dimension: usize) -> Result<Vec<Command>, AllocError>
        requires some_coordinates { 1 ≤ dimension }
        requires few_coordinates { dimension ≤ 64 }
        ensures commands { IfOk result (λ asked. asked.items ≡ commands self dimension) }
        ensures readable { IfOk result (λ asked. All (IsReadable dimension) asked.items) }
        ensures few { IfOk result (λ asked. length asked.items < 2 ^ 32) };
}

/// The bytes of a script.
#[derive(Clone, Copy)]
pub struct ScriptBytes<'a> {
    bytes: &'a [u8],
    ghost few: { length bytes.now ≤ 2 ^ 26 },
}

impl<'a> ScriptBytes<'a> {
    /// Makes the requests of a script of at most 2^26 bytes.
    pub fn new(bytes: &'a [u8]) -> Self
        requires { length bytes.now ≤ 2 ^ 26 }
        ensures { result.bytes.now ≡ bytes.now }
    {
        ScriptBytes { bytes }
    }
}

impl Requests for ScriptBytes<'_> {
    ghost commands = { λ s. asked_by s.bytes.now };

    fn read(self, alloc: Global, dimension: usize) -> Result<Vec<Command>, AllocError> {
        read_script(alloc, self.bytes, dimension)
    }
}
