ghost use Rattle.std.specs.Prelude.{IfSome};
ghost use Rattle.disk_model.specs.Shared.{ReadsSame};

use crate::Disk;
use std::alloc::Global;

/// A disk that several threads can read at once, each with its own reader.
pub trait SharedDisk: Disk + Drop + Sync {
    /// Returns another reader of the same file, which counts its own reads and faults. Returns `None` where no reader is available.
    fn reader(&self, alloc: Global) -> Option<Self>
        ensures same { IfSome result (λ reader. ReadsSame (Self.state self.now) (Self.state reader)) };
}
