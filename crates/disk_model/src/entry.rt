ghost use Rattle.std.specs.Prelude.{◌≡◌, ℕ, List};

/// The kind of a recorded call of a disk in memory.
#[derive(Clone, Copy, PartialEq, Eq)]
pub enum Kind {
    /// Nothing changed: a size, a read, or a sync that failed.
    Look,
    /// A sync that returned `Ok`.
    Sync,
    /// A write of `count` bytes at place `at`, and whether it was done or failed.
    Write { at: usize, count: usize, done: bool },
}

/// A recorded call. Its bytes are stored elsewhere.
#[derive(Clone, Copy, PartialEq, Eq)]
pub struct Entry {
    pub number: u64,
    pub kind: Kind,
}

impl Kind {
    ghost use Rattle.disk_model.specs.Memory.Record.{count_of, is_write_kind};

    /// Returns the number of bytes that the call was to write.
    pub fn count(&self) -> usize
        ensures { result ≡ count_of self.now }
    {
        match self {
            Kind::Write { count, .. } => *count,
            _ => 0,
        }
    }

    pub fn is_write(&self) -> bool
        ensures { result ≡ is_write_kind self.now }
    {
        matches!(self, Kind::Write { .. })
    }
}

impl Entry {
    ghost use Rattle.disk_model.specs.Memory.Record.{noted_of};
    ghost use Rattle.disk_model.specs.Memory.Images.{has_begun};

    /// Returns whether the call has a lower number than `moment`, or is a write with this number.
    pub fn has_begun(&self, moment: u64) -> bool
        ensures { (bytes : List ℕ) → result ≡ has_begun moment (noted_of self.now bytes) }
    {
        self.number < moment || self.number == moment && self.kind.is_write()
    }
}
