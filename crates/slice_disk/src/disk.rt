ghost use Rattle.std.specs.Prelude.{◌≡◌, ◌+◌, ◌^◌, ◌≤◌, length, slice_index, EachIndex, IsErr};
ghost use Rattle.outside_io.specs.Causes.{HasCause};

use disk_model::{Disk, Failed, SharedDisk};
use std::alloc::Global;

/// The bytes of a file in memory, as a disk. A read past their end gives 0. Writes and syncs fail, and leave the bytes as
/// they are.
#[derive(Drop)]
pub struct SliceDisk<'a> {
    /// The file.
    pub bytes: &'a [u8],
    faults: u64,
    reads: u64,
}

impl<'a> SliceDisk<'a> {
    /// Makes a disk that holds `bytes`.
    pub fn new(bytes: &'a [u8]) -> Self
        ensures bytes { result.bytes.now ≡ bytes.now }
        ensures faults { result.faults ≡ 0 }
        ensures reads { result.reads ≡ 0 }
    {
        SliceDisk {
            bytes,
            faults: 0,
            reads: 0,
        }
    }

    // Refuses a call that would write, and counts the fault.
    fn refuse(&mut self) -> Result<(), Failed>
        ensures fails { IsErr result }
        ensures bytes { self.new.bytes.now ≡ self.old.bytes.now }
        ensures reads { self.new.reads ≡ self.old.reads }
        ensures cause { HasCause self.old.faults self.new.faults result }
    {
        self.faults = self.faults.saturating_add(1);
        Err(Failed)
    }
}

// Fills `buf` with the bytes from place `at` on, and with 0 past their end.
fn copy_out(file: &[u8], at: usize, buf: &mut [u8])
    requires { at + length buf.old ≤ 2 ^ 37 }
    ensures { EachIndex buf.new (λ i. slice_index buf.new i ≡ slice_index file.now (at + i)) }
{
    let start = at.min(file.len());
    let count = buf.len().min(file.len() - start);
    let (inside, past) = buf.split_at_mut(count);
    inside.copy_from_slice(&file[start..start + count]);
    past.fill(0);
}

impl Disk for SliceDisk<'_> {
    ghost use Rattle.slice_disk.specs.Held.{held, mixed};
    ghost use Rattle.std.proofs.Common.{refl};

    ghost state = { λ d. held d.bytes.now d.faults d.reads };

    ghost read_is_image = { λ d told refused. refl };

    ghost places_mix = { λ d one other i first second _ _ refused. mixed d.bytes.now one other i (first refused) (second refused) };

    fn size(&mut self) -> Result<u64, Failed> {
        Ok(self.bytes.len() as u64)
    }

    fn read_at(&mut self, at: u64, buf: &mut [u8]) -> Result<(), Failed> {
        self.reads = self.reads.saturating_add(1);
        copy_out(self.bytes, at as usize, buf);
        Ok(())
    }

    fn write_at(&mut self, _at: u64, _bytes: &[u8]) -> Result<(), Failed> {
        self.refuse()
    }

    fn sync(&mut self) -> Result<(), Failed> {
        self.refuse()
    }
}

impl SharedDisk for SliceDisk<'_> {
    fn reader(&self, _alloc: Global) -> Option<Self> {
        Some(SliceDisk::new(self.bytes))
    }
}
