ghost use Rattle.std.specs.Prelude.{◌≡◌, ◌+◌, ◌^◌, ◌≤◌, length};
ghost use Rattle.outside_io.specs.Causes.{HasCause};
ghost use Rattle.disk_model.specs.FileCounts.{state_of, told_nothing};

use crate::{Disk, Failed, SharedDisk};
use std::alloc::Global;
use std::fs::File;
use std::io;
use std::marker::Model;
use std::os::unix::fs::FileExt;

/// A disk over a real file. It tells nothing about the content, since no contract can say what a file holds, and so nothing about
/// what a crash leaves. That a real file behaves as a disk should is not proved.
#[derive(Drop)]
pub struct FileDisk {
    file: File,
    faults: u64,
    reads: u64,
    last_fault: Option<i32>,
}

impl Model for FileDisk {
    ghost use Rattle.disk_model.specs.FileCounts.{FileCounts};

    ghost Value = { FileCounts };

    ghost view = { λ disk. record { faults = disk.faults; reads = disk.reads } };
}

impl FileDisk {
    /// Makes a disk over `file`. Reads and writes need a file that was opened for both.
    pub fn new(file: File) -> FileDisk
        ensures { result ≡ record { faults = 0; reads = 0 } }
    {
        FileDisk {
            file,
            faults: 0,
            reads: 0,
            last_fault: None,
        }
    }

    /// Returns the system's error number of the last fault, where the system gave one. No contract can say which number it is.
    pub fn last_fault(&self) -> Option<i32> {
        self.last_fault
    }

    // Returns the result of a call of the file, and counts a fault.
    fn answer<T: Drop>(&mut self, outcome: io::Result<T>) -> Result<T, Failed>
        ensures cause { HasCause self.old.faults self.new.faults result }
        ensures reads { self.new.reads ≡ self.old.reads }
    {
        match outcome {
            Ok(value) => Ok(value),
            Err(error) => {
                self.faults = self.faults.saturating_add(1);
                self.last_fault = error.raw_os_error();
                Err(Failed)
            }
        }
    }
}

// Fills `buf` from place `at` on: with the file's bytes as far as they go, then with 0.
fn fill(file: &File, at: u64, buf: &mut [u8]) -> io::Result<()>
    requires { at + length buf.old ≤ 2 ^ 37 }
{
    let mut done = 0;
    while done < buf.len() {
        let count = file.read_at(&mut buf[done..], at + done as u64)?;
        if count == 0 {
            break;
        }
        done += count;
    }
    buf[done..].fill(0);
    Ok(())
}

impl Disk for FileDisk {
    ghost state = { state_of };

    ghost read_is_image = { λ _ told. told_nothing told };

    ghost places_mix = { λ _ one other i left _ _ _. left };

    fn size(&mut self) -> Result<u64, Failed> {
        let outcome = self.file.metadata();
        Ok(self.answer(outcome)?.len())
    }

    fn read_at(&mut self, at: u64, buf: &mut [u8]) -> Result<(), Failed> {
        self.reads = self.reads.saturating_add(1);
        let outcome = fill(&self.file, at, buf);
        self.answer(outcome)
    }

    fn write_at(&mut self, at: u64, bytes: &[u8]) -> Result<(), Failed> {
        let outcome = self.file.write_all_at(bytes, at);
        self.answer(outcome)
    }

    fn sync(&mut self) -> Result<(), Failed> {
        let outcome = self.file.sync_all();
        self.answer(outcome)
    }
}

impl SharedDisk for FileDisk {
    fn reader(&self, _alloc: Global) -> Option<FileDisk> {
        let file = self.file.try_clone().ok()?;
        Some(FileDisk::new(file))
    }
}
