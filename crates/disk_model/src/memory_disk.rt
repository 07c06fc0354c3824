ghost use Rattle.std.specs.Prelude.{◌≡◌, ◌⊎◌, ◌+◌, ◌^◌, ◌<◌, ◌≤◌, ◌↔◌, [], List, ℕ, length, slice_index, IsTrue, OnOk, IfOk, is_ok, IsErr, OnErr, vec_capacity, if◌then◌else◌};
ghost use Rattle.outside_io.specs.Causes.{HasCause};
ghost use Rattle.outside_io.specs.Memory.{next_count};
ghost use Rattle.disk_model.specs.Disk.{Written, IsUnchanged, IsOneCall, MayLeave, LeavesOnly, Torn, Follows};
ghost use Rattle.disk_model.specs.Memory.Model.{look, sync, write, with_call, with_answer, after_call, IsNamed, IsRefused};
ghost use Rattle.disk_model.specs.Memory.Record.{count_of, call_of, end_of, IsDone};
ghost use Rattle.disk_model.specs.Memory.Images.{Kept, after, memory_state, kept_by, clock_at, image_of};
ghost use Rattle.disk_model.specs.Memory.Laws.{read_may_be_left, places_mix};

use crate::entry::{Entry, Kind};
use crate::file::{copy_out, overwrite};
use crate::record::Record;
use crate::{Disk, Failed, SharedDisk};
use std::alloc::{AllocError, Global};
use std::marker::Model;

/// A disk in memory, for tests. Chosen calls of it fail, and it shows the files that a crash at each call may leave. It takes all
/// its memory when it is made.
#[derive(Drop)]
pub struct MemoryDisk {
    first: Vec<u8>,
    bytes: Vec<u8>,
    noted: Record,
    room: usize,
    fails: Vec<u64>,
    stop: Option<u64>,
    calls: u64,
    faults: u64,
    reads: u64,
}

impl Model for MemoryDisk {
    ghost use Rattle.disk_model.specs.Memory.Model.{SimulatedDisk};
    ghost use Rattle.disk_model.specs.Memory.DiskView.{simulated, IsInStep};

    ghost Value = { SimulatedDisk };

    ghost view = { simulated };

    ghost invariant = { IsInStep };
}

impl MemoryDisk {
    /// Returns a disk that holds `bytes`, all of them synced. It has room for a file of `room` bytes, and its record holds `units`
    /// units. The calls whose numbers, from 0, are in `fails` fail, and so do all calls from number `stop` on.
    pub fn new(
        alloc: Global,
        bytes: Vec<u8>,
        room: u64,
        units: u64,
        fails: Vec<u64>,
        stop: Option<u64>,
    ) -> Result<MemoryDisk, AllocError>
        requires { length bytes.items ≤ room }
        ensures { IfOk result (λ disk. disk ≡ record {
          first = bytes.items;
          past = [];
          left = units;
          room = room;
          fails = fails.items;
          stop = stop;
          calls = 0;
          faults = 0;
          reads = 0;
        }) }
    {
        let room = room as usize;
        let mut copy = Vec::with_capacity(alloc, room)?;
        copy.extend_from_slice(&bytes)?;
        Ok(MemoryDisk {
            first: bytes,
            bytes: copy,
            noted: Record::new(alloc, units as usize)?,
            room,
            fails,
            stop,
            calls: 0,
            faults: 0,
            reads: 0,
        })
    }

    /// Returns what a read gives.
    pub fn bytes(&self) -> &[u8]
        ensures { result.now ≡ (kept_by self.now).read }
    {
        &self.bytes
    }

    /// Returns the number of calls made. It stops at the greatest `u64`.
    pub fn moments(&self) -> u64
        ensures { result ≡ self.now.calls }
    {
        self.calls
    }

    /// Returns a file that a crash within the call number `moment`, or after the last call, may leave. A write with that number
    /// counts as begun, and a sync with that number as not done. With pick 0 each open place holds its byte as of the last sync,
    /// with pick 1 as last written, and with any other pick the byte `pick` modulo 256.
    pub fn image(&self, alloc: Global, moment: u64, pick: u64) -> Result<Vec<u8>, AllocError>
        requires { moment ≤ self.now.calls }
        ensures shown { IfOk result (λ file. file.items ≡ image_of self.now moment pick) }
        ensures image { IfOk result (λ file. (memory_state self.now).images (clock_at moment self.now) file.items) }
    {
        self.noted.image(alloc, &self.first, moment, pick)
    }

    // Returns a disk that holds what a read of this disk gives, and fails at the calls with the same numbers.
    fn again(&self, alloc: Global) -> Result<MemoryDisk, AllocError>
        ensures { IfOk result (λ disk. (kept_by disk).read ≡ (kept_by self.now).read) }
    {
        let mut bytes = Vec::new(alloc);
        bytes.extend_from_slice(&self.bytes)?;
        let mut fails = Vec::new(alloc);
        fails.extend_from_slice(&self.fails)?;
        let size = bytes.len() as u64;
        MemoryDisk::new(alloc, bytes, size, size, fails, self.stop)
    }

    // Returns whether the next call fails by its number.
    fn is_named(&self) -> bool
        ensures { IsTrue result ↔ IsNamed self.now }
    {
        self.fails.contains(&self.calls) || self.stop.is_some_and(|stop| stop <= self.calls)
    }

    // Returns whether the next call fails, if it writes `count` bytes.
    fn is_refused(&self, count: usize) -> bool
        ensures { IsTrue result ↔ IsRefused self.now count }
    {
        self.is_named() || !self.noted.fits(count)
    }

    // Makes a call: records it where the record has room, and writes its bytes if it is a write that is done.
    fn make(&mut self, kind: Kind, bytes: &[u8])
        requires count { count_of kind ≡ length bytes.now }
        requires done { IsDone kind → (end_of kind ≤ self.old.room) × (length bytes.now < self.old.left) }
        ensures { self.new ≡ with_call self.old (call_of kind bytes.now) }
    {
        let number = self.calls;
        self.calls = self.calls.saturating_add(1);
        if !self.noted.fits(bytes.len()) {
            return;
        }
        carry_out(&mut self.bytes, kind, bytes);
        self.noted.note(Entry { number, kind }, bytes);
    }

    // Returns the result of a call, and counts the fault where it failed.
    fn answer(&mut self, refused: bool) -> Result<(), Failed>
        ensures refused { IsErr result ↔ IsTrue refused }
        ensures next { self.new ≡ with_answer self.old (is_ok result) }
        ensures cause { HasCause self.old.faults self.new.faults result }
    {
        if refused {
            self.faults = self.faults.saturating_add(1);
            return Err(Failed);
        }
        Ok(())
    }

    // Counts a read.
    fn count_read(&mut self)
        ensures { self.new ≡ record self.old { reads = next_count self.old.reads } }
    {
        self.reads = self.reads.saturating_add(1);
    }

    // Makes a call that changes nothing.
    fn look(&mut self) -> Result<(), Failed>
        ensures fails { IsErr result ↔ IsRefused self.old 0 }
        ensures next { self.new ≡ after_call self.old look (is_ok result) }
        ensures cause { HasCause self.old.faults self.new.faults result }
    {
        let refused = self.is_refused(0);
        self.make(Kind::Look, &[]);
        self.answer(refused)
    }

    // Makes a write, which is done unless it is refused.
    fn write(&mut self, at: usize, bytes: &[u8]) -> Result<(), Failed>
        requires { at + length bytes.now ≤ 2 ^ 37 }
        ensures fails { IsErr result
            ↔ (IsRefused self.old (length bytes.now) ⊎ (self.old.room < at + length bytes.now)) }
        ensures next { self.new ≡ after_call self.old (write at bytes.now (is_ok result)) (is_ok result) }
        ensures cause { HasCause self.old.faults self.new.faults result }
    {
        let count = bytes.len();
        let refused = self.is_refused(count) || self.room < at + count;
        let done = !refused;
        self.make(Kind::Write { at, count, done }, bytes);
        self.answer(refused)
    }

    // Makes a sync. A sync that fails changes nothing.
    fn sync_all(&mut self) -> Result<(), Failed>
        ensures fails { IsErr result ↔ IsRefused self.old 0 }
        ensures next { self.new ≡ after_call self.old (if is_ok result then sync else look) (is_ok result) }
        ensures cause { HasCause self.old.faults self.new.faults result }
    {
        let refused = self.is_refused(0);
        self.make(if refused { Kind::Look } else { Kind::Sync }, &[]);
        self.answer(refused)
    }
}

// Changes the file as the call does.
fn carry_out(file: &mut Vec<u8>, kind: Kind, bytes: &[u8])
    requires count { count_of kind ≡ length bytes.now }
    requires done { IsDone kind → end_of kind ≤ vec_capacity file.old }
    ensures read { (kept : Kept) → kept.read ≡ file.old.items
        → (after kept (call_of kind bytes.now)).read ≡ file.new.items }
    ensures size { (room : ℕ) → length file.old.items ≤ room → (IsDone kind → end_of kind ≤ room)
        → length file.new.items ≤ room }
    ensures taken { vec_capacity file.old ≤ vec_capacity file.new }
{
    if let Kind::Write { at, done: true, .. } = kind {
        overwrite(file, at, bytes)
    }
}

impl Disk for MemoryDisk {
    ghost state = { memory_state };

    ghost read_is_image = { λ disk _. read_may_be_left disk };

    ghost places_mix = { places_mix };

    fn size(&mut self) -> Result<u64, Failed>
        ensures size { IfOk result (λ n. IsTrue (memory_state self.old).is_known → n ≡ length (memory_state self.old).bytes) }
        ensures same { IsUnchanged (memory_state self.old) (memory_state self.new) }
        ensures reads { (memory_state self.new).reads ≡ (memory_state self.old).reads }
        ensures cause { HasCause (memory_state self.old).faults (memory_state self.new).faults result }
        ensures fails { IsErr result ↔ IsRefused self.old 0 }
        ensures next { self.new ≡ after_call self.old look (is_ok result) }
    {
        self.look()?;
        Ok(self.bytes.len() as u64)
    }

    fn read_at(&mut self, at: u64, buf: &mut [u8]) -> Result<(), Failed>
        requires { at + length buf.old ≤ 2 ^ 37 }
        ensures read { OnOk result (IsTrue (memory_state self.old).is_known
            → (i : ℕ) → i < length buf.old → slice_index buf.new i ≡ slice_index (memory_state self.old).bytes (at + i)) }
        ensures same { IsUnchanged (memory_state self.old) (memory_state self.new) }
        ensures reads { (memory_state self.new).reads ≤ (memory_state self.old).reads + 1 }
        ensures cause { HasCause (memory_state self.old).faults (memory_state self.new).faults result }
        ensures fails { IsErr result ↔ IsRefused self.old 0 }

        // The read is counted, even where it fails.
        ensures next { self.new ≡ record (after_call self.old look (is_ok result)) { reads = next_count self.old.reads } }
    {
        self.count_read();
        self.look()?;
        copy_out(self.bytes(), at as usize, buf);
        Ok(())
    }

    /// Writes as the trait says. A write that fails changes no byte.
    /// Clauses: what is asked of the caller (the one without a name); what is left on the disk (`written`, `others`, `unwritten`); what a
    /// crash may leave (`torn`, `time`); what stays (`is_known`); the cost (`reads`); when it fails (`fails`); the cause of an error
    /// (`cause`); the whole new state (`next`).
    fn write_at(&mut self, at: u64, bytes: &[u8]) -> Result<(), Failed>
        requires { at + length bytes.now ≤ 2 ^ 37 }
        ensures written { OnOk result (IsTrue (memory_state self.old).is_known
            → Written at bytes.now (memory_state self.old).bytes (memory_state self.new).bytes) }
        ensures others { IsTrue (memory_state self.old).is_known
            → Torn at (length bytes.now) (memory_state self.old).bytes (memory_state self.new).bytes }
        ensures is_known { (memory_state self.new).is_known ≡ (memory_state self.old).is_known }
        ensures torn { Follows (Torn at (length bytes.now)) (memory_state self.old) (memory_state self.new) }
        ensures time { IsOneCall (memory_state self.old) (memory_state self.new) }
        ensures reads { (memory_state self.new).reads ≡ (memory_state self.old).reads }
        ensures cause { HasCause (memory_state self.old).faults (memory_state self.new).faults result }
        ensures fails { IsErr result
            ↔ (IsRefused self.old (length bytes.now) ⊎ (self.old.room < at + length bytes.now)) }
        ensures next { self.new ≡ after_call self.old (write at bytes.now (is_ok result)) (is_ok result) }
        ensures unwritten { OnErr result ((memory_state self.new).bytes ≡ (memory_state self.old).bytes) }
    {
        self.write(at as usize, bytes)
    }

    /// Syncs as the trait says. A sync that fails changes nothing.
    /// Clauses: what a crash may leave (`durable`, `fewer`, `time`); what stays (`bytes`, `is_known`); the cost (`reads`); when it fails
    /// (`fails`); the cause of an error (`cause`); the whole new state (`next`).
    fn sync(&mut self) -> Result<(), Failed>
        ensures durable { OnOk result (LeavesOnly (memory_state self.new) (memory_state self.old).bytes) }
        ensures bytes { (memory_state self.new).bytes ≡ (memory_state self.old).bytes }
        ensures is_known { (memory_state self.new).is_known ≡ (memory_state self.old).is_known }
        ensures fewer { (image : List ℕ)
            → MayLeave (memory_state self.new) image → MayLeave (memory_state self.old) image }
        ensures time { IsOneCall (memory_state self.old) (memory_state self.new) }
        ensures reads { (memory_state self.new).reads ≡ (memory_state self.old).reads }
        ensures cause { HasCause (memory_state self.old).faults (memory_state self.new).faults result }
        ensures fails { IsErr result ↔ IsRefused self.old 0 }
        ensures next { self.new ≡ after_call self.old (if is_ok result then sync else look) (is_ok result) }
    {
        self.sync_all()
    }
}

impl SharedDisk for MemoryDisk {
    fn reader(&self, alloc: Global) -> Option<MemoryDisk> {
        match self.again(alloc) {
            Ok(reader) => Some(reader),
            Err(_) => None,
        }
    }
}
