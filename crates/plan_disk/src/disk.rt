ghost use Rattle.std.specs.Prelude.{◌≡◌, ◌+◌, ◌^◌, ◌<◌, ◌≤◌, [], List, ℕ, ◌∷◌, ◌++◌, length, drop, slice_index, IsTrue, IsOk, IsErr, OnOk, IfOk, is_ok, if◌then◌else◌};
ghost use Rattle.outside_io.specs.Causes.{HasCause};
ghost use Rattle.outside_io.specs.Memory.{next_count};
ghost use Rattle.disk_model.specs.Disk.{Written, IsUnchanged, IsOneCall, MayLeave, LeavesOnly, Torn, Follows};
ghost use Rattle.disk_model.specs.Memory.Laws.{read_may_be_left, places_mix};
ghost use Rattle.plan_disk.specs.Plan.{simulated, plan_state, file_of, IsWhole, write_step, sync_step, with_step, with_fault};

use crate::Step;
use crate::patched::Patched;
use disk_model::{Disk, Failed};
use std::alloc::{AllocError, Global};
use std::marker::Model;

/// A disk over the bytes of a file, which stay as they are, and the plan of what it was asked to do: its writes and syncs in their
/// order. A read gives the file after the plan.
#[derive(Drop)]
pub struct PlanDisk<'a> {
    patched: Patched<'a>,
    steps: Vec<Step>,
    written: Vec<u8>,
    size: u64,
    most: u64,
    faults: u64,
    reads: u64,
}

impl<'a> Model for PlanDisk<'a> {
    ghost use Rattle.plan_disk.specs.Plan.{Plan};
    ghost use Rattle.plan_disk.specs.PlanView.{planned, IsInStep};

    ghost Value = { Plan };

    ghost view = { planned };

    ghost invariant = { IsInStep };
}

impl<'a> PlanDisk<'a> {
    /// Returns a disk over `file`, with no step in its plan. No write may make the file longer than `most` bytes.
    pub fn new(alloc: Global, file: &'a [u8], most: u64) -> Self
        ensures { result ≡ record { base = file.now; steps = []; written = []; most = most; faults = 0; reads = 0 } }
    {
        PlanDisk {
            patched: Patched::new(alloc, file),
            steps: Vec::new(alloc),
            written: Vec::new(alloc),
            size: file.len() as u64,
            most,
            faults: 0,
            reads: 0,
        }
    }

    /// Returns the bytes of the file before the plan.
    pub fn base(&self) -> &[u8]
        ensures { result.now ≡ self.now.base }
    {
        self.patched.base()
    }

    /// Returns the writes and syncs, in their order.
    pub fn steps(&self) -> &[Step]
        ensures { result.now ≡ self.now.steps }
    {
        &self.steps
    }

    /// Returns the bytes of the writes, one after another.
    pub fn written(&self) -> &[u8]
        ensures written { result.now ≡ self.now.written }
        ensures whole { IsWhole self.now }
    {
        &self.written
    }

    /// Returns the number of bytes of the file after the plan.
    pub fn size_now(&self) -> u64
        ensures { result ≡ length (file_of self.now) }
    {
        self.size
    }

    /// Returns the number of calls that failed.
    pub fn faults(&self) -> u64
        ensures { result ≡ self.now.faults }
    {
        self.faults
    }

    /// Copies the file after the plan to the front of `room`.
    pub fn copy_to(&self, room: &mut [u8])
        requires { length (file_of self.now) ≤ length room.old }
        ensures { room.new ≡ file_of self.now ++ drop (length (file_of self.now)) room.old }
    {
        self.patched.read(0, &mut room[..self.size as usize]);
    }

    // Makes a write. Where memory runs out, nothing changes.
    fn write(&mut self, at: u64, bytes: &[u8]) -> Result<(), AllocError>
        requires { at + length bytes.now ≤ 2 ^ 37 }
        ensures next { self.new ≡ (if is_ok result then with_step self.old (write_step at bytes.now) bytes.now else self.old) }
        ensures whole { IsWhole self.old }
    {
        let size = bytes.len() as u64;
        self.patched.touch(at as usize, bytes.len())?;
        let step = Step {
            at,
            size,
            is_sync: false,
        };
        note(&mut self.steps, &mut self.written, step, bytes)?;
        self.patched.overwrite(at as usize, bytes);
        self.size = self.size.max(at + size);
        Ok(())
    }

    // Makes a sync. Where memory runs out, nothing changes.
    fn sync_all(&mut self) -> Result<(), AllocError>
        ensures next { self.new ≡ (if is_ok result then with_step self.old sync_step [] else self.old) }
        ensures whole { IsWhole self.old }
    {
        let step = Step {
            at: 0,
            size: 0,
            is_sync: true,
        };
        note(&mut self.steps, &mut self.written, step, &[])?;
        Ok(())
    }

    // Fails a call, and counts the fault.
    fn fail(&mut self) -> Result<(), Failed>
        ensures fails { IsErr result }
        ensures next { self.new ≡ with_fault self.old }
        ensures cause { HasCause self.old.faults self.new.faults result }
    {
        self.faults = self.faults.saturating_add(1);
        Err(Failed)
    }
}

// Adds a step with its bytes to a plan. Where memory runs out, the plan stays the same.
fn note(
    steps: &mut Vec<Step>,
    written: &mut Vec<u8>,
    step: Step,
    bytes: &[u8],
) -> Result<(), AllocError>
    ensures steps { steps.new.items ≡ (if is_ok result then steps.old.items ++ step ∷ [] else steps.old.items) }
    ensures written { written.new.items ≡ (if is_ok result then written.old.items ++ bytes.now else written.old.items) }
{
    written.reserve(bytes.len())?;
    steps.push(step)?;
    if written.extend_from_slice(bytes).is_err() {
        unreachable!()
    }
    Ok(())
}

impl Disk for PlanDisk<'_> {
    ghost state = { plan_state };

    ghost read_is_image = { λ plan _. read_may_be_left (simulated plan) };

    ghost places_mix = { λ plan. places_mix (simulated plan) };

    fn size(&mut self) -> Result<u64, Failed>
        ensures size { IfOk result (λ n. IsTrue (plan_state self.old).is_known → n ≡ length (plan_state self.old).bytes) }
        ensures same { IsUnchanged (plan_state self.old) (plan_state self.new) }
        ensures reads { (plan_state self.new).reads ≡ (plan_state self.old).reads }
        ensures cause { HasCause (plan_state self.old).faults (plan_state self.new).faults result }
        ensures done { IsOk result }
        ensures next { self.new ≡ self.old }
    {
        Ok(self.size)
    }

    fn read_at(&mut self, at: u64, buf: &mut [u8]) -> Result<(), Failed>
        requires { at + length buf.old ≤ 2 ^ 37 }
        ensures read { OnOk result (IsTrue (plan_state self.old).is_known
            → (i : ℕ) → i < length buf.old → slice_index buf.new i ≡ slice_index (plan_state self.old).bytes (at + i)) }
        ensures same { IsUnchanged (plan_state self.old) (plan_state self.new) }
        ensures reads { (plan_state self.new).reads ≤ (plan_state self.old).reads + 1 }
        ensures cause { HasCause (plan_state self.old).faults (plan_state self.new).faults result }
        ensures done { IsOk result }

        // The read is counted.
        ensures next { self.new ≡ record self.old { reads = next_count self.old.reads } }
    {
        self.reads = self.reads.saturating_add(1);
        self.patched.read(at as usize, buf);
        Ok(())
    }

    /// Adds a write to the plan. A write that fails is not added.
    /// Clauses: what is asked of the caller (the one without a name); what is left on the disk (`written`, `others`); what a crash may
    /// leave (`torn`, `time`); what stays (`is_known`); the cost (`reads`); when it fails (`refused`); the cause of an error (`cause`); the
    /// whole new state (`next`).
    fn write_at(&mut self, at: u64, bytes: &[u8]) -> Result<(), Failed>
        requires { at + length bytes.now ≤ 2 ^ 37 }
        ensures written { OnOk result (IsTrue (plan_state self.old).is_known
            → Written at bytes.now (plan_state self.old).bytes (plan_state self.new).bytes) }
        ensures others { IsTrue (plan_state self.old).is_known
            → Torn at (length bytes.now) (plan_state self.old).bytes (plan_state self.new).bytes }
        ensures is_known { (plan_state self.new).is_known ≡ (plan_state self.old).is_known }
        ensures torn { Follows (Torn at (length bytes.now)) (plan_state self.old) (plan_state self.new) }
        ensures time { IsOneCall (plan_state self.old) (plan_state self.new) }
        ensures reads { (plan_state self.new).reads ≡ (plan_state self.old).reads }
        ensures cause { HasCause (plan_state self.old).faults (plan_state self.new).faults result }

        // A write past the greatest size fails. Another one fails only where memory runs out.
        ensures refused { self.old.most < at + length bytes.now → IsErr result }

        // The step is the last of the plan. Where the write fails, only the fault is counted.
        ensures next { self.new ≡ (if is_ok result then with_step self.old (write_step at bytes.now) bytes.now
            else with_fault self.old) }
    {
        if self.most < at + bytes.len() as u64 {
            return self.fail();
        }
        match self.write(at, bytes) {
            Ok(()) => Ok(()),
            Err(_) => self.fail(),
        }
    }

    fn sync(&mut self) -> Result<(), Failed>
        ensures durable { OnOk result (LeavesOnly (plan_state self.new) (plan_state self.old).bytes) }
        ensures bytes { (plan_state self.new).bytes ≡ (plan_state self.old).bytes }
        ensures is_known { (plan_state self.new).is_known ≡ (plan_state self.old).is_known }
        ensures fewer { (image : List ℕ) → MayLeave (plan_state self.new) image → MayLeave (plan_state self.old) image }
        ensures time { IsOneCall (plan_state self.old) (plan_state self.new) }
        ensures reads { (plan_state self.new).reads ≡ (plan_state self.old).reads }
        ensures cause { HasCause (plan_state self.old).faults (plan_state self.new).faults result }
        ensures next { self.new ≡ (if is_ok result then with_step self.old sync_step [] else with_fault self.old) }
    {
        match self.sync_all() {
            Ok(()) => Ok(()),
            Err(_) => self.fail(),
        }
    }
}
