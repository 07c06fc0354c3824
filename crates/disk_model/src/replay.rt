ghost use Rattle.std.specs.Prelude.{◌≡◌, ◌≤◌, ◌<◌, ◌%◌, Bool, length, OnOk, IfOk};
ghost use Rattle.disk_model.specs.Disk.{Written};
ghost use Rattle.disk_model.specs.Memory.Model.{write};
ghost use Rattle.disk_model.specs.Memory.Images.{Kept, at_rest, after, shown};
ghost use Rattle.disk_model.specs.Memory.Record.{count_of, call_of};
ghost use Rattle.disk_model.specs.Memory.Replay.{IsReplay, IsPainted};

use crate::entry::Kind;
use crate::file::overwrite;
use std::alloc::{AllocError, Global};

/// The replay of the calls of a disk in memory: what a read gives, and the image that `pick` shows.
#[derive(Drop)]
pub struct Replay {
    read: Vec<u8>,
    image: Vec<u8>,
    pick: u64,
}

impl Replay {
    /// Starts a replay before the first call, over the file `first`.
    pub fn new(alloc: Global, first: &[u8], pick: u64) -> Result<Replay, AllocError>
        ensures replay { IfOk result (λ replay. IsReplay replay (at_rest first.now)) }
        ensures pick { IfOk result (λ replay. replay.pick ≡ pick) }
    {
        Ok(Replay {
            read: first.to_vec(alloc)?,
            image: first.to_vec(alloc)?,
            pick,
        })
    }

    /// Returns the image that the replay has reached.
    pub fn into_image(self) -> Vec<u8>
        ensures { result.items ≡ self.image.items }
    {
        self.image
    }

    /// Replays a call.
    pub fn apply(&mut self, kind: Kind, bytes: &[u8]) -> Result<(), AllocError>
        requires { count_of kind ≡ length bytes.now }
        ensures replay { OnOk result ((kept : Kept)
            → IsReplay self.old kept → IsReplay self.new (after kept (call_of kind bytes.now))) }
        ensures pick { self.new.pick ≡ self.old.pick }
    {
        match kind {
            Kind::Look => Ok(()),
            Kind::Sync => replace(&mut self.image, &self.read),
            Kind::Write { at, done, .. } => self.redo(at, bytes, done),
        }
    }

    // Replays a write, done or failed.
    fn redo(&mut self, at: usize, bytes: &[u8], done: bool) -> Result<(), AllocError>
        ensures replay { OnOk result ((kept : Kept)
            → IsReplay self.old kept → IsReplay self.new (after kept (write at bytes.now done))) }
        ensures pick { self.new.pick ≡ self.old.pick }
    {
        mark(&mut self.image, at, bytes, self.pick)?;
        if !done {
            return Ok(());
        }
        rewrite(&mut self.read, at, bytes)
    }
}

// Applies a write to the image, as `pick` says.
fn mark(image: &mut Vec<u8>, at: usize, bytes: &[u8], pick: u64) -> Result<(), AllocError>
    ensures { OnOk result ((kept : Kept) (done : Bool)
        → image.old.items ≡ shown pick kept → length kept.synced ≤ length kept.last
        → image.new.items ≡ shown pick (after kept (write at bytes.now done))) }
{
    if pick == 0 {
        return Ok(());
    }
    if pick == 1 {
        return rewrite(image, at, bytes);
    }
    paint(image, at, bytes.len(), (pick % 256) as u8)
}

fn replace(file: &mut Vec<u8>, bytes: &[u8]) -> Result<(), AllocError>
    ensures { OnOk result (file.new.items ≡ bytes.now) }
{
    file.clear();
    file.extend_from_slice(bytes)
}

// Writes `bytes` at place `at`, and fills a gap before them with 0.
fn rewrite(file: &mut Vec<u8>, at: usize, bytes: &[u8]) -> Result<(), AllocError>
    ensures { OnOk result (Written at bytes.now file.old.items file.new.items) }
{
    let end = at.checked_add(bytes.len()).ok_or(AllocError)?;
    if file.capacity() < end {
        file.reserve(end - file.len())?;
    }
    overwrite(file, at, bytes);
    Ok(())
}

// Writes the byte `value` into `count` places from `at` on, and into a gap before them.
fn paint(file: &mut Vec<u8>, at: usize, count: usize, value: u8) -> Result<(), AllocError>
    ensures { OnOk result (IsPainted value at count file.old.items file.new.items) }
{
    let end = at.checked_add(count).ok_or(AllocError)?;
    if file.len() < end {
        file.resize(end, value)?;
    }
    file[at..end].fill(value);
    Ok(())
}
