ghost use Rattle.std.specs.Prelude.{◌≡◌, ◌+◌, ◌-◌, ◌<◌, ◌++◌, ◌∷◌, ◌↔◌, [], length, IsTrue, IfOk};
ghost use Rattle.disk_model.specs.Memory.Record.{noted_of, count_of, past_of, total};
ghost use Rattle.disk_model.specs.Memory.Replay.{IsReplay};
ghost use Rattle.disk_model.specs.Memory.Images.{Kept, at_rest, replayed, shown, begun};

use crate::entry::Entry;
use crate::replay::Replay;
use std::alloc::{AllocError, Global};
use std::marker::Model;

/// The record of the calls of a disk in memory. It takes all its memory when it is made.
#[derive(Drop)]
pub struct Record {
    entries: Vec<Entry>,
    bytes: Vec<u8>,
    units: usize,
}

impl Model for Record {
    ghost use Rattle.disk_model.specs.Memory.Model.{Recorded};
    ghost use Rattle.disk_model.specs.Memory.RecordView.{recorded, IsRecord};

    ghost Value = { Recorded };

    ghost view = { recorded };

    ghost invariant = { IsRecord };
}

impl Record {
    /// Returns an empty record of `units` units.
    pub fn new(alloc: Global, units: usize) -> Result<Record, AllocError>
        ensures { IfOk result (λ it. it ≡ record { past = []; left = units }) }
    {
        Ok(Record {
            entries: Vec::with_capacity(alloc, units)?,
            bytes: Vec::with_capacity(alloc, units)?,
            units,
        })
    }

    /// Returns whether a call with `count` bytes still fits. A call takes one unit, and one more for each byte.
    pub fn fits(&self, count: usize) -> bool
        ensures { IsTrue result ↔ (count < self.now.left) }
    {
        count < self.units - self.entries.len() - self.bytes.len()
    }

    /// Records a call with its bytes.
    pub fn note(&mut self, entry: Entry, bytes: &[u8])
        requires fits { length bytes.now < self.old.left }
        requires count { count_of entry.kind ≡ length bytes.now }
        ensures past { self.new.past ≡ self.old.past ++ noted_of entry bytes.now ∷ [] }
        ensures left { self.new.left ≡ self.old.left - (length bytes.now + 1) }
    {
        if self.entries.push(entry).is_err() || self.bytes.extend_from_slice(bytes).is_err() {
            unreachable!()
        }
    }

    /// Returns the file that `pick` shows of a crash within the call number `moment`, or after the last call.
    pub fn image(
        &self,
        alloc: Global,
        first: &[u8],
        moment: u64,
        pick: u64,
    ) -> Result<Vec<u8>, AllocError>
        ensures { IfOk result (λ file. file.items
            ≡ shown pick (replayed (at_rest first.now) (begun moment self.now.past))) }
    {
        let replay = Replay::new(alloc, first, pick)?;
        play(&self.entries, &self.bytes, replay, moment)
    }
}

// Replays the entries that have begun, and returns the image.
fn play(
    entries: &[Entry],
    bytes: &[u8],
    mut replay: Replay,
    moment: u64,
) -> Result<Vec<u8>, AllocError>
    requires { total entries.now ≡ length bytes.now }
    ensures { IfOk result (λ file. (kept : Kept) → IsReplay replay kept
        → file.items ≡ shown replay.pick (replayed kept (begun moment (past_of entries.now bytes.now)))) }
{
    let mut rest = bytes;
    for entry in entries {
        if !entry.has_begun(moment) {
            return Ok(replay.into_image());
        }
        let (own, others) = rest.split_at(entry.kind.count());
        replay.apply(entry.kind, own)?;
        rest = others;
    }
    Ok(replay.into_image())
}
