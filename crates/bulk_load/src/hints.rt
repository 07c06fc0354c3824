//! The nearest groups of many objects, found by several workers before the objects' turns come.

ghost use Rattle.std.specs.Prelude.{◌≡◌, ℕ, List, ◌<◌, ◌≤◌, ◌+◌, ◌^◌, OnOk, IfOk, IfSome, length};
ghost use Rattle.tree_growth.specs.Groups.{Far, entry};
ghost use Rattle.bulk_load.specs.Hints.{IsHint, AreHints};

use crate::crew::Scout;
use crate::placing::{Placing, nearest};
use metric_laws::Metric;
use par_work::share;
use std::alloc::{AllocError, Global};
use std::thread::Threads;

/// The number of objects that are looked at together. The fewer they are, the more often threads are started; the more they
/// are, the more hints are out of date when their turn comes.
const BLOCK: usize = 16384;

// Returns the number of the nearest group that has room for the object at `place`, if one has.
fn hint_for<M: Metric>(placing: &Placing<'_, M>, counts: &[usize], place: usize) -> Option<u32>
    requires place { place < length placing.now.distances.now.table }
    requires width { placing.now.distances.now.width ≤ 64 }
    requires counts { length counts.now ≡ placing.now.distances.now.width }
    ensures { IfSome result (IsHint (entry placing.now.distances.now.table) placing.now.room place counts.now) }
{
    match nearest(placing.distances, place, placing.room, counts) {
        Some((_, group)) => Some(group as u32),
        None => None,
    }
}

/// Returns hints for the objects of the block that begins at `place`, where the groups have `counts` objects. Several threads
/// find them.
#[tactic(auto, using(crate::proofs::Ahead::hints_are))]
pub fn hints_by_threads<R: Threads + Sync, M: Metric>(
    rt: &R,
    alloc: Global,
    placing: &Placing<'_, M>,
    counts: &[usize],
    place: usize,
) -> Result<Vec<Option<u32>>, AllocError>
    requires place { place < length placing.now.distances.now.table }
    requires width { placing.now.distances.now.width ≤ 64 }
    requires counts { length counts.now ≡ placing.now.distances.now.width }
    requires workers { (1 ≤ placing.now.workers) × (placing.now.workers ≤ 64) }
    ensures { IfOk result (λ v. AreHints (entry placing.now.distances.now.table) placing.now.room place counts.now v.items) }
{
    let count = BLOCK.min(placing.distances.objects() - place);
    let hint = |i: usize| -> Option<u32>
        requires { (place + i < 2 ^ 64) × (place + i < length placing.now.distances.now.table)
            × (placing.now.distances.now.width ≤ 64) × (length counts.now ≡ placing.now.distances.now.width) }
        ensures { IfSome result (IsHint (entry placing.entry.now.distances.now.table) placing.entry.now.room (place + i) counts.entry.now) }
    { hint_for(placing, counts, place + i) };
    share(rt, alloc, count, placing.workers, &hint)
}

/// Hints for the objects of one block.
#[derive(Drop)]
pub struct Hints {
    pub first: usize,
    pub groups: Vec<Option<u32>>,
}

impl Hints {
    /// Makes no hints.
    pub fn none(alloc: Global) -> Self
        ensures { (far : Far) (room : ℕ) (counts : List ℕ) → AreHints far room result.first counts result.groups.items }
    {
        Hints {
            first: 0,
            groups: Vec::new(alloc),
        }
    }

    /// Has `crew` look at the objects of the block that begins at `place`, where the groups have `counts` objects. Does nothing
    /// where no block begins at `place`, and nothing for one worker.
    pub fn look_ahead<W: Scout<M>, M: Metric>(
        &mut self,
        crew: &W,
        alloc: Global,
        placing: &Placing<'_, M>,
        counts: &[usize],
        place: usize,
    ) -> Result<(), AllocError>
        requires ready { W.ready crew.now }
        requires place { place < length placing.now.distances.now.table }
        requires width { placing.now.distances.now.width ≤ 64 }
        requires counts { length counts.now ≡ placing.now.distances.now.width }
        requires workers { (1 ≤ placing.now.workers) × (placing.now.workers ≤ 64) }
        requires hints { AreHints (entry placing.now.distances.now.table) placing.now.room self.old.first counts.now self.old.groups.items }
        ensures { OnOk result (AreHints (entry placing.now.distances.now.table) placing.now.room self.new.first counts.now
            self.new.groups.items) }
    {
        if placing.workers == 1 || place % BLOCK != 0 {
            return Ok(());
        }
        self.groups = crew.hints(alloc, placing, counts, place)?;
        self.first = place;
        Ok(())
    }

    /// Returns the hint for the object at `place`, if there is one.
    #[tactic(auto, using(crate::proofs::Ahead::hint_at))]
    pub fn at(&self, place: usize) -> Option<u32>
        ensures { (far : Far) (room : ℕ) (counts : List ℕ) → AreHints far room self.now.first counts self.now.groups.items →
            IfSome result (IsHint far room place counts) }
    {
        if self.first <= place && place - self.first < self.groups.len() {
            self.groups[place - self.first]
        } else {
            None
        }
    }
}
