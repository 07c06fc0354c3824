//! Which group each object goes to while groups have room.

ghost use Rattle.std.specs.Prelude.{◌≡◌, ℕ, ◌+◌, ◌<◌, ◌≤◌, ◌^◌, ◌∷◌, length, replicate, IfOk, IfSome, All, drop, slice_index, Some, None, true, vec_len};
ghost use Rattle.tree_growth.specs.Groups.{entry, group_count, seeds_from, nearest_from, placed_from, counted};
ghost use Rattle.tree_growth.specs.Groups.{chosen as chosen_of};
ghost use Rattle.bulk_load.specs.Hints.{IsHint, HaveGrown};

use crate::crew::Scout;
use crate::distances::Distances;
use crate::hints::Hints;
use metric_laws::Metric;
use std::alloc::{AllocError, Global};
use tree_growth::Member;
use tree_shape::Bounds;

/// How the objects of a set are placed.
#[derive(Clone, Copy)]
pub struct Placing<'a, M: Metric> {
    pub distances: &'a Distances<'a, M>,
    /// The most objects of a group.
    pub room: usize,
    /// The places of the seeds, in order.
    pub seeds: &'a [u32],
    /// The number of threads that look for the nearest groups.
    pub workers: usize,
}

/// Returns the number of groups of a set of `objects` objects, where a group has at most `room`.
pub fn group_number(fill: &Bounds, is_root: bool, room: usize, objects: usize) -> usize
    requires room { 0 < room }
    requires few { objects < 2 ^ 32 }
    ensures { result ≡ group_count fill.now.most fill.now.least is_root room objects }
{
    let number = fill.most.min(2 * objects.div_ceil(room));
    if is_root || fill.least <= number {
        number
    } else {
        fill.least
    }
}

/// Returns the places of the seeds of `groups` groups in a set of `objects` objects.
#[tactic(auto, using(crate::proofs::Steps::seed_low))]
pub fn seed_places(alloc: Global, objects: usize, groups: usize) -> Result<Vec<u32>, AllocError>
    requires objects { (0 < objects) × (objects < 2 ^ 32) }
    requires groups { (0 < groups) × (groups ≤ 64) }
    ensures is { IfOk result (λ v. v.items ≡ seeds_from objects groups 0 groups) }
    ensures inside { IfOk result (λ v. All (λ k. k < objects) v.items) }
    ensures len { IfOk result (λ v. vec_len v ≡ groups) }
{
    let mut places = Vec::new(alloc);
    for i in 0..groups {
        places.push((i * objects / groups) as u32)?;
    }
    Ok(places)
}

/// Returns the distance and the number of the nearest group that has room for the object at `place`.
pub fn nearest<M: Metric>(
    distances: &Distances<'_, M>,
    place: usize,
    room: usize,
    counts: &[usize],
) -> Option<(u64, usize)>
    requires place { place < length distances.now.table }
    requires counts { length counts.now ≡ distances.now.width }
    ensures is { result ≡ nearest_from (entry distances.now.table) room place 0 None counts.now }
    ensures room { IfSome result (λ b. (b.1 < distances.now.width) × (slice_index counts.now b.1 < room)) }
    ensures far { IfSome result (λ b. b.0 ≡ entry distances.now.table place b.1) }
{
    let row = distances.of(place);
    let mut best = None;
    for (group, count) in counts.iter().enumerate() {
        if *count < room {
            best = row.nearer(best, group);
        }
    }
    best
}

// Returns the group of `hint`, if it still has room.
fn with_room(hint: Option<u32>, room: usize, counts: &[usize]) -> Option<usize>
    ensures { IfSome result (λ group. (hint ≡ Some group) × (group < length counts.now) × (slice_index counts.now group < room)) }
{
    let group = hint? as usize;
    if group < counts.len() && counts[group] < room {
        Some(group)
    } else {
        None
    }
}

// Returns the group for the object at `place`: that of `hint` while it has room, and else the nearest that has.
#[tactic(auto, using(crate::proofs::Ahead::hinted))]
fn group_for<M: Metric>(
    placing: &Placing<'_, M>,
    place: usize,
    hint: Option<u32>,
    counts: &[usize],
) -> Option<usize>
    requires place { place < length placing.now.distances.now.table }
    requires counts { length counts.now ≡ placing.now.distances.now.width }
    requires hint { IfSome hint (IsHint (entry placing.now.distances.now.table) placing.now.room place counts.now) }
    ensures some { IfSome result (λ group. (group < placing.now.distances.now.width) × (slice_index counts.now group < placing.now.room)
        × (nearest_from (entry placing.now.distances.now.table) placing.now.room place 0 None counts.now ≡ Some
        (entry placing.now.distances.now.table place group, group))) }
    ensures none { result ≡ None → nearest_from (entry placing.now.distances.now.table) placing.now.room place 0 None counts.now ≡ None }
{
    if let Some(group) = with_room(hint, placing.room, counts) {
        return Some(group);
    }
    match nearest(placing.distances, place, placing.room, counts) {
        Some((_, group)) => Some(group),
        None => None,
    }
}

// Chooses a group with room for the object at `place`, and counts it there.
fn choose<M: Metric>(
    placing: &Placing<'_, M>,
    place: usize,
    hint: Option<u32>,
    counts: &mut [usize],
) -> usize
    requires place { place < length placing.now.distances.now.table }
    requires width { (0 < placing.now.distances.now.width) × (placing.now.distances.now.width ≤ 64) }
    requires counts { length counts.old ≡ placing.now.distances.now.width }
    requires hint { IfSome hint (IsHint (entry placing.now.distances.now.table) placing.now.room place counts.old) }
    ensures is { result ≡ chosen_of (nearest_from (entry placing.now.distances.now.table) placing.now.room place 0 None counts.old) }
    ensures counts { counts.new ≡
        counted (nearest_from (entry placing.now.distances.now.table) placing.now.room place 0 None counts.old) counts.old }
    ensures small { result < placing.now.distances.now.width }
{
    match group_for(placing, place, hint, counts) {
        Some(group) => {
            counts[group] += 1;
            group
        }
        None => 0,
    }
}

// Returns where the object at `place` goes, and how many seeds are before the next place; `before` seeds are before this one.
// Clauses: what is asked of the caller (`place`, `width`, `seeds`, `before`, `counts`, `hint`); the answer (`seeds`, `small`, `step`); what
// changes (`grown`); what stays (`counts`).
#[tactic(auto, using(crate::proofs::Steps::seed_step, crate::proofs::Steps::member_step))]
fn place_one<M: Metric>(
    placing: &Placing<'_, M>,
    place: usize,
    hint: Option<u32>,
    before: usize,
    counts: &mut [usize],
) -> (Member, usize)
    requires place { place < length placing.now.distances.now.table }
    requires width { (0 < placing.now.distances.now.width) × (placing.now.distances.now.width ≤ 64) }
    requires seeds { length placing.now.seeds.now ≡ placing.now.distances.now.width }
    requires before { before ≤ placing.now.distances.now.width }
    requires counts { length counts.old ≡ placing.now.distances.now.width }
    requires hint { IfSome hint (IsHint (entry placing.now.distances.now.table) placing.now.room place counts.old) }
    ensures seeds { result.1 ≤ placing.now.distances.now.width }
    ensures small { result.0.group < placing.now.distances.now.width }
    ensures counts { length counts.new ≡ length counts.old }
    ensures grown { HaveGrown counts.old counts.new }
    ensures step { (left next : ℕ) → left ≡ next + 1 → placed_from (entry placing.now.distances.now.table) placing.now.room place
        (drop before placing.now.seeds.now) before counts.old left
        ≡ result.0 ∷ placed_from (entry placing.now.distances.now.table) placing.now.room (place + 1)
        (drop result.1 placing.now.seeds.now) result.1 counts.new next }
{
    let seeds = placing.seeds;
    if before < seeds.len() && seeds[before] as usize == place {
        (
            Member {
                group: before as u32,
                is_seed: true,
            },
            before + 1,
        )
    } else {
        let group = choose(placing, place, hint, counts);
        (
            Member {
                group: group as u32,
                is_seed: false,
            },
            before,
        )
    }
}

/// Returns the group of each object, before small groups are filled up. Several workers look ahead for each block of objects; one
/// alone has nothing to look ahead for.
#[tactic(auto, using(crate::proofs::Ahead::hints_grow))]
pub fn place_all<W: Scout<M>, M: Metric>(
    crew: &W,
    alloc: Global,
    placing: &Placing<'_, M>,
) -> Result<Vec<Member>, AllocError>
    requires ready { W.ready crew.now }
    requires width { (0 < placing.now.distances.now.width) × (placing.now.distances.now.width ≤ 64) }
    requires seeds { length placing.now.seeds.now ≡ placing.now.distances.now.width }
    requires workers { (1 ≤ placing.now.workers) × (placing.now.workers ≤ 64) }
    ensures is { IfOk result (λ v.
        v.items ≡ placed_from (entry placing.now.distances.now.table) placing.now.room 0 placing.now.seeds.now 0
        (replicate placing.now.distances.now.width 1) (length placing.now.distances.now.table)) }
    ensures small { IfOk result (λ v. All (λ p. p.group < placing.now.distances.now.width) v.items) }
    ensures len { IfOk result (λ v. vec_len v ≡ length placing.now.distances.now.table) }
{
    let objects = placing.distances.objects();
    let mut counted = vec![in alloc; 1usize; placing.distances.seeds()]?;
    let counts = counted.as_mut_slice();
    let mut placed = Vec::with_capacity(alloc, objects)?;
    let mut hints = Hints::none(alloc);
    let mut before = 0;
    for place in 0..objects {
        hints.look_ahead(crew, alloc, placing, counts, place)?;
        let hint = hints.at(place);
        let (one, next) = place_one(placing, place, hint, before, counts);
        placed.push(one)?;
        before = next;
    }
    Ok(placed)
}
