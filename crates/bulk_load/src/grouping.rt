//! The groups of a set.

ghost use Rattle.std.specs.Prelude.{◌≡◌, ℕ, List, ◌<◌, ◌≤◌, ◌^◌, ◌++◌, ◌∷◌, length, map, IfOk, OnOk, IsTrue, All, slice_index_or, slice_set, vec_len, [], replicate};
ghost use Rattle.std.specs.List.Sorted.{IsStrictlyIncreasing};
ghost use Rattle.tree_growth.specs.Bulk.{row_of, groups_from, groups_at};
ghost use Rattle.tree_growth.specs.Groups.{entry, placed_from, filled_from};
ghost use Rattle.bulk_load.specs.Groupable.{IsFill, IsSized, load_of};
ghost use Rattle.bulk_load.specs.MemberLists.{lists_in, HaveMembers, groups_with};

use crate::crew::Scout;
use crate::distances::{Distances, centres_at, mutual_distances};
use crate::filling::fill_up;
use crate::placing::{Placing, group_number, place_all, seed_places};
use metric_laws::{Listed, Metric, Rows};
use std::alloc::{AllocError, Global};
use tree_growth::{Group, Member};
use tree_shape::Bounds;

// Makes `number` empty lists of members.
fn empty_lists(alloc: Global, number: usize) -> Result<Vec<Vec<u32>>, AllocError>
    ensures { IfOk result (λ v. lists_in v.items ≡ replicate number []) }
{
    let mut lists = Vec::with_capacity(alloc, number)?;
    for _ in 0..number {
        lists.push(Vec::new(alloc))?;
    }
    Ok(lists)
}

// Appends `row` to the list of `group`.
fn add_member(lists: &mut Vec<Vec<u32>>, group: usize, row: u32) -> Result<(), AllocError>
    requires { group < vec_len lists.old }
    ensures { OnOk result (lists_in lists.new.items ≡ slice_set (lists_in lists.old.items) group
        (slice_index_or (lists_in lists.old.items) group [] ++ row ∷ [])) }
{
    lists[group].push(row)?;
    Ok(())
}

// Lists the members of each of `groups` groups, by one pass over the objects.
fn member_lists(
    alloc: Global,
    groups: usize,
    set: &[u32],
    placed: &[Member],
) -> Result<Vec<Vec<u32>>, AllocError>
    requires set { length set.now ≡ length placed.now }
    requires low { All (λ p. p.group < groups) placed.now }
    ensures len { IfOk result (λ v. vec_len v ≡ groups) }
    ensures each { IfOk result (λ v. HaveMembers set.now placed.now (lists_in v.items)) }
{
    let mut lists = empty_lists(alloc, groups)?;
    for (place, member) in placed.iter().enumerate() {
        add_member(&mut lists, member.group as usize, set[place])?;
    }
    Ok(lists)
}

// Makes the groups of `seeds`, which are places of `set`, each with its list of members.
fn with_seeds(
    alloc: Global,
    seeds: &[u32],
    set: &[u32],
    lists: Vec<Vec<u32>>,
) -> Result<Vec<Group>, AllocError>
    requires { All (λ k. k < length set.now) seeds.now }
    ensures { IfOk result (λ v. v.items ≡ groups_with set.now seeds.now (lists_in lists.items)) }
{
    let mut groups = Vec::with_capacity(alloc, seeds.len())?;
    for (seed, members) in seeds.iter().zip(lists) {
        groups.push(Group {
            seed: set[*seed as usize],
            members: Listed::new(members),
        })?;
    }
    Ok(groups)
}

// Makes the groups of `seeds`, which are places of `set`, from the group of each object.
fn groups_of(
    alloc: Global,
    seeds: &[u32],
    set: &[u32],
    placed: &[Member],
) -> Result<Vec<Group>, AllocError>
    requires set { length set.now ≡ length placed.now }
    requires seeds { All (λ k. k < length set.now) seeds.now }
    requires low { All (λ p. p.group < length seeds.now) placed.now }
    ensures { IfOk result (λ v. v.items ≡ groups_from 0 seeds.now set.now placed.now) }
{
    let lists = member_lists(alloc, seeds.len(), set, placed)?;
    with_seeds(alloc, seeds, set, lists)
}

// Returns the group of each object, where each group has at least `least` objects.
fn parted<W: Scout<M>, M: Metric>(
    crew: &W,
    alloc: Global,
    placing: &Placing<'_, M>,
    least: usize,
) -> Result<Vec<Member>, AllocError>
    requires ready { W.ready crew.now }
    requires width { (0 < placing.now.distances.now.width) × (placing.now.distances.now.width ≤ 64) }
    requires seeds { length placing.now.seeds.now ≡ placing.now.distances.now.width }
    requires workers { (1 ≤ placing.now.workers) × (placing.now.workers ≤ 64) }
    ensures is { IfOk result (λ v. v.items ≡ filled_from (entry placing.now.distances.now.table) least 0 placing.now.distances.now.width
        (placed_from (entry placing.now.distances.now.table) placing.now.room 0 placing.now.seeds.now 0
        (replicate placing.now.distances.now.width 1) (length placing.now.distances.now.table))) }
    ensures small { IfOk result (λ v. All (λ p. p.group < placing.now.distances.now.width) v.items) }
    ensures len { IfOk result (λ v. vec_len v ≡ length placing.now.distances.now.table) }
{
    let mut placed = place_all(crew, alloc, placing)?;
    fill_up(alloc, placing.distances, least, placed.as_mut_slice())?;
    Ok(placed)
}

/// Returns the groups of `set` that make the entries of a node at a level above 0. The set and the groups hold places of the rows.
/// Fails only out of memory.
/// Clauses: what is asked of the caller (`ready`, `rows`, `points`, `places`, `ascends`, `level`, `fill`, `size`, `workers`); the answer
/// (the one without a name).
/// Arguments: `crew` and `workers` do the work in the space of `metric`, `set` names the members among `rows`, and `level`, `root` and
/// `fill` say which node is made.
pub fn groups<W: Scout<M>, M: Metric>(
    crew: &W,
    alloc: Global,
    metric: M,
    workers: usize,
    rows: &Rows,
    set: &[u32],
    level: u32,
    root: bool,
    fill: &Bounds,
) -> Result<Vec<Group>, AllocError>
    requires ready { W.ready crew.now }
    requires rows { length rows.now.points < 2 ^ 32 }
    requires points { All (λ p. IsTrue ((M.space metric).is_point p)) rows.now.points }
    requires places { All (λ k. k < length rows.now.points) set.now }
    requires ascends { IsStrictlyIncreasing set.now }
    requires level { (1 ≤ level) × (level ≤ 14) }
    requires fill { IsFill fill.now }
    requires size { IsSized fill.now root level (length set.now) }
    requires workers { (1 ≤ workers) × (workers ≤ 64) }
    ensures { IfOk result (λ gs. (tags : List ℕ) →
        gs.items ≡ groups_at (load_of (M.space metric) rows.now.points tags fill.now) root level set.now) }
{
    let n = set.len();
    let room = fill.most.pow(level);
    let least = fill.least.pow(level);
    let seeds = seed_places(alloc, n, group_number(fill, root, room, n))?;
    let centres = centres_at(alloc, rows, set, seeds.as_slice())?;
    let apart = mutual_distances(alloc, metric, centres.as_slice())?;
    let distances = Distances::new(metric, rows, set, centres.as_slice(), apart.as_slice());
    let placing = Placing {
        distances: &distances,
        room,
        seeds: seeds.as_slice(),
        workers,
    };
    let placed = parted(crew, alloc, &placing, least)?;
    groups_of(alloc, seeds.as_slice(), set, placed.as_slice())
}
