//! How small groups are filled up from large ones.

ghost use Rattle.std.specs.Prelude.{◌≡◌, ◌<◌, ◌≤◌, ◌-◌, length, IfOk, OnOk, All, if◌then◌else◌, slice_index_or, slice_set, vec_len, IsPermutation};
ghost use Rattle.std.specs.List.Sorted.{IsSortedBy};
ghost use Rattle.tree_growth.specs.Groups.{entry, in_group, is_candidate, member_of, received, filled_from};
ghost use Rattle.bulk_load.specs.Candidates.{AreCounts, candidates_from, is_nearer};

use crate::distances::Distances;
use metric_laws::Metric;
use std::alloc::{AllocError, Global};
use tree_growth::Member;

/// Counts the objects of each of `groups` groups.
#[tactic(auto, using(crate::proofs::Received::in_group_more, crate::proofs::Received::in_group_few))]
fn tally(alloc: Global, placed: &[Member], groups: usize) -> Result<Vec<usize>, AllocError>
    requires { All (λ p. p.group < groups) placed.now }
    ensures len { IfOk result (λ v. vec_len v ≡ groups) }
    ensures each { IfOk result (λ v. AreCounts v.items placed.now) }
{
    let mut counts = vec![in alloc; 0usize; groups]?;
    for p in placed {
        counts[p.group as usize] += 1;
    }
    Ok(counts)
}

// Returns whether the object at `place` may leave its group for a small one.
fn may_leave(least: usize, placed: &[Member], counts: &[usize], place: usize) -> bool
    requires place { place < length placed.now }
    requires groups { All (λ p. p.group < length counts.now) placed.now }
    requires counts { AreCounts counts.now placed.now }
    ensures { result ≡ is_candidate least placed.now (slice_index_or placed.now place (member_of 0)) }
{
    let member = placed[place];
    !member.is_seed && least < counts[member.group as usize]
}

// Returns the objects that `group` may receive, as their distances from its seed and their places, nearest first.
fn candidates<M: Metric>(
    alloc: Global,
    distances: &Distances<'_, M>,
    least: usize,
    group: usize,
    placed: &[Member],
    counts: &[usize],
) -> Result<Vec<(u64, usize)>, AllocError>
    requires group { group < distances.now.width }
    requires placed { length placed.now ≡ length distances.now.table }
    requires groups { All (λ p. p.group < length counts.now) placed.now }
    requires counts { AreCounts counts.now placed.now }
    ensures are { IfOk result (λ v.
        IsPermutation (candidates_from (entry distances.now.table) least group placed.now 0 placed.now) v.items) }
    ensures sorted { IfOk result (λ v. IsSortedBy is_nearer v.items) }
{
    let mut near = Vec::new(alloc);
    for place in 0..placed.len() {
        if may_leave(least, placed, counts, place) {
            near.push((distances.far(place, group), place))?;
        }
    }
    near.sort_unstable();
    Ok(near)
}

// Moves the object at `place` to `group`, where it may leave its own.
// Clauses: what is asked of the caller (`group`, `place`, `groups`, `counts`); what changes (`placed`); what stays (`long`, `groups`,
// `counts`, `len`).
fn move_over(least: usize, group: usize, place: usize, placed: &mut [Member], counts: &mut [usize])
    requires group { (group < length counts.old) × (length counts.old ≤ 64) }
    requires place { place < length placed.old }
    requires groups { All (λ p. p.group < length counts.old) placed.old }
    requires counts { AreCounts counts.old placed.old }
    ensures placed { placed.new ≡ (if is_candidate least placed.old (slice_index_or placed.old place (member_of 0))
        then slice_set placed.old place (member_of group) else placed.old) }
    ensures long { length placed.new ≡ length placed.old }
    ensures groups { All (λ p. p.group < length counts.new) placed.new }
    ensures counts { AreCounts counts.new placed.new }
    ensures len { length counts.new ≡ length counts.old }
{
    if may_leave(least, placed, counts, place) {
        counts[placed[place].group as usize] -= 1;
        counts[group] += 1;
        placed[place] = Member {
            group: group as u32,
            is_seed: false,
        };
    }
}

// Fills up one group, if it has fewer than `least` objects.
// Clauses: what is asked of the caller (`group`, `placed`, `groups`, `len`, `counts`); what changes (`placed`); what stays (`long`,
// `groups`, `counts`, `len`).
fn fill_one<M: Metric>(
    alloc: Global,
    distances: &Distances<'_, M>,
    least: usize,
    group: usize,
    placed: &mut [Member],
    counts: &mut [usize],
) -> Result<(), AllocError>
    requires group { (group < distances.now.width) × (distances.now.width ≤ 64) }
    requires placed { length placed.old ≡ length distances.now.table }
    requires groups { All (λ p. p.group < length counts.old) placed.old }
    requires len { length counts.old ≡ distances.now.width }
    requires counts { AreCounts counts.old placed.old }
    ensures placed { OnOk result (placed.new ≡
        received (entry distances.now.table) least group (least - in_group group placed.old) placed.old) }
    ensures long { OnOk result (length placed.new ≡ length placed.old) }
    ensures groups { OnOk result (All (λ p. p.group < length counts.new) placed.new) }
    ensures counts { OnOk result (AreCounts counts.new placed.new) }
    ensures len { length counts.new ≡ length counts.old }
{
    if least <= counts[group] {
        return Ok(());
    }
    for (_, place) in candidates(alloc, distances, least, group, placed, counts)? {
        if least <= counts[group] {
            return Ok(());
        }
        move_over(least, group, place, placed, counts);
    }
    Ok(())
}

/// Fills up the groups that have fewer than `least` objects, in order. Each receives the objects nearest to its seed that
/// are no seeds and whose groups have more than `least`.
#[tactic(auto, using(crate::proofs::Received::filled_step))]
pub fn fill_up<M: Metric>(
    alloc: Global,
    distances: &Distances<'_, M>,
    least: usize,
    placed: &mut [Member],
) -> Result<(), AllocError>
    requires width { distances.now.width ≤ 64 }
    requires placed { length placed.old ≡ length distances.now.table }
    requires groups { All (λ p. p.group < distances.now.width) placed.old }
    ensures is { OnOk result (placed.new ≡ filled_from (entry distances.now.table) least 0 distances.now.width placed.old) }
    ensures small { OnOk result (All (λ p. p.group < distances.now.width) placed.new) }
{
    let mut counted = tally(alloc, placed, distances.seeds())?;
    let counts = counted.as_mut_slice();
    for group in 0..distances.seeds() {
        fill_one(alloc, distances, least, group, placed, counts)?;
    }
    Ok(())
}
