ghost use Rattle.std.specs.Prelude.{◌≡◌, ◌≢◌, ◌≤◌, ◌<◌, ℕ, length, max, true, IfOk, slice_index_or, if◌then◌else◌, nat_lt};
ghost use Rattle.std.specs.List.{AllByRecursion};
ghost use Rattle.metric_laws.specs.Space.{bound};
ghost use Rattle.metric_laws.specs.Pruning.{capped};
ghost use Rattle.tree_growth.specs.Dealing.{size, is_on, side_at, least_from, group_radius, pair_cost, pairs_with, promoted, IsPair};

use crate::Matrix;
use crate::dealing::{Promoted, is_same, partition_into};
use metric_laws::cap;
use std::alloc::{AllocError, Global};
use tree_growth::Side;

/// The split policy of a node.
#[derive(Clone, Copy, PartialEq, Eq)]
pub struct Policy {
    /// How the two entries are promoted: 1 by the least sum of the radii, m_RAD, else by the least greater radius, mM_RAD
    /// (VLDB 1997, section 4.1).
    pub promote: u8,
    /// How the entries are dealt: 1 by the generalized hyperplane, else balanced (VLDB 1997, section 4.2).
    pub split: u8,
}

// Returns the greater of `radius` and the reach of entry `i`, if that entry is on the side `on`.
fn widen(row: &[u64], radii: &[u64], on: Side, sides: &[Side], i: usize, radius: u64) -> u64
    requires row { length row.now ≡ length sides.now }
    requires radii { length radii.now ≡ length sides.now }
    requires i { i < length sides.now }
    requires row_within { AllByRecursion (λ d. d ≤ bound) row.now }
    requires radii_within { AllByRecursion (λ d. d ≤ bound) radii.now }
    ensures within { radius ≤ bound → result ≤ bound }
    ensures radius { result ≡ (if is_on on (side_at sides.now i)
        then max radius (capped (slice_index_or row.now i 0) (slice_index_or radii.now i 0)) else radius) }
{
    if is_same(on, sides[i]) {
        radius.max(cap(row[i], radii[i]))
    } else {
        radius
    }
}

/// Returns the radius of a group around the entry `to`: for the entries of a leaf the greatest distance, for others the greatest
/// sum of a distance and a radius, at most the greatest distance.
pub fn radius_of(matrix: &Matrix, to: usize, on: Side, sides: &[Side]) -> u64
    requires to { to < size matrix.now }
    requires long { length sides.now ≡ size matrix.now }
    ensures radius { result ≡ group_radius matrix.now to on sides.now }
    ensures within { result ≤ bound }
{
    let row = matrix.row(to);
    let radii = matrix.radii();
    let mut radius = 0;
    for i in 0..sides.len() {
        radius = widen(row, radii, on, sides, i, radius);
    }
    radius
}

// Returns the cost of promoting two entries. The sides are written anew.
fn cost(
    matrix: &Matrix,
    policy: Policy,
    least: usize,
    pair: Promoted,
    sides: &mut Vec<Side>,
) -> Result<u64, AllocError>
    requires a { pair.a < size matrix.now }
    requires b { pair.b < size matrix.now }
    requires two { 2 ≤ size matrix.now }
    ensures { IfOk result (λ c. c ≡ pair_cost matrix.now policy.promote policy.split least (pair.a, pair.b)) }
{
    partition_into(matrix, pair, policy.split, least, sides)?;
    let first = radius_of(matrix, pair.a, Side::First, sides);
    let second = radius_of(matrix, pair.b, Side::Second, sides);
    Ok(if policy.promote == 1 {
        first + second
    } else {
        first.max(second)
    })
}

// The best pair so far, and its cost.
#[derive(Clone, Copy)]
struct Best {
    pair: (usize, usize),
    cost: u64,
}

// Returns the better of a pair and the best so far.
fn better(best: Best, pair: (usize, usize), cost: u64) -> Best
    ensures pair { result.pair ≡ (if nat_lt cost best.cost then pair else best.pair) }
    ensures cost { result.cost ≡ (if nat_lt cost best.cost then cost else best.cost) }
{
    if cost < best.cost {
        Best { pair, cost }
    } else {
        best
    }
}

// Returns true only where a pair costs `cost` or more, whatever the policy is: then an entry reaches that far from both promoted
// ones, and it belongs to the group of one of them.
fn is_dear(matrix: &Matrix, pair: Promoted, cost: u64) -> bool
    requires a { pair.a < size matrix.now }
    requires b { pair.b < size matrix.now }
    requires differ { pair.a ≢ pair.b }
    requires two { 2 ≤ size matrix.now }
    ensures { result ≡ true → (promote split least : ℕ) → cost ≤ pair_cost matrix.now promote split least (pair.a, pair.b) }
{
    let first = matrix.row(pair.a);
    let second = matrix.row(pair.b);
    let radii = matrix.radii();
    for i in 0..matrix.len() {
        if cap(first[i], radii[i]) >= cost && cap(second[i], radii[i]) >= cost {
            return true;
        }
    }
    false
}

// Returns the better of a pair and the best so far. Deals nothing around a pair that can be no better.
fn try_pair(
    matrix: &Matrix,
    policy: Policy,
    least: usize,
    pair: Promoted,
    best: Best,
    sides: &mut Vec<Side>,
) -> Result<Best, AllocError>
    requires a { pair.a < size matrix.now }
    requires b { pair.b < size matrix.now }
    requires differ { pair.a ≢ pair.b }
    requires two { 2 ≤ size matrix.now }
    ensures pair { IfOk result (λ r. r.pair ≡ (if nat_lt (pair_cost matrix.now policy.promote policy.split least (pair.a, pair.b)) best.cost
        then (pair.a, pair.b) else best.pair)) }
    ensures cost { IfOk result (λ r. r.cost ≡ (if nat_lt (pair_cost matrix.now policy.promote policy.split least (pair.a, pair.b)) best.cost
        then pair_cost matrix.now policy.promote policy.split least (pair.a, pair.b) else best.cost)) }
{
    if is_dear(matrix, pair, best.cost) {
        return Ok(best);
    }
    let cost = cost(matrix, policy, least, pair, sides)?;
    Ok(better(best, (pair.a, pair.b), cost))
}

// Tries the pairs of one entry with the later ones.
fn try_with(
    matrix: &Matrix,
    policy: Policy,
    least: usize,
    a: usize,
    best: Best,
    sides: &mut Vec<Side>,
) -> Result<Best, AllocError>
    requires a { a < size matrix.now }
    requires two { 2 ≤ size matrix.now }
    requires cost { best.cost ≡ pair_cost matrix.now policy.promote policy.split least best.pair }
    ensures pair { IfOk result (λ b. b.pair ≡ least_from (pair_cost matrix.now policy.promote policy.split least) best.pair
        (pairs_with (size matrix.now) a)) }
    ensures cost { IfOk result (λ b. b.cost ≡ pair_cost matrix.now policy.promote policy.split least b.pair) }
    ensures low { IfOk result (λ b. IsPair (size matrix.now) best.pair → IsPair (size matrix.now) b.pair) }
{
    let mut best = best;
    let count = matrix.len();
    for b in a + 1..count {
        best = try_pair(matrix, policy, least, Promoted { a, b }, best, sides)?;
    }
    Ok(best)
}

/// Returns the places of the two entries of a node that are promoted, the first below the second: of all pairs the one that
/// costs least by the policy, ties to the first in lexicographic order. Each group of a pair's partition has at least `least`
/// entries.
#[tactic(auto, using(crate::proofs::Least::all_pairs))]
pub fn promote(
    alloc: Global,
    matrix: &Matrix,
    policy: Policy,
    least: usize,
) -> Result<(usize, usize), AllocError>
    requires { 2 ≤ size matrix.now }
    ensures pair { IfOk result (λ p. p ≡ promoted matrix.now policy.promote policy.split least) }
    ensures low { IfOk result (λ p. IsPair (size matrix.now) p) }
{
    let mut sides = Vec::with_capacity(alloc, matrix.len())?;
    let first = Promoted { a: 0, b: 1 };
    let cost = cost(matrix, policy, least, first, &mut sides)?;
    let mut best = Best { pair: (0, 1), cost };
    for a in 0..matrix.len() {
        best = try_with(matrix, policy, least, a, best, &mut sides)?;
    }
    Ok(best.pair)
}
