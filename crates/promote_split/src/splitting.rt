ghost use Rattle.std.specs.Prelude.{◌≡◌, ◌+◌, ◌*◌, ◌≤◌, ◌++◌, ◌∷◌, [], length, reverse, IfOk, OnOk, if◌then◌else◌};
ghost use Rattle.std.specs.List.{AllByRecursion};
ghost use Rattle.metric_laws.specs.Space.{bound};
ghost use Rattle.tree_growth.specs.Dealing.{size, row, is_on, promoted, IsPair};
ghost use Rattle.promote_split.specs.Steps.{half_entries};
ghost use Rattle.promote_split.specs.Halves.{IsSplitBy, IsSplit, AreNear};
ghost use Rattle.promote_split.specs.Tables.{HasCounted};

use crate::dealing::{Promoted, partition_into};
use crate::promoting::radius_of;
use crate::{Entry, Half, Halves, Matrix, Policy, promote};
use metric_laws::{Listed, Point, Ruler};
use std::alloc::{AllocError, Global};
use tree_growth::Side;

// The entries of the two groups.
#[derive(Drop)]
struct Groups<E: Entry> {
    first: Vec<E>,
    second: Vec<E>,
}

// Puts an entry at the end of its group.
fn put<E: Entry>(
    mut entry: E,
    side: Side,
    first: u64,
    second: u64,
    groups: &mut Groups<E>,
) -> Result<(), AllocError>
    ensures first { OnOk result
        (groups.new.first.items ≡ (if is_on Side.First side then groups.old.first.items ++ E.with_parent entry first ∷ []
        else groups.old.first.items)) }
    ensures second { OnOk result
        (groups.new.second.items ≡ (if is_on Side.Second side then groups.old.second.items ++ E.with_parent entry second ∷ []
        else groups.old.second.items)) }
{
    match side {
        Side::First => {
            entry.set_parent(first);
            groups.first.push(entry)?;
        }
        Side::Second => {
            entry.set_parent(second);
            groups.second.push(entry)?;
        }
        Side::Open => {}
    }
    Ok(())
}

// Parts the entries into two groups. They are handed in backward.
fn part<E: Entry>(
    entries: &mut Vec<E>,
    sides: &[Side],
    first: &[u64],
    second: &[u64],
    groups: &mut Groups<E>,
) -> Result<(), AllocError>
    requires sides { length sides.now ≡ length entries.old.items }
    requires first { length first.now ≡ length entries.old.items }
    requires second { length second.now ≡ length entries.old.items }
    ensures first { OnOk result (groups.new.first.items ≡ groups.old.first.items ++ half_entries E.with_parent Side.First first.now
        sides.now (reverse entries.old.items)) }
    ensures second { OnOk result (groups.new.second.items ≡ groups.old.second.items ++ half_entries E.with_parent Side.Second
        second.now sides.now (reverse entries.old.items)) }
{
    for i in 0..sides.len() {
        let Some(entry) = entries.pop() else {
            unreachable!()
        };
        put(entry, sides[i], first[i], second[i], groups)?;
    }
    Ok(())
}

// Returns the entries of each side, each half in the old order.
fn groups_of<E: Entry>(
    alloc: Global,
    entries: Vec<E>,
    sides: &[Side],
    first: &[u64],
    second: &[u64],
) -> Result<Groups<E>, AllocError>
    requires sides { length sides.now ≡ length entries.items }
    requires first { length first.now ≡ length entries.items }
    requires second { length second.now ≡ length entries.items }
    ensures first { IfOk result (λ groups. groups.first.items ≡ half_entries E.with_parent Side.First first.now sides.now entries.items) }
    ensures second { IfOk result (λ groups. groups.second.items ≡
        half_entries E.with_parent Side.Second second.now sides.now entries.items) }
{
    let mut entries = entries;
    entries.reverse();
    let mut groups = Groups {
        first: Vec::with_capacity(alloc, entries.len())?,
        second: Vec::with_capacity(alloc, entries.len())?,
    };
    part(&mut entries, sides, first, second, &mut groups)?;
    Ok(groups)
}

// Splits a node by the table of its entries.
fn split_by<E: Entry>(
    alloc: Global,
    matrix: &Matrix,
    entries: Vec<E>,
    policy: Policy,
    least: usize,
) -> Result<Halves<E>, AllocError>
    requires two { 2 ≤ size matrix.now }
    requires long { length entries.items ≡ size matrix.now }
    ensures halves { IfOk result (λ h. IsSplitBy E.ball E.with_parent matrix.now policy.promote policy.split least entries.items h) }
    ensures pair { IfOk result (λ h. IsPair (size matrix.now) (promoted matrix.now policy.promote policy.split least)) }
    ensures within { IfOk result (λ h. (h.first.radius ≤ bound) × (h.second.radius ≤ bound)) }
    ensures near { OnOk result
        (AllByRecursion (λ d. d ≤ bound) (row matrix.now (promoted matrix.now policy.promote policy.split least).0)
        × AllByRecursion (λ d. d ≤ bound) (row matrix.now (promoted matrix.now policy.promote policy.split least).1)) }
{
    let (a, b) = promote(alloc, matrix, policy, least)?;
    let mut sides = Vec::with_capacity(alloc, matrix.len())?;
    partition_into(matrix, Promoted { a, b }, policy.split, least, &mut sides)?;
    let first_point = Point::new(alloc, entries[a].point())?;
    let second_point = Point::new(alloc, entries[b].point())?;
    let groups = groups_of(alloc, entries, &sides, matrix.row(a), matrix.row(b))?;
    Ok(Halves {
        first: Half {
            point: first_point,
            radius: radius_of(matrix, a, Side::First, &sides),
            entries: Listed::new(groups.first),
        },
        second: Half {
            point: second_point,
            radius: radius_of(matrix, b, Side::Second, &sides),
            entries: Listed::new(groups.second),
        },
    })
}

/// Splits the n entries of a node into two halves by the policy, by n * n distances. The entries keep their order. Each is in one
/// half, and its stored distance becomes the one to that half's point.
/// Clauses: what is asked of the caller (`some`, `room`, `radii`); the answer (`halves`, `shares`, `within`, `near`); what stays
/// (`metric`); the cost (`counted`).
pub fn split<R: Ruler, E: Entry>(
    alloc: Global,
    ruler: &mut R,
    entries: Vec<E>,
    policy: Policy,
    least: usize,
) -> Result<Halves<E>, AllocError>
    requires some { 1 ≤ least }
    requires room { 2 * least ≤ length entries.items }
    requires radii { AllByRecursion (λ e. (E.ball e).1 ≤ bound) entries.items }
    ensures metric { R.metric ruler.new ≡ R.metric ruler.old }
    ensures counted { OnOk result (HasCounted (length entries.items * length entries.items) (R.used ruler.old) (R.used ruler.new)) }
    ensures halves { IfOk result (λ h. IsSplit (R.M.space (R.metric ruler.old)) E.ball E.with_parent policy.promote policy.split least
        entries.items h) }
    ensures shares { IfOk result (λ h. (least ≤ length h.first.entries) × (least ≤ length h.second.entries)
        × (length h.first.entries + length h.second.entries ≡ length entries.items)) }
    ensures within { IfOk result (λ h. (h.first.radius ≤ bound) × (h.second.radius ≤ bound)) }
    ensures near { IfOk result (λ h. AreNear (R.M.space (R.metric ruler.old)) E.ball entries.items h.first.point
        × AreNear (R.M.space (R.metric ruler.old)) E.ball entries.items h.second.point) }
{
    let matrix = Matrix::of(alloc, ruler, &entries)?;
    let halves = split_by(alloc, &matrix, entries, policy, least)?;
    Ok(halves)
}
