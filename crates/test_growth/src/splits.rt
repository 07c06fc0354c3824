ghost use Rattle.std.specs.Prelude.{◌≡◌, ◌≤◌, length, IfOk};
ghost use Rattle.std.specs.List.{AllByRecursion};
ghost use Rattle.metric_laws.specs.Space.{bound};

use crate::work::holds;
use metric_laws::{Meter, Point};
use promote_split::{Entry, Half, Halves, Matrix, Policy, partition, promote, split};
use std::alloc::{AllocError, Global};
use std::process::Abort;
use tree_shape::{InnerEntry, LeafEntry};
use vector_kinds::L1;

// Gives the objects below `count`, each at its number.
#[tactic(auto, using(crate::proofs::Every::all_of))]
fn line(alloc: Global, count: u32) -> Result<Vec<LeafEntry>, AllocError>
    ensures long { IfOk result (λ entries. length entries.items ≡ count) }
    ensures near { IfOk result (λ entries. AllByRecursion (λ (e : LeafEntry). 0 ≤ bound) entries.items) }
{
    let mut entries = Vec::new(alloc);
    for id in 0..count {
        entries.push(LeafEntry {
            id,
            tag: 0,
            parent: 0,
            point: Point::new(alloc, &[id])?,
        })?;
    }
    Ok(entries)
}

// Gives the distances of the objects below `count`, and counts those that were computed.
fn matrix_of(rt: &(impl AllocGlobal + Abort), count: u32) -> (Matrix, u64) {
    let entries = line(rt.alloc(), count).expect(rt, "memory");
    let mut ruler = Meter::new(L1::new(1));
    let matrix = Matrix::of(rt.alloc(), &mut ruler, &entries).expect(rt, "memory");
    (matrix, ruler.used())
}

// Checks the parts that a rule makes.
fn check_parts(
    rt: &impl Abort,
    parts: &(Vec<usize>, Vec<usize>),
    first: &[usize],
    second: &[usize],
) {
    holds(rt, parts.0.as_slice() == first);
    holds(rt, parts.1.as_slice() == second);
}

#[test]
fn seven_points_are_parted(rt: HostRuntime) {
    let (matrix, used) = matrix_of(&rt, 7);
    holds(&rt, used == 49);
    assert!(rt; matrix.len() == 7);
    let parts = partition(rt.alloc(), &matrix, 0, 1, 1, 3).expect(&rt, "memory");
    check_parts(&rt, &parts, &[0, 2, 3], &[1, 4, 5, 6]);
    let parts = partition(rt.alloc(), &matrix, 0, 6, 2, 2).expect(&rt, "memory");
    check_parts(&rt, &parts, &[0, 1, 2, 3], &[4, 5, 6]);
}

// Says whether entries are the objects from `from` on, below a routing point.
fn are_from(entries: &[LeafEntry], from: u32, point: u32) -> bool {
    let mut id = from;
    let mut is_so = true;
    for entry in entries {
        is_so = is_so && entry.id == id && entry.parent == u64::from(id.abs_diff(point));
        id = id.saturating_add(1);
    }
    is_so
}

// Checks a half that has `count` objects from `from` on, around a point, within 8.
fn check_half(rt: &impl Abort, half: &Half<LeafEntry>, from: u32, count: usize, point: u32) {
    let entries = half.entries.as_slice();
    holds(rt, half.point.as_slice() == [point].as_slice());
    holds(rt, entries.len() == count);
    holds(rt, are_from(entries, from, point));
    holds(rt, half.radius == 8);
}

// Is the promotion mM_RAD with the hyperplane.
const POLICY: Policy = Policy {
    promote: 2,
    split: 1,
};

// Gives the objects that are promoted of those below 33.
fn promoted(rt: &(impl AllocGlobal + Abort)) -> (usize, usize) {
    let (matrix, _) = matrix_of(rt, 33);
    assert!(rt; matrix.len() == 33);
    promote(rt.alloc(), &matrix, POLICY, 6).expect(rt, "memory")
}

// Splits the objects below 33.
fn halves(rt: &(impl AllocGlobal + Abort)) -> Halves<LeafEntry> {
    let entries = line(rt.alloc(), 33).expect(rt, "memory");
    let mut ruler = Meter::new(L1::new(1));
    split(rt.alloc(), &mut ruler, entries, POLICY, 6).expect(rt, "memory")
}

#[test]
fn thirty_three_points_are_split(rt: HostRuntime) {
    holds(&rt, promoted(&rt) == (7, 24));
    let halves = halves(&rt);
    check_half(&rt, &halves.first, 0, 16, 7);
    check_half(&rt, &halves.second, 16, 17, 24);
}

// Moves an entry under another routing point, through its bound.
fn moved<E: Entry>(mut entry: E, parent: u64) -> E {
    entry.set_parent(parent);
    entry
}

#[test]
fn an_inner_entry_reaches_as_far_as_its_radius(rt: HostRuntime) {
    let entry = InnerEntry {
        child: 3,
        radius: 5,
        parent: 0,
        point: Point::new(rt.alloc(), &[9]).expect(&rt, "memory"),
    };
    let entry = moved(entry, 2);
    assert!(rt; entry.parent == 2);
    assert!(rt; entry.radius() == 5);
    assert!(rt; entry.point() == [9].as_slice());
    let mut ruler = Meter::new(L1::new(1));
    let matrix = Matrix::of(rt.alloc(), &mut ruler, &[entry]).expect(&rt, "memory");
    holds(&rt, !matrix.is_empty());
    holds(&rt, matrix.radii() == [5].as_slice());
}
