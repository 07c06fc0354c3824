ghost use Rattle.std.specs.Prelude.{◌≡◌, ◌≢◌, ◌-◌, ◌*◌, ◌≤◌, ◌<◌, ◌++◌, ◌∷◌, [], length, map, filter, IfOk, IfSome, OnOk, slice_index_or, nat_le, ◌==◌, if◌then◌else◌};
ghost use Rattle.std.specs.List.{range_with_len};
ghost use Rattle.tree_growth.specs.Dealing.{size, count_on, is_on, side_at, first_least, in_turn, may_leave, members, received, filled_up, by_nearer, hyperplane, balanced, only_promoted, partitioned};
ghost use Rattle.promote_split.specs.Steps.{kept, kept_if};

use crate::Matrix;
use std::alloc::{AllocError, Global};
use tree_growth::Side;

// Returns whether two sides are the same.
pub fn is_same(on: Side, side: Side) -> bool
    ensures { result ≡ is_on on side }
{
    matches!(
        (on, side),
        (Side::First, Side::First) | (Side::Second, Side::Second) | (Side::Open, Side::Open)
    )
}

/// The places of the two promoted entries of a node.
#[derive(Clone, Copy)]
pub struct Promoted {
    /// The promoted entry of the first group.
    pub a: usize,
    /// The promoted entry of the second group.
    pub b: usize,
}

// A step of a partition: one side receives an entry from another.
#[derive(Clone, Copy)]
struct Step {
    // The place of the receiving side's promoted entry.
    own: usize,
    from: Side,
    to: Side,
}

// Returns the place with the lesser number, the earlier one if they are equal.
fn closer(row: &[u64], best: Option<usize>, i: usize) -> Option<usize>
    requires best { IfSome best (λ j. j < length row.now) }
    requires i { i < length row.now }
    ensures kept { result ≡ kept (λ k. slice_index_or row.now k 0) best i }
    ensures low { IfSome result (λ j. j < length row.now) }
{
    match best {
        Some(j) => { if row[i] < row[j] { Some(i) } else { Some(j) } }
        None => Some(i),
    }
}

// Returns whether entry `i` stands on the side `from` and is not promoted.
fn can_leave(pair: Promoted, from: Side, sides: &[Side], i: usize) -> bool
    requires { i < length sides.now }
    ensures { result ≡ may_leave pair.a pair.b from sides.now i }
{
    is_same(from, sides[i]) && i != pair.a && i != pair.b
}

// Returns the nearer of the best entry so far and entry `i`, if entry `i` may leave its side.
fn consider(
    row: &[u64],
    sides: &[Side],
    from: Side,
    pair: Promoted,
    best: Option<usize>,
    i: usize,
) -> Option<usize>
    requires long { length row.now ≡ length sides.now }
    requires best { IfSome best (λ j. j < length row.now) }
    requires i { i < length row.now }
    ensures kept { result ≡ kept_if (λ k. slice_index_or row.now k 0) (may_leave pair.a pair.b from sides.now) best i }
    ensures low { IfSome result (λ j. j < length row.now) }
{
    if can_leave(pair, from, sides, i) {
        closer(row, best, i)
    } else {
        best
    }
}

// Returns the nearest entry that may leave its side.
fn nearest(row: &[u64], sides: &[Side], from: Side, pair: Promoted) -> Option<usize>
    requires { length row.now ≡ length sides.now }
    ensures nearest { result ≡ first_least (λ i. slice_index_or row.now i 0)
        (filter (may_leave pair.a pair.b from sides.now) (range_with_len 0 (length sides.now))) }
    ensures low { IfSome result (λ i. i < length sides.now) }
{
    let mut best = None;
    for i in 0..sides.len() {
        best = consider(row, sides, from, pair, best, i);
    }
    best
}

// Moves to the receiving side the entry of the other side that is nearest to the receiver's promoted one.
fn receive(matrix: &Matrix, pair: Promoted, step: Step, sides: &mut [Side])
    requires long { length sides.old ≡ size matrix.now }
    requires own { step.own < size matrix.now }
    ensures { sides.new ≡ received matrix.now pair.a pair.b step.own step.from step.to sides.old }
{
    if let Some(i) = nearest(matrix.row(step.own), sides, step.from, pair) {
        sides[i] = step.to;
    }
}

// Counts the entries on a side.
fn count_on(on: Side, sides: &[Side]) -> usize
    ensures { result ≡ count_on on sides.now }
{
    let mut count = 0;
    for i in 0..sides.len() {
        if is_same(on, sides[i]) {
            count += 1;
        }
    }
    count
}

// Moves entries to a side until it has what it lacks.
#[tactic(auto, using(crate::proofs::Least::turn_more))]
fn fill_up(matrix: &Matrix, pair: Promoted, least: usize, step: Step, sides: &mut [Side])
    requires long { length sides.old ≡ size matrix.now }
    requires own { step.own < size matrix.now }
    ensures { sides.new ≡ filled_up matrix.now pair.a pair.b least step.own step.from step.to sides.old }
{
    let have = count_on(step.to, sides);
    for _turn in have..least {
        receive(matrix, pair, step, sides);
    }
}

// Returns the side of an entry by its distances to the promoted ones.
fn side_by_nearer(first: &[u64], second: &[u64], pair: Promoted, i: usize) -> Side
    requires first { i < length first.now }
    requires second { i < length second.now }
    ensures { result ≡ (if i == pair.a then Side.First
        else (if i == pair.b then Side.Second else (if nat_le (slice_index_or first.now i 0) (slice_index_or second.now i 0)
        then Side.First else Side.Second))) }
{
    if i == pair.a {
        Side::First
    } else if i == pair.b {
        Side::Second
    } else if first[i] <= second[i] {
        Side::First
    } else {
        Side::Second
    }
}

// Deals each entry to the nearer promoted one.
fn start_by_nearer(matrix: &Matrix, pair: Promoted, sides: &mut Vec<Side>) -> Result<(), AllocError>
    requires a { pair.a < size matrix.now }
    requires b { pair.b < size matrix.now }
    ensures sides { OnOk result (sides.new.items ≡ by_nearer matrix.now pair.a pair.b) }
    ensures long { OnOk result (length sides.new.items ≡ size matrix.now) }
{
    sides.clear();
    let first = matrix.row(pair.a);
    let second = matrix.row(pair.b);
    for i in 0..matrix.len() {
        sides.push(side_by_nearer(first, second, pair, i))?;
    }
    Ok(())
}

// Deals by the generalized hyperplane: each entry to the nearer promoted one, and then fills up groups that are too small.
fn by_hyperplane(
    matrix: &Matrix,
    pair: Promoted,
    least: usize,
    sides: &mut Vec<Side>,
) -> Result<(), AllocError>
    requires a { pair.a < size matrix.now }
    requires b { pair.b < size matrix.now }
    ensures sides { OnOk result (sides.new.items ≡ hyperplane matrix.now pair.a pair.b least) }
    ensures long { OnOk result (length sides.new.items ≡ size matrix.now) }
{
    start_by_nearer(matrix, pair, sides)?;
    let to_first = Step {
        own: pair.a,
        from: Side::Second,
        to: Side::First,
    };
    fill_up(matrix, pair, least, to_first, sides);
    let to_second = Step {
        own: pair.b,
        from: Side::First,
        to: Side::Second,
    };
    fill_up(matrix, pair, least, to_second, sides);
    Ok(())
}

// Deals the remaining entries to the groups in turn, beginning with the first.
fn deal(matrix: &Matrix, pair: Promoted, sides: &mut [Side])
    requires long { length sides.old ≡ size matrix.now }
    requires a { pair.a < size matrix.now }
    requires b { pair.b < size matrix.now }
    requires two { 2 ≤ size matrix.now }
    ensures { sides.new ≡ in_turn (size matrix.now - 2) (received matrix.now pair.a pair.b pair.a Side.Open Side.First)
        (received matrix.now pair.a pair.b pair.b Side.Open Side.Second) sides.old }
{
    let mut own = pair.a;
    let mut other = pair.b;
    let mut side = Side::First;
    let mut next = Side::Second;
    for _turn in 2..matrix.len() {
        let step = Step {
            own,
            from: Side::Open,
            to: side,
        };
        receive(matrix, pair, step, sides);
        std::mem::swap(&mut own, &mut other);
        std::mem::swap(&mut side, &mut next);
    }
}

// Returns the side of an entry before the groups take the others.
fn side_at_first(pair: Promoted, i: usize) -> Side
    ensures { result ≡ only_promoted pair.a pair.b i }
{
    if i == pair.a {
        Side::First
    } else if i == pair.b {
        Side::Second
    } else {
        Side::Open
    }
}

// Gives a group to the promoted entries alone.
fn start_open(pair: Promoted, count: usize, sides: &mut Vec<Side>) -> Result<(), AllocError>
    ensures sides { OnOk result (sides.new.items ≡ map (only_promoted pair.a pair.b) (range_with_len 0 count)) }
    ensures long { OnOk result (length sides.new.items ≡ count) }
{
    sides.clear();
    for i in 0..count {
        sides.push(side_at_first(pair, i))?;
    }
    Ok(())
}

// Deals by the balanced partition.
fn by_turns(matrix: &Matrix, pair: Promoted, sides: &mut Vec<Side>) -> Result<(), AllocError>
    requires a { pair.a < size matrix.now }
    requires b { pair.b < size matrix.now }
    requires two { 2 ≤ size matrix.now }
    ensures sides { OnOk result (sides.new.items ≡ balanced matrix.now pair.a pair.b) }
    ensures long { OnOk result (length sides.new.items ≡ size matrix.now) }
{
    start_open(pair, matrix.len(), sides)?;
    deal(matrix, pair, sides);
    Ok(())
}

/// Writes the group of each entry into `sides`, so that one buffer serves many pairs.
pub fn partition_into(
    matrix: &Matrix,
    pair: Promoted,
    split: u8,
    least: usize,
    sides: &mut Vec<Side>,
) -> Result<(), AllocError>
    requires a { pair.a < size matrix.now }
    requires b { pair.b < size matrix.now }
    requires two { 2 ≤ size matrix.now }
    ensures sides { OnOk result (sides.new.items ≡ partitioned matrix.now pair.a pair.b split least) }
    ensures long { OnOk result (length sides.new.items ≡ size matrix.now) }
{
    if split == 1 {
        by_hyperplane(matrix, pair, least, sides)
    } else {
        by_turns(matrix, pair, sides)
    }
}

// Appends the place of an entry that stands on the side.
fn keep_place(on: Side, sides: &[Side], i: usize, places: &mut Vec<usize>) -> Result<(), AllocError>
    requires { i < length sides.now }
    ensures { OnOk result (places.new.items ≡ (if is_on on (side_at sides.now i) then places.old.items ++ i ∷ [] else places.old.items)) }
{
    if is_same(on, sides[i]) {
        places.push(i)?;
    }
    Ok(())
}

// Returns the places of the entries on a side.
fn places_on(alloc: Global, on: Side, sides: &[Side]) -> Result<Vec<usize>, AllocError>
    ensures { IfOk result (λ places. places.items ≡ members on sides.now) }
{
    let mut places = Vec::with_capacity(alloc, sides.len())?;
    for i in 0..sides.len() {
        keep_place(on, sides, i, &mut places)?;
    }
    Ok(places)
}

/// Deals the entries of a node into two groups around the promoted entries `a` and `b`: by the generalized hyperplane
/// where `split` is 1, else balanced (VLDB 1997, section 4.2). Each group has at least `least` entries. Returns the places of
/// the two groups, each in ascending order.
pub fn partition(
    alloc: Global,
    matrix: &Matrix,
    a: usize,
    b: usize,
    split: u8,
    least: usize,
) -> Result<(Vec<usize>, Vec<usize>), AllocError>
    requires a { a < size matrix.now }
    requires b { b < size matrix.now }
    requires differ { a ≢ b }
    requires some { 1 ≤ least }
    requires room { 2 * least ≤ size matrix.now }
    ensures first { IfOk result (λ groups. groups.0.items ≡ members Side.First (partitioned matrix.now a b split least)) }
    ensures second { IfOk result (λ groups. groups.1.items ≡ members Side.Second (partitioned matrix.now a b split least)) }
    ensures enough { IfOk result (λ groups. (least ≤ length groups.0.items) × (least ≤ length groups.1.items)) }
{
    let mut sides = Vec::with_capacity(alloc, matrix.len())?;
    partition_into(matrix, Promoted { a, b }, split, least, &mut sides)?;
    let first = places_on(alloc, Side::First, &sides)?;
    let second = places_on(alloc, Side::Second, &sides)?;
    Ok((first, second))
}
