ghost use Rattle.std.specs.Prelude.{◌≡◌, All, length, IsTrue, IfOk};
ghost use Rattle.vector_kinds.specs.Vectors.{vector_space};

use crate::words::holds;
use metric_laws::Rows;
use scan_model::{Pair, scan_join};
use std::alloc::{AllocError, Global};
use std::process::Abort;
use vector_kinds::L1;

// Makes three numbers into points of one coordinate.
fn rows_of(alloc: Global, numbers: [u32; 3]) -> Result<Rows, AllocError>
    ensures points { IfOk result (λ rows. length rows.points ≡ 3) }
    ensures fit { IfOk result (λ rows. All (λ p. IsTrue ((vector_space 2 1).is_point p)) rows.points) }
{
    let [a, b, c] = numbers;
    let mut rows = Rows::new(alloc, 1);
    rows.push(&[a])?;
    rows.push(&[b])?;
    rows.push(&[c])?;
    Ok(rows)
}

// Joins 0, 5 and 9 with 9, 4 and 6 within 1.
fn pairs_of(rt: &(impl AllocGlobal + Abort)) -> Vec<Pair> {
    let left = rows_of(rt.alloc(), [0, 5, 9]).expect(rt, "memory");
    let right = rows_of(rt.alloc(), [9, 4, 6]).expect(rt, "memory");
    scan_join(rt.alloc(), &L1::new(1), &left, &right, 1).expect(rt, "memory")
}

// Lists the pairs within 1, by the left number and then by the right one.
const WITHIN: [Pair; 3] = [
    Pair {
        left: 1,
        right: 1,
        dist: 1,
    },
    Pair {
        left: 1,
        right: 2,
        dist: 1,
    },
    Pair {
        left: 2,
        right: 0,
        dist: 0,
    },
];

#[test]
fn the_pairs_of_a_double_loop(rt: HostRuntime) {
    let pairs = pairs_of(&rt);
    holds(&rt, pairs.as_slice() == WITHIN.as_slice());
}
