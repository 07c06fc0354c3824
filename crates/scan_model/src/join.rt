ghost use Rattle.std.specs.Prelude.{◌≡◌, ◌<◌, ◌^◌, ◌++◌, length, filter, IsTrue, IfOk, OnOk, All};
ghost use Rattle.scan_model.specs.Join.{join_pairs, pairs_from, is_close};

use crate::Pair;
use metric_laws::{Metric, Rows};
use std::alloc::{AllocError, Global};

// Adds the pairs of one left object with every right object within `r` of it.
fn push_pairs<M: Metric>(
    m: &M,
    left: u32,
    p: &[u32],
    rows: &Rows,
    r: u64,
    pairs: &mut Vec<Pair>,
) -> Result<(), AllocError>
    requires { length rows.now.points < 2 ^ 32 }
    ensures { OnOk result (pairs.new.items ≡ pairs.old.items
        ++ filter (is_close r) (pairs_from (M.space m.now) left p.now 0 rows.now.points)) }
{
    for right in 0..rows.len() {
        let dist = m.dist(p, rows.point(right));
        if dist <= r {
            pairs.push(Pair {
                left,
                right: right as u32,
                dist,
            })?;
        }
    }
    Ok(())
}

/// Returns every pair of a left and a right object within `r` of each other, by the left id, then by the right.
pub fn scan_join<M: Metric>(
    alloc: Global,
    m: &M,
    left: &Rows,
    right: &Rows,
    r: u64,
) -> Result<Vec<Pair>, AllocError>
    requires few_left { length left.now.points < 2 ^ 32 }
    requires few_right { length right.now.points < 2 ^ 32 }
    requires left_points { All (λ p. IsTrue ((M.space m.now).is_point p)) left.now.points }
    requires right_points { All (λ p. IsTrue ((M.space m.now).is_point p)) right.now.points }
    ensures { IfOk result (λ pairs. pairs.items ≡ join_pairs (M.space m.now) left.now.points right.now.points r) }
{
    let mut pairs = Vec::new(alloc);
    for i in 0..left.len() {
        push_pairs(m, i as u32, left.point(i), right, r, &mut pairs)?;
    }
    Ok(pairs)
}
