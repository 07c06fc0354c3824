ghost use Rattle.std.specs.Prelude.{◌≡◌, ◌<◌, ◌^◌, length, take, filter, IsTrue, IfOk, All};
ghost use Rattle.scan_model.specs.Hits.{hit_cmp};
ghost use Rattle.scan_model.specs.Ordered.{ordered};
ghost use Rattle.scan_model.specs.Scan.{range_hits, nearest_hits, hits_from, is_within};

use crate::Hit;
use metric_laws::{BOUND, Metric, Rows};
use std::alloc::{AllocError, Global};

// Returns every object within `r` of `q`, by id.
fn hits_within<M: Metric>(
    alloc: Global,
    m: &M,
    rows: &Rows,
    q: &[u32],
    r: u64,
) -> Result<Vec<Hit>, AllocError>
    requires { length rows.now.points < 2 ^ 32 }
    ensures { IfOk result (λ hits. hits.items ≡ filter (is_within r) (hits_from (M.space m.now) q.now 0 rows.now.points)) }
{
    let mut hits = Vec::new(alloc);
    for id in 0..rows.len() {
        let dist = m.dist(rows.point(id), q);
        if dist <= r {
            hits.push(Hit {
                id: id as u32,
                dist,
            })?;
        }
    }
    Ok(hits)
}

fn copy_of(alloc: Global, hits: &[Hit]) -> Result<Vec<Hit>, AllocError>
    ensures { IfOk result (λ copy. copy.items ≡ hits.now) }
{
    hits.iter().copied().collect(alloc)
}

// Returns the first `k` hits by distance and id, in order. They are selected first, so that no others are sorted.
fn first_in_order(alloc: Global, hits: &mut [Hit], k: usize) -> Result<Vec<Hit>, AllocError>
    requires { k < length hits.old }
    ensures { IfOk result (λ first. first.items ≡ take k (ordered hit_cmp hits.old)) }
{
    let (first, _, _) = hits.select_nth_unstable(k);
    first.sort_unstable();
    copy_of(alloc, first)
}

/// Returns every object within `r` of `q`, by distance, then by id.
pub fn scan_range<M: Metric>(
    alloc: Global,
    m: &M,
    rows: &Rows,
    q: &[u32],
    r: u64,
) -> Result<Vec<Hit>, AllocError>
    requires few { length rows.now.points < 2 ^ 32 }
    requires points { All (λ p. IsTrue ((M.space m.now).is_point p)) rows.now.points }
    requires query { IsTrue ((M.space m.now).is_point q.now) }
    ensures { IfOk result (λ hits. hits.items ≡ range_hits (M.space m.now) rows.now.points q.now r) }
{
    let mut hits = hits_within(alloc, m, rows, q, r)?;
    hits.sort_unstable();
    Ok(hits)
}

/// Returns the `k` objects nearest to `q`, by distance, then by id; all of them where there are fewer.
pub fn scan_nearest<M: Metric>(
    alloc: Global,
    m: &M,
    rows: &Rows,
    q: &[u32],
    k: u64,
) -> Result<Vec<Hit>, AllocError>
    requires few { length rows.now.points < 2 ^ 32 }
    requires points { All (λ p. IsTrue ((M.space m.now).is_point p)) rows.now.points }
    requires query { IsTrue ((M.space m.now).is_point q.now) }
    ensures { IfOk result (λ hits. hits.items ≡ nearest_hits (M.space m.now) rows.now.points q.now k) }
{
    let mut hits = hits_within(alloc, m, rows, q, BOUND)?;
    if k < hits.len() as u64 {
        return first_in_order(alloc, &mut hits, k as usize);
    }
    hits.sort_unstable();
    Ok(hits)
}
