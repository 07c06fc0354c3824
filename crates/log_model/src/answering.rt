//! Makes answers of the hits and pairs that a walk names.

ghost use Rattle.std.specs.Prelude.{◌≡◌};
ghost use Rattle.log_model.specs.InOrder.{in_order, hit_before, pair_before};
ghost use Rattle.log_model.specs.Sound.{pruning_radius, selected};

use metric_laws::BOUND;
use scan_model::{Hit, Pair, Query};

/// Puts the hits in order of distance and id, and keeps one of equal hits.
pub fn put_hits_in_order(hits: &mut Vec<Hit>)
    ensures { hits.new.items ≡ in_order hit_before hits.old.items }
{
    hits.sort_unstable();
    hits.dedup();
}

/// Puts the pairs in order of left id, right id and distance, and keeps one of equal pairs.
pub fn put_pairs_in_order(pairs: &mut Vec<Pair>)
    ensures { pairs.new.items ≡ in_order pair_before pairs.old.items }
{
    pairs.sort_unstable_by_key(|pair| (pair.left, pair.right, pair.dist));
    pairs.dedup();
}

/// Turns the hits that a walk named into answers: all in order for a range query, the first `k` of them for a k-NN query.
pub fn select(query: &Query, hits: &mut Vec<Hit>)
    ensures { hits.new.items ≡ selected query.now hits.old.items }
{
    put_hits_in_order(hits);
    if let Query::Nearest { k, .. } = query {
        if *k < hits.len() as u64 {
            hits.truncate(*k as usize);
        }
    }
}

/// Returns the radius that prunes, by the query and its answers. For a range query it is the radius, at most `BOUND`. For a k-NN
/// query it is the distance of the `k`-th answer, at most `BOUND`, and `BOUND` where there are fewer than `k` answers.
pub fn radius_of(query: &Query, answers: &[Hit]) -> u64
    ensures { result ≡ pruning_radius query.now answers.now }
{
    match query {
        Query::Range { r, .. } => (*r).min(BOUND),
        Query::Nearest { k, .. } => {
            if answers.len() as u64 == *k {
                answers.last().map_or(BOUND, |hit| hit.dist.min(BOUND))
            } else {
                BOUND
            }
        }
    }
}
