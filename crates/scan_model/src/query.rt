use metric_laws::Point;

/// A query on a list of points.
#[derive(Drop)]
pub enum Query {
    /// Every object within the radius `r` of `q`.
    Range { q: Point, r: u64 },

    /// The `k` objects nearest to `q`.
    Nearest { q: Point, k: u64 },
}
