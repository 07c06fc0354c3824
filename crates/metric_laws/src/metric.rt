ghost use Rattle.std.specs.Prelude.{◌≡◌, ◌≤◌};
ghost use Rattle.metric_laws.specs.Space.{Space, IsSpace};

/// The greatest distance, 2^38. It holds the sum of 64 differences of 32 bits.
pub const BOUND: u64 = 1 << 38;

/// A metric: which lists of coordinates are points, and how far two of them are apart.
pub trait Metric: Copy + Send + Sync {
    /// The space that is measured.
    ghost space: { Self → Space };

    /// The axioms of a metric space (VLDB 1997, section 2), which each metric proves.
    ghost axioms: { (m : Self) → IsSpace (space m) };

    /// Returns the number of coordinates of a point, 1 to 64.
    fn dimension(&self) -> usize
        ensures { result ≡ (space self.now).dimension };

    /// Returns whether `p` is a point of the space.
    fn is_point(&self, p: &[u32]) -> bool
        ensures { result ≡ (space self.now).is_point p.now };

    /// Returns the distance of `a` and `b`. Of lists that are not points it promises the bound alone.
    fn dist(&self, a: &[u32], b: &[u32]) -> u64
        ensures value { result ≡ (space self.now).dist a.now b.now }
        ensures bounded { result ≤ BOUND };
}
