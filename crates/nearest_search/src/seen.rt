//! What a search keeps of the entries whose distances it computed.

ghost use Rattle.std.specs.Prelude.{◌≡◌};
ghost use Rattle.nearest_search.specs.Seeing.{skip_of, mark_at, is_near};

use log_model::Mark;

/// What is known of an entry whose distance was computed. It gives the entry's mark at each radius. An entry that the parent test
/// ruled out has none: it is marked Skip at each radius up to that of the search at the time.
#[derive(Clone, Copy)]
pub struct Sight {
    /// The entry's place in its node.
    pub place: u32,
    /// The object's id, or the child's page.
    pub name: u32,
    /// No object of the entry is nearer, by the distances to the routing point above.
    pub skip: u64,
    /// No object of the entry is nearer, by the entry's own distance.
    pub far: u64,
    /// The entry's distance.
    pub dist: u64,
    /// The object's tag, and 0 for a subtree.
    pub tag: u64,
}

/// What is known of an opened node: the number of its entries, and the sights of those whose distances were computed, in the node's
/// order.
#[derive(Clone, Copy)]
pub enum Sheet<'a> {
    /// A leaf, and sights of its objects.
    Objects { count: usize, sights: &'a [Sight] },
    /// An inner node, and sights of its subtrees.
    Subtrees { count: usize, sights: &'a [Sight] },
}

impl Sight {
    /// Returns the least mark of the entry at the radius `rho`.
    pub fn mark(&self, rho: u64) -> Mark
        ensures { result ≡ mark_at rho self.now }
    {
        if rho < self.skip {
            return Mark::Skip;
        }
        if rho < self.far {
            return Mark::Far;
        }
        Mark::Near
    }

    /// Returns whether the entry is marked Near at the radius `rho`.
    pub fn is_near(&self, rho: u64) -> bool
        ensures { result ≡ is_near (mark_at rho self.now) }
    {
        is_near(self.mark(rho))
    }
}

/// Returns whether a mark is Near.
pub fn is_near(mark: Mark) -> bool
    ensures { result ≡ is_near mark }
{
    match mark {
        Mark::Near => true,
        Mark::Skip | Mark::Far => false,
    }
}

/// Returns the radius below which the parent test rules an entry out (VLDB 1997, section 3.2): no object of the entry is nearer. It is
/// 0 where no routing point stands above.
pub fn skip_of(above: Option<u64>, stored: u64, radius: u64) -> u64
    ensures { result ≡ skip_of above stored radius }
{
    match above {
        None => 0,
        Some(dist) => dist.abs_diff(stored).saturating_sub(radius),
    }
}
