ghost use Rattle.std.proofs.Common.{rules};
ghost use Rattle.std.specs.Cmp.{partial_order_from_own_ties};
ghost use Rattle.std.specs.Cmp.Rules.{comparing};
ghost use Rattle.std.specs.Ordering.{nat_cmp, on, then_cmp, as_partial_cmp};

use std::cmp::Ordering;

/// An object and its distance from a query's point. Hits are ordered by distance, then by id.
#[derive(Clone, Copy, PartialEq, Eq)]
pub struct Hit {
    /// The object's place in the list, from 0.
    pub id: u32,
    /// Its distance, at most `BOUND`.
    pub dist: u64,
}

impl Ord for Hit {
    ghost cmp = { then_cmp (on (λ h. h.dist) nat_cmp) (on (λ h. h.id) nat_cmp) };

    ghost total = { Prim.search (comparing, rules) };

    ghost matches_partial_cmp = { Prim.search (comparing, rules) };

    ghost matches_eq = { Prim.search (comparing, rules) };

    fn cmp(&self, other: &Hit) -> Ordering {
        self.dist.cmp(&other.dist).then(self.id.cmp(&other.id))
    }
}

impl PartialOrd for Hit {
    ghost partial_cmp = { as_partial_cmp (then_cmp (on (λ h. h.dist) nat_cmp) (on (λ h. h.id) nat_cmp)) };

    ghost laws = { partial_order_from_own_ties (Prim.search (comparing, rules)) (Prim.search (comparing, rules)) };

    fn partial_cmp(&self, other: &Hit) -> Option<Ordering> {
        Some(self.cmp(other))
    }
}

/// An object of the left list, an object of the right list, and their distance.
#[derive(Clone, Copy, PartialEq, Eq)]
pub struct Pair {
    /// The place in the left list, from 0.
    pub left: u32,
    /// The place in the right list, from 0.
    pub right: u32,
    /// Their distance, at most `BOUND`.
    pub dist: u64,
}
