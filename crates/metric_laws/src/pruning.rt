ghost use Rattle.std.specs.Prelude.{◌≡◌, ◌≤◌, ◌+◌, ◌<◌, ◌^◌};
ghost use Rattle.metric_laws.specs.Pruning.{centre_rules_out, parent_rules_out, pair_rules_out, capped};

use crate::BOUND;

/// The centre test: no point within `radius` of a centre lies within `r` of a query that is `d` from the centre
/// (VLDB 1997, section 3.2).
pub fn centre_test(d: u64, r: u64, radius: u64) -> bool
    ensures { result ≡ centre_rules_out d r radius }
{
    d > r.saturating_add(radius)
}

/// The parent test: what the centre test would say, known from the distances `dp` of the query and `stored` of
/// the centre to one routing point, with no distance computed (VLDB 1997, section 3.2).
pub fn parent_test(dp: u64, stored: u64, r: u64, radius: u64) -> bool
    ensures { result ≡ parent_rules_out dp stored r radius }
{
    dp.abs_diff(stored) > r.saturating_add(radius)
}

/// The pair test: no point within `ra` of one centre lies within `r` of a point within `rb` of another that is
/// `d` from the first.
pub fn pair_test(d: u64, r: u64, ra: u64, rb: u64) -> bool
    ensures { result ≡ pair_rules_out d r ra rb }
{
    d > r.saturating_add(ra).saturating_add(rb)
}

/// Returns the sum of two distances, at most the greatest distance.
pub fn cap(a: u64, b: u64) -> u64
    requires { a + b < 2 ^ 64 }
    ensures { result ≡ capped a b }
{
    (a + b).min(BOUND)
}
