//! Sets of numbers in ascending order.

ghost use Rattle.std.specs.Prelude.{◌≡◌, ◌==◌, ◌-◌, ◌^◌, min, fold};
ghost use Rattle.std.specs.List.{list_all};
ghost use Rattle.metric_laws.specs.Pruning.{gap};
ghost use Rattle.metric_mix.specs.Sets.{is_spelled, farthest};

/// Returns whether all of the numbers are `x`.
fn all_are(x: u32, rest: &[u32]) -> bool
    ensures { result ≡ list_all (λ y. y == x) rest.now }
{
    rest.iter().all(|y| *y == x)
}

/// Returns whether the list spells a set.
pub fn is_spelled(p: &[u32]) -> bool
    ensures { result ≡ is_spelled p.now }
{
    let Some(last) = p.len().checked_sub(1) else {
        return false;
    };
    for i in 0..last {
        if p[i] >= p[i + 1] {
            return all_are(p[i], &p[i + 1..]);
        }
    }
    true
}

/// Returns the distance of `x` from the nearest number of the list, or the greatest `u32` where the list is empty.
fn nearest(x: u32, b: &[u32]) -> u32
    ensures { result ≡ fold (λ least y. min least (gap x y)) (2 ^ 32 - 1) b.now }
{
    b.iter()
        .fold(u32::MAX, |least, y| least.min(x.abs_diff(*y)))
}

/// Returns the greatest distance of a number of the first list from the nearest number of the second.
pub fn farthest(a: &[u32], b: &[u32]) -> u32
    ensures { result ≡ farthest a.now b.now }
{
    let mut most = 0;
    for x in a {
        most = most.max(nearest(*x, b));
    }
    most
}
