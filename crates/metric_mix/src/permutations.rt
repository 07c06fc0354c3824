//! Tests of one list and counts over two.

ghost use Rattle.std.specs.Prelude.{◌≡◌, ◌≤◌, ◌<◌, ◌+◌, drop, length, slice_index, count_by};
ghost use Rattle.std.specs.List.{zip};
ghost use Rattle.metric_mix.specs.Permutations.{holds_below, pairs_of, is_discordant};

/// Returns whether each number below `n` is in the list.
pub fn hold_below(p: &[u32], n: u8) -> bool
    ensures { result ≡ holds_below n p.now }
{
    for k in 0..n {
        if !p.contains(&u32::from(k)) {
            return false;
        }
    }
    true
}

/// Returns the number of places after `i` that the lists order differently relative to place `i`.
fn discordant_after(i: usize, a: &[u32], b: &[u32]) -> u64
    requires a { i < length a.now }
    requires b { i < length b.now }
    ensures value { result ≡ count_by (λ q. is_discordant ((slice_index a.now i, slice_index b.now i), q))
        (zip (drop (i + 1) a.now) (drop (i + 1) b.now)) }
    ensures few { result ≤ length a.now }
{
    let (x, y) = (a[i], b[i]);
    let mut count = 0u64;
    for j in i + 1..a.len().min(b.len()) {
        if (x < a[j]) != (y < b[j]) {
            count += 1;
        }
    }
    count
}

/// Returns the number of pairs of places that the lists order differently.
pub fn discordant(a: &[u32], b: &[u32]) -> u64
    requires { length a.now ≤ 64 }
    ensures value { result ≡ count_by is_discordant (pairs_of (zip a.now b.now)) }
    ensures few { result ≤ 4096 }
{
    let mut count = 0;
    for i in 0..a.len().min(b.len()) {
        count += discordant_after(i, a, b);
    }
    count
}
