//! Tests of one list, and passes over two lists, as far as both go.

ghost use Rattle.std.specs.Prelude.{◌≡◌, ◌==◌, ◌≤◌, ◌+◌, ◌-◌, ◌^◌, not, length, min, max, fold, count_by, sum_by, IfSome};
ghost use Rattle.std.specs.List.{zip};
ghost use Rattle.metric_laws.specs.Pruning.{gap};
ghost use Rattle.vector_kinds.specs.Vectors.{is_vector};

/// The longest lists whose differences are counted and added in 32 bits: no point has more coordinates.
pub const LONGEST: usize = 64;

/// The least number of more than 26 bits: 64 smaller ones have a sum of 32 bits.
const WIDE: u32 = 1 << 26;

/// Returns whether `p` has `dim` places.
pub fn has_places(p: &[u32], dim: u8) -> bool
    ensures { result ≡ is_vector dim p.now }
{
    p.len() == usize::from(dim)
}

/// Counts the places that differ.
#[tactic(auto, using(crate::proofs::Pairs::sum_more))]
pub fn count(a: &[u32], b: &[u32]) -> u32
    requires { length a.now ≤ 64 }
    ensures { result ≡ count_by (λ p. not (p.0 == p.1)) (zip a.now b.now) }
{
    // A loop and not a chain, and a count of 32 bits, since LLVM makes it wide.
    let mut differing = 0u32;
    for i in 0..a.len().min(b.len()) {
        if a[i] != b[i] {
            differing += 1;
        }
    }
    differing
}

/// Counts the places that differ, of lists of any length.
pub fn long_count(a: &[u32], b: &[u32]) -> u64
    ensures { result ≡ count_by (λ p. not (p.0 == p.1)) (zip a.now b.now) }
{
    a.iter().zip(b).filter(|(x, y)| x != y).count() as u64
}

// Adds the differences in 64 bits.
#[tactic(auto, using(crate::proofs::Pairs::sum_more))]
#[inline(always)]
fn plain_sum(a: &[u32], b: &[u32]) -> u64
    requires { length a.now ≤ 64 }
    ensures { result ≡ sum_by (λ p. gap p.0 p.1) (zip a.now b.now) }
{
    let mut sum = 0u64;
    for i in 0..a.len().min(b.len()) {
        sum += u64::from(a[i].abs_diff(b[i]));
    }
    sum
}

// Adds the differences in 32 bits, unless one of them has more than 26 bits.
#[tactic(auto, using(crate::proofs::Pairs::sum_more))]
#[inline(always)]
fn narrow_sum(a: &[u32], b: &[u32]) -> Option<u64>
    requires { length a.now ≤ 64 }
    ensures { IfSome result (λ sum. sum ≡ sum_by (λ p. gap p.0 p.1) (zip a.now b.now)) }
{
    // A loop as in `count`. No test stands in it: the bits that any difference has tell in the end whether the sum is right.
    let mut sum = 0u32;
    let mut bits = 0u32;
    for i in 0..a.len().min(b.len()) {
        let difference = a[i].abs_diff(b[i]);
        sum = sum.wrapping_add(difference);
        bits |= difference;
    }
    if bits < WIDE {
        Some(u64::from(sum))
    } else {
        None
    }
}

// Adds the differences of two lists of 8 numbers. The compiler knows the length, and writes no loop: so 64 bits cost less than a test.
#[inline(always)]
fn sum_of_eight(a: &[u32], b: &[u32]) -> Option<u64>
    ensures { IfSome result (λ sum. sum ≡ sum_by (λ p. gap p.0 p.1) (zip a.now b.now)) }
{
    let Ok(a) = <&[u32; 8]>::try_from(a) else {
        return None;
    };
    let Ok(b) = <&[u32; 8]>::try_from(b) else {
        return None;
    };
    Some(plain_sum(a, b))
}

// Does as `narrow_sum` for two lists of `N` numbers. The compiler knows the length, and writes no loop.
#[inline(always)]
fn narrow_sum_of<const N: usize>(a: &[u32], b: &[u32]) -> Option<u64>
    requires { N ≤ 64 }
    ensures { IfSome result (λ sum. sum ≡ sum_by (λ p. gap p.0 p.1) (zip a.now b.now)) }
{
    let Ok(a) = <&[u32; N]>::try_from(a) else {
        return None;
    };
    let Ok(b) = <&[u32; N]>::try_from(b) else {
        return None;
    };
    narrow_sum(a, b)
}

// Adds the differences in two sums of 32 bits, of the halves of each difference.
#[tactic(auto, using(crate::proofs::Pairs::sum_more))]
fn wide_sum(a: &[u32], b: &[u32]) -> u64
    requires { length a.now ≤ 64 }
    ensures { result ≡ sum_by (λ p. gap p.0 p.1) (zip a.now b.now) }
{
    // A loop as in `count`: two sums of 32 bits are wider than one of 64.
    let mut low = 0u32;
    let mut high = 0u32;
    for i in 0..a.len().min(b.len()) {
        let difference = a[i].abs_diff(b[i]);
        low += difference % 65_536;
        high += difference / 65_536;
    }
    u64::from(high) * 65_536 + u64::from(low)
}

// Adds the differences of lists of 32 or 64 numbers in 32 bits where that is right. It stands apart, so that `sum` needs no registers
// beside those of its loop.
#[inline(never)]
fn sum_of_many(a: &[u32], b: &[u32]) -> u64
    requires { length a.now ≤ 64 }
    ensures { result ≡ sum_by (λ p. gap p.0 p.1) (zip a.now b.now) }
{
    let sum = match a.len() {
        32 => narrow_sum_of::<32>(a, b),
        64 => narrow_sum_of::<64>(a, b),
        _ => None,
    };
    match sum {
        Some(sum) => sum,
        None => wide_sum(a, b),
    }
}

/// Adds the differences.
// It is in a distance by L1, so that the arguments stay where they came.
#[inline(always)]
pub fn sum(a: &[u32], b: &[u32]) -> u64
    requires { length a.now ≤ 64 }
    ensures { result ≡ sum_by (λ p. gap p.0 p.1) (zip a.now b.now) }
{
    if a.len() == 8
        && let Some(sum) = sum_of_eight(a, b)
    {
        return sum;
    }
    if a.len() % 32 == 0 {
        return sum_of_many(a, b);
    }
    wide_sum(a, b)
}

/// Adds the differences, of lists of any length, up to the greatest `u64`.
pub fn saturating_sum(a: &[u32], b: &[u32]) -> u64
    ensures { result ≡ fold (λ total p. min (total + gap p.0 p.1) (2 ^ 64 - 1)) 0 (zip a.now b.now) }
{
    a.iter().zip(b).fold(0u64, |total, (x, y)| {
        total.saturating_add(u64::from(x.abs_diff(*y)))
    })
}

/// Returns the greatest difference, 0 for empty lists.
pub fn greatest(a: &[u32], b: &[u32]) -> u32
    ensures { result ≡ fold (λ most p. max most (gap p.0 p.1)) 0 (zip a.now b.now) }
{
    a.iter()
        .zip(b)
        .fold(0u32, |most, (x, y)| most.max(x.abs_diff(*y)))
}
