// The reason of a mark of a join, in words.
ghost use Rattle.std.specs.Prelude.{◌≡◌, ◌++◌, OnOk};
ghost use Rattle.job_show.specs.Reasons.{plus_radius};
ghost use Rattle.job_show_joins.specs.Reasons.{centre_text, item_radius, parent_text, reach_text, reason_text};

use fault_lines::push_numbered;
use job_show::{push_gap, push_sign, radius_or_zero};
use log_model::{Item, Mark};
use metric_laws::pair_test;
use std::alloc::AllocError;

/// What a distance of two items is compared with.
#[derive(Clone, Copy)]
pub struct PairReach {
    /// The radius that prunes.
    pub rho: u64,
    /// The covering radius of the entry. An object has none.
    pub own: Option<u64>,
    /// The covering radius of the other item. An object has none.
    pub other: Option<u64>,
}

/// Returns the covering radius of a subtree, or `None` for an object.
pub fn item_radius(item: &Item) -> Option<u64>
    ensures { result ≡ item_radius item.now }
{
    if item.is_object() {
        None
    } else {
        Some(item.radius())
    }
}

// Appends a covering radius behind a plus sign, where there is one.
fn push_plus(radius: Option<u64>, out: &mut Vec<u8>) -> Result<(), AllocError>
    ensures { OnOk result (out.new.items ≡ out.old.items ++ plus_radius radius) }
{
    match radius {
        None => Ok(()),
        Some(radius) => push_numbered(b" + ", radius, out),
    }
}

// Appends what a distance is compared with.
fn push_reach(reach: PairReach, out: &mut Vec<u8>) -> Result<(), AllocError>
    ensures { OnOk result (out.new.items ≡ out.old.items ++ reach_text reach) }
{
    push_numbered(b"", reach.rho, out)?;
    push_plus(reach.own, out)?;
    push_plus(reach.other, out)
}

// Appends the test by a computed distance after `word`. None is computed beside a root.
fn push_centre_test(
    word: &[u8],
    apart: Option<u64>,
    reach: PairReach,
    out: &mut Vec<u8>,
) -> Result<(), AllocError>
    ensures { OnOk result (out.new.items ≡ out.old.items ++ centre_text word.now apart reach) }
{
    out.extend_from_slice(word)?;
    match apart {
        None => Ok(()),
        Some(dist) => {
            let (own, other) = (radius_or_zero(reach.own), radius_or_zero(reach.other));
            push_numbered(b" ", dist, out)?;
            push_sign(pair_test(dist, reach.rho, own, other), out)?;
            push_reach(reach, out)
        }
    }
}

// Appends the parent test. There is none where the opened item or the other one is a root.
fn push_parent_test(
    above: Option<u64>,
    stored: u64,
    reach: PairReach,
    out: &mut Vec<u8>,
) -> Result<(), AllocError>
    ensures { OnOk result (out.new.items ≡ out.old.items ++ parent_text above stored reach) }
{
    match above {
        None => out.extend_from_slice(b"skip"),
        Some(above) => {
            let (own, other) = (radius_or_zero(reach.own), radius_or_zero(reach.other));
            out.extend_from_slice(b"skip ")?;
            push_gap(above, stored, out)?;
            push_sign(
                pair_test(above.abs_diff(stored), reach.rho, own, other),
                out,
            )?;
            push_reach(reach, out)
        }
    }
}

/// Appends the mark of an entry with the numbers of its test. `above` is the distance of the opened item from the other one, and
/// `stored` the entry's stored distance from the opened item. `apart` is the distance of the entry from the other item; no skipped
/// entry shows it.
pub fn push_pair_reason(
    above: Option<u64>,
    stored: u64,
    apart: Option<u64>,
    reach: PairReach,
    mark: Mark,
    out: &mut Vec<u8>,
) -> Result<(), AllocError>
    ensures { OnOk result (out.new.items ≡ out.old.items ++ reason_text above stored apart reach mark) }
{
    match mark {
        Mark::Skip => push_parent_test(above, stored, reach, out),
        Mark::Far => push_centre_test(b"far", apart, reach, out),
        Mark::Near => push_centre_test(b"near", apart, reach, out),
    }
}
