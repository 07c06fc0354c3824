//! The pairs of a join: which item of a pair is opened, and how the entries of its node are tested against the other item.

ghost use Rattle.std.specs.Prelude.{◌≡◌, ◌+◌};
ghost use Rattle.log_model.specs.JoinWalk.{opens_right, opened, other, far_apart, far_stored};
ghost use Rattle.log_model.specs.SoundJoin.{root_pair};

use crate::{Item, JoinNeed};
use metric_laws::pair_test;
use tree_shape::Live;

impl JoinNeed {
    /// Returns the pair of the roots of two trees, with which a walk begins.
    pub fn of_roots(left: &Live, right: &Live) -> Self
        ensures { result ≡ root_pair left.now right.now }
    {
        JoinNeed {
            left: Item::of_root(left),
            right: Item::of_root(right),
            apart: None,
        }
    }

    /// Returns whether the right item is opened: the item of greater rank is, and the left one at a tie.
    pub fn opens_right(&self) -> bool
        ensures { result ≡ opens_right self.now }
    {
        self.left.rank() < self.right.rank()
    }

    /// Returns the item that is opened.
    pub fn opened(&self) -> &Item
        ensures { result.now ≡ opened self.now }
    {
        if self.opens_right() {
            &self.right
        } else {
            &self.left
        }
    }

    /// Returns the item that is not opened.
    pub fn other(&self) -> &Item
        ensures { result.now ≡ other self.now }
    {
        if self.opens_right() {
            &self.left
        } else {
            &self.right
        }
    }
}

/// Returns whether the pair test rules out an entry and the other item. `ra` and `rb` are their radii, and `apart` is the distance
/// of their centres. With no distance, as beside a root, the test rules nothing out.
pub fn is_far(apart: Option<u64>, rho: u64, ra: u64, rb: u64) -> bool
    ensures { result ≡ far_apart apart rho ra rb }
{
    match apart {
        None => false,
        Some(dist) => pair_test(dist, rho, ra, rb),
    }
}

/// Returns whether the parent test (VLDB 1997, section 3.2) rules out an entry and the other item. `ra` and `rb` are their radii,
/// `apart` is the distance between the centres of the opened item and the other item, and `stored` is the entry's parent distance.
/// With no distance, as beside a root, the test rules nothing out.
pub fn is_skipped(apart: Option<u64>, stored: u64, rho: u64, ra: u64, rb: u64) -> bool
    ensures { result ≡ far_stored apart stored rho (ra + rb) }
{
    match apart {
        None => false,
        Some(dist) => pair_test(dist.abs_diff(stored), rho, ra, rb),
    }
}
