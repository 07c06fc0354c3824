//! Tests the entries of an opened node against the other item, and collects the pairs that they make.

ghost use Rattle.std.specs.Prelude.{◌≡◌, ◌<◌, true, false, IfOk, OnOk};
ghost use Rattle.std.specs.Option.{option_copied};
ghost use Rattle.metric_laws.specs.Counts.{CountsUpTo};
ghost use Rattle.log_model.specs.Counts.{entry_count};
ghost use Rattle.log_model.specs.Items.{Item as TheItem, item_at};
ghost use Rattle.log_model.specs.JoinWalk.{centre_of, id_of, is_object, opens_right, other, pair_of, radius_of};
ghost use Rattle.log_model.specs.JoinSteps.{apart_from, paired};

use crate::{Item, JoinNeed};
use metric_laws::Ruler;
use scan_model::Pair;
use std::alloc::{AllocError, Global};
use tree_shape::{Node, Shared};

/// What the tests of an opened node's entries need.
#[derive(Clone, Copy)]
pub struct JoinProbe<'a> {
    /// The allocator for the lists that are made.
    pub alloc: Global,
    /// The pair whose item of greater rank is opened.
    pub need: &'a JoinNeed,
    /// The opened node.
    pub node: &'a Shared<Node>,
    /// The radius that prunes.
    pub rho: u64,
    /// Whether the right item is opened.
    pub right: bool,
    /// The centre of the other item. A root has none.
    pub centre: Option<&'a [u32]>,
    /// The covering radius of the other item.
    pub reach: u64,
    ghost opens: { right ≡ opens_right need.now },
    ghost centred: { option_copied centre ≡ centre_of (other need.now) },
    ghost reaches: { reach ≡ radius_of (other need.now) },
}

impl<'a> JoinProbe<'a> {
    /// Makes the probe for the node of the item that the pair opens.
    pub fn new(alloc: Global, need: &'a JoinNeed, node: &'a Shared<Node>, rho: u64) -> Self
        ensures need { result.need.now ≡ need.now }
        ensures node { result.node.now ≡ node.now }
        ensures rho { result.rho ≡ rho }
    {
        let other = need.other();
        JoinProbe {
            alloc,
            need,
            node,
            rho,
            right: need.opens_right(),
            centre: other.centre(),
            reach: other.radius(),
        }
    }

    /// Returns the item that is not opened.
    #[inline]
    pub fn other(&self) -> &'a Item
        ensures { result.now ≡ other self.now.need.now }
    {
        if self.right {
            &self.need.left
        } else {
            &self.need.right
        }
    }

    /// Returns the distance of an entry's point from the other item. Returns none where the other item is a root, which has no
    /// centre; then no distance is computed.
    pub fn apart_from<R: Ruler>(&self, ruler: &mut R, point: &[u32]) -> Option<u64>
        ensures metric { R.metric ruler.new ≡ R.metric ruler.old }
        ensures value { result ≡ apart_from (R.M.space (R.metric ruler.old)) self.now.need.now point.now }
        ensures counted { CountsUpTo (R.used ruler.old) (R.used ruler.new) 1 }
    {
        match self.centre {
            None => None,
            Some(centre) if self.right => Some(ruler.dist(centre, point)),
            Some(centre) => Some(ruler.dist(point, centre)),
        }
    }

    /// Returns the pair of `item`, in the place of the opened item, with the other item. `apart` is their distance.
    pub fn with(&self, item: Item, apart: Option<u64>) -> Result<JoinNeed, AllocError>
        ensures { IfOk result (λ pair. pair ≡ paired self.now.need.now item apart) }
    {
        let other = self.other().share()?;
        Ok(if self.right {
            JoinNeed {
                left: other,
                right: item,
                apart,
            }
        } else {
            JoinNeed {
                left: item,
                right: other,
                apart,
            }
        })
    }

    // Returns the answer of the object `id`, in the place of the opened item, with the other item. `apart` is their distance.
    fn answer(&self, id: u32, apart: Option<u64>) -> Pair
        ensures { (item : TheItem) → id_of item ≡ id → result ≡ pair_of (paired self.now.need.now item apart) }
    {
        let dist = apart.unwrap_or(0);
        let other = self.other().id();
        if self.right {
            Pair {
                left: other,
                right: id,
                dist,
            }
        } else {
            Pair {
                left: id,
                right: other,
                dist,
            }
        }
    }
}

/// The pairs that entries of opened nodes make with the other item.
#[derive(Drop)]
pub struct Matches {
    /// The pairs of two objects, which are answers.
    pub hits: Vec<Pair>,
    /// The other pairs, which are needed, in order.
    pub needs: Vec<JoinNeed>,
}

impl Matches {
    ghost use Rattle.log_model.specs.Matches.{AddsPair};

    /// Adds the pair of the opened leaf's object `index`, whose id is `id`, with the other item, at the distance `apart`. Where the
    /// other item is an object too, the pair is an answer, and no item is made for it. Otherwise the pair is needed.
    // It stands apart from the loops over entries, as `add_subtree` does: few entries have a pair.
    #[inline(never)]
    pub fn add_object(
        &mut self,
        probe: &JoinProbe,
        index: usize,
        id: u32,
        apart: Option<u64>,
    ) -> Result<(), AllocError>
        requires within { index < entry_count probe.now.node.now }
        requires object { is_object (item_at probe.now.node.now index) ≡ true }
        requires id { id_of (item_at probe.now.node.now index) ≡ id }
        ensures { OnOk result (AddsPair (paired probe.now.need.now (item_at probe.now.node.now index) apart) self.old self.new) }
    {
        if probe.other().is_object() {
            self.hits.push(probe.answer(id, apart))?;
            return Ok(());
        }
        let item = Item::of_entry(probe.node, index)?;
        self.needs.push(probe.with(item, apart)?)?;
        Ok(())
    }

    /// Adds the pair of the opened inner node's subtree `index` with the other item, at the distance `apart` of its centre. The pair
    /// is needed.
    #[inline(never)]
    pub fn add_subtree(
        &mut self,
        probe: &JoinProbe,
        index: usize,
        apart: Option<u64>,
    ) -> Result<(), AllocError>
        requires within { index < entry_count probe.now.node.now }
        requires subtree { is_object (item_at probe.now.node.now index) ≡ false }
        ensures { OnOk result (AddsPair (paired probe.now.need.now (item_at probe.now.node.now index) apart) self.old self.new) }
    {
        let item = Item::of_entry(probe.node, index)?;
        self.needs.push(probe.with(item, apart)?)?;
        Ok(())
    }
}
