// The line of an entry beside another item, and the test of its mark.
ghost use Rattle.std.specs.Prelude.{◌≡◌, ◌++◌, ◌+◌, ◌<◌, ◌^◌, true, false, [], ◌∷◌, OnOk, IfOk};
ghost use Rattle.tree_shape.specs.Entries.{inner_of, leaf_of};
ghost use Rattle.log_model.specs.declared.marks.Mark.TheVariants.{Skip, Near};
ghost use Rattle.log_model.specs.Counts.{entry_count};
ghost use Rattle.log_model.specs.Items.{item_at};
ghost use Rattle.log_model.specs.Walk.{near_ones};
ghost use Rattle.log_model.specs.JoinWalk.{allows_entry, id_of, is_object, object_entry, subtree_entry, with_entry, within_apart};
ghost use Rattle.log_model.specs.JoinSteps.{apart_from, needs_among, paired};
ghost use Rattle.job_show.specs.Steps.{space_in};
ghost use Rattle.job_show_joins.specs.Walks.{pair_entry_line};
ghost use Rattle.job_show_joins.specs.Steps.{search_by};

use crate::reasons::{item_radius, push_pair_reason};
use crate::{PairComing, PairReach};
use job_show::push_place;
use log_model::{JoinProbe, Mark, Matches, is_far, is_skipped};
use metric_laws::Meter;
use metric_mix::MixSpace;
use page_store::SharedNode;
use std::alloc::{AllocError, Global};
use tree_shape::{InnerRef, LeafRef};

// What a walk searches by.
#[derive(Clone, Copy)]
pub struct PairSearch {
    // The allocator for what is collected.
    pub alloc: Global,
    // The space of both trees.
    pub space: MixSpace,
    // The radius that prunes.
    pub rho: u64,
}

// What the entries of an opened node are tested by.
#[derive(Clone, Copy)]
pub struct PairGauge<'a> {
    // The search.
    pub search: PairSearch,
    // The pair whose item of greater rank is opened.
    pub coming: &'a PairComing,
    // The opened node.
    pub node: &'a SharedNode,
}

impl<'a> PairGauge<'a> {
    // Returns what the tests of the node's entries need.
    fn probe(&self) -> JoinProbe<'a>
        ensures need { result.need.now ≡ self.now.coming.now.need }
        ensures node { result.node.now ≡ self.now.node.now }
        ensures rho { result.rho ≡ self.now.search.rho }
    {
        JoinProbe::new(
            self.search.alloc,
            &self.coming.need,
            self.node,
            self.search.rho,
        )
    }
}

// The test of a mark.
#[derive(Clone, Copy)]
pub struct PairTested {
    // Whether the mark is allowed.
    pub allowed: bool,
    // The distance of the entry from the other item, where that has a centre and the mark is not Skip.
    pub apart: Option<u64>,
}

// Returns whether two objects are an answer, by their distance.
fn is_within(apart: Option<u64>, rho: u64) -> bool
    ensures { result ≡ within_apart apart rho }
{
    match apart {
        None => false,
        Some(dist) => dist <= rho,
    }
}

// Returns the distance of an entry's point from the other item, where that has a centre.
fn apart_from(space: MixSpace, probe: &JoinProbe, point: &[u32]) -> Option<u64>
    ensures { result ≡ apart_from (space_in space) probe.now.need.now point.now }
{
    let mut ruler = Meter::new(space);
    probe.apart_from(&mut ruler, point)
}

// Tests the mark of an object.
fn test_object(gauge: PairGauge, entry: LeafRef, mark: Mark) -> PairTested
    ensures allowed { result.allowed ≡ allows_entry (search_by gauge.entry.search) gauge.entry.coming.now.need
        (object_entry (leaf_of entry.entry)) mark }
    ensures apart { (mark ≡ Skip → ⊥) →
        result.apart ≡ (with_entry (space_in gauge.entry.search.space)
        gauge.entry.coming.now.need (object_entry (leaf_of entry.entry))).apart }
{
    let probe = gauge.probe();
    match mark {
        Mark::Skip => PairTested {
            allowed: is_skipped(probe.need.apart, entry.parent, probe.rho, 0, probe.reach),
            apart: None,
        },
        Mark::Far => {
            let apart = apart_from(gauge.search.space, &probe, entry.point);
            PairTested {
                allowed: is_far(apart, probe.rho, 0, probe.reach),
                apart,
            }
        }
        Mark::Near => {
            let apart = apart_from(gauge.search.space, &probe, entry.point);
            PairTested {
                allowed: !probe.other().is_object() || is_within(apart, probe.rho),
                apart,
            }
        }
    }
}

// Tests the mark of a subtree, which an inner node of level `level` names.
fn test_subtree(gauge: PairGauge, level: u8, entry: InnerRef, mark: Mark) -> PairTested
    ensures allowed { result.allowed ≡ allows_entry (search_by gauge.entry.search) gauge.entry.coming.now.need
        (subtree_entry level (inner_of entry.entry)) mark }
    ensures apart { (mark ≡ Skip → ⊥) →
        result.apart ≡ (with_entry (space_in gauge.entry.search.space)
        gauge.entry.coming.now.need (subtree_entry level (inner_of entry.entry))).apart }
{
    let probe = gauge.probe();
    match mark {
        Mark::Skip => PairTested {
            allowed: is_skipped(
                probe.need.apart,
                entry.parent,
                probe.rho,
                entry.radius,
                probe.reach,
            ),
            apart: None,
        },
        Mark::Far => {
            let apart = apart_from(gauge.search.space, &probe, entry.point);
            PairTested {
                allowed: is_far(apart, probe.rho, entry.radius, probe.reach),
                apart,
            }
        }
        Mark::Near => PairTested {
            allowed: true,
            apart: apart_from(gauge.search.space, &probe, entry.point),
        },
    }
}

// Appends the line of an object, and returns the test of its mark.
pub fn show_object(
    gauge: PairGauge,
    place: u64,
    entry: LeafRef,
    mark: Mark,
    out: &mut Vec<u8>,
) -> Result<PairTested, AllocError>
    requires { gauge.coming.now.depth + 1 < 2 ^ 32 }
    ensures line { OnOk result (out.new.items ≡ out.old.items ++
        pair_entry_line (search_by gauge.entry.search) gauge.entry.coming.now place (object_entry (leaf_of entry.entry)) mark) }
    ensures allowed { IfOk result (λ tested. tested.allowed ≡
        allows_entry (search_by gauge.entry.search) gauge.entry.coming.now.need (object_entry (leaf_of entry.entry)) mark) }
    ensures apart { IfOk result (λ tested. mark ≡ Near → tested.apart ≡
        (with_entry (space_in gauge.entry.search.space) gauge.entry.coming.now.need (object_entry (leaf_of entry.entry))).apart) }
{
    let tested = test_object(gauge, entry, mark);
    let need = &gauge.coming.need;
    let reach = PairReach {
        rho: gauge.search.rho,
        own: None,
        other: item_radius(need.other()),
    };
    push_place(gauge.coming.depth + 1, place, b" object ", entry.id, out)?;
    push_pair_reason(need.apart, entry.parent, tested.apart, reach, mark, out)?;
    out.extend_from_slice(b"\n")?;
    Ok(tested)
}

// Appends the line of a subtree, and returns the test of its mark.
pub fn show_subtree(
    gauge: PairGauge,
    level: u8,
    place: u64,
    entry: InnerRef,
    mark: Mark,
    out: &mut Vec<u8>,
) -> Result<PairTested, AllocError>
    requires { gauge.coming.now.depth + 1 < 2 ^ 32 }
    ensures line { OnOk result (out.new.items ≡ out.old.items ++
        pair_entry_line (search_by gauge.entry.search) gauge.entry.coming.now place (subtree_entry level (inner_of entry.entry)) mark) }
    ensures allowed { IfOk result (λ tested. tested.allowed ≡
        allows_entry (search_by gauge.entry.search) gauge.entry.coming.now.need (subtree_entry level (inner_of entry.entry)) mark) }
    ensures apart { IfOk result (λ tested. mark ≡ Near → tested.apart ≡
        (with_entry (space_in gauge.entry.search.space) gauge.entry.coming.now.need (subtree_entry level (inner_of entry.entry))).apart) }
{
    let tested = test_subtree(gauge, level, entry, mark);
    let need = &gauge.coming.need;
    let reach = PairReach {
        rho: gauge.search.rho,
        own: Some(entry.radius),
        other: item_radius(need.other()),
    };
    push_place(gauge.coming.depth + 1, place, b" child ", entry.child, out)?;
    push_pair_reason(need.apart, entry.parent, tested.apart, reach, mark, out)?;
    out.extend_from_slice(b"\n")?;
    Ok(tested)
}

// Adds the pair of object `index`, whose id is `id`, where it is marked Near, at the distance `apart`.
pub fn name_object(
    gauge: PairGauge,
    index: usize,
    id: u32,
    mark: Mark,
    apart: Option<u64>,
    named: &mut Matches,
) -> Result<(), AllocError>
    requires within { index < entry_count gauge.node.now }
    requires object { is_object (item_at gauge.node.now index) ≡ true }
    requires id { id_of (item_at gauge.node.now index) ≡ id }
    ensures { OnOk result (named.new.needs.items ≡ named.old.needs.items ++ needs_among
        (near_ones (paired gauge.entry.coming.now.need (item_at gauge.entry.node.now index) apart ∷ []) (mark ∷ []))) }
{
    match mark {
        Mark::Near => named.add_object(&gauge.probe(), index, id, apart),
        Mark::Skip | Mark::Far => Ok(()),
    }
}

// Adds the pair of subtree `index`, where it is marked Near, at the distance `apart`.
pub fn name_subtree(
    gauge: PairGauge,
    index: usize,
    mark: Mark,
    apart: Option<u64>,
    named: &mut Matches,
) -> Result<(), AllocError>
    requires within { index < entry_count gauge.node.now }
    requires subtree { is_object (item_at gauge.node.now index) ≡ false }
    ensures { OnOk result (named.new.needs.items ≡ named.old.needs.items ++ needs_among
        (near_ones (paired gauge.entry.coming.now.need (item_at gauge.entry.node.now index) apart ∷ []) (mark ∷ []))) }
{
    match mark {
        Mark::Near => named.add_subtree(&gauge.probe(), index, apart),
        Mark::Skip | Mark::Far => Ok(()),
    }
}
