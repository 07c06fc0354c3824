//! Who does the work of a load: the caller alone, or threads.

ghost use Rattle.std.specs.Prelude.{◌≡◌, ◌+◌, ◌-◌, ◌≤◌, ◌<◌, ◌^◌, ⊤, All, IfSome, length, IfOk};
ghost use Rattle.tree_growth.specs.Groups.{entry};
ghost use Rattle.bulk_load.specs.Hints.{AreHints};
ghost use Rattle.bulk_load.specs.Sets.{load_by, IsValidLoad, IsGroupFor};
ghost use Rattle.bulk_load.specs.Apart.{AreMadeOf};

use crate::placing::Placing;
use crate::sharing::Made;
use crate::subtree::{Loading, Set};
use metric_laws::Metric;
use std::alloc::{AllocError, Global};
use tree_growth::Group;

/// Who looks ahead for the objects of a set. An impl that starts threads is of one metric: what a thread is handed has to be
/// sharable, and a bound on a type parameter does not prove that.
pub trait Scout<M: Metric> {
    /// What has to hold before the work: for threads, that they may share what they are handed.
    ghost ready: { Self → Type 0 };

    /// Returns hints for the objects of the block that begins at `place`, where the groups have `counts` objects. It may return
    /// none.
    fn hints(
        &self,
        alloc: Global,
        placing: &Placing<'_, M>,
        counts: &[usize],
        place: usize,
    ) -> Result<Vec<Option<u32>>, AllocError>
        requires ready { ready self.now }
        requires place { place < length placing.now.distances.now.table }
        requires width { placing.now.distances.now.width ≤ 64 }
        requires counts { length counts.now ≡ placing.now.distances.now.width }
        requires workers { (1 ≤ placing.now.workers) × (placing.now.workers ≤ 64) }
        ensures { IfOk result (λ v. AreHints (entry placing.now.distances.now.table) placing.now.room place counts.now v.items) };
}

/// Who does the work of a load. `Scout` stands apart from it, since the caller alone does what each worker of a crew does.
pub trait Crew<M: Metric>: Scout<M> {
    /// Makes the parts of all `groups` of `set`, apart from one another. Returns none where the caller is to make them.
    fn made(
        &self,
        alloc: Global,
        loading: &Loading<'_, M>,
        set: &Set<'_>,
        groups: &[Group],
    ) -> Result<Option<Vec<Result<Made, AllocError>>>, AllocError>
        requires ready { Self.ready self.now }
        requires load { IsValidLoad (load_by (M.space loading.now.metric) loading.now) }
        requires rows { length loading.now.rows.now.points ≤ 2 ^ 24 }
        requires workers { (1 ≤ loading.now.workers) × (loading.now.workers ≤ 64) }
        requires seed { IfSome set.now.seed (λ k. k < length loading.now.rows.now.points) }
        requires level { (1 ≤ set.now.level) × (set.now.level ≤ 14) }
        requires groups { All (IsGroupFor (load_by (M.space loading.now.metric) loading.now) (set.now.level - 1)) groups.now }
        ensures { IfOk result (λ made. IfSome made (λ parts.
            AreMadeOf (load_by (M.space loading.now.metric) loading.now) set.now.seed (set.now.level - 1)
            groups.now parts.items)) };
}

/// The caller, with no thread beside it.
#[derive(Drop)]
pub struct Alone;

impl<M: Metric> Scout<M> for Alone {
    ghost ready = { λ _. ⊤ };

    fn hints(
        &self,
        alloc: Global,
        _placing: &Placing<'_, M>,
        _counts: &[usize],
        _place: usize,
    ) -> Result<Vec<Option<u32>>, AllocError> {
        Ok(Vec::new(alloc))
    }
}

impl<M: Metric> Crew<M> for Alone {
    fn made(
        &self,
        _alloc: Global,
        _loading: &Loading<'_, M>,
        _set: &Set<'_>,
        _groups: &[Group],
    ) -> Result<Option<Vec<Result<Made, AllocError>>>, AllocError> {
        Ok(None)
    }
}
