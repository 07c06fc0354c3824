ghost use Rattle.std.specs.Thread.{IsSync};

use bulk_load::{Crew, Loading, Made, Placing, Scout, Set, hints_by_threads, made_by_threads};
use metric_mix::MixSpace;
use std::alloc::{AllocError, Global};
use std::thread::Threads;
use tree_growth::Group;

/// The threads of a runtime, as the crew of a load in the program's space. It is a crew of this one metric: what a thread is handed
/// has to be sharable, and of a metric that is only a type parameter a bound does not prove that.
#[derive(Drop)]
pub struct ByThreads<'a, R: Threads + Sync> {
    rt: &'a R,
}

impl<'a, R: Threads + Sync> ByThreads<'a, R> {
    /// Makes a crew of the threads that `rt` starts.
    pub fn new(rt: &'a R) -> Self
        ensures ready { IsSync R.row }
    {
        ByThreads { rt }
    }
}

impl<R: Threads + Sync> Scout<MixSpace> for ByThreads<'_, R> {
    ghost ready = { λ _. IsSync R.row };

    fn hints(
        &self,
        alloc: Global,
        placing: &Placing<'_, MixSpace>,
        counts: &[usize],
        place: usize,
    ) -> Result<Vec<Option<u32>>, AllocError> {
        hints_by_threads(self.rt, alloc, placing, counts, place)
    }
}

impl<R: Threads + Sync> Crew<MixSpace> for ByThreads<'_, R> {
    fn made(
        &self,
        alloc: Global,
        loading: &Loading<'_, MixSpace>,
        set: &Set<'_>,
        groups: &[Group],
    ) -> Result<Option<Vec<Result<Made, AllocError>>>, AllocError> {
        let parts = made_by_threads(self.rt, alloc, loading, set, groups)?;
        Ok(Some(parts))
    }
}
