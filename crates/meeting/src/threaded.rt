ghost use Rattle.std.specs.Thread.{IsSync};

use crate::Meeting;
use bulk_load::{Crew, Loading, Made, Placing, Scout, Set, hints_by_threads, made_by_threads};
use std::alloc::{AllocError, Global};
use std::thread::Threads;
use tree_growth::Group;

/// The threads of a runtime, as the crew of a load under `Meeting`.
#[derive(Drop)]
pub struct Threaded<'a, R: Threads + Sync> {
    rt: &'a R,
}

impl<'a, R: Threads + Sync> Threaded<'a, R> {
    /// Makes a crew of the threads that `rt` starts.
    pub fn new(rt: &'a R) -> Self
        ensures ready { IsSync R.row }
    {
        Threaded { rt }
    }
}

impl<R: Threads + Sync> Scout<Meeting<'_>> for Threaded<'_, R> {
    ghost ready = { λ _. IsSync R.row };

    fn hints(
        &self,
        alloc: Global,
        placing: &Placing<'_, Meeting<'_>>,
        counts: &[usize],
        place: usize,
    ) -> Result<Vec<Option<u32>>, AllocError> {
        hints_by_threads(self.rt, alloc, placing, counts, place)
    }
}

impl<R: Threads + Sync> Crew<Meeting<'_>> for Threaded<'_, R> {
    fn made(
        &self,
        alloc: Global,
        loading: &Loading<'_, Meeting<'_>>,
        set: &Set<'_>,
        groups: &[Group],
    ) -> Result<Option<Vec<Result<Made, AllocError>>>, AllocError> {
        let parts = made_by_threads(self.rt, alloc, loading, set, groups)?;
        Ok(Some(parts))
    }
}
