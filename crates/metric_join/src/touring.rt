// The walk through a whole tree by child numbers.
ghost use Rattle.std.specs.Prelude.{◌≡◌, IfErr, OnOk};
ghost use Rattle.page_store.specs.Shelf.{HoldsSame};
ghost use Rattle.page_store.specs.Tours.{HasTourCause};
ghost use Rattle.metric_join.specs.Joined.{IsWalked};

use page_store::{PageFault, Pages};
use page_tour::Tour;
use std::alloc::Global;
use tree_shape::Live;

/// Walks the live tree by child numbers, each page before those that its node names. After as many pages as the file has, one
/// more is refused unasked.
pub fn tour<P: Pages>(alloc: Global, pages: &mut P, live: &Live) -> Result<(), PageFault>
    ensures same { HoldsSame (P.shelf pages.old) (P.shelf pages.new) }
    ensures keeps { P.keeps pages.old pages.new }
    ensures no_fault { OnOk result ((P.shelf pages.new).faults ≡ (P.shelf pages.old).faults) }
    ensures walked { OnOk result (IsWalked live.now (P.shelf pages.old) (P.shelf pages.new) 0) }
    ensures cause { IfErr result (HasTourCause live.now (P.shelf pages.old) (P.shelf pages.new)) }
{
    let mut tour = Tour::begin(alloc, live)?;
    while let Some(_) = tour.next(alloc, pages)? {}
    Ok(())
}
