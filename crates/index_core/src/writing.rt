// The commit of what was placed for a file.
ghost use Rattle.std.specs.Prelude.{◌≡◌, ◌+◌, ◌≤◌, length, IsTrue, OnOk};
ghost use Rattle.outside_io.specs.Causes.{HasCause};
ghost use Rattle.disk_model.specs.Disk.{LeavesOnly, EachImage};
ghost use Rattle.page_store.specs.Staging.{pages_of};
ghost use Rattle.shadow_root.specs.Commit.{IsBeforeOrAfter};
ghost use Rattle.free_pages.specs.Keeping.{IsKept};
ghost use Rattle.free_pages.specs.Commits.{AreWithin};
ghost use Rattle.index_core.specs.Files.{StandsOn, nodes_on};
ghost use Rattle.index_core.specs.Index.{AreSpare};
ghost use Rattle.index_core.specs.Writing.{Follows, IsCommitted, IsPlacedOn, forgotten, forgotten_of};

use crate::view::View;
use disk_model::{Disk, Failed};
use free_pages::Free;
use metric_laws::Metric;
use page_cache::Kept;
use page_cache::laws::forgetting_keeps_agreement;
use page_store::{Placed, Staged};
use shadow_root::commit;

// Drops from the cache the pages that new nodes go to.
fn forget_all(kept: &mut Kept, staged: &Staged)
    ensures { kept.new ≡ forgotten (pages_of staged.now) kept.old }
{
    for place in 0..staged.len() {
        kept.forget(staged.page_at(place));
    }
}

// Like `forget_all`, where there is a cache.
fn forget(kept: &mut Option<Kept>, staged: &Staged)
    ensures { kept.new ≡ forgotten_of (pages_of staged.now) kept.old }
{
    if let Some(kept) = kept {
        forget_all(kept, staged);
    }
}

impl<M: Metric> View<M> {
    // Commits `placed` for the file, and settles the free list `free`: its first `used` pages are taken, and it has room for the
    // pages that are left. What is kept of pages that are written anew is dropped before the first write.
    // Clauses: what is asked of the caller (`stands`, `only`, `beside`, `kept`, `within`, `room`, `placed`, `follows`); what a crash may
    // leave (`moments`); what changes (`committed`); what stays (`is_known`); the cost (`reads`); the cause of an error (`cause`).
    pub(crate) fn write<D: Disk>(
        &mut self,
        disk: &mut D,
        free: &mut Free,
        used: usize,
        placed: &Placed,
    ) -> Result<(), Failed>
        requires stands { StandsOn self.old (D.state disk.old) }
        requires only { IsTrue (D.state disk.old).is_known → LeavesOnly (D.state disk.old) (D.state disk.old).bytes }
        requires beside { IsTrue (D.state disk.old).is_known → AreSpare (nodes_on self.old (D.state disk.old)) self.old.live free.old }
        requires kept { IsKept free.old }
        requires within { AreWithin self.old.live.pages free.old }
        requires room { length placed.now.left ≤ free.old.spare }
        requires placed { IsPlacedOn self.old free.old used placed.now }
        requires follows { IsTrue (D.state disk.old).is_known → Follows (nodes_on self.old (D.state disk.old)) self.old.live placed.now }
        ensures moments { IsTrue (D.state disk.old).is_known →
            EachImage (D.state disk.old) (D.state disk.new)
            (IsBeforeOrAfter self.old.head.dim self.old.live placed.now.next placed.now.staged (D.state disk.old)) }
        ensures committed { OnOk result (IsCommitted self.old self.new free.old free.new used placed.now (D.state disk.old)
            (D.state disk.new)) }
        ensures is_known { (D.state disk.new).is_known ≡ (D.state disk.old).is_known }
        ensures reads { (D.state disk.new).reads ≤ (D.state disk.old).reads + 1 }
        ensures cause { HasCause (D.state disk.old).faults (D.state disk.new).faults result }
    {
        forget(&mut self.kept, &placed.staged);
        commit(
            disk,
            self.head.dim,
            &self.live,
            &placed.next,
            &placed.staged,
        )?;
        forgetting_keeps_agreement();
        self.live = placed.next;
        free.settle(used, placed.left.as_slice(), placed.next.generation);
        Ok(())
    }
}
