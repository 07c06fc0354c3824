// Pins of the trees of an index, for readers that come back.
ghost use Rattle.std.specs.Prelude.{◌≡◌, ◌≢◌, ◌+◌, ◌≤◌, List, ℕ, None, Some, MatchOption, Err, true, false, IsTrue, IfOk, IfErr, OnOk};
ghost use Rattle.tree_shape.specs.Tree.{Nodes};
ghost use Rattle.index_core.specs.Answers.{IsSoundOn};
ghost use Rattle.index_core.specs.Causes.{BlamesNoPage, HasListCause};
ghost use Rattle.index_core.specs.Damage.{BlamesDamage};
ghost use Rattle.index_core.specs.Files.{OnlyReads, nodes_on};
ghost use Rattle.index_core.specs.Index.{IsValidFree, MayGoOn};
ghost use Rattle.index_core.specs.Pinning.{AreReached, HasPinned, IsPinned, LiesBesideTree, LiesOutside, unpinned};
ghost use Rattle.index_core.specs.Writing.{GuardsPages, IsExact, IsRefused};

use crate::IndexFault;
use crate::index::Index;
use disk_model::Disk;
use free_pages::Free;
use metric_laws::Metric;
use std::alloc::Global;
use tree_shape::Live;

impl<M: Metric> Index<M> {
    /// Pins the live tree once more, and returns its slot. Until it is unpinned as often, each of its pages stays as it is, whatever
    /// is inserted or loaded. A stop forgets all pins. `Stopped` comes where a commit failed before. `Disk`, `Damaged` and `Memory`
    /// come from the walk of the live tree, where no free list is made yet. `Memory` comes also where there is no room for the pin.
    /// Nothing is written.
    /// Clauses: what is asked of the caller (`stands`); the answer (`live`); what changes (`pinned`, `guards`); what stays (`stands`,
    /// `reads`, `rest`, `guarded`, `exact`); the cost (`few`); what an error leaves (`refused`); the cause of an error (`stopped`, `cause`,
    /// `damage`, `made`, `undamaged`); faults of the devices (`no_fault`).
    pub fn pin<D: Disk>(&mut self, alloc: Global, disk: &mut D) -> Result<Live, IndexFault>
        requires stands { MayGoOn self.old (D.state disk.old) }
        ensures stopped { self.old.stopped ≡ true → (result ≡ Err IndexFault.Stopped) × (self.new ≡ self.old) × (disk.new ≡ disk.old) }
        ensures stands { MayGoOn self.new (D.state disk.new) }
        ensures reads { OnlyReads self.old.file self.new.file (D.state disk.old) (D.state disk.new) }
        ensures no_fault { OnOk result ((D.state disk.new).faults ≡ (D.state disk.old).faults) }
        ensures few { (D.state disk.new).reads ≤ (D.state disk.old).reads + self.old.file.live.pages }
        ensures rest { self.new ≡ record self.old { file = self.new.file; free = self.new.free } }
        ensures live { IfOk result (λ live. live ≡ self.old.file.live) }
        ensures pinned { OnOk result (HasPinned self.old.file.live.generation self.old self.new) }
        // The pages to which child numbers lead are guarded from now on, and what was guarded stays so.
        ensures guards { OnOk result (IsTrue (D.state disk.old).is_known → (tree : List ℕ) →
            AreReached (nodes_on self.old.file (D.state disk.old)) self.old.file.live.root tree →
            GuardsPages self.old.file.live.generation tree self.new) }
        ensures guarded { (generation : ℕ) (tree : List ℕ) → GuardsPages generation tree self.old → GuardsPages generation tree self.new }
        ensures exact { IsSoundOn (M.space self.old.file.metric) self.old.file (D.state disk.old) → IsExact self.old (D.state disk.old) →
            IsExact self.new (D.state disk.new) }
        ensures refused { IfErr result (λ fault. IsRefused self.old self.new (D.state disk.old) (D.state disk.new)) }
        ensures cause { self.old.stopped ≡ false → IfErr result (HasListCause self.old.file (D.state disk.old) (D.state disk.new).faults) }
        // A page that the refusal blames is damaged.
        ensures damage { IfErr result (BlamesDamage self.old.file (D.state disk.old)) }
        ensures made { self.old.stopped ≡ false → IfErr result (λ fault. fault ≢ IndexFault.Memory → self.old.free ≡ None) }
        ensures undamaged { IfErr result (λ fault.
            IsSoundOn (M.space self.old.file.metric) self.old.file (D.state disk.old) → BlamesNoPage fault) }
    {
        if self.stopped {
            return Err(IndexFault::Stopped);
        }
        let mut free = match self.take_free(alloc, disk) {
            Ok(free) => free,
            Err(fault) => return Err(fault),
        };
        let live = self.live();
        let pinned = free.pin(live.generation);
        self.put_free(free);
        match pinned {
            Ok(()) => Ok(live),
            Err(_) => Err(IndexFault::Memory),
        }
    }

    // Puts the free list `free` back.
    pub(crate) fn put_free(&mut self, free: Free)
        requires { IsValidFree self.old.file.live free }
        ensures { self.new ≡ record self.old { free = Some free } }
    {
        self.free = Some(free);
    }

    /// Takes back one pin of `generation`, which has to be pinned. The pages that no other pin holds become free.
    pub fn unpin(&mut self, generation: u64)
        requires { IsPinned generation self.old }
        ensures list { MatchOption self.old.free ⊥ (λ f. self.new ≡ record self.old { free = Some (unpinned generation f) }) }
        ensures guarded { (other : ℕ) (tree : List ℕ) → IsPinned other self.new → GuardsPages other tree self.old →
            GuardsPages other tree self.new }
        // The same pages are free or held as before.
        ensures beside { (nodes : Nodes) → LiesBesideTree nodes self.old → LiesBesideTree nodes self.new }
        ensures outside { (tree : List ℕ) → LiesOutside tree self.old → LiesOutside tree self.new }
    {
        if let Some(mut free) = self.free.take() {
            free.unpin(generation);
            self.put_free(free);
        }
    }
}
