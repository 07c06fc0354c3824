// The free list of an index. It is made when it is first needed.
ghost use Rattle.std.specs.Prelude.{◌≡◌, ◌+◌, ◌≤◌, None, IsTrue, IsSome, IfOk, IfErr, OnOk};
ghost use Rattle.index_core.specs.Answers.{IsSoundOn};
ghost use Rattle.index_core.specs.Causes.{BlamesNoPage, HasListCause, IsListOf, IsMadeList};
ghost use Rattle.index_core.specs.Files.{StandsOn, OnlyReads, nodes_on};
ghost use Rattle.index_core.specs.Index.{AreSpare, IsValidFree, StandsAlone};
ghost use Rattle.index_core.specs.Writing.{IsExact, IsExactFor};

use crate::IndexFault;
use crate::faults::read_fault;
use crate::index::Index;
use crate::view::View;
use disk_model::Disk;
use free_pages::Free;
use metric_laws::Metric;
use std::alloc::Global;

impl<M: Metric> View<M> {
    // Lists the pages that the live tree does not need, by a walk of the tree.
    // Clauses: what is asked of the caller (`stands`); the answer (`made`, `valid`, `beside`, `exact`); what stays (`stands`,
    // `reads`); the cost (`few`); the cause of an error (`cause`, `undamaged`); faults of the devices (`no_fault`).
    fn list_free<D: Disk>(&mut self, alloc: Global, disk: &mut D) -> Result<Free, IndexFault>
        requires stands { StandsOn self.old (D.state disk.old) }
        ensures stands { StandsOn self.new (D.state disk.new) }
        ensures reads { OnlyReads self.old self.new (D.state disk.old) (D.state disk.new) }
        ensures no_fault { OnOk result ((D.state disk.new).faults ≡ (D.state disk.old).faults) }
        ensures few { (D.state disk.new).reads ≤ (D.state disk.old).reads + self.old.live.pages }
        ensures made { IfOk result (IsMadeList self.old (D.state disk.old)) }
        ensures valid { IfOk result (IsValidFree self.old.live) }
        ensures beside { IfOk result (λ f. IsTrue (D.state disk.old).is_known →
            AreSpare (nodes_on self.old (D.state disk.old)) self.old.live f) }
        ensures exact { IfOk result (λ f. IsSoundOn (M.space self.old.metric) self.old (D.state disk.old) →
            IsExactFor self.old f (D.state disk.old)) }
        ensures cause { IfErr result (HasListCause self.old (D.state disk.old) (D.state disk.new).faults) }
        ensures undamaged { IfErr result (λ fault. IsSoundOn (M.space self.old.metric) self.old (D.state disk.old) → BlamesNoPage fault) }
    {
        let live = self.live;
        let mut pages = self.lend(disk);
        let answer = Free::of(alloc, &mut pages, &live);
        let (inner, kept) = pages.into_parts();
        let _disk = inner.disk;
        self.kept = kept;
        let free = match answer {
            Ok(free) => free,
            Err(fault) => return Err(read_fault(fault)),
        };
        Ok(free)
    }
}

impl<M: Metric> Index<M> {
    // Takes the free list out. Where it isn't made yet, the live tree is walked once.
    // Clauses: what is asked of the caller (`stands`); the answer (`list`, `valid`, `beside`, `exact`); what changes (`rest`);
    // what stays (`stands`, `reads`, `there`); the cost (`few`); the cause of an error (`made`, `cause`, `undamaged`); faults of the
    // devices (`no_fault`).
    pub(crate) fn take_free<D: Disk>(
        &mut self,
        alloc: Global,
        disk: &mut D,
    ) -> Result<Free, IndexFault>
        requires stands { StandsAlone self.old (D.state disk.old) }
        ensures stands { StandsOn self.new.file (D.state disk.new) }
        ensures reads { OnlyReads self.old.file self.new.file (D.state disk.old) (D.state disk.new) }
        ensures no_fault { OnOk result ((D.state disk.new).faults ≡ (D.state disk.old).faults) }
        ensures few { (D.state disk.new).reads ≤ (D.state disk.old).reads + self.old.file.live.pages }
        ensures rest { self.new ≡ record self.old { file = self.new.file; free = None } }
        ensures list { IfOk result (IsListOf self.old (D.state disk.old)) }
        ensures valid { IfOk result (IsValidFree self.old.file.live) }
        ensures beside { IfOk result (λ f. IsTrue (D.state disk.old).is_known →
            AreSpare (nodes_on self.old.file (D.state disk.old)) self.old.file.live f) }
        ensures exact { IfOk result (λ f. IsSoundOn (M.space self.old.file.metric) self.old.file (D.state disk.old) →
            IsExact self.old (D.state disk.old) → IsExactFor self.old.file f (D.state disk.old)) }
        ensures there { IsSome self.old.free → disk.new ≡ disk.old }
        ensures made { IfErr result (λ fault. self.old.free ≡ None) }
        ensures cause { IfErr result (HasListCause self.old.file (D.state disk.old) (D.state disk.new).faults) }
        ensures undamaged { IfErr result (λ fault.
            IsSoundOn (M.space self.old.file.metric) self.old.file (D.state disk.old) → BlamesNoPage fault) }
    {
        if let Some(free) = self.free.take() {
            return Ok(free);
        }
        let free = match self.view.list_free(alloc, disk) {
            Ok(free) => free,
            Err(fault) => return Err(fault),
        };
        Ok(free)
    }
}
