// What an insertion places for a file.
ghost use Rattle.std.specs.Prelude.{◌≡◌, ◌≢◌, ◌+◌, ◌-◌, ◌^◌, ◌≤◌, IsTrue, IfOk, IfErr, OnOk};
ghost use Rattle.page_store.specs.Succession.{TakesPlace};
ghost use Rattle.free_pages.specs.Commits.{AreWithin};
ghost use Rattle.index_core.specs.Answers.{IsSoundOn};
ghost use Rattle.index_core.specs.Causes.{BlamesNoPage, HasPathCause};
ghost use Rattle.index_core.specs.Files.{StandsOn, OnlyReads, nodes_on};
ghost use Rattle.index_core.specs.Index.{AreSpare};
ghost use Rattle.index_core.specs.Writing.{Inserts, IsNumberedFor, IsPlacedFor, IsPlacedOn};

use crate::IndexFault;
use crate::faults::place_fault;
use crate::view::View;
use disk_model::Disk;
use free_pages::Free;
use insert_path::place;
use metric_laws::{Meter, Metric};
use page_store::Placed;
use std::alloc::Global;

/// What was placed for a file, and how many of its first free pages that uses.
#[derive(Drop)]
pub struct Placement {
    pub placed: Placed,
    pub used: usize,
}

impl<M: Metric> View<M> {
    // Places one more object, with point `p` and tag `tag`, on free pages. A split of each node from the leaf up and a new root take
    // at most `2 * height + 3` pages.
    // Clauses: what is asked of the caller (`stands`, `point`, `more`, `unworn`, `beside`, `within`); the answer (`placed`, `numbered`,
    // `one`, `takes_place`, `inserts`); what stays (`stands`, `reads`); the cost (`few`); the cause of an error (`cause`, `undamaged`);
    // faults of the devices (`no_fault`).
    pub(crate) fn place<D: Disk>(
        &mut self,
        alloc: Global,
        disk: &mut D,
        free: &Free,
        p: &[u32],
        tag: u64,
    ) -> Result<Placement, IndexFault>
        requires stands { StandsOn self.old (D.state disk.old) }
        requires point { IsTrue ((M.space self.old.metric).is_point p.now) }
        requires more { self.old.live.count ≢ self.old.head.limit }
        requires unworn { self.old.live.generation ≢ 2 ^ 48 - 1 }
        requires beside { IsTrue (D.state disk.old).is_known → AreSpare (nodes_on self.old (D.state disk.old)) self.old.live free.now }
        requires within { AreWithin self.old.live.pages free.now }
        ensures stands { StandsOn self.new (D.state disk.new) }
        ensures reads { OnlyReads self.old self.new (D.state disk.old) (D.state disk.new) }
        ensures no_fault { OnOk result ((D.state disk.new).faults ≡ (D.state disk.old).faults) }
        ensures placed { IfOk result (λ placement. IsPlacedOn self.old free.now placement.used placement.placed) }
        ensures numbered { IfOk result (λ placement. IsNumberedFor (Inserts p.now tag) self.old free.now placement.placed) }
        ensures one { IfOk result (λ placement. placement.placed.next.count ≡ self.old.live.count + 1) }
        ensures takes_place { IfOk result (λ placement. IsTrue (D.state disk.old).is_known →
            TakesPlace (nodes_on self.old (D.state disk.old)) self.old.live placement.placed) }
        ensures inserts { IfOk result (λ placement. IsSoundOn (M.space self.old.metric) self.old (D.state disk.old) →
            IsPlacedFor (M.space self.old.metric) self.old.head (Inserts p.now tag) (nodes_on self.old (D.state disk.old))
            self.old.live placement.placed) }
        ensures cause { IfErr result (HasPathCause (M.space self.old.metric) self.old free.now
            (record { id = self.old.live.count; tag = tag; point = p.now }) (D.state disk.old) (D.state disk.new)) }
        ensures undamaged { IfErr result (λ fault. IsSoundOn (M.space self.old.metric) self.old (D.state disk.old) → BlamesNoPage fault) }
        ensures few { (D.state disk.new).reads ≤ (D.state disk.old).reads + (self.old.live.height + 1) }
    {
        let (head, live) = (self.head, self.live);
        let numbers = free.least(alloc, 2 * live.height as usize + 3)?;
        let mut ruler = Meter::new(self.metric);
        let mut pages = self.lend(disk);
        let answer = place(
            alloc,
            &mut pages,
            &mut ruler,
            &head,
            &live,
            numbers.as_slice(),
            p,
            tag,
        );
        let (inner, kept) = pages.into_parts();
        let _disk = inner.disk;
        self.kept = kept;
        match answer {
            Ok(placed) => {
                let used = placed.staged.len().min(numbers.len());
                Ok(Placement { placed, used })
            }
            Err(fault) => Err(place_fault(fault)),
        }
    }
}
