// Inserts into an index. Each is one commit.
ghost use Rattle.std.specs.Prelude.{◌≡◌, ◌≢◌, ◌↔◌, ◌⊎◌, ◌+◌, ◌-◌, ◌^◌, ◌≤◌, false, true, Some, Err, IsTrue, IsSome, IfErr, OnOk};
ghost use Rattle.outside_io.specs.Causes.{Rose};
ghost use Rattle.disk_model.specs.Disk.{LeavesOnly};
ghost use Rattle.index_core.specs.Answers.{IsSoundOn};
ghost use Rattle.index_core.specs.Causes.{BlamesNoPage, HasInsertCause};
ghost use Rattle.index_core.specs.Damage.{BlamesDamage};
ghost use Rattle.index_core.specs.Files.{StandsOn, nodes_on};
ghost use Rattle.index_core.specs.Index.{AreSpare, IsValidFree, MayGoOn};
ghost use Rattle.index_core.specs.Writing.{Follows, HasWritten, Inserts, IsNumberedFor, IsPlacedFor, IsPlacedOn, Write, added_by, answer_to};

use crate::IndexFault;
use crate::index::Index;
use crate::placing::Placement;
use disk_model::Disk;
use free_pages::Free;
use metric_laws::Metric;
use std::alloc::Global;
use tree_shape::{LAST_GENERATION, Live};

impl<M: Metric> Index<M> {
    // Commits `placement`, made on pages of the free list `free`, and then returns `answer`. A disk fault in the commit stops the
    // index.
    // Clauses: what is asked of the caller (`going`, `stands`, `only`, `valid`, `beside`, `placed`, `follows`); what the commit does, and
    // what a crash may leave (`written`); what stays (`stands`, `is_known`); the cost (`reads`); the cause of an error (`refusals`,
    // `rose`); faults of the devices (`later`, `no_fault`).
    pub(crate) fn commit_placed<D: Disk>(
        &mut self,
        disk: &mut D,
        free: Free,
        placement: &Placement,
        answer: u32,
    ) -> Result<u32, IndexFault>
        requires going { self.old.stopped ≡ false }
        requires stands { StandsOn self.old.file (D.state disk.old) }
        requires only { IsTrue (D.state disk.old).is_known → LeavesOnly (D.state disk.old) (D.state disk.old).bytes }
        requires valid { IsValidFree self.old.file.live free }
        requires beside { IsTrue (D.state disk.old).is_known →
            AreSpare (nodes_on self.old.file (D.state disk.old)) self.old.file.live free }
        requires placed { IsPlacedOn self.old.file free placement.now.used placement.now.placed }
        requires follows { IsTrue (D.state disk.old).is_known →
            Follows (nodes_on self.old.file (D.state disk.old)) self.old.file.live placement.now.placed }
        ensures stands { MayGoOn self.new (D.state disk.new) }
        ensures written { (write : Write) → placement.now.placed.next.count ≡ self.old.file.live.count + added_by write →
            answer ≡ answer_to write self.old.file.live.count →
            (IsSoundOn (M.space self.old.file.metric) self.old.file (D.state disk.old) →
            IsPlacedFor (M.space self.old.file.metric) self.old.file.head write (nodes_on self.old.file (D.state disk.old))
            self.old.file.live placement.now.placed) →
            IsNumberedFor write self.old.file free placement.now.placed →
            HasWritten (M.space self.old.file.metric) write (record self.old { free = Some free }) self.new (D.state disk.old)
            (D.state disk.new) result }
        ensures refusals { IfErr result (λ fault. (fault ≡ IndexFault.Memory) ⊎ (fault ≡ IndexFault.Commit)) }
        ensures rose { IfErr result (λ fault. fault ≡ IndexFault.Commit → Rose (D.state disk.old).faults (D.state disk.new).faults) }
        ensures is_known { (D.state disk.new).is_known ≡ (D.state disk.old).is_known }
        ensures reads { (D.state disk.new).reads ≤ (D.state disk.old).reads + 1 }
        ensures later { (D.state disk.old).faults ≤ (D.state disk.new).faults }
        ensures no_fault { OnOk result ((D.state disk.new).faults ≡ (D.state disk.old).faults) }
    {
        self.view.is_valid();
        let mut free = free;
        let Ok(()) = free.reserve(placement.placed.left.as_slice().len()) else {
            self.free = Some(free);
            return Err(IndexFault::Memory);
        };
        let Ok(()) = self
            .view
            .write(disk, &mut free, placement.used, &placement.placed)
        else {
            self.free = None;
            self.stopped = true;
            return Err(IndexFault::Commit);
        };
        self.free = Some(free);
        Ok(answer)
    }

    /// Adds an object with point `p`, and returns its id, which is the number of objects before. Its tag is the id. The
    /// refusals are those of `insert_tagged`.
    /// Clauses: what is asked of the caller (`stands`, `point`); what the commit does, and what a crash may leave (`written`); what stays
    /// (`stands`, `is_known`); the cost (`few`, `most`); the cause of an error (`stopped`, `full`, `worn`, `cause`, `damage`, `undamaged`);
    /// faults of the devices (`later`, `no_fault`).
    pub fn insert<D: Disk>(
        &mut self,
        alloc: Global,
        disk: &mut D,
        p: &[u32],
    ) -> Result<u32, IndexFault>
        requires stands { MayGoOn self.old (D.state disk.old) }
        requires point { IsTrue ((M.space self.old.file.metric).is_point p.now) }
        ensures stands { MayGoOn self.new (D.state disk.new) }
        ensures stopped { self.old.stopped ≡ true → (result ≡ Err IndexFault.Stopped) × (self.new ≡ self.old) × (disk.new ≡ disk.old) }
        ensures written { self.old.stopped ≡ false →
            HasWritten (M.space self.old.file.metric) (Inserts p.now self.old.file.live.count) self.old self.new
            (D.state disk.old) (D.state disk.new) result }
        ensures full { self.old.stopped ≡ false → (result ≡ Err IndexFault.Full) ↔ (self.old.file.live.count ≡ self.old.file.head.limit) }
        ensures worn { self.old.stopped ≡ false →
            (result ≡ Err IndexFault.Worn) ↔
            ((self.old.file.live.count ≢ self.old.file.head.limit) × (self.old.file.live.generation ≡ 2 ^ 48 - 1)) }
        ensures cause { IfErr result (HasInsertCause (M.space self.old.file.metric) self.old
            (record { id = self.old.file.live.count; tag = self.old.file.live.count; point = p.now }) (D.state disk.old)
            (D.state disk.new)) }
        // A page that the refusal blames is damaged.
        ensures damage { IfErr result (BlamesDamage self.old.file (D.state disk.old)) }
        ensures undamaged { IfErr result (λ fault.
            IsSoundOn (M.space self.old.file.metric) self.old.file (D.state disk.old) → BlamesNoPage fault) }
        ensures few { IsSome self.old.free → (D.state disk.new).reads ≤ (D.state disk.old).reads + (self.old.file.live.height + 2) }
        ensures most { (D.state disk.new).reads ≤ (D.state disk.old).reads + (self.old.file.live.pages + (self.old.file.live.height + 2)) }
        ensures is_known { (D.state disk.new).is_known ≡ (D.state disk.old).is_known }
        ensures later { (D.state disk.old).faults ≤ (D.state disk.new).faults }
        ensures no_fault { OnOk result ((D.state disk.new).faults ≡ (D.state disk.old).faults) }
    {
        let tag = u64::from(self.view.count());
        self.insert_tagged(alloc, disk, p, tag)
    }

    /// Adds an object with point `p` and tag `tag`, and returns its id, which is the number of objects before. What it writes is
    /// one commit: after `Ok` the object is there whatever crash comes, and before that a crash leaves the file with it or
    /// without it. An insert reads `height + 1` pages, and the first insert reads the tree once besides.
    ///
    /// The refusals come in this order, and all but the last change nothing: `Stopped` where a commit failed before; `Full` where
    /// there are as many objects as the head allows; `Worn` where there is no further generation; `Disk` or `Damaged` of the walks,
    /// with the page (`Bad`, `Outside`, `Level`, or `Repeats` where the free list is made); `NoRoom` where the new nodes need more
    /// pages than a file may have; and `Commit` where the disk failed in the commit. `Commit` stops the index: the file then has
    /// the object or not, and has to be opened anew. `Memory` may come in place of any but the first three, and never after the
    /// first write.
    /// Clauses: what is asked of the caller (`stands`, `point`); what the commit does, and what a crash may leave (`written`); what stays
    /// (`stands`, `is_known`); the cost (`few`, `most`); the cause of an error (`stopped`, `full`, `worn`, `cause`, `damage`, `undamaged`);
    /// faults of the devices (`later`, `no_fault`).
    pub fn insert_tagged<D: Disk>(
        &mut self,
        alloc: Global,
        disk: &mut D,
        p: &[u32],
        tag: u64,
    ) -> Result<u32, IndexFault>
        requires stands { MayGoOn self.old (D.state disk.old) }
        requires point { IsTrue ((M.space self.old.file.metric).is_point p.now) }
        ensures stands { MayGoOn self.new (D.state disk.new) }
        ensures stopped { self.old.stopped ≡ true → (result ≡ Err IndexFault.Stopped) × (self.new ≡ self.old) × (disk.new ≡ disk.old) }
        ensures written { self.old.stopped ≡ false →
            HasWritten (M.space self.old.file.metric) (Inserts p.now tag) self.old self.new (D.state disk.old)
            (D.state disk.new) result }
        ensures full { self.old.stopped ≡ false → (result ≡ Err IndexFault.Full) ↔ (self.old.file.live.count ≡ self.old.file.head.limit) }
        ensures worn { self.old.stopped ≡ false →
            (result ≡ Err IndexFault.Worn) ↔
            ((self.old.file.live.count ≢ self.old.file.head.limit) × (self.old.file.live.generation ≡ 2 ^ 48 - 1)) }
        ensures cause { IfErr result (HasInsertCause (M.space self.old.file.metric) self.old
            (record { id = self.old.file.live.count; tag = tag; point = p.now }) (D.state disk.old) (D.state disk.new)) }
        // A page that the refusal blames is damaged.
        ensures damage { IfErr result (BlamesDamage self.old.file (D.state disk.old)) }
        ensures undamaged { IfErr result (λ fault.
            IsSoundOn (M.space self.old.file.metric) self.old.file (D.state disk.old) → BlamesNoPage fault) }
        ensures few { IsSome self.old.free → (D.state disk.new).reads ≤ (D.state disk.old).reads + (self.old.file.live.height + 2) }
        ensures most { (D.state disk.new).reads ≤ (D.state disk.old).reads + (self.old.file.live.pages + (self.old.file.live.height + 2)) }
        ensures is_known { (D.state disk.new).is_known ≡ (D.state disk.old).is_known }
        ensures later { (D.state disk.old).faults ≤ (D.state disk.new).faults }
        ensures no_fault { OnOk result ((D.state disk.new).faults ≡ (D.state disk.old).faults) }
    {
        if self.stopped {
            return Err(IndexFault::Stopped);
        }
        self.view.is_valid();
        let Live {
            count,
            generation,
            ..
        } = self.view.live();
        if count == self.view.head().limit {
            return Err(IndexFault::Full);
        }
        if generation == LAST_GENERATION {
            return Err(IndexFault::Worn);
        }
        let free = match self.take_free(alloc, disk) {
            Ok(free) => free,
            Err(fault) => return Err(fault),
        };
        let placement = match self.view.place(alloc, disk, &free, p, tag) {
            Ok(placement) => placement,
            Err(fault) => {
                self.free = Some(free);
                return Err(fault);
            }
        };
        self.commit_placed(disk, free, &placement, count)
    }
}
