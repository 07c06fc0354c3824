// Loads of an index that has no objects. Each is one commit.
ghost use Rattle.std.specs.Prelude.{◌≡◌, ◌≢◌, ◌+◌, ◌-◌, ◌^◌, ◌≤◌, ◌<◌, ◌∷◌, [], All, length, false, None, Some, Err, IsTrue, IsSome, IfOk, IfErr, OnOk};
ghost use Rattle.disk_model.specs.Disk.{LeavesOnly};
ghost use Rattle.tree_shape.specs.Tree.{Nodes, IsSoundTree};
ghost use Rattle.page_store.specs.Succession.{StandsByItself};
ghost use Rattle.free_pages.specs.Commits.{AreWithin};
ghost use Rattle.index_core.specs.Answers.{IsSoundOn};
ghost use Rattle.index_core.specs.Causes.{BlamesNoPage};
ghost use Rattle.index_core.specs.Damage.{BlamesDamage};
ghost use Rattle.index_core.specs.Files.{StandsOn, nodes_on};
ghost use Rattle.index_core.specs.Index.{AreSpare, IsValidFree, MayGoOn};
ghost use Rattle.index_core.specs.Loading.{HasLoadCause, HasLoadingCause, build_fault, ids, load_fault};
ghost use Rattle.index_core.specs.Writing.{HasWritten, IsNumberedFor, IsPlacedFor, IsPlacedOn, Loads};

use crate::IndexFault;
use crate::index::Index;
use crate::placing::Placement;
use crate::view::View;
use bulk_load::{BuildFault, Crew, build};
use disk_model::Disk;
use free_pages::Free;
use metric_laws::{Metric, Rows};
use std::alloc::{AllocError, Global};
use tree_shape::LAST_GENERATION;

// Maps a load's fault to the index's.
fn build_fault(fault: BuildFault) -> IndexFault
    ensures { result ≡ build_fault fault }
{
    match fault {
        BuildFault::NoRoom { pages, needed } => IndexFault::NoRoom { pages, needed },
        BuildFault::Worn => IndexFault::Worn,
        BuildFault::Memory => IndexFault::Memory,
    }
}

impl<M: Metric> View<M> {
    // Places the tree of `rows` with `tags` on free pages, in place of a tree that has no objects.
    // Clauses: what is asked of the caller (`ready`, `empty`, `unworn`, `some`, `few`, `is_point`, `tags`, `some_workers`, `few_workers`,
    // `within`); the answer (`placed`, `numbered`, `many`, `by_itself`, `loads`); the cause of an error (`cause`).
    // Arguments: `crew` and `workers` do the work, `free` has the pages, and `rows` and `tags` are the objects.
    pub(crate) fn build<W: Crew<M>>(
        &self,
        crew: &W,
        alloc: Global,
        workers: usize,
        free: &Free,
        rows: &Rows,
        tags: &[u64],
    ) -> Result<Placement, IndexFault>
        requires ready { W.ready crew.now }
        requires empty { self.now.live.count ≡ 0 }
        requires unworn { self.now.live.generation ≢ 2 ^ 48 - 1 }
        requires some { 0 < length rows.now.points }
        requires few { length rows.now.points ≤ self.now.head.limit }
        requires is_point { All (λ p. IsTrue ((M.space self.now.metric).is_point p)) rows.now.points }
        requires tags { length tags.now ≡ length rows.now.points }
        requires some_workers { 1 ≤ workers }
        requires few_workers { workers ≤ 64 }
        requires within { AreWithin self.now.live.pages free.now }
        ensures placed { IfOk result (λ placement. IsPlacedOn self.now free.now placement.used placement.placed) }
        ensures numbered { IfOk result (λ placement. IsNumberedFor (Loads rows.now.points tags.now) self.now free.now placement.placed) }
        ensures many { IfOk result (λ placement. placement.placed.next.count ≡ length rows.now.points) }
        ensures by_itself { IfOk result (λ placement. StandsByItself placement.placed × (placement.placed.left ≡ self.now.live.root ∷ [])) }
        ensures loads { IfOk result (λ placement. (nodes : Nodes) → IsSoundTree (M.space self.now.metric) nodes self.now.live →
            AreSpare nodes self.now.live free.now →
            IsPlacedFor (M.space self.now.metric) self.now.head (Loads rows.now.points tags.now) nodes self.now.live placement.placed) }
        ensures cause { IfErr result (HasLoadCause (M.space self.now.metric) self.now free.now rows.now.points tags.now) }
    {
        let (head, live) = (self.head, self.live);
        let numbers = free.least(alloc, free.len())?;
        let answer = build(
            crew,
            alloc,
            self.metric,
            workers,
            &head,
            &live,
            numbers.as_slice(),
            rows,
            tags,
        );
        match answer {
            Ok(placed) => {
                let used = placed.staged.len().min(numbers.len());
                Ok(Placement { placed, used })
            }
            Err(fault) => Err(build_fault(fault)),
        }
    }
}

// Returns the default tags of `rows` rows: their ids.
fn tags_of(alloc: Global, rows: usize) -> Result<Vec<u64>, AllocError>
    ensures { IfOk result (λ tags. tags.items ≡ ids rows) }
{
    let mut tags = Vec::with_capacity(alloc, rows)?;
    for row in 0..rows {
        tags.push(row as u64)?;
    }
    Ok(tags)
}

impl<M: Metric> Index<M> {
    // Checks whether `rows` rows may be loaded, as far as the index itself tells.
    fn may_load(&self, rows: usize) -> Result<(), IndexFault>
        ensures ok { OnOk result (load_fault self.now rows ≡ None) }
        ensures err { IfErr result (λ fault. load_fault self.now rows ≡ Some fault) }
    {
        if self.stopped {
            return Err(IndexFault::Stopped);
        }
        let live = self.live();
        if live.count != 0 {
            return Err(IndexFault::NotEmpty);
        }
        if rows > self.head().limit as usize {
            return Err(IndexFault::Full);
        }
        if live.generation == LAST_GENERATION {
            return Err(IndexFault::Worn);
        }
        Ok(())
    }

    // Loads `rows`, which may be loaded, on pages of the free list `free`.
    // Clauses: what is asked of the caller (`ready`, `may`, `stands`, `only`, `valid`, `beside`, `some`, `is_point`, `tags`); what the
    // commit does, and what a crash may leave (`written`); what stays (`stands`, `is_known`); the cost (`reads`); the cause of an error
    // (`cause`, `undamaged`); faults of the devices (`later`, `no_fault`).
    // Arguments: `crew` does the work, `self` and `disk` are the index and its file, `free` has the pages, and `rows` and `tags` are the
    // objects.
    fn load_on<W: Crew<M>, D: Disk>(
        &mut self,
        crew: &W,
        alloc: Global,
        disk: &mut D,
        free: Free,
        rows: &Rows,
        tags: &[u64],
    ) -> Result<u32, IndexFault>
        requires ready { W.ready crew.now }
        requires may { load_fault self.old (length rows.now.points) ≡ None }
        requires stands { StandsOn self.old.file (D.state disk.old) }
        requires only { IsTrue (D.state disk.old).is_known → LeavesOnly (D.state disk.old) (D.state disk.old).bytes }
        requires valid { IsValidFree self.old.file.live free }
        requires beside { IsTrue (D.state disk.old).is_known →
            AreSpare (nodes_on self.old.file (D.state disk.old)) self.old.file.live free }
        requires some { 0 < length rows.now.points }
        requires is_point { All (λ p. IsTrue ((M.space self.old.file.metric).is_point p)) rows.now.points }
        requires tags { length tags.now ≡ length rows.now.points }
        ensures stands { MayGoOn self.new (D.state disk.new) }
        ensures written { HasWritten (M.space self.old.file.metric) (Loads rows.now.points tags.now)
            (record self.old { free = Some free }) self.new (D.state disk.old) (D.state disk.new) result }
        ensures cause { IfErr result (HasLoadingCause (M.space self.old.file.metric) (record self.old { free = Some free })
            rows.now.points tags.now (D.state disk.old) (D.state disk.new).faults) }
        ensures undamaged { IfErr result BlamesNoPage }
        ensures is_known { (D.state disk.new).is_known ≡ (D.state disk.old).is_known }
        ensures reads { (D.state disk.new).reads ≤ (D.state disk.old).reads + 1 }
        ensures later { (D.state disk.old).faults ≤ (D.state disk.new).faults }
        ensures no_fault { OnOk result ((D.state disk.new).faults ≡ (D.state disk.old).faults) }
    {
        self.view.is_valid();
        match self
            .view
            .build(crew, alloc, self.workers, &free, rows, tags)
        {
            Ok(placement) => {
                let count = placement.placed.next.count;
                self.commit_placed(disk, free, &placement, count)
            }
            Err(fault) => {
                self.put_free(free);
                Err(fault)
            }
        }
    }

    /// Loads `rows` into an index that has no objects, and returns how many they are. Row i gets the id i, and its id as its
    /// tag. The refusals are those of `load_tagged`.
    /// Clauses: what is asked of the caller (`ready`, `stands`, `some`, `is_point`); what the commit does, and what a crash may leave
    /// (`written`); what stays (`stands`, `is_known`); the cost (`few`, `most`); the cause of an error (`refused`, `cause`, `damage`,
    /// `undamaged`); faults of the devices (`later`, `no_fault`).
    pub fn load<W: Crew<M>, D: Disk>(
        &mut self,
        crew: &W,
        alloc: Global,
        disk: &mut D,
        rows: &Rows,
    ) -> Result<u32, IndexFault>
        requires ready { W.ready crew.now }
        requires stands { MayGoOn self.old (D.state disk.old) }
        requires some { 0 < length rows.now.points }
        requires is_point { All (λ p. IsTrue ((M.space self.old.file.metric).is_point p)) rows.now.points }
        ensures refused { (fault : IndexFault) → load_fault self.old (length rows.now.points) ≡ Some fault →
            (result ≡ Err fault) × (self.new ≡ self.old) × (disk.new ≡ disk.old) }
        ensures stands { MayGoOn self.new (D.state disk.new) }
        ensures written { self.old.stopped ≡ false →
            HasWritten (M.space self.old.file.metric) (Loads rows.now.points (ids (length rows.now.points))) self.old self.new
            (D.state disk.old) (D.state disk.new) result }
        ensures cause { load_fault self.old (length rows.now.points) ≡ None →
            IfErr result (HasLoadingCause (M.space self.old.file.metric) self.old rows.now.points
            (ids (length rows.now.points)) (D.state disk.old) (D.state disk.new).faults) }
        // A page that the refusal blames is damaged.
        ensures damage { IfErr result (BlamesDamage self.old.file (D.state disk.old)) }
        ensures undamaged { IfErr result (λ fault.
            IsSoundOn (M.space self.old.file.metric) self.old.file (D.state disk.old) → BlamesNoPage fault) }
        ensures few { IsSome self.old.free → (D.state disk.new).reads ≤ (D.state disk.old).reads + 1 }
        ensures most { (D.state disk.new).reads ≤ (D.state disk.old).reads + (self.old.file.live.pages + 1) }
        ensures is_known { (D.state disk.new).is_known ≡ (D.state disk.old).is_known }
        ensures later { (D.state disk.old).faults ≤ (D.state disk.new).faults }
        ensures no_fault { OnOk result ((D.state disk.new).faults ≡ (D.state disk.old).faults) }
    {
        self.view.is_valid();
        if let Err(fault) = self.may_load(rows.len()) {
            return Err(fault);
        }
        let tags = tags_of(alloc, rows.len())?;
        self.load_tagged(crew, alloc, disk, rows, tags.as_slice())
    }

    /// Loads `rows` with `tags` into an index that has no objects, and returns how many they are. Row i gets the id i. It is one
    /// commit: after `Ok` the objects are there whatever crash comes, and before that a crash leaves the file with all of them or with
    /// none. `crew` does the work, with as many workers as `workers` says; any number of them makes the same tree.
    ///
    /// The refusals come in this order, and all but the last change nothing: `Stopped` where a commit failed before; `NotEmpty` where
    /// there are objects; `Full` where there are more rows than the head allows; `Worn` where there is no further generation; `Disk`
    /// or `Damaged` (`Bad`, `Outside` or `Repeats`, with the page) of the walk that makes the free list, where it isn't made yet;
    /// `NoRoom` where the new nodes need more pages than a file may have; `Memory`; and `Commit` where the disk failed in the commit.
    /// `Commit` stops the index: the file then has the objects or not, and has to be opened anew.
    /// Clauses: what is asked of the caller (`ready`, `stands`, `some`, `is_point`, `tags`); what the commit does, and what a crash may
    /// leave (`written`); what stays (`stands`, `is_known`); the cost (`few`, `most`); the cause of an error (`refused`, `cause`, `damage`,
    /// `undamaged`); faults of the devices (`later`, `no_fault`).
    pub fn load_tagged<W: Crew<M>, D: Disk>(
        &mut self,
        crew: &W,
        alloc: Global,
        disk: &mut D,
        rows: &Rows,
        tags: &[u64],
    ) -> Result<u32, IndexFault>
        requires ready { W.ready crew.now }
        requires stands { MayGoOn self.old (D.state disk.old) }
        requires some { 0 < length rows.now.points }
        requires is_point { All (λ p. IsTrue ((M.space self.old.file.metric).is_point p)) rows.now.points }
        requires tags { length tags.now ≡ length rows.now.points }
        ensures refused { (fault : IndexFault) → load_fault self.old (length rows.now.points) ≡ Some fault →
            (result ≡ Err fault) × (self.new ≡ self.old) × (disk.new ≡ disk.old) }
        ensures stands { MayGoOn self.new (D.state disk.new) }
        ensures written { self.old.stopped ≡ false →
            HasWritten (M.space self.old.file.metric) (Loads rows.now.points tags.now) self.old self.new (D.state disk.old)
            (D.state disk.new) result }
        ensures cause { load_fault self.old (length rows.now.points) ≡ None →
            IfErr result (HasLoadingCause (M.space self.old.file.metric) self.old rows.now.points tags.now
            (D.state disk.old) (D.state disk.new).faults) }
        // A page that the refusal blames is damaged.
        ensures damage { IfErr result (BlamesDamage self.old.file (D.state disk.old)) }
        ensures undamaged { IfErr result (λ fault.
            IsSoundOn (M.space self.old.file.metric) self.old.file (D.state disk.old) → BlamesNoPage fault) }
        ensures few { IsSome self.old.free → (D.state disk.new).reads ≤ (D.state disk.old).reads + 1 }
        ensures most { (D.state disk.new).reads ≤ (D.state disk.old).reads + (self.old.file.live.pages + 1) }
        ensures is_known { (D.state disk.new).is_known ≡ (D.state disk.old).is_known }
        ensures later { (D.state disk.old).faults ≤ (D.state disk.new).faults }
        ensures no_fault { OnOk result ((D.state disk.new).faults ≡ (D.state disk.old).faults) }
    {
        self.view.is_valid();
        if let Err(fault) = self.may_load(rows.len()) {
            return Err(fault);
        }
        let free = match self.take_free(alloc, disk) {
            Ok(free) => free,
            Err(fault) => return Err(fault),
        };
        self.load_on(crew, alloc, disk, free, rows, tags)
    }
}
