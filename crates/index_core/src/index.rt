ghost use Rattle.std.specs.Prelude.{◌≡◌, ◌⊎◌, ◌+◌, ◌≤◌, [], false, true, List, ℕ, Err, IsTrue, IfOk, IfErr, OnOk, OnErr, None, Some};
ghost use Rattle.lru.specs.LruCache.{lru_cache};
ghost use Rattle.scan_model.specs.declared.query.Query.TheVariants.{Range, Nearest};
ghost use Rattle.outside_io.specs.Causes.{HasCause};
ghost use Rattle.disk_model.specs.Disk.{MayLeave, LeavesOnly, EachImage};
ghost use Rattle.node_page.specs.Heads.{IsValidHead};
ghost use Rattle.node_page.specs.Opening.{IsValidLive, OpensTo};
ghost use Rattle.nearest_search.specs.Searched.{IsFront};
ghost use Rattle.page_store.specs.Shelf.{Shelf};
ghost use Rattle.index_core.specs.Files.{IsValidFile, OnlyReads, nodes_on};
ghost use Rattle.index_core.specs.Index.{StandsAlone, MayGoOn};
ghost use Rattle.index_core.specs.Causes.{HasReaderCause};
ghost use Rattle.index_core.specs.Damage.{BlamesDamage};
ghost use Rattle.index_core.specs.Lending.{KeptAgrees};
ghost use Rattle.index_core.specs.Answers.{HasSearched, IsFoundOn, HasRangeCause, HasReachCause, HasDrawn};

use crate::view::View;
use crate::{IndexFault, Shape};
use disk_model::{Disk, Failed};
use free_pages::Free;
use log_model::Found;
use metric_laws::Metric;
use node_page::Head;
use shadow_root::OpenFault;
use std::alloc::{AllocError, Global};
use std::marker::Model;
use tree_shape::Live;

/// An index file that is opened for writing. It does not hold its disk: each call that reads or writes gets one.
/// Contracts see what they see of a `View`, the free list once it is made, whether the index is stopped, and how many threads
/// a load may use.
#[derive(Drop)]
pub struct Index<M: Metric> {
    pub(crate) view: View<M>,
    pub(crate) free: Option<Free>,
    pub(crate) stopped: bool,
    pub(crate) workers: usize,
}

impl<M: Metric> Model for Index<M> {
    ghost use Rattle.index_core.specs.Index.{OpenIndex, IsValidIndex};

    ghost Value = { OpenIndex M };

    ghost view = { λ i. record { file = i.view; free = i.free; stopped = i.stopped; workers = i.workers } };

    ghost invariant = { λ i. IsValidIndex (record { file = i.view; free = i.free; stopped = i.stopped; workers = i.workers }) };
}

impl<M: Metric> Index<M> {
    /// Opens an index file whose points `metric` measures, after a sync: what a read gives then is all that a crash may leave.
    /// The faults are those of `View::open_read`. `Disk` comes also where the sync failed. A load uses one thread, and no free list
    /// is made yet.
    /// Clauses: the answer (`stands`, `valid`, `opened`); what stays (`bytes`, `is_known`); what a crash may leave (`time`, `fewer`,
    /// `synced`); the cost (`reads`); the cause of an error (`cause`); faults of the devices (`later`, `no_fault`).
    pub fn open_write<D: Disk>(disk: &mut D, metric: M) -> Result<Self, OpenFault>
        ensures stands { IfOk result (λ index. StandsAlone index (D.state disk.new)) }
        ensures valid { IfOk result (λ index. IsValidFile (M.space metric).dimension index.file) }
        ensures opened { IfOk result (λ index. index ≡ record {
          file = record index.file { metric = metric; kept = None };
          free = None;
          stopped = false;
          workers = 1;
        }) }
        ensures cause { IfErr result (HasReaderCause (M.space metric).dimension (D.state disk.old) (D.state disk.new)) }
        ensures bytes { (D.state disk.new).bytes ≡ (D.state disk.old).bytes }
        ensures is_known { (D.state disk.new).is_known ≡ (D.state disk.old).is_known }
        // The sync only removes crash images. A refusal other than `Disk` comes after it.
        ensures time { EachImage (D.state disk.old) (D.state disk.new) (MayLeave (D.state disk.old)) }
        ensures fewer { (image : List ℕ) → MayLeave (D.state disk.new) image → MayLeave (D.state disk.old) image }
        ensures synced { IfErr result (λ fault. (fault ≡ OpenFault.Disk) ⊎ LeavesOnly (D.state disk.new) (D.state disk.new).bytes) }
        ensures reads { (D.state disk.new).reads ≤ (D.state disk.old).reads + 3 }
        ensures later { (D.state disk.old).faults ≤ (D.state disk.new).faults }
        ensures no_fault { OnOk result ((D.state disk.new).faults ≡ (D.state disk.old).faults) }
    {
        if disk.sync().is_err() {
            return Err(OpenFault::Disk);
        }
        let view = View::open_read(disk, metric)?;
        Ok(Index::on(view))
    }

    /// Makes the index of a file that was opened to `head` and `live`, after a sync: what a read gives then is all that a crash may
    /// leave. `metric` measures its points. A load uses one thread, and no free list is made yet. Nothing is read. `Failed` comes
    /// where the sync failed.
    /// Clauses: what is asked of the caller (`opens`, `head`, `version`, `dimension`, `side`, `live`); the answer (`stands`, `opened`);
    /// what stays (`bytes`, `is_known`); what a crash may leave (`time`); the cost (`reads`); the cause of an error (`cause`).
    pub fn of_opened<D: Disk>(
        disk: &mut D,
        head: Head,
        live: Live,
        metric: M,
    ) -> Result<Self, Failed>
        requires opens { IsTrue (D.state disk.old).is_known → OpensTo (D.state disk.old).bytes head live }
        requires head { IsValidHead head }
        requires version { head.version ≡ 2 }
        requires dimension { (M.space metric).dimension ≡ head.dim }
        requires side { live.side ≤ 1 }
        requires live { (size : ℕ) × IsValidLive head.limit size live }
        ensures stands { IfOk result (λ index. StandsAlone index (D.state disk.new)) }
        ensures opened { IfOk result (λ index. index ≡ record {
          file = record { head = head; live = live; metric = metric; kept = None };
          free = None;
          stopped = false;
          workers = 1;
        }) }
        ensures bytes { (D.state disk.new).bytes ≡ (D.state disk.old).bytes }
        ensures is_known { (D.state disk.new).is_known ≡ (D.state disk.old).is_known }
        // The sync only removes crash images.
        ensures time { EachImage (D.state disk.old) (D.state disk.new) (MayLeave (D.state disk.old)) }
        ensures reads { (D.state disk.new).reads ≡ (D.state disk.old).reads }
        ensures cause { HasCause (D.state disk.old).faults (D.state disk.new).faults result }
    {
        disk.sync()?;
        Ok(Index::on(View::of(head, live, metric)))
    }

    // Makes the index of an opened file. A load uses one thread, and no free list is made yet.
    fn on(view: View<M>) -> Self
        ensures { result ≡ record { file = view; free = None; stopped = false; workers = 1 } }
    {
        Index {
            view,
            free: None,
            stopped: false,
            workers: 1,
        }
    }

    /// States what always holds of an opened index, for callers that hold a reference to one.
    pub fn is_valid(&self)
        ensures { IsValidFile (M.space self.now.file.metric).dimension self.now.file }
    {
        self.view.is_valid();
    }

    /// Sets how many threads a load may use from now on, 1 to 64.
    pub fn set_workers(&mut self, workers: usize)
        requires some { 1 ≤ workers }
        requires few { workers ≤ 64 }
        ensures { self.new ≡ record self.old { workers = workers } }
    {
        self.workers = workers;
    }

    /// Returns how many threads a load may use.
    pub fn workers(&self) -> usize
        ensures is { result ≡ self.now.workers }
        ensures some { 1 ≤ result }
        ensures few { result ≤ 64 }
    {
        self.workers
    }

    /// Keeps the last `nodes` nodes asked for from now on (at least 1): a page whose node is kept is not read again. What was kept
    /// before is dropped. `Memory` changes nothing.
    pub fn use_cache(&mut self, alloc: Global, nodes: usize) -> Result<(), AllocError>
        requires { 1 ≤ nodes }
        ensures ok { OnOk result (self.new ≡ record self.old { file = record self.old.file { kept = Some (lru_cache [] nodes) } }) }
        ensures err { OnErr result (self.new ≡ self.old) }
        // Nothing is kept yet, so nothing can contradict a disk.
        ensures agrees { OnOk result ((pages : Shelf) → KeptAgrees self.new.file.kept pages) }
    {
        self.view.use_cache(alloc, nodes)
    }

    /// Returns the number of objects.
    pub fn count(&self) -> u32
        ensures { result ≡ self.now.file.live.count }
    {
        self.view.count()
    }

    /// Returns the live slot of the file.
    pub fn live(&self) -> Live
        ensures { result ≡ self.now.file.live }
    {
        self.view.live()
    }

    /// Returns the head of the file.
    pub fn head(&self) -> Head
        ensures { result ≡ self.now.file.head }
    {
        self.view.head()
    }

    /// Returns the metric with which the file was opened.
    pub fn metric(&self) -> M
        ensures { result ≡ self.now.file.metric }
    {
        self.view.metric()
    }

    /// Returns every object within `r` of `q`, by distance, then by id, and the log that shows it. `Stopped` comes where a commit
    /// failed before, and touches nothing. The other refusals are those of `View::range`.
    /// Clauses: what is asked of the caller (`stands`, `point`); the answer (`searched`); the answer and its cost (`found`); what stays
    /// (`stands`, `reads`, `rest`); the cost (`few`); the cause of an error (`stopped`, `cause`, `damage`); faults of the devices
    /// (`no_fault`).
    pub fn range<D: Disk>(
        &mut self,
        alloc: Global,
        disk: &mut D,
        q: &[u32],
        r: u64,
    ) -> Result<Found, IndexFault>
        requires stands { MayGoOn self.old (D.state disk.old) }
        requires point { IsTrue ((M.space self.old.file.metric).is_point q.now) }
        ensures stopped { self.old.stopped ≡ true → (result ≡ Err IndexFault.Stopped) × (self.new ≡ self.old) × (disk.new ≡ disk.old) }
        ensures stands { MayGoOn self.new (D.state disk.new) }
        ensures reads { OnlyReads self.old.file self.new.file (D.state disk.old) (D.state disk.new) }
        ensures no_fault { OnOk result ((D.state disk.new).faults ≡ (D.state disk.old).faults) }
        ensures few { (D.state disk.new).reads ≤ (D.state disk.old).reads + self.old.file.live.pages }
        ensures rest { self.new ≡ record self.old { file = self.new.file } }
        ensures searched { self.old.stopped ≡ false → HasSearched (M.space self.old.file.metric) self.old.file (Range q.now r)
            (D.state disk.old) (D.state disk.new) result }
        ensures found { IfOk result (IsFoundOn (M.space self.old.file.metric) self.old.file (Range q.now r) (D.state disk.old)
            (D.state disk.new)) }
        ensures cause { self.old.stopped ≡ false →
            IfErr result (HasRangeCause (M.space self.old.file.metric) self.old.file q.now r (D.state disk.old)
            (D.state disk.new)) }
        // A page that the refusal blames is damaged.
        ensures damage { IfErr result (BlamesDamage self.old.file (D.state disk.old)) }
    {
        if self.stopped {
            return Err(IndexFault::Stopped);
        }
        self.view.range(alloc, disk, q, r)
    }

    /// Returns the `k` objects nearest to `q`, by distance, then by id, and the log that shows it. The refusals are those of `range`.
    /// Clauses: what is asked of the caller (`stands`, `point`, `some`); the answer (`searched`, `front`); what stays (`stands`, `reads`,
    /// `rest`); the cost (`few`); the cause of an error (`stopped`, `cause`, `damage`); faults of the devices (`no_fault`).
    pub fn nearest<D: Disk>(
        &mut self,
        alloc: Global,
        disk: &mut D,
        q: &[u32],
        k: u64,
    ) -> Result<Found, IndexFault>
        requires stands { MayGoOn self.old (D.state disk.old) }
        requires point { IsTrue ((M.space self.old.file.metric).is_point q.now) }
        requires some { 1 ≤ k }
        ensures stopped { self.old.stopped ≡ true → (result ≡ Err IndexFault.Stopped) × (self.new ≡ self.old) × (disk.new ≡ disk.old) }
        ensures stands { MayGoOn self.new (D.state disk.new) }
        ensures reads { OnlyReads self.old.file self.new.file (D.state disk.old) (D.state disk.new) }
        ensures no_fault { OnOk result ((D.state disk.new).faults ≡ (D.state disk.old).faults) }
        ensures few { (D.state disk.new).reads ≤ (D.state disk.old).reads + self.old.file.live.pages }
        ensures rest { self.new ≡ record self.old { file = self.new.file } }
        ensures searched { self.old.stopped ≡ false → HasSearched (M.space self.old.file.metric) self.old.file (Nearest q.now k)
            (D.state disk.old) (D.state disk.new) result }
        // On any file: the records are a front of a walk with the least marks, and the answers are those that the records name.
        ensures front { IfOk result (λ found. IsTrue (D.state disk.old).is_known →
            IsFront (M.space self.old.file.metric) (nodes_on self.old.file (D.state disk.old)) self.old.file.live q.now k found.log) }
        ensures cause { self.old.stopped ≡ false → IfErr result (HasReachCause self.old.file (D.state disk.old) (D.state disk.new)) }
        // A page that the refusal blames is damaged.
        ensures damage { IfErr result (BlamesDamage self.old.file (D.state disk.old)) }
    {
        if self.stopped {
            return Err(IndexFault::Stopped);
        }
        self.view.nearest(alloc, disk, q, k)
    }

    /// Returns the levels, numbers of entries, routing points and covering radii of the tree's nodes, in pre-order. The refusals
    /// are those of `range`.
    pub fn shape<D: Disk>(&mut self, alloc: Global, disk: &mut D) -> Result<Shape, IndexFault>
        requires stands { MayGoOn self.old (D.state disk.old) }
        ensures stopped { self.old.stopped ≡ true → (result ≡ Err IndexFault.Stopped) × (self.new ≡ self.old) × (disk.new ≡ disk.old) }
        ensures stands { MayGoOn self.new (D.state disk.new) }
        ensures reads { OnlyReads self.old.file self.new.file (D.state disk.old) (D.state disk.new) }
        ensures no_fault { OnOk result ((D.state disk.new).faults ≡ (D.state disk.old).faults) }
        ensures few { (D.state disk.new).reads ≤ (D.state disk.old).reads + self.old.file.live.pages }
        ensures rest { self.new ≡ record self.old { file = self.new.file } }
        ensures drawn { self.old.stopped ≡ false →
            HasDrawn (M.space self.old.file.metric) self.old.file (D.state disk.old) (D.state disk.new) result }
    {
        if self.stopped {
            return Err(IndexFault::Stopped);
        }
        self.view.shape(alloc, disk)
    }
}
