ghost use Rattle.std.specs.Prelude.{◌≡◌, ℕ, ◌≤◌, ◌+◌, [], IsTrue, IfOk, IfErr, OnOk, OnErr, None, Some};
ghost use Rattle.lru.specs.LruCache.{lru_cache};
ghost use Rattle.scan_model.specs.declared.query.Query.TheVariants.{Range, Nearest};
ghost use Rattle.disk_model.specs.Disk.{IsUnchanged};
ghost use Rattle.node_page.specs.Heads.{IsValidHead};
ghost use Rattle.node_page.specs.Opening.{IsValidLive};
ghost use Rattle.nearest_search.specs.Searched.{IsFront};
ghost use Rattle.page_store.specs.Shelf.{Shelf};
ghost use Rattle.page_store.specs.Shelves.{disk_shelf};
ghost use Rattle.index_core.specs.Lending.{lent_inner, lent_kept, lent_shelf, KeptAgrees};
ghost use Rattle.index_core.specs.Files.{StandsOn, IsValidFile, OnlyReads, nodes_on, pages_on};
ghost use Rattle.index_core.specs.Causes.{HasReaderCause};
ghost use Rattle.index_core.specs.Answers.{HasSearched, IsFoundOn, HasRangeCause, HasReachCause, HasDrawn};

use crate::IndexFault;
use crate::faults::answer_of;
use crate::lending::Lent;
use disk_model::Disk;
use log_model::Found;
use metric_laws::{Meter, Metric};
use nearest_search::nearest;
use node_page::{Head, HeadFault};
use page_cache::Kept;
use page_cache::laws::empty_cache_agrees;
use page_store::DiskPages;
use range_search::range;
use shadow_root::{OpenFault, open};
use std::alloc::{AllocError, Global};
use std::marker::Model;
use tree_outline::{Shape, shape_of};
use tree_shape::Live;

/// An index file that is opened for reading. It does not hold its disk: each call that reads gets one. No call writes or syncs.
/// Contracts see the head, the live slot, the metric, and the cache of nodes.
#[derive(Drop)]
pub struct View<M: Metric> {
    pub(crate) head: Head,
    pub(crate) live: Live,
    pub(crate) metric: M,
    pub(crate) kept: Option<Kept>,
}

impl<M: Metric> Model for View<M> {
    ghost use Rattle.index_core.specs.Files.{OpenFile, IsValidFile};

    ghost Value = { OpenFile M };

    ghost view = { λ o. record { head = o.head; live = o.live; metric = o.metric; kept = o.kept } };

    ghost invariant = { λ o. IsValidFile (M.space o.metric).dimension (record {
      head = o.head;
      live = o.live;
      metric = o.metric;
      kept = o.kept;
    }) };
}

impl<M: Metric> View<M> {
    /// Opens an index file whose points `metric` measures. Besides the faults of a file that is no index,
    /// `Head(HeadFault::Version)` comes where the file is of version 1, and `Head(HeadFault::Space)` where its points have another
    /// number of coordinates than the metric's. `Disk` comes where the disk failed.
    /// Clauses: the answer (`stands`, `valid`, `metric`, `none_kept`); what stays (`same`); the cost (`reads`); the cause of an error
    /// (`cause`); faults of the devices (`later`, `no_fault`).
    pub fn open_read<D: Disk>(disk: &mut D, metric: M) -> Result<Self, OpenFault>
        ensures stands { IfOk result (λ view. StandsOn view (D.state disk.new)) }
        ensures valid { IfOk result (IsValidFile (M.space metric).dimension) }
        ensures metric { IfOk result (λ view. view.metric ≡ metric) }
        ensures none_kept { IfOk result (λ view. view.kept ≡ None) }
        ensures cause { IfErr result (HasReaderCause (M.space metric).dimension (D.state disk.old) (D.state disk.new)) }
        ensures same { IsUnchanged (D.state disk.old) (D.state disk.new) }
        ensures reads { (D.state disk.new).reads ≤ (D.state disk.old).reads + 3 }
        ensures later { (D.state disk.old).faults ≤ (D.state disk.new).faults }
        ensures no_fault { OnOk result ((D.state disk.new).faults ≡ (D.state disk.old).faults) }
    {
        let (head, live) = open(disk)?;
        if head.version != 2 {
            return Err(OpenFault::Head(HeadFault::Version));
        }
        if metric.dimension() != usize::from(head.dim) {
            return Err(OpenFault::Head(HeadFault::Space));
        }
        Ok(View::of(head, live, metric))
    }

    // Makes the view of a file of version 2 that was opened to `head` and `live`. Nothing is kept of its nodes.
    pub(crate) fn of(head: Head, live: Live, metric: M) -> Self
        requires head { IsValidHead head }
        requires version { head.version ≡ 2 }
        requires dimension { (M.space metric).dimension ≡ head.dim }
        requires side { live.side ≤ 1 }
        requires live { (size : ℕ) × IsValidLive head.limit size live }
        ensures { result ≡ record { head = head; live = live; metric = metric; kept = None } }
    {
        View {
            head,
            live,
            metric,
            kept: None,
        }
    }

    /// States what always holds of an opened file, for callers that hold a reference to one.
    pub fn is_valid(&self)
        ensures { IsValidFile (M.space self.now.metric).dimension self.now }
    {
        let _head = &self.head;
    }

    /// Returns the number of objects.
    pub fn count(&self) -> u32
        ensures { result ≡ self.now.live.count }
    {
        self.live.count
    }

    /// Returns the live slot of the file.
    pub fn live(&self) -> Live
        ensures { result ≡ self.now.live }
    {
        self.live
    }

    /// Returns the head of the file.
    pub fn head(&self) -> Head
        ensures { result ≡ self.now.head }
    {
        self.head
    }

    /// Returns the metric with which the file was opened.
    pub fn metric(&self) -> M
        ensures { result ≡ self.now.metric }
    {
        self.metric
    }

    /// Keeps the last `nodes` nodes asked for from now on (at least 1): a page whose node is kept is not read again. What was kept
    /// before is dropped. `Memory` changes nothing.
    pub fn use_cache(&mut self, alloc: Global, nodes: usize) -> Result<(), AllocError>
        requires { 1 ≤ nodes }
        ensures ok { OnOk result (self.new ≡ record self.old { kept = Some (lru_cache [] nodes) }) }
        ensures err { OnErr result (self.new ≡ self.old) }
        // Nothing is kept yet, so nothing can contradict a disk.
        ensures agrees { OnOk result ((pages : Shelf) → KeptAgrees self.new.kept pages) }
    {
        empty_cache_agrees();
        self.kept = Some(Kept::new(alloc, nodes)?);
        Ok(())
    }

    // Lends the pages of the file on its disk, behind the cache if there is one. The borrower gives the cache back.
    pub(crate) fn lend<'a, D: Disk>(&mut self, disk: &'a mut D) -> Lent<DiskPages<'a, D>>
        requires stands { StandsOn self.old (D.state disk.old) }
        ensures taken { self.new ≡ record self.old { kept = None } }
        ensures kept { lent_kept result ≡ self.old.kept }
        ensures same_reference { (lent_inner result).disk.ghost_name ≡ disk.entry.ghost_name }
        ensures same { (lent_inner result).disk.now ≡ disk.old }
        ensures shelf { lent_shelf (λ p. disk_shelf p.version p.dim p.pages (D.state p.disk.now) p.asked) result
            ≡ pages_on self.old (D.state disk.old) 0 }
    {
        let pages = DiskPages::new(disk, self.head.dim, self.live.pages);
        Lent::of(pages, self.kept.take())
    }

    /// Returns every object within `r` of `q`, by distance, then by id, and the log that shows it. `Damaged` holds `Bad`, `Outside`
    /// or `Repeats` with the page that the walk reached; none of these comes on a sound file. `Disk` comes where the disk failed. The
    /// disk is read at most once per record of the log, and never more often than the file has pages.
    /// Clauses: what is asked of the caller (`stands`, `point`); the answer (`searched`); the answer and its cost (`found`); what stays
    /// (`stands`, `reads`); the cost (`few`); the cause of an error (`cause`); faults of the devices (`no_fault`).
    pub fn range<D: Disk>(
        &mut self,
        alloc: Global,
        disk: &mut D,
        q: &[u32],
        r: u64,
    ) -> Result<Found, IndexFault>
        requires stands { StandsOn self.old (D.state disk.old) }
        requires point { IsTrue ((M.space self.old.metric).is_point q.now) }
        ensures stands { StandsOn self.new (D.state disk.new) }
        ensures reads { OnlyReads self.old self.new (D.state disk.old) (D.state disk.new) }
        ensures no_fault { OnOk result ((D.state disk.new).faults ≡ (D.state disk.old).faults) }
        ensures few { (D.state disk.new).reads ≤ (D.state disk.old).reads + self.old.live.pages }
        ensures searched { HasSearched (M.space self.old.metric) self.old (Range q.now r) (D.state disk.old) (D.state disk.new) result }
        ensures found { IfOk result (IsFoundOn (M.space self.old.metric) self.old (Range q.now r) (D.state disk.old) (D.state disk.new)) }
        ensures cause { IfErr result (HasRangeCause (M.space self.old.metric) self.old q.now r (D.state disk.old) (D.state disk.new)) }
    {
        let mut ruler = Meter::new(self.metric);
        let mut pages = self.lend(disk);
        let answer = range(alloc, &mut pages, &mut ruler, &self.live, q, r);
        let (inner, kept) = pages.into_parts();
        let _disk = inner.disk;
        self.kept = kept;
        answer_of(answer)
    }

    /// Returns the `k` objects nearest to `q`, by distance, then by id, and the log that shows it. The refusals are those of `range`.
    /// On a sound file the disk is read at most once per record of the log, and on any file never more often than it has pages.
    /// Clauses: what is asked of the caller (`stands`, `point`, `some`); the answer (`searched`, `front`); what stays (`stands`, `reads`);
    /// the cost (`few`); the cause of an error (`cause`); faults of the devices (`no_fault`).
    pub fn nearest<D: Disk>(
        &mut self,
        alloc: Global,
        disk: &mut D,
        q: &[u32],
        k: u64,
    ) -> Result<Found, IndexFault>
        requires stands { StandsOn self.old (D.state disk.old) }
        requires point { IsTrue ((M.space self.old.metric).is_point q.now) }
        requires some { 1 ≤ k }
        ensures stands { StandsOn self.new (D.state disk.new) }
        ensures reads { OnlyReads self.old self.new (D.state disk.old) (D.state disk.new) }
        ensures no_fault { OnOk result ((D.state disk.new).faults ≡ (D.state disk.old).faults) }
        ensures few { (D.state disk.new).reads ≤ (D.state disk.old).reads + self.old.live.pages }
        ensures searched { HasSearched (M.space self.old.metric) self.old (Nearest q.now k) (D.state disk.old) (D.state disk.new) result }
        // On any file: the records are a front of a walk with the least marks, and the answers are those that the records name.
        ensures front { IfOk result (λ found. IsTrue (D.state disk.old).is_known →
            IsFront (M.space self.old.metric) (nodes_on self.old (D.state disk.old)) self.old.live q.now k found.log) }
        ensures cause { IfErr result (HasReachCause self.old (D.state disk.old) (D.state disk.new)) }
    {
        let mut ruler = Meter::new(self.metric);
        let mut pages = self.lend(disk);
        let answer = nearest(alloc, &mut pages, &mut ruler, &self.live, q, k);
        let (inner, kept) = pages.into_parts();
        let _disk = inner.disk;
        self.kept = kept;
        answer_of(answer)
    }

    /// Returns the height, the number of objects, and for each node of the tree, in pre-order, its level, its number of entries, and
    /// the routing point and the covering radius by which it is named. The refusals are those of `range`, where the walk by child
    /// numbers reaches such a page. The disk is read at most once per line, and never more often than the file has pages.
    pub fn shape<D: Disk>(&mut self, alloc: Global, disk: &mut D) -> Result<Shape, IndexFault>
        requires stands { StandsOn self.old (D.state disk.old) }
        ensures stands { StandsOn self.new (D.state disk.new) }
        ensures reads { OnlyReads self.old self.new (D.state disk.old) (D.state disk.new) }
        ensures no_fault { OnOk result ((D.state disk.new).faults ≡ (D.state disk.old).faults) }
        ensures few { (D.state disk.new).reads ≤ (D.state disk.old).reads + self.old.live.pages }
        ensures drawn { HasDrawn (M.space self.old.metric) self.old (D.state disk.old) (D.state disk.new) result }
    {
        let mut pages = self.lend(disk);
        let answer = shape_of(alloc, &mut pages, &self.live);
        let (inner, kept) = pages.into_parts();
        let _disk = inner.disk;
        self.kept = kept;
        answer_of(answer)
    }
}
