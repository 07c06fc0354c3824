// The open cursors of a session.
ghost use Rattle.std.specs.Prelude.{◌≡◌, ◌≤◌, ◌<◌, ◌+◌, ◌^◌, ◌==◌, ℕ, List, [], true, false, length, not, nat_lt, IsTrue, IfOk, IfErr, OnOk, OnErr, if◌then◌else◌};
ghost use Rattle.std.specs.List.{AllByRecursion, filter, position};
ghost use Rattle.disk_model.specs.Disk.{IsUnchanged};
ghost use Rattle.tree_shape.specs.Tree.{Nodes, IsSoundTree};
ghost use Rattle.page_store.specs.Reading.{nodes_of, reading};
ghost use Rattle.page_store.specs.Shelf.{IsPassing};
ghost use Rattle.node_page.specs.declared.node.Version.TheVariants.{Second};
ghost use Rattle.page_store.specs.Shelves.{disk_shelf};
ghost use Rattle.rows_text.specs.declared.command.Command.TheVariants as command;
ghost use Rattle.rows_text.specs.Meaning.{TagsAre, most_cursors};
ghost use Rattle.plain_scan.specs.OpenCursors.{OpenCursors};
ghost use Rattle.pin_cursor.specs.Cursor.{IsCursorOn, IsWalked};
ghost use Rattle.pin_cursor.specs.Steps.{GivesNext, HasStepCause as HasPageCause};
ghost use Rattle.index_core.specs.Answers.{IsSoundOn};
ghost use Rattle.index_core.specs.Causes.{BlamesNoPage, HasListCause};
ghost use Rattle.index_core.specs.Damage.{BlamesDamage};
ghost use Rattle.index_core.specs.Files.{OnlyReads, nodes_on};
ghost use Rattle.index_core.specs.Index.{MayGoOn};
ghost use Rattle.index_core.specs.Pinning.{AreReached, IsPinned, LiesBesideTree};
ghost use Rattle.index_core.specs.Writing.{GuardsPages};
ghost use Rattle.session_run.specs.Pinned.{AllGoThrough, AreKeptBy, CanGoOn, GoesThrough, HoldsTree, IsKeptBy, PinsFollow, StandFor, is_walked, pins_among, pins_for};
ghost use Rattle.session_run.specs.Session.{StandsBy};
ghost use Rattle.session_run.specs.Steps.{HasAdvanced, HasCarriedOut, HasClosed, HasStepCause, stop_of_page};

use crate::answer::{Answer, answer_of_fault};
use crate::stop::SessionStop;
use disk_model::Disk;
use index_core::{Index, IndexFault};
use metric_laws::{Meter, Metric, Point};
use page_store::laws::sound_trees_are_whole;
use page_store::{DiskPages, PageFault};
use pin_cursor::{Cursor, Stepped};
use rows_text::{Refusal, Reply};
use std::alloc::Global;

const MOST_CURSORS: usize = 16;

/// An open cursor: its number, and how far it went through the tree of its opening.
#[derive(Drop)]
pub struct PinnedCursor {
    /// Its number.
    pub number: u32,

    /// Where it stands.
    pub cursor: Cursor,
}

/// The open cursors of a session, in order of their numbers, and the number of the next one. Each tree is pinned once for all
/// cursors that go through it.
#[derive(Drop)]
pub struct PinnedCursors {
    /// The open cursors.
    pub cursors: Vec<PinnedCursor>,

    /// The number of the next cursor.
    pub next: u32,
}

// Steps `cursor` by up to `n` hits, in its tree as the disk has it.
// Clauses: what is asked of the caller (`point`, `few`, `some`); the answer (`each`, `gives`); what changes (`given`, `walks`); what stays
// (`same`, `live`, `point`); what an error leaves (`unchanged`); the cause of an error (`sound`, `cause`); faults of the devices (`later`).
fn step_cursor<M: Metric, D: Disk>(
    alloc: Global,
    index: &Index<M>,
    disk: &mut D,
    cursor: &mut Cursor,
    n: u64,
) -> Result<Stepped, PageFault>
    requires point { IsTrue ((M.space index.now.file.metric).is_point cursor.old.point) }
    requires few { cursor.old.live.pages ≤ 2 ^ 24 }
    requires some { 1 ≤ n }
    ensures same { IsUnchanged (D.state disk.old) (D.state disk.new) }
    ensures later { (D.state disk.old).faults ≤ (D.state disk.new).faults }
    ensures live { cursor.new.live ≡ cursor.old.live }
    ensures point { cursor.new.point ≡ cursor.old.point }
    ensures given { IfOk result (λ stepped. cursor.new.given ≡ cursor.old.given + length stepped.hits) }
    ensures each { IfOk result (λ stepped. length stepped.tags ≡ length stepped.hits) }
    ensures walks { IfOk result (λ _. IsTrue (D.state disk.old).is_known →
        IsWalked (nodes_of (reading index.now.file.head.dim cursor.old.live.pages (D.state disk.old).bytes)) cursor.old →
        IsWalked (nodes_of (reading index.now.file.head.dim cursor.old.live.pages (D.state disk.old).bytes)) cursor.new) }
    ensures unchanged { OnErr result (cursor.new ≡ cursor.old) }
    ensures gives { IfOk result (λ stepped. (nodes : Nodes) → IsTrue (D.state disk.old).is_known →
        IsSoundTree (M.space index.now.file.metric) nodes cursor.old.live →
        HoldsTree index.now.file.head.dim nodes cursor.old.live (D.state disk.old).bytes →
        IsCursorOn (M.space index.now.file.metric) nodes cursor.old →
        GivesNext (M.space index.now.file.metric) nodes cursor.old cursor.new n stepped.hits stepped.tags) }
    ensures sound { IfErr result (λ fault. (nodes : Nodes) → IsTrue (D.state disk.old).is_known →
        IsSoundTree (M.space index.now.file.metric) nodes cursor.old.live →
        HoldsTree index.now.file.head.dim nodes cursor.old.live (D.state disk.old).bytes →
        IsCursorOn (M.space index.now.file.metric) nodes cursor.old → IsPassing fault) }
    ensures cause { IfErr result (λ fault. (asked : ℕ)
        × HasPageCause cursor.old (disk_shelf Second index.now.file.head.dim cursor.old.live.pages (D.state disk.old) 0)
        (disk_shelf Second index.now.file.head.dim cursor.old.live.pages (D.state disk.new) asked) fault) }
{
    index.is_valid();
    let mut pages = DiskPages::new(disk, index.head().dim, cursor.live().pages);
    let mut ruler = Meter::new(index.metric());
    cursor.step(alloc, &mut pages, &mut ruler, n)
}

// Pins the live tree, unless an open cursor has it pinned already.
// Clauses: what is asked of the caller (`going`, `stands`, `pinned`); what changes (`pinned`, `guards`); what stays (`stands`, `reads`,
// `rest`, `guarded`); the cause of an error (`cause`, `damage`, `undamaged`).
fn pin_tree<M: Metric, D: Disk>(
    alloc: Global,
    index: &mut Index<M>,
    disk: &mut D,
    is_pinned: bool,
) -> Result<(), IndexFault>
    requires going { index.old.stopped ≡ false }
    requires stands { MayGoOn index.old (D.state disk.old) }
    requires pinned { is_pinned ≡ true → IsPinned index.old.file.live.generation index.old }
    ensures stands { MayGoOn index.new (D.state disk.new) }
    ensures reads { OnlyReads index.old.file index.new.file (D.state disk.old) (D.state disk.new) }
    ensures rest { index.new ≡ record index.old { file = index.new.file; free = index.new.free } }
    ensures pinned { OnOk result (IsPinned index.old.file.live.generation index.new) }
    ensures guards { OnOk result (IsTrue (D.state disk.old).is_known → (tree : List ℕ) →
        AreReached (nodes_on index.old.file (D.state disk.old)) index.old.file.live.root tree →
        GuardsPages index.old.file.live.generation tree index.new) }
    ensures guarded { (generation : ℕ) (tree : List ℕ) → GuardsPages generation tree index.old → GuardsPages generation tree index.new }
    ensures cause { IfErr result (HasListCause index.old.file (D.state disk.old) (D.state disk.new).faults) }
    ensures damage { IfErr result (BlamesDamage index.old.file (D.state disk.old)) }
    ensures undamaged { IfErr result (λ fault. IsSoundOn (M.space index.old.file.metric) index.old.file (D.state disk.old) →
        BlamesNoPage fault) }
{
    let live = index.pin(alloc, disk)?;
    if !is_pinned {
        return Ok(());
    }
    index.unpin(live.generation);
    Ok(())
}

impl PinnedCursors {
    /// Makes no open cursors; the first will have the number 0.
    pub fn new(alloc: Global) -> Self
        ensures cursors { result.cursors.items ≡ [] }
        ensures next { result.next ≡ 0 }
    {
        PinnedCursors {
            cursors: Vec::new(alloc),
            next: 0,
        }
    }

    // Returns whether as many cursors are open as may be.
    fn is_full(&self) -> bool
        ensures { result ≡ not (nat_lt (length self.now.cursors.items) most_cursors) }
    {
        self.cursors.len() >= MOST_CURSORS
    }

    // Returns whether an open cursor goes through the tree of `generation`.
    fn has_tree(&self, generation: u64) -> bool
        ensures { result ≡ is_walked generation self.now.cursors.items }
    {
        self.cursors
            .iter()
            .any(|pinned| pinned.cursor.live().generation == generation)
    }

    // Returns the place of the open cursor `number`.
    fn place_of(&self, number: u32) -> Option<usize>
        ensures { result ≡ position (λ c. c.number == number) self.now.cursors.items }
    {
        self.cursors
            .iter()
            .position(|pinned| pinned.number == number)
    }

    /// Opens a cursor over all objects, from the one nearest to `q` on, and pins its tree.
    pub fn open<M: Metric, D: Disk>(
        &mut self,
        alloc: Global,
        index: &mut Index<M>,
        disk: &mut D,
        show: bool,
        q: &Point,
    ) -> Result<Answer, SessionStop>
        requires going { index.old.stopped ≡ false }
        requires stands { MayGoOn index.old (D.state disk.old) }
        requires point { IsTrue ((M.space index.old.file.metric).is_point q.now) }
        requires numbers { self.old.next + 1 < 2 ^ 32 }
        requires kept { AreKeptBy (M.space index.old.file.metric) index.old self.old }
        ensures stands { MayGoOn index.new (D.state disk.new) }
        ensures done { HasCarriedOut (M.space index.old.file.metric) show index.old index.new self.old self.new (D.state disk.old)
            (D.state disk.new) (command.Cursor q.now) result }
    {
        index.is_valid();
        sound_trees_are_whole();
        if self.is_full() {
            return Ok(Answer::plain(Reply::Refused(Refusal::Cursors)));
        }
        let live = index.live();
        let point = Point::new(alloc, q.as_slice())?;
        let cursor = Cursor::open(alloc, live, point)?;
        self.cursors.reserve(1)?;
        let is_pinned = self.has_tree(live.generation);
        if let Err(fault) = pin_tree(alloc, index, disk, is_pinned) {
            return answer_of_fault(fault);
        }
        let number = self.next;
        self.cursors.push_reserved(PinnedCursor { number, cursor });
        self.next = number + 1;
        Ok(Answer::plain(Reply::Cursor(number)))
    }

    /// Returns the next `n` hits of cursor `number`, or all that are left.
    /// Clauses: what is asked of the caller (`kept`, `some`); the answer (`tagged`, `advanced`); what stays (`same`, `kept`, `next`,
    /// `through`); the cause of an error (`cause`, `damage`); faults of the devices (`later`).
    pub fn advance<M: Metric, D: Disk>(
        &mut self,
        alloc: Global,
        index: &Index<M>,
        disk: &mut D,
        number: u32,
        n: u64,
    ) -> Result<Reply, SessionStop>
        requires kept { AreKeptBy (M.space index.now.file.metric) index.now self.old }
        requires some { 1 ≤ n }
        ensures same { IsUnchanged (D.state disk.old) (D.state disk.new) }
        ensures later { (D.state disk.old).faults ≤ (D.state disk.new).faults }
        ensures kept { AreKeptBy (M.space index.now.file.metric) index.now self.new }
        ensures next { self.new.next ≡ self.old.next }
        ensures tagged { IfOk result TagsAre }
        ensures advanced { IfOk result (λ reply. (opened : OpenCursors) → IsTrue (D.state disk.old).is_known →
            StandFor (M.space index.now.file.metric) index.now (D.state disk.old).bytes self.old opened →
            HasAdvanced (M.space index.now.file.metric) index.now (D.state disk.new).bytes self.new opened number n reply) }
        ensures cause { IfErr result (HasStepCause (CanGoOn (M.space index.now.file.metric) index.now (D.state disk.old) self.old)
            (D.state disk.old) (D.state disk.new)) }
        ensures damage { IfErr result (λ why. AllGoThrough index.now (D.state disk.old) self.old →
            StandsBy index.now.file.head (D.state disk.new) why) }
        ensures through { OnOk result (AllGoThrough index.now (D.state disk.old) self.old →
            AllGoThrough index.now (D.state disk.new) self.new) }
    {
        let Some(place) = self.place_of(number) else {
            return Ok(Reply::Refused(Refusal::NoCursor));
        };
        let pinned = &mut self.cursors[place];
        let stepped = step_cursor(alloc, index, disk, &mut pinned.cursor, n)?;
        Ok(Reply::Next {
            hits: stepped.hits,
            tags: stepped.tags,
        })
    }

    // Takes back the pin of the tree of `generation`, unless an open cursor goes through it.
    fn release<M: Metric>(&self, index: &mut Index<M>, generation: u64)
        requires pinned { IsPinned generation index.old }
        requires kept { AllByRecursion (IsKeptBy (M.space index.old.file.metric) index.old) self.now.cursors.items }
        ensures only { index.new ≡ record index.old { free = index.new.free } }
        ensures kept { AllByRecursion (IsKeptBy (M.space index.old.file.metric) index.new) self.now.cursors.items }
        ensures guarded { (other : ℕ) (tree : List ℕ) → IsPinned other index.new →
            GuardsPages other tree index.old → GuardsPages other tree index.new }
        ensures beside { (nodes : Nodes) → LiesBesideTree nodes index.old → LiesBesideTree nodes index.new }
        ensures pins { (other : ℕ) →
            pins_among other index.new.free + (if generation == other then 1 else pins_for other self.now.cursors.items) ≡
            pins_among other index.old.free + pins_for other self.now.cursors.items }
    {
        if self.has_tree(generation) {
            return;
        }
        index.unpin(generation);
    }

    // Removes cursor `number`.
    fn remove(&mut self, number: u32)
        ensures cursors { self.new.cursors.items ≡ filter (λ c. not (c.number == number)) self.old.cursors.items }
        ensures next { self.new.next ≡ self.old.next }
    {
        self.cursors.retain(|pinned| pinned.number != number);
    }

    /// Closes cursor `number`.
    pub fn close<M: Metric>(&mut self, index: &mut Index<M>, number: u32) -> Reply
        requires kept { AreKeptBy (M.space index.old.file.metric) index.old self.old }
        ensures only { index.new ≡ record index.old { free = index.new.free } }
        ensures kept { AreKeptBy (M.space index.old.file.metric) index.new self.new }
        ensures next { self.new.next ≡ self.old.next }
        ensures tagged { TagsAre result }
        ensures beside { (nodes : Nodes) → LiesBesideTree nodes index.old → LiesBesideTree nodes index.new }
        ensures through { (bytes : List ℕ) → AllByRecursion (GoesThrough index.old bytes) self.old.cursors.items →
            AllByRecursion (GoesThrough index.new bytes) self.new.cursors.items }
        ensures closed { (bytes : List ℕ) (opened : OpenCursors) →
            StandFor (M.space index.old.file.metric) index.old bytes self.old opened →
            HasClosed (M.space index.old.file.metric) index.new bytes self.new opened number result }
    {
        let Some(place) = self.place_of(number) else {
            return Reply::Refused(Refusal::NoCursor);
        };
        let generation = self.cursors[place].cursor.live().generation;
        self.remove(number);
        self.release(index, generation);
        Reply::Closed(number)
    }

    /// Closes all open cursors, and takes back the pin of each of their trees.
    pub fn close_all<M: Metric>(&mut self, index: &mut Index<M>)
        requires kept { AllByRecursion (IsKeptBy (M.space index.old.file.metric) index.old) self.old.cursors.items }
        ensures only { index.new ≡ record index.old { free = index.new.free } }
        ensures beside { (nodes : Nodes) → LiesBesideTree nodes index.old → LiesBesideTree nodes index.new }
        ensures none { self.new.cursors.items ≡ [] }
        ensures pins { PinsFollow index.old index.new self.old.cursors.items [] }
    {
        while let Some(pinned) = self.cursors.pop() {
            self.release(index, pinned.cursor.live().generation);
        }
    }
}
