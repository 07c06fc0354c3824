// The tags of what a query of an opened index found.
ghost use Rattle.std.specs.Prelude.{◌≡◌, true, false, Err, IfErr, OnOk};
ghost use Rattle.index_core.specs.Answers.{HasTagged};
ghost use Rattle.index_core.specs.Damage.{BlamesDamage};
ghost use Rattle.index_core.specs.Files.{StandsOn, OnlyReads};
ghost use Rattle.index_core.specs.Index.{MayGoOn};

use crate::IndexFault;
use crate::faults::answer_of;
use crate::index::Index;
use crate::view::View;
use disk_model::Disk;
use hit_tags::tags_of;
use log_model::Found;
use metric_laws::Metric;
use std::alloc::Global;

impl<M: Metric> View<M> {
    /// Returns the tag of each hit, by the walk of the found log: the tag of the first object with the hit's id that the walk meets,
    /// and 0 where it meets none. For what `range` or `nearest` found on a sound file these are the tags of the hits' objects. No
    /// distance is computed, and the disk is read at most once per record of the log. The refusals are those of `range`, except that
    /// no page is `Repeats`.
    pub fn tags<D: Disk>(
        &mut self,
        alloc: Global,
        disk: &mut D,
        found: &Found,
    ) -> Result<Vec<u64>, IndexFault>
        requires stands { StandsOn self.old (D.state disk.old) }
        ensures stands { StandsOn self.new (D.state disk.new) }
        ensures reads { OnlyReads self.old self.new (D.state disk.old) (D.state disk.new) }
        ensures no_fault { OnOk result ((D.state disk.new).faults ≡ (D.state disk.old).faults) }
        ensures tagged { HasTagged (M.space self.old.metric) self.old found.now (D.state disk.old) (D.state disk.new) result }
    {
        let live = self.live;
        let mut pages = self.lend(disk);
        let answer = tags_of(alloc, &mut pages, &live, found);
        let (inner, kept) = pages.into_parts();
        let _disk = inner.disk;
        self.kept = kept;
        answer_of(answer)
    }
}

impl<M: Metric> Index<M> {
    /// Returns the tag of each hit, by the walk of the found log. The refusals are those of `range`, except that no page is `Repeats`.
    pub fn tags<D: Disk>(
        &mut self,
        alloc: Global,
        disk: &mut D,
        found: &Found,
    ) -> Result<Vec<u64>, IndexFault>
        requires stands { MayGoOn self.old (D.state disk.old) }
        ensures stopped { self.old.stopped ≡ true → (result ≡ Err IndexFault.Stopped) × (self.new ≡ self.old) × (disk.new ≡ disk.old) }
        ensures stands { MayGoOn self.new (D.state disk.new) }
        ensures reads { OnlyReads self.old.file self.new.file (D.state disk.old) (D.state disk.new) }
        ensures no_fault { OnOk result ((D.state disk.new).faults ≡ (D.state disk.old).faults) }
        ensures rest { self.new ≡ record self.old { file = self.new.file } }
        ensures tagged { self.old.stopped ≡ false → HasTagged (M.space self.old.file.metric) self.old.file found.now
            (D.state disk.old) (D.state disk.new) result }
        // A page that the refusal blames is damaged.
        ensures damage { IfErr result (BlamesDamage self.old.file (D.state disk.old)) }
    {
        if self.stopped {
            return Err(IndexFault::Stopped);
        }
        self.view.tags(alloc, disk, found)
    }
}
