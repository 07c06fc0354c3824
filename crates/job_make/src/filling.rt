// Fills a new index with all its objects at once.
ghost use Rattle.std.specs.Prelude.{◌≡◌, ◌≤◌, ◌<◌, false, length, All, IsTrue, IfOk, IfErr, OnOk};
ghost use Rattle.disk_model.specs.Disk.{EachImage, LeavesOnly};
ghost use Rattle.metric_mix.specs.MixKinds.{mix_kind, mix_dim};
ghost use Rattle.node_page.specs.Heads.{IsValidHead};
ghost use Rattle.shadow_root.specs.Making.{IsMade, first_live};
ghost use Rattle.index_core.specs.Index.{MayGoOn};
ghost use Rattle.job_files.specs.Spaces.{space_of};
ghost use Rattle.job_make.specs.declared.filling.FillFault.TheVariants as unfilled;
ghost use Rattle.job_make.specs.Filling.{HasFillCause, HoldsNoneOrAll, IsFilled, fault_of};

use bulk_load::Crew;
use disk_model::Disk;
use index_core::{Index, IndexFault};
use job_files::laws::heads_have_spaces;
use job_files::space_of;
use metric_laws::{Metric, Rows};
use metric_mix::MixSpace;
use node_page::Head;
use node_page::laws::{fault_is_not_open, one_live_slot};
use page_store::PageFault;
use shadow_root::OpenFault;
use std::alloc::Global;
use thiserror::Error;
use tree_shape::Live;

/// Why a new index was not filled.
#[derive(Clone, Copy, Debug, PartialEq, Eq, Error)]
pub enum FillFault {
    /// The new index does not open.
    #[error("the new index does not open: {0}")]
    Unopened(OpenFault),
    /// The file is no longer the one that was made.
    #[error("the new index is another one now")]
    Changed,
    /// The disk failed.
    #[error("the disk failed")]
    Disk,
    /// A page of the new index is damaged.
    #[error("a damaged index: {0}")]
    Damaged(PageFault),
    /// Memory ran out.
    #[error("out of memory")]
    Memory,
}

impl From<OpenFault> for FillFault {
    ghost from_gives = { λ fault e. e ≡ unfilled.Unopened fault };

    fn from(fault: OpenFault) -> FillFault {
        FillFault::Unopened(fault)
    }
}

impl From<IndexFault> for FillFault {
    ghost from_gives = { λ fault e. e ≡ fault_of fault };

    fn from(fault: IndexFault) -> FillFault {
        match fault {
            IndexFault::Disk | IndexFault::Commit | IndexFault::Stopped => FillFault::Disk,
            IndexFault::Memory => FillFault::Memory,
            IndexFault::Damaged(page) => FillFault::Damaged(page),
            IndexFault::Full
            | IndexFault::NotEmpty
            | IndexFault::NoRoom { .. }
            | IndexFault::Worn => FillFault::Changed,
        }
    }
}

/// Objects by their ids, from 0 on.
#[derive(Drop)]
pub struct Objects {
    /// The objects' points.
    pub rows: Rows,
    /// The objects' tags, as many as there are points.
    pub tags: Vec<u64>,
}

// Returns whether the index has this head and this live slot.
fn is_of<M: Metric>(index: &Index<M>, head: &Head, live: &Live) -> bool
    ensures yes { IsTrue result → (index.now.file.head ≡ head.now) × (index.now.file.live ≡ live.now) }
    ensures no { index.now.file.head ≡ head.now → index.now.file.live ≡ live.now → IsTrue result }
{
    index.head() == *head && index.live() == *live
}

/// Opens the index of a file that was just made, with this head and this live slot, and loads these objects into it, if there are
/// any. `crew` does the work, with `workers` workers, 1 to 64. At every moment a crash leaves the file with no object or with all of
/// them. `Unopened`, `Changed` and `Damaged` come only on a disk that does not tell its bytes, where the bytes are not those that
/// were written. `Disk` (and `Unopened` with it) comes only where the disk failed.
/// Clauses: what is asked of the caller (`ready`, `valid`, `some`, `many`, `first`, `made`, `only`, `is_point`, `few`, `tags`); the answer
/// (`filled`, `going`, `stands`, `head`, `kind`, `dim`); what a crash may leave (`moments`); what stays (`is_known`); the cause of an error
/// (`cause`); faults of the devices (`later`, `no_fault`).
/// Arguments: `crew` and `workers` do the work, `disk`, `head` and `live` are the file that was just made, and `objects` goes into it.
pub fn fill<W: Crew<MixSpace>, D: Disk>(
    crew: &W,
    alloc: Global,
    disk: &mut D,
    head: &Head,
    live: &Live,
    workers: usize,
    objects: &Objects,
) -> Result<Index<MixSpace>, FillFault>
    requires ready { W.ready crew.now }
    requires valid { IsValidHead head.now }
    requires some { 1 ≤ workers }
    requires many { workers ≤ 64 }
    requires first { live.now ≡ first_live }
    requires made { IsTrue (D.state disk.old).is_known → IsMade head.now (D.state disk.old).bytes }
    requires only { LeavesOnly (D.state disk.old) (D.state disk.old).bytes }
    requires is_point { All (λ p. IsTrue ((space_of head.now).is_point p)) objects.now.rows.points }
    requires few { length objects.now.rows.points ≤ head.now.limit }
    requires tags { length objects.now.tags.items ≡ length objects.now.rows.points }
    ensures filled { IsTrue (D.state disk.old).is_known →
        IfOk result (IsFilled head.now objects.now.rows.points objects.now.tags.items (D.state disk.new)) }
    ensures going { IfOk result (λ index. index.stopped ≡ false) }
    ensures stands { IfOk result (λ index. MayGoOn index (D.state disk.new)) }
    ensures head { IfOk result (λ index. index.file.head ≡ head.now) }
    ensures kind { IfOk result (λ index. mix_kind index.file.metric ≡ head.now.kind) }
    ensures dim { IfOk result (λ index. mix_dim index.file.metric ≡ head.now.dim) }
    ensures moments { IsTrue (D.state disk.old).is_known →
        EachImage (D.state disk.old) (D.state disk.new) (HoldsNoneOrAll head.now objects.now.rows.points objects.now.tags.items) }
    ensures cause { IfErr result (HasFillCause (D.state disk.old) (D.state disk.new)) }
    ensures is_known { (D.state disk.new).is_known ≡ (D.state disk.old).is_known }
    ensures later { (D.state disk.old).faults ≤ (D.state disk.new).faults }
    ensures no_fault { OnOk result ((D.state disk.new).faults ≡ (D.state disk.old).faults) }
{
    fault_is_not_open();
    one_live_slot();
    heads_have_spaces();
    let mut index = Index::open_write(disk, space_of(head))?;
    if !is_of(&index, head, live) {
        return Err(FillFault::Changed);
    }
    index.set_workers(workers);
    if objects.rows.is_empty() {
        return Ok(index);
    }
    index.load_tagged(crew, alloc, disk, &objects.rows, &objects.tags)?;
    Ok(index)
}
