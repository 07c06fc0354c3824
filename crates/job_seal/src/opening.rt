// Opens an index that is not too large to be sealed.
ghost use Rattle.std.specs.Prelude.{◌≡◌, ◌≤◌, IsTrue, IfOk, IfErr, OnOk};
ghost use Rattle.disk_model.specs.Disk.{IsUnchanged};
ghost use Rattle.node_page.specs.Heads.{IsValidHead};
ghost use Rattle.node_page.specs.Opening.{OpensTo};
ghost use Rattle.job_seal.specs.Seals.{Refuses};

use disk_model::Disk;
use job_files::{FAULT_LONG, MOST_WHOLE_PAGES, end_with, open_index};
use node_page::Head;
use outside_io::{Sink, Status};
use tree_shape::Live;

/// Opens an index of version 2 with at most 262144 pages. Otherwise it writes why the file is none, and returns the status: 5 where
/// the disk failed, 6 where the file is no index of version 2, and 7 where it has more pages. Changes nothing.
/// Clauses: the answer (`opens`, `version`, `head`, `some`, `few`); what stays (`same`, `silent`); the cause of an error (`refuses`);
/// faults of the devices (`later`, `written_later`).
pub fn open_small<D: Disk, K: Sink>(disk: &mut D, out: &mut K) -> Result<(Head, Live), Status>
    ensures same { IsUnchanged (D.state disk.old) (D.state disk.new) }
    ensures opens { IfOk result (λ opened. IsTrue (D.state disk.old).is_known → OpensTo (D.state disk.old).bytes opened.0 opened.1) }
    ensures version { IfOk result (λ opened. opened.0.version ≡ 2) }
    ensures head { IfOk result (λ opened. IsValidHead opened.0) }
    ensures some { IfOk result (λ opened. 4 ≤ opened.1.pages) }
    ensures few { IfOk result (λ opened. opened.1.pages ≤ 262144) }
    ensures silent { OnOk result (out.new ≡ out.old) }
    ensures refuses { IfErr result (λ status. Refuses (D.state disk.old) (D.state disk.new) (K.state out.old) (K.state out.new) status.0) }
    ensures later { (D.state disk.old).faults ≤ (D.state disk.new).faults }
    ensures written_later { (K.state out.old).faults ≤ (K.state out.new).faults }
{
    let (head, live) = open_index(disk, out)?;
    if live.pages > MOST_WHOLE_PAGES {
        return Err(end_with(out, FAULT_LONG, 7));
    }
    Ok((head, live))
}
