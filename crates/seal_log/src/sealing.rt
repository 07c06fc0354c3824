// The seal of a file.
ghost use Rattle.std.specs.Prelude.{◌≡◌, ◌+◌, ◌≤◌, ◌<◌, ◌^◌, length, IsTrue, IfOk, OnOk, IsErrOf};
ghost use Rattle.outside_io.specs.Causes.{Rose};
ghost use Rattle.disk_model.specs.Disk.{IsUnchanged};
ghost use Rattle.node_page.specs.Opening.{page_of};
ghost use Rattle.sha2.specs.Sha256.{sha256};
ghost use Rattle.seal_log.specs.Digests.{leaf_message, leaf_digests};

use crate::digests::leaf_digest;
use crate::{SealFault, Tree};
use disk_model::Disk;
use page_store::read_page;
use std::alloc::Global;

// Reads page `page` and returns its digest.
fn seal_page<D: Disk>(disk: &mut D, page: u32) -> Result<[u8; 32], SealFault>
    requires { page < 2 ^ 24 }
    ensures sealed { IfOk result (λ digest. IsTrue (D.state disk.old).is_known →
        digest ≡ sha256 (leaf_message (page_of (D.state disk.old).bytes page))) }
    ensures disk { IsErrOf result SealFault.Disk → Rose (D.state disk.old).faults (D.state disk.new).faults }
    ensures later { (D.state disk.old).faults ≤ (D.state disk.new).faults }
    ensures no_fault { OnOk result ((D.state disk.new).faults ≡ (D.state disk.old).faults) }
    ensures same { IsUnchanged (D.state disk.old) (D.state disk.new) }
    ensures reads { (D.state disk.new).reads ≤ (D.state disk.old).reads + 1 }
{
    let mut bytes = [0; 4096];
    if read_page(disk, page, &mut bytes).is_err() {
        return Err(SealFault::Disk);
    }
    Ok(leaf_digest(&bytes))
}

/// Returns the tree over the digests of the first `pages` pages of a file. Reads each page once. `Disk` comes only where the disk
/// failed. Changes nothing.
/// Clauses: what is asked of the caller (`some`, `few`); the answer (`sealed`, `size`); what stays (`same`); the cost (`reads`); the cause
/// of an error (`disk`); faults of the devices (`later`, `no_fault`).
pub fn seal<D: Disk>(alloc: Global, disk: &mut D, pages: u32) -> Result<Tree, SealFault>
    requires some { 4 ≤ pages }
    requires few { pages ≤ 262144 }
    ensures sealed { IfOk result (λ tree. IsTrue (D.state disk.old).is_known → tree ≡ leaf_digests (D.state disk.old).bytes pages) }
    ensures size { IfOk result (λ tree. length tree ≡ pages) }
    ensures disk { IsErrOf result SealFault.Disk → Rose (D.state disk.old).faults (D.state disk.new).faults }
    ensures later { (D.state disk.old).faults ≤ (D.state disk.new).faults }
    ensures no_fault { OnOk result ((D.state disk.new).faults ≡ (D.state disk.old).faults) }
    ensures same { IsUnchanged (D.state disk.old) (D.state disk.new) }
    ensures reads { (D.state disk.new).reads ≤ (D.state disk.old).reads + pages }
{
    let mut leaves = Vec::with_capacity(alloc, pages as usize)?;
    for page in 0..pages {
        let digest = seal_page(disk, page)?;
        leaves.push(digest)?;
    }
    let tree = Tree::over(alloc, leaves)?;
    Ok(tree)
}
