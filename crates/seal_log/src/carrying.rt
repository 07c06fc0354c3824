// Makes the carried log of a log.
ghost use Rattle.std.specs.Prelude.{◌≡◌, ◌++◌, ◌+◌, ◌≤◌, ◌<◌, ◌^◌, length, All, IsTrue, OnOk, IfOk, IsErrOf, vec_len};
ghost use Rattle.outside_io.specs.Causes.{Rose};
ghost use Rattle.disk_model.specs.Disk.{IsUnchanged};
ghost use Rattle.byteorder.specs.Endian.{big_bytes};
ghost use Rattle.log_model.specs.Grammar.{IsValidLog};
ghost use Rattle.prune_log.specs.Spelling.{listed};
ghost use Rattle.seal_log.specs.Digests.{levels_over};
ghost use Rattle.seal_log.specs.Paths.{path_in};
ghost use Rattle.seal_log.specs.Spelling.{opening_bytes, digest_bytes, page_bytes};
ghost use Rattle.seal_log.specs.Carrying.{AreNeeded, Carries, page_with_path, pages_bytes};

use crate::parts::{MAGIC, VERSION};
use crate::{SealFault, Tree};
use disk_model::Disk;
use log_model::Log;
use page_store::read_page;
use prune_log::fields::put_u32;
use prune_log::{encode_log, frame};
use std::alloc::{AllocError, Global};

// Returns pages 0, 1 and 2 and the pages that the records name, in ascending order, each once.
fn needed_pages(alloc: Global, log: &Log) -> Result<Vec<u32>, AllocError>
    ensures needed { IfOk result (λ pages. AreNeeded log.now pages.items) }
    ensures few { IfOk result (λ pages. vec_len pages ≤ 3 + length log.now.records) }
{
    let mut pages = vec![in alloc; 0, 1, 2]?;
    for record in log.records.as_slice() {
        pages.push(record.page)?;
    }
    pages.sort_unstable();
    pages.dedup();
    Ok(pages)
}

// Appends the path of page `page`.
fn put_path(alloc: Global, tree: &Tree, page: u32, out: &mut Vec<u8>) -> Result<(), AllocError>
    requires { length tree.now ≤ 262144 }
    ensures { OnOk result (out.new.items ≡ out.old.items ++ listed 1 digest_bytes (path_in (levels_over tree.now) page)) }
{
    let path = tree.path(alloc, page)?;
    out.push(path.len() as u8)?;
    for digest in &path {
        out.extend_from_slice(digest)?;
    }
    Ok(())
}

// Reads a page and appends it with its path.
fn put_page<D: Disk>(
    alloc: Global,
    disk: &mut D,
    tree: &Tree,
    page: u32,
    out: &mut Vec<u8>,
) -> Result<(), SealFault>
    requires few { length tree.now ≤ 262144 }
    requires within { page < 2 ^ 24 }
    ensures put { OnOk result (IsTrue (D.state disk.old).is_known →
        out.new.items ≡ out.old.items ++ page_bytes (page_with_path (D.state disk.old).bytes tree.now page)) }
    ensures disk { IsErrOf result SealFault.Disk → Rose (D.state disk.old).faults (D.state disk.new).faults }
    ensures later { (D.state disk.old).faults ≤ (D.state disk.new).faults }
    ensures no_fault { OnOk result ((D.state disk.new).faults ≡ (D.state disk.old).faults) }
    ensures same { IsUnchanged (D.state disk.old) (D.state disk.new) }
    ensures reads { (D.state disk.new).reads ≤ (D.state disk.old).reads + 1 }
{
    let mut bytes = [0; 4096];
    if read_page(disk, page, &mut bytes).is_err() {
        return Err(SealFault::Disk);
    }
    put_u32(out, page)?;
    out.extend_from_slice(&bytes)?;
    put_path(alloc, tree, page, out)?;
    Ok(())
}

// Reads pages and appends each with its path.
fn put_pages<D: Disk>(
    alloc: Global,
    disk: &mut D,
    tree: &Tree,
    pages: &[u32],
    out: &mut Vec<u8>,
) -> Result<(), SealFault>
    requires few { length tree.now ≤ 262144 }
    requires within { All (λ page. page < 2 ^ 24) pages.now }
    ensures put { OnOk result (IsTrue (D.state disk.old).is_known → out.new.items ≡ out.old.items
        ++ pages_bytes (D.state disk.old).bytes tree.now pages.now) }
    ensures disk { IsErrOf result SealFault.Disk → Rose (D.state disk.old).faults (D.state disk.new).faults }
    ensures later { (D.state disk.old).faults ≤ (D.state disk.new).faults }
    ensures no_fault { OnOk result ((D.state disk.new).faults ≡ (D.state disk.old).faults) }
    ensures same { IsUnchanged (D.state disk.old) (D.state disk.new) }
    ensures reads { (D.state disk.new).reads ≤ (D.state disk.old).reads + length pages.now }
{
    for page in pages {
        put_page(alloc, disk, tree, *page, out)?;
    }
    Ok(())
}

// Appends what stands before the carried pages: the letters, the version, the number of the file's pages and of the carried pages.
fn put_front(out: &mut Vec<u8>, pages: u32, count: u32) -> Result<(), AllocError>
    ensures { OnOk result (out.new.items ≡ out.old.items ++ (opening_bytes ++ (big_bytes 4 pages ++ big_bytes 4 count))) }
{
    put_u32(out, MAGIC)?;
    out.push(VERSION)?;
    put_u32(out, pages)?;
    put_u32(out, count)
}

/// Returns the carried log of a log over the file with this tree: pages 0, 1 and 2 and the pages that the log's records name, with
/// their paths, and the log. Reads each page once. `Disk` comes only where the disk failed. Changes nothing.
/// Clauses: what is asked of the caller (`some`, `few`, `valid`, `within`); the answer (`carries`); what stays (`same`); the cost
/// (`reads`); the cause of an error (`disk`); faults of the devices (`later`, `no_fault`).
pub fn carry<D: Disk>(
    alloc: Global,
    disk: &mut D,
    tree: &Tree,
    log: &Log,
) -> Result<Vec<u8>, SealFault>
    requires some { 3 ≤ length tree.now }
    requires few { length tree.now ≤ 262144 }
    requires valid { IsValidLog log.now }
    requires within { All (λ r. r.page < length tree.now) log.now.records }
    ensures carries { IfOk result (λ bytes. IsTrue (D.state disk.old).is_known →
        Carries (D.state disk.old).bytes tree.now log.now bytes.items) }
    ensures disk { IsErrOf result SealFault.Disk → Rose (D.state disk.old).faults (D.state disk.new).faults }
    ensures later { (D.state disk.old).faults ≤ (D.state disk.new).faults }
    ensures no_fault { OnOk result ((D.state disk.new).faults ≡ (D.state disk.old).faults) }
    ensures same { IsUnchanged (D.state disk.old) (D.state disk.new) }
    ensures reads { (D.state disk.new).reads ≤ (D.state disk.old).reads + (3 + length log.now.records) }
{
    let pages = needed_pages(alloc, log)?;
    let mut out = Vec::new(alloc);
    put_front(&mut out, tree.pages(), pages.len() as u32)?;
    put_pages(alloc, disk, tree, &pages, &mut out)?;
    let bytes = encode_log(alloc, log)?;
    frame(&bytes, &mut out)?;
    Ok(out)
}
