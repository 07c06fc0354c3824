ghost use Rattle.std.specs.Prelude.{◌≡◌, ◌⊎◌, ◌+◌, ◌^◌, ◌<◌, ◌≤◌, IsTrue, OnOk, IfOk, IfErr, IfSome, slice_index};
ghost use Rattle.page_store.specs.Reading.{is_within, IsBytesFault};
ghost use Rattle.node_page.specs.Nodes.{IsValidNode, fault_in, node_in};
ghost use Rattle.outside_io.specs.Causes.{HasCause};
ghost use Rattle.disk_model.specs.Disk.{IsUnchanged};
ghost use Rattle.node_page.specs.Opening.{page_of};
ghost use Rattle.node_page.specs.declared.node.Version.TheVariants.{Second};

use crate::{PageFault, SharedNode};
use disk_model::{Disk, Failed};
use node_page::{Unread, Version, decode_node};
use std::alloc::Global;
use tree_shape::{Node, PAGE};

/// Reads the bytes of page `page`. Bytes past the end of the file are 0. After `Failed` the buffer may hold anything.
pub fn read_page<D: Disk>(disk: &mut D, page: u32, bytes: &mut [u8; 4096]) -> Result<(), Failed>
    requires { page < 2 ^ 24 }
    ensures read { OnOk result (IsTrue (D.state disk.old).is_known → bytes.new ≡ page_of (D.state disk.old).bytes page) }
    ensures same { IsUnchanged (D.state disk.old) (D.state disk.new) }
    ensures reads { (D.state disk.new).reads ≤ (D.state disk.old).reads + 1 }
    ensures cause { HasCause (D.state disk.old).faults (D.state disk.new).faults result }
{
    disk.read_at(PAGE * u64::from(page), bytes)
}

// Returns the byte at place `place` of a file in memory, or 0 past its end.
fn byte_at(file: &[u8], place: usize) -> u8
    ensures { result ≡ slice_index file.now place }
{
    if place < file.len() { file[place] } else { 0 }
}

// Returns page `page` of a file in memory, if the file has all of it.
pub fn whole_page(file: &[u8], page: u32) -> Option<&[u8; 4096]>
    ensures { IfSome result (λ bytes. bytes.now ≡ page_of file.now page) }
{
    let from = PAGE as usize * page as usize;
    if from > file.len() {
        return None;
    }
    file[from..].first_chunk()
}

// Copies page `page` of a file in memory. Bytes past the end of the file are 0.
fn copy_page(file: &[u8], page: u32, bytes: &mut [u8; 4096])
    ensures { bytes.new ≡ page_of file.now page }
{
    let from = PAGE as usize * page as usize;
    for at in 0..bytes.len() {
        bytes[at] = byte_at(file, from + at);
    }
}

// Returns whether page `page` may hold a node.
#[tactic(auto, unfolding(crate::specs::Reading::is_within))]
pub fn is_within(pages: u32, page: u32) -> bool
    ensures test { result ≡ is_within pages page }
    ensures below { IsTrue result → page < pages }
{
    page >= 3 && page < pages
}

/// Returns the node that a page's bytes spell, in a file of `version` over points of `dim` coordinates. A page that spells no
/// node is `Bad`; no other refusal comes but `Memory`. The node goes into the memory of `spare`, if there is some.
pub fn node_on(
    alloc: Global,
    page: u32,
    bytes: &[u8; 4096],
    dim: u8,
    version: Version,
    spare: Option<Vec<u32>>,
) -> Result<SharedNode, PageFault>
    requires some { 1 ≤ dim }
    requires few { dim ≤ 64 }
    ensures valid { IfOk result (IsValidNode dim) }
    ensures told { IfOk result (λ node. (fault_in version dim bytes.now ≡ None)
        × (node ≡ node_in version dim bytes.now)) }
    ensures fault { IfErr result (IsBytesFault version dim bytes.now page) }
{
    match decode_node(alloc, bytes, dim, version, spare) {
        Ok(node) => Ok(SharedNode::new(alloc, node)?),
        Err(Unread::Memory) => Err(PageFault::Memory),
        Err(Unread::NoNode(fault)) => Err(PageFault::Bad(page, fault)),
    }
}

// Returns the node on a page that a file in memory may have only in part, in a file of version 2. The node is on the page with this
// number among the bytes' pages.
pub fn node_on_cut(
    alloc: Global,
    file: &[u8],
    number: u32,
    page: u32,
    dim: u8,
) -> Result<SharedNode, PageFault>
    requires some { 1 ≤ dim }
    requires few { dim ≤ 64 }
    ensures valid { IfOk result (IsValidNode dim) }
    ensures told { IfOk result (λ node. (fault_in Second dim (page_of file.now number) ≡ None)
        × (node ≡ node_in Second dim (page_of file.now number))) }
    ensures fault { IfErr result (IsBytesFault Second dim (page_of file.now number) page) }
{
    let mut bytes = [0; 4096];
    copy_page(file, number, &mut bytes);
    node_on(alloc, page, &bytes, dim, Version::Second, None)
}
