ghost use Rattle.std.specs.Prelude.{◌≡◌, ◌++◌, ◌+◌, ◌≤◌, length, OnOk, IfOk};
ghost use Rattle.small_trees.specs.Trees.{child, entry_bytes, node_bytes, numbers, one_leaf, padded, six_entries, two_leaves};

use crate::Entry;
use std::alloc::{AllocError, Global};

/// Appends zeros up to the length `end`, where there are fewer bytes.
pub fn pad(bytes: &mut Vec<u8>, end: usize) -> Result<(), AllocError>
    ensures { OnOk result (bytes.new.items ≡ padded end bytes.old.items) }
{
    if bytes.len() < end {
        return bytes.resize(end, 0);
    }
    Ok(())
}

// Appends an entry.
fn put_entry(bytes: &mut Vec<u8>, entry: &Entry) -> Result<(), AllocError>
    ensures { OnOk result (bytes.new.items ≡ bytes.old.items ++ entry_bytes entry.now) }
{
    bytes.extend_from_slice(&entry.id.to_be_bytes())?;
    bytes.extend_from_slice(&entry.tag.to_be_bytes())?;
    bytes.extend_from_slice(&entry.parent.to_be_bytes())?;
    bytes.extend_from_slice(&entry.point.to_be_bytes())
}

#[tactic(auto, unfolding(crate::specs::Trees::node_bytes))]
// Appends a node of the level `level`, from the start of its page to its last entry.
fn put_node(bytes: &mut Vec<u8>, level: u8, entries: &[Entry]) -> Result<(), AllocError>
    requires { length entries.now ≤ 32 }
    ensures { OnOk result (bytes.new.items ≡ bytes.old.items ++ node_bytes level entries.now) }
{
    bytes.extend_from_slice(&[level, 0, 0, entries.len() as u8])?;
    bytes.extend_from_slice(&[0; 12])?;
    for entry in entries {
        put_entry(bytes, entry)?;
    }
    Ok(())
}

#[tactic(auto, unfolding(crate::specs::Trees::numbers))]
// Returns `count` objects at the numbers from `from` on, below a routing object. The id of each is its number, and its tag 100 more.
fn numbers(alloc: Global, from: u32, count: u32, centre: u32) -> Result<Vec<Entry>, AllocError>
    requires { from + count ≤ 1000 }
    ensures { IfOk result (λ entries. entries.items ≡ numbers from count centre) }
{
    let mut entries = Vec::new(alloc);
    for i in 0..count {
        let number = from + i;
        entries.push(Entry {
            id: number,
            tag: u64::from(number + 100),
            parent: u64::from(number.abs_diff(centre)),
            point: number,
        })?;
    }
    Ok(entries)
}

// Returns an entry of a root for page `page`. The objects below it lie within 8 of the routing object at `point`.
fn child(page: u32, point: u32) -> Entry
    ensures { result ≡ child page point }
{
    Entry {
        id: page,
        tag: 8,
        parent: 0,
        point,
    }
}

/// Returns a file whose root on page 3 is a leaf with the objects `objects`. The bytes of the pages before are `before`, padded with
/// zeros.
pub fn one_leaf(before: Vec<u8>, objects: &[Entry]) -> Result<Vec<u8>, AllocError>
    requires { length objects.now ≤ 32 }
    ensures { IfOk result (λ bytes. bytes.items ≡ one_leaf objects.now before.items) }
{
    let mut bytes = before;
    pad(&mut bytes, 3 * 4096)?;
    put_node(&mut bytes, 0, objects)?;
    pad(&mut bytes, 4 * 4096)?;
    Ok(bytes)
}

/// Returns a file with the numbers 0 to 32 in two leaves, on pages 3 and 4. The root is on page 5, and its second child is page
/// `second`. The bytes of the pages before are `before`, padded with zeros.
pub fn two_leaves(alloc: Global, before: Vec<u8>, second: u32) -> Result<Vec<u8>, AllocError>
    ensures { IfOk result (λ bytes. bytes.items ≡ two_leaves second before.items) }
{
    let mut bytes = before;
    pad(&mut bytes, 3 * 4096)?;
    put_node(&mut bytes, 0, &numbers(alloc, 0, 16, 7)?)?;
    pad(&mut bytes, 4 * 4096)?;
    put_node(&mut bytes, 0, &numbers(alloc, 16, 17, 24)?)?;
    pad(&mut bytes, 5 * 4096)?;
    put_node(&mut bytes, 1, &[child(3, 7), child(second, 24)])?;
    pad(&mut bytes, 6 * 4096)?;
    Ok(bytes)
}

/// Returns a file with a root on page 3, which has six entries for page `page`, and six objects in a leaf on page 4. The bytes of
/// the pages before are `before`, padded with zeros.
pub fn six_entries(alloc: Global, before: Vec<u8>, page: u32) -> Result<Vec<u8>, AllocError>
    ensures { IfOk result (λ bytes. bytes.items ≡ six_entries page before.items) }
{
    let entry = Entry {
        id: page,
        tag: 0,
        parent: 0,
        point: 0,
    };
    let mut bytes = before;
    pad(&mut bytes, 3 * 4096)?;
    put_node(&mut bytes, 1, &[entry; 6])?;
    pad(&mut bytes, 4 * 4096)?;
    put_node(&mut bytes, 0, &numbers(alloc, 0, 6, 0)?)?;
    pad(&mut bytes, 5 * 4096)?;
    Ok(bytes)
}
