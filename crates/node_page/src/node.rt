ghost use Rattle.std.specs.Prelude.{ℕ, ◌≡◌, ◌⊎◌, ◌+◌, ◌*◌, ◌/◌, ◌≤◌, ◌<◌, ◌==◌, length, true, IfOk, IfErr, Ok, Err, Some, None, slice_index};
ghost use Rattle.tree_shape.specs.Fill.{most_for};
ghost use Rattle.node_page.specs.declared.node.Unread.TheVariants.{Memory};
ghost use Rattle.tree_shape.specs.Flat.{firsts};
ghost use Rattle.tree_shape.specs.Entries.{flat_leaves, flat_inners};
ghost use Rattle.node_page.specs.declared.node.Version.TheVariants.{First};
ghost use Rattle.node_page.specs.Bytes.{number_at};
ghost use Rattle.node_page.specs.Nodes.{AreNumbers, SpellsIn, IsUnread, IsValidNode, parent_place, leaf_in, leaf_at, inner_at, place_of, place_in, count_of, near_at, are_near, is_count, is_rest_zero, fault_in, node_in};

use crate::bytes::{are_zero, get_u16, get_u32, get_u64};
use byteorder::{BigEndian, ByteOrder};
use metric_laws::{BOUND, Point};
use std::alloc::{AllocError, Global};
use std::sync::ArcSlice;
use thiserror::Error;
use tree_shape::{FlatEntries, InnerEntries, LeafEntries, LeafEntry, Node, fill};

/// Why a page holds no node.
#[derive(Clone, Copy, Debug, PartialEq, Eq, Error)]
pub enum NodeFault {
    /// The level is above 14.
    #[error("a node of no known level")]
    Kind,
    /// There are more entries than a node may have, or none in an inner node.
    #[error("a node with too many entries or too few")]
    Count,
    /// A distance is above the bound of all distances.
    #[error("a node with a distance out of range")]
    Distance,
    /// A byte that no field takes is not 0.
    #[error("a node with more in it than its fields")]
    Tail,
}

/// Why no node was read from a page.
#[derive(Clone, Copy, Debug, PartialEq, Eq, Error)]
pub enum Unread {
    /// The page holds no node.
    #[error("{0}")]
    NoNode(NodeFault),
    /// There was no memory for the node.
    #[error("out of memory")]
    Memory,
}

impl From<AllocError> for Unread {
    ghost from_gives = { λ _ why. why ≡ Memory };

    fn from(_error: AllocError) -> Unread {
        Unread::Memory
    }
}

/// A version of the format of nodes.
#[derive(Clone, Copy)]
pub enum Version {
    /// A leaf entry has no field for a tag. The object's tag is its id.
    First,
    /// A leaf entry has a field for the tag.
    Second,
}

/// The bytes before the first entry.
const ENTRIES: usize = 16;

/// The bytes of a distance.
const DISTANCE: usize = 8;

/// The numbers of four bytes of a leaf entry of the first version before its coordinates.
const OLD_BEFORE: usize = 3;

/// Numbers that make a list longer: 1,020 bytes at a time cost less than all at once.
const ZEROS: [u32; 255] = [0; 255];

/// Numbers that are read at a time. They are few enough for LLVM to make no loop of them.
const READ_AT_ONCE: usize = 32;

// Returns the number of bytes of an entry before its parent distance. The coordinates follow that.
fn parent_place(version: Version, leaf: bool) -> usize
    ensures value { result ≡ parent_place version leaf }
    ensures low { 4 ≤ result }
    ensures high { result ≤ 12 }
{
    match version {
        Version::First => { if leaf { 4 } else { 12 } }
        Version::Second => 12,
    }
}

// Returns the place of entry `index`.
fn place_in(version: Version, leaf: bool, dim: u8, index: usize) -> usize
    requires few { dim ≤ 64 }
    requires small { index ≤ 32 }
    ensures { result ≡ place_in version leaf dim index }
{
    ENTRIES + (parent_place(version, leaf) + DISTANCE + 4 * usize::from(dim)) * index
}

// Returns the place of entry `index` of the second version.
pub fn place_of(dim: u8, index: usize) -> usize
    requires few { dim ≤ 64 }
    requires small { index ≤ 32 }
    ensures { result ≡ place_of dim index }
{
    place_in(Version::Second, false, dim, index)
}

// Returns whether the distances of the entry at the place `at` are within the bound.
#[tactic(auto, unfolding(crate::specs::Nodes::near_at))]
fn is_near(page: &[u8; 4096], at: usize, version: Version, leaf: bool) -> bool
    requires { at + parent_place version leaf + 8 ≤ 4096 }
    ensures { result ≡ near_at version leaf page.now at }
{
    get_u64(page, at + parent_place(version, leaf)) <= BOUND
        && (leaf || get_u64(page, at + 4) <= BOUND)
}

// Returns whether the distances of the first `count` entries are within the bound.
fn are_near(page: &[u8; 4096], dim: u8, version: Version, leaf: bool, count: usize) -> bool
    requires few { dim ≤ 64 }
    requires most { count ≤ most_for dim }
    ensures { result ≡ are_near version dim leaf page.now count }
{
    for index in 0..count {
        if !is_near(page, place_in(version, leaf, dim, index), version, leaf) {
            return false;
        }
    }
    true
}

// Returns whether a node may have `count` entries.
#[tactic(auto, unfolding(crate::specs::Nodes::is_count))]
fn is_count(dim: u8, leaf: bool, count: usize) -> bool
    requires some { 1 ≤ dim }
    requires few { dim ≤ 64 }
    ensures { result ≡ is_count dim leaf count }
{
    count <= fill(dim).most && (leaf || count > 0)
}

// Reads the number of entries.
#[tactic(auto, unfolding(crate::specs::Nodes::count_of))]
fn count_of(page: &[u8; 4096]) -> usize
    ensures { result ≡ count_of page.now }
{
    usize::from(get_u16(page, 2))
}

// Returns whether each byte that no field takes is 0.
#[tactic(auto, unfolding(crate::specs::Nodes::is_rest_zero))]
fn is_rest_zero(page: &[u8; 4096], dim: u8, version: Version, leaf: bool, count: usize) -> bool
    requires few { dim ≤ 64 }
    requires most { count ≤ most_for dim }
    ensures { result ≡ is_rest_zero version dim leaf page.now count }
{
    let end = place_in(version, leaf, dim, count);
    are_zero(page, 1, 2) && are_zero(page, 4, 16) && are_zero(page, end, 4096)
}

// Returns the first fault of a page.
#[tactic(auto, unfolding(crate::specs::Nodes::fault_in))]
fn fault_of(page: &[u8; 4096], dim: u8, version: Version) -> Option<NodeFault>
    requires some { 1 ≤ dim }
    requires few { dim ≤ 64 }
    ensures { result ≡ fault_in version dim page.now }
{
    if page[0] > 14 {
        return Some(NodeFault::Kind);
    }
    let leaf = page[0] == 0;
    let count = count_of(page);
    if !is_count(dim, leaf, count) {
        return Some(NodeFault::Count);
    }
    if !are_near(page, dim, version, leaf, count) {
        return Some(NodeFault::Distance);
    }
    if !is_rest_zero(page, dim, version, leaf, count) {
        return Some(NodeFault::Tail);
    }
    None
}

// Returns a list of `count` numbers, whatever they are: `spare`, if there is one, cut or made longer.
fn of_length(alloc: Global, spare: Option<Vec<u32>>, count: usize) -> Result<Vec<u32>, AllocError>
    ensures { IfOk result (λ numbers. length numbers.items ≡ count) }
{
    let mut numbers = match spare {
        Some(numbers) => numbers,
        None => Vec::with_capacity(alloc, count)?,
    };
    numbers.truncate(count);
    while numbers.len() < count {
        let missing = count - numbers.len();
        numbers.extend_from_slice(&ZEROS[..missing.min(ZEROS.len())])?;
    }
    Ok(numbers)
}

// Reads `READ_AT_ONCE` numbers of four bytes of the entries, the first of them into the place `from`.
#[inline(always)]
fn read_some(page: &[u8; 4096], numbers: &mut [u32], from: usize)
    requires within { from + READ_AT_ONCE ≤ length numbers.old }
    requires few { 16 + 4 * length numbers.old ≤ 4096 }
    ensures read { (k : ℕ) → from ≤ k → k < from + READ_AT_ONCE → slice_index numbers.new k ≡ number_at (16 + 4 * k) 4 page.now }
    ensures before { (k : ℕ) → k < from → slice_index numbers.new k ≡ slice_index numbers.old k }
    ensures len { length numbers.new ≡ length numbers.old }
{
    let start = ENTRIES + 4 * from;
    let mut some = [0; READ_AT_ONCE];
    BigEndian::read_u32_into(&page[start..start + 4 * READ_AT_ONCE], &mut some);
    let (_, rest) = numbers.split_at_mut(from);
    if let Some(place) = rest.first_chunk_mut() {
        *place = some;
    }
}

// Reads the first numbers of four bytes of the entries.
fn read_numbers(page: &[u8; 4096], numbers: &mut [u32])
    requires { 16 + 4 * length numbers.old ≤ 4096 }
    ensures numbers { AreNumbers page.now numbers.new }
    ensures len { length numbers.new ≡ length numbers.old }
{
    let count = numbers.len();
    if count < READ_AT_ONCE {
        BigEndian::read_u32_into(&page[ENTRIES..ENTRIES + 4 * count], numbers);
        return;
    }
    let mut from = 0;
    while count - from > READ_AT_ONCE {
        read_some(page, numbers, from);
        from += READ_AT_ONCE;
    }
    // The last ones may share places with the ones before them.
    read_some(page, numbers, count - READ_AT_ONCE);
}

// Returns the first `count` numbers of four bytes of the entries, in the memory of `spare`, if there is some.
fn numbers_of(
    alloc: Global,
    page: &[u8; 4096],
    count: usize,
    spare: Option<Vec<u32>>,
) -> Result<Vec<u32>, AllocError>
    requires { 16 + 4 * count ≤ 4096 }
    ensures numbers { IfOk result (λ numbers. AreNumbers page.now numbers.items) }
    ensures len { IfOk result (λ numbers. length numbers.items ≡ count) }
{
    let mut numbers = of_length(alloc, spare, count)?;
    read_numbers(page, &mut numbers);
    Ok(numbers)
}

// Reads the entries of an inner node, or of a leaf of the second version: both have the same fields.
fn flat_entries(
    alloc: Global,
    page: &[u8; 4096],
    dim: u8,
    count: usize,
    spare: Option<Vec<u32>>,
) -> Result<FlatEntries, AllocError>
    requires few { dim ≤ 64 }
    requires most { count ≤ most_for dim }
    ensures leaves { IfOk result (λ flat. flat_leaves flat ≡ firsts (λ i. leaf_at dim page.now (place_of dim i)) count) }
    ensures inners { IfOk result (λ flat. flat_inners flat ≡ firsts (λ i. inner_at dim page.now (place_of dim i)) count) }
{
    let numbers = numbers_of(alloc, page, FlatEntries::width(dim) * count, spare)?;
    Ok(FlatEntries::new(numbers, dim, count))
}

// Reads the objects of a leaf of the first version. The tag of each is its id.
fn old_leaves(
    alloc: Global,
    page: &[u8; 4096],
    dim: u8,
    count: usize,
    spare: Option<Vec<u32>>,
) -> Result<Vec<LeafEntry>, AllocError>
    requires few { dim ≤ 64 }
    requires most { count ≤ most_for dim }
    ensures { IfOk result (λ es. es.items ≡ firsts (λ i. leaf_in First dim page.now (place_in First true dim i)) count) }
{
    let long = usize::from(dim);
    let numbers = numbers_of(alloc, page, (OLD_BEFORE + long) * count, spare)?;
    let numbers = ArcSlice::from_vec(numbers)?;
    let mut entries = Vec::with_capacity(alloc, count)?;
    for index in 0..count {
        let at = place_in(Version::First, true, dim, index);
        let id = get_u32(page, at);
        let start = (OLD_BEFORE + long) * index + OLD_BEFORE;
        entries.push(LeafEntry {
            id,
            tag: u64::from(id),
            parent: get_u64(page, at + 4),
            point: Point::part_of(&numbers, start, long)?,
        })?;
    }
    Ok(entries)
}

// Reads the objects of a leaf.
fn leaf_entries(
    alloc: Global,
    page: &[u8; 4096],
    dim: u8,
    version: Version,
    count: usize,
    spare: Option<Vec<u32>>,
) -> Result<LeafEntries, AllocError>
    requires few { dim ≤ 64 }
    requires most { count ≤ most_for dim }
    ensures { IfOk result (λ es. es ≡ firsts (λ i. leaf_in version dim page.now (place_in version true dim i)) count) }
{
    match version {
        Version::First => Ok(LeafEntries::new(old_leaves(alloc, page, dim, count, spare)?)),
        Version::Second => Ok(LeafEntries::flat(flat_entries(alloc, page, dim, count, spare)?)),
    }
}

// Reads the node of a page that has no fault.
#[tactic(auto, unfolding(crate::specs::Nodes::node_in))]
fn node_in(
    alloc: Global,
    page: &[u8; 4096],
    dim: u8,
    version: Version,
    spare: Option<Vec<u32>>,
) -> Result<Node, AllocError>
    requires few { dim ≤ 64 }
    requires most { count_of page.now ≤ most_for dim }
    ensures { IfOk result (λ node. node ≡ node_in version dim page.now) }
{
    let count = count_of(page);
    let level = page[0];
    if level == 0 {
        let entries = leaf_entries(alloc, page, dim, version, count, spare)?;
        return Ok(Node::Leaf(entries));
    }
    let entries = InnerEntries::flat(flat_entries(alloc, page, dim, count, spare)?);
    Ok(Node::Inner { level, entries })
}

/// Reads a node over points of `dim` coordinates from a page of a file of `version`, or names the page's first fault in the order of
/// `NodeFault`. A page of zeros is an empty leaf. In a leaf of the first version the tag of an object is its id. The node's numbers go
/// into the memory of `spare`, if there is some; what `spare` holds does not matter.
pub fn decode_node(
    alloc: Global,
    page: &[u8; 4096],
    dim: u8,
    version: Version,
    spare: Option<Vec<u32>>,
) -> Result<Node, Unread>
    requires some { 1 ≤ dim }
    requires few { dim ≤ 64 }
    // The page spells the node that is read.
    ensures ok { IfOk result (λ node. SpellsIn version dim page.now node) }
    // The node that is read can be written.
    ensures valid { IfOk result (λ node. IsValidNode dim node) }
    // The node that is read is the page's, and the page has no fault.
    ensures told { IfOk result (λ node. (fault_in version dim page.now ≡ None) × (node ≡ node_in version dim page.now)) }
    // A node that the page spells is read, unless memory runs out.
    ensures only { (node : Node) → SpellsIn version dim page.now node → (result ≡ Ok node) ⊎ (result ≡ Err Unread.Memory) }
    ensures fault { IfErr result (IsUnread version dim page.now) }
{
    if let Some(fault) = fault_of(page, dim, version) {
        return Err(Unread::NoNode(fault));
    }
    Ok(node_in(alloc, page, dim, version, spare)?)
}
