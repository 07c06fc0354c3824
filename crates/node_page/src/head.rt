ghost use Rattle.std.specs.Prelude.{◌≡◌, Ok, IfOk, IfErr, Some};
ghost use Rattle.node_page.specs.Heads.{SpellsHead, IsValidHead, head_fault, head_of, is_version, is_space, is_policy, is_limit};

use crate::bytes::{are_zero, clear, get_u16, get_u32, get_u64, put_u8, put_u16, put_u32, put_u64};
use thiserror::Error;

/// What an index file says of itself, in its first page.
#[derive(Clone, Copy, PartialEq, Eq)]
pub struct Head {
    /// The version of the format: 2, or 1 for a file whose objects have no tags.
    pub version: u16,
    /// The number of the metric, 1 to 8.
    pub kind: u8,
    /// The number of coordinates of a point, 1 to 64.
    pub dim: u8,
    /// How a split chooses its routing points: 1 by the least sum of the radii, 2 by the least greater radius
    /// (VLDB 1997, section 4.1).
    pub promote: u8,
    /// How a split shares out the entries: 1 to the nearer routing point, 2 in turn (VLDB 1997, section 4.2).
    pub split: u8,
    /// The most objects of the index, 1 to 2^24.
    pub limit: u32,
}

/// Why a page is no head.
#[derive(Clone, Copy, Debug, PartialEq, Eq, Error)]
pub enum HeadFault {
    /// The page does not begin with the letters `MTREEIDX`.
    #[error("not an index file")]
    Magic,
    /// The version is neither 1 nor 2.
    #[error("an index file of another version")]
    Version,
    /// No space has this kind and dimension.
    #[error("an index over no known space")]
    Space,
    /// There is no such way to split a node.
    #[error("an index with no known way to split")]
    Policy,
    /// The limit is 0 or above 2^24.
    #[error("an index whose limit is out of range")]
    Limit,
    /// A byte that no field takes is not 0.
    #[error("a head with more in it than its fields")]
    Tail,
}

/// The letters `MTREEIDX`, the first of them highest.
const MAGIC: u64 = 0x4d54_5245_4549_4458;

// A version that can be read.
#[tactic(auto, unfolding(crate::specs::Heads::is_version))]
fn is_version(version: u16) -> bool
    ensures { result ≡ is_version version }
{
    version == 1 || version == 2
}

// A kind of metric with a dimension that it has.
#[tactic(auto, unfolding(crate::specs::Heads::is_space))]
fn is_space(kind: u8, dim: u8) -> bool
    ensures { result ≡ is_space kind dim }
{
    let in_pairs = kind == 6 || kind == 7;
    kind >= 1 && kind <= 8 && dim >= 1 && dim <= 64 && (!in_pairs || dim % 2 == 0)
}

// A way to split.
#[tactic(auto, unfolding(crate::specs::Heads::is_policy))]
fn is_policy(promote: u8, split: u8) -> bool
    ensures { result ≡ is_policy promote split }
{
    (promote == 1 || promote == 2) && (split == 1 || split == 2)
}

// A limit on the number of objects.
#[tactic(auto, unfolding(crate::specs::Heads::is_limit))]
fn is_limit(limit: u32) -> bool
    ensures { result ≡ is_limit limit }
{
    limit >= 1 && limit <= 16_777_216
}

/// Writes a head into its page.
pub fn encode_head(head: &Head, page: &mut [u8; 4096])
    requires valid { IsValidHead head.now }
    requires version { head.now.version ≡ 2 }
    ensures { SpellsHead page.new head.now }
{
    clear(page);
    put_u64(page, 0, MAGIC);
    put_u16(page, 8, head.version);
    put_u8(page, 10, head.kind);
    put_u8(page, 11, head.dim);
    put_u8(page, 12, head.promote);
    put_u8(page, 13, head.split);
    put_u32(page, 16, head.limit);
}

// The fields of a head, valid or not.
#[tactic(auto, unfolding(crate::specs::Heads::head_of))]
fn fields_of(page: &[u8; 4096]) -> Head
    ensures { result ≡ head_of page.now }
{
    Head {
        version: get_u16(page, 8),
        kind: page[10],
        dim: page[11],
        promote: page[12],
        split: page[13],
        limit: get_u32(page, 16),
    }
}

// The first fault of a page whose fields are these.
#[tactic(auto, unfolding(crate::specs::Heads::head_fault))]
fn fault_of(page: &[u8; 4096], head: &Head) -> Option<HeadFault>
    requires { head.now ≡ head_of page.now }
    ensures { result ≡ head_fault page.now }
{
    if get_u64(page, 0) != MAGIC {
        return Some(HeadFault::Magic);
    }
    if !is_version(head.version) {
        return Some(HeadFault::Version);
    }
    if !is_space(head.kind, head.dim) {
        return Some(HeadFault::Space);
    }
    if !is_policy(head.promote, head.split) {
        return Some(HeadFault::Policy);
    }
    if !is_limit(head.limit) {
        return Some(HeadFault::Limit);
    }
    if !are_zero(page, 14, 16) || !are_zero(page, 20, 4096) {
        return Some(HeadFault::Tail);
    }
    None
}

/// Reads a head from its page, or names the first fault in the order of `HeadFault`.
pub fn decode_head(page: &[u8; 4096]) -> Result<Head, HeadFault>
    // What is read is spelled so.
    ensures ok { IfOk result (λ head. SpellsHead page.now head) }
    // What is spelled so is read.
    ensures only { (head : Head) → SpellsHead page.now head → result ≡ Ok head }
    ensures fault { IfErr result (λ fault. head_fault page.now ≡ Some fault) }
{
    let head = fields_of(page);
    match fault_of(page, &head) {
        Some(fault) => Err(fault),
        None => Ok(head),
    }
}
