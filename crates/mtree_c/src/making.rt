// Makes a new index in the caller's buffer.
ghost use Rattle.std.specs.Prelude.{◌≡◌, IfSome, IfNone};
ghost use Rattle.node_page.specs.Heads.{IsValidHead, is_limit, is_policy, is_space};
ghost use Rattle.shadow_root.specs.Making.{IsMade};
ghost use Rattle.mtree_c.specs.Making.{HandsIndex, head_with};

use crate::running::{MOST, file_after};
use crate::{MEMORY, NO_HEAD, SHORT};
use caller_ends::put_front;
use node_page::Head;
use plan_disk::PlanDisk;
use shadow_root::create;
use std::alloc::Global;

/// What an index is made for.
#[repr(C)]
#[derive(Clone, Copy)]
pub struct Shape {
    /// The metric: 1 hamming, 2 l1, 3 max, 4 kendall, 5 hausdorff, 6 mixsum, 7 mixmax, 8 l1cap.
    pub kind: u8,
    /// The number of coordinates of a point, 1 to 64, and even for the metrics 6 and 7.
    pub dim: u8,
    /// The promotion: 1 m_RAD, 2 mM_RAD (VLDB 1997, section 4).
    pub promote: u8,
    /// The partition: 1 generalized hyperplane, 2 balanced (VLDB 1997, section 4).
    pub split: u8,
    /// The greatest number of objects, 1 to 2^24.
    pub limit: u32,
}

// Returns whether there is a metric `kind` of `dim` coordinates.
#[tactic(auto, unfolding(node_page::specs::Heads::is_space))]
fn is_space(kind: u8, dim: u8) -> bool
    ensures { result ≡ is_space kind dim }
{
    let in_pairs = kind == 6 || kind == 7;
    kind >= 1 && kind <= 8 && dim >= 1 && dim <= 64 && (!in_pairs || dim % 2 == 0)
}

// Returns whether there is such a way to split.
#[tactic(auto, unfolding(node_page::specs::Heads::is_policy))]
fn is_policy(promote: u8, split: u8) -> bool
    ensures { result ≡ is_policy promote split }
{
    (promote == 1 || promote == 2) && (split == 1 || split == 2)
}

// Returns whether an index may have the limit `limit`.
#[tactic(auto, unfolding(node_page::specs::Heads::is_limit))]
fn is_limit(limit: u32) -> bool
    ensures { result ≡ is_limit limit }
{
    limit >= 1 && limit <= 16_777_216
}

// Returns the head of a new file, or none where the numbers are no head's.
#[tactic(auto, unfolding(node_page::specs::Heads::is_version))]
fn head_of(shape: &Shape) -> Option<Head>
    ensures head { IfSome result (λ head. head ≡ head_with shape.now) }
    ensures valid { IfSome result IsValidHead }
    ensures none { IfNone result (¬ IsValidHead (head_with shape.now)) }
{
    if !is_space(shape.kind, shape.dim) {
        return None;
    }
    if !is_policy(shape.promote, shape.split) {
        return None;
    }
    if !is_limit(shape.limit) {
        return None;
    }
    Some(Head {
        version: 2,
        kind: shape.kind,
        dim: shape.dim,
        promote: shape.promote,
        split: shape.split,
        limit: shape.limit,
    })
}

// Makes the file of an empty index. Returns none where memory ran out.
fn made(alloc: Global, head: &Head) -> Option<Vec<u8>>
    requires valid { IsValidHead head.now }
    requires version { head.now.version ≡ 2 }
    ensures { IfSome result (λ file. IsMade head.now file.items) }
{
    let mut disk = PlanDisk::new(alloc, &[], MOST);
    match create(&mut disk, head) {
        Ok(_) => file_after(alloc, &disk),
        Err(_) => None,
    }
}

/// Makes an empty index of `shape` at the front of `room`, and tells its size. Status 0: done; 2: no index has this shape; 4: `room` is
/// below `size`; 8: out of memory. With status 2, 4 and 8 the buffer is left as it is.
pub fn create_in(alloc: Global, room: &mut [u8], shape: &Shape, size: &mut usize) -> u8
    ensures { HandsIndex shape.now room.old room.new size.new result }
{
    *size = 0;
    let Some(head) = head_of(shape) else {
        return NO_HEAD;
    };
    let Some(file) = made(alloc, &head) else {
        return MEMORY;
    };
    *size = file.len();
    if file.len() > room.len() {
        return SHORT;
    }
    put_front(&file, room);
    0
}
