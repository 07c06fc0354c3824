//! The index for programs in other languages. Each call takes the bytes of an index file, which the caller holds in memory or
//! maps, and writes its answer into the caller's own buffers. Nothing is kept between calls, and no call writes a file. A status is
//! one of the program's own table: 0 done, 1 rejected, 2 no query, 4 a buffer is too small, 6 no index of version 2, 7 too long,
//! 8 out of memory, 9 a damaged page. 5, the status of a disk that failed, never comes: the bytes can always be read.
#![tactic(auto)]

mod answering;
mod carrying;
mod changing;
mod describing;
mod each;
mod judging;
mod making;
mod plans;
mod rooms;
mod row_plans;
mod running;
mod sessions;

pub use answering::{Sizes, TaggedHit, mtree_nearest, mtree_range};
pub use carrying::{CarriedSizes, mtree_carry};
pub use changing::{mtree_create_in, mtree_session_in, mtree_session_plan};
pub use describing::{
    Description, mtree_describe, mtree_dump, mtree_seal, mtree_shape, mtree_stats,
};
pub use each::{mtree_nearest_each, mtree_range_each};
pub use judging::{RootDigest, mtree_audit, mtree_check, mtree_proof, mtree_show, mtree_verify};
pub use making::Shape;
pub use plans::PlanSizes;
pub use row_plans::{mtree_insert_plan, mtree_load_plan};
pub use sessions::SessionSizes;

/// The file is longer than the buffer that it stands in.
pub(crate) const NO_FILE: u8 = 2;

/// No index has this shape.
pub(crate) const NO_HEAD: u8 = 2;

/// The numbers are no rows.
pub(crate) const NO_ROWS: u8 = 2;

/// The query can't be answered: a point is not in the file's space, the points have another size, or none of the nearest are asked for.
pub(crate) const NO_QUERY: u8 = 2;

/// A buffer is too small.
pub(crate) const SHORT: u8 = 4;

/// Out of memory.
pub(crate) const MEMORY: u8 = 8;

/// A search met a damaged page.
pub(crate) const DAMAGED: u8 = 9;

#[cfg(test)]
mod tests;
