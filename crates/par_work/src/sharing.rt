//! Work that several threads share.

ghost use Rattle.std.specs.Prelude.{◌≡◌, ℕ, ◌-◌, ◌*◌, ◌<◌, ◌≤◌, min, slice_get, Some, IfOk, vec_len};
ghost use Rattle.par_work.specs.Meets.{MeetsFrom};

use crate::pieces::{join_lists, piece_count, piece_end, piece_size};
use std::alloc::{AllocError, Global};
use std::thread;
use std::thread::Threads;

// Returns the results of the work from one place up to another.
fn answers_of<X: Send + Drop, F: Fn(usize) -> X>(
    alloc: Global,
    work: &F,
    from: usize,
    to: usize,
) -> Result<Vec<X>, AllocError>
    requires from { from ≤ to }
    requires calls { (i : ℕ) → i < to → F.pre work.now i }
    ensures len { IfOk result (λ v. vec_len v ≡ to - from) }
    ensures meets { IfOk result (λ v. MeetsFrom (F.post work.now) from v.items) }
{
    let mut out = Vec::with_capacity(alloc, to - from)?;
    for i in from..to {
        out.push(work(i))?;
    }
    Ok(out)
}

// Returns the results of the work at piece `number` of the places, from 0.
fn piece<X: Send + Drop, F: Fn(usize) -> X>(
    alloc: Global,
    work: &F,
    count: usize,
    size: usize,
    number: usize,
) -> Result<Vec<X>, AllocError>
    requires calls { (i : ℕ) → i < count → F.pre work.now i }
    requires inside { number * size < count }
    ensures len { IfOk result (λ v. vec_len v ≡ min size (count - number * size)) }
    ensures meets { IfOk result (λ v. MeetsFrom (F.post work.now) (number * size) v.items) }
{
    let from = number * size;
    answers_of(alloc, work, from, piece_end(from, size, count))
}

/// Returns the results of the work at each place below `count`, in order. The caller alone does it.
pub fn in_turn<X: Send + Drop, F: Fn(usize) -> X>(
    alloc: Global,
    count: usize,
    work: &F,
) -> Result<Vec<X>, AllocError>
    requires calls { (i : ℕ) → i < count → F.pre work.now i }
    ensures len { IfOk result (λ v. vec_len v ≡ count) }
    ensures each { IfOk result (λ v. (i : ℕ) (x : X) → slice_get v.items i ≡ Some x → F.post work.now i x) }
{
    answers_of(alloc, work, 0, count)
}

/// Returns the results of the work at each place below `count`, in order. The places are cut in order into pieces of
/// `ceil(count / workers)`. A thread of its own does each piece; the caller does a piece whose thread can't be started.
pub fn share<R: Threads + Sync, X: Send + Drop, F: Fn(usize) -> X + Sync>(
    rt: &R,
    alloc: Global,
    count: usize,
    workers: usize,
    work: &F,
) -> Result<Vec<X>, AllocError>
    requires calls { (i : ℕ) → i < count → F.pre work.now i }
    requires some { 1 ≤ workers }
    requires few { workers ≤ 64 }
    ensures len { IfOk result (λ v. vec_len v ≡ count) }
    ensures each { IfOk result (λ v. (i : ℕ) (x : X) → slice_get v.items i ≡ Some x → F.post work.now i x) }
{
    let size = piece_size(count, workers);
    let pieces = piece_count(count, size);
    let part = |number: usize| -> Result<Vec<X>, AllocError>
        requires { ((i : ℕ) → i < count → F.pre work.now i) × (number * size < count) }
        ensures { IfOk result (λ v. (vec_len v ≡ min size (count - number * size))
            × MeetsFrom (F.post work.entry.now) (number * size) v.items) }
    { piece(alloc, work, count, size, number) };
    let parts = thread::map_indices(rt, alloc, pieces, &part)?;
    join_lists(alloc, parts)
}
