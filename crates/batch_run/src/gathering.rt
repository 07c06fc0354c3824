//! What several workers made.

ghost use Rattle.std.specs.Prelude.{◌≡◌, map, Ok, IfOk, IfSome};

use std::alloc::{AllocError, Global};

/// Returns what was made, where none of it failed, and `None` otherwise.
pub fn all_done<X: Drop, E: Drop>(
    alloc: Global,
    tried: Vec<Result<X, E>>,
) -> Result<Option<Vec<X>>, AllocError>
    ensures { IfOk result (λ all. IfSome all (λ v. tried.items ≡ map (λ x. Ok x) v.items)) }
{
    let mut all = Vec::with_capacity(alloc, tried.len())?;
    for one in tried {
        match one {
            Ok(one) => all.push(one)?,
            Err(_) => return Ok(None),
        }
    }
    Ok(Some(all))
}
