ghost use Rattle.std.specs.Prelude.{◌≡◌};
ghost use Rattle.bulk_load.specs.declared.faults.BuildFault.TheVariants.{Memory};

use std::alloc::AllocError;
use thiserror::Error;

/// Why nothing was loaded. `Worn` is tried first. `Memory` may come before `NoRoom`.
#[derive(Clone, Copy, Debug, PartialEq, Eq, Error)]
pub enum BuildFault {
    /// The new nodes need `needed` pages besides the file's `pages`, more than a file may have.
    #[error("no room for {needed} pages after {pages}")]
    NoRoom { pages: u32, needed: u32 },
    /// There is no further generation.
    #[error("the index is worn")]
    Worn,
    /// Memory ran out.
    #[error("out of memory")]
    Memory,
}

impl From<AllocError> for BuildFault {
    ghost from_gives = { λ _ e. e ≡ Memory };

    fn from(_error: AllocError) -> BuildFault {
        BuildFault::Memory
    }
}
