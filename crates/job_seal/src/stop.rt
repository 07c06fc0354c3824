// Why a job stopped before its end.
ghost use Rattle.std.specs.Prelude.{◌≡◌};
ghost use Rattle.job_seal.specs.declared.stop.ProofStop.TheVariants.{Memory as NoMemory};

use std::alloc::AllocError;
use thiserror::Error;

/// Why a job stopped before its end.
#[derive(Clone, Copy, Debug, PartialEq, Eq, Error)]
pub enum ProofStop {
    /// A text could not be put.
    #[error("the output failed")]
    Sink,
    /// Memory ran out.
    #[error("out of memory")]
    Memory,
    /// The source failed.
    #[error("the input failed")]
    Input,
    /// The source has more bytes than are read.
    #[error("too much input")]
    Long,
}

impl From<AllocError> for ProofStop {
    ghost from_gives = { λ _ e. e ≡ NoMemory };

    fn from(_error: AllocError) -> ProofStop {
        ProofStop::Memory
    }
}
