ghost use Rattle.std.specs.Prelude.{◌≡◌};
ghost use Rattle.metric_join.specs.Joined.{fault_of};
ghost use Rattle.metric_join.specs.declared.faults.JoinFault.TheVariants.{Memory};

use page_store::PageFault;
use std::alloc::AllocError;
use thiserror::Error;

/// Why a join is refused.
#[derive(Clone, Copy, Debug, PartialEq, Eq, Error)]
pub enum JoinFault {
    /// A page of the left tree gave no node. It is never `PageFault::Memory`.
    #[error("left: {0}")]
    Left(PageFault),
    /// A page of the right tree gave no node. It is never `PageFault::Memory`.
    #[error("right: {0}")]
    Right(PageFault),
    /// Memory ran out.
    #[error("out of memory")]
    Memory,
}

impl From<AllocError> for JoinFault {
    ghost from_gives = { λ _ e. e ≡ Memory };

    fn from(_error: AllocError) -> JoinFault {
        JoinFault::Memory
    }
}

/// Returns the fault of a join, given the side and the page's fault.
pub fn fault_of(right: bool, fault: PageFault) -> JoinFault
    ensures { result ≡ fault_of right fault }
{
    match (right, fault) {
        (_, PageFault::Memory) => JoinFault::Memory,
        (false, fault) => JoinFault::Left(fault),
        (true, fault) => JoinFault::Right(fault),
    }
}
