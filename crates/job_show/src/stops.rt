// Pages that can't be had.
ghost use Rattle.std.specs.Prelude.{◌≡◌, IsErrOf, OnOk};
ghost use Rattle.page_store.specs.Shelf.{IsPassing};

use job_files::logs::LogStop;
use page_store::PageFault;

/// Stops where the disk failed or memory ran out. Each other fault says that a page holds no node.
pub fn stop_at(fault: PageFault) -> Result<(), LogStop>
    ensures damage { OnOk result (IsPassing fault → ⊥) }
    ensures disk { IsErrOf result LogStop.Disk → fault ≡ PageFault.Disk }
    ensures not_sink { IsErrOf result LogStop.Sink → ⊥ }
{
    match fault {
        PageFault::Disk => Err(LogStop::Disk),
        PageFault::Memory => Err(LogStop::Memory),
        _ => Ok(()),
    }
}
