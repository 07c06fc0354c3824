//! Laws of a plan's disk. Each law is a function that does nothing: its contract is the law.
ghost use Rattle.std.specs.Prelude.{◌≡◌, ◌⊎◌, ◌↔◌, ◌+◌, ℕ, List};
ghost use Rattle.disk_model.specs.Disk.{EachImage, MayLeave};
ghost use Rattle.plan_disk.specs.Plan.{plan_state, first_steps};

use crate::PlanDisk;
use disk_model::FileProperty;

/// What is said of the moments from one state of a plan's disk to another is said of one file: both plans are for the same file.
pub fn same_base<P: FileProperty>(old: &PlanDisk<'_>, new: &PlanDisk<'_>)
    requires { EachImage (plan_state old.now) (plan_state new.now) P.holds }
    ensures { new.now.base ≡ old.now.base }
{}

/// A crash while the caller does the step number k of a plan, from 0, is at moment k + 1. It leaves what a crash may leave of a disk
/// that was asked for the first k steps alone, or for one step more.
pub fn crash_in_step(disk: &PlanDisk<'_>)
    ensures { (k : ℕ) (image : List ℕ) → (plan_state disk.now).images (k + 1) image
        ↔ (MayLeave (plan_state (first_steps k disk.now)) image ⊎ MayLeave (plan_state (first_steps (k + 1) disk.now)) image) }
{}
