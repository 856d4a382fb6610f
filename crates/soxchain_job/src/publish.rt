//! The part gets the name of the output.
ghost use Rattle.std.specs.Prelude.{◌≡◌, ◌<◌, ◌≤◌, ◌⊎◌, None, Some, IsErrOf, OnOk};
ghost use Rattle.soxchain_job.specs.Disk.{CountsFaults, Durable, LeavesNow, LeavesOnly};
ghost use Rattle.soxchain_job.specs.Growth.{Publishes};
ghost use Rattle.soxchain_job.specs.Known.{BothKnown};
ghost use Rattle.soxchain_job.specs.Job.{HasEnded, IsReady, Job, whole_output};

use crate::{Conversion, Disk, DiskFault, FileName, Input};

/// Renames the part to the name of the output, unless it has that name already, and removes the checkpoint.
pub fn publish<C: Conversion, D: Disk, I: Input>(disk: &mut D) -> Result<(), DiskFault>
    ghost job: { Job C }
    requires ready { BothKnown D.model I.model → LeavesNow D.model disk.old (IsReady C.model job) }
    ensures published { Publishes C.model D.model I.model job disk.new result }
    ensures any_moment { BothKnown D.model I.model → LeavesOnly D.model disk.old disk.new
        (λ c. IsReady C.model job c ⊎ HasEnded C.model job c) }
    ensures cause { CountsFaults D.model disk.old disk.new result }
{
    rename_part::<C, D, I>(disk)?;
    disk.remove(FileName::Checkpoint)
}

/// Renames the part to the name of the output. Where it has that name already, only the folder is synced: the program may have
/// been killed before the last run did so.
fn rename_part<C: Conversion, D: Disk, I: Input>(disk: &mut D) -> Result<(), DiskFault>
    ghost job: { Job C }
    requires ready { BothKnown D.model I.model → LeavesNow D.model disk.old (IsReady C.model job) }
    ensures out { BothKnown D.model I.model
        → OnOk result ((D.model.seen disk.new).out ≡ Some (whole_output C.model job)) }
    ensures durable { BothKnown D.model I.model → OnOk result
        (Durable FileName.Out (D.model.seen disk.new) (D.model.may_leave disk.new)) }
    ensures any_moment { BothKnown D.model I.model
        → LeavesOnly D.model disk.old disk.new (IsReady C.model job) }
    ensures cause { CountsFaults D.model disk.old disk.new result }
{
    if disk.has(FileName::Part)? {
        disk.sync(FileName::Part)?;
        disk.rename(FileName::Part, FileName::Out)
    } else {
        disk.sync(FileName::Out)
    }
}
