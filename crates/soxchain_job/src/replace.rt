//! A checkpoint replaces another.
ghost use Rattle.std.specs.Prelude.{◌≡◌, ◌<◌, ◌≤◌, None, Some, IsErrOf, OnOk};
ghost use Rattle.soxchain_job.specs.Disk.{CountsFaults, Durable, LeavesOnly};
ghost use Rattle.soxchain_job.specs.Job.{Saving};

use crate::{Disk, DiskFault, FileName};

/// Replaces the last checkpoint: writes the new one under another name, syncs it, and renames it.
pub fn replace_checkpoint<D: Disk>(disk: &mut D, bytes: &[u8]) -> Result<(), DiskFault>
    ensures saved { D.model.known → OnOk result (D.model.seen disk.new
        ≡ record (D.model.seen disk.old) { new_checkpoint = None; checkpoint = Some bytes.now }) }
    ensures durable { D.model.known → OnOk result
        (Durable FileName.Checkpoint (D.model.seen disk.new) (D.model.may_leave disk.new)) }

    // At any moment the old one or the new one is there, and the other files are the same.
    ensures any_moment { D.model.known
        → LeavesOnly D.model disk.old disk.new (Saving (D.model.may_leave disk.old) bytes.now) }
    ensures cause { CountsFaults D.model disk.old disk.new result }
{
    disk.write(FileName::NewCheckpoint, bytes)?;
    disk.sync(FileName::NewCheckpoint)?;
    disk.rename(FileName::NewCheckpoint, FileName::Checkpoint)
}
