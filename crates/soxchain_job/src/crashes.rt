//! Runs of a job, each stopped at any moment.
ghost use Rattle.std.specs.Prelude.{◌≡◌, ◌⊎◌, ◌≤◌, ◌^◌, length, ℕ, IsErrOf, OnOk};
ghost use Rattle.soxchain_job.specs.Causes.{CountsAllFaults, RefusesNoCheckpoint};
ghost use Rattle.soxchain_job.specs.Disk.{LeavesNow, LeavesThrough};
ghost use Rattle.soxchain_job.specs.Image.{Image};
ghost use Rattle.soxchain_job.specs.Input.{SameBytes};
ghost use Rattle.soxchain_job.specs.Known.{BothKnown};
ghost use Rattle.soxchain_job.specs.Job.{IsBeforeFirstRun, IsPublished, Job, OldOrComplete, whole_output, target_of};

use crate::{Conversion, Disk, Fault, Input, Pacing, run_once};
use std::alloc::Global;

/// A disk on which the program, or the machine, may crash.
pub trait CrashingDisk: Disk {
    /// A crash at some moment since the program began, and a new beginning: what may be found from now on is what a crash at that
    /// moment may have left. After a crash of the program alone that may still be several images.
    fn crash(&mut self)
        ensures leaves { Self.model.known → LeavesNow Self.model self.new
            (Self.model.left_since self.old (Self.model.began self.old)) }
        ensures began { Self.model.known → Self.model.began self.new ≡ Self.model.moment self.new }
        ensures later { Self.model.known → Self.model.moment self.old ≤ Self.model.moment self.new }
        ensures faults { Self.model.faults self.old ≤ Self.model.faults self.new }
        ensures nothing_else { Self.model.known → (t : ℕ) (c : Image)
            → t ≤ Self.model.moment self.old → Self.model.left_since self.new t c
            → Self.model.left_since self.old t c ⊎ Self.model.may_leave self.new c };
}

/// Runs a job `crashes` times, each run stopped at any moment, and once more to its end.
pub fn run_with_crashes<C: Conversion, D: CrashingDisk, I: Input, P: Pacing>(
    alloc: Global,
    disk: &mut D,
    conversion: &C,
    input: &mut I,
    pacing: &mut P,
    crashes: u64,
) -> Result<(), Fault>
    ghost job: { Job C }
    requires known { BothKnown D.model I.model }
    requires fresh { conversion.now ≡ job.start }
    requires input { I.model.content input.old ≡ job.input }

    // There is no checkpoint, and the name of the output has the file from before.
    requires begins { IsBeforeFirstRun D.model job disk.old }

    // Where the last run ends well, its name has the complete output, durably.
    ensures published { OnOk result (IsPublished C.model D.model job disk.new) }

    // At each moment of each run that name has the file from before, or the complete output.
    ensures any_moment { LeavesThrough D.model disk.old disk.new (λ c. OldOrComplete (target_of C.model job) c.out) }
    ensures readable { RefusesNoCheckpoint result }
    ensures cause { CountsAllFaults D.model I.model disk.old disk.new input.old input.new result }
    ensures too_long { IsErrOf result Fault.TooLong → 2 ^ 64 ≤ length (whole_output C.model job) }
    ensures bytes { SameBytes I.model input.old input.new }
{
    for _ in 0..crashes {
        let mut copy = conversion.duplicate(alloc)?;
        let _interrupted = run_once(alloc, disk, &mut copy, input, pacing);
        disk.crash();
    }
    let mut last = conversion.duplicate(alloc)?;
    run_once(alloc, disk, &mut last, input, pacing)?;
    Ok(())
}
