//! The part grows, and checkpoints are written.
ghost use Rattle.std.specs.Prelude.{◌≡◌, ◌≤◌, ◌+◌, ◌^◌, List, ℕ, Some, IfOk, IsErrOf, OnErr, OnOk};
ghost use Rattle.soxchain_job.specs.Causes.{CountsDiskFaults, HasPieceCause, HasWriteCause, RefusesNoCheckpoint};
ghost use Rattle.soxchain_job.specs.Checkpoint.{in_progress_bytes};
ghost use Rattle.soxchain_job.specs.Disk.{Durable};
ghost use Rattle.soxchain_job.specs.Growth.{CanGrow, GrowsNow, GrowsOnly, IsLiveAt, StaysLive};
ghost use Rattle.soxchain_job.specs.Input.{ReadsBetween};
ghost use Rattle.soxchain_job.specs.Known.{BothKnown};
ghost use Rattle.soxchain_job.specs.Job.{Job};

use crate::checkpoint::{Progress, encode};
use crate::replace::replace_checkpoint;
use crate::{Conversion, Disk, Fault, FileName, Input};
use std::alloc::Global;

/// How far a run has come.
#[derive(Clone, Copy, Debug, PartialEq, Eq)]
pub struct Offsets {
    /// Bytes of the input that were taken.
    pub taken: u64,
    /// Bytes of the output that were written.
    pub written: u64,
}

/// The piece that was read last, and what the conversion gave.
#[derive(Drop)]
pub struct Buffers {
    /// A piece of the input.
    pub input: Vec<u8>,
    /// Bytes of the output.
    pub output: Vec<u8>,
}

/// The bytes of the output after `more` further ones. The fault is TooLong.
fn total_written(written: u64, more: usize) -> Result<u64, Fault>
    ensures sum { IfOk result (λ n. n ≡ written + more) }
    ensures too_long { OnErr result (2 ^ 64 ≤ written + more) }
    ensures fault { OnErr result (IsErrOf result Fault.TooLong) }
{
    match written.checked_add(more as u64) {
        Some(sum) => Ok(sum),
        None => Err(Fault::TooLong),
    }
}

/// Converts the next `size` bytes of the input, and appends what they give to the part.
pub fn advance<C: Conversion, D: Disk, I: Input>(
    disk: &mut D,
    conversion: &mut C,
    input: &mut I,
    offsets: &mut Offsets,
    size: usize,
    buffers: &mut Buffers,
) -> Result<(), Fault>
    ghost job: { Job C }
    requires grows { CanGrow C.model D.model I.model job conversion.old disk.old input.old offsets.old }
    requires size { offsets.old.taken + size ≤ I.model.size input.old }
    ensures live { StaysLive C.model D.model I.model job conversion.new offsets.new disk.new result }
    ensures taken { OnOk result (offsets.new.taken ≡ offsets.old.taken + size) }
    ensures any_moment { GrowsOnly C.model D.model I.model job disk.old disk.new }
    ensures cause { HasPieceCause C.model D.model I.model job disk.old disk.new input.old input.new result }
    ensures reads { ReadsBetween I.model input.old input.new offsets.old.taken offsets.new.taken result }
{
    let _length = input.len();
    buffers.input.clear();
    input.read(offsets.taken, size, &mut buffers.input)?;
    buffers.output.clear();
    conversion.step(&buffers.input, &mut buffers.output)?;
    let written = total_written(offsets.written, buffers.output.len())?;
    disk.append(FileName::Part, &buffers.output)?;
    offsets.taken += size as u64;
    offsets.written = written;
    Ok(())
}

/// Syncs the part, and then writes a checkpoint.
pub fn write_checkpoint<C: Conversion, D: Disk, I: Input>(
    alloc: Global,
    disk: &mut D,
    conversion: &C,
    offsets: &Offsets,
) -> Result<(), Fault>
    ghost job: { Job C }
    requires safe { GrowsNow C.model D.model I.model job disk.old }
    requires live { BothKnown D.model I.model → IsLiveAt C.model D.model job conversion.now offsets.now disk.old }
    ensures live { StaysLive C.model D.model I.model job conversion.now offsets.now disk.new result }
    ensures written { BothKnown D.model I.model
        → OnOk result ((frozen : List ℕ) × ((D.model.seen disk.new).checkpoint
        ≡ Some (in_progress_bytes offsets.now.taken offsets.now.written frozen))) }
    ensures any_moment { GrowsOnly C.model D.model I.model job disk.old disk.new }
    ensures cause { HasWriteCause D.model disk.old disk.new result }
{
    let bytes = encode(alloc, offsets.taken, offsets.written, conversion)?;
    disk.sync(FileName::Part)?;
    replace_checkpoint(disk, &bytes)?;
    Ok(())
}

/// Begins a job: writes its first checkpoint, and then makes an empty part.
pub fn begin<C: Conversion, D: Disk, I: Input>(
    alloc: Global,
    disk: &mut D,
    conversion: &C,
) -> Result<Offsets, Fault>
    ghost job: { Job C }
    requires fresh { conversion.now ≡ job.start }
    requires reached { BothKnown D.model I.model → job.reached ≡ 0 }
    requires safe { GrowsNow C.model D.model I.model job disk.old }
    ensures live { BothKnown D.model I.model
        → IfOk result (λ o. IsLiveAt C.model D.model job conversion.now o disk.new) }
    ensures any_moment { GrowsOnly C.model D.model I.model job disk.old disk.new }
    ensures cause { HasWriteCause D.model disk.old disk.new result }
{
    let bytes = encode(alloc, 0, 0, conversion)?;
    replace_checkpoint(disk, &bytes)?;
    disk.truncate(FileName::Part, 0)?;
    Ok(Offsets {
        taken: 0,
        written: 0,
    })
}

/// Continues from a checkpoint: thaws its conversion, and truncates the part to the bytes that it counts.
pub fn resume_from<C: Conversion, D: Disk, I: Input>(
    alloc: Global,
    disk: &mut D,
    conversion: &mut C,
    progress: &Progress<'_>,
) -> Result<Offsets, Fault>
    ghost job: { Job C }
    requires fresh { conversion.old ≡ job.start }
    requires says { BothKnown D.model I.model → (D.model.seen disk.old).checkpoint
        ≡ Some (in_progress_bytes progress.now.taken progress.now.written progress.now.frozen.now) }
    requires durable { BothKnown D.model I.model
        → Durable FileName.Checkpoint (D.model.seen disk.old) (D.model.may_leave disk.old) }
    requires safe { GrowsNow C.model D.model I.model job disk.old }
    ensures live { BothKnown D.model I.model
        → IfOk result (λ o. IsLiveAt C.model D.model job conversion.new o disk.new) }
    ensures taken { IfOk result (λ o. (o.taken ≡ progress.now.taken) × (o.written ≡ progress.now.written)) }
    ensures any_moment { GrowsOnly C.model D.model I.model job disk.old disk.new }
    ensures readable { BothKnown D.model I.model → RefusesNoCheckpoint result }
    ensures cause { CountsDiskFaults D.model disk.old disk.new result }
    ensures changed { IsErrOf result Fault.InputChanged → ⊥ }
{
    conversion.thaw(alloc, progress.frozen)?;
    disk.truncate(FileName::Part, progress.written)?;
    Ok(Offsets {
        taken: progress.taken,
        written: progress.written,
    })
}
