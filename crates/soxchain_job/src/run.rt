//! A run of a job, from wherever the last one was stopped.
ghost use Rattle.std.specs.Prelude.{◌≡◌, ◌<◌, ◌≤◌, ◌+◌, ◌-◌, ◌*◌, ◌^◌, ◌⊎◌, length, min, List, ℕ, None, Some, IfOk, IsErrOf, MatchOption, OnOk};
ghost use Rattle.soxchain_job.specs.Causes.{CountsAllFaults, CountsDiskFaults, HasEndCause, HasPieceCause, HasWriteCause, RefusesNoCheckpoint};
ghost use Rattle.soxchain_job.specs.Checkpoint.{Continues, ReadsRest, in_progress_bytes};
ghost use Rattle.soxchain_job.specs.Disk.{CountsFaults, Durable, LeavesNow, LeavesOnly};
ghost use Rattle.soxchain_job.specs.Growth.{CanGrow, GrowsNow, GrowsOnly, HasTakenAll, IsLiveAt, Publishes, StaysLive, StaysSafe};
ghost use Rattle.soxchain_job.specs.Input.{ConfirmsInput, ReadsAtMost, ReadsBetween};
ghost use Rattle.soxchain_job.specs.Known.{BothKnown};
ghost use Rattle.soxchain_job.specs.Job.{IsGrowing, IsPublished, IsReady, IsRecoverable, IsSafe, Job, whole_output};

use crate::checkpoint::{Checkpoint, decode, encode_complete};
use crate::grow::{Buffers, Offsets, advance, begin, resume_from, write_checkpoint};
use crate::pacing::{Pace, Pacing};
use crate::publish::publish;
use crate::replace::replace_checkpoint;
use crate::{Conversion, Disk, DiskFault, Fault, FileName, Input};
use std::alloc::Global;

/// The last checkpoint, synced. None where there is none.
fn read_checkpoint<D: Disk>(alloc: Global, disk: &mut D) -> Result<Option<Vec<u8>>, DiskFault>
    ensures found { D.model.known
        → IfOk result (λ r. MatchOption r ((D.model.seen disk.new).checkpoint ≡ None)
        (λ v. (D.model.seen disk.new).checkpoint ≡ Some v.items)) }
    ensures durable { D.model.known → OnOk result
        (Durable FileName.Checkpoint (D.model.seen disk.new) (D.model.may_leave disk.new)) }
    ensures seen { D.model.known → D.model.seen disk.new ≡ D.model.seen disk.old }
    ensures any_moment { D.model.known
        → LeavesOnly D.model disk.old disk.new (D.model.may_leave disk.old) }
    ensures cause { CountsFaults D.model disk.old disk.new result }
{
    disk.sync(FileName::Checkpoint)?;
    disk.read(alloc, FileName::Checkpoint)
}

/// Appends the rest of the output, and syncs the part.
fn write_rest<C: Conversion, D: Disk, I: Input>(
    disk: &mut D,
    conversion: &mut C,
    buffer: &mut Vec<u8>,
) -> Result<(), Fault>
    ghost job: { Job C }
    requires safe { GrowsNow C.model D.model I.model job disk.old }
    requires live { BothKnown D.model I.model → HasTakenAll C.model D.model job conversion.old disk.old }
    ensures complete { BothKnown D.model I.model
        → OnOk result (LeavesNow D.model disk.new (λ c. c.part ≡ Some (whole_output C.model job))) }
    ensures any_moment { GrowsOnly C.model D.model I.model job disk.old disk.new }
    ensures readable { RefusesNoCheckpoint result }
    ensures cause { CountsDiskFaults D.model disk.old disk.new result }
{
    buffer.clear();
    conversion.finish(buffer)?;
    disk.append(FileName::Part, buffer)?;
    disk.sync(FileName::Part)?;
    Ok(())
}

/// Writes the checkpoint of a complete output.
fn mark_complete<C: Conversion, D: Disk, I: Input>(
    alloc: Global,
    disk: &mut D,
    conversion: &C,
) -> Result<(), Fault>
    ghost job: { Job C }
    requires safe { GrowsNow C.model D.model I.model job disk.old }
    requires complete { BothKnown D.model I.model
        → LeavesNow D.model disk.old (λ c. c.part ≡ Some (whole_output C.model job)) }
    ensures ready { BothKnown D.model I.model
        → OnOk result (LeavesNow D.model disk.new (IsReady C.model job)) }
    ensures any_moment { BothKnown D.model I.model
        → LeavesOnly D.model disk.old disk.new (IsRecoverable C.model job) }
    ensures cause { HasWriteCause D.model disk.old disk.new result }
{
    let summary = conversion.summary(alloc)?;
    let bytes = encode_complete(alloc, &summary)?;
    replace_checkpoint(disk, &bytes)?;
    Ok(())
}

/// Ends the job, once all of the input was taken. The input is confirmed before anything says that the output is complete.
fn finish<C: Conversion, D: Disk, I: Input>(
    alloc: Global,
    disk: &mut D,
    conversion: &mut C,
    input: &mut I,
    buffer: &mut Vec<u8>,
) -> Result<(), Fault>
    ghost job: { Job C }
    requires safe { GrowsNow C.model D.model I.model job disk.old }
    requires live { BothKnown D.model I.model → HasTakenAll C.model D.model job conversion.old disk.old }
    ensures published { Publishes C.model D.model I.model job disk.new result }
    ensures any_moment { StaysSafe C.model D.model I.model job disk.old disk.new }
    ensures reads { ConfirmsInput I.model input.old input.new 0 result }
    ensures cause { HasEndCause D.model I.model disk.old disk.new input.old input.new result }
{
    write_rest::<C, D, I>(disk, conversion, buffer)?;
    input.confirm()?; // Nothing says yet that the output is complete.
    mark_complete::<C, D, I>(alloc, disk, conversion)?;
    publish::<C, D, I>(disk)?;
    Ok(())
}

/// Ends a job whose output was complete already: the input is confirmed, and the output gets its name.
fn publish_confirmed<C: Conversion, D: Disk, I: Input>(
    disk: &mut D,
    input: &mut I,
) -> Result<(), Fault>
    ghost job: { Job C }
    requires ready { BothKnown D.model I.model → LeavesNow D.model disk.old (IsReady C.model job) }
    ensures published { Publishes C.model D.model I.model job disk.new result }
    ensures any_moment { StaysSafe C.model D.model I.model job disk.old disk.new }
    ensures reads { ConfirmsInput I.model input.old input.new 0 result }
    ensures cause { HasEndCause D.model I.model disk.old disk.new input.old input.new result }
{
    input.confirm()?;
    publish::<C, D, I>(disk)?;
    Ok(())
}

/// Continues from the last checkpoint, or begins. None where the output is complete.
fn resume<C: Conversion, D: Disk, I: Input>(
    alloc: Global,
    disk: &mut D,
    conversion: &mut C,
) -> Result<Option<Offsets>, Fault>
    ghost job: { Job C }
    requires fresh { conversion.old ≡ job.start }
    requires safe { BothKnown D.model I.model → LeavesNow D.model disk.old (IsRecoverable C.model job) }
    ensures live { BothKnown D.model I.model → IfOk result (λ r. MatchOption r
        (LeavesNow D.model disk.new (IsReady C.model job))
        (λ p. IsLiveAt C.model D.model job conversion.new p disk.new
        × (LeavesNow D.model disk.new (IsGrowing C.model job)))) }
    ensures continues { BothKnown D.model I.model
        → IfOk result (Continues (D.model.seen disk.old).checkpoint) }
    ensures any_moment { StaysSafe C.model D.model I.model job disk.old disk.new }
    ensures readable { BothKnown D.model I.model → RefusesNoCheckpoint result }
    ensures cause { CountsDiskFaults D.model disk.old disk.new result }
    ensures changed { IsErrOf result Fault.InputChanged → ⊥ }
{
    match read_checkpoint(alloc, disk)? {
        None => Ok(Some(begin::<C, D, I>(alloc, disk, conversion)?)),
        Some(bytes) => match decode(&bytes) {
            None => Err(Fault::BadCheckpoint),
            Some(Checkpoint::Complete(_)) => Ok(None),
            Some(Checkpoint::InProgress(progress)) => {
                Ok(Some(resume_from::<C, D, I>(alloc, disk, conversion, &progress)?))
            }
        },
    }
}

/// The size of the next piece, where so much of the input is left.
fn piece_size(left: u64, piece: usize) -> usize
    ensures { result ≡ min piece left }
{
    if (piece as u64) < left {
        piece
    } else {
        left as usize
    }
}

/// Converts the next `pace.every` pieces, or those that are left.
fn convert_pieces<C: Conversion, D: Disk, I: Input>(
    disk: &mut D,
    conversion: &mut C,
    input: &mut I,
    pace: Pace,
    offsets: &mut Offsets,
    buffers: &mut Buffers,
) -> Result<(), Fault>
    ghost job: { Job C }
    requires grows { CanGrow C.model D.model I.model job conversion.old disk.old input.old offsets.old }
    requires some { (0 < pace.piece) × (0 < pace.every) }
    ensures live { StaysLive C.model D.model I.model job conversion.new offsets.new disk.new result }
    ensures pieces { OnOk result ((I.model.size input.old ≤ offsets.new.taken)
        ⊎ (offsets.new.taken ≡ offsets.old.taken + pace.every * pace.piece)) }
    ensures advances { OnOk result (offsets.old.taken < I.model.size input.old
        → offsets.old.taken < offsets.new.taken) }
    ensures any_moment { GrowsOnly C.model D.model I.model job disk.old disk.new }
    ensures cause { HasPieceCause C.model D.model I.model job disk.old disk.new input.old input.new result }
    ensures reads { ReadsBetween I.model input.old input.new offsets.old.taken offsets.new.taken result }
{
    let mut done = 0;
    while done < pace.every && offsets.taken < input.len() {
        let size = piece_size(input.len() - offsets.taken, pace.piece);
        advance(disk, conversion, input, offsets, size, buffers)?;
        done += 1;
    }
    Ok(())
}

/// Converts the next pieces, as many as their pace says or those that are left, and writes a checkpoint after them.
fn convert_to_checkpoint<C: Conversion, D: Disk, I: Input, P: Pacing>(
    alloc: Global,
    disk: &mut D,
    conversion: &mut C,
    input: &mut I,
    pacing: &mut P,
    offsets: &mut Offsets,
    buffers: &mut Buffers,
) -> Result<(), Fault>
    ghost job: { Job C }
    requires grows { CanGrow C.model D.model I.model job conversion.old disk.old input.old offsets.old }
    ensures live { StaysLive C.model D.model I.model job conversion.new offsets.new disk.new result }
    ensures written { BothKnown D.model I.model
        → OnOk result ((frozen : List ℕ) × ((D.model.seen disk.new).checkpoint
        ≡ Some (in_progress_bytes offsets.new.taken offsets.new.written frozen))) }
    ensures advances { OnOk result (offsets.old.taken < I.model.size input.old
        → offsets.old.taken < offsets.new.taken) }
    ensures any_moment { GrowsOnly C.model D.model I.model job disk.old disk.new }
    ensures cause { HasPieceCause C.model D.model I.model job disk.old disk.new input.old input.new result }
    ensures reads { ReadsBetween I.model input.old input.new offsets.old.taken offsets.new.taken result }
{
    let pace = pacing.next(offsets);
    convert_pieces(disk, conversion, input, pace, offsets, buffers)?;
    pacing.converted();
    write_checkpoint::<C, D, I>(alloc, disk, conversion, offsets)?;
    Ok(())
}

/// Converts the rest of the input in rounds, and writes a checkpoint after each.
fn convert_rest<C: Conversion, D: Disk, I: Input, P: Pacing>(
    alloc: Global,
    disk: &mut D,
    conversion: &mut C,
    input: &mut I,
    pacing: &mut P,
    offsets: &mut Offsets,
    buffers: &mut Buffers,
) -> Result<(), Fault>
    ghost job: { Job C }
    requires grows { CanGrow C.model D.model I.model job conversion.old disk.old input.old offsets.old }
    ensures live { BothKnown D.model I.model
        → OnOk result (HasTakenAll C.model D.model job conversion.new disk.new) }
    ensures any_moment { GrowsOnly C.model D.model I.model job disk.old disk.new }
    ensures cause { HasPieceCause C.model D.model I.model job disk.old disk.new input.old input.new result }
    ensures reads { ReadsAtMost I.model input.old input.new (I.model.size input.old - offsets.old.taken) }
{
    while offsets.taken < input.len() {
        convert_to_checkpoint(alloc, disk, conversion, input, pacing, offsets, buffers)?;
    }
    Ok(())
}

/// Runs a job to its end. At `Ok` its name has the complete output, durably.
pub fn run_once<C: Conversion, D: Disk, I: Input, P: Pacing>(
    alloc: Global,
    disk: &mut D,
    conversion: &mut C,
    input: &mut I,
    pacing: &mut P,
) -> Result<(), Fault>
    ghost job: { Job C }
    requires fresh { conversion.old ≡ job.start }
    requires input { I.model.known → I.model.content input.old ≡ job.input }
    requires safe { BothKnown D.model I.model → LeavesNow D.model disk.old (IsRecoverable C.model job) }
    ensures published { BothKnown D.model I.model → OnOk result (IsPublished C.model D.model job disk.new) }
    ensures any_moment { BothKnown D.model I.model → LeavesOnly D.model disk.old disk.new (IsSafe C.model job) }
    ensures readable { BothKnown D.model I.model → RefusesNoCheckpoint result }
    ensures too_long { BothKnown D.model I.model
        → IsErrOf result Fault.TooLong → 2 ^ 64 ≤ length (whole_output C.model job) }
    ensures cause { CountsAllFaults D.model I.model disk.old disk.new input.old input.new result }
    ensures reads { ConfirmsInput I.model input.old input.new (I.model.size input.old) result }
    ensures delivered { BothKnown D.model I.model
        → ReadsRest (D.model.seen disk.old).checkpoint (length job.input)
        (I.model.delivered input.old) (I.model.delivered input.new) }
{
    let Some(mut offsets) = resume::<C, D, I>(alloc, disk, conversion)? else {
        return publish_confirmed::<C, D, I>(disk, input);
    };
    let mut buffers = Buffers {
        input: Vec::new(alloc),
        output: Vec::new(alloc),
    };
    convert_rest(
        alloc,
        disk,
        conversion,
        input,
        pacing,
        &mut offsets,
        &mut buffers,
    )?;
    finish::<C, D, I>(alloc, disk, conversion, input, &mut buffers.output)?;
    Ok(())
}
