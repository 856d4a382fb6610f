//! The next frame of a sound whose bytes may come slowly.
ghost use Rattle.std.specs.Prelude.{◌≡◌, ◌≢◌, ◌+◌, ◌<◌, ◌≤◌, [], false, true, Err, IfNone, IfOk, IfSome, OnErr, OnOk, length};
ghost use Rattle.fx_sound.specs.NextFrame.{CutShort, FollowsMaximum, MetEnd, TookFrame};
ghost use Rattle.fx_chain_run.specs.NextFrame.{AsksNext, CountsCause, PassesPending, TookNone};
ghost use Rattle.fx_chain_run.specs.Run.{run_read_failed};
ghost use Rattle.fx_frame_base.specs.Io.{CountsFailure};
ghost use Rattle.fx_sound.specs.Known.{IfKnown};
ghost use Rattle.fx_sound.specs.Source.{AsksBeside, HoldsAll, HoldsFront, Stays, Takes, to_come};
ghost use Rattle.fx_chain_run.specs.Waiting.{AsksOn};
ghost use Rattle.fx_sound.specs.Output.{SendsOn, bytes_put};

use crate::pump::Cause;
use fx_frame::{ByteOut, Failed, Frame, ReadBeside};
use fx_sound::inner::{BUFFER_SIZE, Output};
use fx_sound::{MAX_FRAMES, Progress, Source, TooLong, take_frame};

/// Asks the reader once. All reads of a run are made here: where the last one was short this one may have to wait, and
/// nothing that is due may be held back meanwhile.
fn ask<R: ReadBeside, W: ByteOut>(
    source: &mut Source<R>,
    _output: &Output,
    writer: &W,
) -> Result<usize, Failed>
    requires free { length source.old.bytes < BUFFER_SIZE }
    requires live { source.old.short ≡ true → _output.now.bytes ≡ [] }
    ensures grows { IfOk result (λ n. length source.new.bytes ≡ length source.old.bytes + n) }
    ensures stays { OnOk result (Stays R.reads.rest source.old source.new) }
    ensures end { IfOk result (λ n. n ≡ 0 → HoldsAll R.reads.rest source.old source.new) }
    ensures err { OnErr result (source.new.bytes ≡ source.old.bytes) }
    ensures asked { AsksBeside R.asked source.old source.new (W.writes.taken writer.now) }
    ensures delivered { Takes R.reads.delivered source.old source.new 0 }
    ensures failures { CountsFailure (R.reads.failures source.old.reader) (R.reads.failures source.new.reader) result }
{
    source.refill_beside(writer)
}

/// Passes all pending bytes to the writer where the last read was short.
#[inline(always)]
fn let_out<R, W: ByteOut>(
    source: &Source<R>,
    output: &mut Output,
    writer: &mut W,
) -> Result<(), Failed>
    ensures live { OnOk result (source.now.short ≡ true → output.new.bytes ≡ []) }
    ensures sent { SendsOn (W.writes.taken writer.old) (W.writes.taken writer.new) output.old output.new }
    ensures count { bytes_put output.new ≡ bytes_put output.old }
    ensures failures { CountsFailure (W.writes.failures writer.old) (W.writes.failures writer.new) result }
{
    if source.came_short() {
        return output.drain(writer);
    }
    Ok(())
}

/// Reads until `want` bytes are held or the input ends. No bytes are pending at a read that follows a short
/// one.
#[inline(never)]
fn fetch<R: ReadBeside, W: ByteOut>(
    source: &mut Source<R>,
    want: usize,
    output: &mut Output,
    writer: &mut W,
) -> Result<(), Cause>
    requires { want ≤ BUFFER_SIZE }
    ensures stays { run_read_failed result ≡ false → Stays R.reads.rest source.old source.new }
    ensures all { OnOk result (length source.new.bytes < want → HoldsAll R.reads.rest source.old source.new) }
    ensures delivered { Takes R.reads.delivered source.old source.new 0 }
    ensures short { run_read_failed result ≡ true → length source.new.bytes < want }
    ensures front { run_read_failed result ≡ true → IfKnown (to_come R.reads.rest source.old) (HoldsFront source.new) }
    ensures asked { AsksOn R.asked source.old source.new want (W.writes.taken writer.old) output.old
        (λ more. length source.new.bytes ≡ length source.old.bytes + more) }
    ensures sent { SendsOn (W.writes.taken writer.old) (W.writes.taken writer.new) output.old output.new }
    ensures count { bytes_put output.new ≡ bytes_put output.old }
    ensures cause { result ≢ Err Cause.TooLong }
    ensures faults { CountsCause R.reads W.writes result source.old.reader source.new.reader writer.old writer.new }
{
    while source.held() < want {
        let Ok(()) = let_out(source, output, writer) else {
            return Err(Cause::WriteFailed);
        };
        match ask(source, output, writer) {
            Ok(0) => return Ok(()),
            Ok(_) => {}
            Err(Failed) => return Err(Cause::ReadFailed),
        }
    }
    Ok(())
}

/// The next frame of a sound whose end was not reached; `None` at its end.
///
/// Before a read that follows a short one, all pending bytes go to the writer.
#[inline(always)]
pub fn next_frame<R: ReadBeside, W: ByteOut>(
    source: &mut Source<R>,
    progress: &mut Progress,
    output: &mut Output,
    writer: &mut W,
) -> Result<Option<Frame>, Cause>
    requires begun { progress.old.over ≡ false }

    // A frame, or the end.
    ensures frame { IfOk result (λ o. IfSome o (TookFrame R.reads source.old source.new progress.old progress.new)) }
    ensures end { IfOk result (λ o. IfNone o (MetEnd R.reads source.old source.new progress.old progress.new)) }
    ensures maximum { OnOk result (progress.new.frames ≤ MAX_FRAMES) }

    // The faults.
    ensures kept { OnErr result (TookNone R.reads result source.old source.new progress.old progress.new) }
    ensures read_failed { run_read_failed result ≡ true → CutShort R.reads source.old source.new progress.old }
    ensures too_long { result ≡ Err Cause.TooLong → FollowsMaximum R.reads.rest source.old progress.old }
    ensures faults { CountsCause R.reads W.writes result source.old.reader source.new.reader writer.old writer.new }

    // What the writer had taken at each read, and the bytes that are held then. The pending bytes were sent.
    ensures asked { AsksNext R.asked source.old source.new progress.old (W.writes.taken writer.old) output.old result }
    ensures sent { PassesPending (W.writes.taken writer.old) (W.writes.taken writer.new) output.old output.new }
{
    fetch(source, progress.wanted(), output, writer)?;
    match take_frame(source, progress) {
        Ok(next) => Ok(next),
        Err(TooLong) => Err(Cause::TooLong),
    }
}
