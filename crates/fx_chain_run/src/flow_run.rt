//! A whole sound through a flow, from its source to a writer.
ghost use Rattle.std.specs.Prelude.{◌≡◌, ◌+◌, ◌<◌, ◌≤◌, ◌^◌, [], true, IfErr, IfOk, None, OnErr, OnOk, length, map};
ghost use Rattle.fx_chain_run.specs.Due.{dues};
ghost use Rattle.fx_chain_run.specs.FlowRun.{CountsCauses, CountsFlow, HasHead, RanPart, RanWhole, SourceAt};
ghost use Rattle.fx_chain_run.specs.Pumping.{BeginsFlow, WaitedForDue};
ghost use Rattle.fx_chain_run.specs.Report.{clips_now, head_for, pad, report_in, start_of};
ghost use Rattle.fx_chain_run.specs.Through.{SendsAll, SendsFront};
ghost use Rattle.fx_chain_flow.specs.Parts.{given_by, moves_of, max_of, taken_of, work};
ghost use Rattle.fx_chain_flow.specs.Sound.{max_frames};
ghost use Rattle.fx_chain_flow.specs.Steps.{IsDone, IsHungry, wholes_of};
ghost use Rattle.fx_frame_base.specs.Holds.{kinds, total};
ghost use Rattle.fx_frame_base.specs.Io.{CountsFailure};
ghost use Rattle.fx_sound.specs.Output.{bytes_put};
ghost use Rattle.fx_sound.specs.Writing.{written_head};

use crate::frame_writer::FrameWriter;
use crate::pump::{Cause, pump};
use crate::report::{MAX_EFFECTS, Report, RunFault};
use crate::target::Target;
use fx_chain_flow::flow::Flow;
use fx_frame::{ByteOut, Failed, ReadBeside};
use fx_frame_base::pipeline::PassesEarly;
use fx_frame_base::stage::Stage;
use fx_sound::inner::Output;
use fx_sound::{Head, HeadBytes, Kind, Progress, Source, head_bytes};

// A zero byte after an odd number of bytes of sound in a WAVE file.
fn padding(target: Target, bytes: u64) -> &'static [u8]
    ensures value { result.now ≡ pad target.kind target.named bytes }
    ensures short { length result.now ≤ 1 }
{
    match target.kind {
        Kind::Au => &[],
        Kind::Wav if target.named && bytes % 2 == 1 => &[0],
        Kind::Wav => &[],
    }
}

// The clips of each stage, and 0 after the last.
fn clips_of_stages<S: Stage>(flow: &Flow<S>) -> [u64; MAX_EFFECTS]
    requires { length flow.now.stages ≤ MAX_EFFECTS }
    ensures { result ≡ clips_now S.acts flow.now.stages }
{
    let mut clips = [0; MAX_EFFECTS];
    'stages: for i in 0..flow.stages().len() {
        clips[i] = flow.clips(i);
    }
    clips
}

// The report of a run with this progress.
fn report_of<S: Stage>(flow: &Flow<S>, progress: &Progress, frame_writer: &FrameWriter) -> Report
    requires { length flow.now.stages ≤ MAX_EFFECTS }
    ensures frames_in { result.frames_in ≡ progress.now.frames }
    ensures frames_out { result.frames_out ≡ given_by S.acts flow.now.left flow.now.stages }
    ensures bytes_out { result.bytes_out ≡ frame_writer.now.output.written }
    ensures moves { result.moves ≡ moves_of S.acts flow.now }
    ensures work { result.moves ≤ work (kinds S.acts flow.now.stages) (taken_of flow.now) }
    ensures done { IsDone S.acts flow.now → result.moves ≡ taken_of flow.now + total (λ w. w.given) (wholes_of S.acts flow.now []) }
    ensures clips { result.clips ≡ clips_now S.acts flow.now.stages }
    ensures due { IsHungry S.acts flow.now → map (λ s. (S.acts.counts s).given) flow.now.stages ≡ dues (kinds S.acts flow.now.stages) (taken_of flow.now) }
    ensures out_clips { result.out_clips ≡ frame_writer.now.clips }
    ensures ends { (result.missing ≡ progress.now.missing) × (result.stray ≡ progress.now.stray) }
{
    let _stages = flow.stages();
    Report {
        frames_in: progress.frames(),
        frames_out: flow.given(),
        bytes_out: frame_writer.output.bytes_out(),
        moves: flow.moves(),
        clips: clips_of_stages(flow),
        out_clips: frame_writer.clips,
        missing: progress.missing(),
        stray: progress.stray(),
    }
}

// Sends the last bytes and all pending bytes, and flushes the writer.
fn close<W: ByteOut>(
    frame_writer: &mut FrameWriter,
    writer: &mut W,
    last: &[u8],
) -> Result<(), Failed>
    requires short { length last.now ≤ 1 }
    requires free { bytes_put frame_writer.old.output + 1 < 2 ^ 64 }
    ensures wrote { OnOk result
        (SendsAll (W.writes.taken writer.old) (W.writes.taken writer.new) frame_writer.old.output frame_writer.new.output last.now) }
    ensures front { OnErr result
        (SendsFront (W.writes.taken writer.old) (W.writes.taken writer.new) frame_writer.old.output frame_writer.new.output last.now) }
    ensures flushed { OnOk result (W.writes.flushed writer.new ≡ true) }
    ensures clips { frame_writer.new.clips ≡ frame_writer.old.clips }
    ensures failures { CountsFailure (W.writes.failures writer.old) (W.writes.failures writer.new) result }
{
    frame_writer.output.push(writer, last)?;
    frame_writer.output.finish(writer)
}

// The head of what is written, where its length is not known beforehand.
fn streamed_head(target: Target) -> HeadBytes
    requires { HasHead target }
    ensures { result ≡ written_head target.kind target.rate target.channels target.coding None }
{
    head_bytes(
        target.kind,
        target.rate,
        target.channels,
        target.coding,
        None,
    )
}

/// Writes a streamed head, and what a new flow gives for all frames of the sound after `head`.
///
/// Once some stage needs no more input, no frame is read. After a failed read, and where the sound is too long, the frames
/// then due are written; after a failed write the writer has a prefix of the whole output. Allocates no memory.
pub fn run_flow<R: ReadBeside, S: PassesEarly, W: ByteOut>(
    flow: &mut Flow<S>,
    head: &Head,
    target: Target,
    source: &mut Source<R>,
    writer: &mut W,
) -> Result<Report, RunFault>
    requires target { HasHead target }
    requires flow { BeginsFlow S.acts flow.old head.now.channels }
    requires count { length flow.old.stages ≤ MAX_EFFECTS }
    requires fits { max_of (kinds S.acts flow.old.stages) max_frames ≤ 2 ^ 56 }

    // Without a fault all that the flow gives for the sound was written.
    ensures completed { IfOk result (RanWhole S.acts R.reads W.writes flow.old flow.new (start_of head.now)
        source.old source.new writer.old writer.new target) }

    // After a fault the frames then due were written, or a prefix of them.
    ensures stopped { IfErr result (RanPart S.acts R.reads W.writes flow.old flow.new (start_of head.now)
        source.old source.new writer.old writer.new target) }

    // The position of the source.
    ensures stands { SourceAt S.acts R.reads W.writes flow.old flow.new (start_of head.now)
        source.old source.new writer.old writer.new result }

    // Before each read that may have had to wait, the writer had exactly the head and the frames then due.
    ensures waited { WaitedForDue S.acts R.reads R.asked flow.old target.coding (head_for target) (start_of head.now)
        (W.writes.taken writer.old) source.old source.new.reader }

    // The counts.
    ensures counts { CountsFlow S.acts (work (kinds S.acts flow.old.stages)) flow.old flow.new (report_in result) }

    // A fault is returned only where its cause was counted.
    ensures causes { CountsCauses S.acts R.reads W.writes flow.old flow.new (start_of head.now)
        source.old source.new writer.old writer.new result }
{
    let mut progress = Progress::new(head);
    let mut frame_writer = FrameWriter {
        coding: target.coding,
        clips: 0,
        output: Output::new(),
    };
    let written = streamed_head(target);
    let pumped = pump(
        written.as_slice(),
        flow,
        source,
        &mut progress,
        &mut frame_writer,
        writer,
    );
    match pumped {
        Ok(()) => {
            let sound = frame_writer
                .output
                .bytes_put()
                .saturating_sub(written.as_slice().len() as u64);
            let Ok(()) = close(&mut frame_writer, writer, padding(target, sound)) else {
                return Err(RunFault::WriteFailed(report_of(flow, &progress, &frame_writer)));
            };
            Ok(report_of(flow, &progress, &frame_writer))
        }
        Err(Cause::WriteFailed) => Err(RunFault::WriteFailed(report_of(
            flow,
            &progress,
            &frame_writer,
        ))),
        Err(Cause::ReadFailed) => {
            let Ok(()) = close(&mut frame_writer, writer, &[]) else {
                return Err(RunFault::WriteFailed(report_of(flow, &progress, &frame_writer)));
            };
            Err(RunFault::ReadFailed(report_of(flow, &progress, &frame_writer)))
        }
        Err(Cause::TooLong) => {
            let Ok(()) = close(&mut frame_writer, writer, &[]) else {
                return Err(RunFault::WriteFailed(report_of(flow, &progress, &frame_writer)));
            };
            Err(RunFault::TooLong(report_of(flow, &progress, &frame_writer)))
        }
    }
}
