//! The worked rows of `upsample` and `downsample`.
ghost use Rattle.std.specs.Prelude.{◌≡◌, length};

use crate::driving::{REFUSED, refused};
use fx_cut::{Downsample, Upsample};
use fx_frame::{Frame, Stage, WideFrame};

/// The frame of one sample.
fn mono(sample: i32) -> Frame
    ensures { length result ≡ 1 }
{
    Frame::one(sample)
}

/// One frame, and two of silence after it.
#[test]
fn upsample_by_three() -> Result<(), &'static str> {
    let mut stage = Upsample::new(1, 3);
    stage.take(mono(7));
    for sample in [7, 0, 0] {
        if stage.is_dry() || stage.give() != Some(mono(sample)) {
            return Err("other frames than 7 0 0");
        }
    }
    if !stage.is_dry() || stage.give().is_some() {
        return Err("more frames than three");
    }
    Ok(())
}

/// Adds what `downsample` keeps of a frame.
fn keep(stage: &mut Downsample, frame: Frame, out: &mut Vec<Frame>) -> Result<(), &'static str> {
    if stage.in_channels() != frame.channels()
        || !stage.is_dry()
        || stage.is_ended()
        || stage.counters()[0] >= 6
    {
        return Err("no frame can be taken");
    }
    stage.take(frame);
    if let Some(kept) = stage.give() {
        if out.push(kept).is_err() {
            return Err(REFUSED);
        }
    }
    Ok(())
}

/// Lets `upsample` take a sample and `downsample` each frame that comes of it, and adds what is kept.
fn pass_on(
    first: &mut Upsample,
    second: &mut Downsample,
    sample: i32,
    out: &mut Vec<Frame>,
) -> Result<(), &'static str> {
    if first.in_channels() != 1 || !first.is_dry() || first.is_ended() || first.counters()[0] >= 2 {
        return Err("no frame can be taken");
    }
    first.take(mono(sample));
    for _frame in 0..3 {
        let Some(frame) = first.give() else {
            return Err("too few frames");
        };
        keep(second, frame, out)?;
    }
    Ok(())
}

/// Of the six frames after `upsample 3`, each second one from the first on.
#[test]
fn upsample_then_downsample(rt: HostRuntime) -> Result<(), &'static str> {
    let mut first = Upsample::new(1, 3);
    let mut second = Downsample::new(1, 2);
    let mut out = Vec::new(rt.alloc());
    pass_on(&mut first, &mut second, 1, &mut out)?;
    pass_on(&mut first, &mut second, 2, &mut out)?;
    if out.as_slice() != [mono(1), mono(0), mono(0)].as_slice() {
        return Err("other frames than 1 0 0");
    }
    Ok(())
}

/// More silence than a factor of 3 leaves, and a pending frame after the end.
#[test]
fn factors_refused() -> Result<(), &'static str> {
    let silent = Upsample::thaw(1, 3, &[], &[3, 0, 0, 0, 0, 9, 0, 0]);
    refused(silent, "long silence")?;
    let frames = [WideFrame::from_frame(mono(7))];
    let over = Downsample::thaw(1, 2, &frames, &[1, 0, 1, 0, 1, 1, 0, 0]);
    refused(over, "hand after end")
}
