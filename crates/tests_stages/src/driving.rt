//! How the rows drive a stage. Samples of frames stand one after the other, those of a frame together. An error is a text, so
//! that it is not dropped where a function is left.
ghost use Rattle.std.specs.Prelude.{◌≡◌, ◌^◌, ◌≤◌, IfOk, unsigned_abs};
ghost use Rattle.fx_frame_base.specs.Stage.{kind};

use fx_fixed::{Gain, UNIT};
use fx_frame::{Frame, Stage, ThawFault, WideFrame};
use std::alloc::{AllocError, Global};
use std::io::Print;

/// The error where memory is wanting.
pub(crate) const REFUSED: &str = "refused";

/// Writes the samples of the frames that a stage gives until it is dry.
pub(crate) fn drain<S: Stage>(stage: &mut S, out: &mut Vec<i32>) -> Result<(), &'static str>
    ensures { S.acts.recipe stage.new ≡ S.acts.recipe stage.old }
{
    'given: while let Some(frame) = stage.give() {
        if out.extend_from_slice(frame.samples()).is_err() {
            return Err(REFUSED);
        }
    }
    Ok(())
}

/// Adds the samples that a stage gives for these, with no end.
fn feed<S: Stage>(stage: &mut S, sound: &[i32], out: &mut Vec<i32>) -> Result<(), &'static str>
    requires { 2 ^ 20 ≤ (kind S.acts stage.old).limit }
{
    let channels = stage.in_channels();
    if channels == 0 {
        return Err("a stage of no channel");
    }
    'frames: for samples in sound.chunks(channels) {
        let Some(frame) = Frame::from_slice(samples) else {
            return Err("not a frame");
        };
        if !stage.is_dry() || stage.is_ended() || frame.channels() != stage.in_channels() {
            return Err("not ready for the frame");
        }
        if stage.counters()[0] >= 1 << 20 {
            return Err("too many frames");
        }
        stage.take(frame);
        drain(stage, out)?;
    }
    Ok(())
}

/// Adds the samples that a stage gives for these and, where they are the whole sound, then the end; how many of them come
/// before the end.
fn through<S: Stage>(
    stage: &mut S,
    sound: &[i32],
    is_whole: bool,
    out: &mut Vec<i32>,
) -> Result<usize, &'static str>
    requires { 2 ^ 20 ≤ (kind S.acts stage.old).limit }
{
    feed(stage, sound, out)?;
    let early = out.len();
    if !is_whole {
        return Ok(early);
    }
    if !stage.is_dry() || stage.is_ended() {
        return Err("not ready for the end");
    }
    stage.end();
    drain(stage, out)?;
    Ok(early)
}

/// Adds the samples of a word: one, or as many as are said after a star.
fn add_samples(word: &str, samples: &mut Vec<i32>) -> Result<(), &'static str> {
    let (number, times) = word.split_once('*').unwrap_or((word, "1"));
    let Ok(sample) = number.parse::<i32>() else {
        return Err("not a sample");
    };
    let Ok(times) = times.parse::<u8>() else {
        return Err("not a number of samples");
    };
    for _time in 0..times {
        if samples.push(sample).is_err() {
            return Err(REFUSED);
        }
    }
    Ok(())
}

/// Adds the samples of a text; how many of them stand before its bar.
fn samples_of(text: &str, samples: &mut Vec<i32>) -> Result<Option<usize>, &'static str> {
    let mut bar = None;
    for word in text.split_whitespace() {
        if word == "|" {
            bar = Some(samples.len());
        } else {
            add_samples(word, samples)?;
        }
    }
    Ok(bar)
}

/// Are these the samples of a text, as many of them early as stand before its bar, where it has one?
fn are_wanted(alloc: Global, out: &[i32], early: usize, text: &str) -> Result<bool, &'static str> {
    let mut want = Vec::new(alloc);
    let bar = samples_of(text, &mut want)?;
    Ok(out == want.as_slice() && bar.unwrap_or(early) == early)
}

/// Adds the samples that a stage gives for those of a text, as `through` does.
fn given_for<S: Stage>(
    alloc: Global,
    stage: &mut S,
    text: &str,
    is_whole: bool,
    out: &mut Vec<i32>,
) -> Result<usize, &'static str>
    requires { 2 ^ 20 ≤ (kind S.acts stage.old).limit }
{
    let mut sound = Vec::new(alloc);
    samples_of(text, &mut sound)?;
    through(stage, &sound, is_whole, out)
}

/// Fails with a row where a stage gives other samples than those right of its arrow for those left of it and, where they are
/// the whole sound, then the end. The row's name stands first; a bar in what is given stands where the end comes.
pub(crate) fn compare<S: Stage>(
    alloc: Global,
    stage: &mut S,
    is_whole: bool,
    row: &'static str,
) -> Result<(), &'static str>
    requires { 2 ^ 20 ≤ (kind S.acts stage.old).limit }
{
    let Some((_name, samples)) = row.split_once(": ") else {
        return Err("a row has no name");
    };
    let Some((sound, want)) = samples.split_once("->") else {
        return Err("a row has no arrow");
    };
    let mut out = Vec::new(alloc);
    let early = given_for(alloc, stage, sound, is_whole, &mut out)?;
    if are_wanted(alloc, &out, early, want)? {
        Ok(())
    } else {
        Err(row)
    }
}

/// Fails with a row where a stage that was made does not give what it says, or counts other clips.
pub(crate) fn gives<S: Stage + Drop>(
    alloc: Global,
    made: Result<S, AllocError>,
    row: &'static str,
    clips: u64,
) -> Result<(), &'static str>
    requires { IfOk made (λ stage. 2 ^ 20 ≤ (kind S.acts stage).limit) }
{
    let Ok(mut stage) = made else {
        return Err(REFUSED);
    };
    compare(alloc, &mut stage, true, row)?;
    if stage.clips() == clips {
        Ok(())
    } else {
        Err("it counts other clips")
    }
}

/// Fails with a row where a stage that was made does not give what it says, or holds another number of frames.
pub(crate) fn gives_holding<S: Stage + Drop>(
    alloc: Global,
    made: Result<S, AllocError>,
    hold: u64,
    row: &'static str,
) -> Result<(), &'static str>
    requires { IfOk made (λ stage. 2 ^ 20 ≤ (kind S.acts stage).limit) }
{
    let Ok(stage) = made else {
        return Err(REFUSED);
    };
    if stage.hold() != hold {
        return Err("another hold");
    }
    gives(alloc, Ok(stage), row, 0)
}

/// Fails where a stage that was made does not hold four frames, or memory for it was wanting.
pub(crate) fn holds_four<S: Stage + Drop>(made: Result<S, AllocError>) -> Result<(), &'static str> {
    let Ok(stage) = made else {
        return Err(REFUSED);
    };
    if stage.hold() != 4 {
        return Err("another hold");
    }
    Ok(())
}

/// The frames that a stage stores.
pub(crate) fn stored<S: Stage>(alloc: Global, stage: &S) -> Result<Vec<WideFrame>, AllocError> {
    let mut frames = Vec::new(alloc);
    for place in 0..stage.held() as usize {
        frames.push(stage.stored(place))?;
    }
    Ok(frames)
}

/// Fails with a text where that is no snapshot that was refused.
pub(crate) fn refused<S: Drop>(
    made: Result<S, ThawFault>,
    what: &'static str,
) -> Result<(), &'static str> {
    match made {
        Err(ThawFault::BadSnapshot) => Ok(()),
        _ => Err(what),
    }
}

/// Prints `made`, or `refused` where memory was wanting; any other error fails.
pub(crate) fn say(rt: &impl Print, made: Result<(), &'static str>) -> Result<(), &'static str> {
    let said = match made {
        Ok(()) => "made",
        Err(fault) => {
            if fault != REFUSED {
                return Err(fault);
            }
            fault
        }
    };
    match println!(rt; "{said}") {
        Ok(()) => Ok(()),
        Err(_unwritten) => Err("nothing can be printed"),
    }
}

/// The gain of a text.
pub(crate) fn gain(text: &str) -> Result<Gain, &'static str> {
    match Gain::parse(text) {
        Ok(gain) => Ok(gain),
        Err(_fault) => Err("not a gain"),
    }
}

/// The gain of a text, at most 1.
pub(crate) fn decay(text: &str) -> Result<Gain, &'static str>
    ensures { IfOk result (λ decay. unsigned_abs decay ≤ UNIT) }
{
    let decay = gain(text)?;
    if decay.trillionths().unsigned_abs() > UNIT {
        return Err("not a decay");
    }
    Ok(decay)
}
