//! Reads texts, one on each line of standard input, and prints for each its value or its fault.
//!
//! A line is `KIND RATE TEXT`, with the kinds `gain`, `time` and `millis`, or
//! `position RATE DEFAULT PREVIOUS TEXT`, with `start`, `previous` or `end` as the default anchor and
//! the previous position as `start:N` or `end:N`. One space stands between the words, and the text is
//! the rest of the line. A line of another form is answered by `?`.
#![tactic(auto)]

ghost use Rattle.std.specs.Prelude.{◌<◌};

use fx_fixed::{Anchor, At, Gain, Position, TimeSpec, millis};
use std::fmt::Debug;
use std::io::{self, BufRead, BufReader};

/// What a line asks for.
enum Request<'a> {
    Gain(&'a str),
    Time(Rate, &'a str),
    Millis(Rate, &'a str),
    Position(Rate, Anchor, At, &'a str),
}

/// A rate of at least 1.
#[derive(Clone, Copy, Drop)]
struct Rate {
    frames: u32,
    ghost positive: { 0 < frames },
}

/// The rate that a word names.
fn rate_of(word: &str) -> Option<Rate> {
    let frames = word.parse::<u32>().ok()?;
    if frames == 0 {
        return None;
    }
    Some(Rate { frames })
}

/// The anchor that a word names.
fn anchor_of(word: &str) -> Option<Anchor> {
    match word {
        "start" => Some(Anchor::Start),
        "previous" => Some(Anchor::Previous),
        "end" => Some(Anchor::End),
        _ => None,
    }
}

/// The position that a word names, as `start:5`.
fn previous_of(word: &str) -> Option<At> {
    let (anchor, number) = word.split_once(':')?;
    let frames = number.parse::<u64>().ok()?;
    match anchor {
        "start" => Some(At::Start(frames)),
        "end" => Some(At::End(frames)),
        _ => None,
    }
}

/// What a line asks for.
fn request_of(line: &str) -> Option<Request<'_>> {
    let (kind, rest) = line.split_once(' ')?;
    let (rate_word, text) = rest.split_once(' ')?;
    let rate = rate_of(rate_word)?;
    match kind {
        "gain" => Some(Request::Gain(text)),
        "time" => Some(Request::Time(rate, text)),
        "millis" => Some(Request::Millis(rate, text)),
        "position" => {
            let (anchor, rest) = text.split_once(' ')?;
            let (previous, text) = rest.split_once(' ')?;
            Some(Request::Position(rate, anchor_of(anchor)?, previous_of(previous)?, text))
        }
        _ => None,
    }
}

/// Prints a value or a fault.
fn show<T: Debug + Drop, E: Debug + Drop>(
    rt: &impl Print,
    outcome: Result<T, E>,
) -> io::Result<()> {
    match outcome {
        Ok(value) => println!(rt; "{value:?}"),
        Err(fault) => println!(rt; "{fault:?}"),
    }
}

/// Prints the answer to a line.
fn answer(rt: &impl Print, line: &str) -> io::Result<()> {
    match request_of(line) {
        Some(Request::Gain(text)) => { show(rt, Gain::parse(text).map(|gain| gain.trillionths())) }
        Some(Request::Time(rate, text)) => show(rt, TimeSpec::frames(text, rate.frames)),
        Some(Request::Millis(rate, text)) => show(rt, millis(text, rate.frames)),
        Some(Request::Position(rate, anchor, previous, text)) => show(
            rt,
            Position::resolve(text, rate.frames, anchor, previous),
        ),
        None => println!(rt; "?"),
    }
}

fn main(rt: HostRuntime) -> io::Result<()> {
    for line in BufReader::new(rt.alloc(), rt.reader())?.lines(rt.alloc()) {
        answer(&rt, line?.as_str())?;
    }
    Ok(())
}
