//! Plans command lines, one on each line of standard input, and prints for each its plan or its fault.
//!
//! Words on a line stand apart by tabs; in a word, `%` and two hexadecimal digits stand for a byte. The first word
//! says what the line is:
//!
//! - `head KIND RATE CHANNELS BITS`, as `head au 8000 1 32`: what the head of the input says, for the lines after
//!   it. Coefficient files of the lines before it are forgotten.
//! - `file NAME BYTES`: a coefficient file, for the lines after it.
//! - `plan WORD ..`: a command line, without the program's name.
//!
//! A plan is answered by `from IN to OUT: KIND CODING, rate R, channels C, hold H, work W`, where H are the frames that
//! a chain holds at most and W the frames that it hands over for 1000 frames at most, and then for each effect by
//! `; NAME H`. A refusal is answered by `command line: NUMBER FAULT`, `cannot open NAME`, `effects: NUMBER FAULT` or
//! `effect NUMBER NAME: NUMBER FAULT: WORD (word NUMBER)`, a line of another form by `?`. Words are printed as they are
//! read, with `%` for control characters and for itself.
#![tactic(auto)]

mod answers;
mod lines;

use answers::answer;
use lines::Known;
use std::io::{self, BufRead, BufReader};

fn main(rt: HostRuntime) -> io::Result<()> {
    let mut known = Known {
        head: None,
        files: Vec::new(rt.alloc()),
    };
    for line in BufReader::new(rt.alloc(), rt.reader())?.lines(rt.alloc()) {
        answer(&rt, &mut known, line?.as_str())?;
    }
    Ok(())
}
