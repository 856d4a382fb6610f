//! Conversions of sounds in memory, which the lines of standard input say: whole, in pieces, with devices that fail.
//!
//! The words of a line stand apart by spaces. A line that is empty or begins with `#` says nothing. The first word of
//! another says what the line is:
//!
//! - `row NAME`: a row begins. Its input is empty, it has no coefficient files, and no device fails.
//! - `head BYTES`: the input goes on with the head of an AU of 32 bits, mono, 8000 frames a second, that announces so
//!   many bytes.
//! - `samples SAMPLE ..`: it goes on with these samples of 32 bits.
//! - `bytes HEX ..`: it goes on with these bytes.
//! - `file TEXT`: the next coefficient file, with `|` for a line feed.
//! - `reader fails`: the read after the last byte fails.
//! - `reader fails CALL once`, `reader fails CALL ever`: the read of that number fails, or each from it on.
//! - `writer free BYTES`: the writer takes so many bytes and then fails; `messages free BYTES`: so does that of messages.
//! - `writer fails CALL once`, `writer fails CALL ever`: the write or flush of that number fails, or each from it on.
//! - `pieces BYTES`: reads and writes move at most so many bytes. Without it a row is tried in pieces of several sizes.
//! - `convert WORD ..`: the command line, without the program's name.
//!
//! The answer to `convert` is a line with status and report, the bytes that were written, and the messages. It is found by
//! `convert`, and by `prepare` and `finish`, for each size of pieces; what differs from the first of them is said. A line
//! of another form is answered by `?`.
#![tactic(auto)]

mod outcome;
mod row;
mod show;

use row::{Row, follow};
use std::io::{self, BufRead, BufReader};

fn main(rt: HostRuntime) -> io::Result<()> {
    let mut row = Row::new(rt.alloc(), "")?;
    for line in BufReader::new(rt.alloc(), rt.reader())?.lines(rt.alloc()) {
        follow(&rt, &mut row, line?.as_str())?;
    }
    Ok(())
}
