//! The worked rows of fx_frame: codings, frames, lines and the writer into memory.
ghost use Rattle.std.specs.Prelude.{◌≡◌, ◌≤◌, ◌^◌, length};
ghost use Rattle.fx_frame_base.specs.Frame.{IsChannelCount};

use crate::fixed_tests::{REFUSED, say};
use fx_frame::{Coding, Frame, Line, Sink, WideFrame, WideLine};
use std::alloc::Global;

/// Is a sample written as this byte, and clipped or not?
fn is_written(sample: i32, byte: u8, is_clipped: bool) -> bool {
    let mut bytes = [77];
    let found = Coding::U8.write(sample, &mut bytes);
    found == is_clipped && bytes[0] == byte
}

#[test]
fn u8_writes_and_reads() -> Result<(), &'static str> {
    for (sample, byte, is_clipped) in [
        (2147483647, 255, true),
        (0, 128, false),
        (-2147483648, 0, false),
    ] {
        if !is_written(sample, byte, is_clipped) {
            return Err("a sample is written otherwise");
        }
    }
    if Coding::U8.read(&[128]) != 0 || Coding::U8.read(&[0]) != -2147483648 {
        return Err("a byte is read otherwise");
    }
    Ok(())
}

/// Fails with a name where a frame is not the wanted one, or there is one where none is wanted.
fn check_frame(
    name: &'static str,
    found: Option<Frame>,
    want: Option<Frame>,
) -> Result<(), &'static str> {
    if found == want { Ok(()) } else { Err(name) }
}

/// Is that what can be read of the frame of 5 and -7?
fn is_pair(pair: Frame) -> bool {
    pair.channels() == 2
        && pair.get(1) == -7
        && pair == Frame::two(5, -7)
        && pair != Frame::one(5)
        && pair.places()[1] == -7
}

#[test]
fn frames() -> Result<(), &'static str> {
    let Some(pair) = Frame::from_slice(&[5, -7]) else {
        return Err("no frame of two samples");
    };
    if !is_pair(pair) {
        return Err("another frame of two samples");
    }
    check_frame("no sample", Frame::from_slice(&[]), None)?;
    check_frame("17 samples", Frame::from_slice(&[0; 17]), None)?;
    let silence = Some(Frame::silence(16));
    check_frame("16 samples", Frame::from_slice(&[0; 16]), silence)?;
    let three = Some(Frame::of_first(3, [9; 16]));
    check_frame("three of 16", three, Frame::from_slice(&[9; 3]))
}

/// Fails with a name where a wide frame is not the wanted one, or there is one where none is wanted.
fn check_wide(
    name: &'static str,
    found: Option<WideFrame>,
    want: Option<WideFrame>,
) -> Result<(), &'static str> {
    if found == want { Ok(()) } else { Err(name) }
}

#[test]
fn wide_frames() -> Result<(), &'static str> {
    let Some(pair) = WideFrame::from_slice(&[1 << 40, -7]) else {
        return Err("no wide frame of two samples");
    };
    if pair.channels() != 2 || pair.get(0) != 1 << 40 {
        return Err("another wide frame of two samples");
    }
    check_wide("no sample", WideFrame::from_slice(&[]), None)?;
    check_wide("17 samples", WideFrame::from_slice(&[0; 17]), None)?;
    let wide = WideFrame::from_frame(Frame::two(5, -7));
    check_wide("two of a frame", Some(wide), Some(WideFrame::two(5, -7)))
}

/// Fails where a line of two places does not give its frames in order.
fn line_of_two(alloc: Global) -> Result<(), &'static str> {
    let Ok(mut line) = Line::new(alloc, 1, 2) else {
        return Err(REFUSED);
    };
    let (seven, eight, nine) = (Frame::one(7), Frame::one(8), Frame::one(9));
    let is_pushed_out = line.push(seven).is_none()
        && line.push(eight).is_none()
        && line.push(nine) == Some(seven);
    let are_there = line.back(0) == Some(nine)
        && line.back(1) == Some(eight)
        && line.back(2).is_none()
        && line.pop_front() == Some(eight);
    if is_pushed_out && are_there {
        Ok(())
    } else {
        Err("a line of two places gives other frames")
    }
}

/// Fails where a line of no place keeps a frame.
fn line_of_none(alloc: Global) -> Result<(), &'static str> {
    let Ok(mut line) = Line::new(alloc, 1, 0) else {
        return Err(REFUSED);
    };
    if line.push(Frame::one(7)) == Some(Frame::one(7)) && line.len() == 0 {
        Ok(())
    } else {
        Err("a line of no place keeps a frame")
    }
}

/// Fails where the second channel of a full line is not that of its last frames.
fn line_of_three(alloc: Global) -> Result<(), &'static str> {
    let Ok(mut line) = Line::new(alloc, 2, 3) else {
        return Err(REFUSED);
    };
    line.push(Frame::two(1, 2));
    line.push(Frame::two(3, 4));
    line.push(Frame::two(5, 6));
    line.push(Frame::two(7, 8));
    let mut samples = [0; 3];
    line.channel_into(1, &mut samples);
    if samples == [4, 6, 8] {
        Ok(())
    } else {
        Err("other samples of a channel")
    }
}

/// Lines of two places and of none, and one channel of a line.
#[test]
fn lines(rt: HostRuntime) -> Result<(), &'static str> {
    line_of_two(rt.alloc())?;
    line_of_none(rt.alloc())?;
    line_of_three(rt.alloc())
}

/// A frame whose samples all differ, and differ from those of the frames with other numbers below 16.
fn numbered(channels: usize, number: i32) -> Frame
    requires { IsChannelCount channels }
    ensures { length result ≡ channels }
{
    let n = number;
    Frame::of_first(
        channels,
        [
            n,
            n ^ 0x100,
            n ^ 0x200,
            n ^ 0x300,
            n ^ 0x400,
            n ^ 0x500,
            n ^ 0x600,
            n ^ 0x700,
            n ^ 0x800,
            n ^ 0x900,
            n ^ 0xa00,
            n ^ 0xb00,
            n ^ 0xc00,
            n ^ 0xd00,
            n ^ 0xe00,
            n ^ 0xf00,
        ],
    )
}

/// Takes the oldest frame out of a list that has more than so many.
fn oldest_over(list: &mut Vec<Frame>, maximum: usize) -> Option<Frame> {
    if list.len() > maximum {
        Some(list.remove(0))
    } else {
        None
    }
}

/// Has a line the frames of a list, whose newest is the last one?
fn has_all(line: &Line, list: &[Frame]) -> bool {
    if line.len() != list.len() {
        return false;
    }
    for (k, item) in list.iter().rev().enumerate() {
        if line.back(k) != Some(*item) {
            return false;
        }
    }
    true
}

/// What a line does after forty pushes, a plain list does too.
fn agrees(alloc: Global, channels: usize, capacity: usize) -> Result<(), &'static str>
    requires channels { IsChannelCount channels }
    requires capacity { capacity ≤ 2 ^ 28 }
{
    let Ok(mut line) = Line::new(alloc, channels, capacity) else {
        return Err(REFUSED);
    };
    let mut list = Vec::new(alloc);
    'pushes: for number in 0..40 {
        let frame = numbered(channels, number);
        if list.push(frame).is_err() {
            return Err(REFUSED);
        }
        if line.push(frame) != oldest_over(&mut list, capacity) {
            return Err("another frame is pushed out");
        }
        if number % 7 == 6 && line.pop_front() != oldest_over(&mut list, 0) {
            return Err("another frame is the oldest");
        }
        if !has_all(&line, &list) {
            return Err("other frames");
        }
    }
    Ok(())
}

#[test]
fn line_agrees_with_list(rt: HostRuntime) -> Result<(), &'static str> {
    for channels in [1, 3, 16] {
        for capacity in [0, 1, 5] {
            agrees(rt.alloc(), channels, capacity)?;
        }
    }
    Ok(())
}

/// Fails where a wide line of two places does not keep wide frames.
fn wide_line_of_two(alloc: Global) -> Result<(), &'static str> {
    let Ok(mut line) = WideLine::new(alloc, 1, 2) else {
        return Err(REFUSED);
    };
    let first = WideFrame::one(1 << 40);
    let second = WideFrame::one(-(1 << 40));
    let is_right = line.push(first).is_none()
        && line.push(second).is_none()
        && line.push(WideFrame::one(7)) == Some(first);
    if is_right {
        Ok(())
    } else {
        Err("a wide line of two places gives other frames")
    }
}

#[test]
fn wide_line_sums(rt: HostRuntime) -> Result<(), &'static str> {
    wide_line_of_two(rt.alloc())
}

/// Fails where a new line has not three places.
fn line_made(alloc: Global) -> Result<(), &'static str> {
    match Line::new(alloc, 2, 3) {
        Ok(line) => {
            if line.capacity() == 3 {
                Ok(())
            } else {
                Err("a line has other places")
            }
        }
        Err(_refused) => Err(REFUSED),
    }
}

/// Fails where a new wide line has not three places.
fn wide_line_made(alloc: Global) -> Result<(), &'static str> {
    match WideLine::new(alloc, 2, 3) {
        Ok(line) => {
            if line.capacity() == 3 {
                Ok(())
            } else {
                Err("a wide line has other places")
            }
        }
        Err(_refused) => Err(REFUSED),
    }
}

/// Fails where a new sink took a byte.
fn sink_made(alloc: Global) -> Result<(), &'static str> {
    match Sink::new(alloc, 4, 1, 0, false) {
        Ok(sink) => {
            if sink.taken().is_empty() {
                Ok(())
            } else {
                Err("a new sink took bytes")
            }
        }
        Err(_refused) => Err(REFUSED),
    }
}

/// A line, a wide line and a sink, one after the other.
fn lines_and_sink_made(alloc: Global) -> Result<(), &'static str> {
    line_made(alloc)?;
    wide_line_made(alloc)?;
    sink_made(alloc)
}

/// Each request of a line, a wide line and a sink for memory refused in turn.
#[test]
fn growth_lines_and_sink(rt: HostRuntime) -> Result<(), &'static str> {
    say(&rt, lines_and_sink_made(rt.alloc()))
}
