//! The worked rows of fx_sound.
ghost use Rattle.std.specs.Prelude.{◌<◌};

use crate::fixed_tests::REFUSED;
use fx_frame::{ByteIn, Coding, Frame, Tape};
use fx_sound::inner::read_sound;
use fx_sound::{
    Head, HeadBytes, Kind, Progress, ReadFault, Source, head_bytes, next_frame, read_head,
};
use std::alloc::Global;

/// A sound of two frames of 32 bits in AU.
const TWO_FRAMES: &str = "2e736e64 00000018 00000008 00000005 00001f40 00000001 00000003 fffffffd";

const RIFF: &str = "52494646 00000000 57415645";

const HEAD_WAVE_U8: &str =
    "52494646 28000000 57415645 666d7420 10000000 0100 0100 401f0000 401f0000 0100 0800 64617461 03000000";

const HEAD_WAVE_U8_STREAMED: &str =
    "52494646 24f0ff7f 57415645 666d7420 10000000 0100 0100 401f0000 401f0000 0100 0800 64617461 00f0ff7f";

const HEAD_WAVE_U8_ONE: &str =
    "52494646 26000000 57415645 666d7420 10000000 0100 0100 401f0000 401f0000 0100 0800 64617461 01000000";

const HEAD_AU: &str = "2e736e64 0000001c 00000008 00000005 00001f40 00000001 00000000";

const HEAD_AU_STREAMED: &str = "2e736e64 0000001c ffffffff 00000005 00001f40 00000001 00000000";

const HEAD_WAVE_S24: &str =
    "52494646 3cf0ff7f 57415645 666d7420 28000000 feff 0200 80bb0000 00650400 0600 1800 1600 1800 00000000 0100000000001000800000aa00389b71 64617461 00f0ff7f";

/// Adds the bytes of hexadecimal digits, between which there may be spaces.
fn add_hex(text: &str, bytes: &mut Vec<u8>) -> Result<(), &'static str> {
    for word in text.split(' ') {
        let Ok(decoded) = hex::decode(*bytes.allocator(), word) else {
            return Err(REFUSED);
        };
        if bytes.extend_from_slice(&decoded).is_err() {
            return Err(REFUSED);
        }
    }
    Ok(())
}

/// The bytes of texts of hexadecimal digits, told in pieces of at most so many bytes.
fn tape_of(alloc: Global, texts: &[&str], piece: usize) -> Result<Tape, &'static str>
    requires { 0 < piece }
{
    let mut bytes = Vec::new(alloc);
    for text in texts {
        add_hex(text, &mut bytes)?;
    }
    Ok(Tape::new(bytes, piece, 0, false))
}

/// The number of the fault that a head is refused with; 0 for none.
fn refusal(tape: Tape, expected: Option<Kind>) -> u8 {
    match read_head(&mut Source::new(tape), expected) {
        Ok(_) => 0,
        Err(fault) => fault as u8,
    }
}

/// Fails with a row where a head of these texts, told whole and told byte by byte, is refused with another fault; 0 for none.
fn check_head(
    alloc: Global,
    row: &'static str,
    texts: &[&str],
    expected: Option<Kind>,
    fault: u8,
) -> Result<(), &'static str> {
    let whole = refusal(tape_of(alloc, texts, 4096)?, expected);
    let slowly = refusal(tape_of(alloc, texts, 1)?, expected);
    if whole == fault && slowly == fault {
        Ok(())
    } else {
        Err(row)
    }
}

#[test]
fn heads_refused(rt: HostRuntime) -> Result<(), &'static str> {
    for (row, input, fault) in [
        ("no byte", "", 3),
        ("another container", "52494658", 2),
        (
            "a head of 20 bytes",
            "2e736e64 00000014 00000008 00000005 00001f40 00000001",
            4,
        ),
        (
            "coding 6",
            "2e736e64 00000018 00000008 00000006 00001f40 00000001",
            5,
        ),
        (
            "17 channels",
            "2e736e64 00000018 00000008 00000005 00001f40 00000011",
            6,
        ),
        (
            "a long head",
            "2e736e64 01000001 00000008 00000005 00001f40 00000001",
            7,
        ),
    ] {
        check_head(rt.alloc(), row, &[input], None, fault)?;
    }
    check_head(rt.alloc(), "au for wav", &[TWO_FRAMES], Some(Kind::Wav), 2)?;
    check_head(rt.alloc(), "au for au", &[TWO_FRAMES], Some(Kind::Au), 0)
}

/// A reader that fails at its first call and from then on.
#[test]
fn failing_head_refused(rt: HostRuntime) -> Result<(), &'static str> {
    let mut bytes = Vec::new(rt.alloc());
    add_hex(TWO_FRAMES, &mut bytes)?;
    if refusal(Tape::new(bytes, 1, 1, true), None) != 1 {
        return Err("another fault than that of the reader");
    }
    Ok(())
}

#[test]
fn fmt_refused(rt: HostRuntime) -> Result<(), &'static str> {
    let alloc = rt.alloc();
    let format = "666d7420 10000000";
    let plain = "0100 0100 401f0000 401f0000 0100 0800";
    let sound = "64617461 00000000";
    for (fields, fault) in [
        ("0300 0100 401f0000 401f0000 0100 0800", 5),
        ("0100 0000 401f0000 401f0000 0100 0800", 4),
        ("0100 0100 401f0000 401f0000 0200 0c00", 5),
        ("0100 0100 401f0000 803e0000 0400 1000", 5),
        ("0100 1100 401f0000 00a00400 2200 1000", 6),
    ] {
        let texts = [RIFF, format, fields, sound];
        check_head(alloc, fields, &texts, None, fault)?;
    }
    let early = [RIFF, sound, format, plain];
    check_head(alloc, "sound before its format", &early, None, 4)?;
    let twice = [RIFF, format, plain, format, plain, sound];
    check_head(alloc, "two formats", &twice, None, 4)?;
    let fine = [RIFF, format, plain, sound];
    check_head(alloc, "a format and sound", &fine, None, 0)
}

#[test]
fn skipped_chunk_sizes(rt: HostRuntime) -> Result<(), &'static str> {
    for (size, fault) in [("e4ffff00", 3), ("e5ffff00", 7), ("ffffffff", 7)] {
        let texts = [RIFF, "4c495354", size];
        check_head(rt.alloc(), size, &texts, None, fault)?;
    }
    Ok(())
}

/// What three calls in turn give.
fn next_three(
    source: &mut Source<Tape>,
    progress: &mut Progress,
) -> Result<[Option<Frame>; 3], ReadFault> {
    let first = next_frame(source, progress)?;
    let second = next_frame(source, progress)?;
    let third = next_frame(source, progress)?;
    Ok([first, second, third])
}

/// Fails where so many frames, missing bytes and stray bytes were not counted.
fn check_counts(progress: &Progress, counts: (u64, u64, u64)) -> Result<(), &'static str> {
    if (progress.frames(), progress.missing(), progress.stray()) == counts {
        Ok(())
    } else {
        Err("other counts")
    }
}

/// Fails where a WAVE is not one frame of 256 and -256 and a byte more, with no announced end.
fn read_one_frame(source: &mut Source<Tape>) -> Result<(), &'static str> {
    let Ok(head) = read_head(source, None) else {
        return Err("no head");
    };
    if head.announced.is_some() {
        return Err("an announced end");
    }
    let mut progress = Progress::new(&head);
    let Ok(frames) = next_three(source, &mut progress) else {
        return Err("the reader fails");
    };
    if frames != [Frame::from_slice(&[256, -256]), None, None] {
        return Err("other frames");
    }
    check_counts(&progress, (1, 0, 1))
}

/// A WAVE of two channels and 24 bits with one frame and a byte more, told in pieces of at most so many bytes.
fn wave_of_one_frame(alloc: Global, piece: usize) -> Result<(), &'static str>
    requires { 0 < piece }
{
    let tape = tape_of(alloc, &[HEAD_WAVE_S24, "010000ffffff02"], piece)?;
    read_one_frame(&mut Source::new(tape))
}

#[test]
fn wave_24_stereo(rt: HostRuntime) -> Result<(), &'static str> {
    wave_of_one_frame(rt.alloc(), 4096)?;
    wave_of_one_frame(rt.alloc(), 1)
}

/// Fails where a source is not an AU with the frames of 3 and -3.
fn read_two_frames(alloc: Global, source: &mut Source<Tape>) -> Result<(), &'static str> {
    let Ok(sound) = read_sound(alloc, source, Some(Kind::Au)) else {
        return Err("no sound");
    };
    let head = Head {
        kind: Kind::Au,
        rate: 8000,
        channels: 1,
        coding: Coding::S32Be,
        announced: Some(8),
    };
    if sound.head != head {
        return Err("another head");
    }
    if sound.frames.as_slice() != [Frame::one(3), Frame::one(-3)].as_slice() {
        return Err("other frames");
    }
    if sound.missing != 0 || sound.stray != 0 {
        return Err("missing or stray bytes");
    }
    Ok(())
}

/// After the sound the reader is at its end.
#[test]
fn au_two_frames(rt: HostRuntime) -> Result<(), &'static str> {
    let tape = tape_of(rt.alloc(), &[TWO_FRAMES], 1)?;
    let mut source = Source::new(tape);
    read_two_frames(rt.alloc(), &mut source)?;
    let mut tape = source.into_inner();
    if tape.read(&mut [0]) != Ok(0) {
        return Err("more bytes");
    }
    Ok(())
}

/// The first bytes of that AU, told in pieces of at most so many bytes.
fn cut_tape(alloc: Global, cut: usize, piece: usize) -> Result<Tape, &'static str>
    requires { 0 < piece }
{
    let mut bytes = Vec::new(alloc);
    add_hex(TWO_FRAMES, &mut bytes)?;
    bytes.truncate(cut);
    Ok(Tape::new(bytes, piece, 0, false))
}

/// Fails where that AU, cut within its head, is not refused as too short.
fn check_cut(alloc: Global, cut: usize) -> Result<(), &'static str> {
    let whole = refusal(cut_tape(alloc, cut, 4096)?, None);
    let slowly = refusal(cut_tape(alloc, cut, 1)?, None);
    if whole == 3 && slowly == 3 {
        Ok(())
    } else {
        Err("another fault of a head that is cut")
    }
}

/// Fails where that AU, cut after three bytes of its sound, has a frame or other counts.
fn read_no_frame(source: &mut Source<Tape>) -> Result<(), &'static str> {
    let Ok(head) = read_head(source, None) else {
        return Err("no head");
    };
    let mut progress = Progress::new(&head);
    let Ok(None) = next_frame(source, &mut progress) else {
        return Err("a frame of three bytes");
    };
    check_counts(&progress, (0, 5, 3))
}

#[test]
fn au_cut_at_each_byte(rt: HostRuntime) -> Result<(), &'static str> {
    for cut in 0..24 {
        check_cut(rt.alloc(), cut)?;
    }
    let tape = cut_tape(rt.alloc(), 27, 1)?;
    read_no_frame(&mut Source::new(tape))
}

/// Fails with a row where a head has other bytes than these.
fn check_bytes(
    alloc: Global,
    row: &'static str,
    found: &HeadBytes,
    want: &str,
) -> Result<(), &'static str> {
    let mut bytes = Vec::new(alloc);
    add_hex(want, &mut bytes)?;
    if found.as_slice() == bytes.as_slice() {
        Ok(())
    } else {
        Err(row)
    }
}

#[test]
fn head_bytes_written(rt: HostRuntime) -> Result<(), &'static str> {
    let alloc = rt.alloc();
    let three = head_bytes(Kind::Wav, 8000, 1, Coding::U8, Some(3));
    check_bytes(alloc, "wave u8", &three, HEAD_WAVE_U8)?;
    let streamed = head_bytes(Kind::Wav, 8000, 1, Coding::U8, None);
    check_bytes(alloc, "wave u8 streamed", &streamed, HEAD_WAVE_U8_STREAMED)?;
    let one = head_bytes(Kind::Wav, 8000, 1, Coding::U8, Some(1));
    check_bytes(alloc, "wave u8 of one frame", &one, HEAD_WAVE_U8_ONE)?;
    let wide = head_bytes(Kind::Wav, 48000, 2, Coding::S24Le, None);
    check_bytes(alloc, "wave s24", &wide, HEAD_WAVE_S24)?;
    let streamed = head_bytes(Kind::Au, 8000, 1, Coding::S32Be, None);
    check_bytes(alloc, "au s32 streamed", &streamed, HEAD_AU_STREAMED)?;
    let two = head_bytes(Kind::Au, 8000, 1, Coding::S32Be, Some(2));
    check_bytes(alloc, "au s32", &two, HEAD_AU)
}
