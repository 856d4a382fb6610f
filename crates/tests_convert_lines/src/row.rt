//! What the lines of a row say.

use crate::show::show_row;
use hex::FromHexError;
use std::alloc::{AllocError, Global};
use std::io;

/// When a device fails.
#[derive(Clone, Copy, Debug, Drop, PartialEq, Eq)]
pub enum Failing {
    /// Never.
    Never,
    /// At the call after those that move all bytes.
    AfterHead,
    /// At the call of that number.
    Once(u64),
    /// At each call from that number on.
    Ever(u64),
}

/// What is converted, and how the devices behave.
#[derive(Drop)]
pub struct Row {
    pub name: String,
    pub input: Vec<u8>,
    pub files: Vec<Vec<u8>>,
    pub reader: Failing,
    pub writer: Failing,
    pub free: usize,
    pub messages_capacity: usize,
    /// The most bytes that a call moves, for each way to try it.
    pub pieces: Vec<usize>,
}

/// The bytes that a device in memory takes where nothing else is said.
const CAPACITY: usize = 4096;

/// The sizes of pieces in which a row is tried where it names none.
const PIECES: [usize; 3] = [4096, 5, 1];

impl Row {
    /// A row of this name, of which nothing was said.
    pub fn new(alloc: Global, name: &str) -> Result<Row, AllocError> {
        Ok(Row {
            name: String::from_str(alloc, name)?,
            input: Vec::new(alloc),
            files: Vec::new(alloc),
            reader: Failing::Never,
            writer: Failing::Never,
            free: CAPACITY,
            messages_capacity: CAPACITY,
            pieces: Vec::from_slice(alloc, &PIECES)?,
        })
    }

    /// The head of an AU of 32 bits.
    fn add_head(&mut self, announced: u32) -> Result<(), AllocError> {
        self.input.extend_from_slice(b".snd\0\0\0\x18")?;
        self.input.extend_from_slice(&announced.to_be_bytes())?;
        self.input
            .extend_from_slice(b"\0\0\0\x05\0\0\x1f\x40\0\0\0\x01")
    }
}

/// Appends the bytes of hexadecimal digits. Is that what the text has?
fn add_bytes(input: &mut Vec<u8>, text: &str) -> Result<bool, AllocError> {
    match hex::decode(*input.allocator(), text) {
        Ok(bytes) => {
            input.extend_from_slice(&bytes)?;
            Ok(true)
        }
        Err(FromHexError::OutOfMemory) => Err(AllocError),
        Err(_) => Ok(false),
    }
}

/// Appends all of these bytes in hexadecimal digits. Is that what the text has?
fn add_all_bytes(input: &mut Vec<u8>, text: &str) -> Result<bool, AllocError> {
    for word in text.split(' ') {
        if !add_bytes(input, word)? {
            return Ok(false);
        }
    }
    Ok(true)
}

/// Appends samples. Is that what the text has?
fn add_samples(input: &mut Vec<u8>, text: &str) -> Result<bool, AllocError> {
    for word in text.split(' ') {
        let Ok(sample) = word.parse::<i32>() else {
            return Ok(false);
        };
        input.extend_from_slice(&sample.to_be_bytes())?;
    }
    Ok(true)
}

/// The bytes of a coefficient file.
fn file_of(alloc: Global, text: &str) -> Result<Vec<u8>, AllocError> {
    let mut bytes = Vec::new(alloc);
    for letter in text.as_bytes() {
        bytes.push(if *letter == b'|' { b'\n' } else { *letter })?;
    }
    Ok(bytes)
}

/// When a device fails of which this is said.
fn failing_of(text: &str) -> Option<Failing> {
    let (call, often) = text.split_once(' ')?;
    let call = call.parse::<u64>().ok()?;
    match often {
        "once" => Some(Failing::Once(call)),
        "ever" => Some(Failing::Ever(call)),
        _ => None,
    }
}

/// Keeps what is said of a device: when it fails, or for how many bytes it has room. Is it that?
fn keep_device(failing: &mut Failing, free: &mut usize, text: &str) -> bool {
    match text.split_once(' ') {
        None if text == "fails" => {
            *failing = Failing::AfterHead;
            true
        }
        Some(("fails", calls)) => match failing_of(calls) {
            Some(said) => {
                *failing = said;
                true
            }
            None => false,
        },
        Some(("room", bytes)) => match bytes.parse::<usize>() {
            Ok(bytes) => {
                *free = bytes;
                true
            }
            Err(_) => false,
        },
        _ => false,
    }
}

/// Keeps what a line says of the input. Is it that?
fn keep_input(row: &mut Row, word: &str, text: &str) -> Result<bool, AllocError> {
    match word {
        "head" => {
            let Ok(announced) = text.parse::<u32>() else {
                return Ok(false);
            };
            row.add_head(announced)?;
            Ok(true)
        }
        "samples" => add_samples(&mut row.input, text),
        "bytes" => add_all_bytes(&mut row.input, text),
        _ => Ok(false),
    }
}

/// Keeps what a line says. Is it of a known form?
fn keep(alloc: Global, row: &mut Row, word: &str, text: &str) -> Result<bool, AllocError> {
    match word {
        "row" => {
            *row = Row::new(alloc, text)?;
            Ok(true)
        }
        "file" => {
            row.files.push(file_of(alloc, text)?)?;
            Ok(true)
        }
        "reader" => {
            let mut free = CAPACITY;
            Ok(keep_device(&mut row.reader, &mut free, text))
        }
        "writer" => Ok(keep_device(&mut row.writer, &mut row.free, text)),
        "messages" => {
            let mut failing = Failing::Never;
            Ok(keep_device(&mut failing, &mut row.messages_capacity, text))
        }
        "pieces" => {
            let Ok(piece) = text.parse::<usize>() else {
                return Ok(false);
            };
            row.pieces.clear();
            row.pieces.push(piece)?;
            Ok(true)
        }
        _ => keep_input(row, word, text),
    }
}

/// The words of a text.
fn words_of(alloc: Global, text: &str) -> Result<Vec<String>, AllocError> {
    let mut words = Vec::new(alloc);
    if text.is_empty() {
        return Ok(words);
    }
    for word in text.split(' ') {
        words.push(String::from_str(alloc, word)?)?;
    }
    Ok(words)
}

/// Keeps what a line says, or prints the answer to it.
pub fn follow(rt: &HostRuntime, row: &mut Row, line: &str) -> io::Result<()> {
    if line.is_empty() || line.starts_with("#") {
        return Ok(());
    }
    let (word, text) = line.split_once(' ').unwrap_or((line, ""));
    if word == "convert" {
        let words = words_of(rt.alloc(), text)?;
        return show_row(rt, row, &words);
    }
    if keep(rt.alloc(), row, word, text)? {
        return Ok(());
    }
    println!(rt; "?")
}
