//! The head that is written.

ghost use Rattle.std.specs.Prelude.{◌≡◌, ◌+◌, ◌<◌, ◌≤◌, ◌++◌, [], IsTrue, IfSome, Option, length};
ghost use Rattle.fx_sound.specs.Kind.{is_coding_of};
ghost use Rattle.fx_sound.specs.Writing.{known_size, format_fields, format_body, wav_head, au_head, written_head};
ghost use Rattle.fx_frame_base.specs.Frame.{IsChannelCount};

use super::fields::{AU_UNKNOWN, EXTENSIBLE, PCM_GUID, PLAIN, WAV_UNKNOWN};
use super::head::Kind;
use byteorder::{BigEndian, ByteOrder, LittleEndian};
use fx_frame_base::Coding;
use fx_frame_base::copies::copy_part;
use std::marker::Model;

/// The maximum number of bytes of a head that is written.
pub const MAX_HEAD_BYTES: usize = 68;

/// The bytes of a head, at most 68.
#[derive(Drop)]
pub struct HeadBytes {
    bytes: [u8; MAX_HEAD_BYTES],
    len: usize,
}

impl Model for HeadBytes {
    ghost use Rattle.std.specs.Prelude.{◌≡◌, ◌≤◌, ℕ, List, take, length};
    ghost use Rattle.fx_sound.specs.declared.writing.TheConstants.{MAX_HEAD_BYTES};

    ghost Value = { List ℕ };

    ghost view = { λ h. take h.len h.bytes };

    ghost invariant = { λ h. (h.len ≤ MAX_HEAD_BYTES) × (length h.bytes ≡ MAX_HEAD_BYTES) };
}

impl HeadBytes {
    fn new() -> HeadBytes
        ensures { result ≡ [] }
    {
        HeadBytes {
            bytes: [0; MAX_HEAD_BYTES],
            len: 0,
        }
    }

    /// The bytes.
    pub fn as_slice(&self) -> &[u8]
        ensures { result.now ≡ self.now }
    {
        let len = self.len;
        &self.bytes[..len]
    }

    // Puts bytes after those that are there.
    fn put(&mut self, bytes: &[u8])
        requires { length self.old + length bytes.now ≤ MAX_HEAD_BYTES }
        ensures { self.new ≡ self.old ++ bytes.now }
    {
        copy_part(&mut self.bytes, self.len, bytes, 0, bytes.len());
        self.len += bytes.len();
    }

    // Puts a number of 16 bits after them.
    fn put_u16<B: ByteOrder>(&mut self, number: u16)
        requires { length self.old + 2 ≤ MAX_HEAD_BYTES }
        ensures { self.new ≡ self.old ++ B.bytes_of 2 number }
    {
        let mut bytes = [0; 2];
        B::write_u16(&mut bytes, number);
        self.put(&bytes);
    }

    // Puts a number of 32 bits after them.
    fn put_u32<B: ByteOrder>(&mut self, number: u32)
        requires { length self.old + 4 ≤ MAX_HEAD_BYTES }
        ensures { self.new ≡ self.old ++ B.bytes_of 4 number }
    {
        let mut bytes = [0; 4];
        B::write_u32(&mut bytes, number);
        self.put(&bytes);
    }
}

// The bytes of sound, where they are known and can be written.
fn sound_size(limit: u32, frame_bytes: usize, frames: Option<u64>) -> Option<u32>
    ensures size { result ≡ known_size limit frame_bytes frames }
    ensures below { IfSome result (λ d. d < limit) }
{
    match frames?.checked_mul(frame_bytes as u64) {
        Some(size) if size < limit as u64 => Some(size as u32),
        _ => None,
    }
}

fn put_format(body: &mut HeadBytes, tag: u16, rate: u32, channels: usize, width: usize)
    requires empty { body.old ≡ [] }
    requires channels { channels ≤ 16 }
    requires width { width ≤ 4 }
    ensures { body.new ≡ format_fields tag rate channels width }
{
    let align = channels * width;
    body.put_u16::<LittleEndian>(tag);
    body.put_u16::<LittleEndian>(channels as u16);
    body.put_u32::<LittleEndian>(rate);
    body.put_u32::<LittleEndian>(rate.saturating_mul(align as u32));
    body.put_u16::<LittleEndian>(align as u16);
    body.put_u16::<LittleEndian>(8 * width as u16);
}

// The data of the format chunk.
fn format_bytes(rate: u32, channels: usize, width: usize) -> HeadBytes
    requires channels { channels ≤ 16 }
    requires width { width ≤ 4 }
    ensures body { result ≡ format_body rate channels width }
    ensures maximum { length result ≤ 40 }
{
    let mut body = HeadBytes::new();
    if width <= 2 && channels <= 2 {
        put_format(&mut body, PLAIN, rate, channels, width);
        return body;
    }
    put_format(&mut body, EXTENSIBLE, rate, channels, width);
    body.put_u16::<LittleEndian>(22);
    body.put_u16::<LittleEndian>(8 * width as u16);
    body.put_u32::<LittleEndian>(0);
    body.put(&PCM_GUID);
    body
}

fn wav_bytes(format: &[u8], size: Option<u32>) -> HeadBytes
    requires format { length format.now ≤ 40 }
    requires size { IfSome size (λ d. d < WAV_UNKNOWN) }
    ensures { result ≡ wav_head format.now size }
{
    let rest_of_head = format.len() as u32 + 20;
    let (riff_size, data_size) = match size {
        Some(size) => (rest_of_head + size + size % 2, size),
        None => (WAV_UNKNOWN + rest_of_head, WAV_UNKNOWN),
    };
    let mut head = HeadBytes::new();
    head.put(b"RIFF");
    head.put_u32::<LittleEndian>(riff_size);
    head.put(b"WAVE");
    head.put(b"fmt ");
    head.put_u32::<LittleEndian>(format.len() as u32);
    head.put(format);
    head.put(b"data");
    head.put_u32::<LittleEndian>(data_size);
    head
}

fn au_bytes(rate: u32, channels: usize, width: usize, size: Option<u32>) -> HeadBytes
    requires channels { channels ≤ 16 }
    requires width { width ≤ 4 }
    ensures { result ≡ au_head rate channels width size }
{
    let mut head = HeadBytes::new();
    head.put(b".snd");
    head.put_u32::<BigEndian>(28);
    head.put_u32::<BigEndian>(size.unwrap_or(AU_UNKNOWN));
    head.put_u32::<BigEndian>(width as u32 + 1);
    head.put_u32::<BigEndian>(rate);
    head.put_u32::<BigEndian>(channels as u32);
    head.put_u32::<BigEndian>(0);
    head
}

/// The head of a sound of this number of frames, or of an unknown number (streamed).
///
/// A number of bytes that the container cannot express is written as unknown.
pub fn head_bytes(
    kind: Kind,
    rate: u32,
    channels: usize,
    coding: Coding,
    frames: Option<u64>,
) -> HeadBytes
    requires coding { IsTrue (is_coding_of kind coding) }
    requires channels { IsChannelCount channels }
    requires rate { 1 ≤ rate }
    ensures { result ≡ written_head kind rate channels coding frames }
{
    let width = coding.width();
    let frame_bytes = channels * width;
    match kind {
        Kind::Wav => {
            let format = format_bytes(rate, channels, width);
            wav_bytes(
                format.as_slice(),
                sound_size(WAV_UNKNOWN, frame_bytes, frames),
            )
        }
        Kind::Au => au_bytes(
            rate,
            channels,
            width,
            sound_size(AU_UNKNOWN, frame_bytes, frames),
        ),
    }
}
