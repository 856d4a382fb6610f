//! Samples of 32 bits as bytes.

ghost use Rattle.std.specs.Prelude.{◌≡◌, ◌≤◌, length};
ghost use Rattle.fx_frame_base.specs.Coding.{clips_written, is_too_large, limited, read_sample, width_of, written_sample};

use byteorder::{BigEndian, ByteOrder, LittleEndian};

/// How a sample is coded in bytes: its width in bits, signed or not, and the order of its bytes
/// (RIFF WAVE is little-endian, Sun AU big-endian).
#[derive(Clone, Copy, Debug, PartialEq, Eq)]
pub enum Coding {
    /// 8 bits, unsigned; 128 is zero.
    U8,
    /// 8 bits, signed.
    S8,
    /// 16 bits, little-endian.
    S16Le,
    /// 16 bits, big-endian.
    S16Be,
    /// 24 bits, little-endian.
    S24Le,
    /// 24 bits, big-endian.
    S24Be,
    /// 32 bits, little-endian.
    S32Le,
    /// 32 bits, big-endian.
    S32Be,
}

impl Coding {
    /// How many bytes a sample takes, 1 to 4.
    #[inline]
    pub fn width(self) -> usize
        ensures value { result ≡ width_of self }
        ensures range { (1 ≤ result) × (result ≤ 4) }
    {
        match self {
            Coding::U8 | Coding::S8 => 1,
            Coding::S16Le | Coding::S16Be => 2,
            Coding::S24Le | Coding::S24Be => 3,
            Coding::S32Le | Coding::S32Be => 4,
        }
    }

    /// The sample that the bytes are: an n-bit number times `2^(32-n)`.
    #[inline]
    pub fn read(self, bytes: &[u8]) -> i32
        requires { length bytes.now ≡ width_of self }
        ensures { result ≡ read_sample self bytes.now }
    {
        match self {
            Coding::U8 => (i32::from(bytes[0]) - 128) * 0x100_0000,
            Coding::S8 => i32::from(bytes[0].cast_signed()) * 0x100_0000,
            Coding::S16Le => i32::from(LittleEndian::read_i16(bytes)) * 0x1_0000,
            Coding::S16Be => i32::from(BigEndian::read_i16(bytes)) * 0x1_0000,
            Coding::S24Le => LittleEndian::read_i24(bytes) * 0x100,
            Coding::S24Be => BigEndian::read_i24(bytes) * 0x100,
            Coding::S32Le => LittleEndian::read_i32(bytes),
            Coding::S32Be => BigEndian::read_i32(bytes),
        }
    }

    /// Writes the bytes of a sample, rounded to the coding's bits with halves upward, and returns
    /// whether it was clipped to the maximum value of its width.
    #[inline]
    pub fn write(self, sample: i32, bytes: &mut [u8]) -> bool
        requires { length bytes.old ≡ width_of self }
        ensures bytes { bytes.new ≡ written_sample self sample }
        ensures clips { result ≡ clips_written self sample }
    {
        match self {
            Coding::U8 => {
                let (number, clipped) = in_one_byte(sample);
                bytes[0] = (i32::from(number) + 128) as u8;
                clipped
            }
            Coding::S8 => {
                let (number, clipped) = in_one_byte(sample);
                bytes[0] = number.cast_unsigned();
                clipped
            }
            Coding::S16Le => {
                let (number, clipped) = in_two_bytes(sample);
                LittleEndian::write_i16(bytes, number);
                clipped
            }
            Coding::S16Be => {
                let (number, clipped) = in_two_bytes(sample);
                BigEndian::write_i16(bytes, number);
                clipped
            }
            Coding::S24Le => {
                let (number, clipped) = in_three_bytes(sample);
                LittleEndian::write_i24(bytes, number);
                clipped
            }
            Coding::S24Be => {
                let (number, clipped) = in_three_bytes(sample);
                BigEndian::write_i24(bytes, number);
                clipped
            }
            Coding::S32Le => {
                LittleEndian::write_i32(bytes, sample);
                false
            }
            Coding::S32Be => {
                BigEndian::write_i32(bytes, sample);
                false
            }
        }
    }
}

// A sample in one byte, and whether it was clipped: it is limited before it is rounded, so that the sum has 32 bits.
#[tactic(auto, using(crate::proofs::Shifts::shift_floors))]
#[inline(always)]
fn in_one_byte(sample: i32) -> (i8, bool)
    ensures value { result.0 ≡ limited 1 sample }
    ensures clips { result.1 ≡ is_too_large 1 sample }
{
    let limited = sample.min(0x7f7f_ffff);
    (((limited + 0x80_0000) >> 24) as i8, sample > 0x7f7f_ffff)
}

#[tactic(auto, using(crate::proofs::Shifts::shift_floors))]
#[inline(always)]
fn in_two_bytes(sample: i32) -> (i16, bool)
    ensures value { result.0 ≡ limited 2 sample }
    ensures clips { result.1 ≡ is_too_large 2 sample }
{
    let limited = sample.min(0x7fff_7fff);
    (((limited + 0x8000) >> 16) as i16, sample > 0x7fff_7fff)
}

#[tactic(auto, using(crate::proofs::Shifts::shift_floors))]
#[inline(always)]
fn in_three_bytes(sample: i32) -> (i32, bool)
    ensures value { result.0 ≡ limited 3 sample }
    ensures clips { result.1 ≡ is_too_large 3 sample }
{
    let limited = sample.min(0x7fff_ff7f);
    ((limited + 0x80) >> 8, sample > 0x7fff_ff7f)
}
