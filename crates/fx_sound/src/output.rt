//! Buffered bytes for a writer.

ghost use Rattle.std.specs.Prelude.{◌≡◌, ◌+◌, ◌-◌, ◌*◌, ◌<◌, ◌≤◌, ◌^◌, ◌++◌, true, false, [], IsOk, OnOk, OnErr, IfOk, length};
ghost use Rattle.fx_frame_base.specs.Io.{CountsFailure};
ghost use Rattle.fx_sound.specs.FrameCoding.{frame_size, bytes_of, clips_of};
ghost use Rattle.fx_sound.specs.Output.{SendsMore, SendsNothing, SendsOn, SendsPart, bytes_put};

use crate::buffer::BUFFER_SIZE;
use crate::bulk::encode_into;
use crate::frame_coding::encode;
use fx_frame::{ByteOut, Coding, Failed, Frame};
use std::marker::Model;

/// The maximum number of bytes of a frame: 16 channels of 32 bits.
const MAX_FRAME_BYTES: usize = 64;

/// An output buffer of 4,096 bytes. The writer comes with each call.
///
/// Bytes go to the writer where they leave no space for more, in `make_way`, in `drain`, and at the end.
#[derive(Drop)]
pub struct Output {
    buffer: [u8; BUFFER_SIZE],
    start: usize,
    end: usize,
    written: u64,
}

impl Model for Output {
    ghost use Rattle.std.specs.Prelude.{◌≡◌, ◌≤◌, ◌<◌, ◌-◌, ◌+◌, ◌^◌, take, drop, length};
    ghost use Rattle.fx_sound.specs.Output.{Pending};
    ghost use Rattle.fx_sound.specs.declared.buffer.TheConstants.{BUFFER_SIZE};

    ghost Value = { Pending };

    ghost view = { λ o. record { bytes = take (o.end - o.start) (drop o.start o.buffer); written = o.written; free = BUFFER_SIZE - o.end } };

    ghost invariant = { λ o. (o.start ≤ o.end) × (o.end ≤ BUFFER_SIZE) × (length o.buffer ≡ BUFFER_SIZE) × (o.written + (o.end - o.start) < 2 ^ 64) };
}

impl Output {
    /// Nothing is pending, and nothing was written. Allocates no memory.
    pub fn new() -> Output
        ensures bytes { result.bytes ≡ [] }
        ensures written { result.written ≡ 0 }
        ensures free { result.free ≡ BUFFER_SIZE }
    {
        Output {
            buffer: [0; BUFFER_SIZE],
            start: 0,
            end: 0,
            written: 0,
        }
    }

    /// How many bytes the writer took.
    pub fn bytes_out(&self) -> u64
        ensures { result ≡ self.now.written }
    {
        self.written
    }

    /// How many bytes were ever put into it: those that the writer took, and the pending ones.
    pub fn bytes_put(&self) -> u64
        ensures { result ≡ bytes_put self.now }
    {
        self.written + self.waiting() as u64
    }

    // How many bytes are pending.
    fn waiting(&self) -> usize
        ensures { result ≡ length self.now.bytes }
    {
        self.end - self.start
    }

    // Passes the pending bytes to the writer, in one call.
    fn write_some<W: ByteOut>(&mut self, writer: &mut W) -> Result<(), Failed>
        requires { 0 < length self.old.bytes }
        ensures sent { SendsOn (W.writes.taken writer.old) (W.writes.taken writer.new) self.old self.new }
        ensures count { bytes_put self.new ≡ bytes_put self.old }
        ensures ok { OnOk result (length self.new.bytes < length self.old.bytes) }
        ensures unflushed { OnOk result (W.writes.flushed writer.new ≡ false) }
        ensures failures { CountsFailure (W.writes.failures writer.old) (W.writes.failures writer.new) result }
    {
        let n = writer.write(&self.buffer[self.start..self.end])?;
        self.start += n;
        self.written += n as u64;
        Ok(())
    }

    /// Passes all pending bytes to the writer, and does not flush it.
    #[inline(never)]
    pub fn drain<W: ByteOut>(&mut self, writer: &mut W) -> Result<(), Failed>
        ensures sent { SendsOn (W.writes.taken writer.old) (W.writes.taken writer.new) self.old self.new }
        ensures count { bytes_put self.new ≡ bytes_put self.old }
        ensures empty { OnOk result (self.new.bytes ≡ []) }
        ensures free { OnOk result (self.new.free ≡ BUFFER_SIZE) }
        ensures unflushed { OnOk result (0 < length self.old.bytes → W.writes.flushed writer.new ≡ false) }
        ensures failures { CountsFailure (W.writes.failures writer.old) (W.writes.failures writer.new) result }
    {
        while self.waiting() > 0 {
            self.write_some(writer)?;
        }
        self.start = 0;
        self.end = 0;
        Ok(())
    }

    // Makes space for `size` bytes. Usually there is enough.
    #[inline(always)]
    fn make_space<W: ByteOut>(&mut self, writer: &mut W, size: usize) -> Result<(), Failed>
        requires { size ≤ BUFFER_SIZE }
        ensures sent { SendsOn (W.writes.taken writer.old) (W.writes.taken writer.new) self.old self.new }
        ensures count { bytes_put self.new ≡ bytes_put self.old }
        ensures free { OnOk result (size ≤ self.new.free) }
        ensures empty { OnOk result (self.old.free < size → self.new.bytes ≡ []) }
        ensures failures { CountsFailure (W.writes.failures writer.old) (W.writes.failures writer.new) result }
        ensures waits { size ≤ self.old.free → SendsNothing result writer.old writer.new self.old self.new }
    {
        if size <= BUFFER_SIZE - self.end {
            return Ok(());
        }
        self.drain(writer)
    }

    /// Passes all pending bytes to the writer where less than half of the buffer is free and bytes have gone to it before, so
    /// that a whole buffer of frames fits at once. Where a frame of `size` bytes does not fit, that frame makes the space.
    pub fn make_way<W: ByteOut>(&mut self, writer: &mut W, size: usize) -> Result<(), Failed>
        ensures early { self.old.written ≡ 0 → SendsNothing result writer.old writer.new self.old self.new }
        ensures roomy { BUFFER_SIZE ≤ 2 * self.old.free → SendsNothing result writer.old writer.new self.old self.new }
        ensures full { self.old.free < size → SendsNothing result writer.old writer.new self.old self.new }
        ensures way { 0 < self.old.written → 2 * self.old.free < BUFFER_SIZE → size ≤ self.old.free
            → OnOk result (self.new.bytes ≡ []) }
        ensures sent { SendsOn (W.writes.taken writer.old) (W.writes.taken writer.new) self.old self.new }
        ensures count { bytes_put self.new ≡ bytes_put self.old }
        ensures failures { CountsFailure (W.writes.failures writer.old) (W.writes.failures writer.new) result }
    {
        let is_full = BUFFER_SIZE - self.end < size;
        if self.written == 0 || self.end <= BUFFER_SIZE / 2 || is_full {
            return Ok(());
        }
        self.drain(writer)
    }

    // Appends bytes to the pending ones.
    fn put(&mut self, bytes: &[u8])
        requires free { length bytes.now ≤ self.old.free }
        requires count { bytes_put self.old + length bytes.now < 2 ^ 64 }
        ensures bytes { self.new.bytes ≡ self.old.bytes ++ bytes.now }
        ensures written { self.new.written ≡ self.old.written }
        ensures free { self.new.free ≡ self.old.free - length bytes.now }
    {
        let start = self.end;
        let end = start + bytes.len();
        self.buffer[start..end].copy_from_slice(bytes);
        self.end = end;
    }

    // Appends the bytes of a frame to the pending ones, and returns its clips.
    #[inline(always)]
    fn put_coded(&mut self, frame: &Frame, coding: Coding) -> u64
        requires free { frame_size coding (length frame.now) ≤ self.old.free }
        requires count { bytes_put self.old + frame_size coding (length frame.now) < 2 ^ 64 }
        ensures bytes { self.new.bytes ≡ self.old.bytes ++ bytes_of coding frame.now }
        ensures count { bytes_put self.new ≡ bytes_put self.old + frame_size coding (length frame.now) }
        ensures written { self.new.written ≡ self.old.written }
        ensures free { self.new.free ≡ self.old.free - frame_size coding (length frame.now) }
        ensures clips { result ≡ clips_of coding frame.now }
    {
        let size = frame.channels() * coding.width();
        let start = self.end;
        let end = start + size;
        let clips = encode(frame, coding, &mut self.buffer[start..end]);
        self.end = end;
        clips
    }

    /// Appends at most 4,096 bytes to the pending ones, which go to the writer first where they
    /// leave no space.
    pub fn push<W: ByteOut>(&mut self, writer: &mut W, bytes: &[u8]) -> Result<(), Failed>
        requires piece { length bytes.now ≤ BUFFER_SIZE }
        requires count { bytes_put self.old + length bytes.now < 2 ^ 64 }
        ensures sent { OnOk result (SendsMore (W.writes.taken writer.old) (W.writes.taken writer.new)
            self.old self.new bytes.now) }
        ensures sent_err { OnErr result (SendsOn (W.writes.taken writer.old) (W.writes.taken writer.new)
            self.old self.new) }
        ensures edge { OnOk result (self.old.free < length bytes.now → self.new.bytes ≡ bytes.now) }
        ensures count { OnOk result (bytes_put self.new ≡ bytes_put self.old + length bytes.now) }
        ensures failures { CountsFailure (W.writes.failures writer.old) (W.writes.failures writer.new) result }
        ensures waits { length bytes.now ≤ self.old.free
            → IsOk result × (writer.new ≡ writer.old) × (self.new.free ≡ self.old.free - length bytes.now) }
    {
        self.make_space(writer, bytes.len())?;
        self.put(bytes);
        Ok(())
    }

    /// Appends the bytes of a frame to the pending ones, and returns how many of its samples were clipped. Where they leave no
    /// space, its first bytes fill the buffer, all of which goes to the writer before the others: pieces of 4,096 bytes that
    /// begin at a whole page of a file are the cheapest for the system. After a fault the writer may have some of them.
    #[inline]
    pub fn push_frame<W: ByteOut>(
        &mut self,
        writer: &mut W,
        frame: &Frame,
        coding: Coding,
    ) -> Result<u64, Failed>
        requires { bytes_put self.old + 64 < 2 ^ 64 }
        ensures sent { OnOk result (SendsMore (W.writes.taken writer.old) (W.writes.taken writer.new)
            self.old self.new (bytes_of coding frame.now)) }
        ensures maximum { frame_size coding (length frame.now) ≤ 64 }
        ensures clips { IfOk result (λ n. n ≡ clips_of coding frame.now) }
        ensures sent_err { OnErr result (SendsPart (W.writes.taken writer.old) (W.writes.taken writer.new)
            self.old self.new (bytes_of coding frame.now)) }
        ensures edge { OnOk result (self.old.free < frame_size coding (length frame.now)
            → length self.new.bytes + self.old.free ≡ frame_size coding (length frame.now)) }
        ensures count { OnOk result (bytes_put self.new ≡ bytes_put self.old + frame_size coding (length frame.now)) }
        ensures failures { CountsFailure (W.writes.failures writer.old) (W.writes.failures writer.new) result }
        ensures waits { frame_size coding (length frame.now) ≤ self.old.free → IsOk result × (writer.new ≡ writer.old)
            × (self.new.free ≡ self.old.free - frame_size coding (length frame.now)) }
    {
        if frame.channels() * coding.width() > BUFFER_SIZE - self.end {
            return self.push_over_edge(writer, frame, coding);
        }
        Ok(self.put_coded(frame, coding))
    }

    // The same where the frame does not fit: its first bytes fill the buffer, which goes to the writer whole.
    #[inline(never)]
    fn push_over_edge<W: ByteOut>(
        &mut self,
        writer: &mut W,
        frame: &Frame,
        coding: Coding,
    ) -> Result<u64, Failed>
        requires count { bytes_put self.old + 64 < 2 ^ 64 }
        requires free { self.old.free < frame_size coding (length frame.now) }
        requires maximum { frame_size coding (length frame.now) ≤ 64 }
        ensures sent { OnOk result (SendsMore (W.writes.taken writer.old) (W.writes.taken writer.new) self.old self.new (bytes_of coding frame.now)) }
        ensures clips { IfOk result (λ n. n ≡ clips_of coding frame.now) }
        ensures sent_err { OnErr result (SendsPart (W.writes.taken writer.old) (W.writes.taken writer.new) self.old self.new (bytes_of coding frame.now)) }
        ensures edge { OnOk result (length self.new.bytes + self.old.free ≡ frame_size coding (length frame.now)) }
        ensures count { OnOk result (bytes_put self.new ≡ bytes_put self.old + frame_size coding (length frame.now)) }
        ensures failures { CountsFailure (W.writes.failures writer.old) (W.writes.failures writer.new) result }
    {
        let mut bytes = [0; MAX_FRAME_BYTES];
        let coded = &mut bytes[..frame.channels() * coding.width()];
        let clips = encode(frame, coding, coded);
        let (first, others) = coded.split_at(BUFFER_SIZE - self.end);
        self.put(first);
        self.drain(writer)?;
        self.put(others);
        Ok(clips)
    }

    /// How many more bytes it takes before some have to go to the writer.
    pub fn free(&self) -> usize
        ensures value { result ≡ self.now.free }
        ensures maximum { result ≤ BUFFER_SIZE }
    {
        BUFFER_SIZE - self.end
    }

    /// Appends the bytes of samples, which must fit, to the pending ones, and returns how many samples were clipped.
    pub fn put_samples(&mut self, samples: &[i32], coding: Coding) -> u64
        requires free { frame_size coding (length samples.now) ≤ self.old.free }
        requires count { bytes_put self.old + frame_size coding (length samples.now) < 2 ^ 64 }
        ensures bytes { self.new.bytes ≡ self.old.bytes ++ bytes_of coding samples.now }
        ensures count { bytes_put self.new ≡ bytes_put self.old + frame_size coding (length samples.now) }
        ensures written { self.new.written ≡ self.old.written }
        ensures free { self.new.free ≡ self.old.free - frame_size coding (length samples.now) }
        ensures clips { result ≡ clips_of coding samples.now }
    {
        let size = samples.len() * coding.width();
        let start = self.end;
        let end = start + size;
        let clips = encode_into(coding, samples, &mut self.buffer[start..end]);
        self.end = end;
        clips
    }

    /// Passes all pending bytes to the writer, and flushes it.
    pub fn finish<W: ByteOut>(&mut self, writer: &mut W) -> Result<(), Failed>
        ensures sent { SendsOn (W.writes.taken writer.old) (W.writes.taken writer.new) self.old self.new }
        ensures count { bytes_put self.new ≡ bytes_put self.old }
        ensures empty { OnOk result (self.new.bytes ≡ []) }
        ensures free { OnOk result (self.new.free ≡ BUFFER_SIZE) }
        ensures flushed { OnOk result (W.writes.flushed writer.new ≡ true) }
        ensures failures { CountsFailure (W.writes.failures writer.old) (W.writes.failures writer.new) result }
    {
        self.drain(writer)?;
        writer.flush()
    }
}
