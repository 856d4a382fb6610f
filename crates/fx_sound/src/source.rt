//! A buffered reader.

ghost use Rattle.std.specs.Prelude.{◌≡◌, ◌+◌, ◌-◌, ◌<◌, ◌≤◌, [], true, false, MatchBool, IfOk, OnOk, OnErr, length, take, drop};
ghost use Rattle.fx_frame_base.specs.Io.{CountsFailure};
ghost use Rattle.fx_sound.specs.Source.{AsksBeside, FailedBefore, FallsShort, FilledFront, HoldsAll, HoldsFront, Stays, Takes, TookBytes, to_come};
ghost use Rattle.fx_sound.specs.Known.{IfKnown};

use super::buffer::BUFFER_SIZE;
use fx_frame_base::{ByteIn, ByteOut, Failed, ReadBeside};
use std::marker::Model;

/// A reader with a buffer of 4,096 bytes.
///
/// It records whether its last read delivered fewer bytes than were asked for: then the reader may be slower than the program,
/// and the next read may have to wait.
#[derive(Drop)]
pub struct Source<R> {
    reader: R,
    buffer: [u8; BUFFER_SIZE],
    start: usize,
    end: usize,
    is_short: bool,
}

impl<R> Model for Source<R> {
    ghost use Rattle.std.specs.Prelude.{◌≡◌, ◌≤◌, ◌-◌, take, drop, length};
    ghost use Rattle.fx_sound.specs.Source.{Held};
    ghost use Rattle.fx_sound.specs.declared.buffer.TheConstants.{BUFFER_SIZE};

    ghost Value = { Held R };

    ghost view = { λ s. record { bytes = take (s.end - s.start) (drop s.start s.buffer); reader = s.reader; short = s.is_short } };

    ghost invariant = { λ s. (s.start ≤ s.end) × (s.end ≤ BUFFER_SIZE) × (length s.buffer ≡ BUFFER_SIZE) };
}

impl<R> Source<R> {
    /// Nothing is read yet. Allocates no memory.
    pub fn new(reader: R) -> Source<R>
        ensures bytes { result.bytes ≡ [] }
        ensures reader { result.reader ≡ reader }
        ensures short { result.short ≡ false }
    {
        Source {
            reader,
            buffer: [0; BUFFER_SIZE],
            start: 0,
            end: 0,
            is_short: false,
        }
    }

    /// The reader, as the source left it.
    pub fn into_inner(self) -> R
        ensures { result ≡ self.reader }
    {
        let Source {
            reader,
            buffer: _,
            start: _,
            end: _,
            is_short: _,
        } = self;
        reader
    }

    /// How many bytes are held.
    #[inline(always)]
    pub fn held(&self) -> usize
        ensures count { result ≡ length self.now.bytes }
        ensures maximum { result ≤ BUFFER_SIZE }
    {
        self.end - self.start
    }

    /// Whether the last read failed, or delivered fewer bytes than were asked for.
    #[inline(always)]
    pub fn came_short(&self) -> bool
        ensures { result ≡ self.now.short }
    {
        self.is_short
    }

    /// The first bytes that are held.
    #[inline(always)]
    pub fn peek(&self, n: usize) -> &[u8]
        requires { n ≤ length self.now.bytes }
        ensures { result.now ≡ take n self.now.bytes }
    {
        let start = self.start;
        let end = start + n;
        &self.buffer[start..end]
    }

    /// Removes the first bytes that are held.
    #[inline(always)]
    pub fn consume(&mut self, n: usize)
        requires { n ≤ length self.old.bytes }
        ensures bytes { self.new.bytes ≡ drop n self.old.bytes }
        ensures reader { self.new.reader ≡ self.old.reader }
        ensures short { self.new.short ≡ self.old.short }
    {
        self.start += n;
    }
}

impl<R: ReadBeside> Source<R> {
    /// Moves what is held to the front of the buffer, and asks the reader once, for as many bytes as there is space for, while
    /// it can observe the writer.
    pub fn refill_beside<W: ByteOut>(&mut self, writer: &W) -> Result<usize, Failed>
        requires { length self.old.bytes < BUFFER_SIZE }
        ensures grows { IfOk result (λ n. length self.new.bytes ≡ length self.old.bytes + n) }
        ensures stays { OnOk result (Stays R.reads.rest self.old self.new) }
        ensures end { IfOk result (λ n. n ≡ 0 → HoldsAll R.reads.rest self.old self.new) }
        ensures err { OnErr result (self.new.bytes ≡ self.old.bytes) }
        ensures asked { AsksBeside R.asked self.old self.new (W.writes.taken writer.now) }
        ensures delivered { Takes R.reads.delivered self.old self.new 0 }
        ensures failures { CountsFailure (R.reads.failures self.old.reader) (R.reads.failures self.new.reader) result }
    {
        let held = self.end - self.start;
        self.buffer.copy_within(self.start..self.end, 0);
        self.start = 0;
        self.end = held;
        self.is_short = true;
        let n = self.reader.read_beside(writer, &mut self.buffer[held..])?;
        self.end = held + n;
        self.is_short = held + n < BUFFER_SIZE;
        Ok(n)
    }
}

impl<R: ByteIn> Source<R> {
    /// Moves what is held to the front of the buffer, and asks the reader once, for as many bytes as there is space for.
    fn refill(&mut self) -> Result<usize, Failed>
        requires { length self.old.bytes < BUFFER_SIZE }
        ensures grows { IfOk result (λ n. length self.new.bytes ≡ length self.old.bytes + n) }
        ensures stays { OnOk result (Stays R.reads.rest self.old self.new) }
        ensures end { IfOk result (λ n. n ≡ 0 → HoldsAll R.reads.rest self.old self.new) }
        ensures err { OnErr result (self.new.bytes ≡ self.old.bytes) }
        ensures short { OnOk result (MatchBool self.new.short (length self.new.bytes < BUFFER_SIZE) (length self.new.bytes ≡ BUFFER_SIZE)) }
        ensures failed { OnErr result (self.new.short ≡ true) }
        ensures delivered { Takes R.reads.delivered self.old self.new 0 }
        ensures failures { CountsFailure (R.reads.failures self.old.reader) (R.reads.failures self.new.reader) result }
    {
        let kept = self.end - self.start;
        self.buffer.copy_within(self.start..self.end, 0);
        self.start = 0;
        self.end = kept;
        self.is_short = true;
        let n = self.reader.read(&mut self.buffer[kept..])?;
        self.end = kept + n;
        self.is_short = self.end < BUFFER_SIZE;
        Ok(n)
    }

    /// Reads until `want` bytes are held or the input ends. Usually they are held already. Where a read fails, those that came
    /// before it are held.
    #[inline(always)]
    pub fn hold(&mut self, want: usize) -> Result<(), Failed>
        requires { want ≤ BUFFER_SIZE }
        ensures stays { OnOk result (Stays R.reads.rest self.old self.new) }
        ensures all { OnOk result (length self.new.bytes < want → HoldsAll R.reads.rest self.old self.new) }
        ensures delivered { Takes R.reads.delivered self.old self.new 0 }
        ensures short { OnErr result (length self.new.bytes < want) }
        ensures front { OnErr result (IfKnown (to_come R.reads.rest self.old) (HoldsFront self.new)) }
        ensures failures { CountsFailure (R.reads.failures self.old.reader) (R.reads.failures self.new.reader) result }
        ensures unread { want ≤ length self.old.bytes → self.new ≡ self.old }
    {
        if self.held() >= want {
            return Ok(());
        }
        self.gather(want)
    }

    // The same, asking the reader for pieces.
    #[inline(never)]
    fn gather(&mut self, want: usize) -> Result<(), Failed>
        requires { want ≤ BUFFER_SIZE }
        ensures stays { OnOk result (Stays R.reads.rest self.old self.new) }
        ensures all { OnOk result (length self.new.bytes < want → HoldsAll R.reads.rest self.old self.new) }
        ensures delivered { Takes R.reads.delivered self.old self.new 0 }
        ensures short { OnErr result (length self.new.bytes < want) }
        ensures front { OnErr result (IfKnown (to_come R.reads.rest self.old) (HoldsFront self.new)) }
        ensures failures { CountsFailure (R.reads.failures self.old.reader) (R.reads.failures self.new.reader) result }
        ensures unread { want ≤ length self.old.bytes → self.new ≡ self.old }
    {
        while self.held() < want {
            if self.refill()? == 0 {
                return Ok(());
            }
        }
        Ok(())
    }

    /// Fills `out` with the next bytes, of which fewer come only where the input ends. The rest of `out` is unchanged. Where a
    /// read fails, all of `out` is unchanged, and the bytes that came before are held.
    pub fn fill(&mut self, out: &mut [u8]) -> Result<usize, Failed>
        requires { length out.old ≤ BUFFER_SIZE }
        ensures taken { IfOk result (TookBytes R.reads self.old self.new (length out.new)) }
        ensures filled { IfOk result (FilledFront R.reads.rest self.old out.old out.new) }
        ensures failed { OnErr result (FailedBefore R.reads self.old self.new (length out.new)) }
        ensures unwritten { OnErr result (out.new ≡ out.old) }
        ensures failures { CountsFailure (R.reads.failures self.old.reader) (R.reads.failures self.new.reader) result }
    {
        self.hold(out.len())?;
        let n = self.held().min(out.len());
        out[..n].copy_from_slice(self.peek(n));
        self.consume(n);
        Ok(n)
    }

    /// Takes `maximum` bytes from what is to come, or all there are, and returns how many. Where a read fails, no byte is held.
    pub fn skip(&mut self, maximum: usize) -> Result<usize, Failed>
        ensures taken { IfOk result (TookBytes R.reads self.old self.new maximum) }
        ensures short { OnErr result (FallsShort R.reads.delivered self.old self.new.reader maximum) }
        ensures none { OnErr result (self.new.bytes ≡ []) }
        ensures failures { CountsFailure (R.reads.failures self.old.reader) (R.reads.failures self.new.reader) result }
    {
        let mut got = 0;
        while got < maximum {
            self.hold(1)?;
            let n = self.held().min(maximum - got);
            if n == 0 {
                return Ok(got);
            }
            self.consume(n);
            got += n;
        }
        Ok(got)
    }
}
