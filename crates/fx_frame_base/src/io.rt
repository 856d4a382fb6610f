//! Readers and writers of bytes.

ghost use Rattle.std.specs.Prelude.{◌≡◌, ◌<◌, ◌≤◌, ◌||◌, is_ok, IfErr, IfOk, IfSome, Some, length, take};
ghost use Rattle.std.specs.Io.KnownBytes.{Consumes, IsAtEnd, Keeps, WriteAppends};
ghost use Rattle.fx_frame_base.specs.Io.{ByteReader, ByteWriter, CountsBytes, CountsFailure, Rewinds, flushed_after};
ghost use Rattle.fx_frame_base.specs.Moments.{Moment, moment_of};

use thiserror::Error;

/// A read, a write or a flush that failed.
#[derive(Clone, Copy, Debug, PartialEq, Eq, Error)]
#[error("a reader or writer failed")]
pub struct Failed;

/// A reader of bytes that counts what it delivered and how often it failed.
///
/// Its counts saturate at `u64::MAX`.
pub trait ByteIn {
    // What is still to be read, and what was counted.
    ghost reads: { ByteReader Self };

    /// Reads some of the next bytes to the front of `buffer`, and returns how many.
    ///
    /// It delivers none only at the end, or where `buffer` is empty. A `Failed` delivers none, and the
    /// bytes still to be read are then unknown.
    fn read(&mut self, buffer: &mut [u8]) -> Result<usize, Failed>
        ensures bound { IfOk result (λ n. n ≤ length buffer.new) }
        ensures bytes { IfOk result (λ n. Consumes (reads.rest self.old) (reads.rest self.new) (take n buffer.new)) }
        ensures end { IfOk result (λ n. n ≡ 0 → 0 < length buffer.new → IsAtEnd (reads.rest self.new)) }
        ensures delivered { CountsBytes (reads.delivered self.old) (reads.delivered self.new) result }
        ensures failures { CountsFailure (reads.failures self.old) (reads.failures self.new) result };
}

/// A writer of bytes that counts how often it failed.
///
/// Its count saturates at `u64::MAX`.
pub trait ByteOut {
    // What was taken, and what was counted.
    ghost writes: { ByteWriter Self };

    /// Takes some of the first bytes, and returns how many: of a slice that is not empty at least
    /// one. A `Failed` takes none.
    fn write(&mut self, bytes: &[u8]) -> Result<usize, Failed>
        ensures bound { IfOk result (λ n. n ≤ length bytes.now) }
        ensures some { IfOk result (λ n. 0 < length bytes.now → 0 < n) }
        ensures bytes { WriteAppends (writes.taken self.old) (writes.taken self.new) result bytes.now }
        ensures flushed { writes.flushed self.new ≡ flushed_after (writes.flushed self.old) result }
        ensures failures { CountsFailure (writes.failures self.old) (writes.failures self.new) result };

    /// Flushes the bytes that were taken. It takes none.
    fn flush(&mut self) -> Result<(), Failed>
        ensures bytes { Keeps (writes.taken self.old) (writes.taken self.new) }
        ensures flushed { writes.flushed self.new ≡ (is_ok result || writes.flushed self.old) }
        ensures failures { CountsFailure (writes.failures self.old) (writes.failures self.new) result };
}

/// A reader whose reads can observe the writer of a run.
///
/// Every `ByteIn` is one, and observes nothing. A type with its own implementation records in `asked` what it observed at a
/// read. So the statement of a run on the moment of a read holds for each read of such a reader.
pub trait ReadBeside {
    // What is still to be read, and what was counted.
    ghost reads: { ByteReader Self };

    // One call took the reader from the first to the second state, and had this moment.
    ghost asked: { Self → Self → Moment → Type 0 };

    /// As `read` of `ByteIn`. The writer is not changed.
    fn read_beside<W: ByteOut>(&mut self, writer: &W, buffer: &mut [u8]) -> Result<usize, Failed>
        ensures bound { IfOk result (λ n. n ≤ length buffer.new) }
        ensures bytes { IfOk result (λ n. Consumes (reads.rest self.old) (reads.rest self.new) (take n buffer.new)) }
        ensures end { IfOk result (λ n. n ≡ 0 → 0 < length buffer.new → IsAtEnd (reads.rest self.new)) }
        ensures delivered { CountsBytes (reads.delivered self.old) (reads.delivered self.new) result }
        ensures failures { CountsFailure (reads.failures self.old) (reads.failures self.new) result }
        ensures asked { asked self.old self.new (moment_of result buffer.new (W.writes.taken writer.now)) };
}

impl<R: ByteIn> ReadBeside for R {
    ghost reads = { R.reads };

    ghost asked = { λ _ _ _. Unit {0} };

    fn read_beside<W: ByteOut>(&mut self, _writer: &W, buffer: &mut [u8]) -> Result<usize, Failed> {
        self.read(buffer)
    }
}

/// A writer that can go back to its first byte.
pub trait Rewind: ByteOut {
    // The place of its next byte, and what its calls to go back make of it.
    ghost rewinds: { Rewinds Self };

    /// Goes back to the first byte: what is written then overwrites what was there. It flushes nothing.
    fn rewind(&mut self) -> Result<(), Failed>
        ensures back { IfOk result (λ _. rewinds.back self.old self.new) }
        ensures stuck { IfErr result (λ _. rewinds.stuck self.old self.new) }
        ensures start { IfOk result (λ _. IfSome (rewinds.place self.old) (λ _. rewinds.place self.new ≡ Some 0)) }
        ensures flushed { Self.writes.flushed self.new ≡ Self.writes.flushed self.old }
        ensures failures { CountsFailure (Self.writes.failures self.old) (Self.writes.failures self.new) result };
}
