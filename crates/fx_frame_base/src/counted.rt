//! A reader or writer of std, with its counts.

ghost use Rattle.std.specs.Prelude.{◌≡◌, true};

use super::io::{ByteIn, ByteOut, Failed, Rewind};
use std::io::{Read, Seek, Write};
use std::marker::Model;

/// A reader or writer of std that counts the bytes that it moved and the calls that failed.
///
/// A write that takes no byte of a slice that is not empty is a failed one.
#[derive(Drop)]
pub struct Counted<T> {
    inner: T,
    delivered: u64,
    failures: u64,
    is_flushed: bool,
}

impl<T> Model for Counted<T> {
    ghost use Rattle.fx_frame_base.specs.Counted.{ByteCounts};

    ghost Value = { ByteCounts T };

    ghost view = { λ c. record { inner = c.inner; delivered = c.delivered; failures = c.failures; flushed = c.is_flushed } };
}

impl<T> Counted<T> {
    /// Counts from here on. Allocates no memory.
    pub fn new(inner: T) -> Counted<T>
        ensures inner { result.inner ≡ inner }
        ensures delivered { result.delivered ≡ 0 }
        ensures failures { result.failures ≡ 0 }
        ensures flushed { result.flushed ≡ true }
    {
        Counted {
            inner,
            delivered: 0,
            failures: 0,
            is_flushed: true,
        }
    }

    /// Gives the reader or writer back.
    pub fn into_inner(self) -> T
        ensures { result ≡ self.inner }
    {
        let Counted {
            inner,
            delivered: _,
            failures: _,
            is_flushed: _,
        } = self;
        inner
    }
}

impl<T: Read> ByteIn for Counted<T> {
    ghost use Rattle.fx_frame_base.specs.Counted.{counted_reads};

    ghost reads = { counted_reads T.remaining };

    fn read(&mut self, buffer: &mut [u8]) -> Result<usize, Failed> {
        match self.inner.read(buffer) {
            Ok(n) => {
                self.delivered = self.delivered.saturating_add(n as u64);
                Ok(n)
            }
            Err(_) => {
                self.failures = self.failures.saturating_add(1);
                Err(Failed)
            }
        }
    }
}

impl<T: Write> ByteOut for Counted<T> {
    ghost use Rattle.fx_frame_base.specs.Counted.{counted_writes};

    ghost writes = { counted_writes T.contents };

    fn write(&mut self, bytes: &[u8]) -> Result<usize, Failed> {
        match self.inner.write(bytes) {
            Ok(n) if n > 0 || bytes.is_empty() => {
                self.is_flushed = self.is_flushed && n == 0;
                Ok(n)
            }
            _ => {
                self.failures = self.failures.saturating_add(1);
                Err(Failed)
            }
        }
    }

    fn flush(&mut self) -> Result<(), Failed> {
        match self.inner.flush() {
            Ok(()) => {
                self.is_flushed = true;
                Ok(())
            }
            Err(_) => {
                self.failures = self.failures.saturating_add(1);
                Err(Failed)
            }
        }
    }
}

impl<T: Write + Seek> Rewind for Counted<T> {
    ghost use Rattle.fx_frame_base.specs.Counted.{counted_rewinds};

    ghost rewinds = { counted_rewinds T.stream_position };

    fn rewind(&mut self) -> Result<(), Failed> {
        match self.inner.rewind() {
            Ok(()) => Ok(()),
            Err(_) => {
                self.failures = self.failures.saturating_add(1);
                Err(Failed)
            }
        }
    }
}
