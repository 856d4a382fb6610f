//! Bytes in memory, as a reader.
ghost use Rattle.std.specs.Prelude.{◌≡◌, Some};

use fx_frame::{ByteIn, Failed};

/// A reader over the bytes of a slice. No call of it fails.
#[derive(Drop)]
pub struct SliceReader<'a> {
    left: &'a [u8],
    delivered: u64,
}

impl<'a> SliceReader<'a> {
    /// Nothing is read yet.
    pub fn new(bytes: &'a [u8]) -> SliceReader<'a>
        ensures left { result.left.now ≡ bytes.now }
        ensures delivered { result.delivered ≡ 0 }
    {
        SliceReader {
            left: bytes,
            delivered: 0,
        }
    }
}

impl ByteIn for SliceReader<'_> {
    ghost reads = { record { rest = λ s. Some s.left.now; delivered = λ s. s.delivered; failures = λ _. 0 } };

    fn read(&mut self, buffer: &mut [u8]) -> Result<usize, Failed> {
        let n = self.left.len().min(buffer.len());
        buffer[..n].copy_from_slice(&self.left[..n]);
        self.left = &self.left[n..];
        self.delivered = self.delivered.saturating_add(n as u64);
        Ok(n)
    }
}
