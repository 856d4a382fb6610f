//! Output buffers of C, into which bytes are copied.
ghost use Rattle.std.specs.Prelude.{◌≡◌};
ghost use Rattle.soxchain_c.specs.Buffer.{filled};

/// Copies bytes to the front of an output buffer that has space for all of them; else nothing.
pub fn put(buffer: &mut [u8], bytes: &[u8])
    ensures { buffer.new ≡ filled bytes.now buffer.old }
{
    if bytes.len() <= buffer.len() {
        buffer[..bytes.len()].copy_from_slice(bytes);
    }
}
