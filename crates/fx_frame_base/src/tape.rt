//! A reader over bytes in memory, for tests.

ghost use Rattle.std.specs.Prelude.{◌≡◌, ◌<◌, ◌≤◌, ◌↔◌, min, Some, IfOk, OnErr, IsErr, drop, length, take};
ghost use Rattle.std.specs.Io.KnownBytes.{Consumes, IsAtEnd};
ghost use Rattle.fx_frame_base.specs.Io.{CountsBytes, CountsFailure};
ghost use Rattle.fx_frame_base.specs.Device.{RefusesNext, device_after, new_device};

use super::copies::copy_part;
use super::device::Device;
use super::io::{ByteIn, Failed};
use std::marker::Model;

/// A reader that delivers bytes of memory, in pieces, and fails when it is asked to.
#[derive(Drop)]
pub struct Tape {
    bytes: Vec<u8>,
    position: usize,
    device: Device,
}

impl Model for Tape {
    ghost use Rattle.std.specs.Prelude.{◌<◌, ◌≤◌, drop, length};
    ghost use Rattle.fx_frame_base.specs.Tape.{Reel};

    ghost Value = { Reel };

    ghost view = { λ t. record { bytes = drop t.position t.bytes.items; delivered = t.position; device = t.device } };

    ghost invariant = { λ t. (t.position ≤ length t.bytes.items) × (0 < t.device.piece) };
}

impl Tape {
    /// A reader of these bytes whose calls move at most `piece` of them, and whose call number
    /// `fail_at` fails (counted from 1; 0: none), and each later one too where `for_good`.
    /// Allocates no memory.
    pub fn new(bytes: Vec<u8>, piece: usize, fail_at: u64, for_good: bool) -> Tape
        requires { 0 < piece }
        ensures bytes { result.bytes ≡ bytes.items }
        ensures delivered { result.delivered ≡ 0 }
        ensures device { result.device ≡ new_device piece fail_at for_good }
    {
        Tape {
            bytes,
            position: 0,
            device: Device {
                piece,
                fail_at,
                for_good,
                calls: 0,
                failures: 0,
            },
        }
    }
}

impl ByteIn for Tape {
    ghost reads = { record { rest = λ t. Some t.bytes; delivered = λ t. t.delivered; failures = λ t. t.device.failures } };

    fn read(&mut self, buffer: &mut [u8]) -> Result<usize, Failed>
        ensures bound { IfOk result (λ n. n ≤ length buffer.new) }
        ensures bytes { IfOk result (λ n. Consumes (Some self.old.bytes) (Some self.new.bytes) (take n buffer.new)) }
        ensures end { IfOk result (λ n. n ≡ 0 → 0 < length buffer.new → IsAtEnd (Some self.new.bytes)) }
        ensures delivered { CountsBytes self.old.delivered self.new.delivered result }
        ensures failures { CountsFailure self.old.device.failures self.new.device.failures result }

        // What this device states beyond the trait.
        ensures piece { IfOk result (λ n. n ≡ min (min (length buffer.new) self.old.device.piece) (length self.old.bytes)) }
        ensures refused { IsErr result ↔ RefusesNext self.old.device }
        ensures counted { self.new.device ≡ device_after self.old.device result }
        ensures err { OnErr result ((self.new.bytes ≡ self.old.bytes) × (buffer.new ≡ buffer.old)) }
        ensures rest_unchanged { IfOk result (λ n. drop n buffer.new ≡ drop n buffer.old) }
    {
        self.device.call()?;
        let left = self.bytes.len() - self.position;
        let n = buffer.len().min(self.device.piece).min(left);
        copy_part(buffer, 0, self.bytes.as_slice(), self.position, n);
        self.position += n;
        Ok(n)
    }
}
