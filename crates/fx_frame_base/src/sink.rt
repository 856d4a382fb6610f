//! A writer into memory, for tests.

ghost use Rattle.std.specs.Prelude.{◌≡◌, ◌-◌, ◌<◌, ◌≤◌, ◌↔◌, ◌⊎◌, ◌||◌, min, true, is_ok, Some, [], IfOk, OnErr, IsErr, length};
ghost use Rattle.std.specs.Io.KnownBytes.{Keeps, WriteAppends};
ghost use Rattle.fx_frame_base.specs.Io.{CountsFailure, flushed_after};
ghost use Rattle.fx_frame_base.specs.Device.{RefusesNext, device_after, new_device};

use super::device::Device;
use super::io::{ByteOut, Failed};
use std::alloc::{AllocError, Global};
use std::marker::Model;

/// A writer that takes bytes into memory, in pieces, as far as there is free space, and fails when it
/// is asked to.
#[derive(Drop)]
pub struct Sink {
    bytes: Vec<u8>,
    capacity: usize,
    is_flushed: bool,
    device: Device,
}

impl Model for Sink {
    ghost use Rattle.std.specs.Prelude.{◌<◌, ◌≤◌, length};
    ghost use Rattle.std.specs.Vec.{vec_capacity};
    ghost use Rattle.fx_frame_base.specs.Sink.{Basin};

    ghost Value = { Basin };

    ghost view = { λ s. record { bytes = s.bytes.items; capacity = s.capacity; flushed = s.is_flushed; device = s.device } };

    ghost invariant = { λ s. (length s.bytes.items ≤ s.capacity) × (s.capacity ≤ vec_capacity s.bytes) × (0 < s.device.piece) };
}

impl Sink {
    /// A writer with space for `capacity` bytes whose calls take at most `piece` of them. Call number
    /// `fail_at` fails, writes and flushes counted together (from 1; 0: none), and each later one
    /// too where `for_good`.
    ///
    /// Takes memory for the whole buffer, and no later call allocates any.
    pub fn new(
        alloc: Global,
        capacity: usize,
        piece: usize,
        fail_at: u64,
        for_good: bool,
    ) -> Result<Sink, AllocError>
        requires { 0 < piece }
        ensures bytes { IfOk result (λ s. s.bytes ≡ []) }
        ensures capacity { IfOk result (λ s. s.capacity ≡ capacity) }
        ensures flushed { IfOk result (λ s. s.flushed ≡ true) }
        ensures device { IfOk result (λ s. s.device ≡ new_device piece fail_at for_good) }
    {
        Ok(Sink {
            bytes: Vec::with_capacity(alloc, capacity)?,
            capacity,
            is_flushed: true,
            device: Device {
                piece,
                fail_at,
                for_good,
                calls: 0,
                failures: 0,
            },
        })
    }

    /// The bytes taken so far.
    pub fn taken(&self) -> &[u8]
        ensures { result.now ≡ self.now.bytes }
    {
        self.bytes.as_slice()
    }
}

impl ByteOut for Sink {
    ghost writes = { record { taken = λ s. Some s.bytes; flushed = λ s. s.flushed; failures = λ s. s.device.failures } };

    fn write(&mut self, bytes: &[u8]) -> Result<usize, Failed>
        ensures bound { IfOk result (λ n. n ≤ length bytes.now) }
        ensures some { IfOk result (λ n. 0 < length bytes.now → 0 < n) }
        ensures bytes { WriteAppends (Some self.old.bytes) (Some self.new.bytes) result bytes.now }
        ensures flushed { self.new.flushed ≡ flushed_after self.old.flushed result }
        ensures failures { CountsFailure self.old.device.failures self.new.device.failures result }

        // What this device states beyond the trait.
        ensures piece { IfOk result (λ n. n ≡ min (min (length bytes.now) self.old.device.piece) (self.old.capacity - length self.old.bytes)) }
        ensures refused { RefusesNext self.old.device → IsErr result }
        ensures full { self.old.capacity ≤ length self.old.bytes → 0 < length bytes.now → IsErr result }
        ensures cause { OnErr result (RefusesNext self.old.device ⊎ (self.old.capacity ≤ length self.old.bytes) × (0 < length bytes.now)) }
        ensures counted { (self.new.device ≡ device_after self.old.device result) × (self.new.capacity ≡ self.old.capacity) }
    {
        self.device.call()?;
        let left = self.capacity - self.bytes.len();
        let n = bytes.len().min(self.device.piece).min(left);
        if n == 0 && !bytes.is_empty() {
            return Err(self.device.fail());
        }
        let Ok(()) = self.bytes.extend_from_slice(&bytes[..n]) else {
            unreachable!()
        };
        self.is_flushed = self.is_flushed && n == 0;
        Ok(n)
    }

    fn flush(&mut self) -> Result<(), Failed>
        ensures bytes { Keeps (Some self.old.bytes) (Some self.new.bytes) }
        ensures flushed { self.new.flushed ≡ (is_ok result || self.old.flushed) }
        ensures failures { CountsFailure self.old.device.failures self.new.device.failures result }

        // What this device states beyond the trait.
        ensures refused { IsErr result ↔ RefusesNext self.old.device }
        ensures counted { self.new.device ≡ device_after self.old.device result }
        ensures capacity { self.new.capacity ≡ self.old.capacity }
    {
        self.device.call()?;
        self.is_flushed = true;
        Ok(())
    }
}
