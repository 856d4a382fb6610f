//! Messages in memory.
ghost use Rattle.std.specs.Prelude.{◌≡◌, ◌<◌, ◌≤◌, [], Some, true, length};
ghost use Rattle.soxchain_c.specs.Messages.{Memory};

use fx_frame::{ByteOut, Failed};
use smallvec::SmallVec;
use std::alloc::Global;
use std::marker::Model;

/// How many bytes of messages are stored in the value itself, without an allocation.
const PLACE: usize = 4096;

/// The bytes of messages.
pub type Text = SmallVec<u8, PLACE>;

/// A writer into memory. It fails only where it has taken 4,096 bytes and no memory is found for more.
#[derive(Drop)]
pub struct Messages {
    text: Text,
    is_flushed: bool,
    failures: u64,
}

impl Model for Messages {
    ghost Value = { Memory };

    ghost view = { λ m. record { bytes = m.text.items; flushed = m.is_flushed; failures = m.failures } };

    ghost invariant = { λ m. (4096 ≤ m.text.capacity) × (0 < m.failures → 4096 ≤ length m.text.items) };
}

impl Messages {
    /// Nothing is written yet.
    pub fn new(alloc: Global) -> Messages
        ensures bytes { result.bytes ≡ [] }
        ensures flushed { result.flushed ≡ true }
        ensures failures { result.failures ≡ 0 }
    {
        Messages {
            text: SmallVec::new(alloc),
            is_flushed: true,
            failures: 0,
        }
    }

    /// What was written.
    pub fn into_text(self) -> Text
        ensures bytes { result.items ≡ self.bytes }
        ensures long { 0 < self.failures → 4096 ≤ length result.items }
    {
        let Messages {
            text,
            is_flushed: _,
            failures: _,
        } = self;
        text
    }
}

impl ByteOut for Messages {
    ghost writes = { record { taken = λ m. Some m.bytes; flushed = λ m. m.flushed; failures = λ m. m.failures } };

    fn write(&mut self, bytes: &[u8]) -> Result<usize, Failed> {
        let places = PLACE.saturating_sub(self.text.as_slice().len());
        let count = taken_at_once(places, bytes.len());
        match self.text.extend_from_slice(&bytes[..count]) {
            Ok(()) => {
                self.is_flushed = self.is_flushed && count == 0;
                Ok(count)
            }
            Err(_) => {
                self.failures = self.failures.saturating_add(1);
                Err(Failed)
            }
        }
    }

    fn flush(&mut self) -> Result<(), Failed> {
        self.is_flushed = true;
        Ok(())
    }
}

/// How many of `count` bytes are taken at once: those for which there is space, and all where none is left.
fn taken_at_once(places: usize, count: usize) -> usize
    ensures bound { result ≤ count }
    ensures some { 0 < count → 0 < result }
    ensures fits { 0 < places → result ≤ places }
{
    if places == 0 {
        count
    } else {
        count.min(places)
    }
}
