//! The state of a hash that takes its bytes piece by piece.
use crate::hasher::ByteHasher;
use crate::steps::{
    PRIME_5, STRIPE_SIZE, avalanche, converge, initial_accumulators, take_remaining, take_stripes,
};

/// A hash of the bytes that it has taken.
#[derive(Clone, Copy, Drop)]
pub struct Xxh64 {
    accumulators: [u64; 4],
    /// What came after the last whole stripe, at the front.
    pending: [u8; STRIPE_SIZE],
    /// How many bytes came, modulo 2^64.
    length: u64,
    /// A whole stripe came. The length, which wraps, does not say so.
    has_stripe: bool,
}

impl Xxh64 {
    ghost use Rattle.std.specs.Prelude.{◌≡◌, ℕ, ◌+◌, ◌%◌, ◌^◌, ◌≤◌, List, [], ◌++◌, length};
    ghost use Rattle.soxchain_xxh64.specs.Hashing.{Hashes};
    ghost use Rattle.soxchain_xxh64.specs.IsHashOf.{IsHashOf};
    ghost use Rattle.soxchain_xxh64.specs.Xxh64.{xxh64};

    /// No byte was taken.
    pub fn new() -> Xxh64
        ensures { IsHashOf [] result }
    {
        Xxh64 {
            accumulators: initial_accumulators(),
            pending: [0; STRIPE_SIZE],
            length: 0,
            has_stripe: false,
        }
    }

    /// Takes these bytes after those before.
    pub fn update(&mut self, bytes: &[u8])
        ensures { Hashes IsHashOf self.old self.new bytes.now }
    {
        let missing = (STRIPE_SIZE - self.pending_size()) % STRIPE_SIZE;
        match bytes.split_at_checked(missing) {
            Some((front, rest)) => {
                self.fill(front);
                self.take_from_edge(rest);
            }
            None => self.fill(bytes),
        }
    }

    /// The hash of the bytes that were taken.
    pub fn digest(&self) -> u64
        ensures { (bytes : List ℕ) → IsHashOf bytes self.now → result ≡ xxh64 bytes }
    {
        let converged = if self.has_stripe {
            converge(self.accumulators)
        } else {
            PRIME_5
        };
        let hash = converged.wrapping_add(self.length);
        avalanche(take_remaining(hash, &self.pending[..self.pending_size()]))
    }

    /// How many bytes came after the last whole stripe.
    fn pending_size(&self) -> usize
        ensures { result ≡ self.now.length % 32 }
    {
        (self.length % 32) as usize
    }

    /// Takes bytes that go no further than the end of the stripe that began.
    fn fill(&mut self, bytes: &[u8])
        requires { self.old.length % 32 + length bytes.now ≤ 32 }
        ensures length { self.new.length ≡ (self.old.length + length bytes.now) % 2 ^ 64 }
        ensures hash { Hashes IsHashOf self.old self.new bytes.now }
    {
        let start = self.pending_size();
        let end = start + bytes.len();
        self.length = self.length.wrapping_add(bytes.len() as u64);
        self.pending[start..end].copy_from_slice(bytes);
        if end == STRIPE_SIZE {
            self.accumulators = take_stripes(self.accumulators, &[self.pending]);
            self.has_stripe = true;
        }
    }

    /// Takes bytes that begin a stripe. Whole stripes are read where they are.
    fn take_from_edge(&mut self, bytes: &[u8])
        requires { self.old.length % 32 ≡ 0 }
        ensures { Hashes IsHashOf self.old self.new bytes.now }
    {
        let (stripes, rest) = bytes.as_chunks::<STRIPE_SIZE>();
        self.length = self.length.wrapping_add(bytes.len() as u64);
        self.accumulators = take_stripes(self.accumulators, stripes);
        self.has_stripe = self.has_stripe || bytes.len() >= STRIPE_SIZE;
        self.pending[..rest.len()].copy_from_slice(rest);
    }
}

impl ByteHasher for Xxh64 {
    ghost use Rattle.soxchain_xxh64.specs.IsHashOf.{IsHashOf};

    ghost is_hash_of = { IsHashOf };

    fn update(&mut self, bytes: &[u8]) {
        self.update(bytes);
    }
}
