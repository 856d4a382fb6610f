//! XXH64, the hash of 64 bits of Yann Collet, with seed 0: it finds damage and change, and is no protection against intent.
#![tactic(auto)]

ghost use Rattle.std.specs.Prelude.{◌≡◌};
ghost use Rattle.soxchain_xxh64.specs.Xxh64.{xxh64};

mod hasher;
mod state;
mod steps;

pub use hasher::{ByteHasher, hash_front};
pub use state::Xxh64;

/// The hash of these bytes.
pub fn xxh64(bytes: &[u8]) -> u64
    ensures { result ≡ xxh64 bytes.now }
{
    let mut state = Xxh64::new();
    state.update(bytes);
    state.digest()
}
