//! The steps of XXH64, which specs/Xxh64.antt defines.
ghost use Rattle.std.specs.Prelude.{◌≡◌};
ghost use Rattle.std.specs.List.{fold};
ghost use Rattle.soxchain_xxh64.specs.Xxh64.{avalanche, converge, initial_accumulators, merge, round, take_eight, take_end, take_four, take_one, take_remaining, take_stripe};

use byteorder::{ByteOrder, LittleEndian};

/// The bytes of a stripe.
pub const STRIPE_SIZE: usize = 32;

const PRIME_1: u64 = 0x9E37_79B1_85EB_CA87;

const PRIME_2: u64 = 0xC2B2_AE3D_27D4_EB4F;

const PRIME_3: u64 = 0x1656_67B1_9E37_79F9;

const PRIME_4: u64 = 0x85EB_CA77_C2B2_AE63;

/// The hash before what remains, where there is no whole stripe.
pub const PRIME_5: u64 = 0x27D4_EB2F_1656_67C5;

/// The four accumulators before the first stripe.
pub fn initial_accumulators() -> [u64; 4]
    ensures { result ≡ initial_accumulators }
{
    [
        PRIME_1.wrapping_add(PRIME_2),
        PRIME_2,
        0,
        0u64.wrapping_sub(PRIME_1),
    ]
}

/// The accumulator once it has taken a lane.
#[tactic(auto, unfolding(crate::specs::Xxh64::round))]
fn round(accumulator: u64, lane: u64) -> u64
    ensures { result ≡ round accumulator lane }
{
    accumulator
        .wrapping_add(lane.wrapping_mul(PRIME_2))
        .rotate_left(31)
        .wrapping_mul(PRIME_1)
}

/// The accumulators once they have taken these stripes.
#[tactic(auto, unfolding(crate::specs::Xxh64::take_stripe))]
pub fn take_stripes(accumulators: [u64; 4], stripes: &[[u8; STRIPE_SIZE]]) -> [u64; 4]
    ensures { result ≡ fold take_stripe accumulators stripes.now }
{
    // Each in a variable of its own: the loop then keeps them in registers.
    let [mut first, mut second, mut third, mut fourth] = accumulators;
    for stripe in stripes {
        first = round(first, LittleEndian::read_u64(stripe));
        second = round(second, LittleEndian::read_u64(&stripe[8..]));
        third = round(third, LittleEndian::read_u64(&stripe[16..]));
        fourth = round(fourth, LittleEndian::read_u64(&stripe[24..]));
    }
    [first, second, third, fourth]
}

/// The hash once an accumulator is merged into it.
#[tactic(auto, unfolding(crate::specs::Xxh64::merge))]
fn merge(hash: u64, accumulator: u64) -> u64
    ensures { result ≡ merge hash accumulator }
{
    (hash ^ round(0, accumulator))
        .wrapping_mul(PRIME_1)
        .wrapping_add(PRIME_4)
}

/// The hash of the four accumulators.
#[tactic(auto, unfolding(crate::specs::Xxh64::converge))]
pub fn converge(accumulators: [u64; 4]) -> u64
    ensures { result ≡ converge accumulators }
{
    let [first, second, third, fourth] = accumulators;
    let sum = first
        .rotate_left(1)
        .wrapping_add(second.rotate_left(7))
        .wrapping_add(third.rotate_left(12))
        .wrapping_add(fourth.rotate_left(18));
    merge(merge(merge(merge(sum, first), second), third), fourth)
}

/// The hash once it has taken eight bytes.
#[tactic(auto, unfolding(crate::specs::Xxh64::take_eight))]
fn take_eight(hash: u64, bytes: &[u8; 8]) -> u64
    ensures { result ≡ take_eight hash bytes.now }
{
    (hash ^ round(0, LittleEndian::read_u64(bytes)))
        .rotate_left(27)
        .wrapping_mul(PRIME_1)
        .wrapping_add(PRIME_4)
}

/// The hash once it has taken four bytes.
#[tactic(auto, unfolding(crate::specs::Xxh64::take_four))]
fn take_four(hash: u64, bytes: &[u8; 4]) -> u64
    ensures { result ≡ take_four hash bytes.now }
{
    (hash ^ u64::from(LittleEndian::read_u32(bytes)).wrapping_mul(PRIME_1))
        .rotate_left(23)
        .wrapping_mul(PRIME_2)
        .wrapping_add(PRIME_3)
}

/// The hash once it has taken a byte.
#[tactic(auto, unfolding(crate::specs::Xxh64::take_one))]
fn take_one(hash: u64, byte: u8) -> u64
    ensures { result ≡ take_one hash byte }
{
    (hash ^ u64::from(byte).wrapping_mul(PRIME_5))
        .rotate_left(11)
        .wrapping_mul(PRIME_1)
}

/// The hash once it has taken the last bytes, fewer than eight.
#[tactic(auto, unfolding(crate::specs::Xxh64::take_end))]
fn take_end(hash: u64, bytes: &[u8]) -> u64
    ensures { result ≡ take_end hash bytes.now }
{
    match bytes.split_first_chunk::<4>() {
        Some((four, rest)) => take_bytes(take_four(hash, four), rest),
        None => take_bytes(hash, bytes),
    }
}

/// The hash once it has taken these bytes, one by one.
fn take_bytes(hash: u64, bytes: &[u8]) -> u64
    ensures { result ≡ fold take_one hash bytes.now }
{
    bytes.iter().fold(hash, |hash, byte| take_one(hash, *byte))
}

/// The hash once it has taken the bytes after the last whole stripe.
#[tactic(auto, unfolding(crate::specs::Xxh64::take_remaining))]
pub fn take_remaining(hash: u64, bytes: &[u8]) -> u64
    ensures { result ≡ take_remaining hash bytes.now }
{
    let (eights, rest) = bytes.as_chunks::<8>();
    let mut hash = hash;
    for eight in eights {
        hash = take_eight(hash, eight);
    }
    take_end(hash, rest)
}

/// The hash, each bit of which now depends on each one before.
#[tactic(auto, unfolding(crate::specs::Xxh64::avalanche))]
pub fn avalanche(hash: u64) -> u64
    ensures { result ≡ avalanche hash }
{
    let hash = (hash ^ (hash >> 33)).wrapping_mul(PRIME_2);
    let hash = (hash ^ (hash >> 29)).wrapping_mul(PRIME_3);
    hash ^ (hash >> 32)
}
