//! Hashers of bytes, and a reader's first bytes for one.
ghost use Rattle.std.specs.Prelude.{◌≡◌, ◌≢◌, ℕ, ◌<◌, ◌≤◌, List, length, take, drop, min, Some, IfSome, IfOk, IfErr, OnOk};
ghost use Rattle.std.specs.Io.{ReadsAtMost};
ghost use Rattle.std.specs.Io.KnownBytes.{ReadConsumes};
ghost use Rattle.std.specs.IoError.{error_kind};
ghost use Rattle.soxchain_xxh64.specs.Hashing.{Hashes, HashesConsumed};

use std::alloc::Global;
use std::io::{self, ErrorKind, Read};

/// The bytes that are read at a time.
const PIECE_SIZE: usize = 1 << 16;

/// A hash that takes its bytes piece by piece.
pub trait ByteHasher {
    // The hasher has taken these bytes.
    ghost is_hash_of: { List ℕ → Self → Type 0 };

    /// Takes these bytes after those before.
    fn update(&mut self, bytes: &[u8])
        ensures { Hashes is_hash_of self.old self.new bytes.now };
}

/// Has a hasher take the next bytes of a reader, at most `count`, until these came or the reader has no more. Answers how many came.
/// A read that fails is an Err; the hasher then has what was read before it. An interrupted read is tried again.
pub fn hash_front<R: Read, H: ByteHasher>(
    alloc: Global,
    reader: &mut R,
    hasher: &mut H,
    count: u64,
) -> io::Result<u64>
    ensures bound { IfOk result (λ n. n ≤ count) }
    ensures known { IfOk result (λ n. IfSome (R.remaining reader.old)
        (λ all. n ≡ min count (length all))) }
    ensures rest { OnOk result (IfSome (R.remaining reader.old)
        (λ all. R.remaining reader.new ≡ Some (drop count all))) }
    ensures hashed { OnOk result (IfSome (R.remaining reader.old)
        (λ all. Hashes H.is_hash_of hasher.old hasher.new (take count all))) }
    ensures none_lost { HashesConsumed R.remaining H.is_hash_of
        reader.old reader.new hasher.old hasher.new result }
    ensures retried { IfErr result (λ e. error_kind e ≢ ErrorKind.Interrupted) }
{
    let mut piece = Vec::with_capacity(alloc, PIECE_SIZE)?;
    piece.resize(PIECE_SIZE, 0)?;
    hash_pieces(reader, hasher, count, &mut piece)
}

/// The same by pieces of this size.
fn hash_pieces<R: Read, H: ByteHasher>(
    reader: &mut R,
    hasher: &mut H,
    count: u64,
    piece: &mut [u8],
) -> io::Result<u64>
    requires { 0 < length piece.old }
    ensures bound { IfOk result (λ n. n ≤ count) }
    ensures known { IfOk result (λ n. IfSome (R.remaining reader.old)
        (λ all. n ≡ min count (length all))) }
    ensures rest { OnOk result (IfSome (R.remaining reader.old)
        (λ all. R.remaining reader.new ≡ Some (drop count all))) }
    ensures hashed { OnOk result (IfSome (R.remaining reader.old)
        (λ all. Hashes H.is_hash_of hasher.old hasher.new (take count all))) }
    ensures none_lost { HashesConsumed R.remaining H.is_hash_of
        reader.old reader.new hasher.old hasher.new result }
    ensures retried { IfErr result (λ e. error_kind e ≢ ErrorKind.Interrupted) }
{
    let mut left = count;
    while left > 0 {
        let wanted = left.min(piece.len() as u64) as usize;
        let delivered = read_piece(reader, &mut piece[..wanted])?;
        if delivered == 0 {
            break;
        }
        hasher.update(&piece[..delivered]);
        left -= delivered as u64;
    }
    Ok(count - left)
}

/// Reads once, and again where the read was interrupted.
fn read_piece<R: Read>(reader: &mut R, piece: &mut [u8]) -> io::Result<usize>
    ensures bound { ReadsAtMost result piece.new }
    ensures bytes { ReadConsumes (R.remaining reader.old) (R.remaining reader.new) result piece.new }
    ensures retried { IfErr result (λ e. error_kind e ≢ ErrorKind.Interrupted) }
{
    for _ in 0..u64::MAX {
        match reader.read(piece) {
            Err(error) if error.kind() == ErrorKind::Interrupted => {}
            result => return result,
        }
    }
    Err(ErrorKind::TimedOut.into())
}
