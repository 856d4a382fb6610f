//! What is hashed of the input and of the output: XXH64 of both, and SHA-256 where the record is to have it.
ghost use Rattle.std.specs.Prelude.{OnOk};
ghost use Rattle.soxchain_job_cli.specs.Digests.{Appends};

use byteorder::{ByteOrder, LittleEndian};
use sha2::{Digest, Sha256};
use soxchain_xxh64::{ByteHasher, Xxh64};
use std::alloc::AllocError;

/// The bytes of the digests that follow a frozen conversion: the XXH64 of what was taken, and of what was given.
pub const FROZEN_SIZE: usize = 16;

/// The bytes of a `FileDigest`.
const FILE_SIZE: usize = 48;

/// The bytes of the digests that follow the counts of a summary.
pub const SUMMARY_SIZE: usize = 96;

/// The bytes of a SHA-256.
const SHA256_SIZE: usize = 32;

/// What a file is known by.
#[derive(Clone, Copy, Debug, PartialEq, Eq)]
pub struct FileDigest {
    /// Its bytes.
    pub size: u64,
    pub xxh64: u64,
    /// Zeros where nobody asked for it.
    pub sha256: [u8; SHA256_SIZE],
}

impl FileDigest {
    /// Its bytes: the size, the XXH64, and the SHA-256.
    fn to_bytes(&self) -> [u8; FILE_SIZE] {
        let mut bytes = [0; FILE_SIZE];
        LittleEndian::write_u64(&mut bytes[..8], self.size);
        LittleEndian::write_u64(&mut bytes[8..16], self.xxh64);
        bytes[16..].copy_from_slice(&self.sha256);
        bytes
    }

    /// The first of these bytes as `to_bytes` writes them.
    fn of_bytes(bytes: &[u8]) -> Option<FileDigest> {
        let (words, rest) = bytes.split_at_checked(16)?;
        let mut sha256 = [0; SHA256_SIZE];
        sha256.copy_from_slice(rest.get(..SHA256_SIZE)?);
        Some(FileDigest {
            size: LittleEndian::read_u64(&words[..8]),
            xxh64: LittleEndian::read_u64(&words[8..]),
            sha256,
        })
    }
}

/// What was hashed so far of a file.
#[derive(Drop)]
pub struct FileHash {
    size: u64,
    pub xxh64: Xxh64,
    sha256: Option<Sha256>,
}

impl FileHash {
    /// Nothing was hashed.
    pub fn new(with_sha256: bool) -> FileHash {
        FileHash {
            size: 0,
            xxh64: Xxh64::new(),
            sha256: if with_sha256 {
                Some(Sha256::new())
            } else {
                None
            },
        }
    }

    /// A copy.
    fn copy(&self) -> Result<FileHash, AllocError> {
        Ok(FileHash {
            size: self.size,
            xxh64: self.xxh64,
            sha256: match &self.sha256 {
                Some(sha256) => Some(sha256.clone()?),
                None => None,
            },
        })
    }

    /// The SHA-256 of what was hashed, or zeros.
    fn sha256(&self) -> Result<[u8; SHA256_SIZE], AllocError> {
        match &self.sha256 {
            Some(sha256) => Ok(sha256.clone()?.finalize()),
            None => Ok([0; SHA256_SIZE]),
        }
    }

    /// What the hashed bytes are known by.
    pub fn digest(&self) -> Result<FileDigest, AllocError> {
        Ok(FileDigest {
            size: self.size,
            xxh64: self.xxh64.digest(),
            sha256: self.sha256()?,
        })
    }
}

impl ByteHasher for FileHash {
    ghost use Rattle.soxchain_xxh64.specs.IsHashOf.{IsHashOf};

    // Its XXH64 is one of these bytes.
    ghost is_hash_of = { λ bytes hash. IsHashOf bytes hash.xxh64 };

    /// Hashes the next bytes.
    fn update(&mut self, bytes: &[u8]) {
        self.size = self.size.saturating_add(bytes.len() as u64);
        self.xxh64.update(bytes);
        if let Some(sha256) = &mut self.sha256 {
            sha256.update(bytes);
        }
    }
}

/// What was hashed so far of the input and of the output.
#[derive(Drop)]
pub struct Hashes {
    pub input: FileHash,
    pub output: FileHash,
}

/// What the input and the output are known by.
#[derive(Clone, Copy, Debug, PartialEq, Eq)]
pub struct Digests {
    pub input: FileDigest,
    pub output: FileDigest,
}

impl Digests {
    /// Its bytes: those of the input, and those of the output.
    fn to_bytes(&self) -> [u8; SUMMARY_SIZE] {
        let mut bytes = [0; SUMMARY_SIZE];
        bytes[..FILE_SIZE].copy_from_slice(&self.input.to_bytes());
        bytes[FILE_SIZE..].copy_from_slice(&self.output.to_bytes());
        bytes
    }
}

impl Hashes {
    /// Nothing was hashed.
    pub fn new(with_sha256: bool) -> Hashes {
        Hashes {
            input: FileHash::new(with_sha256),
            output: FileHash::new(with_sha256),
        }
    }

    /// A copy.
    pub fn copy(&self) -> Result<Hashes, AllocError> {
        Ok(Hashes {
            input: self.input.copy()?,
            output: self.output.copy()?,
        })
    }

    /// What both are known by.
    pub fn digests(&self) -> Result<Digests, AllocError> {
        Ok(Digests {
            input: self.input.digest()?,
            output: self.output.digest()?,
        })
    }

    /// Appends the XXH64 of the input, and that of the output.
    pub fn append_to_frozen(&self, bytes: &mut Vec<u8>) -> Result<(), AllocError>
        ensures { OnOk result (Appends FROZEN_SIZE bytes.old.items bytes.new.items) }
    {
        let mut digests = [0; FROZEN_SIZE];
        LittleEndian::write_u64(&mut digests[..8], self.input.xxh64.digest());
        LittleEndian::write_u64(&mut digests[8..], self.output.xxh64.digest());
        bytes.extend_from_slice(&digests)
    }

    /// Appends what both are known by.
    pub fn append_to_summary(&self, bytes: &mut Vec<u8>) -> Result<(), AllocError>
        ensures { OnOk result (Appends SUMMARY_SIZE bytes.old.items bytes.new.items) }
    {
        let digests = self.digests()?.to_bytes();
        bytes.extend_from_slice(&digests)
    }
}

/// The XXH64 of the input and of the output that follow a frozen conversion.
pub fn frozen_digests(frozen: &[u8]) -> Option<(u64, u64)> {
    let digests = frozen.get(frozen.len().checked_sub(FROZEN_SIZE)?..)?;
    let (input, output) = digests.split_at(8);
    Some((
        LittleEndian::read_u64(input),
        LittleEndian::read_u64(output),
    ))
}

/// The counts of a summary, and the digests that follow them.
pub fn split_summary(summary: &[u8]) -> Option<(&[u8], Digests)> {
    let (counts, digests) = summary.split_at_checked(summary.len().checked_sub(SUMMARY_SIZE)?)?;
    let (input, output) = digests.split_at(FILE_SIZE);
    let digests = Digests {
        input: FileDigest::of_bytes(input)?,
        output: FileDigest::of_bytes(output)?,
    };
    Some((counts, digests))
}
