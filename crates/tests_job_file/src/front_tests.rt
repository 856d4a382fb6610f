//! The first bytes of readers, of which some fail.
use crate::hash_tests::sevens;
use soxchain_xxh64::{Xxh64, hash_front, xxh64};
use std::io::{self, ErrorKind, Read};
use std::test::Fail;

/// A reader that gives ten bytes at a time, is interrupted before each, and fails after so many reads.
#[derive(Drop)]
struct Failing<'a> {
    bytes: &'a [u8],
    reads: u32,
    interrupts: bool,
}

impl Read for Failing<'_> {
    fn read(&mut self, piece: &mut [u8]) -> io::Result<usize> {
        self.interrupts = !self.interrupts;
        if self.interrupts {
            return Err(ErrorKind::Interrupted.into());
        }
        if self.reads == 0 {
            return Err(ErrorKind::BrokenPipe.into());
        }
        self.reads -= 1;
        let count = self.bytes.len().min(piece.len()).min(10);
        let (front, rest) = self.bytes.split_at(count);
        piece[..count].copy_from_slice(front);
        self.bytes = rest;
        Ok(count)
    }
}

#[test]
fn fronts(rt: HostRuntime) -> Result<(), Fail> {
    let bytes = sevens(rt.alloc(), 70_000)?;
    for count in [0u64, 1, 65_535, 65_536, 65_537, 70_000, 80_000] {
        let mut reader = bytes.as_slice();
        let mut state = Xxh64::new();
        let taken = hash_front(rt.alloc(), &mut reader, &mut state, count)?;
        assert_eq!(rt; taken, count.min(70_000));
        let front = bytes.get(..taken as usize).ok_or("too many")?;
        assert_eq!(rt; state.digest(), xxh64(front));
        assert_eq!(rt; reader.len() as u64, 70_000 - count.min(70_000));
    }
    Ok(())
}

#[test]
fn interrupted_reads(rt: HostRuntime) -> Result<(), Fail> {
    let bytes = sevens(rt.alloc(), 95)?;
    let mut reader = Failing {
        bytes: &bytes,
        reads: 100,
        interrupts: false,
    };
    let mut state = Xxh64::new();
    let taken = hash_front(rt.alloc(), &mut reader, &mut state, 1000)?;
    assert_eq!(rt; taken, 95);
    assert_eq!(rt; state.digest(), xxh64(&bytes));
    Ok(())
}

#[test]
fn failed_reads(rt: HostRuntime) -> Result<(), Fail> {
    let bytes = sevens(rt.alloc(), 95)?;
    for reads in 0..10u32 {
        let mut reader = Failing {
            bytes: &bytes,
            reads,
            interrupts: false,
        };
        let mut state = Xxh64::new();
        match hash_front(rt.alloc(), &mut reader, &mut state, 95) {
            Err(error) => assert_eq!(rt; error.kind(), ErrorKind::BrokenPipe),
            Ok(_) => panic!(rt; "no error after {reads} reads"),
        }
        let front = bytes.get(..10 * reads as usize).ok_or("too many")?;
        assert_eq!(rt; state.digest(), xxh64(front));
    }
    Ok(())
}
