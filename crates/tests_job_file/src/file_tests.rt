//! A job's file beside bytes that were made outside.
use soxchain_job_file::{
    Difference, Identity, JobFileFault, Runs, Stamp, begins_as_job_file, difference,
    keep_checkpoint, read_job_file, write_job_file,
};
use std::alloc::{AllocError, Global};
use std::io::{self, ErrorKind, Write};
use std::test::Fail;

/// The file of the identity below with the checkpoint `check`; its hash is of the program xxhsum.
const BYTES: &[u8] = b"soxchain-job 2\n\
    \x03\0\0\0\0\0\0\0\x06\0\0\0\0\0\0\0in.wav\0\0\0\0\0\0\0\0\x02\0\0\0\0\0\0\0\xc3\xa9\
    \x02\0\0\0\0\0\0\0\x07\0\0\0\0\0\0\0\xff\xff\xff\xff\xff\xff\xff\xff\
    \x2c\0\0\0\0\0\0\0\xfb\xff\xff\xff\xff\xff\xff\xff\xff\xc9\x9a\x3b\0\0\0\0\
    \0\xf1\x53\x65\0\0\0\0\x03\0\0\0\0\0\0\0\x05\0\0\0\0\0\0\0check\
    \x05\x98\x2c\xca\xc7\x35\x44\xfc";

const RUNS: Runs = Runs {
    began: 1_700_000_000,
    count: 3,
};

const MODIFIED: Stamp = Stamp {
    seconds: -5,
    nanoseconds: 999_999_999,
};

fn identity(alloc: Global) -> Result<Identity, AllocError> {
    let mut words = Vec::new(alloc);
    for word in ["in.wav", "", "\u{e9}"] {
        words.push(String::from_str(alloc, word)?)?;
    }
    Ok(Identity {
        words,
        files: [7, u64::MAX].to_vec(alloc)?,
        size: 44,
        modified: MODIFIED,
    })
}

/// A writer that takes so many bytes, then fails.
#[derive(Drop)]
struct Full {
    left: usize,
}

impl Write for Full {
    fn write(&mut self, bytes: &[u8]) -> io::Result<usize> {
        let count = bytes.len().min(self.left);
        if count == 0 {
            return Err(ErrorKind::StorageFull.into());
        }
        self.left -= count;
        Ok(count)
    }

    fn flush(&mut self) -> io::Result<()> {
        Ok(())
    }
}

#[test]
fn writes(rt: HostRuntime) -> Result<(), Fail> {
    let mut bytes = Vec::new(rt.alloc());
    write_job_file(
        rt.alloc(),
        &mut bytes,
        &identity(rt.alloc())?,
        RUNS,
        b"check",
    )?;
    assert_eq!(rt; bytes.as_slice(), BYTES);
    Ok(())
}

#[test]
fn failed_writes(rt: HostRuntime) -> Result<(), Fail> {
    let identity = identity(rt.alloc())?;
    for left in 0..BYTES.len() {
        let mut writer = Full { left };
        match write_job_file(rt.alloc(), &mut writer, &identity, RUNS, b"check") {
            Err(error) => assert_eq!(rt; error.kind(), ErrorKind::StorageFull),
            Ok(()) => panic!(rt; "no error after {left} bytes"),
        }
    }
    Ok(())
}

#[test]
fn reads(rt: HostRuntime) -> Result<(), Fail> {
    let file = read_job_file(rt.alloc(), BYTES)?;
    assert_eq!(rt; difference(&file.identity, &identity(rt.alloc())?), None);
    assert_eq!(rt; file.runs, RUNS);
    assert_eq!(rt; file.checkpoint, b"check".as_slice());
    let size = file.checkpoint.len();
    let mut bytes = BYTES.to_vec(rt.alloc())?;
    keep_checkpoint(&mut bytes, size);
    assert_eq!(rt; bytes.as_slice(), b"check".as_slice());
    Ok(())
}

/// Why these bytes are not read.
fn fault(alloc: Global, bytes: &[u8]) -> Option<JobFileFault> {
    read_job_file(alloc, bytes).err()
}

#[test]
fn damaged(rt: HostRuntime) -> Result<(), Fail> {
    for size in 15..BYTES.len() {
        let front = BYTES.get(..size).ok_or("too long")?;
        assert_eq!(rt;
            fault(rt.alloc(), front),
            Some(JobFileFault::Damaged),
            "{size} bytes"
        );
        let mut bytes = BYTES.to_vec(rt.alloc())?;
        if let Some(byte) = bytes.get_mut(size) {
            *byte ^= 1;
        }
        assert_eq!(rt;
            fault(rt.alloc(), &bytes),
            Some(JobFileFault::Damaged),
            "byte {size}"
        );
    }
    let mut bytes = BYTES.to_vec(rt.alloc())?;
    bytes.push(0)?;
    assert_eq!(rt; fault(rt.alloc(), &bytes), Some(JobFileFault::Damaged));
    Ok(())
}

#[test]
fn other_versions(rt: HostRuntime) {
    let alloc = rt.alloc();
    assert_eq!(rt;
        fault(alloc, b"soxchain-job 3\nmore"),
        Some(JobFileFault::Version(3))
    );
    assert_eq!(rt;
        fault(alloc, b"soxchain-job 10\n"),
        Some(JobFileFault::Version(10))
    );
    let json = b"{\"soxchain-job\":1,\"job\":{}}";
    assert_eq!(rt; fault(alloc, json), Some(JobFileFault::Version(1)));
    assert_eq!(rt;
        fault(alloc, b"soxchain-job 3"),
        Some(JobFileFault::Damaged)
    );
    assert_eq!(rt;
        fault(alloc, b"soxchain-job x\n"),
        Some(JobFileFault::Damaged)
    );
    assert_eq!(rt; fault(alloc, b"RIFF"), Some(JobFileFault::Foreign));
    assert_eq!(rt; fault(alloc, b""), Some(JobFileFault::Foreign));
}

#[test]
fn beginnings(rt: HostRuntime) {
    assert!(rt; begins_as_job_file(BYTES));
    assert!(rt; begins_as_job_file(b"soxchain-jo"));
    assert!(rt; begins_as_job_file(b""));
    assert!(rt; !begins_as_job_file(b"soxchain-job 3\n"));
    assert!(rt; !begins_as_job_file(b"RIFF"));
}

#[test]
fn differences(rt: HostRuntime) -> Result<(), Fail> {
    let own = identity(rt.alloc())?;
    let mut other = identity(rt.alloc())?;
    other.modified.nanoseconds = 0;
    assert_eq!(rt; difference(&other, &own), Some(Difference::Time));
    other.size = 45;
    assert_eq!(rt; difference(&other, &own), Some(Difference::Length));
    other.files.push(0)?;
    assert_eq!(rt; difference(&other, &own), Some(Difference::Coefficients));
    other.words.push(String::new(rt.alloc()))?;
    assert_eq!(rt; difference(&other, &own), Some(Difference::Words));
    Ok(())
}

#[test]
fn messages(rt: HostRuntime) -> Result<(), Fail> {
    let text = format!(in rt.alloc(); "{}", JobFileFault::Version(3))?;
    assert_eq!(rt; text.as_str(), "it is of version 3");
    let text = format!(in rt.alloc(); "{}", JobFileFault::Damaged)?;
    assert_eq!(rt; text.as_str(), "it is damaged");
    Ok(())
}
