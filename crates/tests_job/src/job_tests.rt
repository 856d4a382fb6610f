//! Runs over a disk that fails, is full or crashes at each call in turn, and the run after each.

use crate::copying::Copying;
use crate::failing::{Calls, FailingDisk, FailingInput};
use crate::torn::{Outcome, TornDisk};
use soxchain_job::{Disk, Fault, Files, Pace, run_once};
use std::alloc::Global;

/// The bytes that are converted.
const BYTES: &[u8] = b"one two three four five";

/// More calls than a run makes.
const MANY: u32 = 1000;

/// Calls of the disk in a run: six before the first piece, six in each of four rounds, and nine at the end.
const CALLS: u32 = 39;

/// Two pieces of three bytes between two checkpoints.
const PACE: Pace = Pace { piece: 3, every: 2 };

/// What OUT has before the job.
const OLDER: &[u8] = b"older";

/// More changes than are not synced at a time.
const MANY_CHANGES: usize = 9;

/// More bytes than a run writes.
const MANY_BYTES: usize = 1000;

/// A run of the job. Nothing is known of its files.
fn run<D: Disk>(alloc: Global, disk: &mut D, input: &mut FailingInput) -> Result<(), Fault>
    requires { D.model.known → ⊥ }
{
    let mut conversion = Copying {};
    let mut pace = PACE;
    run_once(alloc, disk, &mut conversion, input, &mut pace)
}

/// An input whose call after so many fails.
fn input_of(alloc: Global, left: u32) -> Result<FailingInput, &'static str> {
    let Ok(bytes) = BYTES.to_vec(alloc) else {
        return Err("refused");
    };
    Ok(FailingInput {
        bytes,
        calls: Calls::new(left),
        delivered: 0,
        is_changed: false,
        is_confirmed: false,
    })
}

/// Is the output there, and nothing else?
fn is_complete(files: &Files) -> bool {
    let Some(out) = &files.out else {
        return false;
    };
    let no_part = files.part.is_none();
    let no_checkpoint = files.checkpoint.is_none();
    out.as_slice() == BYTES && no_part && no_checkpoint
}

/// A run over a disk that fails after so many calls, and then one to the end. Did the first one fail?
fn fails_then_ends(alloc: Global, left: u32) -> Result<bool, &'static str> {
    let mut disk = FailingDisk::new(alloc, left);
    let mut input = input_of(alloc, MANY)?;
    let first = run(alloc, &mut disk, &mut input);
    if disk.calls.failed == 0 {
        return match first {
            Ok(()) => Ok(false),
            Err(_fault) => Err("a fault of no call"),
        };
    }
    if first != Err(Fault::Disk) {
        return Err("the fault of the disk is not reported");
    }
    if run(alloc, &mut disk, &mut input).is_err() {
        return Err("the next run does not end");
    }
    if !is_complete(&disk.files) {
        return Err("the output is not complete");
    }
    Ok(true)
}

/// A run over a disk with so much space, and then one to the end. Did the first one fail?
fn is_full_then_ends(alloc: Global, space: usize) -> Result<bool, &'static str> {
    let mut disk = FailingDisk::new(alloc, MANY);
    disk.calls.space = space;
    let mut input = input_of(alloc, MANY)?;
    let first = run(alloc, &mut disk, &mut input);
    if disk.calls.failed == 0 {
        return Ok(false);
    }
    if first != Err(Fault::Disk) {
        return Err("the full disk is not reported");
    }
    if run(alloc, &mut disk, &mut input).is_err() {
        return Err("the next run does not end");
    }
    if !is_complete(&disk.files) {
        return Err("the output is not complete");
    }
    Ok(true)
}

/// Does OUT have the older bytes, or is it complete?
fn is_older_or_complete(files: &Files) -> bool {
    match &files.out {
        Some(out) => out.as_slice() == OLDER || out.as_slice() == BYTES,
        None => false,
    }
}

/// A run that crashes at a call. True where it has so many calls.
fn crashes(disk: &mut TornDisk, left: u32, outcome: Outcome) -> Result<bool, &'static str> {
    let alloc = disk.alloc;
    disk.calls = Calls::new(left);
    let mut input = input_of(alloc, MANY)?;
    let result = run(alloc, disk, &mut input);
    if disk.calls.failed == 0 {
        return match result {
            Ok(()) => Ok(false),
            Err(_fault) => Err("a fault of no call"),
        };
    }
    if disk.crash(outcome).is_err() {
        return Err("refused");
    }
    if !is_older_or_complete(&disk.files) {
        return Err("a crash leaves a part of the output");
    }
    Ok(true)
}

/// A run that crashes at the call after `first`, one that crashes at the call after `second`, and one to the end. True where the
/// first run has so many calls.
fn crashes_then_ends(
    alloc: Global,
    first: u32,
    second: u32,
    outcome: Outcome,
) -> Result<bool, &'static str> {
    let Ok(mut disk) = TornDisk::new(alloc, first, OLDER) else {
        return Err("refused");
    };
    if !crashes(&mut disk, first, outcome)? {
        return Ok(false);
    }
    if crashes(&mut disk, second, outcome)? {
        let mut input = input_of(alloc, MANY)?;
        disk.calls = Calls::new(MANY);
        if run(alloc, &mut disk, &mut input).is_err() {
            return Err("the last run does not end");
        }
    }
    if !is_complete(&disk.files) {
        return Err("the output is not complete");
    }
    Ok(true)
}

/// Each outcome of a crash at the call after `first`, and of a second one at the call after `second`.
fn each_outcome(alloc: Global, first: u32, second: u32) -> Result<bool, &'static str> {
    for kept in 0..MANY_CHANGES {
        for is_torn in [false, true] {
            let outcome = Outcome { kept, is_torn };
            if !crashes_then_ends(alloc, first, second, outcome)? {
                return Ok(false);
            }
        }
    }
    Ok(true)
}

#[test]
fn a_crash_at_each_call(rt: HostRuntime) -> Result<(), &'static str> {
    let alloc = rt.alloc();
    for first in 0..CALLS {
        if !each_outcome(alloc, first, MANY)? {
            return Err("the run makes fewer calls");
        }
    }
    if each_outcome(alloc, CALLS, MANY)? {
        return Err("the run makes more calls");
    }
    Ok(())
}

#[test]
fn two_crashes_at_each_two_calls(rt: HostRuntime) -> Result<(), &'static str> {
    let alloc = rt.alloc();
    for first in 0..CALLS {
        for second in 0..CALLS {
            each_outcome(alloc, first, second)?;
        }
    }
    Ok(())
}

#[test]
fn a_disk_that_is_full_at_each_size(rt: HostRuntime) -> Result<(), &'static str> {
    let alloc = rt.alloc();
    for space in 0..MANY_BYTES {
        if !is_full_then_ends(alloc, space)? {
            return if space > BYTES.len() {
                Ok(())
            } else {
                Err("the run writes too little")
            };
        }
    }
    Err("the run writes too much")
}

#[test]
fn a_disk_that_fails_at_each_call(rt: HostRuntime) -> Result<(), &'static str> {
    let alloc = rt.alloc();
    for left in 0..CALLS {
        if !fails_then_ends(alloc, left)? {
            return Err("the run makes fewer calls");
        }
    }
    if fails_then_ends(alloc, CALLS)? {
        return Err("the run makes more calls");
    }
    Ok(())
}

/// An input that is another one at the end of a run: nothing gets the name of the output. Once it is what it was, a run ends.
#[test]
fn an_input_that_changes(rt: HostRuntime) -> Result<(), &'static str> {
    let alloc = rt.alloc();
    let mut disk = FailingDisk::new(alloc, MANY);
    let mut input = input_of(alloc, MANY)?;
    input.is_changed = true;
    for _run in 0..2 {
        if run(alloc, &mut disk, &mut input) != Err(Fault::InputChanged) {
            return Err("the change of the input is not reported");
        }
        if disk.files.out.is_some() {
            return Err("there is an output");
        }
    }
    input.is_changed = false;
    if run(alloc, &mut disk, &mut input).is_err() {
        return Err("the last run does not end");
    }
    if !is_complete(&disk.files) {
        return Err("the output is not complete");
    }
    Ok(())
}

/// The input fails at each of eight reads in turn, and when it is to be confirmed.
#[test]
fn an_input_that_fails_at_each_read(rt: HostRuntime) -> Result<(), &'static str> {
    let alloc = rt.alloc();
    for left in 0..9 {
        let mut disk = FailingDisk::new(alloc, MANY);
        let mut input = input_of(alloc, left)?;
        if run(alloc, &mut disk, &mut input) != Err(Fault::Input) {
            return Err("the fault of the input is not reported");
        }
        if disk.files.out.is_some() {
            return Err("there is an output");
        }
        if run(alloc, &mut disk, &mut input).is_err() {
            return Err("the next run does not end");
        }
        if !is_complete(&disk.files) {
            return Err("the output is not complete");
        }
    }
    Ok(())
}
