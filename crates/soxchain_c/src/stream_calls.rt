//! Streams, to C: a handle owns a stream, or is null.
ghost use Rattle.std.specs.Prelude.{◌≡◌, IfSome, MatchOption, None, Some};
ghost use Rattle.fx_plan_effects.specs.Bounds.{hold_all};
ghost use Rattle.soxchain_c.specs.Calls.{ChangesStream, EndAnswers, FeedAnswers, FreezeAnswers, ThawAnswers, nothing_passed};
ghost use Rattle.soxchain_c.specs.Status.{code};
ghost use Rattle.soxchain_stream.specs.Streams.{stream_clips, held_in, wait_number};

use crate::bytes_out::put;
use crate::handle::Handle;
use crate::loose::Loose;
use crate::status::{Status, number_of};
use fx_frame::{Passed, ThawFault};
use soxchain_stream::{FeedFault, Stream, Waits};
use std::alloc::Global;
use std::mem;

/// How many frames a call took and gave, and what the stream then waits for: 0 for frames or the end, 1 for space in the
/// output, 2 for nothing, since all was given, 3 for the end, since no frame changes what is still to be given.
#[repr(C)]
#[derive(Drop)]
pub struct SoxchainPassed {
    pub taken: usize,
    pub given: usize,
    pub waits: u32,
}

/// The number of what a stream waits for.
fn number_of_wait(waits: Waits) -> u32
    ensures { result ≡ wait_number waits }
{
    match waits {
        Waits::Frames => 0,
        Waits::Output => 1,
        Waits::Nothing => 2,
        Waits::End => 3,
    }
}

/// Takes the stream out of a handle, which is then at null.
fn take(alloc: Global, handle: &mut Handle) -> Option<Box<Stream>>
    ensures taken { MatchOption result (handle.old.value ≡ None) (λ b. handle.old.value ≡ Some b.value) }
    ensures empty { handle.new.value ≡ None }
{
    let empty = Handle::empty(alloc);
    let old = mem::replace(handle, empty);
    match old.open() {
        Some(loose) => Some(loose.into_box()),
        None => None,
    }
}

/// Puts a stream into a handle, and frees the one that was there.
pub(crate) fn put_back(handle: &mut Handle, stream: Box<Stream>)
    ensures { handle.new.value ≡ Some stream.value }
{
    let old = mem::replace(handle, Handle::keep(Loose::of(stream)));
    if let Some(loose) = old.open() {
        let _old = loose.into_box();
    }
}

/// The frames that the stream holds; 0 where there is none.
#[unsafe(no_mangle)]
pub extern "C" fn soxchain_held(alloc: Global, handle: &mut Handle) -> u64
    ensures value { MatchOption handle.old.value (result ≡ 0) (λ s. result ≡ held_in s) }
    ensures same { handle.new.value ≡ handle.old.value }
{
    let Some(stream) = take(alloc, handle) else {
        return 0;
    };
    let held = stream.held();
    put_back(handle, stream);
    held
}

/// The frames that the stream may hold; 0 where there is none.
#[unsafe(no_mangle)]
pub extern "C" fn soxchain_hold(alloc: Global, handle: &mut Handle) -> u64
    ensures value { MatchOption handle.old.value (result ≡ 0) (λ s. result ≡ hold_all s.chain.plan.acts) }
    ensures same { handle.new.value ≡ handle.old.value }
{
    let Some(stream) = take(alloc, handle) else {
        return 0;
    };
    let hold = stream.hold();
    put_back(handle, stream);
    hold
}

/// The samples that effect `number`, counted from 1, clipped; 0 where there is no such effect, or no stream.
#[unsafe(no_mangle)]
pub extern "C" fn soxchain_clips(alloc: Global, handle: &mut Handle, number: usize) -> u64
    ensures value { MatchOption handle.old.value (result ≡ 0) (λ s. result ≡ stream_clips s number) }
    ensures same { handle.new.value ≡ handle.old.value }
{
    let Some(stream) = take(alloc, handle) else {
        return 0;
    };
    let clips = stream.clips(number);
    put_back(handle, stream);
    clips
}

/// Frames per second that the stream gives; 0 where there is none.
#[unsafe(no_mangle)]
pub extern "C" fn soxchain_rate(alloc: Global, handle: &mut Handle) -> u32
    ensures value { MatchOption handle.old.value (result ≡ 0) (λ s. result ≡ s.chain.plan.layout.rate) }
    ensures same { handle.new.value ≡ handle.old.value }
{
    let Some(stream) = take(alloc, handle) else {
        return 0;
    };
    let rate = stream.rate();
    put_back(handle, stream);
    rate
}

/// Samples per frame that the stream gives; 0 where there is none.
#[unsafe(no_mangle)]
pub extern "C" fn soxchain_channels(alloc: Global, handle: &mut Handle) -> usize
    ensures value { MatchOption handle.old.value (result ≡ 0) (λ s. result ≡ s.chain.plan.layout.channels) }
    ensures same { handle.new.value ≡ handle.old.value }
{
    let Some(stream) = take(alloc, handle) else {
        return 0;
    };
    let channels = stream.outputs();
    put_back(handle, stream);
    channels
}

/// Frees the stream. The handle is then at null.
#[unsafe(no_mangle)]
pub extern "C" fn soxchain_free(alloc: Global, handle: &mut Handle)
    ensures { handle.new.value ≡ None }
{
    let _stream = take(alloc, handle);
}

/// Feeds a stream; what it returns.
fn feed_stream(
    stream: &mut Stream,
    input: &[i32],
    output: &mut [i32],
    passed: &mut SoxchainPassed,
) -> Status
    ensures { FeedAnswers stream.old stream.new input.now output.old output.new passed.new result }
{
    let fed = stream.feed(input, output);
    let waits = number_of_wait(stream.waits());
    let (taken, given, status) = match fed {
        Ok(Passed { taken, given }) => (taken, given, Status::Fine),
        Err(FeedFault::PartOfFrame) => (0, 0, Status::PartOfFrame),
        Err(FeedFault::TooLong) => (0, 0, Status::TooLong),
    };
    *passed = SoxchainPassed {
        taken,
        given,
        waits,
    };
    status
}

/// Takes frames from the front of the input, and writes those that are given to the front of the output: samples of frames lie
/// one after another, and lengths are counted in samples.
#[unsafe(no_mangle)]
pub extern "C" fn soxchain_feed(
    alloc: Global,
    handle: &mut Handle,
    input: &[i32],
    output: &mut [i32],
    passed: &mut SoxchainPassed,
) -> i32
    ensures none { handle.old.value ≡ None → (result ≡ code Status.NoStream) × (handle.new.value ≡ None)
        × (output.new ≡ output.old) × (passed.new ≡ nothing_passed) }
    ensures fed { IfSome handle.old.value (λ s. ChangesStream handle.new.value result (λ t.
        FeedAnswers s t input.now output.old output.new passed.new)) }
{
    let Some(mut stream) = take(alloc, handle) else {
        *passed = SoxchainPassed {
            taken: 0,
            given: 0,
            waits: 0,
        };
        return number_of(Status::NoStream);
    };
    let status = feed_stream(&mut stream, input, output, passed);
    put_back(handle, stream);
    number_of(status)
}

/// Gives a stream the end; what it returns.
fn end_stream(stream: &mut Stream) -> Status
    ensures { EndAnswers stream.old stream.new result }
{
    if stream.end() {
        Status::Fine
    } else {
        Status::NotWaiting
    }
}

/// Gives the stream the end: no frame will come; then `soxchain_feed` gives what is left.
#[unsafe(no_mangle)]
pub extern "C" fn soxchain_end(alloc: Global, handle: &mut Handle) -> i32
    ensures none { handle.old.value ≡ None → (result ≡ code Status.NoStream) × (handle.new.value ≡ None) }
    ensures ended { IfSome handle.old.value (λ s. ChangesStream handle.new.value result (EndAnswers s)) }
{
    let Some(mut stream) = take(alloc, handle) else {
        return number_of(Status::NoStream);
    };
    let status = end_stream(&mut stream);
    put_back(handle, stream);
    number_of(status)
}

/// Freezes a stream; what it returns.
fn freeze_stream(alloc: Global, stream: &Stream, buffer: &mut [u8], length: &mut usize) -> Status
    ensures { FreezeAnswers stream.now buffer.old buffer.new length.new result }
{
    match stream.freeze(alloc) {
        Ok(bytes) => {
            *length = bytes.len();
            put(buffer, &bytes);
            Status::Fine
        }
        Err(_) => {
            *length = 0;
            Status::NoMemory
        }
    }
}

/// The stream as bytes, which are copied where the output buffer has space for all of them; `length` gets their number.
#[unsafe(no_mangle)]
pub extern "C" fn soxchain_freeze(
    alloc: Global,
    handle: &mut Handle,
    buffer: &mut [u8],
    length: &mut usize,
) -> i32
    ensures same { handle.new.value ≡ handle.old.value }
    ensures none { handle.old.value ≡ None
        → (result ≡ code Status.NoStream) × (buffer.new ≡ buffer.old) × (length.new ≡ 0) }
    ensures frozen { IfSome handle.old.value (λ s. (status : Status) × (result ≡ code status)
        × FreezeAnswers s buffer.old buffer.new length.new status) }
{
    let Some(stream) = take(alloc, handle) else {
        *length = 0;
        return number_of(Status::NoStream);
    };
    let status = freeze_stream(alloc, &stream, buffer, length);
    put_back(handle, stream);
    number_of(status)
}

/// Thaws a stream; what it returns.
fn thaw_stream(alloc: Global, stream: &mut Stream, bytes: &[u8]) -> Status
    ensures { ThawAnswers stream.old stream.new bytes.now result }
{
    match stream.thaw(alloc, bytes) {
        Ok(()) => Status::Fine,
        Err(ThawFault::Memory) => Status::NoMemory,
        Err(ThawFault::WrongPlan | ThawFault::BadSnapshot) => Status::BadSnapshot,
    }
}

/// Continues from a stream that was frozen to these bytes: it must be made of the same words, files, rate and channels.
#[unsafe(no_mangle)]
pub extern "C" fn soxchain_thaw(alloc: Global, handle: &mut Handle, bytes: &[u8]) -> i32
    ensures none { handle.old.value ≡ None → (result ≡ code Status.NoStream) × (handle.new.value ≡ None) }
    ensures thawed { IfSome handle.old.value (λ s.
        ChangesStream handle.new.value result (λ t. ThawAnswers s t bytes.now)) }
{
    let Some(mut stream) = take(alloc, handle) else {
        return number_of(Status::NoStream);
    };
    let status = thaw_stream(alloc, &mut stream, bytes);
    put_back(handle, stream);
    number_of(status)
}
