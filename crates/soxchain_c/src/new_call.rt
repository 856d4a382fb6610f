//! How C makes a stream.
ghost use Rattle.std.specs.Prelude.{◌≡◌, ◌≢◌, ℕ, List, length, IfErr, IfOk, OnOk};
ghost use Rattle.fx_plan.specs.Line.{texts};
ghost use Rattle.fx_plan.specs.Plans.{plan_bytes};
ghost use Rattle.soxchain.specs.MessageWriter.{WritesMessage};
ghost use Rattle.soxchain_c.specs.Making.{IsStreamOf, LacksStream, MakeAnswers, NewAnswers, stream_line};
ghost use Rattle.soxchain_c.specs.Buffer.{filled};
ghost use Rattle.soxchain_c.specs.Status.{code};

use crate::asked::{Asked, read_asked, refuse};
use crate::bytes_out::put;
use crate::handle::Handle;
use crate::messages::Messages;
use crate::planning::{head_of, make_stream};
use crate::status::{Status, number_of};
use crate::stream_calls::put_back;
use crate::texts::TextFault;
use fx_frame::ByteOut;
use fx_sound::Head;
use soxchain_stream::Stream;
use std::alloc::Global;

/// The stream of words and files for the frames that the head describes, in its own memory; or what C gets back.
fn stream_for<M: ByteOut>(
    alloc: Global,
    asked: &Asked,
    head: &Head,
    messages: &mut M,
) -> Result<Box<Stream>, Status>
    ensures made { IfOk result (λ b.
        IsStreamOf (stream_line (texts asked.now.words.items)) (plan_bytes asked.now.files.items) head.now b.value) }
    ensures silent { OnOk result (messages.new ≡ messages.old) }
    ensures fault { IfErr result (λ status. status ≢ Status.Fine) }
    ensures lacks { IfErr result (LacksStream (stream_line (texts asked.now.words.items)) (plan_bytes asked.now.files.items) head.now
        (WritesMessage M.writes messages.old messages.new) (messages.new ≡ messages.old)) }
{
    let stream = match make_stream(alloc, &asked.words, &asked.files, head, messages) {
        Ok(stream) => stream,
        Err(1) => return Err(Status::Refused),
        Err(_) => return Err(Status::Failed),
    };
    match Box::new(alloc, stream) {
        Ok(stream) => Ok(stream),
        Err(_) => Err(Status::NoMemory),
    }
}

/// Makes the stream of words and files, where these could be read, and puts it into the handle; what C gets back.
fn make<M: ByteOut>(
    alloc: Global,
    asked: &Result<Asked, TextFault>,
    head: &Head,
    messages: &mut M,
    handle: &mut Handle,
) -> Status
    ensures { MakeAnswers asked.now head.now handle.old.value handle.new.value
        (WritesMessage M.writes messages.old messages.new) (messages.new ≡ messages.old) result }
{
    let asked = match asked {
        Ok(asked) => asked,
        Err(fault) => return refuse(messages, *fault),
    };
    match stream_for(alloc, asked, head, messages) {
        Ok(stream) => {
            put_back(handle, stream);
            Status::Fine
        }
        Err(status) => status,
    }
}

/// Makes the stream of effects, whose words are those after OUT, for frames of `channels` channels at this rate, and puts it
/// into the handle; a stream that was there is freed. Where it is refused, the handle is unchanged. The message is copied where
/// the buffer has space for all of it; `messages_length` gets its bytes.
#[unsafe(no_mangle)]
pub extern "C" fn soxchain_new(
    alloc: Global,
    words: &[u8],
    word_ends: &[usize],
    files: &[u8],
    file_ends: &[usize],
    rate: u32,
    channels: usize,
    messages: &mut [u8],
    messages_length: &mut usize,
    handle: &mut Handle,
) -> i32
    ensures { (status : Status) × (delivered : List ℕ) × (result ≡ code status)
        × (messages_length.new ≡ length delivered) × (messages.new ≡ filled delivered messages.old)
        × NewAnswers words.now word_ends.now files.now file_ends.now rate channels delivered
        handle.old.value handle.new.value status }
{
    *messages_length = 0;
    let head = match head_of(rate, channels) {
        Ok(head) => head,
        Err(status) => return number_of(status),
    };
    let mut delivered = Messages::new(alloc);
    let asked = read_asked(alloc, words, word_ends, files, file_ends);
    let status = make(alloc, &asked, &head, &mut delivered, handle);
    let delivered = delivered.into_text();
    *messages_length = delivered.as_slice().len();
    put(messages, delivered.as_slice());
    number_of(status)
}
