//! The words and files of a call, and why they cannot be read.
ghost use Rattle.std.specs.Prelude.{◌≡◌, ◌≢◌, IfErr, IfOk, OnOk};
ghost use Rattle.fx_plan.specs.Line.{texts};
ghost use Rattle.fx_plan.specs.Plans.{plan_bytes};
ghost use Rattle.soxchain.specs.Messages.{line_label, line_message};
ghost use Rattle.soxchain.specs.MessageWriter.{WritesMessage};
ghost use Rattle.soxchain_c.specs.Asked.{FaultAnswers, IsFault};
ghost use Rattle.soxchain_c.specs.Texts.{AreEnds, AreTexts, cut};

use crate::status::Status;
use crate::texts::{TextFault, read_files, read_words};
use fx_frame::ByteOut;
use fx_plan::LineFault;
use soxchain::inner::{MessageWriter, label_of_line, tell_line};
use std::alloc::Global;

/// The words and files of a call.
#[derive(Drop)]
pub struct Asked {
    pub words: Vec<String>,
    pub files: Vec<Vec<u8>>,
}

/// The words and files that lie in bytes, each up to its end; or the first fault, of the words before that of the files.
pub fn read_asked(
    alloc: Global,
    words: &[u8],
    word_ends: &[usize],
    files: &[u8],
    file_ends: &[usize],
) -> Result<Asked, TextFault>
    ensures words { IfOk result (λ a. texts a.words.items ≡ cut words.now 0 word_ends.now) }
    ensures files { IfOk result (λ a. plan_bytes a.files.items ≡ cut files.now 0 file_ends.now) }
    ensures ends { OnOk result (AreEnds words.now 0 word_ends.now × AreEnds files.now 0 file_ends.now) }
    ensures texts { OnOk result (AreTexts (cut words.now 0 word_ends.now)) }
    ensures fault { IfErr result (λ fault. IsFault fault words.now word_ends.now files.now file_ends.now) }
{
    let words = match read_words(alloc, words, word_ends) {
        Ok(words) => words,
        Err(fault) => return Err(fault),
    };
    match read_files(alloc, files, file_ends) {
        Ok(files) => Ok(Asked { words, files }),
        Err(fault) => Err(fault),
    }
}

/// Reports why a line is refused.
fn tell_refused<M: ByteOut>(messages: &mut M, fault: LineFault)
    ensures { WritesMessage M.writes messages.old messages.new (line_message (line_label fault)) }
{
    let mut message_writer = MessageWriter::new(messages);
    tell_line(&mut message_writer, label_of_line(fault));
}

/// The status of words and files that cannot be read, and a message: a word that is not UTF-8 and lack of memory are reported
/// as the program reports them.
pub fn refuse<M: ByteOut>(messages: &mut M, fault: TextFault) -> Status
    ensures fault { result ≢ Status.Fine }
    ensures answers { FaultAnswers fault (WritesMessage M.writes messages.old messages.new)
        (messages.new ≡ messages.old) result }
{
    match fault {
        TextFault::BadEnds => Status::BadEnds,
        TextFault::NotText => {
            tell_refused(messages, LineFault::BadOption);
            Status::Refused
        }
        TextFault::Memory => {
            tell_refused(messages, LineFault::Memory);
            Status::Failed
        }
    }
}
