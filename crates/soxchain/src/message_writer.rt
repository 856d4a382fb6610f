//! Messages for a writer that may fail.
ghost use Rattle.std.specs.Prelude.{◌≡◌, ◌++◌, ◌<◌, MatchBool, false, true};
ghost use Rattle.std.specs.Io.KnownBytes.{Appends};
ghost use Rattle.soxchain.specs.Messages.{line_feed};
ghost use Rattle.soxchain.specs.Saying.{BeginsMessage, Says};
ghost use Rattle.soxchain.specs.MessageWriter.{ReportsFront};

use fx_frame::{ByteOut, Failed};

/// The writer of the messages, and whether it has failed. After that nothing more is written to it.
#[derive(Drop)]
pub struct MessageWriter<'a, M> {
    pub messages: &'a mut M,
    pub has_failed: bool,
}

impl<'a, M: ByteOut> MessageWriter<'a, M> {
    /// Before the first message.
    pub fn new(messages: &'a mut M) -> MessageWriter<'a, M>
        ensures { BeginsMessage messages.entry result }
    {
        MessageWriter {
            messages,
            has_failed: false,
        }
    }

    /// Appends a text, unless the writer has failed.
    pub fn text(&mut self, text: &str)
        ensures { Says M.writes self.old self.new text.now }
    {
        if self.has_failed {
            return;
        }
        let is_whole = write_text(self.messages, text.as_bytes());
        self.has_failed = !is_whole;
    }

    /// Writes the subject of a line, its text, and the end of the line.
    pub fn note(&mut self, subject: &str, what: &str)
        ensures { Says M.writes self.old self.new (subject.now ++ what.now ++ line_feed) }
    {
        self.text(subject);
        self.text(what);
        self.text("\n");
    }

    /// Writes five texts, one after the other.
    pub fn sentence(&mut self, subject: &str, label: &str, link: &str, value: &str, end: &str)
        ensures { Says M.writes self.old self.new (subject.now ++ label.now ++ link.now ++ value.now ++ end.now) }
    {
        self.text(subject);
        self.text(label);
        self.text(link);
        self.text(value);
        self.text(end);
    }
}

/// Writes all bytes, and flushes them: `false` where one call of the writer failed, which then has a prefix of them.
pub fn write_whole<W: ByteOut>(writer: &mut W, bytes: &[u8]) -> bool
    ensures whole { result ≡ true → Appends (W.writes.taken writer.old) (W.writes.taken writer.new) bytes.now }
    ensures flushed { result ≡ true → W.writes.flushed writer.new ≡ true }
    ensures unfailed { result ≡ true → W.writes.failures writer.new ≡ W.writes.failures writer.old }
    ensures front { result ≡ false → ReportsFront W.writes writer.old writer.new bytes.now }
{
    write_text(writer, bytes) && writer.flush().is_ok()
}

// Writes a whole text: `false` where the writer failed before the end.
fn write_text<M: ByteOut>(messages: &mut M, text: &[u8]) -> bool
    ensures { MatchBool result
        ((Appends (M.writes.taken messages.old) (M.writes.taken messages.new) text.now) × (M.writes.failures messages.new ≡ M.writes.failures messages.old))
        (ReportsFront M.writes messages.old messages.new text.now) }
{
    let mut delivered = 0;
    while delivered < text.len() {
        match messages.write(&text[delivered..]) {
            Ok(n) => delivered += n,
            Err(Failed) => return false,
        }
    }
    true
}
