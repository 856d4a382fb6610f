//! Names and texts as they are shown.
ghost use Rattle.std.specs.Prelude.{◌≡◌, ◌*◌, OnOk};
ghost use Rattle.std.specs.Io.BufRead.{strip_last};
ghost use Rattle.std.specs.Io.KnownBytes.{Appends};
ghost use Rattle.fx_frame_base.specs.Coding.{width_of};
ghost use Rattle.soxchain_plan.specs.Quoted.{json_byte, json_string, kind_text, stop_json};

use fx_frame::Coding;
use fx_sound::Kind;
use std::io;
use std::io::Write;

/// The name of a kind, as `-t` takes it.
pub fn name_of_kind(kind: Kind) -> &'static str
    ensures { result.now ≡ kind_text kind }
{
    match kind {
        Kind::Wav => "wav",
        Kind::Au => "au",
    }
}

/// The bits of a sample.
pub fn bits_of(coding: Coding) -> usize
    ensures { result ≡ 8 * width_of coding }
{
    8 * coding.width()
}

/// Shows a byte within a JSON string. The bytes of a character beyond ASCII are unchanged.
fn show_byte<W: Write>(writer: &mut W, byte: u8) -> io::Result<()>
    ensures { OnOk result (Appends (W.contents writer.old) (W.contents writer.new) (json_byte byte)) }
{
    match byte {
        b'"' => writer.write_all(b"\\\""),
        b'\\' => writer.write_all(b"\\\\"),
        0..=31 => write!(writer, "\\u00{byte:02x}"),
        _ => writer.write_all(&[byte]),
    }
}

/// A text without one line feed at its end.
fn without_line_feed(text: &[u8]) -> &[u8]
    ensures { result.now ≡ strip_last 10 text.now }
{
    match text.split_last() {
        Some((b'\n', line)) => line,
        _ => text,
    }
}

/// Shows a text as a JSON string, without one line feed at its end.
fn show_string<W: Write>(writer: &mut W, text: &[u8]) -> io::Result<()>
    ensures { OnOk result (Appends (W.contents writer.old) (W.contents writer.new) (json_string text.now)) }
{
    write!(writer, "\"")?;
    let line = without_line_feed(text);
    for byte in line.iter() {
        show_byte(writer, *byte)?;
    }
    write!(writer, "\"")
}

/// Shows why there is no plan, as one JSON object with the status, the message without one line feed at its end and what to do.
/// After an `Err` the writer may have any prefix of it.
pub fn show_stop<W: Write>(
    writer: &mut W,
    status: u8,
    message: &[u8],
    advice: &[u8],
) -> io::Result<()>
    ensures { OnOk result (Appends (W.contents writer.old) (W.contents writer.new)
        (stop_json status message.now advice.now)) }
{
    write!(writer, "{{\"status\": {status}, \"message\": ")?;
    show_string(writer, message)?;
    write!(writer, ", \"advice\": ")?;
    show_string(writer, advice)?;
    writeln!(writer, "}}")
}
