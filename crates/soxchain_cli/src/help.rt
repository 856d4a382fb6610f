//! What the program prints about itself, on standard output.
ghost use Rattle.soxchain_cli.specs.Named.{file_writer};
ghost use Rattle.soxchain_cli.specs.Working.{IsShown, devices};

use crate::files::cannot_open;
use crate::host::Host;
use fx_frame::ByteOut;
use soxchain::inner::{MessageWriter, write_whole};
use soxchain_common::{Console, effects};

/// The answer to `--help`, from the table of effects.
macro_rules! help {
    ($({ name: $name:literal, help_line: $help_line:literal, $($rest:tt)* })*) => {
        concat!(
            "usage: soxchain [-D] [-t wav|au] IN [-D] [-t wav|au] [-b 8|16|24|32] OUT
                [EFFECT [WORD ..] ..]
       soxchain --help | --version

Puts the sound of IN (WAVE or AU) through the effects, in their order, into OUT.
As IN or OUT, - is standard input or standard output.

  -t KIND   the container of the file behind it: wav or au
            (else IN is looked at, and OUT has to end in .wav, .au or .snd)
  -b BITS   the bits of a sample of OUT: 8, 16, 24 or 32 (else those of IN)
  -D        nothing: no dither is ever added

effects:
",
            $("  ", $help_line, "\n",)*
            "
status: 0 done, 1 the words are refused, 2 any other fault
Each fault and each warning is one line on standard error.

soxchain-plan says in advance, with the same words, what a chain would do.
The manual: man soxchain
"
        )
    };
}

/// The answer to `--help`.
pub const HELP: &str = effects!(help);

/// Writes an answer to standard output, and returns the status.
pub fn tell_answer<H: Host, M: ByteOut>(
    host: &mut H,
    answer: &str,
    message_writer: &mut MessageWriter<M>,
) -> u8
    ensures { IsShown (devices H.Input.reads H.Reader.reads H.Output.writes (file_writer H.Made.writes H.Made.rewinds))
        H.machine H.looks H.file_calls M.writes answer.now host.old host.new
        message_writer.old message_writer.new result }
{
    let mut output = host.output();
    let is_whole = write_whole(&mut output, answer.as_bytes());
    host.leave(output);
    if is_whole {
        0
    } else {
        cannot_open(message_writer, "-")
    }
}
