//! What the program prints about itself.

use soxchain_common::effects;

/// The answer to `--help`, from the table of effects.
macro_rules! help {
    ($({ name: $name:literal, $($rest:tt)* })*) => {
        concat!(
            "usage: soxchain-plan [--json] WORD ..
       soxchain-plan --help | --version

Says what soxchain would do with the same words, and changes nothing. Of IN only
the head is read; OUT is not made, but refused where soxchain could not make it.

For IN and OUT it prints kind, rate, channels, bits and frames; for each effect
and for the chain the frames that it may hold, with the bytes of their samples;
and by how many frames of its input an effect gives later than it takes, in
milliseconds too. Lengths are those of a sound as long as its head announces. A
warning tells of an output without a frame, of a WAVE without a size, and of
bytes after the end that a WAVE announces.

  --json    as the first word: prints the same as one JSON object

A refusal has the message and the status of soxchain, and then a line that says
what to do.

effects (soxchain --help has their words):
 ",
            $(" ", $name,)*
            "

status: 0 there is a plan, 1 the words are refused, 2 any other fault
The manual: man soxchain-plan
"
        )
    };
}

/// The answer to `--help`.
pub const HELP: &str = effects!(help);
