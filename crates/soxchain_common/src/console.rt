//! The host that a program works on: its words and its standard streams.
ghost use Rattle.std.specs.Prelude.{IfErr, IfOk, ⊤};
ghost use Rattle.std.specs.IoError.{error_kind};
ghost use Rattle.fx_plan.specs.Line.{texts};
ghost use Rattle.soxchain_common.specs.Consoles.{IsNewWriter, IsNewReader, Machine};

use crate::files::Openings;
use crate::words::words_of;
use fx_frame::{ByteIn, ByteOut, Counted};
use std::alloc::Global;
use std::fs::File;
use std::io::{Stdin, Stdout};
use std::os::fd::AsRawFd;
use std::{io, mem};

/// What both programs ask of the host. What a program does with the answers is proved over any such host. Every call may change
/// the state of the host, as with `Openings`: so the proved statement names all that the program asks, in order. Its streams
/// count the calls that failed: so no program can report a failure where there was none.
pub trait Console: Openings {
    /// Standard input.
    type Input: ByteIn + Drop;

    /// Standard output.
    type Output: ByteOut + Drop;

    // What the host answered to the call between the old and the new state.
    ghost machine: { Self → Self → Machine Self.Input Self.Output };

    /// The allocator.
    fn memory(&self) -> Global;

    /// The words after the program's name.
    fn words(&mut self) -> io::Result<Vec<String>>
        ensures words { IfOk result (λ words. (machine self.old self.new).asked (texts words.items)) }
        ensures refused { IfErr result (λ error. (machine self.old self.new).mute (error_kind error)) };

    /// Standard input.
    fn input(&mut self) -> Self::Input
        ensures input { (machine self.old self.new).is_input result }
        ensures fresh { IsNewReader Self.Input.reads result };

    /// Standard output.
    fn output(&mut self) -> Self::Output
        ensures output { (machine self.old self.new).is_output result }
        ensures fresh { IsNewWriter Self.Output.writes result };

    /// Ends the use of standard output: nothing more is written to it.
    fn leave(&mut self, output: Self::Output)
        ensures { (machine self.old self.new).left output };
}

/// Opens the standard streams that are closed, so that no file takes their number and gets the messages. Such a stream has no
/// bytes, and takes none. No contract states that: nothing is known of the streams of the host.
fn hold_streams(rt: &HostRuntime) {
    for _stream in 0..3 {
        let Ok(file) = File::open(rt, "/dev/null") else {
            return;
        };
        if file.as_raw_fd() > 2 {
            return;
        }
        mem::forget(file);
    }
}

impl Console for HostRuntime {
    type Input = Counted<Stdin>;

    type Output = Counted<Stdout>;

    // Nothing is known of the host itself.
    ghost machine = { λ _ _. record { asked = λ _. ⊤; mute = λ _. ⊤; is_input = λ _. ⊤; is_output = λ _. ⊤; left = λ _. ⊤ } };

    fn memory(&self) -> Global {
        self.alloc()
    }

    fn words(&mut self) -> io::Result<Vec<String>> {
        hold_streams(self);
        words_of(self)
    }

    fn input(&mut self) -> Counted<Stdin> {
        Counted::new(self.stdin())
    }

    fn output(&mut self) -> Counted<Stdout> {
        Counted::new(self.stdout())
    }

    fn leave(&mut self, _output: Counted<Stdout>) {}
}
