//! The host that the program works on: its words, its standard streams and its files.
ghost use Rattle.std.specs.Prelude.{IfErr, IfOk, ⊤};
ghost use Rattle.fx_chain.specs.Chain.{IsNewChain};
ghost use Rattle.fx_plan.specs.Planning.{planning};
ghost use Rattle.soxchain_cli.specs.SameFile.{FileCalls};
ghost use Rattle.soxchain_common.specs.Consoles.{IsNewWriter};

use fx_frame::Counted;
use fx_frame_base::Rewind;
use soxchain::inner::Prepared;
use soxchain_common::{Console, Inspects};
use std::fs::File;
use std::io;

/// A host that also inspects and creates files. Every call may change its state, inspections included.
pub trait Host: Console + Inspects {
    /// A created file.
    type Made: Rewind + Drop;

    // Which files it created, refused to create and took back.
    ghost file_calls: { FileCalls Self Self.Made };

    /// Creates the file of this name, or empties an older one, once a new chain exists.
    fn make(&mut self, name: &str, prepared: &Prepared) -> io::Result<Self::Made>
        requires { IsNewChain (planning prepared.now.plan) prepared.now.chain }
        ensures made { IfOk result (λ file. file_calls.made self.old self.new name.now file) }
        ensures fresh { IfOk result (IsNewWriter Self.Made.writes) }
        ensures refused { IfErr result (λ _. file_calls.unmade self.old self.new name.now) };

    /// Ends the use of a created file: nothing more is written to it.
    fn close(&mut self, file: Self::Made)
        ensures { file_calls.closed self.old self.new file };
}

impl Host for HostRuntime {
    type Made = Counted<File>;

    // Nothing is known of the files of the host itself.
    ghost file_calls = { record { made = λ _ _ _ _. ⊤; unmade = λ _ _ _. ⊤; closed = λ _ _ _. ⊤ } };

    fn make(&mut self, name: &str, _prepared: &Prepared) -> io::Result<Counted<File>> {
        Ok(Counted::new(File::create(self, name)?))
    }

    fn close(&mut self, _file: Counted<File>) {}
}
