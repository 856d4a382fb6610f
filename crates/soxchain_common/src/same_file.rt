//! Whether OUT is the file that is read, by device and inode.
ghost use Rattle.std.specs.Prelude.{◌≡◌, false, true, ⊤};
ghost use Rattle.fx_plan.specs.CommandLines.{name_in};
ghost use Rattle.soxchain_common.specs.SameFile.{AreOne, IsInput, IsNotInput, Looks, source_name};

use fx_plan::Endpoint;
use std::fs;
use std::os::unix::fs::MetadataExt;

/// The name of standard input among the files.
const STANDARD_INPUT: &str = "/dev/stdin";

/// What distinguishes one file from another, and how long it is.
#[derive(Clone, Copy, Debug, Drop, PartialEq, Eq)]
pub struct Identity {
    /// It has stored content, and is no device or pipe.
    pub is_plain: bool,
    pub device: u64,
    pub inode: u64,
    /// Its bytes, where it has stored content.
    pub length: u64,
}

/// A host that inspects files. Every call may change its state: so contracts name the inspections, in order.
pub trait Inspects {
    // What it found under this name, between the old and the new state.
    ghost looks: { Looks Self };

    /// The file of this name; None where it cannot be inspected.
    fn look(&mut self, name: &str) -> Option<Identity>
        ensures { looks self.old self.new name.now result };
}

impl Inspects for HostRuntime {
    // Nothing is known of the files of the host itself.
    ghost looks = { λ _ _ _ _. ⊤ };

    fn look(&mut self, name: &str) -> Option<Identity> {
        let found = fs::metadata(self, name).ok()?;
        Some(Identity {
            is_plain: found.is_file(),
            device: found.dev(),
            inode: found.ino(),
            length: found.len(),
        })
    }
}

/// Whether both are one file with stored content. One that cannot be inspected is not.
fn are_one(one: Option<Identity>, other: Option<Identity>) -> bool
    ensures one { result ≡ true → AreOne one other }
    ensures apart { result ≡ false → AreOne one other → ⊥ }
{
    match (one, other) {
        (Some(one), Some(other)) => {
            one.is_plain && one.device == other.device && one.inode == other.inode
        }
        _ => false,
    }
}

/// The name under which the input is inspected.
fn source_of<'a>(input: Endpoint<'a>) -> &'a str
    ensures { result.now ≡ source_name (name_in input.entry) }
{
    match input {
        Endpoint::Standard => STANDARD_INPUT,
        Endpoint::Named(name) => name,
    }
}

/// Whether the file of this name is the input. Inspects both, the input first.
pub fn is_input<H: Inspects>(host: &mut H, input: Endpoint<'_>, name: &str) -> bool
    ensures same { result ≡ true → IsInput H.looks host.old host.new (name_in input.entry) name.now }
    ensures other { result ≡ false → IsNotInput H.looks host.old host.new (name_in input.entry) name.now }
{
    let source = host.look(source_of(input));
    let target = host.look(name);
    are_one(source, target)
}
