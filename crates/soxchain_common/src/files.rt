//! The coefficient files that the words name.
ghost use Rattle.std.specs.Prelude.{◌≡◌, ◌≤◌, ◌+◌, ◌^◌, List, ℕ, IfErr, IfOk, IfSome, length, take, ⊤};
ghost use Rattle.fx_frame_base.specs.Io.{saturated};
ghost use Rattle.fx_plan.specs.CommandLines.{coefficient_files, effects_in};
ghost use Rattle.fx_plan.specs.Plans.{plan_bytes};
ghost use Rattle.soxchain_common.specs.Consoles.{IsNewReader};
ghost use Rattle.soxchain_common.specs.Files.{AreFronts, IsAsked, IsFront, IsOfFiles, IsOpenedAndClosed, kept_with};

use fx_frame::{ByteIn, Counted};
use fx_plan::CommandLine;
use fx_plan::inner::coefficient_file_names;
use std::alloc::Global;
use std::fs::File;
use std::io;
use thiserror::Error;

/// The maximum number of bytes that are read of a coefficient file: one more than it may have.
const MAX_READ: usize = 0x10_0001;

/// The maximum number of bytes that are asked for at once.
const PIECE: usize = 0x1000;

/// The maximum number of files whose bytes are kept: as many as a line may have effects.
const MAX_KEPT: usize = 32;

/// Opens files to read. Every call may change the state of the host: so contracts name the calls, and state that there was no
/// other.
pub trait Openings {
    type Reader: ByteIn + Drop;

    // Whether the file of this name was opened so, between the old and the new state.
    ghost opened: { Self → Self → List ℕ → Self.Reader → Type 0 };

    // Whether opening the file of this name was refused between them.
    ghost unopened: { Self → Self → List ℕ → Type 0 };

    // Whether the opened file was closed between them, in this state.
    ghost closed: { Self → Self → Self.Reader → Type 0 };

    /// Opens the file of this name.
    fn open(&mut self, name: &str) -> io::Result<Self::Reader>
        ensures opened { IfOk result (λ reader. opened self.old self.new name.now reader) }
        ensures fresh { IfOk result (IsNewReader Self.Reader.reads) }
        ensures refused { IfErr result (λ _. unopened self.old self.new name.now) };

    /// Closes an opened file: nothing more is read of it.
    fn close_reader(&mut self, reader: Self::Reader)
        ensures { closed self.old self.new reader };
}

impl Openings for HostRuntime {
    type Reader = Counted<File>;

    // Nothing is known of the files of the host.
    ghost opened = { λ _ _ _ _. ⊤ };

    ghost unopened = { λ _ _ _. ⊤ };

    ghost closed = { λ _ _ _. ⊤ };

    fn open(&mut self, name: &str) -> io::Result<Counted<File>> {
        Ok(Counted::new(File::open(self, name)?))
    }

    fn close_reader(&mut self, _reader: Counted<File>) {}
}

/// Why the bytes of a file are not there.
#[derive(Clone, Copy, Debug, Drop, PartialEq, Eq)]
enum UnreadFile {
    /// It cannot be opened, or a read of it failed.
    Failed,
    /// No memory was found for them.
    Memory,
}

/// What a reader delivers, at most `MAX_READ` bytes of it.
fn read_front<R: ByteIn>(alloc: Global, reader: &mut R) -> Result<Vec<u8>, UnreadFile>
    ensures front { IfOk result (λ bytes. IfSome (R.reads.rest reader.old) (λ all. bytes.items ≡ take (2 ^ 20 + 1) all)) }
    ensures bound { IfOk result (λ bytes. length bytes.items ≤ 2 ^ 20 + 1) }
    ensures delivered { IfOk result (λ bytes. R.reads.delivered reader.old ≡ 0 → R.reads.delivered reader.new ≡ length bytes.items) }
    ensures unfailed { IfOk result (λ _. R.reads.failures reader.new ≡ R.reads.failures reader.old) }
    ensures failed { IfErr result (λ fault. fault ≡ UnreadFile.Failed → R.reads.failures reader.new ≡ saturated (R.reads.failures reader.old + 1)) }
    ensures memory_refused { IfErr result (λ fault. fault ≡ UnreadFile.Memory → R.reads.failures reader.new ≡ R.reads.failures reader.old) }
{
    let mut bytes = Vec::new(alloc);
    let mut piece = [0; PIECE];
    while bytes.len() < MAX_READ {
        let maximum = PIECE.min(MAX_READ - bytes.len());
        let Ok(delivered) = reader.read(&mut piece[..maximum]) else {
            return Err(UnreadFile::Failed);
        };
        if delivered == 0 {
            return Ok(bytes);
        }
        let Ok(()) = bytes.extend_from_slice(&piece[..delivered]) else {
            return Err(UnreadFile::Memory);
        };
    }
    Ok(bytes)
}

/// The first bytes of the file of this name, which is closed then.
fn read_file<H: Openings>(alloc: Global, host: &mut H, name: &str) -> Result<Vec<u8>, UnreadFile>
    ensures read { IfOk result (λ bytes.
        IsFront (record { opened = H.opened; unopened = H.unopened; closed = H.closed }) H.Reader.reads
        host.old host.new name.now bytes.items) }
    ensures failed { IfErr result (λ fault. fault ≡ UnreadFile.Failed →
        IsAsked (record { opened = H.opened; unopened = H.unopened; closed = H.closed }) H.Reader.reads
        host.old host.new name.now) }
    ensures memory_refused { IfErr result (λ fault. fault ≡ UnreadFile.Memory →
        IsOpenedAndClosed (record { opened = H.opened; unopened = H.unopened; closed = H.closed }) H.Reader.reads
        0 host.old host.new name.now) }
{
    let Ok(mut reader) = host.open(name) else {
        return Err(UnreadFile::Failed);
    };
    let bytes = read_front(alloc, &mut reader);
    host.close_reader(reader);
    bytes
}

/// Reads the file of this name, and adds its bytes to those of the files before it where they are to be kept.
fn read_next<H: Openings>(
    alloc: Global,
    host: &mut H,
    name: &str,
    files: &mut Vec<Vec<u8>>,
) -> Result<(), UnreadFile>
    ensures read { IfOk result (λ _. (bytes : List ℕ) ×
        IsFront (record { opened = H.opened; unopened = H.unopened; closed = H.closed }) H.Reader.reads
        host.old host.new name.now bytes × (plan_bytes files.new.items ≡ kept_with (plan_bytes files.old.items) bytes)) }
    ensures failed { IfErr result (λ fault. fault ≡ UnreadFile.Failed →
        IsAsked (record { opened = H.opened; unopened = H.unopened; closed = H.closed }) H.Reader.reads
        host.old host.new name.now) }
    ensures memory_refused { IfErr result (λ fault. fault ≡ UnreadFile.Memory →
        IsOpenedAndClosed (record { opened = H.opened; unopened = H.unopened; closed = H.closed }) H.Reader.reads
        0 host.old host.new name.now) }
{
    let bytes = match read_file(alloc, host, name) {
        Ok(bytes) => bytes,
        Err(fault) => return Err(fault),
    };
    if files.len() < MAX_KEPT && files.push(bytes).is_err() {
        return Err(UnreadFile::Memory);
    }
    Ok(())
}

/// Why the coefficient files of a line are not there.
#[derive(Clone, Copy, Debug, Drop, PartialEq, Eq, Error)]
pub enum FilesFault<'a> {
    /// The file of this name cannot be opened or read.
    #[error("{0} cannot be read")]
    CannotRead(&'a str),
    /// No memory was found for the list of names, or for the bytes of a file.
    #[error("no memory for the files")]
    Memory,
}

/// The bytes of the coefficient files, in the order of the effects; or why they are not there, which is reported of the first
/// file that cannot be read. A file is opened, read and closed once for each time that the words name it, in that order, and no
/// other is. Only the first 32 are kept, since a line of more effects is refused.
pub fn read_files<'a, H: Openings>(
    alloc: Global,
    host: &mut H,
    line: &'a CommandLine,
) -> Result<Vec<Vec<u8>>, FilesFault<'a>>
    ensures each { IfOk result (λ files.
        AreFronts (record { opened = H.opened; unopened = H.unopened; closed = H.closed }) H.Reader.reads
        host.old host.new (coefficient_files (effects_in line.now)) (plan_bytes files.items)) }
    ensures named { IfErr result (
        IsOfFiles (record { opened = H.opened; unopened = H.unopened; closed = H.closed }) H.Reader.reads
        host.old host.new (coefficient_files (effects_in line.now))) }
{
    let Ok(names) = coefficient_file_names(alloc, line) else {
        return Err(FilesFault::Memory);
    };
    let mut files = Vec::new(alloc);
    for place in 0..names.len() {
        let name = names[place];
        match read_next(alloc, host, name, &mut files) {
            Ok(()) => {}
            Err(UnreadFile::Failed) => return Err(FilesFault::CannotRead(name)),
            Err(UnreadFile::Memory) => return Err(FilesFault::Memory),
        }
    }
    Ok(files)
}
