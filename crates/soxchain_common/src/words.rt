//! The words after the program's name.
ghost use Rattle.std.specs.Prelude.{◌≡◌, ◌≢◌};
ghost use Rattle.std.specs.IoError.{error_kind};

use fx_plan::LineFault;
use std::io::ErrorKind;
use std::{env, io};

/// The words after the program's name. No contract states which they are: nothing is known of the words of the host.
pub fn words_of(rt: &HostRuntime) -> io::Result<Vec<String>> {
    let mut words = Vec::new(rt.alloc());
    for word in env::args(rt)?.skip(1) {
        words.push(word)?;
    }
    Ok(words)
}

/// The fault of words that could not be read: lack of memory, or a word that is not UTF-8.
pub fn fault_of(error: &io::Error) -> LineFault
    ensures memory { error_kind error.now ≡ ErrorKind.OutOfMemory → result ≡ LineFault.Memory }
    ensures words { error_kind error.now ≢ ErrorKind.OutOfMemory → result ≡ LineFault.BadOption }
{
    match error.kind() {
        ErrorKind::OutOfMemory => LineFault::Memory,
        _ => LineFault::BadOption,
    }
}
