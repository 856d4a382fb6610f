//! IN, opened, and prepared to be converted.
ghost use Rattle.std.specs.Prelude.{IfOk};
ghost use Rattle.fx_chain.specs.Chain.{IsNewChain};
ghost use Rattle.fx_plan.specs.Planning.{planning};

use crate::fault::{JobFault, Stop};
use crate::progress::SoundPlace;
use crate::sound_file::state_of;
use fx_frame::{ByteOut, Counted};
use fx_plan::CommandLine;
use fx_sound::{Head, Source};
use soxchain::inner::{MessageWriter, Prepared, prepare_for, tell_cannot_open};
use soxchain_job_rules::InputState;
use std::fs::{self, File};
use std::io::Seek;

/// IN, opened.
#[derive(Drop)]
pub struct OpenedInput {
    pub file: File,
    /// What its head says.
    pub head: Head,
    /// What the system said of it when it was opened.
    pub state: InputState,
    /// The bytes before the sound.
    pub head_size: u64,
}

impl OpenedInput {
    /// The bytes of the sound that are there.
    fn sound_size(&self) -> u64 {
        let there = self.state.size.saturating_sub(self.head_size);
        match self.head.announced {
            Some(announced) => announced.min(there),
            None => there,
        }
    }

    /// The bytes of a frame.
    fn frame_size(&self) -> u64 {
        self.head.channels as u64 * self.head.coding.width() as u64
    }

    /// The frames of the sound.
    pub fn frames(&self) -> u64 {
        self.sound_size()
            .checked_div(self.frame_size())
            .unwrap_or(0)
    }

    /// Reports the frame at which a run continues, after so many bytes of IN.
    pub fn report_place(&self, rt: &HostRuntime, taken: u64) {
        let frames = self.frames();
        let sound = taken.saturating_sub(self.head_size);
        let at = sound.checked_div(self.frame_size()).unwrap_or(0);
        let at = at.min(frames);
        let _reported = eprintln!(rt; "soxchain-job: continues at frame {at} of {frames}");
    }

    /// Where the sound lies in the file.
    pub fn place(&self) -> SoundPlace {
        let second = self.frame_size().saturating_mul(u64::from(self.head.rate));
        SoundPlace {
            start: self.head_size,
            size: self.sound_size(),
            second: second.max(1),
        }
    }
}

/// Refuses a name that leads to something else than a regular file, without waiting for it. One that leads to nothing is not
/// refused here.
pub fn check_regular<'a>(rt: &HostRuntime, name: &'a str) -> Result<(), JobFault<'a>> {
    match fs::metadata(rt, name) {
        Ok(found) if !found.is_file() => Err(JobFault::NotAFile(name)),
        _ => Ok(()),
    }
}

/// Opens IN, and looks at it.
fn open_file<'a, M: ByteOut>(
    rt: &HostRuntime,
    name: &'a str,
    message_writer: &mut MessageWriter<M>,
) -> Result<(File, InputState), Stop<'a>> {
    check_regular(rt, name)?;
    let Ok(file) = File::open(rt, name) else {
        tell_cannot_open(message_writer, name);
        return Err(Stop::Reported(2));
    };
    match file.metadata() {
        Ok(found) if found.is_file() => Ok((file, state_of(&found))),
        Ok(_) => Err(JobFault::NotAFile(name).into()),
        Err(error) => Err(JobFault::File(name, error).into()),
    }
}

/// Opens IN, reads its head, and prepares plan and chain.
pub fn open_input<'a, M: ByteOut>(
    rt: &HostRuntime,
    line: &CommandLine,
    name: &'a str,
    files: &[Vec<u8>],
    message_writer: &mut MessageWriter<M>,
) -> Result<(OpenedInput, Prepared), Stop<'a>>
    ensures { IfOk result (λ it. IsNewChain (planning it.1.plan) it.1.chain) }
{
    let (file, state) = open_file(rt, name, message_writer)?;
    let mut source = Source::new(Counted::new(file));
    let prepared = match prepare_for(rt.alloc(), line, files, &mut source, message_writer) {
        Ok(prepared) => prepared,
        Err(status) => return Err(Stop::Reported(status)),
    };
    let held = source.held() as u64;
    let mut file = source.into_inner().into_inner();
    let head_size = match file.stream_position() {
        Ok(position) => position.saturating_sub(held),
        Err(error) => return Err(JobFault::File(name, error).into()),
    };
    // A file that was read and has no size, as those of /proc, does not say where it ends.
    if state.size < head_size {
        return Err(JobFault::NoSize(name).into());
    }
    let opened = OpenedInput {
        file,
        head: prepared.plan.head(),
        state,
        head_size,
    };
    Ok((opened, prepared))
}
