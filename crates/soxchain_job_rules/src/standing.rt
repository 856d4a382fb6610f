//! What may stand under the name of a file of a job, and what `--abandon` removes.
ghost use Rattle.std.specs.Prelude.{◌↔◌, ◌≡◌, ◌∷◌, [], IsTrue};
ghost use Rattle.soxchain_job_rules.specs.Standing.{MayRemove, MayRemoveRegular, MayUse, MayUseRegular};

use crate::OwnFile;

/// How the bytes of a regular file begin.
#[derive(Clone, Copy, Debug, PartialEq, Eq)]
pub enum Content {
    /// There are none.
    Empty,
    /// As a job writes the file of that name.
    Own,
    /// Otherwise.
    Foreign,
}

/// What stands under a name.
#[derive(Clone, Copy, Debug, PartialEq, Eq)]
pub enum Standing {
    /// Nothing.
    Nothing,
    /// A regular file.
    Regular {
        /// How many names it has.
        links: u64,
        /// How its bytes begin.
        content: Content,
    },
    /// A symbolic link, a folder, a FIFO or a device.
    Other,
}

/// Whether a run may use the name of this file, where this stands under it. There is a checkpoint only where that of this job was
/// read; for a new record only where the record of that job has this name.
pub fn may_use(file: OwnFile, standing: &Standing, has_checkpoint: bool) -> bool
    ensures { IsTrue result ↔ MayUse file standing.now has_checkpoint }
{
    match *standing {
        Standing::Nothing => true,
        Standing::Regular { links, content } => may_use_regular(
            file,
            links,
            content,
            has_checkpoint,
        ),
        Standing::Other => false,
    }
}

fn may_use_regular(file: OwnFile, links: u64, content: Content, has_checkpoint: bool) -> bool
    ensures { IsTrue result ↔ MayUseRegular file links content has_checkpoint }
{
    match file {
        OwnFile::Out => true,
        OwnFile::Part => links == 1 && has_checkpoint,
        OwnFile::Checkpoint => links == 1 && content == Content::Own,
        OwnFile::NewCheckpoint | OwnFile::NewRecord => {
            links == 1 && (has_checkpoint || content != Content::Foreign)
        }
        OwnFile::Lock => links == 1 && content == Content::Empty,
        OwnFile::Record => content == Content::Own,
    }
}

/// Whether `--abandon` may remove what stands under the name of this file. There is a checkpoint only where that of a job was read;
/// for a new record only where the record of that job has this name.
pub fn may_remove(file: OwnFile, standing: &Standing, has_checkpoint: bool) -> bool
    ensures { IsTrue result ↔ MayRemove file standing.now has_checkpoint }
{
    match *standing {
        Standing::Regular { links, content } => {
            may_remove_regular(file, links, content, has_checkpoint)
        }
        Standing::Nothing | Standing::Other => false,
    }
}

fn may_remove_regular(file: OwnFile, links: u64, content: Content, has_checkpoint: bool) -> bool
    ensures { IsTrue result ↔ MayRemoveRegular file links content has_checkpoint }
{
    match file {
        OwnFile::Out | OwnFile::Record => false,
        OwnFile::Part | OwnFile::NewCheckpoint | OwnFile::NewRecord => has_checkpoint,
        OwnFile::Checkpoint => content == Content::Own,
        OwnFile::Lock => may_use_regular(file, links, content, has_checkpoint),
    }
}

/// The files that `--abandon` removes, in this order: while one of them is left, so is the checkpoint, which says whose it is.
pub fn abandon_order() -> [OwnFile; 4]
    ensures { result ≡ OwnFile.Part ∷ OwnFile.NewCheckpoint
        ∷ OwnFile.NewRecord ∷ OwnFile.Checkpoint ∷ [] }
{
    [
        OwnFile::Part,
        OwnFile::NewCheckpoint,
        OwnFile::NewRecord,
        OwnFile::Checkpoint,
    ]
}
