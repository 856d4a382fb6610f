//! The files of a disk in memory.
ghost use Rattle.std.specs.Prelude.{◌≤◌, length};

use std::alloc::Global;

/// The four files.
#[derive(Drop)]
pub struct Files {
    pub part: Option<Vec<u8>>,
    pub new_checkpoint: Option<Vec<u8>>,
    pub checkpoint: Option<Vec<u8>>,
    pub out: Option<Vec<u8>>,
}

/// A disk in memory. It keeps each image that it has had, oldest first, and how many those were at the last crash.
#[derive(Drop)]
pub struct MemoryDisk {
    pub(crate) alloc: Global,
    pub files: Files,
    pub(crate) history: Vec<Files>,
    pub(crate) began: usize,
    ghost bounded: { began ≤ length history.items },
}
