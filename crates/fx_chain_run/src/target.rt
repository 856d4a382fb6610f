//! What a run writes.

use fx_frame::Coding;
use fx_sound::Kind;

/// What is written: a container, a coding of it, a rate of at least 1, 1 to 16 channels, and whether it goes to a file.
#[derive(Clone, Copy, Debug)]
pub struct Target {
    pub kind: Kind,
    pub coding: Coding,
    pub rate: u32,
    pub channels: usize,
    pub named: bool,
}
