//! The size of the buffers.

/// How many bytes a source's buffer and an output's buffer hold.
pub const BUFFER_SIZE: usize = 4096;
