//! What a run needs of sounds, beyond the public calls.

pub use crate::buffer::BUFFER_SIZE;
pub use crate::bulk::{decode_into, encode_into};
pub use crate::fields::{EXTENSIBLE, PCM_GUID, PLAIN};
pub use crate::frame_coding::encode;
pub use crate::output::Output;
pub use crate::sound::{Sound, SoundFault, read_frames, read_sound};
