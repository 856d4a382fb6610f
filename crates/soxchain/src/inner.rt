//! What the program needs beyond the public functions: messages on words and files that it cannot use, texts that it
//! shows, and what is prepared for a command line that was read.

pub use crate::file_messages::{tell_cannot_open, tell_cannot_rewrite};
pub use crate::message_writer::{MessageWriter, write_whole};
pub use crate::messages::{label_of_line, tell_line, tell_refusal, tell_warnings};
pub use crate::prepared::Prepared;
pub use crate::preparing::{Refusal, prepare_line, status_of_fault};
pub use crate::ready::{finish_for, prepare_for, refuse_line};
