//! The messages of the program on its files, one line each.
ghost use Rattle.soxchain.specs.FileMessages.{open_message, rewrite_message};
ghost use Rattle.soxchain.specs.Saying.{Says};

use crate::message_writer::MessageWriter;
use fx_frame::ByteOut;

/// `soxchain: cannot open NAME`, where the file of this name cannot be opened, read or created.
pub fn tell_cannot_open<M: ByteOut>(message_writer: &mut MessageWriter<M>, name: &str)
    ensures { Says M.writes message_writer.old message_writer.new (open_message name.now) }
{
    message_writer.note("soxchain: cannot open ", name);
}

/// `soxchain: cannot rewrite NAME`, where the head of this file cannot be written again with its true sizes.
pub fn tell_cannot_rewrite<M: ByteOut>(message_writer: &mut MessageWriter<M>, name: &str)
    ensures { Says M.writes message_writer.old message_writer.new (rewrite_message name.now) }
{
    message_writer.note("soxchain: cannot rewrite ", name);
}
