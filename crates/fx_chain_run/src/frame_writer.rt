//! Frames in transit to a writer.
ghost use Rattle.std.specs.Prelude.{◌≡◌, ◌+◌, ◌*◌, ◌<◌, ◌≤◌, ◌^◌, ◌++◌, OnErr, OnOk, length};
ghost use Rattle.fx_frame_base.specs.Coding.{width_of};
ghost use Rattle.fx_sound.specs.FrameCoding.{bytes_of, clips_of, frame_size};
ghost use Rattle.fx_frame_base.specs.Io.{CountsFailure};
ghost use Rattle.fx_sound.specs.Output.{SendsMore, SendsPart, bytes_put};
ghost use Rattle.fx_frame_base.specs.Frame.{IsChannelCount};

use fx_frame::{ByteOut, Coding, Failed, Frame};
use fx_sound::inner::{BUFFER_SIZE, Output, encode};

/// Where frames go: their coding, the buffer before the writer, and how many samples were clipped when they were encoded.
#[derive(Drop)]
pub struct FrameWriter {
    pub coding: Coding,
    pub clips: u64,
    pub output: Output,
}

impl FrameWriter {
    /// Encodes a frame and sends it. Its clips count whether or not that fails.
    #[inline(always)]
    #[tactic(auto, using(crate::proofs::Sending::clips_of_le))]
    pub fn send<W: ByteOut>(&mut self, writer: &mut W, frame: &Frame) -> Result<(), Failed>
        requires free { bytes_put self.old.output + 64 < 2 ^ 64 }
        requires bound { self.old.clips < 2 ^ 62 }
        ensures sent { OnOk result (SendsMore (W.writes.taken writer.old) (W.writes.taken writer.new)
            self.old.output self.new.output (bytes_of self.old.coding frame.now)) }
        ensures sent_err { OnErr result (SendsPart (W.writes.taken writer.old) (W.writes.taken writer.new)
            self.old.output self.new.output (bytes_of self.old.coding frame.now)) }
        ensures small { OnOk result (bytes_put self.new.output ≤ bytes_put self.old.output + 64) }
        ensures clips { self.new.clips ≡ self.old.clips + clips_of self.old.coding frame.now }
        ensures bound { self.new.clips ≤ self.old.clips + 16 }
        ensures coding { self.new.coding ≡ self.old.coding }
        ensures failures { CountsFailure (W.writes.failures writer.old) (W.writes.failures writer.new) result }
    {
        let _channels = frame.channels();
        match self.output.push_frame(writer, frame, self.coding) {
            Ok(clips) => {
                self.clips += clips;
                Ok(())
            }
            Err(Failed) => {
                self.clips += clips_of_writing(frame, self.coding);
                Err(Failed)
            }
        }
    }
}

impl FrameWriter {
    /// For how many frames of `channels` channels there is free space before bytes have to go to the writer.
    pub fn free(&self, channels: usize) -> usize
        requires { IsChannelCount channels }
        ensures free { result * channels * width_of self.now.coding ≤ self.now.output.free }
        ensures maximum { result * channels ≤ BUFFER_SIZE }
    {
        let size = channels * self.coding.width();
        self.output.free() / size
    }

    /// Encodes samples for which there is free space.
    pub fn put(&mut self, samples: &[i32])
        requires samples_max { length samples.now ≤ BUFFER_SIZE }
        requires free { frame_size self.old.coding (length samples.now) ≤ self.old.output.free }
        requires count { bytes_put self.old.output < 2 ^ 63 }
        requires bound { self.old.clips < 2 ^ 62 }
        ensures bytes { self.new.output.bytes ≡ self.old.output.bytes ++ bytes_of self.old.coding samples.now }
        ensures written { self.new.output.written ≡ self.old.output.written }
        ensures count { bytes_put self.new.output ≤ bytes_put self.old.output + 4 * length samples.now }
        ensures clips { self.new.clips ≡ self.old.clips + clips_of self.old.coding samples.now }
        ensures bound { self.new.clips ≤ self.old.clips + length samples.now }
        ensures coding { self.new.coding ≡ self.old.coding }
    {
        self.clips += self.output.put_samples(samples, self.coding);
    }
}

// How many samples of a frame are clipped when it is written.
#[inline(never)]
#[tactic(auto, using(crate::proofs::Sending::frame_size_le))]
fn clips_of_writing(frame: &Frame, coding: Coding) -> u64
    ensures { result ≡ clips_of coding frame.now }
{
    let size = frame.channels() * coding.width();
    let mut bytes = [0; 64];
    encode(frame, coding, &mut bytes[..size])
}
