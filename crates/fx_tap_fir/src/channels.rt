//! One channel of frames whose samples lie one after another.
ghost use Rattle.std.specs.Prelude.{◌≡◌, ◌<◌, ◌≤◌, ◌*◌, pos, length};
ghost use Rattle.fx_frame_line.specs.Line.{channel_of};
ghost use Rattle.fx_frame_base.specs.Lists.{pieces};

/// Fills the places with one channel of as many frames.
#[inline(always)]
pub(crate) fn take_channel(frames: &[i32], channels: usize, channel: usize, out: &mut [i32])
    requires channel { channel < channels }
    requires channels { channels ≤ 16 }
    requires frames { length out.old * channels ≤ length frames.now }
    ensures { out.new ≡ channel_of (pieces channels (length out.old) frames.now) channel (pos 0) }
{
    let mut at = channel;
    'frames: for place in 0..out.len() {
        out[place] = frames[at];
        at += channels;
    }
}
