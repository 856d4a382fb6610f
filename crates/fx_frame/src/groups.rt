//! Groups: frames that are exchanged with a line at once.
ghost use Rattle.std.specs.Prelude.{◌≤◌, ◌*◌};
ghost use Rattle.fx_frame_base.specs.Frame.{IsChannelCount};

/// The maximum number of samples of a group. A buffer for them is cleared each time, so it is small.
pub const SAMPLES_OF_GROUP: usize = 64;

/// The maximum number of samples of a short group, for which a smaller buffer is cleared: batches of most chains are so short.
pub const SAMPLES_OF_BATCH: usize = 16;

/// The maximum number of frames of a group.
pub fn frames_of_group(channels: usize) -> usize
    requires { IsChannelCount channels }
    ensures some { 1 ≤ result }
    ensures free { result * channels ≤ 64 }
{
    SAMPLES_OF_GROUP / channels
}
