//! One channel of frames whose samples lie one after another.
ghost use Rattle.std.specs.Prelude.{◌≡◌, ◌<◌, ◌≤◌, ◌+◌, ◌*◌, length};
ghost use Rattle.fx_frame_base.specs.Lists.{tabulate};
ghost use Rattle.fx_tap_sums.specs.Convolution.{AreSmallSums};
ghost use Rattle.fx_tap_sums.specs.ChannelSamples.{WritesRounded, KeepsOtherPlaces, rounded_over};
ghost use Rattle.fx_frame_base.specs.Rounded.{clips_rounded};

use fx_fixed::inner::Denominator;

/// Writes sums over a denominator, each rounded once, as one channel of as many frames, and counts how many samples were
/// clipped.
#[inline(always)]
pub fn round_channel(
    sums: &[i64],
    denominator: &Denominator,
    channels: usize,
    channel: usize,
    out: &mut [i32],
) -> u64
    requires channel { channel < channels }
    requires channels { channels ≤ 16 }
    requires small { AreSmallSums (length sums.now) sums.now }
    requires out { length sums.now * channels ≤ length out.old }
    ensures put { WritesRounded channels channel (length sums.now) out.new (rounded_over denominator.now sums.now) }
    ensures others { KeepsOtherPlaces channels channel (length sums.now) out.old out.new }
    ensures clips { result ≡ clips_rounded (tabulate (rounded_over denominator.now sums.now) 0 (length sums.now)) }
    ensures bound { result ≤ length sums.now }
{
    let mut at = channel;
    let mut clips = 0;
    'frames: for place in 0..sums.len() {
        out[at] = denominator.round_and_count(sums[place], &mut clips);
        at += channels;
    }
    clips
}
