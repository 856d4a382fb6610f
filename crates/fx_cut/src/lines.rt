//! Lines whose capacity may be 0.
ghost use Rattle.std.specs.Prelude.{◌≡◌, ◌≤◌, ◌*◌, ◌^◌, length, false, true, None, Some, if◌then◌else◌};
ghost use Rattle.fx_frame_base.specs.Frame.{IsChannelCount, IsFrame};
ghost use Rattle.fx_frame_base.specs.Lists.{pieces};
ghost use Rattle.fx_frame_line.specs.Line.{pushed, pushed_all, pushed_out};
ghost use Rattle.fx_cut.specs.Selected.{GaveOldest};

use fx_frame::Line;
use fx_frame::groups::{SAMPLES_OF_BATCH, SAMPLES_OF_GROUP, frames_of_group};
use fx_frame_base::feed::see_samples;

/// What `push_over` of a line does. A line with no places is unchanged, and returns the frame.
#[inline(always)]
pub fn push_over(line: &mut Line, samples: &mut [i32]) -> bool
    requires channels { length samples.old ≡ line.old.channels }
    requires frame { IsChannelCount (length samples.old) }
    ensures items { line.new.items ≡ pushed line.old samples.old }
    ensures capacity { line.new.capacity ≡ line.old.capacity }
    ensures channels { line.new.channels ≡ line.old.channels }
    ensures oldest { pushed_out line.old samples.old ≡ (if result then Some samples.new else None) }
    ensures kept { result ≡ false → samples.new ≡ samples.old }
    ensures frame { result ≡ true → IsFrame samples.new }
    ensures len { length samples.new ≡ length samples.old }
{
    if line.capacity() == 0 {
        see_samples(samples);
        return true;
    }
    line.push_over(samples)
}

/// Puts the frames of a group of at most `PLACES` samples in the line, and in their places as many of the oldest: those of the
/// line first, and then those that came.
#[inline(never)]
fn exchange_group<const PLACES: usize>(line: &mut Line, samples: &mut [i32], count: usize)
    requires group { (length samples.old ≤ PLACES) × (PLACES ≤ 64) }
    requires samples { length samples.old ≡ count * line.old.channels }
    ensures oldest { GaveOldest line.old count samples.old samples.new }
    ensures items { line.new.items ≡ pushed_all line.old (pieces line.old.channels count samples.old) }
    ensures capacity { line.new.capacity ≡ line.old.capacity }
    ensures channels { line.new.channels ≡ line.old.channels }
    ensures len { length samples.new ≡ length samples.old }
{
    let mut places = [0; PLACES];
    let came = &mut places[..samples.len()];
    if line.exchange_frames(samples, count, came) {
        return;
    }
    came.copy_from_slice(samples);
    line.oldest_into(came, count, samples);
    line.push_frames(came, count);
}

/// Puts `count` frames in a line that has no space for one more, and in their places those that fall out of it, a group at a
/// time.
fn exchange_groups(line: &mut Line, channels: usize, samples: &mut [i32], count: usize)
    requires channels { channels ≡ line.old.channels }
    requires full { 1 ≤ count → length line.old.items ≡ line.old.capacity }
    requires bound { count ≤ 2 ^ 56 }
    requires samples { length samples.old ≡ count * line.old.channels }
    ensures fallen { GaveOldest line.old count samples.old samples.new }
    ensures items { line.new.items ≡ pushed_all line.old (pieces line.old.channels count samples.old) }
    ensures capacity { line.new.capacity ≡ line.old.capacity }
    ensures channels { line.new.channels ≡ line.old.channels }
    ensures len { length samples.new ≡ length samples.old }
{
    let _held = line.len();
    let maximum = frames_of_group(channels);
    let mut done = 0;
    'groups: while done < count {
        let now = maximum.min(count - done);
        let from = done * channels;
        let to = from + now * channels;
        exchange_group::<SAMPLES_OF_GROUP>(line, &mut samples[from..to], now);
        done += now;
    }
}

/// Puts `count` frames in a line that has no space for one more, and in their places those that fall out of it. A line with no
/// places outputs the frames that came.
pub fn exchange_full(line: &mut Line, channels: usize, samples: &mut [i32], count: usize)
    requires channels { channels ≡ line.old.channels }
    requires full { 1 ≤ count → length line.old.items ≡ line.old.capacity }
    requires bound { count ≤ 2 ^ 56 }
    requires samples { length samples.old ≡ count * line.old.channels }
    ensures fallen { GaveOldest line.old count samples.old samples.new }
    ensures items { line.new.items ≡ pushed_all line.old (pieces line.old.channels count samples.old) }
    ensures capacity { line.new.capacity ≡ line.old.capacity }
    ensures channels { line.new.channels ≡ line.old.channels }
    ensures len { length samples.new ≡ length samples.old }
{
    let capacity = line.capacity();
    if capacity == 0 {
        return;
    }
    // A single group, as in most chains, needs no division, and a short one a smaller buffer.
    if samples.len() <= SAMPLES_OF_BATCH {
        exchange_group::<SAMPLES_OF_BATCH>(line, samples, count);
        return;
    }
    if samples.len() <= SAMPLES_OF_GROUP {
        exchange_group::<SAMPLES_OF_GROUP>(line, samples, count);
        return;
    }
    exchange_groups(line, channels, samples, count);
}
