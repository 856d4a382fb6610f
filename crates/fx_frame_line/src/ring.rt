//! A ring buffer of samples for whole frames, each of as many samples as there are channels.
ghost use Rattle.std.specs.Prelude.{◌≡◌, ◌↔◌, ◌<◌, ◌≤◌, ◌^◌, ◌++◌, ◌+◌, ◌-◌, ◌*◌, ◌∷◌, [], ℕ, min, length, take, drop, replicate, slice_get, slice_index_or, true, false, IfOk, Some};
ghost use Rattle.std.specs.Option.{option_map};
ghost use Rattle.fx_frame_line.specs.Line.{HasChannelBefore, HasOldest, KeepsOtherChannels, empty, pushed, pushed_block, pushed_out, latest_frames, channel_of};
ghost use Rattle.fx_frame_line.specs.Ring.{IsShaped};
ghost use Rattle.fx_frame_base.specs.Lists.{pieces};
ghost use Rattle.circular_buffer.specs.Buffer.{buffer, keep_last};
ghost use Rattle.fx_frame_base.specs.Frame.{IsChannelCount};

use circular_buffer::HeapCircularBuffer;
use std::alloc::{AllocError, Global};
use std::marker::Model;

/// The latest frames, up to a capacity. A frame goes in and out as its samples.
#[derive(Drop)]
pub struct Ring<T: Copy> {
    /// The frames one after another, in exactly `channels` times `capacity` places.
    samples: HeapCircularBuffer<T>,
    /// How many samples each frame has.
    channels: usize,
    /// The capacity in frames.
    capacity: usize,
    /// How many frames there are.
    len: usize,
}

impl<T: Copy> Model for Ring<T> {
    ghost use Rattle.fx_frame_line.specs.Line.{Frames};
    ghost use Rattle.fx_frame_base.specs.Lists.{pieces};
    ghost use Rattle.fx_frame_line.specs.Ring.{frames_code, IsRing};

    ghost Value = { Frames T };

    ghost coded = { frames_code T.code };

    ghost view = { λ r. record { items = pieces r.channels r.len r.samples.items; capacity = r.capacity; channels = r.channels } };

    ghost invariant = { λ r. IsRing r.channels r.capacity r.len r.samples };
}

impl<T: Copy> Ring<T> {
    /// An empty ring buffer for frames of 1 to 16 samples, at most `2^28` of them; AllocError where memory is refused.
    pub fn new(alloc: Global, channels: usize, capacity: usize) -> Result<Self, AllocError>
        requires channels { IsChannelCount channels }
        requires capacity { capacity ≤ 2 ^ 28 }
        ensures { IfOk result (λ r. r ≡ empty channels capacity) }
    {
        Ok(Ring {
            samples: HeapCircularBuffer::with_capacity(alloc, capacity * channels)?,
            channels,
            capacity,
            len: 0,
        })
    }

    /// How many frames there are.
    #[inline(always)]
    pub fn len(&self) -> usize
        ensures len { result ≡ length self.now.items }
        ensures shape { IsShaped self.now }
    {
        self.len
    }

    /// The capacity in frames.
    #[inline(always)]
    pub fn capacity(&self) -> usize
        ensures capacity { result ≡ self.now.capacity }
        ensures shape { IsShaped self.now }
    {
        self.capacity
    }

    /// How many samples each frame has.
    #[inline(always)]
    pub fn channels(&self) -> usize
        ensures channels { result ≡ self.now.channels }
        ensures shape { IsShaped self.now }
    {
        self.channels
    }

    /// Adds a frame of one sample. A full ring buffer drops the oldest.
    #[inline(always)]
    pub fn push_one(&mut self, sample: T) -> Option<T>
        requires { self.old.channels ≡ 1 }
        ensures items { self.new.items ≡ pushed self.old (sample ∷ []) }
        ensures capacity { self.new.capacity ≡ self.old.capacity }
        ensures channels { self.new.channels ≡ self.old.channels }
        ensures oldest { option_map (λ x. x ∷ []) result ≡ pushed_out self.old (sample ∷ []) }
    {
        match self.samples.push_back(sample) {
            Some(oldest) => Some(oldest),
            None => {
                self.len += 1;
                None
            }
        }
    }

    /// Adds a frame of two samples. A full ring buffer drops the oldest.
    #[inline(always)]
    pub fn push_two(&mut self, first: T, second: T) -> Option<(T, T)>
        requires { self.old.channels ≡ 2 }
        ensures items { self.new.items ≡ pushed self.old (first ∷ second ∷ []) }
        ensures capacity { self.new.capacity ≡ self.old.capacity }
        ensures channels { self.new.channels ≡ self.old.channels }
        ensures oldest { option_map (λ p. p.0 ∷ p.1 ∷ []) result ≡ pushed_out self.old (first ∷ second ∷ []) }
    {
        let first_out = self.samples.push_back(first);
        let second_out = self.samples.push_back(second);
        match first_out.zip(second_out) {
            Some(pair) => Some(pair),
            None => {
                self.len += 1;
                None
            }
        }
    }

    /// Adds a frame. A full ring buffer drops the oldest.
    pub fn push(&mut self, frame: &[T])
        requires { length frame.now ≡ self.old.channels }
        ensures items { self.new.items ≡ pushed self.old frame.now }
        ensures capacity { self.new.capacity ≡ self.old.capacity }
        ensures channels { self.new.channels ≡ self.old.channels }
    {
        self.len = (self.len + 1).min(self.capacity);
        self.samples.extend_from_slice(frame);
    }

    /// Whether there is no space for one more frame.
    #[inline(always)]
    fn is_full(&self) -> bool
        ensures { result ≡ true ↔ length self.now.items ≡ self.now.capacity }
    {
        self.samples.is_full()
    }

    /// Puts a frame in the place of the oldest, and writes that over the frame, where there is no space for one more. Where the
    /// capacity is 0 the frame itself is the oldest, and stays. The frame that came then stands in `came`. Else it returns
    /// false, and nothing changes.
    #[inline(always)]
    pub fn exchange(&mut self, frame: &mut [T], came: &mut [T]) -> bool
        requires frame { length frame.old ≡ self.old.channels }
        requires free { length came.old ≡ length frame.old }
        ensures kept { result ≡ false → (self.new ≡ self.old) × (frame.new ≡ frame.old) × (came.new ≡ came.old) }
        ensures items { result ≡ true → self.new.items ≡ pushed self.old frame.old }
        ensures capacity { self.new.capacity ≡ self.old.capacity }
        ensures channels { self.new.channels ≡ self.old.channels }
        ensures oldest { result ≡ true → pushed_out self.old frame.old ≡ Some frame.new }
        ensures came { result ≡ true → came.new ≡ frame.old }
        ensures when { result ≡ true ↔ length self.old.items ≡ self.old.capacity }
    {
        if !self.is_full() {
            return false;
        }
        came.copy_from_slice(frame);
        self.samples.read_into(frame);
        self.samples.extend_from_slice(came);
        true
    }

    /// Puts `count` frames in the places of as many of the oldest, and writes those over them, where there is no space for one
    /// more and there are that many. The frames that came then stand in `came`. Else it returns false, and nothing changes.
    #[inline(always)]
    pub fn exchange_frames(&mut self, frames: &mut [T], count: usize, came: &mut [T]) -> bool
        requires frames { length frames.old ≡ count * self.old.channels }
        requires free { length came.old ≡ length frames.old }
        ensures kept { result ≡ false → (self.new ≡ self.old) × (frames.new ≡ frames.old) × (came.new ≡ came.old) }
        ensures items { result ≡ true → self.new.items ≡ pushed_block self.old count frames.old }
        ensures capacity { self.new.capacity ≡ self.old.capacity }
        ensures channels { self.new.channels ≡ self.old.channels }
        ensures oldest { result ≡ true → pieces self.old.channels count frames.new ≡ take count self.old.items }
        ensures came { result ≡ true → came.new ≡ frames.old }
        ensures len { length frames.new ≡ length frames.old }
        ensures when { result ≡ true ↔ (length self.old.items ≡ self.old.capacity) × (count ≤ length self.old.items) }
    {
        if !self.is_full() {
            return false;
        }
        if count > self.len {
            return false;
        }
        exchange_oldest(&mut self.samples, frames, came);
        true
    }

    /// Takes the `count` oldest frames out, and writes their samples.
    pub fn pop_frames(&mut self, count: usize, out: &mut [T])
        requires bound { count ≤ length self.old.items }
        requires free { length out.old ≡ count * self.old.channels }
        ensures items { self.new.items ≡ drop count self.old.items }
        ensures capacity { self.new.capacity ≡ self.old.capacity }
        ensures channels { self.new.channels ≡ self.old.channels }
        ensures oldest { pieces self.old.channels count out.new ≡ take count self.old.items }
    {
        self.len -= count;
        self.samples.read_into(out);
    }

    /// Adds `count` frames, which lie one after another. A full ring buffer drops the oldest.
    pub fn push_frames(&mut self, frames: &[T], count: usize)
        requires { length frames.now ≡ count * self.old.channels }
        ensures items { self.new.items ≡ pushed_block self.old count frames.now }
        ensures capacity { self.new.capacity ≡ self.old.capacity }
        ensures channels { self.new.channels ≡ self.old.channels }
    {
        self.len += count.min(self.capacity - self.len);
        self.samples.extend_from_slice(frames);
    }

    /// Copies `count` of the oldest frames to the front of `out`: those of the ring buffer first, and then those of `coming`,
    /// which would come after them.
    pub fn oldest_into(&self, coming: &[T], count: usize, out: &mut [T])
        requires enough { count * self.now.channels ≤ length self.now.items * self.now.channels + length coming.now }
        requires free { count * self.now.channels ≤ length out.old }
        ensures frames { HasOldest self.now coming.now count out.new }
        ensures rest_unchanged { drop (count * self.now.channels) out.new ≡ drop (count * self.now.channels) out.old }
    {
        let end = count * self.channels;
        let own = end.min(self.len * self.channels);
        let (front, back) = self.samples.as_slices();
        copy_part(front, back, 0, &mut out[..own]);
        out[own..end].copy_from_slice(&coming[..end - own]);
    }

    /// Copies the samples of `count` frames, of which the first stands `late` places before the next one to come; each is
    /// `silence` where the ring buffer does not reach back so far.
    pub fn before_into(&self, late: usize, count: usize, silence: T, out: &mut [T])
        requires late { count ≤ late }
        requires len { length out.old ≡ count * self.now.channels }
        ensures { pieces self.now.channels count out.new ≡ take count (latest_frames silence late self.now) }
    {
        let silent_frames = self.silent_before(late, count);
        let first = (self.len + silent_frames).saturating_sub(late);
        let (silent, own) = out.split_at_mut(silent_frames * self.channels);
        fill(silent, silence);
        let (front, back) = self.samples.as_slices();
        copy_part(front, back, first * self.channels, own);
    }

    /// Copies one channel of `count` frames over that channel of as many frames in `out`. The first of them stands `late`
    /// places before the next one to come; a sample is `silence` where the ring buffer does not reach back so far.
    pub fn channel_before_into(
        &self,
        late: usize,
        count: usize,
        channel: usize,
        silence: T,
        out: &mut [T],
    )
        requires late { count ≤ late }
        requires channel { channel < self.now.channels }
        requires len { length out.old ≡ count * self.now.channels }
        ensures put { HasChannelBefore silence late self.now channel count out.new }
        ensures others { KeepsOtherChannels self.now.channels channel count out.old out.new }
    {
        let channels = self.channels;
        let silent_frames = self.silent_before(late, count);
        let first = (self.len + silent_frames).saturating_sub(late);
        let (silent, own) = out.split_at_mut(silent_frames * channels);
        fill_channel(silence, silent_frames, silent, channel, channels);
        let (front, back) = self.samples.as_slices();
        let from = first * channels + channel;
        copy_channel(
            front,
            back,
            from,
            channels,
            count - silent_frames,
            own,
            channel,
            channels,
        );
    }

    /// How many of `count` frames come before the oldest, where the first stands `late` places before the next one to come.
    #[inline(always)]
    fn silent_before(&self, late: usize, count: usize) -> usize
        ensures { result ≡ min (late - length self.now.items) count }
    {
        late.saturating_sub(self.len).min(count)
    }

    /// Takes the oldest frame away, if there is one.
    pub fn drop_front(&mut self)
        ensures items { self.new.items ≡ drop 1 self.old.items }
        ensures capacity { self.new.capacity ≡ self.old.capacity }
        ensures channels { self.new.channels ≡ self.old.channels }
    {
        self.len = self.len.saturating_sub(1);
        self.samples.truncate_front(self.len * self.channels);
    }

    /// One sample of one frame, counted from the oldest.
    #[inline(always)]
    pub fn sample(&self, place: usize, channel: usize) -> T
        requires place { place < length self.now.items }
        requires channel { channel < self.now.channels }
        ensures { (d : T) → result ≡ slice_index_or (slice_index_or self.now.items place []) channel d }
    {
        match self.samples.get(place * self.channels + channel) {
            Some(sample) => *sample,
            None => unreachable!(),
        }
    }

    /// Copies one frame, counted from the oldest.
    pub fn frame_into(&self, place: usize, out: &mut [T])
        requires place { place < length self.now.items }
        requires len { length out.old ≡ self.now.channels }
        ensures { slice_get self.now.items place ≡ Some out.new }
    {
        let (front, back) = self.samples.as_slices();
        copy_part(front, back, place * self.channels, out);
    }

    /// Copies one channel of every frame, the oldest first.
    pub fn channel_into(&self, channel: usize, out: &mut [T])
        requires channel { channel < self.now.channels }
        requires len { length out.old ≡ length self.now.items }
        ensures { (d : T) → out.new ≡ channel_of self.now.items channel d }
    {
        let (front, back) = self.samples.as_slices();
        match self.channels {
            1 => copy_part(front, back, 0, out),
            2 => copy_channel(front, back, channel, 2, out.len(), out, 0, 1),
            channels => copy_channel(front, back, channel, channels, out.len(), out, 0, 1),
        }
    }
}

/// Puts samples in the places of as many of the oldest of a full ring buffer, and writes those over them. The samples that came
/// then stand in `came`.
#[inline(always)]
fn exchange_oldest<T: Copy>(ring: &mut HeapCircularBuffer<T>, samples: &mut [T], came: &mut [T])
    requires full { length ring.old.items ≡ ring.old.capacity }
    requires bound { length samples.old ≤ length ring.old.items }
    requires free { length came.old ≡ length samples.old }
    ensures items { ring.new ≡ buffer (keep_last ring.old.capacity (ring.old.items ++ samples.old)) ring.old.capacity }
    ensures oldest { samples.new ≡ take (length samples.old) ring.old.items }
    ensures came { came.new ≡ samples.old }
{
    let len = ring.len();
    copy_batch(samples, came);
    let (front, back) = ring.as_slices();
    if samples.len() <= front.len() {
        copy_batch(&front[..samples.len()], samples);
    } else {
        copy_part(front, back, 0, samples);
    }
    ring.truncate_front(len - samples.len());
    ring.fill_from_slice(came);
}

/// Copies samples over as many others.
#[inline(always)]
fn copy_batch<T: Copy>(from: &[T], to: &mut [T])
    requires { length to.old ≡ length from.now }
    ensures { to.new ≡ from.now }
{
    // Copies of a known number of samples need no call: 4 or 5 frames of one or two channels are most batches.
    match from.len() {
        4 => to[..4].copy_from_slice(&from[..4]),
        5 => to[..5].copy_from_slice(&from[..5]),
        8 => to[..8].copy_from_slice(&from[..8]),
        10 => to[..10].copy_from_slice(&from[..10]),
        _ => to.copy_from_slice(from),
    }
}

/// Writes the same sample to each place.
#[inline(always)]
fn fill<T: Copy>(out: &mut [T], sample: T)
    ensures { out.new ≡ replicate (length out.old) sample }
{
    for place in out.iter_mut() {
        *place = sample;
    }
}

/// Copies the part of the joined slices that begins at `start`.
fn copy_part<T: Copy>(front: &[T], back: &[T], start: usize, out: &mut [T])
    requires within { start + length out.old ≤ length (front.now ++ back.now) }
    requires small { length (front.now ++ back.now) < 2 ^ 63 }
    ensures { out.new ≡ take (length out.old) (drop start (front.now ++ back.now)) }
{
    let end = start + out.len();
    let seam = front.len();
    if end <= seam {
        out.copy_from_slice(&front[start..end]);
    } else if start >= seam {
        out.copy_from_slice(&back[start - seam..end - seam]);
    } else {
        out[..seam - start].copy_from_slice(&front[start..]);
        out[seam - start..].copy_from_slice(&back[..end - seam]);
    }
}

/// Writes the same sample to `count` places that stand `apart` from one another, from the place `at` on.
#[inline(always)]
fn fill_channel<T: Copy>(sample: T, count: usize, out: &mut [T], at: usize, apart: usize)
    requires at { at < apart }
    requires free { count * apart ≤ length out.old }
    ensures put { (k : ℕ) → k < count → (d : T) → slice_index_or out.new (k * apart + at) d ≡ sample }
    ensures others { KeepsOtherChannels apart at count out.old out.new }
{
    for k in 0..count {
        out[k * apart + at] = sample;
    }
}

/// Copies `count` samples of the joined slices, which stand `step` places apart from the place `from` on, to places of `out`
/// that stand `apart` from one another, from the place `at` on.
#[inline(always)]
fn copy_channel<T: Copy>(
    front: &[T],
    back: &[T],
    from: usize,
    step: usize,
    count: usize,
    out: &mut [T],
    at: usize,
    apart: usize,
)
    requires within { (k : ℕ) → k < count → from + k * step < length (front.now ++ back.now) }
    requires small { from + length (front.now ++ back.now) < 2 ^ 62 }
    requires step { (1 ≤ step) × (step ≤ 16) }
    requires at { at < apart }
    requires free { count * apart ≤ length out.old }
    ensures put { (k : ℕ) → k < count → (d : T) → slice_index_or out.new (k * apart + at) d ≡ slice_index_or (front.now ++ back.now) (from + k * step) d }
    ensures others { KeepsOtherChannels apart at count out.old out.new }
{
    let seam = front.len();
    let in_front = seam.saturating_sub(from).div_ceil(step).min(count);
    let beyond = (from + in_front * step).saturating_sub(seam);
    let (near, far) = out.split_at_mut(in_front * apart);
    copy_every(front, from, step, in_front, near, at, apart);
    copy_every(back, beyond, step, count - in_front, far, at, apart);
}

/// Copies `count` samples that stand `step` places apart, from the place `from` on, to places of `out` that stand `apart` from
/// one another, from the place `at` on.
#[inline(always)]
fn copy_every<T: Copy>(
    source: &[T],
    from: usize,
    step: usize,
    count: usize,
    out: &mut [T],
    at: usize,
    apart: usize,
)
    requires source { (k : ℕ) → k < count → from + k * step < length source.now }
    requires at { at < apart }
    requires free { count * apart ≤ length out.old }
    ensures put { (k : ℕ) → k < count → (d : T) → slice_index_or out.new (k * apart + at) d ≡ slice_index_or source.now (from + k * step) d }
    ensures others { KeepsOtherChannels apart at count out.old out.new }
{
    for k in 0..count {
        out[k * apart + at] = source[from + k * step];
    }
}
