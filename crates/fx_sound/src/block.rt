//! Frames of a sound that a source holds already, many at a time.

ghost use Rattle.std.specs.Prelude.{◌≡◌, ◌≤◌, ◌<◌, ◌*◌, length, drop};
ghost use Rattle.fx_frame_base.specs.Lists.{pieces};
ghost use Rattle.fx_sound.specs.Container.{after_frames, first_frames};
ghost use Rattle.fx_sound.specs.Sound.{AreHeld, HoldsNoMore, size_of};

use super::progress::Progress;
use crate::Source;
use crate::bulk::decode_into;

impl Progress {
    /// How many whole frames of a sound its source holds, that are announced, and few enough to be read: at most `maximum`. No read
    /// is asked for.
    pub fn held_frames<R>(&self, source: &Source<R>, maximum: usize) -> usize
        ensures held { AreHeld self.now source.now.bytes result }
        ensures maximum { result ≤ maximum }
        ensures all { result < maximum → HoldsNoMore self.now (length source.now.bytes) result }
    {
        self.frames_in(source.held()).min(maximum)
    }

    /// Decodes `count` of the frames that are held, which stay.
    pub fn decode_held<R>(&self, source: &Source<R>, count: usize, samples: &mut [i32])
        requires held { AreHeld self.now source.now.bytes count }
        requires free { length samples.old ≡ count * self.now.channels }
        ensures { pieces self.now.channels count samples.new
            ≡ first_frames self.now.coding self.now.channels count source.now.bytes }
    {
        let bytes = source.peek(count * self.frame_size());
        decode_into(self.coding(), bytes, samples);
    }

    /// Takes `count` of the frames that are held from the sound.
    pub fn pass_held<R>(&mut self, source: &mut Source<R>, count: usize)
        requires { AreHeld self.old source.old.bytes count }
        ensures bytes { source.new.bytes ≡ drop (count * size_of self.old) source.old.bytes }
        ensures reader { source.new.reader ≡ source.old.reader }
        ensures short { source.new.short ≡ source.old.short }
        ensures counted { self.new ≡ after_frames self.old count }
    {
        source.consume(count * self.frame_size());
        self.advance_by(count);
    }
}
