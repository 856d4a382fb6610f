//! The line of progress: how much of the sound was converted, how fast, and how long the rest takes.

use std::io;
use std::time::Instant;

/// The milliseconds between two lines.
const INTERVAL: u128 = 1000;

/// Where a sound lies in its file, to tell bytes of the file as times.
#[derive(Clone, Copy, Debug, Drop)]
pub struct SoundPlace {
    /// The bytes before the sound.
    pub start: u64,
    /// The bytes of the sound.
    pub size: u64,
    /// The bytes of a second of it, not 0.
    pub second: u64,
}

/// When the line of progress was shown, and from where this run began.
#[derive(Drop)]
pub struct ProgressLine {
    rt: HostRuntime,
    place: SoundPlace,
    /// The bytes of IN where this run began.
    began_at: u64,
    began: Instant,
    shown: Option<Instant>,
}

/// A number of seconds as hours, minutes and seconds.
#[derive(Clone, Copy, Drop)]
struct Clock(u64);

impl std::fmt::Display for Clock {
    fn fmt<W: std::fmt::Write>(&self, f: &mut std::fmt::Formatter<W>) -> std::fmt::Result {
        let (hours, minutes, seconds) = (self.0 / 3600, self.0 / 60 % 60, self.0 % 60);
        write!(f, "{hours}:{minutes:02}:{seconds:02}")
    }
}

impl SoundPlace {
    /// The bytes of the sound before this byte of the file.
    fn converted(&self, at: u64) -> u64 {
        at.saturating_sub(self.start).min(self.size)
    }
}

impl ProgressLine {
    /// That of a run that begins at this byte of IN.
    pub fn new(rt: HostRuntime, place: SoundPlace, at: u64) -> io::Result<ProgressLine> {
        Ok(ProgressLine {
            rt,
            place,
            began_at: at,
            began: Instant::now(&rt)?,
            shown: None,
        })
    }

    /// Shows the line where a second has gone since the last one. A failed write of it does not stop the conversion.
    pub fn update(&mut self, at: u64) {
        let Ok(now) = Instant::now(&self.rt) else {
            return;
        };
        let since = now.saturating_duration_since(self.shown.unwrap_or(self.began));
        if since.as_millis() >= INTERVAL {
            self.show(at, now);
            self.shown = Some(now);
        }
    }

    /// Shows the line.
    fn show(&self, at: u64, now: Instant) {
        let second = u128::from(self.place.second);
        let done = u128::from(self.place.converted(at));
        let size = u128::from(self.place.size);
        let fresh = done.saturating_sub(u128::from(self.place.converted(self.began_at)));
        let elapsed = now.saturating_duration_since(self.began).as_millis();
        let percent = quotient(done.saturating_mul(100), size);
        // Tenths of the speed of the sound itself.
        let speed = quotient(quotient(fresh.saturating_mul(10_000), second), elapsed);
        let left = quotient(size.saturating_sub(done).saturating_mul(elapsed), fresh) / 1000;
        let (whole, tenth) = (speed / 10, speed % 10);
        let place = clock_of(quotient(done, second));
        let end = clock_of(quotient(size, second));
        let left = clock_of(left);
        let _shown = eprint!(&self.rt;
            "\r{percent:>3}%  {place} of {end}  speed {whole}.{tenth}x  left {left} "
        );
    }

    /// Ends the line, where one was shown.
    pub fn finish(&self) {
        if self.shown.is_some() {
            let _ended = eprintln!(&self.rt;);
        }
    }
}

/// A quotient, rounded down; 0 where the divisor is 0.
fn quotient(number: u128, divisor: u128) -> u128 {
    number.checked_div(divisor).unwrap_or(0)
}

/// Seconds as they are shown; more than fit are shown as the greatest number.
fn clock_of(seconds: u128) -> Clock {
    Clock(u64::try_from(seconds).unwrap_or(u64::MAX))
}
