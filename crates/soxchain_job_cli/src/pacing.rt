//! How often a checkpoint is written.

use soxchain_job::{Offsets, Pace, Pacing};
use soxchain_job_rules::{Round, next_pieces};
use std::time::Instant;

/// The bytes of a piece.
pub const PIECE_SIZE: usize = 1 << 16;

/// The microseconds of a second.
const SECOND: u64 = 1_000_000;

/// Measures how long the pieces of a round take and how long its checkpoint, and says how many pieces the next one has.
#[derive(Drop)]
pub struct Pacer {
    rt: HostRuntime,
    /// The microseconds wanted between two checkpoints.
    interval: u64,
    /// The pieces of the last round.
    pieces: u64,
    /// When they began, and when they were converted.
    began: Option<Instant>,
    converted: Option<Instant>,
}

/// The microseconds from one moment to a later one.
fn microseconds(from: Instant, to: Instant) -> u64 {
    u64::try_from(to.saturating_duration_since(from).as_micros()).unwrap_or(u64::MAX)
}

impl Pacer {
    /// A checkpoint about every `seconds` seconds.
    pub fn new(rt: HostRuntime, seconds: u64) -> Pacer {
        Pacer {
            rt,
            interval: seconds.saturating_mul(SECOND),
            pieces: 0,
            began: None,
            converted: None,
        }
    }

    /// The last round, which ended at this moment; None before the first one.
    fn last_round(&self, now: Option<Instant>) -> Option<Round> {
        let (began, converted) = (self.began?, self.converted?);
        Some(Round {
            pieces: self.pieces,
            converting: microseconds(began, converted),
            checkpoint: microseconds(converted, now?),
        })
    }
}

impl Pacing for Pacer {
    fn next(&mut self, _offsets: &Offsets) -> Pace {
        let now = Instant::now(&self.rt).ok();
        let every = next_pieces(self.last_round(now), self.interval);
        self.pieces = every;
        self.began = now;
        self.converted = None;
        Pace {
            piece: PIECE_SIZE,
            every,
        }
    }

    fn converted(&mut self) {
        self.converted = Instant::now(&self.rt).ok();
    }
}
