//! How many pieces a round has.
ghost use Rattle.std.specs.Prelude.{◌<◌, ◌≤◌, ◌≡◌, ◌*◌, IfSome};
ghost use Rattle.soxchain_job_rules.specs.Pace.{converting_time, next_pieces};

/// The pieces of the first round.
const FIRST_PIECES: u64 = 64;

/// A round that has ended: pieces were converted, and then a checkpoint was written.
#[derive(Clone, Copy, Debug, PartialEq, Eq)]
pub struct Round {
    /// How many pieces were converted.
    pub pieces: u64,
    /// How long that took, in microseconds.
    pub converting: u64,
    /// How long the checkpoint took, in microseconds.
    pub checkpoint: u64,
}

/// How many pieces the next round has, where `interval` microseconds are wanted between two checkpoints: at the rate of the last
/// round they take about the interval, and never less time than the last checkpoint took.
pub fn next_pieces(last: Option<Round>, interval: u64) -> u64
    ensures value { result ≡ next_pieces last interval }
    ensures some { 0 < result }
    ensures amortized { IfSome last (λ round. result < u64.MAX
        → round.checkpoint * round.pieces ≤ result * converting_time round) }
{
    match last {
        None if interval == 0 => 1,
        None => FIRST_PIECES,
        Some(round) => pieces_after(&round, interval),
    }
}

fn pieces_after(last: &Round, interval: u64) -> u64
    ensures { result ≡ next_pieces (Some last.now) interval }
{
    let pieces = u128::from(last.pieces);
    let converting = u128::from(last.converting.max(1));
    let amortizing = (u128::from(last.checkpoint) * pieces).div_ceil(converting);
    let fitting = u128::from(interval) * pieces / converting;
    let wanted = fitting.min(4 * pieces).max(amortizing).max(1);
    u64::try_from(wanted).unwrap_or(u64::MAX)
}
