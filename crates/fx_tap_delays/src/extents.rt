//! How many frames back the arguments of `delay`, `echo` and `echos` reach. A tap is a delay and a decay.

ghost use Rattle.std.specs.Prelude.{◌≡◌, ◌-◌, ◌^◌, map, min};
ghost use Rattle.fx_fixed.specs.Extents.{largest};
ghost use Rattle.fx_tap_delays.specs.DelayExtents.{sum_of_delays, tap_delay};

use fx_fixed::Gain;

/// The longest delay.
pub fn max_delay(delays: &[u64]) -> u64
    ensures { result ≡ largest delays.now }
{
    let mut maximum = 0;
    'delays: for delay in delays {
        maximum = maximum.max(*delay);
    }
    maximum
}

/// The longest delay of a tap.
pub fn max_tap_delay(taps: &[(u64, Gain)]) -> u64
    ensures { result ≡ largest (map tap_delay taps.now) }
{
    let mut maximum = 0;
    'taps: for tap in taps {
        maximum = maximum.max(tap.0);
    }
    maximum
}

/// The delays of taps, added, or `u64::MAX` where that is more.
pub fn total_delay(taps: &[(u64, Gain)]) -> u64
    ensures { result ≡ min (sum_of_delays taps.now) (2 ^ 64 - 1) }
{
    let mut total: u64 = 0;
    'taps: for tap in taps {
        total = total.saturating_add(tap.0);
    }
    total
}
