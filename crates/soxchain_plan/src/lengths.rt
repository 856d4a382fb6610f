//! What each effect does to the rate, its latency, and the bytes that it may hold.
ghost use Rattle.std.specs.Prelude.{◌≡◌, ◌≤◌, ◌^◌, ℕ};
ghost use Rattle.fx_plan_effects.specs.Effects.{Usable, act};
ghost use Rattle.fx_plan_effects.specs.Meanings.{InPlace, kind_at, line_of_act, recipe_at};
ghost use Rattle.soxchain_plan.specs.Outlines.{held_bytes, late_by, milliseconds, rate_after};

use fx_plan_effects::Effect;

/// The latency of an effect, in frames of its input; `line` is the capacity of its line.
pub fn lateness(effect: &Effect, line: u64) -> u64
    ensures late { line ≡ line_of_act (act effect.now) → result ≡ late_by (act effect.now) }
    ensures none_due { line ≡ line_of_act (act effect.now)
        → (channels : ℕ) → (kind_at (recipe_at (InPlace channels (act effect.now)))).due result ≡ 0 }
{
    match effect {
        Effect::Trim(_) | Effect::Pad(_) | Effect::Fade(_) => line,
        Effect::Fir(_) => line / 2,
        _ => 0,
    }
}

/// The frames per second that an effect gives, where it takes `rate`, or `u32::MAX` where they are more.
pub fn rate_after(effect: &Effect, rate: u32) -> u32
    requires { Usable (act effect.now) }
    ensures { result ≡ rate_after (act effect.now) rate }
{
    match effect {
        Effect::Upsample(factor) => rate.saturating_mul(*factor),
        Effect::Downsample(factor) => rate / *factor,
        _ => rate,
    }
}

/// The milliseconds of `frames` frames at a rate, rounded up; 0 where the rate is 0.
pub fn in_milliseconds(frames: u64, rate: u32) -> u128
    ensures { result ≡ milliseconds frames rate }
{
    if rate == 0 {
        0
    } else {
        let rate = u128::from(rate);
        (u128::from(frames) * 1000 + rate - 1) / rate
    }
}

/// The bytes of the samples that an effect may hold: its line, in `echos` of 64 bits a sample, and one pending frame.
pub fn bytes_held(effect: &Effect, line: u64, channels: usize) -> u64
    requires lined { line ≡ line_of_act (act effect.now) }
    requires held { line ≤ 2 ^ 28 }
    requires bound { channels ≤ 16 }
    requires usable { Usable (act effect.now) }
    ensures { result ≡ held_bytes (InPlace channels (act effect.now)) }
{
    let width = match effect {
        Effect::Echos(_) => 8,
        _ => 4,
    };
    line * channels as u64 * width + effect.channels_after(channels) as u64 * 4
}
