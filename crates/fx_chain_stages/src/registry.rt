// Written by scripts/effects from effects/*.toml. Do not edit.
//! The stages of all effects as one type, and the calls that each of them answers.

pub use fx_cut::{Downsample, Fade, Pad, Trim, Upsample};
pub use fx_tap_delays::{Delay, Echo, Echos};
pub use fx_tap_fir::Fir;
pub use fx_tap_pointwise::{DcShift, Remix, Vol};

/// The stage of an effect.
#[derive(Drop)]
pub enum EffectStage {
    Trim(Trim),
    Pad(Pad),
    Delay(Delay),
    Echo(Echo),
    Echos(Echos),
    Fade(Fade),
    Vol(Vol),
    DcShift(DcShift),
    Fir(Fir),
    Remix(Remix),
    Upsample(Upsample),
    Downsample(Downsample),
}

/// The same call on the stage of whichever effect it is.
macro_rules! each {
    ($effect:expr, $stage:ident => $call:expr) => {
        match $effect {
            EffectStage::Trim($stage) => $call,
            EffectStage::Pad($stage) => $call,
            EffectStage::Delay($stage) => $call,
            EffectStage::Echo($stage) => $call,
            EffectStage::Echos($stage) => $call,
            EffectStage::Fade($stage) => $call,
            EffectStage::Vol($stage) => $call,
            EffectStage::DcShift($stage) => $call,
            EffectStage::Fir($stage) => $call,
            EffectStage::Remix($stage) => $call,
            EffectStage::Upsample($stage) => $call,
            EffectStage::Downsample($stage) => $call,
        }
    };
}

/// The same call on the stage of an effect that rounds each sample alone; for that of any other the function returns 0.
macro_rules! each_by_samples {
    ($effect:expr, $stage:ident => $call:expr) => {
        match $effect {
            EffectStage::Vol($stage) => $call,
            EffectStage::DcShift($stage) => $call,
            _ => return 0,
        }
    };
}

/// The same call on the stage of an effect that gives or omits each frame by its place; for that of any other `$other`.
macro_rules! each_selected {
    ($effect:expr, $stage:ident => $call:expr, $other:expr) => {
        match $effect {
            EffectStage::Trim($stage) => $call,
            EffectStage::Fade($stage) => $call,
            _ => $other,
        }
    };
}

/// The stage of an effect, as `$make` of its type returns it for the channels, for the arguments in its words, and for `$more`.
/// Where a type allocates no memory its `new` has no fault: there `$ok` makes a result of its value.
macro_rules! made {
    ($effect:expr, $make:ident, [$($ok:ident)?], $alloc:expr, $channels:expr $(, $more:expr)*) => {
        match $effect {
            Effect::Trim(positions) => $crate::registry::Trim::$make($alloc, $channels, positions $(, $more)*)
                .map(EffectStage::Trim),
            Effect::Pad(pads) => $crate::registry::Pad::$make($alloc, $channels, pads $(, $more)*)
                .map(EffectStage::Pad),
            Effect::Delay(delays) => $crate::registry::Delay::$make($alloc, $channels, delays $(, $more)*)
                .map(EffectStage::Delay),
            Effect::Echo(echo) => $crate::registry::Echo::$make($alloc, $channels, echo.gain_in, echo.gain_out, &echo.taps $(, $more)*)
                .map(EffectStage::Echo),
            Effect::Echos(echos) => $crate::registry::Echos::$make($alloc, $channels, echos.gain_in, echos.gain_out, &echos.taps $(, $more)*)
                .map(EffectStage::Echos),
            Effect::Fade(fade) => $crate::registry::Fade::$make($alloc, $channels, fade.fade_in, fade.stop, fade.fade_out $(, $more)*)
                .map(EffectStage::Fade),
            Effect::Vol(gain) => $($ok)?($crate::registry::Vol::$make($channels, *gain $(, $more)*))
                .map(EffectStage::Vol),
            Effect::DcShift(shift) => $($ok)?($crate::registry::DcShift::$make($channels, *shift $(, $more)*))
                .map(EffectStage::DcShift),
            Effect::Fir(gains) => $crate::registry::Fir::$make($alloc, $channels, gains $(, $more)*)
                .map(EffectStage::Fir),
            Effect::Remix(specs) => $crate::registry::Remix::$make($alloc, $channels, specs $(, $more)*)
                .map(EffectStage::Remix),
            Effect::Upsample(factor) => $($ok)?($crate::registry::Upsample::$make($channels, u64::from(*factor) $(, $more)*))
                .map(EffectStage::Upsample),
            Effect::Downsample(factor) => $($ok)?($crate::registry::Downsample::$make($channels, u64::from(*factor) $(, $more)*))
                .map(EffectStage::Downsample),
        }
    };
}

pub(crate) use each;
pub(crate) use each_by_samples;
pub(crate) use each_selected;
pub(crate) use made;
