// Written by scripts/effects from effects/*.toml. Do not edit.
//! The effects that the tests of chains feed, by their words.

/// Effects from one channel to one, each in its place between remixes where it needs more channels.
pub const EFFECTS: &[&str] = &[
    "trim 5s 20s 33s",
    "trim 3s -4s",
    "pad 2s@3s 3s",
    "pad 2s@3s 1s@100s 3s",
    "delay 7s",
    "echo 0.8 0.9 1 0.5 2.5 0.25",
    "echos 0.8 0.9 1 0.5 2.5 0.25",
    "fade t 9s -0 11s",
    "vol 1.5",
    "vol 0.5",
    "dcshift 0.4",
    "fir 0.25 0.5 0.25",
    "remix 1v0.5",
    "remix 1,1",
    "remix 1 1 remix 1,2",
    "upsample 3",
    "downsample 2",
    "downsample 4",
];
