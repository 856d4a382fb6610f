// Written by scripts/effects from effects/*.toml. Do not edit.
//! The table of what the programs say of the effects.

/// Passes the table of effects to a macro. So the answers to `--help` are one constant each, which contracts can name.
#[macro_export]
macro_rules! effects {
    ($then:ident) => {
        $then! {
            {
                name: "trim",
                help_line: "trim {POSITION}                        keeps what lies between positions",
                usage: "the words are: trim POSITION .., at most 64, as 1.5, 0:30, 100s, =4 from the start, -2 from the end",
                limits: TIME_LIMITS,
                instead: SOX_HAS_IT,
            }
            {
                name: "pad",
                help_line: "pad {LENGTH[@POSITION]}                puts silence in",
                usage: "the words are: pad LENGTH[@POSITION] .., at most 64, as pad 0.5 1@10",
                limits: TIME_LIMITS,
                instead: SOX_HAS_IT,
            }
            {
                name: "delay",
                help_line: "delay {POSITION}                       delays each channel by its own time",
                usage: "the words are: delay POSITION .., one for each of the first channels, none from the end, as delay 0 0.1",
                limits: TIME_LIMITS,
                instead: SOX_HAS_IT,
            }
            {
                name: "echo",
                help_line: "echo GAIN-IN GAIN-OUT <DELAY DECAY>    adds echoes, delays in milliseconds",
                usage: ECHO_USAGE,
                limits: ECHO_LIMITS,
                instead: SOX_HAS_IT,
            }
            {
                name: "echos",
                help_line: "echos GAIN-IN GAIN-OUT <DELAY DECAY>   adds echoes in series",
                usage: ECHO_USAGE,
                limits: ECHO_LIMITS,
                instead: SOX_HAS_IT,
            }
            {
                name: "fade",
                help_line: "fade t IN [STOP [OUT]]                 fades in and out, in straight lines",
                usage: "the words are: fade t IN [STOP [OUT]], as fade t 0.5 or fade t 1 -0 1",
                limits: TIME_LIMITS,
                instead: "say the type, and that is t: fade t 0.5 for fade 0.5",
            }
            {
                name: "vol",
                help_line: "vol GAIN [amplitude]                   multiplies each sample",
                usage: "the words are: vol GAIN [amplitude], as vol 0.5",
                limits: "the limits are -1000 and 1000, and 40 letters",
                instead: "say a factor: vol 0.501187 for vol -6dB, by 10 ^ (dB / 20); there is no limiter",
            }
            {
                name: "dcshift",
                help_line: "dcshift SHIFT                          shifts each sample, 1 is full scale",
                usage: "the word is: dcshift SHIFT, from -2 to 2",
                limits: "the limits are -2 and 2",
                instead: SOX_HAS_IT,
            }
            {
                name: "fir",
                help_line: "fir FILE | fir NUMBER ..               filters by coefficients",
                usage: "the words are: fir FILE, or fir and 2 to 1024 numbers",
                limits: "the limits are -1000 and 1000 for each coefficient",
                instead: "name a file, or say the numbers: fir 0.25 0.5 0.25",
            }
            {
                name: "remix",
                help_line: "remix [-a|-m] OUT-SPEC ..              mixes channels: 1,2 or 2-3v0.5 or 0",
                usage: "the words are: remix [-a|-m] OUT-SPEC .., 1 to 16, as remix 1,2 or remix 2v0.5 1 0",
                limits: "the limits are -1000 and 1000 for factors, and 64 contributions to a channel",
                instead: "say factors: 1v0.5; neither -p nor decibels",
            }
            {
                name: "upsample",
                help_line: "upsample [FACTOR]                      puts silent frames between",
                usage: FACTOR_USAGE,
                limits: FACTOR_LIMITS,
                instead: SOX_HAS_IT,
            }
            {
                name: "downsample",
                help_line: "downsample [FACTOR]                    keeps frames at multiples of FACTOR",
                usage: FACTOR_USAGE,
                limits: FACTOR_LIMITS,
                instead: SOX_HAS_IT,
            }
        }
    };
}
