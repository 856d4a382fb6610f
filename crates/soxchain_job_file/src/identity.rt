//! What a job is known by.

/// A moment: seconds since the beginning of 1970, which may be negative, and nanoseconds after it, below 10^9.
#[derive(Clone, Copy, Debug, Drop, PartialEq, Eq)]
pub struct Stamp {
    pub seconds: i64,
    pub nanoseconds: u32,
}

/// What a job is known by.
#[derive(Drop)]
pub struct Identity {
    /// The words of its command line.
    pub words: Vec<String>,
    /// The XXH64 of each coefficient file.
    pub files: Vec<u64>,
    /// The bytes of IN.
    pub size: u64,
    /// When IN was changed last.
    pub modified: Stamp,
}

/// When a job began, and how many runs it has had.
#[derive(Clone, Copy, Debug, Drop, PartialEq, Eq)]
pub struct Runs {
    /// Seconds since the beginning of 1970.
    pub began: u64,
    pub count: u64,
}

/// What differs between a stored job and this one.
#[derive(Clone, Copy, Debug, Drop, PartialEq, Eq)]
pub enum Difference {
    /// The words of the command line.
    Words,
    /// The bytes of a coefficient file, or how many there are.
    Coefficients,
    /// The size of IN.
    Length,
    /// When IN was changed last.
    Time,
}
