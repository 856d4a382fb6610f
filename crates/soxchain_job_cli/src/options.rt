//! The options of this program, before the words of soxchain.

/// Whether the line of progress is shown.
#[derive(Clone, Copy, Debug, Drop, PartialEq, Eq)]
pub enum ShowProgress {
    /// Where standard error is a terminal.
    Auto,
    Always,
    Never,
}

/// What is to be done.
#[derive(Clone, Copy, Debug, Drop, PartialEq, Eq)]
pub enum Task {
    /// Begin the conversion, or continue it.
    Convert,
    /// Show the checkpoint.
    Status,
    /// Remove the part and the checkpoint.
    Abandon,
}

/// The options, and the words of soxchain after them.
#[derive(Clone, Copy, Drop)]
pub struct Options<'a> {
    pub task: Task,
    /// Seconds between two checkpoints; 0 for one as often as it takes no longer than converting.
    pub seconds: u64,
    /// The name of the record, where it is not OUT.job.json.
    pub record: Option<&'a str>,
    pub progress: ShowProgress,
    /// Whether the record is to have the SHA-256 of both files.
    pub has_sha256: bool,
    pub line: &'a [String],
}

/// Why the options are refused.
#[derive(Clone, Copy, Drop)]
pub enum OptionFault<'a> {
    /// There is no such option.
    Unknown(&'a str),
    /// This word is answered only where it is the only one.
    NotAlone(&'a str),
    /// The value of this option is missing.
    NoValue(&'a str),
    /// This option does not take this value.
    BadValue(&'a str, &'a str),
}

/// The maximum of `--every`: a day.
const MAX_SECONDS: u64 = 86_400;

/// The seconds between two checkpoints where no option gives them.
const DEFAULT_SECONDS: u64 = 10;

/// When the line of progress is shown, by the value of `--progress`.
fn progress_of(value: &str) -> Option<ShowProgress> {
    match value {
        "auto" => Some(ShowProgress::Auto),
        "always" => Some(ShowProgress::Always),
        "never" => Some(ShowProgress::Never),
        _ => None,
    }
}

/// The seconds that `--every` gives.
fn seconds_of(value: &str) -> Option<u64> {
    let seconds = value.parse::<u64>().ok()?;
    if seconds <= MAX_SECONDS {
        Some(seconds)
    } else {
        None
    }
}

impl<'a> Options<'a> {
    /// Takes the value of an option.
    fn set(&mut self, option: &'a str, value: &'a str) -> Result<(), OptionFault<'a>> {
        let is_taken = match option {
            "--every" => match seconds_of(value) {
                Some(seconds) => {
                    self.seconds = seconds;
                    true
                }
                None => false,
            },
            "--progress" => match progress_of(value) {
                Some(progress) => {
                    self.progress = progress;
                    true
                }
                None => false,
            },
            _ => {
                self.record = Some(value);
                !value.is_empty()
            }
        };
        if is_taken {
            Ok(())
        } else {
            Err(OptionFault::BadValue(option, value))
        }
    }
}

/// Splits the words after the program's name into its options and the words of soxchain.
pub fn read_options<'a>(words: &'a [String]) -> Result<Options<'a>, OptionFault<'a>> {
    let mut options = Options {
        task: Task::Convert,
        seconds: DEFAULT_SECONDS,
        record: None,
        progress: ShowProgress::Auto,
        has_sha256: false,
        line: &[],
    };
    let mut waiting: Option<&'a str> = None;
    for (place, word) in words.iter().enumerate() {
        let word = word.as_str();
        if let Some(option) = waiting {
            options.set(option, word)?;
            waiting = None;
            continue;
        }
        match word {
            "--status" => options.task = Task::Status,
            "--abandon" => options.task = Task::Abandon,
            "--sha256" => options.has_sha256 = true,
            "--every" | "--record" | "--progress" => waiting = Some(word),
            "--help" | "--version" => return Err(OptionFault::NotAlone(word)),
            _ if word.starts_with("--") => return Err(OptionFault::Unknown(word)),
            _ => {
                options.line = &words[place..];
                return Ok(options);
            }
        }
    }
    match waiting {
        Some(option) => Err(OptionFault::NoValue(option)),
        None => Ok(options),
    }
}
