//! The counts of a conversion as words of 64 bits.
ghost use Rattle.std.specs.Prelude.{◌≡◌, ◌∷◌, [], ℕ, Option, Some};
ghost use Rattle.soxchain_job_chain.specs.FrozenConversion.{count_words, left_words};
ghost use Rattle.soxchain_job_chain.specs.declared.counts.Counts.{Counts as Parts};

/// How many words there are.
pub const WORDS: usize = 9;

/// How many bytes they take.
pub const COUNTS_SIZE: usize = 8 * WORDS;

/// What a frozen conversion begins with.
#[derive(Drop)]
pub struct Counts {
    pub announced: u64,
    pub frames_out: u64,
    pub sound_bytes: u64,
    pub out_clips: u64,
    pub has_head: bool,
    pub skip: u64,
    pub left: Option<u64>,
    pub pending: u64,
}

/// A size as two words: 1 and the size, or 0 and 0 for none.
fn words_of(size: Option<u64>) -> (u64, u64)
    ensures { result.0 ∷ result.1 ∷ [] ≡ left_words size }
{
    match size {
        None => (0, 0),
        Some(size) => (1, size),
    }
}

/// The size that two words are; None where they are none.
fn size_of(is_some: u64, size: u64) -> Option<Option<u64>>
    ensures { (left : Option ℕ) → is_some ∷ size ∷ [] ≡ left_words left → result ≡ Some left }
{
    match (is_some, size) {
        (0, 0) => Some(None),
        (1, size) => Some(Some(size)),
        _ => None,
    }
}

impl Counts {
    /// The words.
    pub fn words(&self) -> [u64; WORDS]
        ensures { result ≡ count_words self.now }
    {
        let (is_announced, left) = words_of(self.left);
        [
            self.announced,
            self.frames_out,
            self.sound_bytes,
            self.out_clips,
            u64::from(self.has_head),
            self.skip,
            is_announced,
            left,
            self.pending,
        ]
    }

    /// The counts of these words; None where there are none.
    pub fn of_words(words: &[u64]) -> Option<Counts>
        ensures { (counts : Parts) → words.now ≡ count_words counts → result ≡ Some counts }
    {
        let [
            announced,
            frames_out,
            sound_bytes,
            out_clips,
            has_head,
            skip,
            is_announced,
            left,
            pending,
        ] = words
        else {
            return None;
        };
        if *has_head > 1 {
            return None;
        }
        let left = size_of(*is_announced, *left)?;
        Some(Counts {
            announced: *announced,
            frames_out: *frames_out,
            sound_bytes: *sound_bytes,
            out_clips: *out_clips,
            has_head: *has_head == 1,
            skip: *skip,
            left,
            pending: *pending,
        })
    }
}
