//! How many bits a sample of the output has.
ghost use Rattle.std.specs.Prelude.{◌≡◌, IsTrue};
ghost use Rattle.fx_sound.specs.Kind.{is_coding_of};
ghost use Rattle.fx_plan.specs.Bits.{au_coding_of_bits, bits_in, coding_with, wav_coding_of_bits};

use fx_frame::Coding;
use fx_sound::Kind;

/// The bits of a sample.
#[derive(Clone, Copy, Debug, PartialEq, Eq)]
pub enum Bits {
    Eight,
    Sixteen,
    TwentyFour,
    ThirtyTwo,
}

impl Bits {
    /// The bits of a sample in a coding.
    pub fn of(coding: Coding) -> Bits
        ensures value { result ≡ bits_in coding }
    {
        match coding {
            Coding::U8 | Coding::S8 => Bits::Eight,
            Coding::S16Le | Coding::S16Be => Bits::Sixteen,
            Coding::S24Le | Coding::S24Be => Bits::TwentyFour,
            Coding::S32Le | Coding::S32Be => Bits::ThirtyTwo,
        }
    }

    // The coding of WAVE: little-endian, 8 bits unsigned.
    fn in_wav(self) -> Coding
        ensures { result ≡ wav_coding_of_bits self }
    {
        match self {
            Bits::Eight => Coding::U8,
            Bits::Sixteen => Coding::S16Le,
            Bits::TwentyFour => Coding::S24Le,
            Bits::ThirtyTwo => Coding::S32Le,
        }
    }

    // The coding of AU: big-endian.
    fn in_au(self) -> Coding
        ensures { result ≡ au_coding_of_bits self }
    {
        match self {
            Bits::Eight => Coding::S8,
            Bits::Sixteen => Coding::S16Be,
            Bits::TwentyFour => Coding::S24Be,
            Bits::ThirtyTwo => Coding::S32Be,
        }
    }

    /// The coding of a container whose samples have these bits.
    pub fn coding(self, kind: Kind) -> Coding
        ensures value { result ≡ coding_with kind self }
        ensures of_kind { IsTrue (is_coding_of kind result) }
    {
        match kind {
            Kind::Wav => self.in_wav(),
            Kind::Au => self.in_au(),
        }
    }
}
