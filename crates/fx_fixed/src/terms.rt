//! The terms of a time specification.

ghost use Rattle.std.specs.Prelude.{◌≡◌, ◌+◌, ◌^◌, ◌<◌, ◌≤◌, [], false, IfOk, MatchOption, length, drop};
ghost use Rattle.fx_fixed.specs.Decimals;
ghost use Rattle.fx_fixed.specs.Later.{BeginsSigned, IsLater, IsNext, IsWithTerm};
ghost use Rattle.fx_fixed.specs.Times.{are_terms, later_terms, term_of, terms_of};
ghost use Rattle.fx_fixed.specs.TermEnd.{term_len};

use crate::clock::clock_frames;
use crate::count::count_frames;
use crate::times::TimeFault;

/// The maximum number of bytes of a time specification.
const TIME_BYTES: usize = 80;

/// The frames of a time's first term, and what its later terms add and take away.
#[derive(Clone, Copy, Drop)]
pub struct Terms {
    pub first: u64,
    pub added: u64,
    pub taken: u64,
}

/// What some terms add and take away, and the first fault among them.
#[derive(Clone, Copy, Drop)]
pub struct Later {
    pub added: u64,
    pub taken: u64,
    pub fault: Option<TimeFault>,
}

impl Later {
    /// The same with one term more; nothing where that has the form of no term.
    fn with_term(self, is_taken: bool, term: Result<u64, TimeFault>) -> Option<Later>
        requires added { self.added < 2 ^ 63 }
        requires taken { self.taken < 2 ^ 63 }
        requires bound { IfOk term (λ frames. frames ≤ 2 ^ 40) }
        ensures { MatchOption result (term ≡ Err TimeFault.BadTime)
            (λ later. IsWithTerm self is_taken term later) }
    {
        match term {
            Ok(frames) if is_taken => Some(Later {
                taken: self.taken + frames,
                ..self
            }),
            Ok(frames) => Some(Later {
                added: self.added + frames,
                ..self
            }),
            Err(TimeFault::BadTime) => None,
            Err(fault) => Some(Later {
                fault: self.fault.or(Some(fault)),
                ..self
            }),
        }
    }
}

/// Whether a byte is a plus or a minus.
fn is_sign(byte: u8) -> bool
    ensures { result ≡ Decimals.is_sign byte }
{
    byte == b'+' || byte == b'-'
}

/// Whether a byte is an `e` or an `E`.
fn is_mark(byte: u8) -> bool
    ensures { result ≡ Decimals.is_mark byte }
{
    byte == b'e' || byte == b'E'
}

/// Where the first term of a text ends: at a plus or a minus that does not follow an `e`.
fn term_end(text: &[u8]) -> usize
    ensures value { result ≡ term_len false text.now }
    ensures within { result ≤ length text.now }
    ensures rest { BeginsSigned (drop result text.now) }
{
    let mut after_mark = false;
    for (i, byte) in text.iter().enumerate() {
        if is_sign(*byte) && !after_mark {
            return i;
        }
        after_mark = is_mark(*byte);
    }
    text.len()
}

/// The frames of a term, or its first fault.
fn term_frames(term: &[u8], rate: u32) -> Result<u64, TimeFault>
    requires size { length term.now < 100 }
    requires rate { 0 < rate }
    ensures value { result ≡ term_of rate term.now }
    ensures bound { IfOk result (λ frames. frames ≤ 2 ^ 40) }
{
    if term.ends_with(b"s") {
        return count_frames(&term[..term.len() - 1]);
    }
    clock_frames(term, rate)
}

/// The first of a text's later terms, whether it is to be taken away, and what follows it.
fn next_term(text: &[u8]) -> Option<(bool, &[u8], &[u8])>
    requires { BeginsSigned text.now }
    ensures { MatchOption result (text.now ≡ [])
        (λ next. IsNext text.now next.0 next.1.now next.2.now) }
{
    let (sign, more) = text.split_first()?;
    let end = term_end(more);
    Some((*sign == b'-', &more[..end], &more[end..]))
}

/// What the later terms of a time add and take away; nothing where one has another form.
fn read_later(text: &[u8], rate: u32) -> Option<Later>
    requires begins { BeginsSigned text.now }
    requires size { length text.now ≤ 80 }
    requires rate { 0 < rate }
    ensures { MatchOption result (are_terms (later_terms text.now) ≡ false)
        (λ later. IsLater rate later (later_terms text.now)) }
{
    let mut later = Later {
        added: 0,
        taken: 0,
        fault: None,
    };
    let mut rest = text;
    while let Some((is_taken, term, after)) = next_term(rest) {
        later = later.with_term(is_taken, term_frames(term, rate))?;
        rest = after;
    }
    Some(later)
}

/// The terms of a time specification, or its first fault of form, or of one term after the other.
pub fn read_terms(text: &[u8], rate: u32) -> Result<Terms, TimeFault>
    requires { 0 < rate }
    ensures { result ≡ terms_of rate text.now }
{
    if text.len() > TIME_BYTES {
        return Err(TimeFault::BadTime);
    }
    let end = term_end(text);
    let first = term_frames(&text[..end], rate);
    let Some(later) = read_later(&text[end..], rate) else {
        return Err(TimeFault::BadTime);
    };
    let frames = first?;
    if let Some(fault) = later.fault {
        return Err(fault);
    }
    Ok(Terms {
        first: frames,
        added: later.added,
        taken: later.taken,
    })
}
