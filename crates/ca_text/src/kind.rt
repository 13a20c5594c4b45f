//! The kinds of claims: the words of each, the limits of its numbers, and what it asks.

ghost use Rattle.std.specs.Prelude.{◌≡◌, ◌≢◌, List, ℕ, [], ◌∷◌, not, codes, IsTrue, ◌↔◌, OnOk};
ghost use Rattle.ca_plane.specs.Prelude.{Every, is_line_end, words_of, Puts};
ghost use Rattle.ca_text.specs.declared.kind.Kind.TheVariants as kinds;
ghost use Rattle.ca_text.specs.Both.{twice};
ghost use Rattle.ca_text.specs.Kinds.{is_of_second_version, HasGoodNumbers, asks_of, keyword_of, words_after_name, spaced};
ghost use Rattle.ca_text.specs.inner.Reading.{IsClaimOfWords};

use crate::asks::{Asks, Expected, Forbidden};
use crate::both::Both;
use crate::line::Claim;
use crate::numbers::{
    is_move, is_period, is_shift, push_count, push_count_and_name, push_vector, shift_of,
};
use crate::words::{four_words, name_and_number, one_word, three_words, three_words_and_shift};
use ca_plane::Memory;
use ca_plane::bytes::whole_number;
use ca_plane::limits::MOST_GENERATIONS;
use ca_plane::text::push_text;

/// What is claimed, the patterns apart.
#[derive(Clone, Copy, Debug, PartialEq, Eq)]
pub enum Kind {
    /// The pattern is live, and one generation later it is what it was.
    Still,
    /// The pattern is live and is back after the period. At no earlier time, starting at 1, is it back.
    Oscillator { period: u64 },
    /// The pattern is live, and after the period it is moved by the shift. At no earlier time, starting at 1,
    /// is it back, however moved.
    Spaceship { period: u64, dx: i64, dy: i64 },
    /// After the generations the pattern's plane is that of the other pattern, cell for cell.
    Becomes { generations: u64 },
    /// After the generations the pattern's plane is that of the other pattern, moved by the shift.
    BecomesShifted { generations: u64, dx: i64, dy: i64 },
    /// The pattern is live, after the generations its plane is empty, and at no earlier time it is.
    Dies { generations: u64 },
}

// What a claim of a still life asks.
const STILL: Asks = Asks {
    live: true,
    generations: 1,
    expected: Expected::Own,
    dx: 0,
    dy: 0,
    moved: false,
    forbidden: Forbidden::Nothing,
};

impl Kind {
    /// The keyword of claims of this kind.
    pub fn keyword<'a>(self) -> &'a [u8]
        ensures { result.now ≡ keyword_of self }
    {
        match self {
            Kind::Still => b"still",
            Kind::Oscillator { .. } => b"oscillator",
            Kind::Spaceship { .. } => b"spaceship",
            Kind::Becomes { .. } | Kind::BecomesShifted { .. } => b"becomes",
            Kind::Dies { .. } => b"dies",
        }
    }

    /// Puts the words of a claim of this kind that follow its first name, each after a blank, where this is its
    /// second name.
    ///
    /// # Errors
    ///
    /// Fails where there is no memory for them; what `out` holds then is open.
    pub fn push_words_after_name(self, out: &mut Vec<u8>, second: &[u8]) -> Result<(), Memory>
        ensures { OnOk result (Puts out.old.items out.new.items (spaced (words_after_name second.now self))) }
    {
        match self {
            Kind::Still => Ok(()),
            Kind::Oscillator { period } => push_count(out, period),
            Kind::Spaceship { period, dx, dy } => {
                push_count(out, period)?;
                push_vector(out, dx, dy)
            }
            Kind::Becomes { generations } => push_count_and_name(out, generations, second),
            Kind::BecomesShifted {
                generations,
                dx,
                dy,
            } => {
                push_count_and_name(out, generations, second)?;
                push_text(out, b" shift")?;
                push_vector(out, dx, dy)
            }
            Kind::Dies { generations } => push_count(out, generations),
        }
    }

    /// Whether claims of this kind came with the second version of the language.
    pub(crate) fn is_of_second_version(self) -> bool
        ensures { result ≡ is_of_second_version self }
    {
        match self {
            Kind::Still | Kind::Oscillator { .. } | Kind::Spaceship { .. } | Kind::Becomes { .. } =>
                false,
            Kind::BecomesShifted { .. } | Kind::Dies { .. } => true,
        }
    }

    /// Whether the numbers of a claim of this kind are within their limits.
    pub(crate) fn has_good_numbers(self) -> bool
        ensures { IsTrue result ↔ HasGoodNumbers self }
    {
        match self {
            Kind::Still => true,
            Kind::Oscillator { period } => is_period(2, period),
            Kind::Spaceship { period, dx, dy } => is_period(1, period) && is_move(dx, dy),
            Kind::Becomes { generations } => generations <= MOST_GENERATIONS,
            Kind::BecomesShifted {
                generations,
                dx,
                dy,
            } => generations <= MOST_GENERATIONS && is_shift(dx) && is_shift(dy),
            Kind::Dies { generations } => 1 <= generations && generations <= MOST_GENERATIONS,
        }
    }

    /// What a claim of this kind asks.
    pub fn asks(self) -> Asks
        ensures { result ≡ asks_of self }
    {
        match self {
            Kind::Still => STILL,
            Kind::Oscillator { period } => Asks {
                generations: period,
                forbidden: Forbidden::InPlace,
                ..STILL
            },
            Kind::Spaceship { period, dx, dy } => Asks {
                generations: period,
                dx,
                dy,
                moved: true,
                forbidden: Forbidden::Anywhere,
                ..STILL
            },
            Kind::Becomes { generations } => becoming(generations),
            Kind::BecomesShifted {
                generations,
                dx,
                dy,
            } => Asks {
                dx,
                dy,
                moved: true,
                ..becoming(generations)
            },
            Kind::Dies { generations } => Asks {
                generations,
                expected: Expected::NoCells,
                forbidden: Forbidden::EmptyPlane,
                ..STILL
            },
        }
    }
}

// What a claim asks of a pattern that becomes another.
fn becoming(generations: u64) -> Asks
    ensures { result ≡ asks_of (kinds.Becomes generations) }
{
    Asks {
        live: false,
        generations,
        expected: Expected::Other,
        ..STILL
    }
}

/// A claim about one pattern.
fn about_one(name: &[u8], kind: Kind) -> Claim<&[u8]>
    ensures { result ≡ record { patterns = twice name.entry; kind = kind } }
{
    Claim {
        patterns: Both {
            first: name,
            second: name,
        },
        kind,
    }
}

/// The claim that a keyword and the words after it make.
pub(crate) fn claim<'a>(keyword: &[u8], words: &'a [u8]) -> Option<Claim<&'a [u8]>>
    requires { Every (λ b. not (is_line_end b)) words.now }
    ensures { IsClaimOfWords (keyword.now ∷ words_of words.now) result }
{
    if keyword == b"still".as_slice() {
        return still(words);
    }
    if keyword == b"oscillator".as_slice() {
        return oscillator(words);
    }
    if keyword == b"spaceship".as_slice() {
        return spaceship(words);
    }
    if keyword == b"becomes".as_slice() {
        return becomes(words);
    }
    if keyword == b"dies".as_slice() {
        return dies(words);
    }
    None
}

/// The claim of a line whose keyword is `still`, by the words after it.
fn still(words: &[u8]) -> Option<Claim<&[u8]>>
    requires { Every (λ b. not (is_line_end b)) words.now }
    ensures { IsClaimOfWords (codes "still" ∷ words_of words.now) result }
{
    let name = one_word(words)?;
    Some(about_one(name, Kind::Still))
}

/// The claim of a line whose keyword is `oscillator`, by the words after it.
fn oscillator(words: &[u8]) -> Option<Claim<&[u8]>>
    requires { Every (λ b. not (is_line_end b)) words.now }
    ensures { IsClaimOfWords (codes "oscillator" ∷ words_of words.now) result }
{
    let (name, period) = name_and_number(words)?;
    Some(about_one(name, Kind::Oscillator { period }))
}

/// The claim of a line whose keyword is `spaceship`, by the words after it.
fn spaceship(words: &[u8]) -> Option<Claim<&[u8]>>
    requires { Every (λ b. not (is_line_end b)) words.now }
    ensures { IsClaimOfWords (codes "spaceship" ∷ words_of words.now) result }
{
    let (name, period, dx, dy) = four_words(words)?;
    let period = whole_number(period)?;
    let (dx, dy) = shift_of(dx, dy)?;
    Some(about_one(name, Kind::Spaceship { period, dx, dy }))
}

/// The claim of a line whose keyword is `becomes`, by the words after it.
fn becomes(words: &[u8]) -> Option<Claim<&[u8]>>
    requires { Every (λ b. not (is_line_end b)) words.now }
    ensures { IsClaimOfWords (codes "becomes" ∷ words_of words.now) result }
{
    let Some((first, generations, second)) = three_words(words) else {
        return becomes_shifted(words);
    };
    let generations = whole_number(generations)?;
    Some(Claim {
        patterns: Both { first, second },
        kind: Kind::Becomes { generations },
    })
}

/// The claim of a line whose keyword is `becomes` and that has more or fewer than three words after it.
fn becomes_shifted(words: &[u8]) -> Option<Claim<&[u8]>>
    requires line { Every (λ b. not (is_line_end b)) words.now }
    requires more { (a b c : List ℕ) → words_of words.now ≢ a ∷ b ∷ c ∷ [] }
    ensures { IsClaimOfWords (codes "becomes" ∷ words_of words.now) result }
{
    let ((first, generations, second), (dx, dy)) = three_words_and_shift(words)?;
    let generations = whole_number(generations)?;
    let (dx, dy) = shift_of(dx, dy)?;
    Some(Claim {
        patterns: Both { first, second },
        kind: Kind::BecomesShifted {
            generations,
            dx,
            dy,
        },
    })
}

/// The claim of a line whose keyword is `dies`, by the words after it.
fn dies(words: &[u8]) -> Option<Claim<&[u8]>>
    requires { Every (λ b. not (is_line_end b)) words.now }
    ensures { IsClaimOfWords (codes "dies" ∷ words_of words.now) result }
{
    let (name, generations) = name_and_number(words)?;
    Some(about_one(name, Kind::Dies { generations }))
}
