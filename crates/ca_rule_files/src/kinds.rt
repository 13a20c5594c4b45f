//! The kinds of neighbourhoods of isotropic rules.

ghost use Rattle.std.specs.Prelude.{◌≡◌, ◌==◌, if◌then◌else◌};
ghost use Rattle.std.specs.List.{list_any};
ghost use Rattle.std.specs.Str.{bytes_eq};
ghost use Rattle.ca_rule_files.specs.Kinds.{kinds_with, turned, mirrored, turns, neighbours, is_of_kind};
ghost use Rattle.ca_rule_files.specs.Kinds.{live_neighbours, exchanged, letter_among, letter_of};

use ca_plane::Nine;
use ca_rule::Hood;

/// A kind of neighbourhoods: its letter, and one of its neighbourhoods. The others are its turns and
/// reflections. The centre doesn't count.
#[derive(Clone, Copy)]
pub struct Kind {
    pub letter: u8,
    pub example: Nine,
}

/// A kind by its letter and one of its neighbourhoods.
macro_rules! kind {
    ($letter:literal, $example:expr) => {
        Kind {
            letter: $letter,
            example: $example,
        }
    };
}

/// The kinds with one live neighbour.
const ONE: [Kind; 2] = [
    kind!(b'c', [0, 0, 0, 0, 0, 0, 0, 0, 1]),
    kind!(b'e', [0, 0, 0, 0, 0, 0, 0, 1, 0]),
];

/// Those with two.
const TWO: [Kind; 6] = [
    kind!(b'c', [0, 0, 0, 0, 0, 0, 1, 0, 1]),
    kind!(b'e', [0, 0, 0, 0, 0, 1, 0, 1, 0]),
    kind!(b'a', [0, 0, 0, 0, 0, 0, 0, 1, 1]),
    kind!(b'i', [0, 0, 0, 1, 0, 1, 0, 0, 0]),
    kind!(b'k', [0, 0, 0, 1, 0, 0, 0, 0, 1]),
    kind!(b'n', [0, 0, 1, 0, 0, 0, 1, 0, 0]),
];

/// Those with three.
const THREE: [Kind; 10] = [
    kind!(b'c', [0, 0, 1, 0, 0, 0, 1, 0, 1]),
    kind!(b'e', [0, 0, 0, 1, 0, 1, 0, 1, 0]),
    kind!(b'a', [0, 0, 0, 0, 0, 1, 0, 1, 1]),
    kind!(b'i', [0, 0, 0, 0, 0, 0, 1, 1, 1]),
    kind!(b'k', [0, 0, 1, 1, 0, 0, 0, 1, 0]),
    kind!(b'n', [0, 0, 0, 0, 0, 1, 1, 0, 1]),
    kind!(b'j', [0, 0, 0, 0, 0, 1, 1, 1, 0]),
    kind!(b'q', [0, 0, 1, 0, 0, 0, 1, 1, 0]),
    kind!(b'r', [0, 0, 0, 1, 0, 1, 0, 0, 1]),
    kind!(b'y', [0, 0, 1, 1, 0, 0, 0, 0, 1]),
];

/// Those with four.
const FOUR: [Kind; 13] = [
    kind!(b'c', [1, 0, 1, 0, 0, 0, 1, 0, 1]),
    kind!(b'e', [0, 1, 0, 1, 0, 1, 0, 1, 0]),
    kind!(b'a', [0, 0, 0, 0, 0, 1, 1, 1, 1]),
    kind!(b'i', [0, 0, 0, 1, 0, 1, 1, 0, 1]),
    kind!(b'k', [0, 0, 1, 1, 0, 0, 0, 1, 1]),
    kind!(b'n', [0, 0, 1, 0, 0, 0, 1, 1, 1]),
    kind!(b'j', [0, 0, 1, 1, 0, 1, 0, 1, 0]),
    kind!(b'q', [0, 0, 1, 1, 0, 0, 1, 1, 0]),
    kind!(b'r', [0, 0, 0, 1, 0, 1, 0, 1, 1]),
    kind!(b'y', [0, 0, 1, 1, 0, 0, 1, 0, 1]),
    kind!(b't', [0, 0, 1, 1, 0, 1, 0, 0, 1]),
    kind!(b'w', [0, 0, 1, 0, 0, 1, 1, 1, 0]),
    kind!(b'z', [0, 0, 1, 1, 0, 1, 1, 0, 0]),
];

/// The kinds with this many live neighbours, up to four. With none there is one neighbourhood, which has no
/// letter.
pub(crate) fn kinds_with(count: u16) -> &'static [Kind]
    ensures { result.now ≡ kinds_with count }
{
    match count {
        1 => &ONE,
        2 => &TWO,
        3 => &THREE,
        4 => &FOUR,
        _ => &[],
    }
}

/// Nine cells after a quarter turn clockwise.
fn turned(nine: &Nine) -> Nine
    ensures { result ≡ turned nine.now }
{
    let [nw, n, ne, w, c, e, sw, s, se] = *nine;
    [sw, w, nw, s, c, n, se, e, ne]
}

/// Nine cells with east and west exchanged.
fn mirrored(nine: &Nine) -> Nine
    ensures { result ≡ mirrored nine.now }
{
    let [nw, n, ne, w, c, e, sw, s, se] = *nine;
    [ne, n, nw, e, c, w, se, s, sw]
}

/// The eight cells round the centre.
fn neighbours(nine: &Nine) -> [u8; 8]
    ensures { result ≡ neighbours nine.now }
{
    let [nw, n, ne, w, _, e, sw, s, se] = *nine;
    [nw, n, ne, w, e, sw, s, se]
}

/// Whether two neighbourhoods are the same, whatever their centres.
fn are_same(some: &Nine, other: &Nine) -> bool
    ensures { result ≡ bytes_eq (neighbours some.now) (neighbours other.now) }
{
    neighbours(some) == neighbours(other)
}

/// Whether a neighbourhood is a turn of the example.
fn is_turn_of(nine: &Nine, example: &Nine) -> bool
    ensures { result ≡ list_any (λ oriented. bytes_eq (neighbours oriented) (neighbours nine.now))
        (turns example.now) }
{
    let quarter = turned(example);
    let half = turned(&quarter);
    let last = turned(&half);
    are_same(example, nine)
        || are_same(&quarter, nine)
        || are_same(&half, nine)
        || are_same(&last, nine)
}

/// Whether a neighbourhood is of the kind.
fn is_of_kind(nine: &Nine, kind: &Kind) -> bool
    ensures { result ≡ is_of_kind nine.now kind.now }
{
    is_turn_of(nine, &kind.example) || is_turn_of(nine, &mirrored(&kind.example))
}

/// How many neighbours are live.
pub(crate) fn live_neighbours(nine: &Nine) -> u16
    ensures { result ≡ live_neighbours nine.now }
{
    Hood::Moore.sum(nine)
}

/// Nine cells with live and dead ones exchanged.
fn exchanged(nine: &Nine) -> Nine
    ensures { result ≡ exchanged nine.now }
{
    nine.map(other)
}

/// A live cell for a dead one, and a dead one for any other.
fn other(cell: u8) -> u8
    ensures { result ≡ (if cell == 0 then 1 else 0) }
{
    u8::from(cell == 0)
}

/// The letter of the kind among these that the neighbourhood is of.
fn letter_among(kinds: &[Kind], nine: &Nine) -> Option<u8>
    ensures { result ≡ letter_among kinds.now nine.now }
{
    let found = kinds.iter().find(|kind| is_of_kind(nine, kind));
    found.map(|kind| kind.letter)
}

/// The letter of a neighbourhood. One with 5, 6 or 7 live neighbours has the letter of the one with live and
/// dead cells exchanged; those with 0 and 8 have none.
pub(crate) fn letter_of(nine: &Nine) -> Option<u8>
    ensures { result ≡ letter_of nine.now }
{
    let live = live_neighbours(nine);
    if live <= 4 {
        return letter_among(kinds_with(live), nine);
    }
    letter_among(kinds_with(8u16.saturating_sub(live)), &exchanged(nine))
}
