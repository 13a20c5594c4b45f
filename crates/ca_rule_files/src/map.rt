//! Rules as MAP strings.

ghost use Rattle.std.specs.Prelude.{◌≡◌, ◌<◌, ◌^◌, ◌-◌, ℕ, List, replicate, IfOk, IfErr, IfSome, IfNone};
ghost use Rattle.std.specs.List.{list_all};
ghost use Rattle.ca_rule_files.specs.Map.{is_base64, sextet, bit_of, number_of, map_next, are_characters};
ghost use Rattle.ca_rule_files.specs.Map.{IsMap, NamesMap, IsMapFault};
ghost use Rattle.std.proofs.Common.{arith, rules};
ghost use Rattle.std.proofs.lemmas.Bool.Decides.{nat_tests};

use ca_plane::bytes::strip;
use ca_plane::{Automaton, Nine};
use ca_rule::RuleFault;

/// A rule of two states as a MAP string: the next state for each of the 512 neighbourhoods (Golly Help,
/// QuickLife: MAP strings). A dead cell without live neighbours is never born.
#[derive(Clone, Copy)]
pub struct MapRule<'t> {
    characters: &'t [u8],
    ghost stays_empty: { map_next characters.now (replicate 9 0) ≡ 0 },
}

impl<'t> MapRule<'t> {
    /// The rule that the text names: `MAP` and 86 characters of base64. It borrows the text. Nothing here
    /// takes memory.
    ///
    /// # Errors
    ///
    /// Fails where the text names no such rule, with the reason.
    pub fn parse(text: &'t [u8]) -> Result<MapRule<'t>, RuleFault>
        ensures found { IfOk result (λ rule. NamesMap text.now rule.characters.now) }
        ensures fault { IfErr result (λ f. IsMapFault text.now f) }
    {
        if text.contains(&b':') {
            return Err(RuleFault::Bounded);
        }
        let Some(characters) = map_characters(text) else {
            return Err(RuleFault::Unknown);
        };
        if bit_of(characters, 0) != 0 {
            return Err(RuleFault::Wakes);
        }
        Ok(MapRule { characters })
    }
}

impl Automaton for MapRule<'_> {
    ghost state_count = { λ _. 2 };

    ghost next_of = { λ rule nine. map_next rule.characters.now nine };

    ghost sound = { λ rule. map_next rule.characters.now (replicate 9 0) ≡ 0 };

    fn states(&self) -> u16 {
        2
    }

    fn next(&self, nine: &Nine) -> u8 {
        bit_of(self.characters, number_of(nine))
    }

    ghost closed = { λ rule nine _ _ _. Prim.omega arith };

    ghost quiet = { λ rule sound. sound };
}

/// The characters of a MAP string.
#[tactic(auto, using(crate::proofs::Maps::same_characters))]
fn map_characters(text: &[u8]) -> Option<&[u8]>
    ensures found { IfSome result (λ c. IsMap text.now c.now) }
    ensures none { IfNone result ((characters : List ℕ) → IsMap text.now characters → ⊥) }
{
    let characters = strip(text, b"MAP")?;
    if !are_characters(characters) {
        return None;
    }
    Some(characters)
}

/// Whether the bytes are 86 characters of base64 whose last four bits are 0.
fn are_characters(characters: &[u8]) -> bool
    ensures { result ≡ are_characters characters.now }
{
    if characters.len() != 86 {
        return false;
    }
    are_base64(characters) && sextet(characters[85]) % 16 == 0
}

/// Whether each byte is a character of base64.
fn are_base64(bytes: &[u8]) -> bool
    ensures { result ≡ list_all is_base64 bytes.now }
{
    bytes.iter().all(|byte| is_base64(*byte))
}

/// Whether the byte is a character of base64.
fn is_base64(byte: u8) -> bool
    ensures { result ≡ is_base64 byte }
{
    byte.is_ascii_alphanumeric() || byte == b'+' || byte == b'/'
}

/// The number below 64 that a character of base64 stands for.
fn sextet(byte: u8) -> u8
    ensures value { result ≡ sextet byte }
    ensures low { result < 64 }
{
    match byte {
        b'A'..=b'Z' => byte - b'A',
        b'a'..=b'z' => byte - b'a' + 26,
        b'0'..=b'9' => byte - b'0' + 52,
        b'+' => 62,
        _ => 63,
    }
}

/// The bit with this number.
fn bit_of(characters: &[u8], number: u32) -> u8
    ensures { result ≡ bit_of characters.now number }
{
    let character = characters.get((number / 6) as usize).copied().unwrap_or(0);
    sextet(character) / weight(number % 6) % 2
}

/// The weight of the bit of a character with this number, of six.
fn weight(number: u32) -> u8
    requires { number < 6 }
    ensures value { result ≡ 2 ^ (5 - number) }
    ensures some { 0 < result }
{
    match number {
        0 => 32,
        1 => 16,
        2 => 8,
        3 => 4,
        4 => 2,
        _ => 1,
    }
}

/// The number of a neighbourhood.
fn number_of(nine: &Nine) -> u32
    ensures { result ≡ number_of nine.now }
{
    let [nw, n, ne, w, c, e, sw, s, se] = nine.map(u32::from);
    256 * nw + 128 * n + 64 * ne + 32 * w + 16 * c + 8 * e + 4 * sw + 2 * s + se
}
