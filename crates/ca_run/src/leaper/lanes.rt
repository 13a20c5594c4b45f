//! Centres of squares of 16 by 16 and of 32 by 32 cells, many cells at once.

ghost use Rattle.std.specs.Prelude.{◌≡◌, ℕ, ◌+◌, ◌≤◌, ◌^◌, IfOk, IfSome};
ghost use Rattle.ca_run.specs.Centre.{IsCentre};
ghost use Rattle.ca_run.specs.inner.AtCost.{GoesOnAtCost};
ghost use Rattle.ca_run.specs.inner.Centres.{HasCentre, ShowsCentre};

use super::Leaper;
use ca_bricks::WordSquare;
use ca_plane::{Automaton, Memory};
use ca_quad::Id;

/// The cells of a centre: one word where it is 8 cells wide, four where it is 16.
#[derive(Clone, Copy, Drop)]
pub(super) enum CentreWords {
    One(u64),
    Four(WordSquare),
}

// `part_level` is the level of a square's sixteen parts: its own level is that and 2.
impl<A: Automaton> Leaper<A> {
    // The words of a square's centre after 2^j generations: of 16 by 16 or of 32 by 32 cells, none of them
    // above 1, where it is known how cells go on, many at once.
    pub(super) fn centre_words(
        &self,
        id: Id,
        part_level: u8,
        j: u8,
    ) -> Result<Option<CentreWords>, Memory>
        requires { HasCentre self.now.nodes id part_level j }
        ensures { IfOk result (λ found. IfSome found
            (ShowsCentre (A.next_of self.now.rule) self.now.nodes id part_level j)) }
    {
        let Some(rule) = self.cell_rule() else {
            return Ok(None);
        };
        if part_level == 2 {
            let Some(words) = self.words(id) else {
                return Ok(None);
            };
            let mut scratch = Vec::new(self.recent_centres.allocator());
            let word = words.centre(rule, leap_length(j), &mut scratch)?;
            return Ok(Some(CentreWords::One(word)));
        }
        if part_level == 3 {
            let Some(wide) = self.wide_square(id) else {
                return Ok(None);
            };
            let mut scratch = Vec::new(self.recent_centres.allocator());
            let (first, more) = split_leap(j);
            let words = wide.centre(rule, first, more, &mut scratch)?;
            return Ok(Some(CentreWords::Four(words)));
        }
        Ok(None)
    }

    // The centre of each square whose centre these words show.
    pub(super) fn from_centre_words(&mut self, words: CentreWords) -> Result<Id, Memory>
        ensures centre { (id k j : ℕ) → HasCentre self.old.nodes id k j
            → ShowsCentre (A.next_of self.old.rule) self.old.nodes id k j words
            → IfOk result (IsCentre (A.next_of self.old.rule) self.new.nodes id k j) }
        ensures at_cost { GoesOnAtCost A self.old self.new 0 5 }
    {
        let _ = &self.store;
        match words {
            CentreWords::One(word) => self.from_word(word),
            CentreWords::Four(words) => self.from_words(words),
        }
    }
}

// How many generations a leap of 2^j goes at first, and then: all at once where 4 are enough.
fn split_leap(j: u8) -> (u8, u8)
    requires { j ≤ 3 }
    ensures sum { result.0 + result.1 ≡ 2 ^ j }
    ensures first { result.0 ≤ 4 }
    ensures more { result.1 ≤ 4 }
{
    if j == 3 {
        return (4, 4);
    }
    (0, leap_length(j))
}

// The 2^j generations that go at once.
fn leap_length(j: u8) -> u8
    requires { j ≤ 2 }
    ensures value { result ≡ 2 ^ j }
    ensures few { result ≤ 4 }
{
    match j {
        0 => 1,
        1 => 2,
        _ => 4,
    }
}
