//! The names of squares.

ghost use Rattle.std.specs.Prelude.{◌≡◌, ◌+◌, ◌<◌, ◌≤◌, ◌*◌, ◌^◌, ◌⊎◌, max, min, MatchOption, IsTrue, ◌↔◌};
ghost use Rattle.ca_quad.specs.Squares.{meaning_of_id, cells2, cells4, place_id};
ghost use Rattle.ca_quad.specs.inner.IdForm.{AreCells2, AreCells4, four_numbers};

use crate::named::IdForm;
use std::marker::Model;

/// The name of a square in a store. Two squares there have one id exactly where level and cells are the same.
#[derive(Clone, Copy, Debug, PartialEq, Eq, Hash, Drop)]
pub struct Id {
    // Below 16 a 2 by 2 square of two states, below 65552 a 4 by 4 one, and else a place in the store.
    number: u32,
}

impl Model for Id {
    ghost use Rattle.std.specs.Prelude.{ℕ};

    ghost Value = { ℕ };

    ghost view = { λ id. id.number };

    ghost inverse = { λ n. record { number = n } };
}

impl Id {
    /// The number of the name. Of two squares that are kept as nodes, the one that was added later has the
    /// larger number. A small square of two states is named by its cells. Its number is below theirs,
    /// whenever it was made.
    pub fn number(self) -> usize
        ensures value { result ≡ self }
        ensures most { result < 2 ^ 32 }
    {
        self.number as usize
    }

    // The numbers of four squares, one after the other, the north-western lowest.
    pub(crate) fn four_numbers(nw: Id, ne: Id, sw: Id, se: Id) -> u128
        ensures { result ≡ four_numbers nw ne sw se }
    {
        nw.number as u128
            + 4294967296 * ne.number as u128
            + 18446744073709551616 * sw.number as u128
            + 79228162514264337593543950336 * se.number as u128
    }

    // The 2 by 2 square of these cells.
    pub(crate) fn cells2(cells: u8) -> Id
        requires { cells < 16 }
        ensures { result ≡ cells2 cells }
    {
        Id {
            number: cells as u32,
        }
    }

    // The 4 by 4 square of these cells.
    pub(crate) fn cells4(cells: u16) -> Id
        ensures { result ≡ cells4 cells }
    {
        Id {
            number: 16 + cells as u32,
        }
    }

    // The square that is kept at this place.
    pub(crate) fn at_place(place: usize) -> Id
        requires { place ≤ 9 * 2 ^ 28 }
        ensures { result ≡ place_id place }
    {
        Id {
            number: 65552 + place as u32,
        }
    }

    // What the id stands for.
    pub(crate) fn form(self) -> IdForm
        ensures { result ≡ meaning_of_id self }
    {
        if self.number < 16 {
            return IdForm::Cells2(self.number as u8);
        }
        if self.number < 65552 {
            return IdForm::Cells4((self.number - 16) as u16);
        }
        IdForm::Kept(self.number - 65552)
    }

    // The cells of four 2 by 2 squares of two states that lie together.
    pub(crate) fn sixteen_cells(nw: Id, ne: Id, sw: Id, se: Id) -> Option<u16>
        ensures { MatchOption result (16 ≤ max (max nw ne) (max sw se)) (AreCells2 nw ne sw se) }
    {
        if nw.number.max(ne.number).max(sw.number.max(se.number)) >= 16 {
            return None;
        }
        Some((nw.number + 16 * ne.number + 256 * sw.number + 4096 * se.number) as u16)
    }

    // The cells of four 4 by 4 squares of two states that lie together.
    pub(crate) fn sixty_four_cells(nw: Id, ne: Id, sw: Id, se: Id) -> Option<u64>
        ensures { MatchOption result
            ((min (min nw ne) (min sw se) < 16) ⊎ (65552 ≤ max (max nw ne) (max sw se)))
            (AreCells4 nw ne sw se) }
    {
        let most = nw.number.max(ne.number).max(sw.number.max(se.number));
        let least = nw.number.min(ne.number).min(sw.number.min(se.number));
        if least < 16 || most >= 65552 {
            return None;
        }
        Some(
            (nw.number - 16) as u64
                + 65536 * (ne.number - 16) as u64
                + 4294967296 * (sw.number - 16) as u64
                + 281474976710656 * (se.number - 16) as u64,
        )
    }

    // Whether four squares are one.
    pub(crate) fn are_one(nw: Id, ne: Id, sw: Id, se: Id) -> bool
        ensures { IsTrue result ↔ ((nw ≡ ne) × (nw ≡ sw) × (nw ≡ se)) }
    {
        nw == ne && nw == sw && nw == se
    }
}
