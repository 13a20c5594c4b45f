//! How many neighbours of each cell of a tile are live, of those that a rule counts.

ghost use Rattle.std.specs.Prelude.{◌≡◌, ◌+◌, ◌*◌, ◌<◌, ℕ, suc};
ghost use Rattle.ca_plane.specs.declared.counting.Neighbourhood.{Neighbourhood};
ghost use Rattle.ca_plane.specs.declared.counting.Neighbourhood.TheVariants.{Moore, VonNeumann, Hexagonal};
ghost use Rattle.ca_plane.specs.Prelude.{row_cells};
ghost use Rattle.ca_bricks.specs.Tiles.{number, sum_round};

use super::bits::Bits;
use crate::count::Count;
use crate::neighbours::{EightNeighbours, FourNeighbours, SixNeighbours};

/// How the counted neighbours of the cells of a tile are added up.
pub trait CountInTile {
    // Which neighbours are counted.
    ghost counted: { Neighbourhood };

    // The number of live cells among the counted neighbours of each cell that isn't on the edge.
    fn count(alive: Bits) -> Count<Bits>
        ensures { (x y : ℕ) → x < 14 → y < 14
            → number result (suc x) (suc y) ≡ sum_round counted (row_cells alive.rows) x y };
}

impl CountInTile for EightNeighbours {
    ghost counted = { Moore };

    #[inline(always)]
    fn count(alive: Bits) -> Count<Bits> {
        let west = alive.west();
        let east = alive.east();
        let (sides, two_sides) = add2(west, east);
        let (row, two_rows) = add3(west, east, alive);
        let (ones, carried) = add3(row.north(), sides, row.south());
        let (a, two_a) = add2(two_rows.north(), two_rows.south());
        let (b, two_b) = add2(two_sides, carried);
        let (twos, two_c) = add2(a, b);
        let (fours, eights) = add3(two_a, two_b, two_c);
        Count {
            ones,
            twos,
            fours,
            eights,
        }
    }
}

impl CountInTile for FourNeighbours {
    ghost counted = { VonNeumann };

    #[inline(always)]
    fn count(alive: Bits) -> Count<Bits> {
        let (sides, two_sides) = add2(alive.west(), alive.east());
        let (ends, two_ends) = add2(alive.north(), alive.south());
        let (ones, carried) = add2(sides, ends);
        let (twos, fours) = add3(two_sides, two_ends, carried);
        Count {
            ones,
            twos,
            fours,
            eights: Bits::all(false),
        }
    }
}

impl CountInTile for SixNeighbours {
    ghost counted = { Hexagonal };

    #[inline(always)]
    fn count(alive: Bits) -> Count<Bits> {
        let west = alive.west();
        let east = alive.east();
        let (beside, two_beside) = add2(west, east);
        let (upper, two_upper) = add2(west, alive);
        let (lower, two_lower) = add2(alive, east);
        let (ones, carried) = add3(upper.north(), beside, lower.south());
        let (a, two_a) = add2(two_upper.north(), two_lower.south());
        let (b, two_b) = add2(two_beside, carried);
        let (twos, two_c) = add2(a, b);
        let (fours, eights) = add3(two_a, two_b, two_c);
        Count {
            ones,
            twos,
            fours,
            eights,
        }
    }
}

// The sum of two bits at each place, in binary, the ones first.
#[inline(always)]
fn add2(a: Bits, b: Bits) -> (Bits, Bits)
    ensures { (x y : ℕ) → row_cells a.rows x y + row_cells b.rows x y
        ≡ row_cells result.0.rows x y + 2 * row_cells result.1.rows x y }
{
    (a.xor(b), a.and(b))
}

// The sum of three bits at each place.
#[inline(always)]
fn add3(a: Bits, b: Bits, c: Bits) -> (Bits, Bits)
    ensures { (x y : ℕ) → row_cells a.rows x y + row_cells b.rows x y + row_cells c.rows x y
        ≡ row_cells result.0.rows x y + 2 * row_cells result.1.rows x y }
{
    let one = a.xor(b);
    (one.xor(c), a.and(b).or(one.and(c)))
}
