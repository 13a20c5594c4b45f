//! Squares that are cut out of four that lie together.

ghost use Rattle.std.specs.Prelude.{◌≡◌, ◌≢◌, ℕ, suc, ◌+◌, ◌*◌, ◌<◌, ◌≤◌, ◌^◌, ◌%◌, None, IsOk, IfOk, OnOk};
ghost use Rattle.ca_quad.specs.Sound.{Grows};
ghost use Rattle.ca_quad.specs.SquareValues.{IsClosedUnderParts};
ghost use Rattle.ca_quad.specs.inner.Cut.{AreNeighbours, cells_of_four, half_of, overlapping_fours, neighbours_at, IsCut};
ghost use Rattle.ca_quad.specs.inner.Cut.{AreCuts, AreSixteen, AreSixteenCells, sixteen_parts, cut_value};
ghost use Rattle.ca_quad.specs.inner.Cut.{IsCutInParts, IsCutPart, KeepCuts};
ghost use Rattle.ca_quad.specs.inner.Window.{ShowsFrom};

use super::Store;
use super::cuts::Cuts;
use super::read::half_side;
use crate::id::Id;
use crate::neighbours::Neighbours;
use ca_plane::Memory;

// An offset to the right and downward.
#[derive(Clone, Copy, Drop)]
pub(crate) struct Offset {
    pub x: u128,
    pub y: u128,
}

impl Store {
    // The square as large as each of the four whose corner is so far from theirs as the offset's remainders by
    // its side tell, given some that were cut out with the same offset.
    pub(super) fn cut_out(
        &mut self,
        four: Neighbours,
        offset: Offset,
        cuts: &mut Cuts,
    ) -> Result<Id, Memory>
        requires four { (level : ℕ) × AreNeighbours self.old level four }
        requires cuts { AreCuts self.old offset cuts.old }
        ensures cut { IfOk result (IsCut self.new offset four) }
        ensures cuts { OnOk result (AreCuts self.new offset cuts.new) }
        ensures remembered { OnOk result (IsCutInParts self.old offset four → cut_value cuts.new four ≢ None) }
        ensures again { IsCutInParts self.old offset four → cut_value cuts.old four ≢ None → IsOk result }
        ensures kept { OnOk result (KeepCuts cuts.old cuts.new) }
        ensures closed { OnOk result (IsClosedUnderParts (IsCutPart self.old offset) (cut_value cuts.old)
            → IsClosedUnderParts (IsCutPart self.new offset) (cut_value cuts.new)) }
        ensures grows { Grows self.old self.new }
    {
        let _ = &self.nodes;
        let corner = four.nw;
        let level = self.level(corner);
        let place = remainders(offset, level);
        if place.x == 0 && place.y == 0 {
            return Ok(corner);
        }
        if level == 1 {
            return self.cut_cells(four, place);
        }
        if let Some(word) = self.cut_word(level, four, place) {
            return self.from_word(word);
        }
        if let Some(cut) = cuts.get(&four) {
            return Ok(cut);
        }
        let half = half_side(level);
        let parts = self.sixteen_parts(four);
        let (north_west, north_east, south_west, south_east) = overlapping_fours(
            &parts, place, half,
        );
        let nw = self.cut_out(north_west, offset, cuts)?;
        let ne = self.cut_out(north_east, offset, cuts)?;
        let sw = self.cut_out(south_west, offset, cuts)?;
        let se = self.cut_out(south_east, offset, cuts)?;
        let cut = self.join(nw, ne, sw, se)?;
        cuts.put(four, cut)?;
        Ok(cut)
    }

    // The same for squares of level 1.
    fn cut_cells(&mut self, four: Neighbours, place: Offset) -> Result<Id, Memory>
        requires four { AreNeighbours self.old 1 four }
        requires x { place.x < 2 }
        requires y { place.y < 2 }
        ensures shows { IfOk result (λ id.
            ShowsFrom self.new id 1 (cells_of_four self.old 1 four) place.x place.y) }
        ensures grows { Grows self.old self.new }
    {
        let cells = self.sixteen_cells(four);
        let first = 4 * place.y as usize + place.x as usize;
        self.leaf(
            cells[first],
            cells[first + 1],
            cells[first + 4],
            cells[first + 5],
        )
    }

    // The cells of four squares of level 1, row by row.
    fn sixteen_cells(&self, four: Neighbours) -> [u8; 16]
        requires { AreNeighbours self.now 1 four }
        ensures { AreSixteenCells (cells_of_four self.now 1 four) result }
    {
        let [a, b, e, f] = self.cells4(four.nw);
        let [c, d, g, h] = self.cells4(four.ne);
        let [i, j, m, n] = self.cells4(four.sw);
        let [k, l, o, p] = self.cells4(four.se);
        [a, b, c, d, e, f, g, h, i, j, k, l, m, n, o, p]
    }

    // The parts of four larger squares, row by row.
    fn sixteen_parts(&self, four: Neighbours) -> [Id; 16]
        requires { (level : ℕ) × AreNeighbours self.now (suc (suc level)) four }
        ensures parts { result ≡ sixteen_parts self.now four }
        ensures cells { (level : ℕ) → AreNeighbours self.now (suc level) four
            → AreSixteen self.now level (cells_of_four self.now (suc level) four) result }
    {
        let [a, b, e, f] = self.children(four.nw);
        let [c, d, g, h] = self.children(four.ne);
        let [i, j, m, n] = self.children(four.sw);
        let [k, l, o, p] = self.children(four.se);
        [a, b, c, d, e, f, g, h, i, j, k, l, m, n, o, p]
    }
}

// The remainders of an offset by the side of squares of this level.
fn remainders(offset: Offset, level: u8) -> Offset
    requires least { 1 ≤ level }
    requires most { level ≤ 125 }
    ensures x { result.x ≡ offset.x % 2 ^ level }
    ensures y { result.y ≡ offset.y % 2 ^ level }
{
    let side = 2 * half_side(level);
    Offset {
        x: offset.x % side,
        y: offset.y % side,
    }
}

// Which half of a side the place lies in: 0 or 1.
fn half_of(place: u128, half: u128) -> usize
    ensures { result ≡ half_of place half }
{
    if place < half {
        return 0;
    }
    1
}

// The fours of sixteen parts of which the cut ones make what is cut out of all, that far from their corner.
fn overlapping_fours(
    parts: &[Id; 16],
    place: Offset,
    half: u128,
) -> (Neighbours, Neighbours, Neighbours, Neighbours)
    ensures { result ≡ overlapping_fours parts.now (4 * half_of place.y half + half_of place.x half) }
{
    let first = 4 * half_of(place.y, half) + half_of(place.x, half);
    (
        neighbours_at(parts, first),
        neighbours_at(parts, first + 1),
        neighbours_at(parts, first + 4),
        neighbours_at(parts, first + 5),
    )
}

// The four of sixteen squares, row by row, of which this one is the north-western.
fn neighbours_at(squares: &[Id; 16], first: usize) -> Neighbours
    requires { first ≤ 10 }
    ensures { result ≡ neighbours_at squares.now first }
{
    Neighbours {
        nw: squares[first],
        ne: squares[first + 1],
        sw: squares[first + 4],
        se: squares[first + 5],
    }
}
