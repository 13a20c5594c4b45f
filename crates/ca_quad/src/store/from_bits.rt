//! Planes of two states, kept in words, that are made trees.

ghost use Rattle.std.specs.Prelude.{◌≡◌, ◌-◌, ◌<◌, ◌≤◌, ◌*◌, ◌^◌, ℤ, IsTrue, IsFalse, IfOk};
ghost use Rattle.ca_plane.specs.Prelude.{bit_cell, AreNearWords, IsNearWord};
ghost use Rattle.ca_quad.specs.Sound.{Grows};
ghost use Rattle.ca_quad.specs.Trees.{IsTree, cell, HoldsAll, IsTrimmed};
ghost use Rattle.ca_quad.specs.inner.BitParts.{AreApart, AreWordQuarters, HasNoCell, HaveCells, IsBoxOfWord};
ghost use Rattle.ca_quad.specs.inner.Filled.{cells_from, IsEmptyOf, LiesNear};
ghost use Rattle.ca_quad.specs.inner.Window.{ShowsFrom};

use super::Store;
use super::bit_block::{first_x, first_y};
use super::from_plane::level_from;
use super::quarters::Quarters;
use super::read::half_side;
use super::to_plane::{Corners, first_corner, part_corners};
use crate::id::Id;
use crate::tree::{Spot, Tree};
use ca_plane::{BitPlane, Bounds, CellWord, Memory};
use std::alloc::Global;

// A square of this level is as wide as a word, and is read at once.
const BLOCK: u8 = 6;

// How many cells a word has.
const WIDTH: i128 = 64;

impl Store {
    /// The tree of the smallest level, at least 1, that shows the cells of a plane of two states.
    ///
    /// # Errors
    ///
    /// Fails where there is no memory for more squares, and may leave more squares in the store than before.
    pub fn from_bits(&mut self, plane: BitPlane) -> Result<Tree, Memory>
        ensures tree { IfOk result (IsTree self.new) }
        ensures cells { IfOk result (λ t. (x y : ℤ) → cell self.new t x y ≡ bit_cell plane x y) }
        ensures trimmed { IfOk result (IsTrimmed self.new) }
        ensures grows { Grows self.old self.new }
    {
        let alloc = *self.nodes.allocator();
        let words = plane.into_words();
        let level = level_of_words(&words);
        let empty = self.empty(level)?;
        let corner = first_corner(half_side(level));
        let root = self.fill_words(alloc, words, empty, level, corner)?;
        self.trim(Tree { root, level })
    }

    // The square of this level, from 6 to 65, whose corner lies there and which shows the cells of the words,
    // given the empty one.
    #[tactic(auto, using(crate::proofs::FilledSquares::grows_five))]
    fn fill_words(
        &mut self,
        alloc: Global,
        words: Vec<CellWord>,
        empty: Id,
        level: u8,
        at: Spot,
    ) -> Result<Id, Memory>
        requires empty { IsEmptyOf self.old 6 level empty }
        requires near { LiesNear (2 ^ level) at }
        ensures shows { IfOk result (λ id. ShowsFrom self.new id level
            (cells_from (bit_cell words.items) at) 0 0) }
        ensures grows { Grows self.old self.new }
    {
        let _ = &self.nodes;
        if words.is_empty() {
            return Ok(empty);
        }
        if level == BLOCK {
            return self.fill_rows(&words, at);
        }
        let [part, _, _, _] = self.children(empty);
        let half = half_side(level);
        let corners = part_corners(at, half);
        let parts = quarters_of(alloc, words, at, corners, half)?;
        let nw = self.fill_words(alloc, parts.nw, part, level - 1, at)?;
        let ne = self.fill_words(alloc, parts.ne, part, level - 1, corners.ne)?;
        let sw = self.fill_words(alloc, parts.sw, part, level - 1, corners.sw)?;
        let se = self.fill_words(alloc, parts.se, part, level - 1, corners.se)?;
        self.join(nw, ne, sw, se)
    }
}

// The words of the four parts of a square, whose corners are given and which have this side.
fn quarters_of(
    alloc: Global,
    words: Vec<CellWord>,
    at: Spot,
    corners: Corners,
    side: u128,
) -> Result<Quarters<CellWord>, Memory>
    requires nw { LiesNear side at }
    requires ne { LiesNear side corners.ne }
    requires sw { LiesNear side corners.sw }
    requires se { LiesNear side corners.se }
    ensures { IfOk result (AreWordQuarters words.items at corners side) }
{
    Ok(Quarters {
        nw: words_in(alloc, &words, at, side)?,
        ne: words_in(alloc, &words, corners.ne, side)?,
        sw: words_in(alloc, &words, corners.sw, side)?,
        se: words_in(alloc, &words, corners.se, side)?,
    })
}

// The smallest level, from 6 to 65, of trees that hold every live cell of the words.
fn level_of_words(words: &[CellWord]) -> u8
    requires near { AreNearWords words.now }
    ensures least { 6 ≤ result }
    ensures most { result ≤ 65 }
    ensures holds { HoldsAll result (bit_cell words.now) }
{
    let mut level = BLOCK;
    'words: for &word in words {
        level = level_from(box_of(word), level);
    }
    level
}

// The box of a word's cells.
fn box_of(word: CellWord) -> Bounds
    requires { IsNearWord word }
    ensures { IsBoxOfWord word result }
{
    let west = first_x(word) as i64;
    let y = first_y(word) as i64;
    Bounds {
        x0: west,
        y0: y,
        x1: west + 63,
        y1: y,
    }
}

// Those of the words that have a cell in the square of this side whose corner lies there, and perhaps others.
fn words_in(
    alloc: Global,
    words: &[CellWord],
    at: Spot,
    side: u128,
) -> Result<Vec<CellWord>, Memory>
    requires near { LiesNear side at }
    ensures { IfOk result (λ v. HaveCells words.now v.items at side) }
{
    let mut part = Vec::new(alloc);
    'words: for &word in words {
        if reaches(word, at, side) {
            part.push(word)?;
        }
    }
    Ok(part)
}

// Whether a word may have a cell in the square of this side whose corner lies there.
fn reaches(word: CellWord, at: Spot, side: u128) -> bool
    requires near { LiesNear side at }
    ensures { IsFalse result → HasNoCell word at side }
{
    if is_apart_x(word, at, side) {
        return false;
    }
    if is_apart_y(word, at, side) {
        return false;
    }
    true
}

// Whether no cell of a word lies in a column of such a square.
fn is_apart_x(word: CellWord, at: Spot, side: u128) -> bool
    requires near { LiesNear side at }
    ensures { IsTrue result → AreApart (64 * word.column) 64 at.x side }
{
    let first = first_x(word);
    if first + WIDTH <= at.x {
        return true;
    }
    if at.x + side as i128 <= first {
        return true;
    }
    false
}

// Whether no cell of a word lies in a row of such a square.
fn is_apart_y(word: CellWord, at: Spot, side: u128) -> bool
    requires near { LiesNear side at }
    ensures { IsTrue result → AreApart word.row 1 at.y side }
{
    let first = first_y(word);
    if first < at.y {
        return true;
    }
    if at.y + side as i128 <= first {
        return true;
    }
    false
}
