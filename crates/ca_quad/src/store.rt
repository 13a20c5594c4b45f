//! The store of squares.

ghost use Rattle.std.specs.Prelude.{◌≡◌, ◌+◌, ◌≤◌, ◌<◌, [], ◌∷◌, length, IfOk, IsErr, OnErr};
ghost use Rattle.ca_quad.specs.declared.node.Node.TheVariants.{Block};
ghost use Rattle.ca_quad.specs.Squares.{digit, node_square, shown_cells4, square_of};
ghost use Rattle.ca_quad.specs.Sound.{IsSoundStore, IsStorable, Grows, AddsOnly, most_nodes};
ghost use Rattle.ca_quad.specs.Trees.{IsIn};
ghost use Rattle.ca_quad.specs.inner.Whole.{IsWhole};

mod bit_block;
mod bits;
mod block;
mod bounds;
mod cut;
mod cut_words;
mod cuts;
mod difference;
mod draw;
pub(crate) mod extent;
mod from_bits;
mod from_plane;
mod gather;
mod greatest;
mod import;
mod leaf8;
mod make;
mod measure;
mod numbered;
mod population;
mod quarters;
mod read;
mod resize;
mod rows;
mod shifted;
mod to_plane;
mod word;
mod word_extent;

use crate::id::Id;
use crate::named::IdForm;
use crate::node::Node;
use crate::square::Square;
use ca_plane::Memory;
use indexmap::IndexSet;
use std::alloc::Global;
use std::marker::Model;

// The table has room for these at most, some 100 gigabytes of squares, and an id for any place among them.
const MOST: usize = 9 << 28;

/// Squares of cells, each kept once. An id names one as long as the store lasts: no call on the store changes which.
///
/// A store is full where it keeps 2415919104 of them, those that are named by their cells not counted. What
/// would keep one then fails with `Memory`, though memory may be there, also where the square is kept already.
#[derive(Drop)]
pub struct Store {
    nodes: IndexSet<Node>,
}

impl Model for Store {
    ghost use Rattle.std.specs.Prelude.{List};
    ghost use Rattle.ca_quad.specs.declared.node.Node.{Node as Kept};
    ghost use Rattle.ca_quad.specs.Sound.{IsSoundStore};

    ghost Value = { List Kept };

    ghost view = { λ s. s.nodes.keys };

    ghost invariant = { λ s. IsSoundStore s.nodes.keys };
}

impl Store {
    /// A store that keeps no square.
    pub fn new(alloc: Global) -> Store
        ensures { result ≡ [] }
    {
        Store {
            nodes: IndexSet::new(alloc),
        }
    }

    /// How many squares are kept.
    pub fn count(&self) -> usize
        ensures count { result ≡ length self.now }
        ensures sound { IsSoundStore self.now }
    {
        self.nodes.len()
    }

    // Keeps the node, where it isn't kept yet, and gives its name. Fails where there is no memory for one more
    // node, and where the store is full, though memory may be there then.
    fn put(&mut self, node: Node) -> Result<Id, Memory>
        requires { IsStorable self.old (length self.old) node }
        ensures known { IfOk result (IsIn self.new) }
        ensures shows { IfOk result (λ id. square_of self.new id ≡ node_square node) }
        ensures grows { Grows self.old self.new }
        ensures added { IfOk result (AddsOnly self.old self.new) }
        ensures count { length self.new ≤ length self.old + 1 }
        ensures full { most_nodes ≤ length self.old → IsErr result }
        ensures err { OnErr result (self.new ≡ self.old) }
    {
        if self.nodes.len() >= MOST {
            return Err(Memory);
        }
        let (place, _) = self.nodes.insert_full(node)?;
        Ok(Id::at_place(place))
    }

    // What the square looks like.
    fn square(&self, id: Id) -> Square
        requires { IsIn self.now id }
        ensures shows { result ≡ square_of self.now id }
        ensures whole { IsWhole self.now (length self.now) result }
        ensures sound { IsSoundStore self.now }
    {
        self.named_square(id)
    }

    // The same, but nothing is said of its parts.
    fn named_square(&self, id: Id) -> Square
        requires { IsIn self.now id }
        ensures shows { result ≡ square_of self.now id }
        ensures sound { IsSoundStore self.now }
    {
        match id.form() {
            IdForm::Cells2(n) => Square::Four(n % 2, n / 2 % 2, n / 4 % 2, n / 8),
            IdForm::Cells4(n) => parts_of_cells4(n),
            IdForm::Kept(place) => shown(self.nodes.as_slice()[place as usize]),
        }
    }
}

// The parts of a 4 by 4 square of two states.
fn parts_of_cells4(n: u16) -> Square
    ensures { result ≡ shown_cells4 n }
{
    let [nw, ne, sw, se] = four_digits(u64::from(n), 16);
    Square::Parts(
        2,
        Id::cells2(nw as u8),
        Id::cells2(ne as u8),
        Id::cells2(sw as u8),
        Id::cells2(se as u8),
    )
}

// The parts of an 8 by 8 square of two states.
fn parts_of_block(n: u64) -> Square
    ensures { result ≡ node_square (Block n) }
{
    let [nw, ne, sw, se] = four_digits(n, 65536);
    Square::Parts(
        3,
        Id::cells4(nw as u16),
        Id::cells4(ne as u16),
        Id::cells4(sw as u16),
        Id::cells4(se as u16),
    )
}

// The four lowest digits of a number in this base, the lowest first.
#[inline(always)]
fn four_digits(n: u64, base: u64) -> [u64; 4]
    requires least { 2 ≤ base }
    requires most { base ≤ 65536 }
    ensures { result ≡ digit base n 0 ∷ digit base n 1 ∷ digit base n 2 ∷ digit base n 3 ∷ [] }
{
    let square = base * base;
    [
        n % base,
        n / base % base,
        n / square % base,
        n / (base * square) % base,
    ]
}

// What a kept node looks like.
fn shown(node: Node) -> Square
    ensures { result ≡ node_square node }
{
    match node {
        Node::Leaf(nw, ne, sw, se) => Square::Four(nw, ne, sw, se),
        Node::Block(n) => parts_of_block(n),
        Node::Join(level, nw, ne, sw, se) => Square::Parts(level, nw, ne, sw, se),
    }
}
