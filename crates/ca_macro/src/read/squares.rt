//! The squares of a text's nodes.

ghost use Rattle.std.specs.Prelude.{◌≡◌, ℕ, ℤ, List, [], ◌∷◌, ◌++◌, ◌≤◌, length, IfOk, OnOk, IfErr, Bool};
ghost use Rattle.std.specs.List.{AllByRecursion};
ghost use Rattle.ca_quad.specs.declared.node.Node.{Node as Kept};
ghost use Rattle.ca_quad.specs.Prelude.{IsSoundStore, Grows, IsTree, cell};
ghost use Rattle.ca_plane.specs.Prelude.{cell as plane_cell, nearest_u64};
ghost use Rattle.ca_macro.specs.Nodes.{Node, Leaf, Cells, Parts, IsLevel, MayFollow};
ghost use Rattle.ca_macro.specs.Shown.{picture_of_nodes};
ghost use Rattle.ca_macro.specs.Faults.{HasBadPart};
ghost use Rattle.ca_macro.specs.inner.Leaves.{leaf_bits};
ghost use Rattle.ca_macro.specs.inner.Reading.{AreSquares, IsNodePart, IsBadNumber, KeepsParts, HaveNumberFault};

use crate::fault::MacroFault;
use crate::line::Numbers;
use crate::read::empties::Empties;
use ca_plane::Memory;
use ca_quad::{Id, Store, Tree};
use std::alloc::Global;

/// The squares of the nodes so far, in the order of their numbers.
#[derive(Drop)]
pub(crate) struct Squares {
    squares: Vec<Tree>,
    empties: Empties,
}

/// The four parts of a square. None is an empty part.
#[derive(Clone, Copy)]
struct FourParts {
    nw: Option<Id>,
    ne: Option<Id>,
    sw: Option<Id>,
    se: Option<Id>,
}

impl Squares {
    /// Before the first node.
    pub(crate) fn new(alloc: Global) -> Squares
        ensures { (store : List Kept) → IsSoundStore store → AreSquares store [] result }
    {
        Squares {
            squares: Vec::new(alloc),
            empties: Empties::new(alloc),
        }
    }

    /// The square with a number, where it may be a part of this level: None is the empty one.
    ///
    /// # Errors
    ///
    /// `Forward` where no earlier node has the number, and `Level` where the node has another level.
    fn part(&self, level: u8, number: u64) -> Result<Option<Id>, MacroFault>
        ensures part { IfOk result (λ p. (store : List Kept) (nodes : List Node) (n : ℕ)
            → AreSquares store nodes self.now → number ≡ nearest_u64 n → IsNodePart store nodes level n p) }
        ensures fault { IfErr result (λ f. (store : List Kept) (nodes : List Node) (n : ℕ)
            → AreSquares store nodes self.now → number ≡ nearest_u64 n → IsBadNumber f nodes level n) }
    {
        if number == 0 {
            return Ok(None);
        }
        let Some(square) = self.squares.get((number - 1) as usize) else {
            return Err(MacroFault::Forward);
        };
        if square.level != level {
            return Err(MacroFault::Level);
        }
        Ok(Some(square.root))
    }

    /// The four parts of a square, each of this level.
    ///
    /// # Errors
    ///
    /// The fault of the first number that may not name a part.
    fn parts(&self, level: u8, numbers: Numbers) -> Result<FourParts, MacroFault>
        ensures parts { IfOk result (λ p. (store : List Kept) (nodes : List Node) (nw ne sw se : ℕ)
            → AreSquares store nodes self.now → KeepsParts numbers nw ne sw se
            → IsNodePart store nodes level nw p.nw × IsNodePart store nodes level ne p.ne
            × IsNodePart store nodes level sw p.sw × IsNodePart store nodes level se p.se) }
        ensures fault { IfErr result (λ f. (store : List Kept) (nodes : List Node) (nw ne sw se : ℕ)
            → AreSquares store nodes self.now → KeepsParts numbers nw ne sw se
            → HasBadPart nodes level (nw ∷ ne ∷ sw ∷ se ∷ []) (IsBadNumber f nodes level)) }
    {
        let nw = self.part(level, numbers.nw)?;
        let ne = self.part(level, numbers.ne)?;
        let sw = self.part(level, numbers.sw)?;
        let se = self.part(level, numbers.se)?;
        Ok(FourParts { nw, ne, sw, se })
    }

    /// Adds a leaf of these rows.
    pub(crate) fn add_leaf(&mut self, store: &mut Store, rows: &[u8; 8]) -> Result<(), Memory>
        ensures added { OnOk result ((nodes : List Node) (leaf : List (List Bool))
            → AreSquares store.old nodes self.old → rows.now ≡ leaf_bits 8 leaf → length leaf ≤ 8
            → AreSquares store.new (nodes ++ Leaf leaf ∷ []) self.new) }
        ensures grows { IsSoundStore store.old → Grows store.old store.new }
    {
        let root = store.from_leaf8(rows)?;
        self.squares.push(Tree { root, level: 3 })?;
        Ok(())
    }

    /// Adds a square of four cells of these states.
    pub(crate) fn add_cells(&mut self, store: &mut Store, states: [u8; 4]) -> Result<(), Memory>
        ensures added { OnOk result ((nodes : List Node) (nw ne sw se : ℕ)
            → AreSquares store.old nodes self.old → states ≡ nw ∷ ne ∷ sw ∷ se ∷ []
            → AllByRecursion (λ s. s ≤ 255) (nw ∷ ne ∷ sw ∷ se ∷ [])
            → AreSquares store.new (nodes ++ Cells nw ne sw se ∷ []) self.new) }
        ensures grows { IsSoundStore store.old → Grows store.old store.new }
    {
        let [nw, ne, sw, se] = states;
        let root = store.leaf(nw, ne, sw, se)?;
        self.squares.push(Tree { root, level: 1 })?;
        Ok(())
    }

    /// Adds a square of a level from 2 to 120, given by the numbers of its parts.
    ///
    /// # Errors
    ///
    /// The fault of the first number that may not name a part, found before any memory is taken; and `Memory`
    /// where an allocation fails.
    pub(crate) fn add_parts(
        &mut self,
        store: &mut Store,
        numbers: Numbers,
    ) -> Result<(), MacroFault>
        requires level { IsLevel numbers.level }
        requires squares { (nodes : List Node) × (nw : ℕ) × (ne : ℕ) × (sw : ℕ) × (se : ℕ)
            × AreSquares store.old nodes self.old × KeepsParts numbers nw ne sw se }
        ensures added { OnOk result ((nodes : List Node) (nw ne sw se : ℕ)
            → AreSquares store.old nodes self.old → KeepsParts numbers nw ne sw se
            → MayFollow nodes (Parts numbers.level nw ne sw se)
            × AreSquares store.new (nodes ++ Parts numbers.level nw ne sw se ∷ []) self.new) }
        ensures fault { IfErr result (λ f. (nodes : List Node) (nw ne sw se : ℕ)
            → AreSquares store.old nodes self.old → KeepsParts numbers nw ne sw se
            → HaveNumberFault f nodes numbers.level nw ne sw se) }
        ensures grows { Grows store.old store.new }
    {
        let level = numbers.level as u8;
        let parts = self.parts(level - 1, numbers)?;
        let empty = self.empties.square(store, level - 1)?;
        let root = store.join(
            parts.nw.unwrap_or(empty),
            parts.ne.unwrap_or(empty),
            parts.sw.unwrap_or(empty),
            parts.se.unwrap_or(empty),
        )?;
        if self.squares.push(Tree { root, level }).is_err() {
            return Err(MacroFault::Memory);
        }
        Ok(())
    }

    /// The square of the root, which is the last node, or an empty one where there is no node.
    pub(crate) fn root(&self, store: &mut Store) -> Result<Tree, Memory>
        ensures tree { IfOk result (λ t. (nodes : List Node) → AreSquares store.old nodes self.now
            → IsTree store.new t) }
        ensures cells { IfOk result (λ t. (nodes : List Node) → AreSquares store.old nodes self.now
            → (x y : ℤ) → cell store.new t x y ≡ plane_cell (picture_of_nodes nodes) x y) }
        ensures grows { IsSoundStore store.old → Grows store.old store.new }
    {
        match self.squares.last() {
            Some(square) => Ok(*square),
            None => Ok(Tree {
                root: store.leaf(0, 0, 0, 0)?,
                level: 1,
            }),
        }
    }
}
