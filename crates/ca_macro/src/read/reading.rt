//! A macrocell text, read a line at a time.

ghost use Rattle.std.specs.Prelude.{ℕ, List, [], ◌∷◌, ◌++◌, not, OnOk, IfErr};
ghost use Rattle.std.specs.List.{flat_map};
ghost use Rattle.ca_plane.specs.Prelude.{Every, is_line_end, words_of};
ghost use Rattle.ca_quad.specs.declared.node.Node.{Node as Kept};
ghost use Rattle.ca_quad.specs.Prelude.{IsSoundStore, Grows};
ghost use Rattle.ca_macro.specs.File.{MacrocellLine, MacrocellWordsSay, IsAllowedNode, added_nodes};
ghost use Rattle.ca_macro.specs.inner.Comments.{said_of};
ghost use Rattle.ca_macro.specs.inner.Reading.{IsMacrocellReading, HasNodeFault};

use crate::fault::MacroFault;
use crate::line::{Comment, Line, read_line};
use crate::read::squares::Squares;
use ca_quad::Store;
use std::alloc::Global;

/// What the lines of a text have said so far.
#[derive(Drop)]
pub(crate) struct Reading<'a> {
    pub(crate) squares: Squares,
    pub(crate) rule: Option<&'a [u8]>,
    pub(crate) generation: u64,
}

impl<'a> Reading<'a> {
    /// Before the first line.
    pub(crate) fn new(alloc: Global) -> Reading<'a>
        ensures { (store : List Kept) → IsSoundStore store → IsMacrocellReading store [] result }
    {
        Reading {
            squares: Squares::new(alloc),
            rule: None,
            generation: 0,
        }
    }

    /// A line says the rule text, the generation, or nothing.
    fn comment(&mut self, comment: Comment<'a>)
        ensures { (store : List Kept) (said : List MacrocellLine) (line : List ℕ)
            → Every (λ b. not (is_line_end b)) line
            → MacrocellWordsSay (words_of line) (said_of comment.entry)
            → IsMacrocellReading store said self.old
            → IsMacrocellReading store (said ++ said_of comment.entry ∷ []) self.new }
    {
        match comment {
            Comment::Nothing => {}
            Comment::Rule(text) => self.rule = Some(text),
            Comment::Generation(count) => self.generation = count,
        }
    }

    /// Reads the next line of the text.
    ///
    /// # Errors
    ///
    /// The line's fault; and `Memory` where an allocation fails for the node of a good line.
    pub(crate) fn read(&mut self, store: &mut Store, line: &'a [u8]) -> Result<(), MacroFault>
        requires line { Every (λ b. not (is_line_end b)) line.now }
        requires reading { (said : List MacrocellLine) × IsMacrocellReading store.old said self.old }
        ensures said { OnOk result ((said : List MacrocellLine) → IsMacrocellReading store.old said self.old
            → (s : MacrocellLine) × MacrocellWordsSay (words_of line.now) s
            × IsAllowedNode (flat_map added_nodes said) s
            × IsMacrocellReading store.new (said ++ s ∷ []) self.new) }
        ensures fault { IfErr result (λ f. (said : List MacrocellLine)
            → IsMacrocellReading store.old said self.old
            → HasNodeFault f (flat_map added_nodes said) (words_of line.now)) }
        ensures grows { Grows store.old store.new }
    {
        match read_line(line)? {
            Line::Comment(comment) => {
                self.comment(comment);
                Ok(())
            }
            Line::Leaf(rows) => {
                self.squares.add_leaf(store, &rows)?;
                Ok(())
            }
            Line::Cells(states) => {
                self.squares.add_cells(store, states)?;
                Ok(())
            }
            Line::Parts(numbers) => self.squares.add_parts(store, numbers),
        }
    }
}
