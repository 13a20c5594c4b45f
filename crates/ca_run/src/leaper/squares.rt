//! Squares of two states, read as words and made of them.

ghost use Rattle.std.specs.Prelude.{ℕ, ℤ, IfOk, IfSome};
ghost use Rattle.ca_quad.specs.Prelude.{IsOf};
ghost use Rattle.ca_run.specs.inner.AtCost.{GoesOnAtCost};
ghost use Rattle.ca_run.specs.inner.Shown.{ShowsAt};
ghost use Rattle.ca_bricks.specs.Prelude.{WordSquareShows, WideSquareShows, WordShows};

use super::Leaper;
use ca_bricks::{WideSquare, WordSquare};
use ca_plane::{Automaton, Memory};
use ca_quad::Id;

impl<A: Automaton> Leaper<A> {
    // The word of a square of 8 by 8 cells, where it has no state above 1.
    pub(super) fn word(&self, id: Id) -> Option<u64>
        requires { IsOf self.now.nodes id 3 }
        ensures { (p : ℤ → ℤ → ℕ) (a b : ℤ) → ShowsAt self.now.nodes id 3 p a b
            → IfSome result (λ word. WordShows word p a b) }
    {
        self.store.word(id)
    }

    // The words of a square of 16 by 16 cells, where it has no state above 1.
    pub(super) fn words(&self, id: Id) -> Option<WordSquare>
        requires { IsOf self.now.nodes id 4 }
        ensures { (p : ℤ → ℤ → ℕ) (a b : ℤ) → ShowsAt self.now.nodes id 4 p a b
            → IfSome result (λ words. WordSquareShows words p a b) }
    {
        let (nw, ne, sw, se) = self.quarters(id, 2);
        Some(WordSquare {
            nw: self.word(nw)?,
            ne: self.word(ne)?,
            sw: self.word(sw)?,
            se: self.word(se)?,
        })
    }

    // The words of a square of 32 by 32 cells, where it has no state above 1.
    pub(super) fn wide_square(&self, id: Id) -> Option<WideSquare>
        requires { IsOf self.now.nodes id 5 }
        ensures { (p : ℤ → ℤ → ℕ) (a b : ℤ) → ShowsAt self.now.nodes id 5 p a b
            → IfSome result (λ wide. WideSquareShows wide p a b) }
    {
        let (nw, ne, sw, se) = self.quarters(id, 3);
        Some(WideSquare {
            nw: self.words(nw)?,
            ne: self.words(ne)?,
            sw: self.words(sw)?,
            se: self.words(se)?,
        })
    }

    // The square of 8 by 8 cells of a word.
    pub(super) fn from_word(&mut self, word: u64) -> Result<Id, Memory>
        ensures shows { (p : ℤ → ℤ → ℕ) (a b : ℤ) → WordShows word p a b
            → IfOk result (λ id. ShowsAt self.new.nodes id 3 p a b) }
        ensures square { IfOk result (λ id. IsOf self.new.nodes id 3) }
        ensures at_cost { GoesOnAtCost A self.old self.new 0 1 }
    {
        self.store.from_word(word)
    }

    // The square of 16 by 16 cells of four words.
    #[tactic(auto, using(crate::proofs::CostSteps::in_turn))]
    pub(super) fn from_words(&mut self, words: WordSquare) -> Result<Id, Memory>
        ensures shows { (p : ℤ → ℤ → ℕ) (a b : ℤ) → WordSquareShows words p a b
            → IfOk result (λ id. ShowsAt self.new.nodes id 4 p a b) }
        ensures square { IfOk result (λ id. IsOf self.new.nodes id 4) }
        ensures at_cost { GoesOnAtCost A self.old self.new 0 5 }
    {
        let nw = self.from_word(words.nw)?;
        let ne = self.from_word(words.ne)?;
        let sw = self.from_word(words.sw)?;
        let se = self.from_word(words.se)?;
        self.join(nw, ne, sw, se, 2)
    }
}
