//! Laws of pictures, over the definitions alone.

ghost use Rattle.std.specs.Prelude.{◌≡◌, ◌≢◌, ◌<◌, ◌≤◌, ℕ, ℤ, ◌↔◌};
ghost use Rattle.ca_quad.specs.declared.tree.WideBounds.{WideBounds as Box};
ghost use Rattle.ca_quad.specs.Prelude.{IsTree, cell, IsLeastWideBox};
ghost use Rattle.ca_draw.specs.declared.{mark.Mark.Mark, drawing.Style.Style, window.Window.Window};
ghost use Rattle.ca_draw.specs.declared.mark.Mark.TheVariants.{Dead, Live, State};
ghost use Rattle.ca_draw.specs.Marks.{mark_of, state_mark, mark_letter, mark_grey, IsBlankSquare, IsLiveSquare};
ghost use Rattle.ca_draw.specs.Windows.{IsBox, IsTreeBox};
ghost use Rattle.ca_draw.specs.Drawings.{drawing};

use ca_quad::{Store, Tree};

/// What is drawn of a square is true of its cells.
pub fn true_marks()
    // Dead exactly where every cell of the square is 0.
    ensures dead { (cells : ℤ → ℤ → ℕ) (states scale : ℕ) (column row : ℤ)
        → (mark_of cells states scale column row ≡ Dead) ↔ IsBlankSquare cells scale column row }
    // Live only where some cell of it isn't.
    ensures live { (cells : ℤ → ℤ → ℕ) (states scale : ℕ) (column row : ℤ)
        → mark_of cells states scale column row ≡ Live → IsLiveSquare cells scale column row }
    // A state only at scale 0, where it is that of the one cell.
    ensures state { (cells : ℤ → ℤ → ℕ) (states scale : ℕ) (column row : ℤ) (state : ℕ)
        → mark_of cells states scale column row ≡ State state
        → (scale ≡ 0) × (cells column row ≡ state) × (state ≢ 0) }
{}

/// Cells that are the same everywhere have the same picture.
pub fn same_pictures()
    ensures { (style : Style) (one other : ℤ → ℤ → ℕ) (window : Window)
        → ((x y : ℤ) → one x y ≡ other x y) → drawing style one window ≡ drawing style other window }
{}

/// The smallest box round a tree's live cells has cells, and lies in the reach of the largest tree, so that it
/// fits into any two columns and rows.
pub fn least_boxes(store: &Store, tree: Tree)
    requires { IsTree store.now tree }
    ensures { (box : Box) → IsLeastWideBox (cell store.now tree) box → IsBox box × IsTreeBox box }
{
    let _level = store.level(tree.root);
}

/// The character `.` and the white of an image are those of squares without live cells alone.
pub fn dead_is_seen()
    ensures letter { (mark : Mark) → mark_letter mark ≡ 46 → mark ≡ Dead }
    ensures grey { (states : ℕ) (mark : Mark) → mark_grey states mark ≡ 255 → mark ≡ Dead }
{}

/// At scale 0 the characters tell states up to 48 apart, and the greys all states of a rule.
pub fn states_are_seen()
    ensures letters { (a b : ℕ) → a < 49 → b < 49
        → mark_letter (state_mark a) ≡ mark_letter (state_mark b) → a ≡ b }
    ensures greys { (states a b : ℕ) → 3 ≤ states → states ≤ 256 → a < states → b < states
        → mark_grey states (state_mark a) ≡ mark_grey states (state_mark b) → a ≡ b }
{}
