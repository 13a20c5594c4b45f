//! Laws of representations, over the definitions alone.

ghost use Rattle.std.specs.Prelude.{◌≡◌, ◌≢◌, ℕ, ℤ, List};
ghost use Rattle.ca_apgcode.specs.Grids.{GridCells, IsGrid, cell};
ghost use Rattle.ca_apgcode.specs.Representation.{IsRepresentation, IsCode};
ghost use Rattle.ca_apgcode.specs.Orientations.{AreAmong};
ghost use Rattle.ca_apgcode.specs.Objects.{IsObjectCode, IsTextOf, LiesWithin};
ghost use Rattle.ca_apgcode.specs.declared.object.ObjectKind.{ObjectKind};

/// Cells in a box of at most 40 by 40 have a representation.
pub fn some_text()
    ensures { (grid : GridCells) → IsGrid grid
        → (text : List ℕ) × IsRepresentation (cell grid) grid.height text }
{}

/// Each plane with a live cell whose live cells all lie within 40 by 40 cells has a representation.
pub fn small_text()
    ensures { (cells : ℤ → ℤ → ℕ) (left top x y : ℤ) → LiesWithin cells left top → cells x y ≢ 0
        → (text : List ℕ) × IsTextOf cells text }
{}

/// Cells in a box have one representation at most.
pub fn one_text()
    ensures { (cells : ℕ → ℕ → ℕ) (height : ℕ) (one other : List ℕ) → IsRepresentation cells height one
        → IsRepresentation cells height other → one ≡ other }
{}

/// A text is the representation of one picture in its smallest box at most, so it gives the cells back.
pub fn one_picture()
    ensures { (one other : GridCells) (text : List ℕ) → IsCode one text → IsCode other text → one ≡ other }
{}

/// Objects of one kind and one number have one code at most, where each phase of one is a copy of some phase of the
/// other, and each of the other of some of the one: turned, reflected or moved in any way. So all phases of an object
/// have one code, and so has each copy of it.
pub fn one_code()
    ensures { (kind : ObjectKind) (number : ℕ) (phases others : ℕ → ℤ → ℤ → ℕ) (count : ℕ) (one other : List ℕ)
        → AreAmong phases others count → AreAmong others phases count
        → IsObjectCode kind number phases count one → IsObjectCode kind number others count other
        → one ≡ other }
{}
