//! Laws of planes that aren't settled into parts that are back within a number of generations, over the
//! definitions alone. They hold of every rule under which nothing is born where nothing is live.

ghost use Rattle.std.specs.Prelude.{◌≡◌, ℕ, ◌+◌, ◌≤◌, ℤ, List, [], ◌∷◌, replicate};
ghost use Rattle.std.specs.List.{AllPairs, Contains};
ghost use Rattle.ca_plane.specs.Prelude.{Picture, cell, cells_after};
ghost use Rattle.ca_parts.specs.Prelude.{AreApartBefore, together, IsSettled, IsFinerThanAll};
ghost use Rattle.ca_parts.specs.Prelude.{IsSettledWithin, Outgrows};

/// A part of a division that is back has no more live cells then than the plane had. So the parts of no division
/// are all back within a number of generations where something that lies in one part of each division has more of
/// them, alone, in each of as many generations in a row. That may be the whole plane, or one of parts of it that
/// are apart until the last of these generations.
pub fn outgrown_planes_are_not_settled()
    ensures alone { (next : List ℕ → ℕ) → next (replicate 9 0) ≡ 0 → (p : Picture) (start most : ℕ)
        → IsFinerThanAll next (cell p) (p ∷ []) → Outgrows next start most p (cell p)
        → IsSettledWithin next most (cell p) → ⊥ }
    ensures part { (next : List ℕ → ℕ) → next (replicate 9 0) ≡ 0 → (cells : ℤ → ℤ → ℕ)
        (parts : List Picture) (start most : ℕ) → ((x y : ℤ) → cells x y ≡ together parts x y)
        → IsFinerThanAll next cells parts → AllPairs (AreApartBefore next (start + most)) parts
        → (p : Picture) → Contains parts p → Outgrows next start most p cells
        → IsSettledWithin next most cells → ⊥ }
{}

/// A plane that is settled within a number of generations stays so. So where a plane isn't, none before it is.
/// And a settled plane is settled within some number of generations.
pub fn settled_within_stays_so()
    ensures stays { (next : List ℕ → ℕ) → next (replicate 9 0) ≡ 0 → (cells : ℤ → ℤ → ℕ) (most n : ℕ)
        → IsSettledWithin next most cells → IsSettledWithin next most (cells_after next cells n) }
    ensures before { (next : List ℕ → ℕ) → next (replicate 9 0) ≡ 0 → (cells : ℤ → ℤ → ℕ) (most m n : ℕ)
        → (IsSettledWithin next most (cells_after next cells n) → ⊥) → m ≤ n
        → IsSettledWithin next most (cells_after next cells m) → ⊥ }
    ensures some { (next : List ℕ → ℕ) (cells : ℤ → ℤ → ℕ) → IsSettled next cells
        → (most : ℕ) × IsSettledWithin next most cells }
{}
