//! Laws of how many cells are live, over the definitions alone.

ghost use Rattle.std.specs.Prelude.{◌≡◌, ℕ, ℤ};
ghost use Rattle.ca_plane.specs.Population.{HasPopulation, HasFewCells, HasTooManyCells};

/// The same cells have one population at most.
pub fn one_population()
    ensures { (f g : ℤ → ℤ → ℕ) → ((x y : ℤ) → f x y ≡ g x y) → (m n : ℕ) → HasPopulation f m
        → HasPopulation g n → m ≡ n }
{}

/// The same cells aren't both few and too many.
pub fn few_or_too_many()
    ensures { (f g : ℤ → ℤ → ℕ) → ((x y : ℤ) → f x y ≡ g x y) → HasFewCells f → HasTooManyCells g → ⊥ }
{}
