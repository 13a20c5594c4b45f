//! Laws of the plane after n generations, over the definitions alone.

ghost use Rattle.std.specs.Prelude.{◌≡◌, ◌≢◌, ℕ, ◌+◌, ◌-◌, ◌*◌, ◌/◌, ℤ, pos, ◌+ℤ◌, ◌*ℤ◌};
ghost use Rattle.std.specs.Int.{◌∣◌};
ghost use Rattle.ca_plane.specs.declared.point.Bounds.{Bounds};
ghost use Rattle.ca_plane.specs.Prelude.{Picture, cell, IsSame, shifted, IsLive, after, IsAfter, IsInBox, IsLeastBox};
ghost use Rattle.ca_steps.specs.Later.{AgreeWithin, IsBackInPlace, IsBackAnywhere, IsLeast};
ghost use Rattle.ca_steps.specs.Primes.{IsPrime};
ghost use Rattle.ca_steps.specs.Reach.{grown_box, IsWiderByAtMost};

use ca_plane::Automaton;

/// The state at (x, y) after n generations depends only on the cells within n of (x, y) in each direction:
/// two pictures that show the same cells there have the same state at (x, y) after n generations.
#[tactic(auto, using(ca_plane::proofs::After::after_near))]
pub fn l1<A: Automaton>(rule: &A)
    ensures near { (p q : Picture) (n : ℕ) (x y : ℤ) → AgreeWithin n x y p q
        → after (A.next_of rule.now) p n x y ≡ after (A.next_of rule.now) q n x y }
{
    let _ = rule;
}

/// A moved picture goes on as the picture does, moved by the same vector: what the picture has at (x, y)
/// after n generations, the moved one has at (x + dx, y + dy).
pub fn l2<A: Automaton>(rule: &A)
    ensures moved { (cells : Picture) (dx dy : ℤ) (n : ℕ) (x y : ℤ)
        → after (A.next_of rule.now) (shifted cells dx dy) n (x +ℤ dx) (y +ℤ dy)
        ≡ after (A.next_of rule.now) cells n x y }
{
    let _ = rule;
}

/// Generations add up: n generations of the picture after m generations are m + n generations.
#[tactic(auto, using(crate::proofs::Returns::after_stands))]
pub fn l3<A: Automaton>(rule: &A)
    ensures later { (cells later : Picture) (m n : ℕ) → IsAfter (A.next_of rule.now) cells m later
        → (x y : ℤ) → after (A.next_of rule.now) later n x y ≡ after (A.next_of rule.now) cells (m + n) x y }
{
    let _ = rule;
}

/// Live cells spread by one cell a generation at most: outside a box that holds them all, grown by n cells on
/// each side, no cell is live after n generations. And nothing comes of an empty plane.
pub fn l4<A: Automaton>(rule: &A)
    ensures outside { (cells : Picture) (box : Bounds) (n : ℕ) (x y : ℤ)
        → ((u v : ℤ) → cell cells u v ≢ 0 → IsInBox box u v) → (IsInBox (grown_box box n) x y → ⊥)
        → after (A.next_of rule.now) cells n x y ≡ 0 }
    ensures empty { (cells : Picture) (n : ℕ) (x y : ℤ) → (IsLive cells → ⊥)
        → after (A.next_of rule.now) cells n x y ≡ 0 }
{
    // A rule that tells its states is sound: where all is empty, nothing is born.
    let _states = rule.states();
}

/// A live pattern is moved onto itself by no vector but (0, 0).
pub fn l5()
    ensures { (cells : Picture) (dx dy : ℤ) → IsLive cells → IsSame cells (shifted cells dx dy)
        → (dx ≡ pos 0) × (dy ≡ pos 0) }
{}

/// The least time at which a picture is back divides every such time, whether it has to be back in its place
/// or may be moved by any vector. After k times as many generations it's back moved by k times the vector,
/// and a live picture by no other vector.
pub fn l6<A: Automaton>(rule: &A)
    ensures in_place { (cells : Picture) (m n : ℕ) → IsLeast (IsBackInPlace (A.next_of rule.now) cells) m
        → IsBackInPlace (A.next_of rule.now) cells n → m ∣ n }
    ensures anywhere { (cells : Picture) (m n : ℕ) → IsLeast (IsBackAnywhere (A.next_of rule.now) cells) m
        → IsBackAnywhere (A.next_of rule.now) cells n → m ∣ n }
    ensures again { (cells : Picture) (m k : ℕ) (dx dy : ℤ)
        → IsAfter (A.next_of rule.now) cells m (shifted cells dx dy)
        → IsAfter (A.next_of rule.now) cells (k * m) (shifted cells (pos k *ℤ dx) (pos k *ℤ dy)) }
    ensures vector { (cells : Picture) (m k : ℕ) (dx dy u v : ℤ) → IsLive cells
        → IsAfter (A.next_of rule.now) cells m (shifted cells dx dy)
        → IsAfter (A.next_of rule.now) cells (k * m) (shifted cells u v)
        → (u ≡ pos k *ℤ dx) × (v ≡ pos k *ℤ dy) }
{
    let _ = rule;
}

/// A picture that is back after n generations, and for no prime that divides n after n divided by it, is back
/// at no earlier time, whether it has to be back in its place or may be moved by any vector.
pub fn primes_tell_the_least_return<A: Automaton>(rule: &A)
    ensures in_place { (cells : Picture) (n : ℕ) → IsBackInPlace (A.next_of rule.now) cells n
        → ((q : ℕ) → IsPrime q → q ∣ n → IsBackInPlace (A.next_of rule.now) cells (n / q) → ⊥)
        → IsLeast (IsBackInPlace (A.next_of rule.now) cells) n }
    ensures anywhere { (cells : Picture) (n : ℕ) → IsBackAnywhere (A.next_of rule.now) cells n
        → ((q : ℕ) → IsPrime q → q ∣ n → IsBackAnywhere (A.next_of rule.now) cells (n / q) → ⊥)
        → IsLeast (IsBackAnywhere (A.next_of rule.now) cells) n }
{
    let _ = rule;
}

/// A picture that is back after p generations, in its place or moved, never grows far: at every time the
/// smallest box round the live cells is at most 2(p - 1) cells wider and higher than that of the picture. So a
/// larger box, at any time, rules out every period that is p at most.
pub fn returning_pictures_stay_small<A: Automaton>(rule: &A)
    ensures { (cells later : Picture) (p n : ℕ) (box wide : Bounds)
        → IsBackAnywhere (A.next_of rule.now) cells p → IsAfter (A.next_of rule.now) cells n later
        → IsLeastBox cells box → IsLeastBox later wide → IsWiderByAtMost box wide (2 * (p - 1)) }
{
    // A rule that tells its states is sound: where all is empty, nothing is born.
    let _states = rule.states();
}

/// Where the plane of a picture is at some time such that it is back after q more generations, moved by a
/// vector, the picture itself is back after q generations, moved by that vector, if it ever comes back, in
/// its place or moved. So for a q of at least 1 one comparison, after q generations, rules out every period, or
/// finds one.
pub fn returning_pictures_settle_as_they_are<A: Automaton>(rule: &A)
    ensures { (cells settled : Picture) (p n q : ℕ) (dx dy : ℤ)
        → IsBackAnywhere (A.next_of rule.now) cells p → IsAfter (A.next_of rule.now) cells n settled
        → IsAfter (A.next_of rule.now) settled q (shifted settled dx dy)
        → IsAfter (A.next_of rule.now) cells q (shifted cells dx dy) }
{
    let _ = rule;
}
