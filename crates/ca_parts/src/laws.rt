//! Laws of parts that never meet and of settled planes, over the definitions alone. They hold of every rule
//! under which nothing is born where nothing is live.

ghost use Rattle.std.specs.Prelude.{◌≡◌, ◌≢◌, ℕ, ◌+◌, ℤ, List, replicate};
ghost use Rattle.std.specs.List.{All, AllPairs, AllZip, Any, Contains, flat_map, sum_by};
ghost use Rattle.ca_plane.specs.Prelude.{Picture, cell, after, IsAfter, IsSame, IsLive, cells_after};
ghost use Rattle.ca_parts.specs.Prelude.{AreApart, AreApartBefore, NeverMeet, together, FallsInto, ComesBack};
ghost use Rattle.ca_parts.specs.Prelude.{IsEarlier, IsEnd, LiesIn, IsLinked, IsDivision, IsSettled, IsFiner};
ghost use Rattle.ca_parts.specs.Prelude.{IsFinerThanAll, IsFinest, IsFirstSettled};

/// As long as parts are apart, each goes on as if it were alone: after n generations the plane of all of them has
/// the cells that each one has then, together. So it is at all times of parts that never meet.
pub fn apart_parts_go_on_alone()
    ensures two { (next : List ℕ → ℕ) → next (replicate 9 0) ≡ 0 → (p q : Picture) → NeverMeet next p q
        → (n : ℕ) (x y : ℤ) → cells_after next (λ u v. cell p u v + cell q u v) n x y
        ≡ after next p n x y + after next q n x y }
    ensures all { (next : List ℕ → ℕ) → next (replicate 9 0) ≡ 0 → (parts : List Picture)
        → AllPairs (NeverMeet next) parts → (n : ℕ) (x y : ℤ)
        → cells_after next (together parts) n x y ≡ sum_by (λ p. after next p n x y) parts }
    ensures before { (next : List ℕ → ℕ) → next (replicate 9 0) ≡ 0 → (parts : List Picture) (n : ℕ)
        → AllPairs (AreApartBefore next n) parts → (x y : ℤ)
        → cells_after next (together parts) n x y ≡ sum_by (λ q. after next q n x y) parts }
{}

/// A settled plane stays settled: what a division's parts are after n generations is a division of the plane
/// then.
pub fn settled_stays_settled()
    ensures settled { (next : List ℕ → ℕ) → next (replicate 9 0) ≡ 0 → (cells : ℤ → ℤ → ℕ) (n : ℕ)
        → IsSettled next cells → IsSettled next (cells_after next cells n) }
    ensures parts { (next : List ℕ → ℕ) → next (replicate 9 0) ≡ 0 → (cells : ℤ → ℤ → ℕ) (n : ℕ)
        (parts later : List Picture) → IsDivision next cells parts
        → AllZip (λ p q. IsAfter next p n q) parts later → IsDivision next (cells_after next cells n) later }
{}

/// The same cells have one finest division at most: each part of one shows the same cells as a part of the
/// other.
pub fn one_finest_division()
    ensures { (next : List ℕ → ℕ) (cells : ℤ → ℤ → ℕ) (one two : List Picture) → IsFinest next cells one
        → IsFinest next cells two → All (λ p. Any (IsSame p) two) one }
{}

/// Where a plane falls into linked parts, each of them lies in a part of every division.
pub fn linked_parts_lie_in_parts()
    ensures { (next : List ℕ → ℕ) → next (replicate 9 0) ≡ 0 → (cells : ℤ → ℤ → ℕ)
        (parts others : List Picture) → FallsInto cells parts → All (λ p. IsLinked (cell p)) parts
        → IsDivision next cells others → IsFiner parts others }
{}

/// Where parts lie each in a part of a division, and are apart for n generations, but after n two of them aren't,
/// one part of the division holds both.
pub fn meeting_parts_lie_in_one_part()
    ensures { (next : List ℕ → ℕ) → next (replicate 9 0) ≡ 0 → (cells : ℤ → ℤ → ℕ)
        (parts others : List Picture) (n : ℕ) (p q : Picture) → ((x y : ℤ) → cells x y ≡ together parts x y)
        → IsDivision next cells others → IsFiner parts others → AllPairs (AreApartBefore next n) parts
        → Contains parts p → Contains parts q → (AreApart (after next p n) (after next q n) → ⊥)
        → Any (λ d. LiesIn p d × LiesIn q d) others }
{}

/// What comes back was one picture, any number of generations earlier, that comes back too, and no other one.
pub fn one_earlier()
    ensures some { (next : List ℕ → ℕ) → next (replicate 9 0) ≡ 0 → (p : Picture) (n : ℕ) → ComesBack next p
        → (e : Picture) × IsEarlier next n e p }
    ensures no_other { (next : List ℕ → ℕ) → next (replicate 9 0) ≡ 0 → (n : ℕ) (one two p q : Picture)
        → IsEarlier next n one p → IsEarlier next n two q → IsSame p q → IsSame one two }
{}

/// Where a division is finer than another one, each part of that one is some of its parts together: each cell of
/// the part is a cell of one of these, which lies in it.
pub fn coarse_parts_are_made_of_fine_ones()
    ensures { (next : List ℕ → ℕ) → next (replicate 9 0) ≡ 0 → (cells : ℤ → ℤ → ℕ)
        (fine coarse : List Picture) → IsDivision next cells fine → IsDivision next cells coarse
        → IsFiner fine coarse
        → All (λ q. (x y : ℤ) → cell q x y ≢ 0 → Any (λ p. LiesIn p q × (cell p x y ≡ cell q x y)) fine)
        coarse }
{}

/// Where the finest division of the plane after n generations is known, and what each of its parts was n
/// generations earlier, the plane is settled only if its finest division is into these earlier pictures. And that
/// it is if they are the plane together, and apart before n generations. Where the plane one generation earlier
/// doesn't fall into them, the plane with that finest division is the first one that is settled.
pub fn earlier_parts_tell_if_settled()
    ensures settled { (next : List ℕ → ℕ) → next (replicate 9 0) ≡ 0 → (n : ℕ) (cells : ℤ → ℤ → ℕ)
        (parts earlier : List Picture) → IsFinest next (cells_after next cells n) parts
        → AllZip (IsEarlier next n) earlier parts → IsSettled next cells → IsFinest next cells earlier }
    ensures finest { (next : List ℕ → ℕ) → next (replicate 9 0) ≡ 0 → (n : ℕ) (cells : ℤ → ℤ → ℕ)
        (parts earlier : List Picture) → IsFinest next (cells_after next cells n) parts
        → AllZip (IsEarlier next n) earlier parts → AllPairs (AreApartBefore next n) earlier
        → ((x y : ℤ) → cells x y ≡ together earlier x y) → IsFinest next cells earlier }
    ensures step { (next : List ℕ → ℕ) → next (replicate 9 0) ≡ 0 → (cells : ℤ → ℤ → ℕ)
        (parts earlier : List Picture) → IsFinest next (cells_after next cells 1) parts
        → AllZip (IsEarlier next 1) earlier parts → FallsInto cells earlier → IsFinest next cells earlier }
    ensures first { (next : List ℕ → ℕ) → next (replicate 9 0) ≡ 0 → (cells : ℤ → ℤ → ℕ) (n : ℕ)
        (parts earlier : List Picture) → IsFinest next (cells_after next cells (n + 1)) parts
        → AllZip (IsEarlier next 1) earlier parts → (FallsInto (cells_after next cells n) earlier → ⊥)
        → IsFirstSettled next cells (n + 1) }
{}

/// What a picture is in the long run, as of now: where it comes back from some generation on, there is such an
/// end, and no picture has two.
pub fn one_end()
    ensures some { (next : List ℕ → ℕ) → next (replicate 9 0) ≡ 0 → (p q : Picture) (n : ℕ)
        → IsAfter next p n q → ComesBack next q → (e : Picture) × IsEnd next p e }
    ensures no_other { (next : List ℕ → ℕ) → next (replicate 9 0) ≡ 0 → (p one two : Picture)
        → IsEnd next p one → IsEnd next p two → IsSame one two }
{}

/// Where parts never meet, an end lies in each division's part in which its picture does. So of parts that are
/// finer than every division, if the plane is settled, the ends never meet and are the plane together. And live
/// ones of them that do so are its finest division.
pub fn ends_tell_if_settled()
    ensures within { (next : List ℕ → ℕ) → next (replicate 9 0) ≡ 0 → (cells : ℤ → ℤ → ℕ)
        (parts ends : List Picture) → AllPairs (NeverMeet next) parts
        → ((x y : ℤ) → cells x y ≡ together parts x y) → AllZip (IsEnd next) parts ends
        → (others : List Picture) → IsDivision next cells others → IsFiner parts others
        → AllZip (λ p e. Any (λ d. LiesIn p d × LiesIn e d) others) parts ends }
    ensures settled { (next : List ℕ → ℕ) → next (replicate 9 0) ≡ 0 → (cells : ℤ → ℤ → ℕ)
        (parts ends : List Picture) → AllPairs (NeverMeet next) parts
        → ((x y : ℤ) → cells x y ≡ together parts x y) → AllZip (IsEnd next) parts ends
        → IsFinerThanAll next cells parts → IsSettled next cells
        → AllPairs (NeverMeet next) ends × ((x y : ℤ) → cells x y ≡ together ends x y) }
    ensures finest { (next : List ℕ → ℕ) → next (replicate 9 0) ≡ 0 → (cells : ℤ → ℤ → ℕ)
        (parts ends : List Picture) → AllPairs (NeverMeet next) parts
        → ((x y : ℤ) → cells x y ≡ together parts x y) → AllZip (IsEnd next) parts ends
        → IsFinerThanAll next cells parts → (lives : List Picture) → All IsLive lives
        → All (Contains ends) lives → AllPairs (NeverMeet next) lives
        → ((x y : ℤ) → cells x y ≡ together lives x y) → IsFinest next cells lives }
{}

/// The parts of a division of a later plane, each as it was n generations earlier, are a division of this plane,
/// if it is settled at all.
pub fn earlier_parts_are_a_division()
    ensures { (next : List ℕ → ℕ) → next (replicate 9 0) ≡ 0 → (n : ℕ) (cells : ℤ → ℤ → ℕ)
        (parts earlier : List Picture) → IsDivision next (cells_after next cells n) parts
        → AllZip (IsEarlier next n) earlier parts → IsSettled next cells → IsDivision next cells earlier }
{}

/// The finest division goes on: what its parts are after n generations is the finest division of the plane then.
pub fn later_parts_are_finest()
    ensures { (next : List ℕ → ℕ) → next (replicate 9 0) ≡ 0 → (cells : ℤ → ℤ → ℕ) (n : ℕ)
        (parts later : List Picture) → IsFinest next cells parts
        → AllZip (λ p q. IsAfter next p n q) parts later → IsFinest next (cells_after next cells n) later }
{}

/// Two divisions of the same cells have a common cut: a division that is finer than both. And each part of the one
/// is cut into parts that are a division of it, each of which lies in a part of the other.
pub fn divisions_have_a_common_cut()
    ensures whole { (next : List ℕ → ℕ) → next (replicate 9 0) ≡ 0 → (cells : ℤ → ℤ → ℕ)
        (parts others : List Picture) → IsDivision next cells parts → IsDivision next cells others
        → (cut : List Picture) × IsDivision next cells cut × IsFiner cut parts × IsFiner cut others }
    ensures part { (next : List ℕ → ℕ) → next (replicate 9 0) ≡ 0 → (cells : ℤ → ℤ → ℕ)
        (parts others : List Picture) → IsDivision next cells parts → IsDivision next cells others
        → (p : Picture) → Contains parts p
        → (cut : List Picture) × IsDivision next (cell p) cut × IsFiner cut others }
{}

/// Where a plane falls into regions, each of which has a finest division, and no two parts of these ever meet, all
/// of them are the finest division of the plane.
pub fn finest_divisions_of_regions()
    ensures { (next : List ℕ → ℕ) → next (replicate 9 0) ≡ 0 → (cells : ℤ → ℤ → ℕ)
        (regions : List Picture) (finest : List (List Picture)) → ((x y : ℤ) → cells x y ≡ together regions x y)
        → AllZip (λ region parts. IsFinest next (cell region) parts) regions finest
        → AllPairs (NeverMeet next) (flat_map (λ parts. parts) finest)
        → IsFinest next cells (flat_map (λ parts. parts) finest) }
{}
