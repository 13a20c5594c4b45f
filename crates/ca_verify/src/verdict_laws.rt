//! Laws of verdicts, which no call needs to run: what a true claim of each kind is, and what a reason against
//! one shows; a no means that the claim is false, and it's false for one kind of reason; a file has one
//! meaning; out of work and memory apart, only one kind of verdict is true of a claim; and rule lines that are added
//! change no verdict but that a rule isn't known.

ghost use Rattle.std.specs.Prelude.{◌≡◌, ◌≢◌, ℕ, suc, ◌≤◌, ◌<◌, ◌↔◌, ℤ, List, [], ◌++◌, replicate, pos, negsuc};
ghost use Rattle.std.specs.List.{AllByRecursion};
ghost use Rattle.ca_plane.specs.Prelude.{Picture, cell, shifted, IsLive, after, IsAfter, IsLiveAfter};
ghost use Rattle.ca_text.specs.declared.kind.Kind.{Kind};
ghost use Rattle.ca_text.specs.declared.kind.Kind.TheVariants.{Still, Oscillator, Spaceship, Becomes, BecomesShifted, Dies};
ghost use Rattle.ca_text.specs.Prelude.{Claim, asks_of, IsChanged, IsNowhere, IsTrueClaim};
ghost use Rattle.ca_pattern.specs.Prelude.{Means};
ghost use Rattle.ca_answers.specs.Prelude.{SuppliedFiles, IsReason, IsSameReason, IsTrueVerdict, HoldsTable};
ghost use Rattle.ca_verify.specs.Examples.{life, blinker, block};
ghost use Rattle.ca_answers.specs.declared.{verdict.Refutation.Refutation, verdict.Verdict.Verdict, cause.Cause.Cause};
ghost use Rattle.ca_answers.specs.declared.verdict.Refutation.TheVariants.{Empty, Differs, Earlier, Died};
ghost use Rattle.ca_answers.specs.declared.verdict.Verdict.TheVariants.{Yes, No, Refused};
ghost use Rattle.ca_answers.specs.declared.cause.Cause.TheVariants.{NoFile, BadTable, BadRule, Work, Memory};
ghost use Rattle.ca_rule.specs.declared.fault.RuleFault.TheVariants.{Unknown};
ghost use Rattle.ca_rule.specs.declared.table.fault.TableFault.{TableFault};

/// What it means that a claim of each kind is true.
pub fn true_claims()
    ensures still { (next : List ℕ → ℕ) (cells other : Picture) → IsTrueClaim next cells other (asks_of Still)
        ↔ (IsLive cells × IsAfter next cells 1 cells) }
    ensures oscillator { (next : List ℕ → ℕ) (cells other : Picture) (period : ℕ)
        → IsTrueClaim next cells other (asks_of (Oscillator period))
        ↔ (IsLive cells × IsAfter next cells period cells
        × ((m : ℕ) → 1 ≤ m → m < period → IsChanged next cells m)) }
    ensures spaceship { (next : List ℕ → ℕ) (cells other : Picture) (period : ℕ) (dx dy : ℤ)
        → IsTrueClaim next cells other (asks_of (Spaceship period dx dy))
        ↔ (IsLive cells × IsAfter next cells period (shifted cells dx dy)
        × ((m : ℕ) → 1 ≤ m → m < period → IsNowhere next cells m)) }
    ensures becomes { (next : List ℕ → ℕ) (cells other : Picture) (generations : ℕ)
        → IsTrueClaim next cells other (asks_of (Becomes generations))
        ↔ IsAfter next cells generations other }
    ensures becomes_shifted { (next : List ℕ → ℕ) (cells other : Picture) (generations : ℕ) (dx dy : ℤ)
        → IsTrueClaim next cells other (asks_of (BecomesShifted generations dx dy))
        ↔ IsAfter next cells generations (shifted other dx dy) }
    ensures dies { (next : List ℕ → ℕ) (cells other : Picture) (generations : ℕ)
        → IsTrueClaim next cells other (asks_of (Dies generations))
        ↔ (IsLive cells × IsAfter next cells generations []
        × ((m : ℕ) → 1 ≤ m → m < generations → IsLiveAfter next cells m)) }
{}

/// Under a rule that doesn't wake it an empty plane stays empty. So a pattern dies after some generations, at
/// least 1, exactly where the plane is empty then, and one generation before some cell is live.
pub fn death_by_the_last_generation()
    ensures empty_stays { (next : List ℕ → ℕ) (cells : Picture) → next (replicate 9 0) ≡ 0
        → (m n : ℕ) → m ≤ n → IsAfter next cells m [] → IsAfter next cells n [] }
    ensures dies { (next : List ℕ → ℕ) (cells other : Picture) → next (replicate 9 0) ≡ 0 → (n : ℕ)
        → IsTrueClaim next cells other (asks_of (Dies (suc n)))
        ↔ (IsAfter next cells (suc n) [] × IsLiveAfter next cells n) }
{}

/// What it means that there is a reason against a claim of each kind: no cell is live, a cell after the
/// claimed generations isn't the claimed one, or the claimed cells stand and the pattern is back, or the
/// plane empty, at an earlier time, and at none before that.
pub fn false_claims()
    ensures still_empty { (next : List ℕ → ℕ) (cells other : Picture)
        → IsReason next cells other (asks_of Still) Empty ↔ (IsLive cells → ⊥) }
    ensures still_differs { (next : List ℕ → ℕ) (cells other : Picture) (x y : ℤ) (found expected n : ℕ)
        → IsReason next cells other (asks_of Still) (Differs x y found expected n)
        ↔ (IsLive cells × (n ≡ 1) × (after next cells 1 x y ≡ found) × (cell cells x y ≡ expected)
        × (found ≢ expected)) }
    ensures still_earlier { (next : List ℕ → ℕ) (cells other : Picture) (m : ℕ) (dx dy : ℤ)
        → IsReason next cells other (asks_of Still) (Earlier m dx dy) → ⊥ }
    ensures oscillator_empty { (next : List ℕ → ℕ) (cells other : Picture) (period : ℕ)
        → IsReason next cells other (asks_of (Oscillator period)) Empty ↔ (IsLive cells → ⊥) }
    ensures oscillator_differs { (next : List ℕ → ℕ) (cells other : Picture) (period : ℕ) (x y : ℤ)
        (found expected n : ℕ)
        → IsReason next cells other (asks_of (Oscillator period)) (Differs x y found expected n)
        ↔ (IsLive cells × (n ≡ period) × (after next cells period x y ≡ found) × (cell cells x y ≡ expected)
        × (found ≢ expected)) }
    ensures oscillator_earlier { (next : List ℕ → ℕ) (cells other : Picture) (period m : ℕ) (dx dy : ℤ)
        → IsReason next cells other (asks_of (Oscillator period)) (Earlier m dx dy)
        ↔ (IsLive cells × IsAfter next cells period cells × (1 ≤ m) × (m < period) × (dx ≡ pos 0)
        × (dy ≡ pos 0) × IsAfter next cells m cells × ((k : ℕ) → 1 ≤ k → k < m → IsChanged next cells k)) }
    ensures spaceship_empty { (next : List ℕ → ℕ) (cells other : Picture) (period : ℕ) (dx dy : ℤ)
        → IsReason next cells other (asks_of (Spaceship period dx dy)) Empty ↔ (IsLive cells → ⊥) }
    ensures spaceship_differs { (next : List ℕ → ℕ) (cells other : Picture) (period : ℕ) (dx dy x y : ℤ)
        (found expected n : ℕ)
        → IsReason next cells other (asks_of (Spaceship period dx dy)) (Differs x y found expected n)
        ↔ (IsLive cells × (n ≡ period) × (after next cells period x y ≡ found)
        × (cell (shifted cells dx dy) x y ≡ expected) × (found ≢ expected)) }
    ensures spaceship_earlier { (next : List ℕ → ℕ) (cells other : Picture) (period m : ℕ) (dx dy u v : ℤ)
        → IsReason next cells other (asks_of (Spaceship period dx dy)) (Earlier m u v)
        ↔ (IsLive cells × IsAfter next cells period (shifted cells dx dy) × (1 ≤ m) × (m < period)
        × IsAfter next cells m (shifted cells u v) × ((k : ℕ) → 1 ≤ k → k < m → IsNowhere next cells k)) }
    ensures becomes_empty { (next : List ℕ → ℕ) (cells other : Picture) (generations : ℕ)
        → IsReason next cells other (asks_of (Becomes generations)) Empty → ⊥ }
    ensures becomes_differs { (next : List ℕ → ℕ) (cells other : Picture) (generations : ℕ) (x y : ℤ)
        (found expected n : ℕ)
        → IsReason next cells other (asks_of (Becomes generations)) (Differs x y found expected n)
        ↔ ((n ≡ generations) × (after next cells generations x y ≡ found) × (cell other x y ≡ expected)
        × (found ≢ expected)) }
    ensures becomes_earlier { (next : List ℕ → ℕ) (cells other : Picture) (generations m : ℕ) (dx dy : ℤ)
        → IsReason next cells other (asks_of (Becomes generations)) (Earlier m dx dy) → ⊥ }
    ensures shifted_empty { (next : List ℕ → ℕ) (cells other : Picture) (generations : ℕ) (dx dy : ℤ)
        → IsReason next cells other (asks_of (BecomesShifted generations dx dy)) Empty → ⊥ }
    ensures shifted_differs { (next : List ℕ → ℕ) (cells other : Picture) (generations : ℕ) (dx dy x y : ℤ)
        (found expected n : ℕ)
        → IsReason next cells other (asks_of (BecomesShifted generations dx dy)) (Differs x y found expected n)
        ↔ ((n ≡ generations) × (after next cells generations x y ≡ found)
        × (cell (shifted other dx dy) x y ≡ expected) × (found ≢ expected)) }
    ensures shifted_earlier { (next : List ℕ → ℕ) (cells other : Picture) (generations m : ℕ)
        (dx dy u v : ℤ)
        → IsReason next cells other (asks_of (BecomesShifted generations dx dy)) (Earlier m u v) → ⊥ }
    ensures dies_empty { (next : List ℕ → ℕ) (cells other : Picture) (generations : ℕ)
        → IsReason next cells other (asks_of (Dies generations)) Empty ↔ (IsLive cells → ⊥) }
    ensures dies_differs { (next : List ℕ → ℕ) (cells other : Picture) (generations : ℕ) (x y : ℤ)
        (found expected n : ℕ)
        → IsReason next cells other (asks_of (Dies generations)) (Differs x y found expected n)
        ↔ (IsLive cells × (n ≡ generations) × (after next cells generations x y ≡ found) × (expected ≡ 0)
        × (found ≢ expected)) }
    ensures dies_earlier { (next : List ℕ → ℕ) (cells other : Picture) (generations m : ℕ) (dx dy : ℤ)
        → IsReason next cells other (asks_of (Dies generations)) (Earlier m dx dy) → ⊥ }
    ensures dies_died { (next : List ℕ → ℕ) (cells other : Picture) (generations m : ℕ)
        → IsReason next cells other (asks_of (Dies generations)) (Died m)
        ↔ (IsLive cells × IsAfter next cells generations [] × (1 ≤ m) × (m < generations)
        × IsAfter next cells m [] × ((k : ℕ) → 1 ≤ k → k < m → IsLiveAfter next cells k)) }
    ensures only_dies_died { (next : List ℕ → ℕ) (cells other : Picture) (kind : Kind) (m : ℕ)
        → IsReason next cells other (asks_of kind) (Died m) → (n : ℕ) × (kind ≡ Dies n) }
{}

/// Where there is a reason against a claim, the claim isn't true.
pub fn no_is_false()
    ensures { (next : List ℕ → ℕ) (cells other : Picture) (kind : Kind) (refutation : Refutation)
        → IsReason next cells other (asks_of kind) refutation
        → IsTrueClaim next cells other (asks_of kind) → ⊥ }
{}

/// A claim is false for one kind of reason at most: two reasons are both want of live cells, or both cells
/// that differ after the claimed generations (which cells is open), or the same earlier return or death.
pub fn one_reason()
    ensures { (next : List ℕ → ℕ) (cells other : Picture) (kind : Kind) (one two : Refutation)
        → IsReason next cells other (asks_of kind) one
        → IsReason next cells other (asks_of kind) two → IsSameReason one two }
{}

/// The bytes of a file mean one picture, one rule text and one generation at most.
pub fn one_meaning_of_a_file()
    ensures { (bytes : List ℕ) (p q : Picture) (t u : List ℕ) (g h : ℕ) → Means bytes p t g
        → Means bytes q u h → (p ≡ q) × (t ≡ u) × (g ≡ h) }
{}

/// A yes and a no aren't both true of a claim, nor is one of them and a refusal, out of work and memory
/// apart. Nor are refusals for two causes, out of memory apart: so out of work, as a yes and a no, comes only
/// where no other cause is. Nor are out of memory and a file that isn't there, or out of memory and a bad
/// table.
pub fn one_kind_of_verdict()
    ensures yes_or_no { (files : SuppliedFiles) (rules : List (List ℕ)) (claim : Claim)
        (refutation : Refutation)
        → IsTrueVerdict files rules claim Yes → IsTrueVerdict files rules claim (No refutation) → ⊥ }
    ensures yes_or_refused { (files : SuppliedFiles) (rules : List (List ℕ)) (claim : Claim)
        (cause : Cause) → cause ≢ Memory → cause ≢ Work
        → IsTrueVerdict files rules claim Yes → IsTrueVerdict files rules claim (Refused cause) → ⊥ }
    ensures no_or_refused { (files : SuppliedFiles) (rules : List (List ℕ)) (claim : Claim)
        (refutation : Refutation) (cause : Cause) → cause ≢ Memory → cause ≢ Work
        → IsTrueVerdict files rules claim (No refutation)
        → IsTrueVerdict files rules claim (Refused cause) → ⊥ }
    ensures work_or_refused { (files : SuppliedFiles) (rules : List (List ℕ)) (claim : Claim)
        (cause : Cause) → cause ≢ Memory → cause ≢ Work
        → IsTrueVerdict files rules claim (Refused Work) → IsTrueVerdict files rules claim (Refused cause)
        → ⊥ }
    ensures one_cause { (files : SuppliedFiles) (rules : List (List ℕ)) (claim : Claim)
        (one two : Cause) → one ≢ Memory → two ≢ Memory
        → IsTrueVerdict files rules claim (Refused one) → IsTrueVerdict files rules claim (Refused two)
        → one ≡ two }
    ensures no_file_or_memory { (files : SuppliedFiles) (rules : List (List ℕ)) (claim : Claim)
        → IsTrueVerdict files rules claim (Refused NoFile) → IsTrueVerdict files rules claim (Refused Memory)
        → ⊥ }
    ensures bad_table_or_memory { (files : SuppliedFiles) (rules : List (List ℕ)) (claim : Claim)
        (fault : TableFault) → IsTrueVerdict files rules claim (Refused (BadTable fault))
        → IsTrueVerdict files rules claim (Refused Memory) → ⊥ }
{}

/// With more rule lines at the text's end, whose files are good tables, a true verdict stays true, but for one that
/// a pattern's rule isn't known: so they change no other claim.
pub fn added_rules_change_no_verdict()
    ensures { (files : SuppliedFiles) (rules more : List (List ℕ))
        (claim : Claim) (verdict : Verdict)
        → AllByRecursion (HoldsTable files) more → verdict ≢ Refused (BadRule Unknown)
        → IsTrueVerdict files rules claim verdict → IsTrueVerdict files (rules ++ more) claim verdict }
{}

/// Cells of the blinker and the block under Conway's Life.
pub fn worked_generations()
    ensures north_of_the_blinker_is_born { after life blinker 1 (pos 1) (negsuc 0) ≡ 1 }
    ensures end_of_the_blinker_dies { after life blinker 1 (pos 0) (pos 0) ≡ 0 }
    ensures middle_of_the_blinker_stays { after life blinker 1 (pos 1) (pos 0) ≡ 1 }
    ensures end_of_the_blinker_is_back { after life blinker 2 (pos 0) (pos 0) ≡ 1 }
    ensures corner_of_the_block_stays { after life block 1 (pos 0) (pos 0) ≡ 1 }
    ensures beside_the_block_stays_empty { after life block 1 (negsuc 0) (pos 0) ≡ 0 }
    ensures corner_of_the_block_stays_for_5 { after life block 5 (pos 1) (pos 1) ≡ 1 }
{}
