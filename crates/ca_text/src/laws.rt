//! Laws of claim texts, which no call needs to run.

ghost use Rattle.std.specs.Prelude.{◌≡◌, ◌≢◌, ℕ, List, [], ◌∷◌, Option, codes};
ghost use Rattle.ca_text.specs.Text.{ClaimTextLine, IsClaimText, asked_by};
ghost use Rattle.ca_text.specs.NeededFiles.{IsNeeded};
ghost use Rattle.ca_text.specs.TextFaults.{IsFirstClaimFault};
ghost use Rattle.ca_text.specs.Examples.{block_text, block_said, block_asked, every_text, every_said};
ghost use Rattle.ca_text.specs.Examples.{every_asked, rule_line_text, table_said, tables_text, tables_said};
ghost use Rattle.ca_text.specs.Examples.{tables_asked, spare_said, second_text, second_said, HaveFault};
ghost use Rattle.ca_text.specs.declared.fault.ClaimFault.{ClaimFault};
ghost use Rattle.ca_text.specs.declared.fault.ClaimFault.TheVariants as fault;

/// A claim text has one meaning at most.
pub fn one_meaning()
    ensures { (bytes : List ℕ) (s t : List (Option ClaimTextLine)) → IsClaimText bytes s → IsClaimText bytes t
        → s ≡ t }
{}

/// A claim text has no fault other than out of memory.
pub fn no_fault_in_claim_text()
    ensures { (bytes : List ℕ) (said : List (Option ClaimTextLine)) (f : ClaimFault) → f ≢ fault.Memory
        → IsClaimText bytes said → IsFirstClaimFault bytes f → ⊥ }
{}

/// A text has one first fault at most, apart from out of memory.
pub fn one_fault()
    ensures { (bytes : List ℕ) (f g : ClaimFault) → f ≢ fault.Memory → g ≢ fault.Memory
        → IsFirstClaimFault bytes f → IsFirstClaimFault bytes g → f ≡ g }
{}

/// What the definitions say of small texts.
pub fn worked_examples()
    // A comment, a blank line, a name and a claim, which is on line 4 and about the name's path.
    ensures lines { IsClaimText block_text block_said }
    ensures asked { asked_by block_said ≡ block_asked }
    // All claims.
    ensures every_line { IsClaimText every_text every_said }
    ensures every_claim { asked_by every_said ≡ every_asked }
    // A rule table after two names of one path.
    ensures table_line { IsClaimText rule_line_text table_said }
    ensures table_paths { asked_by table_said
        ≡ record { paths = codes "p" ∷ codes "r" ∷ []; rules = codes "r" ∷ []; claims = []; patterns = [] } }
    // Rule tables before and after a name and a claim.
    ensures tables_line { IsClaimText tables_text tables_said }
    ensures tables_paths { asked_by tables_said ≡ tables_asked }
    // The files that are needed: those of all rule lines, and those that a claim names; none without a claim.
    ensures rule_needed { IsNeeded tables_asked (codes "q") }
    ensures claimed_needed { IsNeeded (asked_by spare_said) (codes "p") }
    ensures spare_unneeded { IsNeeded (asked_by spare_said) (codes "q") → ⊥ }
    ensures none_needed { (path : List ℕ) → IsNeeded (asked_by table_said) path → ⊥ }
    // No lines.
    ensures empty { IsClaimText [] [] }
    // Each fault, with the number of its line.
    ensures unknown { IsFirstClaimFault (codes "still q") (fault.UnknownName 1) }
    ensures taken { HaveFault (codes "load a p" ∷ codes "load a q" ∷ []) (fault.NameTaken 2) }
    ensures other_unknown { HaveFault (codes "load a p" ∷ codes "becomes a 1 b" ∷ []) (fault.UnknownName 2) }
    ensures misspelled { HaveFault (codes "load a p" ∷ codes "gun a" ∷ []) (fault.Syntax 2) }
    ensures two_tables { HaveFault (codes "rule r" ∷ codes "rule r q" ∷ []) (fault.Syntax 2) }
    ensures no_number { HaveFault (codes "load a p" ∷ codes "oscillator a x" ∷ []) (fault.Syntax 2) }
    ensures no_shift { HaveFault (codes "load a p" ∷ codes "spaceship a 4 0 0" ∷ []) (fault.Number 2) }
    // A number comes before an unknown name.
    ensures no_period { IsFirstClaimFault (codes "oscillator b 1") (fault.Number 1) }
    // The second version, which is stated once, before all others, and needed by the claims that came with it.
    ensures second { IsClaimText second_text second_said }
    ensures late_version { HaveFault (codes "load a p" ∷ codes "claims 2" ∷ []) (fault.Syntax 2) }
    ensures two_versions { HaveFault (codes "claims 2" ∷ codes "claims 2" ∷ []) (fault.Syntax 2) }
    ensures third_version { IsFirstClaimFault (codes "claims 3") (fault.Syntax 1) }
    ensures early_claim { HaveFault (codes "load a p" ∷ codes "dies a 1" ∷ []) (fault.Syntax 2) }
    ensures no_life { HaveFault (codes "claims 2" ∷ codes "dies a 0" ∷ []) (fault.Number 2) }
{}
