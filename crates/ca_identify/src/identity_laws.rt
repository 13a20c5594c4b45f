//! Laws of what patterns are found to be, which no call needs to run: within a limit one identity at most
//! holds of a pattern; and of a file's, out of work and memory apart, one identity or one fault for which it
//! isn't found out.

ghost use Rattle.std.specs.Prelude.{◌≡◌, ◌≢◌, ℕ, List, None};
ghost use Rattle.ca_plane.specs.Prelude.{Picture};
ghost use Rattle.ca_rule.specs.Prelude.{TableRule};
ghost use Rattle.ca_pattern.specs.declared.located_fault.LocatedFault.{LocatedFault};
ghost use Rattle.ca_pattern.specs.declared.located_fault.LocatedFault.TheVariants.{Work, Memory};
ghost use Rattle.ca_pattern.specs.Prelude.{IsSameFault};
ghost use Rattle.ca_answers.specs.declared.{identity.Identity.Identity, scope.Scope.Scope, scope.Look.Look};
ghost use Rattle.ca_answers.specs.Prelude.{IsIdentity, IsIdentityAfter, IsLookAt, IsIdentifiedAfter, IsUnidentifiedAfter};

/// Under any rule, one identity at most holds of some cells within a limit, and of their plane after some generations.
pub fn one_identity()
    ensures now { (next : List ℕ → ℕ) (cells : Picture) (limit : ℕ) (one two : Identity)
        → IsIdentity next cells limit one → IsIdentity next cells limit two → one ≡ two }
    ensures later { (next : List ℕ → ℕ) (cells : Picture) (n limit : ℕ) (one two : Identity)
        → IsIdentityAfter next cells n limit one → IsIdentityAfter next cells n limit two → one ≡ two }
{}

/// What a look finds the plane of a file's pattern to be, after some generations, it is within the
/// generations that were looked at. Those are all up to the limit of the scope, where there is no end to its patience.
pub fn looks_find_identities()
    ensures found { (bytes : List ℕ) (tables : List TableRule) (n : ℕ) (scope : Scope) (look : Look)
        → IsLookAt bytes tables n scope look → IsIdentifiedAfter bytes tables n look.limit look.identity }
    ensures whole { (bytes : List ℕ) (tables : List TableRule) (n : ℕ) (scope : Scope) (look : Look)
        → scope.patience ≡ None → IsLookAt bytes tables n scope look → look.limit ≡ scope.limit }
{}

/// Within a limit the plane of a file's pattern, after some generations or none, is identified as one thing
/// at most, or not identified for one fault, in one place, and not both; out of work and memory apart.
pub fn one_kind_of_identification()
    ensures one_identity { (bytes : List ℕ) (tables : List TableRule) (n limit : ℕ) (one two : Identity)
        → IsIdentifiedAfter bytes tables n limit one
        → IsIdentifiedAfter bytes tables n limit two → one ≡ two }
    ensures identity_or_fault { (bytes : List ℕ) (tables : List TableRule) (work n limit : ℕ)
        (identity : Identity) (fault : LocatedFault) → fault ≢ Memory → fault ≢ Work
        → IsIdentifiedAfter bytes tables n limit identity
        → IsUnidentifiedAfter bytes tables work n limit fault → ⊥ }
    ensures one_fault { (bytes : List ℕ) (tables : List TableRule) (work n limit : ℕ)
        (one two : LocatedFault) → one ≢ Memory → one ≢ Work → two ≢ Memory → two ≢ Work
        → IsUnidentifiedAfter bytes tables work n limit one
        → IsUnidentifiedAfter bytes tables work n limit two → IsSameFault one two }
{}
