//! Laws of censuses, which no call needs to run.

ghost use Rattle.std.specs.Prelude.{◌+◌};
ghost use Rattle.std.specs.List.{All};
ghost use Rattle.ca_plane.specs.Prelude.{Picture};
ghost use Rattle.ca_rule.specs.Prelude.{RuleValue, next_of};
ghost use Rattle.ca_text.specs.declared.kind.Kind.TheVariants.{Becomes};
ghost use Rattle.ca_text.specs.Prelude.{IsTrueClaim, asks_of};
ghost use Rattle.ca_census.specs.declared.census.Census.{Census};
ghost use Rattle.ca_census.specs.declared.reach.Reach.{Reach};
ghost use Rattle.ca_census.specs.Files.{IsCensusUnder};

/// The claims that a census makes are true: the pattern becomes the plane that is kept, after as many generations as
/// the start of the reach and the census have together; and each object is alone what is told of it.
pub fn census_claims_are_true()
    ensures becomes { (rule : RuleValue) (cells : Picture) (reach : Reach) (census : Census)
        → IsCensusUnder rule cells reach census → IsTrueClaim (next_of rule) cells census.plane
        (asks_of (Becomes (reach.start + census.generations))) }
    ensures objects { (rule : RuleValue) (cells : Picture) (reach : Reach) (census : Census)
        → IsCensusUnder rule cells reach census
        → All (λ o. IsTrueClaim (next_of rule) o.plane o.plane (asks_of o.kind)) census.objects.items }
{}
