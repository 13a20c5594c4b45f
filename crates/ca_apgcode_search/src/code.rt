//! The code of a plane that was identified.

ghost use Rattle.std.specs.Prelude.{◌≤◌, ◌-◌, IfOk, MatchOption};
ghost use Rattle.ca_plane.specs.Prelude.{Picture, cells_after, longest_period};
ghost use Rattle.ca_quad.specs.Prelude.{cell};
ghost use Rattle.ca_run.specs.Prelude.{LeaperGrows};
ghost use Rattle.ca_budget.specs.Prelude.{EndsAtLimit};
ghost use Rattle.ca_apgcode.specs.Prelude.{IsObjectCode};
ghost use Rattle.ca_evolution.specs.Prelude.{TakesSteps};
ghost use Rattle.ca_pattern.specs.Prelude.{ShowsTree, IsStart};
ghost use Rattle.ca_answers.specs.Prelude.{IsCodeOf, IsNoObject, HasGoodPeriod, steps_of};

use crate::phases::least_of_phases;
use ca_answers::Identity;
use ca_apgcode::{ObjectKind, object_code};
use ca_plane::Automaton;
use ca_quad::Tree;
use ca_run::{LeapFault, Leaper};
use ca_text::Kind;
use std::alloc::Global;

/// The code of a plane (LifeWiki, "Apgcode"), from its tree and what it was found to be, where that is a still life, an
/// oscillator or a spaceship. It takes the plane through its period, one generation after the other.
///
/// # Errors
///
/// Fails where there is no work or no memory left for that.
pub fn code_of_tree<A: Automaton>(
    alloc: Global,
    leaper: &mut Leaper<A>,
    pattern: &Tree,
    identity: Identity,
) -> Result<Option<Vec<u8>>, LeapFault>
    requires pattern { IsStart leaper.old.nodes pattern.now }
    requires period { HasGoodPeriod identity }
    ensures code { (cells : Picture) → ShowsTree leaper.old.nodes pattern.now cells
        → IfOk result (λ found. MatchOption found (IsNoObject identity)
        (λ code. IsCodeOf (A.next_of leaper.old.rule) cells identity code.items)) }
    ensures goes_on { LeaperGrows A leaper.old leaper.new }
    ensures takes { TakesSteps leaper.old.spent.used leaper.new.spent.used
        (cells_after (A.next_of leaper.old.rule) (cell leaper.old.nodes pattern.now))
        (steps_of identity) (steps_of identity) }
    ensures work { EndsAtLimit leaper.new.spent result }
{
    // Says what holds of every leaper.
    let _ = leaper.store();
    match identity {
        Identity::Claim(Kind::Still) => {
            let cells = leaper.store().population(alloc, *pattern)?;
            let code = code_of_phases(alloc, leaper, pattern, ObjectKind::StillLife, cells, 1)?;
            Ok(Some(code))
        }
        Identity::Claim(Kind::Oscillator { period }) => {
            let code = code_of_phases(
                alloc,
                leaper,
                pattern,
                ObjectKind::Oscillator,
                u128::from(period),
                period,
            )?;
            Ok(Some(code))
        }
        Identity::Claim(Kind::Spaceship { period, .. }) => {
            let code = code_of_phases(
                alloc,
                leaper,
                pattern,
                ObjectKind::Spaceship,
                u128::from(period),
                period,
            )?;
            Ok(Some(code))
        }
        _ => Ok(None),
    }
}

// The code of the first `count` phases of a pattern, with this number.
fn code_of_phases<A: Automaton>(
    alloc: Global,
    leaper: &mut Leaper<A>,
    pattern: &Tree,
    kind: ObjectKind,
    number: u128,
    count: u64,
) -> Result<Vec<u8>, LeapFault>
    requires pattern { IsStart leaper.old.nodes pattern.now }
    requires some { 1 ≤ count }
    requires most { count ≤ longest_period }
    ensures code { IfOk result (λ code. IsObjectCode kind number
        (cells_after (A.next_of leaper.old.rule) (cell leaper.old.nodes pattern.now)) count code.items) }
    ensures goes_on { LeaperGrows A leaper.old leaper.new }
    ensures takes { TakesSteps leaper.old.spent.used leaper.new.spent.used
        (cells_after (A.next_of leaper.old.rule) (cell leaper.old.nodes pattern.now)) (count - 1) (count - 1) }
    ensures work { EndsAtLimit leaper.new.spent result }
{
    // Says what holds of every leaper.
    let _ = leaper.store();
    let least = least_of_phases(alloc, leaper, pattern, count)?;
    let code = object_code(alloc, kind, number, least)?;
    Ok(code)
}
