//! What a pattern is: its first generations are looked at one by one, then leaps are made, then strides.

ghost use Rattle.std.specs.Prelude.{◌≤◌, IfOk, IfErr};
ghost use Rattle.ca_plane.specs.Prelude.{Picture, cells_after, longest_period, most_generations};
ghost use Rattle.ca_quad.specs.Prelude.{cell};
ghost use Rattle.ca_run.specs.Prelude.{LeaperGrows};
ghost use Rattle.ca_budget.specs.Prelude.{EndsAtLimit};
ghost use Rattle.ca_answers.specs.Prelude.{IsLookAt, IsUnidentifiedAfter};
ghost use Rattle.ca_pattern.specs.Prelude.{AreGoodLimits, ShowsTree, IsPattern, IsStart};
ghost use Rattle.ca_identify.specs.TreeLooks.{IsTreeLook, TakesRunAndSearch, TakesRunAndLook};

mod early;
mod ending;
mod growth;
mod leaps;
mod patience;
mod search;
mod share;
mod stage;
mod strides;
mod walk;

use crate::tree_look::TreeLook;
use ca_answers::{Identity, Look, Scope};
use ca_evolution::{Observer, later_tree, leaper_of};
use ca_pattern::{Limits, LocatedFault, StoredTree, open_pattern};
use ca_plane::Automaton;
use ca_quad::Tree;
use ca_rule::Table;
use ca_run::{LeapFault, Leaper};
use patience::look;
use stage::First;
use std::alloc::Global;

/// What the plane of a file's pattern is after `generations` generations, at most 1152921504606846976, under the rule
/// that its rule text names, in its own notation or among the tables. That is the one claim that is true of it of those
/// that name one pattern (`still`, `oscillator`, `spaceship`, `dies`); or that none is whose period or generations are
/// from 1 to a limit, and how far the plane has grown then. After no generations it is the pattern itself; else the
/// periods and the limit are counted from there.
///
/// The limit is that of the scope, from 1 to 4294967295 generations. Where the scope has patience for a number of units
/// of work, they bound what the generations after the first two take. Where they are used up before it is found what
/// the plane is, that is no error: the look ends with the generations that were looked at by then, the first two at least.
///
/// The observer sees how far the run to the plane is, each generation that is looked at by itself, and the end of each
/// stride; no leap, and no line.
///
/// # Errors
///
/// As for `open_pattern`; and `Work` where as much work was done as may be, that of the run too.
#[tactic(auto, using(crate::proofs::IdentifiedFiles::opened_may_want))]
pub fn identify<O: Observer>(
    alloc: Global,
    bytes: &[u8],
    tables: &[Table],
    generations: u64,
    limits: Limits,
    scope: Scope,
    observer: &mut O,
) -> Result<Look, LocatedFault>
    requires limits { AreGoodLimits limits }
    requires few { generations ≤ most_generations }
    requires some { 1 ≤ scope.limit }
    requires most { scope.limit ≤ longest_period }
    ensures look { IfOk result (IsLookAt bytes.now tables.now generations scope) }
    ensures unidentified { IfErr result
        (IsUnidentifiedAfter bytes.now tables.now limits.work generations scope.limit) }
{
    let pattern = open_pattern(alloc, bytes, tables)?;
    let Ok(StoredTree { store, tree }) = pattern.cells.into_squares(alloc) else {
        return Err(LocatedFault::Memory);
    };
    let Ok(mut leaper) = leaper_of(alloc, store, pattern.rule, limits) else {
        return Err(LocatedFault::Memory);
    };
    match look_at_plane(alloc, &mut leaper, tree, generations, scope, observer) {
        Ok(found) => Ok(found.look),
        Err(LeapFault::Memory) => Err(LocatedFault::Memory),
        Err(LeapFault::Work) => Err(LocatedFault::Work),
    }
}

/// What the plane of a pattern's tree is after `generations` generations, as far from there as the scope says, and the
/// tree of that plane.
///
/// # Errors
///
/// Fails where there is no work or no memory left for it.
pub fn look_at_plane<A: Automaton, O: Observer>(
    alloc: Global,
    leaper: &mut Leaper<A>,
    pattern: Tree,
    generations: u64,
    scope: Scope,
    observer: &mut O,
) -> Result<TreeLook, LeapFault>
    requires pattern { IsPattern leaper.old.nodes pattern }
    requires few { generations ≤ most_generations }
    requires some { 1 ≤ scope.limit }
    requires most { scope.limit ≤ longest_period }
    ensures look { (cells : Picture) → ShowsTree leaper.old.nodes pattern cells → IfOk result
        (IsTreeLook (A.next_of leaper.old.rule) cells generations scope leaper.new.nodes) }
    ensures start { IfOk result (λ found. IsStart leaper.new.nodes found.tree) }
    ensures goes_on { LeaperGrows A leaper.old leaper.new }
    ensures takes { TakesRunAndSearch leaper.old.spent.used leaper.new.spent.used pattern.level generations
        (cells_after (A.next_of leaper.old.rule) (cell leaper.old.nodes pattern)) scope.limit }
    ensures counted { IfOk result (λ found. TakesRunAndLook leaper.old.spent.used leaper.new.spent.used
        pattern.level generations found.look) }
    ensures work { EndsAtLimit leaper.new.spent result }
{
    // Says what holds of every leaper.
    let _ = leaper.store();
    let start = later_tree(leaper, pattern, generations, observer)?;
    let tree = &start;
    let Some(bounds) = leaper.store().bounds(alloc, *tree)? else {
        return Ok(TreeLook {
            tree: *tree,
            look: Look {
                identity: Identity::Empty,
                limit: scope.limit,
                work: 0,
            },
        });
    };
    let first = First {
        tree: *tree,
        bounds,
    };
    let found = look(alloc, leaper, first, scope, observer)?;
    Ok(TreeLook {
        tree: *tree,
        look: found,
    })
}
