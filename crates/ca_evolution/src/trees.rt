//! Trees of patterns, advanced by some generations, moved and compared.

ghost use Rattle.std.specs.Prelude.{◌≡◌, ◌-ℤ◌, IfOk, IsOk, IsTrue, IsFalse, MatchOption};
ghost use Rattle.ca_quad.specs.Prelude.{IsDead, HasCellOutsidePlane, shifted_cells, cell};
ghost use Rattle.ca_run.specs.Prelude.{LeaperGrows};
ghost use Rattle.ca_budget.specs.Prelude.{EndsAtLimit};
ghost use Rattle.ca_evolution.specs.Spending.{Takes};
ghost use Rattle.ca_pattern.specs.Prelude.{IsBroad, IsWide, IsRun, IsNearTree, HasLive, IsEndTree, IsMoved, IsMove, IsNoMove};
ghost use Rattle.ca_pattern.specs.Prelude.{IsOnlyMove};

use crate::observer::Observer;
use ca_plane::{Automaton, Memory, MoveFault};
use ca_quad::{Store, Tree};
use ca_run::{LeapFault, Leaper};

/// Whether no cell of a tree is live.
pub fn is_dead(store: &Store, tree: &Tree) -> bool
    requires { IsNearTree store.now tree.now }
    ensures dead { IsTrue result → IsDead (cell store.now tree.now) }
    ensures live { IsFalse result → HasLive (cell store.now tree.now) }
{
    store.is_empty(tree.root)
}

/// The tree after `generations` generations. The observer sees how far the run is.
///
/// # Errors
///
/// Fails where there is no work or no memory left for the run.
pub fn tree_after<A: Automaton, O: Observer>(
    leaper: &mut Leaper<A>,
    pattern: &Tree,
    generations: u64,
    observer: &mut O,
) -> Result<Tree, LeapFault>
    requires { IsRun leaper.old.nodes pattern.now generations }
    ensures end { IfOk result
        (IsEndTree (A.next_of leaper.old.rule) leaper.old.nodes pattern.now generations leaper.new.nodes) }
    ensures goes_on { LeaperGrows A leaper.old leaper.new }
    ensures takes { Takes leaper.old.spent.used leaper.new.spent.used 1 pattern.now.level generations }
    ensures work { EndsAtLimit leaper.new.spent result }
    ensures none { generations ≡ 0 → IsOk result }
{
    // Says what holds of every leaper.
    let _ = leaper.store();
    observer.goes_to(generations);
    let end = leaper.advance_watched(*pattern, generations, observer)?;
    Ok(end)
}

/// A tree, moved by a vector, where no live cell leaves the square of a plane.
///
/// # Errors
///
/// Fails where there is no memory for the moved tree.
pub fn moved_inside<A: Automaton>(
    leaper: &mut Leaper<A>,
    tree: Tree,
    dx: i64,
    dy: i64,
) -> Result<Option<Tree>, Memory>
    requires { IsNearTree leaper.old.nodes tree }
    ensures moved { IfOk result (λ moved. MatchOption moved
        (HasCellOutsidePlane (shifted_cells (cell leaper.old.nodes tree) dx dy))
        (IsMoved leaper.old.nodes tree dx dy leaper.new.nodes)) }
    ensures goes_on { LeaperGrows A leaper.old leaper.new }
    ensures spent { leaper.new.spent ≡ leaper.old.spent }
{
    // Says what holds of every leaper.
    let _ = leaper.store();
    if dx == 0 && dy == 0 {
        return Ok(Some(tree));
    }
    match leaper.shifted(tree, dx, dy) {
        Ok(moved) => Ok(Some(moved)),
        Err(MoveFault::Memory) => Err(Memory),
        Err(MoveFault::Range) => Ok(None),
    }
}

/// The vector, where a tree shows the cells of an earlier one moved by it. No other vector can move them
/// there.
///
/// # Errors
///
/// Fails where there is no work or no memory left to compare the trees.
pub fn vector_if_back<A: Automaton>(
    leaper: &mut Leaper<A>,
    now: Tree,
    first: Tree,
    dx: i64,
    dy: i64,
) -> Result<Option<(i64, i64)>, LeapFault>
    requires now { IsNearTree leaper.old.nodes now }
    requires first { IsNearTree leaper.old.nodes first }
    requires only { IsOnlyMove leaper.old.nodes now first (dx, dy) }
    ensures back { IfOk result (λ back. MatchOption back (IsNoMove leaper.old.nodes now first)
        (λ v. IsMove leaper.old.nodes now first v.0 v.1)) }
    ensures goes_on { LeaperGrows A leaper.old leaper.new }
    ensures spent { leaper.new.spent ≡ leaper.old.spent }
    ensures work { EndsAtLimit leaper.new.spent result }
{
    // Says what holds of every leaper.
    let _ = leaper.store();
    let Some(moved) = moved_inside(leaper, first, dx, dy)? else {
        return Ok(None);
    };
    match leaper.difference(now, moved)? {
        None => Ok(Some((dx, dy))),
        Some(_) => Ok(None),
    }
}

/// How far it is from one coordinate to another.
pub fn distance(from: i128, to: i128) -> i64
    requires from { IsBroad from }
    requires to { IsWide to }
    ensures { result ≡ to -ℤ from }
{
    let Ok(distance) = i64::try_from(to - from) else {
        unreachable!();
    };
    distance
}
