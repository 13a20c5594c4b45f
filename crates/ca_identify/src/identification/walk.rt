//! A pattern's plane, looked at after one generation after the other.

ghost use Rattle.std.specs.Prelude.{◌≡◌, ◌+◌, ◌-◌, ◌≤◌, max, List, IfOk, OnOk, OnErr};
ghost use Rattle.ca_quad.specs.declared.node.Node.{Node};
ghost use Rattle.ca_plane.specs.Prelude.{cells_after};
ghost use Rattle.ca_quad.specs.Prelude.{AreSquareBoxes, cell};
ghost use Rattle.ca_run.specs.Prelude.{LeaperGrows};
ghost use Rattle.ca_identify.specs.inner.Stages.{CanSearch, CanLookOn, IsStage, IsHalted, IsLookedAt, EndsAfter};
ghost use Rattle.ca_pattern.specs.Prelude.{IsLaterTree};
ghost use Rattle.ca_evolution.specs.Prelude.{TakesSteps, step_work};

use super::ending::Ending;
use super::share::later_within;
use super::stage::{First, Stage, stage_of};
use ca_evolution::Observer;
use ca_plane::Automaton;
use ca_quad::{SquareBoxes, Tree};
use ca_run::{LeapFault, Leaper};
use std::alloc::Global;

/// How far a pattern's plane was looked at: the tree after `generations` generations, and the boxes of squares that
/// were measured.
#[derive(Drop)]
pub(super) struct Walk {
    pub(super) tree: Tree,
    pub(super) generations: u64,
    pub(super) boxes: SquareBoxes,
}

impl Walk {
    /// A walk that begins at the pattern.
    pub(super) fn from(alloc: Global, pattern: Tree) -> Walk
        ensures tree { result.tree ≡ pattern }
        ensures generations { result.generations ≡ 0 }
        ensures boxes { (nodes : List Node) → AreSquareBoxes nodes result.boxes }
    {
        Walk {
            tree: pattern,
            generations: 0,
            boxes: SquareBoxes::new(alloc),
        }
    }
}

/// Goes on to `end` generations after the pattern, and gives how the pattern ends by then, if it does. Where it fails,
/// the walk is at the last generation that was looked at. `Work` is reported where `until` units are used up.
pub(super) fn look_on<A: Automaton, O: Observer>(
    alloc: Global,
    leaper: &mut Leaper<A>,
    first: &First,
    walk: &mut Walk,
    end: u64,
    until: u64,
    observer: &mut O,
) -> Result<Option<Ending>, LeapFault>
    requires walk { CanLookOn (A.next_of leaper.old.rule) leaper.old.nodes first.now walk.old end }
    ensures found { IfOk result (IsLookedAt (A.next_of leaper.old.rule)
        (cell leaper.old.nodes first.now.tree) leaper.new.nodes end end walk.new) }
    ensures halted { OnErr result (IsHalted (A.next_of leaper.old.rule)
        (cell leaper.old.nodes first.now.tree) leaper.new.nodes walk.old.generations end walk.new) }
    ensures goes_on { LeaperGrows A leaper.old leaper.new }
    ensures takes { TakesSteps leaper.old.spent.used leaper.new.spent.used
        (cells_after (A.next_of leaper.old.rule) (cell leaper.old.nodes first.now.tree)) end
        (end - walk.old.generations) }
    ensures bounded { leaper.new.spent.used ≤ max leaper.old.spent.used until }
    ensures work { EndsAfter until leaper.new.spent result }
{
    'generations: while walk.generations < end {
        let generations = walk.generations + 1;
        observer.goes_to(generations);
        let later = step(
            alloc,
            leaper,
            first,
            walk.tree,
            walk.generations,
            until,
            &mut walk.boxes,
        )?;
        if let Some(ending) = later.stage.ending(generations) {
            return Ok(Some(ending));
        }
        walk.tree = later.tree;
        walk.generations = generations;
    }
    Ok(None)
}

// A tree, and what it shows of the pattern.
#[derive(Drop)]
struct LaterStage {
    tree: Tree,
    stage: Stage,
}

// One generation after the tree that is `generations` generations after the pattern.
fn step<A: Automaton>(
    alloc: Global,
    leaper: &mut Leaper<A>,
    first: &First,
    now: Tree,
    generations: u64,
    until: u64,
    boxes: &mut SquareBoxes,
) -> Result<LaterStage, LeapFault>
    requires first { CanSearch (A.next_of leaper.old.rule) leaper.old.nodes first.now (generations + 1) }
    requires now { IsLaterTree (A.next_of leaper.old.rule) (cell leaper.old.nodes first.now.tree) generations
        leaper.old.nodes now }
    requires boxes { AreSquareBoxes leaper.old.nodes boxes.old }
    ensures tree { IfOk result
        (λ later. IsLaterTree (A.next_of leaper.old.rule) (cell leaper.old.nodes first.now.tree)
        (generations + 1) leaper.new.nodes later.tree) }
    ensures stage { IfOk result (λ later. IsStage (cell leaper.old.nodes first.now.tree)
        (cells_after (A.next_of leaper.old.rule) (cell leaper.old.nodes first.now.tree) (generations + 1))
        later.stage) }
    ensures boxes { OnOk result (AreSquareBoxes leaper.new.nodes boxes.new) }
    ensures goes_on { LeaperGrows A leaper.old leaper.new }
    ensures takes { leaper.new.spent.used ≤ leaper.old.spent.used + step_work now.level }
    ensures bounded { leaper.new.spent.used ≤ max leaper.old.spent.used until }
    ensures work { EndsAfter until leaper.new.spent result }
{
    let _ = generations;
    let tree = later_within(leaper, now, 1, until)?;
    let stage = stage_of(alloc, leaper, first, &tree, boxes)?;
    Ok(LaterStage { tree, stage })
}
