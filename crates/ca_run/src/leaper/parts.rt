//! Parts of squares, and squares that lie between others.

ghost use Rattle.std.specs.Prelude.{ℕ, suc, ◌+◌, ◌*◌, ◌≤◌, ◌^◌, ℤ, pos, ◌+ℤ◌, IfOk, if◌then◌else◌};
ghost use Rattle.ca_quad.specs.Prelude.{IsOf, IsSoundStore, AreFour};
ghost use Rattle.ca_run.specs.inner.AtCost.{GoesOnAtCost};
ghost use Rattle.ca_run.specs.inner.Shown.{ShowsAt, FourShow};
ghost use Rattle.ca_bricks.specs.Prelude.{side};

use super::Leaper;
use ca_plane::{Automaton, Memory};
use ca_quad::Id;

// `part_level` is the level of a square's sixteen parts: its own level is that and 2.
impl<A: Automaton> Leaper<A> {
    // The four parts of a square.
    pub(super) fn quarters(&self, id: Id, part_level: u8) -> (Id, Id, Id, Id)
        requires { IsOf self.now.nodes id (suc (suc part_level)) }
        ensures shows { (p : ℤ → ℤ → ℕ) (a b : ℤ) → ShowsAt self.now.nodes id (suc (suc part_level)) p a b
            → FourShow self.now.nodes (suc part_level) result.0 result.1 result.2 result.3 p a b }
        ensures nw { IsOf self.now.nodes result.0 (suc part_level) }
        ensures ne { IsOf self.now.nodes result.1 (suc part_level) }
        ensures sw { IsOf self.now.nodes result.2 (suc part_level) }
        ensures se { IsOf self.now.nodes result.3 (suc part_level) }
        ensures sound { IsSoundStore self.now.nodes }
    {
        let _ = part_level;
        let [nw, ne, sw, se] = self.store.children(id);
        (nw, ne, sw, se)
    }

    // The part of a square in the west or the east of it, and in the north or the south. `part_level` is the level of the part's own
    // parts.
    fn part_in(&self, id: Id, part_level: u8, west: bool, north: bool) -> Id
        requires { IsOf self.now.nodes id (suc (suc part_level)) }
        ensures square { IsOf self.now.nodes result (suc part_level) }
        ensures shows { (p : ℤ → ℤ → ℕ) (a b : ℤ) → ShowsAt self.now.nodes id (suc (suc part_level)) p a b
            → ShowsAt self.now.nodes result (suc part_level) p (if west then a else (a +ℤ side (suc part_level)))
            (if north then b else (b +ℤ side (suc part_level))) }
    {
        let (nw, ne, sw, se) = self.quarters(id, part_level);
        match (west, north) {
            (true, true) => nw,
            (false, true) => ne,
            (true, false) => sw,
            (false, false) => se,
        }
    }

    // The part of a square at a place among those of a level, down to which its side can be halved so often.
    pub(super) fn part_at(&self, id: Id, level: u8, halvings: u8, i: usize, j: usize) -> Id
        requires square { IsOf self.now.nodes id (halvings + level) }
        requires least { 1 ≤ level }
        requires most { level ≤ 6 }
        requires low { halvings ≤ 56 }
        requires place_x { suc i ≤ 2 ^ halvings }
        requires place_y { suc j ≤ 2 ^ halvings }
        ensures square { IsOf self.now.nodes result level }
        ensures shows { (p : ℤ → ℤ → ℕ) (a b : ℤ) → ShowsAt self.now.nodes id (halvings + level) p a b
            → ShowsAt self.now.nodes result level p (a +ℤ pos (2 ^ level * i)) (b +ℤ pos (2 ^ level * j)) }
    {
        if halvings == 0 {
            return id;
        }
        let half = 1 << (halvings - 1);
        let part = self.part_in(id, level + halvings - 2, i < half, j < half);
        self.part_at(part, level, halvings - 1, i % half, j % half)
    }

    // The square in the middle of four.
    pub(super) fn inner_of_four(
        &mut self,
        nw: Id,
        ne: Id,
        sw: Id,
        se: Id,
        part_level: u8,
    ) -> Result<Id, Memory>
        requires { AreFour self.old.nodes (suc part_level) nw ne sw se }
        ensures shows { (p : ℤ → ℤ → ℕ) (a b : ℤ) → FourShow self.old.nodes (suc part_level) nw ne sw se p a b
            → IfOk result (λ result_id. ShowsAt self.new.nodes result_id (suc part_level) p
            (a +ℤ side part_level) (b +ℤ side part_level)) }
        ensures square { IfOk result (λ result_id. IsOf self.new.nodes result_id (suc part_level)) }
        ensures at_cost { GoesOnAtCost A self.old self.new 0 1 }
    {
        if part_level == 0 {
            let [_, _, _, _, _, nw, ne, _, _, sw, se, _, _, _, _, _] = self.cells16(nw, ne, sw, se);
            return self.leaf(nw, ne, sw, se);
        }
        let (_, _, _, nw) = self.quarters(nw, part_level - 1);
        let (_, _, ne, _) = self.quarters(ne, part_level - 1);
        let (_, sw, _, _) = self.quarters(sw, part_level - 1);
        let (se, _, _, _) = self.quarters(se, part_level - 1);
        self.join(nw, ne, sw, se, part_level - 1)
    }

    // The middle of a square, half its side wide.
    pub(super) fn inner_square(&mut self, id: Id, part_level: u8) -> Result<Id, Memory>
        requires { IsOf self.old.nodes id (suc (suc part_level)) }
        ensures shows { (p : ℤ → ℤ → ℕ) (a b : ℤ) → ShowsAt self.old.nodes id (suc (suc part_level)) p a b
            → IfOk result (λ result_id. ShowsAt self.new.nodes result_id (suc part_level) p
            (a +ℤ side part_level) (b +ℤ side part_level)) }
        ensures square { IfOk result (λ result_id. IsOf self.new.nodes result_id (suc part_level)) }
        ensures at_cost { GoesOnAtCost A self.old self.new 0 1 }
    {
        let (nw, ne, sw, se) = self.quarters(id, part_level);
        self.inner_of_four(nw, ne, sw, se, part_level)
    }
}
