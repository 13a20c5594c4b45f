//! The centres of squares after 2^j generations.

ghost use Rattle.std.specs.Prelude.{◌≡◌, ℕ, suc, ◌≤◌, ◌^◌, ℤ, ◌+ℤ◌, List, IfOk, IfSome, ◌*◌, ◌-◌};
ghost use Rattle.ca_plane.specs.Prelude.{cells_after};
ghost use Rattle.ca_quad.specs.Prelude.{IsOf, AreFour};
ghost use Rattle.ca_run.specs.Centre.{IsCentre, IsLeap};
ghost use Rattle.ca_budget.specs.Prelude.{EndsAtLimit};
ghost use Rattle.ca_run.specs.inner.AtCost.{GoesOnAtCost};
ghost use Rattle.ca_run.specs.inner.Centres.{HasCentre};
ghost use Rattle.ca_run.specs.inner.Shown.{ShowsAt, FourShow, TwoShow, ThreeShow, NineShow, AreThree};
ghost use Rattle.ca_run.specs.inner.Shown.{AreNine, generations, IsTimely};
ghost use Rattle.ca_bricks.specs.Prelude.{side};

use super::Leaper;
use crate::watch::Watch;
use ca_bricks::{Rows, Trio};
use ca_budget::LeapFault;
use ca_plane::Automaton;
use ca_quad::Id;

// `part_level` is the level of a square's sixteen parts: its own level is that and 2.
impl<A: Automaton> Leaper<A> {
    // The centre of a square after 2^j generations.
    #[cycle(leap)]
    pub(super) fn centre<W: Watch>(
        &mut self,
        id: Id,
        part_level: u8,
        j: u8,
        watch: &mut W,
    ) -> Result<Id, LeapFault>
        requires centre { HasCentre self.old.nodes id part_level j }
        requires low { part_level ≤ 123 }
        ensures centre { IfOk result (IsCentre (A.next_of self.old.rule) self.new.nodes id part_level j) }
        ensures at_cost { GoesOnAtCost A self.old self.new (14 ^ part_level) 0 }
        ensures work { EndsAtLimit self.new.spent result }
    {
        let _ = &self.store;
        if let Some(result_id) = self.recall(id, part_level, j) {
            return Ok(result_id);
        }
        if let Some(result_id) = self.empty_centre(id, part_level) {
            self.remember(id, part_level, j, result_id)?;
            return Ok(result_id);
        }
        self.charge_watched(watch)?;
        let result_id = self.new_centre(id, part_level, j, watch)?;
        self.remember(id, part_level, j, result_id)?;
        Ok(result_id)
    }

    // The centre of a square that is empty.
    fn empty_centre(&self, id: Id, part_level: u8) -> Option<Id>
        requires { IsOf self.now.nodes id (suc (suc part_level)) }
        ensures { (j : ℕ) → j ≤ part_level
            → IfSome result (IsCentre (A.next_of self.now.rule) self.now.nodes id part_level j) }
    {
        if !self.store.is_empty(id) {
            return None;
        }
        let (result_id, _, _, _) = self.quarters(id, part_level);
        Some(result_id)
    }

    // The centre of a square that isn't remembered.
    #[cycle(leap)]
    fn new_centre<W: Watch>(
        &mut self,
        id: Id,
        part_level: u8,
        j: u8,
        watch: &mut W,
    ) -> Result<Id, LeapFault>
        requires centre { HasCentre self.old.nodes id part_level j }
        requires low { part_level ≤ 123 }
        ensures centre { IfOk result (IsCentre (A.next_of self.old.rule) self.new.nodes id part_level j) }
        ensures at_cost { GoesOnAtCost A self.old self.new (14 ^ part_level - 1) 19 }
        ensures work { EndsAtLimit self.new.spent result }
    {
        let _ = &self.store;
        if part_level == 0 {
            return Ok(self.next_four(id)?);
        }
        if let Some(words) = self.centre_words(id, part_level, j)? {
            return Ok(self.from_centre_words(words)?);
        }
        if j == part_level {
            return self.centre_of_nine(id, part_level - 1, Some(j - 1), j - 1, watch);
        }
        self.centre_of_nine(id, part_level - 1, None, j, watch)
    }

    // The centre of a square by nine squares that overlap, each half as wide: their centres make four
    // squares, and the centres of these are the result.
    #[cycle(leap)]
    #[tactic(auto, using(crate::proofs::CostSteps::in_turn))]
    fn centre_of_nine<W: Watch>(
        &mut self,
        id: Id,
        part_level: u8,
        first: Option<u8>,
        j: u8,
        watch: &mut W,
    ) -> Result<Id, LeapFault>
        requires square { IsOf self.old.nodes id (suc (suc (suc part_level))) }
        requires low { part_level ≤ 122 }
        requires first { IsTimely part_level first }
        requires time { j ≤ part_level }
        ensures shows { (next : List ℕ → ℕ) (p : ℤ → ℤ → ℕ) (a b : ℤ) → next ≡ A.next_of self.old.rule
            → ShowsAt self.old.nodes id (suc (suc (suc part_level))) p a b
            → IfOk result (λ result_id. ShowsAt self.new.nodes result_id (suc (suc part_level))
            (cells_after next (cells_after next p (generations first)) (2 ^ j))
            (a +ℤ side (suc part_level)) (b +ℤ side (suc part_level))) }
        ensures at_cost { GoesOnAtCost A self.old self.new (13 * 14 ^ part_level) 19 }
        ensures work { EndsAtLimit self.new.spent result }
    {
        let rows = self.nine(id, part_level, first, watch)?;
        let (nw, ne) = self.pair(&rows.north, &rows.middle, part_level, j, watch)?;
        let (sw, se) = self.pair(&rows.middle, &rows.south, part_level, j, watch)?;
        Ok(self.join(nw, ne, sw, se, part_level)?)
    }

    // The centres of the nine squares.
    #[cycle(leap)]
    #[tactic(auto, using(crate::proofs::CostSteps::in_turn))]
    fn nine<W: Watch>(
        &mut self,
        id: Id,
        part_level: u8,
        first: Option<u8>,
        watch: &mut W,
    ) -> Result<Rows<Id>, LeapFault>
        requires square { IsOf self.old.nodes id (suc (suc (suc part_level))) }
        requires low { part_level ≤ 122 }
        requires first { IsTimely part_level first }
        ensures shows { (next : List ℕ → ℕ) (p : ℤ → ℤ → ℕ) (a b : ℤ) → next ≡ A.next_of self.old.rule
            → ShowsAt self.old.nodes id (suc (suc (suc part_level))) p a b
            → IfOk result (λ rows. NineShow self.new.nodes (suc part_level) rows
            (cells_after next p (generations first)) (a +ℤ side part_level) (b +ℤ side part_level)) }
        ensures squares { IfOk result (AreNine self.new.nodes (suc part_level)) }
        ensures at_cost { GoesOnAtCost A self.old self.new (9 * 14 ^ part_level) 9 }
        ensures work { EndsAtLimit self.new.spent result }
    {
        let (nw, ne, sw, se) = self.quarters(id, part_level + 1);
        let north = self.trio(nw, ne, part_level, first, watch)?;
        let middle = self.middle_trio(nw, ne, sw, se, part_level, first, watch)?;
        let south = self.trio(sw, se, part_level, first, watch)?;
        Ok(Rows {
            north,
            middle,
            south,
        })
    }

    // The centres of two squares side by side, and of the one between them.
    #[cycle(leap)]
    #[tactic(auto, using(crate::proofs::CostSteps::in_turn))]
    fn trio<W: Watch>(
        &mut self,
        west: Id,
        east: Id,
        part_level: u8,
        first: Option<u8>,
        watch: &mut W,
    ) -> Result<Trio<Id>, LeapFault>
        requires west { IsOf self.old.nodes west (suc (suc part_level)) }
        requires east { IsOf self.old.nodes east (suc (suc part_level)) }
        requires low { part_level ≤ 122 }
        requires first { IsTimely part_level first }
        ensures shows { (next : List ℕ → ℕ) (p : ℤ → ℤ → ℕ) (a b : ℤ) → next ≡ A.next_of self.old.rule
            → TwoShow self.old.nodes (suc (suc part_level)) west east p a b
            → IfOk result (λ three. ThreeShow self.new.nodes (suc part_level) three
            (cells_after next p (generations first)) (a +ℤ side part_level) (b +ℤ side part_level)) }
        ensures squares { IfOk result (AreThree self.new.nodes (suc part_level)) }
        ensures at_cost { GoesOnAtCost A self.old self.new (3 * 14 ^ part_level) 3 }
        ensures work { EndsAtLimit self.new.spent result }
    {
        let (_, nw, _, sw) = self.quarters(west, part_level);
        let (ne, _, se, _) = self.quarters(east, part_level);
        let west = self.first_centre(west, part_level, first, watch)?;
        let middle = self.first_inner(nw, ne, sw, se, part_level, first, watch)?;
        let east = self.first_centre(east, part_level, first, watch)?;
        Ok(Trio { west, middle, east })
    }

    // The centres of the three squares in the middle row of four squares: each lies half in the north.
    #[cycle(leap)]
    #[tactic(auto, using(crate::proofs::CostSteps::in_turn))]
    fn middle_trio<W: Watch>(
        &mut self,
        nw: Id,
        ne: Id,
        sw: Id,
        se: Id,
        part_level: u8,
        first: Option<u8>,
        watch: &mut W,
    ) -> Result<Trio<Id>, LeapFault>
        requires four { AreFour self.old.nodes (suc (suc part_level)) nw ne sw se }
        requires low { part_level ≤ 122 }
        requires first { IsTimely part_level first }
        ensures shows { (next : List ℕ → ℕ) (p : ℤ → ℤ → ℕ) (a b : ℤ) → next ≡ A.next_of self.old.rule
            → FourShow self.old.nodes (suc (suc part_level)) nw ne sw se p a b
            → IfOk result (λ three. ThreeShow self.new.nodes (suc part_level) three
            (cells_after next p (generations first)) (a +ℤ side part_level)
            ((b +ℤ side (suc part_level)) +ℤ side part_level)) }
        ensures squares { IfOk result (AreThree self.new.nodes (suc part_level)) }
        ensures at_cost { GoesOnAtCost A self.old self.new (3 * 14 ^ part_level) 3 }
        ensures work { EndsAtLimit self.new.spent result }
    {
        let (_, _, a, b) = self.quarters(nw, part_level);
        let (_, _, c, d) = self.quarters(ne, part_level);
        let (e, f, _, _) = self.quarters(sw, part_level);
        let (g, h, _, _) = self.quarters(se, part_level);
        let west = self.first_inner(a, b, e, f, part_level, first, watch)?;
        let middle = self.first_inner(b, c, f, g, part_level, first, watch)?;
        let east = self.first_inner(c, d, g, h, part_level, first, watch)?;
        Ok(Trio { west, middle, east })
    }

    // The square in the middle of four as it is, or after 2^j generations.
    #[cycle(leap)]
    #[tactic(auto, using(crate::proofs::CostSteps::in_turn))]
    fn first_inner<W: Watch>(
        &mut self,
        nw: Id,
        ne: Id,
        sw: Id,
        se: Id,
        part_level: u8,
        first: Option<u8>,
        watch: &mut W,
    ) -> Result<Id, LeapFault>
        requires four { AreFour self.old.nodes (suc part_level) nw ne sw se }
        requires low { part_level ≤ 122 }
        requires first { IsTimely part_level first }
        ensures shows { (next : List ℕ → ℕ) (p : ℤ → ℤ → ℕ) (a b : ℤ) → next ≡ A.next_of self.old.rule
            → FourShow self.old.nodes (suc part_level) nw ne sw se p a b
            → IfOk result (λ result_id. ShowsAt self.new.nodes result_id (suc part_level)
            (cells_after next p (generations first)) (a +ℤ side part_level) (b +ℤ side part_level)) }
        ensures square { IfOk result (λ result_id. IsOf self.new.nodes result_id (suc part_level)) }
        ensures at_cost { GoesOnAtCost A self.old self.new (14 ^ part_level) 1 }
        ensures work { EndsAtLimit self.new.spent result }
    {
        let _ = &self.store;
        match first {
            None => Ok(self.inner_of_four(nw, ne, sw, se, part_level)?),
            Some(j) => {
                if j == part_level {
                    return self.leap_of_four(nw, ne, sw, se, part_level, watch);
                }
                let id = self.join(nw, ne, sw, se, part_level)?;
                self.centre(id, part_level, j, watch)
            }
        }
    }

    // The centre of a square as it is, or after 2^j generations.
    #[cycle(leap)]
    fn first_centre<W: Watch>(
        &mut self,
        id: Id,
        part_level: u8,
        first: Option<u8>,
        watch: &mut W,
    ) -> Result<Id, LeapFault>
        requires square { IsOf self.old.nodes id (suc (suc part_level)) }
        requires low { part_level ≤ 122 }
        requires first { IsTimely part_level first }
        ensures shows { (next : List ℕ → ℕ) (p : ℤ → ℤ → ℕ) (a b : ℤ) → next ≡ A.next_of self.old.rule
            → ShowsAt self.old.nodes id (suc (suc part_level)) p a b
            → IfOk result (λ result_id. ShowsAt self.new.nodes result_id (suc part_level)
            (cells_after next p (generations first)) (a +ℤ side part_level) (b +ℤ side part_level)) }
        ensures square { IfOk result (λ result_id. IsOf self.new.nodes result_id (suc part_level)) }
        ensures at_cost { GoesOnAtCost A self.old self.new (14 ^ part_level) 1 }
        ensures work { EndsAtLimit self.new.spent result }
    {
        let _ = &self.store;
        match first {
            None => Ok(self.inner_square(id, part_level)?),
            Some(j) => self.centre(id, part_level, j, watch),
        }
    }

    // The centres after 2^j generations of two squares that overlap by half, made of two rows of three.
    #[cycle(leap)]
    #[tactic(auto, using(crate::proofs::CostSteps::in_turn))]
    fn pair<W: Watch>(
        &mut self,
        north: &Trio<Id>,
        south: &Trio<Id>,
        part_level: u8,
        j: u8,
        watch: &mut W,
    ) -> Result<(Id, Id), LeapFault>
        requires north { AreThree self.old.nodes (suc part_level) north.now }
        requires south { AreThree self.old.nodes (suc part_level) south.now }
        requires low { part_level ≤ 122 }
        requires time { j ≤ part_level }
        ensures shows { (next : List ℕ → ℕ) (p : ℤ → ℤ → ℕ) (a b : ℤ) → next ≡ A.next_of self.old.rule
            → ThreeShow self.old.nodes (suc part_level) north.now p a b
            → ThreeShow self.old.nodes (suc part_level) south.now p a (b +ℤ side (suc part_level))
            → IfOk result (λ two. TwoShow self.new.nodes (suc part_level) two.0 two.1 (cells_after next p (2 ^ j))
            (a +ℤ side part_level) (b +ℤ side part_level)) }
        ensures west { IfOk result (λ two. IsOf self.new.nodes two.0 (suc part_level)) }
        ensures east { IfOk result (λ two. IsOf self.new.nodes two.1 (suc part_level)) }
        ensures at_cost { GoesOnAtCost A self.old self.new (2 * 14 ^ part_level) 2 }
        ensures work { EndsAtLimit self.new.spent result }
    {
        let _ = &self.store;
        let west = self.first_inner(
            north.west,
            north.middle,
            south.west,
            south.middle,
            part_level,
            Some(j),
            watch,
        )?;
        let east = self.first_inner(
            north.middle,
            north.east,
            south.middle,
            south.east,
            part_level,
            Some(j),
            watch,
        )?;
        Ok((west, east))
    }

    // The square in the middle of four, as far ahead as it can be known.
    #[cycle(leap)]
    #[tactic(auto, using(crate::proofs::CostSteps::in_turn))]
    fn leap_of_four<W: Watch>(
        &mut self,
        nw: Id,
        ne: Id,
        sw: Id,
        se: Id,
        part_level: u8,
        watch: &mut W,
    ) -> Result<Id, LeapFault>
        requires four { AreFour self.old.nodes (suc part_level) nw ne sw se }
        requires low { part_level ≤ 122 }
        ensures leap { IfOk result (IsLeap (A.next_of self.old.rule) self.new.nodes part_level nw ne sw se) }
        ensures at_cost { GoesOnAtCost A self.old self.new (14 ^ part_level) 1 }
        ensures work { EndsAtLimit self.new.spent result }
    {
        let _ = &self.store;
        if let Some(result_id) = self.recall_leap(nw, ne, sw, se) {
            return Ok(result_id);
        }
        if part_level == 0 {
            return self.counted_inner(nw, ne, sw, se, watch);
        }
        let id = self.join(nw, ne, sw, se, part_level)?;
        let result_id = self.centre(id, part_level, part_level, watch)?;
        self.remember_leap(nw, ne, sw, se, result_id);
        Ok(result_id)
    }

    // The four cells in the middle of four squares of 2 by 2, one generation later, which are remembered: a
    // result, if the squares aren't empty.
    fn counted_inner<W: Watch>(
        &mut self,
        nw: Id,
        ne: Id,
        sw: Id,
        se: Id,
        watch: &mut W,
    ) -> Result<Id, LeapFault>
        requires { AreFour self.old.nodes 1 nw ne sw se }
        ensures leap { IfOk result (IsLeap (A.next_of self.old.rule) self.new.nodes 0 nw ne sw se) }
        ensures at_cost { GoesOnAtCost A self.old self.new 1 1 }
        ensures work { EndsAtLimit self.new.spent result }
    {
        if !self.are_empty(nw, ne, sw, se) {
            self.charge_watched(watch)?;
        }
        let result_id = self.next_inner(nw, ne, sw, se)?;
        self.remember_leap(nw, ne, sw, se, result_id);
        Ok(result_id)
    }

    // Whether four squares are empty.
    fn are_empty(&self, nw: Id, ne: Id, sw: Id, se: Id) -> bool
        requires { AreFour self.now.nodes 1 nw ne sw se }
    {
        self.store.is_empty(nw)
            && self.store.is_empty(ne)
            && self.store.is_empty(sw)
            && self.store.is_empty(se)
    }
}
