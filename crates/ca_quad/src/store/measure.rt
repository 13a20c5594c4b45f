//! The one walk over a square that looks at each square in it once.

ghost use Rattle.std.specs.Prelude.{◌≡◌, ◌≢◌, ℕ, ◌≤◌, ◌^◌, List, None, IsSome, IfSome, IsOk, IfOk, OnOk};
ghost use Rattle.ca_quad.specs.declared.node.Node.{Node as Kept};
ghost use Rattle.ca_quad.specs.declared.square.Square.TheVariants.{Four};
ghost use Rattle.ca_quad.specs.Squares.{one_cell, square_of};
ghost use Rattle.ca_quad.specs.Sound.{IsSoundStore};
ghost use Rattle.ca_quad.specs.SquareValues.{square_value, KeepValues, IsClosedUnderParts};
ghost use Rattle.ca_quad.specs.Trees.{IsIn};
ghost use Rattle.ca_quad.specs.inner.Measure.{IsJoined, IsMeasureOf, AreMeasures, IsLookedUp, IsLookedUpPart};
ghost use Rattle.ca_quad.specs.inner.Numbered.{IsNumberOfNode};

use super::Store;
use super::read::half_side;
use crate::id::Id;
use crate::square::Square;
use crate::square_map::SquareMap;
use ca_plane::Memory;

// What can be found out of a square from the same of its four parts.
pub(crate) trait Measure: Copy {
    // Whether it is the one of these cells, of this side.
    ghost is: { (ℕ → ℕ → ℕ) → ℕ → Self → Type 0 };

    // That of one cell.
    fn of_cell(state: u8) -> Self
        ensures { is (one_cell state) 1 result };

    // That of four squares of this side that lie together.
    fn of_four(side: u128, nw: Self, ne: Self, sw: Self, se: Self) -> Self
        requires { side ≤ 2 ^ 124 }
        ensures { IsJoined is side nw ne sw se result };

    // That of a square of two states whose cells are this number's digits, where it is known without parts.
    fn of_number(cells: u64) -> Option<Self>
        ensures { (nodes : List Kept) (id : ℕ) → IsSoundStore nodes → IsIn nodes id
            → IsNumberOfNode nodes id cells → IfSome result (IsMeasureOf is nodes id) };
}

impl Store {
    // What is found out of a square, given that of some of its squares.
    pub(super) fn measure<M: Measure>(
        &self,
        id: Id,
        measures: &mut SquareMap<M>,
    ) -> Result<M, Memory>
        requires known { IsIn self.now id }
        requires measures { AreMeasures M.is self.now measures.old }
        ensures measure { IfOk result (IsMeasureOf M.is self.now id) }
        ensures measures { OnOk result (AreMeasures M.is self.now measures.new) }
        ensures remembered { OnOk result (IsLookedUp self.now id → square_value measures.new id ≢ None) }
        ensures again { square_value measures.old id ≢ None → IsOk result }
        ensures kept { OnOk result (KeepValues measures.old measures.new) }
        ensures closed { OnOk result (IsClosedUnderParts (IsLookedUpPart self.now) (square_value measures.old)
            → IsClosedUnderParts (IsLookedUpPart self.now) (square_value measures.new)) }
    {
        if let Some(measure) = self.number_measure(id) {
            return Ok(measure);
        }
        match self.square(id) {
            Square::Four(nw, ne, sw, se) => Ok(measure_of_cells(nw, ne, sw, se)),
            Square::Parts(level, nw, ne, sw, se) => {
                if let Some(measure) = measures.get(id) {
                    return Ok(measure);
                }
                let nw = self.measure(nw, measures)?;
                let ne = self.measure(ne, measures)?;
                let sw = self.measure(sw, measures)?;
                let se = self.measure(se, measures)?;
                let measure = M::of_four(half_side(level), nw, ne, sw, se);
                measures.put(id, measure)?;
                Ok(measure)
            }
        }
    }

    // What the number of a square's cells tells, where it has one.
    fn number_measure<M: Measure>(&self, id: Id) -> Option<M>
        requires { IsIn self.now id }
        ensures measure { IfSome result (IsMeasureOf M.is self.now id) }
        ensures number { IsSome result → (n : ℕ) × IsNumberOfNode self.now id n }
    {
        let cells = self.number(id)?;
        M::of_number(cells)
    }
}

// What is found out of a square of four cells.
fn measure_of_cells<M: Measure>(nw: u8, ne: u8, sw: u8, se: u8) -> M
    ensures { (nodes : List Kept) (id : ℕ) → Four nw ne sw se ≡ square_of nodes id
        → IsMeasureOf M.is nodes id result }
{
    M::of_four(
        1,
        M::of_cell(nw),
        M::of_cell(ne),
        M::of_cell(sw),
        M::of_cell(se),
    )
}
