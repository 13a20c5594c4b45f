//! Four squares of 2 by 2 cells, and squares of 4 by 4.

ghost use Rattle.std.specs.Prelude.{◌≡◌, IfOk};
ghost use Rattle.ca_quad.specs.Prelude.{IsOf, cell_of, joined_cells, AreFour};
ghost use Rattle.ca_run.specs.Centre.{IsCentre, IsLeap};
ghost use Rattle.ca_run.specs.inner.AtCost.{GoesOnAtCost};
ghost use Rattle.ca_run.specs.inner.Shown.{sixteen};

use super::Leaper;
use ca_plane::{Automaton, Memory};
use ca_quad::Id;

impl<A: Automaton> Leaper<A> {
    // The sixteen cells of four squares of 2 by 2, row by row.
    pub(super) fn cells16(&self, nw: Id, ne: Id, sw: Id, se: Id) -> [u8; 16]
        requires { AreFour self.now.nodes 1 nw ne sw se }
        ensures { result ≡ sixteen (joined_cells 2 (cell_of self.now.nodes 1 nw) (cell_of self.now.nodes 1 ne)
            (cell_of self.now.nodes 1 sw) (cell_of self.now.nodes 1 se)) }
    {
        let [a, b, e, f] = self.store.cells4(nw);
        let [c, d, g, h] = self.store.cells4(ne);
        let [i, j, m, n] = self.store.cells4(sw);
        let [k, l, o, p] = self.store.cells4(se);
        [a, b, c, d, e, f, g, h, i, j, k, l, m, n, o, p]
    }

    // The four cells in the middle of four squares of 2 by 2, one generation later.
    pub(super) fn next_inner(&mut self, nw: Id, ne: Id, sw: Id, se: Id) -> Result<Id, Memory>
        requires { AreFour self.old.nodes 1 nw ne sw se }
        ensures leap { IfOk result (IsLeap (A.next_of self.old.rule) self.new.nodes 0 nw ne sw se) }
        ensures at_cost { GoesOnAtCost A self.old self.new 0 1 }
    {
        let [a, b, c, d, e, f, g, h, i, j, k, l, m, n, o, p] = self.cells16(nw, ne, sw, se);
        let nw = self.rule.next(&[a, b, c, e, f, g, i, j, k]);
        let ne = self.rule.next(&[b, c, d, f, g, h, j, k, l]);
        let sw = self.rule.next(&[e, f, g, i, j, k, m, n, o]);
        let se = self.rule.next(&[f, g, h, j, k, l, n, o, p]);
        self.leaf(nw, ne, sw, se)
    }

    // The four cells in the middle of a square of 4 by 4, one generation later.
    pub(super) fn next_four(&mut self, id: Id) -> Result<Id, Memory>
        requires { IsOf self.old.nodes id 2 }
        ensures centre { IfOk result (IsCentre (A.next_of self.old.rule) self.new.nodes id 0 0) }
        ensures at_cost { GoesOnAtCost A self.old self.new 0 1 }
    {
        let (nw, ne, sw, se) = self.quarters(id, 0);
        self.next_inner(nw, ne, sw, se)
    }
}
