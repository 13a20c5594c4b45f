//! A glider that is written by the calls of ca_rle and ca_macro, which want to know that its cells fit.

ghost use Rattle.std.specs.Prelude.{◌<◌, ℤ, IfOk, IsTrue};
ghost use Rattle.std.specs.List.{All};
ghost use Rattle.ca_plane.specs.Prelude.{IsInRange};
ghost use Rattle.ca_quad.specs.Prelude.{IsTree, cell};

use ca_macro::write_macro_to;
use ca_pattern::read_pattern;
use ca_plane::{Dev, Memory, Plane, Point, WriteFault};
use ca_quad::{Store, Tree};
use ca_rle::{read_rle, write_rle_to};
use std::alloc::Global;
use std::io::Write;

/// A glider in RLE.
pub(crate) const RLE: &[u8] = b"#CXRLE Pos=0,0\nx = 3, y = 3, rule = B3/S23\nbo$2bo$3o!\n";

/// The same as macrocell.
pub(crate) const MACROCELL: &[u8] = b"[M2] (cafile)\n#R B3/S23\n.*$..*$***$$$$$$\n4 0 0 0 1\n";

fn is_in_range(at: Point) -> bool
    ensures { IsTrue result → IsInRange at }
{
    const EDGE: i64 = 1 << 60;
    -EDGE <= at.x && at.x < EDGE && -EDGE <= at.y && at.y < EDGE
}

/// Whether a plane of two states may be written.
fn fits(plane: &Plane) -> bool
    ensures range { IsTrue result → All (λ e. IsInRange e.0) plane.now }
    ensures states { IsTrue result → All (λ e. e.1 < 2) plane.now }
{
    'cells: for (point, state) in plane.cells() {
        if !is_in_range(point) || state >= 2 {
            return false;
        }
    }
    true
}

/// Writes the glider in RLE.
pub(crate) fn write_rle<W: Write>(alloc: Global, out: &mut Dev<W>) -> Result<(), WriteFault> {
    let Ok(glider) = read_rle(alloc, RLE) else {
        return Err(WriteFault::Memory);
    };
    if !fits(&glider.cells) {
        return Err(WriteFault::Memory);
    }
    write_rle_to(
        alloc,
        &glider.cells,
        &glider.rule_text,
        glider.generation,
        2,
        out,
    )
}

/// Whether no cell of a tree has a state above 1.
fn has_two_states(store: &Store, alloc: Global, tree: Tree) -> Result<bool, Memory>
    requires { IsTree store.now tree }
    ensures { IfOk result (λ two. IsTrue two → (x y : ℤ) → cell store.now tree x y < 2) }
{
    Ok(store.greatest_state(alloc, tree)? < 2)
}

/// Writes the glider as macrocell.
pub(crate) fn write_macro<W: Write>(alloc: Global, out: &mut Dev<W>) -> Result<(), WriteFault> {
    let mut store = Store::new(alloc);
    let Ok(glider) = read_pattern(alloc, &mut store, MACROCELL) else {
        return Err(WriteFault::Memory);
    };
    let Ok(two) = has_two_states(&store, alloc, glider.tree) else {
        return Err(WriteFault::Memory);
    };
    if !two {
        return Err(WriteFault::Memory);
    }
    write_macro_to(
        alloc,
        &mut store,
        glider.tree,
        &glider.rule_text,
        glider.generation,
        2,
        out,
    )
}
