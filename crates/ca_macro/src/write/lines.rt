//! The lines of a tidy text.

ghost use Rattle.std.specs.Prelude.{◌≡◌, ◌++◌, ◌∷◌, [], map, codes, decimal, OnOk};
ghost use Rattle.std.specs.List.{flat_map};
ghost use Rattle.ca_plane.specs.Prelude.{Puts};
ghost use Rattle.ca_macro.specs.Nodes.{leaf_mark};
ghost use Rattle.ca_macro.specs.Tidy.{numbers_text, node_text, generation_lines, tidy_lines};
ghost use Rattle.ca_macro.specs.inner.Written.{row_marks, node_of};

use super::written::WrittenNode;
use ca_plane::Memory;
use ca_plane::text::{push_number, push_text};

/// How a cell of a leaf is written.
fn mark(live: bool) -> u8
    ensures { result ≡ leaf_mark live }
{
    if live {
        return b'*';
    }
    b'.'
}

/// Puts the cells of a row after what `out` holds, and `$`.
fn push_leaf_row(out: &mut Vec<u8>, row: u8, width: u8) -> Result<(), Memory>
    ensures { OnOk result (Puts out.old.items out.new.items
        (map leaf_mark (row_marks width row) ++ codes "$")) }
{
    if width == 0 || row == 0 {
        return push_text(out, b"$");
    }
    push_text(out, &[mark(row % 2 == 1)])?;
    push_leaf_row(out, row / 2, width - 1)
}

fn push_rows(out: &mut Vec<u8>, rows: &[u8; 8]) -> Result<(), Memory>
    ensures { OnOk result (Puts out.old.items out.new.items
        (flat_map (λ row. map leaf_mark row ++ codes "$") (map (row_marks 8) rows.now))) }
{
    'rows: for row in rows {
        push_leaf_row(out, *row, 8)?;
    }
    Ok(())
}

fn push_next(out: &mut Vec<u8>, number: u64) -> Result<(), Memory>
    ensures { OnOk result (Puts out.old.items out.new.items (32 ∷ decimal number)) }
{
    push_text(out, b" ")?;
    push_number(out, number)
}

fn push_numbers(
    out: &mut Vec<u8>,
    level: u8,
    nw: u64,
    ne: u64,
    sw: u64,
    se: u64,
) -> Result<(), Memory>
    ensures { OnOk result (Puts out.old.items out.new.items (numbers_text (level ∷ nw ∷ ne ∷ sw ∷ se ∷ []))) }
{
    push_number(out, level as u64)?;
    push_next(out, nw)?;
    push_next(out, ne)?;
    push_next(out, sw)?;
    push_next(out, se)
}

fn push_node(out: &mut Vec<u8>, node: &WrittenNode) -> Result<(), Memory>
    ensures { OnOk result (Puts out.old.items out.new.items (node_text (node_of node.now))) }
{
    match node {
        WrittenNode::Leaf(rows) => push_rows(out, rows),
        WrittenNode::Cells(states) => push_numbers(
            out,
            1,
            states[0] as u64,
            states[1] as u64,
            states[2] as u64,
            states[3] as u64,
        ),
        WrittenNode::Parts(level, numbers) => push_numbers(
            out, *level, numbers[0], numbers[1], numbers[2], numbers[3],
        ),
    }
}

fn push_line(out: &mut Vec<u8>, node: &WrittenNode) -> Result<(), Memory>
    ensures { OnOk result (Puts out.old.items out.new.items (node_text (node_of node.now) ++ 10 ∷ [])) }
{
    push_node(out, node)?;
    push_text(out, b"\n")
}

fn push_nodes(out: &mut Vec<u8>, nodes: &[WrittenNode]) -> Result<(), Memory>
    ensures { OnOk result (Puts out.old.items out.new.items
        (flat_map (λ line. line ++ 10 ∷ []) (map node_text (map node_of nodes.now)))) }
{
    'nodes: for node in nodes {
        push_line(out, node)?;
    }
    Ok(())
}

fn push_generation(out: &mut Vec<u8>, generation: u64) -> Result<(), Memory>
    ensures { OnOk result (Puts out.old.items out.new.items
        (flat_map (λ line. line ++ 10 ∷ []) (generation_lines generation))) }
{
    if generation == 0 {
        return Ok(());
    }
    push_text(out, b"#G ")?;
    push_number(out, generation)?;
    push_text(out, b"\n")
}

/// Puts all lines of a tidy text after what `out` holds.
pub(super) fn push_lines(
    out: &mut Vec<u8>,
    rule_text: &[u8],
    generation: u64,
    nodes: &[WrittenNode],
) -> Result<(), Memory>
    ensures { OnOk result (Puts out.old.items out.new.items
        (flat_map (λ line. line ++ 10 ∷ []) (tidy_lines rule_text.now generation (map node_of nodes.now)))) }
{
    push_text(out, b"[M2] (cafile)\n#R ")?;
    push_text(out, rule_text)?;
    push_text(out, b"\n")?;
    push_generation(out, generation)?;
    push_nodes(out, nodes)
}
