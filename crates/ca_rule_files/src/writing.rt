//! The rule file of a rule of two states, and what each rule file has.

ghost use Rattle.std.specs.Prelude.{◌≡◌, ◌<◌, ◌/◌, ◌%◌, ◌∷◌, ◌++◌, [], OnOk, IfOk, decimal};
ghost use Rattle.ca_plane.specs.Prelude.{text_of, Puts};
ghost use Rattle.ca_rule_files.specs.RuleFiles.{IsTableName, WritesRule, two_state_bytes};
ghost use Rattle.ca_rule_files.specs.WrittenTables.{head_lines, neighbour_byte, neighbour_bytes, transition_line};
ghost use Rattle.ca_rule_files.specs.WrittenTables.{transition_lines, neighbourhood};

use ca_plane::text::{push_number, push_text};
use ca_plane::{Automaton, Memory, Nine};
use std::alloc::Global;

/// How many neighbourhoods of nine cells there are, each of them dead or live.
const NEIGHBOURHOODS: u16 = 512;

/// The rule file of a rule of two states under this name: a table of the Moore neighbourhood without
/// symmetries, with a transition for each of the 512 neighbourhoods whose centre changes (Golly Help, File
/// Formats: rule tables).
///
/// # Errors
///
/// Fails where there is no memory for it.
pub fn table_file<A: Automaton>(alloc: Global, name: &[u8], rule: &A) -> Result<Vec<u8>, Memory>
    requires named { IsTableName name.now }
    requires two { A.state_count rule.now ≡ 2 }
    ensures written { IfOk result (λ file. WritesRule name.now 2 (A.next_of rule.now) file.items) }
    ensures bytes { IfOk result (λ file. file.items ≡ two_state_bytes name.now (A.next_of rule.now)) }
{
    // A rule that tells its states is sound.
    let _states = rule.states();
    let mut out = Vec::new(alloc);
    push_head(&mut out, name, 2)?;
    push_transitions(&mut out, rule, false)?;
    Ok(out)
}

/// Puts the lines before the variables and the transitions.
pub(crate) fn push_head(out: &mut Vec<u8>, name: &[u8], states: u16) -> Result<(), Memory>
    ensures { OnOk result (Puts out.old.items out.new.items (text_of (head_lines name.now states))) }
{
    push_text(out, b"@RULE ")?;
    push_text(out, name)?;
    push_text(out, b"\n@TABLE\nn_states:")?;
    push_number(out, u64::from(states))?;
    push_text(out, b"\nneighborhood:Moore\nsymmetries:none\n")?;
    Ok(())
}

/// Puts a state and a comma.
pub(crate) fn push_state(out: &mut Vec<u8>, state: u16) -> Result<(), Memory>
    ensures { OnOk result (Puts out.old.items out.new.items (decimal state ++ 44 ∷ [])) }
{
    push_number(out, u64::from(state))?;
    push_text(out, b",")?;
    Ok(())
}

/// Puts a transition for each neighbourhood of dead and live cells whose centre changes. Where the file has
/// variables, they stand for neighbours that aren't live.
pub(crate) fn push_transitions<A: Automaton>(
    out: &mut Vec<u8>,
    rule: &A,
    variables: bool,
) -> Result<(), Memory>
    ensures { OnOk result (Puts out.old.items out.new.items
        (text_of (transition_lines variables (A.next_of rule.now) 512))) }
{
    'numbers: for number in 0..NEIGHBOURHOODS {
        let nine = neighbourhood(number);
        let next = rule.next(&nine);
        if next != nine[4] {
            push_transition(out, &nine, next, variables)?;
        }
    }
    Ok(())
}

/// The neighbourhood with this number: its binary digits.
fn neighbourhood(number: u16) -> Nine
    ensures { result ≡ neighbourhood number }
{
    [
        cell(number, 256),
        cell(number, 128),
        cell(number, 64),
        cell(number, 32),
        cell(number, 16),
        cell(number, 8),
        cell(number, 4),
        cell(number, 2),
        cell(number, 1),
    ]
}

/// The binary digit of this weight.
fn cell(number: u16, weight: u16) -> u8
    requires { 0 < weight }
    ensures { result ≡ number / weight % 2 }
{
    (number / weight % 2) as u8
}

/// Puts the line of the transition of a neighbourhood of dead and live cells.
fn push_transition(out: &mut Vec<u8>, nine: &Nine, next: u8, variables: bool) -> Result<(), Memory>
    ensures { OnOk result (Puts out.old.items out.new.items (transition_line variables nine.now next ++ 10 ∷ [])) }
{
    let [nw, n, ne, w, c, e, sw, s, se] = *nine;
    push_state(out, u16::from(c))?;
    push_text(out, &pair(variables, b'a', n, ne))?;
    push_text(out, &pair(variables, b'c', e, se))?;
    push_text(out, &pair(variables, b'e', s, sw))?;
    push_text(out, &pair(variables, b'g', w, nw))?;
    push_number(out, u64::from(next))?;
    push_text(out, b"\n")?;
    Ok(())
}

/// The bytes of two neighbours, with this letter and the next, each with a comma behind it.
fn pair(variables: bool, letter: u8, first: u8, second: u8) -> [u8; 4]
    requires { letter < 255 }
    ensures { result ≡ neighbour_bytes variables letter (first ∷ second ∷ []) }
{
    let one = neighbour(variables, letter, first);
    let other = neighbour(variables, letter + 1, second);
    [one, b',', other, b',']
}

/// The digit of a neighbour, or instead of 0, in a file with variables, this letter of one.
fn neighbour(variables: bool, letter: u8, cell: u8) -> u8
    ensures { result ≡ neighbour_byte variables letter cell }
{
    if cell != 0 {
        return b'1';
    }
    if variables { letter } else { b'0' }
}
