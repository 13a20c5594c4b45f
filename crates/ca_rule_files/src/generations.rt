//! The rule file of a Generations rule.

ghost use Rattle.std.specs.Prelude.{◌≡◌, ◌<◌, ◌≤◌, ◌-◌, ◌∷◌, [], ◌++◌, OnOk, IfOk};
ghost use Rattle.ca_plane.specs.Prelude.{older, text_of, Puts};
ghost use Rattle.ca_rule.specs.Prelude.{generations_next};
ghost use Rattle.ca_rule_files.specs.RuleFiles.{IsTableName, WritesRule, generations_bytes};
ghost use Rattle.ca_rule_files.specs.GenerationsTables.{listed_states, least_of, variable_line, variable_lines};
ghost use Rattle.ca_rule_files.specs.GenerationsTables.{dying_line, dying_lines};

use crate::writing::{push_head, push_state, push_transitions};
use ca_plane::Memory;
use ca_plane::text::{push_number, push_text};
use ca_rule::GenRule;
use std::alloc::Global;

/// How many variables a file has.
const VARIABLES: u8 = 16;

/// The rule file of a Generations rule under this name: a table of the Moore neighbourhood without symmetries.
/// It has variables for neighbours that aren't live, `a` to `h`, and for any neighbours, `i` to `p`; a transition
/// for each of the 512 neighbourhoods of live and other cells whose dead or live centre changes; and one for
/// each dying state (Golly Help, File Formats: rule tables).
///
/// # Errors
///
/// Fails where there is no memory for it.
pub fn generations_file(alloc: Global, name: &[u8], rule: &GenRule) -> Result<Vec<u8>, Memory>
    requires { IsTableName name.now }
    ensures written { IfOk result (λ file. WritesRule name.now rule.now.states
        (generations_next rule.now.survival rule.now.birth rule.now.states) file.items) }
    ensures bytes { IfOk result (λ file. file.items ≡ generations_bytes name.now rule.now.states
        (generations_next rule.now.survival rule.now.birth rule.now.states)) }
{
    let mut out = Vec::new(alloc);
    push_head(&mut out, name, rule.states)?;
    push_variables(&mut out, rule.states)?;
    push_transitions(&mut out, rule, true)?;
    push_dying_transitions(&mut out, rule.states)?;
    Ok(out)
}

/// Puts the lines of the variables.
fn push_variables(out: &mut Vec<u8>, states: u16) -> Result<(), Memory>
    requires { 2 ≤ states }
    ensures { OnOk result (Puts out.old.items out.new.items (text_of (variable_lines states 16))) }
{
    'variables: for variable in 0..VARIABLES {
        push_variable(out, variable, states)?;
    }
    Ok(())
}

/// Puts the line of a variable: its letter, and the states from its smallest onwards, and 0.
fn push_variable(out: &mut Vec<u8>, variable: u8, states: u16) -> Result<(), Memory>
    requires few { variable < 16 }
    requires some { 2 ≤ states }
    ensures { OnOk result (Puts out.old.items out.new.items (variable_line states variable ++ 10 ∷ [])) }
{
    let letter = b'a' + variable;
    push_text(out, &[b'v', b'a', b'r', b' ', letter, b'=', b'{'])?;
    push_states(out, least_of(variable), states)?;
    push_text(out, b"0}\n")?;
    Ok(())
}

/// The smallest state of a variable besides 0: a neighbour that isn't live is dead or dying.
fn least_of(variable: u8) -> u16
    ensures value { result ≡ least_of variable }
    ensures low { result ≤ 2 }
{
    if variable < 8 { 2 } else { 1 }
}

/// Puts the states from this one onwards, each with a comma after it.
fn push_states(out: &mut Vec<u8>, from: u16, states: u16) -> Result<(), Memory>
    requires { from ≤ states }
    ensures { OnOk result (Puts out.old.items out.new.items (listed_states from (states - from))) }
{
    'states: for state in from..states {
        push_state(out, state)?;
    }
    Ok(())
}

/// Puts the transitions of the dying states.
fn push_dying_transitions(out: &mut Vec<u8>, states: u16) -> Result<(), Memory>
    requires { 2 ≤ states }
    ensures { OnOk result (Puts out.old.items out.new.items (text_of (dying_lines states (states - 2)))) }
{
    'dying: for state in 2..states {
        push_dying_transition(out, state, states)?;
    }
    Ok(())
}

/// Puts the line of the transition of a dying state.
fn push_dying_transition(out: &mut Vec<u8>, state: u16, states: u16) -> Result<(), Memory>
    requires { state < states }
    ensures { OnOk result (Puts out.old.items out.new.items (dying_line states state ++ 10 ∷ [])) }
{
    push_number(out, u64::from(state))?;
    push_text(out, b",i,j,k,l,m,n,o,p,")?;
    push_number(out, u64::from(older(state, states)))?;
    push_text(out, b"\n")?;
    Ok(())
}

/// The state after a dying one: the next, or 0 after the last.
fn older(state: u16, states: u16) -> u16
    requires { state < states }
    ensures { result ≡ older states state }
{
    if state + 1 < states { state + 1 } else { 0 }
}
