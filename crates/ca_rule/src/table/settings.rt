//! The settings of a rule table.

ghost use Rattle.std.specs.Prelude.{◌≡◌, ◌&&◌, ℕ, [], List, true, is_some, option_and_then, IfOk, IfErr};
ghost use Rattle.ca_rule.specs.inner.TableReading.{said_text, left_of};
ghost use Rattle.ca_rule.specs.inner.TableSettings.{IsBehindSettings, IsBehindMeant, meaning_of};
ghost use Rattle.ca_rule.specs.Digits.{state_count};
ghost use Rattle.ca_rule.specs.TableLines.{NumberedLine, neighbourhood_name, neighbourhood_named, symmetry_name, symmetry_named};
ghost use Rattle.ca_rule.specs.TableOrders.{symmetries_of};
ghost use Rattle.ca_rule.specs.TableText.{HasTable, SettingsMean, are_settings};
ghost use Rattle.ca_rule.specs.TableFaults.{follows_settings, HaveEnd, IsTableTextFault};

use crate::digits::state_count;
use crate::table::fault::TableFault;
use crate::table::lines::setting;
use crate::table::neighbourhood::{Neighbourhood, Symmetry};
use crate::table::said_lines::SaidLines;

/// The values that lines give to settings.
#[derive(Clone, Copy)]
pub(crate) struct SettingValues<'a> {
    states: Option<&'a [u8]>,
    neighbourhood: Option<&'a [u8]>,
    symmetry: Option<&'a [u8]>,
}

/// What the settings of a table mean.
#[derive(Clone, Copy)]
pub(crate) struct TableSettings {
    /// The number of states, from 2 to 256.
    pub(crate) states: u16,
    pub(crate) neighbourhood: Neighbourhood,
    pub(crate) symmetry: Symmetry,
}

impl<'a> SettingValues<'a> {
    ghost use Rattle.ca_rule.specs.inner.TableSettings.{bytes_of, meaning_of, AreValuesOf, AreGivenBy, has_some, have_one};
    ghost use Rattle.ca_rule.specs.inner.TableSettings.{joined_settings};

    /// Before the first line.
    fn none() -> SettingValues<'a>
        ensures { AreValuesOf [] result }
    {
        SettingValues {
            states: None,
            neighbourhood: None,
            symmetry: None,
        }
    }

    /// The value that the line gives, where it is a setting.
    fn of_line(content: &'a [u8]) -> SettingValues<'a>
        ensures { (n : ℕ) → AreGivenBy (n, content.now) result }
    {
        SettingValues {
            states: setting(b"n_states", content),
            neighbourhood: setting(b"neighborhood", content),
            symmetry: setting(b"symmetries", content),
        }
    }

    /// Whether a setting has a value.
    fn has_some(&self) -> bool
        ensures { result ≡ has_some self.now }
    {
        self.states.is_some() || self.neighbourhood.is_some() || self.symmetry.is_some()
    }

    /// Whether a setting has a value here and there.
    fn has_one_of(&self, other: &SettingValues<'a>) -> bool
        ensures { result ≡ have_one self.now other.now }
    {
        are_both(self.states, other.states)
            || are_both(self.neighbourhood, other.neighbourhood)
            || are_both(self.symmetry, other.symmetry)
    }

    /// These values, and for a setting that has none the other's.
    fn with(&self, other: &SettingValues<'a>) -> SettingValues<'a>
        ensures { result ≡ joined_settings self.now other.now }
    {
        SettingValues {
            states: self.states.or(other.states),
            neighbourhood: self.neighbourhood.or(other.neighbourhood),
            symmetry: self.symmetry.or(other.symmetry),
        }
    }

    /// The number of states.
    fn states(&self) -> Option<u16>
        ensures { result ≡ option_and_then state_count (bytes_of self.now.states) }
    {
        state_count(self.states?)
    }

    /// The neighbourhood.
    fn neighbourhood(&self) -> Option<Neighbourhood>
        ensures { result ≡ option_and_then neighbourhood_named (bytes_of self.now.neighbourhood) }
    {
        neighbourhood_named(self.neighbourhood?)
    }

    /// The symmetry of the neighbourhood.
    fn symmetry(&self, neighbourhood: Neighbourhood) -> Option<Symmetry>
        ensures { result ≡ option_and_then (symmetry_named neighbourhood) (bytes_of self.now.symmetry) }
    {
        symmetry_named(neighbourhood, self.symmetry?)
    }

    /// What the values mean, where the settings end at the line with this number.
    fn meaning(&self, line: u64) -> Result<TableSettings, TableFault>
        ensures mean { IfOk result (λ s. (good : List NumberedLine) → AreValuesOf good self.now
            → are_settings [] good ≡ true → SettingsMean good (meaning_of s)) }
        ensures fault { IfErr result (λ f. (bytes : List ℕ) (good : List NumberedLine)
            → AreValuesOf good self.now → HaveEnd bytes line good → IsTableTextFault bytes f) }
    {
        let Some(states) = self.states() else {
            return Err(TableFault::States { line });
        };
        let Some(neighbourhood) = self.neighbourhood() else {
            return Err(TableFault::Neighborhood { line });
        };
        let Some(symmetry) = self.symmetry(neighbourhood) else {
            return Err(TableFault::Symmetries { line });
        };
        Ok(TableSettings {
            states,
            neighbourhood,
            symmetry,
        })
    }
}

/// Whether there are both values.
fn are_both(one: Option<&[u8]>, other: Option<&[u8]>) -> bool
    ensures { result ≡ (is_some one.entry && is_some other.entry) }
{
    one.is_some() && other.is_some()
}

/// The values of settings with those of the lines that are settings, and the lines after these. No setting
/// has more than one line, so the calls are four at most.
fn read_values<'a>(
    values: SettingValues<'a>,
    lines: SaidLines<'a>,
) -> Result<(SettingValues<'a>, SaidLines<'a>), TableFault>
    ensures read { IfOk result (λ r. (all : List NumberedLine)
        → IsBehindSettings all values.entry (left_of lines.entry) → IsBehindSettings all r.0 (left_of r.1)) }
    ensures ends { IfOk result (λ r. follows_settings (left_of r.1) ≡ true) }
    ensures text { IfOk result (λ r. said_text r.1 ≡ said_text lines.entry) }
    ensures fault { IfErr result (λ f. (bytes name : List ℕ) (all : List NumberedLine)
        → HasTable bytes name all
        → IsBehindSettings all values.entry (left_of lines.entry) → IsTableTextFault bytes f) }
{
    let Some((line, later)) = lines.next() else {
        return Ok((values, lines));
    };
    let given = SettingValues::of_line(line.content);
    if !given.has_some() {
        return Ok((values, lines));
    }
    if values.has_one_of(&given) {
        return Err(TableFault::Syntax { line: line.number });
    }
    read_values(values.with(&given), later)
}

/// How the neighbourhood is written.
fn neighbourhood_name(neighbourhood: Neighbourhood) -> &'static [u8]
    ensures { result.now ≡ neighbourhood_name neighbourhood }
{
    match neighbourhood {
        Neighbourhood::VonNeumann => b"vonNeumann",
        Neighbourhood::Moore => b"Moore",
        Neighbourhood::Hexagonal => b"hexagonal",
        Neighbourhood::OneDimensional => b"oneDimensional",
    }
}

/// The neighbourhood that is written so.
fn neighbourhood_named(bytes: &[u8]) -> Option<Neighbourhood>
    ensures { result ≡ neighbourhood_named bytes.now }
{
    let all: &[Neighbourhood] = &[
        Neighbourhood::VonNeumann,
        Neighbourhood::Moore,
        Neighbourhood::Hexagonal,
        Neighbourhood::OneDimensional,
    ];
    all.iter().copied().find(|neighbourhood| neighbourhood_name(*neighbourhood) == bytes)
}

/// How the symmetry is written.
fn symmetry_name(symmetry: Symmetry) -> &'static [u8]
    ensures { result.now ≡ symmetry_name symmetry }
{
    match symmetry {
        Symmetry::Identity => b"none",
        Symmetry::Rotate4 => b"rotate4",
        Symmetry::Rotate4Reflect => b"rotate4reflect",
        Symmetry::ReflectHorizontal => b"reflect_horizontal",
        Symmetry::Rotate8 => b"rotate8",
        Symmetry::Rotate8Reflect => b"rotate8reflect",
        Symmetry::Rotate2 => b"rotate2",
        Symmetry::Rotate3 => b"rotate3",
        Symmetry::Rotate6 => b"rotate6",
        Symmetry::Rotate6Reflect => b"rotate6reflect",
        Symmetry::Reflect => b"reflect",
        Symmetry::Permute => b"permute",
    }
}

/// The symmetries that the neighbourhood has.
fn symmetries_of(neighbourhood: Neighbourhood) -> &'static [Symmetry]
    ensures { result.now ≡ symmetries_of neighbourhood }
{
    match neighbourhood {
        Neighbourhood::VonNeumann => &[
            Symmetry::Identity,
            Symmetry::Rotate4,
            Symmetry::Rotate4Reflect,
            Symmetry::ReflectHorizontal,
            Symmetry::Permute,
        ],
        Neighbourhood::Moore => &[
            Symmetry::Identity,
            Symmetry::Rotate4,
            Symmetry::Rotate4Reflect,
            Symmetry::ReflectHorizontal,
            Symmetry::Rotate8,
            Symmetry::Rotate8Reflect,
            Symmetry::Permute,
        ],
        Neighbourhood::Hexagonal => &[
            Symmetry::Identity,
            Symmetry::Rotate2,
            Symmetry::Rotate3,
            Symmetry::Rotate6,
            Symmetry::Rotate6Reflect,
            Symmetry::Permute,
        ],
        Neighbourhood::OneDimensional => &[
            Symmetry::Identity,
            Symmetry::Reflect,
            Symmetry::Permute,
        ],
    }
}

/// The symmetry of the neighbourhood that is written so.
fn symmetry_named(neighbourhood: Neighbourhood, bytes: &[u8]) -> Option<Symmetry>
    ensures { result ≡ symmetry_named neighbourhood bytes.now }
{
    symmetries_of(neighbourhood)
        .iter()
        .copied()
        .find(|symmetry| symmetry_name(*symmetry) == bytes)
}

/// The settings of the table, and the lines after them.
pub(crate) fn read_settings<'a>(
    lines: &SaidLines<'a>,
) -> Result<(TableSettings, SaidLines<'a>), TableFault>
    ensures found { IfOk result (λ r. IsBehindMeant (left_of lines.now) (meaning_of r.0) (left_of r.1)) }
    ensures ends { IfOk result (λ r. follows_settings (left_of r.1) ≡ true) }
    ensures text { IfOk result (λ r. said_text r.1 ≡ said_text lines.now) }
    ensures fault { IfErr result (λ f. (name : List ℕ)
        → HasTable (said_text lines.now) name (left_of lines.now)
        → IsTableTextFault (said_text lines.now) f) }
{
    let (values, tail_after) = read_values(SettingValues::none(), *lines)?;
    let settings = values.meaning(tail_after.number())?;
    Ok((settings, tail_after))
}
