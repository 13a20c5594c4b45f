//! A claim text read, a line at a time.

ghost use Rattle.std.specs.Prelude.{◌≡◌, ℕ, ◌+◌, ◌∷◌, [], ◌++◌, List, Option, Some, None, not, codes, length, is_some, OnOk};
ghost use Rattle.std.specs.Prelude.{IfOk, IfErr, MatchOption};
ghost use Rattle.ca_plane.specs.Prelude.{Every, is_line_end, words_of};
ghost use Rattle.ca_text.specs.Kinds.{HasGoodNumbers};
ghost use Rattle.ca_text.specs.Text.{ClaimTextLine, Rule, Load, Claims as Claiming, IsAllowedLine, IsClaimText, said_lines};
ghost use Rattle.ca_text.specs.Text.{asked_by};
ghost use Rattle.ca_text.specs.TextFaults.{IsFirstClaimFault};
ghost use Rattle.ca_text.specs.declared.line_kind.LineKind.TheVariants as kind;
ghost use Rattle.ca_text.specs.inner.Reading.{IsKind, IsClaimReading, SaysNext, HasClaimFault, place_of, claim_of, AreKnownNames};
ghost use Rattle.ca_text.specs.inner.Reading.{at_places};

use crate::both::Both;
use crate::claims::Claims;
use crate::fault::ClaimFault;
use crate::line::{Claim, ClaimLine, NamePlace};
use crate::line_kind::{LineKind, line_kind};
use crate::version::TextVersion;
use crate::word_set::WordSet;
use ca_plane::Memory;
use ca_plane::bytes::next_line;
use std::alloc::Global;
use std::collections::HashMap;

/// What the lines of a text have said so far.
#[derive(Drop)]
struct Reading<'a> {
    paths: WordSet,
    names: Vec<Vec<u8>>,
    places: HashMap<&'a [u8], NamePlace>,
    rules: Vec<usize>,
    claims: Vec<ClaimLine<NamePlace>>,
    version: TextVersion,
}

impl<'a> Reading<'a> {
    /// Before the first line.
    fn new(alloc: Global) -> Reading<'a>
        ensures { IsClaimReading [] result }
    {
        Reading {
            paths: WordSet::new(alloc),
            names: Vec::new(alloc),
            places: HashMap::new(alloc),
            rules: Vec::new(alloc),
            claims: Vec::new(alloc),
            version: TextVersion::Open,
        }
    }

    /// A line says that a rule table is at the path.
    fn rule(&mut self, alloc: Global, path: &[u8]) -> Result<(), ClaimFault>
        ensures ruled { OnOk result ((said : List (Option ClaimTextLine)) → IsClaimReading said self.old
            → IsClaimReading (said ++ Some (Rule path.now) ∷ []) self.new) }
        ensures fault { IfErr result
            (λ f. (line : ℕ) (earlier : List ClaimTextLine)
            → HasClaimFault line earlier (codes "rule" ∷ path.now ∷ []) f) }
    {
        let Ok(table) = self.paths.put(alloc, path) else {
            return Err(ClaimFault::Memory);
        };
        if self.rules.push(table).is_err() {
            return Err(ClaimFault::Memory);
        }
        self.version = self.version.after_line();
        Ok(())
    }

    /// Whether a line has loaded the name.
    fn is_loaded(&self, name: &[u8]) -> bool
        ensures { result ≡ is_some (place_of self.now.places name.now) }
    {
        self.places.contains_key(name)
    }

    /// The line with this number loads the name from the path.
    fn load(
        &mut self,
        alloc: Global,
        line: u64,
        name: &'a [u8],
        path: &[u8],
    ) -> Result<(), ClaimFault>
        ensures loaded { OnOk result ((said : List (Option ClaimTextLine)) → IsClaimReading said self.old
            → IsAllowedLine (said_lines said) (Load name.now path.now)
            × IsClaimReading (said ++ Some (Load name.now path.now) ∷ []) self.new) }
        ensures fault { IfErr result (λ f. (said : List (Option ClaimTextLine)) → IsClaimReading said self.old
            → HasClaimFault line (said_lines said) (codes "load" ∷ name.now ∷ path.now ∷ []) f) }
    {
        if self.is_loaded(name) {
            return Err(ClaimFault::NameTaken { line });
        }
        if self.keep(alloc, name, path).is_err() {
            return Err(ClaimFault::Memory);
        }
        Ok(())
    }

    /// The name, which isn't loaded yet, is kept with its path.
    fn keep(&mut self, alloc: Global, name: &'a [u8], path: &[u8]) -> Result<(), Memory>
        requires { place_of self.now.places name.now ≡ None }
        ensures { OnOk result ((said : List (Option ClaimTextLine)) → IsClaimReading said self.old
            → IsClaimReading (said ++ Some (Load name.now path.now) ∷ []) self.new) }
    {
        let kept = Vec::from_slice(alloc, name)?;
        let place = NamePlace {
            name: self.names.len(),
            path: self.paths.put(alloc, path)?,
        };
        self.names.push(kept)?;
        self.places.insert(name, place)?;
        self.version = self.version.after_line();
        Ok(())
    }

    /// The place of a name that a line has loaded.
    fn place(&self, name: &[u8]) -> Option<NamePlace>
        ensures { result ≡ place_of self.now.places name.now }
    {
        self.places.get(name).copied()
    }

    /// The claim about the places of its names, where each is loaded.
    fn claim_at_places(&self, claim: &Claim<&'a [u8]>) -> Option<Claim<NamePlace>>
        ensures { MatchOption result (AreKnownNames (place_of self.now.places) (claim_of claim.now) → ⊥)
            (λ c. AreKnownNames (place_of self.now.places) (claim_of claim.now)
            × (c ≡ at_places (place_of self.now.places) (claim_of claim.now))) }
    {
        let first = self.place(claim.patterns.first)?;
        let second = self.place(claim.patterns.second)?;
        Some(Claim {
            patterns: Both { first, second },
            kind: claim.kind,
        })
    }

    /// The line with this number makes the claim.
    fn claim(&mut self, line: u64, claim: &Claim<&'a [u8]>) -> Result<(), ClaimFault>
        requires { HasGoodNumbers claim.now.kind }
        ensures claimed { OnOk result
            ((said : List (Option ClaimTextLine)) → IsClaimReading said self.old → line ≡ length said + 1
            → IsAllowedLine (said_lines said) (Claiming (claim_of claim.now))
            × IsClaimReading (said ++ Some (Claiming (claim_of claim.now)) ∷ []) self.new) }
        ensures fault { IfErr result (λ f. (said : List (Option ClaimTextLine)) → IsClaimReading said self.old
            → (words : List (List ℕ)) → IsKind (said_lines said) words (kind.Claim claim.now)
            → HasClaimFault line (said_lines said) words f) }
    {
        let Some(claim) = self.claim_at_places(claim) else {
            return Err(ClaimFault::UnknownName { line });
        };
        if self.claims.push(ClaimLine { line, claim }).is_err() {
            return Err(ClaimFault::Memory);
        }
        self.version = self.version.after_line();
        Ok(())
    }

    /// The next line of the text, which has this number.
    fn read(&mut self, alloc: Global, number: u64, line: &'a [u8]) -> Result<(), ClaimFault>
        requires { Every (λ b. not (is_line_end b)) line.now }
        ensures said { OnOk result
            ((said : List (Option ClaimTextLine)) → IsClaimReading said self.old → number ≡ length said + 1
            → (s : Option ClaimTextLine) × SaysNext (said_lines said) (words_of line.now) s
            × IsClaimReading (said ++ s ∷ []) self.new) }
        ensures fault { IfErr result (λ f. (said : List (Option ClaimTextLine)) → IsClaimReading said self.old
            → HasClaimFault number (said_lines said) (words_of line.now) f) }
    {
        match line_kind(line, self.version) {
            LineKind::Skipped => Ok(()),
            LineKind::Version => {
                self.version = TextVersion::Second;
                Ok(())
            }
            LineKind::Rule { path } => self.rule(alloc, path),
            LineKind::Load { name, path } => self.load(alloc, number, name, path),
            LineKind::Claim(claim) => self.claim(number, &claim),
            LineKind::OutsideLimits => Err(ClaimFault::Number { line: number }),
            LineKind::Misspelled => Err(ClaimFault::Syntax { line: number }),
        }
    }
}

/// What the claim text asks.
///
/// # Errors
///
/// The first fault of the text; or `Memory`, at a good line that follows good lines alone: a line's spelling,
/// its numbers and its names are judged without memory.
pub fn read_claims(alloc: Global, bytes: &[u8]) -> Result<Claims, ClaimFault>
    ensures found { IfOk result
        (λ c. (said : List (Option ClaimTextLine)) × IsClaimText bytes.now said × (c ≡ asked_by said)) }
    ensures fault { IfErr result (λ f. IsFirstClaimFault bytes.now f) }
{
    let mut reading = Reading::new(alloc);
    let mut rest = bytes;
    let mut number: u64 = 0;
    'lines: while !rest.is_empty() {
        let (line, later) = next_line(rest);
        number += 1;
        reading.read(alloc, number, line)?;
        rest = later;
    }
    Ok(Claims {
        paths: reading.paths,
        names: reading.names,
        rules: reading.rules,
        claims: reading.claims,
    })
}
