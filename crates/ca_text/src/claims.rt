//! Claim texts, and what they ask.

ghost use Rattle.std.specs.Prelude.{◌≡◌, ◌≢◌, ℕ, ◌<◌, [], Some, None, map, slice_get, length, All, IfOk};
ghost use Rattle.std.specs.Prelude.{MatchOption, OnErr, IsTrue, ◌↔◌};
ghost use Rattle.std.specs.List.{AllZip, IsDistinct};
ghost use Rattle.std.specs.Str.{bytes_eq};
ghost use Rattle.ca_text.specs.Places.{path_at, claim_with_paths, named_path, IsAsked};
ghost use Rattle.ca_text.specs.Both.{map_both, HoldsOfBoth};
ghost use Rattle.ca_text.specs.NeededFiles.{IsNeeded};
ghost use Rattle.ca_text.specs.Text.{Claim as TextClaim, with_rule_line};

use crate::both::Both;
use crate::line::{ClaimLine, NamePlace, NamedPath};
use crate::marks::{mark_claims, mark_each};
use crate::word_set::WordSet;
use ca_plane::Memory;
use std::alloc::Global;
use std::marker::Model;

/// What a claim text asks: the paths of its files and the names of its patterns, each once, the rule tables,
/// and its claims.
#[derive(Drop)]
pub struct Claims {
    pub(crate) paths: WordSet,
    pub(crate) names: Vec<Vec<u8>>,
    pub(crate) rules: Vec<usize>,
    pub(crate) claims: Vec<ClaimLine<NamePlace>>,
}

impl Model for Claims {
    ghost use Rattle.std.specs.Prelude.{map, length, ◌<◌, All};
    ghost use Rattle.ca_text.specs.Text.{ClaimText, by_path, named_patterns};
    ghost use Rattle.ca_text.specs.Places.{path_at, claim_with_names, IsNamed};

    ghost Value = { ClaimText };

    ghost view = { λ c. record {
      paths = c.paths;
      rules = map (path_at c.paths) c.rules.items;
      claims = map by_path (map (claim_with_names
          (map (λ name. name.items) c.names.items) c.paths) c.claims.items);
      patterns = map named_patterns
          (map (claim_with_names (map (λ name. name.items) c.names.items) c.paths) c.claims.items);
    } };

    ghost invariant = { λ c. All (λ i. i < length c.paths) c.rules.items
        × All (λ l. IsNamed (map (λ name. name.items) c.names.items) c.paths l.claim) c.claims.items };
}

impl Claims {
    /// The number of paths that the text names. Each is counted once.
    pub fn path_count(&self) -> usize
        ensures count { result ≡ length self.now.paths }
        ensures distinct { IsDistinct bytes_eq self.now.paths }
    {
        self.paths.len()
    }

    /// The path with this index, counted from 0 in the order in which the text first names them.
    pub fn path(&self, index: usize) -> &[u8]
        requires { index < length self.now.paths }
        ensures { slice_get self.now.paths index ≡ Some result.now }
    {
        self.paths.word(index)
    }

    /// The path with this index, where there are more paths than `index`.
    pub fn path_at(&self, index: usize) -> Option<&[u8]>
        ensures { MatchOption result (slice_get self.now.paths index ≡ None)
            (λ path. slice_get self.now.paths index ≡ Some path.now) }
    {
        if index < self.path_count() {
            return Some(self.path(index));
        }
        None
    }

    /// For each path, in their order, whether its file is needed: a text without claims needs none; another
    /// needs those of its rule lines and of its claims' patterns.
    ///
    /// # Errors
    ///
    /// Fails where there is no memory for the list, of a text that names a path.
    pub fn needed(&self, alloc: Global) -> Result<Vec<bool>, Memory>
        ensures needed { IfOk result
            (λ v. AllZip (λ path needed. IsTrue needed ↔ IsNeeded self.now path) self.now.paths v.items) }
        ensures memory { OnErr result (self.now.paths ≢ []) }
    {
        let count = self.path_count();
        if count == 0 {
            return Ok(Vec::new(alloc));
        }
        let mut needed = vec![in alloc; false; count]?;
        if self.claim_count() == 0 {
            return Ok(needed);
        }
        mark_each(&mut needed, &self.rules);
        mark_claims(&mut needed, &self.claims);
        Ok(needed)
    }

    /// The claims of the same text with one more line at its end, which says that a rule table is at the path.
    ///
    /// # Errors
    ///
    /// Fails where there is no memory for the path. Then the claims are gone.
    pub fn with_rule(mut self, alloc: Global, path: &[u8]) -> Result<Claims, Memory>
        ensures { IfOk result (λ claims. claims ≡ with_rule_line self path.now) }
    {
        // Says that no two of the paths are equal.
        let _ = self.path_count();
        let table = self.paths.put(alloc, path)?;
        self.rules.push(table)?;
        Ok(self)
    }

    /// The index of the path, where the text names it.
    pub fn index_of_path(&self, path: &[u8]) -> Option<usize>
        ensures { MatchOption result ((i : ℕ) → slice_get self.now.paths i ≢ Some path.now)
            (λ i. slice_get self.now.paths i ≡ Some path.now) }
    {
        self.paths.index_of(path)
    }

    /// The indices of the paths of the rule tables, one for each of their lines, in the order of the lines.
    pub fn rules(&self) -> &[usize]
        ensures paths { map (path_at self.now.paths) result.now ≡ self.now.rules }
        ensures within { All (λ i. i < length self.now.paths) result.now }
    {
        &self.rules
    }

    /// The number of claims.
    pub fn claim_count(&self) -> usize
        ensures claims { result ≡ length self.now.claims }
        ensures patterns { result ≡ length self.now.patterns }
    {
        self.claims.len()
    }

    /// The claim with this index, counted from 0 in the order of the lines, about the indices of its paths.
    pub fn claim(&self, index: usize) -> ClaimLine<usize>
        requires { index < length self.now.claims }
        ensures claim { slice_get self.now.claims index ≡ Some (claim_with_paths self.now.paths result) }
        ensures asked { IsAsked self.now.paths result.claim }
    {
        let kept = self.claims[index];
        ClaimLine {
            line: kept.line,
            claim: kept.claim.by_path(),
        }
    }

    /// The patterns of the claim with this index, in their order; where it names one, both are that one.
    pub fn patterns(&self, index: usize) -> Both<NamedPath<'_>>
        requires { index < length self.now.claims }
        ensures patterns { slice_get self.now.patterns index
            ≡ Some (map_both (named_path self.now.paths) result) }
        ensures within { HoldsOfBoth (λ p. p.path < length self.now.paths) result }
        ensures claim { (claim : ℕ × TextClaim) → slice_get self.now.claims index ≡ Some claim
            → claim.1.patterns ≡ map_both (λ p. path_at self.now.paths p.path) result }
    {
        let places = self.claims[index].claim.patterns;
        Both {
            first: name_and_path(&self.names, places.first),
            second: name_and_path(&self.names, places.second),
        }
    }
}

// The name at a place, and the index of its path.
fn name_and_path(names: &[Vec<u8>], place: NamePlace) -> NamedPath<'_>
    requires { place.name < length names.now }
    ensures name { result.name.now ≡ path_at (map (λ n. n.items) names.now) place.name }
    ensures path { result.path ≡ place.path }
{
    NamedPath {
        name: &names[place.name],
        path: place.path,
    }
}
