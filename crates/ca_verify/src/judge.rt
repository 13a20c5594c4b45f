//! The claims of a text, judged one after another.

ghost use Rattle.std.specs.Prelude.{◌≡◌, ◌≢◌, ◌<◌, [], map, length, IfOk, IfSome, OnErr, MatchOption};
ghost use Rattle.std.specs.Option.{option_copied};
ghost use Rattle.ca_answers.specs.Prelude.{SuppliedFiles, contents, bytes_at, Judges, JudgesAndNotes, IsDone, HasItsNote};
ghost use Rattle.ca_pattern.specs.Prelude.{AreGoodLimits};
ghost use Rattle.ca_verify.specs.NeededFiles.{AreFound, AreRead};
ghost use Rattle.ca_verify.specs.inner.Kept.{IsAnswerTo};

use crate::noting::note_on;
use crate::verifier::{NeededFiles, PatternCache, Tables, Task, find_files, verdict_on};
use ca_answers::{Answer, Note};
use ca_evolution::{Observer, RunSubject};
use ca_pattern::{File, Limits};
use ca_plane::Memory;
use ca_run::Unwatched;
use ca_text::Claims;
use std::alloc::Global;
use std::marker::Model;

/// The claims of a text that are left, the files that are supplied, and what is kept of them: the bytes of
/// each path, the rule tables, and the patterns that were last read.
#[derive(Drop)]
pub struct Judge<'a> {
    alloc: Global,
    files: &'a [File<'a>],
    claims: &'a Claims,
    needed: NeededFiles<'a>,
    cache: PatternCache<'a>,
    limits: Limits,
    index: usize,
}

impl<'a> Model for Judge<'a> {
    ghost use Rattle.ca_answers.specs.Prelude.{contents, Judging};
    ghost use Rattle.ca_verify.specs.inner.Kept.{IsKeptOf, left_from};

    ghost Value = { Judging };

    ghost view = { λ j. left_from (contents j.files.now) j.claims.now j.index j.limits.work };

    ghost invariant = { λ j. IsKeptOf (contents j.files.now) j.claims.now
        j.needed.found.items j.needed.tables j.index j.limits };
}

impl<'a> Judge<'a> {
    /// A judge of all claims of a text, each of which may take as much as the limits say. Of two files with
    /// one path the first counts. The rule tables are read once for all claims; of two tables with one name
    /// that of the first rule line counts.
    ///
    /// # Errors
    ///
    /// Fails where there is no memory for the list of the files or for the rule tables of a text that makes a
    /// claim.
    pub fn new(
        alloc: Global,
        claims: &'a Claims,
        files: &'a [File<'a>],
        limits: Limits,
    ) -> Result<Judge<'a>, Memory>
        requires limits { AreGoodLimits limits }
        ensures judging { IfOk result (λ j. j ≡ record {
          files = contents files.now;
          rules = claims.now.rules;
          claims = claims.now.claims;
          patterns = claims.now.patterns;
          work = limits.work;
        }) }
        ensures memory { OnErr result (claims.now.claims ≢ []) }
    {
        let needed = look_up(alloc, claims, files)?;
        Ok(Judge {
            alloc,
            files,
            claims,
            needed,
            cache: cache_for(alloc, claims),
            limits,
            index: 0,
        })
    }

    /// The answer to the next claim. Where there is no memory to judge a claim, that claim alone is refused.
    pub fn next(&mut self) -> Option<Answer>
        ensures { MatchOption result (IsDone self.old self.new) (Judges self.old self.new) }
    {
        self.next_watched(&mut Unwatched)
    }

    /// The same, while someone watches.
    pub fn next_watched<O: Observer>(&mut self, observer: &mut O) -> Option<Answer>
        ensures { MatchOption result (IsDone self.old self.new) (Judges self.old self.new) }
    {
        let (answer, _) = self.next_noted_watched(observer)?;
        Some(answer)
    }

    /// The answer to the next claim, with a note on it.
    pub fn next_noted(&mut self) -> Option<(Answer, Note<'a>)>
        ensures noted { MatchOption result (IsDone self.old self.new)
            (λ noted. JudgesAndNotes self.old self.new noted.0 noted.1) }
        ensures given { IfSome result (λ noted. HasItsNote noted.0.verdict noted.1) }
    {
        self.next_noted_watched(&mut Unwatched)
    }

    /// The same, while someone watches.
    pub fn next_noted_watched<O: Observer>(
        &mut self,
        observer: &mut O,
    ) -> Option<(Answer, Note<'a>)>
        ensures noted { MatchOption result (IsDone self.old self.new)
            (λ noted. JudgesAndNotes self.old self.new noted.0 noted.1) }
        ensures given { IfSome result (λ noted. HasItsNote noted.0.verdict noted.1) }
    {
        if self.index == self.claims.claim_count() {
            return None;
        }
        let noted = answer_to(
            self.alloc,
            &mut self.cache,
            self.claims,
            self.index,
            &self.needed,
            self.limits,
            observer,
        );
        self.index += 1;
        Some(noted)
    }
}

/// What the claims of a text need of these files. A text without claims needs nothing.
///
/// # Errors
///
/// Fails where there is no memory for the list of the files or for the rule tables.
pub fn look_up<'a>(
    alloc: Global,
    claims: &Claims,
    files: &[File<'a>],
) -> Result<NeededFiles<'a>, Memory>
    ensures found { IfOk result
        (λ n. claims.now.claims ≢ [] → AreFound (contents files.now) claims.now n.found.items n.tables) }
    ensures memory { OnErr result (claims.now.claims ≢ []) }
{
    if claims.claim_count() == 0 {
        return Ok(NeededFiles {
            found: Vec::new(alloc),
            tables: Tables::Read(Vec::new(alloc)),
        });
    }
    let found = find_files(alloc, claims, files)?;
    let tables = Tables::read(alloc, claims.rules(), &found)?;
    Ok(NeededFiles { found, tables })
}

/// A cache for the claims of a text. For one claim alone nothing is kept.
fn cache_for<'a>(alloc: Global, claims: &Claims) -> PatternCache<'a> {
    PatternCache::new(alloc, claims.claim_count() != 1)
}

/// The answer to the claim with this index, and a note on it, where these are the bytes of the files with the
/// paths of the text and what its rule lines' files hold.
fn answer_to<'a, 'f, O: Observer>(
    alloc: Global,
    cache: &mut PatternCache<'f>,
    claims: &'a Claims,
    index: usize,
    needed: &NeededFiles<'f>,
    limits: Limits,
    observer: &mut O,
) -> (Answer, Note<'a>)
    requires limits { AreGoodLimits limits }
    requires index { index < length claims.now.claims }
    requires found { length needed.now.found.items ≡ length claims.now.paths }
    ensures { (files : SuppliedFiles)
        → map option_copied needed.now.found.items ≡ map (bytes_at files) claims.now.paths
        → AreRead files claims.now.paths claims.now.rules needed.now.tables
        → IsAnswerTo files claims.now index limits.work result.0 result.1 }
{
    let asked = claims.claim(index);
    observer.begins(RunSubject::Claim { line: asked.line });
    let task = Task {
        claim: &asked.claim,
        needed,
        limits,
    };
    let judged = verdict_on(alloc, cache, &task, observer);
    observer.ends();
    let answer = Answer {
        line: asked.line,
        verdict: judged.verdict,
    };
    (answer, note_on(claims, &claims.patterns(index), judged))
}
