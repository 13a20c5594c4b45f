//! Verdicts on the claims of a text, each on its own.

ghost use Rattle.std.specs.Prelude.{◌≡◌, ◌≢◌, ℕ, List, [], map, IfOk, OnErr, MatchResult};
ghost use Rattle.std.specs.Option.{option_copied};
ghost use Rattle.ca_text.specs.Prelude.{Claim as TextClaim, map_patterns, path_at};
ghost use Rattle.ca_answers.specs.Prelude.{SuppliedFiles, contents, bytes_at, AreTrueAnswers, AreWithinWork, IsNoMoreThan};
ghost use Rattle.ca_verify.specs.declared.refusal.About.TheVariants as abouts;
ghost use Rattle.ca_answers.specs.declared.verdict.Verdict.TheVariants.{Refused};
ghost use Rattle.ca_answers.specs.declared.cause.Cause.TheVariants.{Work};
ghost use Rattle.ca_pattern.specs.Prelude.{AreGoodLimits};
ghost use Rattle.ca_plane.specs.Prelude.{Picture};
ghost use Rattle.ca_rule.specs.Prelude.{rule_value, next_of};
ghost use Rattle.ca_verify.specs.inner.Decided.{IsDecided};
ghost use Rattle.ca_verify.specs.inner.Subjects.{IsSubject, AreShown};
ghost use Rattle.ca_evolution.specs.Prelude.{HasLimits};
ghost use Rattle.ca_verify.specs.inner.Refusals.{IsJudgedOn};
ghost use Rattle.ca_verify.specs.inner.Tasks.{CanBeJudged, IsOnFiles};

mod agreement;
mod counts;
mod needed;
mod pattern_cache;
mod patterns;
mod prepared;
mod tables;
mod task;

use crate::decide::{Case, decide};
use crate::judge::Judge;
use crate::refusal::{About, JudgedClaim, Refusal};
use ca_answers::{Answer, Cause, Verdict};
use ca_evolution::Observer;
use ca_pattern::{File, Limits};
use ca_plane::Memory;
use ca_text::{Asks, Claims};
pub use needed::NeededFiles;
pub(crate) use pattern_cache::PatternCache;
use prepared::{PreparedClaim, prepare};
use std::alloc::Global;
pub use tables::{FaultyTable, Tables};
pub(crate) use task::Task;

/// One answer for each claim, in the order of their lines. Of two files with one path the first counts. The
/// rule tables are read once for all claims; of two tables with one name that of the first rule line counts.
/// Each claim may take as much as the limits say, whatever the others took.
///
/// # Errors
///
/// Fails where there is no memory for the answers, the list of the files or the rule tables. A text without
/// claims needs none of these. Where there is no memory or work to judge a claim, that claim alone is
/// refused.
pub fn verify(
    alloc: Global,
    claims: &Claims,
    files: &[File<'_>],
    limits: Limits,
) -> Result<Vec<Answer>, Memory>
    requires limits { AreGoodLimits limits }
    ensures answers { IfOk result
        (λ v. AreTrueAnswers (contents files.now) claims.now.rules claims.now.claims v.items) }
    ensures work { IfOk result
        (λ v. AreWithinWork (contents files.now) claims.now.rules limits.work claims.now.claims v.items) }
    ensures memory { OnErr result (claims.now.claims ≢ []) }
{
    let mut answers = Vec::with_capacity(alloc, claims.claim_count())?;
    let mut judge = Judge::new(alloc, claims, files, limits)?;
    'claims: while let Some(answer) = judge.next() {
        answers.push(answer)?;
    }
    Ok(answers)
}

/// For each path of the claims the bytes of the first file that has it.
pub(crate) fn find_files<'a>(
    alloc: Global,
    claims: &Claims,
    files: &[File<'a>],
) -> Result<Vec<Option<&'a [u8]>>, Memory>
    ensures { IfOk result
        (λ v. map option_copied v.items ≡ map (bytes_at (contents files.now)) claims.now.paths) }
{
    let mut found = vec![in alloc; None; claims.path_count()]?;
    'files: for file in files {
        if let Some(index) = claims.index_of_path(file.path) {
            if found[index].is_none() {
                found[index] = Some(file.bytes);
            }
        }
    }
    Ok(found)
}

/// The verdict on a claim. Where there is no memory to judge it beside what the cache keeps, that is freed.
pub(crate) fn verdict_on<'a, O: Observer>(
    alloc: Global,
    cache: &mut PatternCache<'a>,
    task: &Task<'_, 'a>,
    observer: &mut O,
) -> JudgedClaim
    requires { CanBeJudged task.now }
    ensures { (files : SuppliedFiles) (paths rules : List (List ℕ)) → IsOnFiles files paths rules task.now
        → IsJudgedOn files paths rules task.now.limits.work
        (map_patterns (path_at paths) task.now.claim.now) result.verdict result.about }
{
    let judged = as_judged(judge(alloc, cache, task, observer));
    if cache.is_empty() || !wants_memory(&judged.verdict) {
        return judged;
    }
    cache.clear();
    let mut empty = PatternCache::new(alloc, false);
    as_judged(judge(alloc, &mut empty, task, observer))
}

/// Whether a verdict is that there is no memory.
fn wants_memory(verdict: &Verdict) -> bool {
    matches!(verdict, Verdict::Refused(Cause::Memory))
}

/// The verdict that was reached, or the refusal.
fn as_judged(judged: Result<Verdict, Refusal>) -> JudgedClaim
    ensures { (files : SuppliedFiles) (paths rules : List (List ℕ)) (work : ℕ) (claim : TextClaim)
        → MatchResult judged (λ verdict. IsJudgedOn files paths rules work claim verdict abouts.Claim)
        (λ r. IsJudgedOn files paths rules work claim (Refused r.cause) r.about)
        → IsJudgedOn files paths rules work claim result.verdict result.about }
{
    match judged {
        Ok(verdict) => JudgedClaim {
            verdict,
            about: About::Claim,
        },
        Err(refusal) => JudgedClaim {
            verdict: Verdict::Refused(refusal.cause),
            about: refusal.about,
        },
    }
}

/// The verdict on a claim, or why there is none.
fn judge<'a, O: Observer>(
    alloc: Global,
    cache: &mut PatternCache<'a>,
    task: &Task<'_, 'a>,
    observer: &mut O,
) -> Result<Verdict, Refusal>
    requires { CanBeJudged task.now }
    ensures { (files : SuppliedFiles) (paths rules : List (List ℕ)) → IsOnFiles files paths rules task.now
        → MatchResult result
        (λ verdict. IsJudgedOn files paths rules task.now.limits.work
        (map_patterns (path_at paths) task.now.claim.now) verdict abouts.Claim)
        (λ r. IsJudgedOn files paths rules task.now.limits.work
        (map_patterns (path_at paths) task.now.claim.now) (Refused r.cause) r.about) }
{
    let asks = task.claim.kind.asks();
    let prepared = prepare(
        alloc,
        cache,
        &task.claim.patterns,
        asks,
        &task.needed.found,
        &task.needed.tables,
        task.limits,
    )?;
    Ok(decide_on(alloc, prepared, asks, task.limits, observer))
}

// The verdict on a claim that asks this, on what was prepared for it.
fn decide_on<O: Observer>(
    alloc: Global,
    prepared: PreparedClaim<'_>,
    asks: Asks,
    limits: Limits,
    observer: &mut O,
) -> Verdict
    requires subject { IsSubject prepared.leaper.nodes asks prepared.subject }
    requires limits { HasLimits limits prepared.leaper }
    ensures decided { (cells other : Picture)
        → AreShown prepared.entry.leaper.nodes prepared.entry.subject cells other
        → IsDecided (next_of (rule_value prepared.entry.leaper.rule)) cells other asks result }
    ensures work { prepared.entry.leaper.spent.used ≡ 0 → result ≡ Refused Work
        → IsNoMoreThan prepared.entry.leaper.spent.limit asks prepared.entry.subject.pattern.level }
{
    let _ = limits;
    let PreparedClaim {
        mut leaper,
        subject,
    } = prepared;
    let case = Case {
        alloc,
        subject,
        asks,
    };
    decide(&mut leaper, &case, observer)
}
