//! The rule files that are known where one pattern file is shown, converted or drawn.

ghost use Rattle.std.specs.Prelude.{None, IfOk, IfErr};
ghost use Rattle.cafile.specs.PatternRules.{IsNamedFile, IsNamedFault, FindsAfterNamed, IsUnknownRules};

use ca_cli::PatternExtras;
use ca_host::{FaultyFile, RuleFiles, WholeFiles};
use ca_tool::ToolFault;
use std::alloc::Global;

/// Why the tables of a run aren't known.
#[derive(Drop)]
pub enum UnknownRules {
    /// The rule file that is named is faulty, or memory is out.
    Named(ToolFault),
    /// The rule file that has the name of the pattern's rule is faulty.
    Found(FaultyFile),
}

/// The rule file that is named, with these bytes, if there is one; and where there is a folder, the one there that has
/// the name of the pattern's rule, if no rule is known by it.
pub fn known_rules<D: WholeFiles>(
    alloc: Global,
    disk: &D,
    pattern: &[u8],
    rule: Option<Vec<u8>>,
    extras: &PatternExtras,
) -> Result<RuleFiles, UnknownRules>
    ensures known { IfOk result (λ rules. FindsAfterNamed D.gives D.lacks extras.now rule pattern.now None
        (record { tables = rules.tables.items; paths = rules.paths.items })) }
    ensures unknown { IfErr result (IsUnknownRules D.gives D.lacks extras.now rule pattern.now) }
{
    let mut rules = match named_file(alloc, &extras.rule, &rule) {
        Ok(rules) => rules,
        Err(fault) => return Err(UnknownRules::Named(fault)),
    };
    let Some(folder) = &extras.folder else {
        return Ok(rules);
    };
    let mut looks = Vec::new(alloc);
    match rules.find(alloc, disk, folder.as_str(), pattern, &mut looks) {
        Ok(None) => Ok(rules),
        Ok(Some(faulty)) => Err(UnknownRules::Found(faulty)),
        Err(_) => Err(UnknownRules::Named(ToolFault::Memory)),
    }
}

// The rule file with this path and these bytes, if there is one, and no other.
fn named_file(
    alloc: Global,
    path: &Option<String>,
    bytes: &Option<Vec<u8>>,
) -> Result<RuleFiles, ToolFault>
    ensures file { IfOk result (λ rules. IsNamedFile path.now bytes.now
        (record { tables = rules.tables.items; paths = rules.paths.items })) }
    ensures fault { IfErr result (IsNamedFault path.now bytes.now) }
{
    let mut rules = RuleFiles::new(alloc);
    let (Some(path), Some(bytes)) = (path, bytes) else {
        return Ok(rules);
    };
    match rules.add(alloc, path.as_bytes(), bytes) {
        Ok(()) => Ok(rules),
        Err(fault) => Err(fault),
    }
}
