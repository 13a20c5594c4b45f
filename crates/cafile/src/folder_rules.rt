//! Rule files that are looked for in a folder by the rules of the patterns that `identify` is given.

ghost use Rattle.cafile.specs.FolderRules.{FindsRules, FindsRule, IsFailure};

use crate::identify::{FileContent, PathContent};
use ca_answers::Cause;
use ca_host::{NamedLookup, RuleFiles, WholeFiles};
use std::alloc::Global;

/// Looks in a folder for the rule files of those patterns whose rules aren't known, for one after the other, and reads
/// each once. One that is found and good is put after the others; where one is faulty, each file that names it gives
/// that rule file, with its fault, in place of its bytes.
pub fn find_rules<D: WholeFiles>(
    alloc: Global,
    disk: &D,
    folder: &str,
    loaded: &mut [PathContent<'_>],
    rules: &mut RuleFiles,
)
    ensures { FindsRules D.gives D.lacks folder.now loaded.old loaded.new
        (record { tables = rules.old.tables.items; paths = rules.old.paths.items })
        (record { tables = rules.new.tables.items; paths = rules.new.paths.items }) }
{
    let mut looks = Vec::new(alloc);
    for index in 0..loaded.len() {
        find_rule(alloc, disk, folder, &mut loaded[index], rules, &mut looks);
    }
}

// Looks for the rule file of the pattern of one file. Where that is faulty, or memory is out, this stands in place of the
// bytes.
fn find_rule<D: WholeFiles>(
    alloc: Global,
    disk: &D,
    folder: &str,
    file: &mut PathContent<'_>,
    rules: &mut RuleFiles,
    looks: &mut Vec<NamedLookup>,
)
    ensures { FindsRule D.gives D.lacks folder.now file.old file.new
        (record {
          looks = looks.old.items;
          rules = record { tables = rules.old.tables.items; paths = rules.old.paths.items };
        })
        (record {
          looks = looks.new.items;
          rules = record { tables = rules.new.tables.items; paths = rules.new.paths.items };
        }) }
{
    if let Some(failure) = rule_failure(alloc, disk, folder, &file.content, rules, looks) {
        file.content = failure;
    }
}

// Looks for the rule file of a pattern, and answers what stands in place of its bytes where that is faulty, or memory is
// out.
fn rule_failure<D: WholeFiles>(
    alloc: Global,
    disk: &D,
    folder: &str,
    content: &FileContent,
    rules: &mut RuleFiles,
    looks: &mut Vec<NamedLookup>,
) -> Option<FileContent>
    ensures { IsFailure D.gives D.lacks folder.now content.now result
        (record {
          looks = looks.old.items;
          rules = record { tables = rules.old.tables.items; paths = rules.old.paths.items };
        })
        (record {
          looks = looks.new.items;
          rules = record { tables = rules.new.tables.items; paths = rules.new.paths.items };
        }) }
{
    let FileContent::Bytes(bytes) = content else {
        return None;
    };
    match rules.find(alloc, disk, folder, bytes, looks) {
        Ok(None) => None,
        Ok(Some(faulty)) => Some(FileContent::FaultyRule(faulty)),
        Err(_) => Some(FileContent::Missing(Cause::Memory)),
    }
}
