//! What a second line can tell of a verdict.

/// What a verdict doesn't say itself: which pattern or file it is about, and what is faulty there. Lines are
/// counted from 1.
#[derive(Debug, Drop)]
pub enum Note<'a> {
    /// The verdict says all: a yes, a no but for cells that differ, and a refusal for different rules or for
    /// want of memory.
    Nothing,
    /// Cells differ, of the claim's first pattern, which has this name.
    Cell {
        name: &'a [u8],
    },
    /// The claim is refused for the pattern with this name, whose file is at this path. It is the first of
    /// the claim's patterns of which the cause holds; where the other pattern is moved and has too many
    /// cells, one that has too many. Where the file doesn't read, the line is that on which its fault stands,
    /// if it stands on one; where its rule text names no rule, that text is given.
    Pattern {
        name: &'a [u8],
        path: &'a [u8],
        line: Option<u64>,
        rule_text: Option<Vec<u8>>,
    },
    /// The claim is refused for the file of a rule line, which is at this path. It is the first that is
    /// missing, where the patterns' files are there, or the first that is no good table.
    RuleFile {
        path: &'a [u8],
    },
}
