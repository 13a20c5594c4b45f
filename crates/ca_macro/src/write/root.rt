//! The root of a tidy text.

ghost use Rattle.std.specs.Prelude.{◌≡◌, ◌<◌, ◌≤◌, ℤ, IfOk};
ghost use Rattle.ca_quad.specs.Prelude.{Grows, IsTree, cell, IsTrimmed};
ghost use Rattle.ca_macro.specs.Tidy.{lowest_level, IsLeastLevel};

use ca_plane::Memory;
use ca_quad::{Store, Tree};

/// The smallest level of a root.
fn lowest_level(states: u16) -> u8
    ensures { result ≡ lowest_level states }
{
    if states == 2 {
        return 4;
    }
    1
}

/// The tree, of this level or more.
fn pad_to(store: &mut Store, tree: Tree, least: u8) -> Result<Tree, Memory>
    requires tree { IsTree store.old tree }
    requires least { least ≤ 4 }
    ensures tree { IfOk result (IsTree store.new) }
    ensures cells { IfOk result (λ t. (x y : ℤ) → cell store.new t x y ≡ cell store.old tree x y) }
    ensures low { tree.level < least → IfOk result (λ t. t.level ≡ least) }
    ensures high { least ≤ tree.level → IfOk result (λ t. t.level ≡ tree.level) }
    ensures grows { Grows store.old store.new }
{
    let _squares = store.count();
    if tree.level >= least {
        return Ok(tree);
    }
    let larger = store.pad(tree)?;
    pad_to(store, larger, least)
}

/// The root of a tidy text, of a tree of the smallest level that shows its cells.
fn padded_root(store: &mut Store, least: Tree, states: u16) -> Result<Tree, Memory>
    requires tree { IsTree store.old least }
    requires trimmed { IsTrimmed store.old least }
    ensures tree { IfOk result (IsTree store.new) }
    ensures cells { IfOk result (λ t. (x y : ℤ) → cell store.new t x y ≡ cell store.old least x y) }
    ensures level { IfOk result (λ t. IsLeastLevel states (cell store.old least) t.level) }
    ensures grows { Grows store.old store.new }
{
    pad_to(store, least, lowest_level(states))
}

/// The tree of the smallest level that the root of a tidy text may have.
pub(super) fn root_of(store: &mut Store, tree: Tree, states: u16) -> Result<Tree, Memory>
    requires tree { IsTree store.old tree }
    ensures tree { IfOk result (IsTree store.new) }
    ensures cells { IfOk result (λ t. (x y : ℤ) → cell store.new t x y ≡ cell store.old tree x y) }
    ensures level { IfOk result (λ t. IsLeastLevel states (cell store.old tree) t.level) }
    ensures grows { Grows store.old store.new }
{
    let least = store.trim(tree)?;
    padded_root(store, least, states)
}
