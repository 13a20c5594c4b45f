//! The order of representations.

ghost use Rattle.std.specs.Prelude.{◌≡◌};
ghost use Rattle.ca_apgcode.specs.Order.{representation_cmp};

use std::cmp::Ordering;

/// Which of two representations comes before the other: the shorter one, and of two that are as long the one
/// that is less in the order of the bytes.
pub fn compare(one: &[u8], other: &[u8]) -> Ordering
    ensures { result ≡ representation_cmp one.now other.now }
{
    one.len().cmp(&other.len()).then(one.cmp(other))
}
