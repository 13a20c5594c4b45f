//! The primes that divide a number.

ghost use Rattle.std.specs.Prelude.{◌≤◌, ◌<◌, ◌^◌, ℕ};
ghost use Rattle.std.specs.Int.{◌∣◌};
ghost use Rattle.ca_steps.specs.Prelude.{IsPrime};

/// A prime that divides n: the largest one. Here n is less than 2^32.
pub(super) fn prime_factor(n: u64) -> u64
    requires some { 2 ≤ n }
    requires few { n < 2 ^ 32 }
    ensures prime { IsPrime result }
    ensures divides { result ∣ n }
{
    let mut rest = n;
    let mut low: u64 = 2;
    'factors: while low * low <= rest {
        if rest % low == 0 {
            rest /= low;
        } else {
            low += 1;
        }
    }
    rest
}

/// What n is without a prime that divides it, however often that does: what divides n, and the prime doesn't
/// divide, divides the rest.
pub(super) fn without_prime(n: u64, prime: u64) -> u64
    requires some { 1 ≤ n }
    requires prime { IsPrime prime }
    requires divides { prime ∣ n }
    ensures some { 1 ≤ result }
    ensures less { result < n }
    ensures part { result ∣ n }
    ensures keeps { (m : ℕ) → m ∣ n → (prime ∣ m → ⊥) → m ∣ result }
{
    let mut rest = n / prime;
    'factors: while rest % prime == 0 {
        rest /= prime;
    }
    rest
}
