//! The bits of an 8 by 8 square of two states: corner by corner, as a store keeps them, and row by row.

ghost use Rattle.std.specs.Prelude.{◌≡◌, ℕ, ◌+◌, ◌*◌, ◌<◌, ◌^◌, bit_and};
ghost use Rattle.std.specs.Int.{bit_at};
ghost use Rattle.ca_quad.specs.inner.Bits.{place, exchanged_bit};

// The cells of a block, row by row.
pub(super) fn rows(block: u64) -> u64
    ensures { (x y : ℕ) → x < 8 → y < 8 → bit_at result (8 * y + x) ≡ bit_at block (place 3 x y) }
{
    let wide = exchange(block, 0x0000ff000000ff00, 8);
    let half = exchange(wide, 0x00cc00cc00cc00cc, 6);
    exchange(half, 0x0c0c0c0c0c0c0c0c, 2)
}

// The block of these cells, which are given row by row.
pub(super) fn corners(word: u64) -> u64
    ensures { (x y : ℕ) → x < 8 → y < 8 → bit_at result (place 3 x y) ≡ bit_at word (8 * y + x) }
{
    let half = exchange(word, 0x0c0c0c0c0c0c0c0c, 2);
    let wide = exchange(half, 0x00cc00cc00cc00cc, 6);
    exchange(wide, 0x0000ff000000ff00, 8)
}

// Each of the low bits changes places with the one that is so far above it.
fn exchange(bits: u64, low: u64, way: u32) -> u64
    requires way { way < 64 }
    requires fits { low * 2 ^ way < 2 ^ 64 }
    requires apart { bit_and low (low * 2 ^ way) ≡ 0 }
    ensures { (i : ℕ) → bit_at result i ≡ bit_at bits (exchanged_bit low way i) }
{
    let changed = (bits ^ (bits >> way)) & low;
    bits ^ changed ^ (changed << way)
}
