//! Bricks made of words of 8 by 8 cells, and cut into them.

ghost use Rattle.std.specs.Prelude.{◌≡◌, ℕ, ◌+◌, ◌*◌, ◌<◌, ℤ, pos, ◌+ℤ◌, slice_index};
ghost use Rattle.std.specs.Int.{bit_at};
ghost use Rattle.ca_plane.specs.Prelude.{word_cells};
ghost use Rattle.ca_bricks.specs.Words.{WordShows, byte_of};
ghost use Rattle.ca_bricks.specs.Bricks.{BrickShows};

/// The brick of two rows of eight words each.
pub fn brick_of(north: &[u64; 8], south: &[u64; 8]) -> [u64; 16]
    ensures { (p : ℤ → ℤ → ℕ) (a b : ℤ)
        → ((i : ℕ) → i < 8 → WordShows (slice_index north.now i) p (a +ℤ pos (8 * i)) b)
        → ((i : ℕ) → i < 8 → WordShows (slice_index south.now i) p (a +ℤ pos (8 * i)) (b +ℤ pos 8))
        → BrickShows result p a b }
{
    let mut rows = [0; 16];
    'rows: for y in 0..8 {
        rows[y] = row_at(north, y);
        rows[8 + y] = row_at(south, y);
    }
    rows
}

// A row of the cells of eight words side by side.
fn row_at(words: &[u64; 8], y: usize) -> u64
    requires { y < 8 }
    ensures { (i x : ℕ) → i < 8 → x < 8
        → bit_at result (8 * i + x) ≡ word_cells (slice_index words.now i) x y }
{
    u64::from_le_bytes([
        byte_at(words[0], y),
        byte_at(words[1], y),
        byte_at(words[2], y),
        byte_at(words[3], y),
        byte_at(words[4], y),
        byte_at(words[5], y),
        byte_at(words[6], y),
        byte_at(words[7], y),
    ])
}

// The 8 by 8 cells of a brick that begin 8 * i columns and 8 * j rows in.
pub(crate) fn brick_word(rows: &[u64; 16], i: usize, j: usize) -> u64
    requires column { i < 8 }
    requires row { j < 2 }
    ensures { (p : ℤ → ℤ → ℕ) (a b : ℤ) → BrickShows rows.now p a b
        → WordShows result p (a +ℤ pos (8 * i)) (b +ℤ pos (8 * j)) }
{
    let top = 8 * j;
    u64::from_le_bytes([
        byte_at(rows[top], i),
        byte_at(rows[top + 1], i),
        byte_at(rows[top + 2], i),
        byte_at(rows[top + 3], i),
        byte_at(rows[top + 4], i),
        byte_at(rows[top + 5], i),
        byte_at(rows[top + 6], i),
        byte_at(rows[top + 7], i),
    ])
}

// The byte of a word at a place, the lowest at place 0.
fn byte_at(word: u64, place: usize) -> u8
    requires { place < 8 }
    ensures { result ≡ byte_of word place }
{
    (word >> (8 * place) & 255) as u8
}
