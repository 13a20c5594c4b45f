//! The terminal that a picture is drawn on.

ghost use Rattle.std.specs.Prelude.{◌≡◌, ◌<◌, ℕ, MatchOption};
ghost use Rattle.cafile.specs.Terminals.{IsCountText, terminal_side, room_in, room_for, request_on};

use ca_draw::{ImageFormat, MOST_SIDE, Size, View};
use ca_quad::Spot;
use ca_tool::DrawRequest;
use std::env;
use std::rt::Env;

/// How many lines of a terminal are left: for the caption above a picture, and for the prompt below it.
const LINES_LEFT: u64 = 2;

/// The size of a picture that fits the terminal, where the environment tells its columns and lines.
pub fn terminal_room<R: Env + AllocGlobal>(rt: &R) -> Option<Size> {
    match (env::var(rt, "COLUMNS"), env::var(rt, "LINES")) {
        (Ok(columns), Ok(lines)) => room_of(columns.as_str(), lines.as_str()),
        _ => None,
    }
}

// The size of a picture that fits a terminal of which the environment has these words for columns and lines.
fn room_of(columns: &str, lines: &str) -> Option<Size>
    ensures { MatchOption result
        ((across down : ℕ) → IsCountText columns.now across → IsCountText lines.now down → ⊥)
        (λ size. (across : ℕ) × (down : ℕ) × IsCountText columns.now across × IsCountText lines.now down
        × (size ≡ room_in across down)) }
{
    let across = count_of(columns)?;
    let down = count_of(lines)?;
    Some(Size {
        width: side_of(across),
        height: side_of(down.saturating_sub(LINES_LEFT)),
    })
}

// The number above 0 that a word is.
fn count_of(word: &str) -> Option<u64>
    ensures { MatchOption result ((count : ℕ) → IsCountText word.now count → ⊥) (IsCountText word.now) }
{
    match word.parse() {
        Ok(count) if count > 0 => Some(count),
        _ => None,
    }
}

// `count` columns or lines, brought within the limits of a picture.
fn side_of(count: u64) -> u16
    ensures { result ≡ terminal_side count }
{
    count.clamp(1, u64::from(MOST_SIDE)) as u16
}

/// What is asked for of a picture on a terminal that has this room, if that is known: a text fits it, unless another size or
/// the scale of a whole box is asked for.
pub fn on_terminal(request: DrawRequest, room: Option<Size>) -> DrawRequest
    ensures { result ≡ request_on request room }
{
    let view = request.view;
    let room = room_for(request.format, view.corner, view.scale, room);
    let size = view.size.or(room);
    DrawRequest {
        view: View { size, ..view },
        format: request.format,
    }
}

// The size that a terminal with this room gives a picture in place of the usual one.
fn room_for(
    format: ImageFormat,
    corner: Option<Spot>,
    scale: Option<u8>,
    room: Option<Size>,
) -> Option<Size>
    ensures { result ≡ room_for format corner scale room }
{
    match (format, corner, scale) {
        (ImageFormat::Pgm, _, _) => None,
        (ImageFormat::Text, None, Some(_)) => None,
        (ImageFormat::Text, _, _) => room,
    }
}
