//! The command `draw`.

ghost use Rattle.std.specs.Prelude.{◌≡◌, ◌≢◌, ℕ, ◌≤◌, pos, unwrap_or, MatchOption, IfOk, OnOk, IfSome};
ghost use Rattle.ca_cli.specs.Words.{scale_of};
ghost use Rattle.ca_cli.specs.Values.{IsCorner, IsSize, IsSizeText, IsPairText, IsWholeNumberText};
ghost use Rattle.ca_cli.specs.Requests.{IsDraw, IsDrawn, IsImageFormat, IsZoomable};

use crate::arguments::{file_word, value_word, with_rule_words};
use crate::commands::pattern::{after_word, pattern_help, with_limits, write_request};
use crate::request::{Request, WordsFault};
use crate::values::byte_value;
use ca_draw::{ImageFormat, MOST_SIDE, Size, View};
use ca_quad::Spot;
use ca_report::{DrawRequest, Form};
use clap::{Arg, ArgMatches, Command, value_parser};
use std::alloc::{AllocError, Global};

const HELP: &str = pattern_help!(
    "The plane is drawn row by row: `.` where no cell is live, and `o` where one is. At scale K each character
stands for 2^K by 2^K cells, and is `o` if one of them is live; the squares begin at multiples of 2^K. At scale
0 the states of a rule with more than two are letters: A to X for 1 to 24, a to x for 25 to 48, and * above.

  without words   all live cells, at the smallest scale at which they fit into 80 by 40 characters
  --size W,H      all live cells, at the smallest scale at which they fit into W by H
  --scale K       all live cells at scale K, in at most 8192 by 8192; with --size, in at most W by H
  --at X,Y        80 by 40 characters at scale 0, with the cell X,Y in the upper left one; with --size, W by H;
                  with --scale, at scale K. X grows to the right, and Y downward.
On a terminal, its columns and all but two of its lines stand in place of 80 by 40, and a line on standard error
gives the box of the live cells, the scale and the generation, as `box 0 0 36 9, scale 0, gen 0`.

An empty plane is drawn as the cell 0,0 alone. `window too large` says that the cells don't fit, and `window
out of range` that the window reaches beyond the columns and rows from -2^124 to 2^124 - 1 of its scale.

--to pgm writes an image that most viewers open: all live cells in at most 1024 by 1024 pixels, or 1024 by 1024
with --at. White is no live cell, black is a live one, and states above 1 are lighter greys. --zoom K draws each
cell as K by K pixels, at scale 0: all live cells in at most 8192 by 8192 pixels, or W by H with --size.

--after N draws the plane N generations later. --memo, --work and --max-memory are limits for that, as for verify: a
run that needs more than --work units of work ends as `work`.

",
    "The status is 0, or 2 where the pattern can't be drawn. Then standard error says why.

Examples:
  cafile draw examples/glider.rle
  cafile draw examples/gun.rle --after 300 --size 60,30
  cafile draw examples/glider.rle --at -2,-2 --size 10,6
  cafile draw examples/tables/wireworld_clock.rle --rule examples/tables/wireworld.rule
  cafile draw examples/macrocell/gun.mc --to pgm --scale 0 --after 1000
  cafile draw examples/glider.rle --to pgm --zoom 16
  cat examples/glider.rle | cafile draw -"
);

/// The command with its words.
pub fn command<'a>(alloc: Global) -> Result<Command<'a>, AllocError> {
    let draw = Command::new(alloc, "draw")
        .about("Draws a window of the plane, as text or as an image, to standard output")
        .after_help(HELP)
        .args(vec![in alloc;
            file_word(alloc),
            corner_word(alloc),
            size_word(alloc),
            scale_word(alloc),
            zoom_word(alloc),
            format_word(alloc),
            after_word(alloc),
        ]?)?;
    let draw = with_rule_words(alloc, draw)?;
    with_limits(alloc, draw)
}

fn corner_word<'a>(alloc: Global) -> Arg<'a> {
    value_word(
        alloc,
        "at",
        "X,Y",
        "The cell in the upper left corner of the window",
    )
    .allow_hyphen_values(true)
}

fn size_word<'a>(alloc: Global) -> Arg<'a> {
    value_word(
        alloc,
        "size",
        "W,H",
        "How many characters or pixels wide and high the window is: 1 to 8192",
    )
}

fn scale_word<'a>(alloc: Global) -> Arg<'a> {
    value_word(
        alloc,
        "scale",
        "K",
        "Each character or pixel stands for 2^K by 2^K cells: 0 to 124",
    )
    .value_parser(value_parser!(u64).range(0..=124))
}

fn zoom_word<'a>(alloc: Global) -> Arg<'a> {
    value_word(
        alloc,
        "zoom",
        "K",
        "Each cell is K by K pixels of an image: 1 to 64",
    )
    .value_parser(value_parser!(u64).range(1..=64))
}

fn format_word<'a>(alloc: Global) -> Arg<'a> {
    value_word(
        alloc,
        "to",
        "FORMAT",
        "What is written: text, unless this is set, or a grey image",
    )
    .value_parser(["text", "pgm"].as_slice())
}

/// What its words ask for.
pub fn request(alloc: Global, words: &ArgMatches<'_>) -> Result<Request, WordsFault>
    ensures { IfOk result (IsDraw words.now) }
{
    let form = Form::Picture(draw_request(alloc, words)?);
    write_request(alloc, words, form)
}

fn draw_request(alloc: Global, words: &ArgMatches<'_>) -> Result<DrawRequest, WordsFault>
    ensures { IfOk result (IsDrawn words.now) }
{
    let format = format_of(words);
    let scale = byte_value(words, "scale");
    let zoom = byte_value(words, "zoom");
    check_zoom(alloc, format, scale, zoom)?;
    let corner = corner_value(alloc, words)?;
    let size = size_of(alloc, words)?;
    Ok(DrawRequest {
        view: view_of(corner, size, scale, zoom),
        format,
    })
}

fn format_of(words: &ArgMatches<'_>) -> ImageFormat
    ensures { IsImageFormat words.now result }
{
    match words.get_str("to") {
        Some("pgm") => ImageFormat::Pgm,
        _ => ImageFormat::Text,
    }
}

// A zoom is one of an image at scale 0.
fn check_zoom(
    alloc: Global,
    format: ImageFormat,
    scale: Option<u8>,
    zoom: Option<u8>,
) -> Result<(), WordsFault>
    ensures { OnOk result (IsZoomable format scale zoom) }
{
    if zoom.is_none() {
        return Ok(());
    }
    if format != ImageFormat::Pgm {
        return Err(misplaced_zoom(alloc, "without '--to pgm'"));
    }
    if scale.unwrap_or(0) > 0 {
        return Err(misplaced_zoom(alloc, "with a '--scale <K>' above 0"));
    }
    Ok(())
}

// What is asked for of a window.
fn view_of(corner: Option<Spot>, size: Option<Size>, scale: Option<u8>, zoom: Option<u8>) -> View
    ensures corner { result.corner ≡ corner }
    ensures size { result.size ≡ size }
    ensures scale { result.scale ≡ scale_of zoom scale }
    ensures zoom { result.zoom ≡ unwrap_or zoom 1 }
{
    let scale = match zoom {
        Some(_) => Some(0),
        None => scale,
    };
    View {
        corner,
        size,
        scale,
        zoom: zoom.unwrap_or(1),
    }
}

// The cell of `--at X,Y`, where that stands there.
fn corner_value(alloc: Global, words: &ArgMatches<'_>) -> Result<Option<Spot>, WordsFault>
    ensures { IfOk result (IsCorner words.now) }
{
    let Some(word) = words.get_str("at") else {
        return Ok(None);
    };
    match two_numbers(word) {
        Some((x, y)) => Ok(Some(Spot { x, y })),
        None => Err(misfit(
            alloc,
            word,
            "--at <X,Y>",
            "two whole numbers with a comma between them",
        )),
    }
}

// The size of `--size W,H`, where that stands there.
fn size_of(alloc: Global, words: &ArgMatches<'_>) -> Result<Option<Size>, WordsFault>
    ensures { IfOk result (IsSize words.now) }
{
    let Some(word) = words.get_str("size") else {
        return Ok(None);
    };
    match size_from(word) {
        Some(size) => Ok(Some(size)),
        None => Err(misfit(
            alloc,
            word,
            "--size <W,H>",
            "two numbers from 1 to 8192 with a comma between them",
        )),
    }
}

fn size_from(word: &str) -> Option<Size>
    ensures { IfSome result (IsSizeText word.now) }
{
    let (width, height) = two_numbers(word)?;
    Some(Size {
        width: side_from(width)?,
        height: side_from(height)?,
    })
}

fn side_from(number: i128) -> Option<u16>
    ensures { MatchOption result ((side : ℕ) → 1 ≤ side → side ≤ 8192 → number ≢ pos side)
        (λ side. (1 ≤ side) × (side ≤ 8192) × (number ≡ pos side)) }
{
    if 1 <= number && number <= i128::from(MOST_SIDE) {
        return Some(number as u16);
    }
    None
}

// The numbers of a word such as `3,-4`.
fn two_numbers(word: &str) -> Option<(i128, i128)>
    ensures { IfSome result (λ numbers. IsPairText word.now numbers.0 numbers.1) }
{
    let (first, second) = word.split_once(',')?;
    Some((whole_number(first)?, whole_number(second)?))
}

fn whole_number(word: &str) -> Option<i128>
    ensures { IfSome result (IsWholeNumberText word.now) }
{
    match word.parse() {
        Ok(number) => Some(number),
        Err(_) => None,
    }
}

// The fault of a value that clap doesn't know, reported as it reports those that it does.
fn misfit(alloc: Global, value: &str, word: &str, wanted: &str) -> WordsFault {
    fault_of(format!(in alloc;
        "error: invalid value '{value}' for '{word}': not {wanted}\n\nFor more information, try '--help'.\n"
    ))
}

// The fault of a zoom beside words that it doesn't go with.
fn misplaced_zoom(alloc: Global, beside: &str) -> WordsFault {
    fault_of(format!(in alloc;
        "error: the argument '--zoom <K>' cannot be used {beside}\n\nFor more information, try '--help'.\n"
    ))
}

// The fault that a text tells, where there was memory for it.
fn fault_of(text: Result<String, AllocError>) -> WordsFault {
    match text {
        Ok(text) => WordsFault::Misfit { text },
        Err(_) => WordsFault::Memory,
    }
}
