//! The line on standard error that tells how far a long claim or run is.

use ca_evolution::{Observer, RunSubject};
use ca_plane::text::{push_number, push_text};
use ca_plane::{Dev, Memory, send};
use ca_report::push_escaped;
use ca_run::{Milestone, Watch};
use std::io::IsTerminal;
use std::rt::{Clock, Stderr};
use std::time::Instant;

/// Goes back to the line's begin, and erases the line.
const WIPE: &[u8] = b"\r\x1b[K";

// How many milliseconds a claim has taken before anything is shown, and how many go by before what is computed is
// shown again.
const FIRST: u128 = 1000;

const AGAIN: u128 = 500;

/// What a line of progress is about. Control characters of a path are spelled out in it.
#[derive(Clone, Copy)]
pub enum Heading<'a> {
    /// The claims of a text. This stands before each of its lines, as it is.
    Claims {
        before: &'a [u8],
    },
    /// The file of this path, whose pattern is advanced by some generations.
    Run {
        path: &'a [u8],
    },
    /// The files of these paths, of which each is looked at for `limit` generations, after `after` generations.
    Files {
        paths: &'a [Vec<u8>],
        after: u64,
        limit: u64,
    },
}

/// Shows which claim is judged, or which file is identified or advanced by some generations, how far that is and what
/// was computed, once it has taken a second, and wipes that when it is done. It shows that only where it is asked for,
/// or standard error is a terminal. And it says how many squares each may keep.
#[derive(Drop)]
pub struct Progress<'a, R> {
    rt: &'a R,
    errors: &'a mut Dev<Stderr>,
    heading: Heading<'a>,
    is_shown: bool,
    most_squares: usize,
    subject: RunSubject,
    goal: u64,
    generations: u64,
    results: u64,
    squares: u64,
    start: Option<Instant>,
    // When something was shown last, in milliseconds from the start.
    shown: Option<u128>,
}

impl<'a, R: Clock + AllocGlobal> Progress<'a, R> {
    /// Nothing is shown yet.
    pub fn new(
        rt: &'a R,
        errors: &'a mut Dev<Stderr>,
        heading: Heading<'a>,
        is_asked_for: bool,
        most_squares: usize,
    ) -> Progress<'a, R> {
        let is_shown = is_asked_for || errors.inner().is_terminal();
        Progress {
            rt,
            errors,
            heading,
            is_shown,
            most_squares,
            subject: RunSubject::Pattern,
            goal: 0,
            generations: 0,
            results: 0,
            squares: 0,
            start: None,
            shown: None,
        }
    }

    // Shows how far the claim is, where it has taken at least `least` milliseconds. Out of memory shows nothing.
    fn show_from(&mut self, least: u128) {
        let Some(time) = self.time() else {
            return;
        };
        if time < least {
            return;
        }
        if let Ok(text) = self.text() {
            let _ = send(self.errors, &text);
            self.shown = Some(time);
        }
    }

    // Shows how far it is, where nothing was shown for a while.
    fn show_again(&mut self) {
        let least = match self.shown {
            Some(last) => last.saturating_add(AGAIN),
            None => FIRST,
        };
        self.show_from(least);
    }

    // How many milliseconds the claim has taken. A clock that can't be read tells no time.
    fn time(&self) -> Option<u128> {
        match self.start?.elapsed(self.rt) {
            Ok(time) => Some(time.as_millis()),
            Err(_) => None,
        }
    }

    fn text(&self) -> Result<Vec<u8>, Memory> {
        let mut text = Vec::new(self.rt.alloc());
        push_text(&mut text, WIPE)?;
        self.push_heading(&mut text)?;
        push_text(&mut text, b": ")?;
        push_number(&mut text, self.generations)?;
        push_text(&mut text, b" of ")?;
        push_number(&mut text, self.goal)?;
        push_text(&mut text, generations_word(self.goal))?;
        if self.results > 0 {
            push_text(&mut text, b", ")?;
            push_millions(&mut text, self.results)?;
            push_text(&mut text, b" results, ")?;
            push_millions(&mut text, self.squares)?;
            push_text(&mut text, b" squares")?;
        }
        Ok(text)
    }

    // Puts which claim or file it is.
    fn push_heading(&self, text: &mut Vec<u8>) -> Result<(), Memory> {
        match (self.heading, self.subject) {
            (Heading::Claims { before }, RunSubject::Claim { line }) => {
                push_text(text, before)?;
                push_text(text, b"line ")?;
                push_number(text, line)
            }
            (Heading::Run { path }, _) => push_escaped(text, path),
            (Heading::Files { paths, .. }, RunSubject::File { index }) => match paths.get(index) {
                Some(path) => push_escaped(text, path),
                None => Ok(()),
            },
            _ => Ok(()),
        }
    }
}

// Puts a number in millions, with one decimal, which is cut and not rounded.
fn push_millions(text: &mut Vec<u8>, number: u64) -> Result<(), Memory> {
    push_number(text, number / 1000000)?;
    push_text(text, b".")?;
    push_number(text, number / 100000 % 10)?;
    push_text(text, b" million")
}

fn generations_word<'a>(generations: u64) -> &'a [u8] {
    if generations == 1 {
        return b" generation";
    }
    b" generations"
}

impl<R: Clock + AllocGlobal> Watch for Progress<'_, R> {
    fn reached(&mut self, run: Milestone) {
        self.generations = run.generations();
        self.show_from(FIRST);
    }

    fn works(&mut self, used: u64, squares: usize) {
        self.results = used;
        self.squares = squares as u64;
        self.show_again();
    }

    fn most_squares(&self) -> usize {
        self.most_squares
    }
}

impl<R: Clock + AllocGlobal> Observer for Progress<'_, R> {
    fn begins(&mut self, subject: RunSubject) {
        self.subject = subject;
        self.results = 0;
        if let Heading::Files { after, .. } = self.heading {
            self.goal = after;
            self.generations = 0;
        }
        if self.is_shown {
            self.start = Instant::now(self.rt).ok();
        }
    }

    fn goes_to(&mut self, generations: u64) {
        match self.heading {
            Heading::Claims { .. } | Heading::Run { .. } => {
                self.goal = generations;
                self.generations = 0;
                self.show_from(FIRST);
            }
            Heading::Files { limit, .. } => {
                self.goal = limit;
                self.results = 0;
                self.generations = generations.saturating_sub(1);
                self.show_again();
            }
        }
    }

    fn ends(&mut self) {
        if self.shown.take().is_some() {
            let _ = send(self.errors, WIPE);
        }
    }
}
