//! The standard streams, and files that are read like standard input.

use ca_plane::{Dev, send};
use std::io;
use std::io::{IsTerminal, Read};
use std::rt::{Stderr, Stdin, Stdout};

/// Standard input, output and error.
#[derive(Drop)]
pub struct Streams {
    pub input: Stdin,
    pub output: Dev<Stdout>,
    pub errors: Dev<Stderr>,
}

impl Streams {
    /// Whether standard error is a terminal.
    pub fn is_terminal(&self) -> bool {
        self.errors.inner().is_terminal()
    }

    /// Tells on a terminal that `--explain` says more of what was refused.
    pub fn suggest_explain(&mut self) {
        if self.is_terminal() {
            let _ = send(&mut self.errors, b"cafile: --explain says more\n");
        }
    }
}

/// An opened file, or standard input.
#[derive(Drop)]
pub enum Source<F> {
    File(F),
    Input(Stdin),
}

impl<F: Read> Read for Source<F> {
    ghost use Rattle.ca_host.specs.Sources.{source_remaining};

    ghost remaining = { source_remaining F.remaining };

    fn read(&mut self, buffer: &mut [u8]) -> io::Result<usize> {
        match self {
            Source::File(file) => file.read(buffer),
            Source::Input(input) => input.read(buffer),
        }
    }
}
