//! Readers and writers that fail in mid-stream.

ghost use Rattle.std.specs.Prelude.{Some};

use ca_plane::Dev;
use std::alloc::Global;
use std::io;
use std::io::{Error, ErrorKind, Read, Write};

/// How a write takes nothing.
#[derive(Clone, Copy)]
pub(crate) enum Refusal {
    Fails,
    TakesNone,
}

/// Holds what it takes, which is at most 3 bytes at a time, and refuses one write, once it has `room` bytes.
///
/// It takes bytes again after that write, so a write that is tried again shows.
#[derive(Drop)]
pub(crate) struct Narrow {
    pub(crate) taken: Vec<u8>,
    room: usize,
    refusal: Refusal,
}

impl Narrow {
    pub(crate) fn device(alloc: Global, room: usize, refusal: Refusal) -> Dev<Narrow> {
        Dev::new(Narrow {
            taken: Vec::new(alloc),
            room,
            refusal,
        })
    }
}

impl Write for Narrow {
    ghost contents = { λ w. Some w.taken.items };

    fn write(&mut self, buffer: &[u8]) -> io::Result<usize> {
        let room = self.room.saturating_sub(self.taken.len());
        if room == 0 {
            self.room = usize::MAX;
            return match self.refusal {
                Refusal::Fails => Err(Error::from(ErrorKind::Other)),
                Refusal::TakesNone => Ok(0),
            };
        }
        let count = buffer.len().min(3).min(room);
        self.taken.extend_from_slice(&buffer[..count])?;
        Ok(count)
    }

    fn flush(&mut self) -> io::Result<()> {
        Ok(())
    }
}

/// Reads from another reader, but for the read with the number `fails_at`. Reads are counted from 1.
#[derive(Drop)]
pub(crate) struct Faulty<R> {
    inner: R,
    reads: u64,
    fails_at: u64,
}

impl<R> Faulty<R> {
    pub(crate) fn device(inner: R, fails_at: u64) -> Dev<Faulty<R>> {
        Dev::new(Faulty {
            inner,
            reads: 0,
            fails_at,
        })
    }
}

impl<R: Read> Read for Faulty<R> {
    ghost remaining = { λ r. R.remaining r.inner };

    fn read(&mut self, buffer: &mut [u8]) -> io::Result<usize> {
        self.reads = self.reads.saturating_add(1);
        if self.reads == self.fails_at {
            return Err(Error::from(ErrorKind::Other));
        }
        self.inner.read(buffer)
    }
}
