//! A reader or a writer that counts its failures.
//!
//! Nothing else is here: the fields of a `Dev` are private, so that no call but its own two can ask the
//! device, or change the count.

ghost use Rattle.std.specs.Prelude.{◌≡◌, ◌<◌, length, OnOk, OnErr, IfOk};
ghost use Rattle.std.specs.Io.{ReadsAtMost, WritesAtMost};
ghost use Rattle.std.specs.Io.KnownBytes.{ReadConsumes, WriteAppends};
ghost use Rattle.ca_plane.specs.Device.{Rises};

use std::io::{Read, Write};
use std::marker::Model;
use thiserror::Error;

/// A read or a write failed, or a write took no byte of some.
#[derive(Clone, Copy, Debug, PartialEq, Eq, Error)]
#[error("the device failed")]
pub struct Failed;

/// A reader or a writer that counts its failures.
#[derive(Debug, Drop)]
pub struct Dev<T> {
    inner: T,
    failures: u64,
}

impl<T> Model for Dev<T> {
    ghost use Rattle.ca_plane.specs.Device.{Counted};

    ghost Value = { Counted T };

    ghost view = { λ d. record { inner = d.inner; failures = d.failures } };
}

impl<T> Dev<T> {
    /// The device, which hasn't failed yet.
    pub fn new(inner: T) -> Dev<T>
        ensures inner { result.inner ≡ inner }
        ensures failures { result.failures ≡ 0 }
    {
        Dev { inner, failures: 0 }
    }

    /// What is read or written.
    pub fn inner(&self) -> &T
        ensures { result.now ≡ self.now.inner }
    {
        &self.inner
    }

    /// How many calls failed. The count stops at its greatest value.
    pub fn failures(&self) -> u64
        ensures { result ≡ self.now.failures }
    {
        self.failures
    }

    fn failed(&mut self) -> Failed
        ensures inner { self.new.inner ≡ self.old.inner }
        ensures counted { Rises self.old.failures self.new.failures }
    {
        self.failures = self.failures.saturating_add(1);
        Failed
    }
}

impl<R: Read> Dev<R> {
    /// Reads some bytes into the front of the buffer, and answers how many.
    ///
    /// It fails only where the inner reader does, and counts a failure exactly then.
    pub fn read(&mut self, buffer: &mut [u8]) -> Result<usize, Failed>
        ensures bound { ReadsAtMost result buffer.new }
        ensures bytes { ReadConsumes (R.remaining self.old.inner)
            (R.remaining self.new.inner) result buffer.new }
        ensures kept { OnOk result (self.new.failures ≡ self.old.failures) }
        ensures counted { OnErr result (Rises self.old.failures self.new.failures) }
    {
        match self.inner.read(buffer) {
            Ok(count) => Ok(count),
            Err(_) => Err(self.failed()),
        }
    }
}

impl<W: Write> Dev<W> {
    /// Writes the first of the bytes, and answers how many it took.
    ///
    /// It fails only where the inner writer does or takes no byte of some, and counts a failure exactly then.
    pub fn write(&mut self, bytes: &[u8]) -> Result<usize, Failed>
        ensures bound { WritesAtMost result bytes.now }
        ensures some { IfOk result (λ n. 0 < length bytes.now → 0 < n) }
        ensures bytes { WriteAppends (W.contents self.old.inner)
            (W.contents self.new.inner) result bytes.now }
        ensures kept { OnOk result (self.new.failures ≡ self.old.failures) }
        ensures counted { OnErr result (Rises self.old.failures self.new.failures) }
    {
        let Ok(count) = self.inner.write(bytes) else {
            return Err(self.failed());
        };
        if count == 0 && !bytes.is_empty() {
            return Err(self.failed());
        }
        Ok(count)
    }
}
