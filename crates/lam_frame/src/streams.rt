//! Devices over the readers and writers of `std`. The bytes of a source are observable if those of its reader are, and those of a
//! sink if those of its writer are. How many of them are flushed is never observable, since a writer does not tell.

ghost use Rattle.std.specs.Prelude.{◌≡◌, ◌↔◌, ◌<◌, ◌≤◌, IfOk, IsOk, length, ⊤};
ghost use Rattle.std.specs.IoError.{error_kind};
ghost use Rattle.std.specs.Io.KnownBytes.{Keeps, ReadConsumes, WriteAppends};

use crate::device::{DeviceFault, Sink, Source};
use std::io;
use std::io::{ErrorKind, Read, Write};

/// The number of attempts at a read, a write or a flush that is interrupted by a signal. Together they are one call of the
/// device.
const TRIES: u32 = 1024;

/// A source that reads from a reader.
#[derive(Drop)]
pub struct FromRead<R> {
    inner: R,
    failures: u64,
}

impl<R: Read> FromRead<R> {
    /// Creates a source whose pulls read from `inner`.
    pub fn new(inner: R) -> FromRead<R>
        ensures coming { ⟦<FromRead<R> as Source>⟧.coming result ≡ R.remaining inner }
        ensures failures { ⟦<FromRead<R> as Source>⟧.failed result ≡ 0 }
    {
        FromRead { inner, failures: 0 }
    }
}

impl<R: Read> Source for FromRead<R> {
    ghost coming = { λ s. R.remaining s.inner };

    ghost failed = { λ s. s.failures };

    ghost gave = { λ _ _ _. ⊤ };

    fn failures(&self) -> u64 {
        self.failures
    }

    fn pull(&mut self, into: &mut [u8]) -> Result<usize, DeviceFault> {
        let pulled = read_through(&mut self.inner, into);
        if pulled.is_err() {
            self.failures += 1;
        }
        pulled
    }
}

/// A sink that writes to a writer.
#[derive(Drop)]
pub struct ToWrite<W> {
    inner: W,
    failures: u64,
}

impl<W: Write> ToWrite<W> {
    /// Creates a sink whose pushes write to `inner`.
    pub fn new(inner: W) -> ToWrite<W>
        ensures taken { ⟦<ToWrite<W> as Sink>⟧.taken result ≡ W.contents inner }
        ensures failures { ⟦<ToWrite<W> as Sink>⟧.failed result ≡ 0 }
    {
        ToWrite { inner, failures: 0 }
    }
}

impl<W: Write> Sink for ToWrite<W> {
    ghost taken = { λ s. W.contents s.inner };

    ghost failed = { λ s. s.failures };

    fn failures(&self) -> u64 {
        self.failures
    }

    /// Fails if the writer accepts none of a nonempty slice.
    fn push(&mut self, from: &[u8]) -> Result<usize, DeviceFault> {
        let pushed = write_through(&mut self.inner, from);
        if pushed.is_err() {
            self.failures += 1;
        }
        pushed
    }

    fn flush(&mut self) -> Result<(), DeviceFault> {
        let flushed = flush_through(&mut self.inner);
        if flushed.is_err() {
            self.failures += 1;
        }
        flushed
    }
}

fn read_through<R: Read>(reader: &mut R, into: &mut [u8]) -> Result<usize, DeviceFault>
    ensures within { IfOk result (λ n. n ≤ length into.new) }
    ensures bytes { ReadConsumes (R.remaining reader.old) (R.remaining reader.new) result into.new }
{
    for _ in 0..TRIES {
        match reader.read(into) {
            Ok(count) => return Ok(count),
            Err(error) => stop_unless_interrupted(&error)?,
        }
    }
    Err(DeviceFault)
}

fn write_through<W: Write>(writer: &mut W, from: &[u8]) -> Result<usize, DeviceFault>
    ensures within { IfOk result (λ n. n ≤ length from.now) }
    ensures some { IfOk result (λ n. 0 < length from.now → 0 < n) }
    ensures bytes { WriteAppends (W.contents writer.old) (W.contents writer.new) result from.now }
{
    for _ in 0..TRIES {
        match writer.write(from) {
            Ok(count) if count == 0 && !from.is_empty() => return Err(DeviceFault),
            Ok(count) => return Ok(count),
            Err(error) => stop_unless_interrupted(&error)?,
        }
    }
    Err(DeviceFault)
}

fn flush_through<W: Write>(writer: &mut W) -> Result<(), DeviceFault>
    ensures { Keeps (W.contents writer.old) (W.contents writer.new) }
{
    for _ in 0..TRIES {
        match writer.flush() {
            Ok(()) => return Ok(()),
            Err(error) => stop_unless_interrupted(&error)?,
        }
    }
    Err(DeviceFault)
}

fn stop_unless_interrupted(error: &io::Error) -> Result<(), DeviceFault>
    ensures { IsOk result ↔ (error_kind error.now ≡ ErrorKind.Interrupted) }
{
    if error.kind() == ErrorKind::Interrupted {
        Ok(())
    } else {
        Err(DeviceFault)
    }
}
