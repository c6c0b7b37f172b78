//! In-memory devices, whose bytes are observable in contracts.

ghost use Rattle.std.specs.Prelude.{◌≡◌, ◌++◌, ◌-◌, ◌^◌, ◌<◌, ℕ, IsOk, List, [], Some};
ghost use Rattle.lam_frame.specs.Bytes.{Output};
ghost use Rattle.lam_frame.specs.Device.{Flushes, sink_of};

use crate::device::{DeviceFault, Sink, Source};
use std::alloc::Global;
use std::marker::Model;

/// A source that yields the bytes of a slice. Its pulls never fail.
#[derive(Drop)]
pub struct BytesIn<'a> {
    rest: &'a [u8],
}

// The model is the remaining bytes.
impl<'a> Model for BytesIn<'a> {
    ghost Value = { List ℕ };

    ghost view = { λ s. s.rest.now };
}

impl<'a> BytesIn<'a> {
    /// Creates a source of these bytes.
    pub fn new(bytes: &'a [u8]) -> BytesIn<'a>
        ensures { result ≡ bytes.now }
    {
        BytesIn { rest: bytes }
    }
}

impl Source for BytesIn<'_> {
    ghost coming = { λ s. Some s };

    ghost failed = { λ _. 0 };

    ghost gave = { λ old piece new. old ≡ piece ++ new };

    fn failures(&self) -> u64 {
        0
    }

    fn pull(&mut self, into: &mut [u8]) -> Result<usize, DeviceFault> {
        let count = into.len().min(self.rest.len());
        let (piece, rest) = self.rest.split_at(count);
        into[..count].copy_from_slice(piece);
        self.rest = rest;
        Ok(count)
    }
}

/// A sink that collects bytes in memory. A push fails if allocation fails; a flush never fails.
#[derive(Drop)]
pub struct BytesOut {
    bytes: Vec<u8>,
    flushed: usize,
    failures: u64,
}

impl Model for BytesOut {
    ghost Value = { Output };

    ghost view = { λ s. record { bytes = s.bytes.items; flushed = s.flushed; failures = s.failures } };
}

impl BytesOut {
    /// Creates an empty sink, which allocates with `alloc`.
    pub fn new(alloc: Global) -> BytesOut
        ensures { result ≡ (record { bytes = []; flushed = 0; failures = 0 }) }
    {
        BytesOut {
            bytes: Vec::new(alloc),
            flushed: 0,
            failures: 0,
        }
    }

    /// Returns all bytes that were accepted, flushed or not.
    pub fn bytes(&self) -> &[u8]
        ensures { result.now ≡ self.now.bytes }
    {
        self.bytes.as_slice()
    }
}

impl Sink for BytesOut {
    ghost taken = { λ s. Some s.bytes };

    ghost flushed = { λ s. Some s.flushed };

    ghost failed = { λ s. s.failures };

    fn failures(&self) -> u64 {
        self.failures
    }

    fn push(&mut self, from: &[u8]) -> Result<usize, DeviceFault> {
        let Ok(()) = self.bytes.extend_from_slice(from) else {
            self.failures += 1;
            return Err(DeviceFault);
        };
        Ok(from.len())
    }

    fn flush(&mut self) -> Result<(), DeviceFault>
        requires { ⟦<BytesOut as Sink>⟧.failed self.old < 2 ^ 64 - 1 }
        ensures flushes { Flushes (sink_of ⟦<BytesOut as Sink>⟧.taken ⟦<BytesOut as Sink>⟧.flushed ⟦<BytesOut as Sink>⟧.failed) self.old result self.new }
        ensures always { IsOk result }
    {
        self.flushed = self.bytes.len();
        Ok(())
    }
}
