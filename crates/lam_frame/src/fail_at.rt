//! A device with one failing call, for testing error handling.

ghost use Rattle.std.specs.Prelude.{◌≡◌, ◌↔◌, ◌-◌, ◌^◌, ◌<◌, ◌≤◌, IsErr, IsTrue};
ghost use Rattle.lam_frame.specs.Device.{Flushes, Pulls, Pushes, source_of, sink_of};
ghost use Rattle.lam_frame.specs.FailAt.{FailsOrPasses, IsDue, Passes, after_call, failures_with, own_failures};

use crate::device::{DeviceFault, Sink, Source};
use std::marker::Model;

/// Wraps a source or a sink. One numbered call fails without reaching the wrapped device, and all others are forwarded. Pulls are
/// counted from 1; so are pushes and flushes, together.
#[derive(Drop)]
pub struct FailAt<D> {
    inner: D,
    call: u64,
    made: u64,
}

impl<D> Model for FailAt<D> {
    ghost use Rattle.std.specs.Prelude.{◌≤◌};
    ghost use Rattle.lam_frame.specs.FailAt.{Failing};

    ghost Value = { Failing D };

    ghost view = { λ s. record { inner = s.inner; call = s.call; made = s.made } };

    ghost invariant = { λ s. s.made ≤ s.call };
}

impl<D> FailAt<D> {
    /// Creates a device whose call with this number fails; with 0 none fails.
    pub fn new(inner: D, call: u64) -> FailAt<D>
        ensures { result ≡ (record { inner = inner; call = call; made = 0 }) }
    {
        FailAt {
            inner,
            call,
            made: 0,
        }
    }

    /// Returns the wrapped device.
    pub fn inner(&self) -> &D
        ensures { result.now ≡ self.now.inner }
    {
        &self.inner
    }

    /// Counts a call, up to the one that fails, and returns whether it is that one.
    fn fails_now(&mut self) -> bool
        ensures within { self.old.made ≤ self.old.call }
        ensures due { IsTrue result ↔ IsDue self.old }
        ensures counted { self.new ≡ after_call self.old self.old.inner }
    {
        if self.made == self.call {
            return false;
        }
        self.made += 1;
        self.made == self.call
    }

    /// The number of failures of its own, at most one.
    fn own_failures(&self) -> u64
        ensures { result ≡ own_failures self.now.call self.now.made }
    {
        if self.call > 0 && self.made == self.call {
            1
        } else {
            0
        }
    }
}

impl<S: Source> Source for FailAt<S> {
    ghost coming = { λ s. S.coming s.inner };

    ghost failed = { failures_with S.failed };

    ghost gave = { λ old piece new. Passes (λ inner inner_after. S.gave inner piece inner_after) old new };

    fn failures(&self) -> u64 {
        self.inner.failures().saturating_add(self.own_failures())
    }

    fn pull(&mut self, into: &mut [u8]) -> Result<usize, DeviceFault>
        requires { ⟦<FailAt<S> as Source>⟧.failed self.old < 2 ^ 64 - 1 }
        ensures pulls { Pulls (source_of ⟦<FailAt<S> as Source>⟧.coming ⟦<FailAt<S> as Source>⟧.failed ⟦<FailAt<S> as Source>⟧.gave) self.old result into.new self.new }
        ensures exact { FailsOrPasses (IsErr result × (into.new ≡ into.old))
            (λ inner inner_after. Pulls (source_of S.coming S.failed S.gave) inner result into.new inner_after) self.old self.new }
    {
        if self.fails_now() {
            return Err(DeviceFault);
        }
        self.inner.pull(into)
    }
}

impl<W: Sink> Sink for FailAt<W> {
    ghost taken = { λ s. W.taken s.inner };

    ghost flushed = { λ s. W.flushed s.inner };

    ghost failed = { failures_with W.failed };

    fn failures(&self) -> u64 {
        self.inner.failures().saturating_add(self.own_failures())
    }

    fn push(&mut self, from: &[u8]) -> Result<usize, DeviceFault>
        requires { ⟦<FailAt<W> as Sink>⟧.failed self.old < 2 ^ 64 - 1 }
        ensures pushes { Pushes (sink_of ⟦<FailAt<W> as Sink>⟧.taken ⟦<FailAt<W> as Sink>⟧.flushed ⟦<FailAt<W> as Sink>⟧.failed) self.old result from.now self.new }
        ensures exact { FailsOrPasses (IsErr result)
            (λ inner inner_after. Pushes (sink_of W.taken W.flushed W.failed) inner result from.now inner_after) self.old self.new }
    {
        if self.fails_now() {
            return Err(DeviceFault);
        }
        self.inner.push(from)
    }

    fn flush(&mut self) -> Result<(), DeviceFault>
        requires { ⟦<FailAt<W> as Sink>⟧.failed self.old < 2 ^ 64 - 1 }
        ensures flushes { Flushes (sink_of ⟦<FailAt<W> as Sink>⟧.taken ⟦<FailAt<W> as Sink>⟧.flushed ⟦<FailAt<W> as Sink>⟧.failed) self.old result self.new }
        ensures exact { FailsOrPasses (IsErr result)
            (λ inner inner_after. Flushes (sink_of W.taken W.flushed W.failed) inner result inner_after) self.old self.new }
    {
        if self.fails_now() {
            return Err(DeviceFault);
        }
        self.inner.flush()
    }
}
