//! Sources and sinks of bytes.

ghost use Rattle.std.specs.Prelude.{◌≡◌, ◌-◌, ◌^◌, ◌<◌, ℕ, List, Option, None};
ghost use Rattle.lam_frame.specs.Device.{Flushes, Pulls, Pushes, source_of, sink_of};

use thiserror::Error;

/// The error of a pull, a push or a flush.
#[derive(Clone, Copy, Debug, PartialEq, Eq, Error)]
#[error("the device failed")]
pub struct DeviceFault;

/// A source of bytes. `coming` gives the bytes that remain, if they are observable.
pub trait Source {
    ghost coming: { Self → Option (List ℕ) } = { λ _. None };

    // The number of calls that have failed so far.
    ghost failed: { Self → ℕ };

    // The source that is left after one returns a piece: a chain of such steps is what was pulled.
    ghost gave: { Self → List ℕ → Self → Type 0 };

    /// Returns the number of pulls that have failed so far.
    fn failures(&self) -> u64
        ensures { result ≡ failed self.now };

    /// Writes bytes to the front of `into`, and returns how many: zero only at the end. For an empty `into`, an `Ok` means
    /// nothing.
    fn pull(&mut self, into: &mut [u8]) -> Result<usize, DeviceFault>
        requires { failed self.old < 2 ^ 64 - 1 }
        ensures { Pulls (source_of coming failed gave) self.old result into.new self.new };
}

/// A sink of bytes. `taken` gives the bytes it has accepted, and `flushed` how many of them are flushed, each if observable.
pub trait Sink {
    ghost taken: { Self → Option (List ℕ) } = { λ _. None };

    ghost flushed: { Self → Option ℕ } = { λ _. None };

    // The number of calls that have failed so far.
    ghost failed: { Self → ℕ };

    /// Returns the number of pushes and flushes that have failed so far.
    fn failures(&self) -> u64
        ensures { result ≡ failed self.now };

    /// Accepts bytes from the front of `from`, and returns how many. To accept none of a nonempty slice counts as a failure, even
    /// if it returns `Ok(0)`.
    fn push(&mut self, from: &[u8]) -> Result<usize, DeviceFault>
        requires { failed self.old < 2 ^ 64 - 1 }
        ensures { Pushes (sink_of taken flushed failed) self.old result from.now self.new };

    /// Flushes all bytes that were accepted.
    fn flush(&mut self) -> Result<(), DeviceFault>
        requires { failed self.old < 2 ^ 64 - 1 }
        ensures { Flushes (sink_of taken flushed failed) self.old result self.new };
}
