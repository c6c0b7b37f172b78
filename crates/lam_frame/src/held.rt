//! The buffer of bytes that were pulled but not yet used.

ghost use Rattle.std.specs.Prelude.{◌≡◌, ◌-◌, ◌^◌, ◌<◌, ◌≤◌, IfOk, List, ℕ, [], drop, length, take};
ghost use Rattle.lam_frame.specs.Device.{source_of};
ghost use Rattle.lam_frame.specs.inner.Steps.{PullsBehind};

use crate::device::{DeviceFault, Source};
use std::alloc::{AllocError, Global};
use std::marker::Model;

/// The maximum number of bytes that one pull requests.
const CHUNK: usize = 65_536;

/// The bytes of a chunk from `start` to `end`.
#[derive(Drop)]
pub(crate) struct Held {
    chunk: Vec<u8>,
    start: usize,
    end: usize,
}

// The model is these bytes.
impl Model for Held {
    ghost Value = { List ℕ };

    ghost view = { λ h. take (h.end - h.start) (drop h.start h.chunk.items) };

    ghost invariant = { λ h. (h.start ≤ h.end) × ((h.end ≤ 65536) × (length h.chunk.items ≡ 65536)) };
}

impl Held {
    /// An empty buffer, with room for a chunk.
    pub(crate) fn new(alloc: Global) -> Result<Held, AllocError>
        ensures { IfOk result (λ h. h ≡ []) }
    {
        let chunk = vec![in alloc; 0; CHUNK]?;
        Ok(Held {
            chunk,
            start: 0,
            end: 0,
        })
    }

    /// The bytes in the buffer.
    pub(crate) fn bytes(&self) -> &[u8]
        ensures { result.now ≡ self.now }
    {
        &self.chunk[self.start..self.end]
    }

    /// Removes bytes from the front.
    pub(crate) fn drop_front(&mut self, count: usize)
        requires { count ≤ length self.old }
        ensures { self.new ≡ drop count self.old }
    {
        self.start += count;
    }

    /// Moves the bytes to the front of the chunk to make room after them, and pulls once.
    pub(crate) fn pull<S: Source>(&mut self, source: &mut S) -> Result<usize, DeviceFault>
        requires room { length self.old < 65536 }
        requires failures { S.failed source.old < 2 ^ 64 - 1 }
        ensures { PullsBehind (source_of S.coming S.failed S.gave) self.old source.old result self.new source.new }
    {
        self.chunk.copy_within(self.start..self.end, 0);
        self.end -= self.start;
        self.start = 0;
        match source.pull(&mut self.chunk[self.end..]) {
            Ok(count) => {
                self.end += count;
                Ok(count)
            }
            Err(fault) => Err(fault),
        }
    }
}
