//! Reading of frames that arrive in pieces.

use crate::fault::BenchFault;
use crate::watch::Watch;
use lam_frame::{BytesOut, DeviceFault, FrameReader, Source, write_frame};
use std::alloc::Global;
use std::rt::Clock;
use std::time::Duration;

/// A source that yields at most `step` bytes per pull.
#[derive(Drop)]
struct Pieces<'a> {
    rest: &'a [u8],
    step: usize,
}

impl Source for Pieces<'_> {
    ghost failed = { λ _. 0 };

    ghost gave = { λ _ _ _. Unit {0} };

    fn failures(&self) -> u64 {
        0
    }

    fn pull(&mut self, into: &mut [u8]) -> Result<usize, DeviceFault> {
        let count = self.step.min(into.len()).min(self.rest.len());
        let (piece, rest) = self.rest.split_at(count);
        into[..count].copy_from_slice(piece);
        self.rest = rest;
        Ok(count)
    }
}

/// A frame with a body of `size` bytes.
fn frame(alloc: Global, size: usize) -> Result<BytesOut, BenchFault> {
    let body = vec![in alloc; b'.'; size]?;
    let mut frame = BytesOut::new(alloc);
    write_frame(&mut frame, &body)?;
    Ok(frame)
}

/// This many frames with bodies of `size` bytes.
fn frames(alloc: Global, size: usize, count: usize) -> Result<Vec<u8>, BenchFault> {
    let frame = frame(alloc, size)?;
    let mut input = Vec::new(alloc);
    for _ in 0..count {
        input.extend_from_slice(frame.bytes())?;
    }
    Ok(input)
}

/// Returns the time it takes to read this many bodies of `size` bytes, pulled in pieces of `step` bytes.
pub fn reading(
    alloc: Global,
    clock: &impl Clock,
    size: usize,
    count: usize,
    step: usize,
) -> Result<Duration, BenchFault> {
    let input = frames(alloc, size, count)?;
    let watch = Watch::start(clock);
    read_all(alloc, &input, step, count)?;
    watch.stop(clock, true)
}

/// Reads this many bodies and then the end of the input.
fn read_all(alloc: Global, input: &[u8], step: usize, count: usize) -> Result<(), BenchFault> {
    let mut source = Pieces { rest: input, step };
    let mut reader = FrameReader::new(alloc)?;
    for _ in 0..count {
        read_one(&mut reader, &mut source, true)?;
    }
    read_one(&mut reader, &mut source, false)
}

/// Reads a body if one is due, or else the end of the input.
fn read_one(
    reader: &mut FrameReader,
    source: &mut Pieces<'_>,
    is_due: bool,
) -> Result<(), BenchFault> {
    if reader.next(source)?.is_some() == is_due {
        Ok(())
    } else {
        Err(BenchFault::Answer)
    }
}
