//! Reading of frames.

ghost use Rattle.std.specs.Prelude.{◌≡◌, IfSome, OnOk, ◌-◌, ◌^◌, ◌<◌, ◌≤◌, IfOk, [], length, Ok, Err, None, OnSome};
ghost use Rattle.lam_frame.specs.Device.{source_of};
ghost use Rattle.lam_frame.specs.Header.{body_limit};
ghost use Rattle.lam_frame.specs.Frame.{IsOpen};
ghost use Rattle.lam_frame.specs.Next.{ReadsWhereTold, Progress, Reads, Says, failures_after, state_after, work_left};
ghost use Rattle.lam_frame.specs.inner.Steps.{Moved, PullsMore, end_after, SaysBody, SaysHeader};

use crate::device::Source;
use crate::fault::FrameFault;
use crate::header::{Start, start_of};
use crate::held::Held;
use std::alloc::{AllocError, Global};
use std::marker::Model;

/// The maximum number of pulls of a reader.
const PULL_LIMIT: u64 = 1 << 48;

/// Whether a reader can still read.
#[derive(Clone, Copy, Debug, PartialEq, Eq)]
pub enum State {
    Reading,
    /// The end of the input was returned.
    Ended,
    /// An error was returned.
    Spent,
}

/// Reads frames from a source and returns their bodies.
#[derive(Drop)]
pub struct FrameReader {
    alloc: Global,
    held: Held,
    pulls: u64,
    state: State,
}

// The model is the progress of the reader.
impl Model for FrameReader {
    ghost Value = { Progress };

    ghost view = { λ r. record { held = r.held; pulls = r.pulls; state = r.state } };

    ghost invariant = { λ r. r.pulls ≤ 2 ^ 48 };
}

impl FrameReader {
    /// Creates a reader at the beginning of its input. Later calls allocate with `alloc`.
    pub fn new(alloc: Global) -> Result<FrameReader, AllocError>
        ensures { IfOk result (λ r. r ≡ (record { held = []; pulls = 0; state = State.Reading })) }
    {
        Ok(FrameReader {
            alloc,
            held: Held::new(alloc)?,
            pulls: 0,
            state: State::Reading,
        })
    }

    /// Returns the body of the next frame, or `None` at the end of the input, if that is not inside a frame.
    ///
    /// After the first error every call returns `Spent`. `NoLength`, `BadLength`, `TooLong`, `BadHeader` and `Truncated` are
    /// errors in the bytes. `Device` is returned if a pull of this call failed, `TooManyTurns` before the pull that would exceed
    /// 2^48, and `Memory` if a body could not be allocated.
    pub fn next<S: Source>(&mut self, source: &mut S) -> Result<Option<Vec<u8>>, FrameFault>
        requires { S.failed source.old < 2 ^ 64 - 1 }

        // These two cases do not pull.
        ensures ended { self.old.state ≡ State.Ended → (result ≡ Ok None) × ((self.new ≡ self.old) × (source.new ≡ source.old)) }
        ensures spent { self.old.state ≡ State.Spent → (result ≡ Err FrameFault.Spent) × ((self.new ≡ self.old) × (source.new ≡ source.old)) }

        ensures reads { self.old.state ≡ State.Reading → Reads (source_of S.coming S.failed S.gave) IsOpen (Says (λ b. b.items))
            self.old.held self.old.pulls source.old result self.new.held self.new.pulls source.new }
        ensures told { self.old.state ≡ State.Reading → ReadsWhereTold (λ b. b.items)
            self.old.held (S.coming source.old) result self.new.held (S.coming source.new) }
        ensures state { self.old.state ≡ State.Reading → self.new.state ≡ state_after result }
        ensures failures { S.failed source.new ≡ failures_after result (S.failed source.old) }
        ensures progress { IfOk result (λ o. OnSome o (work_left self.new.pulls self.new.held < work_left self.old.pulls self.old.held)) }
    {
        match self.state {
            State::Ended => Ok(None),
            State::Spent => Err(FrameFault::Spent),
            State::Reading => {
                let answer = read_frame(self.alloc, &mut self.held, &mut self.pulls, source);
                self.state = match &answer {
                    Ok(Some(_)) => State::Reading,
                    Ok(None) => State::Ended,
                    Err(_) => State::Spent,
                };
                answer
            }
        }
    }
}

fn read_frame<S: Source>(
    alloc: Global,
    held: &mut Held,
    pulls: &mut u64,
    source: &mut S,
) -> Result<Option<Vec<u8>>, FrameFault>
    requires few { pulls.old ≤ 2 ^ 48 }
    requires failures { S.failed source.old < 2 ^ 64 - 1 }
    ensures reads { Reads (source_of S.coming S.failed S.gave) IsOpen (Says (λ b. b.items))
        held.old pulls.old source.old result held.new pulls.new source.new }
{
    match read_header(held, pulls, source) {
        Ok(Some(size)) => match read_body(alloc, held, pulls, source, size) {
            Ok(body) => Ok(Some(body)),
            Err(fault) => Err(fault),
        },
        Ok(None) => Ok(None),
        Err(fault) => Err(fault),
    }
}

/// Reads a header part, and returns the length of the body that follows it.
fn read_header<S: Source>(
    held: &mut Held,
    pulls: &mut u64,
    source: &mut S,
) -> Result<Option<usize>, FrameFault>
    requires few { pulls.old ≤ 2 ^ 48 }
    requires failures { S.failed source.old < 2 ^ 64 - 1 }
    ensures reads { Reads (source_of S.coming S.failed S.gave) IsOpen SaysHeader
        held.old pulls.old source.old result held.new pulls.new source.new }
    ensures size { IfOk result (λ o. IfSome o (λ size. size ≤ body_limit)) }
{
    loop {
        match start_of(held.bytes()) {
            Start::Whole { header, size } => {
                held.drop_front(header);
                return Ok(Some(size));
            }
            Start::Faulty(fault) => return Err(fault),
            Start::Open => {}
        }
        match pull_more(held, pulls, source) {
            Ok(0) => return end_of_input(held),
            Ok(_) => {}
            Err(fault) => return Err(fault),
        }
    }
}

/// The result when the input ends before a header part is complete.
fn end_of_input(held: &Held) -> Result<Option<usize>, FrameFault>
    ensures { result ≡ end_after held.now }
{
    if held.bytes().is_empty() {
        Ok(None)
    } else {
        Err(FrameFault::Truncated)
    }
}

/// Reads a body of `size` bytes, which is allocated as the bytes arrive.
fn read_body<S: Source>(
    alloc: Global,
    held: &mut Held,
    pulls: &mut u64,
    source: &mut S,
    size: usize,
) -> Result<Vec<u8>, FrameFault>
    requires few { pulls.old ≤ 2 ^ 48 }
    requires failures { S.failed source.old < 2 ^ 64 - 1 }
    ensures { Reads (source_of S.coming S.failed S.gave) (λ heard. length heard < size) (SaysBody (λ b. b.items) size)
        held.old pulls.old source.old result held.new pulls.new source.new }
{
    let mut body = Vec::new(alloc);
    loop {
        let Ok(()) = move_bytes(held, &mut body, size) else {
            return Err(FrameFault::Memory);
        };
        if body.len() == size {
            return Ok(body);
        }
        match pull_more(held, pulls, source) {
            Ok(0) => return Err(FrameFault::Truncated),
            Ok(_) => {}
            Err(fault) => return Err(fault),
        }
    }
}

/// Moves bytes from the front of `held` to the end of `body`, as many as it lacks.
fn move_bytes(held: &mut Held, body: &mut Vec<u8>, size: usize) -> Result<(), AllocError>
    requires { length body.old.items ≤ size }
    ensures { OnOk result (Moved body.old.items held.old size body.new.items held.new) }
{
    let bytes = held.bytes();
    let count = bytes.len().min(size - body.len());
    body.extend_from_slice(&bytes[..count])?;
    held.drop_front(count);
    Ok(())
}

/// Pulls once more into the buffer, unless the limit is reached.
fn pull_more<S: Source>(
    held: &mut Held,
    pulls: &mut u64,
    source: &mut S,
) -> Result<usize, FrameFault>
    requires room { length held.old < 65536 }
    requires few { pulls.old ≤ 2 ^ 48 }
    requires failures { S.failed source.old < 2 ^ 64 - 1 }
    ensures { PullsMore (source_of S.coming S.failed S.gave) held.old pulls.old source.old result held.new pulls.new source.new }
{
    if *pulls == PULL_LIMIT {
        return Err(FrameFault::TooManyTurns);
    }
    match held.pull(source) {
        Ok(count) => {
            *pulls += 1;
            Ok(count)
        }
        Err(_) => Err(FrameFault::Device),
    }
}
