//! Texts to open, to edit and to convert positions in, with UTF-16 columns.

use crate::fault::BenchFault;
use crate::watch::Watch;
use lam_text::{Change, Doc, Encoding, Position, Range};
use std::alloc::{AllocError, Global};
use std::rt::Clock;
use std::time::Duration;

const LINE_BYTES: usize = 64;

/// A line of 64 bytes, all ASCII.
pub const ASCII: &str = "total = succ (size {left=0, right=true, name=unit}) /* sums */;\n";

/// A line of 64 bytes, some of them in two-byte characters.
pub const UMLAUTS: &str = "größe = succ (maß {länge=0, höhe=true, ä=unit}) /* ß */;\n";

/// The column of all positions.
const COLUMN: u64 = 40;

/// The number of positions in one measurement.
const POSITIONS: u64 = 100_000;

/// The operation that is timed on a text.
#[derive(Clone, Copy)]
pub enum Work {
    Open,
    /// Typing a letter in the middle.
    Edit,
    /// The offsets of a hundred thousand positions.
    Offsets,
    /// Those offsets, and their positions.
    Positions,
}

/// Returns the time that an operation takes on a text of such lines, with at most this many bytes.
pub fn working(
    alloc: Global,
    clock: &impl Clock,
    work: Work,
    line: &str,
    size: usize,
) -> Result<Duration, BenchFault> {
    let count = size / LINE_BYTES;
    let text = repeated(alloc, line, count)?;
    match work {
        Work::Open => opening(alloc, clock, text.as_str()),
        _ => using(alloc, clock, work, text.as_str(), count as u64),
    }
}

fn opening(alloc: Global, clock: &impl Clock, text: &str) -> Result<Duration, BenchFault> {
    let watch = Watch::start(clock);
    let doc = Doc::new(alloc, text, Encoding::Utf16)?;
    watch.stop(clock, doc.text().len() == text.len())
}

/// The time that an operation takes on an open text of this many lines.
fn using(
    alloc: Global,
    clock: &impl Clock,
    work: Work,
    text: &str,
    lines: u64,
) -> Result<Duration, BenchFault> {
    let mut doc = Doc::new(alloc, text, Encoding::Utf16)?;
    let watch = Watch::start(clock);
    let answered = works(alloc, &mut doc, work, lines)?;
    watch.stop(clock, answered)
}

/// Runs an operation on a text of this many lines, and returns whether the results are right.
fn works(alloc: Global, doc: &mut Doc, work: Work, lines: u64) -> Result<bool, AllocError> {
    match work {
        Work::Open => Ok(true),
        Work::Edit => type_a_letter(alloc, doc, lines / 2),
        Work::Offsets => Ok(offsets_fit(doc, lines)),
        Work::Positions => Ok(positions_return(doc, lines)),
    }
}

fn repeated(alloc: Global, line: &str, count: usize) -> Result<String, AllocError> {
    let mut text = String::new(alloc);
    for _ in 0..count {
        text.push_str(line)?;
    }
    Ok(text)
}

/// Types one letter into a line, and returns whether the text became longer.
fn type_a_letter(alloc: Global, doc: &mut Doc, line: u64) -> Result<bool, AllocError> {
    let before = doc.text().len();
    let place = Position {
        line,
        character: COLUMN,
    };
    let letter = Change {
        range: Some(Range {
            start: place,
            end: place,
        }),
        text: String::from_str(alloc, "x")?,
    };
    doc.apply(&[letter])?;
    Ok(doc.text().len() > before)
}

/// Whether the offset of each position is within the text.
fn offsets_fit(doc: &Doc, lines: u64) -> bool {
    let length = doc.text().len();
    let mut all = true;
    for number in 0..POSITIONS {
        let offset = doc.offset_of(position(number, lines));
        all = all && offset <= length;
    }
    all
}

/// Whether the offset of each position leads back to it.
fn positions_return(doc: &Doc, lines: u64) -> bool {
    let mut all = true;
    for number in 0..POSITIONS {
        let place = position(number, lines);
        all = all && doc.position_of(doc.offset_of(place)) == place;
    }
    all
}

/// A position on one of these lines, scattered by `number`.
fn position(number: u64, lines: u64) -> Position {
    let scattered = number.wrapping_mul(7919);
    Position {
        line: scattered.checked_rem(lines).unwrap_or(0),
        character: COLUMN,
    }
}
