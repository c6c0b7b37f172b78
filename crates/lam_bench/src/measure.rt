//! The measures by name.

use crate::fault::BenchFault;
use crate::frames::reading;
use crate::texts::{ASCII, UMLAUTS, Work, working};
use crate::types::{adding, bounding};
use std::alloc::Global;
use std::rt::Clock;
use std::time::Duration;

/// A piece size at which a source yields all its bytes in one pull.
const WHOLE: usize = usize::MAX;

/// The body size of a frame of 60 bytes, whose header part has 22.
const SMALL_BODY: usize = 38;

#[derive(Clone, Copy)]
pub enum Measure {
    /// One frame with a body of SIZE bytes, pulled in pieces of this many.
    OneFrame(usize),
    /// SIZE frames of 60 bytes each.
    SmallFrames,
    /// A text of SIZE bytes.
    Text(Work, &'static str),
    /// Adding a record type of SIZE fields to a table.
    AddType,
    /// The bounds of two types that were doubled SIZE times.
    Bounds,
}

/// All measures by their names on the command line.
pub static MEASURES: [(&str, Measure); 13] = [
    ("whole-body", Measure::OneFrame(WHOLE)),
    ("body-by-bytes", Measure::OneFrame(1)),
    ("small-frames", Measure::SmallFrames),
    ("open-ascii", Measure::Text(Work::Open, ASCII)),
    ("open-umlauts", Measure::Text(Work::Open, UMLAUTS)),
    ("edit-ascii", Measure::Text(Work::Edit, ASCII)),
    ("edit-umlauts", Measure::Text(Work::Edit, UMLAUTS)),
    ("offsets-ascii", Measure::Text(Work::Offsets, ASCII)),
    ("offsets-umlauts", Measure::Text(Work::Offsets, UMLAUTS)),
    ("positions-ascii", Measure::Text(Work::Positions, ASCII)),
    ("positions-umlauts", Measure::Text(Work::Positions, UMLAUTS)),
    ("add-type", Measure::AddType),
    ("bounds", Measure::Bounds),
];

/// Returns the measure with this name.
pub fn measure_named(name: &str) -> Option<Measure> {
    for (known, measure) in MEASURES.as_slice() {
        if name == *known {
            return Some(*measure);
        }
    }
    None
}

impl Measure {
    /// Returns the time that the measure takes at this size.
    pub fn take(
        self,
        alloc: Global,
        clock: &impl Clock,
        size: usize,
    ) -> Result<Duration, BenchFault> {
        match self {
            Measure::OneFrame(step) => reading(alloc, clock, size, 1, step),
            Measure::SmallFrames => reading(alloc, clock, SMALL_BODY, size, WHOLE),
            Measure::Text(work, line) => working(alloc, clock, work, line, size),
            Measure::AddType => adding(alloc, clock, size),
            Measure::Bounds => bounding(alloc, clock, size),
        }
    }
}
