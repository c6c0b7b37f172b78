//! Errors of a measurement.

use lam_frame::FrameFault;
use std::alloc::AllocError;
use std::io;

#[derive(Clone, Copy, Debug)]
pub enum BenchFault {
    /// The arguments name no measure or no size.
    Words,
    /// The measured operation gave a wrong result.
    Answer,
    Memory,
    Frame,
    /// The arguments, the clock or standard error failed.
    Io,
}

impl From<AllocError> for BenchFault {
    fn from(_fault: AllocError) -> BenchFault {
        BenchFault::Memory
    }
}

impl From<FrameFault> for BenchFault {
    fn from(_fault: FrameFault) -> BenchFault {
        BenchFault::Frame
    }
}

impl From<io::Error> for BenchFault {
    fn from(_fault: io::Error) -> BenchFault {
        BenchFault::Io
    }
}
