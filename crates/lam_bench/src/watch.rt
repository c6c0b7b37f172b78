//! A stopwatch on the runtime's clock.

use crate::fault::BenchFault;
use std::rt::Clock;
use std::time::{Duration, Instant};

#[derive(Clone, Copy)]
pub struct Watch {
    /// `None` if the clock could not be read.
    start: Option<Instant>,
}

impl Watch {
    /// Starts the stopwatch.
    pub fn start(clock: &impl Clock) -> Watch {
        Watch {
            start: Instant::now(clock).ok(),
        }
    }

    /// Returns the time since the start, or an error if the result was not right.
    pub fn stop(self, clock: &impl Clock, answered: bool) -> Result<Duration, BenchFault> {
        let Some(start) = self.start else {
            return Err(BenchFault::Io);
        };
        let taken = start.elapsed(clock)?;
        if answered {
            Ok(taken)
        } else {
            Err(BenchFault::Answer)
        }
    }
}
