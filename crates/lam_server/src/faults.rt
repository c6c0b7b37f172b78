//! Errors that end a run without an exit status from the session, and the exit statuses for them.

ghost use Rattle.std.specs.Prelude.{◌≡◌};
ghost use Rattle.lam_server.specs.Program.{fault_of_run, line_of, status_of};
ghost use Rattle.lam_server.specs.declared.faults.RunFault.TheVariants.{Memory};

use lam_frame::FrameFault;
use std::alloc::AllocError;
use thiserror::Error;

/// Why a run ends without an exit status from the session.
#[derive(Clone, Copy, Debug, PartialEq, Eq, Error)]
pub enum RunFault {
    /// The bytes after the answered messages do not begin with a frame, for one of five reasons: `NoLength`, `BadLength`,
    /// `TooLong`, `BadHeader`, `Truncated`.
    #[error("{0}")]
    Header(FrameFault),
    /// A device failed, or the limit of 2^48 pulls was reached.
    #[error("F6 Device")]
    Device,
    /// An allocation failed.
    #[error("F7 Memory")]
    Memory,
}

impl From<AllocError> for RunFault {
    ghost from_gives = { λ _ made. made ≡ Memory };

    fn from(_refused: AllocError) -> RunFault {
        RunFault::Memory
    }
}

impl From<FrameFault> for RunFault {
    ghost from_gives = { λ fault made. made ≡ fault_of_run fault };

    fn from(fault: FrameFault) -> RunFault {
        match fault {
            FrameFault::Device | FrameFault::TooManyTurns | FrameFault::Spent => RunFault::Device,
            FrameFault::Memory => RunFault::Memory,
            _ => RunFault::Header(fault),
        }
    }
}

/// Returns the exit status of the program.
pub fn status_of(fault: &RunFault) -> u8
    ensures { result ≡ status_of fault.now }
{
    match *fault {
        RunFault::Header(header) => match header {
            FrameFault::Device | FrameFault::TooManyTurns | FrameFault::Spent => 4,
            FrameFault::Memory => 5,
            _ => 3,
        },
        RunFault::Device => 4,
        RunFault::Memory => 5,
    }
}

/// Returns the line that the program writes to standard error, without its line feed.
pub fn line_of(fault: &RunFault) -> &'static str
    ensures { result.now ≡ line_of fault.now }
{
    match *fault {
        RunFault::Header(header) => match header {
            FrameFault::NoLength => "lam_server: F1 NoLength",
            FrameFault::BadLength => "lam_server: F2 BadLength",
            FrameFault::TooLong => "lam_server: F3 TooLong",
            FrameFault::BadHeader => "lam_server: F4 BadHeader",
            FrameFault::Truncated => "lam_server: F5 Truncated",
            FrameFault::Device | FrameFault::TooManyTurns | FrameFault::Spent => {
                "lam_server: F6 Device"
            }
            FrameFault::Memory => "lam_server: F7 Memory",
        },
        RunFault::Device => "lam_server: F6 Device",
        RunFault::Memory => "lam_server: F7 Memory",
    }
}
