//! Errors of reading and writing frames.

use thiserror::Error;

/// An error of reading or writing a frame. In a header part, invalid bytes are reported before invalid lines (LSP 3.17, "Header
/// Part").
#[derive(Clone, Copy, Debug, PartialEq, Eq, Error)]
pub enum FrameFault {
    /// There is no `Content-Length` line.
    #[error("F1 NoLength")]
    NoLength,
    /// `Content-Length` occurs twice, or its value is not a number of at most 19 digits.
    #[error("F2 BadLength")]
    BadLength,
    /// The body would be longer than 67,108,864 bytes.
    #[error("F3 TooLong")]
    TooLong,
    /// The header part has a byte that is not allowed or a line without a colon, or is longer than 4,096 bytes.
    #[error("F4 BadHeader")]
    BadHeader,
    /// The input ends inside a frame.
    #[error("F5 Truncated")]
    Truncated,
    /// The device failed during this call.
    #[error("F6 Device")]
    Device,
    /// An allocation failed.
    #[error("F7 Memory")]
    Memory,
    /// The limit of 2^48 pulls was reached.
    #[error("F8 TooManyTurns")]
    TooManyTurns,
    /// An earlier call returned an error.
    #[error("F9 Spent")]
    Spent,
}
