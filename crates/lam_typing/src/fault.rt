//! Errors of an analysis.

use lam_scope::Place;
use thiserror::Error;

/// Why a document could not be analysed.
#[derive(Debug, Drop, Error)]
pub enum TypingFault {
    /// The least type of this subterm is over the size limit of 4,096 nodes; it is the first such subterm.
    #[error("type of more than 4096 nodes")]
    TooLarge(Place),
    /// Allocation failed.
    #[error("out of memory")]
    Memory,
}
