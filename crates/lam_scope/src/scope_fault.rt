//! Errors of building the nameless form.
ghost use Rattle.std.specs.Prelude.{◌≡◌};
ghost use Rattle.lam_scope.specs.declared.scope_fault.ScopeFault.TheVariants.{Memory};

use lam_token::Span;
use std::alloc::{AllocError, AllocFailed};

/// Why no nameless form was built.
#[derive(Clone, Copy, Debug, PartialEq, Eq)]
pub enum ScopeFault {
    /// The written type at this span is the first whose expansion has more than 4,096 nodes.
    TooLarge(Span),
    Memory,
}

impl From<AllocError> for ScopeFault {
    ghost from_gives = { λ _ fault. fault ≡ Memory };

    fn from(_refused: AllocError) -> ScopeFault {
        ScopeFault::Memory
    }
}

impl<T: Drop> From<AllocFailed<T>> for ScopeFault {
    ghost from_gives = { λ _ fault. fault ≡ Memory };

    fn from(_refused: AllocFailed<T>) -> ScopeFault {
        ScopeFault::Memory
    }
}
