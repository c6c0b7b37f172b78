//! Errors of renaming a binder.
ghost use Rattle.std.specs.Prelude.{◌≡◌};
ghost use Rattle.lam_scope.specs.declared.rename_fault.RenameFault.TheVariants.{Memory};

use std::alloc::{AllocError, AllocFailed};

/// Why a binder and its uses can't be renamed.
#[derive(Clone, Copy, Debug, PartialEq, Eq)]
pub enum RenameFault {
    /// The new text is not a single token that can be a name or a type name.
    NotAName,
    /// The new name is a type name and the binder is one of a name, or the other way round.
    WrongKind,
    /// With the new name, some name or type name would be bound differently.
    ChangesBinding,
    Memory,
}

impl From<AllocError> for RenameFault {
    ghost from_gives = { λ _ fault. fault ≡ Memory };

    fn from(_refused: AllocError) -> RenameFault {
        RenameFault::Memory
    }
}

impl<T: Drop> From<AllocFailed<T>> for RenameFault {
    ghost from_gives = { λ _ fault. fault ≡ Memory };

    fn from(_refused: AllocFailed<T>) -> RenameFault {
        RenameFault::Memory
    }
}
