//! Why parsing a construct stops.
ghost use Rattle.std.specs.Prelude.{◌≡◌};
ghost use Rattle.lam_syntax.specs.declared.stop.Stop.TheVariants.{Memory};

use lam_token::Token;
use std::alloc::{AllocError, AllocFailed};

/// Why parsing stops: the first of these tokens does not fit, or allocation failed.
#[derive(Drop)]
pub(crate) enum Stop<'a, 'b> {
    At(&'a [Token<'b>]),
    Memory,
}

impl<'a, 'b> From<AllocError> for Stop<'a, 'b> {
    ghost from_gives = { λ _ e. e ≡ Memory };

    fn from(_error: AllocError) -> Stop<'a, 'b> {
        Stop::Memory
    }
}

impl<'a, 'b, T: Drop> From<AllocFailed<T>> for Stop<'a, 'b> {
    ghost from_gives = { λ _ e. e ≡ Memory };

    fn from(_error: AllocFailed<T>) -> Stop<'a, 'b> {
        Stop::Memory
    }
}
