//! Diagnostics of written types.

use lam_token::Span;

/// A diagnostic of a written type, with its span.
#[derive(Clone, Copy, Debug, PartialEq, Eq)]
pub enum TypeFault {
    /// A type name that no earlier command binds.
    UnboundTypeName(Span),
    /// A label that an earlier field of the record type has too.
    RepeatedLabel(Span),
}
