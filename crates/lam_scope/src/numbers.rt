//! The indices that identify subterms and binders, and where a binder takes its type from.

/// A subterm of a document's commands, by its zero-based index: parts come from left to right, and each term after its parts.
#[derive(Clone, Copy, Debug, PartialEq, Eq)]
pub struct Place(pub usize);

/// A binder of a name or of a type name, by its zero-based index in text order. The one token of a letrec is two binders: first
/// that of the derived lambda, then that of the let.
#[derive(Clone, Copy, Debug, PartialEq, Eq)]
pub struct Binder(pub usize);

/// Where a binder takes its type from.
#[derive(Clone, Copy, Debug, PartialEq, Eq)]
pub enum Origin {
    /// The written type of this lambda.
    Lambda(Place),
    /// This term, which a let or `name = term` binds.
    Term(Place),
    /// The written type of `name : type`, the statement with this zero-based index.
    Declaration(usize),
    /// Nothing: the binder is one of a type name.
    TypeName,
}
