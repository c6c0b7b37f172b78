//! Names and the binders of names, with their spans.
use crate::text::Text;
use lam_token::Span;

/// A name, a type name, a label or a numeral, with the span of its token.
#[derive(Drop)]
pub struct Identifier {
    pub text: Text,
    pub span: Span,
}

/// A binder of a term, with the span of its token. `_` has no name.
#[derive(Drop)]
pub struct Binder {
    pub name: Option<Text>,
    pub span: Span,
}
