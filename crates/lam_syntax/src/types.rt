//! Types as written in the source.
ghost use Rattle.std.specs.Prelude.{◌≡◌, IfOk};
ghost use Rattle.lam_syntax.specs.Trees.{from_to, type_span, type_tree, arrow, record_type, spanning_type};
ghost use Rattle.lam_syntax.specs.Views.{type_of, type_fields_of};

use crate::identifier::Identifier;
use crate::spans::from_to;
use lam_token::Span;
use std::alloc::{AllocError, Global};

/// A type as written in the source. Its span includes the parentheses around it.
#[cycle(types)]
pub struct WrittenTy {
    pub span: Span,
    pub node: TyNode,
}

/// A separate function, so that code which drops a type calls it instead of handling all kinds of types itself.
impl Drop for WrittenTy {
    #[cycle(types)]
    fn drop(self) {
        let WrittenTy { span: _, node: _ } = self;
    }
}

/// The kind of a written type.
#[cycle(types)]
#[derive(Drop)]
pub enum TyNode {
    Bool,
    Nat,
    Unit,
    Top,
    Named(Identifier),
    Arrow(Box<ArrowTy>),
    Record(Vec<TyField>),
}

/// `parameter -> outcome`
#[cycle(types)]
#[derive(Drop)]
pub struct ArrowTy {
    pub parameter: WrittenTy,
    pub outcome: WrittenTy,
}

/// A field of a record type: a label and its type.
#[cycle(types)]
#[derive(Drop)]
pub struct TyField {
    pub label: Identifier,
    pub ty: WrittenTy,
}

impl WrittenTy {
    /// Replaces the span of the type by that of the parentheses around it.
    pub(crate) fn spanning(self, first: Span, last: Span) -> WrittenTy
        ensures { type_of result ≡ spanning_type (from_to first last) (type_of self) }
    {
        let WrittenTy { span: _, node } = self;
        WrittenTy {
            span: from_to(first, last),
            node,
        }
    }
}

/// Makes an arrow type.
#[tactic(auto, using(crate::proofs::Shapes::type_shapes))]
pub(crate) fn make_arrow(
    alloc: Global,
    parameter: WrittenTy,
    outcome: WrittenTy,
) -> Result<WrittenTy, AllocError>
    ensures { IfOk result (λ t. type_of t ≡ type_tree (from_to (type_span (type_of parameter)) (type_span (type_of outcome))) (arrow (type_of parameter) (type_of outcome))) }
{
    let span = from_to(parameter.span, outcome.span);
    let arrow = ArrowTy { parameter, outcome };
    Ok(WrittenTy {
        span,
        node: TyNode::Arrow(Box::new(alloc, arrow)?),
    })
}

/// Makes a record type of these fields, given the spans of its braces.
#[tactic(auto, using(crate::proofs::Shapes::type_shapes))]
pub(crate) fn make_record_type(first: Span, last: Span, fields: Vec<TyField>) -> WrittenTy
    ensures { type_of result ≡ type_tree (from_to first last) (record_type (type_fields_of fields.items)) }
{
    WrittenTy {
        span: from_to(first, last),
        node: TyNode::Record(fields),
    }
}
