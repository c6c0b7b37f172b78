//! Terms and commands as written in the source.
ghost use Rattle.std.specs.Prelude.{◌≡◌, IfOk};
ghost use Rattle.lam_syntax.specs.Trees.{from_to, term_span, type_span, term_tree, lambda, if_term, let_term, letrec_term, apply, project, ascribe, record_term, spanning_term};
ghost use Rattle.lam_syntax.specs.Views.{word_of, bound_of, type_of, term_of, fields_of};
ghost use Rattle.lam_syntax.specs.inner.Reads.{prefixed_by};

use crate::identifier::{Binder, Identifier};
use crate::spans::from_to;
use crate::types::WrittenTy;
use lam_token::Span;
use std::alloc::{AllocError, Global};

/// A term. Its span includes the parentheses around it.
#[cycle(terms)]
pub struct Tm {
    pub span: Span,
    pub node: TmNode,
}

/// A separate function, so that code which drops a term calls it instead of handling all kinds of terms itself.
impl Drop for Tm {
    #[cycle(terms)]
    fn drop(self) {
        let Tm { span: _, node: _ } = self;
    }
}

/// The keywords that may precede a path.
#[derive(Clone, Copy, Debug, PartialEq, Eq)]
pub enum Prefix {
    Fix,
    Succ,
    Pred,
    IsZero,
}

/// The kind of a term. Names and numerals are stored in the node itself, and the parts of other terms are boxed, so that
/// a node is no larger than a name.
#[cycle(terms)]
#[derive(Drop)]
pub enum TmNode {
    True,
    False,
    Unit,
    Variable(Identifier),
    Numeral(Identifier),
    Lambda(Box<Lambda>),
    If(Box<Conditional>),
    Let(Box<Let>),
    Letrec(Box<Letrec>),
    Prefixed(Prefix, Box<Tm>),
    Apply(Box<Application>),
    Project(Box<Projection>),
    Ascribe(Box<Ascription>),
    Record(Vec<TmField>),
}

/// `lambda binder : ty . body`
#[cycle(terms)]
#[derive(Drop)]
pub struct Lambda {
    pub binder: Binder,
    pub ty: WrittenTy,
    pub body: Tm,
}

/// `if condition then then_term else else_term`
#[cycle(terms)]
#[derive(Drop)]
pub struct Conditional {
    pub condition: Tm,
    pub then_term: Tm,
    pub else_term: Tm,
}

/// `let binder = bound in body`
#[cycle(terms)]
#[derive(Drop)]
pub struct Let {
    pub binder: Binder,
    pub bound: Tm,
    pub body: Tm,
}

/// `letrec binder : ty = bound in body`
#[cycle(terms)]
#[derive(Drop)]
pub struct Letrec {
    pub binder: Binder,
    pub ty: WrittenTy,
    pub bound: Tm,
    pub body: Tm,
}

/// `function argument`
#[cycle(terms)]
#[derive(Drop)]
pub struct Application {
    pub function: Tm,
    pub argument: Tm,
}

/// `record . label`
#[cycle(terms)]
#[derive(Drop)]
pub struct Projection {
    pub record: Tm,
    pub label: Identifier,
}

/// `operand as ty`
#[cycle(terms)]
#[derive(Drop)]
pub struct Ascription {
    pub operand: Tm,
    pub ty: WrittenTy,
}

/// A field of a record: a label and its term.
#[cycle(terms)]
#[derive(Drop)]
pub struct TmField {
    pub label: Identifier,
    pub term: Tm,
}

/// A command.
#[derive(Drop)]
pub enum Command {
    /// `name = term`
    Definition(Identifier, Tm),
    /// `name : type`
    Declaration(Identifier, WrittenTy),
    /// `TypeName = type`
    Abbreviation(Identifier, WrittenTy),
    Evaluation(Tm),
}

impl Tm {
    /// Replaces the span of the term by that of the parentheses around it.
    pub(crate) fn spanning(self, first: Span, last: Span) -> Tm
        ensures { term_of result ≡ spanning_term (from_to first last) (term_of self) }
    {
        let Tm { span: _, node } = self;
        Tm {
            span: from_to(first, last),
            node,
        }
    }
}

/// Makes a lambda.
#[tactic(auto, using(crate::proofs::Shapes::term_shapes))]
pub(crate) fn make_lambda(
    alloc: Global,
    first: Span,
    binder: Binder,
    ty: WrittenTy,
    body: Tm,
) -> Result<Tm, AllocError>
    ensures { IfOk result (λ t. term_of t ≡ term_tree (from_to first (term_span (term_of body))) (lambda (bound_of binder) (type_of ty) (term_of body))) }
{
    let span = from_to(first, body.span);
    let lambda = Lambda { binder, ty, body };
    Ok(Tm {
        span,
        node: TmNode::Lambda(Box::new(alloc, lambda)?),
    })
}

/// Makes a conditional.
#[tactic(auto, using(crate::proofs::Shapes::term_shapes))]
pub(crate) fn make_if(
    alloc: Global,
    first: Span,
    condition: Tm,
    then_term: Tm,
    else_term: Tm,
) -> Result<Tm, AllocError>
    ensures { IfOk result (λ t. term_of t ≡ term_tree (from_to first (term_span (term_of else_term))) (if_term (term_of condition) (term_of then_term) (term_of else_term))) }
{
    let span = from_to(first, else_term.span);
    let conditional = Conditional {
        condition,
        then_term,
        else_term,
    };
    Ok(Tm {
        span,
        node: TmNode::If(Box::new(alloc, conditional)?),
    })
}

/// Makes a `let`.
#[tactic(auto, using(crate::proofs::Shapes::term_shapes))]
pub(crate) fn make_let(
    alloc: Global,
    first: Span,
    binder: Binder,
    bound: Tm,
    body: Tm,
) -> Result<Tm, AllocError>
    ensures { IfOk result (λ t. term_of t ≡ term_tree (from_to first (term_span (term_of body))) (let_term (bound_of binder) (term_of bound) (term_of body))) }
{
    let span = from_to(first, body.span);
    let parts = Let {
        binder,
        bound,
        body,
    };
    Ok(Tm {
        span,
        node: TmNode::Let(Box::new(alloc, parts)?),
    })
}

/// Makes a `letrec`.
#[tactic(auto, using(crate::proofs::Shapes::term_shapes))]
pub(crate) fn make_letrec(
    alloc: Global,
    first: Span,
    binder: Binder,
    ty: WrittenTy,
    bound: Tm,
    body: Tm,
) -> Result<Tm, AllocError>
    ensures { IfOk result (λ t. term_of t ≡ term_tree (from_to first (term_span (term_of body))) (letrec_term (bound_of binder) (type_of ty) (term_of bound) (term_of body))) }
{
    let span = from_to(first, body.span);
    let parts = Letrec {
        binder,
        ty,
        bound,
        body,
    };
    Ok(Tm {
        span,
        node: TmNode::Letrec(Box::new(alloc, parts)?),
    })
}

/// Applies the prefix to the term, if there is one.
#[tactic(auto, using(crate::proofs::Shapes::term_shapes))]
pub(crate) fn with_prefix(
    alloc: Global,
    prefix: Option<(Prefix, Span)>,
    term: Tm,
) -> Result<Tm, AllocError>
    ensures { IfOk result (λ t. term_of t ≡ prefixed_by prefix (term_of term)) }
{
    match prefix {
        None => Ok(term),
        Some((prefix, first)) => {
            let span = from_to(first, term.span);
            Ok(Tm {
                span,
                node: TmNode::Prefixed(prefix, Box::new(alloc, term)?),
            })
        }
    }
}

/// Makes an application.
#[tactic(auto, using(crate::proofs::Shapes::term_shapes))]
pub(crate) fn make_apply(alloc: Global, function: Tm, argument: Tm) -> Result<Tm, AllocError>
    ensures { IfOk result (λ t. term_of t ≡ term_tree (from_to (term_span (term_of function)) (term_span (term_of argument))) (apply (term_of function) (term_of argument))) }
{
    let span = from_to(function.span, argument.span);
    let application = Application { function, argument };
    Ok(Tm {
        span,
        node: TmNode::Apply(Box::new(alloc, application)?),
    })
}

/// Makes a projection.
#[tactic(auto, using(crate::proofs::Shapes::term_shapes))]
pub(crate) fn make_project(alloc: Global, term: Tm, label: Identifier) -> Result<Tm, AllocError>
    ensures { IfOk result (λ t. term_of t ≡ term_tree (from_to (term_span (term_of term)) label.span) (project (term_of term) (word_of label))) }
{
    let span = from_to(term.span, label.span);
    let projection = Projection {
        record: term,
        label,
    };
    Ok(Tm {
        span,
        node: TmNode::Project(Box::new(alloc, projection)?),
    })
}

/// Makes an ascription.
#[tactic(auto, using(crate::proofs::Shapes::term_shapes))]
pub(crate) fn make_ascribe(alloc: Global, term: Tm, ty: WrittenTy) -> Result<Tm, AllocError>
    ensures { IfOk result (λ t. term_of t ≡ term_tree (from_to (term_span (term_of term)) (type_span (type_of ty))) (ascribe (term_of term) (type_of ty))) }
{
    let span = from_to(term.span, ty.span);
    let ascription = Ascription { operand: term, ty };
    Ok(Tm {
        span,
        node: TmNode::Ascribe(Box::new(alloc, ascription)?),
    })
}

/// Makes a record of these fields, given the spans of its braces.
#[tactic(auto, using(crate::proofs::Shapes::term_shapes))]
pub(crate) fn make_record(first: Span, last: Span, fields: Vec<TmField>) -> Tm
    ensures { term_of result ≡ term_tree (from_to first last) (record_term (fields_of fields.items)) }
{
    Tm {
        span: from_to(first, last),
        node: TmNode::Record(fields),
    }
}
