//! Constructors of interned terms from their parts.
ghost use Rattle.std.specs.Prelude.{◌≡◌, IfOk};
ghost use Rattle.lam_scope.specs.Numbered.{if_then_else, lambda, apply, ascribe, let_in, project, fix};
ghost use Rattle.lam_scope.specs.InternedViews.{numbered_of};
ghost use Rattle.lam_scope.specs.inner.Interned.{prefixed_numbers};

use crate::interned::InternedTerm;
use lam_rules::TyNo;
use lam_syntax::Prefix;
use std::alloc::{AllocError, Global};

/// Makes an if.
#[tactic(auto, using(crate::proofs::InternedShapes::numbered_shapes))]
pub(crate) fn make_if<'a>(
    alloc: Global,
    condition: InternedTerm<'a>,
    then_term: InternedTerm<'a>,
    else_term: InternedTerm<'a>,
) -> Result<InternedTerm<'a>, AllocError>
    ensures { IfOk result (λ made. numbered_of made ≡ if_then_else (numbered_of condition.entry) (numbered_of then_term.entry) (numbered_of else_term.entry)) }
{
    let parts = (condition, then_term, else_term);
    Ok(InternedTerm::If(Box::new(alloc, parts)?))
}

/// Makes a lambda. `written` is the id of the parameter's type, or `None` if the written type stands for no type.
#[tactic(auto, using(crate::proofs::InternedShapes::numbered_shapes))]
pub(crate) fn make_lambda<'a>(
    alloc: Global,
    written: Option<TyNo>,
    body: InternedTerm<'a>,
) -> Result<InternedTerm<'a>, AllocError>
    ensures { IfOk result (λ made. numbered_of made ≡ lambda written (numbered_of body.entry)) }
{
    Ok(InternedTerm::Abs(written, Box::new(alloc, body)?))
}

/// Makes an application.
#[tactic(auto, using(crate::proofs::InternedShapes::numbered_shapes))]
pub(crate) fn make_application<'a>(
    alloc: Global,
    function: InternedTerm<'a>,
    argument: InternedTerm<'a>,
) -> Result<InternedTerm<'a>, AllocError>
    ensures { IfOk result (λ made. numbered_of made ≡ apply (numbered_of function.entry) (numbered_of argument.entry)) }
{
    let parts = (function, argument);
    Ok(InternedTerm::App(Box::new(alloc, parts)?))
}

/// Makes an ascription. `written` is as for a lambda.
#[tactic(auto, using(crate::proofs::InternedShapes::numbered_shapes))]
pub(crate) fn make_ascription<'a>(
    alloc: Global,
    operand: InternedTerm<'a>,
    written: Option<TyNo>,
) -> Result<InternedTerm<'a>, AllocError>
    ensures { IfOk result (λ made. numbered_of made ≡ ascribe (numbered_of operand.entry) written) }
{
    Ok(InternedTerm::Ascribe(Box::new(alloc, operand)?, written))
}

/// Makes a let.
#[tactic(auto, using(crate::proofs::InternedShapes::numbered_shapes))]
pub(crate) fn make_let<'a>(
    alloc: Global,
    bound: InternedTerm<'a>,
    body: InternedTerm<'a>,
) -> Result<InternedTerm<'a>, AllocError>
    ensures { IfOk result (λ made. numbered_of made ≡ let_in (numbered_of bound.entry) (numbered_of body.entry)) }
{
    let parts = (bound, body);
    Ok(InternedTerm::Let(Box::new(alloc, parts)?))
}

/// Makes what `letrec x:T = bound in body` stands for, as `lam_rules` does.
pub(crate) fn make_letrec<'a>(
    alloc: Global,
    written: Option<TyNo>,
    bound: InternedTerm<'a>,
    body: InternedTerm<'a>,
) -> Result<InternedTerm<'a>, AllocError>
    ensures { IfOk result (λ made. numbered_of made ≡ let_in (fix (lambda written (numbered_of bound.entry))) (numbered_of body.entry)) }
{
    let function = make_lambda(alloc, written, bound)?;
    let fixed = make_prefixed(alloc, Prefix::Fix, function)?;
    make_let(alloc, fixed, body)
}

/// Makes a projection of a label.
#[tactic(auto, using(crate::proofs::InternedShapes::numbered_shapes))]
pub(crate) fn make_projection<'a>(
    alloc: Global,
    operand: InternedTerm<'a>,
    label: &'a str,
) -> Result<InternedTerm<'a>, AllocError>
    ensures { IfOk result (λ made. numbered_of made ≡ project (numbered_of operand.entry) label.now) }
{
    Ok(InternedTerm::Proj(Box::new(alloc, operand)?, label))
}

/// Makes a term with a prefix keyword.
#[tactic(auto, using(crate::proofs::InternedShapes::numbered_shapes))]
pub(crate) fn make_prefixed<'a>(
    alloc: Global,
    prefix: Prefix,
    operand: InternedTerm<'a>,
) -> Result<InternedTerm<'a>, AllocError>
    ensures { IfOk result (λ made. numbered_of made ≡ prefixed_numbers prefix (numbered_of operand.entry)) }
{
    let boxed = Box::new(alloc, operand)?;
    Ok(match prefix {
        Prefix::Fix => InternedTerm::Fix(boxed),
        Prefix::Succ => InternedTerm::Succ(boxed),
        Prefix::Pred => InternedTerm::Pred(boxed),
        Prefix::IsZero => InternedTerm::IsZero(boxed),
    })
}
