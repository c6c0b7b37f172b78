//! Nameless terms.

ghost use Rattle.std.specs.Prelude.{◌≡◌, IfOk};
ghost use Rattle.lam_rules.specs.Terms.{letrec_in, fix, lambda};
ghost use Rattle.lam_rules.specs.TermViews.{term_of, written_of};

use crate::types::Ty;
use std::alloc::{AllocError, Global};

/// A term with de Bruijn indices instead of names (TAPL chapter 6). The parts of a term share one box.
#[derive(Drop)]
pub enum Core {
    True,
    False,
    /// A conditional: the condition, the then branch and the else branch.
    If(Box<(Core, Core, Core)>),
    /// A numeral, as its digits.
    Num(String),
    Succ(Box<Core>),
    Pred(Box<Core>),
    IsZero(Box<Core>),
    /// A variable, as its de Bruijn index: 0 for the innermost binder in scope, 1 for the next one out, and so on.
    Var(usize),
    /// A name that is not bound by any binder in scope, as its text.
    Free(String),
    /// A lambda: the type of its parameter, or `None` if the written type does not denote a type, and its body.
    Abs(Box<(Option<Ty>, Core)>),
    /// An application: the function and its argument.
    App(Box<(Core, Core)>),
    Unit,
    /// An ascription: the operand, and its type as in a lambda.
    Ascribe(Box<(Core, Option<Ty>)>),
    /// A `let`: the bound term and the body.
    Let(Box<(Core, Core)>),
    Record(Vec<(String, Core)>),
    /// A projection: the operand and the label.
    Proj(Box<(Core, String)>),
    Fix(Box<Core>),
}

/// Returns what `letrec x:T = bound in body` abbreviates: `let x = fix (lambda x:T. bound) in body` (TAPL 11.11).
pub fn make_letrec(
    alloc: Global,
    written: Option<Ty>,
    bound: Core,
    body: Core,
) -> Result<Core, AllocError>
    ensures { IfOk result (λ made. term_of made ≡ letrec_in (written_of written) (term_of bound) (term_of body)) }
{
    let fixed = make_fixed(alloc, written, bound)?;
    Ok(Core::Let(Box::new(alloc, (fixed, body))?))
}

/// The `fix` of a lambda.
fn make_fixed(alloc: Global, written: Option<Ty>, bound: Core) -> Result<Core, AllocError>
    ensures { IfOk result (λ made. term_of made ≡ fix (lambda (written_of written) (term_of bound))) }
{
    let lambda = Core::Abs(Box::new(alloc, (written, bound))?);
    Ok(Core::Fix(Box::new(alloc, lambda)?))
}
