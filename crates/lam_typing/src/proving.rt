//! Proofs by the declarative rules that subterms have the types found for them.
//!
//! A type that was found is known to be least, and two least types may differ in the order of fields. So a step is followed by
//! one of subsumption unless it concludes in exactly the type that was found.
//!
//! Each rule is kept out of line, and so is the work after the recursion, so that each level of a term takes the stack frames of
//! the match and of one rule only.

ghost use Rattle.std.specs.Prelude.{◌≡◌, ◌<◌, ◌≤◌, ℕ, IfOk, OnOk, Some, None};
ghost use Rattle.std.specs.Option.{option_map};
ghost use Rattle.lam_rules.specs.Terms.{Term, if_then_else, variable, lambda, apply, ascribe, let_in, record_term, project, fix};
ghost use Rattle.lam_rules.specs.TermViews.{term_of, terms_of, written_of};
ghost use Rattle.lam_rules.specs.TypeViews.{typ_of};
ghost use Rattle.lam_rules.specs.Types.{arrow};
ghost use Rattle.lam_rules.specs.SubViews.{sub_tree_of};
ghost use Rattle.lam_rules.specs.Subtyping.{ProvesBelow};
ghost use Rattle.lam_rules.specs.Typing.{typing_step, typing_first, no_typings, type_in};
ghost use Rattle.lam_rules.specs.TypingViews.{typing_tree_of, typings_of};
ghost use Rattle.lam_rules.specs.declared.rules.Dialect.{Dialect};
ghost use Rattle.lam_scope.specs.Sights.{inside, inside_fields};
ghost use Rattle.lam_typing.specs.inner.Grounds.{dialect_in};
ghost use Rattle.lam_typing.specs.inner.Proving.{tree_in, BuildsTerm, BuildsForm, BuildsAs, BuildsFields, IsFieldPut, Finishes, IsWidened, IsLeafBy, IsNatBy};

use crate::grounds::Grounds;
use lam_rules::{
    Core, Dialect, SubProof, Ty, TypeProof, TypeRule, copy_of, make_arrow, make_record, same, wf,
};
use lam_scope::Place;
use lam_sub::{field_type, prove_sub};
use std::alloc::{AllocError, Global};

/// A proof of the type found for a term, and the index of the term's first subterm.
#[derive(Drop)]
pub(crate) struct Proven {
    pub proof: TypeProof,
    pub first: usize,
}

/// The proofs and types of the terms of a record, from last to first, and the index of the first subterm.
#[derive(Drop)]
struct ProvenFields {
    proofs: Vec<TypeProof>,
    types: Vec<(String, Ty)>,
    first: usize,
}

/// Returns a proof of the type found for a term, or `None` if none was found. `behind` is the index after the term's own.
#[cycle(prove_term)]
pub(crate) fn prove_term(
    alloc: Global,
    grounds: &Grounds<'_>,
    term: &Core,
    behind: usize,
) -> Result<Option<Proven>, AllocError>
    requires { inside (term_of term.now) < behind }
    ensures { IfOk result (BuildsTerm grounds.now (term_of term.now) behind) }
{
    let place = behind - 1;
    let Some(ty) = grounds.typing.tree_at(Place(place))? else {
        return Ok(None);
    };
    prove_form(alloc, grounds, term, place, &ty)
}

/// Returns a proof of `ty`, the type found for the term at this index, by the rule of its form.
#[cycle(prove_term)]
fn prove_form(
    alloc: Global,
    grounds: &Grounds<'_>,
    term: &Core,
    place: usize,
    ty: &Ty,
) -> Result<Option<Proven>, AllocError>
    requires { inside (term_of term.now) ≤ place }
    ensures { IfOk result (BuildsForm grounds.now (term_of term.now) place (typ_of ty.now)) }
{
    match term {
        Core::True => prove_leaf(alloc, grounds, TypeRule::True, Ty::Bool, place, ty),
        Core::False => prove_leaf(alloc, grounds, TypeRule::False, Ty::Bool, place, ty),
        Core::If(parts) => prove_if(alloc, grounds, &parts.0, &parts.1, &parts.2, place, ty),
        Core::Num(_) => prove_leaf(alloc, grounds, TypeRule::Num, Ty::Nat, place, ty),
        Core::Succ(number) => {
            prove_number(alloc, grounds, TypeRule::Succ, number, Ty::Nat, place, ty)
        }
        Core::Pred(number) => {
            prove_number(alloc, grounds, TypeRule::Pred, number, Ty::Nat, place, ty)
        }
        Core::IsZero(number) => {
            prove_number(
                alloc,
                grounds,
                TypeRule::IsZero,
                number,
                Ty::Bool,
                place,
                ty,
            )
        }
        Core::Var(_) => prove_variable(alloc, grounds, place, ty),
        Core::Free(_) => Ok(None),
        Core::Abs(parts) => prove_lambda(alloc, grounds, &parts.0, &parts.1, place, ty),
        Core::App(parts) => prove_apply(alloc, grounds, &parts.0, &parts.1, place, ty),
        Core::Unit => prove_leaf(alloc, grounds, TypeRule::Unit, Ty::Unit, place, ty),
        Core::Ascribe(parts) => prove_ascribe(alloc, grounds, &parts.0, &parts.1, place, ty),
        Core::Let(parts) => prove_let(alloc, grounds, &parts.0, &parts.1, place, ty),
        Core::Record(fields) => prove_record(alloc, grounds, fields, place, ty),
        Core::Proj(parts) => prove_project(alloc, grounds, &parts.0, &parts.1, place, ty),
        Core::Fix(operand) => prove_fix(alloc, grounds, operand, place, ty),
    }
}

/// Constants and numerals.
#[inline(never)]
fn prove_leaf(
    alloc: Global,
    grounds: &Grounds<'_>,
    rule: TypeRule,
    conclusion: Ty,
    place: usize,
    ty: &Ty,
) -> Result<Option<Proven>, AllocError>
    ensures { (e : Term) → IsLeafBy rule e (typ_of conclusion) → IfOk result (BuildsForm grounds.now e place (typ_of ty.now)) }
{
    let premises = Vec::new(alloc);
    finish(alloc, grounds, rule, conclusion, premises, ty, place)
}

/// A variable has the entry of its binder.
#[inline(never)]
fn prove_variable(
    alloc: Global,
    grounds: &Grounds<'_>,
    place: usize,
    ty: &Ty,
) -> Result<Option<Proven>, AllocError>
    ensures { (index : ℕ) → IfOk result (BuildsForm grounds.now (variable index) place (typ_of ty.now)) }
{
    let Some(entry) = grounds.entry_of(place)? else {
        return Ok(None);
    };
    let premises = Vec::new(alloc);
    finish(alloc, grounds, TypeRule::Var, entry, premises, ty, place)
}

/// T-Succ, T-Pred and T-IsZero.
#[inline(never)]
#[cycle(prove_term)]
fn prove_number(
    alloc: Global,
    grounds: &Grounds<'_>,
    rule: TypeRule,
    operand: &Core,
    conclusion: Ty,
    place: usize,
    ty: &Ty,
) -> Result<Option<Proven>, AllocError>
    requires { inside (term_of operand.now) < place }
    ensures { (e : Term) → IsNatBy rule e (term_of operand.now) (typ_of conclusion) → IfOk result (BuildsForm grounds.now e place (typ_of ty.now)) }
{
    let Some(made) = prove_as(alloc, grounds, operand, place, &Ty::Nat)? else {
        return Ok(None);
    };
    finish_over(alloc, grounds, rule, conclusion, made, ty)
}

/// T-If: both branches are widened to the type of the whole term.
#[inline(never)]
#[cycle(prove_term)]
fn prove_if(
    alloc: Global,
    grounds: &Grounds<'_>,
    condition: &Core,
    then_term: &Core,
    else_term: &Core,
    place: usize,
    ty: &Ty,
) -> Result<Option<Proven>, AllocError>
    requires { inside (if_then_else (term_of condition.now) (term_of then_term.now) (term_of else_term.now)) ≤ place }
    ensures { IfOk result (BuildsForm grounds.now (if_then_else (term_of condition.now) (term_of then_term.now) (term_of else_term.now)) place (typ_of ty.now)) }
{
    let Some(third) = prove_as(alloc, grounds, else_term, place, ty)? else {
        return Ok(None);
    };
    let Some(second) = prove_as(alloc, grounds, then_term, third.first, ty)? else {
        return Ok(None);
    };
    let Some(first) = prove_as(alloc, grounds, condition, second.first, &Ty::Bool)? else {
        return Ok(None);
    };
    let Proven { proof, first } = first;
    let premises = vec![in alloc; proof, second.proof, third.proof]?;
    let conclusion = copy_of(ty)?;
    finish(
        alloc,
        grounds,
        TypeRule::If,
        conclusion,
        premises,
        ty,
        first,
    )
}

/// T-Abs.
#[inline(never)]
#[cycle(prove_term)]
fn prove_lambda(
    alloc: Global,
    grounds: &Grounds<'_>,
    written: &Option<Ty>,
    body: &Core,
    place: usize,
    ty: &Ty,
) -> Result<Option<Proven>, AllocError>
    requires { inside (term_of body.now) < place }
    ensures { IfOk result (BuildsForm grounds.now (lambda (written_of written.now) (term_of body.now)) place (typ_of ty.now)) }
{
    let Some(parameter) = written else {
        return Ok(None);
    };
    let Some(made) = prove_term(alloc, grounds, body, place)? else {
        return Ok(None);
    };
    let conclusion = arrow_between(alloc, parameter, &made.proof.ty)?;
    finish_over(alloc, grounds, TypeRule::Abs, conclusion, made, ty)
}

/// T-App.
#[inline(never)]
#[cycle(prove_term)]
fn prove_apply(
    alloc: Global,
    grounds: &Grounds<'_>,
    function: &Core,
    argument: &Core,
    place: usize,
    ty: &Ty,
) -> Result<Option<Proven>, AllocError>
    requires { inside (apply (term_of function.now) (term_of argument.now)) ≤ place }
    ensures { IfOk result (BuildsForm grounds.now (apply (term_of function.now) (term_of argument.now)) place (typ_of ty.now)) }
{
    let Some(second) = prove_term(alloc, grounds, argument, place)? else {
        return Ok(None);
    };
    let Some(made) = prove_term(alloc, grounds, function, second.first)? else {
        return Ok(None);
    };
    finish_apply(alloc, grounds, made, second, ty)
}

/// The step of T-App from a function and its argument, which is widened to the parameter type.
#[inline(never)]
fn finish_apply(
    alloc: Global,
    grounds: &Grounds<'_>,
    function: Proven,
    argument: Proven,
    ty: &Ty,
) -> Result<Option<Proven>, AllocError>
    ensures { (f a : Term) (place : ℕ) → BuildsTerm grounds.now f argument.first (Some function) → BuildsTerm grounds.now a place (Some argument) → IfOk result (BuildsForm grounds.now (apply f a) place (typ_of ty.now)) }
{
    let Ty::Arrow(parameter, outcome) = &function.proof.ty else {
        return Ok(None);
    };
    let Some(operand) = widened(alloc, argument.proof, parameter, grounds.typing.dialect)? else {
        return Ok(None);
    };
    let conclusion = copy_of(outcome)?;
    finish_over_two(
        alloc,
        grounds,
        TypeRule::App,
        conclusion,
        function,
        operand,
        ty,
    )
}

/// T-Ascribe: the term is widened to the ascribed type.
#[inline(never)]
#[cycle(prove_term)]
fn prove_ascribe(
    alloc: Global,
    grounds: &Grounds<'_>,
    operand: &Core,
    written: &Option<Ty>,
    place: usize,
    ty: &Ty,
) -> Result<Option<Proven>, AllocError>
    requires { inside (term_of operand.now) < place }
    ensures { IfOk result (BuildsForm grounds.now (ascribe (term_of operand.now) (written_of written.now)) place (typ_of ty.now)) }
{
    let Some(wanted) = written else {
        return Ok(None);
    };
    let Some(made) = prove_as(alloc, grounds, operand, place, wanted)? else {
        return Ok(None);
    };
    let conclusion = copy_of(wanted)?;
    finish_over(alloc, grounds, TypeRule::Ascribe, conclusion, made, ty)
}

/// T-Let.
#[inline(never)]
#[cycle(prove_term)]
fn prove_let(
    alloc: Global,
    grounds: &Grounds<'_>,
    bound: &Core,
    body: &Core,
    place: usize,
    ty: &Ty,
) -> Result<Option<Proven>, AllocError>
    requires { inside (let_in (term_of bound.now) (term_of body.now)) ≤ place }
    ensures { IfOk result (BuildsForm grounds.now (let_in (term_of bound.now) (term_of body.now)) place (typ_of ty.now)) }
{
    let Some(second) = prove_term(alloc, grounds, body, place)? else {
        return Ok(None);
    };
    let Some(made) = prove_term(alloc, grounds, bound, second.first)? else {
        return Ok(None);
    };
    let conclusion = copy_of(&second.proof.ty)?;
    finish_over_two(
        alloc,
        grounds,
        TypeRule::Let,
        conclusion,
        made,
        second.proof,
        ty,
    )
}

/// T-Rcd.
#[inline(never)]
#[cycle(prove_term)]
fn prove_record(
    alloc: Global,
    grounds: &Grounds<'_>,
    fields: &[(String, Core)],
    place: usize,
    ty: &Ty,
) -> Result<Option<Proven>, AllocError>
    requires { inside_fields (terms_of fields.now) ≤ place }
    ensures { IfOk result (BuildsForm grounds.now (record_term (terms_of fields.now)) place (typ_of ty.now)) }
{
    let Some(made) = prove_fields(alloc, grounds, fields, place)? else {
        return Ok(None);
    };
    let ProvenFields {
        mut proofs,
        mut types,
        first,
    } = made;
    proofs.reverse();
    types.reverse();
    let record = make_record(alloc, types)?;
    finish(alloc, grounds, TypeRule::Rcd, record, proofs, ty, first)
}

/// Proves the terms of a record, from last to first.
#[cycle(prove_term)]
fn prove_fields(
    alloc: Global,
    grounds: &Grounds<'_>,
    fields: &[(String, Core)],
    behind: usize,
) -> Result<Option<ProvenFields>, AllocError>
    requires { inside_fields (terms_of fields.now) ≤ behind }
    ensures { IfOk result (BuildsFields grounds.now (terms_of fields.now) behind) }
{
    let Some((field, others)) = fields.split_first() else {
        return Ok(Some(ProvenFields {
            proofs: Vec::new(alloc),
            types: Vec::new(alloc),
            first: behind,
        }));
    };
    let Some(mut made) = prove_fields(alloc, grounds, others, behind)? else {
        return Ok(None);
    };
    let Some(own) = prove_term(alloc, grounds, &field.1, made.first)? else {
        return Ok(None);
    };
    put_field(alloc, &mut made, &field.0, own)?;
    Ok(Some(made))
}

/// Prepends the proof of a field's term to those so far, which are stored from last to first.
#[inline(never)]
fn put_field(
    alloc: Global,
    made: &mut ProvenFields,
    label: &str,
    own: Proven,
) -> Result<(), AllocError>
    ensures { OnOk result (IsFieldPut made.old made.new label.now own) }
{
    let Proven { proof, first } = own;
    let name = String::from_str(alloc, label)?;
    let ty = copy_of(&proof.ty)?;
    made.types.push((name, ty))?;
    made.proofs.push(proof)?;
    made.first = first;
    Ok(())
}

/// T-Proj.
#[inline(never)]
#[cycle(prove_term)]
fn prove_project(
    alloc: Global,
    grounds: &Grounds<'_>,
    operand: &Core,
    label: &str,
    place: usize,
    ty: &Ty,
) -> Result<Option<Proven>, AllocError>
    requires { inside (term_of operand.now) < place }
    ensures { IfOk result (BuildsForm grounds.now (project (term_of operand.now) label.now) place (typ_of ty.now)) }
{
    let Some(made) = prove_term(alloc, grounds, operand, place)? else {
        return Ok(None);
    };
    let Ty::Record(fields) = &made.proof.ty else {
        return Ok(None);
    };
    let Some(field) = field_type(label, &fields.items, 0) else {
        return Ok(None);
    };
    let conclusion = copy_of(field)?;
    finish_over(alloc, grounds, TypeRule::Proj, conclusion, made, ty)
}

/// T-Fix: the function is widened to one from its outcome to its outcome.
#[inline(never)]
#[cycle(prove_term)]
fn prove_fix(
    alloc: Global,
    grounds: &Grounds<'_>,
    operand: &Core,
    place: usize,
    ty: &Ty,
) -> Result<Option<Proven>, AllocError>
    requires { inside (term_of operand.now) < place }
    ensures { IfOk result (BuildsForm grounds.now (fix (term_of operand.now)) place (typ_of ty.now)) }
{
    let wanted = arrow_between(alloc, ty, ty)?;
    let Some(made) = prove_as(alloc, grounds, operand, place, &wanted)? else {
        return Ok(None);
    };
    let conclusion = copy_of(ty)?;
    finish_over(alloc, grounds, TypeRule::Fix, conclusion, made, ty)
}

/// Returns a proof that a term has this type, which may be wider than the one found, or `None` if it doesn't.
#[cycle(prove_term)]
fn prove_as(
    alloc: Global,
    grounds: &Grounds<'_>,
    term: &Core,
    behind: usize,
    wanted: &Ty,
) -> Result<Option<Proven>, AllocError>
    requires { inside (term_of term.now) < behind }
    ensures { IfOk result (BuildsAs grounds.now (term_of term.now) behind (typ_of wanted.now)) }
{
    let Some(made) = prove_term(alloc, grounds, term, behind)? else {
        return Ok(None);
    };
    let Proven { proof, first } = made;
    let Some(proof) = widened(alloc, proof, wanted, grounds.typing.dialect)? else {
        return Ok(None);
    };
    Ok(Some(Proven { proof, first }))
}

/// Returns the arrow between copies of two types.
#[inline(never)]
fn arrow_between(alloc: Global, parameter: &Ty, outcome: &Ty) -> Result<Ty, AllocError>
    ensures { IfOk result (λ made. typ_of made ≡ arrow (typ_of parameter.now) (typ_of outcome.now)) }
{
    let parameter = copy_of(parameter)?;
    let outcome = copy_of(outcome)?;
    make_arrow(alloc, parameter, outcome)
}

/// The step of a rule with one premise, which begins at the same subterm.
#[inline(never)]
fn finish_over(
    alloc: Global,
    grounds: &Grounds<'_>,
    rule: TypeRule,
    conclusion: Ty,
    made: Proven,
    ty: &Ty,
) -> Result<Option<Proven>, AllocError>
    ensures { IfOk result (Finishes (typing_step rule (typ_of conclusion) (typing_first (tree_in made) no_typings) None) (typ_of ty.now) made.first (dialect_in grounds.now)) }
{
    let Proven { proof, first } = made;
    let premises = vec![in alloc; proof]?;
    finish(alloc, grounds, rule, conclusion, premises, ty, first)
}

/// The step of a rule with two premises, of which the first begins at the same subterm.
#[inline(never)]
fn finish_over_two(
    alloc: Global,
    grounds: &Grounds<'_>,
    rule: TypeRule,
    conclusion: Ty,
    made: Proven,
    second: TypeProof,
    ty: &Ty,
) -> Result<Option<Proven>, AllocError>
    ensures { IfOk result (Finishes (typing_step rule (typ_of conclusion) (typing_first (tree_in made) (typing_first (typing_tree_of second) no_typings)) None) (typ_of ty.now) made.first (dialect_in grounds.now)) }
{
    let Proven { proof, first } = made;
    let premises = vec![in alloc; proof, second]?;
    finish(alloc, grounds, rule, conclusion, premises, ty, first)
}

/// The step of a rule, followed by one of subsumption unless its conclusion is `ty` already.
#[inline(never)]
fn finish(
    alloc: Global,
    grounds: &Grounds<'_>,
    rule: TypeRule,
    conclusion: Ty,
    premises: Vec<TypeProof>,
    ty: &Ty,
    first: usize,
) -> Result<Option<Proven>, AllocError>
    ensures { IfOk result (Finishes (typing_step rule (typ_of conclusion) (typings_of premises.items) None) (typ_of ty.now) first (dialect_in grounds.now)) }
{
    let step = TypeProof {
        rule,
        ty: conclusion,
        typing: premises,
        sub: None,
    };
    let Some(proof) = widened(alloc, step, ty, grounds.typing.dialect)? else {
        return Ok(None);
    };
    Ok(Some(Proven { proof, first }))
}

/// Adds a step of subsumption to a proof, unless its type is `upper` already. `None` if its type is not below `upper`; types with
/// a repeated label have no proofs.
#[inline(never)]
#[tactic(auto, using(lam_rules::proofs::TypingShapes::typing_shapes))]
fn widened(
    alloc: Global,
    proof: TypeProof,
    upper: &Ty,
    dialect: Dialect,
) -> Result<Option<TypeProof>, AllocError>
    ensures { IfOk result (λ made. IsWidened (typing_tree_of proof) (typ_of upper.now) (option_map typing_tree_of made) dialect) }
{
    if same(&proof.ty, upper) {
        return Ok(Some(proof));
    }
    if !wf(&proof.ty) {
        return Ok(None);
    }
    if !wf(upper) {
        return Ok(None);
    }
    let Some(sub) = prove_sub(alloc, &proof.ty, upper, dialect)? else {
        return Ok(None);
    };
    let step = subsumed(alloc, proof, sub, upper)?;
    Ok(Some(step))
}

/// The step of subsumption from a proof, given a proof that its type is below `upper`.
#[inline(never)]
fn subsumed(
    alloc: Global,
    proof: TypeProof,
    sub: SubProof,
    upper: &Ty,
) -> Result<TypeProof, AllocError>
    ensures { IfOk result (λ made. (d : Dialect) → ProvesBelow (sub_tree_of sub) (type_in (typing_tree_of proof)) (typ_of upper.now) d → IsWidened (typing_tree_of proof) (typ_of upper.now) (Some (typing_tree_of made)) d) }
{
    let ty = copy_of(upper)?;
    let sub = Box::new(alloc, sub)?;
    let typing = vec![in alloc; proof]?;
    Ok(TypeProof {
        rule: TypeRule::Sub,
        ty,
        typing,
        sub: Some(sub),
    })
}
