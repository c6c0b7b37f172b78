//! The walk over commands that fills the tables: binders and uses in text order, subterms each after its immediate subterms.
ghost use Rattle.std.specs.Prelude.{◌≡◌, ◌∷◌, [], ◌+◌, ◌<◌, length, map, true, false, Some, IfOk, OnOk};
ghost use Rattle.lam_syntax.specs.Letters.{letters};
ghost use Rattle.std.specs.Option.{option_map};
ghost use Rattle.lam_syntax.specs.Trees.{term_tree, lambda, if_term, let_term, letrec_term, apply, ascribe, record_term};
ghost use Rattle.lam_syntax.specs.Views.{bound_of, type_of, type_fields_of, term_of, fields_of, command_of};
ghost use Rattle.lam_scope.specs.Tables.{◌⊕◌, entry, use_row, place_row, root, behind, roots_of_fields, binders_in, binders_in_fields, below_fields, type_uses, field_uses, term_table, fields_table};
ghost use Rattle.lam_scope.specs.TableViews.{place_number, rows_of, entry_of};
ghost use Rattle.lam_scope.specs.inner.Walked.{IsWalked, IsBoundWalked, IsFixWalked, with_derived, IsCommandWalked};

use crate::names::name_of;
use crate::numbers::{Binder, Origin, Place};
use crate::rows::Rows;
use crate::seen::{Seen, SeenBinder};
use lam_syntax::{
    Application, Ascription, Binder as WrittenBinder, Command, Conditional, Identifier, Lambda,
    Let, Letrec, Text, Tm, TmField, TmNode, TyField, TyNode, WrittenTy,
};
use lam_token::Span;
use std::alloc::AllocError;

/// Adds the rows of the command with that index, and brings what it binds into scope for those after it.
#[tactic(auto, using(crate::proofs::TableRows::walks))]
pub(crate) fn walk_command<'a>(
    rows: &mut Rows,
    types: &mut Seen<'a>,
    names: &mut Seen<'a>,
    number: usize,
    command: &'a Command,
) -> Result<(), AllocError>
    ensures { IsCommandWalked types.old names.old number (command_of command.now) rows.old rows.new types.new names.new result }
{
    let own = Binder(rows.binder_count());
    match command {
        Command::Definition(name, term) => {
            let seen = named(name, own);
            walk_bound(rows, types, names, term, seen.name, name.span)?;
            names.enter(seen)
        }
        Command::Declaration(name, ty) => {
            let seen = named(name, own);
            rows.add_binder(
                seen.name,
                name.span,
                names,
                own,
                Some(Origin::Declaration(number)),
            )?;
            walk_type(rows, types, ty)?;
            names.enter(seen)
        }
        Command::Abbreviation(name, ty) => {
            let seen = named(name, own);
            rows.add_binder(seen.name, name.span, types, own, None)?;
            walk_type(rows, types, ty)?;
            types.enter(seen)
        }
        Command::Evaluation(term) => {
            walk_term(rows, types, names, term)?;
            Ok(())
        }
    }
}

/// The binder of a command, as it is in scope for those after it.
fn named<'a>(name: &'a Identifier, own: Binder) -> SeenBinder<'a>
    ensures entry { entry_of result ≡ entry (Some (letters name.now.text)) own.0 own.0 }
    ensures name { option_map (λ x. letters x.now) result.name ≡ Some (letters name.now.text) }
{
    SeenBinder {
        name: Some(&name.text),
        number: own,
        answer: own,
    }
}

/// Adds the uses of type names in a written type.
#[cycle(types)]
#[tactic(auto, using(crate::proofs::TableRows::walks))]
fn walk_type(rows: &mut Rows, types: &Seen<'_>, ty: &WrittenTy) -> Result<(), AllocError>
    ensures table { OnOk result (rows_of rows.new ≡ rows_of rows.old ⊕ type_uses types.now (type_of ty.now)) }
    ensures binders { rows.new.binders ≡ rows.old.binders }
    ensures places { rows.new.places ≡ rows.old.places }
{
    match &ty.node {
        TyNode::Bool => Ok(()),
        TyNode::Nat => Ok(()),
        TyNode::Unit => Ok(()),
        TyNode::Top => Ok(()),
        TyNode::Named(name) => rows.add_use(name, types),
        TyNode::Arrow(arrow) => {
            walk_type(rows, types, &arrow.parameter)?;
            walk_type(rows, types, &arrow.outcome)
        }
        TyNode::Record(fields) => walk_type_fields(rows, types, fields),
    }
}

#[cycle(types)]
#[tactic(auto, using(crate::proofs::TableRows::walks))]
fn walk_type_fields(rows: &mut Rows, types: &Seen<'_>, fields: &[TyField]) -> Result<(), AllocError>
    ensures table { OnOk result (rows_of rows.new ≡ rows_of rows.old ⊕ field_uses types.now (type_fields_of fields.now)) }
    ensures binders { rows.new.binders ≡ rows.old.binders }
    ensures places { rows.new.places ≡ rows.old.places }
{
    for i in 0..fields.len() {
        let field = &fields[i];
        walk_type(rows, types, &field.ty)?;
    }
    Ok(())
}

/// Adds the rows of a term, and returns its index.
#[cycle(terms)]
#[tactic(auto, using(crate::proofs::TableRows::walks))]
fn walk_term<'a>(
    rows: &mut Rows,
    types: &Seen<'_>,
    names: &mut Seen<'a>,
    term: &'a Tm,
) -> Result<Place, AllocError>
    ensures walked { IsWalked types.now names.old (term_of term.now) rows.old rows.new result }
    ensures names { OnOk result (names.new ≡ names.old) }
{
    let span = term.span;
    match &term.node {
        TmNode::True => add_leaf(rows, names, span),
        TmNode::False => add_leaf(rows, names, span),
        TmNode::Unit => add_leaf(rows, names, span),
        TmNode::Numeral(_) => add_leaf(rows, names, span),
        TmNode::Variable(name) => add_variable(rows, names, span, name),
        TmNode::Lambda(lambda) => walk_lambda(rows, types, names, span, lambda),
        TmNode::If(conditional) => walk_if(rows, types, names, span, conditional),
        TmNode::Let(parts) => walk_let(rows, types, names, span, parts),
        TmNode::Letrec(parts) => walk_letrec(rows, types, names, span, parts),
        TmNode::Prefixed(_, operand) => walk_operand(rows, types, names, span, operand),
        TmNode::Apply(application) => walk_apply(rows, types, names, span, application),
        TmNode::Project(projection) => walk_operand(rows, types, names, span, &projection.record),
        TmNode::Ascribe(ascription) => walk_ascribe(rows, types, names, span, ascription),
        TmNode::Record(fields) => walk_record(rows, types, names, span, fields),
    }
}

/// Adds a term without subterms.
fn add_leaf(rows: &mut Rows, names: &Seen<'_>, span: Span) -> Result<Place, AllocError>
    ensures table { OnOk result (rows_of rows.new ≡ rows_of rows.old ⊕ place_row span false [] names.now) }
    ensures place { IfOk result (λ p. p.0 ≡ length rows.old.places.items) }
    ensures binders { rows.new.binders ≡ rows.old.binders }
    ensures places { OnOk result (length rows.new.places.items ≡ length rows.old.places.items + 1) }
{
    rows.add_place(span, false, &[], names)
}

fn add_variable(
    rows: &mut Rows,
    names: &Seen<'_>,
    span: Span,
    name: &Identifier,
) -> Result<Place, AllocError>
    ensures table { OnOk result (rows_of rows.new ≡ rows_of rows.old ⊕ use_row (letters name.now.text) name.now.span names.now ⊕ place_row span false [] names.now) }
    ensures place { IfOk result (λ p. p.0 ≡ length rows.old.places.items) }
    ensures binders { rows.new.binders ≡ rows.old.binders }
    ensures places { OnOk result (length rows.new.places.items ≡ length rows.old.places.items + 1) }
{
    rows.add_use(name, names)?;
    rows.add_place(span, false, &[], names)
}

/// Adds a term with one immediate subterm, and no binder or type.
#[cycle(terms)]
#[tactic(auto, using(crate::proofs::TableRows::walks))]
fn walk_operand<'a>(
    rows: &mut Rows,
    types: &Seen<'_>,
    names: &mut Seen<'a>,
    span: Span,
    operand: &'a Tm,
) -> Result<Place, AllocError>
    ensures table { OnOk result (rows_of rows.new ≡ rows_of rows.old ⊕ term_table types.now names.old (length rows.old.binders.items) (length rows.old.places.items) (term_of operand.now) ⊕ place_row span false (root (length rows.old.places.items) (term_of operand.now) ∷ []) names.old) }
    ensures place { IfOk result (λ p. p.0 ≡ behind (length rows.old.places.items) (term_of operand.now)) }
    ensures binders { OnOk result (length rows.new.binders.items ≡ length rows.old.binders.items + binders_in (term_of operand.now)) }
    ensures places { OnOk result (length rows.new.places.items ≡ behind (length rows.old.places.items) (term_of operand.now) + 1) }
    ensures names { OnOk result (names.new ≡ names.old) }
{
    let place = walk_term(rows, types, names, operand)?;
    rows.add_place(span, false, &[place], names)
}

#[cycle(terms)]
#[tactic(auto, using(crate::proofs::TableRows::walks))]
fn walk_ascribe<'a>(
    rows: &mut Rows,
    types: &Seen<'_>,
    names: &mut Seen<'a>,
    span: Span,
    term: &'a Ascription,
) -> Result<Place, AllocError>
    ensures walked { IsWalked types.now names.old (term_tree span (ascribe (term_of term.now.operand) (type_of term.now.ty))) rows.old rows.new result }
    ensures names { OnOk result (names.new ≡ names.old) }
{
    let place = walk_term(rows, types, names, &term.operand)?;
    walk_type(rows, types, &term.ty)?;
    rows.add_place(span, false, &[place], names)
}

#[cycle(terms)]
#[tactic(auto, using(crate::proofs::TableRows::walks))]
fn walk_record<'a>(
    rows: &mut Rows,
    types: &Seen<'_>,
    names: &mut Seen<'a>,
    span: Span,
    fields: &'a [TmField],
) -> Result<Place, AllocError>
    ensures walked { IsWalked types.now names.old (term_tree span (record_term (fields_of fields.now))) rows.old rows.new result }
    ensures names { OnOk result (names.new ≡ names.old) }
{
    let terms = walk_fields(rows, types, names, fields)?;
    rows.add_place(span, false, &terms, names)
}

#[cycle(terms)]
#[tactic(auto, using(crate::proofs::TableRows::walks))]
fn walk_if<'a>(
    rows: &mut Rows,
    types: &Seen<'_>,
    names: &mut Seen<'a>,
    span: Span,
    term: &'a Conditional,
) -> Result<Place, AllocError>
    ensures walked { IsWalked types.now names.old (term_tree span (if_term (term_of term.now.condition) (term_of term.now.then_term) (term_of term.now.else_term))) rows.old rows.new result }
    ensures names { OnOk result (names.new ≡ names.old) }
{
    let first = walk_term(rows, types, names, &term.condition)?;
    let second = walk_term(rows, types, names, &term.then_term)?;
    let third = walk_term(rows, types, names, &term.else_term)?;
    rows.add_place(span, false, &[first, second, third], names)
}

#[cycle(terms)]
#[tactic(auto, using(crate::proofs::TableRows::walks))]
fn walk_let<'a>(
    rows: &mut Rows,
    types: &Seen<'_>,
    names: &mut Seen<'a>,
    span: Span,
    term: &'a Let,
) -> Result<Place, AllocError>
    ensures walked { IsWalked types.now names.old (term_tree span (let_term (bound_of term.now.binder) (term_of term.now.bound) (term_of term.now.body))) rows.old rows.new result }
    ensures names { OnOk result (names.new ≡ names.old) }
{
    let seen = seen_as(&term.binder, rows.binder_count());
    let token = term.binder.span;
    let first = walk_bound(rows, types, names, &term.bound, seen.name, token)?;
    let second = walk_under(rows, types, names, &term.body, seen)?;
    rows.add_place(span, false, &[first, second], names)
}

#[cycle(terms)]
#[tactic(auto, using(crate::proofs::TableRows::walks))]
fn walk_letrec<'a>(
    rows: &mut Rows,
    types: &Seen<'_>,
    names: &mut Seen<'a>,
    span: Span,
    term: &'a Letrec,
) -> Result<Place, AllocError>
    ensures walked { IsWalked types.now names.old (term_tree span (letrec_term (bound_of term.now.binder) (type_of term.now.ty) (term_of term.now.bound) (term_of term.now.body))) rows.old rows.new result }
    ensures names { OnOk result (names.new ≡ names.old) }
{
    let seen = seen_as(&term.binder, rows.binder_count() + 1);
    let first = walk_fix(rows, types, names, term)?;
    let second = walk_under(rows, types, names, &term.body, seen)?;
    rows.add_place(span, false, &[first, second], names)
}

#[cycle(terms)]
#[tactic(auto, using(crate::proofs::TableRows::walks))]
fn walk_apply<'a>(
    rows: &mut Rows,
    types: &Seen<'_>,
    names: &mut Seen<'a>,
    span: Span,
    term: &'a Application,
) -> Result<Place, AllocError>
    ensures walked { IsWalked types.now names.old (term_tree span (apply (term_of term.now.function) (term_of term.now.argument))) rows.old rows.new result }
    ensures names { OnOk result (names.new ≡ names.old) }
{
    let first = walk_term(rows, types, names, &term.function)?;
    let second = walk_term(rows, types, names, &term.argument)?;
    rows.add_place(span, false, &[first, second], names)
}

#[cycle(terms)]
#[tactic(auto, using(crate::proofs::TableRows::walks))]
fn walk_fields<'a>(
    rows: &mut Rows,
    types: &Seen<'_>,
    names: &mut Seen<'a>,
    fields: &'a [TmField],
) -> Result<Vec<Place>, AllocError>
    ensures table { OnOk result (rows_of rows.new ≡ rows_of rows.old ⊕ fields_table types.now names.old (length rows.old.binders.items) (length rows.old.places.items) (fields_of fields.now)) }
    ensures terms { IfOk result (λ ps. map place_number ps.items ≡ roots_of_fields (length rows.old.places.items) (fields_of fields.now)) }
    ensures binders { OnOk result (length rows.new.binders.items ≡ length rows.old.binders.items + binders_in_fields (fields_of fields.now)) }
    ensures places { OnOk result (length rows.new.places.items ≡ length rows.old.places.items + below_fields (fields_of fields.now)) }
    ensures names { OnOk result (names.new ≡ names.old) }
{
    let mut terms = Vec::with_capacity(rows.alloc, fields.len())?;
    for i in 0..fields.len() {
        let field = &fields[i];
        let place = walk_term(rows, types, names, &field.term)?;
        terms.push(place)?;
    }
    Ok(terms)
}

/// Walks a term under one more binder.
#[cycle(terms)]
#[tactic(auto, using(crate::proofs::TableRows::walks))]
fn walk_under<'a>(
    rows: &mut Rows,
    types: &Seen<'_>,
    names: &mut Seen<'a>,
    body: &'a Tm,
    seen: SeenBinder<'a>,
) -> Result<Place, AllocError>
    ensures walked { IsWalked types.now (entry_of seen.entry ∷ names.old) (term_of body.now) rows.old rows.new result }
    ensures names { OnOk result (names.new ≡ names.old) }
{
    names.enter(seen)?;
    let place = walk_term(rows, types, names, body)?;
    names.leave();
    Ok(place)
}

/// Adds a binder, and walks the term that it takes its type from.
#[cycle(terms)]
#[tactic(auto, using(crate::proofs::TableRows::walks))]
fn walk_bound<'a>(
    rows: &mut Rows,
    types: &Seen<'_>,
    names: &mut Seen<'a>,
    bound: &'a Tm,
    name: Option<&Text>,
    token: Span,
) -> Result<Place, AllocError>
    ensures walked { IsBoundWalked types.now names.old (option_map (λ x. letters x.now) name.entry) token (term_of bound.now) rows.old rows.new result }
    ensures names { OnOk result (names.new ≡ names.old) }
{
    let number = Binder(rows.binder_count());
    rows.add_binder(name, token, names, number, None)?;
    let place = walk_term(rows, types, names, bound)?;
    rows.set_origin(number, Origin::Term(place));
    Ok(place)
}

#[cycle(terms)]
#[tactic(auto, using(crate::proofs::TableRows::walks))]
fn walk_lambda<'a>(
    rows: &mut Rows,
    types: &Seen<'_>,
    names: &mut Seen<'a>,
    span: Span,
    term: &'a Lambda,
) -> Result<Place, AllocError>
    ensures walked { IsWalked types.now names.old (term_tree span (lambda (bound_of term.now.binder) (type_of term.now.ty) (term_of term.now.body))) rows.old rows.new result }
    ensures names { OnOk result (names.new ≡ names.old) }
{
    let number = Binder(rows.binder_count());
    let seen = seen_as(&term.binder, number.0);
    let token = term.binder.span;
    rows.add_binder(seen.name, token, names, number, None)?;
    walk_type(rows, types, &term.ty)?;
    let body = walk_under(rows, types, names, &term.body, seen)?;
    rows.set_origin(number, Origin::Lambda(Place(rows.place_count())));
    rows.add_place(span, false, &[body], names)
}

/// Walks the first part of a letrec. Its token is the binder of the derived lambda, and then of the let. The lambda and its fix
/// are subterms of their own, after those of the bound term.
#[cycle(terms)]
#[tactic(auto, using(crate::proofs::TableRows::walks))]
fn walk_fix<'a>(
    rows: &mut Rows,
    types: &Seen<'_>,
    names: &mut Seen<'a>,
    term: &'a Letrec,
) -> Result<Place, AllocError>
    ensures walked { IsFixWalked types.now names.old (option_map (λ s. letters s) term.now.binder.name) term.now.binder.span (type_of term.now.ty) (term_of term.now.bound) rows.old rows.new result }
    ensures names { OnOk result (names.new ≡ names.old) }
{
    let of_lambda = Binder(rows.binder_count());
    let of_let = Binder(of_lambda.0 + 1);
    let seen = SeenBinder {
        name: name_of(&term.binder),
        number: of_lambda,
        answer: of_let,
    };
    let token = term.binder.span;
    rows.add_binder(seen.name, token, names, of_let, None)?;
    rows.add_binder(seen.name, token, names, of_let, None)?;
    walk_type(rows, types, &term.ty)?;
    let place = walk_under(rows, types, names, &term.bound, seen)?;
    let fixed = add_derived(rows, names, term.bound.span, place, of_lambda, of_let)?;
    Ok(fixed)
}

/// Adds the derived lambda and fix of a letrec, given its bound term.
#[tactic(auto, using(crate::proofs::TableRows::walks))]
fn add_derived(
    rows: &mut Rows,
    names: &Seen<'_>,
    span: Span,
    bound: Place,
    of_lambda: Binder,
    of_let: Binder,
) -> Result<Place, AllocError>
    requires lambda { of_lambda.0 < length rows.old.binders.items }
    requires own { of_let.0 < length rows.old.binders.items }
    ensures table { OnOk result (rows_of rows.new ≡ with_derived names.now span bound.0 of_lambda.0 of_let.0 (length rows.old.places.items) (rows_of rows.old)) }
    ensures place { IfOk result (λ p. p.0 ≡ length rows.old.places.items + 1) }
    ensures binders { OnOk result (length rows.new.binders.items ≡ length rows.old.binders.items) }
    ensures places { OnOk result (length rows.new.places.items ≡ length rows.old.places.items + 2) }
{
    let function = rows.add_place(span, true, &[bound], names)?;
    let fixed = rows.add_place(span, true, &[function], names)?;
    rows.set_origin(of_lambda, Origin::Lambda(function));
    rows.set_origin(of_let, Origin::Term(fixed));
    Ok(fixed)
}

/// A binder as it is in scope for the terms under it.
fn seen_as<'a>(binder: &'a WrittenBinder, number: usize) -> SeenBinder<'a>
    ensures entry { entry_of result ≡ entry (option_map (λ s. letters s) binder.now.name) number number }
    ensures name { option_map (λ x. letters x.now) result.name ≡ option_map (λ s. letters s) binder.now.name }
{
    SeenBinder {
        name: name_of(binder),
        number: Binder(number),
        answer: Binder(number),
    }
}
