//! Commands over the ids of a type table: each written type is replaced by its id.

ghost use Rattle.std.specs.Prelude.{IfOk, OnOk};
ghost use Rattle.lam_rules.specs.TermViews.{term_of, terms_of, written_of};
ghost use Rattle.lam_rules.specs.Terms.{if_then_else, lambda, apply, ascribe, let_in, record_term, project};
ghost use Rattle.lam_rules.specs.Typing.{IsWellFormedEntry};
ghost use Rattle.lam_rules.specs.Numbers.{Keeps};
ghost use Rattle.lam_scope.specs.WellFormed.{IsWellFormedTerm, AreWellFormedTerms, IsWellFormedStatement};
ghost use Rattle.lam_scope.specs.Views.{statement_of};
ghost use Rattle.lam_typing.specs.inner.Interning.{IsStatementForm, IsForm, AreMoreForms};

use crate::steps::number_of_written;
use lam_rules::{Core, Ty, TyTable};
use lam_scope::{InternedField, InternedStatement, InternedTerm, Statement};
use std::alloc::{AllocError, Global};

/// Returns the form of a command over the ids of a table, to which its written types are added.
pub(crate) fn intern_statement<'t>(
    alloc: Global,
    table: &mut TyTable,
    statement: &'t Statement,
) -> Result<InternedStatement<'t>, AllocError>
    requires wf { IsWellFormedStatement (statement_of statement.now) }
    ensures keeps { Keeps table.old table.new }
    ensures form { IfOk result (λ form. IsStatementForm table.new form (statement_of statement.now)) }
{
    match statement {
        Statement::Definition(core) => {
            let form = intern_term(alloc, table, core)?;
            Ok(InternedStatement::Definition(form))
        }
        Statement::Declaration(written) => {
            let number = number_of_written(table, written)?;
            Ok(InternedStatement::Declaration(number))
        }
        Statement::Abbreviation(written) => {
            let number = number_of_written(table, written)?;
            Ok(InternedStatement::Abbreviation(number))
        }
        Statement::Evaluation(core) => {
            let form = intern_term(alloc, table, core)?;
            Ok(InternedStatement::Evaluation(form))
        }
    }
}

/// Returns the form of a term.
#[cycle(intern_term)]
fn intern_term<'t>(
    alloc: Global,
    table: &mut TyTable,
    term: &'t Core,
) -> Result<InternedTerm<'t>, AllocError>
    requires wf { IsWellFormedTerm (term_of term.now) }
    ensures keeps { Keeps table.old table.new }
    ensures form { IfOk result (λ form. IsForm table.new form (term_of term.now)) }
{
    match term {
        Core::True => Ok(InternedTerm::True),
        Core::False => Ok(InternedTerm::False),
        Core::If(parts) => intern_if(alloc, table, &parts.0, &parts.1, &parts.2),
        Core::Num(digits) => Ok(InternedTerm::Num(digits.as_str())),
        Core::Succ(operand) => Ok(InternedTerm::Succ(intern_part(alloc, table, operand)?)),
        Core::Pred(operand) => Ok(InternedTerm::Pred(intern_part(alloc, table, operand)?)),
        Core::IsZero(operand) => Ok(InternedTerm::IsZero(intern_part(alloc, table, operand)?)),
        Core::Var(index) => Ok(InternedTerm::Var(*index)),
        Core::Free(name) => Ok(InternedTerm::Free(name.as_str())),
        Core::Abs(parts) => intern_lambda(alloc, table, &parts.0, &parts.1),
        Core::App(parts) => intern_apply(alloc, table, &parts.0, &parts.1),
        Core::Unit => Ok(InternedTerm::Unit),
        Core::Ascribe(parts) => intern_ascribe(alloc, table, &parts.0, &parts.1),
        Core::Let(parts) => intern_let(alloc, table, &parts.0, &parts.1),
        Core::Record(fields) => intern_record(alloc, table, fields),
        Core::Proj(parts) => intern_project(alloc, table, &parts.0, &parts.1),
        Core::Fix(operand) => Ok(InternedTerm::Fix(intern_part(alloc, table, operand)?)),
    }
}

/// Returns the form of a part of a term, boxed.
#[cycle(intern_term)]
fn intern_part<'t>(
    alloc: Global,
    table: &mut TyTable,
    part: &'t Core,
) -> Result<Box<InternedTerm<'t>>, AllocError>
    requires wf { IsWellFormedTerm (term_of part.now) }
    ensures keeps { Keeps table.old table.new }
    ensures form { IfOk result (λ form. IsForm table.new form.value (term_of part.now)) }
{
    let form = intern_term(alloc, table, part)?;
    Ok(Box::new(alloc, form)?)
}

#[cycle(intern_term)]
fn intern_if<'t>(
    alloc: Global,
    table: &mut TyTable,
    condition: &'t Core,
    then_term: &'t Core,
    else_term: &'t Core,
) -> Result<InternedTerm<'t>, AllocError>
    requires condition { IsWellFormedTerm (term_of condition.now) }
    requires then_term { IsWellFormedTerm (term_of then_term.now) }
    requires else_term { IsWellFormedTerm (term_of else_term.now) }
    ensures keeps { Keeps table.old table.new }
    ensures form { IfOk result (λ form. IsForm table.new form (if_then_else (term_of condition.now) (term_of then_term.now) (term_of else_term.now))) }
{
    let first = intern_term(alloc, table, condition)?;
    let second = intern_term(alloc, table, then_term)?;
    let third = intern_term(alloc, table, else_term)?;
    let parts = Box::new(alloc, (first, second, third))?;
    Ok(InternedTerm::If(parts))
}

#[cycle(intern_term)]
fn intern_lambda<'t>(
    alloc: Global,
    table: &mut TyTable,
    written: &Option<Ty>,
    body: &'t Core,
) -> Result<InternedTerm<'t>, AllocError>
    requires written { IsWellFormedEntry (written_of written.now) }
    requires body { IsWellFormedTerm (term_of body.now) }
    ensures keeps { Keeps table.old table.new }
    ensures form { IfOk result (λ form. IsForm table.new form (lambda (written_of written.now) (term_of body.now))) }
{
    let number = number_of_written(table, written)?;
    let form = intern_part(alloc, table, body)?;
    Ok(InternedTerm::Abs(number, form))
}

#[cycle(intern_term)]
fn intern_apply<'t>(
    alloc: Global,
    table: &mut TyTable,
    function: &'t Core,
    argument: &'t Core,
) -> Result<InternedTerm<'t>, AllocError>
    requires function { IsWellFormedTerm (term_of function.now) }
    requires argument { IsWellFormedTerm (term_of argument.now) }
    ensures keeps { Keeps table.old table.new }
    ensures form { IfOk result (λ form. IsForm table.new form (apply (term_of function.now) (term_of argument.now))) }
{
    let first = intern_term(alloc, table, function)?;
    let second = intern_term(alloc, table, argument)?;
    let parts = Box::new(alloc, (first, second))?;
    Ok(InternedTerm::App(parts))
}

#[cycle(intern_term)]
fn intern_ascribe<'t>(
    alloc: Global,
    table: &mut TyTable,
    operand: &'t Core,
    written: &Option<Ty>,
) -> Result<InternedTerm<'t>, AllocError>
    requires operand { IsWellFormedTerm (term_of operand.now) }
    requires written { IsWellFormedEntry (written_of written.now) }
    ensures keeps { Keeps table.old table.new }
    ensures form { IfOk result (λ form. IsForm table.new form (ascribe (term_of operand.now) (written_of written.now))) }
{
    let form = intern_part(alloc, table, operand)?;
    let number = number_of_written(table, written)?;
    Ok(InternedTerm::Ascribe(form, number))
}

#[cycle(intern_term)]
fn intern_let<'t>(
    alloc: Global,
    table: &mut TyTable,
    bound: &'t Core,
    body: &'t Core,
) -> Result<InternedTerm<'t>, AllocError>
    requires bound { IsWellFormedTerm (term_of bound.now) }
    requires body { IsWellFormedTerm (term_of body.now) }
    ensures keeps { Keeps table.old table.new }
    ensures form { IfOk result (λ form. IsForm table.new form (let_in (term_of bound.now) (term_of body.now))) }
{
    let first = intern_term(alloc, table, bound)?;
    let second = intern_term(alloc, table, body)?;
    let parts = Box::new(alloc, (first, second))?;
    Ok(InternedTerm::Let(parts))
}

#[cycle(intern_term)]
fn intern_record<'t>(
    alloc: Global,
    table: &mut TyTable,
    fields: &'t [(String, Core)],
) -> Result<InternedTerm<'t>, AllocError>
    requires wf { AreWellFormedTerms (terms_of fields.now) }
    ensures keeps { Keeps table.old table.new }
    ensures form { IfOk result (λ form. IsForm table.new form (record_term (terms_of fields.now))) }
{
    let mut forms = Vec::with_capacity(alloc, fields.len())?;
    intern_fields(alloc, table, fields, &mut forms)?;
    Ok(InternedTerm::Record(forms))
}

#[cycle(intern_term)]
fn intern_project<'t>(
    alloc: Global,
    table: &mut TyTable,
    operand: &'t Core,
    label: &'t str,
) -> Result<InternedTerm<'t>, AllocError>
    requires wf { IsWellFormedTerm (term_of operand.now) }
    ensures keeps { Keeps table.old table.new }
    ensures form { IfOk result (λ form. IsForm table.new form (project (term_of operand.now) label.now)) }
{
    let form = intern_part(alloc, table, operand)?;
    Ok(InternedTerm::Proj(form, label))
}

/// Appends the forms of a record's terms, from first to last.
#[cycle(intern_term)]
fn intern_fields<'t>(
    alloc: Global,
    table: &mut TyTable,
    fields: &'t [(String, Core)],
    forms: &mut Vec<InternedField<'t>>,
) -> Result<(), AllocError>
    requires wf { AreWellFormedTerms (terms_of fields.now) }
    ensures keeps { Keeps table.old table.new }
    ensures forms { OnOk result (AreMoreForms table.new forms.old.items forms.new.items (terms_of fields.now)) }
{
    let Some((field, others)) = fields.split_first() else {
        return Ok(());
    };
    let term = intern_term(alloc, table, &field.1)?;
    let label = field.0.as_str();
    forms.push(InternedField { label, term })?;
    intern_fields(alloc, table, others, forms)
}
