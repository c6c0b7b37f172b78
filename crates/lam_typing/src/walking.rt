//! The walk over the subterms of a term, in post-order: it finds one type for each from those of its parts.

ghost use Rattle.std.specs.Prelude.{◌≡◌, ◌&&◌, ◌++◌, ◌<◌, length, map, IfOk, IfErr, OnOk, IsTrue, IsFalse, ℕ, List, is_some};
ghost use Rattle.lam_rules.specs.Types.{Typ};
ghost use Rattle.lam_rules.specs.Terms.{Term, if_then_else, variable, lambda, apply, ascribe, let_in, record_term, project, fix};
ghost use Rattle.lam_scope.specs.WellFormed.{IsWellFormedStatement, AreWellFormedStatements};
ghost use Rattle.lam_scope.specs.Places.{places_of};
ghost use Rattle.lam_scope.specs.Views.{statement_of};
ghost use Rattle.lam_scope.specs.Numbered.{StandsIfAny};
ghost use Rattle.lam_scope.specs.InternedViews.{interned_term, interned_terms, interned_statement, StandIn, StandInTerms, StandInStatement};
ghost use Rattle.lam_typing.specs.Answers.{answer, StandsWhereFound, AllStandIn, context_under};
ghost use Rattle.lam_rules.specs.Numbers.{type_of, Stands};
ghost use Rattle.lam_typing.specs.inner.Steps.{entry_at, IsNumeric};
ghost use Rattle.lam_typing.specs.Analysis.{IsSmallType};
ghost use Rattle.lam_typing.specs.Progress.{Went, blame_step, IsApplicationCode, IsLarge};
ghost use Rattle.lam_typing.specs.Walk.{Grows, Binds, HasWalked, HasWalkedFields, HasSettled, blame_at, blames_of, IsSoundWalk, IsBehind, IsUpTo, GoesOn, HasStoppedAt, HasStoppedAmong, entries_of, progress_of};
ghost use Rattle.lam_typing.specs.declared.walking.Stop.TheVariants.{Memory};

use crate::blame::Blame;
use crate::checker::TypeChecker;
use crate::interning::intern_statement;
use crate::steps::{
    type_of_apply, type_of_ascribe, type_of_fix, type_of_if, type_of_lambda, type_of_let,
    type_of_numeric, type_of_project, type_of_record,
};
use lam_rules::{Shape, TyNo, TyTable};
use lam_scope::{InternedField, InternedStatement, InternedTerm, NODE_LIMIT, Place, Statement};
use lam_sub::Verdicts;
use std::alloc::{AllocError, AllocFailed};

/// Why a walk ends before the last subterm.
pub(crate) enum Stop {
    /// The next subterm has a type over the size limit.
    TooLarge,
    /// The next subterm comes after the last one requested.
    Enough,
    Memory,
}

impl From<AllocError> for Stop {
    ghost from_gives = { λ _ stop. stop ≡ Memory };

    fn from(_refused: AllocError) -> Stop {
        Stop::Memory
    }
}

impl<T: Drop> From<AllocFailed<T>> for Stop {
    ghost from_gives = { λ _ stop. stop ≡ Memory };

    fn from(_refused: AllocFailed<T>) -> Stop {
        Stop::Memory
    }
}

/// The type ids of Bool, Nat and Unit, the types of constants and numerals.
#[derive(Clone, Copy)]
pub(crate) struct Leaves {
    pub boolean: TyNo,
    pub natural: TyNo,
    pub unit: TyNo,
}

/// Walks the statements of a document, from first to last.
pub(crate) fn walk_statements(walk: &mut TypeChecker, statements: &[Statement]) -> Result<(), Stop>
    requires sound { IsSoundWalk walk.old }
    requires wf { AreWellFormedStatements (map statement_of statements.now) }
    ensures grows { Grows walk.old walk.new }
    ensures went { OnOk result (Went (entries_of walk.old) (λ s. places_of s (map statement_of statements.now)) (progress_of walk.old) (progress_of walk.new) walk.old.verdicts.dialect) }
    ensures stopped { IfErr result (λ stop. HasStoppedAmong stop (entries_of walk.old) (λ s. places_of s (map statement_of statements.now)) walk.old walk.new walk.old.verdicts.dialect) }
{
    for i in 0..statements.len() {
        walk_owned_statement(walk, &statements[i])?;
    }
    Ok(())
}

/// Walks a statement whose written types are trees, which are first interned.
fn walk_owned_statement(walk: &mut TypeChecker, statement: &Statement) -> Result<(), Stop>
    requires sound { IsSoundWalk walk.old }
    requires wf { IsWellFormedStatement (statement_of statement.now) }
    ensures grows { Grows walk.old walk.new }
    ensures goes_on { OnOk result (GoesOn walk.old walk.new (statement_of statement.now)) }
    ensures stopped { IfErr result (λ stop. HasStoppedAt stop walk.old walk.new (statement_of statement.now)) }
{
    let alloc = walk.verdicts.alloc;
    let numbered = intern_statement(alloc, &mut walk.table, statement)?;
    walk_statement(walk, &numbered)?;
    Ok(())
}

/// Walks a statement and pushes the context entry of the binder that it makes, if any. Returns that entry.
pub(crate) fn walk_statement(
    walk: &mut TypeChecker,
    statement: &InternedStatement<'_>,
) -> Result<Option<TyNo>, Stop>
    requires sound { IsSoundWalk walk.old }
    requires stand { StandInStatement walk.old.table statement.now }
    ensures grows { Grows walk.old walk.new }
    ensures stands { IfOk result (λ entry. StandsWhereFound walk.new.table entry) }
    ensures bound { IfOk result (λ entry. Binds (entries_of walk.old) (interned_statement walk.old.table statement.now) (answer walk.new.table entry) walk.old.verdicts.dialect) }
    ensures goes_on { OnOk result (GoesOn walk.old walk.new (interned_statement walk.old.table statement.now)) }
    ensures stopped { IfErr result (λ stop. HasStoppedAt stop walk.old walk.new (interned_statement walk.old.table statement.now)) }
{
    match statement {
        InternedStatement::Definition(term) => {
            let found = walk_term(walk, term)?;
            walk.entries.push(found)?;
            Ok(found)
        }
        InternedStatement::Declaration(written) => {
            // What is written has distinct labels, as all types of the table have.
            walk.table.types_differ();
            walk.entries.push(*written)?;
            Ok(*written)
        }
        InternedStatement::Abbreviation(_) => Ok(None),
        InternedStatement::Evaluation(term) => {
            walk_term(walk, term)?;
            Ok(None)
        }
    }
}

/// Walks a term, whose subterms all come after those found so far, and returns its type.
#[cycle(walk_term)]
fn walk_term(walk: &mut TypeChecker, term: &InternedTerm<'_>) -> Result<Option<TyNo>, Stop>
    requires sound { IsSoundWalk walk.old }
    requires stand { StandIn walk.old.table term.now }
    ensures grows { Grows walk.old walk.new }
    ensures walked { HasWalked result walk.old walk.new (interned_term walk.old.table term.now) }
{
    match term {
        InternedTerm::True => settle(walk, Some(walk.leaves.boolean), None),
        InternedTerm::False => settle(walk, Some(walk.leaves.boolean), None),
        InternedTerm::If(parts) => walk_if(walk, &parts.0, &parts.1, &parts.2),
        InternedTerm::Num(_) => settle(walk, Some(walk.leaves.natural), None),
        InternedTerm::Succ(operand) => walk_number(walk, operand, walk.leaves.natural),
        InternedTerm::Pred(operand) => walk_number(walk, operand, walk.leaves.natural),
        InternedTerm::IsZero(operand) => walk_number(walk, operand, walk.leaves.boolean),
        InternedTerm::Var(index) => walk_variable(walk, *index),
        InternedTerm::Free(_) => {
            let blame = blame_if(true, None, "E1");
            settle(walk, None, blame)
        }
        InternedTerm::Abs(written, body) => walk_lambda(walk, *written, body),
        InternedTerm::App(parts) => walk_apply(walk, &parts.0, &parts.1),
        InternedTerm::Unit => settle(walk, Some(walk.leaves.unit), None),
        InternedTerm::Ascribe(operand, written) => walk_ascribe(walk, operand, *written),
        InternedTerm::Let(parts) => walk_let(walk, &parts.0, &parts.1),
        InternedTerm::Record(fields) => walk_record(walk, fields),
        InternedTerm::Proj(operand, label) => walk_project(walk, operand, label),
        InternedTerm::Fix(operand) => walk_fix(walk, operand),
    }
}

#[cycle(walk_term)]
fn walk_if(
    walk: &mut TypeChecker,
    condition: &InternedTerm<'_>,
    then_term: &InternedTerm<'_>,
    else_term: &InternedTerm<'_>,
) -> Result<Option<TyNo>, Stop>
    requires sound { IsSoundWalk walk.old }
    requires condition { StandIn walk.old.table condition.now }
    requires then_term { StandIn walk.old.table then_term.now }
    requires else_term { StandIn walk.old.table else_term.now }
    ensures grows { Grows walk.old walk.new }
    ensures walked { HasWalked result walk.old walk.new (if_then_else (interned_term walk.old.table condition.now) (interned_term walk.old.table then_term.now) (interned_term walk.old.table else_term.now)) }
{
    let first = walk_term(walk, condition)?;
    let second = walk_term(walk, then_term)?;
    let third = walk_term(walk, else_term)?;
    let boolean = walk.leaves.boolean;
    let found = type_of_if(
        &mut walk.table,
        &mut walk.verdicts,
        first,
        second,
        third,
        boolean,
    )?;
    let blame = blame_if(are_all_found(first, second, third), found, "E5");
    settle(walk, found, blame)
}

/// T-Succ, T-Pred and T-IsZero, given the id of the type of the whole term.
#[cycle(walk_term)]
fn walk_number(
    walk: &mut TypeChecker,
    operand: &InternedTerm<'_>,
    outcome: TyNo,
) -> Result<Option<TyNo>, Stop>
    requires sound { IsSoundWalk walk.old }
    requires operand { StandIn walk.old.table operand.now }
    requires outcome { Stands walk.old.table outcome }
    ensures grows { Grows walk.old walk.new }
    ensures walked { (e : Term) → IsNumeric e (interned_term walk.old.table operand.now) (type_of walk.old.table outcome) → HasWalked result walk.old walk.new e }
{
    let part = walk_term(walk, operand)?;
    let natural = walk.leaves.natural;
    let found = type_of_numeric(&walk.table, &mut walk.verdicts, part, natural, outcome)?;
    let blame = blame_if(part.is_some(), found, "E6");
    settle(walk, found, blame)
}

#[cycle(walk_term)]
fn walk_lambda(
    walk: &mut TypeChecker,
    written: Option<TyNo>,
    body: &InternedTerm<'_>,
) -> Result<Option<TyNo>, Stop>
    requires sound { IsSoundWalk walk.old }
    requires written { StandsIfAny walk.old.table written }
    requires body { StandIn walk.old.table body.now }
    ensures grows { Grows walk.old walk.new }
    ensures walked { HasWalked result walk.old walk.new (lambda (answer walk.old.table written) (interned_term walk.old.table body.now)) }
{
    // What is written has distinct labels, as all types of the table have.
    walk.table.types_differ();
    walk.entries.push(written)?;
    let outcome = walk_term(walk, body)?;
    walk.entries.pop();
    let found = type_of_lambda(&mut walk.table, written, outcome)?;
    settle(walk, found, None)
}

#[cycle(walk_term)]
fn walk_apply(
    walk: &mut TypeChecker,
    function: &InternedTerm<'_>,
    argument: &InternedTerm<'_>,
) -> Result<Option<TyNo>, Stop>
    requires sound { IsSoundWalk walk.old }
    requires function { StandIn walk.old.table function.now }
    requires argument { StandIn walk.old.table argument.now }
    ensures grows { Grows walk.old walk.new }
    ensures walked { HasWalked result walk.old walk.new (apply (interned_term walk.old.table function.now) (interned_term walk.old.table argument.now)) }
{
    let first = walk_term(walk, function)?;
    let second = walk_term(walk, argument)?;
    let found = type_of_apply(&walk.table, &mut walk.verdicts, first, second)?;
    let code = application_code(&walk.table, first);
    let blame = blame_if(are_both_found(first, second), found, code);
    settle(walk, found, blame)
}

#[cycle(walk_term)]
fn walk_ascribe(
    walk: &mut TypeChecker,
    operand: &InternedTerm<'_>,
    written: Option<TyNo>,
) -> Result<Option<TyNo>, Stop>
    requires sound { IsSoundWalk walk.old }
    requires operand { StandIn walk.old.table operand.now }
    requires written { StandsIfAny walk.old.table written }
    ensures grows { Grows walk.old walk.new }
    ensures walked { HasWalked result walk.old walk.new (ascribe (interned_term walk.old.table operand.now) (answer walk.old.table written)) }
{
    let part = walk_term(walk, operand)?;
    let found = type_of_ascribe(&walk.table, &mut walk.verdicts, written, part)?;
    let blame = blame_if(are_both_found(part, written), found, "E7");
    settle(walk, found, blame)
}

#[cycle(walk_term)]
fn walk_let(
    walk: &mut TypeChecker,
    bound: &InternedTerm<'_>,
    body: &InternedTerm<'_>,
) -> Result<Option<TyNo>, Stop>
    requires sound { IsSoundWalk walk.old }
    requires bound { StandIn walk.old.table bound.now }
    requires body { StandIn walk.old.table body.now }
    ensures grows { Grows walk.old walk.new }
    ensures walked { HasWalked result walk.old walk.new (let_in (interned_term walk.old.table bound.now) (interned_term walk.old.table body.now)) }
{
    let entry = walk_term(walk, bound)?;
    walk.entries.push(entry)?;
    let outcome = walk_term(walk, body)?;
    walk.entries.pop();
    settle(walk, type_of_let(entry, outcome), None)
}

#[cycle(walk_term)]
fn walk_record(walk: &mut TypeChecker, fields: &[InternedField<'_>]) -> Result<Option<TyNo>, Stop>
    requires sound { IsSoundWalk walk.old }
    requires fields { StandInTerms walk.old.table fields.now }
    ensures grows { Grows walk.old walk.new }
    ensures walked { HasWalked result walk.old walk.new (record_term (interned_terms walk.old.table fields.now)) }
{
    let mut parts = Vec::with_capacity(walk.verdicts.alloc, fields.len())?;
    let all = walk_fields(walk, fields, &mut parts)?;
    let found = type_of_record(&mut walk.table, all, parts)?;
    let blame = blame_if(all, found, "E9");
    settle(walk, found, blame)
}

#[cycle(walk_term)]
fn walk_project(
    walk: &mut TypeChecker,
    operand: &InternedTerm<'_>,
    label: &str,
) -> Result<Option<TyNo>, Stop>
    requires sound { IsSoundWalk walk.old }
    requires operand { StandIn walk.old.table operand.now }
    ensures grows { Grows walk.old walk.new }
    ensures walked { HasWalked result walk.old walk.new (project (interned_term walk.old.table operand.now) label.now) }
{
    let part = walk_term(walk, operand)?;
    let found = type_of_project(&walk.table, part, label);
    let blame = blame_if(part.is_some(), found, "E4");
    settle(walk, found, blame)
}

#[cycle(walk_term)]
fn walk_fix(walk: &mut TypeChecker, operand: &InternedTerm<'_>) -> Result<Option<TyNo>, Stop>
    requires sound { IsSoundWalk walk.old }
    requires operand { StandIn walk.old.table operand.now }
    ensures grows { Grows walk.old walk.new }
    ensures walked { HasWalked result walk.old walk.new (fix (interned_term walk.old.table operand.now)) }
{
    let part = walk_term(walk, operand)?;
    let found = type_of_fix(&walk.table, &mut walk.verdicts, part)?;
    let blame = blame_if(part.is_some(), found, "E8");
    settle(walk, found, blame)
}

/// Walks the terms of a record from first to last, and collects the labels and types of those that have one. Returns whether all
/// of them have.
#[cycle(walk_term)]
fn walk_fields(
    walk: &mut TypeChecker,
    fields: &[InternedField<'_>],
    parts: &mut Vec<(String, TyNo)>,
) -> Result<bool, Stop>
    requires sound { IsSoundWalk walk.old }
    requires stand { StandInTerms walk.old.table fields.now }
    ensures grows { Grows walk.old walk.new }
    ensures walked { HasWalkedFields result walk.old walk.new (interned_terms walk.old.table fields.now) parts.old.items parts.new.items }
{
    let Some((field, others)) = fields.split_first() else {
        return Ok(true);
    };
    let found = walk_term(walk, &field.term)?;
    let Some(number) = found else {
        walk_fields(walk, others, parts)?;
        return Ok(false);
    };
    let label = String::from_str(walk.verdicts.alloc, field.label)?;
    parts.push((label, number))?;
    walk_fields(walk, others, parts)
}

/// Walks a variable, which has the entry of its binder; if that is `None`, the variable is not at fault. An index past all
/// binders is an unbound name.
fn walk_variable(walk: &mut TypeChecker, index: usize) -> Result<Option<TyNo>, Stop>
    requires sound { IsSoundWalk walk.old }
    ensures grows { Grows walk.old walk.new }
    ensures walked { HasWalked result walk.old walk.new (variable index) }
{
    let depth = walk.entries.len();
    if index >= depth {
        let blame = blame_if(true, None, "E1");
        return settle(walk, None, blame);
    }
    let entry = entry_of(&walk.entries, index);
    settle(walk, entry, None)
}

/// Returns the context entry at a de Bruijn index.
pub(crate) fn entry_of(entries: &[Option<TyNo>], index: usize) -> Option<TyNo>
    requires { index < length entries.now }
    ensures entry { (ts : List Typ) → answer ts result ≡ entry_at index (context_under ts entries.now) }
    ensures stands { (ts : List Typ) → AllStandIn ts entries.now → StandsWhereFound ts result }
{
    entries[entries.len() - 1 - index]
}

/// Returns the code for an application at fault, by the type of its first term.
fn application_code(table: &TyTable, function: Option<TyNo>) -> &'static str
    requires { StandsWhereFound table.now function }
    ensures { IsApplicationCode result.now (answer table.now function) }
{
    let Some(number) = function else {
        return "E2";
    };
    match table.shape(number) {
        Shape::Arrow(_, _) => "E3",
        _ => "E2",
    }
}

fn are_both_found(first: Option<TyNo>, second: Option<TyNo>) -> bool
    ensures { result ≡ is_some first && is_some second }
{
    if first.is_none() {
        return false;
    }
    second.is_some()
}

fn are_all_found(first: Option<TyNo>, second: Option<TyNo>, third: Option<TyNo>) -> bool
    ensures { result ≡ is_some first && (is_some second && is_some third) }
{
    if first.is_none() {
        return false;
    }
    are_both_found(second, third)
}

/// Returns the code if all parts of a term have types and the term has none.
fn blame_if(parts: bool, found: Option<TyNo>, code: &'static str) -> Option<&'static str>
    ensures { (ts : List Typ) (n : ℕ) → blame_at n result ≡ blame_step n parts (answer ts found) code.now }
{
    if found.is_some() {
        return None;
    }
    if parts { Some(code) } else { None }
}

/// Records the type of the next subterm, and its fault if any.
fn settle(
    walk: &mut TypeChecker,
    found: Option<TyNo>,
    blame: Option<&'static str>,
) -> Result<Option<TyNo>, Stop>
    requires sound { IsSoundWalk walk.old }
    requires stands { StandsWhereFound walk.old.table found }
    ensures grows { Grows walk.old walk.new }
    ensures settled { HasSettled result walk.old walk.new found blame.entry }
{
    let place = Place(walk.found.len());
    if is_behind(place, walk.last) {
        return Err(Stop::Enough);
    }
    if is_large(&walk.table, found) {
        return Err(Stop::TooLarge);
    }
    put_blame(&mut walk.blames, place, blame)?;
    walk.found.push(found)?;
    Ok(found)
}

/// Whether a subterm comes after the last one requested.
fn is_behind(place: Place, last: Option<Place>) -> bool
    ensures behind { IsTrue result → IsBehind last place.0 }
    ensures within { IsFalse result → IsUpTo last place.0 }
{
    let Some(last_place) = last else {
        return false;
    };
    place.0 > last_place.0
}

/// Appends the fault of a subterm, if any.
fn put_blame(
    blames: &mut Vec<Blame>,
    place: Place,
    blame: Option<&'static str>,
) -> Result<(), AllocError>
    ensures { IfOk result (λ _. blames_of blames.new.items ≡ blames_of blames.old.items ++ blame_at place.0 blame.entry) }
{
    let Some(code) = blame else {
        return Ok(());
    };
    blames.push(Blame { place, code })?;
    Ok(())
}

/// Whether a type is over the size limit.
fn is_large(table: &TyTable, found: Option<TyNo>) -> bool
    requires { StandsWhereFound table.now found }
    ensures small { IsFalse result → IsSmallType (answer table.now found) }
    ensures large { IsTrue result → IsLarge (answer table.now found) }
{
    let Some(number) = found else {
        return false;
    };
    table.size(number) > NODE_LIMIT
}
