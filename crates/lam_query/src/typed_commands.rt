//! Types one command after those before it.
ghost use Rattle.std.specs.Prelude.{◌≡◌, ◌++◌, ◌∷◌, [], map, IfOk};
ghost use Rattle.lam_rules.specs.Numbers.{Keeps};
ghost use Rattle.lam_scope.specs.Nameless.{written_in_command, first_over_limit};
ghost use Rattle.lam_scope.specs.Tables.{table, place_row_numbered};
ghost use Rattle.lam_scope.specs.Views.{IsLimit};
ghost use Rattle.lam_syntax.specs.Views.{command_of};
ghost use Rattle.lam_typing.specs.Checking.{types_in, dialect_in, IsSoundChecker};
ghost use Rattle.lam_typing.specs.Walk.{blames_of};
ghost use Rattle.lam_query.specs.SyntaxFaults.{fault_at};
ghost use Rattle.lam_query.specs.TextFaults.{written_fault};
ghost use Rattle.lam_query.specs.Views.{fault_of};
ghost use Rattle.lam_query.specs.inner.Analysts.{IsBoundAs};
ghost use Rattle.lam_query.specs.declared.bound.Bound.{Bound as RustBound};
ghost use Rattle.lam_query.specs.inner.Bound.{IsSurroundedBy};
ghost use Rattle.lam_query.specs.inner.Entered.{Lookup};
ghost use Rattle.lam_query.specs.inner.Kept.{found_of};
ghost use Rattle.lam_query.specs.inner.Rows.{own_fault, IsFoundOf};
ghost use Rattle.lam_query.specs.inner.TypedCommands.{types_around, IsStatedBy, bound_number};

use crate::answers::Fault;
use crate::bound::Surroundings;
use crate::rows::{Found, FoundTypes};
use lam_rules::TyNo;
use lam_scope::{Interned, InternedStatement, Place, ScopeFault, TypeFault, bind, intern_command};
use lam_syntax::Command;
use lam_token::Span;
use lam_typing::{Blame, TypeChecker};
use std::alloc::{AllocError, Global};
use std::slice;

/// A command in nameless form, with type ids of a type table.
#[derive(Drop)]
struct Stated<'a> {
    statement: InternedStatement<'a>,
    /// The diagnostics of its written types, in text order.
    faults: Vec<TypeFault>,
    /// The context entries of the names in scope, outermost first.
    entries: Vec<Option<TyNo>>,
}

/// Returns the types of a command, given what it sees of the names and type names bound before it.
pub(crate) fn found_of(
    alloc: Global,
    types: &mut TypeChecker,
    around: Surroundings<'_>,
    command: &Command,
) -> Result<Found, AllocError>
    requires sound { IsSoundChecker types.old }
    requires seen { (b : RustBound) × IsSurroundedBy (types_in types.old) b (command_of command.now) around }
    ensures sound { IsSoundChecker types.new }
    ensures keeps { Keeps (types_in types.old) (types_in types.new) }
    ensures dialect { dialect_in types.new ≡ dialect_in types.old }
    ensures found { IfOk result (λ f. (b : RustBound) (names others : Lookup) → IsSurroundedBy (types_in types.old) b (command_of command.now) around.entry → IsBoundAs names others (types_in types.old) b → IsFoundOf names others (command_of command.now) (types_in types.new) (found_of f) (dialect_in types.old)) }
{
    let stated = match state_command(alloc, types, around, command) {
        Ok(stated) => stated,
        Err(ScopeFault::TooLarge(span)) => return Ok(Found::LargeWrittenType(span)),
        Err(ScopeFault::Memory) => return Err(AllocError),
    };
    let checked = types.check(&stated.entries, &stated.statement)?;
    if !checked.complete {
        let span = span_of_term(alloc, command, checked.types.len())?;
        return Ok(Found::LargeTerm(span));
    }
    let faults = faults_of(alloc, command, &stated.faults, &checked.blames)?;
    Ok(Found::Types(FoundTypes {
        types: checked.types,
        faults,
        bound: bound_number(&stated.statement, checked.entry),
    }))
}

/// Returns the nameless form of a command, and adds its written types to the table.
fn state_command<'a>(
    alloc: Global,
    types: &mut TypeChecker,
    around: Surroundings<'a>,
    command: &'a Command,
) -> Result<Stated<'a>, ScopeFault>
    requires sound { IsSoundChecker types.old }
    requires seen { (b : RustBound) × IsSurroundedBy (types_in types.old) b (command_of command.now) around }
    ensures sound { IsSoundChecker types.new }
    ensures keeps { Keeps (types_in types.old) (types_in types.new) }
    ensures dialect { dialect_in types.new ≡ dialect_in types.old }
    ensures limit { (b : RustBound) → IsSurroundedBy (types_in types.old) b (command_of command.now) around.entry → IsLimit (first_over_limit (types_around (types_in types.old) b (command_of command.now)) (written_in_command (command_of command.now))) result }
    ensures stated { IfOk result (λ s. (b : RustBound) → IsSurroundedBy (types_in types.old) b (command_of command.now) around.entry → IsStatedBy (types_in types.old) b (command_of command.now) (types_in types.new) s) }
{
    let Surroundings {
        mut environment,
        entries,
    } = around;
    let Interned { statement, faults } = intern_command(
        alloc,
        types.table_mut(),
        &mut environment,
        command,
    )?;
    Ok(Stated {
        statement,
        faults,
        entries,
    })
}

/// Returns what the type name stands for if the command binds one, otherwise this entry.
fn bound_number(statement: &InternedStatement<'_>, entry: Option<TyNo>) -> Option<TyNo>
    ensures { result ≡ bound_number statement.now entry }
{
    match statement {
        InternedStatement::Abbreviation(number) => *number,
        _ => entry,
    }
}

/// Returns the diagnostics of the written types of a command, then those of its terms.
fn faults_of(
    alloc: Global,
    command: &Command,
    written: &[TypeFault],
    blames: &[Blame],
) -> Result<Vec<Fault>, AllocError>
    ensures { IfOk result (λ found. map fault_of found.items ≡ map written_fault written.now ++ map (own_fault (command_of command.now)) (blames_of blames.now)) }
{
    let mut found = written_faults(alloc, written)?;
    let mut blamed = blame_faults(alloc, command, blames)?;
    found.append(&mut blamed)?;
    Ok(found)
}

/// Returns the span of the term with this number in a command.
fn span_of_term(alloc: Global, command: &Command, number: usize) -> Result<Span, AllocError>
    ensures { IfOk result (λ s. s ≡ (place_row_numbered (table (command_of command.now ∷ [])) number).span) }
{
    let scopes = bind(alloc, slice::from_ref(command))?;
    Ok(scopes.span_of(Place(number)))
}

/// Returns the diagnostics of written types, in text order.
fn written_faults(alloc: Global, faults: &[TypeFault]) -> Result<Vec<Fault>, AllocError>
    ensures { IfOk result (λ found. map fault_of found.items ≡ map written_fault faults.now) }
{
    let mut found = Vec::with_capacity(alloc, faults.len())?;
    for i in 0..faults.len() {
        found.push(written_fault(faults[i]))?;
    }
    Ok(found)
}

fn written_fault(fault: TypeFault) -> Fault
    ensures { fault_of result ≡ written_fault fault }
{
    match fault {
        TypeFault::UnboundTypeName(span) => Fault { code: "Y1", span },
        TypeFault::RepeatedLabel(span) => Fault { code: "Y2", span },
    }
}

/// Returns the diagnostics of the terms of a command that are at fault, with their codes.
fn blame_faults(
    alloc: Global,
    command: &Command,
    blames: &[Blame],
) -> Result<Vec<Fault>, AllocError>
    ensures { IfOk result (λ found. map fault_of found.items ≡ map (λ b. fault_at b.code.now (place_row_numbered (table (command_of command.now ∷ [])) b.place.0).span) blames.now) }
{
    let mut found = Vec::with_capacity(alloc, blames.len())?;
    if blames.is_empty() {
        return Ok(found);
    }
    let scopes = bind(alloc, slice::from_ref(command))?;
    for i in 0..blames.len() {
        let blame = &blames[i];
        found.push(Fault {
            code: blame.code,
            span: scopes.span_of(blame.place),
        })?;
    }
    Ok(found)
}
