//! The context entries of binders.

ghost use Rattle.std.specs.Prelude.{◌≡◌, List, Option, [], map, IfOk};
ghost use Rattle.lam_rules.specs.Types.{Typ};
ghost use Rattle.lam_rules.specs.Typing.{IsWellFormedEntry};
ghost use Rattle.lam_rules.specs.Numbers.{Keeps};
ghost use Rattle.lam_scope.specs.Views.{statement_of, statements_of, origins_of};
ghost use Rattle.lam_typing.specs.Answers.{answer, answers, StandsWhereFound, AllStandIn};
ghost use Rattle.lam_typing.specs.Entries.{entry_from};
ghost use Rattle.lam_typing.specs.inner.Notes.{entry_told, NotesDocument};
ghost use Rattle.lam_typing.specs.inner.Ends.{AreSourcesOf, AreWellFormedSources};

use crate::noting::{Note, Source, note_statements};
use crate::reading::{declared_at, found_at, written_at};
use crate::steps::number_of_written;
use lam_rules::{TyNo, TyTable};
use lam_scope::{Origin, Resolved, Statement};
use std::alloc::{AllocError, Global};

/// Returns where the context entry of each binder is from, by binder index.
pub(crate) fn sources_of(
    alloc: Global,
    resolved: &Resolved,
) -> Result<Vec<Option<Source<'_>>>, AllocError>
    ensures { IfOk result (λ sources. AreSourcesOf (statements_of resolved.now) (origins_of resolved.now) sources.items) }
{
    let noted = note_statements(alloc, resolved.place_count(), resolved.statements())?;
    let origins = resolved.origins();
    let mut sources = Vec::with_capacity(alloc, origins.len())?;
    for i in 0..origins.len() {
        let source = source_of(&noted, resolved.statements(), origins[i]);
        sources.push(source)?;
    }
    Ok(sources)
}

/// Returns the context entries that these sources give, using the types found for the subterms.
pub(crate) fn number_entries(
    alloc: Global,
    table: &mut TyTable,
    found: &[Option<TyNo>],
    sources: &[Option<Source<'_>>],
) -> Result<Vec<Option<TyNo>>, AllocError>
    requires found { AllStandIn table.old found.now }
    requires wf { AreWellFormedSources sources.now }
    ensures keeps { Keeps table.old table.new }
    ensures stand { IfOk result (λ entries. AllStandIn table.new entries.items) }
    ensures entries { IfOk result (λ entries. answers table.new entries.items ≡ map (entry_told (answers table.old found.now)) sources.now) }
{
    let mut entries = Vec::with_capacity(alloc, sources.len())?;
    for i in 0..sources.len() {
        let number = number_of(table, found, sources[i])?;
        entries.push(number)?;
    }
    Ok(entries)
}

/// Returns where the context entry of a binder with this origin is from.
fn source_of<'t>(
    noted: &[Note<'t>],
    statements: &'t [Statement],
    origin: Origin,
) -> Option<Source<'t>>
    requires { NotesDocument noted.now (map statement_of statements.now) }
    ensures { (found : List (Option Typ)) → entry_told found result ≡ entry_from (map statement_of statements.now) found origin }
{
    match origin {
        Origin::Lambda(place) => written_at(noted, place.0),
        Origin::Term(place) => Some(Source::Term(place)),
        Origin::Declaration(statement) => declared_at(statements, statement),
        Origin::TypeName => None,
    }
}

/// Returns the type id of the entry that a source gives.
fn number_of(
    table: &mut TyTable,
    found: &[Option<TyNo>],
    source: Option<Source<'_>>,
) -> Result<Option<TyNo>, AllocError>
    requires found { AllStandIn table.old found.now }
    requires wf { IsWellFormedEntry (entry_told [] source) }
    ensures keeps { Keeps table.old table.new }
    ensures stands { IfOk result (λ number. StandsWhereFound table.new number) }
    ensures told { IfOk result (λ number. answer table.new number ≡ entry_told (answers table.old found.now) source.entry) }
{
    match source {
        Some(Source::Written(written)) => number_of_written(table, written),
        Some(Source::Term(place)) => Ok(found_at(found, place.0)),
        None => Ok(None),
    }
}
