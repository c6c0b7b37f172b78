//! Look-ups by index: of types found, and of where the context entry that a note or a declaration gives is from.

ghost use Rattle.std.specs.Prelude.{◌≡◌, List, Option, get_or, map, None, IfOk};
ghost use Rattle.lam_rules.specs.Types.{Typ};
ghost use Rattle.lam_rules.specs.TermViews.{written_of};
ghost use Rattle.lam_scope.specs.Places.{statement_numbered};
ghost use Rattle.lam_scope.specs.Views.{statement_of};
ghost use Rattle.lam_typing.specs.inner.Notes.{entry_told, noted_by};
ghost use Rattle.lam_typing.specs.inner.Seeing.{note_among};
ghost use Rattle.lam_scope.specs.Bindings.{declared_type};

use crate::noting::{Note, Source};
use lam_rules::{Ty, TyNo, copy_of};
use lam_scope::Statement;
use std::alloc::AllocError;

/// Returns the type id at an index, or `None` if it has none or is past the end.
pub(crate) fn found_at(found: &[Option<TyNo>], number: usize) -> Option<TyNo>
    ensures { result ≡ get_or found.now number None }
{
    if number >= found.len() {
        return None;
    }
    found[number]
}

/// Returns where the entry of the binder of the lambda at that index is from.
pub(crate) fn written_at<'t>(notes: &[Note<'t>], number: usize) -> Option<Source<'t>>
    ensures { (found : List (Option Typ)) → entry_told found result ≡ (note_among (noted_by found notes.now) number).written }
{
    if number >= notes.len() {
        return None;
    }
    match notes[number] {
        Note::Lambda(written) => Some(Source::Written(written)),
        Note::Variable(_) => None,
        Note::Nothing => None,
    }
}

/// Returns where the entry of the binder of the variable at that index is from.
pub(crate) fn bound_at<'t>(notes: &[Note<'t>], number: usize) -> Option<Source<'t>>
    ensures { (found : List (Option Typ)) → entry_told found result ≡ (note_among (noted_by found notes.now) number).bound }
{
    if number >= notes.len() {
        return None;
    }
    match notes[number] {
        Note::Lambda(_) => None,
        Note::Variable(source) => Some(source),
        Note::Nothing => None,
    }
}

/// Returns where the entry of the binder declared by the statement at that index is from.
pub(crate) fn declared_at<'t>(statements: &'t [Statement], number: usize) -> Option<Source<'t>>
    ensures { (found : List (Option Typ)) → entry_told found result ≡ declared_type (statement_numbered (map statement_of statements.now) number) }
{
    if number >= statements.len() {
        return None;
    }
    match &statements[number] {
        Statement::Definition(_) => None,
        Statement::Declaration(written) => Some(Source::Written(written)),
        Statement::Abbreviation(_) => None,
        Statement::Evaluation(_) => None,
    }
}

/// Returns a copy of a written type.
pub(crate) fn copy_of_written(written: &Option<Ty>) -> Result<Option<Ty>, AllocError>
    ensures { IfOk result (λ copy. written_of copy ≡ written_of written.now) }
{
    match written {
        Some(ty) => Ok(Some(copy_of(ty)?)),
        None => Ok(None),
    }
}
