//! A pass over the subterms of a document that notes which binders' context entries they refer to, and where these entries are
//! from. An analysis uses the entries written at lambdas, a derivation the entry of each variable.

ghost use Rattle.std.specs.Prelude.{map, IfOk, OnOk};
ghost use Rattle.lam_rules.specs.Terms.{Term, if_then_else, variable, lambda, apply, let_in, record_term};
ghost use Rattle.lam_rules.specs.TermViews.{term_of, terms_of, written_of};
ghost use Rattle.lam_scope.specs.Views.{statement_of};
ghost use Rattle.lam_typing.specs.inner.Notes.{IsEntryAt, NotesTerm, NotesFields, NotesOne, NotesStatement, NotesDocument, IsLeaf, IsOver};

use lam_rules::{Core, Ty};
use lam_scope::{Place, Statement};
use std::alloc::{AllocError, Global};

/// Where the context entry of a binder is from.
#[derive(Clone, Copy)]
pub(crate) enum Source<'t> {
    /// The written type of the binder.
    Written(&'t Option<Ty>),
    /// The type of this subterm.
    Term(Place),
}

/// The context entry that a subterm refers to.
#[derive(Clone, Copy)]
pub(crate) enum Note<'t> {
    /// A lambda: its own binder's, which is the written type.
    Lambda(&'t Option<Ty>),
    /// A variable: that of its binder.
    Variable(Source<'t>),
    /// Any other subterm, and a variable with a de Bruijn index past all binders.
    Nothing,
}

/// What was noted so far.
#[derive(Drop)]
pub(crate) struct Notes<'t> {
    /// Where the entries of the binders in scope for the next subterm are from, outermost first.
    pub sources: Vec<Source<'t>>,
    /// The note of each subterm, in order.
    pub noted: Vec<Note<'t>>,
}

/// Returns the notes of a document's subterms. `places` is the number of them.
pub(crate) fn note_statements<'t>(
    alloc: Global,
    places: usize,
    statements: &'t [Statement],
) -> Result<Vec<Note<'t>>, AllocError>
    ensures { IfOk result (λ noted. NotesDocument noted.items (map statement_of statements.now)) }
{
    let mut notes = Notes {
        sources: Vec::with_capacity(alloc, statements.len())?,
        noted: Vec::with_capacity(alloc, places)?,
    };
    for i in 0..statements.len() {
        note_statement(&mut notes, &statements[i])?;
    }
    Ok(notes.noted)
}

fn note_statement<'t>(notes: &mut Notes<'t>, statement: &'t Statement) -> Result<(), AllocError>
    ensures { OnOk result (NotesStatement notes.old notes.new (statement_of statement.now)) }
{
    match statement {
        Statement::Definition(core) => {
            let place = note_term(notes, core)?;
            notes.sources.push(Source::Term(place))?;
            Ok(())
        }
        Statement::Declaration(written) => {
            notes.sources.push(Source::Written(written))?;
            Ok(())
        }
        Statement::Abbreviation(_) => Ok(()),
        Statement::Evaluation(core) => {
            note_term(notes, core)?;
            Ok(())
        }
    }
}

/// Adds the notes of a term, whose subterms all come after those noted so far. Returns the term's own index.
#[cycle(note_term)]
fn note_term<'t>(notes: &mut Notes<'t>, term: &'t Core) -> Result<Place, AllocError>
    ensures { IfOk result (λ place. NotesTerm notes.old notes.new (term_of term.now) place.0) }
{
    match term {
        Core::True => note_leaf(notes),
        Core::False => note_leaf(notes),
        Core::If(parts) => note_if(notes, &parts.0, &parts.1, &parts.2),
        Core::Num(_) => note_leaf(notes),
        Core::Succ(operand) => note_over(notes, operand),
        Core::Pred(operand) => note_over(notes, operand),
        Core::IsZero(operand) => note_over(notes, operand),
        Core::Var(index) => note_variable(notes, *index),
        Core::Free(_) => note_leaf(notes),
        Core::Abs(parts) => note_lambda(notes, &parts.0, &parts.1),
        Core::App(parts) => note_apply(notes, &parts.0, &parts.1),
        Core::Unit => note_leaf(notes),
        Core::Ascribe(parts) => note_over(notes, &parts.0),
        Core::Let(parts) => note_let(notes, &parts.0, &parts.1),
        Core::Record(fields) => note_record(notes, fields),
        Core::Proj(parts) => note_over(notes, &parts.0),
        Core::Fix(operand) => note_over(notes, operand),
    }
}

/// Notes a term without parts that is not a variable.
fn note_leaf<'t>(notes: &mut Notes<'t>) -> Result<Place, AllocError>
    ensures { (e : Term) → IsLeaf e → IfOk result (λ place. NotesTerm notes.old notes.new e place.0) }
{
    note_here(notes, Note::Nothing)
}

/// Notes a term with one part that binds nothing.
#[cycle(note_term)]
fn note_over<'t>(notes: &mut Notes<'t>, operand: &'t Core) -> Result<Place, AllocError>
    ensures { (e : Term) → IsOver e (term_of operand.now) → IfOk result (λ place. NotesTerm notes.old notes.new e place.0) }
{
    note_term(notes, operand)?;
    note_here(notes, Note::Nothing)
}

#[cycle(note_term)]
fn note_if<'t>(
    notes: &mut Notes<'t>,
    condition: &'t Core,
    then_term: &'t Core,
    else_term: &'t Core,
) -> Result<Place, AllocError>
    ensures { IfOk result (λ place. NotesTerm notes.old notes.new (if_then_else (term_of condition.now) (term_of then_term.now) (term_of else_term.now)) place.0) }
{
    note_term(notes, condition)?;
    note_term(notes, then_term)?;
    note_term(notes, else_term)?;
    note_here(notes, Note::Nothing)
}

/// Notes a variable, which has the entry of its binder.
fn note_variable<'t>(notes: &mut Notes<'t>, index: usize) -> Result<Place, AllocError>
    ensures { IfOk result (λ place. NotesTerm notes.old notes.new (variable index) place.0) }
{
    let note = note_of_index(&notes.sources, index);
    note_here(notes, note)
}

#[cycle(note_term)]
fn note_lambda<'t>(
    notes: &mut Notes<'t>,
    written: &'t Option<Ty>,
    body: &'t Core,
) -> Result<Place, AllocError>
    ensures { IfOk result (λ place. NotesTerm notes.old notes.new (lambda (written_of written.now) (term_of body.now)) place.0) }
{
    notes.sources.push(Source::Written(written))?;
    note_term(notes, body)?;
    notes.sources.pop();
    note_here(notes, Note::Lambda(written))
}

#[cycle(note_term)]
fn note_apply<'t>(
    notes: &mut Notes<'t>,
    function: &'t Core,
    argument: &'t Core,
) -> Result<Place, AllocError>
    ensures { IfOk result (λ place. NotesTerm notes.old notes.new (apply (term_of function.now) (term_of argument.now)) place.0) }
{
    note_term(notes, function)?;
    note_term(notes, argument)?;
    note_here(notes, Note::Nothing)
}

/// Notes a let. The entry of its binder is the type of the bound term.
#[cycle(note_term)]
fn note_let<'t>(notes: &mut Notes<'t>, bound: &'t Core, body: &'t Core) -> Result<Place, AllocError>
    ensures { IfOk result (λ place. NotesTerm notes.old notes.new (let_in (term_of bound.now) (term_of body.now)) place.0) }
{
    let place = note_term(notes, bound)?;
    notes.sources.push(Source::Term(place))?;
    note_term(notes, body)?;
    notes.sources.pop();
    note_here(notes, Note::Nothing)
}

#[cycle(note_term)]
fn note_record<'t>(notes: &mut Notes<'t>, fields: &'t [(String, Core)]) -> Result<Place, AllocError>
    ensures { IfOk result (λ place. NotesTerm notes.old notes.new (record_term (terms_of fields.now)) place.0) }
{
    note_fields(notes, fields)?;
    note_here(notes, Note::Nothing)
}

/// Notes the terms of a record, from first to last.
#[cycle(note_term)]
fn note_fields<'t>(notes: &mut Notes<'t>, fields: &'t [(String, Core)]) -> Result<(), AllocError>
    ensures { OnOk result (NotesFields notes.old notes.new (terms_of fields.now)) }
{
    let Some((field, others)) = fields.split_first() else {
        return Ok(());
    };
    note_term(notes, &field.1)?;
    note_fields(notes, others)
}

/// Appends the note of the next subterm and returns its index.
fn note_here<'t>(notes: &mut Notes<'t>, note: Note<'t>) -> Result<Place, AllocError>
    ensures { IfOk result (λ place. NotesOne notes.old notes.new note.entry place.0) }
{
    let place = Place(notes.noted.len());
    notes.noted.push(note)?;
    Ok(place)
}

/// Returns the note of a variable with this de Bruijn index.
fn note_of_index<'t>(sources: &[Source<'t>], index: usize) -> Note<'t>
    ensures { IsEntryAt result index sources.now }
{
    if index >= sources.len() {
        return Note::Nothing;
    }
    Note::Variable(sources[sources.len() - 1 - index])
}
