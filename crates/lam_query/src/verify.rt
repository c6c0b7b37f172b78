//! Verification of a derivation against its text.
//!
//! Whoever made the derivation is not trusted: the steps must be those of one proof of typing; the context must list the names that
//! a term of the text sees, each with a type that it may have there; each step must follow by its rule from its premises, for that
//! term; and each must have the range of the part that it is about. The first of these that fails is named.
ghost use Rattle.std.specs.List.{AllZip};
ghost use Rattle.std.specs.Prelude.{◌≡◌, ◌<◌, ◌↔◌, IsTrue, List, [], length, Some, None, map, IfOk, MatchOption, false};
ghost use Rattle.lam_rules.specs.TermViews.{written_of};
ghost use Rattle.lam_scope.specs.Names.{shown_name};
ghost use Rattle.lam_scope.specs.Places.{places_of};
ghost use Rattle.lam_scope.specs.PlacedTerms.{document_terms, tree_in};
ghost use Rattle.lam_scope.specs.Tables.{binder_numbered, place_row_numbered};
ghost use Rattle.lam_scope.specs.TableViews.{binder_number};
ghost use Rattle.lam_scope.specs.Views.{table_of, statements_of};
ghost use Rattle.lam_syntax.specs.Trees.{CommandTree};
ghost use Rattle.lam_typing.specs.Fitting.{FitsAt};
ghost use Rattle.lam_typing.specs.Typings.{dialect_of};
ghost use Rattle.lam_query.specs.Steps.{last_span, span_in};
ghost use Rattle.lam_query.specs.Views.{derivation_of, entry_of, step_of};
ghost use Rattle.lam_query.specs.FirstFaults.{AreOfOneProof, IsResult};
ghost use Rattle.lam_query.specs.inner.Verifying.{IsContextResult, IsFirstNot, IsResultAt, IsResultIn, IsTextOf};

use crate::answers::{Derivation, FirstFault, Step};
use crate::misplaced_steps::{Placing, placing_of};
use crate::ranges::first_misranged;
use crate::reading::read;
use crate::typings::{Types, types_of};
use crate::wrong_steps::{copy_of_entry, first_wrong};
use lam_rules::{Dialect, Ty};
use lam_scope::{Binder, Origin, Place, Scopes, bind};
use lam_token::Span;
use lam_typing::Typing;
use std::alloc::{AllocError, Global};

/// A text whose names are bound and whose terms are typed.
#[derive(Drop)]
struct TypedText {
    scopes: Scopes,
    types: Types,
    dialect: Dialect,
}

/// Returns the first error in a derivation, or `None` if it is a valid one about a term of the text.
pub fn first_fault(
    alloc: Global,
    text: &str,
    derivation: &Derivation,
    dialect: Dialect,
) -> Result<Option<FirstFault>, AllocError>
    ensures { IfOk result (λ fault. IsResult text.now (derivation_of derivation.now) dialect fault) }
{
    if derivation.steps.is_empty() {
        return Ok(Some(FirstFault::NoStep));
    }
    match placing_of(alloc, &derivation.steps)? {
        Placing::Misplaced(number) => Ok(Some(FirstFault::Premises(number))),
        Placing::Loose => Ok(Some(FirstFault::Loose(derivation.steps.len() - 1))),
        Placing::OneTyping => fault_in_text(alloc, text, derivation, dialect),
    }
}

/// The first error in a derivation whose steps are those of one proof of typing.
fn fault_in_text(
    alloc: Global,
    text: &str,
    derivation: &Derivation,
    dialect: Dialect,
) -> Result<Option<FirstFault>, AllocError>
    requires { AreOfOneProof (derivation_of derivation.now).steps }
    ensures { IfOk result (λ fault. IsResult text.now (derivation_of derivation.now) dialect fault) }
{
    let parsed = read(alloc, text)?;
    let scopes = bind(alloc, &parsed.commands)?;
    let Some(types) = types_of(alloc, &parsed.commands, &scopes, dialect)? else {
        return Ok(Some(FirstFault::TooLarge));
    };
    let typed = TypedText {
        scopes,
        types,
        dialect,
    };
    typed.fault_of(alloc, derivation)
}

/// The types of a context.
fn entries_of(
    alloc: Global,
    context: &[(String, Option<Ty>)],
) -> Result<Vec<Option<Ty>>, AllocError>
    ensures { IfOk result (λ entries. map written_of entries.items ≡ map (λ e. e.type) (map entry_of context.now)) }
{
    let mut entries = Vec::with_capacity(alloc, context.len())?;
    for i in 0..context.len() {
        let entry = &context[i];
        entries.push(copy_of_entry(entry.1.as_ref())?)?;
    }
    Ok(entries)
}

impl TypedText {
    /// The first error in a derivation as one about the first term with the range of its last step, or `None` if it is a valid one
    /// about a term with that range.
    fn fault_of(
        &self,
        alloc: Global,
        derivation: &Derivation,
    ) -> Result<Option<FirstFault>, AllocError>
        requires { AreOfOneProof (derivation_of derivation.now).steps }
        ensures { IfOk result (λ fault. (commands : List CommandTree) → IsTextOf commands self.now
            → IsResultIn commands (derivation_of derivation.now) self.now.dialect fault) }
    {
        let mut first = None;
        for i in 0..self.types.resolved.place_count() {
            let place = Place(i);
            if !ends_at(&self.scopes, place, &derivation.steps) {
                continue;
            }
            let Some(fault) = self.fault_at(alloc, derivation, place)? else {
                return Ok(None);
            };
            first = Some(first.unwrap_or(fault));
        }
        let last = derivation.steps.len().saturating_sub(1);
        Ok(Some(first.unwrap_or(FirstFault::NoTerm(last))))
    }

    /// The first error in a derivation as one about the term with this id, or `None` if it is a valid one about that term.
    fn fault_at(
        &self,
        alloc: Global,
        derivation: &Derivation,
        place: Place,
    ) -> Result<Option<FirstFault>, AllocError>
        requires one { AreOfOneProof (derivation_of derivation.now).steps }
        requires written { (place_row_numbered (table_of self.now.scopes) place.0).derived ≡ false }
        requires inside { place.0 < length (places_of [] (statements_of self.now.types.resolved)) }
        ensures { IfOk result (λ fault. (commands : List CommandTree) → IsTextOf commands self.now
            → IsResultAt (tree_in (document_terms commands) place.0) (derivation_of derivation.now) self.now.dialect fault) }
    {
        let entries = entries_of(alloc, &derivation.context)?;
        if let Some(fault) = self.context_fault(alloc, derivation, &entries, place)? {
            return Ok(Some(fault));
        }
        let term = self.types.resolved.core_at(place);
        let steps = &derivation.steps;
        if let Some(number) = first_wrong(alloc, entries, term, steps, self.dialect)? {
            return Ok(Some(FirstFault::Step(number)));
        }
        match first_misranged(alloc, &self.scopes, place, steps)? {
            Some(number) => Ok(Some(FirstFault::Range(number))),
            None => Ok(None),
        }
    }

    /// The first error in the context of a derivation with these types in it, as one about the term with this id, or `None` if the
    /// context fits that term.
    fn context_fault(
        &self,
        alloc: Global,
        derivation: &Derivation,
        entries: &[Option<Ty>],
        place: Place,
    ) -> Result<Option<FirstFault>, AllocError>
        requires inside { place.0 < length (places_of [] (statements_of self.now.types.resolved)) }
        requires listed { map written_of entries.now ≡ map (λ e. e.type) (derivation_of derivation.now).context }
        ensures { IfOk result (λ fault. (commands : List CommandTree) → IsTextOf commands self.now
            → IsContextResult (tree_in (document_terms commands) place.0) (derivation_of derivation.now) self.now.dialect fault) }
    {
        let binders = self.scopes.visible_at(alloc, place)?;
        if !are_named(&self.scopes, &binders, &derivation.context) {
            return Ok(Some(FirstFault::Names));
        }
        let origins = self.types.resolved.origins();
        match first_unfit(&self.types.typing, origins, &binders, entries)? {
            Some(number) => Ok(Some(FirstFault::Entry(number))),
            None => Ok(None),
        }
    }
}

/// Whether the term with this id is in the text, and the last step is one of typing and has its span.
fn ends_at(scopes: &Scopes, place: Place, steps: &[Step]) -> bool
    ensures { let row = place_row_numbered (table_of scopes.now) place.0 in
        IsTrue result ↔ ((row.derived ≡ false) × (last_span (map step_of steps.now) ≡ Some row.span)) }
{
    if scopes.is_derived(place) {
        return false;
    }
    match steps.last() {
        Some(step) => is_at(step, scopes.span_of(place)),
        None => false,
    }
}

/// Whether a step is a typing step with this span.
fn is_at(step: &Step, span: Span) -> bool
    ensures { IsTrue result ↔ (span_in (Some (step_of step.now).conclusion) ≡ Some span) }
{
    match step {
        Step::Typing { span: own, .. } => *own == span,
        Step::Sub { .. } => false,
    }
}

/// Whether the context lists the names of these binders.
fn are_named(scopes: &Scopes, binders: &[Binder], context: &[(String, Option<Ty>)]) -> bool
    ensures { IsTrue result
        ↔ (map (λ e. e.name) (map entry_of context.now) ≡ map (λ b. shown_name (binder_numbered (table_of scopes.now) b).name) (map binder_number binders.now)) }
{
    if context.len() != binders.len() {
        return false;
    }
    for i in 0..binders.len() {
        let entry = &context[i];
        if entry.0.as_str() != scopes.name_of(binders[i]) {
            return false;
        }
    }
    true
}

/// The index of the first entry, outermost first, that does not fit its binder.
fn first_unfit(
    typing: &Typing,
    origins: &[Origin],
    binders: &[Binder],
    entries: &[Option<Ty>],
) -> Result<Option<usize>, AllocError>
    requires { length entries.now ≡ length binders.now }
    ensures { IfOk result (λ unfit. let fits = FitsAt origins.now typing.now (dialect_of typing.now) in
        MatchOption unfit (AllZip fits (map binder_number binders.now) (map written_of entries.now))
        (λ number. IsFirstNot fits (map binder_number binders.now) (map written_of entries.now) number)) }
{
    for i in 0..binders.len() {
        let entry = &entries[i];
        if !typing.fits(origins, binders[i], entry)? {
            return Ok(Some(i));
        }
    }
    Ok(None)
}
