//! The binders of a document, the uses of each, and what is in scope at each subterm.
ghost use Rattle.std.specs.Prelude.{◌≡◌, [], length, slice_index_or, map, position, IfOk};
ghost use Rattle.lam_syntax.specs.Letters.{letters};
ghost use Rattle.lam_syntax.specs.Views.{command_of};
ghost use Rattle.std.specs.Option.{option_map};
ghost use Rattle.lam_scope.specs.Tables.{binder_numbered, place_row_numbered, binder_at, binder_token_at, binder_used_at, visible_at, seen_in, binder_in, place_at};
ghost use Rattle.lam_scope.specs.Names.{shown_name};
ghost use Rattle.lam_scope.specs.TableViews.{binder_number, place_number, text_binder, text_use, rows_of};
ghost use Rattle.lam_scope.specs.Intervals.{AreRuns, AreRuns-prop};
ghost use Rattle.lam_scope.specs.RowIntervals.{place_interval, binder_interval, use_interval, answer_at, used_at};

use crate::intervals::{Interval, first_with, runs_of};
use crate::numbers::{Binder, Place};
use crate::own_words::{Target, find_number};
use crate::rows::{BinderRow, Rows, UseRow};
use crate::token_lists::TokenLists;
use lam_syntax::{Command, Text};
use lam_token::Span;
use std::alloc::{AllocError, Global};

/// What the names and type names of a document's commands are bound to. Borrows nothing from the commands.
#[derive(Drop)]
pub struct Scopes {
    pub(crate) rows: Rows,
    /// The tokens of the uses of each binder, by binder index. Those of a letrec are all listed at the let's binder.
    pub(crate) tokens: TokenLists,
    /// The blocks used to search by byte offset: among subterms, among tokens of binders, and among tokens of uses.
    place_runs: Vec<Interval>,
    binder_runs: Vec<Interval>,
    use_runs: Vec<Interval>,
    ghost places_run: { AreRuns place_runs.items (map place_interval rows.places.items) } by { AreRuns-prop place_runs.items (map place_interval rows.places.items) },
    ghost binders_run: { AreRuns binder_runs.items (map binder_interval rows.binders.items) } by { AreRuns-prop binder_runs.items (map binder_interval rows.binders.items) },
    ghost uses_run: { AreRuns use_runs.items (map use_interval rows.uses.items) } by { AreRuns-prop use_runs.items (map use_interval rows.uses.items) },
}

impl Scopes {
    ghost use Rattle.lam_scope.specs.Views.{table_of, uses_in, AreScopesOf};
    ghost use Rattle.lam_scope.specs.PlacedTerms.{variable_at, projection_at, document_terms, term_of};
    ghost use Rattle.lam_scope.specs.inner.OwnWords.{is_target};

    /// Makes the scopes from these rows and the tokens of the uses of their binders.
    pub(crate) fn new(alloc: Global, rows: Rows, tokens: TokenLists) -> Result<Scopes, AllocError>
        ensures rows { IfOk result (λ s. s.rows ≡ rows) }
        ensures tokens { IfOk result (λ s. s.tokens ≡ tokens) }
    {
        let place_runs = runs_of(alloc, &rows.places)?;
        let binder_runs = runs_of(alloc, &rows.binders)?;
        let use_runs = runs_of(alloc, &rows.uses)?;
        Ok(Scopes {
            rows,
            tokens,
            place_runs,
            binder_runs,
            use_runs,
        })
    }

    /// Returns the binder of the name or type name whose token starts at that byte offset, whether the token is a binder or a
    /// use. An underscore is not a name; the answer for a letrec's token and its uses is the let's binder.
    #[tactic(auto, using(crate::proofs::Reading::reading))]
    pub fn binder_at(&self, offset: usize) -> Option<Binder>
        ensures { option_map binder_number result ≡ binder_at (table_of self.now) offset }
    {
        match binder_token_at(&self.rows.binders, &self.binder_runs, offset) {
            Some(binder) => Some(binder),
            None => binder_used_at(&self.rows.uses, &self.use_runs, offset),
        }
    }

    /// Returns the tokens of the uses of a binder, in text order. A letrec's two binders have the same uses.
    #[tactic(auto, using(crate::proofs::Reading::reading))]
    pub fn uses_of(&self, binder: Binder) -> &[Span]
        ensures { result.now ≡ slice_index_or (uses_in self.now) (binder_numbered (table_of self.now) binder.0).answer [] }
    {
        let answer = answer_of(&self.rows.binders, binder);
        self.tokens.get(answer.0)
    }

    /// Returns the binders of names in scope at a subterm, outermost first, including shadowed ones and underscores.
    #[tactic(auto, using(crate::proofs::Reading::reading))]
    pub fn visible_at(&self, alloc: Global, place: Place) -> Result<Vec<Binder>, AllocError>
        ensures { IfOk result (λ bs. map binder_number bs.items ≡ visible_at (table_of self.now) place.0) }
    {
        let inner = innermost_at(&self.rows, place);
        let binders = self.rows.binders.as_slice();
        let mut found = chain(alloc, binders, inner)?;
        found.reverse();
        Ok(found)
    }

    /// Returns the innermost subterm that contains a byte: the first one in order that does (see `innermost_place`). The derived
    /// lambda and fix of a letrec are never returned.
    pub fn place_at(&self, offset: usize) -> Option<Place>
        ensures { option_map place_number result ≡ place_at (table_of self.now) offset }
    {
        match first_with(&self.place_runs, &self.rows.places, offset) {
            Some(index) => Some(Place(index)),
            None => None,
        }
    }

    /// Returns the half-open byte span of a subterm. The derived lambda and fix of a letrec have the span of its bound term.
    #[tactic(auto, using(crate::proofs::Reading::reading))]
    pub fn span_of(&self, place: Place) -> Span
        ensures { result ≡ (place_row_numbered (table_of self.now) place.0).span }
    {
        match self.rows.places.get(place.0) {
            Some(row) => row.span,
            None => NO_SPAN,
        }
    }

    /// Returns whether a subterm is a derived lambda or fix of a letrec, which are not in the text.
    #[tactic(auto, using(crate::proofs::Reading::derived_reading))]
    pub fn is_derived(&self, place: Place) -> bool
        ensures { result ≡ (place_row_numbered (table_of self.now) place.0).derived }
    {
        match self.rows.places.get(place.0) {
            Some(row) => row.derived,
            None => true,
        }
    }

    /// Returns the immediate subterms of a subterm, from left to right.
    pub fn terms_of(&self, place: Place) -> &[Place]
        ensures { map place_number result.now ≡ (place_row_numbered (table_of self.now) place.0).terms }
    {
        self.rows.terms_of(place)
    }

    /// Returns the variable whose token begins at that byte offset, or `None` if there is none. `commands` must be those that
    /// were bound; the search visits the terms before it.
    pub fn variable_at(&self, commands: &[Command], offset: usize) -> Option<Place>
        requires { AreScopesOf self.now (map command_of commands.now) }
        ensures { option_map place_number result ≡ variable_at offset (map command_of commands.now) }
    {
        self.place_of(commands, Target::Variable(offset))
    }

    /// Returns the projection whose label's token begins at that byte offset, or `None` if there is none. The search visits the
    /// terms before it.
    pub fn projection_at(&self, commands: &[Command], offset: usize) -> Option<Place>
        requires { AreScopesOf self.now (map command_of commands.now) }
        ensures { option_map place_number result ≡ projection_at offset (map command_of commands.now) }
    {
        self.place_of(commands, Target::Projection(offset))
    }

    /// Returns the subterm that is searched for. `commands` must be those that were bound.
    fn place_of(&self, commands: &[Command], target: Target) -> Option<Place>
        requires { AreScopesOf self.now (map command_of commands.now) }
        ensures { option_map place_number result ≡ position (λ t. is_target target (term_of t).own) (document_terms (map command_of commands.now)) }
    {
        let number = find_number(target, commands, self.rows.place_count())?;
        Some(Place(number))
    }

    /// Returns the name of a binder, or `_` for an underscore and for an index that no binder has.
    #[tactic(auto, using(crate::proofs::Reading::reading))]
    pub fn name_of(&self, binder: Binder) -> &str
        ensures { result.now ≡ shown_name (binder_numbered (table_of self.now) binder.0).name }
    {
        match self.rows.binders.get(binder.0) {
            Some(row) => shown_name(&row.name),
            None => "_",
        }
    }

    /// Returns the name of a binder, or `None` for an underscore and for an index that no binder has.
    #[tactic(auto, using(crate::proofs::Reading::reading))]
    pub fn bound_name(&self, binder: Binder) -> Option<&str>
        ensures { option_map (λ s. s.now) result ≡ (binder_numbered (table_of self.now) binder.0).name }
    {
        match self.rows.binders.get(binder.0) {
            Some(row) => written_name(&row.name),
            None => None,
        }
    }

    /// Returns the token of a binder. A letrec's two binders have the same token.
    #[tactic(auto, using(crate::proofs::Reading::reading))]
    pub fn token_of(&self, binder: Binder) -> Span
        ensures { result ≡ (binder_numbered (table_of self.now) binder.0).token }
    {
        match self.rows.binders.get(binder.0) {
            Some(row) => row.token,
            None => NO_SPAN,
        }
    }
}

/// The span returned for an index past the last subterm or binder.
const NO_SPAN: Span = Span { start: 0, end: 0 };

fn shown_name(name: &Option<Text>) -> &str
    ensures { result.now ≡ shown_name (option_map (λ s. letters s) name.now) }
{
    match name {
        Some(text) => text.as_str(),
        None => "_",
    }
}

fn written_name(name: &Option<Text>) -> Option<&str>
    ensures { option_map (λ s. s.now) result ≡ option_map (λ s. letters s) name.now }
{
    match name {
        Some(text) => Some(text.as_str()),
        None => None,
    }
}

/// Returns the binder reported for the uses of a binder: for a letrec's derived lambda, the let's.
#[tactic(auto, using(crate::proofs::Reading::reading))]
pub(crate) fn answer_of(binders: &[BinderRow], binder: Binder) -> Binder
    ensures { result.0 ≡ (binder_in (map text_binder binders.now) binder.0).answer }
{
    match binders.get(binder.0) {
        Some(row) => row.answer,
        None => binder,
    }
}

/// Returns the innermost binder in scope at a subterm, type names aside.
#[tactic(auto, using(crate::proofs::Reading::reading))]
fn innermost_at(rows: &Rows, place: Place) -> Option<Binder>
    ensures { option_map binder_number result ≡ (place_row_numbered (rows_of rows.now) place.0).inner }
{
    match rows.places.get(place.0) {
        Some(row) => row.inner,
        None => None,
    }
}

/// Returns the binder whose own token starts at that byte offset.
fn binder_token_at(binders: &[BinderRow], runs: &[Interval], offset: usize) -> Option<Binder>
    requires { AreRuns runs.now (map binder_interval binders.now) }
    ensures { option_map binder_number result ≡ binder_token_at offset (map text_binder binders.now) }
{
    match first_with(runs, binders, offset) {
        None => None,
        Some(index) => answer_at(binders, index),
    }
}

/// Returns the binder reported for the token of the binder with that index.
#[tactic(auto, using(crate::proofs::RowIntervals::row_reading))]
fn answer_at(binders: &[BinderRow], index: usize) -> Option<Binder>
    ensures { option_map binder_number result ≡ answer_at (map text_binder binders.now) index }
{
    match binders.get(index) {
        Some(row) => Some(row.answer),
        None => None,
    }
}

/// Returns the binder of the first use whose token starts at that byte offset.
fn binder_used_at(uses: &[UseRow], runs: &[Interval], offset: usize) -> Option<Binder>
    requires { AreRuns runs.now (map use_interval uses.now) }
    ensures { option_map binder_number result ≡ binder_used_at offset (map text_use uses.now) }
{
    match first_with(runs, uses, offset) {
        None => None,
        Some(index) => used_at(uses, index),
    }
}

/// Returns the binder of the use with that index.
#[tactic(auto, using(crate::proofs::RowIntervals::row_reading))]
fn used_at(uses: &[UseRow], index: usize) -> Option<Binder>
    ensures { option_map binder_number result ≡ used_at (map text_use uses.now) index }
{
    let row = uses.get(index)?;
    let bound = row.bound?;
    Some(bound.binder)
}

/// Collects a binder, the next one outwards, and so on.
#[tactic(auto, using(crate::proofs::Reading::reading))]
fn chain(
    alloc: Global,
    binders: &[BinderRow],
    first: Option<Binder>,
) -> Result<Vec<Binder>, AllocError>
    ensures { IfOk result (λ bs. map binder_number bs.items ≡ seen_in (map text_binder binders.now) (length binders.now) (option_map binder_number first)) }
{
    let mut found = Vec::new(alloc);
    let mut next = first;
    for i in 0..binders.len() {
        let Some(binder) = next else {
            return Ok(found);
        };
        found.push(binder)?;
        next = outer_of(binders, binder);
    }
    Ok(found)
}

#[tactic(auto, using(crate::proofs::Reading::reading))]
fn outer_of(binders: &[BinderRow], binder: Binder) -> Option<Binder>
    ensures { option_map binder_number result ≡ (binder_in (map text_binder binders.now) binder.0).outer }
{
    match binders.get(binder.0) {
        Some(row) => row.outer,
        None => None,
    }
}
