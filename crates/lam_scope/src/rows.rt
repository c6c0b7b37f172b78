//! The rows of the tables that binding fills.
ghost use Rattle.std.specs.Prelude.{◌≡◌, ◌+◌, ◌<◌, length, map, drop, IfOk, OnOk};
ghost use Rattle.lam_syntax.specs.Letters.{letters};
ghost use Rattle.std.specs.Option.{option_map};
ghost use Rattle.lam_scope.specs.Slices.{first_start, AreInOrder, AreInOrder-prop};
ghost use Rattle.lam_scope.specs.Tables.{◌⊕◌, empty_table, binder_row, use_row, free_name, place_row, place_row_numbered};

use crate::numbers::{Binder, Origin, Place};
use crate::room::Room;
use crate::seen::{Bound, Seen};
use lam_syntax::{Identifier, Text};
use lam_token::Span;
use std::alloc::{AllocError, Global};

/// A binder of a name or of a type name.
#[derive(Drop)]
pub(crate) struct BinderRow {
    /// `None` for an underscore.
    pub(crate) name: Option<Text>,
    pub(crate) token: Span,
    /// The next binder of its kind outwards.
    pub(crate) outer: Option<Binder>,
    /// The binder reported for it and its uses: itself, or, for a letrec's derived lambda, the let's.
    pub(crate) answer: Binder,
    /// Where it takes its type from. `None` for the binder of a type name, and for that of a name until the walk is past the term
    /// or the lambda that gives it its type, since only then that subterm has its index.
    pub(crate) origin: Option<Origin>,
}

/// A use of a name or of a type name.
#[derive(Drop)]
pub(crate) struct UseRow {
    pub(crate) token: Span,
    /// The binder reported for it, or `None` if it is unbound.
    pub(crate) bound: Option<Bound>,
    /// The innermost binder of its kind in scope.
    pub(crate) inner: Option<Binder>,
    /// Its name if it is unbound; otherwise its binder has the name.
    pub(crate) free: Option<Text>,
}

/// A subterm.
#[derive(Drop)]
pub(crate) struct PlaceRow {
    pub(crate) span: Span,
    /// Whether it is the derived lambda or fix of a letrec, which are not in the text.
    pub(crate) derived: bool,
    /// Where its immediate subterms start in `Rows::terms`. They end where those of the next subterm start, or at the end.
    pub(crate) terms_start: usize,
    /// The innermost binder of names in scope.
    pub(crate) inner: Option<Binder>,
}

/// The tables of what was walked so far.
#[derive(Drop)]
pub(crate) struct Rows {
    pub(crate) alloc: Global,
    pub(crate) binders: Vec<BinderRow>,
    pub(crate) uses: Vec<UseRow>,
    pub(crate) places: Vec<PlaceRow>,
    /// The immediate subterms of all subterms.
    terms: Vec<Place>,
    ghost terms_in_order: { AreInOrder (λ p. p.terms_start) (length terms.items) places.items } by { AreInOrder-prop (λ p. p.terms_start) (length terms.items) places.items },
}

impl Rows {
    ghost use Rattle.lam_scope.specs.TableViews.{place_number, rows_of, terms_start, origin_of, with_origin};

    /// Empty tables with this much room.
    pub(crate) fn with_room(alloc: Global, room: Room) -> Result<Rows, AllocError>
        ensures { IfOk result (λ rows. rows_of rows ≡ empty_table) }
    {
        Ok(Rows {
            alloc,
            binders: Vec::with_capacity(alloc, room.binders)?,
            uses: Vec::with_capacity(alloc, room.uses)?,
            places: Vec::with_capacity(alloc, room.places)?,
            terms: Vec::with_capacity(alloc, room.places)?,
        })
    }

    /// The number of binders.
    pub(crate) fn binder_count(&self) -> usize
        ensures { result ≡ length self.now.binders.items }
    {
        self.binders.len()
    }

    /// The number of subterms.
    pub(crate) fn place_count(&self) -> usize
        ensures { result ≡ length self.now.places.items }
    {
        self.places.len()
    }

    /// Adds a binder inside of those in scope.
    pub(crate) fn add_binder(
        &mut self,
        name: Option<&Text>,
        token: Span,
        seen: &Seen<'_>,
        answer: Binder,
        origin: Option<Origin>,
    ) -> Result<(), AllocError>
        ensures table { OnOk result (rows_of self.new ≡ rows_of self.old ⊕ binder_row (option_map (λ x. letters x.now) name.entry) token seen.now answer.0 (origin_of origin)) }
        ensures binders { OnOk result (length self.new.binders.items ≡ length self.old.binders.items + 1) }
        ensures places { self.new.places ≡ self.old.places }
    {
        let copy = copy_of_name(name)?;
        let outer = seen.innermost();
        let row = BinderRow {
            name: copy,
            token,
            outer,
            answer,
            origin,
        };
        self.binders.push(row)?;
        Ok(())
    }

    /// Adds a use of a name or of a type name, given the binders of its kind in scope.
    pub(crate) fn add_use(&mut self, used: &Identifier, seen: &Seen<'_>) -> Result<(), AllocError>
        ensures table { OnOk result (rows_of self.new ≡ rows_of self.old ⊕ use_row (letters used.now.text) used.now.span seen.now) }
        ensures binders { self.new.binders ≡ self.old.binders }
        ensures places { self.new.places ≡ self.old.places }
    {
        let bound = seen.find(used.text.as_str());
        let free = copy_if_free(&used.text, bound)?;
        let row = UseRow {
            token: used.span,
            bound,
            inner: seen.innermost(),
            free,
        };
        self.uses.push(row)?;
        Ok(())
    }

    /// Adds the next subterm and returns its index.
    pub(crate) fn add_place(
        &mut self,
        span: Span,
        derived: bool,
        terms: &[Place],
        seen: &Seen<'_>,
    ) -> Result<Place, AllocError>
        ensures table { OnOk result (rows_of self.new ≡ rows_of self.old ⊕ place_row span derived (map place_number terms.now) seen.now) }
        ensures number { IfOk result (λ p. p.0 ≡ length self.old.places.items) }
        ensures binders { self.new.binders ≡ self.old.binders }
        ensures places { OnOk result (length self.new.places.items ≡ length self.old.places.items + 1) }
    {
        let number = Place(self.places.len());
        let row = PlaceRow {
            span,
            derived,
            terms_start: self.terms.len(),
            inner: seen.innermost(),
        };
        self.places.push(row)?;
        self.terms.extend_from_slice(terms)?;
        Ok(number)
    }

    /// Returns the immediate subterms of a subterm.
    #[tactic(auto, using(crate::proofs::Reading::terms_reading))]
    pub(crate) fn terms_of(&self, place: Place) -> &[Place]
        ensures { map place_number result.now ≡ (place_row_numbered (rows_of self.now) place.0).terms }
    {
        match self.places.get(place.0) {
            Some(row) => &self.terms[row.terms_start..self.terms_end(place)],
            None => &[],
        }
    }

    /// Returns where the immediate subterms of a subterm end.
    #[tactic(auto, using(crate::proofs::Reading::terms_reading))]
    fn terms_end(&self, place: Place) -> usize
        requires { place.0 < length self.now.places.items }
        ensures { result ≡ first_start terms_start (drop (place.0 + 1) self.now.places.items) (length self.now.terms.items) }
    {
        match self.places.get(place.0 + 1) {
            Some(next) => next.terms_start,
            None => self.terms.len(),
        }
    }

    /// Gives back spare room.
    pub(crate) fn trim(&mut self)
        ensures { rows_of self.new ≡ rows_of self.old }
    {
        self.binders.shrink_to_fit();
        self.uses.shrink_to_fit();
        self.places.shrink_to_fit();
        self.terms.shrink_to_fit();
    }

    /// Sets where a binder takes its type from.
    pub(crate) fn set_origin(&mut self, binder: Binder, origin: Origin)
        requires { binder.0 < length self.old.binders.items }
        ensures table { rows_of self.new ≡ with_origin binder.0 origin (rows_of self.old) }
        ensures binders { length self.new.binders.items ≡ length self.old.binders.items }
        ensures places { self.new.places ≡ self.old.places }
    {
        self.binders[binder.0].origin = Some(origin);
    }
}

/// Returns a copy of the name of a use if it is unbound.
fn copy_if_free(name: &Text, bound: Option<Bound>) -> Result<Option<Text>, AllocError>
    ensures { IfOk result (λ copy. option_map (λ x. letters x) copy ≡ free_name (letters name.now) (option_map (λ b. b.binder.0) bound)) }
{
    match bound {
        Some(_) => Ok(None),
        None => {
            let copy = name.clone()?;
            Ok(Some(copy))
        }
    }
}

/// Returns a copy of a name, if there is one.
fn copy_of_name(name: Option<&Text>) -> Result<Option<Text>, AllocError>
    ensures { IfOk result (λ copy. option_map (λ s. letters s) copy ≡ option_map (λ x. letters x.now) name.entry) }
{
    match name {
        None => Ok(None),
        Some(text) => {
            let copy = text.clone()?;
            Ok(Some(copy))
        }
    }
}
