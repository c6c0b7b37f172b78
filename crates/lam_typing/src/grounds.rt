//! The data that derivations are made from.

use crate::noting::{Note, Source, note_statements};
use crate::proving::prove_term;
use crate::reading::{bound_at, copy_of_written};
use crate::typing::Typing;
use lam_rules::{Ty, TypeProof};
use lam_scope::{Place, Resolved};
use std::alloc::{AllocError, Global};

/// A typing, its document, and the context entries that the document's subterms refer to.
#[derive(Drop)]
pub(crate) struct Grounds<'t> {
    pub(crate) typing: &'t Typing,
    pub(crate) resolved: &'t Resolved,
    /// The note of each subterm, in order.
    pub(crate) noted: Vec<Note<'t>>,
}

impl<'t> Grounds<'t> {
    ghost use Rattle.std.specs.Prelude.{◌≡◌, get_or, None, IfOk, IfSome, IfNone};
    ghost use Rattle.lam_rules.specs.TermViews.{written_of};
    ghost use Rattle.lam_rules.specs.TypingViews.{typing_tree_of};
    ghost use Rattle.lam_scope.specs.Views.{statements_of};
    ghost use Rattle.lam_typing.specs.inner.Notes.{entry_told};
    ghost use Rattle.lam_typing.specs.inner.Seeing.{note_among};
    ghost use Rattle.lam_typing.specs.Typings.{IsTypingOf, IsProofAt};
    ghost use Rattle.lam_typing.specs.inner.Grounds.{found_in, noted_in, AreGrounds, AreGroundsOf};

    /// Walks the document once; it must be the one that was analysed.
    pub(crate) fn new(
        alloc: Global,
        typing: &'t Typing,
        resolved: &'t Resolved,
    ) -> Result<Grounds<'t>, AllocError>
        requires { IsTypingOf (statements_of resolved.now) typing.now }
        ensures { IfOk result (AreGroundsOf resolved.now typing.now) }
    {
        let noted = note_statements(alloc, resolved.place_count(), resolved.statements())?;
        Ok(Grounds {
            typing,
            resolved,
            noted,
        })
    }

    /// Returns a proof of the least type of a subterm, or `None` if no type was found for it.
    pub(crate) fn prove_at(
        &self,
        alloc: Global,
        place: Place,
    ) -> Result<Option<TypeProof>, AllocError>
        requires { AreGrounds self.now }
        ensures some { IfOk result (λ found. IfSome found (λ proof. IsProofAt (statements_of self.now.resolved.now) self.now.typing.now place.0 (typing_tree_of proof))) }
        ensures none { IfOk result (λ found. IfNone found (get_or (found_in self.now) place.0 None ≡ None)) }
    {
        if place.0 >= self.typing.found.len() {
            return Ok(None);
        }
        let term = self.resolved.core_at(place);
        let Some(made) = prove_term(alloc, self, term, place.0 + 1)? else {
            return Ok(None);
        };
        Ok(Some(made.proof))
    }

    /// Returns the context entry of the binder of the variable at a subterm index.
    pub(crate) fn entry_of(&self, place: usize) -> Result<Option<Ty>, AllocError>
        ensures { IfOk result (λ entry. written_of entry ≡ (note_among (noted_in self.now) place).bound) }
    {
        let source = bound_at(&self.noted, place);
        self.tree_of(source)
    }

    /// Returns the context entry that a source gives, as a tree of its own.
    fn tree_of(&self, source: Option<Source<'t>>) -> Result<Option<Ty>, AllocError>
        ensures { IfOk result (λ tree. written_of tree ≡ entry_told (found_in self.now) source.entry) }
    {
        match source {
            Some(Source::Written(written)) => copy_of_written(written),
            Some(Source::Term(place)) => self.typing.tree_at(place),
            None => Ok(None),
        }
    }
}
