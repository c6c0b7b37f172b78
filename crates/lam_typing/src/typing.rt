//! The types of a document's subterms and the context entries of its binders.

ghost use Rattle.std.specs.Prelude.{◌≡◌, ◌<◌, ℕ, get_or, length, Some, None, IfOk, IfSome, IfNone};
ghost use Rattle.lam_rules.specs.declared.numbers.TyNo.{TyNo as Number};

use crate::blame::Blame;
use crate::grounds::Grounds;
use crate::reading::found_at;
use lam_rules::{Dialect, Ty, TyNo, TyTable, TypeProof};
use lam_scope::{Binder, Place, Resolved};
use std::alloc::{AllocError, Global};

/// The least types of a document's subterms and the least context entries of its binders, in one type table, and the subterms at
/// fault for having no type.
#[derive(Drop)]
pub struct Typing {
    pub(crate) table: TyTable,
    /// The type of each subterm that was analysed, in order.
    pub(crate) found: Vec<Option<TyNo>>,
    /// The context entry of each binder, by binder index.
    pub(crate) entries: Vec<Option<TyNo>>,
    pub(crate) blames: Vec<Blame>,
    pub(crate) dialect: Dialect,
    pub ghost each_found: { (i : ℕ) (number : Number) → get_or found.items i None ≡ Some number → number.index < length table },
    pub ghost each_entry: { (i : ℕ) (number : Number) → get_or entries.items i None ≡ Some number → number.index < length table },
}

impl Typing {
    ghost use Rattle.lam_rules.specs.TermViews.{written_of};
    ghost use Rattle.lam_rules.specs.TypingViews.{typing_tree_of};
    ghost use Rattle.lam_scope.specs.Views.{statements_of};
    ghost use Rattle.lam_typing.specs.Answers.{answer, StandsWhereFound};
    ghost use Rattle.lam_typing.specs.Walk.{blames_of};
    ghost use Rattle.lam_typing.specs.Typings.{types_of, found_of, entries_in, blamed_in, IsTypingOf, IsProofAt};

    /// Returns the least type of a subterm, if it has one and was analysed.
    pub fn type_at(&self, place: Place) -> Option<TyNo>
        ensures found { answer (types_of self.now) result ≡ get_or (found_of self.now) place.0 None }
        ensures stands { StandsWhereFound (types_of self.now) result }
    {
        found_at(&self.found, place.0)
    }

    /// Returns the least context entry of a binder: its written type, or the least type of its term if that was analysed. `None`
    /// for the binder of a type name.
    pub fn type_of_binder(&self, binder: Binder) -> Option<TyNo>
        ensures entry { answer (types_of self.now) result ≡ get_or (entries_in self.now) binder.0 None }
        ensures stands { StandsWhereFound (types_of self.now) result }
    {
        found_at(&self.entries, binder.0)
    }

    /// Returns a proof by the declarative rules of the least type of a subterm, in the context of the least entries of the
    /// binders in scope, or `None` if no type was found for it. `resolved` must be the document that was analysed; it is walked
    /// once for the notes of its subterms, and once more up to this one.
    pub fn prove_at(
        &self,
        alloc: Global,
        resolved: &Resolved,
        place: Place,
    ) -> Result<Option<TypeProof>, AllocError>
        requires of { IsTypingOf (statements_of resolved.now) self.now }
        ensures some { IfOk result (λ found. IfSome found (λ proof. IsProofAt (statements_of resolved.now) self.now place.0 (typing_tree_of proof))) }
        ensures none { IfOk result (λ found. IfNone found (get_or (found_of self.now) place.0 None ≡ None)) }
    {
        Grounds::new(alloc, self, resolved)?.prove_at(alloc, place)
    }

    /// Returns the subterms at fault, in order.
    pub fn blamed(&self) -> &[Blame]
        ensures { blames_of result.now ≡ blamed_in self.now }
    {
        &self.blames
    }

    /// Returns the table that type ids refer to.
    pub fn table(&self) -> &TyTable
        ensures { result.now ≡ types_of self.now }
    {
        &self.table
    }

    /// Returns the least type of a subterm as a tree of its own, if it has one and was analysed.
    pub(crate) fn tree_at(&self, place: Place) -> Result<Option<Ty>, AllocError>
        ensures { IfOk result (λ tree. written_of tree ≡ get_or (found_of self.now) place.0 None) }
    {
        match self.type_at(place) {
            Some(number) => Ok(Some(self.table.tree(number)?)),
            None => Ok(None),
        }
    }
}
