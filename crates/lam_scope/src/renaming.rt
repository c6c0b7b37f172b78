//! Renaming a binder together with its uses.
ghost use Rattle.std.specs.Prelude.{◌≡◌, ◌↔◌, ◌∷◌, List, map, slice_index_or, [], IfOk, IfErr, IsTrue};
ghost use Rattle.std.specs.Option.{option_map};
ghost use Rattle.std.specs.List.{list_all};
ghost use Rattle.lam_token.specs.Edits.{IsOne, IsNameKind};
ghost use Rattle.lam_syntax.specs.Letters.{letters};
ghost use Rattle.lam_syntax.specs.Trees.{CommandTree};
ghost use Rattle.lam_scope.specs.Names.{binds};
ghost use Rattle.lam_scope.specs.Tables.{binder_in, binder_numbered};
ghost use Rattle.lam_scope.specs.TableViews.{binder_number, binder_of, origin_of, text_binder, text_use, rows_of};
ghost use Rattle.lam_scope.specs.inner.Bearers.{bears, told_of, bearers, takes, is_answer, keeps, all_keep, IsUnfit};
ghost use Rattle.lam_scope.specs.Renames.{kind_bound, HasName, AreRenamed, IsRefused};
ghost use Rattle.lam_scope.specs.Views.{AreScopesOf, table_of, uses_in};

use crate::numbers::{Binder, Origin};
use crate::rename_fault::RenameFault;
use crate::rows::{BinderRow, Rows, UseRow};
use crate::scopes::{Scopes, answer_of};
use crate::seen::Bound;
use lam_syntax::Text;
use lam_token::{Kind, Span, is_name, is_type_name};
use std::alloc::{AllocError, Global};

impl Scopes {
    /// Returns the tokens to replace to rename a binder, in text order: its own and those of its uses. The new name must be a
    /// name for a binder of names and a type name for a binder of type names, and must leave each name and type name bound as it
    /// was; the first of these that fails is the error. It may be the old name. The binder must not be an underscore.
    #[tactic(auto, using(crate::proofs::RenamedBinders::bound_kind))]
    pub fn rename(&self, alloc: Global, binder: Binder, new: &str) -> Result<Vec<Span>, RenameFault>
        ensures renamed { (commands : List CommandTree) → AreScopesOf self.now commands → HasName commands binder.0 → IfOk result (λ spans. AreRenamed commands binder.0 new.now spans.items) }
        ensures refused { (commands : List CommandTree) → AreScopesOf self.now commands → HasName commands binder.0 → IfErr result (IsRefused commands binder.0 new.now) }
    {
        let kind = kind_bound(&self.rows.binders, binder);
        if !is_of(kind, new) {
            return Err(unfit(kind, new));
        }
        let answer = answer_of(&self.rows.binders, binder);
        if !keeps_binding(alloc, &self.rows, answer, new)? {
            return Err(RenameFault::ChangesBinding);
        }
        let spans = self.with_uses(alloc, binder)?;
        Ok(spans)
    }

    /// Returns the token of a binder, followed by those of its uses.
    fn with_uses(&self, alloc: Global, binder: Binder) -> Result<Vec<Span>, AllocError>
        ensures { IfOk result (λ spans. spans.items ≡ (binder_numbered (table_of self.now) binder.0).token ∷ slice_index_or (uses_in self.now) (binder_numbered (table_of self.now) binder.0).answer []) }
    {
        let mut spans = Vec::new(alloc);
        spans.push(self.token_of(binder))?;
        spans.extend_from_slice(self.uses_of(binder))?;
        Ok(spans)
    }
}

/// Returns whether a binder is one of names or of type names.
#[tactic(auto, using(crate::proofs::Reading::reading))]
fn kind_bound(binders: &[BinderRow], binder: Binder) -> Kind
    ensures { result ≡ kind_bound (binder_in (map text_binder binders.now) binder.0).origin }
{
    match binders.get(binder.0) {
        Some(row) => kind_by(row.origin),
        None => Kind::TypeName,
    }
}

fn kind_by(origin: Option<Origin>) -> Kind
    ensures { result ≡ kind_bound (origin_of origin) }
{
    match origin {
        None => Kind::TypeName,
        Some(Origin::TypeName) => Kind::TypeName,
        Some(Origin::Lambda(_)) => Kind::Name,
        Some(Origin::Term(_)) => Kind::Name,
        Some(Origin::Declaration(_)) => Kind::Name,
    }
}

/// Whether the text is a name, or a type name, according to `kind`.
fn is_of(kind: Kind, text: &str) -> bool
    requires { IsNameKind kind }
    ensures { IsTrue result ↔ IsOne kind text.now }
{
    match kind {
        Kind::TypeName => is_type_name(text),
        _ => is_name(text),
    }
}

/// Returns why a text that is not of this kind can't be the new name.
fn unfit(kind: Kind, text: &str) -> RenameFault
    requires name { IsNameKind kind }
    requires other { IsOne kind text.now → ⊥ }
    ensures { IsUnfit kind text.now result }
{
    let other = match kind {
        Kind::TypeName => is_name(text),
        _ => is_type_name(text),
    };
    if other {
        RenameFault::WrongKind
    } else {
        RenameFault::NotAName
    }
}

/// Whether every use is still bound to its binder once the binders with that answer have the new name.
fn keeps_binding(alloc: Global, rows: &Rows, answer: Binder, new: &str) -> Result<bool, AllocError>
    ensures { IfOk result (λ keeps. keeps ≡ all_keep answer.0 new.now (rows_of rows.now).binders (rows_of rows.now).uses) }
{
    let bearers = bearers_of(alloc, &rows.binders, answer, new)?;
    Ok(all_keep(&rows.binders, &bearers, answer, new, &rows.uses))
}

/// For each binder, the answer of the innermost binder with the new name among itself and those outside of it.
fn bearers_of(
    alloc: Global,
    binders: &[BinderRow],
    answer: Binder,
    new: &str,
) -> Result<Vec<Option<Binder>>, AllocError>
    ensures { IfOk result (λ found. map (option_map binder_number) found.items ≡ bearers answer.0 new.now (map text_binder binders.now)) }
{
    let mut found = Vec::with_capacity(alloc, binders.len())?;
    for i in 0..binders.len() {
        let row = &binders[i];
        let bearer = if bears(row, answer, new) {
            Some(row.answer)
        } else {
            told_of(&found, row.outer)
        };
        found.push(bearer)?;
    }
    Ok(found)
}

/// Whether a binder has the new name once those with that answer are renamed.
fn bears(row: &BinderRow, answer: Binder, new: &str) -> bool
    ensures { result ≡ bears answer.0 new.now (text_binder row.now) }
{
    match &row.name {
        None => false,
        Some(name) => row.answer.0 == answer.0 || name.as_str() == new,
    }
}

/// Returns the entry of `told` for a binder, if there is a binder.
fn told_of(told: &[Option<Binder>], binder: Option<Binder>) -> Option<Binder>
    ensures { option_map binder_number result ≡ told_of (map (option_map binder_number) told.now) (option_map binder_number binder) }
{
    let at = binder?;
    match told.get(at.0) {
        Some(found) => *found,
        None => None,
    }
}

/// Whether each of these uses is still bound to its binder.
fn all_keep(
    binders: &[BinderRow],
    told: &[Option<Binder>],
    answer: Binder,
    new: &str,
    uses: &[UseRow],
) -> bool
    ensures { result ≡ list_all (keeps answer.0 new.now (map text_binder binders.now) (map (option_map binder_number) told.now)) (map text_use uses.now) }
{
    for i in 0..uses.len() {
        let used = &uses[i];
        if !keeps(binders, told, answer, new, used) {
            return false;
        }
    }
    true
}

/// Whether a use is still bound to its binder: if it has the new name, the innermost binder with that name must be its own.
fn keeps(
    binders: &[BinderRow],
    told: &[Option<Binder>],
    answer: Binder,
    new: &str,
    used: &UseRow,
) -> bool
    ensures { result ≡ keeps answer.0 new.now (map text_binder binders.now) (map (option_map binder_number) told.now) (text_use used.now) }
{
    if !takes(binders, answer, new, used) {
        return true;
    }
    is_answer(told_of(told, used.inner), used.bound)
}

/// Whether a use has the new name once the binders with that answer are renamed.
fn takes(binders: &[BinderRow], answer: Binder, new: &str, used: &UseRow) -> bool
    ensures { result ≡ takes answer.0 new.now (map text_binder binders.now) (text_use used.now) }
{
    match used.bound {
        None => is_name_of(&used.free, new),
        Some(bound) => bound.binder.0 == answer.0 || has_name(binders, bound.binder, new),
    }
}

fn is_name_of(name: &Option<Text>, new: &str) -> bool
    ensures { result ≡ binds (option_map (λ x. letters x) name.now) new.now }
{
    match name {
        None => false,
        Some(name) => name.as_str() == new,
    }
}

/// Whether the binder has that name.
#[tactic(auto, using(crate::proofs::Reading::reading))]
fn has_name(binders: &[BinderRow], binder: Binder, new: &str) -> bool
    ensures { result ≡ binds (binder_in (map text_binder binders.now) binder.0).name new.now }
{
    match binders.get(binder.0) {
        None => false,
        Some(row) => is_name_of(&row.name, new),
    }
}

/// Whether the binder found is the one that the use is bound to, or there is neither.
fn is_answer(found: Option<Binder>, bound: Option<Bound>) -> bool
    ensures { result ≡ is_answer (option_map binder_number found) (option_map binder_of bound) }
{
    match (found, bound) {
        (None, None) => true,
        (Some(binder), Some(bound)) => binder.0 == bound.binder.0,
        _ => false,
    }
}
