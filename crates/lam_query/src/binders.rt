//! The binders in scope at a term, outermost first: those of the commands before its own, then those around it in its command.
ghost use Rattle.std.specs.Prelude.{◌≡◌, ◌≤◌, ◌∷◌, [], List, length, take, drop, map, get_or, None, All, IfOk, IfSome, IfNone};
ghost use Rattle.lam_token.specs.Cut.{AreTokensOf};
ghost use Rattle.lam_token.specs.Lexeme.{Lexeme, text_of};
ghost use Rattle.lam_scope.specs.Numbered.{StandsIfAny};
ghost use Rattle.lam_scope.specs.Tables.{binder_numbered, visible_at};
ghost use Rattle.lam_scope.specs.Views.{table_of};
ghost use Rattle.lam_typing.specs.Answers.{answer};
ghost use Rattle.lam_typing.specs.Checking.{types_in};
ghost use Rattle.lam_typing.specs.Typings.{types_of, entries_in};
ghost use Rattle.lam_query.specs.Analyses.{IsAnalysisOf};
ghost use Rattle.lam_query.specs.inner.Kept.{rows_of, placed};
ghost use Rattle.lam_query.specs.inner.Rows.{Front, nothing, AreRowsFrom};
ghost use Rattle.lam_query.specs.inner.SeenBinders.{name_seen, entries_seen, AreBindersBehind, AreEntriesBehind};

use crate::analyses::Analysis;
use lam_rules::TyNo;
use lam_scope::{Binder, Place, Scopes};
use lam_token::first_token;
use lam_typing::Typing;
use std::alloc::{AllocError, Global};

/// A binder in scope at a term.
#[derive(Clone, Copy)]
pub(crate) struct SeenBinder<'a> {
    /// `None` for an underscore.
    pub(crate) name: Option<&'a str>,
    /// Its context entry as a type id, if it has one.
    pub(crate) entry: Option<TyNo>,
}

impl Analysis {
    /// Returns the binders of the commands before the piece at this index, shadowed ones included, with entries in the analysis'
    /// own type table. A command begins with the name that it binds.
    pub(crate) fn binders_before<'t>(
        &self,
        alloc: Global,
        text: &'t str,
        number: usize,
    ) -> Result<Vec<SeenBinder<'t>>, AllocError>
        requires of { IsAnalysisOf text.now self.now }
        requires inside { number ≤ length self.now.rows.items }
        ensures names { IfOk result (λ made. (f : Front) → AreRowsFrom text.now nothing (placed 0 (rows_of (take number self.now.rows.items))) f (types_in self.now.types) self.now.dialect → AreBindersBehind f made.items) }
        ensures entries { IfOk result (λ made. (f : Front) → AreRowsFrom text.now nothing (placed 0 (rows_of (take number self.now.rows.items))) f (types_in self.now.types) self.now.dialect → self.now.row_faults.large ≡ None → AreEntriesBehind f made.items (types_in self.now.types) self.now.dialect) }
        ensures stand { IfOk result (λ made. All (λ b. StandsIfAny (types_in self.now.types) b.entry) made.items) }
    {
        let mut binders = Vec::new(alloc);
        let mut start = 0;
        for i in 0..number {
            let row = &self.rows[i];
            if let Some(entry) = row.name_entry() {
                let name = first_word(&text[start..start + row.end]);
                binders.push(SeenBinder { name, entry })?;
            }
            start += row.end;
        }
        Ok(binders)
    }
}

/// Returns the text of the first token of a piece, if it has one.
fn first_word(piece: &str) -> Option<&str>
    ensures some { IfSome result (λ word. (t : Lexeme) × (others : List Lexeme) × AreTokensOf piece.now (t ∷ others) × (word.now ≡ text_of t)) }
    ensures none { IfNone result (AreTokensOf piece.now []) }
{
    let (token, _) = first_token(piece, 0)?;
    Some(token.text())
}

/// Returns the binders in scope at a subterm without the first `outer` ones. Entries are ids in the typing's table, or `None` if
/// there is no typing.
pub(crate) fn inner_binders<'s>(
    alloc: Global,
    scopes: &'s Scopes,
    typing: Option<&Typing>,
    place: Place,
    outer: usize,
) -> Result<Vec<SeenBinder<'s>>, AllocError>
    ensures names { IfOk result (λ made. map name_seen made.items ≡ map (λ b. (binder_numbered (table_of scopes.now) b).name) (drop outer (visible_at (table_of scopes.now) place.0))) }
    ensures entries { IfSome typing.entry (λ t. IfOk result (λ made. entries_seen (types_of t.now) made.items ≡ map (λ b. get_or (entries_in t.now) b None) (drop outer (visible_at (table_of scopes.now) place.0)))) }
    ensures stand { IfSome typing.entry (λ t. IfOk result (λ made. All (λ b. StandsIfAny (types_of t.now) b.entry) made.items)) }
    ensures none { typing.entry ≡ None → IfOk result (λ made. All (λ b. b.entry ≡ None) made.items) }
{
    let visible = scopes.visible_at(alloc, place)?;
    let mut binders = Vec::new(alloc);
    for i in outer..visible.len() {
        let binder = visible[i];
        binders.push(SeenBinder {
            name: scopes.bound_name(binder),
            entry: entry_of(typing, binder),
        })?;
    }
    Ok(binders)
}

/// Returns the entry of a binder, if there is a typing and the binder has one in it.
fn entry_of(typing: Option<&Typing>, binder: Binder) -> Option<TyNo>
    ensures some { IfSome typing.entry (λ t. (answer (types_of t.now) result ≡ get_or (entries_in t.now) binder.0 None) × StandsIfAny (types_of t.now) result) }
    ensures none { typing.entry ≡ None → result ≡ None }
{
    typing?.type_of_binder(binder)
}
