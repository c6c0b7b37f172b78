//! The names in scope at a term.
ghost use Rattle.std.specs.Prelude.{◌≡◌, ◌<◌, ◌+◌, ◌∷◌, [], ℕ, List, map, length, All, IfOk, OnOk, IfSome};
ghost use Rattle.std.specs.Option.{option_map};
ghost use Rattle.std.specs.BTreeMap.{IsOrdered};
ghost use Rattle.std.specs.String.{string_cmp, string_bytes};
ghost use Rattle.lam_rules.specs.Numbers.{type_of, Stands};
ghost use Rattle.lam_rules.specs.Texts.{text};
ghost use Rattle.lam_scope.specs.Names.{Name};
ghost use Rattle.lam_scope.specs.Numbered.{StandsIfAny};
ghost use Rattle.lam_scope.specs.Tables.{table};
ghost use Rattle.lam_scope.specs.Views.{AreScopesOf};
ghost use Rattle.lam_syntax.specs.Trees.{CommandTree};
ghost use Rattle.lam_syntax.specs.Views.{command_of};
ghost use Rattle.lam_query.specs.Analyses.{IsAnalysisOf};
ghost use Rattle.lam_query.specs.Commands.{AreCommandsOfText};
ghost use Rattle.lam_query.specs.Completions.{AreNames};
ghost use Rattle.lam_query.specs.inner.Around.{IsAloneAround, first_term};
ghost use Rattle.lam_query.specs.inner.Sight.{detail_for, detail_after, detail_with, detail_seen, item_seen, AreTexts};
ghost use Rattle.lam_query.specs.Views.{item_of};

use crate::analyses::Analysis;
use crate::answers::Item;
use crate::binders::{SeenBinder, inner_binders};
use crate::pieces::PieceAt;
use crate::stand_ins::Alone;
use crate::typings::types_of;
use lam_rules::{TyNo, TyTable};
use lam_scope::{Place, Scopes};
use std::alloc::{AllocError, Global};
use std::collections::BTreeMap;

impl Analysis {
    /// Returns the names in scope at a term, each once, sorted by their bytes, with the least type of the innermost binder as
    /// text, if it has one and no type of the text is over the size limit. The term is in the command of this piece; `place` is
    /// its id in `alone`.
    pub(crate) fn names_in_sight(
        &self,
        alloc: Global,
        text: &str,
        piece: PieceAt<'_>,
        alone: &Alone,
        scopes: &Scopes,
        place: Place,
    ) -> Result<Vec<Item>, AllocError>
        requires of { IsAnalysisOf text.now self.now }
        requires alone { (offset : ℕ) × (c : CommandTree) × IsAloneAround text.now offset self.now piece c alone.now × (place.0 < length (table (c ∷ [])).places) }
        requires scopes { AreScopesOf scopes.now (map command_of alone.now.commands.items) }
        ensures { IfOk result (λ items. (offset : ℕ) (c : CommandTree) (h : IsAloneAround text.now offset self.now piece.entry c alone.now) (commands : List CommandTree) → AreCommandsOfText text.now commands → AreNames commands (first_term h.there.here + place.0) (map item_of items.items) self.now.dialect) }
    {
        let outer = self.binders_before(alloc, text, piece.number)?;
        let mut details = BTreeMap::new(alloc);
        if self.row_faults.large.is_some() {
            let inner = inner_binders(alloc, scopes, None, place, alone.names)?;
            put_in_sight(alloc, None, &outer, &mut details)?;
            put_in_sight(alloc, None, &inner, &mut details)?;
            return items_of(alloc, details);
        }
        let Some(types) = types_of(alloc, &alone.commands, scopes, self.dialect)? else {
            return Ok(Vec::new(alloc));
        };
        let inner = inner_binders(alloc, scopes, Some(&types.typing), place, alone.names)?;
        put_in_sight(alloc, Some(self.types.table()), &outer, &mut details)?;
        put_in_sight(alloc, Some(types.typing.table()), &inner, &mut details)?;
        items_of(alloc, details)
    }
}

/// Enters binders, each with its entry as text if there is a table for it. They come outermost first, so that each replaces an
/// outer one of the same name. An underscore has no name. The text of a type is made once and then copied, as many names may
/// have the same type.
fn put_in_sight(
    alloc: Global,
    table: Option<&TyTable>,
    binders: &[SeenBinder<'_>],
    details: &mut BTreeMap<String, Option<String>>,
) -> Result<(), AllocError>
    requires { IfSome table (λ t. All (λ b. StandsIfAny t.now b.entry) binders.now) }
    ensures { OnOk result ((x : Name) → detail_for details.new x ≡ detail_after (option_map (λ t. t.now) table.entry) x (detail_for details.old x) binders.now) }
{
    let mut texts = BTreeMap::new(alloc);
    for i in 0..binders.len() {
        put_binder(alloc, table, binders[i], &mut texts, details)?;
    }
    Ok(())
}

fn put_binder(
    alloc: Global,
    table: Option<&TyTable>,
    binder: SeenBinder<'_>,
    texts: &mut BTreeMap<usize, String>,
    details: &mut BTreeMap<String, Option<String>>,
) -> Result<(), AllocError>
    requires stands { IfSome table (λ t. StandsIfAny t.now binder.entry) }
    requires texts { IfSome table (λ t. AreTexts t.now texts.old) }
    ensures texts { OnOk result (IfSome table.entry (λ t. AreTexts t.now texts.new)) }
    ensures details { OnOk result ((x : Name) → detail_for details.new x ≡ detail_with (option_map (λ t. t.now) table.entry) x (detail_for details.old x) binder.entry) }
{
    let Some(name) = binder.name else {
        return Ok(());
    };
    let detail = detail_of(table, binder.entry, texts)?;
    let name = String::from_str(alloc, name)?;
    details.insert(name, detail)?;
    Ok(())
}

/// Returns the text of an entry, if there is a table for it.
fn detail_of(
    table: Option<&TyTable>,
    entry: Option<TyNo>,
    texts: &mut BTreeMap<usize, String>,
) -> Result<Option<String>, AllocError>
    requires stands { IfSome table (λ t. StandsIfAny t.now entry) }
    requires texts { IfSome table (λ t. AreTexts t.now texts.old) }
    ensures detail { IfOk result (λ made. option_map (λ d. string_bytes d) made ≡ detail_seen (option_map (λ t. t.now) table.entry) entry) }
    ensures texts { OnOk result (IfSome table.entry (λ t. AreTexts t.now texts.new)) }
{
    let Some(table) = table else {
        return Ok(None);
    };
    match entry {
        Some(number) => Ok(Some(text_once(table, number, texts)?)),
        None => Ok(None),
    }
}

/// Returns the text of the type with this id: a copy if it was made before, otherwise a new one, which is kept.
fn text_once(
    table: &TyTable,
    number: TyNo,
    texts: &mut BTreeMap<usize, String>,
) -> Result<String, AllocError>
    requires stands { Stands table.now number }
    requires texts { AreTexts table.now texts.old }
    ensures text { IfOk result (λ made. string_bytes made ≡ text (type_of table.now number)) }
    ensures texts { OnOk result (AreTexts table.now texts.new) }
{
    if let Some(known) = texts.get(&number.index) {
        return known.clone();
    }
    let made = table.text(number)?;
    texts.insert(number.index, made.clone()?)?;
    Ok(made)
}

/// Returns the completion items for names and their details.
fn items_of(
    alloc: Global,
    details: BTreeMap<String, Option<String>>,
) -> Result<Vec<Item>, AllocError>
    ensures items { IfOk result (λ made. map item_of made.items ≡ map item_seen details.entries) }
    ensures ordered { IfOk result (λ made. IsOrdered string_cmp details) }
{
    let mut items = Vec::with_capacity(alloc, details.len())?;
    for (label, detail) in details {
        items.push(Item {
            label,
            detail,
            field: false,
        })?;
    }
    Ok(items)
}
