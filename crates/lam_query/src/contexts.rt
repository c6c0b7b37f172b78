//! The context of a derivation.
ghost use Rattle.std.specs.Prelude.{◌++◌, ◌≡◌, map, All, IfOk, OnOk};
ghost use Rattle.lam_rules.specs.TermViews.{written_of};
ghost use Rattle.lam_scope.specs.Numbered.{StandsIfAny};
ghost use Rattle.lam_typing.specs.Answers.{answer};
ghost use Rattle.lam_query.specs.inner.Contexts.{entry_shown};
ghost use Rattle.lam_query.specs.Views.{entry_of};

use crate::binders::SeenBinder;
use lam_rules::{Ty, TyNo, TyTable};
use std::alloc::{AllocError, Global};

/// Appends binders, whose entries are ids in this table, to a context.
pub(crate) fn push_entries(
    alloc: Global,
    table: &TyTable,
    binders: &[SeenBinder<'_>],
    context: &mut Vec<(String, Option<Ty>)>,
) -> Result<(), AllocError>
    requires { All (λ b. StandsIfAny table.now b.entry) binders.now }
    ensures { OnOk result (map entry_of context.new.items ≡ map entry_of context.old.items ++ map (entry_shown table.now) binders.now) }
{
    for i in 0..binders.len() {
        let binder = binders[i];
        let name = String::from_str(alloc, binder.name.unwrap_or("_"))?;
        let ty = tree_of(table, binder.entry)?;
        context.push((name, ty))?;
    }
    Ok(())
}

fn tree_of(table: &TyTable, entry: Option<TyNo>) -> Result<Option<Ty>, AllocError>
    requires { StandsIfAny table.now entry }
    ensures { IfOk result (λ made. written_of made ≡ answer table.now entry) }
{
    match entry {
        Some(number) => Ok(Some(table.tree(number)?)),
        None => Ok(None),
    }
}
