//! The labels that a projection can select.
ghost use Rattle.std.specs.Prelude.{◌≡◌, map, length, get_or, None, string_bytes, IfOk};
ghost use Rattle.lam_rules.specs.Numbers.{type_of, Stands, AreEarlier, fields_over};
ghost use Rattle.lam_syntax.specs.Views.{command_of};
ghost use Rattle.lam_scope.specs.Views.{AreScopesOf};
ghost use Rattle.lam_typing.specs.Typings.{found_of};
ghost use Rattle.lam_query.specs.inner.FieldItems.{field_item, field_items, items_found};
ghost use Rattle.lam_query.specs.inner.Listed.{IsProjection, AreListed};
ghost use Rattle.lam_query.specs.Views.{item_of};

use crate::answers::Item;
use lam_rules::{Dialect, Shape, TyNo, TyTable};
use lam_scope::{Place, ScopeFault, Scopes, resolve};
use lam_syntax::Command;
use lam_typing::{Typing, TypingFault, analyse_to};
use std::alloc::{AllocError, Global};

/// Returns the labels with which a projection has a type, in ascending order, each with its least type as text; nothing if some
/// written type, or the least type of a term before the projection, is over the size limit.
pub(crate) fn fields_of(
    alloc: Global,
    commands: &[Command],
    scopes: &Scopes,
    place: Place,
    dialect: Dialect,
) -> Result<Vec<Item>, AllocError>
    requires scopes { AreScopesOf scopes.now (map command_of commands.now) }
    requires projection { IsProjection (map command_of commands.now) place.0 }
    ensures { IfOk result (λ items. AreListed (map command_of commands.now) place.0 (map item_of items.items) dialect) }
{
    let resolved = match resolve(alloc, commands, scopes) {
        Ok(resolved) => resolved,
        Err(ScopeFault::TooLarge(_)) => return Ok(Vec::new(alloc)),
        Err(ScopeFault::Memory) => return Err(AllocError),
    };
    let operand = Place(place.0 - 1);
    match analyse_to(alloc, &resolved, operand, dialect) {
        Ok(typing) => fields_at(alloc, &typing, operand),
        Err(TypingFault::TooLarge(_)) => Ok(Vec::new(alloc)),
        Err(TypingFault::Memory) => Err(AllocError),
    }
}

/// Returns the fields of the type of a subterm; nothing if it has no type or no record type.
fn fields_at(alloc: Global, typing: &Typing, place: Place) -> Result<Vec<Item>, AllocError>
    ensures { IfOk result (λ items. map item_of items.items ≡ items_found (get_or (found_of typing.now) place.0 None)) }
{
    let Some(number) = typing.type_at(place) else {
        return Ok(Vec::new(alloc));
    };
    let table = typing.table();
    let sorted = table.sorted(number);
    match table.shape(sorted) {
        Shape::Record(fields) => items_of(alloc, table, fields),
        _ => Ok(Vec::new(alloc)),
    }
}

fn items_of(
    alloc: Global,
    table: &TyTable,
    fields: &[(String, TyNo)],
) -> Result<Vec<Item>, AllocError>
    requires { AreEarlier (length table.now) fields.now }
    ensures { IfOk result (λ items. map item_of items.items ≡ field_items (fields_over table.now fields.now)) }
{
    let mut items = Vec::with_capacity(alloc, fields.len())?;
    for i in 0..fields.len() {
        let field = &fields[i];
        let item = item_for(table, field)?;
        items.push(item)?;
    }
    Ok(items)
}

fn item_for(table: &TyTable, field: &(String, TyNo)) -> Result<Item, AllocError>
    requires { Stands table.now field.now.1 }
    ensures { IfOk result (λ item. item_of item ≡ field_item (string_bytes field.now.0) (type_of table.now field.now.1)) }
{
    let label = field.0.clone()?;
    let text = table.text(field.1)?;
    Ok(Item {
        label,
        detail: Some(text),
        field: true,
    })
}
