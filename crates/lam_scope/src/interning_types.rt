//! Written types as ids of a type table: node by node, and a type name by the id of what it stands for, so that nothing is copied
//! where an abbreviation is used again.
ghost use Rattle.std.specs.Prelude.{◌≡◌, ◌++◌, ◌∷◌, [], Some, None, length, if◌then◌else◌, IfOk, OnOk};
ghost use Rattle.lam_rules.specs.Types.{arrow as arrow_type};
ghost use Rattle.lam_rules.specs.Numbers.{Keeps, IsOver, HasDistinctLabels, shaped};
ghost use Rattle.lam_syntax.specs.Letters.{letters};
ghost use Rattle.lam_syntax.specs.Trees.{arrow as arrow_node, record_type};
ghost use Rattle.lam_syntax.specs.Views.{type_node_of, type_of, type_fields_of};
ghost use Rattle.lam_scope.specs.declared.type_fault.TypeFault.TheVariants.{UnboundTypeName};
ghost use Rattle.lam_scope.specs.Expansions.{both, has_label};
ghost use Rattle.lam_scope.specs.Numbered.{written_over, StandsIfAny};
ghost use Rattle.lam_scope.specs.NumberedNames.{number_named, TypeIdsStand};
ghost use Rattle.lam_scope.specs.inner.Interned.{number_of_named, is_named, items_in, with_given, IsTypeInterned, AreFieldsInterned};

use crate::expansion::{collect_label_fault, has_label};
use crate::type_fault::TypeFault;
use crate::type_names::TypeNames;
use lam_rules::{Shape, TyNo, TyTable};
use lam_syntax::{ArrowTy, Identifier, TyField, TyNode, WrittenTy};
use std::alloc::{AllocError, Global};

/// What interning is done with, and the diagnostics found along the way.
#[derive(Drop)]
pub(crate) struct Interning {
    pub(crate) alloc: Global,
    /// Those of the written types interned so far, in text order.
    pub(crate) faults: Vec<TypeFault>,
}

/// Returns the id of what a written type stands for, or `None` if it is faulty. Appends its diagnostics.
#[cycle(types)]
#[tactic(auto, using(crate::proofs::InterningTypes::interned_types))]
pub(crate) fn intern_type(
    interning: &mut Interning,
    table: &mut TyTable,
    seen: &TypeNames<'_>,
    ty: &WrittenTy,
) -> Result<Option<TyNo>, AllocError>
    requires { TypeIdsStand table.old seen.now }
    ensures { IsTypeInterned seen.now (type_node_of ty.now.node) table.old table.new interning.old.faults.items interning.new.faults.items result }
{
    match &ty.node {
        TyNode::Bool => intern_shape(table, Shape::Bool),
        TyNode::Nat => intern_shape(table, Shape::Nat),
        TyNode::Unit => intern_shape(table, Shape::Unit),
        TyNode::Top => intern_shape(table, Shape::Top),
        TyNode::Named(name) => number_of(&mut interning.faults, seen, name),
        TyNode::Arrow(arrow) => intern_arrow(interning, table, seen, arrow),
        TyNode::Record(fields) => intern_record(interning, table, seen, fields),
    }
}

fn intern_shape(table: &mut TyTable, shape: Shape) -> Result<Option<TyNo>, AllocError>
    requires over { IsOver (length table.old) shape }
    requires labels { HasDistinctLabels shape }
    ensures keeps { Keeps table.old table.new }
    ensures number { IfOk result (λ w. written_over table.new w ≡ Some (shaped table.old shape)) }
    ensures stands { IfOk result (λ w. StandsIfAny table.new w) }
{
    let number = table.intern(shape)?;
    Ok(Some(number))
}

/// Returns the id of what a type name stands for. Appends a diagnostic if it is unbound.
fn number_of(
    faults: &mut Vec<TypeFault>,
    seen: &TypeNames<'_>,
    name: &Identifier,
) -> Result<Option<TyNo>, AllocError>
    ensures number { IfOk result (λ w. w ≡ number_of_named (number_named (letters name.now.text) seen.now)) }
    ensures faults { OnOk result (faults.new.items ≡ faults.old.items ++ (if is_named (number_named (letters name.now.text) seen.now) then [] else UnboundTypeName name.now.span ∷ [])) }
{
    match seen.find(name.text.as_str()) {
        Some(number) => Ok(number),
        None => {
            faults.push(TypeFault::UnboundTypeName(name.span))?;
            Ok(None)
        }
    }
}

#[cycle(types)]
fn intern_arrow(
    interning: &mut Interning,
    table: &mut TyTable,
    seen: &TypeNames<'_>,
    arrow: &ArrowTy,
) -> Result<Option<TyNo>, AllocError>
    requires { TypeIdsStand table.old seen.now }
    ensures { IsTypeInterned seen.now (arrow_node (type_of arrow.now.parameter) (type_of arrow.now.outcome)) table.old table.new interning.old.faults.items interning.new.faults.items result }
{
    let parameter = intern_type(interning, table, seen, &arrow.parameter)?;
    let outcome = intern_type(interning, table, seen, &arrow.outcome)?;
    arrow_between(table, parameter, outcome)
}

/// Returns the id of the arrow, if both sides have one.
fn arrow_between(
    table: &mut TyTable,
    parameter: Option<TyNo>,
    outcome: Option<TyNo>,
) -> Result<Option<TyNo>, AllocError>
    requires parameter { StandsIfAny table.old parameter }
    requires outcome { StandsIfAny table.old outcome }
    ensures keeps { Keeps table.old table.new }
    ensures number { IfOk result (λ w. written_over table.new w ≡ both arrow_type (written_over table.old parameter) (written_over table.old outcome)) }
    ensures stands { IfOk result (λ w. StandsIfAny table.new w) }
{
    let Some(parameter_number) = parameter else {
        return Ok(None);
    };
    let Some(outcome_number) = outcome else {
        return Ok(None);
    };
    let number = table.arrow(parameter_number, outcome_number)?;
    Ok(Some(number))
}

#[cycle(types)]
fn intern_record(
    interning: &mut Interning,
    table: &mut TyTable,
    seen: &TypeNames<'_>,
    fields: &[TyField],
) -> Result<Option<TyNo>, AllocError>
    requires { TypeIdsStand table.old seen.now }
    ensures { IsTypeInterned seen.now (record_type (type_fields_of fields.now)) table.old table.new interning.old.faults.items interning.new.faults.items result }
{
    match intern_fields(interning, table, seen, fields)? {
        None => Ok(None),
        Some(items) => {
            let number = table.record(&items)?;
            Ok(Some(number))
        }
    }
}

/// Returns the labels of the fields with the ids of their types. The diagnostics of all fields are found, even if one of them has
/// no id.
#[cycle(types)]
fn intern_fields<'f>(
    interning: &mut Interning,
    table: &mut TyTable,
    seen: &TypeNames<'_>,
    fields: &'f [TyField],
) -> Result<Option<Vec<(&'f str, TyNo)>>, AllocError>
    requires { TypeIdsStand table.old seen.now }
    ensures { AreFieldsInterned seen.now (type_fields_of fields.now) table.old table.new interning.old.faults.items interning.new.faults.items result }
{
    let mut items = Some(Vec::with_capacity(interning.alloc, fields.len())?);
    for i in 0..fields.len() {
        let field = &fields[i];
        collect_label_fault(field, &fields[..i], &mut interning.faults)?;
        let number = intern_type(interning, table, seen, &field.ty)?;
        let once = unless_repeated(field, &fields[i + 1..], number);
        items = with_item(items, field.label.text.as_str(), once)?;
    }
    Ok(items)
}

/// Returns `number`, unless a later field has the same label.
fn unless_repeated(field: &TyField, later: &[TyField], number: Option<TyNo>) -> Option<TyNo>
    ensures { result ≡ (if has_label (letters field.now.label.text) (type_fields_of later.now) then None else number) }
{
    if has_label(field.label.text.as_str(), later) {
        return None;
    }
    number
}

/// Appends one more labeled id, if there is a list to append to and an id.
fn with_item<'f>(
    items: Option<Vec<(&'f str, TyNo)>>,
    label: &'f str,
    found: Option<TyNo>,
) -> Result<Option<Vec<(&'f str, TyNo)>>, AllocError>
    ensures { IfOk result (λ more. items_in more ≡ both (with_given label.entry) (items_in items.entry) found) }
{
    let Some(mut all) = items else {
        return Ok(None);
    };
    let Some(number) = found else {
        return Ok(None);
    };
    all.push((label, number))?;
    Ok(Some(all))
}
