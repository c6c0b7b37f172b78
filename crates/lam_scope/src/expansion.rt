//! Written types: their diagnostics, the sizes of their expansions, and the expansions.
ghost use Rattle.std.specs.Prelude.{◌≡◌, ◌++◌, IfOk, OnOk};
ghost use Rattle.lam_rules.specs.TermViews.{written_of};
ghost use Rattle.lam_syntax.specs.Trees.{no_type_fields};
ghost use Rattle.lam_syntax.specs.Views.{word_of, type_of, type_fields_of};
ghost use Rattle.lam_scope.specs.Expansions.{expansion, expansion_of_fields, capped_nodes, capped_nodes_in, type_faults, field_faults, label_fault, has_label};
ghost use Rattle.lam_scope.specs.Views.{abbreviations_of, expanded_fields_of};

use crate::abbreviations::Abbreviations;
use crate::type_fault::TypeFault;
use lam_rules::{Ty, copy_of, make_arrow, make_record, size};
use lam_syntax::{TyField, TyNode, WrittenTy};
use std::alloc::{AllocError, Global};

/// The size limit of types in a document, in nodes, for expansions and for the types of subterms. If one is larger the document
/// gets an error instead of types.
pub const NODE_LIMIT: u64 = 4_096;

/// Where counting stops: one node over the limit, as in `lam_rules`.
const SIZE_CAP: u64 = NODE_LIMIT + 1;

/// Appends the diagnostics of a written type, in text order.
#[cycle(faults)]
#[tactic(auto, using(crate::proofs::WrittenTypes::fault_lists))]
pub(crate) fn collect_faults(
    seen: &Abbreviations<'_>,
    ty: &WrittenTy,
    faults: &mut Vec<TypeFault>,
) -> Result<(), AllocError>
    ensures { OnOk result (faults.new.items ≡ faults.old.items ++ type_faults (abbreviations_of seen.now) (type_of ty.now)) }
{
    match &ty.node {
        TyNode::Bool => Ok(()),
        TyNode::Nat => Ok(()),
        TyNode::Unit => Ok(()),
        TyNode::Top => Ok(()),
        TyNode::Named(name) => match seen.find(name.text.as_str()) {
            Some(_) => Ok(()),
            None => {
                faults.push(TypeFault::UnboundTypeName(name.span))?;
                Ok(())
            }
        },
        TyNode::Arrow(arrow) => {
            collect_faults(seen, &arrow.parameter, faults)?;
            collect_faults(seen, &arrow.outcome, faults)
        }
        TyNode::Record(fields) => collect_field_faults(seen, fields, faults),
    }
}

#[cycle(faults)]
#[tactic(auto, using(crate::proofs::WrittenTypes::fault_lists))]
fn collect_field_faults(
    seen: &Abbreviations<'_>,
    fields: &[TyField],
    faults: &mut Vec<TypeFault>,
) -> Result<(), AllocError>
    ensures { OnOk result (faults.new.items ≡ faults.old.items ++ field_faults (abbreviations_of seen.now) no_type_fields (type_fields_of fields.now)) }
{
    for i in 0..fields.len() {
        let field = &fields[i];
        collect_label_fault(field, &fields[..i], faults)?;
        collect_faults(seen, &field.ty, faults)?;
    }
    Ok(())
}

/// Appends the diagnostic of a label that an earlier field has too.
pub(crate) fn collect_label_fault(
    field: &TyField,
    earlier: &[TyField],
    faults: &mut Vec<TypeFault>,
) -> Result<(), AllocError>
    ensures { OnOk result (faults.new.items ≡ faults.old.items ++ label_fault (word_of field.now.label) (type_fields_of earlier.now)) }
{
    if has_label(field.label.text.as_str(), earlier) {
        faults.push(TypeFault::RepeatedLabel(field.label.span))?;
    }
    Ok(())
}

/// Whether one of the fields has this label.
#[tactic(auto, using(crate::proofs::WrittenTypes::written_types))]
pub(crate) fn has_label(label: &str, fields: &[TyField]) -> bool
    ensures { result ≡ has_label label.now (type_fields_of fields.now) }
{
    for i in 0..fields.len() {
        let field = &fields[i];
        if field.label.text.as_str() == label {
            return true;
        }
    }
    false
}

/// Returns the number of nodes of the expansion, or `SIZE_CAP` if it has more. `None` if the written type is faulty.
#[cycle(sizes)]
#[tactic(auto, using(crate::proofs::WrittenTypes::written_types))]
pub(crate) fn expanded_size(seen: &Abbreviations<'_>, ty: &WrittenTy) -> Option<u64>
    ensures { result ≡ capped_nodes (expansion (abbreviations_of seen.now) (type_of ty.now)) }
{
    match &ty.node {
        TyNode::Bool => Some(1),
        TyNode::Nat => Some(1),
        TyNode::Unit => Some(1),
        TyNode::Top => Some(1),
        TyNode::Named(name) => {
            let abbreviation = seen.find(name.text.as_str())?;
            written_size(&abbreviation.expansion)
        }
        TyNode::Arrow(arrow) => {
            let parameter_size = expanded_size(seen, &arrow.parameter)?;
            let outcome_size = expanded_size(seen, &arrow.outcome)?;
            Some((1 + parameter_size + outcome_size).min(SIZE_CAP))
        }
        TyNode::Record(fields) => {
            let fields_size = expanded_fields_size(seen, fields)?;
            Some((1 + fields_size).min(SIZE_CAP))
        }
    }
}

fn written_size(expansion: &Option<Ty>) -> Option<u64>
    ensures { result ≡ capped_nodes (written_of expansion.now) }
{
    match expansion {
        None => None,
        Some(ty) => Some(size(ty)),
    }
}

#[cycle(sizes)]
#[tactic(auto, using(crate::proofs::WrittenTypes::written_types))]
fn expanded_fields_size(seen: &Abbreviations<'_>, fields: &[TyField]) -> Option<u64>
    ensures { result ≡ capped_nodes_in (expansion_of_fields (abbreviations_of seen.now) (type_fields_of fields.now)) }
{
    let mut total = 0;
    for i in 0..fields.len() {
        let field = &fields[i];
        if has_label(field.label.text.as_str(), &fields[i + 1..]) {
            return None;
        }
        let field_size = expanded_size(seen, &field.ty)?;
        total = (total + field_size).min(SIZE_CAP);
    }
    Some(total)
}

/// Returns the expansion of a written type, or `None` if it is faulty.
#[cycle(expansions)]
#[tactic(auto, using(crate::proofs::WrittenTypes::made_types))]
pub(crate) fn expand(
    alloc: Global,
    seen: &Abbreviations<'_>,
    ty: &WrittenTy,
) -> Result<Option<Ty>, AllocError>
    ensures { IfOk result (λ w. written_of w ≡ expansion (abbreviations_of seen.now) (type_of ty.now)) }
{
    match &ty.node {
        TyNode::Bool => Ok(Some(Ty::Bool)),
        TyNode::Nat => Ok(Some(Ty::Nat)),
        TyNode::Unit => Ok(Some(Ty::Unit)),
        TyNode::Top => Ok(Some(Ty::Top)),
        TyNode::Named(name) => match seen.find(name.text.as_str()) {
            None => Ok(None),
            Some(abbreviation) => copy_of_written(&abbreviation.expansion),
        },
        TyNode::Arrow(arrow) => {
            let Some(parameter_type) = expand(alloc, seen, &arrow.parameter)? else {
                return Ok(None);
            };
            let Some(outcome_type) = expand(alloc, seen, &arrow.outcome)? else {
                return Ok(None);
            };
            let made = make_arrow(alloc, parameter_type, outcome_type)?;
            Ok(Some(made))
        }
        TyNode::Record(fields) => {
            let Some(items) = expand_fields(alloc, seen, fields)? else {
                return Ok(None);
            };
            let made = make_record(alloc, items)?;
            Ok(Some(made))
        }
    }
}

/// Returns a copy of an expansion.
pub(crate) fn copy_of_written(expansion: &Option<Ty>) -> Result<Option<Ty>, AllocError>
    ensures { IfOk result (λ w. written_of w ≡ written_of expansion.now) }
{
    match expansion {
        None => Ok(None),
        Some(ty) => {
            let copy = copy_of(ty)?;
            Ok(Some(copy))
        }
    }
}

#[cycle(expansions)]
#[tactic(auto, using(crate::proofs::WrittenTypes::made_types))]
fn expand_fields(
    alloc: Global,
    seen: &Abbreviations<'_>,
    fields: &[TyField],
) -> Result<Option<Vec<(String, Ty)>>, AllocError>
    ensures { IfOk result (λ o. expanded_fields_of o ≡ expansion_of_fields (abbreviations_of seen.now) (type_fields_of fields.now)) }
{
    let mut items = Vec::with_capacity(alloc, fields.len())?;
    for i in 0..fields.len() {
        let field = &fields[i];
        if has_label(field.label.text.as_str(), &fields[i + 1..]) {
            return Ok(None);
        }
        let Some(ty) = expand(alloc, seen, &field.ty)? else {
            return Ok(None);
        };
        let label = String::from_str(alloc, field.label.text.as_str())?;
        items.push((label, ty))?;
    }
    Ok(Some(items))
}
