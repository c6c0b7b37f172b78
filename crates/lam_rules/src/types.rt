//! Types, and properties of a single type.

ghost use Rattle.std.specs.Prelude.{◌≡◌, ◌↔◌, min, IsTrue, IfOk};
ghost use Rattle.lam_rules.specs.Types.{IsWellFormed, AreWellFormed, IsAbsent, Has, nodes, nodes_in, arrow, record_of};
ghost use Rattle.lam_rules.specs.TypeViews.{typ_of, fields_of};

use std::alloc::{AllocError, Global};
use std::rc::Rc;

/// The fields of a record type, in order.
#[cycle(types)]
#[derive(Drop)]
pub struct Fields {
    pub items: Rc<Vec<(String, Ty)>>,
}

/// A type. Its copies share its parts, so that a large type is copied as fast as a small one.
#[cycle(types)]
#[derive(Drop)]
pub enum Ty {
    Bool,
    Nat,
    Unit,
    Top,
    Arrow(Rc<Ty>, Rc<Ty>),
    Record(Fields),
}

/// Makes an arrow type.
pub fn make_arrow(alloc: Global, parameter: Ty, outcome: Ty) -> Result<Ty, AllocError>
    ensures { IfOk result (λ made. typ_of made ≡ arrow (typ_of parameter) (typ_of outcome)) }
{
    Ok(Ty::Arrow(Rc::new(alloc, parameter)?, Rc::new(alloc, outcome)?))
}

/// Makes a record type of these fields, in this order.
pub fn make_record(alloc: Global, items: Vec<(String, Ty)>) -> Result<Ty, AllocError>
    ensures { IfOk result (λ made. typ_of made ≡ record_of (fields_of items.items)) }
{
    let items = Rc::new(alloc, items)?;
    Ok(Ty::Record(Fields { items }))
}

/// Whether the labels of each record type in `ty` are distinct, at every depth.
#[cycle(wf)]
pub fn wf(ty: &Ty) -> bool
    ensures { IsTrue result ↔ IsWellFormed (typ_of ty.now) }
{
    match ty {
        Ty::Bool => true,
        Ty::Nat => true,
        Ty::Unit => true,
        Ty::Top => true,
        Ty::Arrow(parameter, outcome) => {
            if !wf(parameter) {
                return false;
            }
            wf(outcome)
        }
        Ty::Record(fields) => wf_fields(&fields.items),
    }
}

#[cycle(wf)]
fn wf_fields(fields: &[(String, Ty)]) -> bool
    ensures { IsTrue result ↔ AreWellFormed (fields_of fields.now) }
{
    for i in 0..fields.len() {
        let field = &fields[i];
        if !wf(&field.1) {
            return false;
        }
        if !is_absent(&field.0, &fields[i + 1..]) {
            return false;
        }
    }
    true
}

/// Whether no field has this label.
fn is_absent(label: &str, fields: &[(String, Ty)]) -> bool
    ensures { IsTrue result ↔ IsAbsent label.now (fields_of fields.now) }
{
    for field in fields {
        if label == field.0.as_str() {
            return false;
        }
    }
    true
}

/// Whether some field has this label and this type.
pub(crate) fn has_field(label: &str, ty: &Ty, fields: &[(String, Ty)]) -> bool
    ensures { IsTrue result ↔ Has label.now (typ_of ty.now) (fields_of fields.now) }
{
    for field in fields {
        if field.0.as_str() == label {
            if same(&field.1, ty) {
                return true;
            }
        }
    }
    false
}

/// The cap on sizes: one more than the largest size that a type in a document may have.
pub(crate) const SIZE_CAP: u64 = 4_097;

/// Returns the number of nodes of a type, capped at 4,097. Bool, Nat, Unit, Top, arrows and records are one node each;
/// labels are not counted.
#[cycle(size)]
pub fn size(ty: &Ty) -> u64
    ensures { result ≡ min (nodes (typ_of ty.now)) 4097 }
{
    match ty {
        Ty::Bool => 1,
        Ty::Nat => 1,
        Ty::Unit => 1,
        Ty::Top => 1,
        Ty::Arrow(parameter, outcome) => (1 + size(parameter) + size(outcome)).min(SIZE_CAP),
        Ty::Record(fields) => (1 + size_of_fields(&fields.items)).min(SIZE_CAP),
    }
}

#[cycle(size)]
fn size_of_fields(fields: &[(String, Ty)]) -> u64
    ensures { result ≡ min (nodes_in (fields_of fields.now)) 4097 }
{
    let mut total = 0;
    for i in 0..fields.len() {
        let field = &fields[i];
        total = (total + size(&field.1)).min(SIZE_CAP);
    }
    total
}

/// Whether two types are equal, including the order of the fields of each record.
#[cycle(same)]
pub fn same(left: &Ty, right: &Ty) -> bool
    ensures { IsTrue result ↔ (typ_of left.now ≡ typ_of right.now) }
{
    match left {
        Ty::Bool => matches!(right, Ty::Bool),
        Ty::Nat => matches!(right, Ty::Nat),
        Ty::Unit => matches!(right, Ty::Unit),
        Ty::Top => matches!(right, Ty::Top),
        Ty::Arrow(parameter, outcome) => {
            let Ty::Arrow(other_parameter, other_outcome) = right else {
                return false;
            };
            if !same(parameter, other_parameter) {
                return false;
            }
            same(outcome, other_outcome)
        }
        Ty::Record(fields) => {
            let Ty::Record(others) = right else {
                return false;
            };
            same_fields(&fields.items, &others.items)
        }
    }
}

/// Whether two lists of fields have equal labels and types in the same order.
#[cycle(same)]
pub fn same_fields(left: &[(String, Ty)], right: &[(String, Ty)]) -> bool
    ensures { IsTrue result ↔ (fields_of left.now ≡ fields_of right.now) }
{
    if left.len() != right.len() {
        return false;
    }
    for i in 0..left.len() {
        let field = &left[i];
        let other = &right[i];
        if field.0.as_str() != other.0.as_str() {
            return false;
        }
        if !same(&field.1, &other.1) {
            return false;
        }
    }
    true
}

/// Returns a copy of a type, which shares its parts.
pub fn copy_of(ty: &Ty) -> Result<Ty, AllocError>
    ensures { IfOk result (λ copy. typ_of copy ≡ typ_of ty.now) }
{
    match ty {
        Ty::Bool => Ok(Ty::Bool),
        Ty::Nat => Ok(Ty::Nat),
        Ty::Unit => Ok(Ty::Unit),
        Ty::Top => Ok(Ty::Top),
        Ty::Arrow(parameter, outcome) => Ok(Ty::Arrow(parameter.clone()?, outcome.clone()?)),
        Ty::Record(fields) => {
            let items = fields.items.clone()?;
            Ok(Ty::Record(Fields { items }))
        }
    }
}

/// Returns copies of fields. Fails if allocation fails.
pub fn copy_of_fields(
    alloc: Global,
    fields: &[(String, Ty)],
) -> Result<Vec<(String, Ty)>, AllocError>
    ensures { IfOk result (λ copies. fields_of copies.items ≡ fields_of fields.now) }
{
    let mut copies = Vec::with_capacity(alloc, fields.len())?;
    for i in 0..fields.len() {
        let field = &fields[i];
        let label = field.0.clone()?;
        let ty = copy_of(&field.1)?;
        copies.push((label, ty))?;
    }
    Ok(copies)
}
