//! Type ids, and shapes over them, independent of the table that says which types they are.

ghost use Rattle.std.specs.Prelude.{◌≡◌, ◌↔◌, ◌<◌, ℕ, List, IsTrue, IfOk, IfSome, IfNone};
ghost use Rattle.lam_rules.specs.Types.{Typ, Has, IsAbsent};
ghost use Rattle.lam_rules.specs.Numbers.{type_of, fields_over, AreEarlier, IsNotAmong, HaveDistinctLabels, first_under};
ghost use Rattle.lam_rules.specs.Entries.{AreSame, IsSame, AreCopies};

use std::alloc::{AllocError, Global};

/// A type id: the index of a type in a table.
#[derive(Clone, Copy, Debug, PartialEq, Eq, Hash)]
pub struct TyNo {
    pub index: usize,
}

/// The outermost form of a type, over type ids of a table.
#[derive(Drop, PartialEq, Eq, Hash)]
pub enum Shape {
    Bool,
    Nat,
    Unit,
    Top,
    Arrow(TyNo, TyNo),
    /// The fields of a record type, in order.
    Record(Vec<(String, TyNo)>),
}

/// Returns the type id of the first field with this label, or `None` if there is none.
pub fn number_under(label: &str, fields: &[(String, TyNo)]) -> Option<TyNo>
    ensures below { IfSome result (λ number. (n : ℕ) → AreEarlier n fields.now → number.index < n) }
    ensures some { IfSome result (λ number. (ts : List Typ) → Has label.now (type_of ts number) (fields_over ts fields.now)) }
    ensures none { IfNone result ((ts : List Typ) → IsAbsent label.now (fields_over ts fields.now)) }
    ensures first { result ≡ first_under label.now fields.now }
{
    for field in fields {
        if field.0.as_str() == label {
            return Some(field.1);
        }
    }
    None
}

/// Whether the labels are distinct.
pub fn labels_differ(fields: &[(String, TyNo)]) -> bool
    ensures { IsTrue result ↔ HaveDistinctLabels fields.now }
{
    for i in 0..fields.len() {
        let field = &fields[i];
        if !is_not_among(&field.0, &fields[i + 1..]) {
            return false;
        }
    }
    true
}

fn is_not_among(label: &str, fields: &[(String, TyNo)]) -> bool
    ensures { IsTrue result ↔ IsNotAmong label.now fields.now }
{
    for field in fields {
        if label == field.0.as_str() {
            return false;
        }
    }
    true
}

/// The same fields with owned labels.
pub(crate) fn owned_fields(
    alloc: Global,
    fields: &[(&str, TyNo)],
) -> Result<Vec<(String, TyNo)>, AllocError>
    ensures { IfOk result (λ items. AreCopies items.items fields.now) }
{
    let mut items = Vec::with_capacity(alloc, fields.len())?;
    for i in 0..fields.len() {
        let field = &fields[i];
        let label = String::from_str(alloc, field.0)?;
        items.push((label, field.1))?;
    }
    Ok(items)
}

/// A copy of the shape. Fails if allocation fails.
pub(crate) fn copy_of_shape(alloc: Global, shape: &Shape) -> Result<Shape, AllocError>
    ensures { IfOk result (λ copy. IsSame copy shape.now) }
{
    match shape {
        Shape::Bool => Ok(Shape::Bool),
        Shape::Nat => Ok(Shape::Nat),
        Shape::Unit => Ok(Shape::Unit),
        Shape::Top => Ok(Shape::Top),
        Shape::Arrow(parameter, outcome) => Ok(Shape::Arrow(*parameter, *outcome)),
        Shape::Record(fields) => {
            let items = copy_of_numbers(alloc, fields)?;
            Ok(Shape::Record(items))
        }
    }
}

fn copy_of_numbers(
    alloc: Global,
    fields: &[(String, TyNo)],
) -> Result<Vec<(String, TyNo)>, AllocError>
    ensures { IfOk result (λ copies. AreSame copies.items fields.now) }
{
    let mut copies = Vec::with_capacity(alloc, fields.len())?;
    for i in 0..fields.len() {
        let field = &fields[i];
        let label = field.0.clone()?;
        copies.push((label, field.1))?;
    }
    Ok(copies)
}
