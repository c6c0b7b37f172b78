//! Subtyping between types in a table, with memoized results.

ghost use Rattle.std.specs.Prelude.{◌≡◌, ◌↔◌, ◌<◌, ◌++◌, ℕ, List, length, take, drop, IsTrue, IfOk, IfSome, IfNone};
ghost use Rattle.lam_rules.specs.Types.{Typ, IsWellFormed, AreWellFormed, Has, IsAbsent};
ghost use Rattle.lam_rules.specs.Subtyping.{IsBelow};
ghost use Rattle.lam_rules.specs.Numbers.{type_of, Stands, fields_over, shaped, AreEarlier, first_under};
ghost use Rattle.lam_rules.specs.declared.rules.Dialect.{Dialect};
ghost use Rattle.lam_sub.specs.inner.FieldsBelow.{AreBelow};
ghost use Rattle.lam_sub.specs.Remembered.{AreRight, IsConstant};

use crate::verdicts::Verdicts;
use lam_rules::{Dialect, Shape, TyNo, TyTable, number_under};
use std::alloc::AllocError;

/// Whether the type with id `lower` is a subtype of the one with id `upper`. Results for their sorted forms, and for the
/// parts of these, are memoized in `verdicts`, so shared types are compared only once.
#[cycle(is_sub_no)]
pub fn is_sub_no(
    table: &TyTable,
    verdicts: &mut Verdicts,
    lower: TyNo,
    upper: TyNo,
) -> Result<bool, AllocError>
    requires lower { Stands table.now lower }
    requires upper { Stands table.now upper }
    requires right { AreRight table.now verdicts.old }
    ensures dialect { verdicts.new.dialect ≡ verdicts.old.dialect }
    ensures right { AreRight table.now verdicts.new }
    ensures verdict { IfOk result (λ is_below. IsTrue is_below ↔ IsBelow (type_of table.now lower) (type_of table.now upper) verdicts.old.dialect) }
{
    // Types with distinct labels are subtypes and supertypes of their sorted forms.
    table.types_differ();
    let lower_sorted = table.sorted(lower);
    let upper_sorted = table.sorted(upper);
    if lower_sorted.index == upper_sorted.index {
        return Ok(true);
    }
    if let Some(known) = verdicts.known_verdict(lower_sorted, upper_sorted) {
        return Ok(known);
    }
    let is_below = compare(table, verdicts, lower_sorted, upper_sorted)?;
    verdicts.keep_verdict(lower_sorted, upper_sorted, is_below)?;
    Ok(is_below)
}

/// Whether the first type is a subtype of the second, by the shapes of the two.
#[cycle(is_sub_no)]
fn compare(
    table: &TyTable,
    verdicts: &mut Verdicts,
    lower: TyNo,
    upper: TyNo,
) -> Result<bool, AllocError>
    requires lower { Stands table.now lower }
    requires upper { Stands table.now upper }
    requires right { AreRight table.now verdicts.old }
    ensures dialect { verdicts.new.dialect ≡ verdicts.old.dialect }
    ensures right { AreRight table.now verdicts.new }
    ensures verdict { IfOk result (λ is_below. IsTrue is_below ↔ IsBelow (type_of table.now lower) (type_of table.now upper) verdicts.old.dialect) }
{
    let lower_shape = table.shape(lower);
    let upper_shape = table.shape(upper);
    match upper_shape {
        Shape::Arrow(upper_parameter, upper_outcome) => {
            let Shape::Arrow(lower_parameter, lower_outcome) = lower_shape else {
                return Ok(false);
            };
            if !is_sub_no(table, verdicts, *upper_parameter, *lower_parameter)? {
                return Ok(false);
            }
            is_sub_no(table, verdicts, *lower_outcome, *upper_outcome)
        }
        Shape::Record(upper_fields) => {
            let Shape::Record(lower_fields) = lower_shape else {
                return Ok(false);
            };
            are_fields_sub_no(table, verdicts, lower_fields, upper_fields)
        }
        _ => Ok(is_below_constant(lower_shape, upper_shape, verdicts.dialect)),
    }
}

/// Whether `lower` has, for each field of `upper`, a field with its label and a subtype of its type.
#[cycle(is_sub_no)]
fn are_fields_sub_no(
    table: &TyTable,
    verdicts: &mut Verdicts,
    lower: &[(String, TyNo)],
    upper: &[(String, TyNo)],
) -> Result<bool, AllocError>
    requires lower_stand { AreEarlier (length table.now) lower.now }
    requires upper_stand { AreEarlier (length table.now) upper.now }
    requires lower { AreWellFormed (fields_over table.now lower.now) }
    requires right { AreRight table.now verdicts.old }
    ensures dialect { verdicts.new.dialect ≡ verdicts.old.dialect }
    ensures right { AreRight table.now verdicts.new }
    ensures verdict { IfOk result (λ is_below. IsTrue is_below ↔ AreBelow (fields_over table.now lower.now) (fields_over table.now upper.now) verdicts.old.dialect) }
{
    for i in 0..upper.len() {
        let field = &upper[i];
        let Some(number) = field_number(&field.0, lower, i) else {
            return Ok(false);
        };
        if !is_sub_no(table, verdicts, number, field.1)? {
            return Ok(false);
        }
    }
    Ok(true)
}

/// Whether a type is a subtype of Bool, Nat, Unit or Top.
fn is_below_constant(lower: &Shape, upper: &Shape, dialect: Dialect) -> bool
    requires { IsConstant upper.now }
    ensures { (ts : List Typ) → IsWellFormed (shaped ts lower.now) → (IsTrue result ↔ IsBelow (shaped ts lower.now) (shaped ts upper.now) dialect) }
{
    match upper {
        Shape::Top => true,
        Shape::Bool => match lower {
            Shape::Bool => true,
            _ => false,
        },
        Shape::Nat => match lower {
            Shape::Nat => true,
            Shape::Bool => dialect == Dialect::Two,
            _ => false,
        },
        Shape::Unit => match lower {
            Shape::Unit => true,
            _ => false,
        },
        _ => unreachable!(),
    }
}

/// Returns the type id of the field with this label, or `None` if there is none. The search runs from index `near` to the
/// end and then from the start, and stops at the first match.
pub fn field_number(label: &str, fields: &[(String, TyNo)], near: usize) -> Option<TyNo>
    ensures below { IfSome result (λ number. (n : ℕ) → AreEarlier n fields.now → number.index < n) }
    ensures found { IfSome result (λ number. (ts : List Typ) → Has label.now (type_of ts number) (fields_over ts fields.now)) }
    ensures absent { IfNone result ((ts : List Typ) → IsAbsent label.now (fields_over ts fields.now)) }
    ensures first { result ≡ first_under label.now (drop near fields.now ++ take near fields.now) }
{
    let (front, back) = fields.split_at(near.min(fields.len()));
    if let Some(number) = number_under(label, back) {
        return Some(number);
    }
    number_under(label, front)
}
