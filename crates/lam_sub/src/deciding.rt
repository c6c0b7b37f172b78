//! Deciding subtyping.

ghost use Rattle.std.specs.Prelude.{◌↔◌, IsTrue};
ghost use Rattle.lam_rules.specs.Types.{IsWellFormed, AreWellFormed};
ghost use Rattle.lam_rules.specs.TypeViews.{typ_of, fields_of};
ghost use Rattle.lam_rules.specs.Subtyping.{IsBelow};
ghost use Rattle.lam_sub.specs.inner.FieldsBelow.{AreBelow};

use crate::fields::field_type;
use lam_rules::{Dialect, Ty};

/// Whether the first type is a subtype of the second in this dialect.
#[cycle(is_sub)]
pub fn is_sub(lower: &Ty, upper: &Ty, dialect: Dialect) -> bool
    requires lower { IsWellFormed (typ_of lower.now) }
    requires upper { IsWellFormed (typ_of upper.now) }
    ensures { IsTrue result ↔ IsBelow (typ_of lower.now) (typ_of upper.now) dialect }
{
    match upper {
        Ty::Top => true,
        Ty::Bool => match lower {
            Ty::Bool => true,
            _ => false,
        },
        Ty::Nat => match lower {
            Ty::Nat => true,
            Ty::Bool => dialect == Dialect::Two,
            _ => false,
        },
        Ty::Unit => match lower {
            Ty::Unit => true,
            _ => false,
        },
        Ty::Arrow(upper_parameter, upper_outcome) => {
            let Ty::Arrow(lower_parameter, lower_outcome) = lower else {
                return false;
            };
            if !is_sub(upper_parameter, lower_parameter, dialect) {
                return false;
            }
            is_sub(lower_outcome, upper_outcome, dialect)
        }
        Ty::Record(upper_fields) => {
            let Ty::Record(lower_fields) = lower else {
                return false;
            };
            are_fields_sub(&lower_fields.items, &upper_fields.items, dialect)
        }
    }
}

/// Whether `lower` has, for each field of `upper`, a field with its label and a subtype of its type.
#[cycle(is_sub)]
fn are_fields_sub(lower: &[(String, Ty)], upper: &[(String, Ty)], dialect: Dialect) -> bool
    requires lower { AreWellFormed (fields_of lower.now) }
    requires upper { AreWellFormed (fields_of upper.now) }
    ensures { IsTrue result ↔ AreBelow (fields_of lower.now) (fields_of upper.now) dialect }
{
    for i in 0..upper.len() {
        let field = &upper[i];
        let Some(ty) = field_type(&field.0, lower, i) else {
            return false;
        };
        if !is_sub(ty, &field.1, dialect) {
            return false;
        }
    }
    true
}
