//! Matching the fields of two record types in a table.

ghost use Rattle.std.specs.Prelude.{◌≡◌, ℕ, List, IfOk};
ghost use Rattle.lam_rules.specs.Types.{Typ};
ghost use Rattle.lam_rules.specs.Numbers.{fields_over, AreEarlier};
ghost use Rattle.lam_sub.specs.OtherFields.{other_fields};
ghost use Rattle.lam_lattice.specs.inner.Matches.{AreMatches};

use lam_rules::TyNo;
use lam_sub::field_number;
use std::alloc::{AllocError, Global};

/// A field of the first type, and the type id that the second has under its label, if any.
#[derive(Drop)]
pub(crate) struct Match {
    pub label: String,
    pub left: TyNo,
    pub right: Option<TyNo>,
}

/// The fields of the first type, in order, each with what the second has under its label.
pub(crate) fn matched(
    alloc: Global,
    left: &[(String, TyNo)],
    right: &[(String, TyNo)],
) -> Result<Vec<Match>, AllocError>
    ensures { IfOk result (λ made. AreMatches right.now left.now made.items) }
{
    let mut made = Vec::new(alloc);
    for i in 0..left.len() {
        let field = &left[i];
        let label = field.0.clone()?;
        let number = field_number(&field.0, right, i);
        made.push(Match {
            label,
            left: field.1,
            right: number,
        })?;
    }
    Ok(made)
}

/// The fields of the second type whose labels the first does not have.
pub(crate) fn others(
    alloc: Global,
    left: &[(String, TyNo)],
    right: &[(String, TyNo)],
) -> Result<Vec<(String, TyNo)>, AllocError>
    ensures below { IfOk result (λ made. (n : ℕ) → AreEarlier n right.now → AreEarlier n made.items) }
    ensures others { IfOk result (λ made. (ts : List Typ) → fields_over ts made.items ≡ other_fields (fields_over ts right.now) (fields_over ts left.now)) }
{
    let mut made = Vec::new(alloc);
    for i in 0..right.len() {
        let field = &right[i];
        if field_number(&field.0, left, i).is_some() {
            continue;
        }
        let label = field.0.clone()?;
        made.push((label, field.1))?;
    }
    Ok(made)
}
