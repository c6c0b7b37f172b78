//! Looking up fields by label.

ghost use Rattle.std.specs.Prelude.{◌≡◌, ◌++◌, take, drop, option_map, IfSome, IfNone, OnOk};
ghost use Rattle.lam_rules.specs.Types.{Has, IsAbsent, joined};
ghost use Rattle.lam_rules.specs.Numbers.{first_under};
ghost use Rattle.lam_rules.specs.TypeViews.{typ_of, fields_of};
ghost use Rattle.lam_sub.specs.OtherFields.{other_fields};

use lam_rules::{Ty, copy_of};
use std::alloc::AllocError;

/// Returns the type of the field with this label, or `None` if there is none. The search runs from index `near` to the
/// end and then from the start, and stops at the first match, so it is fast if the field is at `near`.
pub fn field_type<'a>(label: &str, fields: &'a [(String, Ty)], near: usize) -> Option<&'a Ty>
    ensures found { IfSome result (λ ty. Has label.now (typ_of ty.now) (fields_of fields.now)) }
    ensures absent { IfNone result (IsAbsent label.now (fields_of fields.now)) }
    ensures first { option_map (λ ty. typ_of ty.now) result ≡ option_map typ_of (first_under label.now (drop near fields.now ++ take near fields.now)) }
{
    let (front, back) = fields.split_at(near.min(fields.len()));
    if let Some(ty) = first_type(label, back) {
        return Some(ty);
    }
    first_type(label, front)
}

fn first_type<'a>(label: &str, fields: &'a [(String, Ty)]) -> Option<&'a Ty>
    ensures found { IfSome result (λ ty. Has label.now (typ_of ty.now) (fields_of fields.now)) }
    ensures absent { IfNone result (IsAbsent label.now (fields_of fields.now)) }
    ensures first { option_map (λ ty. typ_of ty.now) result ≡ option_map typ_of (first_under label.now fields.now) }
{
    for field in fields {
        if field.0.as_str() == label {
            return Some(&field.1);
        }
    }
    None
}

/// Appends copies of the fields of `more` whose labels are not in `known`. On an error, some may have been appended.
pub(crate) fn append_others(
    fields: &mut Vec<(String, Ty)>,
    more: &[(String, Ty)],
    known: &[(String, Ty)],
) -> Result<(), AllocError>
    ensures { OnOk result (fields_of fields.new.items ≡ joined (fields_of fields.old.items) (other_fields (fields_of more.now) (fields_of known.now))) }
{
    for i in 0..more.len() {
        let field = &more[i];
        if field_type(&field.0, known, i).is_some() {
            continue;
        }
        let label = field.0.clone()?;
        let ty = copy_of(&field.1)?;
        fields.push((label, ty))?;
    }
    Ok(())
}
