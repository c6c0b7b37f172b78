//! Types as text.

ghost use Rattle.std.specs.Prelude.{◌≡◌, ◌++◌, IfOk, OnOk, string_bytes};
ghost use Rattle.lam_rules.specs.Texts.{plain_text, plain_fields, left_of_arrow, separator_before, sorted, sorted_fields, text};
ghost use Rattle.lam_rules.specs.SharedTexts.{IsSharedText};
ghost use Rattle.lam_rules.specs.Types.{Typ};
ghost use Rattle.lam_rules.specs.Sorting.{IsSortedForm};
ghost use Rattle.lam_rules.specs.TypeViews.{typ_of, fields_of};

use crate::sorting::sort_by_label;
use crate::types::{Ty, make_arrow, make_record};
use std::alloc::{AllocError, Global};

/// Returns the text of a type with the fields of each record in their order in the type, as in `{b:Bool, a:Nat}`.
pub fn plain_text_of(alloc: Global, ty: &Ty) -> Result<String, AllocError>
    ensures { IfOk result (λ written. string_bytes written ≡ plain_text (typ_of ty.now)) }
{
    let mut out = String::new(alloc);
    write_type(&mut out, ty)?;
    Ok(out)
}

#[cycle(write)]
fn write_type(out: &mut String, ty: &Ty) -> Result<(), AllocError>
    ensures { OnOk result (string_bytes out.new ≡ string_bytes out.old ++ plain_text (typ_of ty.now)) }
{
    match ty {
        Ty::Bool => out.push_str("Bool"),
        Ty::Nat => out.push_str("Nat"),
        Ty::Unit => out.push_str("Unit"),
        Ty::Top => out.push_str("Top"),
        Ty::Arrow(parameter, outcome) => {
            write_parameter(out, parameter)?;
            out.push_str("->")?;
            write_type(out, outcome)
        }
        Ty::Record(fields) => {
            out.push_str("{")?;
            write_fields(out, &fields.items)?;
            out.push_str("}")
        }
    }
}

#[cycle(write)]
fn write_parameter(out: &mut String, ty: &Ty) -> Result<(), AllocError>
    ensures { OnOk result (string_bytes out.new ≡ string_bytes out.old ++ left_of_arrow (typ_of ty.now) (plain_text (typ_of ty.now))) }
{
    match ty {
        Ty::Arrow(_, _) => {
            out.push_str("(")?;
            write_type(out, ty)?;
            out.push_str(")")
        }
        _ => write_type(out, ty),
    }
}

#[cycle(write)]
fn write_fields(out: &mut String, fields: &[(String, Ty)]) -> Result<(), AllocError>
    ensures { OnOk result (string_bytes out.new ≡ string_bytes out.old ++ plain_fields (fields_of fields.now)) }
{
    for i in 0..fields.len() {
        let field = &fields[i];
        out.push_str(&field.0)?;
        out.push_str(":")?;
        write_type(out, &field.1)?;
        write_separator(out, &fields[i + 1..])?;
    }
    Ok(())
}

fn write_separator(out: &mut String, rest: &[(String, Ty)]) -> Result<(), AllocError>
    ensures { OnOk result (string_bytes out.new ≡ string_bytes out.old ++ separator_before (fields_of rest.now)) }
{
    if rest.is_empty() {
        return Ok(());
    }
    out.push_str(", ")
}

/// Returns the text of a type with the fields of each record sorted by the bytes of their labels, as in
/// `{a:Nat, b:Bool}`. Fields with equal labels keep their order.
pub fn text_of(alloc: Global, ty: &Ty) -> Result<String, AllocError>
    ensures text { IfOk result (λ written. string_bytes written ≡ text (typ_of ty.now)) }
    ensures shared { IfOk result (λ written. IsSharedText (string_bytes written) (typ_of ty.now)) }
{
    let sorted = sorted_of(alloc, ty)?;
    plain_text_of(alloc, &sorted)
}

/// The type with the fields of each record sorted by the bytes of their labels. Equal labels keep their order.
#[cycle(sorted)]
fn sorted_of(alloc: Global, ty: &Ty) -> Result<Ty, AllocError>
    ensures { IfOk result (λ made. typ_of made ≡ sorted (typ_of ty.now)) }
{
    match ty {
        Ty::Bool => Ok(Ty::Bool),
        Ty::Nat => Ok(Ty::Nat),
        Ty::Unit => Ok(Ty::Unit),
        Ty::Top => Ok(Ty::Top),
        Ty::Arrow(parameter, outcome) => {
            let sorted_parameter = sorted_of(alloc, parameter)?;
            let sorted_outcome = sorted_of(alloc, outcome)?;
            make_arrow(alloc, sorted_parameter, sorted_outcome)
        }
        Ty::Record(fields) => {
            let items = sorted_fields_of(alloc, &fields.items)?;
            make_record(alloc, items)
        }
    }
}

#[cycle(sorted)]
fn sorted_fields_of(alloc: Global, fields: &[(String, Ty)]) -> Result<Vec<(String, Ty)>, AllocError>
    ensures { IfOk result (λ made. fields_of made.items ≡ sorted_fields (fields_of fields.now)) }
{
    let mut made = Vec::with_capacity(alloc, fields.len())?;
    for i in 0..fields.len() {
        let field = &fields[i];
        let label = field.0.clone()?;
        let ty = sorted_of(alloc, &field.1)?;
        made.push((label, ty))?;
    }
    sort_by_label(&mut made)?;
    Ok(made)
}

/// A law: sorting a type gives a sorted form of it, and the type has no other sorted form.
pub fn one_sorted_form()
    ensures some { (t : Typ) → IsSortedForm t (sorted t) }
    ensures one { (t u : Typ) → IsSortedForm t u → u ≡ sorted t }
{}
