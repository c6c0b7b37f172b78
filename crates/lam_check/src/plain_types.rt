//! Parsing of types from their plain text.
ghost use Rattle.std.specs.Prelude.{◌≡◌, ◌≢◌, ◌<◌, ◌≤◌, ◌↔◌, ◌++◌, All, length, codes, IfOk, IfSome, IfNone, IsSomeAnd, IsTrue};
ghost use Rattle.std.specs.Str.{byte};
ghost use Rattle.lam_rules.specs.ReadableLabels.{HasReadableLabels, HaveReadableLabels, IsReadable as IsReadableLabel};
ghost use Rattle.lam_rules.specs.TypeViews.{fields_of, typ_of};
ghost use Rattle.lam_rules.specs.Types.{Typ, Fields, bool, nat, unit, top, record_of};
ghost use Rattle.lam_rules.specs.Texts.{Text, left_of_arrow, plain_text, plain_fields};
ghost use Rattle.lam_check.specs.Readable.{depth, depth_in, IsReadableType};
ghost use Rattle.lam_check.specs.inner.PlainTypes.{NoArrow, IsTypeRead, levels_on_left};

use lam_rules::{Ty, make_arrow, make_record, plain_text_of};
use std::alloc::{AllocError, Global};

/// The maximum depth of a type that is parsed. No type of a document is deeper, since none has more nodes.
const LEVELS: usize = 4_096;

/// Returns the type with this text, keeping the order of the fields in each record, if its depth is at most 4,096 and its labels
/// can be read in only one way.
pub fn type_of_text(alloc: Global, text: &str) -> Result<Option<Ty>, AllocError>
    ensures some { IfOk result (λ found. IfSome found (λ ty. plain_text (typ_of ty) ≡ text.now)) }
    ensures readable { IfOk result (λ found. IfSome found (λ ty. IsReadableType (typ_of ty))) }
    ensures none { IfOk result (λ found. IfNone found ((t : Typ) → IsReadableType t → text.now ≡ plain_text t → ⊥)) }
{
    let Some((ty, _)) = type_at(alloc, text, LEVELS)? else {
        return Ok(None);
    };
    if !is_readable(&ty, LEVELS) {
        return Ok(None);
    }
    let again = plain_text_of(alloc, &ty)?;
    if again.as_str() != text {
        return Ok(None);
    }
    Ok(Some(ty))
}

/// Whether a type is at most this deep, and its labels can be read in only one way.
#[cycle(readable)]
#[tactic(auto, using(lam_rules::proofs::TypeShapes::shapes))]
fn is_readable(ty: &Ty, levels: usize) -> bool
    ensures { IsTrue result ↔ (HasReadableLabels (typ_of ty.now) × (depth (typ_of ty.now) ≤ levels)) }
{
    if levels == 0 {
        return false;
    }
    match ty {
        Ty::Bool => true,
        Ty::Nat => true,
        Ty::Unit => true,
        Ty::Top => true,
        Ty::Arrow(parameter, outcome) => {
            if !is_readable(parameter, levels - 1) {
                return false;
            }
            is_readable(outcome, levels - 1)
        }
        Ty::Record(fields) => are_readable(&fields.items, levels - 1),
    }
}

#[cycle(readable)]
#[tactic(auto, using(lam_rules::proofs::TypeShapes::shapes))]
fn are_readable(fields: &[(String, Ty)], levels: usize) -> bool
    ensures { IsTrue result ↔ (HaveReadableLabels (fields_of fields.now) × (depth_in (fields_of fields.now) ≤ levels)) }
{
    for i in 0..fields.len() {
        let field = &fields[i];
        if !is_readable_label(&field.0) {
            return false;
        }
        if !is_readable(&field.1, levels) {
            return false;
        }
    }
    true
}

/// Whether a label ends at the first colon in the text of its field, and does not look like the end of a record type.
fn is_readable_label(label: &str) -> bool
    ensures { IsTrue result ↔ IsReadableLabel label.now }
{
    if label.contains(':') {
        return false;
    }
    !label.starts_with('}')
}

/// Parses a type at the start of a text, and returns it with the rest of the text.
#[cycle(types)]
fn type_at<'t>(
    alloc: Global,
    text: &'t str,
    levels: usize,
) -> Result<Option<(Ty, &'t str)>, AllocError>
    ensures shorter { IfOk result (λ found. IfSome found (λ f. length f.1.now ≤ length text.now)) }
    ensures read { IfOk result (λ found. (t : Typ) (rest : Text) → HasReadableLabels t → depth t ≤ levels → NoArrow rest
        → text.now ≡ plain_text t ++ rest → IsTypeRead found t rest) }
{
    if levels == 0 {
        return Ok(None);
    }
    let Some((parameter, rest)) = operand_at(alloc, text, levels)? else {
        return Ok(None);
    };
    let Some(further) = behind(rest, "->") else {
        return Ok(Some((parameter, rest)));
    };
    let Some((outcome, rest)) = type_at(alloc, further, levels - 1)? else {
        return Ok(None);
    };
    Ok(Some((make_arrow(alloc, parameter, outcome)?, rest)))
}

/// Parses a type at the start of a text, up to an arrow that is not in parentheses.
#[cycle(types)]
fn operand_at<'t>(
    alloc: Global,
    text: &'t str,
    levels: usize,
) -> Result<Option<(Ty, &'t str)>, AllocError>
    requires { 0 < levels }
    ensures shorter { IfOk result (λ found. IfSome found (λ f. length f.1.now ≤ length text.now)) }
    ensures read { IfOk result (λ found. (t : Typ) (rest : Text) → HasReadableLabels t → levels_on_left t ≤ levels
        → text.now ≡ left_of_arrow t (plain_text t) ++ rest → IsTypeRead found t rest) }
{
    if let Some(rest) = behind(text, "(") {
        return type_in_parentheses(alloc, rest, levels - 1);
    }
    if let Some(rest) = behind(text, "{") {
        return record_at(alloc, rest, levels - 1);
    }
    Ok(word_at(text))
}

fn word_at<'t>(text: &'t str) -> Option<(Ty, &'t str)>
    ensures shorter { IfSome result (λ f. length f.1.now ≤ length text.now) }
    ensures bool { (rest : Text) → text.now ≡ codes "Bool" ++ rest → IsTypeRead result bool rest }
    ensures nat { (rest : Text) → text.now ≡ codes "Nat" ++ rest → IsTypeRead result nat rest }
    ensures unit { (rest : Text) → text.now ≡ codes "Unit" ++ rest → IsTypeRead result unit rest }
    ensures top { (rest : Text) → text.now ≡ codes "Top" ++ rest → IsTypeRead result top rest }
{
    if let Some(rest) = behind(text, "Bool") {
        return Some((Ty::Bool, rest));
    }
    if let Some(rest) = behind(text, "Nat") {
        return Some((Ty::Nat, rest));
    }
    if let Some(rest) = behind(text, "Unit") {
        return Some((Ty::Unit, rest));
    }
    match behind(text, "Top") {
        Some(rest) => Some((Ty::Top, rest)),
        None => None,
    }
}

/// Parses a type followed by a closing parenthesis.
#[cycle(types)]
fn type_in_parentheses<'t>(
    alloc: Global,
    text: &'t str,
    levels: usize,
) -> Result<Option<(Ty, &'t str)>, AllocError>
    ensures shorter { IfOk result (λ found. IfSome found (λ f. length f.1.now ≤ length text.now)) }
    ensures read { IfOk result (λ found. (t : Typ) (rest : Text) → HasReadableLabels t → depth t ≤ levels
        → text.now ≡ plain_text t ++ (codes ")" ++ rest) → IsTypeRead found t rest) }
{
    let Some((ty, rest)) = type_at(alloc, text, levels)? else {
        return Ok(None);
    };
    match behind(rest, ")") {
        Some(rest) => Ok(Some((ty, rest))),
        None => Ok(None),
    }
}

/// Parses a record type, after its opening brace.
#[cycle(types)]
fn record_at<'t>(
    alloc: Global,
    text: &'t str,
    levels: usize,
) -> Result<Option<(Ty, &'t str)>, AllocError>
    ensures shorter { IfOk result (λ found. IfSome found (λ f. length f.1.now ≤ length text.now)) }
    ensures read { IfOk result (λ found. (fs : Fields) (rest : Text) → HaveReadableLabels fs → depth_in fs ≤ levels
        → text.now ≡ plain_fields fs ++ (codes "}" ++ rest) → IsTypeRead found (record_of fs) rest) }
{
    let mut fields = Vec::new(alloc);
    let mut rest = text;
    loop {
        if let Some(left) = behind(rest, "}") {
            let made = make_record(alloc, fields)?;
            return Ok(Some((made, left)));
        }
        let Some((label, further)) = around_colon(rest) else {
            return Ok(None);
        };
        let Some((ty, further)) = type_at(alloc, further, levels)? else {
            return Ok(None);
        };
        fields.push((String::from_str(alloc, label)?, ty))?;
        rest = behind_comma(further);
    }
}

/// Splits a text at its first colon.
fn around_colon<'t>(text: &'t str) -> Option<(&'t str, &'t str)>
    ensures shorter { IfSome result (λ x. length x.1.now < length text.now) }
    ensures around { (label rest : Text) → All (λ b. b ≢ byte ":") label → text.now ≡ label ++ (codes ":" ++ rest)
        → IsSomeAnd result (λ x. (x.0.now ≡ label) × (x.1.now ≡ rest)) }
{
    text.split_once(':')
}

/// Strips a leading comma and blank, if present.
fn behind_comma<'t>(text: &'t str) -> &'t str
    ensures shorter { length result.now ≤ length text.now }
    ensures comma { (rest : Text) → text.now ≡ codes ", " ++ rest → result.now ≡ rest }
    ensures none { ((rest : Text) → text.now ≢ codes ", " ++ rest) → result.now ≡ text.now }
{
    match behind(text, ", ") {
        Some(rest) => rest,
        None => text,
    }
}

/// Strips a prefix, if present.
fn behind<'t>(text: &'t str, front: &str) -> Option<&'t str>
    ensures some { IfSome result (λ rest. text.now ≡ front.now ++ rest.now) }
    ensures none { IfNone result ((rest : Text) → text.now ≢ front.now ++ rest) }
{
    text.strip_prefix(front)
}
