//! Derivations as JSON values.
ghost use Rattle.std.specs.Prelude.{◌≡◌, ℕ, List, false, map, option_map, All, IfOk, IfSome};
ghost use Rattle.serde_json.specs.Data.{string, array};
ghost use Rattle.serde_json.specs.View.{view, items_of};
ghost use Rattle.serde_json.specs.Written.{has_float};
ghost use Rattle.lam_rules.specs.TypeViews.{typ_of};
ghost use Rattle.lam_rules.specs.TermViews.{written_of};
ghost use Rattle.lam_rules.specs.Texts.{plain_text};
ghost use Rattle.lam_text.specs.declared.units.Encoding.{Encoding};
ghost use Rattle.lam_query.specs.Views.{entry_of, step_of, derivation_of, StepStandsIn};
ghost use Rattle.lam_query.specs.Steps.{typing, subtyping};
ghost use Rattle.lam_query.specs.Within.{IsSpanOfText};
ghost use Rattle.lam_session.specs.Derivations.{type_value, entry_value, premises_value, conclusion_value, step_value, derivation_value};

use crate::values::{Object, range_value};
use lam_query::answers::{Derivation, Step};
use lam_rules::{SubRule, Ty, TypeRule, plain_text_of};
use lam_text::Doc;
use lam_token::Span;
use serde_json::Value;
use std::alloc::{AllocError, Global};

/// Returns a derivation as a value; null if there is none.
pub fn derivation_value(
    alloc: Global,
    doc: &Doc,
    derived: Option<Derivation>,
) -> Result<Value, AllocError>
    requires { IfSome derived (λ d. All (StepStandsIn doc.now.text) d.steps.items) }
    ensures value { IfOk result (λ value. view value ≡ derivation_value doc.now.encoding doc.now.text (option_map derivation_of derived)) }
    ensures no_float { IfOk result (λ value. has_float (view value) ≡ false) }
{
    let Some(derivation) = derived else {
        return Ok(Value::Null);
    };
    Object::new(alloc)
        .value("context", context_value(alloc, &derivation.context))
        .value("steps", steps_value(alloc, doc, &derivation.steps))
        .finish()
}

fn context_value(alloc: Global, entries: &[(String, Option<Ty>)]) -> Result<Value, AllocError>
    ensures { IfOk result (λ value. view value ≡ array (items_of (map entry_value (map entry_of entries.now)))) }
{
    let mut values = Vec::new(alloc);
    for entry in entries {
        values.push(entry_value(alloc, entry)?)?;
    }
    Ok(Value::Array(values))
}

fn entry_value(alloc: Global, entry: &(String, Option<Ty>)) -> Result<Value, AllocError>
    ensures { IfOk result (λ value. view value ≡ entry_value (entry_of entry.now)) }
{
    Object::new(alloc)
        .text("name", entry.0.as_str())
        .value("type", type_value(alloc, &entry.1))
        .finish()
}

fn type_value(alloc: Global, ty: &Option<Ty>) -> Result<Value, AllocError>
    ensures { IfOk result (λ value. view value ≡ type_value (written_of ty.now)) }
{
    match ty {
        Some(ty) => text_value(alloc, ty),
        None => Ok(Value::Null),
    }
}

/// The text of a type, with its fields in their own order.
fn text_value(alloc: Global, ty: &Ty) -> Result<Value, AllocError>
    ensures { IfOk result (λ value. view value ≡ string (plain_text (typ_of ty.now))) }
{
    Ok(Value::String(plain_text_of(alloc, ty)?))
}

fn steps_value(alloc: Global, doc: &Doc, steps: &[Step]) -> Result<Value, AllocError>
    requires { All (StepStandsIn doc.now.text) steps.now }
    ensures { IfOk result (λ value. view value ≡ array (items_of (map (step_value doc.now.encoding doc.now.text) (map step_of steps.now)))) }
{
    let mut values = Vec::new(alloc);
    for step in steps {
        values.push(step_value(alloc, doc, step)?)?;
    }
    Ok(Value::Array(values))
}

fn step_value(alloc: Global, doc: &Doc, step: &Step) -> Result<Value, AllocError>
    requires { StepStandsIn doc.now.text step.now }
    ensures { IfOk result (λ value. view value ≡ step_value doc.now.encoding doc.now.text (step_of step.now)) }
{
    match step {
        Step::Typing {
            rule,
            span,
            ty,
            premises,
        } => typing_value(alloc, doc, *rule, *span, ty, premises),
        Step::Sub {
            rule,
            lower,
            upper,
            premises,
        } => subtyping_value(alloc, *rule, lower, upper, premises),
    }
}

fn typing_value(
    alloc: Global,
    doc: &Doc,
    rule: TypeRule,
    span: Span,
    ty: &Ty,
    premises: &[usize],
) -> Result<Value, AllocError>
    requires { IsSpanOfText doc.now.text span }
    ensures { IfOk result (λ value. view value ≡ conclusion_value doc.now.encoding doc.now.text premises.now (typing rule span (typ_of ty.now))) }
{
    Object::new(alloc)
        .value("from", premises_value(alloc, premises))
        .value("range", range_value(alloc, doc, span))
        .text("rule", rule.name())
        .value("type", text_value(alloc, ty))
        .finish()
}

fn subtyping_value(
    alloc: Global,
    rule: SubRule,
    lower: &Ty,
    upper: &Ty,
    premises: &[usize],
) -> Result<Value, AllocError>
    ensures { (encoding : Encoding) (text : List ℕ)
        → IfOk result (λ value. view value ≡ conclusion_value encoding text premises.now (subtyping rule (typ_of lower.now) (typ_of upper.now))) }
{
    Object::new(alloc)
        .value("from", premises_value(alloc, premises))
        .value("lower", text_value(alloc, lower))
        .text("rule", rule.name())
        .value("upper", text_value(alloc, upper))
        .finish()
}

fn premises_value(alloc: Global, premises: &[usize]) -> Result<Value, AllocError>
    ensures { IfOk result (λ value. view value ≡ premises_value premises.now) }
{
    let mut values = Vec::new(alloc);
    for number in premises {
        values.push(Value::from(*number as u64))?;
    }
    Ok(Value::Array(values))
}
