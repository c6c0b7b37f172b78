//! Results as lines of JSON, in the shapes that the language server sends.
ghost use Rattle.std.specs.Prelude.{◌≡◌, map, option_map, All, IfOk, string_bytes, false};
ghost use Rattle.serde_json.specs.View.{view};
ghost use Rattle.serde_json.specs.Written.{has_float};
ghost use Rattle.lam_query.specs.Views.{fault_of, derivation_of, StepStandsIn};
ghost use Rattle.lam_query.specs.Within.{IsSpanOfText};
ghost use Rattle.lam_check.specs.Json.{json_line, faults_value, IsFaultsLine, why_value, IsWhyAt};

use crate::drawings::derivation_at;
use crate::reports::Checked;
use lam_query::answers::{Derivation, Fault};
use lam_query::faults;
use lam_rules::Dialect;
use lam_session::values::{Object, derivation_value, diagnostic_values};
use lam_text::{Doc, Encoding, Position};
use serde_json::Value;
use std::alloc::{AllocError, Global};

/// Returns the diagnostics of a text with this name as a line of JSON, with columns in the units of this encoding.
pub fn faults_json(
    alloc: Global,
    encoding: Encoding,
    name: &str,
    text: &str,
    dialect: Dialect,
) -> Result<Checked, AllocError>
    ensures { IfOk result (λ c. IsFaultsLine encoding name.now text.now dialect (string_bytes c.report) c.count) }
{
    let found = faults(alloc, text, dialect)?;
    let doc = Doc::new(alloc, text, encoding)?;
    let value = faults_value(alloc, name, &doc, &found)?;
    Ok(Checked {
        report: json_line(alloc, &value)?,
        count: found.len(),
    })
}

fn faults_value(alloc: Global, name: &str, doc: &Doc, faults: &[Fault]) -> Result<Value, AllocError>
    requires whole_characters { All (λ f. IsSpanOfText doc.now.text f.span) faults.now }
    ensures value { IfOk result (λ value. view value ≡ faults_value doc.now.encoding name.now doc.now.text (map fault_of faults.now)) }
    ensures no_float { IfOk result (λ value. has_float (view value) ≡ false) }
{
    let values = diagnostic_values(alloc, doc, faults)?;
    Object::new(alloc)
        .value("diagnostics", Ok(Value::from(values)))
        .text("file", name)
        .finish()
}

/// Returns a derivation of the type of the innermost term around a position as a line of JSON, with columns in the units of this
/// encoding; `None` where no type is shown, or the text has no such position. The column of the position itself counts characters.
pub fn why_json(
    alloc: Global,
    encoding: Encoding,
    name: &str,
    text: &str,
    place: Position,
    dialect: Dialect,
) -> Result<Option<String>, AllocError>
    ensures { IfOk result (λ found. IsWhyAt encoding name.now text.now place (option_map (λ s. string_bytes s) found) dialect) }
{
    let Some(derived) = derivation_at(alloc, text, place, dialect)? else {
        return Ok(None);
    };
    let doc = Doc::new(alloc, text, encoding)?;
    let value = why_value(alloc, name, &doc, derived)?;
    Ok(Some(json_line(alloc, &value)?))
}

fn why_value(alloc: Global, name: &str, doc: &Doc, derived: Derivation) -> Result<Value, AllocError>
    requires whole_characters { All (StepStandsIn doc.now.text) derived.steps.items }
    ensures value { IfOk result (λ value. view value ≡ why_value doc.now.encoding name.now doc.now.text (derivation_of derived)) }
    ensures no_float { IfOk result (λ value. has_float (view value) ≡ false) }
{
    let value = derivation_value(alloc, doc, Some(derived))?;
    Object::new(alloc)
        .value("derivation", Ok(value))
        .text("file", name)
        .finish()
}

/// A value on a line of its own.
fn json_line(alloc: Global, value: &Value) -> Result<String, AllocError>
    ensures { IfOk result (λ line. has_float (view value.now) ≡ false → string_bytes line ≡ json_line (view value.now)) }
{
    let mut line = value.to_string(alloc)?;
    line.push_str("\n")?;
    Ok(line)
}
