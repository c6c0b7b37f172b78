//! Diagnostics as JSON values (LSP 3.17, `Diagnostic`).
ghost use Rattle.std.specs.Prelude.{◌≡◌, false, map, All, IfOk};
ghost use Rattle.serde_json.specs.View.{view, items_view};
ghost use Rattle.serde_json.specs.Written.{items_have_float};
ghost use Rattle.lam_query.specs.Views.{fault_of};
ghost use Rattle.lam_query.specs.Within.{IsSpanOfText};
ghost use Rattle.lam_session.specs.Diagnostics.{message_beside, message_of, diagnostic, diagnostics};
ghost use Rattle.lam_session.specs.Outgoing.{diagnostic_data};

use crate::lists::values_of;
use crate::shapes::DiagnosticShape;
use crate::values::Object;
use crate::values::ranges::{range_of, written_range};
use lam_query::answers::Fault;
use lam_text::{Doc, Range};
use serde_json::Value;
use std::alloc::{AllocError, Global};

/// The message for each code.
static MESSAGES: [(&str, &str); 17] = [
    ("B1", "character not allowed"),
    ("B2", "comment not closed"),
    ("P1", "unexpected token"),
    ("P2", "command ends too early"),
    ("L1", "type of more than 4096 nodes"),
    ("L2", "command of more than 2000 tokens"),
    ("Y1", "unbound type name"),
    ("Y2", "label used twice in a record type"),
    ("E1", "unbound name"),
    ("E2", "not a function"),
    ("E3", "argument does not fit the parameter"),
    ("E4", "no such field"),
    ("E5", "condition is not Bool"),
    ("E6", "operand is not Nat"),
    ("E7", "term does not have the written type"),
    ("E8", "fix needs a function whose result fits its parameter"),
    ("E9", "label used twice in a record"),
];

/// A diagnostic: its code, and its range in the client's units.
#[derive(Clone, Copy)]
pub struct Diagnostic {
    pub code: &'static str,
    pub range: Range,
}

/// Returns a value for each diagnostic, in order.
pub fn diagnostic_values(
    alloc: Global,
    doc: &Doc,
    faults: &[Fault],
) -> Result<Vec<Value>, AllocError>
    requires { All (λ f. IsSpanOfText doc.now.text f.span) faults.now }
    ensures values { IfOk result (λ values. items_view values.items ≡ diagnostics doc.now.encoding doc.now.text (map fault_of faults.now)) }
    ensures no_float { IfOk result (λ values. items_have_float (items_view values.items) ≡ false) }
{
    let found = diagnostics(alloc, doc, faults)?;
    values_of(alloc, &DiagnosticShape, &found)
}

/// Returns the diagnostics of a text, in order.
pub fn diagnostics(
    alloc: Global,
    doc: &Doc,
    faults: &[Fault],
) -> Result<Vec<Diagnostic>, AllocError>
    requires { All (λ f. IsSpanOfText doc.now.text f.span) faults.now }
    ensures { IfOk result (λ found. map diagnostic_data found.items ≡ map (diagnostic doc.now.encoding doc.now.text) (map fault_of faults.now)) }
{
    let mut found = Vec::new(alloc);
    for fault in faults {
        found.push(diagnostic_of(doc, fault))?;
    }
    Ok(found)
}

fn diagnostic_of(doc: &Doc, fault: &Fault) -> Diagnostic
    requires { IsSpanOfText doc.now.text fault.now.span }
    ensures { diagnostic_data result ≡ diagnostic doc.now.encoding doc.now.text (fault_of fault.now) }
{
    Diagnostic {
        code: fault.code,
        range: range_of(doc, fault.span),
    }
}

/// Returns a diagnostic as a value (LSP 3.17, `Diagnostic`).
pub fn diagnostic_value(alloc: Global, diagnostic: Diagnostic) -> Result<Value, AllocError>
    ensures { IfOk result (λ value. view value ≡ diagnostic_data diagnostic) }
{
    Object::new(alloc)
        .text("code", diagnostic.code)
        .text("message", message_of(diagnostic.code))
        .value("range", written_range(alloc, diagnostic.range))
        .value("severity", Ok(Value::from(1u64)))
        .text("source", "fullsub")
        .finish()
}

/// Returns the message for a code.
pub fn message_of(code: &str) -> &'static str
    ensures { result.now ≡ message_of code.now }
{
    message_beside(code, MESSAGES.as_slice())
}

fn message_beside<'a>(code: &str, messages: &[(&'a str, &'a str)]) -> &'a str
    ensures { result.now ≡ message_beside code.now (map (λ m. (m.0.now, m.1.now)) messages.now) }
{
    for (known, message) in messages {
        if code == *known {
            return message;
        }
    }
    ""
}
