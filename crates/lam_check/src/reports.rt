//! Human-readable diagnostics of a text.
ghost use Rattle.std.specs.Prelude.{◌≡◌, ◌+◌, ◌++◌, ◌^◌, ◌<◌, flat_map, map, codes, decimal, length, All, IfOk, OnOk, string_bytes, option_map};
ghost use Rattle.lam_text.specs.declared.units.Encoding.{Encoding};
ghost use Rattle.lam_query.specs.Views.{explained_of, mismatch_of};
ghost use Rattle.lam_query.specs.Within.{IsSpanOfText};
ghost use Rattle.lam_check.specs.Lines.{line_of};
ghost use Rattle.lam_check.specs.Paints.{painted};
ghost use Rattle.std.specs.Str.{IsCharBoundary};
ghost use Rattle.lam_check.specs.Reports.{IsReport, place_of, place_text, head, excerpt, mismatch_text, marked, between, fault_report, last_column, width};

use crate::lines::{columns_between, line_of, push_blanks, push_marks, push_shown};
use crate::paint::Paint;
use lam_query::answers::{ExplainedFault, Fault, Mismatch};
use lam_query::explained_faults;
use lam_rules::Dialect;
use lam_session::values::message_of;
use lam_text::{Doc, Encoding, Position};
use std::alloc::{AllocError, Global};

/// What is printed about a text or a derivation, and the number of diagnostics, or 1 for a derivation that is not accepted.
#[derive(Drop)]
pub struct Checked {
    pub report: String,
    pub count: usize,
}

/// Returns the report on a text with this name: exactly its diagnostics, in text order, each with the line and column where it
/// starts (in characters, from 1), its code and message, and its line with a mark below.
pub fn report(
    alloc: Global,
    name: &str,
    text: &str,
    dialect: Dialect,
    paint: Paint,
) -> Result<Checked, AllocError>
    ensures { IfOk result (λ r. IsReport paint name.now text.now dialect (string_bytes r.report) r.count) }
{
    let found = explained_faults(alloc, text, dialect)?;
    let doc = Doc::new(alloc, text, Encoding::Utf32)?;
    let mut out = String::new(alloc);
    push_faults(&mut out, name, &doc, &found, paint)?;
    Ok(Checked {
        report: out,
        count: found.len(),
    })
}

fn push_faults(
    out: &mut String,
    name: &str,
    doc: &Doc,
    faults: &[ExplainedFault],
    paint: Paint,
) -> Result<(), AllocError>
    requires encoding { doc.now.encoding ≡ Encoding.Utf32 }
    requires whole_characters { All (λ e. IsSpanOfText doc.now.text e.fault.span) faults.now }
    ensures { OnOk result (string_bytes out.new ≡ string_bytes out.old ++ flat_map (fault_report paint name.now doc.now.text) (map explained_of faults.now)) }
{
    for explained in faults {
        push_fault(out, name, doc, &explained.fault, &explained.mismatch, paint)?;
    }
    Ok(())
}

fn push_fault(
    out: &mut String,
    name: &str,
    doc: &Doc,
    fault: &Fault,
    mismatch: &Option<Mismatch>,
    paint: Paint,
) -> Result<(), AllocError>
    requires encoding { doc.now.encoding ≡ Encoding.Utf32 }
    requires whole_characters { IsSpanOfText doc.now.text fault.now.span }
    ensures { OnOk result (string_bytes out.new ≡ string_bytes out.old ++ between paint name.now doc.now.text fault.now.code.now (place_of doc.now.text fault.now.span.start) (place_of doc.now.text fault.now.span.end) (option_map mismatch_of mismatch.now)) }
{
    let start = place_of(doc, fault.span.start);
    let end = place_of(doc, fault.span.end);
    push_head(out, name, fault.code, start, paint)?;
    out.push_str("\n")?;
    push_marked(out, line_of(doc, start.line), start, end, paint, mismatch)?;
    out.push_str("\n")
}

/// Writes the line where a diagnostic starts, the mark below it, and the types after the mark.
fn push_marked(
    out: &mut String,
    line: &str,
    start: Position,
    end: Position,
    paint: Paint,
    mismatch: &Option<Mismatch>,
) -> Result<(), AllocError>
    ensures { OnOk result (string_bytes out.new ≡ string_bytes out.old ++ marked paint line.now start end (option_map mismatch_of mismatch.now)) }
{
    push_excerpt(out, line, start, end, paint)?;
    push_mismatch(out, mismatch)
}

/// Writes the expected and the found type after the mark.
fn push_mismatch(out: &mut String, mismatch: &Option<Mismatch>) -> Result<(), AllocError>
    ensures { OnOk result (string_bytes out.new ≡ string_bytes out.old ++ mismatch_text (option_map mismatch_of mismatch.now)) }
{
    match mismatch {
        Some(Mismatch::Expected { expected, found }) => {
            write!(out, " expected {expected}, found {found}")
        }
        Some(Mismatch::Found(found)) => write!(out, " found {found}"),
        None => Ok(()),
    }
}

/// The position of an offset, in characters.
fn place_of(doc: &Doc, offset: usize) -> Position
    requires encoding { doc.now.encoding ≡ Encoding.Utf32 }
    requires boundary { IsCharBoundary doc.now.text offset }
    ensures place { result ≡ place_of doc.now.text offset }
    ensures line { result.line + 1 < 2 ^ 64 }
    ensures column { result.character + 1 < 2 ^ 64 }
{
    // For the proof alone: no line or column exceeds the length of the text, and one more than that is a `usize`.
    let _past = past(doc.text());
    doc.position_of(offset)
}

/// One more than the length of a text.
fn past(text: &str) -> usize
    ensures { result ≡ length text.now + 1 }
{
    text.len() + 1
}

/// Writes the position and the message of a diagnostic.
fn push_head(
    out: &mut String,
    name: &str,
    code: &str,
    start: Position,
    paint: Paint,
) -> Result<(), AllocError>
    requires line { start.line + 1 < 2 ^ 64 }
    requires column { start.character + 1 < 2 ^ 64 }
    ensures { OnOk result (string_bytes out.new ≡ string_bytes out.old ++ head paint name.now code.now start) }
{
    push_shown(out, name)?;
    out.push_str(":")?;
    push_place(out, start)?;
    out.push_str(": ")?;
    push_code(out, code, paint)?;
    out.push_str(": ")?;
    out.push_str(message_of(code))
}

/// Writes a line and a column, counted from 1.
fn push_place(out: &mut String, place: Position) -> Result<(), AllocError>
    requires line { place.line + 1 < 2 ^ 64 }
    requires column { place.character + 1 < 2 ^ 64 }
    ensures { OnOk result (string_bytes out.new ≡ string_bytes out.old ++ place_text place) }
{
    push_number(out, place.line + 1)?;
    out.push_str(":")?;
    push_number(out, place.character + 1)
}

fn push_number(out: &mut String, number: u64) -> Result<(), AllocError>
    ensures { OnOk result (string_bytes out.new ≡ string_bytes out.old ++ decimal number) }
{
    write!(out, "{number}")
}

fn push_code(out: &mut String, code: &str, paint: Paint) -> Result<(), AllocError>
    ensures { OnOk result (string_bytes out.new ≡ string_bytes out.old ++ painted paint (codes "error[" ++ code.now ++ codes "]")) }
{
    out.push_str(paint.brush())?;
    out.push_str("error[")?;
    out.push_str(code)?;
    out.push_str("]")?;
    out.push_str(paint.rest())
}

/// Writes the line where a diagnostic starts, and the mark below it.
fn push_excerpt(
    out: &mut String,
    line: &str,
    start: Position,
    end: Position,
    paint: Paint,
) -> Result<(), AllocError>
    ensures { OnOk result (string_bytes out.new ≡ string_bytes out.old ++ excerpt paint line.now start end) }
{
    push_shown(out, line)?;
    out.push_str("\n")?;
    push_blanks(out, line, start.character)?;
    out.push_str(paint.brush())?;
    push_marks(out, width(line, start, end))?;
    out.push_str(paint.rest())
}

/// The number of columns to mark.
fn width(line: &str, start: Position, end: Position) -> u64
    ensures { result ≡ width line.now start end }
{
    columns_between(line, start.character, last_column(line, start, end)).max(1)
}

fn last_column(line: &str, start: Position, end: Position) -> u64
    ensures { result ≡ last_column line.now start end }
{
    if end.line == start.line {
        return end.character;
    }
    line.chars().count() as u64
}
