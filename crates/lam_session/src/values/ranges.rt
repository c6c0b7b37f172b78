//! Ranges of spans, and positions as JSON values (LSP 3.17, `Position`, `Range` and `Location`).
ghost use Rattle.std.specs.Prelude.{◌≡◌, map, All, IfOk};
ghost use Rattle.serde_json.specs.View.{view};
ghost use Rattle.lam_query.specs.Within.{IsSpanOfText};
ghost use Rattle.lam_session.specs.Ranges.{position_value, range_of, written_range, range_value, location_at};

use crate::values::Object;
use lam_text::{Doc, Position, Range};
use lam_token::Span;
use serde_json::Value;
use std::alloc::{AllocError, Global};

/// Returns the range of a span of the text.
pub fn range_of(doc: &Doc, span: Span) -> Range
    requires { IsSpanOfText doc.now.text span }
    ensures { result ≡ range_of doc.now.encoding doc.now.text span }
{
    Range {
        start: doc.position_of(span.start),
        end: doc.position_of(span.end),
    }
}

/// Returns the range of each span of the text, in order.
pub fn ranges_of(alloc: Global, doc: &Doc, spans: &[Span]) -> Result<Vec<Range>, AllocError>
    requires { All (IsSpanOfText doc.now.text) spans.now }
    ensures { IfOk result (λ ranges. ranges.items ≡ map (range_of doc.now.encoding doc.now.text) spans.now) }
{
    let mut ranges = Vec::new(alloc);
    for span in spans {
        ranges.push(range_of(doc, *span))?;
    }
    Ok(ranges)
}

/// Returns a range as a value.
pub fn written_range(alloc: Global, range: Range) -> Result<Value, AllocError>
    ensures { IfOk result (λ value. view value ≡ written_range range) }
{
    Object::new(alloc)
        .value("end", position_value(alloc, range.end))
        .value("start", position_value(alloc, range.start))
        .finish()
}

/// Returns the range of a span of the text as a value.
pub fn range_value(alloc: Global, doc: &Doc, span: Span) -> Result<Value, AllocError>
    requires { IsSpanOfText doc.now.text span }
    ensures { IfOk result (λ value. view value ≡ range_value doc.now.encoding doc.now.text span) }
{
    written_range(alloc, range_of(doc, span))
}

/// Returns the location of a range in the document with this URI.
pub fn location_at(alloc: Global, uri: &str, range: Range) -> Result<Value, AllocError>
    ensures { IfOk result (λ value. view value ≡ location_at uri.now range) }
{
    Object::new(alloc)
        .value("range", written_range(alloc, range))
        .text("uri", uri)
        .finish()
}

fn position_value(alloc: Global, position: Position) -> Result<Value, AllocError>
    ensures { IfOk result (λ value. view value ≡ position_value position) }
{
    Object::new(alloc)
        .value("character", Ok(Value::from(position.character)))
        .value("line", Ok(Value::from(position.line)))
        .finish()
}
