//! Replies to `textDocument/hover` (LSP 3.17, `Hover`).
ghost use Rattle.std.specs.Prelude.{◌≡◌, true, option_map, string_bytes, IfOk, IfSome};
ghost use Rattle.serde_json.specs.View.{view};
ghost use Rattle.lam_text.specs.Positions.{offset_of};
ghost use Rattle.lam_query.specs.Views.{shown_of};
ghost use Rattle.lam_query.specs.Within.{IsSpanOfText};
ghost use Rattle.lam_session.specs.Hovers.{plain_contents, hover_value, IsHoverReply};
ghost use Rattle.lam_session.specs.Outgoing.{data_of};

use crate::document::Document;
use crate::outgoing::{Outgoing, replied};
use crate::values::{Object, range_value};
use lam_query::answers::Hover;
use lam_text::{Doc, Position};
use serde_json::Value;
use std::alloc::{AllocError, Global};

/// Returns the reply to the request with this id: the least type of the innermost term around a position.
pub fn hover_reply(
    alloc: Global,
    id: Value,
    document: &Document,
    position: Position,
) -> Result<Outgoing, AllocError>
    requires { document.now.analysed ≡ true }
    ensures { IfOk result (λ reply. IsHoverReply document.now.encoding document.now.dialect document.now.text
        (offset_of document.now.encoding document.now.text position) (view id) (data_of reply)) }
{
    let shown = document.hover(alloc, position)?;
    let value = hover_value(alloc, document.doc(), shown)?;
    replied(alloc, id, value)
}

/// A type and its range; null if there is none.
fn hover_value(alloc: Global, doc: &Doc, shown: Option<Hover>) -> Result<Value, AllocError>
    requires { IfSome shown (λ h. IsSpanOfText doc.now.text h.span) }
    ensures { IfOk result (λ value. view value ≡ hover_value doc.now.encoding doc.now.text (option_map shown_of shown)) }
{
    let Some(hover) = shown else {
        return Ok(Value::Null);
    };
    Object::new(alloc)
        .value("contents", plain_contents(alloc, hover.text))
        .value("range", range_value(alloc, doc, hover.span))
        .finish()
}

/// A text that the client shows verbatim (LSP 3.17, `MarkupKind`).
fn plain_contents(alloc: Global, text: String) -> Result<Value, AllocError>
    ensures { IfOk result (λ value. view value ≡ plain_contents (string_bytes text)) }
{
    Object::new(alloc)
        .text("kind", "plaintext")
        .value("value", Ok(Value::from(text)))
        .finish()
}
