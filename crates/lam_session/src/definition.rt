//! Replies to `textDocument/definition` (LSP 3.17).
ghost use Rattle.std.specs.Prelude.{◌≡◌, true, IfOk, IfSome};
ghost use Rattle.serde_json.specs.View.{view};
ghost use Rattle.lam_text.specs.Positions.{offset_of};
ghost use Rattle.lam_query.specs.Within.{IsSpanOfText};
ghost use Rattle.lam_session.specs.Definitions.{definition_value, IsDefinitionReply};
ghost use Rattle.lam_session.specs.Outgoing.{data_of};

use crate::document::Document;
use crate::outgoing::{Outgoing, replied};
use crate::values::{location_at, range_of};
use lam_text::{Doc, Position};
use lam_token::Span;
use serde_json::Value;
use std::alloc::{AllocError, Global};

/// Returns the reply to the request with this id: where the name at a position in the document with this URI is bound.
pub fn definition_reply(
    alloc: Global,
    id: Value,
    uri: &str,
    document: &Document,
    position: Position,
) -> Result<Outgoing, AllocError>
    requires { document.now.analysed ≡ true }
    ensures { IfOk result (λ reply. IsDefinitionReply document.now.encoding uri.now document.now.text
        (offset_of document.now.encoding document.now.text position) (view id) (data_of reply)) }
{
    let found = document.definition(alloc, position)?;
    let value = definition_value(alloc, document.doc(), uri, found)?;
    replied(alloc, id, value)
}

/// The location of the binder; null if there is none.
fn definition_value(
    alloc: Global,
    doc: &Doc,
    uri: &str,
    found: Option<Span>,
) -> Result<Value, AllocError>
    requires { IfSome found (IsSpanOfText doc.now.text) }
    ensures { IfOk result (λ value. view value ≡ definition_value doc.now.encoding doc.now.text uri.now found) }
{
    match found {
        Some(span) => location_at(alloc, uri, range_of(doc, span)),
        None => Ok(Value::Null),
    }
}
