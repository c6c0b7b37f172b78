//! Replies to `textDocument/references` (LSP 3.17).
ghost use Rattle.std.specs.Prelude.{◌≡◌, true, option_map, All, IfOk, IfSome};
ghost use Rattle.serde_json.specs.View.{view};
ghost use Rattle.lam_rpc.specs.Reply.{result_reply};
ghost use Rattle.lam_text.specs.Positions.{offset_of};
ghost use Rattle.lam_query.specs.Within.{IsSpanOfText};
ghost use Rattle.lam_session.specs.Outgoing.{data_of};
ghost use Rattle.lam_session.specs.References.{given_include_declaration, includes_declaration, references_value, IsReferencesReply};

use crate::document::Document;
use crate::outgoing::{Outgoing, Uses, replied};
use crate::values::ranges_of;
use lam_text::{Doc, Position};
use lam_token::Span;
use serde_json::Value;
use std::alloc::{AllocError, Global};

/// Returns the reply to the request with this id and these params: the uses of the name at a position in the document with this
/// URI, along with its declaration if the params ask for it.
pub fn references_reply(
    alloc: Global,
    id: Value,
    params: &Value,
    uri: &str,
    document: &Document,
    position: Position,
) -> Result<Outgoing, AllocError>
    requires { document.now.analysed ≡ true }
    ensures { IfOk result (λ reply. IsReferencesReply document.now.encoding uri.now document.now.text
        (offset_of document.now.encoding document.now.text position) (includes_declaration (view params.now)) (view id) (data_of reply)) }
{
    let found = document.references(alloc, position, includes_declaration(params))?;
    found_reply(alloc, id, document.doc(), uri, &found)
}

/// Whether the reply is to include the declaration (`context.includeDeclaration`): false unless the params say so.
fn includes_declaration(params: &Value) -> bool
    ensures { result ≡ includes_declaration (view params.now) }
{
    given_include_declaration(params).unwrap_or(false)
}

fn given_include_declaration(params: &Value) -> Option<bool>
    ensures { result ≡ given_include_declaration (view params.now) }
{
    params.get("context")?.get("includeDeclaration")?.as_bool()
}

/// The reply with the locations of the references; with null if the name is unbound.
fn found_reply(
    alloc: Global,
    id: Value,
    doc: &Doc,
    uri: &str,
    found: &Option<Vec<Span>>,
) -> Result<Outgoing, AllocError>
    requires { IfSome found.now (λ spans. All (IsSpanOfText doc.now.text) spans.items) }
    ensures { IfOk result (λ reply. data_of reply
        ≡ result_reply (view id) (references_value doc.now.encoding doc.now.text uri.now (option_map (λ spans. spans.items) found.now))) }
{
    let Some(spans) = found else {
        return replied(alloc, id, Value::Null);
    };
    let ranges = ranges_of(alloc, doc, spans)?;
    let uri = String::from_str(alloc, uri)?;
    Ok(Outgoing::References(Uses { id, uri, ranges }))
}
