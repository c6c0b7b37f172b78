//! Replies to `textDocument/rename` (LSP 3.17).
ghost use Rattle.std.specs.Prelude.{◌≡◌, true, option_map, All, IfOk};
ghost use Rattle.std.specs.Result.{result_ok};
ghost use Rattle.serde_json.specs.View.{view, items_view};
ghost use Rattle.lam_rpc.specs.Reply.{result_reply};
ghost use Rattle.lam_text.specs.Positions.{offset_of};
ghost use Rattle.lam_query.specs.Within.{IsSpanOfText};
ghost use Rattle.lam_session.specs.Asked.{given_name};
ghost use Rattle.lam_session.specs.Outgoing.{data_of};
ghost use Rattle.lam_session.specs.Renames.{new_name, edit_at, edits_in, rename_value, refusal_of, IsRenameReply};

use crate::document::Document;
use crate::outgoing::{Edits, Outgoing};
use crate::refusals::{Refusal, refused};
use crate::values::{Object, ranges_of, written_range};
use lam_query::RenameFault;
use lam_text::{Doc, Position, Range};
use lam_token::Span;
use serde_json::Value;
use std::alloc::{AllocError, Global};

/// Returns the reply to the request with this id and these params: the edits that rename the name at a position in the document
/// with this URI, or the reason why there are none.
pub fn rename_reply(
    alloc: Global,
    id: Value,
    params: &Value,
    uri: &str,
    document: &Document,
    position: Position,
) -> Result<Outgoing, AllocError>
    requires { document.now.analysed ≡ true }
    ensures { IfOk result (λ reply. IsRenameReply document.now.encoding uri.now document.now.text
        (offset_of document.now.encoding document.now.text position) (new_name (view params.now)) (view id) (data_of reply)) }
{
    let new = new_name(params);
    match document.rename(alloc, position, new) {
        Ok(spans) => edits_reply(alloc, id, document.doc(), uri, new, &spans),
        Err(fault) => refused(alloc, id, refusal_of(fault)?),
    }
}

/// Returns the new name in the params, if there is one.
pub fn given_name(params: &Value) -> Option<&str>
    ensures { option_map (λ name. name.now) result ≡ given_name (view params.now) }
{
    params.get("newName")?.as_str()
}

/// The new name, or an empty string if the params have none.
fn new_name(params: &Value) -> &str
    ensures { result.now ≡ new_name (view params.now) }
{
    given_name(params).unwrap_or("")
}

/// The reply with the edits in the document with this URI, one for each span.
fn edits_reply(
    alloc: Global,
    id: Value,
    doc: &Doc,
    uri: &str,
    new: &str,
    spans: &[Span],
) -> Result<Outgoing, AllocError>
    requires { All (IsSpanOfText doc.now.text) spans.now }
    ensures { IfOk result (λ reply. data_of reply
        ≡ result_reply (view id) (rename_value doc.now.encoding doc.now.text uri.now new.now spans.now)) }
{
    let ranges = ranges_of(alloc, doc, spans)?;
    let uri = String::from_str(alloc, uri)?;
    let new = String::from_str(alloc, new)?;
    Ok(Outgoing::Rename(Edits {
        id,
        uri,
        new,
        ranges,
    }))
}

/// Returns these edits in the document with this URI (LSP 3.17, `WorkspaceEdit`).
pub fn edits_in(alloc: Global, uri: &str, edits: Vec<Value>) -> Result<Value, AllocError>
    ensures { IfOk result (λ value. view value ≡ edits_in uri.now (items_view edits.items)) }
{
    let changes = Object::new(alloc).value(uri, Ok(Value::from(edits)));
    Object::new(alloc)
        .value("changes", changes.finish())
        .finish()
}

/// Returns the edit that replaces a range by the new name (LSP 3.17, `TextEdit`).
pub fn edit_at(alloc: Global, new: &str, range: Range) -> Result<Value, AllocError>
    ensures { IfOk result (λ value. view value ≡ edit_at new.now range) }
{
    Object::new(alloc)
        .text("newText", new)
        .value("range", written_range(alloc, range))
        .finish()
}

/// The refusal for a rename that fails. A failed allocation is not a refusal.
fn refusal_of(fault: RenameFault) -> Result<Refusal, AllocError>
    ensures { result_ok result ≡ refusal_of fault }
{
    match fault {
        RenameFault::NotAName => Ok(Refusal::NotAName),
        RenameFault::UnparsedCommand => Ok(Refusal::UnparsedCommand),
        RenameFault::NoBoundName => Ok(Refusal::NoBoundName),
        RenameFault::WrongKind => Ok(Refusal::WrongKind),
        RenameFault::ChangesBinding => Ok(Refusal::ChangesBinding),
        RenameFault::Memory => Err(AllocError),
    }
}
