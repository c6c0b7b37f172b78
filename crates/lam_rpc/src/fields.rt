//! Access to the fields of params.
ghost use Rattle.std.specs.Prelude.{◌≡◌, Some, None, codes, option_map, IfOk, IsErrOf};
ghost use Rattle.std.specs.Result.{result_ok};
ghost use Rattle.serde_json.specs.Find.{get};
ghost use Rattle.serde_json.specs.View.{view, items_view};
ghost use Rattle.lam_rpc.specs.Fields.{number_at, text_at, given_position, position_at, given_range, asked_position, named_uri, range_at, change_of, changes_of, listed_changes};

use lam_text::{Change, Position, Range};
use serde_json::Value;
use std::alloc::Global;

/// A field is missing or has another shape.
#[derive(Clone, Copy, Debug, PartialEq, Eq)]
pub struct BadParams {}

/// Why the changes could not be read.
#[derive(Clone, Copy, Debug, PartialEq, Eq)]
pub enum ChangesFault {
    /// The list is missing, or one of its changes has another shape.
    BadParams,
    Memory,
}

/// Returns the member `position` of a request's params (LSP 3.17, `TextDocumentPositionParams`).
pub fn read_position(params: &Value) -> Result<Position, BadParams>
    ensures { result_ok result ≡ asked_position (view params.now) }
{
    position_at(params, "position").ok_or(BadParams {})
}

/// Reads a range (LSP 3.17, `Range`).
pub fn read_range(range: &Value) -> Result<Range, BadParams>
    ensures { result_ok result ≡ given_range (view range.now) }
{
    range_of(range).ok_or(BadParams {})
}

/// Returns the URI of the document that the params name (LSP 3.17, `TextDocumentIdentifier`).
pub fn read_uri(params: &Value) -> Result<&str, BadParams>
    ensures { option_map (λ uri. uri.now) (result_ok result) ≡ named_uri (view params.now) }
{
    let Some(document) = params.get("textDocument") else {
        return Err(BadParams {});
    };
    text_at(document, "uri").ok_or(BadParams {})
}

/// Returns the changes of a document, in order (LSP 3.17, `DidChangeTextDocumentParams`): all of them, or an error if one has
/// another shape.
pub fn read_changes(alloc: Global, params: &Value) -> Result<Vec<Change>, ChangesFault>
    ensures ok { IfOk result (λ changes. listed_changes (view params.now) ≡ Some changes.items) }
    ensures bad_params { IsErrOf result ChangesFault.BadParams → listed_changes (view params.now) ≡ None }
{
    let Some(list) = params.get("contentChanges").and_then(Value::as_array) else {
        return Err(ChangesFault::BadParams);
    };
    changes_of(alloc, list)
}

fn changes_of(alloc: Global, list: &[Value]) -> Result<Vec<Change>, ChangesFault>
    ensures ok { IfOk result (λ changes. changes_of (items_view list.now) ≡ Some changes.items) }
    ensures bad_params { IsErrOf result ChangesFault.BadParams → changes_of (items_view list.now) ≡ None }
{
    let mut changes = Vec::new(alloc);
    for item in list {
        let change = change_of(alloc, item)?;
        let Ok(()) = changes.push(change) else {
            return Err(ChangesFault::Memory);
        };
    }
    Ok(changes)
}

fn change_of(alloc: Global, change: &Value) -> Result<Change, ChangesFault>
    ensures ok { IfOk result (λ found. change_of (view change.now) ≡ Some found) }
    ensures bad_params { IsErrOf result ChangesFault.BadParams → change_of (view change.now) ≡ None }
{
    let Some(text) = text_at(change, "text") else {
        return Err(ChangesFault::BadParams);
    };
    let Some(range) = range_at(change) else {
        return Err(ChangesFault::BadParams);
    };
    let Ok(text) = String::from_str(alloc, text) else {
        return Err(ChangesFault::Memory);
    };
    Ok(Change { range, text })
}

fn range_at(change: &Value) -> Option<Option<Range>>
    ensures { result ≡ range_at (get (codes "range") (view change.now)) }
{
    match change.get("range") {
        None => Some(None),
        Some(Value::Null) => Some(None),
        Some(range) => range_of(range).map(Some),
    }
}

fn range_of(range: &Value) -> Option<Range>
    ensures { result ≡ given_range (view range.now) }
{
    let start = position_at(range, "start")?;
    let end = position_at(range, "end")?;
    Some(Range { start, end })
}

fn position_at(value: &Value, name: &str) -> Option<Position>
    ensures { result ≡ position_at name.now (view value.now) }
{
    position_of(value.get(name)?)
}

fn position_of(value: &Value) -> Option<Position>
    ensures { result ≡ given_position (view value.now) }
{
    let line = number_at(value, "line")?;
    let character = number_at(value, "character")?;
    Some(Position { line, character })
}

fn number_at(value: &Value, name: &str) -> Option<u64>
    ensures { result ≡ number_at name.now (view value.now) }
{
    value.get(name)?.as_u64()
}

fn text_at<'v>(value: &'v Value, name: &str) -> Option<&'v str>
    ensures { option_map (λ s. s.now) result ≡ text_at name.now (view value.now) }
{
    value.get(name)?.as_str()
}
