//! Replies to `textDocument/completion` (LSP 3.17).
ghost use Rattle.std.specs.Prelude.{◌≡◌, true, map, option_map, string_bytes, IfOk};
ghost use Rattle.serde_json.specs.Data.{array, no_members};
ghost use Rattle.serde_json.specs.View.{view, items_of};
ghost use Rattle.lam_text.specs.Positions.{offset_of};
ghost use Rattle.lam_query.specs.Views.{item_of};
ghost use Rattle.lam_session.specs.Objects.{Has};
ghost use Rattle.lam_session.specs.Completions.{item_kind, item_members, item_value, IsCompletionReply};
ghost use Rattle.lam_session.specs.Outgoing.{data_of};

use crate::document::Document;
use crate::outgoing::{Outgoing, replied};
use crate::values::Object;
use lam_query::answers::Item;
use lam_text::Position;
use serde_json::Value;
use std::alloc::{AllocError, Global};

/// Returns the reply to the request with this id: the labels after a dot, or the names in scope for a variable.
pub fn completion_reply(
    alloc: Global,
    id: Value,
    document: &Document,
    position: Position,
) -> Result<Outgoing, AllocError>
    requires { document.now.analysed ≡ true }
    ensures { IfOk result (λ reply. IsCompletionReply document.now.dialect document.now.text
        (offset_of document.now.encoding document.now.text position) (view id) (data_of reply)) }
{
    let items = document.complete(alloc, position)?;
    let value = items_value(alloc, &items)?;
    replied(alloc, id, value)
}

fn items_value(alloc: Global, items: &[Item]) -> Result<Value, AllocError>
    ensures { IfOk result (λ value. view value ≡ array (items_of (map item_value (map item_of items.now)))) }
{
    let mut values = Vec::new(alloc);
    for item in items {
        values.push(item_value(alloc, item)?)?;
    }
    Ok(Value::Array(values))
}

fn item_value(alloc: Global, item: &Item) -> Result<Value, AllocError>
    ensures { IfOk result (λ value. view value ≡ item_value (item_of item.now)) }
{
    with_detail(alloc, &item.detail)
        .value("kind", Ok(Value::from(item_kind(item.field))))
        .text("label", &item.label)
        .finish()
}

/// An object with the detail of a completion item, if it has one.
fn with_detail(alloc: Global, detail: &Option<String>) -> Object
    ensures { Has result (item_members (option_map (λ d. string_bytes d) detail.now) no_members) }
{
    match detail {
        Some(text) => Object::new(alloc).text("detail", text),
        None => Object::new(alloc),
    }
}

/// The `CompletionItemKind` of a field or of a variable (LSP 3.17).
fn item_kind(field: bool) -> u64
    ensures { result ≡ item_kind field }
{
    if field { 5 } else { 6 }
}
