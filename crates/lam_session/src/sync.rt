//! Reading of document notifications, and the diagnostics published in response.
ghost use Rattle.std.specs.Prelude.{◌≡◌, ◌∷◌, [], map, codes, IfOk, option_map};
ghost use Rattle.serde_json.specs.Data.{string, array, object, member};
ghost use Rattle.serde_json.specs.View.{view, items_of, items_view};
ghost use Rattle.lam_session.specs.Outgoing.{data_of, diagnostic_data};
ghost use Rattle.lam_session.specs.Sync.{opened_text, given_version, version_member, published};

use crate::outgoing::{Outgoing, Published};
use crate::values::{Diagnostic, Object};
use serde_json::Value;
use std::alloc::{AllocError, Global};

/// Returns the text of an opened document (LSP 3.17, `TextDocumentItem`).
pub fn opened_text(params: &Value) -> Option<&str>
    ensures { option_map (λ text. text.now) result ≡ opened_text (view params.now) }
{
    params.get("textDocument")?.get("text")?.as_str()
}

/// Returns the version of a document, if the client gave one that is a signed 64-bit integer.
pub fn given_version(params: &Value) -> Option<i64>
    ensures { result ≡ given_version (view params.now) }
{
    params.get("textDocument")?.get("version")?.as_i64()
}

/// Returns the notification that publishes the diagnostics of a document.
pub fn published(
    alloc: Global,
    uri: &str,
    version: Option<i64>,
    diagnostics: Vec<Diagnostic>,
) -> Result<Vec<Outgoing>, AllocError>
    ensures { IfOk result (λ sent. map data_of sent.items ≡ published uri.now version (items_of (map diagnostic_data diagnostics.items)) ∷ []) }
{
    let uri = String::from_str(alloc, uri)?;
    let published = Published {
        uri,
        version,
        diagnostics,
    };
    Ok(vec![in alloc; Outgoing::Diagnostics(published)]?)
}

/// Returns the params of that notification (LSP 3.17, `PublishDiagnosticsParams`).
pub fn published_params(
    alloc: Global,
    uri: &str,
    version: Option<i64>,
    diagnostics: Vec<Value>,
) -> Result<Value, AllocError>
    ensures { IfOk result (λ value. view value
        ≡ object (member (codes "diagnostics") (array (items_view diagnostics.items)) (member (codes "uri") (string uri.now) (version_member version)))) }
{
    let params = Object::new(alloc)
        .value("diagnostics", Ok(Value::from(diagnostics)))
        .text("uri", uri);
    match version {
        Some(version) => params.value("version", Ok(Value::from(version))).finish(),
        None => params.finish(),
    }
}
