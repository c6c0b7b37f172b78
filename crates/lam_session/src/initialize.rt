//! Replies to `initialize`.
ghost use Rattle.std.specs.Prelude.{◌≡◌, IfOk, option_map};
ghost use Rattle.serde_json.specs.View.{view, items_view};
ghost use Rattle.lam_session.specs.Initialize.{encoding_name, encoding_named, encoding_of, offered, first_known, chosen, completion_options, document_sync, capabilities, initialize_answer};

use crate::values::Object;
use lam_text::Encoding;
use serde_json::Value;
use std::alloc::{AllocError, Global};

/// Returns the first encoding that the client offers and the server supports, or else UTF-16 (LSP 3.17,
/// `general.positionEncodings`).
pub fn chosen(params: &Value) -> Encoding
    ensures { result ≡ chosen (view params.now) }
{
    match offered(params) {
        Some(offers) => first_known(offers).unwrap_or(Encoding::Utf16),
        None => Encoding::Utf16,
    }
}

fn offered(params: &Value) -> Option<&Vec<Value>>
    ensures { option_map (λ v. items_view v.now.items) result ≡ offered (view params.now) }
{
    let general = params.get("capabilities")?.get("general")?;
    general.get("positionEncodings")?.as_array()
}

fn first_known(offers: &[Value]) -> Option<Encoding>
    ensures { result ≡ first_known (items_view offers.now) }
{
    for offer in offers {
        let known = encoding_of(offer);
        if known.is_some() {
            return known;
        }
    }
    None
}

fn encoding_of(offer: &Value) -> Option<Encoding>
    ensures { result ≡ encoding_of (view offer.now) }
{
    encoding_named(offer.as_str()?)
}

fn encoding_named(name: &str) -> Option<Encoding>
    ensures { result ≡ encoding_named name.now }
{
    if name == encoding_name(Encoding::Utf8) {
        return Some(Encoding::Utf8);
    }
    if name == encoding_name(Encoding::Utf16) {
        return Some(Encoding::Utf16);
    }
    if name == encoding_name(Encoding::Utf32) {
        return Some(Encoding::Utf32);
    }
    None
}

fn encoding_name(encoding: Encoding) -> &'static str
    ensures { result.now ≡ encoding_name encoding }
{
    match encoding {
        Encoding::Utf8 => "utf-8",
        Encoding::Utf16 => "utf-16",
        Encoding::Utf32 => "utf-32",
    }
}

/// Returns the result of `initialize`: the capabilities of the server.
pub fn initialize_answer(alloc: Global, encoding: Encoding) -> Result<Value, AllocError>
    ensures { IfOk result (λ value. view value ≡ initialize_answer encoding) }
{
    Object::new(alloc)
        .value("capabilities", capabilities(alloc, encoding))
        .finish()
}

fn capabilities(alloc: Global, encoding: Encoding) -> Result<Value, AllocError>
    ensures { IfOk result (λ value. view value ≡ capabilities encoding) }
{
    Object::new(alloc)
        .value("completionProvider", completion_options(alloc))
        .value("definitionProvider", Ok(Value::from(true)))
        .value("hoverProvider", Ok(Value::from(true)))
        .text("positionEncoding", encoding_name(encoding))
        .value("referencesProvider", Ok(Value::from(true)))
        .value("renameProvider", Ok(Value::from(true)))
        .value("textDocumentSync", document_sync(alloc))
        .finish()
}

fn completion_options(alloc: Global) -> Result<Value, AllocError>
    ensures { IfOk result (λ value. view value ≡ completion_options) }
{
    let mut characters = Vec::new(alloc);
    characters.push(Value::try_from_str(alloc, ".")?)?;
    Object::new(alloc)
        .value("triggerCharacters", Ok(Value::Array(characters)))
        .finish()
}

fn document_sync(alloc: Global) -> Result<Value, AllocError>
    ensures { IfOk result (λ value. view value ≡ document_sync) }
{
    Object::new(alloc)
        .value("change", Ok(Value::from(2u64)))
        .value("openClose", Ok(Value::from(true)))
        .finish()
}
