//! Classification of message bodies.
ghost use Rattle.std.specs.Prelude.{◌≡◌, IfOk, codes, unwrap_or};
ghost use Rattle.serde_json.specs.Data.{null};
ghost use Rattle.serde_json.specs.Find.{get};
ghost use Rattle.serde_json.specs.View.{view};
ghost use Rattle.lam_rpc.specs.Kind.{message_of, message_kind, is_id, is_reply, IsKindOf, HasPlainId};

use serde_json::Value;
use std::alloc::{AllocError, Global};

/// A message from the client, by kind.
#[derive(Drop)]
pub enum Incoming {
    /// Requires exactly one reply, with this id.
    Request {
        id: Value,
        method: String,
        params: Value,
    },
    /// Requires no reply. Missing params are null.
    Notice {
        method: String,
        params: Value,
    },
    /// A reply to a request that this server never made.
    Reply,
    /// Not a JSON text.
    Unreadable,
    /// A JSON text that is not a message.
    Invalid,
}

/// Determines what a body is.
///
/// A body that is not a JSON text, or that nests more than 127 levels, is unreadable. A JSON text that is not an object is
/// invalid; batches are not supported. An object with `result` or `error` and without `method` is a reply, whatever its id. Every
/// other object needs a string as its method. It is then a notice if it has no id, a request if its id is a string or a 64-bit
/// integer, and invalid otherwise.
///
/// If several members have the same name, the last one counts. The value of `jsonrpc` is ignored.
pub fn classify(alloc: Global, body: &[u8]) -> Result<Incoming, AllocError>
    ensures kind { IfOk result (λ incoming. IsKindOf body.now (message_of incoming)) }
    ensures plain { IfOk result (λ incoming. HasPlainId (message_of incoming)) }
{
    match Value::from_slice(alloc, body) {
        Ok(value) => of_value(alloc, value),
        Err(fault) => {
            if fault.is_memory() {
                Err(AllocError)
            } else {
                Ok(Incoming::Unreadable)
            }
        }
    }
}

fn of_value(alloc: Global, mut value: Value) -> Result<Incoming, AllocError>
    ensures kind { IfOk result (λ incoming. message_of incoming ≡ message_kind (view value)) }
    ensures plain { IfOk result (λ incoming. HasPlainId (message_of incoming)) }
{
    if !value.is_object() {
        return Ok(Incoming::Invalid);
    }
    if is_reply(&value) {
        return Ok(Incoming::Reply);
    }
    let Some(method) = value.get("method").and_then(Value::as_str) else {
        return Ok(Incoming::Invalid);
    };
    let method = String::from_str(alloc, method)?;
    let Some(id) = value.get("id") else {
        let params = taken_params(&mut value);
        return Ok(Incoming::Notice { method, params });
    };
    if !is_id(id) {
        return Ok(Incoming::Invalid);
    }
    let id = id.clone()?;
    let params = taken_params(&mut value);
    Ok(Incoming::Request { id, method, params })
}

fn is_reply(value: &Value) -> bool
    ensures { result ≡ is_reply (view value.now) }
{
    if value.get("method").is_some() {
        return false;
    }
    value.get("result").is_some() || value.get("error").is_some()
}

fn is_id(value: &Value) -> bool
    ensures { result ≡ is_id (view value.now) }
{
    value.as_i64().is_some() || value.as_u64().is_some() || value.is_string()
}

// Moves the params out, since they may contain a whole document.
fn taken_params(value: &mut Value) -> Value
    ensures { view result ≡ unwrap_or (get (codes "params") (view value.old)) null }
{
    match value.get_mut("params") {
        Some(params) => params.take(),
        None => Value::Null,
    }
}
