//! The messages to send.
ghost use Rattle.std.specs.Prelude.{◌≡◌, IfOk};
ghost use Rattle.serde_json.specs.View.{view};
ghost use Rattle.lam_rpc.specs.Reply.{result_reply, refusal_reply, sent_notice};

use serde_json::{Value, json};
use std::alloc::{AllocError, Global};

/// Returns the successful reply to the request with this id (JSON-RPC 2.0, section 5).
pub fn ok_reply(alloc: Global, id: Value, answer: Value) -> Result<Value, AllocError>
    ensures { IfOk result (λ value. view value ≡ result_reply (view id) (view answer)) }
{
    json!(in alloc; {"id": id, "jsonrpc": "2.0", "result": answer})
}

/// Returns the error reply to the request with this id (JSON-RPC 2.0, section 5.1).
pub fn error_reply(alloc: Global, id: Value, code: i64, message: &str) -> Result<Value, AllocError>
    ensures { IfOk result (λ value. view value ≡ refusal_reply (view id) code message.now) }
{
    json!(in alloc; {"error": {"code": code, "message": message}, "id": id, "jsonrpc": "2.0"})
}

/// Returns a notification, which requires no reply (JSON-RPC 2.0, section 4.1).
pub fn notice(alloc: Global, method: &str, params: Value) -> Result<Value, AllocError>
    ensures { IfOk result (λ value. view value ≡ sent_notice method.now (view params)) }
{
    json!(in alloc; {"jsonrpc": "2.0", "method": method, "params": params})
}
