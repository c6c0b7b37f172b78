//! Error responses.
ghost use Rattle.std.specs.Prelude.{◌≡◌, IfOk};
ghost use Rattle.serde_json.specs.View.{view};
ghost use Rattle.lam_session.specs.Outgoing.{data_of};
ghost use Rattle.lam_session.specs.Refusals.{code_of, refusal_text, refused};

use crate::outgoing::Outgoing;
use lam_rpc::error_reply;
use serde_json::Value;
use std::alloc::{AllocError, Global};

/// Why a message is answered with an error.
#[derive(Clone, Copy)]
pub enum Refusal {
    UnreadableMessage,
    InvalidMessage,
    AlreadyInitialized,
    ShutDown,
    NotInitialized,
    MethodNotFound,
    InvalidParams,
    DocumentNotOpen,
    // Why a rename is refused.
    NotAName,
    UnparsedCommand,
    NoBoundName,
    WrongKind,
    ChangesBinding,
}

fn code_of(refusal: Refusal) -> i64
    ensures { result ≡ code_of refusal }
{
    match refusal {
        Refusal::UnreadableMessage => -32700,
        Refusal::InvalidMessage => -32600,
        Refusal::AlreadyInitialized => -32600,
        Refusal::ShutDown => -32600,
        Refusal::NotInitialized => -32002,
        Refusal::MethodNotFound => -32601,
        Refusal::InvalidParams => -32602,
        Refusal::DocumentNotOpen => -32602,
        Refusal::NotAName => -32602,
        Refusal::UnparsedCommand => -32803,
        Refusal::NoBoundName => -32803,
        Refusal::WrongKind => -32602,
        Refusal::ChangesBinding => -32803,
    }
}

fn text_of(refusal: Refusal) -> &'static str
    ensures { result.now ≡ refusal_text refusal }
{
    match refusal {
        Refusal::UnreadableMessage => "unreadable message",
        Refusal::InvalidMessage => "invalid message",
        Refusal::AlreadyInitialized => "already initialized",
        Refusal::ShutDown => "server is shut down",
        Refusal::NotInitialized => "server not initialized",
        Refusal::MethodNotFound => "method not found",
        Refusal::InvalidParams => "invalid params",
        Refusal::DocumentNotOpen => "document not open",
        Refusal::NotAName => "new name is not a name",
        Refusal::UnparsedCommand => "some command does not parse",
        Refusal::NoBoundName => "no bound name here",
        Refusal::WrongKind => "new name is of the wrong kind",
        Refusal::ChangesBinding => "binding would change",
    }
}

/// Returns the error response to the request with this id.
pub fn refused(alloc: Global, id: Value, refusal: Refusal) -> Result<Outgoing, AllocError>
    ensures { IfOk result (λ reply. data_of reply ≡ refused (view id) refusal) }
{
    let reply = error_reply(alloc, id, code_of(refusal), text_of(refusal))?;
    Ok(Outgoing::Value(reply))
}
