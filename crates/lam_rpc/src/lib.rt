//! Messages of JSON-RPC 2.0 as used by the Language Server Protocol, one per body.
//!
//! `classify` determines exactly what a body is: a request, a notification (a message without an id, here called a notice), a
//! reply, or one of two kinds of invalid input. `ok_reply`, `error_reply` and `notice` build the messages to send.
//! `read_position`, `read_range`, `read_uri` and `read_changes` read the fields of params: each returns the field, or an error
//! exactly if it is missing or has another shape. This crate does not deal with frames, open documents or the lifecycle of a
//! session.
#![tactic(auto)]

mod body;
mod fields;
mod laws;
mod replies;

pub use body::{Incoming, classify};
pub use fields::{BadParams, ChangesFault, read_changes, read_position, read_range, read_uri};
pub use laws::{one_kind, some_kind};
pub use replies::{error_reply, notice, ok_reply};
