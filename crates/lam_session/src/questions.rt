//! The requests about a position in a document, and the reply to each.
ghost use Rattle.std.specs.Prelude.{◌≡◌, IfOk};
ghost use Rattle.serde_json.specs.View.{view};
ghost use Rattle.lam_session.specs.Asked.{has_rest};
ghost use Rattle.lam_session.specs.Outgoing.{data_of};
ghost use Rattle.lam_session.specs.Questions.{Replies};

use crate::completion::completion_reply;
use crate::definition::definition_reply;
use crate::derivation::derivation_reply;
use crate::documents::Documents;
use crate::hover::hover_reply;
use crate::outgoing::Outgoing;
use crate::references::references_reply;
use crate::refusals::{Refusal, refused};
use crate::rename::{given_name, rename_reply};
use lam_rpc::{read_position, read_uri};
use serde_json::Value;
use std::alloc::{AllocError, Global};

/// A question about the innermost term around a position, or about the name there.
#[derive(Clone, Copy)]
pub enum Question {
    /// The type of the term.
    Hover,
    /// A derivation of that type.
    Derivation,
    /// The completions there.
    Completion,
    /// Where the name is bound.
    Definition,
    /// The uses of the name.
    References,
    /// A new name for it.
    Rename,
}

/// Returns the reply to a question with these params.
pub fn reply_to(
    alloc: Global,
    question: Question,
    id: Value,
    params: &Value,
    documents: &Documents,
) -> Result<Outgoing, AllocError>
    ensures { IfOk result (λ reply. Replies question documents.now (view id) (view params.now) (data_of reply)) }
{
    let Ok(position) = read_position(params) else {
        return refused(alloc, id, Refusal::InvalidParams);
    };
    let Ok(uri) = read_uri(params) else {
        return refused(alloc, id, Refusal::InvalidParams);
    };
    if !has_rest(question, params) {
        return refused(alloc, id, Refusal::InvalidParams);
    }
    let Some(document) = documents.document(uri) else {
        return refused(alloc, id, Refusal::DocumentNotOpen);
    };
    match question {
        Question::Hover => hover_reply(alloc, id, document, position),
        Question::Derivation => derivation_reply(alloc, id, document, position),
        Question::Completion => completion_reply(alloc, id, document, position),
        Question::Definition => definition_reply(alloc, id, uri, document, position),
        Question::References => references_reply(alloc, id, params, uri, document, position),
        Question::Rename => rename_reply(alloc, id, params, uri, document, position),
    }
}

/// Whether the params have what a question needs besides a position and a URI: a rename needs a new name.
fn has_rest(question: Question, params: &Value) -> bool
    ensures { result ≡ has_rest question (view params.now) }
{
    match question {
        Question::Rename => given_name(params).is_some(),
        _ => true,
    }
}
