//! Messages to the client, before they are written.
ghost use Rattle.std.specs.Prelude.{◌≡◌, ◌≢◌, ◌∷◌, ◌++◌, [], map, true, false, string_bytes, IfOk, OnOk, OnErr};
ghost use Rattle.serde_json.specs.Data.{Data};
ghost use Rattle.serde_json.specs.View.{view};
ghost use Rattle.serde_json.specs.Written.{has_float, compact_text, members_text};
ghost use Rattle.lam_rpc.specs.Reply.{result_reply};
ghost use Rattle.lam_session.specs.Outgoing.{published_data, uses_data, edits_data, data_of};
ghost use Rattle.lam_session.specs.Sync.{version_member};

use crate::lists::{values_of, write_items, write_value};
use crate::rename::edits_in;
use crate::shapes::{DiagnosticShape, EditShape, LocationShape};
use crate::sync::published_params;
use crate::values::Diagnostic;
use lam_rpc::{notice, ok_reply};
use lam_text::Range;
use serde_json::Value;
use std::alloc::{AllocError, Global};

/// A message to the client. As values, the elements of a list would take some 4 KB each, so each becomes one only while it is
/// written.
#[derive(Drop)]
pub enum Outgoing {
    /// A reply that is a value already.
    Value(Value),
    /// The diagnostics of a document.
    Diagnostics(Published),
    /// The reply to a request for references, if the name is bound.
    References(Uses),
    /// The reply to a rename that is not refused.
    Rename(Edits),
}

/// The diagnostics of a document.
#[derive(Drop)]
pub struct Published {
    pub(crate) uri: String,
    pub(crate) version: Option<i64>,
    pub(crate) diagnostics: Vec<Diagnostic>,
}

/// The reply to the request with this id: in the document with this URI the uses of a name, along with its declaration if that was
/// requested.
#[derive(Drop)]
pub struct Uses {
    pub(crate) id: Value,
    pub(crate) uri: String,
    pub(crate) ranges: Vec<Range>,
}

/// The reply to the request with this id: in the document with this URI the new name replaces each of these ranges.
#[derive(Drop)]
pub struct Edits {
    pub(crate) id: Value,
    pub(crate) uri: String,
    pub(crate) new: String,
    pub(crate) ranges: Vec<Range>,
}

/// Returns the successful reply to the request with this id.
pub fn replied(alloc: Global, id: Value, answer: Value) -> Result<Outgoing, AllocError>
    ensures { IfOk result (λ reply. data_of reply ≡ result_reply (view id) (view answer)) }
{
    Ok(Outgoing::Value(ok_reply(alloc, id, answer)?))
}

impl Outgoing {
    /// Returns the message as a value.
    pub fn into_value(self, alloc: Global) -> Result<Value, AllocError>
        ensures { IfOk result (λ value. view value ≡ data_of self) }
    {
        match self {
            Outgoing::Value(value) => Ok(value),
            Outgoing::Diagnostics(published) => published.to_value(alloc),
            Outgoing::References(uses) => uses.into_value(alloc),
            Outgoing::Rename(edits) => edits.into_value(alloc),
        }
    }

    /// Returns the message as compact JSON.
    pub fn to_json(&self, alloc: Global) -> Result<String, AllocError>
        ensures { IfOk result (λ text. has_float (data_of self.now) ≡ false → string_bytes text ≡ compact_text (data_of self.now)) }
    {
        match self {
            Outgoing::Value(value) => value.to_string(alloc),
            Outgoing::Diagnostics(published) => published.to_json(alloc),
            Outgoing::References(uses) => uses.to_json(alloc),
            Outgoing::Rename(edits) => edits.to_json(alloc),
        }
    }
}

/// Returns the value of each message, in order. Does not fail if there is none.
pub fn into_values(alloc: Global, sent: Vec<Outgoing>) -> Result<Vec<Value>, AllocError>
    ensures values { IfOk result (λ values. map view values.items ≡ map data_of sent.items) }
    ensures some { OnErr result (map data_of sent.items ≢ []) }
{
    let mut values = Vec::new(alloc);
    for outgoing in sent {
        values.push(outgoing.into_value(alloc)?)?;
    }
    Ok(values)
}

/// The notification up to its list of diagnostics.
const BEFORE_DIAGNOSTICS: &str =
    "{\"jsonrpc\":\"2.0\",\"method\":\"textDocument/publishDiagnostics\",\"params\":{\"diagnostics\":[";

impl Published {
    fn to_value(&self, alloc: Global) -> Result<Value, AllocError>
        ensures { IfOk result (λ value. view value ≡ published_data self.now) }
    {
        let diagnostics = values_of(alloc, &DiagnosticShape, &self.diagnostics)?;
        let params = published_params(alloc, &self.uri, self.version, diagnostics)?;
        notice(alloc, "textDocument/publishDiagnostics", params)
    }

    fn to_json(&self, alloc: Global) -> Result<String, AllocError>
        ensures { IfOk result (λ text. string_bytes text ≡ compact_text (published_data self.now)) }
    {
        let mut text = String::from_str(alloc, BEFORE_DIAGNOSTICS)?;
        write_items(alloc, &mut text, &DiagnosticShape, &self.diagnostics)?;
        text.push_str(",\"uri\":")?;
        let uri = Value::try_from_str(alloc, &self.uri)?;
        write_value(alloc, &mut text, &uri)?;
        write_version(alloc, &mut text, self.version)?;
        text.push_str("}}")?;
        Ok(text)
    }
}

impl Uses {
    fn into_value(self, alloc: Global) -> Result<Value, AllocError>
        ensures { IfOk result (λ value. view value ≡ uses_data self) }
    {
        let Uses { id, uri, ranges } = self;
        let locations = values_of(alloc, &LocationShape { uri: &uri }, &ranges)?;
        ok_reply(alloc, id, Value::from(locations))
    }

    fn to_json(&self, alloc: Global) -> Result<String, AllocError>
        ensures { IfOk result (λ text. has_float (uses_data self.now) ≡ false → string_bytes text ≡ compact_text (uses_data self.now)) }
    {
        let mut text = before_result(alloc, &self.id)?;
        text.push_str("[")?;
        let shape = LocationShape { uri: &self.uri };
        write_items(alloc, &mut text, &shape, &self.ranges)?;
        text.push_str("}")?;
        Ok(text)
    }
}

impl Edits {
    fn into_value(self, alloc: Global) -> Result<Value, AllocError>
        ensures { IfOk result (λ value. view value ≡ edits_data self) }
    {
        let Edits {
            id,
            uri,
            new,
            ranges,
        } = self;
        let edits = values_of(alloc, &EditShape { new: &new }, &ranges)?;
        ok_reply(alloc, id, edits_in(alloc, &uri, edits)?)
    }

    fn to_json(&self, alloc: Global) -> Result<String, AllocError>
        ensures { IfOk result (λ text. has_float (edits_data self.now) ≡ false → string_bytes text ≡ compact_text (edits_data self.now)) }
    {
        let mut text = before_result(alloc, &self.id)?;
        text.push_str("{\"changes\":{")?;
        let uri = Value::try_from_str(alloc, &self.uri)?;
        write_value(alloc, &mut text, &uri)?;
        text.push_str(":[")?;
        let shape = EditShape { new: &self.new };
        write_items(alloc, &mut text, &shape, &self.ranges)?;
        text.push_str("}}}")?;
        Ok(text)
    }
}

/// Returns the successful reply to the request with this id, up to its result.
fn before_result(alloc: Global, id: &Value) -> Result<String, AllocError>
    ensures { IfOk result (λ text. (answer : Data) → has_float (result_reply (view id.now) answer) ≡ false
        → string_bytes text ++ (compact_text answer ++ 125 ∷ []) ≡ compact_text (result_reply (view id.now) answer)) }
{
    let mut text = String::from_str(alloc, "{\"id\":")?;
    let written = id.to_string(alloc)?;
    text.push_str(&written)?;
    text.push_str(",\"jsonrpc\":\"2.0\",\"result\":")?;
    Ok(text)
}

/// Appends the member for the version, if there is one. The caller closes the object: the 125 is its brace.
fn write_version(alloc: Global, text: &mut String, version: Option<i64>) -> Result<(), AllocError>
    ensures { OnOk result (string_bytes text.new ++ 125 ∷ [] ≡ string_bytes text.old ++ members_text true (version_member version)) }
{
    let Some(version) = version else {
        return Ok(());
    };
    text.push_str(",\"version\":")?;
    write_value(alloc, text, &Value::from(version))
}
