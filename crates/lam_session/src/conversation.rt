//! The state of a session, and the effect of each message on it.
ghost use Rattle.std.specs.Prelude.{◌≡◌, ℕ, List, ◌∷◌, [], map, IfOk, IsSome, OnErr, None, Some};
ghost use Rattle.serde_json.specs.View.{view};
ghost use Rattle.lam_rpc.specs.Kind.{message_of};
ghost use Rattle.lam_session.specs.Does.{Does, Ignores, Refuses};
ghost use Rattle.lam_session.specs.Documents.{open_text};
ghost use Rattle.lam_session.specs.Outgoing.{data_of};
ghost use Rattle.lam_session.specs.Questions.{Asks};
ghost use Rattle.lam_session.specs.State.{fresh, ended_status};
ghost use Rattle.lam_session.specs.Step.{Steps, Requested, Awaits, Noticed, Heeds, Passes, Serves, Ends, Initializes, ShutsDown, exit_status};
ghost use Rattle.lam_session.specs.Sync.{Tells, Opens, Changes, ChangesText, Closes};
ghost use Rattle.lam_session.specs.inner.Told.{IsTold};

use crate::documents::Documents;
use crate::initialize::{chosen, initialize_answer};
use crate::methods::{NoticeMethod, RequestMethod, notice_method, request_method};
use crate::outgoing::{Outgoing, replied};
use crate::questions::{Question, reply_to};
use crate::refusals::{Refusal, refused};
use crate::states::Lifecycle;
use crate::sync::{given_version, opened_text, published};
use crate::values::diagnostics;
use lam_rpc::{ChangesFault, Incoming, read_changes, read_uri};
use lam_rules::Dialect;
use lam_text::{Change, Encoding};
use serde_json::Value;
use std::alloc::{AllocError, Global};
use std::marker::Model;

/// The lifecycle state and the open documents. What handles a message takes the conversation by value, and returns the next one
/// with the messages to send, or neither if allocation fails.
#[derive(Drop)]
pub struct Conversation {
    alloc: Global,
    life: Lifecycle,
    documents: Documents,
}

/// The contents of a `didChange` notification for an open document.
#[derive(Drop)]
struct DocumentChange {
    uri: String,
    changes: Vec<Change>,
    version: Option<i64>,
}

impl Model for Conversation {
    ghost use Rattle.lam_session.specs.State.{State};

    ghost Value = { State };

    ghost view = { λ c. record {
      life = c.life;
      encoding = c.documents.encoding;
      dialect = c.documents.dialect;
      documents = c.documents.documents;
    } };
}

impl Conversation {
    /// A conversation before the first message.
    pub fn new(alloc: Global, dialect: Dialect) -> Conversation
        ensures { result ≡ fresh dialect }
    {
        Conversation {
            alloc,
            life: Lifecycle::Fresh,
            documents: Documents::new(alloc, Encoding::Utf16, dialect),
        }
    }

    /// Returns the lifecycle state.
    pub fn life(&self) -> Lifecycle
        ensures { result ≡ self.now.life }
    {
        self.life
    }

    /// Handles a message.
    pub fn receive(self, incoming: Incoming) -> Result<(Conversation, Vec<Outgoing>), AllocError>
        ensures steps { IfOk result (λ r. Steps self (message_of incoming) (map data_of r.1.items) r.0) }
        ensures lives { OnErr result (ended_status self.life ≡ None) }
    {
        if self.life.ended().is_some() {
            return Ok(self.ignore());
        }
        match incoming {
            Incoming::Request { id, method, params } => {
                let method = request_method(method.as_str());
                self.request(id, method, &params)
            }
            Incoming::Notice { method, params } => {
                let method = notice_method(method.as_str());
                self.notice(method, params)
            }
            Incoming::Reply => Ok(self.ignore()),
            Incoming::Unreadable => self.refuse(Value::Null, Refusal::UnreadableMessage),
            Incoming::Invalid => self.refuse(Value::Null, Refusal::InvalidMessage),
        }
    }

    /// Sends nothing.
    fn ignore(self) -> (Conversation, Vec<Outgoing>)
        ensures { Ignores self (map data_of result.1.items) result.0 }
    {
        let sent = Vec::new(self.alloc);
        (self, sent)
    }

    /// Sends one message.
    fn send(self, message: Outgoing) -> Result<(Conversation, Vec<Outgoing>), AllocError>
        ensures { IfOk result (λ r. Does (data_of message ∷ []) self (map data_of r.1.items) r.0) }
    {
        let sent = vec![in self.alloc; message]?;
        Ok((self, sent))
    }

    fn refuse(
        self,
        id: Value,
        refusal: Refusal,
    ) -> Result<(Conversation, Vec<Outgoing>), AllocError>
        ensures { IfOk result (λ r. Refuses self (view id) refusal (map data_of r.1.items) r.0) }
    {
        let reply = refused(self.alloc, id, refusal)?;
        self.send(reply)
    }

    fn request(
        self,
        id: Value,
        method: RequestMethod,
        params: &Value,
    ) -> Result<(Conversation, Vec<Outgoing>), AllocError>
        ensures { IfOk result (λ r. Requested self.life self (view id) method (view params.now) (map data_of r.1.items) r.0) }
    {
        match self.life {
            Lifecycle::Fresh => self.before_initialize(id, method, params),
            Lifecycle::Running => self.serve(id, method, params),
            Lifecycle::Down => self.refuse(id, Refusal::ShutDown),
            Lifecycle::Over(_) => Ok(self.ignore()),
        }
    }

    /// Handles a request before the session is initialized: only `initialize` is served.
    fn before_initialize(
        self,
        id: Value,
        method: RequestMethod,
        params: &Value,
    ) -> Result<(Conversation, Vec<Outgoing>), AllocError>
        ensures { IfOk result (λ r. Awaits self (view id) method (view params.now) (map data_of r.1.items) r.0) }
    {
        match method {
            RequestMethod::Initialize => self.initialize(id, params),
            _ => self.refuse(id, Refusal::NotInitialized),
        }
    }

    fn initialize(
        mut self,
        id: Value,
        params: &Value,
    ) -> Result<(Conversation, Vec<Outgoing>), AllocError>
        ensures { IfOk result (λ r. Initializes self (view id) (view params.now) (map data_of r.1.items) r.0) }
    {
        let encoding = chosen(params);
        let reply = replied(self.alloc, id, initialize_answer(self.alloc, encoding)?)?;
        self.life = Lifecycle::Running;
        self.documents = Documents::new(self.alloc, encoding, self.documents.dialect());
        self.send(reply)
    }

    fn serve(
        self,
        id: Value,
        method: RequestMethod,
        params: &Value,
    ) -> Result<(Conversation, Vec<Outgoing>), AllocError>
        ensures { IfOk result (λ r. Serves self (view id) method (view params.now) (map data_of r.1.items) r.0) }
    {
        match method {
            RequestMethod::Initialize => self.refuse(id, Refusal::AlreadyInitialized),
            RequestMethod::Shutdown => self.shut_down(id),
            RequestMethod::Ask(question) => self.ask(question, id, params),
            RequestMethod::Unknown => self.refuse(id, Refusal::MethodNotFound),
        }
    }

    fn shut_down(mut self, id: Value) -> Result<(Conversation, Vec<Outgoing>), AllocError>
        ensures { IfOk result (λ r. ShutsDown self (view id) (map data_of r.1.items) r.0) }
    {
        let reply = replied(self.alloc, id, Value::Null)?;
        self.life = Lifecycle::Down;
        self.send(reply)
    }

    /// Answers a question about a position in a document.
    fn ask(
        self,
        question: Question,
        id: Value,
        params: &Value,
    ) -> Result<(Conversation, Vec<Outgoing>), AllocError>
        ensures { IfOk result (λ r. Asks question self (view id) (view params.now) (map data_of r.1.items) r.0) }
    {
        let reply = reply_to(self.alloc, question, id, params, &self.documents)?;
        self.send(reply)
    }

    fn notice(
        self,
        method: NoticeMethod,
        params: Value,
    ) -> Result<(Conversation, Vec<Outgoing>), AllocError>
        ensures { IfOk result (λ r. Noticed self.life self method (view params) (map data_of r.1.items) r.0) }
    {
        match self.life {
            Lifecycle::Running => self.notice_while_running(method, params),
            Lifecycle::Over(_) => Ok(self.ignore()),
            _ => Ok(self.notice_while_not_running(method)),
        }
    }

    /// Handles a notification after `initialize` and before `shutdown`.
    fn notice_while_running(
        self,
        method: NoticeMethod,
        params: Value,
    ) -> Result<(Conversation, Vec<Outgoing>), AllocError>
        ensures { IfOk result (λ r. Heeds self method (view params) (map data_of r.1.items) r.0) }
    {
        match method {
            NoticeMethod::Exit => Ok(self.exit()),
            NoticeMethod::DidOpen => self.open_document(&params),
            NoticeMethod::DidChange => self.change_document(params),
            NoticeMethod::DidClose => self.close_document(&params),
            NoticeMethod::Unknown => Ok(self.ignore()),
        }
    }

    /// Handles a notification before `initialize` or after `shutdown`: only `exit` has an effect.
    fn notice_while_not_running(self, method: NoticeMethod) -> (Conversation, Vec<Outgoing>)
        ensures { Passes self method (map data_of result.1.items) result.0 }
    {
        match method {
            NoticeMethod::Exit => self.exit(),
            _ => self.ignore(),
        }
    }

    fn exit(mut self) -> (Conversation, Vec<Outgoing>)
        ensures { Ends self (exit_status self.life) (map data_of result.1.items) result.0 }
    {
        self.life = Lifecycle::Over(exit_status(self.life));
        self.ignore()
    }

    fn open_document(mut self, params: &Value) -> Result<(Conversation, Vec<Outgoing>), AllocError>
        ensures { IfOk result (λ r. Opens self (view params.now) (map data_of r.1.items) r.0) }
    {
        let Ok(uri) = read_uri(params) else {
            return Ok(self.ignore());
        };
        let Some(text) = opened_text(params) else {
            return Ok(self.ignore());
        };
        let version = given_version(params);
        self.documents = self.documents.open(uri, text, version)?;
        let sent = self.diagnostics_notice(uri, version)?;
        Ok((self, sent))
    }

    fn change_document(self, params: Value) -> Result<(Conversation, Vec<Outgoing>), AllocError>
        ensures { IfOk result (λ r. Changes self (view params) (map data_of r.1.items) r.0) }
    {
        let told = self.read_change(&params)?;
        // If the params were kept, their blocks would occupy the memory that the old analysis frees for the new one.
        drop(params);
        match told {
            Some(change) => self.apply(&change.uri, &change.changes, change.version),
            None => Ok(self.ignore()),
        }
    }

    /// Reads a `didChange` notification; `None` if it is to be ignored.
    fn read_change(&self, params: &Value) -> Result<Option<DocumentChange>, AllocError>
        ensures { IfOk result (IsTold self.now (view params.now)) }
    {
        let Ok(uri) = read_uri(params) else {
            return Ok(None);
        };
        if self.documents.document(uri).is_none() {
            return Ok(None);
        }
        let changes = match read_changes(self.alloc, params) {
            Ok(changes) => changes,
            Err(ChangesFault::BadParams) => return Ok(None),
            Err(ChangesFault::Memory) => return Err(AllocError),
        };
        Ok(Some(DocumentChange {
            uri: String::from_str(self.alloc, uri)?,
            changes,
            version: given_version(params),
        }))
    }

    /// Changes an open document, and publishes its diagnostics.
    fn apply(
        mut self,
        uri: &str,
        changes: &[Change],
        version: Option<i64>,
    ) -> Result<(Conversation, Vec<Outgoing>), AllocError>
        requires { IsSome (open_text uri.now self.documents) }
        ensures { IfOk result (λ r. ChangesText self uri.now (open_text uri.now self.documents) changes.now version (map data_of r.1.items) r.0) }
    {
        self.documents = self.documents.change(uri, changes, version)?;
        let sent = self.diagnostics_notice(uri, version)?;
        Ok((self, sent))
    }

    fn close_document(mut self, params: &Value) -> Result<(Conversation, Vec<Outgoing>), AllocError>
        ensures { IfOk result (λ r. Closes self (view params.now) (map data_of r.1.items) r.0) }
    {
        let Ok(uri) = read_uri(params) else {
            return Ok(self.ignore());
        };
        if self.documents.document(uri).is_none() {
            return Ok(self.ignore());
        }
        let sent = published(self.alloc, uri, None, Vec::new(self.alloc))?;
        self.documents = self.documents.close(uri);
        Ok((self, sent))
    }

    /// The notification with all diagnostics of an open document.
    fn diagnostics_notice(
        &self,
        uri: &str,
        version: Option<i64>,
    ) -> Result<Vec<Outgoing>, AllocError>
        requires { IsSome (open_text uri.now self.now.documents) }
        ensures { IfOk result (λ sent. (text : List ℕ) → open_text uri.now self.now.documents ≡ Some text
            → Tells self.now.encoding self.now.dialect (record { uri = uri.now; text = text; version = version }) (map data_of sent.items)) }
    {
        let Some(document) = self.documents.document(uri) else {
            unreachable!()
        };
        let faults = document.faults(self.alloc)?;
        let diagnostics = diagnostics(self.alloc, document.doc(), &faults)?;
        published(self.alloc, uri, version, diagnostics)
    }
}

/// The exit status of the program: 0 only if `exit` comes after `shutdown` (LSP 3.17, exit).
fn exit_status(life: Lifecycle) -> u8
    ensures { result ≡ exit_status life }
{
    match life {
        Lifecycle::Down => 0,
        _ => 1,
    }
}
