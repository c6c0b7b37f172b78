//! The session and its step function.
ghost use Rattle.std.specs.Prelude.{◌≡◌, map, false, IfOk, OnErr};
ghost use Rattle.std.specs.List.{All};
ghost use Rattle.serde_json.specs.View.{view};
ghost use Rattle.serde_json.specs.Written.{has_float};
ghost use Rattle.lam_rpc.specs.Kind.{message_of, HasPlainId};
ghost use Rattle.lam_session.specs.Outgoing.{data_of};
ghost use Rattle.lam_session.specs.OneAnswer.{HasOneAnswer};
ghost use Rattle.lam_session.specs.State.{fresh, dialect_of, ended_status};
ghost use Rattle.lam_session.specs.Step.{Answers, GivesUp};

use crate::conversation::Conversation;
use crate::outgoing::{Outgoing, into_values};
use crate::states::{Config, Lifecycle};
use lam_rpc::Incoming;
use serde_json::Value;
use std::alloc::{AllocError, Global};
use std::marker::Model;
use std::mem;

/// A session with one client.
#[derive(Drop)]
pub struct Session {
    alloc: Global,
    condition: Condition,
}

/// Whether a session is still able to answer.
#[derive(Drop)]
enum Condition {
    /// It is.
    Going(Conversation),
    /// It is not, since an allocation failed. Only the lifecycle state is kept.
    GaveUp(Lifecycle),
}

impl Model for Session {
    ghost use Rattle.lam_session.specs.State.{Snapshot};

    ghost Value = { Snapshot };

    ghost use Rattle.lam_session.specs.Conditions.{snapshot_of, IsWhole};

    ghost view = { λ s. snapshot_of s.condition };

    ghost invariant = { λ s. IsWhole s.condition };
}

impl Session {
    /// A session before its first message. Does not allocate.
    pub fn new(alloc: Global, config: Config) -> Session
        ensures { result ≡ record { state = fresh (dialect_of config); gave_up = false } }
    {
        Session {
            alloc,
            condition: Condition::Going(Conversation::new(alloc, config.dialect())),
        }
    }

    /// Returns the exit status of the program, once the session has ended.
    pub fn ended(&self) -> Option<u8>
        ensures { result ≡ ended_status self.now.state.life }
    {
        self.life().ended()
    }

    /// Handles one message, and returns the values to send, in order.
    ///
    /// Returns `AllocError` if allocation failed in this step or an earlier one; every later step then fails too. After the
    /// session has ended, a step sends nothing and changes nothing.
    ///
    /// In each state a message has exactly one answer, except for which derivation of a shown type is given.
    pub fn step(&mut self, incoming: Incoming) -> Result<Vec<Value>, AllocError>
        ensures answers { IfOk result (λ values. Answers self.old (message_of incoming) (map view values.items) self.new) }
        ensures gives_up { OnErr result (GivesUp self.old self.new) }
        ensures plain { HasPlainId (message_of incoming) → IfOk result (λ values. All (λ v. has_float (view v) ≡ false) values.items) }
        ensures one_answer { HasOneAnswer self.old.state (message_of incoming) }
    {
        let life = self.life();
        let sent = self.receive(incoming)?;
        let Ok(values) = into_values(self.alloc, sent) else {
            self.condition = Condition::GaveUp(life);
            return Err(AllocError);
        };
        Ok(values)
    }

    /// The same as `step`, but returns the messages to send before they are values: as values, diagnostics, references and edits
    /// take some 4 KB each.
    pub fn receive(&mut self, incoming: Incoming) -> Result<Vec<Outgoing>, AllocError>
        ensures answers { IfOk result (λ sent. Answers self.old (message_of incoming) (map data_of sent.items) self.new) }
        ensures gives_up { OnErr result (GivesUp self.old self.new) }
        ensures plain { HasPlainId (message_of incoming) → IfOk result (λ sent. All (λ o. has_float (data_of o) ≡ false) sent.items) }
        ensures one_answer { HasOneAnswer self.old.state (message_of incoming) }
    {
        let gave_up = Condition::GaveUp(self.life());
        let Condition::Going(conversation) = mem::replace(&mut self.condition, gave_up) else {
            return Err(AllocError);
        };
        let (conversation, sent) = conversation.receive(incoming)?;
        self.condition = Condition::Going(conversation);
        Ok(sent)
    }

    fn life(&self) -> Lifecycle
        ensures { result ≡ self.now.state.life }
    {
        match &self.condition {
            Condition::Going(conversation) => conversation.life(),
            Condition::GaveUp(life) => *life,
        }
    }
}
