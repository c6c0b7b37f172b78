//! An LSP session: how each client message changes its state, and what is sent in response.
//!
//! `Session::step` handles one message, and returns values to send; `Session::receive` does the same, and leaves diagnostics,
//! references and edits to be converted one at a time. The relation `Steps` defines which values are sent for a message in a
//! given state, and which state follows. `values` converts diagnostics and derivations to JSON, and can be used without a
//! session. This crate does not deal with framing, bytes or I/O.
#![tactic(auto)]

mod completion;
mod conversation;
mod definition;
mod derivation;
mod document;
mod documents;
mod hover;
mod initialize;
mod laws;
mod lists;
mod methods;
mod outgoing;
mod questions;
mod references;
mod refusals;
mod rename;
mod session;
mod shapes;
mod states;
mod sync;
pub mod values;

pub use laws::{
    answers_have_no_floats, each_fault_has_a_message, isolation, one_run, rename_edits_apply,
};
pub use outgoing::{Edits, Outgoing, Published, Uses};
pub use session::Session;
pub use states::Config;
