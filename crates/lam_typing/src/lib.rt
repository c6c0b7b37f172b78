//! Finds the least type of each subterm of a document over all contexts that it may have, and the subterms at fault where there
//! is none.
//!
//! What is promised is stated over the declarative rules alone, in `specs/Contexts.antt`, `LeastTypes.antt`, `Entries.antt`,
//! `Blaming.antt` and `Analysis.antt`, of a `Typing` in `Typings.antt`, and of a `TypeChecker` in `Checking.antt`. The walk that
//! implements it has no rule of subsumption (TAPL chapter 16): a subterm and a binder have one type each.
//!
//! Nothing here knows names, spans, the text of a document, or how subtyping is decided and joins are computed.
#![tactic(auto)]

mod analysing;
mod blame;
mod checker;
mod entries;
mod fault;
mod fitting;
mod grounds;
mod interning;
mod laws;
mod noting;
mod proving;
mod reading;
mod steps;
mod typing;
mod walking;

pub use analysing::{analyse, analyse_to};
pub use blame::Blame;
pub use checker::{Checked, TypeChecker};
pub use fault::TypingFault;
pub use laws::{
    blame_is_just, blames_move_with_places, least_entries_are_a_context, least_types_exist,
    least_types_have_one_text, narrowing, never_blamed, only_free_names_count,
    projections_are_fields, scopes_have_contexts, typed_where_unblamed, untyped_has_a_cause,
};
pub use typing::Typing;
