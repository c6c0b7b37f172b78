//! What a language server answers about a text: its diagnostics; the type that each command shows; the type at an offset, and a
//! derivation of it; the definition, the references and a rename of the name there; the completions there; and the first error in a
//! derivation made elsewhere.
//!
//! Each answer is determined by the text, the dialect and the question, except the derivation, which may be any proof of the least
//! type in the context of least types. Offsets and spans are byte offsets into the UTF-8 text.
#![tactic(auto)]

mod analyses;
pub mod answers;
mod binders;
mod bound;
mod changed_names;
mod changes;
mod completions;
mod contexts;
mod cursor;
mod definitions;
mod derivations;
mod ends;
mod entries;
mod fields;
mod fronts;
mod hovers;
mod laws;
mod mismatches;
mod misplaced_steps;
mod pieces;
mod ranges;
mod reading;
mod renames;
mod row_faults;
mod rows;
mod sight;
mod stand_ins;
mod steps;
mod text_faults;
mod touched;
mod typed_commands;
mod types_of_commands;
mod typings;
mod verify;
mod wrong_steps;

pub use analyses::Analysis;
pub use completions::complete;
pub use definitions::{definition, references};
pub use derivations::derivation;
pub use hovers::hover;
pub use laws::{
    known_codes, no_fault_is_well_typed, one_answer, one_label_stands_for_all,
    references_share_a_definition, renames_keep_binding, shown_is_innermost, some_answer,
    steps_tell_the_proof,
};
pub use mismatches::explained_faults;
pub use renames::{RenameFault, rename};
pub use text_faults::faults;
pub use types_of_commands::command_types;
pub use verify::first_fault;
