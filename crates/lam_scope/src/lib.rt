//! Name resolution: the binders of names and of type names, the uses of each, what is in scope at each subterm, the nameless (de
//! Bruijn) form of a document's commands, and the expansions of its written types.
//!
//! `bind` reads the commands and borrows nothing from them. `resolve` returns the terms that typing works on. `free_names` and
//! `intern_command` handle one command by itself.
//!
//! Binding: `walk` fills the tables of `rows`, keeping the binders in scope on a stack (`seen`, built on `names` and
//! `name_stack`); `room` estimates the rows first. `use_chains` and `token_lists` collect the uses of each binder, `intervals` and
//! `row_intervals` make look-ups by byte offset fast; `scopes` queries the tables, `own_words` finds a variable or a projection
//! by its token, and `renaming` decides whether a binder and its uses can have another name.
//!
//! Resolving: `resolver` goes command by command, `nameless` builds the form of a term and `expansion` that of a written type,
//! using the `abbreviations` in scope; `uses_left` supplies the de Bruijn indices. `resolved` holds the result, and `search`
//! finds a subterm in it.
//!
//! One command by itself: `command_names` lists the names that it takes from outside (`found_names` keeps each once). An
//! `environment` holds what is in scope for it: names (`few_names`), and type names with ids of a type table (`type_names`).
//! `commands` builds its form over that table (`interned`), in which an abbreviation of thousands of nodes is one id: `interning`
//! builds terms from their parts (`making`), `interning_types` adds written types to the table.
//!
//! Nothing here knows types of terms, subtyping, line and column positions, or more of a token than its span.
#![tactic(auto)]

mod abbreviations;
mod binding;
mod command_names;
mod commands;
mod document;
mod environment;
mod expansion;
mod few_names;
mod found_names;
mod interned;
mod interning;
mod interning_types;
mod intervals;
mod laws;
mod making;
mod name_stack;
mod nameless;
mod names;
mod numbers;
mod own_words;
mod rename_fault;
mod renaming;
mod resolved;
mod resolver;
mod room;
mod row_intervals;
mod rows;
mod scope_fault;
mod scopes;
mod search;
mod seen;
mod stacks;
mod statement;
mod token_lists;
mod type_fault;
mod type_names;
mod use_chains;
mod uses_left;
mod walk;

pub use binding::bind;
pub use command_names::{FreeNames, free_names};
pub use commands::{Interned, intern_command};
pub use document::resolve;
pub use environment::Environment;
pub use expansion::NODE_LIMIT;
pub use interned::{InternedField, InternedStatement, InternedTerm};
pub use laws::{
    a_label_is_free, faultless_is_expanded, forms_have_no_places, free_names_decide,
    innermost_place, mentions_are_rows, mentions_ascend, one_abbreviation, one_answer_to_a_rename,
    one_binder, one_index, one_scope, one_sight, one_term, renamed_at_tokens,
};
pub use numbers::{Binder, Origin, Place};
pub use rename_fault::RenameFault;
pub use resolved::Resolved;
pub use scope_fault::ScopeFault;
pub use scopes::Scopes;
pub use statement::Statement;
pub use type_fault::TypeFault;
