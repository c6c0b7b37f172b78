//! Types and terms of the calculus with records and subtyping (TAPL chapters 8, 9, 11 and 15), a table of hash-consed
//! types, derivation trees of subtyping and typing, and checkers that accept a tree, or its last step, exactly if it is valid.
//!
//! The rules are in `specs/Subtyping.antt` and `specs/Typing.antt`. These two files have to be trusted, along with what
//! they build on (`Types.antt`, `Terms.antt`), the texts of types, and the views that say which tree a value represents. What a
//! single step and its premises are is in `specs/SubSteps.antt` and `specs/TypingSteps.antt`; that such steps make the same proofs
//! is a law, `steps_make_a_proof`.
//!
//! This crate knows nothing of spans, names of binders, tokens or JSON. It does not decide subtyping or infer types.
#![tactic(auto)]

mod laws;
mod numbers;
mod parts;
mod rules;
mod sorting;
mod subtyping;
mod table;
mod terms;
mod texts;
mod types;
mod typing;

pub use laws::{one_text, steps_make_a_proof, types_below_each_other_have_one_size};
pub use numbers::{Shape, TyNo, labels_differ, number_under};
pub use parts::{Part, part_of};
pub use rules::{Dialect, SubRule, TypeRule};
pub use subtyping::{SubProof, check_sub, check_sub_step};
pub use table::TyTable;
pub use terms::{Core, make_letrec};
pub use texts::{one_sorted_form, plain_text_of, text_of};
pub use types::{
    Fields, Ty, copy_of, copy_of_fields, make_arrow, make_record, same, same_fields, size, wf,
};
pub use typing::{TypeProof, check_type, check_type_step, wf_context};
