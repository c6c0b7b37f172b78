//! Commands in nameless form.

use lam_rules::{Core, Ty};

/// A command in nameless form. Its types are the expansions of the written ones, or `None` where those are faulty.
#[derive(Drop)]
pub enum Statement {
    /// `name = term`
    Definition(Core),
    /// `name : type`
    Declaration(Option<Ty>),
    /// `TypeName = type`
    Abbreviation(Option<Ty>),
    Evaluation(Core),
}
