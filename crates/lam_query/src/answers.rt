//! The types of the answers.

use lam_rules::{SubRule, Ty, TypeRule};
use lam_token::Span;

/// A diagnostic: its code as printed, such as `E3`, and its span.
#[derive(Clone, Copy, Debug)]
pub struct Fault {
    pub code: &'static str,
    pub span: Span,
}

/// What a subterm at fault expects of its parts and what was found there, as printed types.
#[derive(Drop, Debug)]
pub enum Mismatch {
    /// A subtype of `expected` is required. `found` is the type of the part or, for `fix`, the result type of its function.
    Expected { expected: String, found: String },
    /// The type of the part, which is not a function type or, for a projection, not a record type with that label.
    Found(String),
}

/// A diagnostic, with the mismatch at the subterm at fault if there is one.
#[derive(Drop, Debug)]
pub struct ExplainedFault {
    pub fault: Fault,
    pub mismatch: Option<Mismatch>,
}

/// The least type of a term, as text, and the span of the term.
#[derive(Drop, Debug)]
pub struct Hover {
    pub text: String,
    pub span: Span,
}

/// A completion item.
#[derive(Drop, Debug)]
pub struct Item {
    /// The label of a field, or a name.
    pub label: String,
    /// The text of its type. A name may have no type.
    pub detail: Option<String>,
    /// Whether it is a label after a dot, not a name.
    pub field: bool,
}

/// What a command shows: types as text, as in a hover, or `None` where there is no type.
#[derive(Drop, Debug)]
pub enum CommandType {
    /// A name, and the least type of the term or the written type that it is bound to.
    Name(String, Option<String>),
    /// A type name, and the type that it stands for.
    TypeName(String, Option<String>),
    /// The least type of a term.
    Term(Option<String>),
}

/// A context and a list of steps. `derivation` returns one that proves that a term has its least type; `first_fault` takes any.
#[derive(Drop)]
pub struct Derivation {
    /// The binders in scope at the term, outermost first, shadowed ones and `_` included: the name of each, and its type, or
    /// `None` if it has no type. In what `derivation` returns, the types are the least ones.
    pub context: Vec<(String, Option<Ty>)>,
    /// The steps of the proof, each after its premises; the last one concludes the type of the term.
    pub steps: Vec<Step>,
}

/// A step of a derivation. Its premises are zero-based indices into the list of steps.
#[derive(Drop)]
pub enum Step {
    /// The term at the span has the type. A use of subsumption has the span of its term.
    Typing {
        rule: TypeRule,
        span: Span,
        ty: Ty,
        premises: Vec<usize>,
    },
    /// `lower` is a subtype of `upper`.
    Sub {
        rule: SubRule,
        lower: Ty,
        upper: Ty,
        premises: Vec<usize>,
    },
}

/// The first error in a derivation of a term of a text. Steps and entries are indices into the lists of the derivation.
#[derive(Clone, Copy, Debug, PartialEq, Eq)]
pub enum FirstFault {
    /// There is no step.
    NoStep,
    /// The premises of this step are not the last steps of the proofs directly before it.
    Premises(usize),
    /// This is the last step, and the steps together are not those of one proof of typing.
    Loose(usize),
    /// A type of the text is too large.
    TooLarge,
    /// No term has the range of this step, the last one.
    NoTerm(usize),
    /// The names in the context are not those that the term sees.
    Names,
    /// This entry of the context does not fit its binder.
    Entry(usize),
    /// This step does not follow by its rule from its premises.
    Step(usize),
    /// This step does not have the range of the term that it is about.
    Range(usize),
}
