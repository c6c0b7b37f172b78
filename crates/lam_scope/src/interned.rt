//! Commands in nameless form whose written types are ids of a type table, so that a type used again is not copied.

use lam_rules::TyNo;

/// A nameless term of a command. Borrows the letters of its names from the command; a written type is the id of what it stands
/// for in a type table. Several terms of one term are in one box.
#[cycle(interned)]
#[derive(Drop)]
pub enum InternedTerm<'t> {
    True,
    False,
    /// Condition, then-branch and else-branch.
    If(Box<(InternedTerm<'t>, InternedTerm<'t>, InternedTerm<'t>)>),
    /// A numeral, as its digits.
    Num(&'t str),
    Succ(Box<InternedTerm<'t>>),
    Pred(Box<InternedTerm<'t>>),
    IsZero(Box<InternedTerm<'t>>),
    /// A bound variable, as its de Bruijn index: 0 is the innermost binder in scope.
    Var(usize),
    /// An unbound name.
    Free(&'t str),
    /// The id of the parameter's type, or `None` where the written type stands for no type, and the body.
    Abs(Option<TyNo>, Box<InternedTerm<'t>>),
    /// A function and its argument.
    App(Box<(InternedTerm<'t>, InternedTerm<'t>)>),
    Unit,
    /// A term and the type ascribed to it, as in `Abs`.
    Ascribe(Box<InternedTerm<'t>>, Option<TyNo>),
    /// The bound term and the body.
    Let(Box<(InternedTerm<'t>, InternedTerm<'t>)>),
    Record(Vec<InternedField<'t>>),
    /// A term and the label projected from it.
    Proj(Box<InternedTerm<'t>>, &'t str),
    Fix(Box<InternedTerm<'t>>),
}

/// A field of a record term.
#[cycle(interned)]
#[derive(Drop)]
pub struct InternedField<'t> {
    pub label: &'t str,
    pub term: InternedTerm<'t>,
}

/// A command in nameless form, like `Statement`, over the ids of a type table.
#[derive(Drop)]
pub enum InternedStatement<'t> {
    /// `name = term`
    Definition(InternedTerm<'t>),
    /// `name : type`
    Declaration(Option<TyNo>),
    /// `TypeName = type`
    Abbreviation(Option<TyNo>),
    Evaluation(InternedTerm<'t>),
}
