//! The nameless forms of terms over the ids of a type table. Each level of nesting takes the stack frames of the match and of one
//! arm only, so that the deepest term of a command fits on the stack.
ghost use Rattle.std.specs.Prelude.{◌≡◌, ◌∷◌, List, OnOk};
ghost use Rattle.std.specs.Option.{option_map};
ghost use Rattle.lam_rules.specs.Types.{Typ};
ghost use Rattle.lam_syntax.specs.Letters.{letters};
ghost use Rattle.lam_syntax.specs.Trees.{lambda, if_term, let_term, letrec_term, prefixed as prefixed_term, apply, project, ascribe, record_term};
ghost use Rattle.lam_syntax.specs.Views.{term_of as tree_of, term_node_of, fields_of, bound_of, word_of, type_of};
ghost use Rattle.lam_scope.specs.Names.{index_of};
ghost use Rattle.lam_scope.specs.Expansions.{is_over_limit};
ghost use Rattle.lam_scope.specs.Nameless.{use_indexed};
ghost use Rattle.lam_scope.specs.Numbered.{written_over, StandsIfAny};
ghost use Rattle.lam_scope.specs.NumberedNames.{TypeIdsStand};
ghost use Rattle.lam_scope.specs.InternedViews.{interned_term, StandIn};
ghost use Rattle.lam_scope.specs.inner.Interned.{IsWrittenInterned, IsInterned, AreInterned};

use crate::expansion::NODE_LIMIT;
use crate::few_names::FewNames;
use crate::interned::{InternedField, InternedTerm};
use crate::interning_types::{Interning, intern_type};
use crate::making::{
    make_application, make_ascription, make_if, make_lambda, make_let, make_letrec, make_prefixed,
    make_projection,
};
use crate::names::{name_of, text_of};
use crate::scope_fault::ScopeFault;
use crate::type_names::TypeNames;
use lam_rules::{TyNo, TyTable};
use lam_syntax::{
    Application, Ascription, Binder, Conditional, Identifier, Lambda, Let, Letrec, Prefix,
    Projection, Tm, TmField, TmNode, WrittenTy,
};

/// Returns the nameless form of a term under these type names and binders of names. Binders inside of it are pushed onto `names`
/// and popped again.
#[cycle(terms)]
#[tactic(auto, using(crate::proofs::InternedForms::node_forms))]
pub(crate) fn intern_term<'a>(
    interning: &mut Interning,
    table: &mut TyTable,
    seen: &TypeNames<'_>,
    names: &mut FewNames<'a>,
    term: &'a Tm,
) -> Result<InternedTerm<'a>, ScopeFault>
    requires { TypeIdsStand table.old seen.now }
    ensures interned { IsInterned seen.now names.old (term_node_of term.now.node) table.old table.new interning.old.faults.items interning.new.faults.items result }
    ensures names { OnOk result (names.new ≡ names.old) }
{
    match &term.node {
        TmNode::True => Ok(InternedTerm::True),
        TmNode::False => Ok(InternedTerm::False),
        TmNode::Unit => Ok(InternedTerm::Unit),
        TmNode::Variable(name) => Ok(use_of(names, name)),
        TmNode::Numeral(digits) => Ok(InternedTerm::Num(digits.text.as_str())),
        TmNode::Lambda(lambda) => lambda_of(interning, table, seen, names, lambda),
        TmNode::If(conditional) => if_of(interning, table, seen, names, conditional),
        TmNode::Let(parts) => let_of(interning, table, seen, names, parts),
        TmNode::Letrec(parts) => letrec_of(interning, table, seen, names, parts),
        TmNode::Prefixed(prefix, operand) => {
            prefixed_of(interning, table, seen, names, *prefix, operand)
        }
        TmNode::Apply(application) => apply_of(interning, table, seen, names, application),
        TmNode::Project(projection) => project_of(interning, table, seen, names, projection),
        TmNode::Ascribe(ascription) => ascribe_of(interning, table, seen, names, ascription),
        TmNode::Record(fields) => record_of(interning, table, seen, names, fields),
    }
}

/// Returns the id of what a written type stands for. It is an error if that is over the size limit.
#[tactic(auto, using(crate::proofs::InternedForms::written_types))]
pub(crate) fn intern_written(
    interning: &mut Interning,
    table: &mut TyTable,
    seen: &TypeNames<'_>,
    ty: &WrittenTy,
) -> Result<Option<TyNo>, ScopeFault>
    requires { TypeIdsStand table.old seen.now }
    ensures { IsWrittenInterned seen.now (type_of ty.now) table.old table.new interning.old.faults.items interning.new.faults.items result }
{
    let number = intern_type(interning, table, seen, ty)?;
    if is_over_limit(table, number) {
        return Err(ScopeFault::TooLarge(ty.span));
    }
    Ok(number)
}

#[tactic(auto, using(crate::proofs::InternedForms::written_types))]
fn is_over_limit(table: &TyTable, number: Option<TyNo>) -> bool
    requires { StandsIfAny table.now number }
    ensures { result ≡ is_over_limit (written_over table.now number) }
{
    match number {
        None => false,
        Some(number) => table.size(number) > NODE_LIMIT,
    }
}

/// Returns the form of a term under one more binder.
#[cycle(terms)]
fn intern_under<'a>(
    interning: &mut Interning,
    table: &mut TyTable,
    seen: &TypeNames<'_>,
    names: &mut FewNames<'a>,
    binder: &'a Binder,
    body: &'a Tm,
) -> Result<InternedTerm<'a>, ScopeFault>
    requires { TypeIdsStand table.old seen.now }
    ensures interned { IsInterned seen.now (option_map (λ s. letters s) binder.now.name ∷ names.old) (term_node_of body.now.node) table.old table.new interning.old.faults.items interning.new.faults.items result }
    ensures names { OnOk result (names.new ≡ names.old) }
{
    names.enter(text_of(name_of(binder)))?;
    let form = intern_term(interning, table, seen, names, body)?;
    names.leave();
    Ok(form)
}

#[cycle(terms)]
fn lambda_of<'a>(
    interning: &mut Interning,
    table: &mut TyTable,
    seen: &TypeNames<'_>,
    names: &mut FewNames<'a>,
    term: &'a Lambda,
) -> Result<InternedTerm<'a>, ScopeFault>
    requires { TypeIdsStand table.old seen.now }
    ensures interned { IsInterned seen.now names.old (lambda (bound_of term.now.binder) (type_of term.now.ty) (tree_of term.now.body)) table.old table.new interning.old.faults.items interning.new.faults.items result }
    ensures names { OnOk result (names.new ≡ names.old) }
{
    let written = intern_written(interning, table, seen, &term.ty)?;
    let body = intern_under(interning, table, seen, names, &term.binder, &term.body)?;
    Ok(make_lambda(interning.alloc, written, body)?)
}

#[cycle(terms)]
fn if_of<'a>(
    interning: &mut Interning,
    table: &mut TyTable,
    seen: &TypeNames<'_>,
    names: &mut FewNames<'a>,
    term: &'a Conditional,
) -> Result<InternedTerm<'a>, ScopeFault>
    requires { TypeIdsStand table.old seen.now }
    ensures interned { IsInterned seen.now names.old (if_term (tree_of term.now.condition) (tree_of term.now.then_term) (tree_of term.now.else_term)) table.old table.new interning.old.faults.items interning.new.faults.items result }
    ensures names { OnOk result (names.new ≡ names.old) }
{
    let first = intern_term(interning, table, seen, names, &term.condition)?;
    let second = intern_term(interning, table, seen, names, &term.then_term)?;
    let third = intern_term(interning, table, seen, names, &term.else_term)?;
    Ok(make_if(interning.alloc, first, second, third)?)
}

#[cycle(terms)]
fn let_of<'a>(
    interning: &mut Interning,
    table: &mut TyTable,
    seen: &TypeNames<'_>,
    names: &mut FewNames<'a>,
    term: &'a Let,
) -> Result<InternedTerm<'a>, ScopeFault>
    requires { TypeIdsStand table.old seen.now }
    ensures interned { IsInterned seen.now names.old (let_term (bound_of term.now.binder) (tree_of term.now.bound) (tree_of term.now.body)) table.old table.new interning.old.faults.items interning.new.faults.items result }
    ensures names { OnOk result (names.new ≡ names.old) }
{
    let first = intern_term(interning, table, seen, names, &term.bound)?;
    let second = intern_under(interning, table, seen, names, &term.binder, &term.body)?;
    Ok(make_let(interning.alloc, first, second)?)
}

#[cycle(terms)]
fn letrec_of<'a>(
    interning: &mut Interning,
    table: &mut TyTable,
    seen: &TypeNames<'_>,
    names: &mut FewNames<'a>,
    term: &'a Letrec,
) -> Result<InternedTerm<'a>, ScopeFault>
    requires { TypeIdsStand table.old seen.now }
    ensures interned { IsInterned seen.now names.old (letrec_term (bound_of term.now.binder) (type_of term.now.ty) (tree_of term.now.bound) (tree_of term.now.body)) table.old table.new interning.old.faults.items interning.new.faults.items result }
    ensures names { OnOk result (names.new ≡ names.old) }
{
    let written = intern_written(interning, table, seen, &term.ty)?;
    let first = intern_under(interning, table, seen, names, &term.binder, &term.bound)?;
    let second = intern_under(interning, table, seen, names, &term.binder, &term.body)?;
    Ok(make_letrec(interning.alloc, written, first, second)?)
}

#[cycle(terms)]
fn prefixed_of<'a>(
    interning: &mut Interning,
    table: &mut TyTable,
    seen: &TypeNames<'_>,
    names: &mut FewNames<'a>,
    prefix: Prefix,
    operand: &'a Tm,
) -> Result<InternedTerm<'a>, ScopeFault>
    requires { TypeIdsStand table.old seen.now }
    ensures interned { IsInterned seen.now names.old (prefixed_term prefix (tree_of operand.now)) table.old table.new interning.old.faults.items interning.new.faults.items result }
    ensures names { OnOk result (names.new ≡ names.old) }
{
    let form = intern_term(interning, table, seen, names, operand)?;
    Ok(make_prefixed(interning.alloc, prefix, form)?)
}

#[cycle(terms)]
fn apply_of<'a>(
    interning: &mut Interning,
    table: &mut TyTable,
    seen: &TypeNames<'_>,
    names: &mut FewNames<'a>,
    term: &'a Application,
) -> Result<InternedTerm<'a>, ScopeFault>
    requires { TypeIdsStand table.old seen.now }
    ensures interned { IsInterned seen.now names.old (apply (tree_of term.now.function) (tree_of term.now.argument)) table.old table.new interning.old.faults.items interning.new.faults.items result }
    ensures names { OnOk result (names.new ≡ names.old) }
{
    let first = intern_term(interning, table, seen, names, &term.function)?;
    let second = intern_term(interning, table, seen, names, &term.argument)?;
    Ok(make_application(interning.alloc, first, second)?)
}

#[cycle(terms)]
fn project_of<'a>(
    interning: &mut Interning,
    table: &mut TyTable,
    seen: &TypeNames<'_>,
    names: &mut FewNames<'a>,
    term: &'a Projection,
) -> Result<InternedTerm<'a>, ScopeFault>
    requires { TypeIdsStand table.old seen.now }
    ensures interned { IsInterned seen.now names.old (project (tree_of term.now.record) (word_of term.now.label)) table.old table.new interning.old.faults.items interning.new.faults.items result }
    ensures names { OnOk result (names.new ≡ names.old) }
{
    let form = intern_term(interning, table, seen, names, &term.record)?;
    let label = term.label.text.as_str();
    Ok(make_projection(interning.alloc, form, label)?)
}

#[cycle(terms)]
fn ascribe_of<'a>(
    interning: &mut Interning,
    table: &mut TyTable,
    seen: &TypeNames<'_>,
    names: &mut FewNames<'a>,
    term: &'a Ascription,
) -> Result<InternedTerm<'a>, ScopeFault>
    requires { TypeIdsStand table.old seen.now }
    ensures interned { IsInterned seen.now names.old (ascribe (tree_of term.now.operand) (type_of term.now.ty)) table.old table.new interning.old.faults.items interning.new.faults.items result }
    ensures names { OnOk result (names.new ≡ names.old) }
{
    let form = intern_term(interning, table, seen, names, &term.operand)?;
    let written = intern_written(interning, table, seen, &term.ty)?;
    Ok(make_ascription(interning.alloc, form, written)?)
}

#[cycle(terms)]
fn record_of<'a>(
    interning: &mut Interning,
    table: &mut TyTable,
    seen: &TypeNames<'_>,
    names: &mut FewNames<'a>,
    fields: &'a [TmField],
) -> Result<InternedTerm<'a>, ScopeFault>
    requires { TypeIdsStand table.old seen.now }
    ensures interned { IsInterned seen.now names.old (record_term (fields_of fields.now)) table.old table.new interning.old.faults.items interning.new.faults.items result }
    ensures names { OnOk result (names.new ≡ names.old) }
{
    let forms = intern_fields(interning, table, seen, names, fields)?;
    Ok(InternedTerm::Record(forms))
}

#[cycle(terms)]
fn intern_fields<'a>(
    interning: &mut Interning,
    table: &mut TyTable,
    seen: &TypeNames<'_>,
    names: &mut FewNames<'a>,
    fields: &'a [TmField],
) -> Result<Vec<InternedField<'a>>, ScopeFault>
    requires { TypeIdsStand table.old seen.now }
    ensures interned { AreInterned seen.now names.old (fields_of fields.now) table.old table.new interning.old.faults.items interning.new.faults.items result }
    ensures names { OnOk result (names.new ≡ names.old) }
{
    let mut forms = Vec::with_capacity(interning.alloc, fields.len())?;
    for i in 0..fields.len() {
        let field = &fields[i];
        let form = intern_term(interning, table, seen, names, &field.term)?;
        forms.push(InternedField {
            label: field.label.text.as_str(),
            term: form,
        })?;
    }
    Ok(forms)
}

/// The de Bruijn index of a use, or its name if it is unbound.
#[tactic(auto, using(crate::proofs::InternedForms::use_forms))]
fn use_of<'a>(names: &FewNames<'_>, name: &'a Identifier) -> InternedTerm<'a>
    ensures form { (ts : List Typ) → interned_term ts result ≡ use_indexed (letters name.now.text) (index_of (letters name.now.text) names.now) }
    ensures stands { (ts : List Typ) → StandIn ts result }
{
    let text = name.text.as_str();
    match names.index_of(text) {
        Some(index) => InternedTerm::Var(index),
        None => InternedTerm::Free(text),
    }
}
