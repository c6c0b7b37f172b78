//! The nameless forms of terms. Each level of nesting takes the stack frames of the match and of one arm only, so that the
//! deepest term of a command fits on the stack.
ghost use Rattle.std.specs.Prelude.{◌≡◌, ◌++◌, ◌∷◌, [], IfOk, OnOk};
ghost use Rattle.lam_syntax.specs.Letters.{letters};
ghost use Rattle.lam_rules.specs.TermViews.{term_of, terms_of, written_of};
ghost use Rattle.lam_rules.specs.Terms.{numeral};
ghost use Rattle.lam_syntax.specs.Trees.{lambda, if_term, let_term, letrec_term, prefixed as prefixed_term, apply, project, ascribe, record_term};
ghost use Rattle.lam_syntax.specs.Views.{term_of as tree_of, term_node_of, fields_of, bound_of, word_of, type_of};
ghost use Rattle.lam_scope.specs.Indexed.{first_between, past_first, past_type, past_fields, indexed_fields};
ghost use Rattle.lam_scope.specs.Expansions.{expansion, type_faults, is_capped};
ghost use Rattle.lam_scope.specs.inner.Formed.{IsFormed};
ghost use Rattle.lam_scope.specs.Nameless.{use_indexed, prefixed, written_in_fields, faults_in, first_over_limit};
ghost use Rattle.lam_scope.specs.Views.{abbreviations_of, IsLimit};

use crate::abbreviations::Abbreviations;
use crate::expansion::{NODE_LIMIT, collect_faults, expand, expanded_size};
use crate::scope_fault::ScopeFault;
use crate::type_fault::TypeFault;
use crate::uses_left::{UsesLeft, pass_type};
use lam_rules::{Core, Ty, make_letrec};
use lam_syntax::{
    Application, Ascription, Conditional, Identifier, Lambda, Let, Letrec, Prefix, Projection, Tm,
    TmField, TmNode, WrittenTy,
};
use std::alloc::{AllocError, Global};

/// What forms are made with, and the diagnostics found along the way.
#[derive(Drop)]
pub(crate) struct Forming<'a> {
    pub(crate) alloc: Global,
    /// The uses of names that were not reached yet.
    pub(crate) uses: UsesLeft<'a>,
    /// The diagnostics of the written types that were resolved.
    pub(crate) faults: Vec<TypeFault>,
}

/// Returns the nameless form of a term under these abbreviations. Consumes the term's uses, which are the first of those left,
/// and appends the diagnostics of its written types. The first written type over the size limit is an error.
#[cycle(nameless)]
#[tactic(auto, using(crate::proofs::Forms::node_forms))]
pub(crate) fn nameless(
    forming: &mut Forming<'_>,
    seen: &Abbreviations<'_>,
    term: &Tm,
) -> Result<Core, ScopeFault>
    ensures { IsFormed (abbreviations_of seen.now) (term_node_of term.now.node) forming.old forming.new result }
{
    match &term.node {
        TmNode::True => Ok(Core::True),
        TmNode::False => Ok(Core::False),
        TmNode::Unit => Ok(Core::Unit),
        TmNode::Variable(name) => Ok(use_of(forming.alloc, name, &mut forming.uses)?),
        TmNode::Numeral(digits) => Ok(numeral_of(forming.alloc, digits)?),
        TmNode::Lambda(lambda) => lambda_of(forming, seen, lambda),
        TmNode::If(conditional) => if_of(forming, seen, conditional),
        TmNode::Let(parts) => let_of(forming, seen, parts),
        TmNode::Letrec(parts) => letrec_of(forming, seen, parts),
        TmNode::Prefixed(prefix, operand) => prefixed_of(forming, seen, *prefix, operand),
        TmNode::Apply(application) => apply_of(forming, seen, application),
        TmNode::Project(projection) => project_of(forming, seen, projection),
        TmNode::Ascribe(ascription) => ascribe_of(forming, seen, ascription),
        TmNode::Record(fields) => record_of(forming, seen, fields),
    }
}

/// Returns what a written type stands for, consuming its uses and appending its diagnostics as for a term. If it is over the size
/// limit that is an error, before any of it is built.
#[tactic(auto, using(crate::proofs::Forms::type_forms))]
pub(crate) fn nameless_type(
    forming: &mut Forming<'_>,
    seen: &Abbreviations<'_>,
    ty: &WrittenTy,
) -> Result<Option<Ty>, ScopeFault>
    ensures expansion { IfOk result (λ e. written_of e ≡ expansion (abbreviations_of seen.now) (type_of ty.now)) }
    ensures uses { OnOk result (forming.new.uses ≡ past_type (type_of ty.now) forming.old.uses) }
    ensures faults { OnOk result (forming.new.faults.items ≡ forming.old.faults.items ++ type_faults (abbreviations_of seen.now) (type_of ty.now)) }
    ensures limit { IsLimit (first_over_limit (abbreviations_of seen.now) (type_of ty.now ∷ [])) result }
{
    if is_over_limit(expanded_size(seen, ty)) {
        return Err(ScopeFault::TooLarge(ty.span));
    }
    collect_faults(seen, ty, &mut forming.faults)?;
    let expansion = expand(forming.alloc, seen, ty)?;
    pass_type(&mut forming.uses, ty);
    Ok(expansion)
}

fn is_over_limit(size: Option<u64>) -> bool
    ensures { result ≡ is_capped size }
{
    match size {
        None => false,
        Some(nodes) => nodes > NODE_LIMIT,
    }
}

#[cycle(nameless)]
#[tactic(auto, using(crate::proofs::Forms::lambda_form))]
fn lambda_of(
    forming: &mut Forming<'_>,
    seen: &Abbreviations<'_>,
    term: &Lambda,
) -> Result<Core, ScopeFault>
    ensures { IsFormed (abbreviations_of seen.now) (lambda (bound_of term.now.binder) (type_of term.now.ty) (tree_of term.now.body)) forming.old forming.new result }
{
    let written = nameless_type(forming, seen, &term.ty)?;
    let body = nameless(forming, seen, &term.body)?;
    Ok(Core::Abs(Box::new(forming.alloc, (written, body))?))
}

#[cycle(nameless)]
#[tactic(auto, using(crate::proofs::Forms::if_form))]
fn if_of(
    forming: &mut Forming<'_>,
    seen: &Abbreviations<'_>,
    term: &Conditional,
) -> Result<Core, ScopeFault>
    ensures { IsFormed (abbreviations_of seen.now) (if_term (tree_of term.now.condition) (tree_of term.now.then_term) (tree_of term.now.else_term)) forming.old forming.new result }
{
    let first = nameless(forming, seen, &term.condition)?;
    let second = nameless(forming, seen, &term.then_term)?;
    let third = nameless(forming, seen, &term.else_term)?;
    Ok(Core::If(Box::new(forming.alloc, (first, second, third))?))
}

#[cycle(nameless)]
#[tactic(auto, using(crate::proofs::Forms::let_form))]
fn let_of(
    forming: &mut Forming<'_>,
    seen: &Abbreviations<'_>,
    term: &Let,
) -> Result<Core, ScopeFault>
    ensures { IsFormed (abbreviations_of seen.now) (let_term (bound_of term.now.binder) (tree_of term.now.bound) (tree_of term.now.body)) forming.old forming.new result }
{
    let first = nameless(forming, seen, &term.bound)?;
    let second = nameless(forming, seen, &term.body)?;
    Ok(Core::Let(Box::new(forming.alloc, (first, second))?))
}

#[cycle(nameless)]
#[tactic(auto, using(crate::proofs::Forms::joining))]
fn letrec_of(
    forming: &mut Forming<'_>,
    seen: &Abbreviations<'_>,
    term: &Letrec,
) -> Result<Core, ScopeFault>
    ensures { IsFormed (abbreviations_of seen.now) (letrec_term (bound_of term.now.binder) (type_of term.now.ty) (tree_of term.now.bound) (tree_of term.now.body)) forming.old forming.new result }
{
    let written = nameless_type(forming, seen, &term.ty)?;
    let first = nameless(forming, seen, &term.bound)?;
    let second = nameless(forming, seen, &term.body)?;
    Ok(make_letrec(forming.alloc, written, first, second)?)
}

#[cycle(nameless)]
#[tactic(auto, using(crate::proofs::Forms::joining))]
fn prefixed_of(
    forming: &mut Forming<'_>,
    seen: &Abbreviations<'_>,
    prefix: Prefix,
    operand: &Tm,
) -> Result<Core, ScopeFault>
    ensures { IsFormed (abbreviations_of seen.now) (prefixed_term prefix (tree_of operand.now)) forming.old forming.new result }
{
    let form = nameless(forming, seen, operand)?;
    Ok(make_prefixed(prefix, Box::new(forming.alloc, form)?))
}

#[cycle(nameless)]
#[tactic(auto, using(crate::proofs::Forms::apply_form))]
fn apply_of(
    forming: &mut Forming<'_>,
    seen: &Abbreviations<'_>,
    term: &Application,
) -> Result<Core, ScopeFault>
    ensures { IsFormed (abbreviations_of seen.now) (apply (tree_of term.now.function) (tree_of term.now.argument)) forming.old forming.new result }
{
    let first = nameless(forming, seen, &term.function)?;
    let second = nameless(forming, seen, &term.argument)?;
    Ok(Core::App(Box::new(forming.alloc, (first, second))?))
}

#[cycle(nameless)]
#[tactic(auto, using(crate::proofs::Forms::project_form))]
fn project_of(
    forming: &mut Forming<'_>,
    seen: &Abbreviations<'_>,
    term: &Projection,
) -> Result<Core, ScopeFault>
    ensures { IsFormed (abbreviations_of seen.now) (project (tree_of term.now.record) (word_of term.now.label)) forming.old forming.new result }
{
    let form = nameless(forming, seen, &term.record)?;
    let copy = String::from_str(forming.alloc, term.label.text.as_str())?;
    Ok(Core::Proj(Box::new(forming.alloc, (form, copy))?))
}

#[cycle(nameless)]
#[tactic(auto, using(crate::proofs::Forms::ascribe_form))]
fn ascribe_of(
    forming: &mut Forming<'_>,
    seen: &Abbreviations<'_>,
    term: &Ascription,
) -> Result<Core, ScopeFault>
    ensures { IsFormed (abbreviations_of seen.now) (ascribe (tree_of term.now.operand) (type_of term.now.ty)) forming.old forming.new result }
{
    let form = nameless(forming, seen, &term.operand)?;
    let written = nameless_type(forming, seen, &term.ty)?;
    Ok(Core::Ascribe(Box::new(forming.alloc, (form, written))?))
}

#[cycle(nameless)]
#[tactic(auto, using(crate::proofs::Forms::record_form))]
fn record_of(
    forming: &mut Forming<'_>,
    seen: &Abbreviations<'_>,
    fields: &[TmField],
) -> Result<Core, ScopeFault>
    ensures { IsFormed (abbreviations_of seen.now) (record_term (fields_of fields.now)) forming.old forming.new result }
{
    let forms = nameless_fields(forming, seen, fields)?;
    Ok(Core::Record(forms))
}

#[cycle(nameless)]
#[tactic(auto, using(crate::proofs::Forms::field_forms))]
fn nameless_fields(
    forming: &mut Forming<'_>,
    seen: &Abbreviations<'_>,
    fields: &[TmField],
) -> Result<Vec<(String, Core)>, ScopeFault>
    ensures form { IfOk result (λ forms. terms_of forms.items ≡ indexed_fields (abbreviations_of seen.now) (fields_of fields.now) forming.old.uses) }
    ensures uses { OnOk result (forming.new.uses ≡ past_fields (fields_of fields.now) forming.old.uses) }
    ensures faults { OnOk result (forming.new.faults.items ≡ forming.old.faults.items ++ faults_in (abbreviations_of seen.now) (written_in_fields (fields_of fields.now))) }
    ensures limit { IsLimit (first_over_limit (abbreviations_of seen.now) (written_in_fields (fields_of fields.now))) result }
{
    let mut forms = Vec::with_capacity(forming.alloc, fields.len())?;
    for i in 0..fields.len() {
        let field = &fields[i];
        let form = nameless(forming, seen, &field.term)?;
        let label = String::from_str(forming.alloc, field.label.text.as_str())?;
        forms.push((label, form))?;
    }
    Ok(forms)
}

/// The de Bruijn index of a use, or its name if it is unbound.
#[tactic(auto, using(crate::proofs::Forms::use_forms))]
fn use_of(alloc: Global, name: &Identifier, uses: &mut UsesLeft<'_>) -> Result<Core, AllocError>
    ensures form { IfOk result (λ e. term_of e ≡ use_indexed (letters name.now.text) (first_between uses.old)) }
    ensures uses { OnOk result (uses.new ≡ past_first uses.old) }
{
    match uses.pass() {
        Some(index) => Ok(Core::Var(index)),
        None => {
            let copy = String::from_str(alloc, name.text.as_str())?;
            Ok(Core::Free(copy))
        }
    }
}

#[tactic(auto, using(crate::proofs::Forms::use_forms))]
fn numeral_of(alloc: Global, digits: &Identifier) -> Result<Core, AllocError>
    ensures { IfOk result (λ e. term_of e ≡ numeral (letters digits.now.text)) }
{
    let copy = String::from_str(alloc, digits.text.as_str())?;
    Ok(Core::Num(copy))
}

#[tactic(auto, using(crate::proofs::Forms::prefixed_forms))]
fn make_prefixed(prefix: Prefix, operand: Box<Core>) -> Core
    ensures { term_of result ≡ prefixed prefix (term_of operand.value) }
{
    match prefix {
        Prefix::Fix => Core::Fix(operand),
        Prefix::Succ => Core::Succ(operand),
        Prefix::Pred => Core::Pred(operand),
        Prefix::IsZero => Core::IsZero(operand),
    }
}
