//! The free names and type names of a command.
ghost use Rattle.std.specs.Prelude.{◌≡◌, ◌∷◌, [], map, IfOk, OnOk};
ghost use Rattle.std.specs.Option.{option_map};
ghost use Rattle.lam_syntax.specs.Letters.{letters};
ghost use Rattle.lam_syntax.specs.Trees.{lambda, if_term, let_term, letrec_term, apply, ascribe};
ghost use Rattle.lam_syntax.specs.Views.{term_of, term_node_of, fields_of, bound_of, type_of, type_fields_of, command_of};
ghost use Rattle.lam_scope.specs.FreeNames.{each_once, without, free_in, free_in_node, free_in_fields, free_in_command, free_type_names_in, free_type_names_in_fields, free_type_names_in_command};
ghost use Rattle.lam_scope.specs.Nameless.{written_in, written_in_node, written_in_fields, written_in_command};
ghost use Rattle.lam_scope.specs.inner.FoundNames.{found_after};
ghost use Rattle.lam_scope.specs.inner.FoundInTerms.{AreFound};

use crate::few_names::FewNames;
use crate::found_names::FoundNames;
use crate::names::{name_of, text_of};
use lam_syntax::{
    Application, Ascription, Binder, Command, Conditional, Identifier, Lambda, Let, Letrec, Tm,
    TmField, TmNode, TyField, TyNode, WrittenTy,
};
use std::alloc::{AllocError, Global};

/// The names that a command takes from outside, and the type names that it uses: each once, in the order of first use. The `x` in the
/// term of `x = succ x` is taken from outside, since that term does not see what the command binds.
#[derive(Drop)]
pub struct FreeNames<'a> {
    pub names: Vec<&'a str>,
    pub type_names: Vec<&'a str>,
}

/// What was found so far, and the binders in scope for the current term.
#[derive(Drop)]
pub(crate) struct Finding<'a> {
    names: FoundNames<'a>,
    type_names: FoundNames<'a>,
    bound: FewNames<'a>,
}

/// Returns the names and type names that a command takes from outside.
#[tactic(auto, using(crate::proofs::FoundNames::once))]
pub fn free_names<'a>(alloc: Global, command: &'a Command) -> Result<FreeNames<'a>, AllocError>
    ensures names { IfOk result (λ f. map (λ x. x.now) f.names.items ≡ each_once (free_in_command (command_of command.now))) }
    ensures type_names { IfOk result (λ f. map (λ x. x.now) f.type_names.items ≡ each_once (free_type_names_in_command (command_of command.now))) }
{
    let mut finding = Finding {
        names: FoundNames::new(alloc),
        type_names: FoundNames::new(alloc),
        bound: FewNames::new(alloc),
    };
    find_in_command(&mut finding, command)?;
    Ok(FreeNames {
        names: finding.names.into_items(),
        type_names: finding.type_names.into_items(),
    })
}

#[tactic(auto, using(crate::proofs::FoundNames::commands))]
fn find_in_command<'a>(finding: &mut Finding<'a>, command: &'a Command) -> Result<(), AllocError>
    ensures { AreFound (free_in_command (command_of command.now)) (written_in_command (command_of command.now)) finding.old finding.new result }
{
    match command {
        Command::Definition(_, term) => find_in_term(finding, term),
        Command::Declaration(_, ty) => find_in_type(&mut finding.type_names, ty),
        Command::Abbreviation(_, ty) => find_in_type(&mut finding.type_names, ty),
        Command::Evaluation(term) => find_in_term(finding, term),
    }
}

#[cycle(types)]
#[tactic(auto, using(crate::proofs::FoundNames::in_types))]
fn find_in_type<'a>(found: &mut FoundNames<'a>, ty: &'a WrittenTy) -> Result<(), AllocError>
    ensures { OnOk result (found.new ≡ found_after found.old (free_type_names_in (type_of ty.now))) }
{
    match &ty.node {
        TyNode::Bool => Ok(()),
        TyNode::Nat => Ok(()),
        TyNode::Unit => Ok(()),
        TyNode::Top => Ok(()),
        TyNode::Named(name) => found.add(name.text.as_str()),
        TyNode::Arrow(arrow) => {
            find_in_type(found, &arrow.parameter)?;
            find_in_type(found, &arrow.outcome)
        }
        TyNode::Record(fields) => find_in_type_fields(found, fields),
    }
}

#[cycle(types)]
#[tactic(auto, using(crate::proofs::FoundNames::in_types))]
fn find_in_type_fields<'a>(
    found: &mut FoundNames<'a>,
    fields: &'a [TyField],
) -> Result<(), AllocError>
    ensures { OnOk result (found.new ≡ found_after found.old (free_type_names_in_fields (type_fields_of fields.now))) }
{
    for i in 0..fields.len() {
        let field = &fields[i];
        find_in_type(found, &field.ty)?;
    }
    Ok(())
}

#[cycle(terms)]
#[tactic(auto, using(crate::proofs::FoundNames::in_nodes))]
fn find_in_term<'a>(finding: &mut Finding<'a>, term: &'a Tm) -> Result<(), AllocError>
    ensures { AreFound (free_in_node (term_node_of term.now.node)) (written_in_node (term_node_of term.now.node)) finding.old finding.new result }
{
    match &term.node {
        TmNode::True => Ok(()),
        TmNode::False => Ok(()),
        TmNode::Unit => Ok(()),
        TmNode::Numeral(_) => Ok(()),
        TmNode::Variable(name) => find_use(finding, name),
        TmNode::Lambda(lambda) => find_in_lambda(finding, lambda),
        TmNode::If(conditional) => find_in_if(finding, conditional),
        TmNode::Let(parts) => find_in_let(finding, parts),
        TmNode::Letrec(parts) => find_in_letrec(finding, parts),
        TmNode::Prefixed(_, operand) => find_in_term(finding, operand),
        TmNode::Apply(application) => find_in_application(finding, application),
        TmNode::Project(projection) => find_in_term(finding, &projection.record),
        TmNode::Ascribe(ascription) => find_in_ascription(finding, ascription),
        TmNode::Record(fields) => find_in_fields(finding, fields),
    }
}

/// Adds a use of a name, unless it is bound in the command.
#[tactic(auto, using(crate::proofs::FoundNames::uses))]
fn find_use<'a>(finding: &mut Finding<'a>, name: &'a Identifier) -> Result<(), AllocError>
    ensures { AreFound (letters name.now.text ∷ []) [] finding.old finding.new result }
{
    let text = name.text.as_str();
    if finding.bound.index_of(text).is_some() {
        return Ok(());
    }
    finding.names.add(text)
}

/// Searches a term under one more binder.
#[cycle(terms)]
#[tactic(auto, using(crate::proofs::FoundNames::finding))]
fn find_under<'a>(
    finding: &mut Finding<'a>,
    binder: &'a Binder,
    body: &'a Tm,
) -> Result<(), AllocError>
    ensures { AreFound (without (option_map (λ s. letters s) binder.now.name) (free_in (term_of body.now))) (written_in (term_of body.now)) finding.old finding.new result }
{
    finding.bound.enter(text_of(name_of(binder)))?;
    find_in_term(finding, body)?;
    finding.bound.leave();
    Ok(())
}

#[cycle(terms)]
#[tactic(auto, using(crate::proofs::FoundNames::finding))]
fn find_in_lambda<'a>(finding: &mut Finding<'a>, term: &'a Lambda) -> Result<(), AllocError>
    ensures { AreFound (free_in_node (lambda (bound_of term.now.binder) (type_of term.now.ty) (term_of term.now.body))) (written_in_node (lambda (bound_of term.now.binder) (type_of term.now.ty) (term_of term.now.body))) finding.old finding.new result }
{
    find_in_type(&mut finding.type_names, &term.ty)?;
    find_under(finding, &term.binder, &term.body)
}

#[cycle(terms)]
#[tactic(auto, using(crate::proofs::FoundNames::finding))]
fn find_in_if<'a>(finding: &mut Finding<'a>, term: &'a Conditional) -> Result<(), AllocError>
    ensures { AreFound (free_in_node (if_term (term_of term.now.condition) (term_of term.now.then_term) (term_of term.now.else_term))) (written_in_node (if_term (term_of term.now.condition) (term_of term.now.then_term) (term_of term.now.else_term))) finding.old finding.new result }
{
    find_in_term(finding, &term.condition)?;
    find_in_term(finding, &term.then_term)?;
    find_in_term(finding, &term.else_term)
}

#[cycle(terms)]
#[tactic(auto, using(crate::proofs::FoundNames::finding))]
fn find_in_let<'a>(finding: &mut Finding<'a>, term: &'a Let) -> Result<(), AllocError>
    ensures { AreFound (free_in_node (let_term (bound_of term.now.binder) (term_of term.now.bound) (term_of term.now.body))) (written_in_node (let_term (bound_of term.now.binder) (term_of term.now.bound) (term_of term.now.body))) finding.old finding.new result }
{
    find_in_term(finding, &term.bound)?;
    find_under(finding, &term.binder, &term.body)
}

#[cycle(terms)]
#[tactic(auto, using(crate::proofs::FoundNames::finding))]
fn find_in_letrec<'a>(finding: &mut Finding<'a>, term: &'a Letrec) -> Result<(), AllocError>
    ensures { AreFound (free_in_node (letrec_term (bound_of term.now.binder) (type_of term.now.ty) (term_of term.now.bound) (term_of term.now.body))) (written_in_node (letrec_term (bound_of term.now.binder) (type_of term.now.ty) (term_of term.now.bound) (term_of term.now.body))) finding.old finding.new result }
{
    find_in_type(&mut finding.type_names, &term.ty)?;
    find_under(finding, &term.binder, &term.bound)?;
    find_under(finding, &term.binder, &term.body)
}

#[cycle(terms)]
#[tactic(auto, using(crate::proofs::FoundNames::finding))]
fn find_in_application<'a>(
    finding: &mut Finding<'a>,
    term: &'a Application,
) -> Result<(), AllocError>
    ensures { AreFound (free_in_node (apply (term_of term.now.function) (term_of term.now.argument))) (written_in_node (apply (term_of term.now.function) (term_of term.now.argument))) finding.old finding.new result }
{
    find_in_term(finding, &term.function)?;
    find_in_term(finding, &term.argument)
}

#[cycle(terms)]
#[tactic(auto, using(crate::proofs::FoundNames::finding))]
fn find_in_ascription<'a>(finding: &mut Finding<'a>, term: &'a Ascription) -> Result<(), AllocError>
    ensures { AreFound (free_in_node (ascribe (term_of term.now.operand) (type_of term.now.ty))) (written_in_node (ascribe (term_of term.now.operand) (type_of term.now.ty))) finding.old finding.new result }
{
    find_in_term(finding, &term.operand)?;
    find_in_type(&mut finding.type_names, &term.ty)
}

#[cycle(terms)]
#[tactic(auto, using(crate::proofs::FoundNames::in_fields))]
fn find_in_fields<'a>(finding: &mut Finding<'a>, fields: &'a [TmField]) -> Result<(), AllocError>
    ensures { AreFound (free_in_fields (fields_of fields.now)) (written_in_fields (fields_of fields.now)) finding.old finding.new result }
{
    for i in 0..fields.len() {
        let field = &fields[i];
        find_in_term(finding, &field.term)?;
    }
    Ok(())
}
