//! Lists of steps: flattens proofs into them, and reads them.
ghost use Rattle.std.specs.Prelude.{◌≡◌, ℕ, ◌+◌, ◌++◌, map, length, get_or, IfOk, OnOk, All, List};
ghost use Rattle.std.specs.Option.{option_map};
ghost use Rattle.lam_rules.specs.SubViews.{sub_tree_of, sub_trees_of};
ghost use Rattle.lam_rules.specs.TypingViews.{typing_tree_of, typings_of};
ghost use Rattle.lam_scope.specs.Tables.{place_row_numbered};
ghost use Rattle.lam_scope.specs.TableViews.{place_number};
ghost use Rattle.lam_scope.specs.PlacedTerms.{document_terms, tree_in};
ghost use Rattle.lam_scope.specs.Views.{table_of, AreScopesOf};
ghost use Rattle.lam_syntax.specs.Trees.{CommandTree};
ghost use Rattle.lam_query.specs.declared.answers.Step.{Step as RustStep};
ghost use Rattle.lam_query.specs.Steps.{Proofs, steps_of, steps_before, typing_proof, sub_proof, sub_proofs, with_side};
ghost use Rattle.lam_query.specs.inner.RowSteps.{premise_places, row_proof, row_proofs};
ghost use Rattle.lam_query.specs.Within.{IsSpanOfText};
ghost use Rattle.lam_query.specs.Views.{step_of, StepStandsIn};
ghost use Rattle.lam_query.specs.inner.Listing.{AreListed};
ghost use Rattle.lam_query.specs.inner.Backwards.{said_at, said_by};

use crate::answers::Step;
use lam_rules::{SubProof, TypeProof, TypeRule, copy_of};
use lam_scope::{Place, Scopes};
use std::alloc::{AllocError, Global};

/// Returns the steps of a proof about a subterm, each after its premises; the last one concludes the proof. They share its types.
pub(crate) fn steps_of_proof(
    alloc: Global,
    scopes: &Scopes,
    place: Place,
    proof: &TypeProof,
) -> Result<Vec<Step>, AllocError>
    ensures steps { IfOk result (λ listed. map step_of listed.items ≡ steps_of 0 (row_proof (table_of scopes.now) place.0 (typing_tree_of proof.now))) }
    ensures of_term { IfOk result (λ listed. (commands : List CommandTree) → AreScopesOf scopes.now commands
        → map step_of listed.items ≡ steps_of 0 (typing_proof (tree_in (document_terms commands) place.0) (typing_tree_of proof.now))) }
    ensures whole_characters { IfOk result (λ listed. (text : List ℕ) → ((n : ℕ) → IsSpanOfText text (place_row_numbered (table_of scopes.now) n).span) → All (StepStandsIn text) listed.items) }
{
    let mut listed = Vec::new(alloc);
    list_typing(alloc, &mut listed, scopes, place, proof)?;
    Ok(listed)
}

/// Appends the steps of a proof about this subterm, and returns the index of the last one.
#[cycle(list_typing)]
#[tactic(auto, using(lam_rules::proofs::TypingShapes::typing_nodes))]
fn list_typing(
    alloc: Global,
    steps: &mut Vec<Step>,
    scopes: &Scopes,
    place: Place,
    proof: &TypeProof,
) -> Result<usize, AllocError>
    ensures steps { IfOk result (λ _. map step_of steps.new.items ≡ map step_of steps.old.items ++ steps_of (length steps.old.items) (row_proof (table_of scopes.now) place.0 (typing_tree_of proof.now))) }
    ensures last { IfOk result (λ last. last ≡ length steps.old.items + steps_before (row_proof (table_of scopes.now) place.0 (typing_tree_of proof.now))) }
{
    let terms = premise_places(scopes, place, proof.rule);
    let mut premises = list_typings(alloc, steps, scopes, place, terms, &proof.typing)?;
    list_side(alloc, steps, &mut premises, &proof.sub)?;
    let ty = copy_of(&proof.ty)?;
    let last = steps.len();
    steps.push(Step::Typing {
        rule: proof.rule,
        span: scopes.span_of(place),
        ty,
        premises,
    })?;
    Ok(last)
}

/// The immediate subterms, if the premises of the step are about them.
pub(crate) fn premise_places(scopes: &Scopes, place: Place, rule: TypeRule) -> &[Place]
    ensures { map place_number result.now ≡ premise_places (table_of scopes.now) place.0 rule }
{
    match rule {
        TypeRule::Sub => &[],
        _ => scopes.terms_of(place),
    }
}

/// Appends the steps of the premises in order, and returns the index of the last step of each. The premises are about these
/// subterms in turn, or about `place` itself.
#[cycle(list_typing)]
#[tactic(auto, using(lam_rules::proofs::TypingShapes::typing_nodes))]
fn list_typings(
    alloc: Global,
    steps: &mut Vec<Step>,
    scopes: &Scopes,
    place: Place,
    terms: &[Place],
    proofs: &[TypeProof],
) -> Result<Vec<usize>, AllocError>
    ensures { IfOk result (λ numbers. AreListed steps.old.items (row_proofs (table_of scopes.now) place.0 (map place_number terms.now) (typings_of proofs.now)) steps.new.items numbers.items) }
{
    let mut numbers = Vec::with_capacity(alloc, proofs.len())?;
    for i in 0..proofs.len() {
        let proof = &proofs[i];
        let about = place_or(terms, i, place);
        let last = list_typing(alloc, steps, scopes, about, proof)?;
        numbers.push(last)?;
    }
    Ok(numbers)
}

/// Returns the place at this index, or else the other one.
#[tactic(auto, using(lam_scope::proofs::Reading::reading))]
pub(crate) fn place_or(places: &[Place], number: usize, other: Place) -> Place
    ensures { result.0 ≡ get_or (map place_number places.now) number other.0 }
{
    match places.get(number) {
        Some(place) => *place,
        None => other,
    }
}

/// Appends the steps of the subtyping premise, if there is one, after those of the typing premises.
fn list_side(
    alloc: Global,
    steps: &mut Vec<Step>,
    premises: &mut Vec<usize>,
    side: &Option<Box<SubProof>>,
) -> Result<(), AllocError>
    ensures { OnOk result ((start : List RustStep) (ps : Proofs) → AreListed start ps steps.old.items premises.old.items
        → AreListed start (with_side ps (option_map (λ q. sub_tree_of q.value) side.now)) steps.new.items premises.new.items) }
{
    match side {
        None => Ok(()),
        Some(proof) => {
            let last = list_sub(alloc, steps, proof)?;
            premises.push(last)?;
            Ok(())
        }
    }
}

/// Appends the steps of a subtyping proof, and returns the index of the last one.
#[cycle(list_sub)]
#[tactic(auto, using(lam_rules::proofs::SubShapes::sub_nodes))]
fn list_sub(alloc: Global, steps: &mut Vec<Step>, proof: &SubProof) -> Result<usize, AllocError>
    ensures steps { IfOk result (λ _. map step_of steps.new.items ≡ map step_of steps.old.items ++ steps_of (length steps.old.items) (sub_proof (sub_tree_of proof.now))) }
    ensures last { IfOk result (λ last. last ≡ length steps.old.items + steps_before (sub_proof (sub_tree_of proof.now))) }
{
    let premises = list_subs(alloc, steps, &proof.premises)?;
    let lower = copy_of(&proof.lower)?;
    let upper = copy_of(&proof.upper)?;
    let last = steps.len();
    steps.push(Step::Sub {
        rule: proof.rule,
        lower,
        upper,
        premises,
    })?;
    Ok(last)
}

#[cycle(list_sub)]
#[tactic(auto, using(lam_rules::proofs::SubShapes::sub_nodes))]
fn list_subs(
    alloc: Global,
    steps: &mut Vec<Step>,
    proofs: &[SubProof],
) -> Result<Vec<usize>, AllocError>
    ensures { IfOk result (λ numbers. AreListed steps.old.items (sub_proofs (sub_trees_of proofs.now)) steps.new.items numbers.items) }
{
    let mut numbers = Vec::with_capacity(alloc, proofs.len())?;
    for proof in proofs {
        let last = list_sub(alloc, steps, proof)?;
        numbers.push(last)?;
    }
    Ok(numbers)
}

/// The premises of a step.
pub(crate) fn premises_of(step: &Step) -> &[usize]
    ensures { result.now ≡ (step_of step.now).premises }
{
    match step {
        Step::Typing { premises, .. } => premises,
        Step::Sub { premises, .. } => premises,
    }
}

/// The step with this index, if there is one.
pub(crate) fn step_at(steps: &[Step], number: usize) -> Option<&Step>
    ensures { said_by result ≡ said_at (map step_of steps.now) number }
{
    steps.get(number)
}
