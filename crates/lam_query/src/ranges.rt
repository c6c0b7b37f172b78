//! The first step of a derivation that has another range than the term that it is about.
//!
//! The steps are read from the last one down: each tells which terms its premises are about.
ghost use Rattle.std.specs.Prelude.{◌≡◌, ◌↔◌, ◌++◌, List, [], IsTrue, IfOk, OnOk, MatchOption, drop, map};
ghost use Rattle.lam_rules.specs.Typing.{TypingTree};
ghost use Rattle.lam_scope.specs.PlacedTerms.{document_terms, tree_in};
ghost use Rattle.lam_scope.specs.TableViews.{place_number};
ghost use Rattle.lam_scope.specs.Views.{AreScopesOf, table_of};
ghost use Rattle.lam_syntax.specs.Trees.{CommandTree};
ghost use Rattle.lam_query.specs.FirstFaults.{DifferFirst};
ghost use Rattle.lam_query.specs.Steps.{steps_of, typing_proof};
ghost use Rattle.lam_query.specs.Views.{step_of};
ghost use Rattle.lam_query.specs.inner.Ranges.{IsRanged, number_of, place_for, places_for, terms_under};
ghost use Rattle.lam_query.specs.inner.Backwards.{said_at, said_by};
ghost use Rattle.lam_query.specs.ProofTrees.{MakeTree};

use crate::answers::Step;
use crate::steps::{place_or, premise_places, premises_of, step_at};
use lam_scope::{Place, Scopes};
use std::alloc::{AllocError, Global};

/// Returns the index of the first step with another range than the term that it is about, in a proof of typing about this place,
/// or `None` if each has the range of its term.
pub(crate) fn first_misranged(
    alloc: Global,
    scopes: &Scopes,
    place: Place,
    steps: &[Step],
) -> Result<Option<usize>, AllocError>
    ensures { IfOk result (λ found. (commands : List CommandTree) (tree : TypingTree) → AreScopesOf scopes.now commands → MakeTree (map step_of steps.now) tree
        → let all = steps_of 0 (typing_proof (tree_in (document_terms commands) place.0) tree) in
        MatchOption found (map step_of steps.now ≡ all) (λ number. DifferFirst (map step_of steps.now) all number)) }
{
    // What each proof is about whose steps are still to be read; a proof of subtyping is about no term.
    let mut pending: Vec<Option<Place>> = Vec::new(alloc);
    pending.push(Some(place))?;
    let mut other = None;
    for back in 0..steps.len() {
        let number = steps.len() - 1 - back;
        let Some(own) = pending.pop() else {
            return Ok(other);
        };
        let step = &steps[number];
        push_places(
            &mut pending,
            own,
            terms_of(scopes, own, step),
            premises_of(step),
            steps,
        )?;
        if !has_range(scopes, own, step) {
            other = Some(number);
        }
    }
    Ok(other)
}

/// The terms that the premises of a step about this place are about, if the step is of typing.
fn terms_of<'a>(scopes: &'a Scopes, own: Option<Place>, step: &Step) -> &'a [Place]
    ensures { map place_number result.now ≡ terms_under (table_of scopes.now) (number_of own) (step_of step.now).conclusion }
{
    let Some(place) = own else {
        return &[];
    };
    match step {
        Step::Typing { rule, .. } => premise_places(scopes, place, *rule),
        Step::Sub { .. } => &[],
    }
}

/// Whether a step has the range of the term that it is about.
fn has_range(scopes: &Scopes, own: Option<Place>, step: &Step) -> bool
    ensures { IsTrue result ↔ IsRanged (table_of scopes.now) (number_of own) (step_of step.now).conclusion }
{
    let Some(place) = own else {
        return true;
    };
    match step {
        Step::Typing { span, .. } => *span == scopes.span_of(place),
        Step::Sub { .. } => true,
    }
}

/// Puts what the premises of a step are about on the stack, in their order.
fn push_places(
    pending: &mut Vec<Option<Place>>,
    own: Option<Place>,
    terms: &[Place],
    premises: &[usize],
    steps: &[Step],
) -> Result<(), AllocError>
    ensures { OnOk result (map number_of pending.new.items
        ≡ map number_of pending.old.items ++ places_for (number_of own) (map place_number terms.now) (map (said_at (map step_of steps.now)) premises.now)) }
{
    for k in 0..premises.len() {
        let premise = step_at(steps, premises[k]);
        pending.push(place_of(own, terms, k, premise))?;
    }
    Ok(())
}

/// What premise `k`, which this step concludes, is about.
fn place_of(own: Option<Place>, terms: &[Place], k: usize, premise: Option<&Step>) -> Option<Place>
    ensures { number_of result ≡ place_for (number_of own) (drop k (map place_number terms.now)) (said_by premise.entry) }
{
    let Some(place) = own else {
        return None;
    };
    match premise {
        Some(Step::Typing { .. }) => Some(place_or(terms, k, place)),
        Some(Step::Sub { .. }) => None,
        None => None,
    }
}
