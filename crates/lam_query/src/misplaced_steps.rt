//! How the steps of a derivation follow from each other: the first with misplaced premises, and whether all are of one proof of
//! typing.
ghost use Rattle.std.specs.Prelude.{◌↔◌, IsTrue, IfOk, map};
ghost use Rattle.lam_query.specs.Views.{step_of};
ghost use Rattle.lam_query.specs.inner.Placing.{AreSubtypings, AreTypingsFirst, IsPlacing, IsSubtypingSaid, IsTypingSaid, MayHave};
ghost use Rattle.lam_query.specs.inner.Backwards.{said_at, said_by};

use crate::answers::Step;
use crate::steps::{premises_of, step_at};
use std::alloc::{AllocError, Global};

/// How steps follow from each other.
#[derive(Clone, Copy)]
pub(crate) enum Placing {
    /// The premises of this step are not the last steps of the proofs directly before it.
    Misplaced(usize),
    /// The steps are those of proofs, but not of one proof of typing.
    Loose,
    /// The steps are those of one proof of typing.
    OneTyping,
}

/// Returns how steps follow from each other.
pub(crate) fn placing_of(alloc: Global, steps: &[Step]) -> Result<Placing, AllocError>
    ensures { IfOk result (λ found. IsPlacing (map step_of steps.now) found) }
{
    // The last steps of the proofs so far.
    let mut lasts: Vec<usize> = Vec::new(alloc);
    let mut have_trees = true;
    for i in 0..steps.len() {
        let step = &steps[i];
        let premises = premises_of(step);
        if !lasts.ends_with(premises) {
            return Ok(Placing::Misplaced(i));
        }
        lasts.truncate(lasts.len() - premises.len());
        lasts.push(i)?;
        have_trees = has_tree(have_trees, step, premises, steps);
    }
    if lasts.len() != 1 {
        return Ok(Placing::Loose);
    }
    if !have_trees {
        return Ok(Placing::Loose);
    }
    if !is_typing(steps.last()) {
        return Ok(Placing::Loose);
    }
    Ok(Placing::OneTyping)
}

/// Whether a step may have these premises, if the proofs before it have trees.
fn has_tree(have_trees: bool, step: &Step, premises: &[usize], steps: &[Step]) -> bool
    ensures { IsTrue result ↔ (MayHave (step_of step.now).conclusion (map (said_at (map step_of steps.now)) premises.now) × IsTrue have_trees) }
{
    if !have_trees {
        return false;
    }
    match step {
        Step::Typing { .. } => are_typings_first(premises, steps),
        Step::Sub { .. } => are_subtypings(premises, steps),
    }
}

/// Whether these steps are of typing, but for the last one, which may be of subtyping.
fn are_typings_first(premises: &[usize], steps: &[Step]) -> bool
    ensures { IsTrue result ↔ AreTypingsFirst (map (said_at (map step_of steps.now)) premises.now) }
{
    for k in 0..premises.len() {
        let premise = step_at(steps, premises[k]);
        if !is_typing(premise) {
            if k + 1 < premises.len() {
                return false;
            }
            return is_subtyping(premise);
        }
    }
    true
}

fn are_subtypings(premises: &[usize], steps: &[Step]) -> bool
    ensures { IsTrue result ↔ AreSubtypings (map (said_at (map step_of steps.now)) premises.now) }
{
    for number in premises {
        if !is_subtyping(step_at(steps, *number)) {
            return false;
        }
    }
    true
}

fn is_typing(step: Option<&Step>) -> bool
    ensures { IsTrue result ↔ IsTypingSaid (said_by step.entry) }
{
    matches!(step, Some(Step::Typing { .. }))
}

fn is_subtyping(step: Option<&Step>) -> bool
    ensures { IsTrue result ↔ IsSubtypingSaid (said_by step.entry) }
{
    matches!(step, Some(Step::Sub { .. }))
}
