//! The first step of a derivation that does not follow by its rule.
//!
//! Each step is checked by itself, from the last one down: it tells what its premises are about, these tell the same of theirs, and
//! so on. The tree of the whole proof is not built, and nothing recurses from step to step, so that steps may follow from each other
//! on any number of levels.
ghost use Rattle.std.specs.Prelude.{◌≡◌, ◌≤◌, ◌↔◌, ◌∷◌, ◌++◌, List, [], Option, Some, IsTrue, IfOk, OnOk, MatchOption, length, map, option_map, replicate, slice_get, take};
ghost use Rattle.lam_token.specs.declared.span.Span.{Span};
ghost use Rattle.lam_rules.specs.Parts.{subject_in};
ghost use Rattle.lam_rules.specs.SubViews.{claim_of, claims_of};
ghost use Rattle.lam_rules.specs.TermViews.{lent_of, term_of, written_of};
ghost use Rattle.lam_rules.specs.Types.{IsWellFormed, Typ};
ghost use Rattle.lam_rules.specs.TypeViews.{typ_of};
ghost use Rattle.lam_rules.specs.Terms.{Term};
ghost use Rattle.lam_rules.specs.Typing.{Context, IsWellFormedContext, IsWellFormedEntry, TypingTree};
ghost use Rattle.lam_rules.specs.TypingSteps.{FitsRule, IsTypingStep, about, subjects};
ghost use Rattle.lam_rules.specs.TypingViews.{context_of, types_concluded, typing_tree_of};
ghost use Rattle.lam_rules.specs.declared.rules.Dialect.{Dialect};
ghost use Rattle.lam_rules.specs.declared.rules.TypeRule.{TypeRule as Rule};
ghost use Rattle.lam_rules.specs.declared.types.Ty.{Ty as RustTy};
ghost use Rattle.lam_query.specs.Judgements.{IsFirstFailing, judgements};
ghost use Rattle.lam_query.specs.Steps.{typing};
ghost use Rattle.lam_query.specs.Views.{step_of};
ghost use Rattle.lam_query.specs.inner.Backwards.{said_at, said_by};
ghost use Rattle.lam_query.specs.inner.Walking.{AreKnown, IsKnown, IsRight, IsTop, claims_said, first_said, last_claim, left_for, left_of, lefts_for, lefts_under, of_subtypes, types_said, typing_of, AllFollow};
ghost use Rattle.lam_query.specs.ProofTrees.{MakeTree};

use crate::answers::Step;
use crate::steps::{premises_of, step_at};
use lam_rules::{
    Core, Dialect, Part, SubProof, Ty, TypeProof, TypeRule, check_sub_step, check_type_step,
    copy_of, part_of, wf, wf_context,
};
use std::alloc::{AllocError, Global};

/// A part of a term, in the context of the first `depth` entries. `well_formed`: whether the types of these have distinct labels.
#[derive(Clone, Copy)]
struct Seen<'a> {
    depth: usize,
    well_formed: bool,
    part: Part<'a>,
}

/// What a proof is about, if its steps are still to be checked.
#[derive(Clone, Copy)]
enum Pending<'a> {
    Typing(Seen<'a>),
    /// No part of a term. Nothing is asked of its steps.
    Nothing,
    Subtyping,
}

/// The proofs that are still to be checked, the last one on top, and the entries of the context of the step checked last.
#[derive(Drop)]
struct State<'a> {
    entries: Vec<Option<Ty>>,
    pending: Vec<Pending<'a>>,
}

/// The term that a step of typing is about, its rule, and the type that its first premise concludes. `depth` is the number of
/// entries of its context, `well_formed` whether their types have distinct labels.
#[derive(Clone, Copy)]
struct Parent<'a> {
    depth: usize,
    well_formed: bool,
    rule: TypeRule,
    term: &'a Core,
    first: Option<&'a Ty>,
}

/// Premises of a step, without premises of their own.
#[derive(Drop)]
struct Premises {
    typings: Vec<TypeProof>,
    subs: Vec<SubProof>,
}

/// Returns the index of the first step that does not follow by its rule in a proof of typing about this term, in the context of
/// these entries, or `None` if each does.
pub(crate) fn first_wrong(
    alloc: Global,
    entries: Vec<Option<Ty>>,
    term: &Core,
    steps: &[Step],
    dialect: Dialect,
) -> Result<Option<usize>, AllocError>
    ensures { IfOk result (λ found. (tree : TypingTree) → MakeTree (map step_of steps.now) tree
        → let all = judgements (context_of entries.items) (term_of term.now) tree in
        MatchOption found (AllFollow dialect all) (λ number. IsFirstFailing dialect 0 all number)) }
{
    let seen = Seen {
        depth: entries.len(),
        well_formed: wf_context(&entries),
        part: Part::Plain(term),
    };
    let mut state = State {
        entries,
        pending: Vec::new(alloc),
    };
    state.pending.push(Pending::Typing(seen))?;
    let mut wrong = None;
    for back in 0..steps.len() {
        let number = steps.len() - 1 - back;
        let Some(own) = state.pending.pop() else {
            return Ok(wrong);
        };
        let step = &steps[number];
        if !is_right(alloc, &mut state, own, step, steps, dialect)? {
            wrong = Some(number);
        }
    }
    Ok(wrong)
}

/// Whether a step follows by its rule. Its premises are put on the stack in its place.
fn is_right<'a>(
    alloc: Global,
    state: &mut State<'a>,
    own: Pending<'a>,
    step: &'a Step,
    steps: &'a [Step],
    dialect: Dialect,
) -> Result<bool, AllocError>
    requires known { AreKnown state.old.entries.items (state.old.pending.items ++ own ∷ []) }
    ensures known { OnOk result (AreKnown state.new.entries.items state.new.pending.items) }
    ensures left { OnOk result (map (left_of state.new.entries.items) state.new.pending.items
        ≡ map (left_of state.old.entries.items) state.old.pending.items
        ++ lefts_under (left_of state.old.entries.items own.entry) (step_of step.now).conclusion (map (said_at (map step_of steps.now)) (step_of step.now).premises)) }
    ensures right { IfOk result (λ right. IsTrue right
        ↔ IsRight dialect (left_of state.old.entries.items own.entry) (step_of step.now).conclusion (map (said_at (map step_of steps.now)) (step_of step.now).premises)) }
{
    let premises = premises_of(step);
    match own {
        Pending::Nothing => {
            push_each(&mut state.pending, Pending::Nothing, premises.len())?;
            Ok(true)
        }
        Pending::Subtyping => {
            push_each(&mut state.pending, Pending::Subtyping, premises.len())?;
            is_right_sub(alloc, step, premises, steps, dialect)
        }
        Pending::Typing(seen) => is_right_typing(alloc, state, seen, step, premises, steps),
    }
}

/// Puts this on the stack `count` times.
fn push_each<'a>(
    pending: &mut Vec<Pending<'a>>,
    each: Pending<'a>,
    count: usize,
) -> Result<(), AllocError>
    ensures { OnOk result (pending.new.items ≡ pending.old.items ++ replicate count each.entry) }
{
    for _ in 0..count {
        pending.push(each)?;
    }
    Ok(())
}

/// Whether a step of typing follows by its rule for this part. What its premises are about is put on the stack. Nothing is asked of
/// a step of subtyping; none comes here, since `premise_of` goes by the kind of a step.
fn is_right_typing<'a>(
    alloc: Global,
    state: &mut State<'a>,
    seen: Seen<'a>,
    step: &'a Step,
    premises: &'a [usize],
    steps: &'a [Step],
) -> Result<bool, AllocError>
    requires known { AreKnown state.old.entries.items (state.old.pending.items ++ typing_of seen ∷ []) }
    ensures known { OnOk result (AreKnown state.new.entries.items state.new.pending.items) }
    ensures left { OnOk result (map (left_of state.new.entries.items) state.new.pending.items
        ≡ map (left_of state.old.entries.items) state.old.pending.items
        ++ lefts_under (left_of state.old.entries.items (typing_of seen.entry)) (step_of step.now).conclusion (map (said_at (map step_of steps.now)) premises.now)) }
    ensures right { IfOk result (λ right. (d : Dialect) → IsTrue right
        ↔ IsRight d (left_of state.old.entries.items (typing_of seen.entry)) (step_of step.now).conclusion (map (said_at (map step_of steps.now)) premises.now)) }
{
    let Step::Typing { rule, ty, .. } = step else {
        push_each(&mut state.pending, Pending::Nothing, premises.len())?;
        return Ok(true);
    };
    let (term, well_formed) = enter(&mut state.entries, seen)?;
    let parent = Parent {
        depth: state.entries.len(),
        well_formed,
        rule: *rule,
        term,
        first: first_type(premises, steps),
    };
    push_premises(&mut state.pending, parent, premises, steps)?;
    if !well_formed {
        return Ok(false);
    }
    follows(alloc, &state.entries, term, *rule, ty, premises, steps)
}

/// Whether a step of typing follows by this rule from the conclusions of its premises.
fn follows(
    alloc: Global,
    entries: &[Option<Ty>],
    term: &Core,
    rule: TypeRule,
    ty: &Ty,
    premises: &[usize],
    steps: &[Step],
) -> Result<bool, AllocError>
    ensures { IfOk result (λ right. let said = map (said_at (map step_of steps.now)) premises.now in
        IsTrue right ↔ (IsWellFormed (typ_of ty.now) × FitsRule rule (last_claim (claims_said said)) (context_of entries.now) (term_of term.now) (typ_of ty.now) (types_said said))) }
{
    let proof = bare_typing(alloc, rule, ty, premises, steps)?;
    Ok(check_type_step(entries, term, &proof))
}

/// Makes the entries those of the context of this part; returns its term, and whether their types have distinct labels.
fn enter<'a>(entries: &mut Vec<Option<Ty>>, seen: Seen<'a>) -> Result<(&'a Core, bool), AllocError>
    requires { seen.depth ≤ length entries.old.items }
    ensures subject { IfOk result (λ inside. about (context_of entries.new.items) (term_of inside.0.now) ≡ subject_in (context_of (take seen.entry.depth entries.old.items)) seen.entry.part) }
    ensures well_formed { IfOk result (λ inside. (IsTrue seen.entry.well_formed ↔ IsWellFormedContext (context_of (take seen.entry.depth entries.old.items)))
        → (IsTrue inside.1 ↔ IsWellFormedContext (context_of entries.new.items))) }
    ensures outside { OnOk result ((seen.entry.depth ≤ length entries.new.items) × (take seen.entry.depth entries.new.items ≡ take seen.entry.depth entries.old.items)) }
{
    entries.truncate(seen.depth);
    match seen.part {
        Part::Plain(term) => Ok((term, seen.well_formed)),
        Part::Under(entry, term) => {
            entries.push(copy_of_entry(entry)?)?;
            Ok((term, stays_well_formed(seen.well_formed, entry)))
        }
    }
}

/// Returns a copy of a context entry.
pub(crate) fn copy_of_entry(entry: Option<&Ty>) -> Result<Option<Ty>, AllocError>
    ensures { IfOk result (λ made. written_of made ≡ lent_of entry.entry) }
{
    match entry {
        Some(ty) => Ok(Some(copy_of(ty)?)),
        None => Ok(None),
    }
}

/// Whether the types of a context have distinct labels, if it is known of the entries outside this one.
fn stays_well_formed(outside: bool, entry: Option<&Ty>) -> bool
    ensures { IsTrue result ↔ (IsWellFormedEntry (lent_of entry.entry) × IsTrue outside) }
{
    if !outside {
        return false;
    }
    match entry {
        Some(ty) => wf(ty),
        None => true,
    }
}

/// The type that the first premise concludes.
fn first_type<'a>(premises: &[usize], steps: &'a [Step]) -> Option<&'a Ty>
    ensures { lent_of result ≡ first_said (map (said_at (map step_of steps.now)) premises.now) }
{
    match premises.first() {
        Some(number) => type_in(step_at(steps, *number)),
        None => None,
    }
}

/// The type that a step of typing concludes.
fn type_in<'a>(step: Option<&'a Step>) -> Option<&'a Ty>
    ensures { lent_of result ≡ first_said (said_by step.entry ∷ []) }
{
    match step {
        Some(Step::Typing { ty, .. }) => Some(ty),
        Some(Step::Sub { .. }) => None,
        None => None,
    }
}

/// Puts what the premises of a step of typing are about on the stack, in their order.
fn push_premises<'a>(
    pending: &mut Vec<Pending<'a>>,
    parent: Parent<'a>,
    premises: &'a [usize],
    steps: &'a [Step],
) -> Result<(), AllocError>
    ensures left { OnOk result ((g : List (Option RustTy)) → length g ≡ parent.entry.depth → map (left_of g) pending.new.items
        ≡ map (left_of g) pending.old.items
        ++ lefts_for (subjects parent.entry.rule (context_of g) (term_of parent.entry.term.now) (lent_of parent.entry.first)) (map (said_at (map step_of steps.now)) premises.now)) }
    ensures known { OnOk result ((g : List (Option RustTy)) → length g ≡ parent.entry.depth → (IsTrue parent.entry.well_formed ↔ IsWellFormedContext (context_of g))
        → AreKnown g pending.old.items → AreKnown g pending.new.items) }
{
    for k in 0..premises.len() {
        pending.push(premise_of(parent, k, step_at(steps, premises[k])))?;
    }
    Ok(())
}

/// What premise `k`, which this step concludes, is about.
fn premise_of<'a>(parent: Parent<'a>, k: usize, step: Option<&'a Step>) -> Pending<'a>
    ensures left { (g : List (Option RustTy)) → length g ≡ parent.entry.depth
        → left_of g result ≡ left_for (slice_get (subjects parent.entry.rule (context_of g) (term_of parent.entry.term.now) (lent_of parent.entry.first)) k) (said_by step.entry) }
    ensures known { (g : List (Option RustTy)) → length g ≡ parent.entry.depth → (IsTrue parent.entry.well_formed ↔ IsWellFormedContext (context_of g)) → IsKnown g result × IsTop g result }
{
    match step {
        Some(Step::Typing { .. }) => typing_premise(parent, k),
        Some(Step::Sub { .. }) => Pending::Subtyping,
        None => Pending::Nothing,
    }
}

/// The same for a premise of typing.
fn typing_premise<'a>(parent: Parent<'a>, k: usize) -> Pending<'a>
    ensures left { (g : List (Option RustTy)) (rule : Rule) (span : Span) (t : Typ) → length g ≡ parent.entry.depth
        → left_of g result ≡ left_for (slice_get (subjects parent.entry.rule (context_of g) (term_of parent.entry.term.now) (lent_of parent.entry.first)) k) (Some (typing rule span t)) }
    ensures known { (g : List (Option RustTy)) → length g ≡ parent.entry.depth → (IsTrue parent.entry.well_formed ↔ IsWellFormedContext (context_of g)) → IsKnown g result × IsTop g result }
{
    match part_of(parent.rule, parent.term, parent.first, k) {
        Some(part) => Pending::Typing(Seen {
            depth: parent.depth,
            well_formed: parent.well_formed,
            part,
        }),
        None => Pending::Nothing,
    }
}

/// Makes the last step of a proof of typing. Its premises have none of their own.
fn bare_typing(
    alloc: Global,
    rule: TypeRule,
    ty: &Ty,
    premises: &[usize],
    steps: &[Step],
) -> Result<TypeProof, AllocError>
    ensures { IfOk result (λ made. (g : Context) (e : Term) → let said = map (said_at (map step_of steps.now)) premises.now in
        IsTypingStep g e (typing_tree_of made) ↔ (IsWellFormed (typ_of ty.now) × FitsRule rule (last_claim (claims_said said)) g e (typ_of ty.now) (types_said said))) }
{
    let Premises { typings, subs } = bare_premises(alloc, premises, steps)?;
    let sub = last_of(alloc, subs)?;
    let ty = copy_of(ty)?;
    Ok(TypeProof {
        rule,
        ty,
        typing: typings,
        sub,
    })
}

/// The last of these.
fn last_of(alloc: Global, mut subs: Vec<SubProof>) -> Result<Option<Box<SubProof>>, AllocError>
    ensures { IfOk result (λ last. option_map (λ q. claim_of q.value) last ≡ last_claim (claims_of subs.items)) }
{
    match subs.pop() {
        Some(proof) => Ok(Some(Box::new(alloc, proof)?)),
        None => Ok(None),
    }
}

/// Whether a step of subtyping follows by its rule. Nothing is asked of a step of typing; none comes here, as above.
fn is_right_sub(
    alloc: Global,
    step: &Step,
    premises: &[usize],
    steps: &[Step],
    dialect: Dialect,
) -> Result<bool, AllocError>
    ensures { IfOk result (λ right. IsTrue right ↔ IsRight dialect of_subtypes (step_of step.now).conclusion (map (said_at (map step_of steps.now)) premises.now)) }
{
    match step {
        Step::Typing { .. } => Ok(true),
        Step::Sub {
            rule,
            lower,
            upper,
            ..
        } => {
            let Premises { subs, .. } = bare_premises(alloc, premises, steps)?;
            let lower = copy_of(lower)?;
            let upper = copy_of(upper)?;
            let proof = SubProof {
                rule: *rule,
                lower,
                upper,
                premises: subs,
            };
            Ok(check_sub_step(&proof, dialect))
        }
    }
}

/// Makes proofs of what premises conclude, each without premises of its own.
fn bare_premises(alloc: Global, premises: &[usize], steps: &[Step]) -> Result<Premises, AllocError>
    ensures types { IfOk result (λ made. types_concluded made.typings.items ≡ types_said (map (said_at (map step_of steps.now)) premises.now)) }
    ensures claims { IfOk result (λ made. claims_of made.subs.items ≡ claims_said (map (said_at (map step_of steps.now)) premises.now)) }
{
    let mut made = Premises {
        typings: Vec::new(alloc),
        subs: Vec::new(alloc),
    };
    for number in premises {
        add_bare(alloc, &mut made, step_at(steps, *number))?;
    }
    Ok(made)
}

/// Adds what this step concludes, without its premises.
fn add_bare(alloc: Global, made: &mut Premises, step: Option<&Step>) -> Result<(), AllocError>
    ensures types { OnOk result (types_concluded made.new.typings.items ≡ types_concluded made.old.typings.items ++ types_said (said_by step.entry ∷ [])) }
    ensures claims { OnOk result (claims_of made.new.subs.items ≡ claims_of made.old.subs.items ++ claims_said (said_by step.entry ∷ [])) }
{
    match step {
        Some(Step::Typing { rule, ty, .. }) => {
            made.typings.push(TypeProof {
                rule: *rule,
                ty: copy_of(ty)?,
                typing: Vec::new(alloc),
                sub: None,
            })?;
            Ok(())
        }
        Some(
            Step::Sub {
                rule,
                lower,
                upper,
                ..
            },
        ) => {
            made.subs.push(SubProof {
                rule: *rule,
                lower: copy_of(lower)?,
                upper: copy_of(upper)?,
                premises: Vec::new(alloc),
            })?;
            Ok(())
        }
        None => Ok(()),
    }
}
