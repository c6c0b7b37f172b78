//! Proofs of subtyping. The work of a step apart from its recursion is kept out of line, so that each level of a type
//! uses a small stack frame.

ghost use Rattle.std.specs.Prelude.{◌≡◌, IfOk, IfSome, IfNone};
ghost use Rattle.lam_rules.specs.Types.{Typ, arrow, record_of, AreWellFormed, IsWellFormed};
ghost use Rattle.lam_rules.specs.TypeViews.{typ_of, fields_of};
ghost use Rattle.lam_rules.specs.Subtyping.{BySubRule, IsRuleOf, GoesFieldByField, AreSubProofs, ProvesBelow, IsBelow, sub_step};
ghost use Rattle.lam_rules.specs.SubViews.{sub_tree_of, sub_trees_of, claims_of};
ghost use Rattle.lam_rules.specs.declared.rules.Dialect.{Dialect};
ghost use Rattle.lam_rules.specs.declared.rules.SubRule.{SubRule};
ghost use Rattle.lam_sub.specs.BoundOrder.{HasNoParts};
ghost use Rattle.lam_sub.specs.inner.Arranging.{HasLabelsOf, picked};
ghost use Rattle.lam_sub.specs.inner.FieldsBelow.{AreBelow};
ghost use Rattle.lam_sub.specs.inner.Steps.{LeadsTo};

use crate::deciding::is_sub;
use crate::fields::{append_others, field_type};
use crate::unchanged::{are_by_refl, have_same_labels};
use lam_rules::{Dialect, SubProof, SubRule, Ty, copy_of, copy_of_fields, make_record, same};
use std::alloc::{AllocError, Global};

/// Returns a proof that the first type is a subtype of the second, or `None` if it is not. Equal types take a single
/// S-Refl step; record types take at most a permutation, then a width step, then a depth step.
pub fn prove_sub(
    alloc: Global,
    lower: &Ty,
    upper: &Ty,
    dialect: Dialect,
) -> Result<Option<SubProof>, AllocError>
    requires lower { IsWellFormed (typ_of lower.now) }
    requires upper { IsWellFormed (typ_of upper.now) }
    ensures some { IfOk result (λ found. IfSome found (λ proof. ProvesBelow (sub_tree_of proof) (typ_of lower.now) (typ_of upper.now) dialect)) }
    ensures none { IfOk result (λ found. IfNone found (IsBelow (typ_of lower.now) (typ_of upper.now) dialect → ⊥)) }
{
    if !is_sub(lower, upper, dialect) {
        return Ok(None);
    }
    let proof = prove(alloc, lower, upper, dialect)?;
    Ok(Some(proof))
}

/// The proof of a subtyping that is known to hold. Whether two arrows or two records are equal is seen from the proofs of
/// their parts, so that no level compares what is below it again.
#[cycle(prove)]
fn prove(alloc: Global, lower: &Ty, upper: &Ty, dialect: Dialect) -> Result<SubProof, AllocError>
    requires { IsBelow (typ_of lower.now) (typ_of upper.now) dialect }
    ensures { IfOk result (λ proof. ProvesBelow (sub_tree_of proof) (typ_of lower.now) (typ_of upper.now) dialect) }
{
    match upper {
        Ty::Arrow(upper_parameter, upper_outcome) => {
            let Ty::Arrow(lower_parameter, lower_outcome) = lower else {
                unreachable!();
            };
            let premises = prove_sides(
                alloc,
                lower_parameter,
                lower_outcome,
                upper_parameter,
                upper_outcome,
                dialect,
            )?;
            if are_by_refl(&premises) {
                return conclude(SubRule::Refl, Vec::new(alloc), lower, upper);
            }
            conclude(SubRule::Arrow, premises, lower, upper)
        }
        Ty::Record(upper_fields) => {
            let Ty::Record(lower_fields) = lower else {
                unreachable!();
            };
            let steps = prove_record(alloc, &lower_fields.items, &upper_fields.items, dialect)?;
            match steps {
                Some(proof) => Ok(proof),
                None => conclude(SubRule::Refl, Vec::new(alloc), lower, upper),
            }
        }
        _ => prove_without_parts(alloc, lower, upper),
    }
}

/// The proof that a type is below one without parts.
#[inline(never)]
fn prove_without_parts(alloc: Global, lower: &Ty, upper: &Ty) -> Result<SubProof, AllocError>
    requires { HasNoParts (typ_of upper.now) }
    ensures { (d : Dialect) → IsBelow (typ_of lower.now) (typ_of upper.now) d
        → IfOk result (λ proof. ProvesBelow (sub_tree_of proof) (typ_of lower.now) (typ_of upper.now) d) }
{
    if same(lower, upper) {
        return conclude(SubRule::Refl, Vec::new(alloc), lower, upper);
    }
    match upper {
        Ty::Top => conclude(SubRule::Top, Vec::new(alloc), lower, upper),
        _ => conclude(SubRule::BoolNat, Vec::new(alloc), lower, upper),
    }
}

/// The premises of S-Arrow. The one for the parameters is contravariant.
#[cycle(prove)]
#[inline(never)]
fn prove_sides(
    alloc: Global,
    lower_parameter: &Ty,
    lower_outcome: &Ty,
    upper_parameter: &Ty,
    upper_outcome: &Ty,
    dialect: Dialect,
) -> Result<Vec<SubProof>, AllocError>
    requires parameters { IsBelow (typ_of upper_parameter.now) (typ_of lower_parameter.now) dialect }
    requires outcomes { IsBelow (typ_of lower_outcome.now) (typ_of upper_outcome.now) dialect }
    ensures proofs { IfOk result (λ made. AreSubProofs (sub_trees_of made.items) dialect) }
    ensures by_rule { IfOk result (λ made. BySubRule SubRule.Arrow (claims_of made.items) (arrow (typ_of lower_parameter.now) (typ_of lower_outcome.now)) (arrow (typ_of upper_parameter.now) (typ_of upper_outcome.now))) }
{
    let parameter = prove(alloc, upper_parameter, lower_parameter, dialect)?;
    let outcome = prove(alloc, lower_outcome, upper_outcome, dialect)?;
    let premises = vec![in alloc; parameter, outcome]?;
    Ok(premises)
}

/// The steps between two record types, `None` if they are equal: required fields are moved to the front, others are dropped,
/// and types are widened.
#[cycle(prove)]
#[inline(never)]
fn prove_record(
    alloc: Global,
    lower: &[(String, Ty)],
    upper: &[(String, Ty)],
    dialect: Dialect,
) -> Result<Option<SubProof>, AllocError>
    requires lower { AreWellFormed (fields_of lower.now) }
    requires upper { AreWellFormed (fields_of upper.now) }
    requires below { AreBelow (fields_of lower.now) (fields_of upper.now) dialect }
    ensures { IfOk result (λ steps. LeadsTo steps (record_of (fields_of lower.now)) (record_of (fields_of upper.now)) dialect) }
{
    let premises = prove_fields(alloc, lower, upper, dialect)?;
    steps_between(alloc, lower, upper, premises)
}

/// The steps between two record types, leaving out those that change nothing.
#[inline(never)]
fn steps_between(
    alloc: Global,
    lower: &[(String, Ty)],
    upper: &[(String, Ty)],
    premises: Vec<SubProof>,
) -> Result<Option<SubProof>, AllocError>
    requires lower { AreWellFormed (fields_of lower.now) }
    requires upper { AreWellFormed (fields_of upper.now) }
    requires labels { HasLabelsOf (fields_of lower.now) (fields_of upper.now) }
    requires premises { GoesFieldByField (picked (fields_of lower.now) (fields_of upper.now)) (fields_of upper.now) (claims_of premises.items) }
    ensures { IfOk result (λ proof. (d : Dialect) → AreSubProofs (sub_trees_of premises.items) d → LeadsTo proof (record_of (fields_of lower.now)) (record_of (fields_of upper.now)) d) }
{
    let picked = picked_fields(alloc, lower, upper)?;
    let cut = prove_picked(alloc, lower, upper, &picked)?;
    let widened = record_step(alloc, SubRule::RcdDepth, premises, picked, upper)?;
    chain(alloc, cut, widened)
}

/// The steps from a record type to its picked fields, `front`: they are moved to the front, and the others are dropped.
#[inline(never)]
fn prove_picked(
    alloc: Global,
    lower: &[(String, Ty)],
    upper: &[(String, Ty)],
    front: &[(String, Ty)],
) -> Result<Option<SubProof>, AllocError>
    requires lower { AreWellFormed (fields_of lower.now) }
    requires upper { AreWellFormed (fields_of upper.now) }
    requires labels { HasLabelsOf (fields_of lower.now) (fields_of upper.now) }
    requires front { fields_of front.now ≡ picked (fields_of lower.now) (fields_of upper.now) }
    ensures { IfOk result (λ proof. (d : Dialect) → LeadsTo proof (record_of (fields_of lower.now)) (record_of (fields_of front.now)) d) }
{
    if have_same_labels(lower, front) {
        return Ok(None);
    }
    let mut arranged = copy_of_fields(alloc, front)?;
    append_others(&mut arranged, lower, upper)?;
    let fields = copy_of_fields(alloc, lower)?;
    let permuted = record_step(alloc, SubRule::RcdPerm, Vec::new(alloc), fields, &arranged)?;
    let cut = record_step(alloc, SubRule::RcdWidth, Vec::new(alloc), arranged, front)?;
    chain(alloc, permuted, cut)
}

/// For each field of `upper`, a proof that its type is a supertype of that of the field of `lower` with its label.
#[cycle(prove)]
#[inline(never)]
fn prove_fields(
    alloc: Global,
    lower: &[(String, Ty)],
    upper: &[(String, Ty)],
    dialect: Dialect,
) -> Result<Vec<SubProof>, AllocError>
    requires lower { AreWellFormed (fields_of lower.now) }
    requires below { AreBelow (fields_of lower.now) (fields_of upper.now) dialect }
    ensures proofs { IfOk result (λ made. AreSubProofs (sub_trees_of made.items) dialect) }
    ensures claims { IfOk result (λ made. GoesFieldByField (picked (fields_of lower.now) (fields_of upper.now)) (fields_of upper.now) (claims_of made.items)) }
{
    let mut proofs = Vec::with_capacity(alloc, upper.len())?;
    for i in 0..upper.len() {
        let field = &upper[i];
        let Some(ty) = field_type(&field.0, lower, i) else {
            unreachable!();
        };
        let proof = prove(alloc, ty, &field.1, dialect)?;
        proofs.push(proof)?;
    }
    Ok(proofs)
}

/// Copies of the fields with the labels in `asked`, in that order.
#[inline(never)]
fn picked_fields(
    alloc: Global,
    fields: &[(String, Ty)],
    asked: &[(String, Ty)],
) -> Result<Vec<(String, Ty)>, AllocError>
    requires wf { AreWellFormed (fields_of fields.now) }
    requires labels { HasLabelsOf (fields_of fields.now) (fields_of asked.now) }
    ensures { IfOk result (λ made. fields_of made.items ≡ picked (fields_of fields.now) (fields_of asked.now)) }
{
    let mut copies = Vec::with_capacity(alloc, asked.len())?;
    for i in 0..asked.len() {
        let field = &asked[i];
        let Some(ty) = field_type(&field.0, fields, i) else {
            unreachable!();
        };
        let label = field.0.clone()?;
        let copy = copy_of(ty)?;
        copies.push((label, copy))?;
    }
    Ok(copies)
}

/// A tree with this last step.
#[inline(never)]
fn conclude(
    rule: SubRule,
    premises: Vec<SubProof>,
    lower: &Ty,
    upper: &Ty,
) -> Result<SubProof, AllocError>
    ensures { IfOk result (λ made. sub_tree_of made ≡ sub_step rule (typ_of lower.now) (typ_of upper.now) (sub_trees_of premises.items)) }
{
    let lower = copy_of(lower)?;
    let upper = copy_of(upper)?;
    Ok(SubProof {
        rule,
        lower,
        upper,
        premises,
    })
}

/// A proof whose last step is between two record types, or `None` if it would change nothing.
#[inline(never)]
fn record_step(
    alloc: Global,
    rule: SubRule,
    premises: Vec<SubProof>,
    lower: Vec<(String, Ty)>,
    upper: &[(String, Ty)],
) -> Result<Option<SubProof>, AllocError>
    requires lower { AreWellFormed (fields_of lower.items) }
    requires upper { AreWellFormed (fields_of upper.now) }
    requires by_rule { BySubRule rule (claims_of premises.items) (record_of (fields_of lower.items)) (record_of (fields_of upper.now)) }
    ensures { IfOk result (λ made. (d : Dialect) → IsRuleOf rule d → AreSubProofs (sub_trees_of premises.items) d → LeadsTo made (record_of (fields_of lower.items)) (record_of (fields_of upper.now)) d) }
{
    if have_same_labels(&lower, upper) && are_by_refl(&premises) {
        return Ok(None);
    }
    let fields = copy_of_fields(alloc, upper)?;
    let lower = make_record(alloc, lower)?;
    let upper = make_record(alloc, fields)?;
    Ok(Some(SubProof {
        rule,
        lower,
        upper,
        premises,
    }))
}

/// Chains two proofs by transitivity. If one is `None`, the result is the other.
#[inline(never)]
fn chain(
    alloc: Global,
    first: Option<SubProof>,
    second: Option<SubProof>,
) -> Result<Option<SubProof>, AllocError>
    ensures { IfOk result (λ made. (s u t : Typ) (d : Dialect) → LeadsTo first s u d → LeadsTo second u t d → LeadsTo made s t d) }
{
    let Some(first_proof) = first else {
        return Ok(second);
    };
    let Some(second_proof) = second else {
        return Ok(Some(first_proof));
    };
    let joined = by_transitivity(alloc, first_proof, second_proof)?;
    Ok(Some(joined))
}

/// A proof whose last step is S-Trans.
#[inline(never)]
fn by_transitivity(alloc: Global, first: SubProof, second: SubProof) -> Result<SubProof, AllocError>
    ensures { IfOk result (λ made. (s u t : Typ) (d : Dialect) → ProvesBelow (sub_tree_of first) s u d → ProvesBelow (sub_tree_of second) u t d → ProvesBelow (sub_tree_of made) s t d) }
{
    let lower = copy_of(&first.lower)?;
    let upper = copy_of(&second.upper)?;
    let premises = vec![in alloc; first, second]?;
    Ok(SubProof {
        rule: SubRule::Trans,
        lower,
        upper,
        premises,
    })
}
