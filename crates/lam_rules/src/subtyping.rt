//! Derivation trees of subtyping, and a checker for them.

ghost use Rattle.std.specs.Prelude.{◌↔◌, IsTrue};
ghost use Rattle.lam_rules.specs.Types.{IsWellFormed, AreWellFormed, Includes};
ghost use Rattle.lam_rules.specs.TypeViews.{typ_of, fields_of};
ghost use Rattle.lam_rules.specs.Subtyping.{BySubRule, BeginsWith, GoesFieldByField, IsPermutation, IsRuleOf, IsSubProof, AreSubProofs};
ghost use Rattle.lam_rules.specs.SubSteps.{IsSubStep};
ghost use Rattle.lam_rules.specs.SubViews.{claims_of, sub_tree_of, sub_trees_of};

use crate::rules::{Dialect, SubRule};
use crate::types::{Ty, has_field, same, wf};

/// A derivation tree of subtyping: the rule of its last step, the two types in its conclusion, and its premises in the
/// order of the rule. It need not be a valid proof.
#[derive(Drop)]
pub struct SubProof {
    pub rule: SubRule,
    pub lower: Ty,
    pub upper: Ty,
    pub premises: Vec<SubProof>,
}

/// Whether a tree is a valid proof in this dialect.
#[cycle(check_sub)]
pub fn check_sub(proof: &SubProof, dialect: Dialect) -> bool
    ensures { IsTrue result ↔ IsSubProof (sub_tree_of proof.now) dialect }
{
    if !check_sub_step(proof, dialect) {
        return false;
    }
    check_subs(&proof.premises, dialect)
}

/// Whether the last step of a tree follows by its rule, one of this dialect, from the conclusions of its premises, whether these are
/// proved or not, and the labels of both types are distinct.
pub fn check_sub_step(proof: &SubProof, dialect: Dialect) -> bool
    ensures { IsTrue result ↔ IsSubStep (sub_tree_of proof.now) dialect }
{
    if !wf(&proof.lower) {
        return false;
    }
    if !wf(&proof.upper) {
        return false;
    }
    if !is_rule_of(proof.rule, dialect) {
        return false;
    }
    follows(proof.rule, &proof.premises, &proof.lower, &proof.upper)
}

#[cycle(check_sub)]
fn check_subs(proofs: &[SubProof], dialect: Dialect) -> bool
    ensures { IsTrue result ↔ AreSubProofs (sub_trees_of proofs.now) dialect }
{
    for proof in proofs {
        if !check_sub(proof, dialect) {
            return false;
        }
    }
    true
}

fn is_rule_of(rule: SubRule, dialect: Dialect) -> bool
    ensures { IsTrue result ↔ IsRuleOf rule dialect }
{
    match rule {
        SubRule::BoolNat => match dialect {
            Dialect::One => false,
            Dialect::Two => true,
        },
        _ => true,
    }
}

/// Whether the conclusion follows by the rule from the conclusions of the premises.
fn follows(rule: SubRule, premises: &[SubProof], lower: &Ty, upper: &Ty) -> bool
    requires lower { IsWellFormed (typ_of lower.now) }
    requires upper { IsWellFormed (typ_of upper.now) }
    ensures { IsTrue result ↔ BySubRule rule (claims_of premises.now) (typ_of lower.now) (typ_of upper.now) }
{
    match rule {
        SubRule::Refl => by_refl(premises, lower, upper),
        SubRule::Trans => by_trans(premises, lower, upper),
        SubRule::Top => by_top(premises, lower, upper),
        SubRule::Arrow => by_arrow(premises, lower, upper),
        SubRule::RcdWidth => by_width(premises, lower, upper),
        SubRule::RcdDepth => by_depth(premises, lower, upper),
        SubRule::RcdPerm => by_permutation(premises, lower, upper),
        SubRule::BoolNat => by_bool_nat(premises, lower, upper),
    }
}

/// S-Refl.
fn by_refl(premises: &[SubProof], lower: &Ty, upper: &Ty) -> bool
    ensures { IsTrue result ↔ BySubRule SubRule.Refl (claims_of premises.now) (typ_of lower.now) (typ_of upper.now) }
{
    if !premises.is_empty() {
        return false;
    }
    same(lower, upper)
}

/// S-Trans.
fn by_trans(premises: &[SubProof], lower: &Ty, upper: &Ty) -> bool
    ensures { IsTrue result ↔ BySubRule SubRule.Trans (claims_of premises.now) (typ_of lower.now) (typ_of upper.now) }
{
    let [first, second] = premises else {
        return false;
    };
    if !same(&first.lower, lower) {
        return false;
    }
    if !same(&first.upper, &second.lower) {
        return false;
    }
    same(&second.upper, upper)
}

/// S-Top.
fn by_top(premises: &[SubProof], _lower: &Ty, upper: &Ty) -> bool
    ensures { IsTrue result ↔ BySubRule SubRule.Top (claims_of premises.now) (typ_of _lower.now) (typ_of upper.now) }
{
    if !premises.is_empty() {
        return false;
    }
    same(upper, &Ty::Top)
}

/// S-Arrow. Parameters are contravariant.
fn by_arrow(premises: &[SubProof], lower: &Ty, upper: &Ty) -> bool
    ensures { IsTrue result ↔ BySubRule SubRule.Arrow (claims_of premises.now) (typ_of lower.now) (typ_of upper.now) }
{
    let [first, second] = premises else {
        return false;
    };
    let Ty::Arrow(lower_parameter, lower_outcome) = lower else {
        return false;
    };
    let Ty::Arrow(upper_parameter, upper_outcome) = upper else {
        return false;
    };
    if !same(&first.lower, upper_parameter) {
        return false;
    }
    if !same(&first.upper, lower_parameter) {
        return false;
    }
    if !same(&second.lower, lower_outcome) {
        return false;
    }
    same(&second.upper, upper_outcome)
}

/// S-RcdWidth.
fn by_width(premises: &[SubProof], lower: &Ty, upper: &Ty) -> bool
    ensures { IsTrue result ↔ BySubRule SubRule.RcdWidth (claims_of premises.now) (typ_of lower.now) (typ_of upper.now) }
{
    if !premises.is_empty() {
        return false;
    }
    let Ty::Record(fields) = lower else {
        return false;
    };
    let Ty::Record(first_fields) = upper else {
        return false;
    };
    begins_with(&fields.items, &first_fields.items)
}

/// S-RcdDepth.
fn by_depth(premises: &[SubProof], lower: &Ty, upper: &Ty) -> bool
    ensures { IsTrue result ↔ BySubRule SubRule.RcdDepth (claims_of premises.now) (typ_of lower.now) (typ_of upper.now) }
{
    let Ty::Record(lower_fields) = lower else {
        return false;
    };
    let Ty::Record(upper_fields) = upper else {
        return false;
    };
    goes_field_by_field(&lower_fields.items, &upper_fields.items, premises)
}

/// S-RcdPerm.
fn by_permutation(premises: &[SubProof], lower: &Ty, upper: &Ty) -> bool
    requires lower { IsWellFormed (typ_of lower.now) }
    requires upper { IsWellFormed (typ_of upper.now) }
    ensures { IsTrue result ↔ BySubRule SubRule.RcdPerm (claims_of premises.now) (typ_of lower.now) (typ_of upper.now) }
{
    if !premises.is_empty() {
        return false;
    }
    let Ty::Record(fields) = lower else {
        return false;
    };
    let Ty::Record(others) = upper else {
        return false;
    };
    is_permutation(&fields.items, &others.items)
}

/// S-BoolNat.
fn by_bool_nat(premises: &[SubProof], lower: &Ty, upper: &Ty) -> bool
    ensures { IsTrue result ↔ BySubRule SubRule.BoolNat (claims_of premises.now) (typ_of lower.now) (typ_of upper.now) }
{
    if !premises.is_empty() {
        return false;
    }
    if !same(lower, &Ty::Bool) {
        return false;
    }
    same(upper, &Ty::Nat)
}

fn begins_with(fields: &[(String, Ty)], first_fields: &[(String, Ty)]) -> bool
    ensures { IsTrue result ↔ BeginsWith (fields_of fields.now) (fields_of first_fields.now) }
{
    if fields.len() < first_fields.len() {
        return false;
    }
    for i in 0..first_fields.len() {
        let field = &fields[i];
        let first_field = &first_fields[i];
        if field.0.as_str() != first_field.0.as_str() {
            return false;
        }
        if !same(&field.1, &first_field.1) {
            return false;
        }
    }
    true
}

fn goes_field_by_field(
    lower: &[(String, Ty)],
    upper: &[(String, Ty)],
    premises: &[SubProof],
) -> bool
    ensures { IsTrue result ↔ GoesFieldByField (fields_of lower.now) (fields_of upper.now) (claims_of premises.now) }
{
    if lower.len() != upper.len() {
        return false;
    }
    if lower.len() != premises.len() {
        return false;
    }
    for i in 0..lower.len() {
        let lower_field = &lower[i];
        let upper_field = &upper[i];
        let premise = &premises[i];
        if lower_field.0.as_str() != upper_field.0.as_str() {
            return false;
        }
        if !same(&premise.lower, &lower_field.1) {
            return false;
        }
        if !same(&premise.upper, &upper_field.1) {
            return false;
        }
    }
    true
}

/// Since labels on each side are distinct, it is enough that each side includes the fields of the other.
fn is_permutation(fields: &[(String, Ty)], others: &[(String, Ty)]) -> bool
    requires fields { AreWellFormed (fields_of fields.now) }
    requires others { AreWellFormed (fields_of others.now) }
    ensures { IsTrue result ↔ IsPermutation (fields_of fields.now) (fields_of others.now) }
{
    if !includes(fields, others) {
        return false;
    }
    includes(others, fields)
}

fn includes(fields: &[(String, Ty)], others: &[(String, Ty)]) -> bool
    ensures { IsTrue result ↔ Includes (fields_of fields.now) (fields_of others.now) }
{
    for field in fields {
        if !has_field(&field.0, &field.1, others) {
            return false;
        }
    }
    true
}
