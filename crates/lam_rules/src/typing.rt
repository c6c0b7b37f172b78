//! Derivation trees of typing, and a checker for them.

ghost use Rattle.std.specs.Prelude.{◌≡◌, ◌↔◌, IsTrue, Some, None};
ghost use Rattle.std.specs.Option.{option_map};
ghost use Rattle.lam_rules.specs.Parts.{subject_in};
ghost use Rattle.lam_rules.specs.Types.{record_of};
ghost use Rattle.lam_rules.specs.TypeViews.{typ_of, fields_of};
ghost use Rattle.lam_rules.specs.Terms.{Term, record_term};
ghost use Rattle.lam_rules.specs.TermViews.{lent_of, term_of, terms_of};
ghost use Rattle.lam_rules.specs.SubViews.{claim_of, sub_tree_of};
ghost use Rattle.lam_rules.specs.Typing.{IsTyping, IsWellFormedContext, IsWellFormedEntry, IsEntry, Context};
ghost use Rattle.lam_rules.specs.TypingSteps.{first_type, subjects, AreTypings, FitsRule, IsSideProof, IsTypingStep};
ghost use Rattle.lam_rules.specs.TypingViews.{context_of, entries_of, types_concluded, typing_tree_of, typings_of};

use crate::parts::{Part, part_of};
use crate::rules::{Dialect, TypeRule};
use crate::subtyping::{SubProof, check_sub};
use crate::terms::Core;
use crate::types::{Ty, has_field, same, wf};

/// A derivation tree of typing: the rule of its last step, the type in its conclusion, its typing premises in the order
/// of the rule, and the subtyping premise, which only T-Sub has. It need not be a valid proof.
#[derive(Drop)]
pub struct TypeProof {
    pub rule: TypeRule,
    pub ty: Ty,
    pub typing: Vec<TypeProof>,
    pub sub: Option<Box<SubProof>>,
}

/// The context at a subterm: the given entries, from the outermost binder to the innermost, or the entry of one more
/// binder and the entries outside it.
#[derive(Clone, Copy)]
enum Entries<'a> {
    Given(&'a [Option<Ty>]),
    Under(Option<&'a Ty>, &'a Entries<'a>),
}

/// Whether a tree is a valid proof that types this term in this context and dialect. Entries are ordered from the
/// outermost binder, so the last one is that of the variable with index 0.
pub fn check_type(context: &[Option<Ty>], term: &Core, proof: &TypeProof, dialect: Dialect) -> bool
    ensures { IsTrue result ↔ IsTyping (context_of context.now) (term_of term.now) (typing_tree_of proof.now) dialect }
{
    if !wf_context(context) {
        return false;
    }
    check_in(proof, &Entries::Given(context), term, dialect)
}

/// Whether the types of a context have distinct labels, at every depth.
pub fn wf_context(context: &[Option<Ty>]) -> bool
    ensures { IsTrue result ↔ IsWellFormedContext (context_of context.now) }
{
    for entry in context {
        if !wf_entry(entry.as_ref()) {
            return false;
        }
    }
    true
}

fn wf_entry(entry: Option<&Ty>) -> bool
    ensures { IsTrue result ↔ IsWellFormedEntry (lent_of entry.entry) }
{
    match entry {
        Some(ty) => wf(ty),
        None => true,
    }
}

#[cycle(check_type)]
fn check_in(proof: &TypeProof, entries: &Entries, term: &Core, dialect: Dialect) -> bool
    requires { IsWellFormedContext (entries_of entries.now) }
    ensures { IsTrue result ↔ IsTyping (entries_of entries.now) (term_of term.now) (typing_tree_of proof.now) dialect }
{
    if !fits(proof, entries, term) {
        return false;
    }
    if !is_side_proof(&proof.sub, dialect) {
        return false;
    }
    check_premises(&proof.typing, proof.rule, entries, term, dialect)
}

/// Whether each premise of a step by this rule is a valid proof about its part of the term.
#[cycle(check_type)]
fn check_premises(
    premises: &[TypeProof],
    rule: TypeRule,
    entries: &Entries,
    term: &Core,
    dialect: Dialect,
) -> bool
    requires { IsWellFormedContext (entries_of entries.now) }
    ensures { IsTrue result ↔ AreTypings (subjects rule (entries_of entries.now) (term_of term.now) (first_type (typings_of premises.now))) (typings_of premises.now) dialect }
{
    let first = first_type(premises);
    for k in 0..premises.len() {
        let premise = &premises[k];
        let Some(part) = part_of(rule, term, first, k) else {
            return false;
        };
        if !check_part(premise, entries, part, dialect) {
            return false;
        }
    }
    true
}

#[cycle(check_type)]
fn check_part(premise: &TypeProof, entries: &Entries, part: Part, dialect: Dialect) -> bool
    requires { IsWellFormedContext (entries_of entries.now) }
    ensures { let s = subject_in (entries_of entries.now) part.entry in IsTrue result ↔ IsTyping s.context s.term (typing_tree_of premise.now) dialect }
{
    match part {
        Part::Plain(term) => check_in(premise, entries, term, dialect),
        Part::Under(entry, term) => {
            if !wf_entry(entry) {
                return false;
            }
            check_in(premise, &Entries::Under(entry, &*entries), term, dialect)
        }
    }
}

fn is_side_proof(side: &Option<Box<SubProof>>, dialect: Dialect) -> bool
    ensures { IsTrue result ↔ IsSideProof (option_map (λ q. sub_tree_of q.value) side.now) dialect }
{
    match side {
        Some(proof) => check_sub(proof, dialect),
        None => true,
    }
}

/// The type that the first premise concludes.
fn first_type(premises: &[TypeProof]) -> Option<&Ty>
    ensures { lent_of result ≡ first_type (typings_of premises.now) }
{
    match premises.first() {
        Some(first) => Some(&first.ty),
        None => None,
    }
}

/// Whether the last step of a tree follows by its rule from the conclusions of its premises, whether these are proved or not, and
/// the labels of its type are distinct. The context has the order of `check_type`; its labels are not looked at.
pub fn check_type_step(context: &[Option<Ty>], term: &Core, proof: &TypeProof) -> bool
    ensures { IsTrue result ↔ IsTypingStep (context_of context.now) (term_of term.now) (typing_tree_of proof.now) }
{
    fits(proof, &Entries::Given(context), term)
}

fn fits(proof: &TypeProof, entries: &Entries, term: &Core) -> bool
    ensures { IsTrue result ↔ IsTypingStep (entries_of entries.now) (term_of term.now) (typing_tree_of proof.now) }
{
    if !wf(&proof.ty) {
        return false;
    }
    match &proof.sub {
        Some(sub) => match proof.rule {
            TypeRule::Sub => by_sub(&proof.typing, sub, &proof.ty),
            _ => false,
        },
        None => by_rule(&proof.typing, proof.rule, entries, term, &proof.ty),
    }
}

/// T-Sub.
fn by_sub(premises: &[TypeProof], sub: &SubProof, ty: &Ty) -> bool
    ensures { (g : Context) (e : Term) → (IsTrue result ↔ FitsRule TypeRule.Sub (Some (claim_of sub.now)) g e (typ_of ty.now) (types_concluded premises.now)) }
{
    let [premise] = premises else {
        return false;
    };
    if !same(&sub.lower, &premise.ty) {
        return false;
    }
    same(&sub.upper, ty)
}

/// All rules except T-Sub.
fn by_rule(premises: &[TypeProof], rule: TypeRule, entries: &Entries, term: &Core, ty: &Ty) -> bool
    ensures { IsTrue result ↔ FitsRule rule None (entries_of entries.now) (term_of term.now) (typ_of ty.now) (types_concluded premises.now) }
{
    match rule {
        TypeRule::True => by_true(premises, term, ty),
        TypeRule::False => by_false(premises, term, ty),
        TypeRule::If => by_if(premises, term, ty),
        TypeRule::Num => by_num(premises, term, ty),
        TypeRule::Succ => by_succ(premises, term, ty),
        TypeRule::Pred => by_pred(premises, term, ty),
        TypeRule::IsZero => by_is_zero(premises, term, ty),
        TypeRule::Var => by_var(premises, entries, term, ty),
        TypeRule::Abs => by_abs(premises, term, ty),
        TypeRule::App => by_app(premises, term, ty),
        TypeRule::Unit => by_unit(premises, term, ty),
        TypeRule::Ascribe => by_ascribe(premises, term, ty),
        TypeRule::Let => by_let(premises, term, ty),
        TypeRule::Rcd => by_rcd(premises, term, ty),
        TypeRule::Proj => by_proj(premises, term, ty),
        TypeRule::Fix => by_fix(premises, term, ty),
        TypeRule::Sub => false,
    }
}

/// T-True.
fn by_true(premises: &[TypeProof], term: &Core, ty: &Ty) -> bool
    ensures { (g : Context) → (IsTrue result ↔ FitsRule TypeRule.True None g (term_of term.now) (typ_of ty.now) (types_concluded premises.now)) }
{
    if !premises.is_empty() {
        return false;
    }
    let Core::True = term else {
        return false;
    };
    same(ty, &Ty::Bool)
}

/// T-False.
fn by_false(premises: &[TypeProof], term: &Core, ty: &Ty) -> bool
    ensures { (g : Context) → (IsTrue result ↔ FitsRule TypeRule.False None g (term_of term.now) (typ_of ty.now) (types_concluded premises.now)) }
{
    if !premises.is_empty() {
        return false;
    }
    let Core::False = term else {
        return false;
    };
    same(ty, &Ty::Bool)
}

/// T-Num.
fn by_num(premises: &[TypeProof], term: &Core, ty: &Ty) -> bool
    ensures { (g : Context) → (IsTrue result ↔ FitsRule TypeRule.Num None g (term_of term.now) (typ_of ty.now) (types_concluded premises.now)) }
{
    if !premises.is_empty() {
        return false;
    }
    let Core::Num(_) = term else {
        return false;
    };
    same(ty, &Ty::Nat)
}

/// T-Unit.
fn by_unit(premises: &[TypeProof], term: &Core, ty: &Ty) -> bool
    ensures { (g : Context) → (IsTrue result ↔ FitsRule TypeRule.Unit None g (term_of term.now) (typ_of ty.now) (types_concluded premises.now)) }
{
    if !premises.is_empty() {
        return false;
    }
    let Core::Unit = term else {
        return false;
    };
    same(ty, &Ty::Unit)
}

/// T-Var.
fn by_var(premises: &[TypeProof], entries: &Entries, term: &Core, ty: &Ty) -> bool
    ensures { IsTrue result ↔ FitsRule TypeRule.Var None (entries_of entries.now) (term_of term.now) (typ_of ty.now) (types_concluded premises.now) }
{
    if !premises.is_empty() {
        return false;
    }
    let Core::Var(index) = term else {
        return false;
    };
    is_entry(*index, entries, ty)
}

/// Whether the entry of the variable with this index is this type.
fn is_entry(index: usize, entries: &Entries, ty: &Ty) -> bool
    ensures { IsTrue result ↔ IsEntry index (entries_of entries.now) (typ_of ty.now) }
{
    match entries {
        Entries::Given(outer) => is_given_entry(index, outer, ty),
        Entries::Under(inner, rest) => {
            if index == 0 {
                return is_type(*inner, ty);
            }
            is_entry(index - 1, rest, ty)
        }
    }
}

/// Whether the entry of the variable with this index is this type, given entries ordered from the outermost binder.
fn is_given_entry(index: usize, context: &[Option<Ty>], ty: &Ty) -> bool
    ensures { IsTrue result ↔ IsEntry index (context_of context.now) (typ_of ty.now) }
{
    if context.len() <= index {
        return false;
    }
    let entry = &context[context.len() - 1 - index];
    is_type(entry.as_ref(), ty)
}

fn is_type(entry: Option<&Ty>, ty: &Ty) -> bool
    ensures { IsTrue result ↔ (lent_of entry.entry ≡ Some (typ_of ty.now)) }
{
    match entry {
        Some(own) => same(own, ty),
        None => false,
    }
}

/// T-If.
fn by_if(premises: &[TypeProof], term: &Core, ty: &Ty) -> bool
    ensures { (g : Context) → (IsTrue result ↔ FitsRule TypeRule.If None g (term_of term.now) (typ_of ty.now) (types_concluded premises.now)) }
{
    let Core::If(_) = term else {
        return false;
    };
    let [first, second, third] = premises else {
        return false;
    };
    if !same(&first.ty, &Ty::Bool) {
        return false;
    }
    if !same(&second.ty, ty) {
        return false;
    }
    same(&third.ty, ty)
}

/// T-Succ.
fn by_succ(premises: &[TypeProof], term: &Core, ty: &Ty) -> bool
    ensures { (g : Context) → (IsTrue result ↔ FitsRule TypeRule.Succ None g (term_of term.now) (typ_of ty.now) (types_concluded premises.now)) }
{
    let Core::Succ(_) = term else {
        return false;
    };
    let [premise] = premises else {
        return false;
    };
    if !same(&premise.ty, &Ty::Nat) {
        return false;
    }
    same(ty, &Ty::Nat)
}

/// T-Pred.
fn by_pred(premises: &[TypeProof], term: &Core, ty: &Ty) -> bool
    ensures { (g : Context) → (IsTrue result ↔ FitsRule TypeRule.Pred None g (term_of term.now) (typ_of ty.now) (types_concluded premises.now)) }
{
    let Core::Pred(_) = term else {
        return false;
    };
    let [premise] = premises else {
        return false;
    };
    if !same(&premise.ty, &Ty::Nat) {
        return false;
    }
    same(ty, &Ty::Nat)
}

/// T-IsZero.
fn by_is_zero(premises: &[TypeProof], term: &Core, ty: &Ty) -> bool
    ensures { (g : Context) → (IsTrue result ↔ FitsRule TypeRule.IsZero None g (term_of term.now) (typ_of ty.now) (types_concluded premises.now)) }
{
    let Core::IsZero(_) = term else {
        return false;
    };
    let [premise] = premises else {
        return false;
    };
    if !same(&premise.ty, &Ty::Nat) {
        return false;
    }
    same(ty, &Ty::Bool)
}

/// T-Abs.
fn by_abs(premises: &[TypeProof], term: &Core, ty: &Ty) -> bool
    ensures { (g : Context) → (IsTrue result ↔ FitsRule TypeRule.Abs None g (term_of term.now) (typ_of ty.now) (types_concluded premises.now)) }
{
    let Core::Abs(parts) = term else {
        return false;
    };
    let written = &parts.0;
    let Some(parameter) = written else {
        return false;
    };
    let [premise] = premises else {
        return false;
    };
    let Ty::Arrow(from, to) = ty else {
        return false;
    };
    if !same(from, parameter) {
        return false;
    }
    same(to, &premise.ty)
}

/// T-App.
fn by_app(premises: &[TypeProof], term: &Core, ty: &Ty) -> bool
    ensures { (g : Context) → (IsTrue result ↔ FitsRule TypeRule.App None g (term_of term.now) (typ_of ty.now) (types_concluded premises.now)) }
{
    let Core::App(_) = term else {
        return false;
    };
    let [first, second] = premises else {
        return false;
    };
    let Ty::Arrow(from, to) = &first.ty else {
        return false;
    };
    if !same(from, &second.ty) {
        return false;
    }
    same(to, ty)
}

/// T-Ascribe.
fn by_ascribe(premises: &[TypeProof], term: &Core, ty: &Ty) -> bool
    ensures { (g : Context) → (IsTrue result ↔ FitsRule TypeRule.Ascribe None g (term_of term.now) (typ_of ty.now) (types_concluded premises.now)) }
{
    let Core::Ascribe(parts) = term else {
        return false;
    };
    let written = &parts.1;
    let Some(ascribed) = written else {
        return false;
    };
    let [premise] = premises else {
        return false;
    };
    if !same(&premise.ty, ascribed) {
        return false;
    }
    same(ty, ascribed)
}

/// T-Let.
fn by_let(premises: &[TypeProof], term: &Core, ty: &Ty) -> bool
    ensures { (g : Context) → (IsTrue result ↔ FitsRule TypeRule.Let None g (term_of term.now) (typ_of ty.now) (types_concluded premises.now)) }
{
    let Core::Let(_) = term else {
        return false;
    };
    let [_, second] = premises else {
        return false;
    };
    same(&second.ty, ty)
}

/// T-Rcd.
fn by_rcd(premises: &[TypeProof], term: &Core, ty: &Ty) -> bool
    ensures { (g : Context) → (IsTrue result ↔ FitsRule TypeRule.Rcd None g (term_of term.now) (typ_of ty.now) (types_concluded premises.now)) }
{
    let Core::Record(terms) = term else {
        return false;
    };
    let Ty::Record(fields) = ty else {
        return false;
    };
    by_fields(premises, terms, &fields.items)
}

/// T-Rcd, field by field.
fn by_fields(premises: &[TypeProof], terms: &[(String, Core)], fields: &[(String, Ty)]) -> bool
    ensures { (g : Context) → (IsTrue result ↔ FitsRule TypeRule.Rcd None g (record_term (terms_of terms.now)) (record_of (fields_of fields.now)) (types_concluded premises.now)) }
{
    if terms.len() != fields.len() {
        return false;
    }
    if terms.len() != premises.len() {
        return false;
    }
    for i in 0..premises.len() {
        let premise = &premises[i];
        let term = &terms[i];
        let field = &fields[i];
        if term.0.as_str() != field.0.as_str() {
            return false;
        }
        if !same(&premise.ty, &field.1) {
            return false;
        }
    }
    true
}

/// T-Proj.
fn by_proj(premises: &[TypeProof], term: &Core, ty: &Ty) -> bool
    ensures { (g : Context) → (IsTrue result ↔ FitsRule TypeRule.Proj None g (term_of term.now) (typ_of ty.now) (types_concluded premises.now)) }
{
    let Core::Proj(parts) = term else {
        return false;
    };
    let [premise] = premises else {
        return false;
    };
    let Ty::Record(fields) = &premise.ty else {
        return false;
    };
    has_field(&parts.1, ty, &fields.items)
}

/// T-Fix.
fn by_fix(premises: &[TypeProof], term: &Core, ty: &Ty) -> bool
    ensures { (g : Context) → (IsTrue result ↔ FitsRule TypeRule.Fix None g (term_of term.now) (typ_of ty.now) (types_concluded premises.now)) }
{
    let Core::Fix(_) = term else {
        return false;
    };
    let [premise] = premises else {
        return false;
    };
    let Ty::Arrow(from, to) = &premise.ty else {
        return false;
    };
    if !same(from, ty) {
        return false;
    }
    same(to, ty)
}
