//! What the premises of a step of typing are about.

ghost use Rattle.std.specs.Prelude.{◌≡◌, [], ◌∷◌, slice_get};
ghost use Rattle.std.specs.Option.{option_map};
ghost use Rattle.lam_rules.specs.Parts.{subject_in};
ghost use Rattle.lam_rules.specs.TermViews.{lent_of, term_of, terms_of};
ghost use Rattle.lam_rules.specs.Typing.{Context};
ghost use Rattle.lam_rules.specs.TypingSteps.{about, fields_in, parts_in, subjects};

use crate::rules::TypeRule;
use crate::terms::Core;
use crate::types::Ty;

/// What a premise of a step is about: a term in the context of the step, or under one more binder, with this entry.
#[derive(Clone, Copy)]
pub enum Part<'a> {
    Plain(&'a Core),
    Under(Option<&'a Ty>, &'a Core),
}

/// Returns the part of the term that premise `k` of a step by this rule is about, if there is one; for T-Sub that is the term itself.
/// `first` is the type that the first premise concludes, if there is one.
pub fn part_of<'t>(
    rule: TypeRule,
    term: &'t Core,
    first: Option<&'t Ty>,
    k: usize,
) -> Option<Part<'t>>
    ensures { (g : Context) → option_map (subject_in g) result ≡ slice_get (subjects rule g (term_of term.now) (lent_of first.entry)) k }
{
    match rule {
        TypeRule::Sub => only(term, k),
        _ => immediate_part(term, first, k),
    }
}

/// The same for all rules except T-Sub.
fn immediate_part<'t>(term: &'t Core, first: Option<&'t Ty>, k: usize) -> Option<Part<'t>>
    ensures { (g : Context) → option_map (subject_in g) result ≡ slice_get (parts_in g (term_of term.now) (lent_of first.entry)) k }
{
    match term {
        Core::If(parts) => of_three(&parts.0, &parts.1, &parts.2, k),
        Core::Succ(part) => only(part, k),
        Core::Pred(part) => only(part, k),
        Core::IsZero(part) => only(part, k),
        Core::Abs(parts) => only_under(parts.0.as_ref(), &parts.1, k),
        Core::App(parts) => of_two(&parts.0, &parts.1, k),
        Core::Ascribe(parts) => only(&parts.0, k),
        Core::Let(parts) => of_let(&parts.0, first, &parts.1, k),
        Core::Record(fields) => of_fields(fields, k),
        Core::Proj(parts) => only(&parts.0, k),
        Core::Fix(part) => only(part, k),
        Core::True => None,
        Core::False => None,
        Core::Num(_) => None,
        Core::Var(_) => None,
        Core::Free(_) => None,
        Core::Unit => None,
    }
}

fn only(part: &Core, k: usize) -> Option<Part>
    ensures { (g : Context) → option_map (subject_in g) result ≡ slice_get (about g (term_of part.now) ∷ []) k }
{
    if k == 0 {
        return Some(Part::Plain(part));
    }
    None
}

/// The part under a binder with this entry.
fn only_under<'t>(entry: Option<&'t Ty>, body: &'t Core, k: usize) -> Option<Part<'t>>
    ensures { (g : Context) → option_map (subject_in g) result ≡ slice_get (about (lent_of entry.entry ∷ g) (term_of body.now) ∷ []) k }
{
    if k == 0 {
        return Some(Part::Under(entry, body));
    }
    None
}

/// The name of a let has the type that the first premise concludes.
fn of_let<'t>(bound: &'t Core, first: Option<&'t Ty>, body: &'t Core, k: usize) -> Option<Part<'t>>
    ensures { (g : Context) → option_map (subject_in g) result
        ≡ slice_get (about g (term_of bound.now) ∷ about (lent_of first.entry ∷ g) (term_of body.now) ∷ []) k }
{
    if k == 0 {
        return Some(Part::Plain(bound));
    }
    only_under(first, body, k - 1)
}

fn of_two<'t>(first: &'t Core, second: &'t Core, k: usize) -> Option<Part<'t>>
    ensures { (g : Context) → option_map (subject_in g) result
        ≡ slice_get (about g (term_of first.now) ∷ about g (term_of second.now) ∷ []) k }
{
    if k == 0 {
        return Some(Part::Plain(first));
    }
    only(second, k - 1)
}

fn of_three<'t>(first: &'t Core, second: &'t Core, third: &'t Core, k: usize) -> Option<Part<'t>>
    ensures { (g : Context) → option_map (subject_in g) result
        ≡ slice_get (about g (term_of first.now) ∷ about g (term_of second.now) ∷ about g (term_of third.now) ∷ []) k }
{
    if k == 0 {
        return Some(Part::Plain(first));
    }
    of_two(second, third, k - 1)
}

fn of_fields(fields: &[(String, Core)], k: usize) -> Option<Part>
    ensures { (g : Context) → option_map (subject_in g) result ≡ slice_get (fields_in g (terms_of fields.now)) k }
{
    match fields.get(k) {
        Some(field) => Some(Part::Plain(&field.1)),
        None => None,
    }
}
