//! The search for the subterm with an index.
ghost use Rattle.std.specs.Prelude.{◌≡◌, ◌∷◌, []};
ghost use Rattle.lam_rules.specs.TermViews.{term_of, terms_of};
ghost use Rattle.lam_scope.specs.inner.Found.{seek, seek_on, sought_of, terms_at, terms_at_fields};

use lam_rules::Core;

/// The term searched for, or its index counted from the first subterm after those searched.
#[derive(Clone, Copy)]
pub(crate) enum Found<'t> {
    Here(&'t Core),
    Behind(usize),
}

/// Searches a term for the subterm with an index, counted from the term's first subterm.
#[cycle(search)]
#[tactic(auto, using(crate::proofs::Finding::finding))]
pub(crate) fn find_place<'t>(core: &'t Core, number: usize) -> Found<'t>
    ensures { sought_of result ≡ seek (terms_at (term_of core.now)) number }
{
    match core {
        Core::True => at_end(Found::Behind(number), core),
        Core::False => at_end(Found::Behind(number), core),
        Core::Unit => at_end(Found::Behind(number), core),
        Core::Num(_) => at_end(Found::Behind(number), core),
        Core::Var(_) => at_end(Found::Behind(number), core),
        Core::Free(_) => at_end(Found::Behind(number), core),
        Core::Succ(operand) => at_end(find_place(operand, number), core),
        Core::Pred(operand) => at_end(find_place(operand, number), core),
        Core::IsZero(operand) => at_end(find_place(operand, number), core),
        Core::Abs(parts) => at_end(find_place(&parts.1, number), core),
        Core::Ascribe(parts) => at_end(find_place(&parts.0, number), core),
        Core::Proj(parts) => at_end(find_place(&parts.0, number), core),
        Core::Fix(operand) => at_end(find_place(operand, number), core),
        Core::App(parts) => {
            let first = find_place(&parts.0, number);
            at_end(find_behind(first, &parts.1), core)
        }
        Core::Let(parts) => {
            let first = find_place(&parts.0, number);
            at_end(find_behind(first, &parts.1), core)
        }
        Core::If(parts) => {
            let first = find_place(&parts.0, number);
            let second = find_behind(first, &parts.1);
            at_end(find_behind(second, &parts.2), core)
        }
        Core::Record(fields) => at_end(find_in_fields(fields, number), core),
    }
}

/// Continues the search in a term that comes after those searched.
#[cycle(search)]
#[tactic(auto, using(crate::proofs::Finding::finding))]
fn find_behind<'t>(found: Found<'t>, core: &'t Core) -> Found<'t>
    ensures { sought_of result ≡ seek_on (sought_of found.entry) (terms_at (term_of core.now)) }
{
    match found {
        Found::Here(place) => Found::Here(place),
        Found::Behind(number) => find_place(core, number),
    }
}

#[cycle(search)]
#[tactic(auto, using(crate::proofs::Finding::finding))]
fn find_in_fields<'t>(fields: &'t [(String, Core)], number: usize) -> Found<'t>
    ensures { sought_of result ≡ seek (terms_at_fields (terms_of fields.now)) number }
{
    let mut found = Found::Behind(number);
    for i in 0..fields.len() {
        let field = &fields[i];
        found = find_behind(found, &field.1);
    }
    found
}

/// Ends the search at the term itself, which comes after its subterms.
#[tactic(auto, using(crate::proofs::Finding::finding))]
fn at_end<'t>(found: Found<'t>, core: &'t Core) -> Found<'t>
    ensures { sought_of result ≡ seek_on (sought_of found.entry) (term_of core.now ∷ []) }
{
    match found {
        Found::Here(place) => Found::Here(place),
        Found::Behind(0) => Found::Here(core),
        Found::Behind(number) => Found::Behind(number - 1),
    }
}
