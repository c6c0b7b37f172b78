//! The analysis of a document: a walk over its subterms finds their types, which with the written types give the context entries
//! of its binders.

ghost use Rattle.std.specs.Prelude.{◌≡◌, ◌+◌, List, [], take, IfOk, IfErr};
ghost use Rattle.lam_scope.specs.Places.{Statement, places_of};
ghost use Rattle.lam_scope.specs.Views.{statements_of, origins_of};
ghost use Rattle.lam_scope.specs.declared.numbers.Origin.{Origin};
ghost use Rattle.lam_typing.specs.Walk.{IsSoundWalk};
ghost use Rattle.lam_typing.specs.Typings.{IsAnalysis, IsTypingOf, AreEntries, dialect_of, IsFaultOf};
ghost use Rattle.lam_typing.specs.inner.Ends.{up_to, Begins, AreSourcesOf, AreWellFormedSources, Completes, IsEndOf};
ghost use Rattle.lam_typing.specs.declared.fault.TypingFault.TheVariants.{Memory};

use crate::checker::TypeChecker;
use crate::entries::{number_entries, sources_of};
use crate::fault::TypingFault;
use crate::noting::Source;
use crate::typing::Typing;
use crate::walking::{Leaves, Stop, walk_statements};
use lam_rules::{Dialect, Shape, TyTable};
use lam_scope::{Place, Resolved};
use lam_sub::Verdicts;
use std::alloc::{AllocError, Global};

/// Analyses all subterms of a document.
pub fn analyse(alloc: Global, resolved: &Resolved, dialect: Dialect) -> Result<Typing, TypingFault>
    ensures analysis { IfOk result (λ typing. IsAnalysis (places_of [] (statements_of resolved.now)) typing dialect) }
    ensures of { IfOk result (λ typing. IsTypingOf (statements_of resolved.now) typing) }
    ensures entries { IfOk result (λ typing. AreEntries (statements_of resolved.now) (origins_of resolved.now) typing) }
    ensures dialect { IfOk result (λ typing. dialect_of typing ≡ dialect) }
    ensures fault { IfErr result (λ fault. IsFaultOf fault (places_of [] (statements_of resolved.now)) dialect) }
{
    analyse_up_to(alloc, resolved, None, dialect)
}

/// Analyses the subterms up to and including a given one.
pub fn analyse_to(
    alloc: Global,
    resolved: &Resolved,
    place: Place,
    dialect: Dialect,
) -> Result<Typing, TypingFault>
    ensures analysis { IfOk result (λ typing. IsAnalysis (take (place.0 + 1) (places_of [] (statements_of resolved.now))) typing dialect) }
    ensures of { IfOk result (λ typing. IsTypingOf (statements_of resolved.now) typing) }
    ensures entries { IfOk result (λ typing. AreEntries (statements_of resolved.now) (origins_of resolved.now) typing) }
    ensures dialect { IfOk result (λ typing. dialect_of typing ≡ dialect) }
    ensures fault { IfErr result (λ fault. IsFaultOf fault (take (place.0 + 1) (places_of [] (statements_of resolved.now))) dialect) }
{
    analyse_up_to(alloc, resolved, Some(place), dialect)
}

fn analyse_up_to(
    alloc: Global,
    resolved: &Resolved,
    last: Option<Place>,
    dialect: Dialect,
) -> Result<Typing, TypingFault>
    ensures analysis { IfOk result (λ typing. IsAnalysis (up_to last (places_of [] (statements_of resolved.now))) typing dialect) }
    ensures of { IfOk result (λ typing. IsTypingOf (statements_of resolved.now) typing) }
    ensures entries { IfOk result (λ typing. AreEntries (statements_of resolved.now) (origins_of resolved.now) typing) }
    ensures dialect { IfOk result (λ typing. dialect_of typing ≡ dialect) }
    ensures fault { IfErr result (λ fault. IsFaultOf fault (up_to last (places_of [] (statements_of resolved.now))) dialect) }
{
    // Before the walk, so that the notes that this needs are freed before memory use peaks.
    let Ok(sources) = sources_of(alloc, resolved) else {
        return Err(TypingFault::Memory);
    };
    let Ok(mut walk) = start(alloc, last, dialect) else {
        return Err(TypingFault::Memory);
    };
    match walk_statements(&mut walk, resolved.statements()) {
        Ok(()) => complete(alloc, walk, &sources),
        Err(stop) => end(alloc, walk, stop, &sources),
    }
}

/// Returns the result of a walk that ended early: the typing if all that was requested is found, or else the error.
fn end(
    alloc: Global,
    walk: TypeChecker,
    stop: Stop,
    sources: &[Option<Source<'_>>],
) -> Result<Typing, TypingFault>
    requires sound { IsSoundWalk walk }
    requires wf { AreWellFormedSources sources.now }
    ensures { (ss : List Statement) (origins : List Origin) → AreSourcesOf ss origins sources.now → IsEndOf stop walk ss origins result }
{
    match stop {
        Stop::Enough => complete(alloc, walk, sources),
        Stop::TooLarge => Err(TypingFault::TooLarge(Place(walk.found.len()))),
        Stop::Memory => Err(TypingFault::Memory),
    }
}

/// Returns what a walk found, with the context entries of the document's binders, taken from `sources`. Frees the rest of the
/// walk.
fn complete(
    alloc: Global,
    walk: TypeChecker,
    sources: &[Option<Source<'_>>],
) -> Result<Typing, TypingFault>
    requires sound { IsSoundWalk walk }
    requires wf { AreWellFormedSources sources.now }
    ensures completes { IfOk result (λ typing. (ss : List Statement) (origins : List Origin) → AreSourcesOf ss origins sources.now → Completes walk ss origins typing) }
    ensures fault { IfErr result (λ fault. fault ≡ Memory) }
{
    let TypeChecker {
        mut table,
        verdicts,
        leaves: _leaves,
        entries,
        mut found,
        blames,
        last: _last,
    } = walk;
    let dialect = verdicts.dialect;
    // The memo of subtyping is of no more use, and up to half of a vector that grew is spare.
    drop(verdicts);
    drop(entries);
    found.shrink_to_fit();
    let Ok(entries) = number_entries(alloc, &mut table, &found, sources) else {
        return Err(TypingFault::Memory);
    };
    Ok(Typing {
        table,
        found,
        entries,
        blames,
        dialect,
    })
}

/// A walk that has found nothing yet.
pub(crate) fn start(
    alloc: Global,
    last: Option<Place>,
    dialect: Dialect,
) -> Result<TypeChecker, AllocError>
    ensures sound { IfOk result (λ walk. IsSoundWalk walk) }
    ensures begins { IfOk result (λ walk. Begins walk last) }
    ensures dialect { IfOk result (λ walk. walk.verdicts.dialect ≡ dialect) }
{
    let mut table = TyTable::new(alloc);
    let boolean = table.intern(Shape::Bool)?;
    let natural = table.intern(Shape::Nat)?;
    let unit = table.intern(Shape::Unit)?;
    Ok(TypeChecker {
        table,
        verdicts: Verdicts::new(alloc, dialect),
        leaves: Leaves {
            boolean,
            natural,
            unit,
        },
        entries: Vec::new(alloc),
        found: Vec::new(alloc),
        blames: Vec::new(alloc),
        last,
    })
}
