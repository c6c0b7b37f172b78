//! Derivations of the types that a hover shows.
ghost use Rattle.std.specs.Prelude.{◌≡◌, None, All, IfOk, IfSome};
ghost use Rattle.std.specs.Option.{option_map};
ghost use Rattle.lam_syntax.specs.Views.{command_of};
ghost use Rattle.lam_query.specs.Analyses.{IsAnalysisOf, dialect_of};
ghost use Rattle.lam_query.specs.Derivations.{IsDerivedIn};
ghost use Rattle.lam_query.specs.inner.Around.{IsCommandAround};
ghost use Rattle.lam_query.specs.Views.{derivation_of, StepStandsIn};

use crate::analyses::Analysis;
use crate::answers::Derivation;
use crate::binders::inner_binders;
use crate::contexts::push_entries;
use crate::pieces::PieceAt;
use crate::reading::command_in;
use crate::steps::steps_of_proof;
use crate::typings::types_of;
use lam_rules::Dialect;
use lam_scope::bind;
use lam_syntax::Command;
use std::alloc::{AllocError, Global};

/// Returns a derivation of the type that `hover` shows at a byte offset, or `None` where it shows none.
pub fn derivation(
    alloc: Global,
    text: &str,
    offset: usize,
    dialect: Dialect,
) -> Result<Option<Derivation>, AllocError>
    ensures derived { IfOk result (λ found. IsDerivedIn text.now offset (option_map derivation_of found) dialect) }
    ensures whole_characters { IfOk result (λ found. IfSome found (λ d. All (StepStandsIn text.now) d.steps.items)) }
{
    Analysis::new(alloc, text, dialect)?.derivation(alloc, text, offset)
}

impl Analysis {
    /// Returns a derivation of the type that `hover` shows at a byte offset, or `None` where it shows none. The command is parsed
    /// and typed again.
    pub fn derivation(
        &self,
        alloc: Global,
        text: &str,
        offset: usize,
    ) -> Result<Option<Derivation>, AllocError>
        requires { IsAnalysisOf text.now self.now }
        ensures derived { IfOk result (λ found. IsDerivedIn text.now offset (option_map derivation_of found) (dialect_of self.now)) }
        ensures whole_characters { IfOk result (λ found. IfSome found (λ d. All (StepStandsIn text.now) d.steps.items)) }
    {
        if self.row_faults.large.is_some() {
            return Ok(None);
        }
        let piece = self.piece_around(text, offset);
        match command_in(alloc, piece.text, piece.start)? {
            Some(command) => self.derivation_in(alloc, text, offset, piece, command),
            None => Ok(None),
        }
    }

    /// The same, given the command of the piece there, and that no type of the text is over the size limit.
    fn derivation_in(
        &self,
        alloc: Global,
        text: &str,
        offset: usize,
        piece: PieceAt<'_>,
        command: Command,
    ) -> Result<Option<Derivation>, AllocError>
        requires of { IsAnalysisOf text.now self.now }
        requires small { self.now.row_faults.large ≡ None }
        requires there { IsCommandAround text.now offset self.now piece (command_of command) }
        ensures derived { IfOk result (λ found. IsDerivedIn text.now offset (option_map derivation_of found) (dialect_of self.now)) }
        ensures whole_characters { IfOk result (λ found. IfSome found (λ d. All (StepStandsIn text.now) d.steps.items)) }
    {
        let alone = self.alone(alloc, piece.number, command)?;
        let scopes = bind(alloc, &alone.commands)?;
        let Some(types) = types_of(alloc, &alone.commands, &scopes, self.dialect)? else {
            return Ok(None);
        };
        let Some(place) = scopes.place_at(offset) else {
            return Ok(None);
        };
        let Some(proof) = types.typing.prove_at(alloc, &types.resolved, place)? else {
            return Ok(None);
        };
        let outer = self.binders_before(alloc, text, piece.number)?;
        let inner = inner_binders(alloc, &scopes, Some(&types.typing), place, alone.names)?;
        let mut context = Vec::new(alloc);
        push_entries(alloc, self.types.table(), &outer, &mut context)?;
        push_entries(alloc, types.typing.table(), &inner, &mut context)?;
        let steps = steps_of_proof(alloc, &scopes, place, &proof)?;
        Ok(Some(Derivation { context, steps }))
    }
}
