//! Hover.
ghost use Rattle.std.specs.Prelude.{◌≤◌, ◌∷◌, [], length, IfOk, IfSome};
ghost use Rattle.std.specs.Option.{option_map};
ghost use Rattle.lam_scope.specs.Tables.{table as table_of};
ghost use Rattle.lam_syntax.specs.Views.{command_of};
ghost use Rattle.lam_typing.specs.Answers.{answers, AllStandIn};
ghost use Rattle.lam_query.specs.Analyses.{IsAnalysisOf, dialect_of};
ghost use Rattle.lam_query.specs.Hovers.{IsShownIn};
ghost use Rattle.lam_query.specs.Within.{IsSpanOfText};
ghost use Rattle.lam_query.specs.inner.OnePiece.{IsShownInCommand};
ghost use Rattle.lam_query.specs.Views.{shown_of};

use crate::analyses::Analysis;
use crate::answers::Hover;
use crate::reading::command_in;
use lam_rules::{Dialect, TyNo, TyTable};
use lam_scope::bind;
use lam_syntax::Command;
use std::alloc::{AllocError, Global};
use std::slice;

/// Returns the least type of the innermost term around a byte offset, or `None` if there is no such term, it has no type, or some
/// type of the text is over the size limit.
pub fn hover(
    alloc: Global,
    text: &str,
    offset: usize,
    dialect: Dialect,
) -> Result<Option<Hover>, AllocError>
    ensures shown { IfOk result (λ found. IsShownIn text.now offset (option_map shown_of found) dialect) }
    ensures whole_characters { IfOk result (λ found. IfSome found (λ h. IsSpanOfText text.now h.span)) }
{
    Analysis::new(alloc, text, dialect)?.hover(alloc, text, offset)
}

impl Analysis {
    /// Returns the least type of the innermost term around a byte offset, or `None` if there is no such term, it has no type, or
    /// some type of the text is over the size limit.
    pub fn hover(
        &self,
        alloc: Global,
        text: &str,
        offset: usize,
    ) -> Result<Option<Hover>, AllocError>
        requires { IsAnalysisOf text.now self.now }
        ensures shown { IfOk result (λ found. IsShownIn text.now offset (option_map shown_of found) (dialect_of self.now)) }
        ensures whole_characters { IfOk result (λ found. IfSome found (λ h. IsSpanOfText text.now h.span)) }
    {
        if self.row_faults.large.is_some() {
            return Ok(None);
        }
        let piece = self.piece_around(text, offset);
        let Some(types) = self.rows[piece.number].types() else {
            return Ok(None);
        };
        let Some(command) = command_in(alloc, piece.text, piece.start)? else {
            return Ok(None);
        };
        shown_in(alloc, &command, offset, self.types.table(), types)
    }
}

/// Returns the hover at an offset in a command whose terms have these types.
fn shown_in(
    alloc: Global,
    command: &Command,
    offset: usize,
    table: &TyTable,
    types: &[Option<TyNo>],
) -> Result<Option<Hover>, AllocError>
    requires stand { AllStandIn table.now types.now }
    requires inside { length (table_of (command_of command.now ∷ [])).places ≤ length types.now }
    ensures { IfOk result (λ found. IsShownInCommand (command_of command.now) 0 (answers table.now types.now) offset (option_map shown_of found)) }
{
    let scopes = bind(alloc, slice::from_ref(command))?;
    let Some(place) = scopes.place_at(offset) else {
        return Ok(None);
    };
    let Some(number) = types[place.0] else {
        return Ok(None);
    };
    let shown = table.text(number)?;
    Ok(Some(Hover {
        text: shown,
        span: scopes.span_of(place),
    }))
}
