//! Completion.
ghost use Rattle.std.specs.Prelude.{◌≡◌, ◌+◌, ◌<◌, ◌^◌, ◌∷◌, [], ℕ, List, length, map, None, IfOk, IfSome, IfNone};
ghost use Rattle.lam_token.specs.Lexeme.{Lexeme};
ghost use Rattle.lam_token.specs.Cut.{AreTokensOf};
ghost use Rattle.lam_rules.specs.Types.{Label};
ghost use Rattle.lam_syntax.specs.Answers.{pieces_of};
ghost use Rattle.lam_syntax.specs.Trees.{CommandTree};
ghost use Rattle.lam_syntax.specs.Views.{command_of};
ghost use Rattle.lam_scope.specs.PlacedTerms.{projection_at};
ghost use Rattle.lam_query.specs.Analyses.{IsAnalysisOf, dialect_of};
ghost use Rattle.lam_query.specs.Completions.{IsProjected, AreItems, AreCompletions};
ghost use Rattle.lam_query.specs.Commands.{AreCommandsOf};
ghost use Rattle.lam_query.specs.inner.Around.{IsPieceAround};
ghost use Rattle.lam_query.specs.inner.Listed.{IsListedBehind};
ghost use Rattle.lam_query.specs.Views.{item_of};

use crate::analyses::Analysis;
use crate::answers::Item;
use crate::cursor::{dot_before, touched_word};
use crate::fields::fields_of;
use crate::pieces::PieceAt;
use crate::reading::{command_in, command_with_label};
use lam_rules::Dialect;
use lam_scope::bind;
use lam_syntax::Command;
use std::alloc::{AllocError, Global};

/// Returns the completions at a byte offset, sorted by the bytes of their labels: after a dot, the labels whose projections have
/// a type; on a variable, the names in scope (`textDocument/completion`, LSP 3.17). Nothing is listed after a dot if some type of
/// the text is over the size limit, or if, with a label put there, some written type is, or the least type of a term before the
/// projection.
pub fn complete(
    alloc: Global,
    text: &str,
    offset: usize,
    dialect: Dialect,
) -> Result<Vec<Item>, AllocError>
    ensures { IfOk result (λ items. AreCompletions text.now offset (map item_of items.items) dialect) }
{
    Analysis::new(alloc, text, dialect)?.complete(alloc, text, offset)
}

impl Analysis {
    /// Returns the completions at a byte offset: the labels after a dot, or the names in scope at a variable.
    pub fn complete(
        &self,
        alloc: Global,
        text: &str,
        offset: usize,
    ) -> Result<Vec<Item>, AllocError>
        requires { IsAnalysisOf text.now self.now }
        ensures { IfOk result (λ items. AreCompletions text.now offset (map item_of items.items) (dialect_of self.now)) }
    {
        let piece = self.piece_around(text, offset);
        match self.labels(alloc, piece, offset)? {
            Some(items) => Ok(items),
            None => self.names(alloc, text, piece, offset),
        }
    }

    /// Returns the labels that can follow a dot before the cursor, or `None` where no label can.
    fn labels(
        &self,
        alloc: Global,
        piece: PieceAt<'_>,
        offset: usize,
    ) -> Result<Option<Vec<Item>>, AllocError>
        requires there { (text : List ℕ) × IsAnalysisOf text self.now × IsPieceAround text offset self.now piece }
        requires fits { piece.start + length piece.text.now < 2 ^ 64 }
        ensures some { IfOk result (λ found. IfSome found (λ items. (text : List ℕ) (tokens : List Lexeme) (commands : List CommandTree) → IsAnalysisOf text self.now → IsPieceAround text offset self.now piece.entry → AreTokensOf text tokens → AreCommandsOf (pieces_of tokens) commands → AreItems commands tokens offset (map item_of items.items) (dialect_of self.now))) }
        ensures none { IfOk result (λ found. IfNone found ((text : List ℕ) (tokens : List Lexeme) (l : Label) → IsAnalysisOf text self.now → IsPieceAround text offset self.now piece.entry → AreTokensOf text tokens → IsProjected tokens offset l → ⊥)) }
    {
        let Some(dot) = dot_before(piece.text, piece.start, offset) else {
            return Ok(None);
        };
        match command_with_label(alloc, piece.text, piece.start, offset, dot)? {
            Some(command) => self.labels_in(alloc, piece, dot, command),
            None => Ok(None),
        }
    }

    /// Returns the labels that can follow the dot at this byte, given the command that the piece is with a label there.
    fn labels_in(
        &self,
        alloc: Global,
        piece: PieceAt<'_>,
        dot: usize,
        command: Command,
    ) -> Result<Option<Vec<Item>>, AllocError>
        requires there { (text : List ℕ) × IsAnalysisOf text self.now × (offset : ℕ) × IsPieceAround text offset self.now piece }
        ensures some { IfOk result (λ found. IfSome found (λ items. (text : List ℕ) (offset : ℕ) (h : IsPieceAround text offset self.now piece.entry) → IsAnalysisOf text self.now → IsListedBehind h dot (command_of command) (map item_of items.items))) }
        ensures none { IfOk result (λ found. IfNone found (projection_at dot (command_of command ∷ []) ≡ None)) }
    {
        let alone = self.alone(alloc, piece.number, command)?;
        let scopes = bind(alloc, &alone.commands)?;
        let Some(place) = scopes.projection_at(&alone.commands, dot) else {
            return Ok(None);
        };
        if self.row_faults.large.is_some() {
            return Ok(Some(Vec::new(alloc)));
        }
        let items = fields_of(alloc, &alone.commands, &scopes, place, self.dialect)?;
        Ok(Some(items))
    }

    /// Returns the names in scope at the variable that the cursor touches, or nothing if it touches none.
    fn names(
        &self,
        alloc: Global,
        text: &str,
        piece: PieceAt<'_>,
        offset: usize,
    ) -> Result<Vec<Item>, AllocError>
        requires of { IsAnalysisOf text.now self.now }
        requires there { IsPieceAround text.now offset self.now piece }
        ensures { IfOk result (λ items. (tokens : List Lexeme) (commands : List CommandTree) → AreTokensOf text.now tokens → AreCommandsOf (pieces_of tokens) commands → ((l : Label) → IsProjected tokens offset l → ⊥) → AreItems commands tokens offset (map item_of items.items) (dialect_of self.now)) }
    {
        let Some(start) = touched_word(piece.text, piece.start, offset) else {
            return Ok(Vec::new(alloc));
        };
        let Some(command) = command_in(alloc, piece.text, piece.start)? else {
            return Ok(Vec::new(alloc));
        };
        let alone = self.alone(alloc, piece.number, command)?;
        let scopes = bind(alloc, &alone.commands)?;
        match scopes.variable_at(&alone.commands, start) {
            Some(place) => self.names_in_sight(alloc, text, piece, &alone, &scopes, place),
            None => Ok(Vec::new(alloc)),
        }
    }
}
