//! Go to definition and find references.
ghost use Rattle.std.specs.Prelude.{All, IfOk, IfSome};
ghost use Rattle.std.specs.Option.{option_map};
ghost use Rattle.lam_query.specs.Analyses.{IsAnalysisOf};
ghost use Rattle.lam_query.specs.Definitions.{IsDefinitionIn, AreReferencesIn};
ghost use Rattle.lam_query.specs.Within.{IsSpanOfText};

use crate::analyses::Analysis;
use crate::reading::read;
use crate::touched::touched;
use lam_scope::bind;
use lam_token::Span;
use std::alloc::{AllocError, Global};

/// Returns the span of the binder that the name or type name at an offset is or uses (`textDocument/definition`, LSP 3.17), or
/// `None` if there is no name there or it is not bound. The offset and the span are in bytes of the UTF-8 text.
pub fn definition(alloc: Global, text: &str, offset: usize) -> Result<Option<Span>, AllocError>
    ensures definition { IfOk result (IsDefinitionIn text.now offset) }
    ensures whole_characters { IfOk result (λ found. IfSome found (IsSpanOfText text.now)) }
{
    let Some(start) = touched(text, offset) else {
        return Ok(None);
    };
    let parsed = read(alloc, text)?;
    let scopes = bind(alloc, &parsed.commands)?;
    let Some(binder) = scopes.binder_at(start) else {
        return Ok(None);
    };
    Ok(Some(scopes.token_of(binder)))
}

/// Returns the uses of the binder of the name or type name at an offset, in text order, after the binder itself if `declared`, as
/// with `includeDeclaration` in `textDocument/references` of LSP 3.17. Returns `None` if there is no name there or it is not
/// bound. The offset and the spans are in bytes of the UTF-8 text.
pub fn references(
    alloc: Global,
    text: &str,
    offset: usize,
    declared: bool,
) -> Result<Option<Vec<Span>>, AllocError>
    ensures references { IfOk result (λ found. AreReferencesIn text.now offset declared (option_map (λ spans. spans.items) found)) }
    ensures whole_characters { IfOk result (λ found. IfSome found (λ spans. All (IsSpanOfText text.now) spans.items)) }
{
    let Some(start) = touched(text, offset) else {
        return Ok(None);
    };
    let parsed = read(alloc, text)?;
    let scopes = bind(alloc, &parsed.commands)?;
    let Some(binder) = scopes.binder_at(start) else {
        return Ok(None);
    };
    let mut spans = Vec::new(alloc);
    if declared {
        spans.push(scopes.token_of(binder))?;
    }
    spans.extend_from_slice(scopes.uses_of(binder))?;
    Ok(Some(spans))
}

impl Analysis {
    /// Returns the span of the binder that the name or type name at a byte offset is or uses, or `None` if there is no name there
    /// or it is not bound.
    pub fn definition(
        &self,
        alloc: Global,
        text: &str,
        offset: usize,
    ) -> Result<Option<Span>, AllocError>
        requires { IsAnalysisOf text.now self.now }
        ensures definition { IfOk result (IsDefinitionIn text.now offset) }
        ensures whole_characters { IfOk result (λ found. IfSome found (IsSpanOfText text.now)) }
    {
        definition(alloc, text, offset)
    }

    /// Returns the uses of the binder of the name or type name at a byte offset, in text order, after the binder itself if
    /// `declared`. Returns `None` if there is no name there or it is not bound.
    pub fn references(
        &self,
        alloc: Global,
        text: &str,
        offset: usize,
        declared: bool,
    ) -> Result<Option<Vec<Span>>, AllocError>
        requires { IsAnalysisOf text.now self.now }
        ensures references { IfOk result (λ found. AreReferencesIn text.now offset declared (option_map (λ spans. spans.items) found)) }
        ensures whole_characters { IfOk result (λ found. IfSome found (λ spans. All (IsSpanOfText text.now) spans.items)) }
    {
        references(alloc, text, offset, declared)
    }
}
