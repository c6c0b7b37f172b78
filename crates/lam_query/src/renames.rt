//! Rename.
ghost use Rattle.std.specs.Prelude.{◌≡◌, ◌≢◌, ◌↔◌, List, Ok, Err, Some, true, All, IfOk, IfErr, IsTrue};
ghost use Rattle.lam_token.specs.declared.span.Span.{Span};
ghost use Rattle.lam_query.specs.Analyses.{IsAnalysisOf};
ghost use Rattle.lam_query.specs.Definitions.{AreReferencesIn};
ghost use Rattle.lam_query.specs.Renames.{IsAnyName, IsRenameIn, IsRenamedText, IsOtherText};
ghost use Rattle.lam_query.specs.declared.renames.RenameFault.TheVariants.{Memory};
ghost use Rattle.lam_query.specs.Within.{IsSpanOfText};

use crate::analyses::Analysis;
use crate::reading::read;
use crate::touched::touched;
use lam_scope::{RenameFault as BinderFault, bind};
use lam_token::{Span, is_name, is_type_name};
use std::alloc::{AllocError, Global};

/// Why a rename is refused. If several reasons apply, the first in this order is reported.
#[derive(Clone, Copy, Debug, PartialEq, Eq)]
pub enum RenameFault {
    /// The new text is not a single token that can be a name or a type name.
    NotAName,
    /// Some piece of the text is not a command.
    UnparsedCommand,
    /// There is no name under the cursor, or it is free or a label.
    NoBoundName,
    /// The new name is a type name and the one under the cursor is not, or vice versa.
    WrongKind,
    /// With the new name, some name or type name would be bound elsewhere.
    ChangesBinding,
    /// An allocation failed.
    Memory,
}

impl From<AllocError> for RenameFault {
    ghost from_gives = { λ _ fault. fault ≡ Memory };

    fn from(_refused: AllocError) -> RenameFault {
        RenameFault::Memory
    }
}

/// Returns the spans to replace, in text order: the binder of the name or type name under the cursor, then its uses. The offset
/// and the spans are in bytes of the UTF-8 text. Replacing them, from last to first, leaves all other tokens as they were, and
/// names and type names are bound as before.
pub fn rename(alloc: Global, text: &str, offset: usize, new: &str) -> Result<Vec<Span>, RenameFault>
    ensures renamed { IfOk result (λ spans. IsRenameIn text.now offset new.now (Ok spans.items)) }
    ensures refused { IfErr result (λ fault. fault ≢ RenameFault.Memory → IsRenameIn text.now offset new.now (Err fault)) }
    ensures edited { IfOk result (λ spans. IsRenamedText text.now spans.items new.now) }
    ensures changed { IfErr result (λ fault. fault ≡ RenameFault.ChangesBinding → (spans : List Span) × AreReferencesIn text.now offset true (Some spans) × IsOtherText text.now spans new.now) }
    ensures whole_characters { IfOk result (λ spans. All (IsSpanOfText text.now) spans.items) }
{
    if !is_any_name(new) {
        return Err(RenameFault::NotAName);
    }
    let parsed = read(alloc, text)?;
    if !parsed.faults.is_empty() {
        return Err(RenameFault::UnparsedCommand);
    }
    let Some(start) = touched(text, offset) else {
        return Err(RenameFault::NoBoundName);
    };
    let scopes = bind(alloc, &parsed.commands)?;
    let Some(binder) = scopes.binder_at(start) else {
        return Err(RenameFault::NoBoundName);
    };
    match scopes.rename(alloc, binder, new) {
        Ok(spans) => Ok(spans),
        Err(BinderFault::NotAName) => Err(RenameFault::NotAName),
        Err(BinderFault::WrongKind) => Err(RenameFault::WrongKind),
        Err(BinderFault::ChangesBinding) => Err(RenameFault::ChangesBinding),
        Err(BinderFault::Memory) => Err(RenameFault::Memory),
    }
}

/// Whether the whole text is a name or a type name.
fn is_any_name(text: &str) -> bool
    ensures { IsTrue result ↔ IsAnyName text.now }
{
    is_name(text) || is_type_name(text)
}

impl Analysis {
    /// Returns the spans to replace, in text order: those of the binder of the name or type name at a byte offset, and of its
    /// uses.
    pub fn rename(
        &self,
        alloc: Global,
        text: &str,
        offset: usize,
        new: &str,
    ) -> Result<Vec<Span>, RenameFault>
        requires { IsAnalysisOf text.now self.now }
        ensures renamed { IfOk result (λ spans. IsRenameIn text.now offset new.now (Ok spans.items)) }
        ensures refused { IfErr result (λ fault. fault ≢ RenameFault.Memory → IsRenameIn text.now offset new.now (Err fault)) }
        ensures whole_characters { IfOk result (λ spans. All (IsSpanOfText text.now) spans.items) }
    {
        rename(alloc, text, offset, new)
    }
}
