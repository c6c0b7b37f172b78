//! An open document with the analysis of its text.
ghost use Rattle.std.specs.Prelude.{◌≡◌, ◌≢◌, true, map, option_map, All, Ok, Err, IfOk, IfErr, IfSome, OnOk};
ghost use Rattle.lam_query.specs.Derivations.{IsDerivedIn};
ghost use Rattle.lam_query.specs.Hovers.{IsShownIn};
ghost use Rattle.lam_query.specs.Analyses.{IsAnalysisOf, dialect_of};
ghost use Rattle.lam_query.specs.Completions.{AreCompletions};
ghost use Rattle.lam_query.specs.Definitions.{IsDefinitionIn, AreReferencesIn};
ghost use Rattle.lam_query.specs.Renames.{IsRenameIn};
ghost use Rattle.lam_query.specs.TextFaults.{AreFaults};
ghost use Rattle.lam_query.specs.Views.{fault_of, shown_of, item_of, derivation_of, StepStandsIn};
ghost use Rattle.lam_query.specs.Within.{IsSpanOfText};
ghost use Rattle.lam_text.specs.Edits.{text_after};
ghost use Rattle.lam_text.specs.Positions.{offset_of};

use lam_query::answers::{Derivation, Fault, Hover, Item};
use lam_query::{Analysis, RenameFault};
use lam_rules::Dialect;
use lam_text::{Change, Doc, Encoding, Position};
use lam_token::Span;
use std::alloc::{AllocError, Global};
use std::marker::Model;

/// A text with the version that the client gave, if any. The analysis, if present, is of exactly this text.
#[derive(Drop)]
pub struct Document {
    doc: Doc,
    dialect: Dialect,
    version: Option<i64>,
    analysis: Option<Analysis>,
}

impl Model for Document {
    ghost use Rattle.std.specs.Prelude.{◌≡◌, IfSome, is_some};
    ghost use Rattle.lam_query.specs.Analyses.{IsAnalysisOf, dialect_of};
    ghost use Rattle.lam_session.specs.Documents.{HeldDocument};

    ghost Value = { HeldDocument };

    ghost view = { λ d. record {
      text = d.doc.text;
      encoding = d.doc.encoding;
      dialect = d.dialect;
      version = d.version;
      analysed = is_some d.analysis;
    } };

    ghost invariant = { λ d. IfSome d.analysis (λ analysis. IsAnalysisOf d.doc.text analysis × (dialect_of analysis ≡ d.dialect)) };
}

impl Document {
    /// Creates a document with this text, and analyses it.
    pub fn new(
        alloc: Global,
        text: &str,
        version: Option<i64>,
        encoding: Encoding,
        dialect: Dialect,
    ) -> Result<Document, AllocError>
        ensures { IfOk result (λ d. d ≡ record { text = text.now; encoding = encoding; dialect = dialect; version = version; analysed = true }) }
    {
        let doc = Doc::new(alloc, text, encoding)?;
        let analysis = Analysis::new(alloc, text, dialect)?;
        Ok(Document {
            doc,
            dialect,
            version,
            analysis: Some(analysis),
        })
    }

    /// Changes the text and updates its analysis: only commands that changed, and those that use a name whose meaning changed, are
    /// typed again, except that now and then all are. On an error the text is unchanged, and its analysis may be gone.
    pub fn change(
        &mut self,
        alloc: Global,
        changes: &[Change],
        version: Option<i64>,
    ) -> Result<(), AllocError>
        ensures { OnOk result (self.new ≡ record self.old {
          text = text_after self.old.encoding self.old.text changes.now;
          version = version;
          analysed = true;
        }) }
    {
        let next = self.doc.after(changes)?;
        let known = self.analysis.take();
        let analysis = analysed(alloc, known, self.doc.text(), next.text(), self.dialect)?;
        self.doc = next;
        self.version = version;
        self.analysis = Some(analysis);
        Ok(())
    }

    /// Returns the text, with the encoding of its columns.
    pub fn doc(&self) -> &Doc
        ensures text { result.now.text ≡ self.now.text }
        ensures encoding { result.now.encoding ≡ self.now.encoding }
    {
        &self.doc
    }

    /// The analysis of the text.
    fn analysis(&self) -> &Analysis
        requires { self.now.analysed ≡ true }
        ensures of { IsAnalysisOf self.now.text result.now }
        ensures dialect { dialect_of result.now ≡ self.now.dialect }
    {
        let Some(analysis) = &self.analysis else {
            unreachable!()
        };
        analysis
    }

    /// Returns all diagnostics of the text, in order.
    pub fn faults(&self, alloc: Global) -> Result<Vec<Fault>, AllocError>
        requires { self.now.analysed ≡ true }
        ensures faults { IfOk result (λ found. AreFaults self.now.text (map fault_of found.items) self.now.dialect) }
        ensures whole_characters { IfOk result (λ found. All (λ f. IsSpanOfText self.now.text f.span) found.items) }
    {
        self.analysis().faults(alloc, self.doc.text())
    }

    /// Returns the least type of the innermost term around a position.
    pub fn hover(&self, alloc: Global, position: Position) -> Result<Option<Hover>, AllocError>
        requires { self.now.analysed ≡ true }
        ensures shown { IfOk result (λ found. IsShownIn self.now.text (offset_of self.now.encoding self.now.text position) (option_map shown_of found) self.now.dialect) }
        ensures whole_characters { IfOk result (λ found. IfSome found (λ h. IsSpanOfText self.now.text h.span)) }
    {
        let offset = self.doc.offset_of(position);
        self.analysis().hover(alloc, self.doc.text(), offset)
    }

    /// Returns a derivation of the least type of the innermost term around a position.
    pub fn derivation(
        &self,
        alloc: Global,
        position: Position,
    ) -> Result<Option<Derivation>, AllocError>
        requires { self.now.analysed ≡ true }
        ensures derived { IfOk result (λ found. IsDerivedIn self.now.text (offset_of self.now.encoding self.now.text position) (option_map derivation_of found) self.now.dialect) }
        ensures whole_characters { IfOk result (λ found. IfSome found (λ d. All (StepStandsIn self.now.text) d.steps.items)) }
    {
        let offset = self.doc.offset_of(position);
        self.analysis().derivation(alloc, self.doc.text(), offset)
    }

    /// Returns the completions at a position.
    pub fn complete(&self, alloc: Global, position: Position) -> Result<Vec<Item>, AllocError>
        requires { self.now.analysed ≡ true }
        ensures { IfOk result (λ items. AreCompletions self.now.text (offset_of self.now.encoding self.now.text position) (map item_of items.items) self.now.dialect) }
    {
        let offset = self.doc.offset_of(position);
        self.analysis().complete(alloc, self.doc.text(), offset)
    }

    /// Returns where the name at a position is bound.
    pub fn definition(&self, alloc: Global, position: Position) -> Result<Option<Span>, AllocError>
        requires { self.now.analysed ≡ true }
        ensures definition { IfOk result (IsDefinitionIn self.now.text (offset_of self.now.encoding self.now.text position)) }
        ensures whole_characters { IfOk result (λ found. IfSome found (IsSpanOfText self.now.text)) }
    {
        let offset = self.doc.offset_of(position);
        self.analysis().definition(alloc, self.doc.text(), offset)
    }

    /// Returns the uses of the name at a position, along with its declaration if `declared`.
    pub fn references(
        &self,
        alloc: Global,
        position: Position,
        declared: bool,
    ) -> Result<Option<Vec<Span>>, AllocError>
        requires { self.now.analysed ≡ true }
        ensures references { IfOk result (λ found. AreReferencesIn self.now.text (offset_of self.now.encoding self.now.text position) declared (option_map (λ spans. spans.items) found)) }
        ensures whole_characters { IfOk result (λ found. IfSome found (λ spans. All (IsSpanOfText self.now.text) spans.items)) }
    {
        let offset = self.doc.offset_of(position);
        self.analysis()
            .references(alloc, self.doc.text(), offset, declared)
    }

    /// Returns the spans that are to be renamed: those of the binder of the name at a position, and of its uses.
    pub fn rename(
        &self,
        alloc: Global,
        position: Position,
        new: &str,
    ) -> Result<Vec<Span>, RenameFault>
        requires { self.now.analysed ≡ true }
        ensures renamed { IfOk result (λ spans. IsRenameIn self.now.text (offset_of self.now.encoding self.now.text position) new.now (Ok spans.items)) }
        ensures refused { IfErr result (λ fault. fault ≢ RenameFault.Memory → IsRenameIn self.now.text (offset_of self.now.encoding self.now.text position) new.now (Err fault)) }
        ensures whole_characters { IfOk result (λ spans. All (IsSpanOfText self.now.text) spans.items) }
    {
        let offset = self.doc.offset_of(position);
        self.analysis().rename(alloc, self.doc.text(), offset, new)
    }
}

/// Analyses a text, starting from the analysis of the text that it was changed from, if there is one.
fn analysed(
    alloc: Global,
    known: Option<Analysis>,
    old: &str,
    new: &str,
    dialect: Dialect,
) -> Result<Analysis, AllocError>
    requires { IfSome known (λ analysis. IsAnalysisOf old.now analysis × (dialect_of analysis ≡ dialect)) }
    ensures of { IfOk result (IsAnalysisOf new.now) }
    ensures dialect { IfOk result (λ analysis. dialect_of analysis ≡ dialect) }
{
    match known {
        Some(analysis) => analysis.changed(alloc, old, new),
        None => Analysis::new(alloc, new, dialect),
    }
}
