//! The open documents of a session.
ghost use Rattle.std.specs.Prelude.{◌≡◌, ℕ, List, [], Some, true, option_map, IfOk, IsSome, IfSome};
ghost use Rattle.lam_text.specs.Edits.{text_after};
ghost use Rattle.lam_session.specs.Documents.{open_text, with_document, without_document};

use crate::document::Document;
use indexmap::IndexMap;
use lam_rules::Dialect;
use lam_text::{Change, Encoding};
use std::alloc::{AllocError, Global};
use std::marker::Model;

/// The open documents by URI, in the order of opening, with the encoding of their columns and the dialect. Each is analysed.
#[derive(Drop)]
pub struct Documents {
    alloc: Global,
    encoding: Encoding,
    dialect: Dialect,
    by_uri: IndexMap<String, Document>,
}

impl Model for Documents {
    ghost use Rattle.lam_session.specs.Documents.{OpenDocuments};

    ghost Value = { OpenDocuments };

    ghost use Rattle.lam_session.specs.Entries.{documents_of, AreReady};

    ghost view = { λ d. record {
      encoding = d.encoding;
      dialect = d.dialect;
      documents = documents_of d.by_uri.entries;
    } };

    ghost invariant = { λ d. AreReady d.encoding d.dialect d.by_uri.entries };
}

impl Documents {
    /// No open documents.
    pub fn new(alloc: Global, encoding: Encoding, dialect: Dialect) -> Documents
        ensures { result ≡ record { encoding = encoding; dialect = dialect; documents = [] } }
    {
        Documents {
            alloc,
            encoding,
            dialect,
            by_uri: IndexMap::new(alloc),
        }
    }

    /// Returns the dialect.
    pub fn dialect(&self) -> Dialect
        ensures { result ≡ self.now.dialect }
    {
        self.dialect
    }

    /// Returns an open document.
    pub fn document(&self, uri: &str) -> Option<&Document>
        ensures text { option_map (λ d. d.now.text) result ≡ open_text uri.now self.now.documents }
        ensures encoding { IfSome result (λ d. d.now.encoding ≡ self.now.encoding) }
        ensures dialect { IfSome result (λ d. d.now.dialect ≡ self.now.dialect) }
        ensures analysed { IfSome result (λ d. d.now.analysed ≡ true) }
    {
        self.by_uri.get(uri)
    }

    /// Opens a document. If one with this URI is already open, it is replaced and keeps its position in the order.
    pub fn open(
        mut self,
        uri: &str,
        text: &str,
        version: Option<i64>,
    ) -> Result<Documents, AllocError>
        ensures { IfOk result (λ d. d ≡ record self {
          documents = with_document (record { uri = uri.now; text = text.now; version = version }) self.documents;
        }) }
    {
        let uri = String::from_str(self.alloc, uri)?;
        let document = Document::new(self.alloc, text, version, self.encoding, self.dialect)?;
        drop(self.by_uri.insert(uri, document)?);
        Ok(self)
    }

    /// Changes an open document in place; no other document is touched. If allocation fails, the changed document may have lost
    /// its analysis, so the documents are not returned.
    pub fn change(
        mut self,
        uri: &str,
        changes: &[Change],
        version: Option<i64>,
    ) -> Result<Documents, AllocError>
        requires { IsSome (open_text uri.now self.documents) }
        ensures { IfOk result (λ d. (text : List ℕ) → open_text uri.now self.documents ≡ Some text
            → d ≡ record self {
              documents = with_document
                  (record { uri = uri.now; text = text_after self.encoding text changes.now; version = version }) self.documents;
            }) }
    {
        let alloc = self.alloc;
        let Some(document) = self.by_uri.get_mut(uri) else {
            unreachable!()
        };
        document.change(alloc, changes, version)?;
        Ok(self)
    }

    /// Closes a document. The others keep their order.
    pub fn close(mut self, uri: &str) -> Documents
        ensures { result ≡ record self { documents = without_document uri.now self.documents } }
    {
        drop(self.by_uri.shift_remove(uri));
        self
    }
}
