//! Changes of a text (LSP 3.17, `TextDocumentContentChangeEvent`).
use crate::places::Range;
use std::marker::Model;

/// A change: `text` replaces the contents of `range`, or the whole text if there is no range.
#[derive(Debug, Drop)]
pub struct Change {
    pub range: Option<Range>,
    pub text: String,
}

impl Model for Change {
    ghost use Rattle.std.specs.String.{string_bytes};
    ghost use Rattle.lam_text.specs.Edits.{Edit};

    ghost Value = { Edit };

    ghost view = { λ c. record { range = c.range; text = string_bytes c.text } };
}
