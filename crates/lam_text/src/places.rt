//! Positions and ranges (LSP 3.17, `Position` and `Range`).

/// A position in a text, zero-based.
#[derive(Clone, Copy, Debug, PartialEq, Eq)]
pub struct Position {
    pub line: u64,
    /// In units of the document's [`Encoding`](crate::Encoding).
    pub character: u64,
}

/// Two positions. An edit replaces the text between them, whichever comes first.
#[derive(Clone, Copy, Debug, PartialEq, Eq)]
pub struct Range {
    pub start: Position,
    pub end: Position,
}
