//! Byte ranges in a text.

/// A byte range in a UTF-8 text, from its first byte to the one after its last. Ordered by start, then by end.
#[derive(Clone, Copy, Debug, PartialEq, Eq, PartialOrd, Ord)]
pub struct Span {
    pub start: usize,
    pub end: usize,
}
