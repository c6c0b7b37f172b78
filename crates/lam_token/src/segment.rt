//! The kinds of segments, and what a first character says about them.

use crate::kind::Kind;

/// The kind of a segment: a space, tab, line feed or carriage return, a closed comment, or a token.
#[derive(Clone, Copy)]
pub enum Segment {
    Blank,
    Comment,
    Token(Kind),
}

/// What the first character of a segment says about the kind of the segment.
#[derive(Clone, Copy)]
pub(crate) enum Beginning {
    Blank,
    Slash,
    Digit,
    Letter,
    Underscore,
    Dash,
    Mark(Kind),
    Stray,
}
