//! Recognizing names, and a placeholder for a missing name.
ghost use Rattle.std.specs.Prelude.{◌≡◌, ◌↔◌, ◌+◌, ◌<◌, ◌^◌, codes, Some, IsTrue};
ghost use Rattle.std.specs.Str.{chars};
ghost use Rattle.lam_token.specs.Shape.{shape_of};
ghost use Rattle.lam_token.specs.Cut.{IsWholeKind};
ghost use Rattle.lam_token.specs.Lexeme.{lexeme_at};

use crate::kind::Kind;
use crate::scan::next_segment;
use crate::segment::Segment;
use crate::token::{Token, token_at};

/// Whether the whole text is a single name that is not a keyword.
pub fn is_name(text: &str) -> bool
    ensures { IsTrue result ↔ (shape_of (chars text.now) ≡ Some (Segment.Token Kind.Name)) }
{
    match whole_kind(text) {
        Some(kind) => matches!(kind, Kind::Name),
        None => false,
    }
}

/// Whether the whole text is a single type name that is not a keyword.
pub fn is_type_name(text: &str) -> bool
    ensures { IsTrue result ↔ (shape_of (chars text.now) ≡ Some (Segment.Token Kind.TypeName)) }
{
    match whole_kind(text) {
        Some(kind) => matches!(kind, Kind::TypeName),
        None => false,
    }
}

/// Returns the name `a` as a token that begins at byte offset `start`: a placeholder for a name not written yet.
pub fn placeholder(start: usize) -> Token<'static>
    requires { start + 1 < 2 ^ 64 }
    ensures { result ≡ lexeme_at Kind.Name (codes "a") start }
{
    token_at(Kind::Name, "a", start)
}

/// The token kind of a text that is exactly one segment, or `None` if the text is not one token.
fn whole_kind(text: &str) -> Option<Kind>
    ensures { IsWholeKind (chars text.now) result }
{
    let (segment, after) = next_segment(text)?;
    if !after.is_empty() {
        return None;
    }
    match segment {
        Segment::Token(kind) => Some(kind),
        Segment::Blank => None,
        Segment::Comment => None,
    }
}
