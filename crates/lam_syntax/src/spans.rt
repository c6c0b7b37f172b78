//! Joining spans.
ghost use Rattle.std.specs.Prelude.{◌≡◌};
ghost use Rattle.lam_syntax.specs.Trees.{from_to};

use lam_token::Span;

/// The span from the start of one span to the end of another.
pub(crate) fn from_to(first: Span, last: Span) -> Span
    ensures { result ≡ from_to first last }
{
    Span {
        start: first.start,
        end: last.end,
    }
}
