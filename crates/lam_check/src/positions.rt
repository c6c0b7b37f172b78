//! Which positions a text has.
ghost use Rattle.std.specs.Prelude.{◌≡◌, ◌≢◌, IfSome, IfNone};
ghost use Rattle.std.specs.Str.{IsCharBoundary};
ghost use Rattle.lam_text.specs.Positions.{offset_of, position_of};

use lam_text::{Doc, Position};

/// Returns the byte offset of a position, or `None` if the text has no such position.
pub fn offset_at(doc: &Doc, position: Position) -> Option<usize>
    ensures some { IfSome result (λ offset. offset ≡ offset_of doc.now.encoding doc.now.text position) }
    ensures there { IfSome result (λ offset. position ≡ position_of doc.now.encoding doc.now.text offset) }
    ensures boundary { IfSome result (IsCharBoundary doc.now.text) }
    ensures none { IfNone result (position ≢ position_of doc.now.encoding doc.now.text (offset_of doc.now.encoding doc.now.text position)) }
{
    let offset = doc.offset_of(position);
    if doc.position_of(offset) != position {
        return None;
    }
    Some(offset)
}
