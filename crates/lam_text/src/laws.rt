//! Laws of lines, positions and edits for all texts, beyond the contracts of [`Doc`](crate::Doc).
//!
//! Each law is the contract of a function that does nothing.
ghost use Rattle.std.specs.Prelude.{◌≡◌, Some, nat_le, count_by};
ghost use Rattle.std.specs.Str.{IsCharBoundary, chars};
ghost use Rattle.lam_text.specs.Units.{front_within};
ghost use Rattle.lam_text.specs.Lines.{Lines, IsCutOf, lines_of};
ghost use Rattle.lam_text.specs.Positions.{offset_of, position_of, IsInsideCrLf};
ghost use Rattle.lam_text.specs.Edits.{edited_in};
ghost use Rattle.lam_text.specs.Laws.{IsLongestFront, line_ends};

use crate::places::Position;
use crate::units::Encoding;

/// A text is a list of lines with their line endings and a last line in exactly one way.
pub fn one_cut(text: &str)
    ensures cut { IsCutOf text.now (lines_of text.now) }
    ensures only { (lines : Lines) → IsCutOf text.now lines → lines ≡ lines_of text.now }
{}

/// A column means the longest prefix of its line that fits.
pub fn longest_front(line: &str, encoding: Encoding, room: u64)
    ensures { IsLongestFront encoding room (chars line.now) (front_within encoding room (chars line.now)) }
{}

/// The line number of an offset is the number of line endings that end at it or before.
pub fn line_counts_ends(text: &str, encoding: Encoding, offset: usize)
    ensures { (position_of encoding text.now offset).line
        ≡ count_by (λ end. nat_le end offset) (line_ends text.now) }
{}

/// An offset at a character boundary is recovered from its position, unless it is between a CR and its LF.
pub fn position_comes_back(text: &str, encoding: Encoding, offset: usize)
    requires boundary { IsCharBoundary text.now offset }
    requires outside { ¬ (IsInsideCrLf text.now offset) }
    ensures { offset_of encoding text.now (position_of encoding text.now offset) ≡ offset }
{}

/// A range means the same whichever of its two positions comes first.
pub fn range_is_unordered(text: &str, encoding: Encoding, start: Position, end: Position, new: &str)
    ensures { edited_in encoding text.now (Some (record { start = start; end = end })) new.now
        ≡ edited_in encoding text.now (Some (record { start = end; end = start })) new.now }
{}
