//! Open documents.
ghost use Rattle.std.specs.Prelude.{◌≡◌, ◌≤◌, ◌++◌, take, drop, IfOk, OnOk, OnErr};
ghost use Rattle.std.specs.Str.{IsCharBoundary};
ghost use Rattle.std.specs.String.{string_bytes};
ghost use Rattle.lam_text.specs.Positions.{offset_of, position_of};
ghost use Rattle.lam_text.specs.Edits.{edited, text_after};

use crate::changes::Change;
use crate::index::{Mark, content, front_len, index_of, line_at, units};
use crate::places::Position;
use crate::splice::{Splice, mend, seam_of};
use crate::units::Encoding;
use std::alloc::{AllocError, Global};
use std::marker::Model;

/// A text, the encoding of its positions, and an index of its lines.
#[derive(Drop)]
pub struct Doc {
    alloc: Global,
    text: String,
    encoding: Encoding,
    marks: Vec<Mark>,
}

impl Model for Doc {
    ghost use Rattle.std.specs.Prelude.{◌≡◌};
    ghost use Rattle.std.specs.String.{string_bytes};
    ghost use Rattle.lam_text.specs.Document.{Document};
    ghost use Rattle.lam_text.specs.inner.Index.{index_of};

    ghost Value = { Document };

    ghost view = { λ d. record { text = string_bytes d.text; encoding = d.encoding } };

    ghost invariant = { λ d. d.marks.items ≡ index_of (string_bytes d.text) };
}

impl Doc {
    /// Creates a document with this text. It keeps the allocator for its later texts.
    pub fn new(alloc: Global, text: &str, encoding: Encoding) -> Result<Doc, AllocError>
        ensures text { IfOk result (λ doc. doc.text ≡ text.now) }
        ensures encoding { IfOk result (λ doc. doc.encoding ≡ encoding) }
    {
        let text = String::from_str(alloc, text)?;
        let marks = index_of(alloc, text.as_bytes())?;
        Ok(Doc {
            alloc,
            text,
            encoding,
            marks,
        })
    }

    /// Returns the current text.
    pub fn text(&self) -> &str
        ensures { result.now ≡ self.now.text }
    {
        self.text.as_str()
    }

    /// Returns the byte offset of a position. A column past the end of its line means the end of the line, before its line
    /// ending; a line past the last one means the end of the text; a column inside a character means its start.
    pub fn offset_of(&self, position: Position) -> usize
        ensures value { result ≡ offset_of self.now.encoding self.now.text position }
        ensures boundary { IsCharBoundary self.now.text result }
    {
        let text = self.text.as_str();
        let marks = self.marks.as_slice();
        if marks.len() as u64 <= position.line {
            return text.len();
        }
        let number = position.line as usize;
        let mark = marks[number];
        let line = content(marks, text, number);
        mark.start + front_len(mark, self.encoding, line, position.character)
    }

    /// Returns the position of a byte offset. Between a CR and its LF that is the end of the line's content.
    pub fn position_of(&self, offset: usize) -> Position
        requires { IsCharBoundary self.now.text offset }
        ensures { result ≡ position_of self.now.encoding self.now.text offset }
    {
        let text = self.text.as_str();
        let marks = self.marks.as_slice();
        let number = line_at(marks, offset);
        let mark = marks[number];
        let line = content(marks, text, number);
        let (front, _) = line.split_at(line.len().min(offset - mark.start));
        Position {
            line: number as u64,
            character: units(mark, self.encoding, front),
        }
    }

    /// Applies the changes one after another, each to the result of the one before. On an error nothing is changed.
    pub fn apply(&mut self, changes: &[Change]) -> Result<(), AllocError>
        ensures text { OnOk result (self.new.text ≡ text_after self.old.encoding self.old.text changes.now) }
        ensures encoding { self.new.encoding ≡ self.old.encoding }
        ensures unchanged { OnErr result (self.new ≡ self.old) }
    {
        *self = self.after(changes)?;
        Ok(())
    }

    /// Returns the document after these changes, each of which applies to the result of the one before.
    pub fn after(&self, changes: &[Change]) -> Result<Doc, AllocError>
        ensures text { IfOk result (λ doc. doc.text ≡ text_after self.now.encoding self.now.text changes.now) }
        ensures encoding { IfOk result (λ doc. doc.encoding ≡ self.now.encoding) }
    {
        let Some((first, rest)) = changes.split_first() else {
            return self.copied(changes);
        };
        let mut next = match first.range {
            None => Doc::new(self.alloc, first.text.as_str(), self.encoding)?,
            Some(_) => self.copied(changes)?.changed(first)?,
        };
        for change in rest {
            next = next.changed(change)?;
        }
        Ok(next)
    }

    /// A copy with room for the texts of these changes, so that none of them moves the text to another block of memory.
    fn copied(&self, changes: &[Change]) -> Result<Doc, AllocError>
        ensures { IfOk result (λ doc. doc ≡ self.now) }
    {
        let mut room = self.text.len();
        for change in changes {
            room = room.saturating_add(change.text.len());
        }
        let mut text = String::with_capacity(self.alloc, room)?;
        text.push_str(self.text.as_str())?;
        // Room for one more line, which typing may add.
        let mut marks = Vec::with_capacity(self.alloc, self.marks.len().saturating_add(1))?;
        marks.extend_from_slice(&self.marks)?;
        Ok(Doc {
            alloc: self.alloc,
            text,
            encoding: self.encoding,
            marks,
        })
    }

    /// This document after one change. A change of a range is made in place.
    fn changed(self, change: &Change) -> Result<Doc, AllocError>
        ensures text { IfOk result (λ doc. doc.text ≡ edited self.encoding self.text change.now) }
        ensures encoding { IfOk result (λ doc. doc.encoding ≡ self.encoding) }
    {
        let Some(range) = change.range else {
            return Doc::new(self.alloc, change.text.as_str(), self.encoding);
        };
        let start = self.offset_of(range.start);
        let end = self.offset_of(range.end);
        self.replaced(start.min(end), start.max(end), change.text.as_str())
    }

    /// This document with `new` in place of the bytes from `start` to `end`.
    fn replaced(self, start: usize, end: usize, new: &str) -> Result<Doc, AllocError>
        requires ordered { start ≤ end }
        requires starts { IsCharBoundary self.text start }
        requires ends { IsCharBoundary self.text end }
        ensures text { IfOk result (λ doc. doc.text ≡ take start self.text ++ new.now ++ drop end self.text) }
        ensures encoding { IfOk result (λ doc. doc.encoding ≡ self.encoding) }
    {
        let Doc {
            alloc,
            mut text,
            encoding,
            mut marks,
        } = self;
        let splice = Splice {
            start,
            end,
            inserted: new.len(),
        };
        let seam = seam_of(&marks, text.as_bytes(), splice);
        text.replace_range(start..end, new)?;
        mend(alloc, &mut marks, text.as_bytes(), splice, seam)?;
        Ok(Doc {
            alloc,
            text,
            encoding,
            marks,
        })
    }
}
