//! A document that is changed again and again, or while memory is refused. What positions and edits mean is tested by rows.

ghost use Rattle.std.specs.Prelude.{◌≡◌};

use crate::written::equal;
use lam_text::{Change, Doc, Encoding, Position, Range};
use std::alloc::{AllocError, Global};

/// A letter and a line end in place of the first letter of the second line.
fn change_of_a_line(alloc: Global) -> Result<Change, AllocError> {
    let start = Position {
        line: 1,
        character: 0,
    };
    let end = Position {
        line: 1,
        character: 1,
    };
    Ok(Change {
        range: Some(Range { start, end }),
        text: String::from_str(alloc, "é\n")?,
    })
}

/// Meant for `rt try --test --fail-alloc N`, in which allocation number N fails.
#[test]
fn unchanged_where_memory_is_refused(rt: HostRuntime) -> Result<(), AllocError> {
    let mut doc = Doc::new(rt.alloc(), "a\r\nb", Encoding::Utf8)?;
    let change = change_of_a_line(rt.alloc())?;
    let wanted = match doc.apply(&[change]) {
        Ok(()) => "a\r\né\n",
        Err(AllocError) => "a\r\nb",
    };
    equal(&rt, doc.text(), wanted);
    Ok(())
}

/// Texts to put in: characters of each length, and each line end, whole or half.
static INSERTED: [&str; 8] = ["", "x", "é", "→y", "😀", "\r", "\n", "a\r\nb"];

/// The same numbers in each run, which look random (a linear congruential generator).
#[derive(Clone, Copy)]
struct Dice {
    last: u64,
}

impl Dice {
    fn roll(&mut self) -> u64 {
        let factor: u64 = 6_364_136_223_846_793_005;
        self.last = self
            .last
            .wrapping_mul(factor)
            .wrapping_add(1_442_695_040_888_963_407);
        self.last >> 33
    }

    /// A change in one of the first lines, or over the end of one. Some columns are past the end of their line.
    fn change(&mut self, alloc: Global) -> Result<Change, AllocError> {
        let line = self.roll() % 20;
        let start = Position {
            line,
            character: self.roll() % 6,
        };
        let end = Position {
            line: line + self.roll() % 8 / 7,
            character: self.roll() % 6,
        };
        let text = INSERTED[(self.roll() % 8) as usize];
        Ok(Change {
            range: Some(Range { start, end }),
            text: String::from_str(alloc, text)?,
        })
    }
}

/// Whether each boundary between characters has the same position in both documents, which have the same text.
fn have_same_positions(doc: &Doc, other: &Doc) -> bool
    requires { doc.now.text ≡ other.now.text }
{
    let text = doc.text();
    for offset in 0..text.len().saturating_add(1) {
        if text.is_char_boundary(offset) && doc.position_of(offset) != other.position_of(offset) {
            return false;
        }
    }
    true
}

/// Returns the number of the first of 1,000 changes after which a boundary has another position than in a document made anew.
fn first_different(alloc: Global, encoding: Encoding) -> Result<Option<usize>, AllocError> {
    let mut dice = Dice { last: 1 };
    let mut doc = Doc::new(alloc, "", encoding)?;
    for number in 0..1_000 {
        let change = dice.change(alloc)?;
        doc.apply(&[change])?;
        let other = Doc::new(alloc, doc.text(), encoding)?;
        if !have_same_positions(&doc, &other) {
            return Ok(Some(number));
        }
    }
    Ok(None)
}

#[test]
fn a_thousand_changes_leave_each_position_as_in_a_new_document(
    rt: HostRuntime,
) -> Result<(), AllocError> {
    for encoding in [Encoding::Utf8, Encoding::Utf16, Encoding::Utf32] {
        assert_eq!(rt; first_different(rt.alloc(), encoding)?, None);
    }
    Ok(())
}
