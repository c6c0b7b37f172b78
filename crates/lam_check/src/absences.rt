//! Why there is no derivation at a position.
ghost use Rattle.std.specs.Prelude.{◌≡◌, ◌↔◌, IsTrue, IfOk};
ghost use Rattle.lam_text.specs.declared.units.Encoding.{Encoding as Units};
ghost use Rattle.lam_check.specs.Absences.{IsAbsence, absence_text};
ghost use Rattle.lam_check.specs.Drawings.{HasPlace};

use crate::positions::offset_at;
use lam_text::{Doc, Encoding, Position};
use std::alloc::{AllocError, Global};

/// What is missing at a position without a derivation.
#[derive(Clone, Copy, Debug, PartialEq, Eq)]
pub enum Absence {
    /// The text has no such line.
    Line,
    /// The line has no such column.
    Column,
    /// The text has the position, but no type is shown there.
    Type,
}

impl Absence {
    /// The error message.
    #[tactic(auto, unfolding(crate::specs::Absences::absence_text))]
    pub fn message(self) -> &'static str
        ensures { result.now ≡ absence_text self }
    {
        match self {
            Absence::Line => "the text has no such line",
            Absence::Column => "the line has no such column",
            Absence::Type => "no type is shown there",
        }
    }
}

/// Returns what is missing at a position without a derivation. Columns count characters.
pub fn absence_at(alloc: Global, text: &str, place: Position) -> Result<Absence, AllocError>
    ensures { IfOk result (λ absence. IsAbsence text.now place absence) }
{
    let doc = Doc::new(alloc, text, Encoding::Utf32)?;
    let start = Position {
        line: place.line,
        character: 0,
    };
    if !has_place(&doc, start) {
        return Ok(Absence::Line);
    }
    if !has_place(&doc, place) {
        return Ok(Absence::Column);
    }
    Ok(Absence::Type)
}

/// Whether a text has a position.
fn has_place(doc: &Doc, place: Position) -> bool
    requires { doc.now.encoding ≡ Units.Utf32 }
    ensures { IsTrue result ↔ HasPlace doc.now.text place }
{
    offset_at(doc, place).is_some()
}
