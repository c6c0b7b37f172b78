//! The elements of the lists that are sent, in the shapes of LSP 3.17.

use crate::lists::Shape;
use crate::rename::edit_at;
use crate::values::{Diagnostic, diagnostic_value, location_at};
use lam_text::Range;
use serde_json::Value;
use std::alloc::{AllocError, Global};

/// Diagnostics, as they are.
#[derive(Clone, Copy)]
pub(crate) struct DiagnosticShape;

/// Ranges as locations in the document with this URI.
#[derive(Clone, Copy)]
pub(crate) struct LocationShape<'a> {
    pub(crate) uri: &'a str,
}

/// Ranges as edits that replace each by the new name.
#[derive(Clone, Copy)]
pub(crate) struct EditShape<'a> {
    pub(crate) new: &'a str,
}

impl Shape for DiagnosticShape {
    ghost use Rattle.std.specs.Prelude.{refl};
    ghost use Rattle.lam_session.specs.Outgoing.{diagnostic_data};

    type Element = Diagnostic;

    ghost shown = { λ shape diagnostic. diagnostic_data diagnostic };

    fn value_of(&self, alloc: Global, diagnostic: &Diagnostic) -> Result<Value, AllocError> {
        diagnostic_value(alloc, *diagnostic)
    }

    ghost plain = { λ shape diagnostic. refl };
}

impl Shape for LocationShape<'_> {
    ghost use Rattle.std.specs.Prelude.{refl};
    ghost use Rattle.lam_session.specs.Ranges.{location_at};

    type Element = Range;

    ghost shown = { λ shape range. location_at shape.uri.now range };

    fn value_of(&self, alloc: Global, range: &Range) -> Result<Value, AllocError> {
        location_at(alloc, self.uri, *range)
    }

    ghost plain = { λ shape range. refl };
}

impl Shape for EditShape<'_> {
    ghost use Rattle.std.specs.Prelude.{refl};
    ghost use Rattle.lam_session.specs.Renames.{edit_at};

    type Element = Range;

    ghost shown = { λ shape range. edit_at shape.new.now range };

    fn value_of(&self, alloc: Global, range: &Range) -> Result<Value, AllocError> {
        edit_at(alloc, self.new, *range)
    }

    ghost plain = { λ shape range. refl };
}
