//! Results as JSON values, in the shapes of LSP 3.17.
mod derivations;
mod diagnostics;
mod objects;
mod ranges;

pub use derivations::derivation_value;
pub use diagnostics::{Diagnostic, diagnostic_values, message_of};
pub(crate) use diagnostics::{diagnostic_value, diagnostics};
pub use objects::Object;
pub(crate) use ranges::{location_at, range_of, range_value, ranges_of, written_range};
