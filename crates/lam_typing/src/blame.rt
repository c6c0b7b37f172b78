//! Subterms at fault.

use lam_scope::Place;

/// A subterm at fault for having no type, and the code of the diagnostic: `E1` an unbound name, `E2` not a function, `E3` an
/// argument that does not fit, `E4` no such field, `E5` a condition, `E6` an operand, `E7` an ascription, `E8` a fix, `E9` a
/// repeated label in a record.
#[derive(Clone, Copy, Debug, PartialEq, Eq)]
pub struct Blame {
    pub place: Place,
    pub code: &'static str,
}
