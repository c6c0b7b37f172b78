//! The diagnostics of a text.
ghost use Rattle.std.specs.Prelude.{map, All, IfOk, OnOk};
ghost use Rattle.lam_query.specs.Analyses.{IsAnalysisOf, dialect_of};
ghost use Rattle.lam_query.specs.Faults.{AreInOrder};
ghost use Rattle.lam_query.specs.TextFaults.{AreFaults};
ghost use Rattle.lam_query.specs.Within.{IsSpanOfText};
ghost use Rattle.lam_query.specs.Views.{fault_of};

use crate::analyses::Analysis;
use crate::answers::Fault;
use lam_rules::Dialect;
use std::alloc::{AllocError, Global};

/// Returns the diagnostics of a text, sorted by start, then by end, then by code.
pub fn faults(alloc: Global, text: &str, dialect: Dialect) -> Result<Vec<Fault>, AllocError>
    ensures faults { IfOk result (λ found. AreFaults text.now (map fault_of found.items) dialect) }
    ensures whole_characters { IfOk result (λ found. All (λ f. IsSpanOfText text.now f.span) found.items) }
{
    Analysis::new(alloc, text, dialect)?.faults(alloc, text)
}

impl Analysis {
    /// Returns the diagnostics of the text, sorted by start, then by end, then by code.
    pub fn faults(&self, alloc: Global, text: &str) -> Result<Vec<Fault>, AllocError>
        requires { IsAnalysisOf text.now self.now }
        ensures faults { IfOk result (λ found. AreFaults text.now (map fault_of found.items) (dialect_of self.now)) }
        ensures whole_characters { IfOk result (λ found. All (λ f. IsSpanOfText text.now f.span) found.items) }
    {
        let mut found = Vec::new(alloc);
        found.extend_from_slice(&self.row_faults.syntax)?;
        match self.row_faults.large {
            Some(span) => found.push(Fault { code: "L1", span })?,
            None => found.extend_from_slice(&self.row_faults.types)?,
        }
        put_in_order(&mut found)?;
        Ok(found)
    }
}

/// Sorts diagnostics by start, then by end, then by code.
fn put_in_order(faults: &mut Vec<Fault>) -> Result<(), AllocError>
    ensures { OnOk result (AreInOrder (map fault_of faults.old.items) (map fault_of faults.new.items)) }
{
    faults.sort_by_key(|fault| (fault.span.start, fault.span.end, fault.code))?;
    Ok(())
}
