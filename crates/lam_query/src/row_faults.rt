//! The diagnostics that the rows of a text report.
ghost use Rattle.std.specs.Prelude.{◌≡◌, ◌++◌, ◌<◌, ◌^◌, map, IfOk, IfSome, OnOk};
ghost use Rattle.std.specs.Option.{option_map, option_or};
ghost use Rattle.lam_query.specs.Views.{fault_of};
ghost use Rattle.lam_query.specs.inner.Kept.{rows_of, placed, place_after, span_after, fault_after, Fits, AllFit, all_syntax, all_faults, first_large, bytes_of};

use crate::answers::Fault;
use crate::rows::{Row, span_after};
use lam_token::Span;
use std::alloc::{AllocError, Global};

/// The diagnostics that the rows of a text report.
#[derive(Drop)]
pub(crate) struct RowFaults {
    /// The lexical and syntactic diagnostics, row by row.
    pub(crate) syntax: Vec<Fault>,
    /// The type diagnostics. They are not reported if `large` is `Some`.
    pub(crate) types: Vec<Fault>,
    /// The span of the type over the size limit, because of which no types are reported: the first written type, or else the
    /// first term with such a type.
    pub(crate) large: Option<Span>,
}

/// Collects the diagnostics of rows in one pass, since after a small change of a long text a pass over all rows is much of the
/// work. Offsets are relative to the start of the text.
pub(crate) fn collect_faults(alloc: Global, rows: &[Row]) -> Result<RowFaults, AllocError>
    requires { bytes_of (rows_of rows.now) < 2 ^ 64 }
    ensures syntax { IfOk result (λ found. AllFit (all_syntax (placed 0 (rows_of rows.now))) → map fault_of found.syntax.items ≡ all_syntax (placed 0 (rows_of rows.now))) }
    ensures types { IfOk result (λ found. AllFit (all_faults (placed 0 (rows_of rows.now))) → map fault_of found.types.items ≡ all_faults (placed 0 (rows_of rows.now))) }
    ensures large { IfOk result (λ found. IfSome (first_large (placed 0 (rows_of rows.now))) Fits → found.large ≡ first_large (placed 0 (rows_of rows.now))) }
{
    let mut syntax = Vec::new(alloc);
    let mut types = Vec::new(alloc);
    let mut written = None;
    let mut term = None;
    let mut start = 0;
    for i in 0..rows.len() {
        let row = &rows[i];
        push_after(&mut syntax, start, &row.syntax)?;
        push_after(&mut types, start, row.faults())?;
        written = first_of(written, start, row.large_written_type());
        term = first_of(term, start, row.large_term());
        start += row.end;
    }
    let large = place_in_text(written.or(term));
    Ok(RowFaults {
        syntax,
        types,
        large,
    })
}

/// Appends these diagnostics, each shifted by this many bytes.
fn push_after(found: &mut Vec<Fault>, bytes: usize, faults: &[Fault]) -> Result<(), AllocError>
    ensures { OnOk result (AllFit (map (λ f. fault_after bytes (fault_of f)) faults.now) → map fault_of found.new.items ≡ map fault_of found.old.items ++ map (λ f. fault_after bytes (fault_of f)) faults.now) }
{
    for i in 0..faults.len() {
        let fault = faults[i];
        found.push(Fault {
            code: fault.code,
            span: span_after(bytes, fault.span),
        })?;
    }
    Ok(())
}

/// Returns the first span found so far, or else the one here, with the start of its piece.
fn first_of(first: Option<(usize, Span)>, start: usize, here: Option<Span>) -> Option<(usize, Span)>
    ensures { option_map place_after result ≡ option_or (option_map place_after first) (option_map (span_after start) here) }
{
    match here {
        Some(span) => first.or(Some((start, span))),
        None => first,
    }
}

/// Returns the span in the text, given the start of its piece and the span in the piece.
fn place_in_text(place: Option<(usize, Span)>) -> Option<Span>
    ensures { IfSome (option_map place_after place) Fits → result ≡ option_map place_after place }
{
    let (start, span) = place?;
    Some(span_after(start, span))
}
