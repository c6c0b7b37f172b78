//! What an analysis keeps of each piece of a text.
ghost use Rattle.std.specs.Prelude.{◌≡◌, ◌<◌, ◌^◌, ℕ, List, [], length, map, Some, None, IfSome, IfNone};
ghost use Rattle.std.specs.Option.{option_map};
ghost use Rattle.lam_rules.specs.Types.{Typ};
ghost use Rattle.lam_rules.specs.declared.rules.Dialect.{Dialect};
ghost use Rattle.lam_query.specs.Views.{fault_of};
ghost use Rattle.lam_query.specs.declared.bound.NameNo.TheVariants.{Name as NameNumber};
ghost use Rattle.lam_query.specs.declared.rows.CommandRow.{CommandRow as RustCommandRow};
ghost use Rattle.lam_query.specs.inner.Kept.{FoundTypes as KeptTypes, found_of, found_types_of, row_of, rows_of, placed, span_after, Fits, bound_by, found_in, large_written_type, large_term, types_of_found, faults_found, bytes_of};
ghost use Rattle.lam_query.specs.inner.Rows.{Front, nothing, AreRowsFrom, IsRowAround};

use crate::answers::Fault;
use crate::bound::NameNo;
use lam_rules::TyNo;
use lam_token::Span;

/// What an analysis keeps of one piece of the text: its diagnostics and the types found in its command. Offsets are relative to
/// the start of the piece, so a row stays valid when the piece moves.
#[derive(Drop)]
pub(crate) struct Row {
    /// Where the piece ends, relative to its start like all offsets here: its length in bytes.
    pub(crate) end: usize,
    /// The lexical and syntactic diagnostics.
    pub(crate) syntax: Vec<Fault>,
    /// What is kept of the command that the piece is, if it is one.
    pub(crate) command: Option<CommandRow>,
}

/// What an analysis keeps of one command.
#[derive(Drop)]
pub(crate) struct CommandRow {
    /// The numbers of the names and type names that are free in it.
    pub(crate) free_numbers: Vec<NameNo>,
    /// The number of the name that it binds for the commands after it.
    pub(crate) binds: Option<NameNo>,
    pub(crate) found: Found,
}

/// The types of a command, or the span of a type over the size limit.
#[derive(Drop)]
pub(crate) enum Found {
    /// The span of the first written type over the size limit.
    LargeWrittenType(Span),
    /// The span of the first term whose type is over the size limit.
    LargeTerm(Span),
    Types(FoundTypes),
}

/// The types of a command in which none is over the size limit.
#[derive(Drop)]
pub(crate) struct FoundTypes {
    /// The types of its terms, indexed by term number; `None` for a term that has no type.
    pub(crate) types: Vec<Option<TyNo>>,
    /// The diagnostics of its written types, then those of its terms at fault.
    pub(crate) faults: Vec<Fault>,
    /// The context entry of the name it binds, or the type that its type name stands for.
    pub(crate) bound: Option<TyNo>,
}

/// The position of a piece in its text.
#[derive(Clone, Copy)]
pub(crate) struct PlacedRow {
    /// The byte offset at which it starts.
    pub(crate) start: usize,
    /// The index of its row.
    pub(crate) number: usize,
}

impl Row {
    /// The types of its command, or `None` if it has no command or one with a type over the size limit.
    fn found(&self) -> Option<&FoundTypes>
        ensures { option_map (λ t. found_types_of t.now) result ≡ types_of_found (found_in (row_of self.now)) }
    {
        let command = self.command.as_ref()?;
        match &command.found {
            Found::Types(found) => Some(found),
            _ => None,
        }
    }

    /// The context entry of the name that its command binds; `None` if it binds no name.
    pub(crate) fn name_entry(&self) -> Option<Option<TyNo>>
        ensures some { IfSome result (λ entry. (k : RustCommandRow) × (n : ℕ) × (self.now.command ≡ Some k) × (k.binds ≡ Some (NameNumber n)) × (entry ≡ bound_by (found_of k.found))) }
        ensures none { IfNone result ((k : RustCommandRow) (n : ℕ) → self.now.command ≡ Some k → k.binds ≡ Some (NameNumber n) → ⊥) }
    {
        let Some(command) = &self.command else {
            return None;
        };
        match command.binds {
            Some(NameNo::Name(_)) => Some(command.found.bound()),
            _ => None,
        }
    }

    /// The types of the terms of its command, indexed by term number.
    pub(crate) fn types(&self) -> Option<&[Option<TyNo>]>
        ensures some { IfSome result (λ types. (t : KeptTypes) × (types_of_found (found_in (row_of self.now)) ≡ Some t) × (types.now ≡ t.types)) }
        ensures none { IfNone result (types_of_found (found_in (row_of self.now)) ≡ None) }
    {
        Some(&self.found()?.types)
    }

    /// The span of its first written type over the size limit, if any.
    pub(crate) fn large_written_type(&self) -> Option<Span>
        ensures { result ≡ large_written_type (found_in (row_of self.now)) }
    {
        let command = self.command.as_ref()?;
        match command.found {
            Found::LargeWrittenType(span) => Some(span),
            _ => None,
        }
    }

    /// The span of its first term whose type is over the size limit, if any.
    pub(crate) fn large_term(&self) -> Option<Span>
        ensures { result ≡ large_term (found_in (row_of self.now)) }
    {
        let command = self.command.as_ref()?;
        match command.found {
            Found::LargeTerm(span) => Some(span),
            _ => None,
        }
    }

    /// The diagnostics of its types and terms.
    pub(crate) fn faults(&self) -> &[Fault]
        ensures { map fault_of result.now ≡ faults_found (found_in (row_of self.now)) }
    {
        match self.found() {
            Some(found) => &found.faults,
            None => &[],
        }
    }
}

impl Found {
    /// The context entry of what the command binds, or `None` if one of its types is over the size limit.
    pub(crate) fn bound(&self) -> Option<TyNo>
        ensures { result ≡ bound_by (found_of self.now) }
    {
        match self {
            Found::Types(found) => found.bound,
            _ => None,
        }
    }
}

/// Shifts a span forward by this many bytes.
pub(crate) fn span_after(bytes: usize, span: Span) -> Span
    ensures { Fits (span_after bytes span) → result ≡ span_after bytes span }
{
    Span {
        start: span.start.saturating_add(bytes),
        end: span.end.saturating_add(bytes),
    }
}

/// Returns the piece around an offset, or `None` if there are no rows. The last piece covers every offset from its start on.
pub(crate) fn row_around(rows: &[Row], offset: usize) -> Option<PlacedRow>
    requires { bytes_of (rows_of rows.now) < 2 ^ 64 }
    ensures some { IfSome result (λ place. (text : List ℕ) (f : Front) (ts : List Typ) (d : Dialect) → AreRowsFrom text nothing (placed 0 (rows_of rows.now)) f ts d → f.end ≡ length text → IsRowAround text offset (placed 0 (rows_of rows.now)) place ts d) }
    ensures none { IfNone result (rows.now ≡ []) }
{
    let mut start = 0;
    for i in 0..rows.len() {
        let end = start + rows[i].end;
        if offset < end || i + 1 == rows.len() {
            return Some(PlacedRow { start, number: i });
        }
        start = end;
    }
    None
}
