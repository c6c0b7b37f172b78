//! Explained diagnostics: what the subterms at fault expect of their parts, and what was found there.
ghost use Rattle.std.specs.Prelude.{◌≡◌, ◌++◌, ℕ, List, length, map, get_or, Option, Some, None, All, Contains, IfOk, OnOk, IfSome, IfNone};
ghost use Rattle.std.specs.List.Sorted.{IsPermutation};
ghost use Rattle.std.specs.Option.{option_map};
ghost use Rattle.lam_rules.specs.Numbers.{type_of, Stands};
ghost use Rattle.lam_rules.specs.TermViews.{term_of, written_of};
ghost use Rattle.lam_rules.specs.Texts.{text};
ghost use Rattle.lam_rules.specs.declared.rules.Dialect.{Dialect as RuleDialect};
ghost use Rattle.lam_syntax.specs.Trees.{CommandTree};
ghost use Rattle.lam_scope.specs.Labels.{place_in};
ghost use Rattle.lam_scope.specs.Tables.{place_row_numbered};
ghost use Rattle.lam_scope.specs.Views.{AreScopesOf, table_of};
ghost use Rattle.lam_typing.specs.Typings.{types_of, found_of};
ghost use Rattle.lam_typing.specs.Walk.{blames_of};
ghost use Rattle.lam_query.specs.Analyses.{IsAnalysisOf, dialect_of};
ghost use Rattle.lam_query.specs.Commands.{AreCommandsOfText};
ghost use Rattle.lam_query.specs.Faults.{AreInOrder};
ghost use Rattle.lam_query.specs.Mismatches.{expected, in_application, in_fix, IsMismatch, ExplainedFault as Explained, AreExplained};
ghost use Rattle.lam_query.specs.Within.{IsSpanOfText};
ghost use Rattle.lam_query.specs.Views.{fault_of, mismatch_of, explained_of};
ghost use Rattle.lam_query.specs.inner.Explained.{mismatch_in, HasParts, IsBlamedAt, unexplained, AreAdded, AreToldOf, AreEntriesAround};
ghost use Rattle.lam_query.specs.inner.Kept.{rows_of, placed, fault_after, AllFit, all_faults, faults_found, found_in};
ghost use Rattle.lam_query.specs.inner.Typings.{AreTypesOf};

use crate::analyses::Analysis;
use crate::answers::{ExplainedFault, Fault, Mismatch};
use crate::entries::Entries;
use crate::pieces::PieceAt;
use crate::reading::command_in;
use crate::rows::span_after;
use crate::typings::{Types, types_of};
use lam_rules::{Core, Dialect, Shape, Ty, TyNo, TyTable, text_of};
use lam_scope::{Place, Scopes, bind};
use lam_typing::{Blame, Typing};
use std::alloc::{AllocError, Global};
use std::slice;

/// Returns the diagnostics of a text in the order of `faults`, each with the mismatch at its subterm if there is one: an unbound
/// name and a repeated label have none, nor has what is not about a subterm.
pub fn explained_faults(
    alloc: Global,
    text: &str,
    dialect: Dialect,
) -> Result<Vec<ExplainedFault>, AllocError>
    ensures explained { IfOk result (λ all. AreExplained text.now (map explained_of all.items) dialect) }
    ensures whole_characters { IfOk result (λ all. All (λ e. IsSpanOfText text.now e.fault.span) all.items) }
{
    Analysis::new(alloc, text, dialect)?.explained_faults(alloc, text)
}

impl Analysis {
    /// Returns the diagnostics of the text in the order of `faults`, each with the mismatch at its subterm if there is one. The
    /// commands with type diagnostics are parsed and typed again.
    pub fn explained_faults(
        &self,
        alloc: Global,
        text: &str,
    ) -> Result<Vec<ExplainedFault>, AllocError>
        requires { IsAnalysisOf text.now self.now }
        ensures explained { IfOk result (λ all. AreExplained text.now (map explained_of all.items) (dialect_of self.now)) }
        ensures whole_characters { IfOk result (λ all. All (λ e. IsSpanOfText text.now e.fault.span) all.items) }
    {
        let mut all = Vec::new(alloc);
        push_unexplained(&mut all, 0, &self.row_faults.syntax)?;
        match self.row_faults.large {
            Some(span) => all.push(ExplainedFault {
                fault: Fault { code: "L1", span },
                mismatch: None,
            })?,
            None => self.push_explained(alloc, text, &mut all)?,
        }
        put_in_order(&mut all)?;
        Ok(all)
    }

    /// Appends the type diagnostics of all pieces.
    fn push_explained(
        &self,
        alloc: Global,
        text: &str,
        all: &mut Vec<ExplainedFault>,
    ) -> Result<(), AllocError>
        requires of { IsAnalysisOf text.now self.now }
        requires small { self.now.row_faults.large ≡ None }
        ensures { OnOk result ((commands : List CommandTree) → AreCommandsOfText text.now commands → AreAdded commands (all_faults (placed 0 (rows_of self.now.rows.items))) (map explained_of all.old.items) (map explained_of all.new.items) self.now.dialect) }
    {
        let mut entries = Entries::after(alloc, &self.bound, &[])?;
        let mut start = 0;
        for number in 0..self.rows.len() {
            let row = &self.rows[number];
            let piece = PieceAt {
                text: &text[start..start + row.end],
                start,
                number,
            };
            self.push_faults_of(alloc, piece, &entries, all)?;
            entries.pass(slice::from_ref(row));
            start += row.end;
        }
        Ok(())
    }

    /// Appends the diagnostics of one piece, before which names have these entries: of written types, then of terms.
    fn push_faults_of(
        &self,
        alloc: Global,
        piece: PieceAt<'_>,
        entries: &Entries,
        all: &mut Vec<ExplainedFault>,
    ) -> Result<(), AllocError>
        requires there { (text : List ℕ) × IsAnalysisOf text self.now × AreEntriesAround text self.now piece entries.now }
        requires small { self.now.row_faults.large ≡ None }
        ensures { OnOk result ((text : List ℕ) (commands : List CommandTree) (h : AreEntriesAround text self.now piece.entry entries.now) → IsAnalysisOf text self.now → AreCommandsOfText text commands → AreAdded commands (faults_found (found_in h.here.around.row)) (map explained_of all.old.items) (map explained_of all.new.items) self.now.dialect) }
    {
        let faults = self.rows[piece.number].faults();
        if faults.is_empty() {
            return Ok(());
        }
        let Some(command) = command_in(alloc, piece.text, piece.start)? else {
            return Ok(());
        };
        let alone = self.alone_by(alloc, entries, command)?;
        let scopes = bind(alloc, &alone.commands)?;
        let Some(types) = types_of(alloc, &alone.commands, &scopes, self.dialect)? else {
            return Ok(());
        };
        let blames = types.typing.blamed();
        let written = faults.len().saturating_sub(blames.len());
        push_unexplained(all, piece.start, &faults[..written])?;
        push_blames(alloc, all, &scopes, &types, blames)
    }
}

/// Sorts diagnostics by start, then by end, then by code.
fn put_in_order(all: &mut Vec<ExplainedFault>) -> Result<(), AllocError>
    ensures same { OnOk result (IsPermutation (map explained_of all.old.items) (map explained_of all.new.items)) }
    ensures order { OnOk result (AreInOrder (map (λ e. fault_of e.fault) all.old.items) (map (λ e. fault_of e.fault) all.new.items)) }
{
    all.sort_by_key(|e| (e.fault.span.start, e.fault.span.end, e.fault.code))?;
    Ok(())
}

/// Appends diagnostics that have no explanation, each shifted by this many bytes.
fn push_unexplained(
    all: &mut Vec<ExplainedFault>,
    bytes: usize,
    faults: &[Fault],
) -> Result<(), AllocError>
    ensures { OnOk result (AllFit (map (λ f. fault_after bytes (fault_of f)) faults.now) → map explained_of all.new.items ≡ map explained_of all.old.items ++ map unexplained (map (λ f. fault_after bytes (fault_of f)) faults.now)) }
{
    for i in 0..faults.len() {
        let fault = faults[i];
        all.push(ExplainedFault {
            fault: Fault {
                code: fault.code,
                span: span_after(bytes, fault.span),
            },
            mismatch: None,
        })?;
    }
    Ok(())
}

/// Appends the diagnostics of the subterms at fault.
fn push_blames(
    alloc: Global,
    all: &mut Vec<ExplainedFault>,
    scopes: &Scopes,
    types: &Types,
    blames: &[Blame],
) -> Result<(), AllocError>
    requires { All (λ b. IsBlamedAt scopes.now types.now b.place) blames.now }
    ensures { OnOk result ((commands : List CommandTree) (d : RuleDialect) → AreScopesOf scopes.now commands → AreTypesOf commands types.now d → (added : List Explained) × (map explained_of all.new.items ≡ map explained_of all.old.items ++ added) × AreToldOf commands (blames_of blames.now) added d) }
{
    for i in 0..blames.len() {
        let blame = blames[i];
        all.push(ExplainedFault {
            fault: Fault {
                code: blame.code,
                span: scopes.span_of(blame.place),
            },
            mismatch: mismatch_at(alloc, scopes, types, blame.place)?,
        })?;
    }
    Ok(())
}

/// Returns the mismatch at a subterm at fault, if there is one. All parts of the subterm have types.
fn mismatch_at(
    alloc: Global,
    scopes: &Scopes,
    types: &Types,
    place: Place,
) -> Result<Option<Mismatch>, AllocError>
    requires { IsBlamedAt scopes.now types.now place }
    ensures { IfOk result (λ made. (commands : List CommandTree) (d : RuleDialect) → AreScopesOf scopes.now commands → AreTypesOf commands types.now d → IsMismatch (place_in commands place.0).scope (place_in commands place.0).here (option_map mismatch_of made) d) }
{
    let Some(parts) = types_of_parts(alloc, scopes, &types.typing, place)? else {
        return Ok(None);
    };
    let term = types.resolved.core_at(place);
    mismatch_of(alloc, types.typing.table(), term, &parts)
}

/// Returns the types of the immediate subterms, from left to right, if all have one.
fn types_of_parts(
    alloc: Global,
    scopes: &Scopes,
    typing: &Typing,
    place: Place,
) -> Result<Option<Vec<TyNo>>, AllocError>
    ensures some { IfOk result (λ found. IfSome found (λ parts. map Some (map (type_of (types_of typing.now)) parts.items) ≡ map (λ n. get_or (found_of typing.now) n None) (place_row_numbered (table_of scopes.now) place.0).terms)) }
    ensures stand { IfOk result (λ found. IfSome found (λ parts. All (Stands (types_of typing.now)) parts.items)) }
    ensures none { IfOk result (λ found. IfNone found ((n : ℕ) × Contains (place_row_numbered (table_of scopes.now) place.0).terms n × (get_or (found_of typing.now) n None ≡ None))) }
{
    let places = scopes.terms_of(place);
    let mut parts = Vec::with_capacity(alloc, places.len())?;
    for i in 0..places.len() {
        let Some(number) = typing.type_at(places[i]) else {
            return Ok(None);
        };
        parts.push(number)?;
    }
    Ok(Some(parts))
}

/// Returns the mismatch of a term at fault whose parts have these types, if there is one.
fn mismatch_of(
    alloc: Global,
    table: &TyTable,
    term: &Core,
    parts: &[TyNo],
) -> Result<Option<Mismatch>, AllocError>
    requires stand { All (Stands table.now) parts.now }
    requires many { HasParts (term_of term.now) (length parts.now) }
    ensures { IfOk result (λ made. option_map mismatch_of made ≡ mismatch_in (term_of term.now) (map (type_of table.now) parts.now)) }
{
    match term {
        Core::App(_) => Ok(Some(in_application(table, parts[0], parts[1])?)),
        Core::If(_) => Ok(Some(below(alloc, "Bool", table, parts[0])?)),
        Core::Succ(_) | Core::Pred(_) | Core::IsZero(_) => {
            Ok(Some(below(alloc, "Nat", table, parts[0])?))
        }
        Core::Proj(_) => Ok(Some(Mismatch::Found(table.text(parts[0])?))),
        Core::Ascribe(ascription) => in_ascription(alloc, table, &ascription.1, parts[0]),
        Core::Fix(_) => Ok(Some(in_fix(table, parts[0])?)),
        _ => Ok(None),
    }
}

fn in_application(table: &TyTable, function: TyNo, argument: TyNo) -> Result<Mismatch, AllocError>
    requires function { Stands table.now function }
    requires argument { Stands table.now argument }
    ensures { IfOk result (λ made. mismatch_of made ≡ in_application (type_of table.now function) (type_of table.now argument)) }
{
    match table.shape(function) {
        Shape::Arrow(parameter, _) => Ok(Mismatch::Expected {
            expected: table.text(*parameter)?,
            found: table.text(argument)?,
        }),
        _ => Ok(Mismatch::Found(table.text(function)?)),
    }
}

/// The mismatch of a term that should have this type, `Bool` or `Nat`, with the type that it has.
fn below(alloc: Global, asked: &str, table: &TyTable, term: TyNo) -> Result<Mismatch, AllocError>
    requires { Stands table.now term }
    ensures { IfOk result (λ made. mismatch_of made ≡ expected asked.now (text (type_of table.now term))) }
{
    Ok(Mismatch::Expected {
        expected: String::from_str(alloc, asked)?,
        found: table.text(term)?,
    })
}

/// The mismatch of an ascription, or `None` if the written type does not stand for a type.
fn in_ascription(
    alloc: Global,
    table: &TyTable,
    ascribed: &Option<Ty>,
    term: TyNo,
) -> Result<Option<Mismatch>, AllocError>
    requires { Stands table.now term }
    ensures { IfOk result (λ made. option_map mismatch_of made ≡ option_map (λ w. expected (text w) (text (type_of table.now term))) (written_of ascribed.now)) }
{
    match ascribed {
        Some(ty) => Ok(Some(Mismatch::Expected {
            expected: text_of(alloc, ty)?,
            found: table.text(term)?,
        })),
        None => Ok(None),
    }
}

fn in_fix(table: &TyTable, function: TyNo) -> Result<Mismatch, AllocError>
    requires { Stands table.now function }
    ensures { IfOk result (λ made. mismatch_of made ≡ in_fix (type_of table.now function)) }
{
    match table.shape(function) {
        Shape::Arrow(parameter, outcome) => Ok(Mismatch::Expected {
            expected: table.text(*parameter)?,
            found: table.text(*outcome)?,
        }),
        _ => Ok(Mismatch::Found(table.text(function)?)),
    }
}
