//! Incremental update of an analysis when its text changes.
ghost use Rattle.std.specs.Prelude.{◌≡◌, ◌<◌, ◌≤◌, ◌+◌, ◌++◌, [], ℕ, List, length, take, drop, IfOk, OnOk};
ghost use Rattle.std.specs.Option.{option_map};
ghost use Rattle.lam_rules.specs.Numbers.{Keeps};
ghost use Rattle.lam_rules.specs.Types.{Typ};
ghost use Rattle.lam_typing.specs.Checking.{types_in, dialect_in};
ghost use Rattle.lam_query.specs.Analyses.{IsAnalysisOf, dialect_of};
ghost use Rattle.lam_query.specs.inner.Analysts.{IsSound, IsBetweenPieces, IsReadTo, IsReadThrough};
ghost use Rattle.lam_query.specs.inner.Bound.{HaveNumbers, KeepsNumbers};
ghost use Rattle.lam_query.specs.inner.ChangedNames.{AgreeOnUnchanged};
ghost use Rattle.lam_query.specs.inner.Changes.{IsMet, IsFollowedTo, AreOldPieces};
ghost use Rattle.lam_query.specs.inner.Entries.{IsMeantBy};
ghost use Rattle.lam_query.specs.inner.Fronts.{AreBoundBy, StandBy};
ghost use Rattle.lam_query.specs.inner.Kept.{command_row_of, entry_in, rows_of};
ghost use Rattle.lam_query.specs.inner.PieceRows.{Sight, outset};
ghost use Rattle.lam_query.specs.declared.bound.Bound.{Bound};

use crate::analyses::{Analysis, Analyst};
use crate::changed_names::ChangedNames;
use crate::ends::{OldPieces, common_end};
use crate::entries::Entries;
use crate::fronts::{FrontRows, bind_again, common_front, rows_within};
use crate::reading::{Reader, command_in};
use crate::rows::{CommandRow, Row};
use lam_rules::TyNo;
use std::alloc::{AllocError, Global};
use std::mem;

impl Analysis {
    /// Turns the analysis of the old text into that of the new one. Rows before and after the change are reused, except those of
    /// commands with a free name whose meaning changed. Nothing is reused if, since the last analysis from scratch, the tables have
    /// grown or text was read more than `is_overgrown` allows. On an error the old analysis is gone, since it is taken by value.
    pub fn changed(self, alloc: Global, old: &str, new: &str) -> Result<Analysis, AllocError>
        requires { IsAnalysisOf old.now self }
        ensures of { IfOk result (λ made. IsAnalysisOf new.now made) }
        ensures dialect { IfOk result (λ made. dialect_of made ≡ dialect_of self) }
    {
        let dialect = self.dialect;
        if self.is_overgrown(old) {
            drop(self);
            return Analysis::new(alloc, new, dialect);
        }
        let front = rows_within(&self.rows, common_front(old, new));
        let common = common_end(old, new);
        let (mut analyst, rows) = Analyst::after(alloc, self, front);
        let mut earlier = Entries::of(alloc, &analyst.bound)?;
        let mut old_pieces = OldPieces::new(&rows, front, old, common);
        analyst.read_until(new, &mut old_pieces)?;
        let met = old_pieces.next;
        let count = rows.len();
        earlier.pass(&rows[front.count..met]);
        let next = analyst.put_between(rows, front.count, met)?;
        if met == count {
            return analyst.finish(new, dialect);
        }
        analyst.follow(new, next, &earlier)?;
        analyst.finish(new, dialect)
    }

    /// Whether names, types and results that the text no longer needs may take up most of the memory: since the last analysis
    /// from scratch the tables have more than doubled, and have more than 8,192 entries; or, since the letters of names and labels
    /// take up memory too, more than twice the bytes of the text and 65,536 more have been read.
    fn is_overgrown(&self, text: &str) -> bool {
        let entries = self.initial_size.saturating_mul(2).max(8_192);
        let bytes = text.len().saturating_mul(2).saturating_add(65_536);
        self.size() > entries || self.bytes_read > bytes
    }
}

impl<'t> Analyst<'t> {
    /// An analyst that has read the first pieces of a text, with exactly what they bind. Also returns the rows of all pieces.
    fn after(alloc: Global, analysis: Analysis, front: FrontRows) -> (Analyst<'t>, Vec<Row>)
        requires numbers { HaveNumbers analysis.bound }
        requires inside { front.count ≤ length analysis.rows.items }
        ensures rows { result.1 ≡ analysis.rows }
        ensures types { result.0.types ≡ analysis.types }
        ensures none { result.0.rows.items ≡ [] }
        ensures end { result.0.end ≡ front.end }
        ensures commands_typed { result.0.commands_typed ≡ analysis.commands_typed }
        ensures bytes_read { result.0.bytes_read ≡ analysis.bytes_read }
        ensures between { IsBetweenPieces result.0 }
        ensures bound { AreBoundBy (rows_of (take front.count analysis.rows.items)) analysis.bound result.0.bound }
        ensures stand { StandBy (rows_of (take front.count analysis.rows.items)) analysis.bound result.0.bound }
        ensures keeps { KeepsNumbers analysis.bound result.0.bound }
        ensures numbers { HaveNumbers result.0.bound }
    {
        let Analysis {
            rows,
            row_faults: _row_faults,
            mut bound,
            types,
            dialect: _dialect,
            commands_typed,
            bytes_read,
            initial_size,
        } = analysis;
        bind_again(&mut bound, &rows[..front.count]);
        let analyst = Analyst {
            alloc,
            reader: Reader::new(alloc),
            types,
            bound,
            rows: Vec::new(alloc),
            end: front.end,
            commands_typed,
            bytes_read,
            initial_size,
        };
        (analyst, rows)
    }

    /// Reads pieces until one starts that the old text also has, along with all that follows it, or else to the end of the text.
    fn read_until(&mut self, text: &'t str, old: &mut OldPieces<'_>) -> Result<(), AllocError>
        requires sound { IsSound self.old }
        requires read { (ahead : List ℕ) × (s : Sight) × (rest : List ℕ) × IsReadTo ahead s text.now rest self.old }
        requires old { (before : List ℕ) × (pieces : List (List ℕ)) × AreOldPieces before text.now pieces old.old }
        ensures met { OnOk result ((ahead : List ℕ) (s : Sight) (rest before : List ℕ) (pieces : List (List ℕ)) → IsReadTo ahead s text.now rest self.old → AreOldPieces before text.now pieces old.old → IsMet ahead s text.now pieces old.new.next self.new) }
        ensures forward { OnOk result (old.old.next ≤ old.new.next) }
        ensures keeps { OnOk result (Keeps (types_in self.old.types) (types_in self.new.types)) }
        ensures numbers { OnOk result (KeepsNumbers self.old.bound self.new.bound) }
        ensures sound { OnOk result (IsSound self.new) }
        ensures dialect { dialect_in self.new.types ≡ dialect_in self.old.types }
    {
        while !old.is_met(text.len() - self.end) {
            if !self.read_piece(text)? {
                old.pass_all();
                return Ok(());
            }
        }
        Ok(())
    }

    /// Replaces the rows `from..to` by those that were read, and returns the index of the row after them.
    fn put_between(&mut self, rows: Vec<Row>, from: usize, to: usize) -> Result<usize, AllocError>
        requires forward { from ≤ to }
        requires inside { to ≤ length rows.items }
        ensures next { IfOk result (λ next. next ≡ from + length self.old.rows.items) }
        ensures rows { OnOk result (self.new.rows.items ≡ take from rows.items ++ (self.old.rows.items ++ drop to rows.items)) }
        ensures types { self.new.types ≡ self.old.types }
        ensures bound { self.new.bound ≡ self.old.bound }
        ensures end { self.new.end ≡ self.old.end }
        ensures commands_typed { self.new.commands_typed ≡ self.old.commands_typed }
        ensures bytes_read { self.new.bytes_read ≡ self.old.bytes_read }
    {
        let mut rows = rows;
        let read = mem::replace(&mut self.rows, Vec::new(self.alloc));
        let next = from + read.len();
        rows.splice(from..to, read)?;
        self.rows = rows;
        Ok(next)
    }

    /// Goes over the rows after a change, starting with this one, and rebuilds those of commands with a free name whose meaning
    /// changed.
    fn follow(&mut self, text: &'t str, next: usize, earlier: &Entries) -> Result<(), AllocError>
        requires sound { IsSound self.old }
        requires followed { (ts : List Typ) × (b : Bound) × IsFollowedTo text.now next ts b (λ was now. IsMeantBy was ts b earlier.now) self.old }
        ensures read { OnOk result (IsReadThrough [] outset text.now self.new) }
        ensures bytes_read { OnOk result (self.old.bytes_read ≤ self.new.bytes_read) }
        ensures sound { OnOk result (IsSound self.new) }
        ensures dialect { dialect_in self.new.types ≡ dialect_in self.old.types }
    {
        if earlier.is_now(&self.bound) {
            return Ok(());
        }
        let mut changed = ChangedNames::between(self.alloc, earlier, &self.bound)?;
        for i in next..self.rows.len() {
            self.follow_row(text, i, &mut changed)?;
        }
        Ok(())
    }

    /// Keeps the row at this index, unless its command has a free name whose meaning changed.
    fn follow_row(
        &mut self,
        text: &'t str,
        number: usize,
        changed: &mut ChangedNames,
    ) -> Result<(), AllocError>
        requires sound { IsSound self.old }
        requires inside { number < length self.old.rows.items }
        requires followed { (ts : List Typ) × (b : Bound) × IsFollowedTo text.now number ts b (AgreeOnUnchanged b changed.old) self.old }
        ensures followed { OnOk result ((ts : List Typ) (b : Bound) → IsFollowedTo text.now number ts b (AgreeOnUnchanged b changed.old) self.old → IsFollowedTo text.now (number + 1) ts b (AgreeOnUnchanged b changed.new) self.new) }
        ensures count { OnOk result (length self.new.rows.items ≡ length self.old.rows.items) }
        ensures bytes_read { OnOk result (self.old.bytes_read ≤ self.new.bytes_read) }
        ensures sound { OnOk result (IsSound self.new) }
        ensures dialect { dialect_in self.new.types ≡ dialect_in self.old.types }
    {
        let bytes = self.rows[number].end;
        let Some(command) = &self.rows[number].command else {
            self.end += bytes;
            return Ok(());
        };
        if changed.has_any(&command.free_numbers) {
            return self.type_again(text, number, changed);
        }
        let binds = command.binds;
        let entry = command.found.bound();
        self.end += bytes;
        self.bound.rebind(binds, entry);
        changed.set(binds, false);
        Ok(())
    }

    /// Rebuilds the row at this index from its piece. It is not inlined, so that the pass over rows that stay has a small frame.
    #[inline(never)]
    fn type_again(
        &mut self,
        text: &'t str,
        number: usize,
        changed: &mut ChangedNames,
    ) -> Result<(), AllocError>
        requires sound { IsSound self.old }
        requires inside { number < length self.old.rows.items }
        requires followed { (ts : List Typ) × (b : Bound) × IsFollowedTo text.now number ts b (AgreeOnUnchanged b changed.old) self.old }
        ensures followed { OnOk result ((ts : List Typ) (b : Bound) → IsFollowedTo text.now number ts b (AgreeOnUnchanged b changed.old) self.old → IsFollowedTo text.now (number + 1) ts b (AgreeOnUnchanged b changed.new) self.new) }
        ensures count { OnOk result (length self.new.rows.items ≡ length self.old.rows.items) }
        ensures bytes_read { OnOk result (self.old.bytes_read ≤ self.new.bytes_read) }
        ensures sound { OnOk result (IsSound self.new) }
        ensures dialect { dialect_in self.new.types ≡ dialect_in self.old.types }
    {
        let start = self.end;
        let bytes = self.rows[number].end;
        self.end += bytes;
        self.bytes_read = self.bytes_read.saturating_add(bytes);
        let Some(command) = &self.rows[number].command else {
            return Ok(());
        };
        let binds = command.binds;
        let entry = command.found.bound();
        let command = command_in(self.alloc, &text[start..self.end], 0)?;
        let row = self.keep(&command)?;
        changed.set(binds, entry_of(&row) != entry);
        self.rows[number].command = row;
        Ok(())
    }
}

/// Returns the entry of what a command binds, or `None` if there is no command.
fn entry_of(command: &Option<CommandRow>) -> Option<TyNo>
    ensures { result ≡ entry_in (option_map command_row_of command.now) }
{
    command.as_ref()?.found.bound()
}
