//! The analysis of a text, kept piece by piece.
ghost use Rattle.std.specs.Prelude.{◌≡◌, ◌<◌, ◌+◌, ◌^◌, ◌∷◌, [], ℕ, List, Some, IfOk, OnOk};
ghost use Rattle.std.specs.Option.{option_map};
ghost use Rattle.lam_rules.specs.Numbers.{Keeps};
ghost use Rattle.lam_syntax.specs.Views.{command_of};
ghost use Rattle.lam_query.specs.Analyses.{IsAnalysisOf, dialect_of, commands_typed};
ghost use Rattle.lam_typing.specs.Checking.{types_in, dialect_in};
ghost use Rattle.lam_query.specs.inner.Analysts.{IsSound, IsKeptBy, IsPieceEnded, IsReadTo, IsReadThrough, IsReadOn};
ghost use Rattle.lam_query.specs.inner.Bound.{KeepsNumbers};
ghost use Rattle.lam_query.specs.inner.Kept.{command_row_of};
ghost use Rattle.lam_query.specs.inner.PieceRows.{Sight, outset};
ghost use Rattle.lam_query.specs.inner.Reading.{own_of};

use crate::bound::Bound;
use crate::reading::Reader;
use crate::row_faults::{RowFaults, collect_faults};
use crate::rows::{CommandRow, Row};
use crate::typed_commands::found_of;
use lam_rules::Dialect;
use lam_scope::free_names;
use lam_syntax::Command;
use lam_typing::TypeChecker;
use std::alloc::{AllocError, Global};

/// The analysis of a text, kept piece by piece. It stores no command and borrows nothing from the text: each method takes the
/// analysed text again and reads from it what it needs.
#[derive(Drop)]
pub struct Analysis {
    /// The rows of the pieces, in text order. The last piece has no semicolon.
    pub(crate) rows: Vec<Row>,
    /// The diagnostics that the rows report.
    pub(crate) row_faults: RowFaults,
    /// The numbers of names. Their entries are stale: a change binds the names again.
    pub(crate) bound: Bound,
    pub(crate) types: TypeChecker,
    pub(crate) dialect: Dialect,
    /// The number of commands typed by the last analysis from scratch and since then.
    pub(crate) commands_typed: usize,
    /// The length in bytes of all pieces read by the last analysis from scratch and since then.
    pub(crate) bytes_read: usize,
    /// The size of the tables after the last analysis from scratch.
    pub(crate) initial_size: usize,
}

/// An analysis under construction, which reads its text piece by piece.
#[derive(Drop)]
pub(crate) struct Analyst<'t> {
    pub(crate) alloc: Global,
    /// The reader of the current piece.
    pub(crate) reader: Reader<'t>,
    pub(crate) types: TypeChecker,
    /// What is bound after the pieces that were read or followed.
    pub(crate) bound: Bound,
    pub(crate) rows: Vec<Row>,
    /// The byte offset at which the pieces that were read or followed end.
    pub(crate) end: usize,
    pub(crate) commands_typed: usize,
    pub(crate) bytes_read: usize,
    pub(crate) initial_size: usize,
}

impl Analysis {
    /// Analyses a text from scratch.
    pub fn new(alloc: Global, text: &str, dialect: Dialect) -> Result<Analysis, AllocError>
        ensures of { IfOk result (λ made. IsAnalysisOf text.now made) }
        ensures dialect { IfOk result (λ made. dialect_of made ≡ dialect) }
    {
        let mut analyst = Analyst::new(alloc, dialect)?;
        analyst.read(text)?;
        let mut analysis = analyst.finish(text, dialect)?;
        analysis.initial_size = analysis.size();
        Ok(analysis)
    }

    /// The number of entries in the tables, which never shrink: names, types, and results for pairs of types.
    pub(crate) fn size(&self) -> usize {
        self.types.size().saturating_add(self.bound.len())
    }

    /// The number of commands typed by the last analysis from scratch and by the changes since then. For tests only: no clause
    /// says what is counted.
    pub fn commands_typed(&self) -> usize
        ensures { result ≡ commands_typed self.now }
    {
        self.commands_typed
    }
}

impl<'t> Analyst<'t> {
    /// An analyst that has read nothing yet.
    fn new(alloc: Global, dialect: Dialect) -> Result<Analyst<'t>, AllocError>
        ensures read { IfOk result (λ a. (text : List ℕ) → IsReadTo [] outset text text a) }
        ensures sound { IfOk result IsSound }
        ensures dialect { IfOk result (λ a. dialect_in a.types ≡ dialect) }
    {
        Ok(Analyst {
            alloc,
            reader: Reader::new(alloc),
            types: TypeChecker::new(alloc, dialect)?,
            bound: Bound::new(alloc),
            rows: Vec::new(alloc),
            end: 0,
            commands_typed: 0,
            bytes_read: 0,
            initial_size: 0,
        })
    }

    /// Reads all pieces of a text.
    fn read(&mut self, text: &'t str) -> Result<(), AllocError>
        requires sound { IsSound self.old }
        requires read { IsReadTo [] outset text.now text.now self.old }
        ensures read { OnOk result (IsReadThrough [] outset text.now self.new) }
        ensures sound { OnOk result (IsSound self.new) }
        ensures dialect { dialect_in self.new.types ≡ dialect_in self.old.types }
    {
        while self.read_piece(text)? {}
        Ok(())
    }

    /// Reads the next piece of a text, and returns whether it ends with a semicolon.
    pub(crate) fn read_piece(&mut self, text: &'t str) -> Result<bool, AllocError>
        requires sound { IsSound self.old }
        requires read { (ahead : List ℕ) × (s : Sight) × (rest : List ℕ) × IsReadTo ahead s text.now rest self.old }
        ensures read { IfOk result (λ more. (ahead : List ℕ) (s : Sight) (rest : List ℕ) → IsReadTo ahead s text.now rest self.old → IsReadOn more ahead s text.now rest self.new) }
        ensures keeps { OnOk result (Keeps (types_in self.old.types) (types_in self.new.types)) }
        ensures numbers { OnOk result (KeepsNumbers self.old.bound self.new.bound) }
        ensures sound { OnOk result (IsSound self.new) }
        ensures dialect { dialect_in self.new.types ≡ dialect_in self.old.types }
    {
        let end = self.reader.read_piece(&text[self.end..])?;
        self.end_piece(end.bytes)?;
        Ok(end.semicolon)
    }

    /// Ends the current piece, which has this many bytes, and pushes its row.
    fn end_piece(&mut self, bytes: usize) -> Result<(), AllocError>
        requires sound { IsSound self.old }
        requires room { self.old.end + bytes < 2 ^ 64 }
        ensures read { OnOk result (IsPieceEnded bytes self.old self.new) }
        ensures sound { OnOk result (IsSound self.new) }
        ensures dialect { dialect_in self.new.types ≡ dialect_in self.old.types }
    {
        let command = self.reader.end_piece()?;
        let command = self.keep(&command)?;
        let syntax = self.reader.take_faults()?;
        self.rows.push(Row {
            end: bytes,
            syntax,
            command,
        })?;
        self.end += bytes;
        self.bytes_read = self.bytes_read.saturating_add(bytes);
        Ok(())
    }

    /// Returns the row of the next command, if there is one.
    pub(crate) fn keep(
        &mut self,
        command: &Option<Command>,
    ) -> Result<Option<CommandRow>, AllocError>
        requires { IsSound self.old }
        ensures kept { IfOk result (λ row. IsKeptBy (own_of command.now) (option_map command_row_of row) self.old self.new) }
        ensures sound { OnOk result (IsSound self.new) }
        ensures dialect { dialect_in self.new.types ≡ dialect_in self.old.types }
    {
        match command {
            Some(command) => Ok(Some(self.keep_command(command)?)),
            None => Ok(None),
        }
    }

    /// Returns the row of a command, and binds what it binds.
    fn keep_command(&mut self, command: &Command) -> Result<CommandRow, AllocError>
        requires { IsSound self.old }
        ensures kept { IfOk result (λ row. IsKeptBy (command_of command.now ∷ []) (Some (command_row_of row)) self.old self.new) }
        ensures sound { OnOk result (IsSound self.new) }
        ensures dialect { dialect_in self.new.types ≡ dialect_in self.old.types }
    {
        let free = free_names(self.alloc, command)?;
        let (free_numbers, around) = self.bound.around(self.alloc, &free)?;
        let found = found_of(self.alloc, &mut self.types, around, command)?;
        let binds = self.bound.bind(self.alloc, command, found.bound())?;
        self.commands_typed = self.commands_typed.saturating_add(1);
        Ok(CommandRow {
            free_numbers,
            binds,
            found,
        })
    }

    /// Finishes the analysis, when no piece of the text is left.
    pub(crate) fn finish(self, text: &str, dialect: Dialect) -> Result<Analysis, AllocError>
        requires sound { IsSound self }
        requires dialect { dialect_in self.types ≡ dialect }
        requires read { IsReadThrough [] outset text.now self }
        ensures of { IfOk result (λ made. IsAnalysisOf text.now made) }
        ensures dialect { IfOk result (λ made. dialect_of made ≡ dialect) }
    {
        let row_faults = collect_faults(self.alloc, &self.rows)?;
        Ok(Analysis {
            rows: self.rows,
            row_faults,
            bound: self.bound,
            types: self.types,
            dialect,
            commands_typed: self.commands_typed,
            bytes_read: self.bytes_read,
            initial_size: self.initial_size,
        })
    }
}
