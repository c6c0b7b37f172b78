//! The types of commands: of one command after another, each under the context entries of its own free names, or of all commands of a
//! document. Type ids are of one type table, which persists and grows from command to command.

ghost use Rattle.std.specs.Prelude.{◌≡◌, ◌-◌, ◌^◌, min, List, IfOk, OnOk};
ghost use Rattle.std.specs.Borrow.{sem};
ghost use Rattle.lam_rules.specs.Types.{Typ};
ghost use Rattle.lam_rules.specs.Numbers.{Keeps};
ghost use Rattle.lam_scope.specs.InternedViews.{interned_statement, StandInStatement};
ghost use Rattle.lam_typing.specs.Answers.{AllStandIn, context_under};
ghost use Rattle.lam_typing.specs.Checking.{types_in, dialect_in, size_in, IsSoundChecker, with_types, LendsTypes, IsChecked};
ghost use Rattle.lam_typing.specs.inner.Ends.{HoldsTheSame, IsReadyFor, IsEndOfCheck};

use crate::analysing::start;
use crate::blame::Blame;
use crate::walking::{Leaves, Stop, walk_statement};
use lam_rules::{Dialect, TyNo, TyTable};
use lam_scope::{InternedStatement, Place};
use lam_sub::Verdicts;
use std::alloc::{AllocError, Global};

/// Finds the types of commands in one type table, by a walk over the subterms of each.
#[derive(Drop)]
pub struct TypeChecker {
    pub(crate) table: TyTable,
    /// The memo of subtyping for the types of the table, in the checker's dialect: a repeated query costs a look-up.
    pub(crate) verdicts: Verdicts,
    pub(crate) leaves: Leaves,
    /// The context entries of the binders in scope, outermost first. This list and the next two keep their memory from one command
    /// to the next.
    pub(crate) entries: Vec<Option<TyNo>>,
    /// The type of each subterm that was visited, in order.
    pub(crate) found: Vec<Option<TyNo>>,
    /// The subterms at fault among these.
    pub(crate) blames: Vec<Blame>,
    /// The last subterm requested, or `None` if all are.
    pub(crate) last: Option<Place>,
}

/// The result of checking one command.
#[derive(Drop)]
pub struct Checked {
    /// The types of its subterms, in order: of all, or of those before the first that is over the size limit.
    pub types: Vec<Option<TyNo>>,
    /// The subterms at fault among these, with indices from 0.
    pub blames: Vec<Blame>,
    /// The least context entry of the name that the command binds, if it binds one that has an entry.
    pub entry: Option<TyNo>,
    /// Whether no subterm is over the size limit, so that all types were found.
    pub complete: bool,
}

impl TypeChecker {
    /// A checker that knows only the types of constants. Keeps the allocator for later use.
    pub fn new(alloc: Global, dialect: Dialect) -> Result<TypeChecker, AllocError>
        ensures sound { IfOk result (λ checker. IsSoundChecker checker) }
        ensures dialect { IfOk result (λ checker. dialect_in checker ≡ dialect) }
    {
        start(alloc, None, dialect)
    }

    /// Returns the number of types in its table and of results in its memo, or the largest `usize` if there are more.
    pub fn size(&self) -> usize
        ensures { result ≡ min (size_in self.now) (2 ^ 64 - 1) }
    {
        self.table.len().saturating_add(self.verdicts.len())
    }

    /// Returns the table that type ids refer to.
    pub fn table(&self) -> &TyTable
        ensures { result.now ≡ types_in self.now }
    {
        &self.table
    }

    /// Returns the table for adding the written types of the next command. The checker stays sound if existing ids keep their
    /// types.
    pub fn table_mut(&mut self) -> &mut TyTable
        ensures* lends { sem 𝓛 (LendsTypes self.entry result) }
        ensures table { result.now ≡ types_in self.old }
        ensures sound { (types : List Typ) → IsSoundChecker self.old → Keeps (types_in self.old) types → IsSoundChecker (with_types self.old types) }
    {
        &mut self.table
    }

    /// Returns the types of a command's subterms. `entries` are those of the binders in scope for it, outermost first.
    pub fn check(
        &mut self,
        entries: &[Option<TyNo>],
        statement: &InternedStatement<'_>,
    ) -> Result<Checked, AllocError>
        requires sound { IsSoundChecker self.old }
        requires entries { AllStandIn (types_in self.old) entries.now }
        requires stand { StandInStatement (types_in self.old) statement.now }
        ensures sound { IsSoundChecker self.new }
        ensures keeps { Keeps (types_in self.old) (types_in self.new) }
        ensures dialect { dialect_in self.new ≡ dialect_in self.old }
        ensures checked { IfOk result (λ checked. IsChecked (types_in self.new) (context_under (types_in self.old) entries.now) (interned_statement (types_in self.old) statement.now) checked (dialect_in self.old)) }
    {
        self.begin(entries)?;
        let outcome = walk_statement(self, statement);
        self.end(outcome)
    }

    /// Gets ready for a command with these context entries: nothing is found of it yet.
    fn begin(&mut self, entries: &[Option<TyNo>]) -> Result<(), AllocError>
        ensures holds { HoldsTheSame self.old self.new }
        ensures ready { OnOk result (IsReadyFor entries.now self.new) }
    {
        self.found.clear();
        self.blames.clear();
        self.entries.clear();
        self.entries.extend_from_slice(entries)
    }

    /// Returns what the walk over a command found, given how it ended.
    fn end(&self, outcome: Result<Option<TyNo>, Stop>) -> Result<Checked, AllocError>
        ensures { IfOk result (IsEndOfCheck outcome self.now) }
    {
        let (entry, complete) = match outcome {
            Ok(entry) => (entry, true),
            Err(Stop::Memory) => return Err(AllocError),
            Err(Stop::TooLarge | Stop::Enough) => (None, false),
        };
        let alloc = self.verdicts.alloc;
        Ok(Checked {
            types: copy_of(alloc, &self.found)?,
            blames: copy_of(alloc, &self.blames)?,
            entry,
            complete,
        })
    }
}

/// Returns a copy of a list, with no room to spare.
fn copy_of<T: Copy + Drop>(alloc: Global, items: &[T]) -> Result<Vec<T>, AllocError>
    ensures { IfOk result (λ copy. copy.items ≡ items.now) }
{
    let mut copy = Vec::with_capacity(alloc, items.len())?;
    copy.extend_from_slice(items)?;
    Ok(copy)
}
