//! The meanings of names at one point of a text.
ghost use Rattle.std.specs.Prelude.{◌≡◌, ◌<◌, ℕ, List, IsTrue, length, get_or, replicate, Some, None, IfOk};
ghost use Rattle.lam_rules.specs.Types.{Typ};
ghost use Rattle.lam_rules.specs.declared.rules.Dialect.{Dialect};
ghost use Rattle.lam_rules.specs.declared.numbers.TyNo.{TyNo};
ghost use Rattle.lam_query.specs.declared.bound.NameNo.{NameNo};
ghost use Rattle.lam_query.specs.inner.Bound.{means, HaveNumbers};
ghost use Rattle.lam_query.specs.inner.Entries.{meant, name_kept, type_name_kept, AreMeanings, HasRoomFor, IsPassedBy, IsPassedBehind};
ghost use Rattle.lam_query.specs.inner.PieceRows.{Sight, outset, AreRows};
ghost use Rattle.lam_query.specs.inner.Kept.{rows_of};

use crate::bound::{Bound, NameNo};
use crate::rows::Row;
use lam_rules::TyNo;
use std::alloc::{AllocError, Global};

/// The meanings of names and type names by number: `None` if unbound, otherwise the context entry, which may itself be `None`.
#[derive(Drop)]
pub(crate) struct Entries {
    pub(crate) names: Vec<Option<Option<TyNo>>>,
    pub(crate) type_names: Vec<Option<Option<TyNo>>>,
}

impl Entries {
    /// Copies the meanings that `bound` has now.
    pub(crate) fn of(alloc: Global, bound: &Bound) -> Result<Entries, AllocError>
        ensures names { IfOk result (λ made. made.names.items ≡ bound.now.names.entries.items) }
        ensures type_names { IfOk result (λ made. made.type_names.items ≡ bound.now.type_names.entries.items) }
    {
        let mut names = Vec::new(alloc);
        names.extend_from_slice(bound.names.entries())?;
        let mut type_names = Vec::new(alloc);
        type_names.extend_from_slice(bound.type_names.entries())?;
        Ok(Entries { names, type_names })
    }

    /// The meanings after the first pieces of a text, whose rows are given.
    pub(crate) fn after(alloc: Global, bound: &Bound, rows: &[Row]) -> Result<Entries, AllocError>
        requires { HaveNumbers bound.now }
        ensures meanings { IfOk result (λ made. (pieces : List (List ℕ)) (s : Sight) (ts : List Typ) (d : Dialect) → AreRows outset pieces (rows_of rows.now) s ts bound.now d → AreMeanings s ts bound.now made) }
        ensures passed { IfOk result (λ made. IsPassedBehind bound.now (rows_of rows.now) made) }
    {
        let mut entries = Entries {
            names: unbound(alloc, bound.names.entries().len())?,
            type_names: unbound(alloc, bound.type_names.entries().len())?,
        };
        entries.pass(rows);
        Ok(entries)
    }

    /// Returns the meaning of a name, which `bound` maps to its number.
    pub(crate) fn of_name(&self, bound: &Bound, name: &str) -> Option<Option<TyNo>>
        ensures { result ≡ name_kept bound.now self.now name.now }
    {
        let number = bound.names.number_of(name)?;
        self.meaning(NameNo::Name(number))
    }

    /// Returns the meaning of a type name, which `bound` maps to its number.
    pub(crate) fn of_type_name(&self, bound: &Bound, name: &str) -> Option<Option<TyNo>>
        ensures { result ≡ type_name_kept bound.now self.now name.now }
    {
        let number = bound.type_names.number_of(name)?;
        self.meaning(NameNo::TypeName(number))
    }

    /// Returns the meaning of the name with this number.
    pub(crate) fn meaning(&self, name: NameNo) -> Option<Option<TyNo>>
        ensures { result ≡ meant self.now name }
    {
        let entry = match name {
            NameNo::Name(number) => self.names.get(number as usize),
            NameNo::TypeName(number) => self.type_names.get(number as usize),
        };
        match entry {
            Some(entry) => *entry,
            None => None,
        }
    }

    /// Records the entry of the name that a command binds, as it was after that command.
    pub(crate) fn rebind(&mut self, binds: Option<NameNo>, entry: Option<TyNo>)
        ensures set { (name : NameNo) → binds ≡ Some name → HasRoomFor name self.old → meant self.new name ≡ Some entry }
        ensures others { (name : NameNo) → (binds ≡ Some name → ⊥) → meant self.new name ≡ meant self.old name }
        ensures room { (name : NameNo) → HasRoomFor name self.old → HasRoomFor name self.new }
    {
        match binds {
            Some(NameNo::Name(number)) => set_entry(&mut self.names, number, entry),
            Some(NameNo::TypeName(number)) => set_entry(&mut self.type_names, number, entry),
            None => {}
        }
    }

    /// Records the entries of all names that the commands of these pieces bind.
    pub(crate) fn pass(&mut self, rows: &[Row])
        ensures { IsPassedBy (rows_of rows.now) self.old self.new }
    {
        for i in 0..rows.len() {
            if let Some(command) = &rows[i].command {
                self.rebind(command.binds, command.found.bound());
            }
        }
    }

    /// Returns `true` only if all names here have the same meaning in `bound`. A `false` may be wrong, which only costs time.
    pub(crate) fn is_now(&self, bound: &Bound) -> bool
        ensures { IsTrue result → (name : NameNo) → HasRoomFor name self.now → meant self.now name ≡ means bound.now name }
    {
        begins_with(bound.names.entries(), &self.names)
            && begins_with(bound.type_names.entries(), &self.type_names)
    }
}

/// A table in which this many names are all unbound.
fn unbound(alloc: Global, count: usize) -> Result<Vec<Option<Option<TyNo>>>, AllocError>
    ensures { IfOk result (λ made. made.items ≡ replicate count None) }
{
    let mut entries = Vec::with_capacity(alloc, count)?;
    for _ in 0..count {
        entries.push(None)?;
    }
    Ok(entries)
}

/// Sets the entry at an index if it is in bounds.
fn set_entry(entries: &mut [Option<Option<TyNo>>], number: u32, entry: Option<TyNo>)
    ensures set { number < length entries.old → get_or entries.new number None ≡ Some entry }
    ensures others { (n : ℕ) → (n ≡ number → ⊥) → get_or entries.new n None ≡ get_or entries.old n None }
    ensures len { length entries.new ≡ length entries.old }
{
    let number = number as usize;
    if number < entries.len() {
        entries[number] = Some(entry);
    }
}

/// Whether `first` is a prefix of `entries`.
fn begins_with(entries: &[Option<Option<TyNo>>], first: &[Option<Option<TyNo>>]) -> bool
    ensures { IsTrue result → (n : ℕ) → n < length first.now → get_or first.now n None ≡ get_or entries.now n None }
{
    if entries.len() < first.len() {
        return false;
    }
    for i in 0..first.len() {
        if entries[i] != first[i] {
            return false;
        }
    }
    true
}
