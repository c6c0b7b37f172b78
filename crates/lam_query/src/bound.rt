//! What the preceding commands bind, and what a command sees of it.
ghost use Rattle.std.specs.Prelude.{◌≡◌, ℕ, List, [], Some, None, IfOk, OnOk};
ghost use Rattle.lam_rules.specs.Types.{Typ};
ghost use Rattle.lam_scope.specs.Names.{Name};
ghost use Rattle.lam_syntax.specs.Letters.{letters};
ghost use Rattle.lam_syntax.specs.Trees.{CommandTree};
ghost use Rattle.lam_syntax.specs.Views.{command_of};
ghost use Rattle.lam_query.specs.declared.bound.NameNo.TheVariants.{Name as NameNumber, TypeName as TypeNameNumber};
ghost use Rattle.lam_query.specs.inner.Bound.{AreFreeIn, means, number_of, kept_under, meaning_of, MeanTheSame, AreNumbered, HaveNumbers, KeepsNumbers, IsBinding, AllStand, IsSurroundedBy, AreListed, AreEntered, AreTypesEntered, IsSetIn, IsBoundAfter};
ghost use Rattle.lam_query.specs.inner.PieceRows.{AreFreeNumbers};

use lam_rules::TyNo;
use lam_scope::{Environment, FreeNames};
use lam_syntax::{Command, Identifier};
use std::alloc::{AllocError, Global};
use std::collections::HashMap;

/// The names and type names bound by commands, each with the entry of its last binder or the type it stands for, as type ids.
#[derive(Drop)]
pub(crate) struct Bound {
    pub(crate) names: Meanings,
    pub(crate) type_names: Meanings,
}

/// The meanings of names. A name that was bound or looked up once keeps its number.
#[derive(Drop)]
pub(crate) struct Meanings {
    numbers: HashMap<String, u32>,
    /// Indexed by name number: `None` for a name that is unbound now, otherwise its context entry, which may itself be `None`.
    entries: Vec<Option<Option<TyNo>>>,
}

/// The number of a name or of a type name.
#[derive(Clone, Copy)]
pub(crate) enum NameNo {
    Name(u32),
    TypeName(u32),
}

/// The free names and type names of a command that are bound, and the entries of the names, outermost first.
#[derive(Drop)]
pub(crate) struct Surroundings<'a> {
    pub(crate) environment: Environment<'a>,
    pub(crate) entries: Vec<Option<TyNo>>,
}

impl Bound {
    /// An empty table: nothing is bound, and no name has a number.
    pub(crate) fn new(alloc: Global) -> Bound
        ensures bound { (x : Name) → (meaning_of result.names x ≡ None) × (meaning_of result.type_names x ≡ None) }
        ensures numbers { HaveNumbers result }
        ensures stand { (ts : List Typ) → AllStand ts result }
    {
        Bound {
            names: Meanings::new(alloc),
            type_names: Meanings::new(alloc),
        }
    }

    /// The number of names and type names that have a number.
    pub(crate) fn len(&self) -> usize {
        self.names
            .entries
            .len()
            .saturating_add(self.type_names.entries.len())
    }

    /// Unbinds everything. Names keep their numbers.
    pub(crate) fn clear(&mut self)
        ensures bound { (x : Name) → (meaning_of self.new.names x ≡ None) × (meaning_of self.new.type_names x ≡ None) }
        ensures keeps { KeepsNumbers self.old self.new }
        ensures numbers { HaveNumbers self.old → HaveNumbers self.new }
        ensures stand { (ts : List Typ) → AllStand ts self.new }
    {
        self.names.clear();
        self.type_names.clear();
    }

    /// Returns the numbers of the free names and type names of a command, and what it sees of them. A name that had no number gets
    /// one.
    pub(crate) fn around<'a>(
        &mut self,
        alloc: Global,
        free: &FreeNames<'a>,
    ) -> Result<(Vec<NameNo>, Surroundings<'a>), AllocError>
        requires { HaveNumbers self.old }
        ensures asked { IfOk result (λ made. (c : CommandTree) → AreFreeIn c free.now → AreFreeNumbers self.new c made.0.items) }
        ensures seen { IfOk result (λ made. (ts : List Typ) (c : CommandTree) → AreFreeIn c free.now → AllStand ts self.old → IsSurroundedBy ts self.old c made.1) }
        ensures same { OnOk result (MeanTheSame self.old self.new) }
        ensures keeps { OnOk result (KeepsNumbers self.old self.new) }
        ensures numbers { OnOk result (HaveNumbers self.new) }
    {
        let count = free.names.len().saturating_add(free.type_names.len());
        let mut numbers = Vec::with_capacity(alloc, count)?;
        let mut around = Surroundings {
            environment: Environment::new(alloc),
            entries: Vec::new(alloc),
        };
        self.names
            .enter_names(alloc, &free.names, &mut numbers, &mut around)?;
        self.type_names
            .enter_type_names(alloc, &free.type_names, &mut numbers, &mut around)?;
        Ok((numbers, around))
    }

    /// Returns the meaning of a name: `None` if it is unbound now, otherwise its context entry, which may itself be `None`.
    pub(crate) fn meaning(&self, name: NameNo) -> Option<Option<TyNo>>
        ensures { result ≡ means self.now name }
    {
        match name {
            NameNo::Name(number) => self.names.under(number as usize),
            NameNo::TypeName(number) => self.type_names.under(number as usize),
        }
    }

    /// Binds the name of a command to this context entry, or its type name to this type, and returns the number of the name.
    pub(crate) fn bind(
        &mut self,
        alloc: Global,
        command: &Command,
        entry: Option<TyNo>,
    ) -> Result<Option<NameNo>, AllocError>
        requires { HaveNumbers self.old }
        ensures binding { IfOk result (IsBinding self.new (command_of command.now)) }
        ensures bound { OnOk result (IsBoundAfter (command_of command.now) entry self.old self.new) }
        ensures keeps { OnOk result (KeepsNumbers self.old self.new) }
        ensures numbers { OnOk result (HaveNumbers self.new) }
    {
        match command {
            Command::Definition(name, _) => self.bind_name(alloc, name, entry),
            Command::Declaration(name, _) => self.bind_name(alloc, name, entry),
            Command::Abbreviation(name, _) => {
                let number = self.type_names.number_for(alloc, name.text.as_str())?;
                self.type_names.set(number, entry);
                Ok(Some(NameNo::TypeName(number)))
            }
            Command::Evaluation(_) => Ok(None),
        }
    }

    /// Binds a name to this entry, and returns its number.
    fn bind_name(
        &mut self,
        alloc: Global,
        name: &Identifier,
        entry: Option<TyNo>,
    ) -> Result<Option<NameNo>, AllocError>
        requires { HaveNumbers self.old }
        ensures binding { IfOk result (λ b. (n : ℕ) × (b ≡ Some (NameNumber n)) × (number_of self.new.names (letters name.now.text) ≡ Some n)) }
        ensures bound { OnOk result (IsSetIn (Some (letters name.now.text)) entry self.old.names self.new.names) }
        ensures type_names { self.new.type_names ≡ self.old.type_names }
        ensures keeps { OnOk result ((x : Name) (n : ℕ) → number_of self.old.names x ≡ Some n → number_of self.new.names x ≡ Some n) }
        ensures numbers { OnOk result (AreNumbered self.new.names) }
    {
        let number = self.names.number_for(alloc, name.text.as_str())?;
        self.names.set(number, entry);
        Ok(Some(NameNo::Name(number)))
    }

    /// Binds again, by its number, what a command bound before.
    pub(crate) fn rebind(&mut self, binding: Option<NameNo>, entry: Option<TyNo>)
        requires { HaveNumbers self.old }
        ensures bound { (c : CommandTree) → IsBinding self.old c binding → IsBoundAfter c entry self.old self.new }
        ensures keeps { KeepsNumbers self.old self.new }
        ensures numbers { HaveNumbers self.new }
    {
        match binding {
            Some(NameNo::Name(number)) => self.names.set(number, entry),
            Some(NameNo::TypeName(number)) => self.type_names.set(number, entry),
            None => {}
        }
    }
}

impl Meanings {
    /// An empty table: nothing is bound, and no name has a number.
    fn new(alloc: Global) -> Meanings
        ensures numbered { (x : Name) → number_of result x ≡ None }
        ensures numbers { AreNumbered result }
    {
        Meanings {
            numbers: HashMap::new(alloc),
            entries: Vec::new(alloc),
        }
    }

    /// Returns the number of a name, if it has one.
    pub(crate) fn number_of(&self, name: &str) -> Option<u32>
        ensures { result ≡ number_of self.now name.now }
    {
        self.numbers.get(name).copied()
    }

    /// Returns the meaning of the name with this number.
    pub(crate) fn under(&self, number: usize) -> Option<Option<TyNo>>
        ensures { result ≡ kept_under self.now number }
    {
        *self.entries.get(number)?
    }

    /// Returns the meanings of all names, indexed by name number.
    pub(crate) fn entries(&self) -> &[Option<Option<TyNo>>]
        ensures { result.now ≡ self.now.entries.items }
    {
        &self.entries
    }

    /// Enters those of the names that are bound, with their entries, and appends the numbers of all. Those that had no number get
    /// one.
    fn enter_names<'a>(
        &mut self,
        alloc: Global,
        names: &[&'a str],
        numbers: &mut Vec<NameNo>,
        around: &mut Surroundings<'a>,
    ) -> Result<(), AllocError>
        requires { AreNumbered self.old }
        ensures listed { OnOk result (AreListed (λ n. NameNumber n) names.now [] self.old self.new numbers.old.items numbers.new.items) }
        ensures entered { OnOk result (AreEntered self.old names.now [] around.old around.new) }
    {
        for i in 0..names.len() {
            let name = names[i];
            let number = self.number_for(alloc, name)?;
            numbers.push(NameNo::Name(number))?;
            if let Some(entry) = self.under(number as usize) {
                around.environment.enter_name(name)?;
                around.entries.push(entry)?;
            }
        }
        Ok(())
    }

    /// Enters those of the type names that are bound, and appends the numbers of all. Those that had no number get one.
    fn enter_type_names<'a>(
        &mut self,
        alloc: Global,
        names: &[&'a str],
        numbers: &mut Vec<NameNo>,
        around: &mut Surroundings<'a>,
    ) -> Result<(), AllocError>
        requires { AreNumbered self.old }
        ensures listed { OnOk result (AreListed (λ n. TypeNameNumber n) names.now [] self.old self.new numbers.old.items numbers.new.items) }
        ensures entered { OnOk result (AreTypesEntered self.old names.now [] around.old around.new) }
    {
        for i in 0..names.len() {
            let name = names[i];
            let number = self.number_for(alloc, name)?;
            numbers.push(NameNo::TypeName(number))?;
            if let Some(entry) = self.under(number as usize) {
                around.environment.enter_type_name(name, entry)?;
            }
        }
        Ok(())
    }

    /// Returns the number of a name, and gives it one if it had none.
    fn number_for(&mut self, alloc: Global, name: &str) -> Result<u32, AllocError>
        requires { AreNumbered self.old }
        ensures number { IfOk result (λ n. number_of self.new name.now ≡ Some n) }
        ensures keeps { (x : Name) (n : ℕ) → number_of self.old x ≡ Some n → number_of self.new x ≡ Some n }
        ensures same { (x : Name) → meaning_of self.new x ≡ meaning_of self.old x }
        ensures numbers { OnOk result (AreNumbered self.new) }
    {
        if let Some(number) = self.numbers.get(name) {
            return Ok(*number);
        }
        let count = self.entries.len();
        if count > u32::MAX as usize {
            return Err(AllocError);
        }
        let number = count as u32;
        self.entries.push(None)?;
        self.numbers.insert(String::from_str(alloc, name)?, number)?;
        Ok(number)
    }

    /// Binds the name with this number to this entry.
    fn set(&mut self, number: u32, entry: Option<TyNo>)
        requires { AreNumbered self.old }
        ensures set { (x : Name) → number_of self.old x ≡ Some number → IsSetIn (Some x) entry self.old self.new }
        ensures numbered { (x : Name) → number_of self.new x ≡ number_of self.old x }
        ensures numbers { AreNumbered self.new }
    {
        let number = number as usize;
        if number < self.entries.len() {
            self.entries[number] = Some(entry);
        }
    }

    /// Unbinds everything. Names keep their numbers.
    fn clear(&mut self)
        ensures bound { (x : Name) → meaning_of self.new x ≡ None }
        ensures numbered { (x : Name) → number_of self.new x ≡ number_of self.old x }
        ensures numbers { AreNumbered self.old → AreNumbered self.new }
    {
        for i in 0..self.entries.len() {
            self.entries[i] = None;
        }
    }
}
