//! What is in scope for a command: binders of names, and type names with the ids of what they stand for.
ghost use Rattle.std.specs.Prelude.{◌≡◌, ◌∷◌, [], List, Some, OnOk, OnErr};
ghost use Rattle.lam_rules.specs.Types.{Typ};
ghost use Rattle.lam_scope.specs.Expansions.{stands_for};
ghost use Rattle.lam_scope.specs.Numbered.{written_over, StandsIfAny};
ghost use Rattle.lam_scope.specs.Environments.{names_seen, abbreviations_seen, TypeNamesStand};

use crate::few_names::FewNames;
use crate::type_names::{TypeName, TypeNames};
use lam_rules::TyNo;
use std::alloc::{AllocError, Global};

/// The names in scope for a command, and the type names, each with the id in a type table of what it stands for.
#[derive(Drop)]
pub struct Environment<'a> {
    pub(crate) names: FewNames<'a>,
    pub(crate) types: TypeNames<'a>,
}

impl<'a> Environment<'a> {
    /// An environment with nothing in scope.
    pub fn new(alloc: Global) -> Environment<'a>
        ensures names { names_seen result ≡ [] }
        ensures type_names { (ts : List Typ) → abbreviations_seen ts result ≡ [] }
        ensures stand { (ts : List Typ) → TypeNamesStand ts result }
    {
        Environment {
            names: FewNames::new(alloc),
            types: TypeNames::new(alloc),
        }
    }

    /// Brings one more name into scope, innermost. On an error nothing changes.
    pub fn enter_name(&mut self, name: &'a str) -> Result<(), AllocError>
        ensures entered { OnOk result (names_seen self.new ≡ Some name.now ∷ names_seen self.old) }
        ensures unchanged { OnErr result (names_seen self.new ≡ names_seen self.old) }
        ensures type_names { (ts : List Typ) → abbreviations_seen ts self.new ≡ abbreviations_seen ts self.old }
        ensures stand { (ts : List Typ) → TypeNamesStand ts self.old → TypeNamesStand ts self.new }
    {
        self.names.enter(Some(name))
    }

    /// Brings one more type name into scope, innermost. `number` is the id of what it stands for, or `None` if it stands for no
    /// type. On an error nothing changes.
    pub fn enter_type_name(&mut self, name: &'a str, number: Option<TyNo>) -> Result<(), AllocError>
        ensures names { names_seen self.new ≡ names_seen self.old }
        ensures entered { OnOk result ((ts : List Typ) → abbreviations_seen ts self.new ≡ stands_for name.now (written_over ts number) ∷ abbreviations_seen ts self.old) }
        ensures unchanged { OnErr result ((ts : List Typ) → abbreviations_seen ts self.new ≡ abbreviations_seen ts self.old) }
        ensures stand { (ts : List Typ) → TypeNamesStand ts self.old → StandsIfAny ts number → TypeNamesStand ts self.new }
    {
        self.types.enter(TypeName { name, number })
    }
}
