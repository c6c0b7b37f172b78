//! The type names in scope for a written type, with the ids of what they stand for.
ghost use Rattle.std.specs.Prelude.{◌≡◌, ◌∷◌, [], OnOk, OnErr};
ghost use Rattle.lam_scope.specs.NumberedNames.{numbered_names_of, numbered_name_of, number_named};

use crate::stacks::item_under;
use lam_rules::TyNo;
use std::alloc::{AllocError, Global};
use std::marker::Model;

/// A type name and the id of what it stands for, or `None` where its written type is faulty.
#[derive(Drop)]
pub(crate) struct TypeName<'a> {
    pub(crate) name: &'a str,
    pub(crate) number: Option<TyNo>,
}

/// The type names in scope for a written type. Contracts see them as a list, innermost first.
#[derive(Drop)]
pub(crate) struct TypeNames<'a> {
    /// Innermost last.
    stack: Vec<TypeName<'a>>,
}

impl<'a> Model for TypeNames<'a> {
    ghost use Rattle.std.specs.Prelude.{List};
    ghost use Rattle.lam_scope.specs.NumberedNames.{NumberedName, numbered_names_of};

    ghost Value = { List NumberedName };

    ghost view = { λ s. numbered_names_of s.stack.items };
}

impl<'a> TypeNames<'a> {
    /// No type name is in scope.
    pub(crate) fn new(alloc: Global) -> TypeNames<'a>
        ensures { result ≡ [] }
    {
        TypeNames {
            stack: Vec::new(alloc),
        }
    }

    /// Brings one more type name into scope, innermost.
    #[tactic(auto, using(crate::proofs::TypeNames::type_names))]
    pub(crate) fn enter(&mut self, entered: TypeName<'a>) -> Result<(), AllocError>
        ensures entered { OnOk result (self.new ≡ numbered_name_of entered.entry ∷ self.old) }
        ensures unchanged { OnErr result (self.new ≡ self.old) }
    {
        self.stack.push(entered)?;
        Ok(())
    }

    /// Returns what the innermost one of that name stands for.
    pub(crate) fn find(&self, name: &str) -> Option<Option<TyNo>>
        ensures { result ≡ number_named name.now self.now }
    {
        find_in(&self.stack, name)
    }
}

fn find_in(stack: &[TypeName<'_>], name: &str) -> Option<Option<TyNo>>
    ensures { result ≡ number_named name.now (numbered_names_of stack.now) }
{
    for i in 0..stack.len() {
        let seen = item_under(stack, i);
        if seen.name == name {
            return Some(seen.number);
        }
    }
    None
}
