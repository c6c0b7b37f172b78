//! The binders of names in scope for a term of one command.
ghost use Rattle.std.specs.Prelude.{◌≡◌, ◌∷◌, [], OnOk, OnErr};
ghost use Rattle.std.specs.Option.{option_map};
ghost use Rattle.lam_scope.specs.Names.{binds, index_of};
ghost use Rattle.lam_scope.specs.Stacks.{outside};
ghost use Rattle.lam_scope.specs.inner.FewNames.{few_names};

use crate::stacks::item_under;
use std::alloc::{AllocError, Global};
use std::marker::Model;

/// The names of the binders in scope, searched linearly from the innermost outwards, since a command has few. Contracts see them
/// as a list, innermost first.
#[derive(Drop)]
pub(crate) struct FewNames<'a> {
    /// Innermost last.
    stack: Vec<Option<&'a str>>,
}

impl<'a> Model for FewNames<'a> {
    ghost use Rattle.std.specs.Prelude.{List, Option};
    ghost use Rattle.lam_scope.specs.Names.{Name};
    ghost use Rattle.lam_scope.specs.inner.FewNames.{few_names};

    ghost Value = { List (Option Name) };

    ghost view = { λ n. few_names n.stack.items };
}

impl<'a> FewNames<'a> {
    /// No binder is in scope.
    pub(crate) fn new(alloc: Global) -> FewNames<'a>
        ensures { result ≡ [] }
    {
        FewNames {
            stack: Vec::new(alloc),
        }
    }

    /// Brings one more binder into scope, innermost. The name of an underscore is `None`.
    #[tactic(auto, using(crate::proofs::FewNames::entered))]
    pub(crate) fn enter(&mut self, name: Option<&'a str>) -> Result<(), AllocError>
        ensures entered { OnOk result (self.new ≡ option_map (λ x. x.now) name.entry ∷ self.old) }
        ensures unchanged { OnErr result (self.new ≡ self.old) }
    {
        self.stack.push(name)?;
        Ok(())
    }

    /// Takes the innermost binder out of scope.
    pub(crate) fn leave(&mut self)
        ensures { self.new ≡ outside self.old }
    {
        self.stack.pop();
    }

    /// Returns the de Bruijn index of a use of the name, or `None` if it is unbound.
    pub(crate) fn index_of(&self, name: &str) -> Option<usize>
        ensures { result ≡ index_of name.now self.now }
    {
        index_in(&self.stack, name)
    }
}

fn index_in(stack: &[Option<&str>], name: &str) -> Option<usize>
    ensures { result ≡ index_of name.now (few_names stack.now) }
{
    for between in 0..stack.len() {
        let binder = item_under(stack, between);
        if is_named(*binder, name) {
            return Some(between);
        }
    }
    None
}

/// Whether a binder has this name.
fn is_named(binder: Option<&str>, name: &str) -> bool
    ensures { result ≡ binds (option_map (λ x. x.now) binder.entry) name.now }
{
    match binder {
        None => false,
        Some(own) => own == name,
    }
}
