//! The names of the binders in scope for a term.
ghost use Rattle.std.specs.Prelude.{◌≡◌, ◌∷◌, [], IfOk, OnOk, OnErr};
ghost use Rattle.lam_syntax.specs.Letters.{letters};
ghost use Rattle.std.specs.Option.{option_map};
ghost use Rattle.lam_scope.specs.Names.{index_of};
ghost use Rattle.lam_scope.specs.Stacks.{outside};

use crate::name_stack::{enter_in, index_in, leave_in};
use lam_syntax::{Binder, Text};
use std::alloc::{AllocError, Global};
use std::collections::HashMap;
use std::marker::Model;

/// A binder on the stack: its name, unless it is an underscore, and the position of the binder that it shadows, if any.
#[derive(Drop)]
pub(crate) struct Named<'a> {
    pub(crate) name: Option<&'a str>,
    pub(crate) shadowed: Option<usize>,
}

/// The names of the binders in scope for a term. Contracts see them as a list, innermost first.
#[derive(Drop)]
pub(crate) struct Names<'a> {
    /// Innermost last.
    stack: Vec<Named<'a>>,
    /// The position on the stack of the innermost binder of each name, so that a look-up does not walk the stack.
    innermost: HashMap<&'a str, Option<usize>>,
}

impl<'a> Model for Names<'a> {
    ghost use Rattle.std.specs.Prelude.{List, Option};
    ghost use Rattle.lam_scope.specs.Names.{Name};
    ghost use Rattle.lam_scope.specs.inner.NameStacks.{names_of, IsNameStack};

    ghost Value = { List (Option Name) };

    ghost view = { λ n. names_of n.stack.items };

    ghost invariant = { λ n. IsNameStack n.stack.items n.innermost };
}

impl<'a> Names<'a> {
    /// No binder is in scope.
    #[tactic(auto, using(crate::proofs::NameStacks::name_stacks))]
    pub(crate) fn new(alloc: Global) -> Names<'a>
        ensures { result ≡ [] }
    {
        Names {
            stack: Vec::new(alloc),
            innermost: HashMap::new(alloc),
        }
    }

    /// No binder is in scope, and there is room for this many: growing takes up to three times the memory.
    #[tactic(auto, using(crate::proofs::NameStacks::name_stacks))]
    pub(crate) fn with_capacity(alloc: Global, capacity: usize) -> Result<Names<'a>, AllocError>
        ensures { IfOk result (λ n. n ≡ []) }
    {
        Ok(Names {
            stack: Vec::with_capacity(alloc, capacity)?,
            innermost: HashMap::with_capacity(alloc, capacity)?,
        })
    }

    /// Brings one more binder into scope, innermost. The name of an underscore is `None`.
    pub(crate) fn enter(&mut self, name: Option<&'a str>) -> Result<(), AllocError>
        ensures entered { OnOk result (self.new ≡ option_map (λ x. x.now) name.entry ∷ self.old) }
        ensures unchanged { OnErr result (self.new ≡ self.old) }
    {
        enter_in(&mut self.stack, &mut self.innermost, name)
    }

    /// Takes the innermost binder out of scope.
    pub(crate) fn leave(&mut self)
        ensures { self.new ≡ outside self.old }
    {
        leave_in(&mut self.stack, &mut self.innermost)
    }

    /// Returns the de Bruijn index of a use of the name, or `None` if it is unbound.
    pub(crate) fn index_of(&self, name: &str) -> Option<usize>
        ensures { result ≡ index_of name.now self.now }
    {
        index_in(&self.stack, &self.innermost, name)
    }
}

/// Returns the name of a binder, unless it is an underscore.
pub(crate) fn name_of<'a>(binder: &'a Binder) -> Option<&'a Text>
    ensures { option_map (λ x. letters x.now) result ≡ option_map (λ s. letters s) binder.now.name }
{
    binder.name.as_ref()
}

/// Returns the letters of a name, if there is one.
pub(crate) fn text_of<'a>(name: Option<&'a Text>) -> Option<&'a str>
    ensures { option_map (λ x. x.now) result ≡ option_map (λ x. letters x.now) name.entry }
{
    match name {
        None => None,
        Some(text) => Some(text.as_str()),
    }
}
