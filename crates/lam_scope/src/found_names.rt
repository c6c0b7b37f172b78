//! A set of names in the order in which they were first found.
ghost use Rattle.std.specs.Prelude.{◌≡◌, [], OnOk};
ghost use Rattle.lam_scope.specs.inner.FoundNames.{letters_of, is_among, with_name};

use std::alloc::{AllocError, Global};
use std::marker::Model;

/// Distinct names. Contracts see them as a list, in the order of first occurrence.
#[derive(Drop)]
pub(crate) struct FoundNames<'a> {
    items: Vec<&'a str>,
}

impl<'a> Model for FoundNames<'a> {
    ghost use Rattle.std.specs.Prelude.{List};
    ghost use Rattle.lam_scope.specs.Names.{Name};
    ghost use Rattle.lam_scope.specs.inner.FoundNames.{letters_of};

    ghost Value = { List Name };

    ghost view = { λ f. letters_of f.items.items };
}

impl<'a> FoundNames<'a> {
    /// No name was found yet.
    pub(crate) fn new(alloc: Global) -> FoundNames<'a>
        ensures { result ≡ [] }
    {
        FoundNames {
            items: Vec::new(alloc),
        }
    }

    /// Adds a name, unless it was found before.
    #[tactic(auto, using(crate::proofs::FoundNames::found_names))]
    pub(crate) fn add(&mut self, name: &'a str) -> Result<(), AllocError>
        ensures { OnOk result (self.new ≡ with_name name.now self.old) }
    {
        if contains(&self.items, name) {
            return Ok(());
        }
        self.items.push(name)?;
        Ok(())
    }

    /// Returns the names.
    pub(crate) fn into_items(self) -> Vec<&'a str>
        ensures { letters_of result.items ≡ self.entry }
    {
        self.items
    }
}

/// Whether a name is one of these.
fn contains(items: &[&str], name: &str) -> bool
    ensures { result ≡ is_among name.now (letters_of items.now) }
{
    for i in 0..items.len() {
        if items[i] == name {
            return true;
        }
    }
    false
}
