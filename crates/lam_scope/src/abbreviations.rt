//! The abbreviations in scope for a written type.
ghost use Rattle.std.specs.Prelude.{◌≡◌, ◌∷◌, [], true, false, None, OnOk, IfSome, IfNone};
ghost use Rattle.lam_rules.specs.TermViews.{written_of};
ghost use Rattle.lam_scope.specs.Expansions.{stands_for, meaning, is_bound};
ghost use Rattle.lam_scope.specs.Abbreviations.{abbreviations_in, names_in};

use crate::names::Names;
use crate::stacks::item_under;
use lam_rules::Ty;
use std::alloc::{AllocError, Global};

/// A type name and what it stands for, or `None` where its written type is faulty.
#[derive(Drop)]
pub(crate) struct Abbreviation<'a> {
    pub(crate) name: &'a str,
    pub(crate) expansion: Option<Ty>,
}

/// The abbreviations in scope for a written type.
#[derive(Drop)]
pub(crate) struct Abbreviations<'a> {
    /// Innermost last.
    pub(crate) items: Vec<Abbreviation<'a>>,
    pub(crate) names: Names<'a>,
    ghost named: { names ≡ names_in (abbreviations_in items.items) },
}

impl<'a> Abbreviations<'a> {
    ghost use Rattle.lam_scope.specs.Views.{abbreviations_of};

    /// No abbreviation is in scope.
    pub(crate) fn new(alloc: Global) -> Abbreviations<'a>
        ensures { abbreviations_of result ≡ [] }
    {
        Abbreviations {
            items: Vec::new(alloc),
            names: Names::new(alloc),
        }
    }

    /// Brings one more abbreviation into scope, innermost.
    #[tactic(auto, using(crate::proofs::AbbreviationStacks::abbreviations))]
    pub(crate) fn add(&mut self, name: &'a str, expansion: Option<Ty>) -> Result<(), AllocError>
        ensures { OnOk result (abbreviations_of self.new ≡ stands_for name.now (written_of expansion) ∷ abbreviations_of self.old) }
    {
        // Reserving first means that the push can't fail and leave a name without its abbreviation.
        self.items.reserve(1)?;
        self.names.enter(Some(name))?;
        self.items.push(Abbreviation { name, expansion })?;
        Ok(())
    }

    /// Returns the innermost abbreviation of that name.
    pub(crate) fn find(&self, name: &str) -> Option<&Abbreviation<'a>>
        ensures bound { IfSome result (λ a. is_bound name.now (abbreviations_of self.now) ≡ true) }
        ensures meaning { IfSome result (λ a. meaning name.now (abbreviations_of self.now) ≡ written_of a.now.expansion) }
        ensures unbound { IfNone result (is_bound name.now (abbreviations_of self.now) ≡ false) }
        ensures none { IfNone result (meaning name.now (abbreviations_of self.now) ≡ None) }
    {
        find_in(&self.items, &self.names, name)
    }
}

fn find_in<'s, 'a>(
    items: &'s [Abbreviation<'a>],
    names: &Names<'_>,
    name: &str,
) -> Option<&'s Abbreviation<'a>>
    requires { names.now ≡ names_in (abbreviations_in items.now) }
    ensures bound { IfSome result (λ a. is_bound name.now (abbreviations_in items.now) ≡ true) }
    ensures meaning { IfSome result (λ a. meaning name.now (abbreviations_in items.now) ≡ written_of a.now.expansion) }
    ensures unbound { IfNone result (is_bound name.now (abbreviations_in items.now) ≡ false) }
    ensures none { IfNone result (meaning name.now (abbreviations_in items.now) ≡ None) }
{
    match names.index_of(name) {
        None => None,
        Some(index) => {
            let found = item_under(items, index);
            Some(found)
        }
    }
}
