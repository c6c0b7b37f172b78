//! The binders of one kind in scope for a term.
ghost use Rattle.std.specs.Prelude.{◌≡◌, ◌∷◌, [], IfOk, OnOk};
ghost use Rattle.std.specs.Option.{option_map};
ghost use Rattle.lam_scope.specs.Stacks.{outside};
ghost use Rattle.lam_scope.specs.Names.{index_of};
ghost use Rattle.lam_scope.specs.Tables.{innermost, bound_to, entry_names};
ghost use Rattle.lam_scope.specs.TableViews.{entry_of, entries_of, binder_number, binder_of, between_of};

use crate::names::{Names, text_of};
use crate::numbers::Binder;
use crate::stacks::item_under;
use lam_syntax::Text;
use std::alloc::{AllocError, Global};
use std::marker::Model;

/// A binder in scope: its name, unless it is an underscore, its index, and the binder reported for its uses.
#[derive(Drop)]
pub(crate) struct SeenBinder<'a> {
    pub(crate) name: Option<&'a Text>,
    pub(crate) number: Binder,
    pub(crate) answer: Binder,
}

/// What a name in scope is bound to.
#[derive(Clone, Copy)]
pub(crate) struct Bound {
    /// The binder reported for its uses.
    pub(crate) binder: Binder,
    /// The number of binders of its kind further inside, which is the de Bruijn index.
    pub(crate) between: usize,
}

/// The binders in scope for a term. Contracts see them as a list, innermost first.
#[derive(Drop)]
pub(crate) struct Seen<'a> {
    /// Innermost last.
    stack: Vec<SeenBinder<'a>>,
    names: Names<'a>,
}

impl<'a> Model for Seen<'a> {
    ghost use Rattle.std.specs.Prelude.{◌≡◌, List};
    ghost use Rattle.lam_scope.specs.Tables.{Entry, entry_names};
    ghost use Rattle.lam_scope.specs.TableViews.{entries_of};

    ghost Value = { List Entry };

    ghost view = { λ s. entries_of s.stack.items };

    ghost invariant = { λ s. s.names ≡ entry_names (entries_of s.stack.items) };
}

impl<'a> Seen<'a> {
    /// No binder is in scope.
    pub(crate) fn new(alloc: Global) -> Seen<'a>
        ensures { result ≡ [] }
    {
        Seen {
            stack: Vec::new(alloc),
            names: Names::new(alloc),
        }
    }

    /// No binder is in scope, and there is room for this many.
    pub(crate) fn with_capacity(alloc: Global, capacity: usize) -> Result<Seen<'a>, AllocError>
        ensures { IfOk result (λ s. s ≡ []) }
    {
        Ok(Seen {
            stack: Vec::with_capacity(alloc, capacity)?,
            names: Names::with_capacity(alloc, capacity)?,
        })
    }

    /// Brings one more binder into scope, innermost.
    pub(crate) fn enter(&mut self, binder: SeenBinder<'a>) -> Result<(), AllocError>
        ensures { OnOk result (self.new ≡ entry_of binder.entry ∷ self.old) }
    {
        enter_in(&mut self.stack, &mut self.names, binder)
    }

    /// Takes the innermost binder out of scope.
    pub(crate) fn leave(&mut self)
        ensures { self.new ≡ outside self.old }
    {
        leave_in(&mut self.stack, &mut self.names)
    }

    /// Returns the innermost binder.
    pub(crate) fn innermost(&self) -> Option<Binder>
        ensures { option_map binder_number result ≡ innermost self.now }
    {
        innermost_in(&self.stack)
    }

    /// Returns what a use of that name is bound to.
    pub(crate) fn find(&self, name: &str) -> Option<Bound>
        ensures binder { option_map binder_of result ≡ bound_to name.now self.now }
        ensures between { option_map between_of result ≡ index_of name.now (entry_names self.now) }
    {
        find_in(&self.stack, &self.names, name)
    }
}

#[tactic(auto, using(crate::proofs::SeenStacks::seen_stacks))]
fn enter_in<'a>(
    stack: &mut Vec<SeenBinder<'a>>,
    names: &mut Names<'a>,
    binder: SeenBinder<'a>,
) -> Result<(), AllocError>
    requires { names.old ≡ entry_names (entries_of stack.old.items) }
    ensures names { names.new ≡ entry_names (entries_of stack.new.items) }
    ensures entered { OnOk result (entries_of stack.new.items ≡ entry_of binder.entry ∷ entries_of stack.old.items) }
{
    // Reserving first means that the push can't fail and leave a name without its binder.
    stack.reserve(1)?;
    names.enter(text_of(binder.name))?;
    stack.push(binder)?;
    Ok(())
}

fn leave_in<'a>(stack: &mut Vec<SeenBinder<'a>>, names: &mut Names<'a>)
    requires { names.old ≡ entry_names (entries_of stack.old.items) }
    ensures names { names.new ≡ entry_names (entries_of stack.new.items) }
    ensures left { entries_of stack.new.items ≡ outside (entries_of stack.old.items) }
{
    names.leave();
    stack.pop();
}

#[tactic(auto, using(crate::proofs::SeenStacks::seen_stacks))]
fn innermost_in(stack: &[SeenBinder<'_>]) -> Option<Binder>
    ensures { option_map binder_number result ≡ innermost (entries_of stack.now) }
{
    match stack.split_last() {
        None => None,
        Some((last, _)) => Some(last.number),
    }
}

fn find_in(stack: &[SeenBinder<'_>], names: &Names<'_>, name: &str) -> Option<Bound>
    requires { names.now ≡ entry_names (entries_of stack.now) }
    ensures binder { option_map binder_of result ≡ bound_to name.now (entries_of stack.now) }
    ensures between { option_map between_of result ≡ index_of name.now (entry_names (entries_of stack.now)) }
{
    match names.index_of(name) {
        None => None,
        Some(between) => {
            let seen = item_under(stack, between);
            Some(Bound {
                binder: seen.answer,
                between,
            })
        }
    }
}
