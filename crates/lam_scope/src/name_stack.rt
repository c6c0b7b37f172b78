//! The operations that keep a stack of names and its index in step.
ghost use Rattle.std.specs.Prelude.{◌≡◌, ◌∷◌, Some, IsSome, IfOk, OnOk, OnErr};
ghost use Rattle.std.specs.Option.{option_map};
ghost use Rattle.lam_scope.specs.Names.{Name, index_of};
ghost use Rattle.lam_scope.specs.Stacks.{outside};
ghost use Rattle.lam_scope.specs.inner.NameStacks.{names_of, found_in, with_binder, at_name, reset, IsNameStack};

use crate::names::Named;
use std::alloc::AllocError;
use std::collections::HashMap;

/// Pushes a binder.
pub(crate) fn enter_in<'a>(
    stack: &mut Vec<Named<'a>>,
    innermost: &mut HashMap<&'a str, Option<usize>>,
    name: Option<&'a str>,
) -> Result<(), AllocError>
    requires { IsNameStack stack.old.items innermost.old }
    ensures stack { IsNameStack stack.new.items innermost.new }
    ensures entered { OnOk result (names_of stack.new.items ≡ option_map (λ x. x.now) name.entry ∷ names_of stack.old.items) }
    ensures unchanged { OnErr result (stack.new.items ≡ stack.old.items) }
{
    let index = stack.len();
    // Reserving first means that the push can't fail and leave the index pointing at a binder that is not on the stack.
    stack.reserve(1)?;
    let shadowed = set_innermost(innermost, name, index)?;
    stack.push(Named { name, shadowed })?;
    Ok(())
}

/// Records the position of the innermost binder of a name, and returns the position that it replaces.
fn set_innermost<'a>(
    innermost: &mut HashMap<&'a str, Option<usize>>,
    name: Option<&'a str>,
    index: usize,
) -> Result<Option<usize>, AllocError>
    ensures set { OnOk result ((x : Name) → found_in innermost.new x ≡ with_binder (option_map (λ y. y.now) name.entry) index (found_in innermost.old) x) }
    ensures before { IfOk result (λ before. before ≡ at_name (found_in innermost.old) (option_map (λ y. y.now) name.entry)) }
    ensures unchanged { OnErr result (innermost.new.entries ≡ innermost.old.entries) }
{
    let Some(text) = name else {
        return Ok(None);
    };
    match innermost.insert(text, Some(index))? {
        None => Ok(None),
        Some(before) => Ok(before),
    }
}

/// Pops the top binder and restores the position that its name had before.
pub(crate) fn leave_in<'a>(
    stack: &mut Vec<Named<'a>>,
    innermost: &mut HashMap<&'a str, Option<usize>>,
)
    requires { IsNameStack stack.old.items innermost.old }
    ensures stack { IsNameStack stack.new.items innermost.new }
    ensures left { names_of stack.new.items ≡ outside (names_of stack.old.items) }
{
    let Some(last) = stack.pop() else {
        return;
    };
    if let Some(name) = last.name {
        reset_innermost(innermost, name, last.shadowed);
    }
}

/// Restores the earlier position of the innermost binder of a name.
fn reset_innermost(innermost: &mut HashMap<&str, Option<usize>>, name: &str, before: Option<usize>)
    requires { IsSome (found_in innermost.old name.now) }
    ensures { (x : Name) → found_in innermost.new x ≡ reset (Some name.now) before (found_in innermost.old) x }
{
    if let Some(index) = innermost.get_mut(name) {
        *index = before;
    }
}

/// Returns the number of binders above the innermost one of a name.
pub(crate) fn index_in(
    stack: &[Named<'_>],
    innermost: &HashMap<&str, Option<usize>>,
    name: &str,
) -> Option<usize>
    requires { IsNameStack stack.now innermost.now }
    ensures { result ≡ index_of name.now (names_of stack.now) }
{
    match position_in(innermost, name) {
        None => None,
        Some(index) => Some(stack.len() - 1 - index),
    }
}

/// Returns the position of the innermost binder of a name.
fn position_in(innermost: &HashMap<&str, Option<usize>>, name: &str) -> Option<usize>
    ensures { result ≡ found_in innermost.now name.now }
{
    match innermost.get(name) {
        None => None,
        Some(index) => *index,
    }
}
