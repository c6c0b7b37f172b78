//! The names whose meaning changed with the text.
ghost use Rattle.std.specs.Prelude.{◌≡◌, ◌↔◌, IsTrue, true, false, Contains, IfOk, set};
ghost use Rattle.lam_query.specs.declared.bound.NameNo.{NameNo};
ghost use Rattle.lam_query.specs.inner.Bound.{means};
ghost use Rattle.lam_query.specs.inner.ChangedNames.{AreDifferences, IsMarked, is_changed};
ghost use Rattle.lam_query.specs.inner.Entries.{meant, HasRoomFor};

use crate::bound::{Bound, Meanings, NameNo};
use crate::entries::Entries;
use lam_rules::TyNo;
use std::alloc::{AllocError, Global};

/// For each name and type name, by its number, whether its meaning at one point of the new text differs from that in the old text.
/// A name whose number is not listed counts as changed.
#[derive(Drop)]
pub(crate) struct ChangedNames {
    pub(crate) names: Vec<bool>,
    pub(crate) type_names: Vec<bool>,
}

impl ChangedNames {
    /// Marks the names whose meaning in `bound` is not the earlier one.
    pub(crate) fn between(
        alloc: Global,
        earlier: &Entries,
        bound: &Bound,
    ) -> Result<ChangedNames, AllocError>
        ensures same { IfOk result (λ changed. (name : NameNo) → is_changed changed name ≡ false → meant earlier.now name ≡ means bound.now name) }
        ensures other { IfOk result (λ changed. (name : NameNo) → HasRoomFor name earlier.now → meant earlier.now name ≡ means bound.now name → is_changed changed name ≡ false) }
    {
        Ok(ChangedNames {
            names: differences(alloc, &earlier.names, &bound.names)?,
            type_names: differences(alloc, &earlier.type_names, &bound.type_names)?,
        })
    }

    /// Whether the meaning of any of these names changed.
    pub(crate) fn has_any(&self, names: &[NameNo]) -> bool
        ensures { IsTrue result ↔ ((name : NameNo) × Contains names.now name × (is_changed self.now name ≡ true)) }
    {
        for i in 0..names.len() {
            if self.has(names[i]) {
                return true;
            }
        }
        false
    }

    fn has(&self, name: NameNo) -> bool
        ensures { result ≡ is_changed self.now name }
    {
        let changed = match name {
            NameNo::Name(number) => self.names.get(number as usize),
            NameNo::TypeName(number) => self.type_names.get(number as usize),
        };
        match changed {
            Some(changed) => *changed,
            None => true,
        }
    }

    /// Marks a name as changed or unchanged from here on.
    pub(crate) fn set(&mut self, name: Option<NameNo>, changed: bool)
        ensures { IsMarked name changed self.old self.new }
    {
        match name {
            Some(NameNo::Name(number)) => mark(&mut self.names, number, changed),
            Some(NameNo::TypeName(number)) => mark(&mut self.type_names, number, changed),
            None => {}
        }
    }
}

/// Returns for each of the entries, which are indexed by name number, whether the name has another one now.
fn differences(
    alloc: Global,
    entries: &[Option<Option<TyNo>>],
    now: &Meanings,
) -> Result<Vec<bool>, AllocError>
    ensures { IfOk result (λ marks. AreDifferences entries.now now.now marks.items) }
{
    let mut marks = Vec::with_capacity(alloc, entries.len())?;
    for i in 0..entries.len() {
        marks.push(now.under(i) != entries[i])?;
    }
    Ok(marks)
}

fn mark(marks: &mut [bool], number: u32, changed: bool)
    ensures { marks.new ≡ set marks.old number changed }
{
    let number = number as usize;
    if number < marks.len() {
        marks[number] = changed;
    }
}
