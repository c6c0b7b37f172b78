//! The memo of subtyping between types in a table, by their ids.

ghost use Rattle.std.specs.Prelude.{◌≡◌, ◌-◌, ◌^◌, min, List, Some, IfSome, OnOk};
ghost use Rattle.lam_rules.specs.Types.{Typ};
ghost use Rattle.lam_rules.specs.Numbers.{Keeps};
ghost use Rattle.lam_sub.specs.Remembered.{IsVerdict, AreRight, results_kept, verdict_kept};
ghost use Rattle.lam_sub.specs.declared.verdicts.Verdicts.{Verdicts};

use lam_rules::{Dialect, TyNo};
use std::alloc::{AllocError, Global};
use std::collections::HashMap;

/// Memoized results for pairs of type ids of one table, in one dialect: subtyping, which this crate decides, and the
/// joins and meets that lam_lattice finds, so that a caller passes a single value along with the table. They are only
/// correct for a particular table, so each function on ids requires that they are.
#[derive(Drop)]
pub struct Verdicts {
    pub alloc: Global,
    pub dialect: Dialect,
    /// Whether the first type is a subtype of the second, by the ids of their sorted forms.
    below: HashMap<(TyNo, TyNo), bool>,
    pub(crate) joins: HashMap<(TyNo, TyNo), TyNo>,
    /// `None` if no type is a subtype of both.
    pub(crate) meets: HashMap<(TyNo, TyNo), Option<TyNo>>,
}

impl Verdicts {
    /// An empty memo, which keeps the allocator for later entries.
    pub fn new(alloc: Global, dialect: Dialect) -> Verdicts
        ensures dialect { result.dialect ≡ dialect }
        ensures right { (ts : List Typ) → AreRight ts result }
    {
        Verdicts {
            alloc,
            dialect,
            below: HashMap::new(alloc),
            joins: HashMap::new(alloc),
            meets: HashMap::new(alloc),
        }
    }

    /// Returns the number of memoized results, or the largest `usize` if there are more.
    pub fn len(&self) -> usize
        ensures { result ≡ min (results_kept self.now) (2 ^ 64 - 1) }
    {
        let bounds = self.joins.len().saturating_add(self.meets.len());
        self.below.len().saturating_add(bounds)
    }

    /// Returns whether the first type is a subtype of the second, if that is memoized.
    pub fn known_verdict(&self, lower: TyNo, upper: TyNo) -> Option<bool>
        ensures kept { result ≡ verdict_kept self.now (lower, upper) }
        ensures right { (ts : List Typ) → AreRight ts self.now → IfSome result (IsVerdict ts self.now.dialect (lower, upper)) }
    {
        self.below.get(&(lower, upper)).copied()
    }

    /// Memoizes whether the first type is a subtype of the second.
    pub fn keep_verdict(
        &mut self,
        lower: TyNo,
        upper: TyNo,
        is_below: bool,
    ) -> Result<(), AllocError>
        ensures kept { OnOk result (verdict_kept self.new (lower, upper) ≡ Some is_below) }
        ensures dialect { self.new.dialect ≡ self.old.dialect }
        ensures right { (ts : List Typ) → AreRight ts self.old → IsVerdict ts self.old.dialect (lower, upper) is_below → AreRight ts self.new }
    {
        self.below.insert((lower, upper), is_below)?;
        Ok(())
    }
}

/// A law: memoized results stay correct as the table grows.
pub fn verdicts_stay_right()
    ensures { (old now : List Typ) (verdicts : Verdicts) → Keeps old now → AreRight old verdicts → AreRight now verdicts }
{}
