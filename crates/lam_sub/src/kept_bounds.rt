//! The memo of joins and meets of types in a table, by their ids.

ghost use Rattle.std.specs.Prelude.{◌≡◌, List, Some, IfSome, OnOk};
ghost use Rattle.lam_rules.specs.Types.{Typ};
ghost use Rattle.lam_sub.specs.Remembered.{IsJoinOf, IsMeetOf, AreRight, join_kept, meet_kept};

use crate::verdicts::Verdicts;
use lam_rules::TyNo;
use std::alloc::AllocError;

impl Verdicts {
    /// Returns the memoized join of two types, if any.
    pub fn known_join(&self, left: TyNo, right: TyNo) -> Option<TyNo>
        ensures kept { result ≡ join_kept self.now (left, right) }
        ensures right { (ts : List Typ) → AreRight ts self.now → IfSome result (IsJoinOf ts self.now.dialect (left, right)) }
    {
        self.joins.get(&(left, right)).copied()
    }

    /// Memoizes a join of two types.
    pub fn keep_join(&mut self, left: TyNo, right: TyNo, number: TyNo) -> Result<(), AllocError>
        ensures kept { OnOk result (join_kept self.new (left, right) ≡ Some number) }
        ensures dialect { self.new.dialect ≡ self.old.dialect }
        ensures right { (ts : List Typ) → AreRight ts self.old → IsJoinOf ts self.old.dialect (left, right) number → AreRight ts self.new }
    {
        self.joins.insert((left, right), number)?;
        Ok(())
    }

    /// Returns the memoized meet of two types, if any. `Some(None)` means that they are known to have no meet.
    pub fn known_meet(&self, left: TyNo, right: TyNo) -> Option<Option<TyNo>>
        ensures kept { result ≡ meet_kept self.now (left, right) }
        ensures right { (ts : List Typ) → AreRight ts self.now → IfSome result (IsMeetOf ts self.now.dialect (left, right)) }
    {
        self.meets.get(&(left, right)).copied()
    }

    /// Memoizes a meet of two types, or that they have none.
    pub fn keep_meet(
        &mut self,
        left: TyNo,
        right: TyNo,
        found: Option<TyNo>,
    ) -> Result<(), AllocError>
        ensures kept { OnOk result (meet_kept self.new (left, right) ≡ Some found) }
        ensures dialect { self.new.dialect ≡ self.old.dialect }
        ensures right { (ts : List Typ) → AreRight ts self.old → IsMeetOf ts self.old.dialect (left, right) found → AreRight ts self.new }
    {
        self.meets.insert((left, right), found)?;
        Ok(())
    }
}
