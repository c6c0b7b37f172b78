//! Joins and meets of type trees, computed in a temporary table.

ghost use Rattle.std.specs.Prelude.{IfOk, IfSome, IfNone};
ghost use Rattle.lam_rules.specs.Types.{IsWellFormed};
ghost use Rattle.lam_rules.specs.TypeViews.{typ_of};
ghost use Rattle.lam_lattice.specs.inner.Bounds.{IsJoin, IsMeet, HaveNoMeet, JoinsInOrder, MeetsInOrder};

use crate::numbers::{join_no, meet_no};
use lam_rules::{Dialect, Ty, TyTable};
use lam_sub::Verdicts;
use std::alloc::{AllocError, Global};

/// Returns the least common supertype of two types. For arrows, this is Top if their parameters have no common subtype.
#[tactic(auto, using(lam_rules::proofs::Tables::numbers))]
pub fn join(alloc: Global, left: &Ty, right: &Ty, dialect: Dialect) -> Result<Ty, AllocError>
    requires left { IsWellFormed (typ_of left.now) }
    requires right { IsWellFormed (typ_of right.now) }
    ensures join { IfOk result (λ made. IsJoin (typ_of left.now) (typ_of right.now) (typ_of made) dialect) }
    ensures order { IfOk result (λ made. JoinsInOrder (typ_of left.now) (typ_of right.now) (typ_of made)) }
{
    let mut table = TyTable::new(alloc);
    let mut verdicts = Verdicts::new(alloc, dialect);
    let left_number = table.add(left)?;
    let right_number = table.add(right)?;
    let number = join_no(&mut table, &mut verdicts, left_number, right_number)?;
    table.tree(number)
}

/// Returns the greatest common subtype of two types, or `None` if no type is a subtype of both.
#[tactic(auto, using(lam_rules::proofs::Tables::numbers))]
pub fn meet(
    alloc: Global,
    left: &Ty,
    right: &Ty,
    dialect: Dialect,
) -> Result<Option<Ty>, AllocError>
    requires left { IsWellFormed (typ_of left.now) }
    requires right { IsWellFormed (typ_of right.now) }
    ensures some { IfOk result (λ found. IfSome found (λ made. IsMeet (typ_of left.now) (typ_of right.now) (typ_of made) dialect)) }
    ensures order { IfOk result (λ found. IfSome found (λ made. MeetsInOrder (typ_of left.now) (typ_of right.now) (typ_of made))) }
    ensures none { IfOk result (λ found. IfNone found (HaveNoMeet (typ_of left.now) (typ_of right.now) dialect)) }
{
    let mut table = TyTable::new(alloc);
    let mut verdicts = Verdicts::new(alloc, dialect);
    let left_number = table.add(left)?;
    let right_number = table.add(right)?;
    let Some(number) = meet_no(&mut table, &mut verdicts, left_number, right_number)? else {
        return Ok(None);
    };
    let tree = table.tree(number)?;
    Ok(Some(tree))
}
