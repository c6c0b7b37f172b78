//! Sorting labeled values.

ghost use Rattle.std.specs.Prelude.{OnOk};
ghost use Rattle.std.specs.List.Sorted.{IsPermutation};
ghost use Rattle.lam_rules.specs.Types.{Typ};
ghost use Rattle.lam_rules.specs.Sorting.{IsSorting, fields_by};

use std::alloc::AllocError;

/// Sorts by the bytes of the labels. Values with equal labels keep their order.
pub(crate) fn sort_by_label<T>(fields: &mut Vec<(String, T)>) -> Result<(), AllocError>
    ensures permutation { IsPermutation fields.old.items fields.new.items }
    ensures sorting { OnOk result ((typ : T → Typ) → IsSorting (fields_by typ fields.old.items) (fields_by typ fields.new.items)) }
{
    fields.sort_by(|left, right| left.0.cmp(&right.0))
}
