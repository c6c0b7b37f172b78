//! Properties of bounds that hold for all types.
//! Each is stated as the contract of a function that does nothing.

ghost use Rattle.std.specs.Prelude.{◌≡◌, ◌⊎◌};
ghost use Rattle.lam_rules.specs.Types.{Typ, IsWellFormed};
ghost use Rattle.lam_rules.specs.declared.rules.Dialect.{Dialect};
ghost use Rattle.lam_lattice.specs.inner.Bounds.{IsJoin, IsMeet, HaveNoMeet, JoinsInOrder, MeetsInOrder};

/// Every two types have a join.
pub fn every_pair_has_a_join()
    ensures { (s t : Typ) (d : Dialect) → IsWellFormed s → IsWellFormed t → (j : Typ) × IsJoin s t j d }
{}

/// Every two types have a meet or no common subtype.
pub fn each_pair_has_a_meet_or_nothing_below()
    ensures { (s t : Typ) (d : Dialect) → IsWellFormed s → IsWellFormed t → ((m : Typ) × IsMeet s t m d) ⊎ HaveNoMeet s t d }
{}

/// Two types have exactly one join in the order of the first, and at most one such meet. So the contracts determine the
/// bounds, and those of trees and of type ids agree.
pub fn bounds_in_order_are_one()
    ensures joins { (s t j k : Typ) (d : Dialect) → IsJoin s t j d → IsJoin s t k d → JoinsInOrder s t j → JoinsInOrder s t k → j ≡ k }
    ensures meets { (s t m n : Typ) (d : Dialect) → IsMeet s t m d → IsMeet s t n d → MeetsInOrder s t m → MeetsInOrder s t n → m ≡ n }
{}
