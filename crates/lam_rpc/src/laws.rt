//! Laws of the definitions: a body has exactly one kind.
//!
//! Each law is the contract of a function that does nothing.
ghost use Rattle.std.specs.Prelude.{◌≡◌, List, ℕ};
ghost use Rattle.lam_rpc.specs.Kind.{Message, IsKindOf};

/// Every body has a kind.
pub fn some_kind()
    ensures { (body : List ℕ) → (m : Message) × IsKindOf body m }
{}

/// No body has two kinds.
pub fn one_kind()
    ensures { (body : List ℕ) (m n : Message) → IsKindOf body m → IsKindOf body n → m ≡ n }
{}
