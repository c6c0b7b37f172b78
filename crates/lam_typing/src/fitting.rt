//! Whether a context entry fits a binder.
ghost use Rattle.std.specs.Prelude.{◌↔◌, IsTrue, IfOk};
ghost use Rattle.lam_rules.specs.Subtyping.{IsBelow};
ghost use Rattle.lam_rules.specs.TermViews.{written_of};
ghost use Rattle.lam_rules.specs.TypeViews.{typ_of};
ghost use Rattle.lam_rules.specs.Types.{IsWellFormed};
ghost use Rattle.lam_typing.specs.Fitting.{FitsAt};
ghost use Rattle.lam_typing.specs.Typings.{dialect_of};

use crate::typing::Typing;
use lam_rules::{Dialect, Ty, same, wf};
use lam_scope::{Binder, Origin};
use lam_sub::is_sub;
use std::alloc::AllocError;

impl Typing {
    /// Whether an entry fits a binder. If the binder takes its type from a term, any well-formed supertype of the least type fits,
    /// otherwise exactly the type found. Where no type was found, only `None` fits.
    pub fn fits(
        &self,
        origins: &[Origin],
        binder: Binder,
        entry: &Option<Ty>,
    ) -> Result<bool, AllocError>
        ensures { IfOk result (λ does. IsTrue does ↔ FitsAt origins.now self.now (dialect_of self.now) binder.0 (written_of entry.now)) }
    {
        let Some(number) = self.type_of_binder(binder) else {
            return Ok(entry.is_none());
        };
        let Some(ty) = entry else {
            return Ok(false);
        };
        self.table().types_differ();
        let least = self.table().tree(number)?;
        match origins.get(binder.0) {
            Some(Origin::Term(_)) => Ok(is_above(&least, ty, self.dialect)),
            _ => Ok(same(&least, ty)),
        }
    }
}

/// Whether a type is well formed and a supertype of the other.
fn is_above(lower: &Ty, ty: &Ty, dialect: Dialect) -> bool
    requires { IsWellFormed (typ_of lower.now) }
    ensures { IsTrue result ↔ IsBelow (typ_of lower.now) (typ_of ty.now) dialect }
{
    if !wf(ty) {
        return false;
    }
    is_sub(lower, ty, dialect)
}
