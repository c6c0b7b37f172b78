//! The types of a few commands.
ghost use Rattle.std.specs.Prelude.{map, IfOk, IfSome, IfNone};
ghost use Rattle.lam_syntax.specs.Views.{command_of};
ghost use Rattle.lam_scope.specs.Views.{AreScopesOf};
ghost use Rattle.lam_token.specs.declared.span.Span.{Span};
ghost use Rattle.lam_query.specs.Sizes.{IsSizeFault};
ghost use Rattle.lam_query.specs.inner.Typings.{AreTypesOf};

use lam_rules::Dialect;
use lam_scope::{Resolved, ScopeFault, Scopes, resolve};
use lam_syntax::Command;
use lam_typing::{Typing, TypingFault, analyse};
use std::alloc::{AllocError, Global};

/// Commands in nameless form, and the types of their terms.
#[derive(Drop)]
pub(crate) struct Types {
    pub(crate) resolved: Resolved,
    pub(crate) typing: Typing,
}

/// Returns the types of the terms of these commands, or `None` if a type is over the size limit.
pub(crate) fn types_of(
    alloc: Global,
    commands: &[Command],
    scopes: &Scopes,
    dialect: Dialect,
) -> Result<Option<Types>, AllocError>
    requires { AreScopesOf scopes.now (map command_of commands.now) }
    ensures some { IfOk result (λ found. IfSome found (λ types. AreTypesOf (map command_of commands.now) types dialect)) }
    ensures none { IfOk result (λ found. IfNone found ((s : Span) × IsSizeFault (map command_of commands.now) s dialect)) }
{
    let resolved = match resolve(alloc, commands, scopes) {
        Ok(resolved) => resolved,
        Err(ScopeFault::TooLarge(_)) => return Ok(None),
        Err(ScopeFault::Memory) => return Err(AllocError),
    };
    match analyse(alloc, &resolved, dialect) {
        Ok(typing) => Ok(Some(Types { resolved, typing })),
        Err(TypingFault::TooLarge(_)) => Ok(None),
        Err(TypingFault::Memory) => Err(AllocError),
    }
}
