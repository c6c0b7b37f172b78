//! From commands to scopes.
ghost use Rattle.std.specs.Prelude.{◌≡◌, map, IfOk};
ghost use Rattle.lam_syntax.specs.Views.{command_of};
ghost use Rattle.lam_scope.specs.Tables.{table, tokens_by};
ghost use Rattle.lam_scope.specs.TableViews.{text_use, rows_of, lists_in};
ghost use Rattle.lam_scope.specs.Views.{AreScopesOf};

use crate::room::room_of;
use crate::rows::{Rows, UseRow};
use crate::scopes::Scopes;
use crate::seen::Seen;
use crate::token_lists::TokenLists;
use crate::use_chains::chains_of;
use crate::walk::walk_command;
use lam_syntax::Command;
use std::alloc::{AllocError, Global};

/// Determines what the names and type names of these commands are bound to.
pub fn bind(alloc: Global, commands: &[Command]) -> Result<Scopes, AllocError>
    ensures { IfOk result (λ s. AreScopesOf s (map command_of commands.now)) }
{
    let mut rows = walk_commands(alloc, commands)?;
    // Trimmed here, where the names that the walk had in scope are dropped already.
    rows.trim();
    let tokens = group_tokens(alloc, rows.binders.len(), &rows.uses)?;
    Scopes::new(alloc, rows, tokens)
}

#[tactic(auto, using(crate::proofs::TableRows::walks))]
fn walk_commands(alloc: Global, commands: &[Command]) -> Result<Rows, AllocError>
    ensures { IfOk result (λ rows. rows_of rows ≡ table (map command_of commands.now)) }
{
    let mut rows = Rows::with_room(alloc, room_of(commands))?;
    let mut types = Seen::new(alloc);
    let mut names = Seen::with_capacity(alloc, commands.len())?;
    for i in 0..commands.len() {
        let command = &commands[i];
        walk_command(&mut rows, &mut types, &mut names, i, command)?;
    }
    Ok(rows)
}

/// Returns the tokens of the uses of each of the first `binders` binders, in text order.
fn group_tokens(alloc: Global, binders: usize, uses: &[UseRow]) -> Result<TokenLists, AllocError>
    ensures { IfOk result (λ lists. lists_in lists ≡ tokens_by 0 binders (map text_use uses.now)) }
{
    let chains = chains_of(alloc, binders, uses)?;
    TokenLists::of_chains(alloc, &chains, uses)
}
