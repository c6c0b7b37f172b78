//! From the commands of a document to their nameless forms.
ghost use Rattle.std.specs.Prelude.{◌≡◌, [], length, map, IfOk};
ghost use Rattle.lam_syntax.specs.Views.{command_of};
ghost use Rattle.lam_scope.specs.Nameless.{statements, faults, first_too_large};
ghost use Rattle.lam_scope.specs.Places.{places_of};
ghost use Rattle.lam_scope.specs.Tables.{table};
ghost use Rattle.lam_scope.specs.TableViews.{text_use, origin_of};
ghost use Rattle.lam_scope.specs.Views.{statement_of, statements_of, origins_of, faults_of, AreScopesOf, IsLimit};

use crate::numbers::Origin;
use crate::resolved::Resolved;
use crate::resolver::Resolver;
use crate::rows::{BinderRow, UseRow};
use crate::scope_fault::ScopeFault;
use crate::scopes::Scopes;
use lam_syntax::Command;
use std::alloc::{AllocError, Global};

/// Returns the nameless form of a document's commands. `scopes` must be the result of `bind` on them. Written types become their
/// expansions, copied at each use; the first that is over the size limit is an error, before any of it is built.
pub fn resolve(alloc: Global, commands: &[Command], scopes: &Scopes) -> Result<Resolved, ScopeFault>
    requires { AreScopesOf scopes.now (map command_of commands.now) }
    ensures statements { IfOk result (λ r. statements_of r ≡ statements [] [] (map command_of commands.now)) }
    ensures origins { IfOk result (λ r. origins_of r ≡ map (λ b. b.origin) (table (map command_of commands.now)).binders) }
    ensures faults { IfOk result (λ r. faults_of r ≡ faults [] (map command_of commands.now)) }
    ensures places { IfOk result (λ r. length (places_of [] (statements_of r)) ≡ length (table (map command_of commands.now)).places) }
    ensures limit { IsLimit (first_too_large [] (map command_of commands.now)) result }
{
    let Resolver {
        abbreviations,
        forming,
        statements,
    } = resolve_all(alloc, commands, &scopes.rows.uses)?;
    // Dropped before another list is built: memory use peaks here.
    drop(abbreviations);
    let origins = origins_in(alloc, &scopes.rows.binders)?;
    Ok(Resolved {
        statements,
        origins,
        faults: forming.faults,
        places: scopes.rows.place_count(),
    })
}

#[tactic(auto, using(crate::proofs::Resolving::commands))]
fn resolve_all<'a>(
    alloc: Global,
    commands: &'a [Command],
    uses: &'a [UseRow],
) -> Result<Resolver<'a>, ScopeFault>
    requires { map text_use uses.now ≡ (table (map command_of commands.now)).uses }
    ensures statements { IfOk result (λ r. map statement_of r.statements.items ≡ statements [] [] (map command_of commands.now)) }
    ensures faults { IfOk result (λ r. r.forming.faults.items ≡ faults [] (map command_of commands.now)) }
    ensures limit { IsLimit (first_too_large [] (map command_of commands.now)) result }
{
    let mut resolver = Resolver::with_capacity(alloc, commands.len(), uses)?;
    for i in 0..commands.len() {
        let command = &commands[i];
        resolver.add(command)?;
    }
    Ok(resolver)
}

/// Returns where each binder takes its type from: `Origin::TypeName` for the binders of type names.
fn origins_in(alloc: Global, binders: &[BinderRow]) -> Result<Vec<Origin>, AllocError>
    ensures { IfOk result (λ origins. origins.items ≡ map (λ b. origin_of b.origin) binders.now) }
{
    binders
        .iter()
        .map(|b| b.origin.unwrap_or(Origin::TypeName))
        .collect(alloc)
}
