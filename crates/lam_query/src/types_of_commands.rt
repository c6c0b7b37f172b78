//! What each command of a text shows.
ghost use Rattle.std.specs.Prelude.{◌≡◌, List, map, IfOk, OnOk};
ghost use Rattle.std.specs.Option.{option_map};
ghost use Rattle.std.specs.String.{string_bytes};
ghost use Rattle.lam_rules.specs.Texts.{text};
ghost use Rattle.lam_scope.specs.Numbered.{StandsIfAny};
ghost use Rattle.lam_syntax.specs.Letters.{letters};
ghost use Rattle.lam_syntax.specs.Trees.{CommandTree};
ghost use Rattle.lam_syntax.specs.Views.{command_of};
ghost use Rattle.lam_typing.specs.Answers.{answer, AllStandIn};
ghost use Rattle.lam_typing.specs.Checking.{types_in, dialect_in, IsSoundChecker};
ghost use Rattle.lam_query.specs.CommandTypes.{AreCommandTypes, AreCommandTypesOf};
ghost use Rattle.lam_query.specs.Views.{command_type_of};
ghost use Rattle.lam_query.specs.inner.Bound.{HaveNumbers, AllStand};
ghost use Rattle.lam_query.specs.inner.ShownCommands.{IsKnown, IsNext, shown_by, last_number};

use crate::answers::CommandType;
use crate::bound::Bound;
use crate::reading::read;
use crate::rows::{Found, FoundTypes};
use crate::typed_commands::found_of;
use lam_rules::{Dialect, TyNo, TyTable};
use lam_scope::free_names;
use lam_syntax::{Command, Identifier};
use lam_typing::TypeChecker;
use std::alloc::{AllocError, Global};

/// Returns what each command of a text shows, in order, or `None` if some type of the text has more than 4,096 nodes.
pub fn command_types(
    alloc: Global,
    text: &str,
    dialect: Dialect,
) -> Result<Option<Vec<CommandType>>, AllocError>
    ensures { IfOk result (λ found. AreCommandTypesOf text.now (option_map (λ shown. map command_type_of shown.items) found) dialect) }
{
    let parsed = read(alloc, text)?;
    show_commands(alloc, &parsed.commands, dialect)
}

fn show_commands(
    alloc: Global,
    commands: &[Command],
    dialect: Dialect,
) -> Result<Option<Vec<CommandType>>, AllocError>
    ensures { IfOk result (λ found. AreCommandTypes (map command_of commands.now) (option_map (λ shown. map command_type_of shown.items) found) dialect) }
{
    let mut types = TypeChecker::new(alloc, dialect)?;
    let mut bound = Bound::new(alloc);
    let mut all = Vec::with_capacity(alloc, commands.len())?;
    for i in 0..commands.len() {
        let command = &commands[i];
        let Some(shown) = show_command(alloc, &mut types, &mut bound, command)? else {
            return Ok(None);
        };
        all.push(shown)?;
    }
    Ok(Some(all))
}

/// Returns what the next command shows, given what is bound before it, and binds what it binds. Returns `None` if one of its
/// types is over the size limit.
fn show_command(
    alloc: Global,
    types: &mut TypeChecker,
    bound: &mut Bound,
    command: &Command,
) -> Result<Option<CommandType>, AllocError>
    requires sound { IsSoundChecker types.old }
    requires stand { AllStand (types_in types.old) bound.old }
    requires numbers { HaveNumbers bound.old }
    ensures sound { IsSoundChecker types.new }
    ensures dialect { dialect_in types.new ≡ dialect_in types.old }
    ensures stand { OnOk result (AllStand (types_in types.new) bound.new) }
    ensures numbers { OnOk result (HaveNumbers bound.new) }
    ensures next { IfOk result (λ shown. (done : List CommandTree) → IsKnown done types.old bound.old → IsNext done (command_of command.now) shown types.new bound.new) }
{
    let free = free_names(alloc, command)?;
    let (_, around) = bound.around(alloc, &free)?;
    let Found::Types(found) = found_of(alloc, types, around, command)? else {
        return Ok(None);
    };
    bound.bind(alloc, command, found.bound)?;
    Ok(Some(shown_of(alloc, command, types.table(), &found)?))
}

/// Returns what a command with these types shows.
fn shown_of(
    alloc: Global,
    command: &Command,
    table: &TyTable,
    found: &FoundTypes,
) -> Result<CommandType, AllocError>
    requires types { AllStandIn table.now found.now.types.items }
    requires bound { StandsIfAny table.now found.now.bound }
    ensures { IfOk result (λ shown. command_type_of shown ≡ shown_by (command_of command.now) (answer table.now found.now.bound) (answer table.now (last_number found.now.types.items))) }
{
    let bound = text_of(table, found.bound)?;
    match command {
        Command::Definition(name, _) => Ok(CommandType::Name(copy_of(alloc, name)?, bound)),
        Command::Declaration(name, _) => Ok(CommandType::Name(copy_of(alloc, name)?, bound)),
        Command::Abbreviation(name, _) => Ok(CommandType::TypeName(copy_of(alloc, name)?, bound)),
        Command::Evaluation(_) => {
            let last = last_of(&found.types);
            Ok(CommandType::Term(text_of(table, last)?))
        }
    }
}

fn copy_of(alloc: Global, name: &Identifier) -> Result<String, AllocError>
    ensures { IfOk result (λ made. string_bytes made ≡ letters name.now.text) }
{
    String::from_str(alloc, name.text.as_str())
}

/// Returns the type id of the whole term, which comes after its parts.
fn last_of(types: &[Option<TyNo>]) -> Option<TyNo>
    ensures { result ≡ last_number types.now }
{
    *types.last()?
}

/// Returns the text of the type with this id, if there is one.
fn text_of(table: &TyTable, number: Option<TyNo>) -> Result<Option<String>, AllocError>
    requires { StandsIfAny table.now number }
    ensures { IfOk result (λ made. option_map (λ t. string_bytes t) made ≡ option_map text (answer table.now number)) }
{
    match number {
        Some(number) => Ok(Some(table.text(number)?)),
        None => Ok(None),
    }
}
