//! The nameless form of one command by itself, in an environment.
ghost use Rattle.std.specs.Prelude.{◌≡◌, List, IfOk, OnOk};
ghost use Rattle.lam_rules.specs.Types.{Typ};
ghost use Rattle.lam_rules.specs.Numbers.{Keeps};
ghost use Rattle.lam_syntax.specs.Views.{command_of};
ghost use Rattle.lam_scope.specs.Nameless.{statement, written_in_command, faults_in, first_over_limit};
ghost use Rattle.lam_scope.specs.NumberedNames.{TypeIdsStand};
ghost use Rattle.lam_scope.specs.Environments.{names_seen, abbreviations_seen, TypeNamesStand};
ghost use Rattle.lam_scope.specs.InternedViews.{interned_statement, StandInStatement};
ghost use Rattle.lam_scope.specs.Views.{IsLimit};
ghost use Rattle.lam_scope.specs.inner.Interned.{IsStated};

use crate::environment::Environment;
use crate::few_names::FewNames;
use crate::interned::InternedStatement;
use crate::interning::{intern_term, intern_written};
use crate::interning_types::Interning;
use crate::scope_fault::ScopeFault;
use crate::type_fault::TypeFault;
use crate::type_names::TypeNames;
use lam_rules::TyTable;
use lam_syntax::Command;
use std::alloc::Global;

/// A command's nameless form over the ids of a type table, and the diagnostics of its written types.
#[derive(Drop)]
pub struct Interned<'a> {
    pub statement: InternedStatement<'a>,
    /// In text order.
    pub faults: Vec<TypeFault>,
}

/// Returns the nameless form of a command in an environment. Its written types are added to the table, where the types behind
/// abbreviations are shared and not copied; the first written type over the size limit is an error. The environment is left as it
/// was, except that after an error it may contain more names.
#[tactic(auto, using(crate::proofs::InternedForms::commands))]
pub fn intern_command<'a>(
    alloc: Global,
    table: &mut TyTable,
    environment: &mut Environment<'a>,
    command: &'a Command,
) -> Result<Interned<'a>, ScopeFault>
    requires { TypeNamesStand table.old environment.old }
    ensures keeps { Keeps table.old table.new }
    ensures statement { IfOk result (λ i. interned_statement table.new i.statement ≡ statement (abbreviations_seen table.old environment.old) (names_seen environment.old) (command_of command.now)) }
    ensures stand { IfOk result (λ i. StandInStatement table.new i.statement) }
    ensures faults { IfOk result (λ i. i.faults.items ≡ faults_in (abbreviations_seen table.old environment.old) (written_in_command (command_of command.now))) }
    ensures limit { IsLimit (first_over_limit (abbreviations_seen table.old environment.old) (written_in_command (command_of command.now))) result }
    ensures names { OnOk result (names_seen environment.new ≡ names_seen environment.old) }
    ensures type_names { (ts : List Typ) → abbreviations_seen ts environment.new ≡ abbreviations_seen ts environment.old }
    ensures type_names_stand { (ts : List Typ) → TypeNamesStand ts environment.old → TypeNamesStand ts environment.new }
{
    let mut interning = Interning {
        alloc,
        faults: Vec::new(alloc),
    };
    let seen = &environment.types;
    let statement = state(&mut interning, table, seen, &mut environment.names, command)?;
    Ok(Interned {
        statement,
        faults: interning.faults,
    })
}

#[tactic(auto, using(crate::proofs::InternedForms::commands))]
fn state<'a>(
    interning: &mut Interning,
    table: &mut TyTable,
    seen: &TypeNames<'_>,
    names: &mut FewNames<'a>,
    command: &'a Command,
) -> Result<InternedStatement<'a>, ScopeFault>
    requires { TypeIdsStand table.old seen.now }
    ensures stated { IsStated seen.now names.old (command_of command.now) table.old table.new interning.old.faults.items interning.new.faults.items result }
    ensures names { OnOk result (names.new ≡ names.old) }
{
    match command {
        Command::Definition(_, term) => {
            let form = intern_term(interning, table, seen, names, term)?;
            Ok(InternedStatement::Definition(form))
        }
        Command::Declaration(_, ty) => {
            let number = intern_written(interning, table, seen, ty)?;
            Ok(InternedStatement::Declaration(number))
        }
        Command::Abbreviation(_, ty) => {
            let number = intern_written(interning, table, seen, ty)?;
            Ok(InternedStatement::Abbreviation(number))
        }
        Command::Evaluation(term) => {
            let form = intern_term(interning, table, seen, names, term)?;
            Ok(InternedStatement::Evaluation(form))
        }
    }
}
