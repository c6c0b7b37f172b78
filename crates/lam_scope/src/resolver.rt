//! Resolves the commands of a document one after another.
ghost use Rattle.std.specs.Prelude.{◌≡◌, ◌++◌, ◌∷◌, [], map, IfOk, OnOk};
ghost use Rattle.lam_syntax.specs.Views.{command_of};
ghost use Rattle.lam_scope.specs.Indexed.{statement_indexed};
ghost use Rattle.lam_scope.specs.inner.Formed.{IsPassed};
ghost use Rattle.lam_scope.specs.TableViews.{text_use};
ghost use Rattle.lam_scope.specs.Views.{statement_of, abbreviations_of};

use crate::abbreviations::Abbreviations;
use crate::expansion::copy_of_written;
use crate::nameless::{Forming, nameless, nameless_type};
use crate::rows::UseRow;
use crate::scope_fault::ScopeFault;
use crate::statement::Statement;
use crate::uses_left::UsesLeft;
use lam_syntax::Command;
use std::alloc::{AllocError, Global};

/// What the commands so far state, and what is in scope for those after them.
#[derive(Drop)]
pub(crate) struct Resolver<'a> {
    pub(crate) abbreviations: Abbreviations<'a>,
    pub(crate) forming: Forming<'a>,
    pub(crate) statements: Vec<Statement>,
}

impl<'a> Resolver<'a> {
    /// A resolver that has read no command, with room for this many. Their uses are `uses`.
    pub(crate) fn with_capacity(
        alloc: Global,
        commands: usize,
        uses: &'a [UseRow],
    ) -> Result<Resolver<'a>, AllocError>
        ensures abbreviations { IfOk result (λ r. abbreviations_of r.abbreviations ≡ []) }
        ensures uses { IfOk result (λ r. r.forming.uses ≡ map text_use uses.now) }
        ensures faults { IfOk result (λ r. r.forming.faults.items ≡ []) }
        ensures statements { IfOk result (λ r. map statement_of r.statements.items ≡ []) }
    {
        Ok(Resolver {
            abbreviations: Abbreviations::new(alloc),
            forming: Forming {
                alloc,
                uses: UsesLeft::new(uses),
                faults: Vec::new(alloc),
            },
            statements: Vec::with_capacity(alloc, commands)?,
        })
    }

    /// Resolves the next command and appends its statement.
    #[tactic(auto, using(crate::proofs::Resolving::resolving))]
    pub(crate) fn add(&mut self, command: &'a Command) -> Result<(), ScopeFault>
        ensures statement { OnOk result (map statement_of self.new.statements.items ≡ map statement_of self.old.statements.items ++ statement_indexed (abbreviations_of self.old.abbreviations) (command_of command.now) self.old.forming.uses ∷ []) }
        ensures passed { IsPassed (command_of command.now) self.old self.new result }
    {
        let statement = self.state(command)?;
        self.statements.push(statement)?;
        Ok(())
    }

    /// Returns what a command states. The type name that it binds is then in scope for the commands after it.
    #[tactic(auto, using(crate::proofs::Resolving::resolving))]
    fn state(&mut self, command: &'a Command) -> Result<Statement, ScopeFault>
        ensures statement { IfOk result (λ s. statement_of s ≡ statement_indexed (abbreviations_of self.old.abbreviations) (command_of command.now) self.old.forming.uses) }
        ensures passed { IsPassed (command_of command.now) self.old self.new result }
        ensures statements { self.new.statements ≡ self.old.statements }
    {
        let seen = &self.abbreviations;
        let forming = &mut self.forming;
        match command {
            Command::Definition(_, term) => {
                let form = nameless(forming, seen, term)?;
                Ok(Statement::Definition(form))
            }
            Command::Declaration(_, ty) => {
                let expansion = nameless_type(forming, seen, ty)?;
                Ok(Statement::Declaration(expansion))
            }
            Command::Abbreviation(name, ty) => {
                let expansion = nameless_type(forming, seen, ty)?;
                let copy = copy_of_written(&expansion)?;
                self.abbreviations.add(name.text.as_str(), expansion)?;
                Ok(Statement::Abbreviation(copy))
            }
            Command::Evaluation(term) => {
                let form = nameless(forming, seen, term)?;
                Ok(Statement::Evaluation(form))
            }
        }
    }
}
