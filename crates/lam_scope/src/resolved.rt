//! A document in nameless form.
ghost use Rattle.std.specs.Prelude.{◌≡◌, ◌<◌, [], map, length};
ghost use Rattle.lam_rules.specs.TermViews.{term_of};
ghost use Rattle.lam_scope.specs.Places.{places_of, place_numbered};
ghost use Rattle.lam_scope.specs.inner.Found.{terms_stated, seek, sought_of};
ghost use Rattle.lam_scope.specs.StatementViews.{statement_of};
ghost use Rattle.lam_scope.specs.WellFormed.{AreWellFormedStatements};
ghost use Rattle.lam_scope.specs.inner.ProofIrrelevance.{AreWellFormedStatements-prop};

use crate::numbers::{Origin, Place};
use crate::search::{Found, find_place};
use crate::statement::Statement;
use crate::type_fault::TypeFault;
use lam_rules::Core;

/// The commands of a document in nameless form, where each binder takes its type from, the diagnostics of written types, and the
/// number of subterms. Labels are distinct at every depth of its types.
#[derive(Drop)]
pub struct Resolved {
    pub(crate) statements: Vec<Statement>,
    pub(crate) origins: Vec<Origin>,
    pub(crate) faults: Vec<TypeFault>,
    /// The number of subterms of the statements.
    pub(crate) places: usize,
    ghost places_counted: { places ≡ length (places_of [] (map statement_of statements.items)) },
    pub ghost well_formed: { AreWellFormedStatements (map statement_of statements.items) } by { AreWellFormedStatements-prop (map statement_of statements.items) },
}

impl Resolved {
    ghost use Rattle.lam_scope.specs.Views.{statements_of, origins_of, faults_of};

    /// Returns what the commands state, in order.
    pub fn statements(&self) -> &[Statement]
        ensures { map statement_of result.now ≡ statements_of self.now }
    {
        &self.statements
    }

    /// Returns where each binder takes its type from, by binder index.
    pub fn origins(&self) -> &[Origin]
        ensures { result.now ≡ origins_of self.now }
    {
        &self.origins
    }

    /// Returns the diagnostics of written types, in text order.
    pub fn faults(&self) -> &[TypeFault]
        ensures { result.now ≡ faults_of self.now }
    {
        &self.faults
    }

    /// The number of subterms of the statements.
    pub fn place_count(&self) -> usize
        ensures { result ≡ length (places_of [] (statements_of self.now)) }
    {
        self.places
    }

    /// Returns the subterm with this index. The search visits the subterms before it.
    pub fn core_at(&self, place: Place) -> &Core
        requires { place.0 < length (places_of [] (statements_of self.now)) }
        ensures { term_of result.now ≡ (place_numbered (statements_of self.now) place.0).here }
    {
        find_stated(&self.statements, place.0)
    }
}

fn find_stated<'t>(statements: &'t [Statement], number: usize) -> &'t Core
    requires { number < length (places_of [] (map statement_of statements.now)) }
    ensures { term_of result.now ≡ (place_numbered (map statement_of statements.now) number).here }
{
    let mut left = number;
    for i in 0..statements.len() {
        let statement = &statements[i];
        match find_in_statement(statement, left) {
            Found::Here(core) => return core,
            Found::Behind(behind) => left = behind,
        }
    }
    unreachable!()
}

fn find_in_statement<'t>(statement: &'t Statement, number: usize) -> Found<'t>
    ensures { sought_of result ≡ seek (terms_stated (statement_of statement.now)) number }
{
    match statement {
        Statement::Definition(core) => find_place(core, number),
        Statement::Declaration(_) => Found::Behind(number),
        Statement::Abbreviation(_) => Found::Behind(number),
        Statement::Evaluation(core) => find_place(core, number),
    }
}
