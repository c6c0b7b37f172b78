//! A command on its own, after declarations that stand in for the commands before it.
ghost use Rattle.std.specs.Prelude.{◌≡◌, ◌≤◌, ◌++◌, ℕ, List, length, take, map, codes, None, IfOk, OnOk};
ghost use Rattle.lam_rules.specs.TypeViews.{typ_of, fields_of};
ghost use Rattle.lam_rules.specs.Types.{unit};
ghost use Rattle.lam_scope.specs.Numbered.{StandsIfAny};
ghost use Rattle.lam_syntax.specs.Letters.{letters};
ghost use Rattle.lam_syntax.specs.Trees.{type_tree};
ghost use Rattle.lam_syntax.specs.Views.{command_of, type_of, type_node_of, type_fields_of};
ghost use Rattle.lam_typing.specs.Answers.{answer};
ghost use Rattle.lam_typing.specs.Checking.{types_in};
ghost use Rattle.lam_query.specs.Analyses.{IsAnalysisOf};
ghost use Rattle.lam_query.specs.inner.Entered.{entered};
ghost use Rattle.lam_query.specs.inner.Entries.{name_meant, type_name_meant, EntriesStand, AreMeanings};
ghost use Rattle.lam_query.specs.inner.Kept.{rows_of};
ghost use Rattle.lam_query.specs.inner.PieceRows.{Sight, outset, AreRows};
ghost use Rattle.lam_query.specs.inner.StandIns.{written_type, written_fields, written_entry, declared, abbreviated, AreStandIns, IsAlone};

use crate::analyses::Analysis;
use crate::bound::Bound;
use crate::entries::Entries;
use lam_rules::{Ty, TyNo, TyTable};
use lam_scope::free_names;
use lam_syntax::{ArrowTy, Command, Identifier, Text, TyField, TyNode, WrittenTy};
use lam_token::Span;
use std::alloc::{AllocError, Global};

/// A command as the last one of a document of its own, in which its free names mean what they mean in the text.
#[derive(Drop)]
pub(crate) struct Alone {
    /// Declarations of its free names, abbreviations of its free type names, and then the command.
    pub(crate) commands: Vec<Command>,
    /// The number of names declared.
    pub(crate) names: usize,
}

/// The span of the tokens of stand-ins, which are not in the text.
const NOWHERE: Span = Span { start: 0, end: 0 };

impl Analysis {
    /// Returns the command on its own, where names mean what they mean before the piece at this index.
    pub(crate) fn alone(
        &self,
        alloc: Global,
        number: usize,
        command: Command,
    ) -> Result<Alone, AllocError>
        requires of { (text : List ℕ) × IsAnalysisOf text self.now }
        requires inside { number ≤ length self.now.rows.items }
        ensures { IfOk result (λ alone. (pieces : List (List ℕ)) (s : Sight) → AreRows outset pieces (rows_of (take number self.now.rows.items)) s (types_in self.now.types) self.now.bound self.now.dialect → IsAlone s (command_of command) alone) }
    {
        let entries = Entries::after(alloc, &self.bound, &self.rows[..number])?;
        self.alone_by(alloc, &entries, command)
    }

    /// Returns the command on its own, where names have these entries.
    pub(crate) fn alone_by(
        &self,
        alloc: Global,
        entries: &Entries,
        command: Command,
    ) -> Result<Alone, AllocError>
        requires { EntriesStand (types_in self.now.types) self.now.bound entries.now }
        ensures { IfOk result (λ alone. (s : Sight) → AreMeanings s (types_in self.now.types) self.now.bound entries.now → IsAlone s (command_of command) alone) }
    {
        let mut alone = self.stand_ins(alloc, entries, &command)?;
        alone.commands.push(command)?;
        Ok(alone)
    }

    /// Returns the stand-ins of a command.
    fn stand_ins(
        &self,
        alloc: Global,
        entries: &Entries,
        command: &Command,
    ) -> Result<Alone, AllocError>
        requires { EntriesStand (types_in self.now.types) self.now.bound entries.now }
        ensures { IfOk result (λ alone. (s : Sight) → AreMeanings s (types_in self.now.types) self.now.bound entries.now → AreStandIns s (command_of command.now) alone) }
    {
        let table = self.types.table();
        let free = free_names(alloc, command)?;
        let mut commands = Vec::new(alloc);
        push_declarations(
            alloc,
            &self.bound,
            entries,
            table,
            &free.names,
            &mut commands,
        )?;
        let names = commands.len();
        push_abbreviations(
            alloc,
            &self.bound,
            entries,
            table,
            &free.type_names,
            &mut commands,
        )?;
        Ok(Alone { commands, names })
    }
}

/// Appends declarations of those of the names that are bound.
fn push_declarations(
    alloc: Global,
    bound: &Bound,
    entries: &Entries,
    table: &TyTable,
    names: &[&str],
    commands: &mut Vec<Command>,
) -> Result<(), AllocError>
    requires { EntriesStand table.now bound.now entries.now }
    ensures { OnOk result (map command_of commands.new.items ≡ map command_of commands.old.items ++ map declared (entered (name_meant table.now bound.now entries.now) (map (λ x. x.now) names.now))) }
{
    for i in 0..names.len() {
        let name = names[i];
        if let Some(entry) = entries.of_name(bound, name) {
            let ty = written_entry(alloc, table, entry)?;
            commands.push(Command::Declaration(identifier(alloc, name)?, ty))?;
        }
    }
    Ok(())
}

/// Appends abbreviations for those of the type names that are bound.
fn push_abbreviations(
    alloc: Global,
    bound: &Bound,
    entries: &Entries,
    table: &TyTable,
    names: &[&str],
    commands: &mut Vec<Command>,
) -> Result<(), AllocError>
    requires { EntriesStand table.now bound.now entries.now }
    ensures { OnOk result (map command_of commands.new.items ≡ map command_of commands.old.items ++ map abbreviated (entered (type_name_meant table.now bound.now entries.now) (map (λ x. x.now) names.now))) }
{
    for i in 0..names.len() {
        let name = names[i];
        if let Some(entry) = entries.of_type_name(bound, name) {
            let ty = written_entry(alloc, table, entry)?;
            commands.push(Command::Abbreviation(identifier(alloc, name)?, ty))?;
        }
    }
    Ok(())
}

/// An identifier that is not in the text.
fn identifier(alloc: Global, text: &str) -> Result<Identifier, AllocError>
    ensures letters { IfOk result (λ made. letters made.text ≡ text.now) }
    ensures span { IfOk result (λ made. made.span ≡ record { start = 0; end = 0 }) }
{
    Ok(Identifier {
        text: Text::new(alloc, text)?,
        span: NOWHERE,
    })
}

/// Returns a written type that stands for this entry.
fn written_entry(
    alloc: Global,
    table: &TyTable,
    entry: Option<TyNo>,
) -> Result<WrittenTy, AllocError>
    requires { StandsIfAny table.now entry }
    ensures { IfOk result (λ made. type_of made ≡ written_entry (answer table.now entry)) }
{
    match entry {
        Some(number) => written_type(alloc, &table.tree(number)?),
        None => no_type(alloc),
    }
}

/// Returns a written type that stands for no type, since it repeats a label.
fn no_type(alloc: Global) -> Result<WrittenTy, AllocError>
    ensures { IfOk result (λ made. type_of made ≡ written_entry None) }
{
    let mut fields = Vec::with_capacity(alloc, 2)?;
    fields.push(unit_field(alloc)?)?;
    fields.push(unit_field(alloc)?)?;
    Ok(standing_nowhere(TyNode::Record(fields)))
}

fn unit_field(alloc: Global) -> Result<TyField, AllocError>
    ensures label { IfOk result (λ made. (letters made.label.text ≡ codes "a") × (made.label.span ≡ record { start = 0; end = 0 })) }
    ensures ty { IfOk result (λ made. type_of made.ty ≡ written_type unit) }
{
    Ok(TyField {
        label: identifier(alloc, "a")?,
        ty: standing_nowhere(TyNode::Unit),
    })
}

fn standing_nowhere(node: TyNode) -> WrittenTy
    ensures { type_of result ≡ type_tree (record { start = 0; end = 0 }) (type_node_of node) }
{
    WrittenTy {
        span: NOWHERE,
        node,
    }
}

/// Returns a type as it would be written.
#[cycle(written_type)]
fn written_type(alloc: Global, ty: &Ty) -> Result<WrittenTy, AllocError>
    ensures { IfOk result (λ made. type_of made ≡ written_type (typ_of ty.now)) }
{
    let node = match ty {
        Ty::Bool => TyNode::Bool,
        Ty::Nat => TyNode::Nat,
        Ty::Unit => TyNode::Unit,
        Ty::Top => TyNode::Top,
        Ty::Arrow(parameter, outcome) => {
            let parameter = written_type(alloc, parameter)?;
            TyNode::Arrow(written_arrow(alloc, outcome, parameter)?)
        }
        Ty::Record(fields) => TyNode::Record(written_fields(alloc, &fields.items)?),
    };
    Ok(standing_nowhere(node))
}

/// Returns an arrow type as it would be written, from its parameter as already written. Not inlined, so that a level of a record
/// type uses little stack.
#[cycle(written_type)]
#[inline(never)]
fn written_arrow(
    alloc: Global,
    outcome: &Ty,
    parameter: WrittenTy,
) -> Result<Box<ArrowTy>, AllocError>
    ensures parameter { IfOk result (λ made. type_of made.value.parameter ≡ type_of parameter) }
    ensures outcome { IfOk result (λ made. type_of made.value.outcome ≡ written_type (typ_of outcome.now)) }
{
    let outcome = written_type(alloc, outcome)?;
    let arrow = ArrowTy { parameter, outcome };
    Ok(Box::new(alloc, arrow)?)
}

/// Returns fields as they would be written.
#[cycle(written_type)]
fn written_fields(alloc: Global, fields: &[(String, Ty)]) -> Result<Vec<TyField>, AllocError>
    ensures { IfOk result (λ made. type_fields_of made.items ≡ written_fields (fields_of fields.now)) }
{
    let mut written = Vec::with_capacity(alloc, fields.len())?;
    for i in 0..fields.len() {
        let field = &fields[i];
        let label = identifier(alloc, field.0.as_str())?;
        let ty = written_type(alloc, &field.1)?;
        written.push(TyField { label, ty })?;
    }
    Ok(written)
}
