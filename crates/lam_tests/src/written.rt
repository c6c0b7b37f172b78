//! Types from texts, records with numbered labels, and the comparison of rows with expected results.

ghost use Rattle.std.specs.Prelude.{IfOk};
ghost use Rattle.lam_rules.specs.Types.{IsWellFormed};
ghost use Rattle.lam_rules.specs.TypeViews.{typ_of};

use lam_rules::{Ty, copy_of, make_record, wf};
use lam_scope::{Resolved, Statement, bind, resolve};
use lam_syntax::{Command, parse};
use lam_token::lex;
use std::alloc::{AllocError, Global};
use std::process::Abort;
use std::test::Fail;

/// Asserts that two texts are equal, and prints both if not.
pub(crate) fn equal(rt: &impl Abort, shown: &str, wanted: &str) {
    assert_eq!(rt; shown, wanted);
}

/// Compares what is shown for each row with the expected text.
pub(crate) fn check_rows<T: Copy, E, F: Fn(Global, T) -> Result<String, E>>(
    rt: &impl Abort,
    alloc: Global,
    shown: F,
    rows: &[(T, &str)],
) -> Result<(), E>
    requires { F.IsAlwaysCallable shown }
{
    for row in rows {
        equal(rt, &shown(alloc, row.0)?, row.1);
    }
    Ok(())
}

/// The only command of a text.
pub(crate) fn command_of(alloc: Global, text: &str) -> Result<Command, Fail> {
    let tokens = lex(alloc, text)?;
    Ok(parse(alloc, &tokens)?)
}

/// The nameless form of the declaration of a name with the type that is written in a text.
fn declaration_of(alloc: Global, text: &str) -> Result<Resolved, Fail> {
    let mut commands = Vec::new(alloc);
    commands.push(command_of(alloc, &format!(in alloc; "x : {text}")?)?)?;
    let scopes = bind(alloc, &commands)?;
    Ok(resolve(alloc, &commands, &scopes)?)
}

/// The type written in a text.
pub(crate) fn type_of(alloc: Global, text: &str) -> Result<Ty, Fail>
    ensures { IfOk result (λ ty. IsWellFormed (typ_of ty)) }
{
    let resolved = declaration_of(alloc, text)?;
    let Some(Statement::Declaration(Some(ty))) = resolved.statements().first() else {
        return Err(Fail::new("no type"));
    };
    well_formed(copy_of(ty)?)
}

/// Returns this type if its labels are distinct, otherwise fails.
pub(crate) fn well_formed(ty: Ty) -> Result<Ty, Fail>
    ensures { IfOk result (λ ty. IsWellFormed (typ_of ty)) }
{
    if wf(&ty) {
        Ok(ty)
    } else {
        Err(Fail::new("a label stands twice"))
    }
}

/// Fields with labels numbered from `first` up to but not including `end`, as `l500:Nat` and `l501:Nat`.
pub(crate) fn fields(
    alloc: Global,
    first: u32,
    end: u32,
    ty: &Ty,
) -> Result<Vec<(String, Ty)>, AllocError> {
    let mut items = Vec::new(alloc);
    for number in first..end {
        items.push((format!(in alloc; "l{number}")?, copy_of(ty)?))?;
    }
    Ok(items)
}

/// The record type with these fields, as `{l500:Nat, l501:Nat}`.
pub(crate) fn wide_record(alloc: Global, first: u32, end: u32, ty: &Ty) -> Result<Ty, Fail>
    ensures { IfOk result (λ ty. IsWellFormed (typ_of ty)) }
{
    let record = make_record(alloc, fields(alloc, first, end, ty)?)?;
    well_formed(record)
}
