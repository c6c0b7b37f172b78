//! Joins and meets of trees and of type ids. Both bounds of two types are shown as one type: an arrow from the join to the meet,
//! or only the join if there is no meet.

ghost use Rattle.std.specs.Prelude.{IfOk};
ghost use Rattle.lam_rules.specs.Numbers.{Stands};
ghost use Rattle.lam_rules.specs.Types.{IsWellFormed};
ghost use Rattle.lam_rules.specs.TypeViews.{typ_of};

use crate::subtyping::add_both;
use crate::table::{doubled, doubled_nat, doubled_record};
use crate::written::{check_rows, equal, type_of, wide_record};
use Dialect::{One, Two};
use lam_lattice::{join, join_no, meet, meet_no};
use lam_rules::{Dialect, Ty, TyNo, TyTable, make_arrow, plain_text_of};
use lam_sub::Verdicts;
use std::alloc::{AllocError, Global};
use std::test::Fail;

fn bounds_type(alloc: Global, joined: Ty, met: Option<Ty>) -> Result<Ty, AllocError> {
    match met {
        Some(met) => make_arrow(alloc, joined, met),
        None => Ok(joined),
    }
}

/// The bounds of trees.
fn bounds(alloc: Global, left: &Ty, right: &Ty, dialect: Dialect) -> Result<String, AllocError>
    requires left { IsWellFormed (typ_of left.now) }
    requires right { IsWellFormed (typ_of right.now) }
{
    let joined = join(alloc, left, right, dialect)?;
    let met = meet(alloc, left, right, dialect)?;
    plain_text_of(alloc, &bounds_type(alloc, joined, met)?)
}

/// The join of type ids in a table.
fn numbered_join(alloc: Global, left: &Ty, right: &Ty, dialect: Dialect) -> Result<Ty, AllocError>
    requires left { IsWellFormed (typ_of left.now) }
    requires right { IsWellFormed (typ_of right.now) }
{
    let mut table = TyTable::new(alloc);
    let mut verdicts = Verdicts::new(alloc, dialect);
    let (left_number, right_number) = add_both(&mut table, left, right)?;
    let number = join_no(&mut table, &mut verdicts, left_number, right_number)?;
    table.tree(number)
}

fn numbered_meet(
    alloc: Global,
    left: &Ty,
    right: &Ty,
    dialect: Dialect,
) -> Result<Option<Ty>, AllocError>
    requires left { IsWellFormed (typ_of left.now) }
    requires right { IsWellFormed (typ_of right.now) }
{
    let mut table = TyTable::new(alloc);
    let mut verdicts = Verdicts::new(alloc, dialect);
    let (left_number, right_number) = add_both(&mut table, left, right)?;
    match meet_no(&mut table, &mut verdicts, left_number, right_number)? {
        Some(number) => Ok(Some(table.tree(number)?)),
        None => Ok(None),
    }
}

fn numbered_bounds(
    alloc: Global,
    left: &Ty,
    right: &Ty,
    dialect: Dialect,
) -> Result<String, AllocError>
    requires left { IsWellFormed (typ_of left.now) }
    requires right { IsWellFormed (typ_of right.now) }
{
    let joined = numbered_join(alloc, left, right, dialect)?;
    let met = numbered_meet(alloc, left, right, dialect)?;
    plain_text_of(alloc, &bounds_type(alloc, joined, met)?)
}

/// The bounds of trees, followed by those of type ids if they differ.
fn both_bounds(alloc: Global, left: &Ty, right: &Ty, dialect: Dialect) -> Result<String, AllocError>
    requires left { IsWellFormed (typ_of left.now) }
    requires right { IsWellFormed (typ_of right.now) }
{
    let mut trees = bounds(alloc, left, right, dialect)?;
    let numbers = numbered_bounds(alloc, left, right, dialect)?;
    if trees.as_str() != numbers.as_str() {
        trees.push_str(&numbers)?;
    }
    Ok(trees)
}

const AB: &str = "{a:Nat, b:Bool}";

const BC: &str = "{b:Bool, c:Unit}";

/// The dialect, two types, and their bounds, with fields in the order of the first type.
static ROWS: [((Dialect, &str, &str), &str); 22] = [
    ((One, AB, BC), "{b:Bool}->{a:Nat, b:Bool, c:Unit}"),
    ((One, BC, AB), "{b:Bool}->{b:Bool, c:Unit, a:Nat}"),
    ((One, "{a:Nat}", "{a:Bool}"), "{a:Top}"),
    ((Two, "{a:Nat}", "{a:Bool}"), "{a:Nat}->{a:Bool}"),
    ((One, "Nat->Nat", "Bool->Nat"), "Top->Top->Nat"),
    ((Two, "Nat->Nat", "Bool->Nat"), "(Bool->Nat)->Nat->Nat"),
    ((One, "Nat->Nat", "Nat->Bool"), "Nat->Top"),
    ((Two, "Nat->Nat", "Nat->Bool"), "(Nat->Nat)->Nat->Bool"),
    (
        (One, "{a:Nat}->Bool", "{b:Nat}->Nat"),
        "{a:Nat, b:Nat}->Top",
    ),
    ((One, "{}", "Nat"), "Top"),
    ((One, "Top", "{}"), "Top->{}"),
    ((One, "{}", "Top"), "Top->{}"),
    ((One, "Bool", "Nat"), "Top"),
    ((One, "Nat", "Bool"), "Top"),
    ((Two, "Bool", "Nat"), "Nat->Bool"),
    ((Two, "Nat", "Bool"), "Nat->Bool"),
    ((Two, "Nat", "Unit"), "Top"),
    ((One, "Unit", "Unit"), "Unit->Unit"),
    ((One, "Nat->Nat", AB), "Top"),
    ((One, AB, "Nat->Nat"), "Top"),
    (
        (One, AB, "{b:Bool, a:Nat}"),
        "{a:Nat, b:Bool}->{a:Nat, b:Bool}",
    ),
    ((One, "{}", AB), "{}->{a:Nat, b:Bool}"),
];

fn bounds_of_texts(
    alloc: Global,
    (dialect, left, right): (Dialect, &str, &str),
) -> Result<String, Fail> {
    let left_type = type_of(alloc, left)?;
    let right_type = type_of(alloc, right)?;
    Ok(both_bounds(alloc, &left_type, &right_type, dialect)?)
}

#[test]
fn joins_and_meets_of_written_types(rt: HostRuntime) -> Result<(), Fail> {
    check_rows(&rt, rt.alloc(), bounds_of_texts, &ROWS)
}

/// Labels numbered from `first` up to but not including `end`, each followed by `behind`, as `l500:Nat, l501:Nat`.
fn labelled(alloc: Global, first: u32, end: u32, behind: &str) -> Result<String, AllocError> {
    let mut text = String::new(alloc);
    for number in first..end {
        let comma = if number == first { "" } else { ", " };
        write!(text, "{comma}l{number}{behind}")?;
    }
    Ok(text)
}

/// `{l2500:Nat, ..}->{l0:Nat, .., l2500:Bool, ..}`
fn wanted_of_wide(alloc: Global) -> Result<String, AllocError> {
    let shared = labelled(alloc, 2_500, 5_000, ":Nat")?;
    let front = labelled(alloc, 0, 2_500, ":Nat")?;
    let lesser = labelled(alloc, 2_500, 7_500, ":Bool")?;
    format!(in alloc; "{{{shared}}}->{{{front}, {lesser}}}")
}

/// Two records of five thousand fields, which is over the size limit of a document, with half of their labels in common, in the
/// dialect where Bool is a subtype of Nat.
fn bounds_of_wide(alloc: Global) -> Result<String, Fail> {
    let left = wide_record(alloc, 0, 5_000, &Ty::Nat)?;
    let right = wide_record(alloc, 2_500, 7_500, &Ty::Bool)?;
    Ok(both_bounds(alloc, &left, &right, Two)?)
}

#[test]
fn records_of_five_thousand_fields(rt: HostRuntime) -> Result<(), Fail> {
    equal(
        &rt,
        &bounds_of_wide(rt.alloc())?,
        &wanted_of_wide(rt.alloc())?,
    );
    Ok(())
}

/// Two types of a trillion nodes each, neither of which is a subtype of the other.
#[tactic(auto, using(lam_rules::proofs::Tables::numbers))]
fn sides(table: &mut TyTable) -> Result<(TyNo, TyNo), AllocError>
    ensures { IfOk result (λ both. Stands table.new both.0 × Stands table.new both.1) }
{
    let left = doubled_record(table, "a")?;
    let right = doubled_record(table, "b")?;
    Ok((left, right))
}

/// The bounds of these types: the same doublings of the empty record and of `{a:Nat, b:Nat}`.
#[tactic(auto, using(lam_rules::proofs::Tables::numbers))]
fn expected(table: &mut TyTable) -> Result<(TyNo, TyNo), AllocError> {
    let none = table.record(&[])?;
    let upper = doubled(table, none, "a", "b", 40)?;
    let lower = doubled_nat(table, "a", "b", 41)?;
    Ok((upper, lower))
}

#[tactic(auto, using(lam_rules::proofs::Tables::numbers))]
fn doubled_bounds(alloc: Global) -> Result<(bool, bool), AllocError> {
    let mut table = TyTable::new(alloc);
    let mut verdicts = Verdicts::new(alloc, One);
    let (left, right) = sides(&mut table)?;
    let joined = join_no(&mut table, &mut verdicts, left, right)?;
    let met = meet_no(&mut table, &mut verdicts, left, right)?;
    let (upper, lower) = expected(&mut table)?;
    Ok((joined == upper, met == Some(lower)))
}

#[test]
fn types_doubled_forty_times(rt: HostRuntime) -> Result<(), AllocError> {
    assert_eq!(rt; doubled_bounds(rt.alloc())?, (true, true));
    Ok(())
}
