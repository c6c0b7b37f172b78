//! Subtyping of trees and of type ids, with wide types. Deep ones are tested by `rows/check.py` and `bench/process.py`.

ghost use Rattle.std.specs.Prelude.{IfOk};
ghost use Rattle.lam_rules.specs.Types.{IsWellFormed};
ghost use Rattle.lam_rules.specs.TypeViews.{typ_of};
ghost use Rattle.lam_rules.specs.Numbers.{Stands};

use crate::table::{doubled_nat, doubled_record};
use crate::written::{check_rows, equal, fields, type_of, well_formed, wide_record};
use Dialect::{One, Two};
use lam_rules::{Dialect, SubProof, Ty, TyNo, TyTable, check_sub, make_record};
use lam_sub::{Verdicts, is_sub, is_sub_no, prove_sub};
use std::alloc::{AllocError, Global};
use std::test::Fail;

/// The number of steps of a proof.
fn steps(proof: &SubProof) -> u64 {
    let mut count: u64 = 1;
    for premise in &proof.premises {
        count = count.saturating_add(steps(premise));
    }
    count
}

/// The number of steps of the proof that one type is a subtype of the other, or 0 if there is none that the checker accepts.
fn steps_below(alloc: Global, lower: &Ty, upper: &Ty, dialect: Dialect) -> Result<u64, AllocError>
    requires lower { IsWellFormed (typ_of lower.now) }
    requires upper { IsWellFormed (typ_of upper.now) }
{
    match prove_sub(alloc, lower, upper, dialect)? {
        Some(proof) if check_sub(&proof, dialect) => Ok(steps(&proof)),
        _ => Ok(0),
    }
}

/// The type ids of two types.
#[tactic(auto, using(lam_rules::proofs::Tables::numbers))]
pub(crate) fn add_both(
    table: &mut TyTable,
    left: &Ty,
    right: &Ty,
) -> Result<(TyNo, TyNo), AllocError>
    requires left { IsWellFormed (typ_of left.now) }
    requires right { IsWellFormed (typ_of right.now) }
    ensures { IfOk result (λ both. Stands table.new both.0 × Stands table.new both.1) }
{
    let left_number = table.add(left)?;
    let right_number = table.add(right)?;
    Ok((left_number, right_number))
}

/// Whether one type id is a subtype of the other, computed for the first time and again, and whether the two are the same type to
/// the rules.
fn numbers_below(
    alloc: Global,
    lower: &Ty,
    upper: &Ty,
    dialect: Dialect,
) -> Result<(bool, bool, bool), AllocError>
    requires lower { IsWellFormed (typ_of lower.now) }
    requires upper { IsWellFormed (typ_of upper.now) }
{
    let mut table = TyTable::new(alloc);
    let mut verdicts = Verdicts::new(alloc, dialect);
    let (lower_number, upper_number) = add_both(&mut table, lower, upper)?;
    let first = is_sub_no(&table, &mut verdicts, lower_number, upper_number)?;
    let again = is_sub_no(&table, &mut verdicts, lower_number, upper_number)?;
    Ok((first, again, table.same(lower_number, upper_number)))
}

/// How two types are related, as one text: the verdict on their trees, and the results of the functions above.
fn related(alloc: Global, lower: &Ty, upper: &Ty, dialect: Dialect) -> Result<String, AllocError>
    requires lower { IsWellFormed (typ_of lower.now) }
    requires upper { IsWellFormed (typ_of upper.now) }
{
    let verdict = is_sub(lower, upper, dialect);
    let count = steps_below(alloc, lower, upper, dialect)?;
    let (first, again, same) = numbers_below(alloc, lower, upper, dialect)?;
    format!(in alloc; "{verdict} {count} {first} {again} {same}")
}

const AB: &str = "{a:Nat, b:Bool}";

const BA: &str = "{b:Bool, a:Nat}";

/// Not a subtype, and no proof.
const UNRELATED: &str = "false 0 false false false";

/// A lower type, an upper type, and how they are related in both dialects.
static ROWS: [((&str, &str), &str); 19] = [
    (("{}", "Top"), "true 1 true true false"),
    (("Top", "{}"), UNRELATED),
    ((BA, "{a:Nat}"), "true 3 true true false"),
    (("Top->Nat", "{x:Nat}->Top"), "true 3 true true false"),
    (
        ("{a:{x:Nat, y:Bool}}", "{a:{y:Bool}}"),
        "true 4 true true false",
    ),
    (("Nat", "Bool"), UNRELATED),
    (("{a:Nat}->Nat", "{}->Nat"), UNRELATED),
    ((AB, AB), "true 1 true true true"),
    ((AB, BA), "true 1 true true true"),
    ((AB, "{a:Nat}"), "true 1 true true false"),
    (("{a:Nat}", AB), UNRELATED),
    ((AB, "{a:Bool, b:Nat}"), UNRELATED),
    (
        ("{c:Nat, a:{x:Nat}, b:Bool}", "{b:Bool, a:{}}"),
        "true 7 true true false",
    ),
    (
        ("((Top->Nat)->Nat)->Nat", "((Nat->Nat)->Nat)->Nat"),
        "true 7 true true false",
    ),
    (
        (
            "{a:Nat, b:Bool}->{a:Nat, b:Bool}",
            "{b:Bool, a:Nat}->{a:Nat, b:Bool}",
        ),
        "true 3 true true true",
    ),
    (
        (
            "{a:Nat}->{a:Nat, b:Bool}",
            "{a:Nat, b:Bool}->{a:Nat, b:Bool}",
        ),
        "true 3 true true false",
    ),
    (
        (
            "{a:Nat, b:Bool}->{a:Nat, b:Bool}",
            "{a:Nat}->{a:Nat, b:Bool}",
        ),
        UNRELATED,
    ),
    (("Unit", "Unit"), "true 1 true true true"),
    (("Unit", "Bool"), UNRELATED),
];

/// In dialect one only.
static IN_ONE: [((&str, &str), &str); 3] = [
    (("Bool", "Nat"), UNRELATED),
    ((AB, "{a:Top, b:Nat}"), UNRELATED),
    (("{a:Bool}", "{a:Nat}"), UNRELATED),
];

/// In dialect two only.
static IN_TWO: [((&str, &str), &str); 3] = [
    (("Bool", "Nat"), "true 1 true true false"),
    ((AB, "{a:Top, b:Nat}"), "true 3 true true false"),
    (("{a:Bool}", "{a:Nat}"), "true 2 true true false"),
];

fn related_texts(
    alloc: Global,
    lower: &str,
    upper: &str,
    dialect: Dialect,
) -> Result<String, Fail> {
    let lower_type = type_of(alloc, lower)?;
    let upper_type = type_of(alloc, upper)?;
    Ok(related(alloc, &lower_type, &upper_type, dialect)?)
}

fn in_one(alloc: Global, (lower, upper): (&str, &str)) -> Result<String, Fail> {
    related_texts(alloc, lower, upper, One)
}

fn in_two(alloc: Global, (lower, upper): (&str, &str)) -> Result<String, Fail> {
    related_texts(alloc, lower, upper, Two)
}

#[test]
fn subtyping_of_written_types(rt: HostRuntime) -> Result<(), Fail> {
    check_rows(&rt, rt.alloc(), in_one, &ROWS)?;
    check_rows(&rt, rt.alloc(), in_two, &ROWS)?;
    check_rows(&rt, rt.alloc(), in_one, &IN_ONE)?;
    check_rows(&rt, rt.alloc(), in_two, &IN_TWO)
}

/// A record of Nat fields with the labels `l0` to `l999`, in descending order.
fn downward(alloc: Global) -> Result<Ty, Fail>
    ensures { IfOk result (λ ty. IsWellFormed (typ_of ty)) }
{
    let mut items = fields(alloc, 0, 1_000, &Ty::Nat)?;
    items.reverse();
    well_formed(make_record(alloc, items)?)
}

/// How the record type with those labels in ascending order is related to that in descending order.
fn turned(alloc: Global) -> Result<String, Fail> {
    let upward = wide_record(alloc, 0, 1_000, &Ty::Nat)?;
    let downward = downward(alloc)?;
    Ok(related(alloc, &upward, &downward, One)?)
}

/// How `{l999:Top}` and the ascending record type are related, in both directions.
fn last_field(alloc: Global) -> Result<String, Fail> {
    let all = wide_record(alloc, 0, 1_000, &Ty::Nat)?;
    let one = type_of(alloc, "{l999:Top}")?;
    let upward = related(alloc, &one, &all, One)?;
    let below = related(alloc, &all, &one, One)?;
    Ok(format!(in alloc; "{upward}, {below}")?)
}

#[test]
fn a_thousand_fields(rt: HostRuntime) -> Result<(), Fail> {
    equal(&rt, &turned(rt.alloc())?, "true 1 true true true");
    let last = last_field(rt.alloc())?;
    equal(
        &rt,
        &last,
        "false 0 false false false, true 6 true true false",
    );
    Ok(())
}

/// Two types of a trillion nodes each.
#[tactic(auto, using(lam_rules::proofs::Tables::numbers))]
fn narrow_and_wide(table: &mut TyTable) -> Result<(TyNo, TyNo), AllocError>
    ensures { IfOk result (λ both. Stands table.new both.0 × Stands table.new both.1) }
{
    let narrow = doubled_record(table, "a")?;
    let wide = doubled_nat(table, "b", "a", 41)?;
    Ok((narrow, wide))
}

/// Whether the wide one is a subtype of the narrow one, and vice versa.
fn doubled_verdicts(alloc: Global) -> Result<(bool, bool), AllocError> {
    let mut table = TyTable::new(alloc);
    let mut verdicts = Verdicts::new(alloc, One);
    let (narrow, wide) = narrow_and_wide(&mut table)?;
    let downward = is_sub_no(&table, &mut verdicts, wide, narrow)?;
    let upward = is_sub_no(&table, &mut verdicts, narrow, wide)?;
    Ok((downward, upward))
}

#[test]
fn types_doubled_forty_times(rt: HostRuntime) -> Result<(), AllocError> {
    assert_eq!(rt; doubled_verdicts(rt.alloc())?, (true, false));
    Ok(())
}
