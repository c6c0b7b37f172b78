//! Types by their ids in a table.

ghost use Rattle.std.specs.Prelude.{◌≡◌, IfOk};
ghost use Rattle.lam_rules.specs.Numbers.{Stands, Keeps};

use crate::written::{check_rows, type_of};
use lam_rules::{Shape, TyNo, TyTable, labels_differ, number_under};
use std::alloc::{AllocError, Global};
use std::test::Fail;

/// The outermost form of a type: the result of an arrow, or facts about the labels of a record type.
fn form(alloc: Global, table: &TyTable, number: TyNo) -> Result<String, AllocError>
    requires { Stands table.now number }
{
    match table.shape(number) {
        Shape::Arrow(_, outcome) => table.text(*outcome),
        Shape::Record(fields) => {
            let differ = labels_differ(fields);
            let is_there = number_under("n", fields).is_some();
            format!(in alloc; "{} fields {differ} {is_there}", fields.len())
        }
        _ => Ok(String::new(alloc)),
    }
}

fn form_of(alloc: Global, text: &str) -> Result<String, Fail> {
    let mut table = TyTable::new(alloc);
    let number = table.add(&type_of(alloc, text)?)?;
    Ok(form(alloc, &table, number)?)
}

static FORMS: [(&str, &str); 4] = [
    ("Nat->Bool", "Bool"),
    ("{f:Nat->Bool, n:Nat}", "2 fields true true"),
    ("{f:Nat->Bool}", "1 fields true false"),
    ("Unit", ""),
];

#[test]
fn outermost_forms(rt: HostRuntime) -> Result<(), Fail> {
    check_rows(&rt, rt.alloc(), form_of, &FORMS)
}

/// Replaces a type `t` by `{first:t, second:t}`, this many times.
#[tactic(auto, using(lam_rules::proofs::Tables::numbers))]
pub(crate) fn doubled(
    table: &mut TyTable,
    start: TyNo,
    first: &str,
    second: &str,
    times: usize,
) -> Result<TyNo, AllocError>
    requires start { Stands table.old start }
    requires apart { first.now ≡ second.now → ⊥ }
    ensures keeps { Keeps table.old table.new }
    ensures stands { IfOk result (λ number. Stands table.new number) }
{
    let mut number = start;
    for _ in 0..times {
        number = table.record(&[(first, number), (second, number)])?;
    }
    Ok(number)
}

/// Nat, doubled this many times.
#[tactic(auto, using(lam_rules::proofs::Tables::numbers))]
pub(crate) fn doubled_nat(
    table: &mut TyTable,
    first: &str,
    second: &str,
    times: usize,
) -> Result<TyNo, AllocError>
    requires apart { first.now ≡ second.now → ⊥ }
    ensures keeps { Keeps table.old table.new }
    ensures stands { IfOk result (λ number. Stands table.new number) }
{
    let nat = table.intern(Shape::Nat)?;
    doubled(table, nat, first, second, times)
}

/// A record of Nat with this label, doubled forty times: a type of a trillion nodes.
#[tactic(auto, using(lam_rules::proofs::Tables::numbers))]
pub(crate) fn doubled_record(table: &mut TyTable, label: &str) -> Result<TyNo, AllocError>
    ensures keeps { Keeps table.old table.new }
    ensures stands { IfOk result (λ number. Stands table.new number) }
{
    let nat = table.intern(Shape::Nat)?;
    let record = table.record(&[(label, nat)])?;
    doubled(table, record, "a", "b", 40)
}

/// `{a:t, b:t}` and `{b:t, a:t}`, applied this many times to Nat: their size, whether they are the same type to the rules,
/// whether the second sorts to the first, and whether their ids differ.
#[tactic(auto, using(lam_rules::proofs::Tables::numbers))]
fn turned(alloc: Global, times: usize) -> Result<String, AllocError> {
    let mut table = TyTable::new(alloc);
    let sorted = doubled_nat(&mut table, "a", "b", times)?;
    let turned = doubled_nat(&mut table, "b", "a", times)?;
    let nodes = table.size(turned);
    let same = table.same(sorted, turned);
    let sorts = table.sorted(turned) == sorted;
    format!(in alloc; "{nodes} {same} {sorts} {}", sorted != turned)
}

static DOUBLED: [(usize, &str); 7] = [
    (1, "3 true true true"),
    (2, "7 true true true"),
    (3, "15 true true true"),
    (10, "2047 true true true"),
    (11, "4095 true true true"),
    (12, "4097 true true true"),
    (41, "4097 true true true"),
];

#[test]
fn types_doubled_up_to_41_times(rt: HostRuntime) -> Result<(), AllocError> {
    check_rows(&rt, rt.alloc(), turned, &DOUBLED)
}
