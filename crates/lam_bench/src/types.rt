//! Types in a type table: adding one, and the bounds of two that are doubled.

ghost use Rattle.std.specs.Prelude.{IfOk};
ghost use Rattle.lam_rules.specs.Numbers.{Stands, Keeps, AllStand, AreGivenApart};

use crate::fault::BenchFault;
use crate::watch::Watch;
use lam_lattice::{join_no, meet_no};
use lam_rules::{Dialect, Shape, Ty, TyNo, TyTable, make_record, wf};
use lam_sub::Verdicts;
use std::alloc::{AllocError, Global};
use std::rt::Clock;
use std::time::Duration;

/// A record type of Nat at `l0`, `l1` and so on.
fn wide_record(alloc: Global, size: usize) -> Result<Ty, AllocError> {
    let mut fields = Vec::new(alloc);
    for number in 0..size {
        fields.push((format!(in alloc; "l{number}")?, Ty::Nat))?;
    }
    make_record(alloc, fields)
}

/// Returns the time it takes to add a record type of `size` fields to an empty table.
pub fn adding(alloc: Global, clock: &impl Clock, size: usize) -> Result<Duration, BenchFault> {
    let record = wide_record(alloc, size)?;
    if !wf(&record) {
        return Err(BenchFault::Answer);
    }
    let mut table = TyTable::new(alloc);
    let watch = Watch::start(clock);
    table.add(&record)?;
    watch.stop(clock, true)
}

/// The record with these labels, wrapped `steps` times as `{a:t, b:t}`.
#[tactic(auto, using(lam_rules::proofs::Tables::numbers))]
fn doubled(table: &mut TyTable, labels: &[(&str, TyNo)], steps: usize) -> Result<TyNo, AllocError>
    requires stand { AllStand table.old labels.now }
    requires apart { AreGivenApart labels.now }
    ensures keeps { Keeps table.old table.new }
    ensures stands { IfOk result (λ number. Stands table.new number) }
{
    let mut number = table.record(labels)?;
    for _ in 0..steps {
        number = table.record(&[("a", number), ("b", number)])?;
    }
    Ok(number)
}

/// Two types that were doubled `size` times, neither of which is a subtype of the other.
#[tactic(auto, using(lam_rules::proofs::Tables::numbers))]
fn doubled_pair(table: &mut TyTable, size: usize) -> Result<(TyNo, TyNo), AllocError>
    ensures keeps { Keeps table.old table.new }
    ensures stand { IfOk result (λ pair. Stands table.new pair.0 × Stands table.new pair.1) }
{
    let nat = table.intern(Shape::Nat)?;
    let left = doubled(table, &[("a", nat)], size)?;
    let right = doubled(table, &[("b", nat)], size)?;
    Ok((left, right))
}

/// Joins and meets two types of a table, and returns whether they have a common subtype.
#[tactic(auto, using(lam_rules::proofs::Tables::numbers))]
fn join_and_meet(
    alloc: Global,
    table: &mut TyTable,
    left: TyNo,
    right: TyNo,
) -> Result<bool, AllocError>
    requires left { Stands table.old left }
    requires right { Stands table.old right }
{
    let mut verdicts = Verdicts::new(alloc, Dialect::One);
    join_no(table, &mut verdicts, left, right)?;
    let lower = meet_no(table, &mut verdicts, left, right)?;
    Ok(lower.is_some())
}

/// Returns the time it takes to join and meet two types that were doubled `size` times.
pub fn bounding(alloc: Global, clock: &impl Clock, size: usize) -> Result<Duration, BenchFault> {
    let mut table = TyTable::new(alloc);
    let (left, right) = doubled_pair(&mut table, size)?;
    let watch = Watch::start(clock);
    let has_lower = join_and_meet(alloc, &mut table, left, right)?;
    watch.stop(clock, has_lower)
}
